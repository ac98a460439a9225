//! A test with its runs, wherever these come from.

use signature_plan::Plan;
use tally::Tally;
use test_lang::test::Test;

/// A test, and its runs, which were counted.
#[derive(Drop)]
pub(crate) struct TestRuns {
    pub(crate) test: Test,
    pub(crate) plan: Plan,
    /// The number of the runs.
    pub(crate) runs: u64,
    /// How often each outcome occurred; where the runs pass a limit, only among the first of them, or among none.
    pub(crate) tally: Tally,
}
