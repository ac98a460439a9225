//! What is to be run.
ghost use Rattle.test_lang.specs.Program.{IsWithinLimits};

use signature_plan::Plan;
use test_lang::target::{Fault, Target};
use test_lang::test::Test;

/// The drawn runs of a test from run 0 on, on a machine that may carry a fault.
#[derive(Clone, Copy, Debug)]
pub struct Job<'a> {
    pub test: &'a Test,
    /// The plan of the test's signatures.
    pub plan: &'a Plan,
    pub target: Target,
    pub fault: Fault,
    pub seed: u64,
    /// The number of the runs.
    pub runs: u32,
}

impl Job<'_> {
    /// The test is within the limits.
    pub(crate) fn keeps_limits(&self)
        ensures { IsWithinLimits self.now.test.now }
    {
        let _words = self.test.words();
    }
}
