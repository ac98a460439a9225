//! A runner's part of a job.

use tally::Outcome;
use turn_set::Pass;

/// What a runner begins with. Its number is that of its pass.
#[derive(Drop)]
pub(crate) struct Task<M> {
    pub(crate) pass: Pass,
    pub(crate) batch: Vec<Outcome>,
    pub(crate) machine: M,
    /// Where a signature stands on the way.
    pub(crate) words: Vec<u64>,
}

/// What it gives back.
#[derive(Drop)]
pub(crate) struct Ran {
    pub(crate) pass: Pass,
    /// What wasn't added.
    pub(crate) batch: Vec<Outcome>,
    /// Whether memory was refused.
    pub(crate) failed: bool,
}
