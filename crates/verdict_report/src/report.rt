//! What a report is made of.

use digraph::Nodes;
use tally::Tally;
use test_lang::op::MemModel;

/// The verdict on a signature.
#[derive(Debug, PartialEq, Eq, Drop)]
pub enum Judged {
    /// The constraint graph has an order.
    Ok,
    /// It has none; these are the nodes of its canonical cycle.
    Cycle(Nodes),
}

/// How the signatures were checked.
#[derive(Clone, Copy, Debug, PartialEq, Eq, Drop)]
pub struct Work {
    /// The number of chunks.
    pub chunks: u64,
    /// How many signatures had all their nodes sorted, also where no order came of it.
    pub full: u64,
    /// How many took over the order that was there.
    pub kept: u64,
    /// How many had a window of that order sorted again, also where no order came of it.
    pub resorted: u64,
    /// The number of nodes in those windows.
    pub nodes: u64,
}

/// A report: what was checked, and what came of it.
#[derive(Drop)]
pub struct Report<'a> {
    /// The memory model of the check.
    pub model: MemModel,
    /// The number of recorded runs.
    pub runs: u64,
    /// How often each outcome occurred.
    pub tally: &'a Tally,
    /// One verdict for each signature of the tally, in its order.
    pub found: &'a [Judged],
    /// How the signatures were checked.
    pub work: Work,
}
