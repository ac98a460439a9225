//! What a checker says of a run.

/// The verdict on a run, and how it was reached.
#[derive(Clone, Copy, PartialEq, Eq, Debug, Drop)]
pub enum Verdict {
    /// There was no base, and the run has the least order of all nodes.
    Sorted,
    /// The base's order is an order of the run too.
    Kept,
    /// A window of so many nodes of the base's order was sorted again.
    Resorted { nodes: u32 },
    /// The run has no order. With a base, the nodes of a window of this length have none.
    Cycle { window: Option<u32> },
}
