//! Windowed re-sorting. Runs that stand beside each other have nearly the same constraint graph: each is sorted from the last order that was found in the chunk, by a few of the run's edges: only the window that these point backward in is sorted again.
//!
//! What is proved:
//! `Checker::next`: a run gets the verdict of the walk's definition, and leaves the base of it, over all edges of the run, though few are kept (`taken`); it has a cycle exactly where it has no order (`none`); with a base it reads at most three
//! edges and one for each thread for each load that changed, and four times the edges in and out of the window's nodes (`few`). `Checker::order`: it respects every edge of the base's run. `Checker::cycle_into`: the canonical cycle, and the base
//! stays. Nothing but `Checker::new` takes memory.
//! Laws (`laws`): the window of few edges is that of all, and so is the least order of its nodes; an order of the window is put in place; where some nodes have no order the graph has none; a run is taken one way.
#![tactic(auto)]

mod checking;
mod cycles;
mod held_graph;
pub mod laws;
mod load_rows;
mod orders_kept;
pub mod plain;
mod spans;
mod verdicts;

pub use checking::Checker;
pub use spans::Window;
pub use verdicts::Verdict;

#[cfg(test)]
mod tests;
