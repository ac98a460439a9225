//! Chunks of signatures are checked by several workers at once, and the verdicts are those of one.
//!
//! The signatures are cut into chunks. A worker walks every so many-th chunk by a checker of its own, in a thread of its own where one can be made.
//!
//! What is proved:
//! `check_all` (clauses `found`, `work`): each signature has the verdict on the one run that it means, by the edges of that run alone; the work is the sum of the walks of the chunks.
//! Neither clause speaks of the workers, nor the first of the chunks, and both pin what is found and counted (`laws`).
//! That threads are started, and that each worker calls the gate, is shown by tests alone.
#![tactic(auto)]

mod checked;
mod gather;
pub mod laws;
mod pool;
mod share;
mod task;
mod walker;

pub use checked::Checked;
pub use pool::check_all;

#[cfg(test)]
mod comparison;
#[cfg(test)]
mod tests;
