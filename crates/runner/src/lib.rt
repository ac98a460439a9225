//! The drawn runs of a test.
//!
//! What is proved:
//! `run_one`: the tally is that of the outcomes of the drawn runs, from run 0 on.
//! `run_all` (clauses `passes`, `others`, `late`, `tally`): each runner's outcomes enter the set by its pass, in order and nothing else, whatever the turns; the tally is that of all drawn runs, and what is put late is of a pass
//! that was told that the turn was taken.
//!
//! That each runner has a thread of its own, and when it calls the gate and offers its batch, is shown by tests alone.
#![tactic(auto)]

mod all;
mod build;
mod job;
mod one;
mod play;
mod task;
mod work;

pub use all::run_all;
pub use job::Job;
pub use one::run_one;

#[cfg(test)]
mod all_tests;
#[cfg(test)]
mod tests;
