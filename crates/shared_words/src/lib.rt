//! Races: the threads of a test run on words of one table, each in a thread of its own and each operation by one atomic step.
//!
//! What is proved:
//! `race` (clauses `interleaved`, `inside`, `acyclic`): the run is that of one interleaving of the test's threads, a done play of the sequential machine without a fault. So each value is a candidate's, and the run
//! has an order under every model. The rule that makes it so is `specs/Rule.antt`: whatever the threads did so far, some play leads to it; and the last word is the number of threads that have arrived.
//! Which interleaving it is, and that threads overlap, is shown by tests alone.
#![tactic(auto)]

mod racer;
mod racing;
mod rule;
mod run;
mod steps;

pub use racing::race;

#[cfg(test)]
mod tests;
