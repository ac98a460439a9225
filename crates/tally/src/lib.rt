//! Outcomes of runs, their order, and how often each occurred.
//!
//! What is proved:
//! `Outcome` has a total order, in which only the same outcomes are equal. `Tally::add` (clause `tally`): the pairs are the tally of the outcomes that were added, each distinct one once, rising, with its count; a list has
//! one tally. `Tally::join` (clauses `joined`, `tally`): the tally of a list becomes that of the list with another one behind it, whose tally is joined.
//! `Tally::take_back` (clause `tally`): the tally of a list with the outcome at its end becomes that of the list without it. `Outcome::copy` gives an equal outcome. `Counter` (clauses `counted`): counting outcomes one after another and finishing gives their tally; a refusal leaves what was counted.
#![tactic(auto)]

mod batch;
mod counter;
mod counts;
mod entered;
mod guesses;
pub mod laws;
mod outcome;
mod place;
mod queue;
mod signature;

pub use counter::Counter;
pub use counts::{Tally, TallyIter};
pub use entered::Entered;
pub use outcome::Outcome;
pub use signature::Signature;

#[cfg(test)]
mod counter_tests;
#[cfg(test)]
mod tests;
