//! A set of outcomes that many threads add to, in turns, and that nobody waits for.
//!
//! The set is a book: a history of who added what, and its tally. Who wins the turn takes the book, adds a batch and brings it back;
//! all others are told that it is busy, and go on with something else.
//!
//! What is proved:
//! `SharedSet::try_add` (clauses `added`, `refused`): a batch enters the history whole and in order, behind all that its pass had seen, or not at all; it is refused as busy only where its one
//! try found the turn taken, and without a turn won. `finish` (clauses `lists`, `others`, `kept`): the history has of each pass just what it added, in order, and nothing else.
//! `Finished::put` (clauses `added`, `refused`): a batch is put at the end whole, or not at all. `Finished::tally`, `into_tally`: it is the tally of the history.
//! The rule that makes it so is `specs/Rule.antt`. That a try ever wins is no clause; `SharedSet::add` alone waits.
#![tactic(auto)]

mod book;
mod counting;
mod fault;
mod finished;
mod pass;
mod rule;
mod set;
mod turn;

pub use fault::AddFault;
pub use finished::{Finished, finish};
pub use pass::Pass;
pub use set::SharedSet;
pub use tally::Entered;

#[cfg(test)]
mod tests;
