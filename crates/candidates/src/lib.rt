//! The candidates of each load of a test, the values that it may give: the value of the last earlier store to its word in its own thread, or the
//! initial value 0 where there is none, and then the values of the stores to its word in other threads, in node order.
//!
//! What is proved:
//! `Candidates`: each answer about the candidates of a load (their number, the one at a place, the place of a value if it has one) is that of the list of candidates; `first_outside` is the first load in node order
//! whose value is no candidate's.
#![tactic(auto)]

mod candidate_lists;
mod candidate_table;
mod load_node;
#[cfg(test)]
mod tests;

pub use candidate_table::Candidates;
