//! Reads the runs of a text, and counts their outcomes: the text is cut into pieces, which threads read and count each by itself.
//!
//! What is proved:
//! `count_runs`: the runs are those of reading the text in one go, and the tally is that of their outcomes where they are at most so many (`ok`); what is refused is the first bad line of the text,
//! with its number in the text (`err`). It is the same for each number of workers. No clause says how many threads there are.
#![tactic(auto)]

mod cut;
mod join;
mod piece;
mod text;

pub use text::count_runs;

#[cfg(test)]
mod tests;
