//! Signatures of runs: the places of the loads' values among their candidates, as words of 64 bits.
//!
//! What is proved:
//! `Plan`: `encode_into` writes the signature of a run exactly where the run is inside, and otherwise names the first load outside. `decode_into` writes the one run that words mean exactly where each word is below the
//! product of its group, and otherwise names the first that isn't. A refusal changes nothing. `outcome` is either of a run's two ends. Laws: words below the products mean exactly one run; no two runs that are inside
//! have one signature; each group is the longest that fits 64 bits, and the loads of a thread have no other cut into groups like that (`one_longest_cut`).
#![tactic(auto)]

mod decode;
mod encode;
mod group_rows;
mod inverse;
pub mod laws;
mod outcomes;
mod plan;
#[cfg(test)]
mod tests;

pub use decode::WordTooLarge;
pub use encode::Outside;
pub use plan::Plan;
