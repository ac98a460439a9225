//! The machine of sequential consistency: each operation takes effect when it is executed, in the order of its thread.
//!
//! What is proved:
//! `ScMachine` meets `Machine` as the SC machine of the test and the fault with which it was made, and stands for no step at first.
#![tactic(auto)]

mod machine;
#[cfg(test)]
mod tests;
mod threads;

pub use machine::ScMachine;
