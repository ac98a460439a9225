//! The weak machine: operations of a thread take effect in any order that the weak model allows.
//!
//! What is proved:
//! `WeakMachine`: the machine of the definition of plays, with each fault that it can carry. It is made in its opening state; its choices, in order and by number, are the enabled steps, and each call answers what the
//! play tells.
#![tactic(auto)]

mod base_stores;
mod direct_waits;
mod faults;
mod lists;
mod machine;
mod memory;
mod node_set;
mod progress;
mod waiting;
mod word_bits;

pub use machine::WeakMachine;

#[cfg(test)]
mod tests;
