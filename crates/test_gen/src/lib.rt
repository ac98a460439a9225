//! Random tests of a memory model.
//!
//! What is proved:
//! `generate`: the test is the one whose operations follow from the words of stream 54 of the seed, one word for a fence and two for a load or a store, thread by thread. It is of version 1.
#![tactic(auto)]

mod drawing;
mod settings;

pub use drawing::generate;
pub use settings::GenSettings;

#[cfg(test)]
mod tests;
