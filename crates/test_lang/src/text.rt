//! The text of a test: reading it, with the refusal of the first bad line, and printing it.

pub mod fault;
pub mod form;
mod judge;
pub mod laws;
pub mod line;
pub mod numeral;
pub mod print;
pub mod read;
#[cfg(test)]
mod tests;
