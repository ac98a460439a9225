//! What lies outside of the checker: where bytes come from, where they go, the gate that workers pass, and draws from the words of a seed.
//!
//! A [`Source`] and a [`Sink`] count their faults. Code that is generic over them can't raise such a count, so a
//! contract that ties an answer to a count that rose refuses a body that gives up by itself.
//!
//! What is proved:
//! `Source` and `Sink` say what is left or held, where that is told, and count their faults: an answer `Failed` comes only where the count rose (or stands at its last value, 2^64 - 1).
//! `MemSource`, `MemSink`: every answer and what is left are known exactly.
//! `Draws`: each draw is the next 32-bit word of a seed and a stream modulo the number asked for, by the contract of the kit's `rand_pcg`.
//! What a gate does is shown by tests alone.
#![tactic(auto)]

mod calls;
mod draws;
mod flags;
mod gate;
mod hold_gate;
mod meet_gate;
mod mem_sink;
mod mem_source;
mod sink;
mod source;

pub use draws::Draws;
pub use gate::{Gate, OpenGate};
pub use hold_gate::HoldGate;
pub use meet_gate::MeetGate;
pub use mem_sink::MemSink;
pub use mem_source::MemSource;
pub use sink::{Put, Sink};
pub use source::{Source, Take};

#[cfg(test)]
mod hold_gate_tests;
#[cfg(test)]
mod meet_gate_tests;
#[cfg(test)]
mod tests;
