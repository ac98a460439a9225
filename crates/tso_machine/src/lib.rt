//! The machines with buffers: stores and store fences of a thread wait in its buffer until they are drained. `TsoMachine` drains a buffer in order, and
//! `PsoMachine` lets stores to different words pass each other, unless a store fence stands between.
//!
//! What is proved:
//! `TsoMachine`, `PsoMachine`: the machines of the definition of plays, with each fault that they can carry. They are made in their opening state, and each call
//! answers what the play tells: the choices, in order and by number, whether a step is enabled, whether all is done, and the loads.
#![tactic(auto)]

mod buffered;
mod buffers;
mod faults;
mod newest;
mod places;
mod playing;
mod pso;
mod tso;

pub use pso::PsoMachine;
pub use tso::TsoMachine;

#[cfg(test)]
mod tests;
