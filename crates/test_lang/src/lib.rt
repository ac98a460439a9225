//! Tests of a memory model: threads of loads, stores and fences, and what their runs mean.
//!
//! What is proved:
//! `Test`: each change and each lookup is exact. `Test::read`: the test whose text stands in front, or the refusal of the first bad line, both exactly. `print`: the one text of a test, which reads back as that test
//! whatever follows. Laws of plays (`plays`): a done play of a machine without a fault has a run that is inside, and the order in which its nodes took effect is an order of the run under the machine's model and each weaker one; with any fault a
//! play goes on until it is done, and each step takes one from the steps that are left. Worked examples (`litmus`, `schedules`): edges, least orders, canonical cycles and signatures of small tests, and plays of them on each machine with each fault.
#![tactic(auto)]

pub mod edges;
pub mod litmus;
pub mod op;
pub mod plays;
pub mod schedules;
pub mod step;
pub mod target;
pub mod test;
pub mod text;
