//! The constraint graph of a run: which pairs of nodes a memory model keeps, and which edges a run adds.
//!
//! What is proved:
//! `kept` is the kept order of the four models; `edge` tells exactly the constraint edges of an inside run. `Static::of`, `dynamic_into`: few kept pairs and the few edges of each load; `few_edges_order_a_run`: with all
//! loads they reach exactly what all edges of the run reach, so orders, least orders and the nodes on cycles agree. `Static::run_into`: the graph of one run after another, in one place; what a sort finds of it is so
//! of the run (clause `verdicts`, and `verdicts_of_a_run`). `Static::full`: all edges, told by a test.
#![tactic(auto)]

mod few_kept;
mod first_stores;
mod kept_order;
mod kinds;
mod nearest;
mod reduction;
mod run_edges;
mod run_sources;
mod static_graph;
mod store_tables;
mod word_loads;

pub use kept_order::kept;
pub use reduction::{few_edges_order_a_run, verdicts_of_a_run};
pub use run_edges::edge;
pub use static_graph::{Full, Static};

#[cfg(test)]
mod tests;
