//! The least order of a graph's nodes, or of a window of them, in arrays that are made once.
//!
//! What is proved:
//! `least_order_into`, `window_order_into`: the least order of all nodes or of a window of them, or that there is none. `least_on_cycle`: the least node on a cycle, or that there is none, in at most three steps for each edge.
//! `shortest_cycle_into`: the first, in list order, of the shortest cycles from a node. An order of all nodes counts each edge as one step, and at most that where there is none; for a window each edge from its nodes
//! counts as two, whether there is one or not.
#![tactic(auto)]

mod bits;
mod components;
mod cyclic;
mod finishing;
mod levels;
mod node_set;
mod ready;
mod releasing;
mod shortest;
mod sorting;
mod waiting;
mod whole;
mod window;

pub use sorting::{
    Scratch, least_on_cycle, least_order_into, shortest_cycle_into, window_order_into,
};

#[cfg(test)]
mod cycle_tests;
#[cfg(test)]
mod least_cycle_tests;
#[cfg(test)]
mod small_graph_tests;
#[cfg(test)]
mod tests;
