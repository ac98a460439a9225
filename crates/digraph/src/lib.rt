//! Directed graphs in arrays, lists of nodes and of edges, and sets of edges that a test tells.
//! Nothing but a `with_room` takes memory.
//!
//! What is proved:
//! `Graph`: the edges as they were added, one by one or a list at once, without those taken away; each call that gives an edge gives the last one before, and counts one step; how many edges lead from and to each node,
//! and the targets of its first three. `Nodes`, `Edges`: lists of fixed room. `Pairs`: a set of edges told by a test, which also marks the sources of a node.
#![tactic(auto)]

mod at_hand;
mod edge_list;
mod edge_test;
mod linked_graph;
mod links;
mod node_list;
mod step_count;

pub use at_hand::NEAR;
pub use edge_list::Edges;
pub use edge_test::Pairs;
pub use linked_graph::Graph;
pub use node_list::Nodes;
pub use step_count::Steps;

#[cfg(test)]
mod tests;
