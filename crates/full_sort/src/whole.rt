//! The least order of all nodes of a graph.
ghost use Rattle.std.specs.Prelude.{◌≡◌, ◌↔◌, ℕ, ◌+◌, ◌*◌, ◌<◌, ◌≤◌, length, slice_index, None, true};
ghost use Rattle.std.specs.Bool.{OnTrue, OnFalse};
ghost use Rattle.orders.specs.Orders.{IsLeastOrder, HasNoOrder, nodes_below};
ghost use Rattle.digraph.specs.Digraph.{HasEdge, in_degree};
ghost use Rattle.full_sort.specs.Bits.{bit_of, IsFirstBit};
ghost use Rattle.full_sort.specs.Waiting.{is_marked};

use crate::node_set::NodeSet;
use crate::ready::take_ready;
use crate::releasing::release_all;
use digraph::{Graph, Steps};
use std::sync::ledger::Ledger;

/// Takes the nodes that wait for no edge into the set.
fn find_ready(graph: &Graph, counts: &[u32], ready: &mut NodeSet)
    requires counts { length counts.now ≡ graph.now.nodes + 1 }
    requires room { graph.now.nodes ≤ 64 * length ready.old }
    requires empty { IsFirstBit ready.old None }
    ensures ready { (t : ℕ) → (bit_of ready.new t ≡ 1) ↔ ((t < graph.now.nodes)
        × (slice_index counts.now t ≡ 0)) }
    ensures room { length ready.new ≡ length ready.old }
{
    for node in 0..graph.nodes() {
        if counts[node as usize] == 0 {
            ready.insert(node);
        }
    }
}

/// Places the least node that waits for none, until all are placed or each waits. The result is how many are placed. In `all` each node is marked.
fn place_all<L: Ledger>(
    graph: &Graph,
    all: &[bool],
    counts: &mut [u32],
    ready: &mut NodeSet,
    placed: &mut [u32],
    steps: &mut Steps<L>,
) -> usize
    requires all { length all.now ≡ graph.now.nodes }
    requires marked { (t : ℕ) → t < graph.now.nodes → is_marked all.now t ≡ true }
    requires counts { length counts.old ≡ graph.now.nodes + 1 }
    requires room { graph.now.nodes ≤ 64 * length ready.old }
    requires placed { length placed.old ≡ graph.now.nodes }
    requires counted { (t : ℕ) → t < graph.now.nodes →
        slice_index counts.old t ≡ in_degree graph.now.edges t }
    requires ready { (t : ℕ) → (bit_of ready.old t ≡ 1) ↔ ((t < graph.now.nodes)
        × (slice_index counts.old t ≡ 0)) }
    ensures few { result ≤ graph.now.nodes }
    ensures found { result ≡ graph.now.nodes →
        IsLeastOrder (HasEdge graph.now.edges) (nodes_below graph.now.nodes) placed.new }
    ensures none { result < graph.now.nodes →
        HasNoOrder (HasEdge graph.now.edges) (nodes_below graph.now.nodes) }
    ensures empty { IsFirstBit ready.new None }
    ensures room { length ready.new ≡ length ready.old }
    ensures ticks { result ≡ graph.now.nodes → steps.new ≡ steps.old + length graph.now.edges }
    ensures bound { steps.new ≤ steps.old + length graph.now.edges }
    ensures later { steps.old ≤ steps.new }
{
    // The prover is told that the ends of all edges are nodes.
    let _edges = graph.edges();
    let count = placed.len();
    let mut kept = None;
    for k in 0..count {
        match take_ready(ready, kept) {
            None => return k,
            Some(node) => {
                placed[k] = node;
                kept = release_all(graph, node, counts, all, ready, steps);
            }
        }
    }
    count
}

/// Puts the least order of all nodes into `order`, and says whether there is one. The set is empty before and after; `counts` and `placed` may hold anything.
/// In `all` each node is marked.
pub fn order_all_into<L: Ledger>(
    graph: &Graph,
    all: &[bool],
    counts: &mut [u32],
    ready: &mut NodeSet,
    placed: &mut [u32],
    order: &mut [u32],
    steps: &mut Steps<L>,
) -> bool
    requires all { length all.now ≡ graph.now.nodes }
    requires marked { (t : ℕ) → t < graph.now.nodes → is_marked all.now t ≡ true }
    requires counts { length counts.old ≡ graph.now.nodes + 1 }
    requires room { graph.now.nodes ≤ 64 * length ready.old }
    requires empty { IsFirstBit ready.old None }
    requires placed { length placed.old ≡ graph.now.nodes }
    requires order { length order.old ≡ graph.now.nodes }
    ensures found { OnTrue result (IsLeastOrder (HasEdge graph.now.edges) (nodes_below graph.now.nodes) order.new) }
    ensures none { OnFalse result (HasNoOrder (HasEdge graph.now.edges) (nodes_below graph.now.nodes)) }
    ensures unchanged { OnFalse result (order.new ≡ order.old) }
    ensures counts { length counts.new ≡ length counts.old }
    ensures empty { IsFirstBit ready.new None }
    ensures room { length ready.new ≡ length ready.old }
    ensures placed { length placed.new ≡ length placed.old }
    ensures ticks { OnTrue result (steps.new ≡ steps.old + length graph.now.edges) }
    ensures bound { steps.new ≤ steps.old + length graph.now.edges }
    ensures later { steps.old ≤ steps.new }
{
    let nodes = graph.nodes() as usize;
    counts[..nodes].copy_from_slice(graph.in_degrees());
    find_ready(graph, counts, ready);
    let count = place_all(graph, all, counts, ready, placed, steps);
    if count < placed.len() {
        return false;
    }
    order.copy_from_slice(placed);
    true
}
