//! How many edges each node still waits for.
ghost use Rattle.std.specs.Prelude.{◌≡◌, ℕ, ◌+◌, ◌*◌, ◌<◌, ◌≤◌, ◌^◌, length, slice_index};
ghost use Rattle.digraph.specs.Digraph.{out_degree};
ghost use Rattle.full_sort.specs.Waiting.{count_between, NotesFree};

use crate::node_set::NodeSet;
use digraph::{Graph, NEAR, Steps};
use std::sync::ledger::Ledger;

/// Adds one at the target of each edge from the node, of which there are three at most. They are at hand, and are raised without a branch on how many
/// there are: in place of each that is left stands no node.
fn raise_near<L: Ledger>(graph: &Graph, node: u32, waiting: &mut [u32], steps: &mut Steps<L>)
    requires node { node < graph.now.nodes }
    requires few { out_degree graph.now.edges node ≤ 3 }
    requires nodes { length waiting.old ≡ graph.now.nodes + 1 }
    requires room { (t : ℕ) → t < graph.now.nodes →
        slice_index waiting.old t + count_between graph.now.edges node t < 2 ^ 32 }
    ensures more { (t : ℕ) → t < graph.now.nodes →
        slice_index waiting.new t ≡ slice_index waiting.old t + count_between graph.now.edges node t }
    ensures ticks { steps.new ≡ steps.old + out_degree graph.now.edges node }
{
    waiting[graph.nodes() as usize] = 0;
    for target in graph.near_targets(node, steps) {
        waiting[*target as usize] += 1;
    }
}

/// Adds one at the target of each edge from the node, in a walk from edge to edge.
fn raise_each<L: Ledger>(graph: &Graph, node: u32, waiting: &mut [u32], steps: &mut Steps<L>)
    requires node { node < graph.now.nodes }
    requires nodes { length waiting.old ≡ graph.now.nodes + 1 }
    requires room { (t : ℕ) → t < graph.now.nodes →
        slice_index waiting.old t + count_between graph.now.edges node t < 2 ^ 32 }
    ensures more { (t : ℕ) → t < graph.now.nodes →
        slice_index waiting.new t ≡ slice_index waiting.old t + count_between graph.now.edges node t }
    ensures ticks { steps.new ≡ steps.old + out_degree graph.now.edges node }
{
    let mut next = graph.first_out(node, steps);
    while let Some(edge) = next {
        let target = graph.target(edge);
        waiting[target as usize] += 1;
        next = graph.next_out(edge, steps);
    }
}

/// Adds one at the target of each edge from the node. The place behind those of the nodes is that of no node, and may hold anything afterwards.
pub fn raise<L: Ledger>(graph: &Graph, node: u32, waiting: &mut [u32], steps: &mut Steps<L>)
    requires node { node < graph.now.nodes }
    requires nodes { length waiting.old ≡ graph.now.nodes + 1 }
    requires room { (t : ℕ) → t < graph.now.nodes →
        slice_index waiting.old t + count_between graph.now.edges node t < 2 ^ 32 }
    ensures more { (t : ℕ) → t < graph.now.nodes →
        slice_index waiting.new t ≡ slice_index waiting.old t + count_between graph.now.edges node t }
    ensures ticks { steps.new ≡ steps.old + out_degree graph.now.edges node }
{
    if graph.out_degree(node) <= NEAR as u32 {
        raise_near(graph, node, waiting, steps);
    } else {
        raise_each(graph, node, waiting, steps);
    }
}

/// Takes one away at the target of each edge from the node.
pub fn lower<L: Ledger>(graph: &Graph, node: u32, waiting: &mut [u32], steps: &mut Steps<L>)
    requires node { node < graph.now.nodes }
    requires nodes { length waiting.old ≡ graph.now.nodes + 1 }
    requires enough { (t : ℕ) → t < graph.now.nodes →
        count_between graph.now.edges node t ≤ slice_index waiting.old t }
    ensures less { (t : ℕ) → t < graph.now.nodes →
        slice_index waiting.new t + count_between graph.now.edges node t ≡ slice_index waiting.old t }
    ensures ticks { steps.new ≡ steps.old + out_degree graph.now.edges node }
{
    let mut next = graph.first_out(node, steps);
    while let Some(edge) = next {
        let target = graph.target(edge);
        waiting[target as usize] -= 1;
        next = graph.next_out(edge, steps);
    }
}

/// Takes a node into the set where it is free.
pub fn note_free(node: u32, waiting: &[u32], marks: &[bool], ready: &mut NodeSet)
    requires waiting { node < length waiting.now }
    requires marks { node < length marks.now }
    requires room { node < 64 * length ready.old }
    ensures { NotesFree ready.old ready.new waiting.now marks.now node }
{
    if waiting[node as usize] == 0 && marks[node as usize] {
        ready.insert(node);
    }
}
