//! What a placed node leaves: each target of its edges waits for one edge less. Those that are marked become ready when they wait for none: for a whole
//! order all nodes are marked, and for a window its own. In the counts, the place behind those of the nodes is that of no node.
ghost use Rattle.std.specs.Prelude.{◌≡◌, ◌≢◌, ◌↔◌, ◌⊎◌, ℕ, ◌+◌, ◌-◌, ◌*◌, ◌<◌, ◌≤◌, drop, length, min, slice_index, slice_set, take, true, None};
ghost use Rattle.digraph.specs.Digraph.{out_degree, targets_from};
ghost use Rattle.full_sort.specs.Bits.{bit_of};
ghost use Rattle.full_sort.specs.Ready.{GainsFreed, HasRoom, IsHeld, times_in};
ghost use Rattle.full_sort.specs.Waiting.{count_between, is_marked};

use crate::node_set::NodeSet;
use crate::ready::add_ready;
use digraph::{Graph, NEAR, Steps};
use std::sync::ledger::Ledger;

/// Takes one away at a target, which is added to the ready nodes if it waits for none then and is marked. The result is the ready node that is kept apart.
fn release(
    counts: &mut [u32],
    marks: &[bool],
    target: u32,
    ready: &mut NodeSet,
    kept: Option<u32>,
) -> Option<u32>
    requires target { target < length counts.old }
    requires some { 1 ≤ slice_index counts.old target }
    requires marks { slice_index counts.old target ≡ 1 → target < length marks.now }
    requires room { slice_index counts.old target ≡ 1 → target < 64 * length ready.old }
    requires kept { HasRoom ready.old kept }
    ensures less { counts.new ≡ slice_set counts.old target (slice_index counts.old target - 1) }
    ensures gained { (t : ℕ) → IsHeld ready.new result t ↔ (IsHeld ready.old kept t ⊎ ((t ≡ target)
        × (slice_index counts.old target ≡ 1) × (is_marked marks.now target ≡ true))) }
    ensures kept { HasRoom ready.new result }
    ensures room { length ready.new ≡ length ready.old }
{
    let left = counts[target as usize] - 1;
    counts[target as usize] = left;
    if left == 0 && marks[target as usize] {
        add_ready(ready, kept, target)
    } else {
        kept
    }
}

/// Releases the targets of the edges from a node that were added last, so many of them, behind the three that are at hand.
fn release_far<L: Ledger>(
    graph: &Graph,
    node: u32,
    more: u32,
    counts: &mut [u32],
    marks: &[bool],
    ready: &mut NodeSet,
    steps: &mut Steps<L>,
) -> Option<u32>
    requires node { node < graph.now.nodes }
    requires more { more + 3 ≡ out_degree graph.now.edges node }
    requires some { 1 ≤ more }
    requires counts { length counts.old ≡ graph.now.nodes + 1 }
    requires marks { length marks.now ≡ graph.now.nodes }
    requires room { graph.now.nodes ≤ 64 * length ready.old }
    requires enough { (t : ℕ) → t < graph.now.nodes →
        count_between graph.now.edges node t ≤ slice_index counts.old t }
    ensures less { (t : ℕ) → t < graph.now.nodes →
        slice_index counts.new t + times_in (drop 3 (targets_from graph.now.edges node)) t ≡ slice_index counts.old t }
    ensures spare { slice_index counts.new graph.now.nodes
        ≡ slice_index counts.old graph.now.nodes }
    ensures counts { length counts.new ≡ length counts.old }
    ensures gained { GainsFreed (IsHeld ready.old None) (IsHeld ready.new result) marks.now counts.old counts.new }
    ensures kept { HasRoom ready.new result }
    ensures room { length ready.new ≡ length ready.old }
    ensures ticks { steps.new ≡ steps.old + more }
{
    let mut kept = None;
    let mut next = graph.first_out(node, steps);
    for _ in 1..more {
        let edge = next.unwrap();
        kept = release(counts, marks, graph.target(edge), ready, kept);
        next = graph.next_out(edge, steps);
    }
    let edge = next.unwrap();
    release(counts, marks, graph.target(edge), ready, kept)
}

/// Releases the targets of the edges from a node behind the three that are at hand, if there are any.
fn release_rest<L: Ledger>(
    graph: &Graph,
    node: u32,
    counts: &mut [u32],
    marks: &[bool],
    ready: &mut NodeSet,
    steps: &mut Steps<L>,
) -> Option<u32>
    requires node { node < graph.now.nodes }
    requires counts { length counts.old ≡ graph.now.nodes + 1 }
    requires marks { length marks.now ≡ graph.now.nodes }
    requires room { graph.now.nodes ≤ 64 * length ready.old }
    requires enough { (t : ℕ) → t < graph.now.nodes →
        count_between graph.now.edges node t ≤ slice_index counts.old t }
    ensures less { (t : ℕ) → t < graph.now.nodes →
        slice_index counts.new t + times_in (drop 3 (targets_from graph.now.edges node)) t ≡ slice_index counts.old t }
    ensures spare { slice_index counts.new graph.now.nodes
        ≡ slice_index counts.old graph.now.nodes }
    ensures counts { length counts.new ≡ length counts.old }
    ensures gained { GainsFreed (IsHeld ready.old None) (IsHeld ready.new result) marks.now counts.old counts.new }
    ensures kept { HasRoom ready.new result }
    ensures room { length ready.new ≡ length ready.old }
    ensures ticks { steps.new + min (out_degree graph.now.edges node) 3
        ≡ steps.old + out_degree graph.now.edges node }
{
    let degree = graph.out_degree(node);
    let near = NEAR as u32;
    if degree <= near {
        return None;
    }
    release_far(graph, node, degree - near, counts, marks, ready, steps)
}

/// Releases the targets of the first edges from a node, three at most. They are released without a branch on how many there are: in place of each
/// that is left stands no node.
fn release_near<L: Ledger>(
    graph: &Graph,
    node: u32,
    counts: &mut [u32],
    marks: &[bool],
    ready: &mut NodeSet,
    kept: Option<u32>,
    steps: &mut Steps<L>,
) -> Option<u32>
    requires node { node < graph.now.nodes }
    requires counts { length counts.old ≡ graph.now.nodes + 1 }
    requires marks { length marks.now ≡ graph.now.nodes }
    requires room { graph.now.nodes ≤ 64 * length ready.old }
    requires kept { HasRoom ready.old kept }
    requires spare { 4 ≤ slice_index counts.old graph.now.nodes }
    requires enough { (t : ℕ) → t < graph.now.nodes →
        times_in (take 3 (targets_from graph.now.edges node)) t ≤ slice_index counts.old t }
    ensures less { (t : ℕ) → t < graph.now.nodes →
        slice_index counts.new t + times_in (take 3 (targets_from graph.now.edges node)) t ≡ slice_index counts.old t }
    ensures spare { 1 ≤ slice_index counts.new graph.now.nodes }
    ensures counts { length counts.new ≡ length counts.old }
    ensures gained { GainsFreed (IsHeld ready.old kept) (IsHeld ready.new result) marks.now counts.old counts.new }
    ensures kept { HasRoom ready.new result }
    ensures room { length ready.new ≡ length ready.old }
    ensures ticks { steps.new ≡ steps.old + min (out_degree graph.now.edges node) 3 }
{
    // The prover is told that each target is a node.
    let _nodes = graph.nodes();
    let mut kept = kept;
    for target in graph.near_targets(node, steps) {
        kept = release(counts, marks, *target, ready, kept);
    }
    kept
}

/// Takes one away at the target of each edge from the node, and adds the marked targets that wait for none then to the ready nodes. The result is the one
/// of them that is kept apart.
pub fn release_all<L: Ledger>(
    graph: &Graph,
    node: u32,
    counts: &mut [u32],
    marks: &[bool],
    ready: &mut NodeSet,
    steps: &mut Steps<L>,
) -> Option<u32>
    requires node { node < graph.now.nodes }
    requires counts { length counts.old ≡ graph.now.nodes + 1 }
    requires marks { length marks.now ≡ graph.now.nodes }
    requires room { graph.now.nodes ≤ 64 * length ready.old }
    requires enough { (t : ℕ) → t < graph.now.nodes →
        count_between graph.now.edges node t ≤ slice_index counts.old t }
    ensures less { (t : ℕ) → t < graph.now.nodes →
        slice_index counts.new t + count_between graph.now.edges node t ≡ slice_index counts.old t }
    ensures counts { length counts.new ≡ length counts.old }
    ensures gained { (t : ℕ) → IsHeld ready.new result t ↔
        ((bit_of ready.old t ≡ 1) ⊎ ((t < graph.now.nodes) × (slice_index counts.old t ≢ 0) × (slice_index counts.new t ≡ 0) × (is_marked marks.now t ≡ true))) }
    ensures kept { HasRoom ready.new result }
    ensures room { length ready.new ≡ length ready.old }
    ensures ticks { steps.new ≡ steps.old + out_degree graph.now.edges node }
{
    counts[graph.nodes() as usize] = u32::MAX;
    let kept = release_rest(graph, node, counts, marks, ready, steps);
    release_near(graph, node, counts, marks, ready, kept, steps)
}
