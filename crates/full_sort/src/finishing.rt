//! Nodes in the order in which a depth-first search finishes them.
ghost use Rattle.std.specs.Prelude.{◌≡◌, ℕ, ◌+◌, ◌<◌, ◌≤◌, ◌^◌, length, slice_set, take, true, false, IfSome, IfNone};
ghost use Rattle.digraph.specs.Digraph.{HasEdge, edges_out};
ghost use Rattle.full_sort.specs.Finishing.{HasSeen, IsFinishingOrder, IsSearchAt, unseen};
ghost use Rattle.full_sort.specs.Waiting.{is_marked};

use digraph::{Graph, Steps};
use std::sync::ledger::Ledger;

/// The next node that isn't marked to which an edge leads from the node, behind the edges that were looked
/// at. The last one of these is kept in `seen`, one higher, and 0 where there is none.
fn next_unmarked<L: Ledger>(
    graph: &Graph,
    node: u32,
    seen: &mut u32,
    marks: &[bool],
    steps: &mut Steps<L>,
) -> Option<u32>
    requires few { length graph.now.edges < 2 ^ 32 }
    requires node { node < graph.now.nodes }
    requires marks { length marks.now ≡ graph.now.nodes }
    requires seen { HasSeen graph.now.edges marks.now node seen.old }
    ensures edge { IfSome result (HasEdge graph.now.edges node) }
    ensures unmarked { IfSome result (λ t. is_marked marks.now t ≡ false) }
    ensures inside { IfSome result (λ t. t < graph.now.nodes) }
    ensures seen { IfSome result (λ t. HasSeen graph.now.edges (slice_set marks.now t true) node seen.new) }
    ensures none { IfNone result ((t : ℕ) → HasEdge graph.now.edges node t →
        is_marked marks.now t ≡ true) }
    ensures fewer { IfSome result (λ t. steps.new + unseen graph.now.edges node seen.new
        ≤ steps.old + unseen graph.now.edges node seen.old) }
    ensures bound { steps.new ≤ steps.old + unseen graph.now.edges node seen.old }
    ensures later { steps.old ≤ steps.new }
{
    let mut next = match seen.checked_sub(1) {
        None => graph.first_out(node, steps),
        Some(edge) => graph.next_out(edge, steps),
    };
    while let Some(edge) = next {
        let target = graph.target(edge);
        if !marks[target as usize] {
            *seen = edge + 1;
            return Some(target);
        }
        next = graph.next_out(edge, steps);
    }
    None
}

/// Puts a node on top of the path, which grows from the back of the order to its front, and answers where
/// it stands.
fn enter(node: u32, top: usize, marks: &mut [bool], seen: &mut [u32], order: &mut [u32]) -> usize
    requires node { node < length marks.old }
    requires some { 0 < top }
    requires seen { top ≤ length seen.old }
    requires order { top ≤ length order.old }
    ensures place { result + 1 ≡ top }
    ensures marks { marks.new ≡ slice_set marks.old node true }
    ensures seen { seen.new ≡ slice_set seen.old result 0 }
    ensures order { order.new ≡ slice_set order.old result node }
{
    let place = top - 1;
    marks[node as usize] = true;
    seen[place] = 0;
    order[place] = node;
    place
}

/// Finishes the root and the nodes that the search finds from it, each after those found from there.
/// So many are finished before, and as many as the answer after.
fn finish_from<L: Ledger>(
    graph: &Graph,
    root: u32,
    finished: usize,
    marks: &mut [bool],
    seen: &mut [u32],
    order: &mut [u32],
    steps: &mut Steps<L>,
) -> usize
    requires root { root < graph.now.nodes }
    requires marks { length marks.old ≡ graph.now.nodes }
    requires seen { length seen.old ≡ graph.now.nodes }
    requires order { length order.old ≡ graph.now.nodes }
    requires unmarked { is_marked marks.old root ≡ false }
    requires search { IsSearchAt graph.now.edges marks.old seen.old order.old finished (length order.old) }
    ensures search { IsSearchAt graph.now.edges marks.new seen.new order.new result (length order.new) }
    ensures root { is_marked marks.new root ≡ true }
    ensures kept { (t : ℕ) → is_marked marks.old t ≡ true → is_marked marks.new t ≡ true }
    ensures bound { steps.new + edges_out graph.now.edges (take finished order.old)
        ≤ steps.old + edges_out graph.now.edges (take result order.new) }
    ensures later { steps.old ≤ steps.new }
{
    // The prover is told that the ends of all edges are nodes, and how many there may be.
    let _edges = graph.edges();
    let mut done = finished;
    let mut top = enter(root, order.len(), marks, seen, order);
    while top < order.len() {
        match next_unmarked(graph, order[top], &mut seen[top], marks, steps) {
            Some(node) => top = enter(node, top, marks, seen, order),
            None => {
                order[done] = order[top];
                done += 1;
                top += 1;
            }
        }
    }
    done
}

/// Puts all nodes into `order` as a depth-first search along the edges finishes them.
/// No node is marked before and after, and `seen` may hold anything. Each edge is looked at once.
pub fn finishing_order<L: Ledger>(
    graph: &Graph,
    marks: &mut [bool],
    seen: &mut [u32],
    order: &mut [u32],
    steps: &mut Steps<L>,
)
    requires marks { length marks.old ≡ graph.now.nodes }
    requires seen { length seen.old ≡ graph.now.nodes }
    requires order { length order.old ≡ graph.now.nodes }
    requires clear { (t : ℕ) → is_marked marks.old t ≡ false }
    ensures order { IsFinishingOrder (HasEdge graph.now.edges) graph.now.nodes order.new }
    ensures clear { (t : ℕ) → is_marked marks.new t ≡ false }
    ensures bound { steps.new ≤ steps.old + length graph.now.edges }
    ensures later { steps.old ≤ steps.new }
{
    let mut done = 0;
    for root in 0..graph.nodes() {
        if !marks[root as usize] {
            done = finish_from(graph, root, done, marks, seen, order, steps);
        }
    }
    marks.fill(false);
}
