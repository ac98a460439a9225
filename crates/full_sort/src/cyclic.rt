//! The least node on a cycle, by the numbers of components.
ghost use Rattle.std.specs.Prelude.{◌≡◌, ◌↔◌, ℕ, ◌+◌, ◌<◌, ◌≤◌, length, IsTrue, IfSome, IfNone};
ghost use Rattle.digraph.specs.Digraph.{HasEdge, out_degree};
ghost use Rattle.orders.specs.Paths.{Reach};
ghost use Rattle.full_sort.specs.Components.{LeadsWithin, NumbersComponents};

use digraph::{Graph, Steps};
use std::sync::ledger::Ledger;

/// Whether an edge leads from the node to one with the same number.
fn leads_within<L: Ledger>(graph: &Graph, node: u32, numbers: &[u32], steps: &mut Steps<L>) -> bool
    requires node { node < graph.now.nodes }
    requires numbers { length numbers.now ≡ graph.now.nodes }
    ensures within { IsTrue result ↔ LeadsWithin (HasEdge graph.now.edges) numbers.now node }
    ensures bound { steps.new ≤ steps.old + out_degree graph.now.edges node }
    ensures later { steps.old ≤ steps.new }
{
    let mut next = graph.first_out(node, steps);
    while let Some(edge) = next {
        if numbers[graph.target(edge) as usize] == numbers[node as usize] {
            return true;
        }
        next = graph.next_out(edge, steps);
    }
    false
}

/// The least node that reaches itself: the least from which an edge leads to a node of its own component.
pub fn least_reaching_itself<L: Ledger>(
    graph: &Graph,
    numbers: &[u32],
    steps: &mut Steps<L>,
) -> Option<u32>
    requires numbers { length numbers.now ≡ graph.now.nodes }
    requires components { NumbersComponents (HasEdge graph.now.edges) graph.now.nodes numbers.now }
    ensures some { IfSome result (λ node. Reach (HasEdge graph.now.edges) node node) }
    ensures least { IfSome result (λ node. (t : ℕ) → t < node →
        ¬ Reach (HasEdge graph.now.edges) t t) }
    ensures none { IfNone result ((t : ℕ) → t < graph.now.nodes →
        ¬ Reach (HasEdge graph.now.edges) t t) }
    ensures bound { steps.new ≤ steps.old + length graph.now.edges }
    ensures later { steps.old ≤ steps.new }
{
    for node in 0..graph.nodes() {
        if leads_within(graph, node, numbers, steps) {
            return Some(node);
        }
    }
    None
}
