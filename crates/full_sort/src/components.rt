//! Strongly connected components, by a number for each node.
ghost use Rattle.std.specs.Prelude.{◌≡◌, ◌≢◌, ℕ, ◌+◌, ◌<◌, ◌≤◌, length, slice_index, take};
ghost use Rattle.digraph.specs.Digraph.{HasEdge, in_degree};
ghost use Rattle.full_sort.specs.Finishing.{IsFinishingOrder, IsListOf};
ghost use Rattle.full_sort.specs.Components.{GivesNumber, NumbersComponents, NumbersSources, edges_unnumbered};

use digraph::{Graph, Steps};
use std::sync::ledger::Ledger;

/// Gives the number to the node and puts it into the list, unless it has a number. The list has the nodes
/// of the number: it is the front of `queue`, of this length. Answers the new length.
fn take_node(node: u32, number: u32, numbers: &mut [u32], queue: &mut [u32], count: usize) -> usize
    requires node { node < length numbers.old }
    requires queue { length queue.old ≡ length numbers.old }
    requires number { number ≢ 0 }
    requires few { count ≤ length queue.old }
    requires listed { IsListOf (λ t. slice_index numbers.old t ≡ number) (take count queue.old) }
    ensures listed { IsListOf (λ t. slice_index numbers.new t ≡ number) (take result queue.new) }
    ensures few { result ≤ length queue.new }
    ensures more { count ≤ result }
    ensures front { take count queue.new ≡ take count queue.old }
    ensures given { GivesNumber (λ t. t ≡ node) number numbers.old numbers.new }
    ensures taken { slice_index numbers.new node ≢ 0 }
{
    if numbers[node as usize] != 0 {
        return count;
    }
    numbers[node as usize] = number;
    queue[count] = node;
    count + 1
}

/// Takes the nodes without a number from which an edge leads to the node.
fn take_sources<L: Ledger>(
    graph: &Graph,
    node: u32,
    number: u32,
    numbers: &mut [u32],
    queue: &mut [u32],
    count: usize,
    steps: &mut Steps<L>,
) -> usize
    requires node { node < graph.now.nodes }
    requires numbers { length numbers.old ≡ graph.now.nodes }
    requires queue { length queue.old ≡ graph.now.nodes }
    requires number { number ≢ 0 }
    requires few { count ≤ length queue.old }
    requires listed { IsListOf (λ t. slice_index numbers.old t ≡ number) (take count queue.old) }
    ensures listed { IsListOf (λ t. slice_index numbers.new t ≡ number) (take result queue.new) }
    ensures few { result ≤ length queue.new }
    ensures more { count ≤ result }
    ensures front { take count queue.new ≡ take count queue.old }
    ensures given { GivesNumber (λ t. HasEdge graph.now.edges t node) number numbers.old numbers.new }
    ensures taken { (t : ℕ) → HasEdge graph.now.edges t node → slice_index numbers.new t ≢ 0 }
    ensures ticks { steps.new ≡ steps.old + in_degree graph.now.edges node }
{
    let mut taken = count;
    let mut next = graph.first_in(node, steps);
    while let Some(edge) = next {
        taken = take_node(graph.source(edge), number, numbers, queue, taken);
        next = graph.next_in(edge, steps);
    }
    taken
}

/// Gives the number of the root, which is one higher than the root, to it and to each node from which a
/// path of nodes without a number leads there. No node has the number yet, and `queue` may hold anything.
fn number_sources<L: Ledger>(
    graph: &Graph,
    root: u32,
    numbers: &mut [u32],
    queue: &mut [u32],
    steps: &mut Steps<L>,
)
    requires root { root < graph.now.nodes }
    requires numbers { length numbers.old ≡ graph.now.nodes }
    requires queue { length queue.old ≡ graph.now.nodes }
    requires free { slice_index numbers.old root ≡ 0 }
    requires fresh { (t : ℕ) → slice_index numbers.old t ≢ root + 1 }
    ensures numbered { NumbersSources (HasEdge graph.now.edges) root (root + 1) numbers.old numbers.new }
    ensures bound { steps.new + edges_unnumbered graph.now.edges graph.now.nodes numbers.new
        ≤ steps.old + edges_unnumbered graph.now.edges graph.now.nodes numbers.old }
    ensures later { steps.old ≤ steps.new }
{
    // The prover is told how many nodes there may be.
    let _nodes = graph.nodes();
    let number = root + 1;
    let mut count = take_node(root, number, numbers, queue, 0);
    let mut done = 0;
    while done < count {
        count = take_sources(graph, queue[done], number, numbers, queue, count, steps);
        done += 1;
    }
}

/// Numbers the nodes by their components: from the last node of the order to the first, each that has no
/// number yet is the root of a component. No node has a number before, and `queue` may hold anything.
/// Each edge is looked at once.
pub fn number_components<L: Ledger>(
    graph: &Graph,
    order: &[u32],
    numbers: &mut [u32],
    queue: &mut [u32],
    steps: &mut Steps<L>,
)
    requires order { IsFinishingOrder (HasEdge graph.now.edges) graph.now.nodes order.now }
    requires numbers { length numbers.old ≡ graph.now.nodes }
    requires queue { length queue.old ≡ graph.now.nodes }
    requires clear { (t : ℕ) → slice_index numbers.old t ≡ 0 }
    ensures numbered { NumbersComponents (HasEdge graph.now.edges) graph.now.nodes numbers.new }
    ensures bound { steps.new ≤ steps.old + length graph.now.edges }
    ensures later { steps.old ≤ steps.new }
{
    // The prover is told that the ends of all edges are nodes, and how many there may be.
    let _edges = graph.edges();
    for place in (0..order.len()).rev() {
        let root = order[place];
        if numbers[root as usize] == 0 {
            number_sources(graph, root, numbers, queue, steps);
        }
    }
}
