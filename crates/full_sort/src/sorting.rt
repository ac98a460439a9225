//! Least orders, in arrays that are made once.
ghost use Rattle.std.specs.Prelude.{ℕ, List, ◌∷◌, ◌≡◌, ◌≢◌, ◌+◌, ◌*◌, ◌<◌, ◌≤◌, length, All, AllPairs, IfOk, IfSome, IfNone};
ghost use Rattle.std.specs.Bool.{OnTrue, OnFalse};
ghost use Rattle.orders.specs.Cycles.{IsFirstShortestCycle, IsLeastOnCycle, IsOnCycle};
ghost use Rattle.orders.specs.Orders.{IsLeastOrder, HasNoOrder, nodes_below};
ghost use Rattle.digraph.specs.Digraph.{HasEdge, edges_out, edges_in};

use crate::components::number_components;
use crate::cyclic::least_reaching_itself;
use crate::finishing::finishing_order;
use crate::node_set::NodeSet;
use crate::shortest::shortest_cycle;
use crate::whole::order_all_into;
use crate::window::order_into;
use digraph::{Graph, Nodes, Pairs, Steps};
use std::alloc::{AllocError, Global};
use std::marker::Model;
use std::sync::ledger::Ledger;

/// Room for the orders of a graph of so many nodes. Contracts see their number, which no call changes.
/// Between two calls each number is 0, no node waits for an edge, none is marked and the set is empty: so the time of a
/// call is that of its window.
#[derive(Drop)]
pub struct Scratch {
    /// Numbers of components, or levels of a search.
    numbers: Vec<u32>,
    /// Counts of the edges from the nodes of a window, and one more for no node.
    waiting: Vec<u32>,
    /// Marks of the nodes of a window, or of a search.
    marks: Vec<bool>,
    /// Marks of all nodes.
    all: Vec<bool>,
    ready: NodeSet,
    placed: Vec<u32>,
    queue: Vec<u32>,
    /// Counts of edges for the order of all nodes, and one more for no node. They may hold anything.
    counts: Vec<u32>,
}

impl Model for Scratch {
    ghost use Rattle.std.specs.Prelude.{ℕ, length};
    ghost use Rattle.full_sort.specs.Scratch.{IsScratch};

    ghost Value = { ℕ };

    ghost view = { λ s. length s.numbers.items };

    ghost invariant = { λ s. IsScratch s.numbers.items s.waiting.items s.marks.items s.all.items s.ready s.placed.items
        s.queue.items s.counts.items };
}

impl Scratch {
    /// Room for graphs of so many nodes. `Err` means want of memory.
    pub fn new(alloc: Global, nodes: u32) -> Result<Scratch, AllocError>
        ensures { IfOk result (λ scratch. scratch ≡ nodes) }
    {
        let numbers = vec![in alloc; 0u32; nodes as usize]?;
        let waiting = vec![in alloc; 0u32; nodes as usize + 1]?;
        let marks = vec![in alloc; false; nodes as usize]?;
        let all = vec![in alloc; true; nodes as usize]?;
        let ready = NodeSet::new(alloc, nodes)?;
        let placed = vec![in alloc; 0u32; nodes as usize]?;
        let queue = vec![in alloc; 0u32; nodes as usize]?;
        let counts = vec![in alloc; 0u32; nodes as usize + 1]?;
        Ok(Scratch {
            numbers,
            waiting,
            marks,
            all,
            ready,
            placed,
            queue,
            counts,
        })
    }
}

/// Puts the least order of all nodes of the graph into `order`, and says whether there is one.
/// This is Kahn's algorithm, which takes the least ready node each time. Each edge ticks once, where its source is placed: how many edges lead
/// to each node is at hand.
pub fn least_order_into<L: Ledger>(
    graph: &Graph,
    scratch: &mut Scratch,
    order: &mut [u32],
    steps: &mut Steps<L>,
) -> bool
    requires room { scratch.old ≡ graph.now.nodes }
    requires order { length order.old ≡ graph.now.nodes }
    ensures found { OnTrue result
        (IsLeastOrder (HasEdge graph.now.edges) (nodes_below graph.now.nodes) order.new) }
    ensures none { OnFalse result
        (HasNoOrder (HasEdge graph.now.edges) (nodes_below graph.now.nodes)) }
    ensures unchanged { OnFalse result (order.new ≡ order.old) }
    ensures room { scratch.new ≡ scratch.old }
    ensures ticks { OnTrue result (steps.new ≡ steps.old + length graph.now.edges) }
    ensures bound { steps.new ≤ steps.old + length graph.now.edges }
    ensures later { steps.old ≤ steps.new }
{
    // The prover is told that the ends of all edges are nodes, and how many there may be.
    let _edges = graph.edges();
    order_all_into(
        graph,
        &scratch.all,
        &mut scratch.counts,
        &mut scratch.ready,
        &mut scratch.placed,
        order,
        steps,
    )
}

/// Puts the least order of the window's nodes, under the edges among them, into `order`, and says
/// whether there is one. The window is a list of distinct nodes. Each edge from one of them ticks twice.
/// The time is that of the window and of these edges, and a node is taken in the time of one word for
/// each 4,096 nodes below it: no other node is looked at.
pub fn window_order_into<L: Ledger>(
    graph: &Graph,
    window: &[u32],
    scratch: &mut Scratch,
    order: &mut [u32],
    steps: &mut Steps<L>,
) -> bool
    requires window { All (λ n. n < graph.now.nodes) window.now }
    requires once { AllPairs (λ a b. a ≢ b) window.now }
    requires room { scratch.old ≡ graph.now.nodes }
    requires order { length order.old ≡ length window.now }
    ensures found { OnTrue result (IsLeastOrder (HasEdge graph.now.edges) window.now order.new) }
    ensures none { OnFalse result (HasNoOrder (HasEdge graph.now.edges) window.now) }
    ensures unchanged { OnFalse result (order.new ≡ order.old) }
    ensures room { scratch.new ≡ scratch.old }
    ensures ticks { steps.new ≡ steps.old + 2 * edges_out graph.now.edges window.now }
    ensures bound { steps.new ≤ steps.old +
        3 * (edges_out graph.now.edges window.now + edges_in graph.now.edges window.now) }
{
    // The prover is told that the ends of all edges are nodes, and how many there may be.
    let _edges = graph.edges();
    let found = order_into(
        graph,
        window,
        &mut scratch.waiting,
        &mut scratch.marks,
        &mut scratch.ready,
        &mut scratch.placed,
        steps,
    );
    if found {
        order.copy_from_slice(&scratch.placed[..window.len()]);
    }
    found
}

/// The least node that lies on a cycle, if there is a cycle: the least from which an edge leads to a node
/// of its own strongly connected component. The components are found by two searches, after Kosaraju and
/// Sharir: one along the edges gives the order in which it finishes the nodes; from its last node to the
/// first, the nodes that lead there against the edges, without those of earlier components, are one.
/// Each search is in time of the nodes and the edges. Each edge ticks three times at most: once in each search, and once where its ends are compared.
pub fn least_on_cycle<L: Ledger>(
    graph: &Graph,
    scratch: &mut Scratch,
    steps: &mut Steps<L>,
) -> Option<u32>
    requires { scratch.old ≡ graph.now.nodes }
    ensures least { IfSome result (IsLeastOnCycle (HasEdge graph.now.edges)) }
    ensures none { IfNone result ((node : ℕ) → ¬ IsOnCycle (HasEdge graph.now.edges) node) }
    ensures room { scratch.new ≡ scratch.old }
    ensures bound { steps.new ≤ steps.old + 3 * length graph.now.edges }
    ensures later { steps.old ≤ steps.new }
{
    // The prover is told that the ends of all edges are nodes, and how many there may be.
    let _edges = graph.edges();
    finishing_order(
        graph,
        &mut scratch.marks,
        &mut scratch.queue,
        &mut scratch.placed,
        steps,
    );
    number_components(
        graph,
        &scratch.placed,
        &mut scratch.numbers,
        &mut scratch.queue,
        steps,
    );
    let least = least_reaching_itself(graph, &scratch.numbers, steps);
    scratch.numbers.fill(0);
    least
}

/// Puts the first, in list order, of the shortest cycles that begin at `start` into `cycle`. The node lies on a cycle.
/// A breadth-first search against the edges gives each node its distance to `start`; from there the least node of the level below is taken each
/// time. A target that is not reached yet is looked at once a level, and a reached one only where it may come next.
pub fn shortest_cycle_into<P: Pairs>(
    pairs: &P,
    start: u32,
    scratch: &mut Scratch,
    cycle: &mut Nodes,
)
    requires on_cycle { IsOnCycle (P.edges pairs.now) start }
    requires room { scratch.old ≡ P.node_count pairs.now }
    requires cycle_room { P.node_count pairs.now ≤ cycle.old.room }
    ensures first { (more : List ℕ) × (cycle.new.list ≡ start ∷ more)
        × IsFirstShortestCycle (P.edges pairs.now) start more }
    ensures room { scratch.new ≡ scratch.old }
    ensures cycle_room { cycle.new.room ≡ cycle.old.room }
{
    // The prover is told how many nodes there may be.
    let _nodes = pairs.nodes();
    shortest_cycle(
        pairs,
        start,
        &mut scratch.numbers,
        &mut scratch.placed,
        cycle,
    );
}
