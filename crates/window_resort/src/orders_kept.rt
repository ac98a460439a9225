//! An order with the places of its nodes.
ghost use Rattle.std.specs.Prelude.{◌≡◌, ◌≢◌, ℕ, ◌+◌, ◌*◌, ◌^◌, ◌<◌, ◌≤◌, List, All, AllPairs, IfOk, length, slice_index};
ghost use Rattle.std.specs.Bool.{OnFalse, OnTrue};
ghost use Rattle.orders.specs.Orders.{HasNoOrder, IsLeastOrder, nodes_below};
ghost use Rattle.digraph.specs.Digraph.{HasEdge, edges_out};
ghost use Rattle.window_resort.specs.Changes.{HasPlaces};
ghost use Rattle.window_resort.specs.Tables.{HasOrderRoom};
ghost use Rattle.window_resort.specs.Windows.{window_length, window_nodes, with_window};

use crate::spans::Window;
use digraph::{Graph, Steps};
use full_sort::{Scratch, least_order_into, window_order_into};
use std::alloc::{AllocError, Global};
use std::sync::ledger::Ledger;

/// Notes the place of each node of an order.
fn note_places(order: &[u32], places: &mut [u32])
    requires long { length places.old ≡ length order.now }
    requires few { length order.now < 2 ^ 32 }
    requires once { AllPairs (λ a b. a ≢ b) order.now }
    requires below { All (λ node. node < length order.now) order.now }
    ensures { HasPlaces order.now places.new }
{
    for place in 0..order.len() {
        places[order[place] as usize] = place as u32;
    }
}

/// Puts nodes into the window of an order, and notes their places.
fn put_in_place(order: &mut [u32], places: &mut [u32], window: Window, nodes: &[u32])
    requires first { window.first ≤ window.last }
    requires last { window.last < length order.old }
    requires nodes { length nodes.now ≡ window_length window }
    requires below { All (λ node. node < length order.old) nodes.now }
    requires once { AllPairs (λ a b. a ≢ b) (with_window order.old window nodes.now) }
    requires places { HasPlaces order.old places.old }
    ensures order { order.new ≡ with_window order.old window nodes.now }
    ensures places { HasPlaces (with_window order.old window nodes.now) places.new }
{
    order[window.first as usize..=window.last as usize].copy_from_slice(nodes);
    for index in 0..nodes.len() {
        places[nodes[index] as usize] = window.first + index as u32;
    }
}

/// Sorts all nodes of the graph, and says whether they have an order.
fn sort_nodes<L: Ledger>(
    graph: &Graph,
    order: &mut [u32],
    places: &mut [u32],
    scratch: &mut Scratch,
    steps: &mut Steps<L>,
) -> bool
    requires order { length order.old ≡ graph.now.nodes }
    requires places { length places.old ≡ graph.now.nodes }
    requires scratch { scratch.old ≡ graph.now.nodes }
    ensures found { OnTrue result
        (IsLeastOrder (HasEdge graph.now.edges) (nodes_below graph.now.nodes) order.new) }
    ensures none { OnFalse result
        (HasNoOrder (HasEdge graph.now.edges) (nodes_below graph.now.nodes)) }
    ensures places { OnTrue result (HasPlaces order.new places.new) }
    ensures order_long { length order.new ≡ graph.now.nodes }
    ensures places_long { length places.new ≡ graph.now.nodes }
    ensures scratch { scratch.new ≡ scratch.old }
    ensures later { steps.old ≤ steps.new }
{
    // The prover is told how many nodes there may be.
    let _nodes = graph.nodes();
    let found = least_order_into(graph, scratch, order, steps);
    if found {
        note_places(order, places);
    }
    found
}

/// Sorts the nodes of a window of the order again, and says whether they have an order. `sorted` is where they are sorted.
fn sort_some<L: Ledger>(
    graph: &Graph,
    window: Window,
    order: &mut [u32],
    places: &mut [u32],
    sorted: &mut [u32],
    scratch: &mut Scratch,
    steps: &mut Steps<L>,
) -> bool
    requires order { length order.old ≡ graph.now.nodes }
    requires sorted { length sorted.old ≡ graph.now.nodes }
    requires scratch { scratch.old ≡ graph.now.nodes }
    requires first { window.first ≤ window.last }
    requires last { window.last < length order.old }
    requires below { All (λ node. node < graph.now.nodes) order.old }
    requires once { AllPairs (λ a b. a ≢ b) order.old }
    requires placed { HasPlaces order.old places.old }
    ensures found { OnTrue result ((nodes : List ℕ) × IsLeastOrder (HasEdge graph.now.edges) (window_nodes order.old window) nodes
        × (order.new ≡ with_window order.old window nodes)) }
    ensures none { OnFalse result (HasNoOrder (HasEdge graph.now.edges) (window_nodes order.old window)) }
    ensures unchanged { OnFalse result (order.new ≡ order.old) }
    ensures places { HasPlaces order.new places.new }
    ensures order_long { length order.new ≡ graph.now.nodes }
    ensures sorted_long { length sorted.new ≡ graph.now.nodes }
    ensures scratch { scratch.new ≡ scratch.old }
    ensures ticks { steps.new ≡ steps.old + 2 * edges_out graph.now.edges (window_nodes order.old window) }
{
    // The prover is told how many nodes there may be.
    let _nodes = graph.nodes();
    let list = &mut sorted[..window.nodes() as usize];
    let nodes = &order[window.first as usize..window.last as usize + 1];
    if !window_order_into(graph, nodes, scratch, list, steps) {
        return false;
    }
    put_in_place(order, places, window, list);
    true
}

/// A run with an order, and the place of each node there.
#[derive(Drop)]
pub(crate) struct SortedRun {
    pub(crate) run: Vec<u32>,
    pub(crate) order: Vec<u32>,
    pub(crate) places: Vec<u32>,
    /// Where the nodes of a window are sorted.
    sorted: Vec<u32>,
}

impl SortedRun {
    /// Room for a run of so many loads, and for orders of so many nodes. The error is want of memory.
    pub(crate) fn new(alloc: Global, loads: u32, nodes: u32) -> Result<SortedRun, AllocError>
        ensures loads { IfOk result (λ sorted. length sorted.run.items ≡ loads) }
        ensures nodes { IfOk result (λ sorted. HasOrderRoom nodes sorted.order.items sorted.places.items sorted.sorted.items) }
    {
        Ok(SortedRun {
            run: vec![in alloc; 0u32; loads as usize]?,
            order: vec![in alloc; 0u32; nodes as usize]?,
            places: vec![in alloc; 0u32; nodes as usize]?,
            sorted: vec![in alloc; 0u32; nodes as usize]?,
        })
    }

    /// Takes the values of a run.
    pub(crate) fn take_values(&mut self, run: &[u32])
        requires { length run.now ≡ length self.old.run.items }
        ensures run { self.new.run.items ≡ run.now }
        ensures order { self.new.order.items ≡ self.old.order.items }
        ensures places { self.new.places.items ≡ self.old.places.items }
        ensures sorted { length self.new.sorted.items ≡ length self.old.sorted.items }
    {
        self.run.copy_from_slice(run);
    }

    /// Sorts all nodes of the graph, and says whether they have an order.
    pub(crate) fn sort_all<L: Ledger>(
        &mut self,
        graph: &Graph,
        scratch: &mut Scratch,
        steps: &mut Steps<L>,
    ) -> bool
        requires room { HasOrderRoom graph.now.nodes self.old.order.items self.old.places.items self.old.sorted.items }
        requires scratch { scratch.old ≡ graph.now.nodes }
        ensures found { OnTrue result
            (IsLeastOrder (HasEdge graph.now.edges) (nodes_below graph.now.nodes) self.new.order.items) }
        ensures none { OnFalse result
            (HasNoOrder (HasEdge graph.now.edges) (nodes_below graph.now.nodes)) }
        ensures places { OnTrue result (HasPlaces self.new.order.items self.new.places.items) }
        ensures run { self.new.run.items ≡ self.old.run.items }
        ensures room { HasOrderRoom graph.now.nodes self.new.order.items self.new.places.items self.new.sorted.items }
        ensures scratch { scratch.new ≡ scratch.old }
        ensures later { steps.old ≤ steps.new }
    {
        sort_nodes(graph, &mut self.order, &mut self.places, scratch, steps)
    }

    /// Sorts the nodes of the window again, and says whether they have an order.
    pub(crate) fn sort_window<L: Ledger>(
        &mut self,
        graph: &Graph,
        window: Window,
        scratch: &mut Scratch,
        steps: &mut Steps<L>,
    ) -> bool
        requires room { HasOrderRoom graph.now.nodes self.old.order.items self.old.places.items self.old.sorted.items }
        requires scratch { scratch.old ≡ graph.now.nodes }
        requires first { window.first ≤ window.last }
        requires last { window.last < length self.old.order.items }
        requires below { All (λ node. node < graph.now.nodes) self.old.order.items }
        requires once { AllPairs (λ a b. a ≢ b) self.old.order.items }
        requires placed { HasPlaces self.old.order.items self.old.places.items }
        ensures found { OnTrue result ((nodes : List ℕ) × IsLeastOrder (HasEdge graph.now.edges) (window_nodes self.old.order.items window) nodes
            × (self.new.order.items ≡ with_window self.old.order.items window nodes)) }
        ensures none { OnFalse result (HasNoOrder (HasEdge graph.now.edges) (window_nodes self.old.order.items window)) }
        ensures unchanged { OnFalse result (self.new.order.items ≡ self.old.order.items) }
        ensures places { HasPlaces self.new.order.items self.new.places.items }
        ensures run { self.new.run.items ≡ self.old.run.items }
        ensures room { HasOrderRoom graph.now.nodes self.new.order.items self.new.places.items self.new.sorted.items }
        ensures scratch { scratch.new ≡ scratch.old }
        ensures ticks { steps.new ≡ steps.old + 2 * edges_out graph.now.edges (window_nodes self.old.order.items window) }
    {
        sort_some(
            graph,
            window,
            &mut self.order,
            &mut self.places,
            &mut self.sorted,
            scratch,
            steps,
        )
    }
}
