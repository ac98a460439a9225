//! The walk of a chunk as it is defined, over all edges of a run. It is slow, and for small tests: a checker is held against it.
ghost use Rattle.std.specs.Prelude.{◌≡◌, ◌≢◌, ℕ, ◌+◌, ◌^◌, ◌<◌, ◌≤◌, List, All, AllPairs, Contains, Option, Some, None, IfOk, IfSome, length};
ghost use Rattle.std.specs.Bool.{OnFalse, OnTrue};
ghost use Rattle.orders.specs.Choices.{IsNext, IsReady};
ghost use Rattle.orders.specs.Orders.{HasNoOrder, IsLeastOrder, nodes_below};
ghost use Rattle.test_lang.specs.Edges.{Edge, IsRunOrder};
ghost use Rattle.test_lang.specs.Program.{op_count};
ghost use Rattle.test_lang.specs.Runs.{IsInside};
ghost use Rattle.window_resort.specs.Walks.{Base, TakesRun};
ghost use Rattle.window_resort.specs.Windows.{IsWindow, with_window};

use crate::spans::{Window, widen};
use crate::verdicts::Verdict;
use graph_model::edge;
use std::alloc::{AllocError, Global};
use std::marker::Model;
use test_lang::op::MemModel;
use test_lang::test::Test;

/// A run with the order that it got.
#[derive(Drop)]
pub struct Placed {
    run: Vec<u32>,
    order: Vec<u32>,
}

impl Model for Placed {
    ghost use Rattle.window_resort.specs.Walks.{Base};

    ghost Value = { Base };

    ghost view = { λ p. record { run = p.run.items; order = p.order.items } };
}

impl Placed {
    /// The order.
    pub fn order(&self) -> &[u32]
        ensures { result.now ≡ self.now.order }
    {
        &self.order
    }
}

/// The constraint graph of a run, whose edges are asked for one by one.
#[derive(Drop)]
struct RunGraph<'a> {
    test: &'a Test,
    model: MemModel,
    run: &'a [u32],
}

/// Whether a node stands in a list.
fn is_among(nodes: &[u32], node: u32) -> bool
    ensures yes { OnTrue result (Contains nodes.now node) }
    ensures no { OnFalse result (¬ Contains nodes.now node) }
{
    nodes.contains(&node)
}

/// Whether a node isn't placed, and all its predecessors among the nodes are.
fn is_ready(graph: &RunGraph<'_>, nodes: &[u32], placed: &[u32], node: u32) -> bool
    requires inside { IsInside graph.now.test.now graph.now.run.now }
    requires below { All (λ n. n < op_count graph.now.test.now) nodes.now }
    requires node { node < op_count graph.now.test.now }
    ensures yes { OnTrue result ((¬ Contains placed.now node)
        × IsReady (Edge graph.now.model graph.now.test.now graph.now.run.now) nodes.now placed.now node) }
    ensures no { OnFalse result (¬ Contains placed.now node
        → ¬ IsReady (Edge graph.now.model graph.now.test.now graph.now.run.now) nodes.now placed.now node) }
{
    if is_among(placed, node) {
        return false;
    }
    for before in nodes {
        if !is_among(placed, *before) && edge(graph.test, graph.model, graph.run, *before, node) {
            return false;
        }
    }
    true
}

/// The least of the nodes that isn't placed, and whose predecessors among the nodes are.
fn next_node(graph: &RunGraph<'_>, nodes: &[u32], placed: &[u32]) -> Option<u32>
    requires inside { IsInside graph.now.test.now graph.now.run.now }
    requires below { All (λ n. n < op_count graph.now.test.now) nodes.now }
    ensures next { IfSome result (IsNext (Edge graph.now.model graph.now.test.now graph.now.run.now) nodes.now placed.now) }
    ensures none { result ≡ None → (node : ℕ) → Contains nodes.now node → ¬ Contains placed.now node
        → ¬ IsReady (Edge graph.now.model graph.now.test.now graph.now.run.now) nodes.now placed.now node }
{
    let mut next: Option<u32> = None;
    for node in nodes {
        if is_ready(graph, nodes, placed, *node) {
            next = Some(match next {
                Some(least) => u32::min(least, *node),
                None => *node,
            });
        }
    }
    next
}

/// The least order of the nodes, if they have one.
fn least_order(
    alloc: Global,
    graph: &RunGraph<'_>,
    nodes: &[u32],
) -> Result<Option<Vec<u32>>, AllocError>
    requires inside { IsInside graph.now.test.now graph.now.run.now }
    requires below { All (λ n. n < op_count graph.now.test.now) nodes.now }
    requires once { AllPairs (λ a b. a ≢ b) nodes.now }
    ensures least { IfOk result (λ found. IfSome found (λ order.
        IsLeastOrder (Edge graph.now.model graph.now.test.now graph.now.run.now) nodes.now order.items)) }
    ensures none { IfOk result (λ found. found ≡ None →
        HasNoOrder (Edge graph.now.model graph.now.test.now graph.now.run.now) nodes.now) }
{
    let mut order = Vec::with_capacity(alloc, nodes.len())?;
    for _ in 0..nodes.len() {
        match next_node(graph, nodes, &order) {
            Some(node) => order.push(node)?,
            None => return Ok(None),
        }
    }
    Ok(Some(order))
}

/// The window of an order.
fn window_of(graph: &RunGraph<'_>, order: &[u32]) -> Option<Window>
    requires inside { IsInside graph.now.test.now graph.now.run.now }
    requires below { All (λ n. n < op_count graph.now.test.now) order.now }
    requires few { length order.now < 2 ^ 32 }
    ensures { IsWindow (Edge graph.now.model graph.now.test.now graph.now.run.now) order.now result }
{
    let mut window = None;
    for source in 0..order.len() as u32 {
        for target in 0..source {
            let from = order[source as usize];
            let to = order[target as usize];
            if edge(graph.test, graph.model, graph.run, from, to) {
                window = Some(widen(window, source, target));
            }
        }
    }
    window
}

/// All nodes of a test, rising.
fn all_nodes(alloc: Global, test: &Test) -> Result<Vec<u32>, AllocError>
    ensures { IfOk result (λ nodes. nodes.items ≡ nodes_below (op_count test.now)) }
{
    let mut nodes = Vec::new(alloc);
    for node in 0..test.ops() {
        nodes.push(node)?;
    }
    Ok(nodes)
}

/// A run without a base.
fn take_first(alloc: Global, graph: &RunGraph<'_>) -> Result<(Verdict, Option<Placed>), AllocError>
    requires inside { IsInside graph.now.test.now graph.now.run.now }
    ensures { IfOk result (λ taken. TakesRun graph.now.model graph.now.test.now None graph.now.run.now taken.0 taken.1) }
{
    let nodes = all_nodes(alloc, graph.test)?;
    let Some(order) = least_order(alloc, graph, &nodes)? else {
        return Ok((Verdict::Cycle { window: None }, None));
    };
    let run = graph.run.to_vec(alloc)?;
    Ok((Verdict::Sorted, Some(Placed { run, order })))
}

/// The order with other nodes in the window.
fn put_in_window(
    alloc: Global,
    order: &[u32],
    window: Window,
    nodes: &[u32],
) -> Result<Vec<u32>, AllocError>
    requires last { window.last < length order.now }
    requires rising { window.first ≤ window.last }
    ensures { IfOk result (λ placed. placed.items ≡ with_window order.now window nodes.now) }
{
    let mut placed = Vec::with_capacity(alloc, order.len())?;
    placed.extend_from_slice(&order[..window.first as usize])?;
    placed.extend_from_slice(nodes)?;
    placed.extend_from_slice(&order[window.last as usize + 1..])?;
    Ok(placed)
}

/// A run from a base, whose order has this window.
fn take_in_window(
    alloc: Global,
    graph: &RunGraph<'_>,
    base: Placed,
    window: Window,
) -> Result<(Verdict, Option<Placed>), AllocError>
    requires inside { IsInside graph.now.test.now graph.now.run.now }
    requires order { IsRunOrder graph.now.model graph.now.test.now base.run base.order }
    requires window { IsWindow (Edge graph.now.model graph.now.test.now graph.now.run.now) base.order (Some window) }
    requires rising { window.first ≤ window.last }
    requires last { window.last < length base.order }
    requires few { length base.order < 2 ^ 32 }
    ensures { IfOk result (λ taken. TakesRun graph.now.model graph.now.test.now (Some base) graph.now.run.now taken.0 taken.1) }
{
    let nodes = window.nodes();
    let part = &base.order[window.first as usize..window.last as usize + 1];
    let Some(sorted) = least_order(alloc, graph, part)? else {
        let window = Some(nodes);
        return Ok((Verdict::Cycle { window }, Some(base)));
    };
    let order = put_in_window(alloc, &base.order, window, &sorted)?;
    let run = graph.run.to_vec(alloc)?;
    Ok((Verdict::Resorted { nodes }, Some(Placed { run, order })))
}

/// One run more of a chunk: its verdict, and the base after it. The base before it has an order of its run, and so has that after it. The error is
/// want of memory.
pub fn take_slowly(
    alloc: Global,
    test: &Test,
    model: MemModel,
    base: Option<Placed>,
    run: &[u32],
) -> Result<(Verdict, Option<Placed>), AllocError>
    requires inside { IsInside test.now run.now }
    requires order { IfSome base (λ b. IsRunOrder model test.now b.run b.order) }
    ensures taken { IfOk result (λ taken. TakesRun model test.now base run.now taken.0 taken.1) }
    ensures order { IfOk result (λ taken. IfSome taken.1 (λ b. IsRunOrder model test.now b.run b.order)) }
{
    let graph = &RunGraph { test, model, run };
    let Some(base) = base else {
        return take_first(alloc, graph);
    };
    // The prover is told how many nodes there may be.
    let _nodes = test.ops();
    match window_of(graph, &base.order) {
        Some(window) => take_in_window(alloc, graph, base, window),
        None => {
            let run = run.to_vec(alloc)?;
            let order = base.order;
            Ok((Verdict::Kept, Some(Placed { run, order })))
        }
    }
}
