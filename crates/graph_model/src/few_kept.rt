//! A graph of a few kept pairs, along which the same nodes are reached as along all kept pairs.
ghost use Rattle.std.specs.Prelude.{◌≡◌, ◌+◌, ◌-◌, ◌*◌, ◌<◌, ◌≤◌, suc, length, [], ◌++◌, Some, IfSome, IfOk, OnOk};
ghost use Rattle.std.specs.List.{flat_map};
ghost use Rattle.std.specs.Option.{ForSome};
ghost use Rattle.orders.specs.Orders.{nodes_below};
ghost use Rattle.test_lang.specs.Actions.{op_of};
ghost use Rattle.test_lang.specs.Program.{op_count, action_at, HasWord};
ghost use Rattle.graph_model.specs.FewKept.{edges_into, edges_onward, few_kept, in_thread, last_of_kind, next_of_kind, with_edges};
ghost use Rattle.graph_model.specs.NearestNodes.{Tells, last_node, first_passing};

use crate::kinds::{Kind, kinds_after, kinds_before};
use crate::nearest::Nearest;
use digraph::Graph;
use std::alloc::{AllocError, Global};
use test_lang::op::{Action, MemModel};
use test_lang::test::Test;

/// The node that was found, where it is in the thread of the other.
fn in_thread(test: &Test, node: u32, found: Option<u32>) -> Option<u32>
    requires node { node < op_count test.now }
    requires found { ForSome found (λ k. k < op_count test.now) }
    ensures { result ≡ in_thread test.now node found }
{
    match found {
        Some(other) if test.thread_of(node) == test.thread_of(other) => Some(other),
        _ => None,
    }
}

/// The last node of the kind before a node in its thread. The table tells the last nodes before it in all threads.
pub(crate) fn last_of_kind(
    test: &Test,
    nearest: &Nearest,
    kind: Kind,
    node: u32,
    action: Action,
) -> Option<u32>
    requires action { action_at test.now node ≡ Some action }
    requires word { HasWord test.now (op_of action) }
    requires words { length nearest.now.loads.items ≡ test.now.words }
    requires told { Tells (last_node test.now node) nearest.now }
    requires node { node < op_count test.now }
    ensures last { result ≡ last_of_kind kind test.now node }
    ensures below { IfSome result (λ k. k < op_count test.now) }
{
    in_thread(test, node, nearest.of(kind, action))
}

/// The first node of the kind after a node in its thread. The table tells the first nodes after it in all threads.
pub(crate) fn next_of_kind(
    test: &Test,
    nearest: &Nearest,
    kind: Kind,
    node: u32,
    action: Action,
) -> Option<u32>
    requires action { action_at test.now node ≡ Some action }
    requires word { HasWord test.now (op_of action) }
    requires words { length nearest.now.loads.items ≡ test.now.words }
    requires told { Tells (first_passing test.now (op_count test.now - suc node)) nearest.now }
    requires node { node < op_count test.now }
    ensures next { result ≡ next_of_kind kind test.now node }
    ensures below { IfSome result (λ k. k < op_count test.now) }
{
    in_thread(test, node, nearest.of(kind, action))
}

/// Adds the edges that lead to a node.
fn add_into(
    test: &Test,
    model: MemModel,
    nearest: &Nearest,
    node: u32,
    action: Action,
    graph: &mut Graph,
)
    requires action { action_at test.now node ≡ Some action }
    requires word { HasWord test.now (op_of action) }
    requires words { length nearest.now.loads.items ≡ test.now.words }
    requires told { Tells (last_node test.now node) nearest.now }
    requires node { node < op_count test.now }
    requires nodes { graph.old.nodes ≡ op_count test.now }
    requires room { length graph.old.edges + 3 ≤ graph.old.room }
    ensures { graph.new ≡ with_edges graph.old (edges_into model test.now node) }
{
    let kinds = kinds_before(model, action);
    for kind in kinds {
        if let Some(other) = last_of_kind(test, nearest, *kind, node, action) {
            graph.add(other, node);
        }
    }
}

/// Adds the edges that lead from a node to later ones.
fn add_onward(
    test: &Test,
    model: MemModel,
    nearest: &Nearest,
    node: u32,
    action: Action,
    graph: &mut Graph,
)
    requires action { action_at test.now node ≡ Some action }
    requires word { HasWord test.now (op_of action) }
    requires words { length nearest.now.loads.items ≡ test.now.words }
    requires told { Tells (first_passing test.now (op_count test.now - suc node)) nearest.now }
    requires node { node < op_count test.now }
    requires nodes { graph.old.nodes ≡ op_count test.now }
    requires room { length graph.old.edges + 1 ≤ graph.old.room }
    ensures { graph.new ≡ with_edges graph.old (edges_onward model test.now node) }
{
    let kinds = kinds_after(model, action);
    for kind in kinds {
        if let Some(other) = next_of_kind(test, nearest, *kind, node, action) {
            graph.add(node, other);
        }
    }
}

/// Adds to a graph without edges those that lead to each node.
fn add_all_into(
    alloc: Global,
    test: &Test,
    model: MemModel,
    graph: &mut Graph,
) -> Result<(), AllocError>
    requires nodes { graph.old.nodes ≡ op_count test.now }
    requires empty { graph.old.edges ≡ [] }
    requires room { 4 * op_count test.now ≤ graph.old.room }
    ensures { OnOk result (graph.new ≡ with_edges graph.old
        (flat_map (edges_into model test.now) (nodes_below (op_count test.now)))) }
{
    let mut nearest = Nearest::new(alloc, test.words())?;
    for node in 0..test.ops() {
        let action = test.action(node);
        add_into(test, model, &nearest, node, action, graph);
        nearest.meet(node, action);
    }
    Ok(())
}

/// Adds those that lead from each node to later ones.
fn add_all_onward(
    alloc: Global,
    test: &Test,
    model: MemModel,
    graph: &mut Graph,
) -> Result<(), AllocError>
    requires nodes { graph.old.nodes ≡ op_count test.now }
    requires room { length graph.old.edges + op_count test.now ≤ graph.old.room }
    ensures { OnOk result (graph.new ≡ with_edges graph.old (flat_map
        (λ k. edges_onward model test.now (op_count test.now - suc k))
        (nodes_below (op_count test.now)))) }
{
    let mut nearest = Nearest::new(alloc, test.words())?;
    for node in (0..test.ops()).rev() {
        let action = test.action(node);
        add_onward(test, model, &nearest, node, action, graph);
        nearest.meet(node, action);
    }
    Ok(())
}

/// The graph of a few kept pairs.
pub(crate) fn kept_graph(alloc: Global, test: &Test, model: MemModel) -> Result<Graph, AllocError>
    ensures { IfOk result
        (λ g. (g.nodes ≡ op_count test.now) × (g.edges ≡ few_kept model test.now)) }
{
    let ops = test.ops();
    let mut graph = Graph::with_room(alloc, ops, 4 * ops)?;
    add_all_into(alloc, test, model, &mut graph)?;
    add_all_onward(alloc, test, model, &mut graph)?;
    Ok(graph)
}
