//! Orders of small graphs, and of one that fills several words of the set. The tests compare plain values: what makes the calls says nothing of orders.
ghost use Rattle.std.specs.Prelude.{◌≡◌, ◌≢◌, ◌<◌, IsTrue, length, All, AllPairs};

use crate::{Scratch, least_order_into, window_order_into};
use digraph::{Graph, Steps};
use std::alloc::{AllocError, Global};
use std::marker::Brand;
use std::sync::ledger::{Blank, Ledger};
use std::test::Fail;

fn least_counted<L: Ledger>(
    graph: &Graph,
    scratch: &mut Scratch,
    order: &mut [u32],
    blank: Blank,
) -> bool
    requires room { scratch.old ≡ graph.now.nodes }
    requires order { length order.old ≡ graph.now.nodes }
    requires name { blank.name ≡ L.name }
    requires parts { blank.parts ≡ L.parts }
    requires some { 0 < blank.parts }
    ensures { scratch.new ≡ scratch.old }
{
    let mut steps = Steps::<L>::new(blank);
    least_order_into(graph, scratch, order, &mut steps)
}

fn least(graph: &Graph, scratch: &mut Scratch, order: &mut [u32]) -> bool
    requires room { scratch.old ≡ graph.now.nodes }
    requires order { length order.old ≡ graph.now.nodes }
    ensures { scratch.new ≡ scratch.old }
{
    least_counted::<Brand>(graph, scratch, order, Blank::new(1))
}

fn window_counted<L: Ledger>(
    graph: &Graph,
    window: &[u32],
    scratch: &mut Scratch,
    order: &mut [u32],
    blank: Blank,
) -> bool
    requires window { All (λ n. n < graph.now.nodes) window.now }
    requires once { AllPairs (λ a b. a ≢ b) window.now }
    requires room { scratch.old ≡ graph.now.nodes }
    requires order { length order.old ≡ length window.now }
    requires name { blank.name ≡ L.name }
    requires parts { blank.parts ≡ L.parts }
    requires some { 0 < blank.parts }
    ensures { scratch.new ≡ scratch.old }
{
    let mut steps = Steps::<L>::new(blank);
    window_order_into(graph, window, scratch, order, &mut steps)
}

fn window_order(graph: &Graph, window: &[u32], scratch: &mut Scratch, order: &mut [u32]) -> bool
    requires window { All (λ n. n < graph.now.nodes) window.now }
    requires once { AllPairs (λ a b. a ≢ b) window.now }
    requires room { scratch.old ≡ graph.now.nodes }
    requires order { length order.old ≡ length window.now }
    ensures { scratch.new ≡ scratch.old }
{
    window_counted::<Brand>(graph, window, scratch, order, Blank::new(1))
}

/// Whether the list has nodes below a number alone, each once.
fn is_window(window: &[u32], nodes: u32) -> bool
    ensures below { IsTrue result → All (λ n. n < nodes) window.now }
    ensures once { IsTrue result → AllPairs (λ a b. a ≢ b) window.now }
{
    for place in 0..window.len() {
        if window[place] >= nodes {
            return false;
        }
        for before in 0..place {
            if window[before] == window[place] {
                return false;
            }
        }
    }
    true
}

/// The order of all nodes or of a window, and whether there is one. Where there is none, each place has a 9.
fn sorted(
    alloc: Global,
    graph: &Graph,
    window: Option<&[u32]>,
    scratch: &mut Scratch,
) -> Result<(bool, Vec<u32>), AllocError>
    requires { scratch.old ≡ graph.now.nodes }
    ensures { scratch.new ≡ scratch.old }
{
    let Some(window) = window else {
        let mut order = vec![in alloc; 9u32; graph.nodes() as usize]?;
        let found = least(graph, scratch, &mut order);
        return Ok((found, order));
    };
    let mut order = vec![in alloc; 9u32; window.len()]?;
    let found = is_window(window, graph.nodes())
        && window_order(graph, window, scratch, &mut order);
    Ok((found, order))
}

/// A sort of all nodes or of a window, after the last edges are taken away until so many are left, and others are added.
#[derive(Clone, Copy)]
struct Sort<'a> {
    left: u32,
    more: &'a [(u32, u32)],
    window: Option<&'a [u32]>,
    order: Option<&'a [u32]>,
}

/// Takes the last edges away until so many are left, and adds others.
fn change(graph: &mut Graph, sort: &Sort<'_>)
    requires { graph.old.room ≡ 3 }
    ensures nodes { graph.new.nodes ≡ graph.old.nodes }
    ensures room { graph.new.room ≡ 3 }
{
    if sort.left <= graph.edges() {
        graph.truncate(sort.left);
    }
    for (from, to) in sort.more {
        if graph.edges() < 3 && *from < graph.nodes() && *to < graph.nodes() {
            graph.add(*from, *to);
        }
    }
}

/// Whether a sort answers what is wanted.
fn agrees(found: bool, order: &[u32], want: Option<&[u32]>) -> bool {
    match want {
        Some(want) => found && order == want,
        None => !found && order.iter().all(|node| *node == 9),
    }
}

/// Whether sorts of one graph, one after another in one scratch, answer what is wanted.
fn sorts_agree(alloc: Global, nodes: u32, sorts: &[Sort<'_>]) -> Result<bool, AllocError> {
    let mut graph = Graph::with_room(alloc, nodes, 3)?;
    let mut scratch = Scratch::new(alloc, nodes)?;
    for sort in sorts {
        change(&mut graph, sort);
        let (found, order) = sorted(alloc, &graph, sort.window, &mut scratch)?;
        if !agrees(found, &order, sort.order) {
            return Ok(false);
        }
    }
    Ok(true)
}

/// A number of nodes, and sorts one after another.
#[derive(Clone, Copy)]
struct Case<'a> {
    nodes: u32,
    sorts: &'a [Sort<'a>],
}

const CASES: [Case<'static>; 3] = [
    // a failed sort leaves room for a good one
    Case {
        nodes: 4,
        sorts: &[
            Sort {
                left: 0,
                more: &[(0, 1), (1, 2), (2, 1)],
                window: None,
                order: None,
            },
            Sort {
                left: 2,
                more: &[],
                window: None,
                order: Some(&[0, 1, 2, 3]),
            },
            Sort {
                left: 0,
                more: &[(3, 0), (2, 1)],
                window: None,
                order: Some(&[2, 1, 3, 0]),
            },
        ],
    },
    // windows are sorted by the edges among their nodes
    Case {
        nodes: 4,
        sorts: &[
            Sort {
                left: 0,
                more: &[(0, 1), (1, 2), (2, 1)],
                window: Some(&[1, 3, 2]),
                order: None,
            },
            Sort {
                left: 3,
                more: &[],
                window: Some(&[2, 0, 3]),
                order: Some(&[0, 2, 3]),
            },
            Sort {
                left: 3,
                more: &[],
                window: Some(&[1, 0]),
                order: Some(&[0, 1]),
            },
            Sort {
                left: 3,
                more: &[],
                window: Some(&[]),
                order: Some(&[]),
            },
        ],
    },
    // no nodes have an order
    Case {
        nodes: 0,
        sorts: &[Sort {
            left: 0,
            more: &[],
            window: None,
            order: Some(&[]),
        }],
    },
];

#[test]
fn small_graphs_and_windows_are_sorted(rt: HostRuntime) -> Result<(), Fail> {
    for case in &CASES {
        assert!(rt; sorts_agree(rt.alloc(), case.nodes, case.sorts)?);
    }
    Ok(())
}

/// A chain of all nodes, from the last to the first, and its order.
fn falling(alloc: Global, nodes: u32) -> Result<(bool, Vec<u32>), AllocError> {
    let mut graph = Graph::with_room(alloc, nodes, nodes)?;
    for node in 1..nodes {
        graph.add(node, node - 1);
    }
    let mut scratch = Scratch::new(alloc, nodes)?;
    sorted(alloc, &graph, None, &mut scratch)
}

/// Whether the list has all numbers below its length, falling.
fn falls(order: &[u32]) -> bool {
    let mut left = order.len();
    for node in order {
        left = left.wrapping_sub(1);
        if *node as usize != left {
            return false;
        }
    }
    true
}

#[test]
fn a_long_chain_is_sorted(rt: HostRuntime) -> Result<(), Fail> {
    let (found, order) = falling(rt.alloc(), 5000)?;
    assert!(rt; found && order.len() == 5000 && falls(&order));
    Ok(())
}
