//! Canonical cycles of small graphs. The wanted cycles were taken, by the rule, from the list of all cycles of each graph.
ghost use Rattle.std.specs.Prelude.{◌≡◌, ◌<◌, IfSome};
ghost use Rattle.digraph.specs.Digraph.{HasEdge};
ghost use Rattle.orders.specs.Cycles.{IsLeastOnCycle};

use crate::{Scratch, least_on_cycle, shortest_cycle_into};
use digraph::{Graph, Nodes, Pairs, Steps};
use std::alloc::{AllocError, Global};
use std::marker::Brand;
use std::sync::ledger::{Blank, Ledger};
use std::test::Fail;

/// The edges of a graph, told by a look at each of them.
#[derive(Drop)]
struct Looked<'a> {
    graph: &'a Graph,
}

impl<'a> Pairs for Looked<'a> {
    ghost use Rattle.digraph.specs.Digraph.{HasEdge};

    ghost node_count = { λ s. s.graph.now.nodes };

    ghost edges = { λ s. HasEdge s.graph.now.edges };

    fn nodes(&self) -> u32 {
        self.graph.nodes()
    }

    fn edge(&self, from: u32, to: u32) -> bool {
        for number in 0..self.graph.edges() {
            if self.graph.source(number) == from && self.graph.target(number) == to {
                return true;
            }
        }
        false
    }
}

fn least_counted<L: Ledger>(graph: &Graph, scratch: &mut Scratch, blank: Blank) -> Option<u32>
    requires room { scratch.old ≡ graph.now.nodes }
    requires name { blank.name ≡ L.name }
    requires parts { blank.parts ≡ L.parts }
    requires some { 0 < blank.parts }
    ensures least { IfSome result (IsLeastOnCycle (HasEdge graph.now.edges)) }
    ensures room { scratch.new ≡ scratch.old }
{
    let mut steps = Steps::<L>::new(blank);
    least_on_cycle(graph, scratch, &mut steps)
}

/// The least node on a cycle, or none.
pub fn least(graph: &Graph, scratch: &mut Scratch) -> Option<u32>
    requires room { scratch.old ≡ graph.now.nodes }
    ensures least { IfSome result (IsLeastOnCycle (HasEdge graph.now.edges)) }
    ensures room { scratch.new ≡ scratch.old }
{
    least_counted::<Brand>(graph, scratch, Blank::new(1))
}

/// The nodes of the canonical cycle, or none.
pub fn canonical(alloc: Global, graph: &Graph) -> Result<Nodes, AllocError> {
    let nodes = graph.nodes();
    let mut scratch = Scratch::new(alloc, nodes)?;
    let mut cycle = Nodes::with_room(alloc, nodes)?;
    if let Some(start) = least(graph, &mut scratch) {
        shortest_cycle_into(&Looked { graph }, start, &mut scratch, &mut cycle);
    }
    Ok(cycle)
}

fn graph_of(alloc: Global, row: &Row<'_>) -> Result<Graph, AllocError> {
    let mut graph = Graph::with_room(alloc, row.nodes, 20)?;
    for (from, to) in row.edges {
        if graph.edges() < 20 && *from < graph.nodes() && *to < graph.nodes() {
            graph.add(*from, *to);
        }
    }
    Ok(graph)
}

/// A graph, and its canonical cycle.
#[derive(Clone, Copy)]
struct Row<'a> {
    nodes: u32,
    edges: &'a [(u32, u32)],
    cycle: &'a [u32],
}

const ROWS: [Row<'static>; 18] = [
    Row {
        nodes: 4,
        edges: &[(0, 1), (1, 2), (2, 1)],
        cycle: &[1, 2],
    },
    Row {
        nodes: 4,
        edges: &[(0, 1), (1, 2)],
        cycle: &[],
    },
    Row {
        nodes: 6,
        edges: &[
            (0, 1),
            (0, 2),
            (1, 2),
            (3, 4),
            (3, 5),
            (4, 5),
            (2, 3),
            (5, 0),
        ],
        cycle: &[0, 2, 3, 5],
    },
    Row {
        nodes: 3,
        edges: &[(2, 2), (0, 1)],
        cycle: &[2],
    },
    Row {
        nodes: 1,
        edges: &[(0, 0)],
        cycle: &[0],
    },
    Row {
        nodes: 0,
        edges: &[],
        cycle: &[],
    },
    Row {
        nodes: 6,
        edges: &[
            (5, 2),
            (5, 4),
            (0, 3),
            (1, 5),
            (0, 1),
            (0, 2),
            (3, 1),
            (3, 4),
            (0, 4),
            (1, 0),
        ],
        cycle: &[0, 1],
    },
    Row {
        nodes: 6,
        edges: &[
            (3, 2),
            (1, 3),
            (1, 0),
            (1, 4),
            (4, 3),
            (5, 1),
            (0, 2),
            (3, 1),
            (1, 2),
        ],
        cycle: &[1, 3],
    },
    Row {
        nodes: 5,
        edges: &[(3, 0), (4, 2), (0, 4), (0, 2), (2, 4), (1, 3), (3, 4)],
        cycle: &[2, 4],
    },
    Row {
        nodes: 6,
        edges: &[
            (3, 1),
            (1, 4),
            (3, 4),
            (0, 2),
            (5, 0),
            (3, 0),
            (2, 4),
            (1, 2),
            (5, 4),
            (3, 2),
            (3, 5),
        ],
        cycle: &[],
    },
    Row {
        nodes: 5,
        edges: &[
            (1, 4),
            (4, 2),
            (2, 3),
            (0, 2),
            (2, 1),
            (3, 0),
            (0, 4),
            (3, 1),
        ],
        cycle: &[0, 2, 3],
    },
    Row {
        nodes: 6,
        edges: &[(2, 0), (0, 5), (3, 2), (3, 4), (4, 3), (1, 4), (1, 2)],
        cycle: &[3, 4],
    },
    Row {
        nodes: 5,
        edges: &[
            (2, 0),
            (1, 3),
            (2, 4),
            (3, 4),
            (4, 1),
            (4, 2),
            (4, 0),
            (1, 2),
            (3, 2),
        ],
        cycle: &[1, 2, 4],
    },
    Row {
        nodes: 6,
        edges: &[(2, 4), (3, 5), (5, 0), (0, 1), (3, 0), (5, 4), (4, 3)],
        cycle: &[3, 5, 4],
    },
    Row {
        nodes: 6,
        edges: &[
            (5, 1),
            (1, 3),
            (4, 3),
            (5, 4),
            (2, 0),
            (4, 2),
            (0, 3),
            (0, 1),
            (1, 4),
            (2, 1),
            (3, 5),
        ],
        cycle: &[0, 1, 4, 2],
    },
    Row {
        nodes: 6,
        edges: &[
            (2, 4),
            (4, 1),
            (5, 2),
            (1, 3),
            (5, 0),
            (3, 2),
            (5, 3),
            (4, 5),
            (4, 3),
            (5, 4),
        ],
        cycle: &[1, 3, 2, 4],
    },
    Row {
        nodes: 6,
        edges: &[
            (3, 2),
            (5, 4),
            (4, 5),
            (0, 3),
            (0, 5),
            (0, 4),
            (4, 3),
            (0, 1),
            (0, 2),
        ],
        cycle: &[4, 5],
    },
    Row {
        nodes: 6,
        edges: &[
            (0, 1),
            (5, 3),
            (4, 5),
            (0, 4),
            (2, 4),
            (0, 5),
            (3, 2),
            (1, 4),
            (5, 4),
            (0, 2),
        ],
        cycle: &[2, 4, 5, 3],
    },
];

#[test]
fn canonical_cycles_are_the_first_by_the_rule(rt: HostRuntime) -> Result<(), Fail> {
    for row in &ROWS {
        let graph = graph_of(rt.alloc(), row)?;
        assert_eq!(rt; graph.edges() as usize, row.edges.len());
        let cycle = canonical(rt.alloc(), &graph)?;
        assert_eq!(rt; cycle.list(), row.cycle);
    }
    Ok(())
}
