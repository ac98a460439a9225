//! The least node on a cycle of large graphs, as it follows from how each graph is made.
ghost use Rattle.std.specs.Prelude.{◌≡◌};

use crate::Scratch;
use crate::cycle_tests::least;
use digraph::Graph;
use std::alloc::{AllocError, Global};
use std::test::Fail;

/// Edges from a node to each of some nodes, and from these to a node.
#[derive(Clone, Copy)]
struct Fan {
    from: u32,
    first: u32,
    last: u32,
    to: u32,
}

/// A graph: chains, in which an edge leads from each node to the next from the first to the last, fans
/// and further edges; and its least node on a cycle.
#[derive(Clone, Copy)]
struct Row<'a> {
    chains: &'a [(u32, u32)],
    fans: &'a [Fan],
    edges: &'a [(u32, u32)],
    least: Option<u32>,
}

const NODES: u32 = 3000;

const ROOM: u32 = 10000;

const ROWS: [Row<'static>; 9] = [
    // all nodes on one chain
    Row {
        chains: &[(0, 2999)],
        fans: &[],
        edges: &[],
        least: None,
    },
    // all nodes on one cycle
    Row {
        chains: &[(0, 2999)],
        fans: &[],
        edges: &[(2999, 0)],
        least: Some(0),
    },
    // two cycles, joined by a path of the least nodes
    Row {
        chains: &[(0, 2989), (2990, 2994), (2995, 2999)],
        fans: &[],
        edges: &[(2994, 2990), (2999, 2995), (2992, 0), (2989, 2997)],
        least: Some(2990),
    },
    // the same, with the higher nodes before
    Row {
        chains: &[(0, 2989), (2990, 2994), (2995, 2999)],
        fans: &[],
        edges: &[(2994, 2990), (2999, 2995), (2997, 0), (2989, 2992)],
        least: Some(2990),
    },
    // many nodes between two cycles, each on a path of its own
    Row {
        chains: &[(2990, 2994), (2995, 2999)],
        fans: &[Fan {
            from: 2998,
            first: 0,
            last: 2989,
            to: 2991,
        }],
        edges: &[(2994, 2990), (2999, 2995)],
        least: Some(2990),
    },
    // many nodes on cycles of three, through one node
    Row {
        chains: &[],
        fans: &[Fan {
            from: 2999,
            first: 17,
            last: 2997,
            to: 2998,
        }],
        edges: &[(2998, 2999), (16, 17)],
        least: Some(17),
    },
    // an edge from a node to itself
    Row {
        chains: &[(0, 2999)],
        fans: &[],
        edges: &[(1500, 1500)],
        least: Some(1500),
    },
    // a cycle behind a long front
    Row {
        chains: &[(0, 2999)],
        fans: &[],
        edges: &[(2999, 2997)],
        least: Some(2997),
    },
    // a cycle before a long tail
    Row {
        chains: &[(0, 2997), (2998, 2999)],
        fans: &[],
        edges: &[(2999, 2998), (2999, 0)],
        least: Some(2998),
    },
];

fn add(graph: &mut Graph, from: u32, to: u32)
    requires { graph.old.room ≡ ROOM }
    ensures { graph.new.room ≡ ROOM }
{
    if graph.edges() < ROOM && from < graph.nodes() && to < graph.nodes() {
        graph.add(from, to);
    }
}

fn graph_of(alloc: Global, row: &Row<'_>) -> Result<Graph, AllocError> {
    let mut graph = Graph::with_room(alloc, NODES, ROOM)?;
    for (first, last) in row.chains {
        for node in *first..*last {
            add(&mut graph, node, node + 1);
        }
    }
    for fan in row.fans {
        for node in fan.first..=fan.last {
            add(&mut graph, fan.from, node);
            add(&mut graph, node, fan.to);
        }
    }
    for (from, to) in row.edges {
        add(&mut graph, *from, *to);
    }
    Ok(graph)
}

#[test]
fn the_least_node_on_a_cycle_of_large_graphs(rt: HostRuntime) -> Result<(), Fail> {
    for (number, row) in ROWS.iter().enumerate() {
        let graph = graph_of(rt.alloc(), row)?;
        let mut scratch = Scratch::new(rt.alloc(), graph.nodes())?;
        assert_eq!(rt; least(&graph, &mut scratch), row.least, "row {number}");
        assert_eq!(rt;
            least(&graph, &mut scratch),
            row.least,
            "row {number}, again"
        );
    }
    Ok(())
}
