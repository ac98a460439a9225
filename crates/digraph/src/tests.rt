//! Lists, graphs and sets of edges as a caller uses them. What makes the calls has no clauses, so that the tests compare plain values.
ghost use Rattle.std.specs.Prelude.{◌≡◌, ◌+◌, ◌%◌, ◌<◌, [], ◌∷◌, length, IfOk};

use crate::{Edges, Graph, NEAR, Nodes, Pairs, Steps};
use std::alloc::{AllocError, Global};
use std::marker::Brand;
use std::sync::ledger::{Blank, Ledger};
use std::test::Fail;

/// A list with this room, which had the nodes of `before` until it was emptied.
fn nodes_of(alloc: Global, room: u32, before: &[u32], list: &[u32]) -> Result<Nodes, AllocError> {
    let mut nodes = Nodes::with_room(alloc, room)?;
    for node in before {
        if nodes.list().len() < room as usize {
            nodes.push(*node);
        }
    }
    nodes.clear();
    for node in list {
        if nodes.list().len() < room as usize {
            nodes.push(*node);
        }
    }
    Ok(nodes)
}

/// A list with this room, which had the edges of `before` until it was emptied.
fn edges_of(
    alloc: Global,
    room: u32,
    before: &[(u32, u32)],
    list: &[(u32, u32)],
) -> Result<Edges, AllocError> {
    let mut edges = Edges::with_room(alloc, room)?;
    for (from, to) in before {
        if edges.list().len() < room as usize {
            edges.push(*from, *to);
        }
    }
    edges.clear();
    for (from, to) in list {
        if edges.list().len() < room as usize {
            edges.push(*from, *to);
        }
    }
    Ok(edges)
}

#[test]
fn lists_hold_what_was_pushed(rt: HostRuntime) -> Result<(), Fail> {
    let nodes = nodes_of(rt.alloc(), 3, &[], &[7, 2])?;
    assert!(rt; nodes.list() == [7, 2].as_slice());
    assert!(rt; nodes != nodes_of(rt.alloc(), 2, &[], &[7])?);
    assert!(rt;
        nodes == nodes_of(rt.alloc(), 2, &[], &[7, 2])?,
        "the room is no part of the list"
    );
    assert!(rt; nodes_of(rt.alloc(), 3, &[7, 2], &[])?.list().is_empty());
    assert!(rt; nodes_of(rt.alloc(), 3, &[7, 2], &[1])?.list() == [1].as_slice());

    let edges = edges_of(rt.alloc(), 2, &[], &[(4, 5), (4, 3)])?;
    let want: [(u32, u32); 2] = [(4, 5), (4, 3)];
    assert!(rt; edges.list() == want.as_slice());
    assert!(rt; edges != edges_of(rt.alloc(), 3, &[], &[(4, 5)])?);
    assert!(rt;
        edges == edges_of(rt.alloc(), 3, &[], &[(4, 5), (4, 3)])?,
        "the room is no part of the list"
    );
    assert!(rt;
        edges_of(rt.alloc(), 2, &[(4, 5), (4, 3)], &[])?
            .list()
            .is_empty()
    );
    Ok(())
}

/// Takes the last edges away until so many are left, and adds others.
#[derive(Clone, Copy)]
struct Part<'a> {
    left: u32,
    more: &'a [(u32, u32)],
}

/// A graph of so many nodes with this room, after these parts.
fn graph_of(alloc: Global, nodes: u32, room: u32, parts: &[Part<'_>]) -> Result<Graph, AllocError> {
    let mut graph = Graph::with_room(alloc, nodes, room)?;
    for part in parts {
        if part.left == 0 {
            graph.clear();
        } else if part.left <= graph.edges() {
            graph.truncate(part.left);
        }
        for (from, to) in part.more {
            if graph.edges() < room && *from < graph.nodes() && *to < graph.nodes() {
                graph.add(*from, *to);
            }
        }
    }
    Ok(graph)
}

/// A graph of three nodes that is cut off to one with two edges, and then, if there are to be more, three edges more.
fn cut_off(alloc: Global, more: bool) -> Result<Graph, AllocError> {
    let mut start = Graph::with_room(alloc, 3, 2)?;
    start.add(0, 1);
    start.add(1, 2);
    let mut graph = Graph::with_room(alloc, 3, 5)?;
    graph.add(0, 1);
    graph.add(1, 2);
    graph.add(0, 2);
    graph.add(0, 1);
    graph.truncate_to(&start);
    if more {
        graph.add_all(&[(2, 1), (0, 1), (2, 0)]);
    }
    Ok(graph)
}

/// How many nodes and how many edges there are.
fn sizes(graph: &Graph) -> (u32, u32) {
    (graph.nodes(), graph.edges())
}

/// How many edges lead to each node.
fn degrees_in(graph: &Graph) -> &[u32] {
    graph.in_degrees()
}

/// The ends of an edge.
fn ends(graph: &Graph, edge: u32) -> Option<(u32, u32)> {
    if edge < graph.edges() {
        Some((graph.source(edge), graph.target(edge)))
    } else {
        None
    }
}

/// The first and the next edge out, and the first and the next edge in.
type Reads = [Option<u32>; 4];

fn reads_counted<L: Ledger>(graph: &Graph, node: u32, edge: u32, blank: Blank) -> Reads
    requires node { node < graph.now.nodes }
    requires edge { edge < length graph.now.edges }
    requires name { blank.name ≡ L.name }
    requires parts { blank.parts ≡ L.parts }
    requires some { 0 < blank.parts }
{
    let mut steps = Steps::<L>::new(blank);
    [
        graph.first_out(node, &mut steps),
        graph.next_out(edge, &mut steps),
        graph.first_in(node, &mut steps),
        graph.next_in(edge, &mut steps),
    ]
}

fn reads(graph: &Graph, node: u32, edge: u32) -> Option<Reads> {
    if node < graph.nodes() && edge < graph.edges() {
        Some(reads_counted::<Brand>(graph, node, edge, Blank::new(1)))
    } else {
        None
    }
}

fn near_counted<L: Ledger>(graph: &Graph, node: u32, blank: Blank) -> [u32; NEAR]
    requires node { node < graph.now.nodes }
    requires name { blank.name ≡ L.name }
    requires parts { blank.parts ≡ L.parts }
    requires some { 0 < blank.parts }
{
    let mut steps = Steps::<L>::new(blank);
    let near = graph.near_targets(node, &mut steps);
    [near[0], near[1], near[2]]
}

/// How many edges lead from a node, and the targets that are at hand.
fn near(graph: &Graph, node: u32) -> Option<(u32, [u32; NEAR])> {
    if node < graph.nodes() {
        let targets = near_counted::<Brand>(graph, node, Blank::new(1));
        Some((graph.out_degree(node), targets))
    } else {
        None
    }
}

const SMALL: Part<'static> = Part {
    left: 0,
    more: &[(0, 1), (1, 2), (0, 2), (0, 1)],
};

#[test]
fn edges_are_met_from_the_last_added_one(rt: HostRuntime) -> Result<(), Fail> {
    let graph = graph_of(rt.alloc(), 3, 5, &[SMALL])?;
    assert!(rt; sizes(&graph) == (3, 4));
    assert!(rt; ends(&graph, 2) == Some((0, 2)));
    let rows = [
        (0, 3, [Some(3), Some(2), None, Some(0)]),
        (1, 2, [Some(1), Some(0), Some(3), Some(1)]),
        (2, 1, [None, None, Some(2), None]),
        (0, 0, [Some(3), None, None, None]),
    ];
    for (node, edge, want) in rows {
        assert!(rt;
            reads(&graph, node, edge) == Some(want),
            "node {node}, edge {edge}"
        );
    }
    Ok(())
}

/// Parts, how many edges there are then, and what is read at a node and an edge.
#[derive(Clone, Copy)]
struct Row<'a> {
    parts: &'a [Part<'a>],
    edges: u32,
    node: u32,
    edge: u32,
    reads: Option<Reads>,
}

const TAKEN_AWAY: [Row<'static>; 4] = [
    Row {
        parts: &[SMALL, Part { left: 2, more: &[] }],
        edges: 2,
        node: 0,
        edge: 1,
        reads: Some([Some(0), None, None, None]),
    },
    Row {
        parts: &[
            SMALL,
            Part {
                left: 2,
                more: &[(2, 1)],
            },
        ],
        edges: 3,
        node: 1,
        edge: 2,
        reads: Some([Some(1), None, Some(2), Some(0)]),
    },
    Row {
        parts: &[
            SMALL,
            Part {
                left: 2,
                more: &[(2, 1)],
            },
            Part { left: 0, more: &[] },
        ],
        edges: 0,
        node: 2,
        edge: 0,
        reads: None,
    },
    Row {
        parts: &[
            SMALL,
            Part {
                left: 2,
                more: &[(2, 1)],
            },
            Part {
                left: 0,
                more: &[(2, 0)],
            },
        ],
        edges: 1,
        node: 2,
        edge: 0,
        reads: Some([Some(0), None, None, None]),
    },
];

#[test]
fn the_last_added_edges_are_taken_away(rt: HostRuntime) -> Result<(), Fail> {
    for row in &TAKEN_AWAY {
        let graph = graph_of(rt.alloc(), 3, 5, row.parts)?;
        assert!(rt; sizes(&graph) == (3, row.edges));
        assert!(rt; reads(&graph, row.node, row.edge) == row.reads);
    }
    Ok(())
}

/// From four nodes no edge leads, two, three and five. One more from each was added last, and taken away.
const FANNED: [Part<'static>; 2] = [
    Part {
        left: 0,
        more: &[
            (3, 2),
            (1, 2),
            (3, 0),
            (2, 3),
            (3, 3),
            (2, 1),
            (1, 0),
            (3, 0),
            (2, 0),
            (3, 2),
            (2, 2),
            (1, 3),
            (0, 1),
            (3, 1),
        ],
    },
    Part {
        left: 10,
        more: &[],
    },
];

#[test]
fn degrees_and_the_first_targets_are_at_hand(rt: HostRuntime) -> Result<(), Fail> {
    let graph = graph_of(rt.alloc(), 4, 14, &FANNED)?;
    assert!(rt; degrees_in(&graph) == [4, 1, 3, 2].as_slice());
    let rows = [
        (0, 0, [4, 4, 4]),
        (1, 2, [2, 0, 4]),
        (2, 3, [3, 1, 0]),
        (3, 5, [2, 0, 3]),
    ];
    for (node, degree, targets) in rows {
        assert!(rt;
            near(&graph, node) == Some((degree, targets)),
            "node {node}"
        );
    }
    Ok(())
}

/// Each node leads to the next one, and the last to the first.
struct Ring(u32);

impl Pairs for Ring {
    ghost node_count = { λ ring. ring.0 };

    ghost edges = { λ ring a b. (a < ring.0) × (b < ring.0) × (b ≡ (a + 1) % ring.0) };

    fn nodes(&self) -> u32 {
        self.0
    }

    fn edge(&self, from: u32, to: u32) -> bool {
        let nodes = self.0;
        to == (from + 1) % nodes
    }
}

/// How many edges there are.
fn count_edges<P: Pairs>(pairs: &P) -> u64 {
    let nodes = pairs.nodes();
    let mut count = 0;
    for from in 0..nodes {
        for to in 0..nodes {
            if pairs.edge(from, to) {
                count = u64::saturating_add(count, 1);
            }
        }
    }
    count
}

#[test]
fn a_test_tells_a_set_of_edges(rt: HostRuntime) {
    assert_eq!(rt; count_edges(&Ring(5)), 5);
    assert_eq!(rt; count_edges(&Ring(0)), 0);
}

#[test]
fn sources_without_a_mark_get_one(rt: HostRuntime) {
    let mut marks = [0, 0, 4];
    Ring(3).mark_sources(1, 9, &mut marks);
    assert_eq!(rt; marks, [9, 0, 4]);
    Ring(3).mark_sources(0, 9, &mut marks);
    assert_eq!(rt; marks, [9, 0, 4]);
}

#[test]
fn edges_are_added_together_and_taken_away_together(rt: HostRuntime) -> Result<(), Fail> {
    let graph = cut_off(rt.alloc(), false)?;
    assert!(rt; sizes(&graph) == (3, 2));
    assert!(rt; reads(&graph, 0, 1) == Some([Some(0), None, None, None]));
    assert!(rt; degrees_in(&graph) == [0, 1, 1].as_slice());
    assert!(rt; near(&graph, 0) == Some((1, [1, 3, 3])));
    assert!(rt; near(&graph, 1) == Some((1, [2, 3, 3])));
    let graph = cut_off(rt.alloc(), true)?;
    assert!(rt; ends(&graph, 4) == Some((2, 0)));
    assert!(rt; reads(&graph, 2, 3) == Some([Some(4), Some(0), Some(1), Some(2)]));
    assert!(rt; degrees_in(&graph) == [1, 3, 1].as_slice());
    assert!(rt; near(&graph, 0) == Some((2, [1, 1, 3])));
    assert!(rt; near(&graph, 2) == Some((2, [1, 0, 3])));
    Ok(())
}
