//! Canonical cycles of small graphs, against a slow program that goes through all lists of nodes in the order of the rule.
use crate::cycle_tests::canonical;
use digraph::Graph;
use std::alloc::{AllocError, Global};
use std::test::Fail;

/// A graph in which an edge leads from one node to another where the bit at `from * nodes + to` is 1.
#[derive(Clone, Copy)]
struct Table {
    nodes: u32,
    bits: u64,
}

impl Table {
    fn has_edge(self, from: u32, to: u32) -> bool {
        let place = from.wrapping_mul(self.nodes).wrapping_add(to);
        self.bits.wrapping_shr(place) & 1 == 1
    }

    fn graph(self, alloc: Global) -> Result<Graph, AllocError> {
        let mut graph = Graph::with_room(alloc, self.nodes, 64)?;
        for from in 0..self.nodes {
            for to in 0..self.nodes {
                if self.has_edge(from, to)
                    && graph.edges() < 64
                    && from < graph.nodes()
                    && to < graph.nodes()
                {
                    graph.add(from, to);
                }
            }
        }
        Ok(graph)
    }

    /// Whether the list is a cycle: all distinct, each with an edge to the next and the last with an edge to the first.
    fn is_cycle(self, list: &[u32]) -> bool {
        let Some(last) = list.last() else {
            return false;
        };
        let mut before = *last;
        for (at, node) in list.iter().enumerate() {
            if !self.has_edge(before, *node) || list[..at].contains(node) {
                return false;
            }
            before = *node;
        }
        true
    }

    /// The first cycle by its first node, then by its length, then in the order of lists; empty where there is none.
    fn first_cycle(self, alloc: Global) -> Result<Vec<u32>, AllocError> {
        for start in 0..self.nodes {
            let mut lists = 1u64;
            for length in 1..=self.nodes {
                for number in 0..lists {
                    let list = list_of(alloc, start, length, number, self.nodes)?;
                    if self.is_cycle(&list) {
                        return Ok(list);
                    }
                }
                lists = lists.saturating_mul(u64::from(self.nodes));
            }
        }
        Ok(Vec::new(alloc))
    }
}

/// Of the lists of this length that begin at `start`, in their order, the one of this number.
fn list_of(
    alloc: Global,
    start: u32,
    length: u32,
    number: u64,
    nodes: u32,
) -> Result<Vec<u32>, AllocError> {
    let mut list = Vec::new(alloc);
    let mut rest = number;
    for _ in 1..length {
        list.push((rest % u64::from(nodes.max(1))) as u32)?;
        rest /= u64::from(nodes.max(1));
    }
    list.push(start)?;
    list.reverse();
    Ok(list)
}

/// Of five nodes, the edges from a node to itself.
const LOOPS: u64 = 1 | 1 << 6 | 1 << 12 | 1 << 18 | 1 << 24;

/// All tables of three nodes, by their numbers, and then drawn ones of four and of five.
fn table_of(number: u64, drawn: u64) -> Table {
    match number {
        0..512 => Table {
            nodes: 3,
            bits: number,
        },
        512..768 => Table {
            nodes: 4,
            bits: (drawn >> 40) & (drawn >> 20),
        },
        _ => Table {
            nodes: 5,
            bits: (drawn >> 30) & (drawn >> 5) & !LOOPS,
        },
    }
}

/// How long the cycle is that both programs find, and none where they find two.
fn same_cycle(alloc: Global, table: Table) -> Result<Option<usize>, AllocError> {
    let wanted = table.first_cycle(alloc)?;
    let graph = table.graph(alloc)?;
    let cycle = canonical(alloc, &graph)?;
    if cycle.list() == wanted.as_slice() {
        Ok(Some(wanted.len()))
    } else {
        Ok(None)
    }
}

#[test]
fn the_first_cycle_by_the_rule(rt: HostRuntime) -> Result<(), Fail> {
    let mut drawn = 1u64;
    let mut cyclic = 0u32;
    for number in 0..832u64 {
        drawn = drawn
            .wrapping_mul(6364136223846793005)
            .wrapping_add(1442695040888963407);
        let length = same_cycle(rt.alloc(), table_of(number, drawn))?;
        assert!(rt; length.is_some(), "table {number}");
        if length.unwrap_or(0) > 2 {
            cyclic = cyclic.wrapping_add(1);
        }
    }
    assert!(rt; cyclic > 30, "{cyclic} cycles of three nodes or more");
    Ok(())
}
