//! The first shortest cycle from a node.
ghost use Rattle.std.specs.Prelude.{◌≡◌, ℕ, ◌-◌, ◌<◌, ◌≤◌, List, ◌∷◌, length, slice_index};
ghost use Rattle.orders.specs.Cycles.{IsFirstShortestCycle, IsOnCycle};
ghost use Rattle.full_sort.specs.Levels.{IsLevelled, IsShortest};

use crate::levels::measure;
use digraph::{Nodes, Pairs};

/// The least node of a level to which an edge leads from the node. There is one.
fn least_of_level<P: Pairs>(pairs: &P, node: u32, levels: &[u32], level: u32) -> u32
    requires node { node < P.node_count pairs.now }
    requires levels { length levels.now ≡ P.node_count pairs.now }
    requires some { (y : ℕ) × (y < P.node_count pairs.now) × (slice_index levels.now y ≡ level)
        × P.edges pairs.now node y }
    ensures edge { P.edges pairs.now node result }
    ensures level { slice_index levels.now result ≡ level }
    ensures in_range { result < P.node_count pairs.now }
    ensures least { (z : ℕ) → z < result → slice_index levels.now z ≡ level →
        ¬ P.edges pairs.now node z }
{
    for target in 0..pairs.nodes() {
        if levels[target as usize] == level && pairs.edge(node, target) {
            return target;
        }
    }
    unreachable!()
}

/// Goes down the levels from the node and back to it, to the least node each time.
fn descend<P: Pairs>(pairs: &P, start: u32, distance: u32, levels: &[u32], cycle: &mut Nodes)
    requires start { start < P.node_count pairs.now }
    requires levelled { IsLevelled (P.edges pairs.now) (P.node_count pairs.now) start (distance - 1) levels.now }
    requires length { IsShortest (P.edges pairs.now) start start distance }
    requires some { 1 ≤ distance }
    requires few { distance ≤ P.node_count pairs.now }
    requires room { P.node_count pairs.now ≤ cycle.old.room }
    ensures first { (more : List ℕ) × (cycle.new.list ≡ start ∷ more)
        × IsFirstShortestCycle (P.edges pairs.now) start more }
    ensures room { cycle.new.room ≡ cycle.old.room }
{
    // The prover is told how many nodes there may be.
    let _nodes = pairs.nodes();
    cycle.clear();
    cycle.push(start);
    let mut current = start;
    let mut level = distance;
    while level > 1 {
        level -= 1;
        current = least_of_level(pairs, current, levels, level);
        cycle.push(current);
    }
}

/// Puts the first shortest cycle from the node into `cycle`. The levels are 0 before and after, and `list` is room for a list of nodes.
/// The levels are distances to the node, found by a breadth-first search against the edges.
pub fn shortest_cycle<P: Pairs>(
    pairs: &P,
    start: u32,
    levels: &mut [u32],
    list: &mut [u32],
    cycle: &mut Nodes,
)
    requires on_cycle { IsOnCycle (P.edges pairs.now) start }
    requires start { start < P.node_count pairs.now }
    requires levels { length levels.old ≡ P.node_count pairs.now }
    requires clear { (t : ℕ) → slice_index levels.old t ≡ 0 }
    requires list { length list.old ≡ P.node_count pairs.now }
    requires room { P.node_count pairs.now ≤ cycle.old.room }
    ensures first { (more : List ℕ) × (cycle.new.list ≡ start ∷ more)
        × IsFirstShortestCycle (P.edges pairs.now) start more }
    ensures clear { (t : ℕ) → slice_index levels.new t ≡ 0 }
    ensures room { cycle.new.room ≡ cycle.old.room }
{
    let distance = measure(pairs, start, levels, list);
    descend(pairs, start, distance, levels, cycle);
    levels.fill(0);
}
