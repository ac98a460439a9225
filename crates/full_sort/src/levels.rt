//! Distances of nodes from a node, level by level.
ghost use Rattle.std.specs.Prelude.{◌≡◌, ◌↔◌, ℕ, ◌+◌, ◌-◌, ◌<◌, ◌≤◌, length, slice_index, take, All, Contains, IsTrue};
ghost use Rattle.orders.specs.Cycles.{IsOnCycle};
ghost use Rattle.full_sort.specs.Levels.{AddsLevel, IsLevelled, IsShortest, Touches};

use digraph::Pairs;

/// Whether an edge leads from the node to a node of the list.
fn touches<P: Pairs>(pairs: &P, node: u32, list: &[u32]) -> bool
    requires node { node < P.node_count pairs.now }
    requires list { All (λ y. y < P.node_count pairs.now) list.now }
    ensures { IsTrue result ↔ Touches (P.edges pairs.now) node list.now }
{
    for target in list {
        if pairs.edge(node, *target) {
            return true;
        }
    }
    false
}

/// Gives the level to each node that has none and from which an edge leads to the list.
fn add_level<P: Pairs>(pairs: &P, list: &[u32], level: u32, levels: &mut [u32])
    requires list { All (λ y. y < P.node_count pairs.now) list.now }
    requires levels { length levels.old ≡ P.node_count pairs.now }
    ensures { AddsLevel (P.edges pairs.now) level list.now levels.old levels.new }
{
    for target in list {
        pairs.mark_sources(*target, level, levels);
    }
}

/// Puts the nodes of a level at the front of the list, and answers how many there are.
fn list_level(nodes: u32, levels: &[u32], level: u32, list: &mut [u32]) -> usize
    requires levels { length levels.now ≡ nodes }
    requires room { length list.old ≡ nodes }
    ensures few { result ≤ nodes }
    ensures lists { (y : ℕ) → Contains (take result list.new) y ↔ ((y < nodes)
        × (slice_index levels.now y ≡ level)) }
{
    let mut count = 0;
    for node in 0..nodes {
        if levels[node as usize] == level {
            list[count] = node;
            count += 1;
        }
    }
    count
}

/// Gives each node its distance to the end, as far as that is below the length of the shortest cycle through the end, and answers that length. The
/// levels are 0 before, and `list` is room for a list of nodes.
pub fn measure<P: Pairs>(pairs: &P, end: u32, levels: &mut [u32], list: &mut [u32]) -> u32
    requires cycle { IsOnCycle (P.edges pairs.now) end }
    requires end { end < P.node_count pairs.now }
    requires levels { length levels.old ≡ P.node_count pairs.now }
    requires clear { (t : ℕ) → slice_index levels.old t ≡ 0 }
    requires list { length list.old ≡ P.node_count pairs.now }
    ensures levelled { IsLevelled (P.edges pairs.now) (P.node_count pairs.now) end (result - 1) levels.new }
    ensures length { IsShortest (P.edges pairs.now) end end result }
    ensures some { 1 ≤ result }
    ensures few { result ≤ P.node_count pairs.now }
{
    let nodes = pairs.nodes();
    list[0] = end;
    let mut count = 1;
    for done in 0..nodes {
        let level = done + 1;
        if touches(pairs, end, &list[..count]) {
            return level;
        }
        add_level(pairs, &list[..count], level, levels);
        count = list_level(nodes, levels, level, list);
    }
    unreachable!()
}
