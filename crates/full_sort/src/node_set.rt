//! A set of nodes whose least is found at once, as bits in two levels.
ghost use Rattle.std.specs.Prelude.{◌≡◌, ℕ, ◌*◌, ◌<◌, ◌≤◌, List, length, IfOk, None};
ghost use Rattle.full_sort.specs.Bits.{ChangesBit, IsFirstBit, bit_of};

use crate::bits::{clear_both, least_of, set_both};
use std::alloc::{AllocError, Global};
use std::marker::Model;

/// A bit for each node, and a bit for each word of those that isn't 0.
#[derive(Drop)]
pub struct NodeSet {
    low: Vec<u64>,
    high: Vec<u64>,
}

impl Model for NodeSet {
    ghost use Rattle.std.specs.Prelude.{ℕ, List};
    ghost use Rattle.full_sort.specs.Bits.{IsSummed};

    ghost Value = { List ℕ };

    ghost view = { λ s. s.low.items };

    ghost invariant = { λ s. IsSummed s.low.items s.high.items };
}

impl NodeSet {
    /// An empty set with room for so many nodes.
    pub fn new(alloc: Global, nodes: u32) -> Result<NodeSet, AllocError>
        ensures room { IfOk result (λ s. nodes ≤ 64 * length s) }
        ensures empty { IfOk result (λ s. IsFirstBit s None) }
    {
        let words = nodes as usize / 64 + 1;
        let low = vec![in alloc; 0u64; words]?;
        let high = vec![in alloc; 0u64; words / 64 + 1]?;
        Ok(NodeSet { low, high })
    }

    /// Takes the node into the set.
    pub fn insert(&mut self, node: u32)
        requires { node < 64 * length self.old }
        ensures { ChangesBit self.old self.new node 1 }
    {
        set_both(&mut self.low, &mut self.high, node);
    }

    /// The least node of the set.
    pub fn least(&self) -> Option<u32>
        ensures { IsFirstBit self.now result }
    {
        least_of(&self.low, &self.high)
    }

    /// Takes a node of the set out of it.
    pub fn remove(&mut self, node: u32)
        requires { bit_of self.old node ≡ 1 }
        ensures { ChangesBit self.old self.new node 0 }
    {
        clear_both(&mut self.low, &mut self.high, node);
    }
}
