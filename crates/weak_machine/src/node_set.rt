//! A set of nodes that is counted, and whose nodes are found by number.
ghost use Rattle.std.specs.Prelude.{◌≡◌, ◌<◌, ◌≤◌, true, false, length, IfOk, Some, slice_get, slice_set};
ghost use Rattle.weak_machine.specs.NodeSets.{flagged, has_flag, no_flags};

use crate::word_bits::{clear_bit, has_bit, nth_set, set_bit};
use std::alloc::{AllocError, Global};
use std::marker::Model;

/// A bit for each node of a test, and how many are set. Contracts see a flag for each node.
#[derive(Debug, Drop)]
pub struct NodeSet {
    words: Vec<u64>,
    nodes: u32,
    count: u32,
}

impl Model for NodeSet {
    ghost use Rattle.std.specs.Prelude.{List, Bool};
    ghost use Rattle.weak_machine.specs.NodeSets.{flags_of, IsNodeSet};

    ghost Value = { List Bool };

    ghost view = { λ s. flags_of s.words.items s.nodes };

    ghost invariant = { λ s. IsNodeSet s.words.items s.nodes s.count };
}

impl NodeSet {
    /// An empty set of so many nodes.
    pub fn new(alloc: Global, nodes: u32) -> Result<NodeSet, AllocError>
        requires { nodes ≤ 2048 }
        ensures { IfOk result (λ s. s ≡ no_flags nodes) }
    {
        let words = vec![in alloc; 0u64; nodes as usize / 64 + 1]?;
        Ok(NodeSet {
            words,
            nodes,
            count: 0,
        })
    }

    /// Whether the set has the node.
    pub fn has(&self, node: u32) -> bool
        requires { node < length self.now }
        ensures { result ≡ has_flag self.now node }
    {
        has_bit(&self.words, node)
    }

    /// Takes a node into the set that isn't in it.
    pub fn insert(&mut self, node: u32)
        requires node { node < length self.old }
        requires new { has_flag self.old node ≡ false }
        ensures { self.new ≡ slice_set self.old node true }
    {
        set_bit(&mut self.words, node);
        self.count += 1;
    }

    /// Takes a node of the set out of it.
    pub fn remove(&mut self, node: u32)
        requires { has_flag self.old node ≡ true }
        ensures { self.new ≡ slice_set self.old node false }
    {
        clear_bit(&mut self.words, node);
        self.count -= 1;
    }

    /// The number of nodes in the set.
    pub fn count(&self) -> u32
        ensures { result ≡ length (flagged self.now) }
    {
        self.count
    }

    /// The node with a number, counted from 0 at the least.
    pub fn nth(&self, k: u32) -> u32
        requires { k < length (flagged self.now) }
        ensures found { slice_get (flagged self.now) k ≡ Some result }
        ensures within { result < length self.now }
    {
        nth_set(&self.words, k)
    }

    /// Becomes the other set.
    pub fn copy_from(&mut self, other: &NodeSet)
        requires { length self.old ≡ length other.now }
        ensures { self.new ≡ other.now }
    {
        self.words.copy_from_slice(&other.words);
        self.count = other.count;
    }
}
