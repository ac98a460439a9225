//! Lists of nodes.
ghost use Rattle.std.specs.Prelude.{◌≡◌, ◌<◌, [], ◌∷◌, ◌++◌, length, IfOk, ◌==◌};
ghost use Rattle.std.specs.Ordering.{on};
ghost use Rattle.std.specs.Cmp.Lexicographic.{pointwise};
ghost use Rattle.std.proofs.Common.{rules};
ghost use Rattle.std.specs.Cmp.Rules.{comparing};

use std::alloc::{AllocError, Global};
use std::marker::Model;

/// A list of nodes of fixed room. Two of them are equal where their lists are.
#[derive(Debug, Drop)]
pub struct Nodes {
    items: Vec<u32>,
    room: u32,
}

impl Model for Nodes {
    ghost use Rattle.std.specs.Prelude.{ℕ, ◌≤◌, vec_len, vec_capacity};
    ghost use Rattle.digraph.specs.Roomed.{Roomed};

    ghost Value = { Roomed ℕ };

    ghost view = { λ s. record { list = s.items.items; room = s.room } };

    ghost invariant = { λ s. (vec_len s.items ≤ s.room) × (s.room ≤ vec_capacity s.items) };
}

impl Nodes {
    /// An empty list with room for so many nodes. `Err` means want of memory.
    pub fn with_room(alloc: Global, room: u32) -> Result<Nodes, AllocError>
        ensures { IfOk result (λ nodes. nodes ≡ record { list = []; room = room }) }
    {
        let items = Vec::with_capacity(alloc, room as usize)?;
        Ok(Nodes { items, room })
    }

    /// Empties the list.
    pub fn clear(&mut self)
        ensures { self.new ≡ record self.old { list = [] } }
    {
        self.items.clear();
    }

    /// Puts a node at the end of the list.
    pub fn push(&mut self, node: u32)
        requires { length self.old.list < self.old.room }
        ensures { self.new ≡ record self.old { list = self.old.list ++ node ∷ [] } }
    {
        self.items.push(node).unwrap();
    }

    /// The nodes in the order of pushing.
    pub fn list(&self) -> &[u32]
        ensures { result.now ≡ self.now.list }
    {
        &self.items
    }
}

impl PartialEq for Nodes {
    ghost eq = { on (λ nodes. nodes.list) (pointwise ◌==◌) };

    ghost laws = { Prim.search (comparing, rules) };

    fn eq(&self, other: &Nodes) -> bool {
        self.items == other.items
    }
}

impl Eq for Nodes {
    ghost laws = { Prim.search (comparing, rules) };
}
