//! Lists of edges.
ghost use Rattle.std.specs.Prelude.{◌≡◌, ◌<◌, [], ◌∷◌, ◌++◌, length, IfOk, ◌==◌};
ghost use Rattle.std.specs.Ordering.{eq_of_both, on};
ghost use Rattle.std.specs.Cmp.Lexicographic.{pointwise};
ghost use Rattle.std.proofs.Common.{rules};
ghost use Rattle.std.specs.Cmp.Rules.{comparing};

use std::alloc::{AllocError, Global};
use std::marker::Model;

/// A list of edges of fixed room, each the pair of its source and its target.
/// Two of them are equal where their lists are.
#[derive(Debug, Drop)]
pub struct Edges {
    items: Vec<(u32, u32)>,
    room: u32,
}

impl Model for Edges {
    ghost use Rattle.std.specs.Prelude.{ℕ, ◌≤◌, vec_len, vec_capacity};
    ghost use Rattle.digraph.specs.Roomed.{Roomed};

    ghost Value = { Roomed (ℕ × ℕ) };

    ghost view = { λ s. record { list = s.items.items; room = s.room } };

    ghost invariant = { λ s. (vec_len s.items ≤ s.room) × (s.room ≤ vec_capacity s.items) };
}

impl Edges {
    /// An empty list with room for so many edges. `Err` means want of memory.
    pub fn with_room(alloc: Global, room: u32) -> Result<Edges, AllocError>
        ensures { IfOk result (λ edges. edges ≡ record { list = []; room = room }) }
    {
        let items = Vec::with_capacity(alloc, room as usize)?;
        Ok(Edges { items, room })
    }

    /// Empties the list.
    pub fn clear(&mut self)
        ensures { self.new ≡ record self.old { list = [] } }
    {
        self.items.clear();
    }

    /// Puts an edge at the end of the list.
    pub fn push(&mut self, from: u32, to: u32)
        requires { length self.old.list < self.old.room }
        ensures { self.new ≡ record self.old { list = self.old.list ++ (from, to) ∷ [] } }
    {
        self.items.push((from, to)).unwrap();
    }

    /// The edges in the order of pushing.
    pub fn list(&self) -> &[(u32, u32)]
        ensures { result.now ≡ self.now.list }
    {
        &self.items
    }
}

impl PartialEq for Edges {
    ghost eq = { on (λ edges. edges.list) (pointwise (eq_of_both (on (λ e. e.0) ◌==◌) (on (λ e. e.1) ◌==◌))) };

    ghost laws = { Prim.search (comparing, rules) depth 9 };

    fn eq(&self, other: &Edges) -> bool {
        self.items == other.items
    }
}

impl Eq for Edges {
    ghost laws = { Prim.search (comparing, rules) depth 9 };
}
