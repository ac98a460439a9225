//! Paths, orders and cycles of nodes under any set of edges: definitions that the crates above share, and their laws.
//!
//! What is proved:
//! An order made of the least ready nodes is the least one; least orders and canonical cycles are one; stuck nodes have no order; few edges that reach as far as many have the same orders; nodes have an order or a cycle.
#![tactic(auto)]

ghost use Rattle.std.specs.Prelude.{◌≡◌, ◌≢◌, ◌↔◌, ◌⊎◌, ℕ, List, Bool, IsTrue, AllPairs};
ghost use Rattle.orders.specs.Cycles.{IsCanonicalCycle, IsOnCycle};
ghost use Rattle.orders.specs.Orders.{HasNoOrder, IsAcyclic, IsLeastOrder, IsOrder};
ghost use Rattle.orders.specs.Paths.{Reach};
ghost use Rattle.orders.specs.Reductions.{IsAmong, IsReaching, IsWithin};
ghost use Rattle.orders.specs.Choices.{IsStuck, TakesNext};

/// A set of edges between nodes, for the laws below.
pub trait Relation {
    ghost edges: { ℕ → ℕ → Type 0 };
}

/// A list of nodes has one least order at most.
pub fn one_least_order<R: Relation>()
    ensures { (nodes a b : List ℕ) →
        IsLeastOrder R.edges nodes a → IsLeastOrder R.edges nodes b → a ≡ b }
{}

/// The order that has at each place the least node whose predecessors all stand before it is the least order.
pub fn next_nodes_are_least<R: Relation>()
    ensures { (nodes order : List ℕ) →
        TakesNext R.edges nodes order → IsLeastOrder R.edges nodes order }
{}

/// Where nodes are left and none of them has all its predecessors placed, there is no order.
pub fn stuck_nodes_have_no_order<R: Relation>()
    ensures { (nodes placed : List ℕ) → IsStuck R.edges nodes placed → HasNoOrder R.edges nodes }
{}

/// Few edges that are among all, and reach each of them, have the same reach, the same orders and the same least order.
pub fn few_edges_order_as_all<E: Relation, F: Relation>()
    requires among { IsAmong F.edges E.edges }
    requires reaching { IsReaching F.edges E.edges }
    ensures reach { (a b : ℕ) → Reach E.edges a b ↔ Reach F.edges a b }
    ensures orders { (nodes order : List ℕ) →
        IsWithin E.edges nodes → IsOrder E.edges nodes order ↔ IsOrder F.edges nodes order }
    ensures least { (nodes order : List ℕ) →
        IsWithin E.edges nodes
        → IsLeastOrder E.edges nodes order ↔ IsLeastOrder F.edges nodes order }
    ensures none { (nodes : List ℕ) →
        IsWithin E.edges nodes → HasNoOrder E.edges nodes ↔ HasNoOrder F.edges nodes }
{}

/// A node lies on a cycle exactly where a path leads from it back to it.
pub fn cycles_are_paths_back<R: Relation>()
    ensures { (node : ℕ) → IsOnCycle R.edges node ↔ Reach R.edges node node }
{}

/// A cycle leaves no order of nodes that have the ends of all edges among them.
pub fn a_cycle_leaves_no_order<R: Relation>()
    ensures { (nodes : List ℕ) →
        IsWithin R.edges nodes → (node : ℕ) → IsOnCycle R.edges node → HasNoOrder R.edges nodes }
{}

/// A set of edges has one canonical cycle at most.
pub fn one_canonical_cycle<R: Relation>()
    ensures { (a b : List ℕ) → IsCanonicalCycle R.edges a → IsCanonicalCycle R.edges b → a ≡ b }
{}

/// Nodes have an order, or some node lies on a cycle, where a test tells the edges.
pub fn order_or_cycle()
    ensures { (edge : ℕ → ℕ → Bool) (nodes : List ℕ) → AllPairs (λ a b. a ≢ b) nodes
        → IsAcyclic (λ a b. IsTrue (edge a b)) nodes
        ⊎ ((node : ℕ) × IsOnCycle (λ a b. IsTrue (edge a b)) node) }
{}
