//! Laws of windows and of walks, over any edges.
ghost use Rattle.std.specs.Prelude.{◌≡◌, ◌≢◌, ◌↔◌, ℕ, List, Option, Some, None, Bool, IsTrue, Contains, AllPairs};
ghost use Rattle.orders.specs.Orders.{HasNoOrder, IsLeastOrder, IsOrder};
ghost use Rattle.orders.specs.Reductions.{IsAmong, IsReaching, IsWithin};
ghost use Rattle.test_lang.specs.declared.op.MemModel.{MemModel};
ghost use Rattle.test_lang.specs.Program.{Program};
ghost use Rattle.window_resort.specs.declared.spans.Window.{Window};
ghost use Rattle.window_resort.specs.declared.verdicts.Verdict.{Verdict};
ghost use Rattle.window_resort.specs.Walks.{Base, TakesRun};
ghost use Rattle.window_resort.specs.Windows.{IsWindow, window_nodes, with_window};

use orders::Relation;

/// Few edges that are among all, and reach each of them, have the window of all, and the least order of its nodes is that by all.
pub fn few_edges_have_the_window_of_all<E: Relation, F: Relation>()
    requires among { IsAmong F.edges E.edges }
    requires reaching { IsReaching F.edges E.edges }
    ensures window { (order : List ℕ) (window : Option Window) → IsWithin E.edges order →
        IsWindow E.edges order window ↔ IsWindow F.edges order window }
    ensures least { (order nodes : List ℕ) (window : Window) → IsWithin E.edges order → IsWindow E.edges order (Some window) →
        IsLeastOrder F.edges (window_nodes order window) nodes → IsLeastOrder E.edges (window_nodes order window) nodes }
{}

/// Where no edge leads from a node to itself, an order of the window's nodes, put in place, is an order of all nodes, and a list with an empty window is one as it stands.
pub fn an_order_of_the_window_is_put_in_place<E: Relation>()
    requires { (node : ℕ) → ¬ E.edges node node }
    ensures kept { (nodes order : List ℕ) → ((x : ℕ) → Contains order x ↔ Contains nodes x) → AllPairs (λ a b. a ≢ b) order →
        IsWindow E.edges order None → IsOrder E.edges nodes order }
    ensures placed { (nodes order some : List ℕ) (window : Window) → ((x : ℕ) → Contains order x ↔ Contains nodes x) →
        AllPairs (λ a b. a ≢ b) order → IsWindow E.edges order (Some window) →
        IsOrder E.edges (window_nodes order window) some → IsOrder E.edges nodes (with_window order window some) }
{}

/// Where some nodes have no order, the graph has none.
pub fn no_order_of_some_leaves_none()
    ensures { (edge : ℕ → ℕ → Bool) (nodes some : List ℕ) → IsWithin (λ a b. IsTrue (edge a b)) nodes →
        AllPairs (λ a b. a ≢ b) some → HasNoOrder (λ a b. IsTrue (edge a b)) some →
        HasNoOrder (λ a b. IsTrue (edge a b)) nodes }
{}

/// A run gets one verdict from a base, and leaves one base.
pub fn a_run_is_taken_one_way()
    ensures { (m : MemModel) (p : Program) (base : Option Base) (run : List ℕ) (v w : Verdict) (a b : Option Base) →
        TakesRun m p base run v a → TakesRun m p base run w b → (v ≡ w) × (a ≡ b) }
{}
