//! The constraint edges of a run, told by a test of two nodes and as a list.
ghost use Rattle.std.specs.Prelude.{◌↔◌, ℕ, List, IsTrue, Contains};
ghost use Rattle.test_lang.specs.declared.op.MemModel.{MemModel};
ghost use Rattle.test_lang.specs.Program.{Program};
ghost use Rattle.test_lang.specs.Edges.{Edge};
ghost use Rattle.test_lang.specs.EdgeList.{is_edge, edge_list};

/// The test of two nodes tells the edges, and the list has exactly them.
pub fn edges_are_listed()
    ensures told { (m : MemModel) (p : Program) (run : List ℕ) (a b : ℕ) →
        Edge m p run a b ↔ IsTrue (is_edge m p run a b) }
    ensures listed { (m : MemModel) (p : Program) (run : List ℕ) (a b : ℕ) →
        Edge m p run a b ↔ Contains (edge_list m p run) (a, b) }
{}
