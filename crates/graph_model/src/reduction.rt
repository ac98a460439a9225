//! What the few edges of a run say of all its edges.
ghost use Rattle.std.specs.Prelude.{◌≡◌, ◌↔◌, ℕ, List};
ghost use Rattle.orders.specs.Cycles.{IsOnCycle};
ghost use Rattle.orders.specs.Orders.{HasNoOrder, IsLeastOrder, IsOrder, nodes_below};
ghost use Rattle.orders.specs.Paths.{Reach};
ghost use Rattle.test_lang.specs.Edges.{Edge, HasNoRunOrder, IsLeastRunOrder, IsRunOrder};
ghost use Rattle.test_lang.specs.Runs.{IsInside};
ghost use Rattle.digraph.specs.Digraph.{Digraph, HasEdge};
ghost use Rattle.graph_model.specs.RunVerdicts.{StandsForRun};
ghost use Rattle.graph_model.specs.StaticGraph.{StaticGraph, IsStaticGraph, few_run_edges};

/// Along the static edges and the few edges of each load the same nodes are reached as along all edges of an inside run. So the run has the same
/// orders along them, the same least order, no order where it has none, and the same nodes on cycles.
pub fn few_edges_order_a_run()
    ensures reach { (s : StaticGraph) (run : List ℕ) → IsStaticGraph s → IsInside s.test run →
        (a b : ℕ) → Reach (Edge s.model s.test run) a b ↔ Reach (HasEdge (few_run_edges s run)) a b }
    ensures orders { (s : StaticGraph) (run : List ℕ) → IsStaticGraph s → IsInside s.test run →
        (order : List ℕ) → IsRunOrder s.model s.test run order ↔ IsOrder (HasEdge (few_run_edges s run)) (nodes_below s.graph.nodes) order }
    ensures least { (s : StaticGraph) (run : List ℕ) → IsStaticGraph s → IsInside s.test run →
        (order : List ℕ) → IsLeastRunOrder s.model s.test run order ↔ IsLeastOrder (HasEdge (few_run_edges s run)) (nodes_below s.graph.nodes) order }
    ensures none { (s : StaticGraph) (run : List ℕ) → IsStaticGraph s → IsInside s.test run →
        HasNoRunOrder s.model s.test run ↔ HasNoOrder (HasEdge (few_run_edges s run)) (nodes_below s.graph.nodes) }
    ensures cycles { (s : StaticGraph) (run : List ℕ) → IsStaticGraph s → IsInside s.test run →
        (node : ℕ) → IsOnCycle (Edge s.model s.test run) node ↔ IsOnCycle (HasEdge (few_run_edges s run)) node }
{}

/// A graph of the static edges and the few edges of each load stands for an inside run: its least order is the run's, where it has no order the run has
/// none and some node is on a cycle, and its least node on a cycle begins the canonical cycle of the run.
pub fn verdicts_of_a_run()
    ensures { (s : StaticGraph) (run : List ℕ) → IsStaticGraph s → IsInside s.test run →
        (g : Digraph) → g.nodes ≡ s.graph.nodes → g.edges ≡ few_run_edges s run → StandsForRun s.model s.test run g }
{}
