//! The canonical cycle of a run.
ghost use Rattle.std.specs.Prelude.{◌≡◌, ◌≤◌, ◌<◌, true, length};
ghost use Rattle.orders.specs.Orders.{HasNoOrder, nodes_below};
ghost use Rattle.test_lang.specs.Edges.{HasNoRunOrder, IsCanonicalRunCycle};
ghost use Rattle.test_lang.specs.Program.{op_count};
ghost use Rattle.test_lang.specs.Runs.{IsInside};
ghost use Rattle.test_lang.specs.Values.{load_count};
ghost use Rattle.digraph.specs.Digraph.{HasEdge};
ghost use Rattle.graph_model.specs.RunVerdicts.{StandsForRun};
ghost use Rattle.graph_model.specs.StaticGraph.{IsStaticGraph, few_run_edges};
ghost use Rattle.window_resort.specs.Tables.{HasEdges, HasHeldRoom, HasRoom, HoldsLoads};

use crate::held_graph::HeldGraph;
use crate::load_rows::LoadRows;
use crate::orders_kept::SortedRun;
use digraph::{Graph, Nodes, Steps};
use full_sort::{Scratch, least_on_cycle, shortest_cycle_into};
use graph_model::Static;
use std::sync::ledger::Ledger;

/// Makes the held graph that of a run. With a base only the edges of the loads that changed are listed; without one, those of all.
pub(crate) fn hold_run<L: Ledger>(
    fixed: &Static,
    has_base: bool,
    base: &SortedRun,
    run: &[u32],
    rows: &mut LoadRows,
    held: &mut HeldGraph,
    steps: &mut Steps<L>,
)
    requires sound { IsStaticGraph fixed.now }
    requires inside { IsInside fixed.now.test run.now }
    requires base_run { length base.now.run.items ≡ load_count fixed.now.test }
    requires places { length base.now.places.items ≡ op_count fixed.now.test }
    requires base_rows { HasRoom fixed.now.test rows.old.base.items }
    requires fresh_rows { HasRoom fixed.now.test rows.old.fresh.items }
    requires listed { has_base ≡ true → HasEdges fixed.now.test base.now.run.items rows.old.base.items }
    requires room { HasHeldRoom fixed.now held.old.run.items held.old.starts.items }
    requires holds { HoldsLoads fixed.now held.old.run.items held.old.loads held.old.starts.items held.old.graph }
    ensures base_rows { HasRoom fixed.now.test rows.new.base.items }
    ensures fresh_rows { HasRoom fixed.now.test rows.new.fresh.items }
    ensures listed { has_base ≡ true → HasEdges fixed.now.test base.now.run.items rows.new.base.items }
    ensures room { HasHeldRoom fixed.now held.new.run.items held.new.starts.items }
    ensures holds { HoldsLoads fixed.now held.new.run.items held.new.loads held.new.starts.items held.new.graph }
    ensures edges { held.new.graph.edges ≡ few_run_edges fixed.now run.now }
    ensures verdicts { StandsForRun fixed.now.model fixed.now.test run.now held.new.graph }
{
    if has_base {
        rows.compare(fixed, &base.run, run, &base.places, steps);
        held.take_run(fixed, &base.run, run, rows);
    } else {
        rows.list_all(fixed, run, steps);
        held.take_run(fixed, run, run, rows);
    }
}

/// Puts the canonical cycle of a run that has no order into `cycle`.
pub(crate) fn find_cycle<L: Ledger>(
    fixed: &Static,
    run: &[u32],
    graph: &Graph,
    scratch: &mut Scratch,
    cycle: &mut Nodes,
    steps: &mut Steps<L>,
)
    requires inside { IsInside fixed.now.test run.now }
    requires stands { StandsForRun fixed.now.model fixed.now.test run.now graph.now }
    requires no_order { HasNoOrder (HasEdge graph.now.edges) (nodes_below graph.now.nodes) }
    requires scratch_room { scratch.old ≡ graph.now.nodes }
    requires cycle_room { graph.now.nodes ≤ cycle.old.room }
    ensures canonical { IsCanonicalRunCycle fixed.now.model fixed.now.test run.now cycle.new.list }
    ensures scratch_room { scratch.new ≡ scratch.old }
    ensures cycle_room { cycle.new.room ≡ cycle.old.room }
{
    let start = least_on_cycle(graph, scratch, steps).unwrap();
    shortest_cycle_into(&fixed.full(run), start, scratch, cycle);
}
