//! The graph of one run after another, of which only what differs from the run before is made anew.
ghost use Rattle.std.specs.Prelude.{◌≡◌, ℕ, ◌+◌, ◌<◌, ◌≤◌, ◌++◌, List, IfOk, length, slice_index};
ghost use Rattle.test_lang.specs.Runs.{IsInside};
ghost use Rattle.test_lang.specs.Values.{load_count};
ghost use Rattle.graph_model.specs.RunVerdicts.{StandsForRun};
ghost use Rattle.graph_model.specs.StaticGraph.{IsStaticGraph, StaticGraph, few_run_edges};
ghost use Rattle.window_resort.specs.Changes.{edges_at_rank};
ghost use Rattle.window_resort.specs.Tables.{HasChanged, HasHeldRoom, HasRoom, HasUnchanged, HoldsLoads};

use crate::load_rows::LoadRows;
use digraph::Graph;
use graph_model::Static;
use std::alloc::{AllocError, Global};

/// A graph of the static edges and of the few edges of the first loads of a run.
#[derive(Drop)]
pub(crate) struct HeldGraph {
    pub(crate) graph: Graph,
    pub(crate) run: Vec<u32>,
    /// How many loads the graph has the edges of.
    loads: u32,
    /// By rank, how many edges there were before those of the load.
    starts: Vec<u32>,
}

/// How many of the first loads have one value in two runs.
fn common_loads(held: &[u32], run: &[u32], most: u32) -> u32
    requires held { most ≤ length held.now }
    requires run { most ≤ length run.now }
    ensures few { result ≤ most }
    ensures same { (rank : ℕ) → rank < result →
        slice_index held.now rank ≡ slice_index run.now rank }
{
    for rank in 0..most {
        if held[rank as usize] != run[rank as usize] {
            return rank;
        }
    }
    most
}

impl HeldGraph {
    /// The static edges alone, with room for the edges of any run. The error is want of memory.
    pub(crate) fn new(alloc: Global, fixed: &Static) -> Result<HeldGraph, AllocError>
        ensures room { IfOk result (λ held. HasHeldRoom fixed.now held.run.items held.starts.items) }
        ensures holds { IfOk result (λ held.
            HoldsLoads fixed.now held.run.items held.loads held.starts.items held.graph) }
    {
        let loads = fixed.loads() as usize;
        Ok(HeldGraph {
            graph: fixed.graph_for_runs(alloc)?,
            run: vec![in alloc; 0u32; loads]?,
            loads: 0,
            starts: vec![in alloc; 0u32; loads]?,
        })
    }

    /// Takes the edges of the loads from this one on away, one by one; or, where they are more than there are nodes, those of all loads at once, in time
    /// of the nodes.
    fn cut_to(&mut self, fixed: &Static, loads: u32)
        requires sound { IsStaticGraph fixed.now }
        requires room { HasHeldRoom fixed.now self.old.run.items self.old.starts.items }
        requires holds { HoldsLoads fixed.now self.old.run.items self.old.loads self.old.starts.items self.old.graph }
        requires fewer { loads < self.old.loads }
        ensures few { self.new.loads ≤ loads }
        ensures room { HasHeldRoom fixed.now self.new.run.items self.new.starts.items }
        ensures run { self.new.run.items ≡ self.old.run.items }
        ensures holds { HoldsLoads fixed.now self.old.run.items self.new.loads self.new.starts.items self.new.graph }
    {
        let start = self.starts[loads as usize];
        if self.graph.edges() - start > self.graph.nodes() {
            self.graph.truncate_to(fixed.graph());
            self.loads = 0;
        } else {
            self.graph.truncate(start);
            self.loads = loads;
        }
    }

    /// Keeps the edges of the first loads, as far as they have the same values in the run.
    fn keep_common(&mut self, fixed: &Static, run: &[u32])
        requires room { HasHeldRoom fixed.now self.old.run.items self.old.starts.items }
        requires holds { HoldsLoads fixed.now self.old.run.items self.old.loads self.old.starts.items self.old.graph }
        requires run { length run.now ≡ load_count fixed.now.test }
        requires sound { IsStaticGraph fixed.now }
        ensures room { HasHeldRoom fixed.now self.new.run.items self.new.starts.items }
        ensures holds { HoldsLoads fixed.now run.now self.new.loads self.new.starts.items self.new.graph }
    {
        let loads = common_loads(&self.run, run, self.loads);
        if loads < self.loads {
            self.cut_to(fixed, loads);
        }
    }

    /// Adds the edges of the next load.
    fn add_load(&mut self, fixed: &Static, run: &[u32], edges: &[(u32, u32)])
        requires sound { IsStaticGraph fixed.now }
        requires room { HasHeldRoom fixed.now self.old.run.items self.old.starts.items }
        requires holds { HoldsLoads fixed.now run.now self.old.loads self.old.starts.items self.old.graph }
        requires more { self.old.loads < load_count fixed.now.test }
        requires edges { edges.now ≡ edges_at_rank fixed.now.test run.now self.old.loads }
        ensures room { HasHeldRoom fixed.now self.new.run.items self.new.starts.items }
        ensures holds { HoldsLoads fixed.now run.now self.new.loads self.new.starts.items self.new.graph }
        ensures loads { self.new.loads ≡ self.old.loads + 1 }
    {
        self.starts[self.loads as usize] = self.graph.edges();
        self.graph.add_all(edges);
        self.loads += 1;
    }

    /// Makes the graph that of the run. A load with the base's value has its edges in the base's lists, and one that changed in the fresh ones.
    pub(crate) fn take_run(&mut self, fixed: &Static, base: &[u32], run: &[u32], rows: &LoadRows)
        requires sound { IsStaticGraph fixed.now }
        requires room { HasHeldRoom fixed.now self.old.run.items self.old.starts.items }
        requires holds { HoldsLoads fixed.now self.old.run.items self.old.loads self.old.starts.items self.old.graph }
        requires inside { IsInside fixed.now.test run.now }
        requires base { length base.now ≡ load_count fixed.now.test }
        requires rows { HasRoom fixed.now.test rows.now.base.items }
        requires fresh { HasRoom fixed.now.test rows.now.fresh.items }
        requires unchanged { HasUnchanged fixed.now.test base.now run.now rows.now.base.items }
        requires changed { HasChanged fixed.now.test base.now run.now (load_count fixed.now.test) rows.now.fresh.items }
        ensures room { HasHeldRoom fixed.now self.new.run.items self.new.starts.items }
        ensures holds { HoldsLoads fixed.now self.new.run.items self.new.loads self.new.starts.items self.new.graph }
        ensures edges { self.new.graph.edges ≡ few_run_edges fixed.now run.now }
        ensures verdicts { StandsForRun fixed.now.model fixed.now.test run.now self.new.graph }
    {
        self.keep_common(fixed, run);
        for rank in self.loads..fixed.loads() {
            self.add_load(fixed, run, rows.row(base, run, rank));
        }
        self.run.copy_from_slice(run);
    }
}
