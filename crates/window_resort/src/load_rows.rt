//! The few edges of each load, in a list of its own.
ghost use Rattle.std.specs.Prelude.{◌≡◌, ℕ, ◌+◌, ◌*◌, ◌<◌, ◌≤◌, ◌++◌, true, List, Option, IfOk, length, slice_set, slice_index_or};
ghost use Rattle.test_lang.specs.Runs.{IsInside};
ghost use Rattle.test_lang.specs.Values.{load_count};
ghost use Rattle.test_lang.specs.Program.{Program, op_count};
ghost use Rattle.graph_model.specs.LoadEdges.{load_edge_room};
ghost use Rattle.window_resort.specs.Bounds.{changed_count, is_changed};
ghost use Rattle.window_resort.specs.Changes.{LeadsBack, changed_edges, edges_at_rank};
ghost use Rattle.window_resort.specs.Tables.{HasChanged, HasEdges, HasRoom, HasUnchanged, row_at};
ghost use Rattle.window_resort.specs.Windows.{IsSpan};

use crate::spans::{Window, widen_by};
use digraph::{Edges, Steps};
use graph_model::Static;
use std::alloc::{AllocError, Global};
use std::mem;
use std::sync::ledger::Ledger;

/// An empty list for each load. The error is want of memory.
pub(crate) fn empty_rows(alloc: Global, fixed: &Static) -> Result<Vec<Edges>, AllocError>
    ensures { IfOk result (λ rows. HasRoom fixed.now.test rows.items) }
{
    let loads = fixed.loads();
    let room = fixed.load_edge_room();
    let mut rows = Vec::with_capacity(alloc, loads as usize)?;
    for _ in 0..loads {
        rows.push(Edges::with_room(alloc, room)?)?;
    }
    Ok(rows)
}

/// Lists the few edges of a load anew.
fn list_load<L: Ledger>(
    fixed: &Static,
    run: &[u32],
    rank: u32,
    rows: &mut [Edges],
    steps: &mut Steps<L>,
)
    requires inside { IsInside fixed.now.test run.now }
    requires rank { rank < load_count fixed.now.test }
    requires room { HasRoom fixed.now.test rows.old }
    ensures room { HasRoom fixed.now.test rows.new }
    ensures listed { row_at rows.new rank ≡ edges_at_rank fixed.now.test run.now rank }
    ensures others { (other : ℕ) → other < rank → row_at rows.new other ≡ row_at rows.old other }
    ensures few { steps.new ≤ steps.old + load_edge_room fixed.now.test }
    ensures later { steps.old ≤ steps.new }
{
    fixed.dynamic_into(run, rank, &mut rows[rank as usize], steps);
}

/// Lists the few edges of all loads.
fn list_loads<L: Ledger>(fixed: &Static, run: &[u32], rows: &mut [Edges], steps: &mut Steps<L>)
    requires inside { IsInside fixed.now.test run.now }
    requires room { HasRoom fixed.now.test rows.old }
    ensures room { HasRoom fixed.now.test rows.new }
    ensures listed { HasEdges fixed.now.test run.now rows.new }
    ensures later { steps.old ≤ steps.new }
{
    for rank in 0..fixed.loads() {
        list_load(fixed, run, rank, rows, steps);
    }
}

/// Lists the few edges of a load that changed, and widens the window by them.
fn compare_load<L: Ledger>(
    fixed: &Static,
    run: &[u32],
    rank: u32,
    places: &[u32],
    window: Option<Window>,
    fresh: &mut [Edges],
    steps: &mut Steps<L>,
) -> Option<Window>
    requires inside { IsInside fixed.now.test run.now }
    requires rank { rank < load_count fixed.now.test }
    requires places { length places.now ≡ op_count fixed.now.test }
    requires room { HasRoom fixed.now.test fresh.old }
    ensures room { HasRoom fixed.now.test fresh.new }
    ensures listed { row_at fresh.new rank ≡ edges_at_rank fixed.now.test run.now rank }
    ensures others { (other : ℕ) → other < rank → row_at fresh.new other ≡ row_at fresh.old other }
    ensures window { (before : List (ℕ × ℕ)) → IsSpan (LeadsBack places.now before) window →
        IsSpan (LeadsBack places.now (before ++ edges_at_rank fixed.now.test run.now rank)) result }
    ensures few { steps.new ≤ steps.old + load_edge_room fixed.now.test }
    ensures later { steps.old ≤ steps.new }
{
    list_load(fixed, run, rank, fresh, steps);
    widen_by(window, fresh[rank as usize].list(), places)
}

/// Lists the few edges of each load that has another value than in the base's run. The result is what those of them span that point backward, by the
/// places of the nodes in the base's order.
fn compare_loads<L: Ledger>(
    fixed: &Static,
    base: &[u32],
    run: &[u32],
    places: &[u32],
    fresh: &mut [Edges],
    steps: &mut Steps<L>,
) -> Option<Window>
    requires inside { IsInside fixed.now.test run.now }
    requires base { length base.now ≡ load_count fixed.now.test }
    requires places { length places.now ≡ op_count fixed.now.test }
    requires room { HasRoom fixed.now.test fresh.old }
    ensures room { HasRoom fixed.now.test fresh.new }
    ensures listed { HasChanged fixed.now.test base.now run.now (load_count fixed.now.test) fresh.new }
    ensures window { IsSpan (LeadsBack places.now (changed_edges fixed.now.test base.now run.now (load_count fixed.now.test))) result }
    ensures few { steps.new
        ≤ steps.old + changed_count fixed.now.test base.now run.now * load_edge_room fixed.now.test }
    ensures later { steps.old ≤ steps.new }
{
    let mut window = None;
    for rank in 0..fixed.loads() {
        if base[rank as usize] != run[rank as usize] {
            window = compare_load(fixed, run, rank, places, window, fresh, steps);
        }
    }
    window
}

/// Exchanges the lists of the loads that changed.
fn accept_loads(fixed: &Static, base: &[u32], run: &[u32], rows: &mut [Edges], fresh: &mut [Edges])
    requires inside { IsInside fixed.now.test run.now }
    requires base { length base.now ≡ load_count fixed.now.test }
    requires rows { HasRoom fixed.now.test rows.old }
    requires fresh { HasRoom fixed.now.test fresh.old }
    requires unchanged { HasUnchanged fixed.now.test base.now run.now rows.old }
    requires changed { HasChanged fixed.now.test base.now run.now (load_count fixed.now.test) fresh.old }
    ensures rows { HasRoom fixed.now.test rows.new }
    ensures fresh { HasRoom fixed.now.test fresh.new }
    ensures listed { HasEdges fixed.now.test run.now rows.new }
{
    for rank in 0..fixed.loads() {
        if base[rank as usize] != run[rank as usize] {
            mem::swap(&mut rows[rank as usize], &mut fresh[rank as usize]);
        }
    }
}

/// By rank, the few edges of each load in the base's run, and those in the run at hand of the loads that changed.
#[derive(Drop)]
pub(crate) struct LoadRows {
    pub(crate) base: Vec<Edges>,
    pub(crate) fresh: Vec<Edges>,
}

impl LoadRows {
    /// Empty lists. The error is want of memory.
    pub(crate) fn new(alloc: Global, fixed: &Static) -> Result<LoadRows, AllocError>
        ensures base { IfOk result (λ rows. HasRoom fixed.now.test rows.base.items) }
        ensures fresh { IfOk result (λ rows. HasRoom fixed.now.test rows.fresh.items) }
    {
        Ok(LoadRows {
            base: empty_rows(alloc, fixed)?,
            fresh: empty_rows(alloc, fixed)?,
        })
    }

    /// Lists the few edges of all loads as those of a base.
    pub(crate) fn list_all<L: Ledger>(&mut self, fixed: &Static, run: &[u32], steps: &mut Steps<L>)
        requires inside { IsInside fixed.now.test run.now }
        requires base { HasRoom fixed.now.test self.old.base.items }
        requires fresh { HasRoom fixed.now.test self.old.fresh.items }
        ensures base { HasRoom fixed.now.test self.new.base.items }
        ensures fresh { HasRoom fixed.now.test self.new.fresh.items }
        ensures listed { HasEdges fixed.now.test run.now self.new.base.items }
        ensures later { steps.old ≤ steps.new }
    {
        list_loads(fixed, run, &mut self.base, steps);
    }

    /// Lists the few edges of each load that has another value than in the base's run. The result is what those of them span that point backward.
    pub(crate) fn compare<L: Ledger>(
        &mut self,
        fixed: &Static,
        base: &[u32],
        run: &[u32],
        places: &[u32],
        steps: &mut Steps<L>,
    ) -> Option<Window>
        requires inside { IsInside fixed.now.test run.now }
        requires run { length base.now ≡ load_count fixed.now.test }
        requires places { length places.now ≡ op_count fixed.now.test }
        requires base { HasRoom fixed.now.test self.old.base.items }
        requires fresh { HasRoom fixed.now.test self.old.fresh.items }
        ensures base { self.new.base.items ≡ self.old.base.items }
        ensures fresh { HasRoom fixed.now.test self.new.fresh.items }
        ensures listed { HasChanged fixed.now.test base.now run.now (load_count fixed.now.test) self.new.fresh.items }
        ensures window { IsSpan (LeadsBack places.now (changed_edges fixed.now.test base.now run.now (load_count fixed.now.test))) result }
        ensures few { steps.new
            ≤ steps.old + changed_count fixed.now.test base.now run.now * load_edge_room fixed.now.test }
        ensures later { steps.old ≤ steps.new }
    {
        compare_loads(fixed, base, run, places, &mut self.fresh, steps)
    }

    /// Makes the lists of the run at hand those of the base.
    pub(crate) fn accept(&mut self, fixed: &Static, base: &[u32], run: &[u32])
        requires inside { IsInside fixed.now.test run.now }
        requires run { length base.now ≡ load_count fixed.now.test }
        requires base { HasRoom fixed.now.test self.old.base.items }
        requires fresh { HasRoom fixed.now.test self.old.fresh.items }
        requires unchanged { HasUnchanged fixed.now.test base.now run.now self.old.base.items }
        requires changed { HasChanged fixed.now.test base.now run.now (load_count fixed.now.test) self.old.fresh.items }
        ensures base { HasRoom fixed.now.test self.new.base.items }
        ensures fresh { HasRoom fixed.now.test self.new.fresh.items }
        ensures listed { HasEdges fixed.now.test run.now self.new.base.items }
    {
        accept_loads(fixed, base, run, &mut self.base, &mut self.fresh);
    }

    /// The few edges of a load in the run at hand.
    pub(crate) fn row(&self, base: &[u32], run: &[u32], rank: u32) -> &[(u32, u32)]
        requires base { rank < length base.now }
        requires run { rank < length run.now }
        requires base_row { rank < length self.now.base.items }
        requires fresh_row { rank < length self.now.fresh.items }
        ensures { (p : Program) → rank < load_count p →
            HasUnchanged p base.now run.now self.now.base.items →
            HasChanged p base.now run.now (load_count p) self.now.fresh.items →
            result.now ≡ edges_at_rank p run.now rank }
    {
        if base[rank as usize] == run[rank as usize] {
            self.base[rank as usize].list()
        } else {
            self.fresh[rank as usize].list()
        }
    }
}
