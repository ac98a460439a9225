//! The checker of a chunk of runs.
ghost use Rattle.std.specs.Prelude.{◌≡◌, ◌↔◌, ◌<◌, ◌≤◌, Some, None, true, IfOk, IsTrue, is_some};
ghost use Rattle.test_lang.specs.Edges.{HasNoRunOrder, IsCanonicalRunCycle, IsRunOrder};
ghost use Rattle.test_lang.specs.Program.{op_count};
ghost use Rattle.test_lang.specs.Runs.{IsInside};
ghost use Rattle.window_resort.specs.Bounds.{HasFewReads};
ghost use Rattle.window_resort.specs.Walks.{Base, TakesRun, is_cycle};

use crate::cycles::{find_cycle, hold_run};
use crate::held_graph::HeldGraph;
use crate::load_rows::LoadRows;
use crate::orders_kept::SortedRun;
use crate::verdicts::Verdict;
use digraph::{Edges, Nodes, Steps};
use full_sort::{
    Scratch, least_on_cycle, least_order_into, shortest_cycle_into, window_order_into,
};
use graph_model::Static;
use std::alloc::{AllocError, Global};
use std::marker::{Brand, Model};
use std::sync::ledger::{Blank, Ledger};

/// Checks the runs of a chunk, one after another. Contracts see the test and the model, and the base: the last order that was found in this chunk, with
/// its run.
///
/// All room is taken by `new`.
#[derive(Drop)]
pub struct Checker<'a> {
    fixed: &'a Static,
    has_base: bool,
    base: SortedRun,
    rows: LoadRows,
    held: HeldGraph,
    scratch: Scratch,
}

impl<'a> Model for Checker<'a> {
    ghost use Rattle.std.specs.Prelude.{◌≡◌, Some, None, true, if◌then◌else◌};
    ghost use Rattle.window_resort.specs.Tables.{Checking, HasCheckerRoom, HasHeldRoom, HoldsLoads, IsBase};

    ghost Value = { Checking };

    ghost view = { λ c. record {
      fixed = c.fixed.now;
      base = if c.has_base then Some (record { run = c.base.run.items; order = c.base.order.items }) else None;
    } };

    ghost invariant = { λ c.
        HasCheckerRoom c.fixed.now c.base.run.items c.base.order.items c.base.places.items c.base.sorted.items c.rows.base.items c.rows.fresh.items c.scratch
        × HasHeldRoom c.fixed.now c.held.run.items c.held.starts.items
        × HoldsLoads c.fixed.now c.held.run.items c.held.loads c.held.starts.items c.held.graph
        × (c.has_base ≡ true → IsBase c.fixed.now c.base.run.items c.base.order.items c.base.places.items c.rows.base.items) };
}

impl<'a> Checker<'a> {
    /// A checker without a base. The error is want of memory.
    pub fn new(alloc: Global, fixed: &'a Static) -> Result<Checker<'a>, AllocError>
        ensures { IfOk result (λ checker. checker ≡ record { fixed = fixed.now; base = None }) }
    {
        let nodes = fixed.graph().nodes();
        Ok(Checker {
            fixed,
            has_base: false,
            base: SortedRun::new(alloc, fixed.loads(), nodes)?,
            rows: LoadRows::new(alloc, fixed)?,
            held: HeldGraph::new(alloc, fixed)?,
            scratch: Scratch::new(alloc, nodes)?,
        })
    }

    /// Begins a chunk, without a base.
    pub fn start(&mut self)
        ensures { self.new ≡ record self.old { base = None } }
    {
        self.has_base = false;
    }

    /// Whether there is a base.
    pub fn has_base(&self) -> bool
        ensures { result ≡ is_some self.now.base }
    {
        self.has_base
    }

    /// Takes a run without a base: it gets the least order of all nodes, if it has one.
    fn next_from_nothing<L: Ledger>(&mut self, run: &[u32], steps: &mut Steps<L>) -> Verdict
        requires none { self.old.base ≡ None }
        requires inside { IsInside self.old.fixed.test run.now }
        ensures fixed { self.new.fixed ≡ self.old.fixed }
        ensures taken { TakesRun self.old.fixed.model self.old.fixed.test self.old.base run.now result self.new.base }
        ensures later { steps.old ≤ steps.new }
    {
        self.rows.list_all(self.fixed, run, steps);
        self.held.take_run(self.fixed, run, run, &self.rows);
        if !self
            .base
            .sort_all(&self.held.graph, &mut self.scratch, steps)
        {
            return Verdict::Cycle { window: None };
        }
        self.base.take_values(run);
        self.has_base = true;
        Verdict::Sorted
    }

    /// Takes a run from the base's order.
    fn next_from_base<L: Ledger>(&mut self, run: &[u32], steps: &mut Steps<L>) -> Verdict
        requires some { is_some self.old.base ≡ true }
        requires inside { IsInside self.old.fixed.test run.now }
        ensures fixed { self.new.fixed ≡ self.old.fixed }
        ensures taken { TakesRun self.old.fixed.model self.old.fixed.test self.old.base run.now result self.new.base }
        ensures few { HasFewReads self.old.fixed self.old.base run.now steps.old steps.new }
        ensures later { steps.old ≤ steps.new }
    {
        let fixed = self.fixed;
        let window = self
            .rows
            .compare(fixed, &self.base.run, run, &self.base.places, steps);
        let Some(window) = window else {
            self.rows.accept(fixed, &self.base.run, run);
            self.base.take_values(run);
            return Verdict::Kept;
        };
        self.held.take_run(fixed, &self.base.run, run, &self.rows);
        let nodes = window.nodes();
        if !self
            .base
            .sort_window(&self.held.graph, window, &mut self.scratch, steps)
        {
            return Verdict::Cycle {
                window: Some(nodes),
            };
        }
        self.rows.accept(fixed, &self.base.run, run);
        self.base.take_values(run);
        Verdict::Resorted { nodes }
    }

    /// Takes one run more. It is sorted from the base's order, or where there is none, wholly: `TakesRun` says how, with the verdict and the base after it.
    pub fn next<L: Ledger>(&mut self, run: &[u32], steps: &mut Steps<L>) -> Verdict
        requires inside { IsInside self.old.fixed.test run.now }
        ensures fixed { self.new.fixed ≡ self.old.fixed }
        ensures taken { TakesRun self.old.fixed.model self.old.fixed.test self.old.base run.now result self.new.base }
        ensures none { IsTrue (is_cycle result) ↔ HasNoRunOrder self.old.fixed.model self.old.fixed.test run.now }
        ensures few { HasFewReads self.old.fixed self.old.base run.now steps.old steps.new }
        ensures later { steps.old ≤ steps.new }
    {
        if self.has_base {
            self.next_from_base(run, steps)
        } else {
            self.next_from_nothing(run, steps)
        }
    }

    /// The base's order. It respects every edge of the base's run.
    pub fn order(&self) -> &[u32]
        requires { is_some self.now.base ≡ true }
        ensures order { (base : Base) → self.now.base ≡ Some base → result.now ≡ base.order }
        ensures respects { (base : Base) → self.now.base ≡ Some base →
            IsRunOrder self.now.fixed.model self.now.fixed.test base.run base.order }
    {
        &self.base.order
    }

    fn cycle_counted<L: Ledger>(&mut self, run: &[u32], cycle: &mut Nodes, blank: Blank)
        requires name { blank.name ≡ L.name }
        requires parts { blank.parts ≡ L.parts }
        requires some { 0 < blank.parts }
        requires inside { IsInside self.old.fixed.test run.now }
        requires none { HasNoRunOrder self.old.fixed.model self.old.fixed.test run.now }
        requires room { op_count self.old.fixed.test ≤ cycle.old.room }
        ensures canonical { IsCanonicalRunCycle self.old.fixed.model self.old.fixed.test run.now cycle.new.list }
        ensures unchanged { self.new ≡ self.old }
        ensures room { cycle.new.room ≡ cycle.old.room }
    {
        let mut steps = Steps::<L>::new(blank);
        hold_run(
            self.fixed,
            self.has_base,
            &self.base,
            run,
            &mut self.rows,
            &mut self.held,
            &mut steps,
        );
        find_cycle(
            self.fixed,
            run,
            &self.held.graph,
            &mut self.scratch,
            cycle,
            &mut steps,
        );
    }

    /// Puts the canonical cycle of a run that has no order into `cycle`. The base stays as it was.
    pub fn cycle_into(&mut self, run: &[u32], cycle: &mut Nodes)
        requires inside { IsInside self.old.fixed.test run.now }
        requires none { HasNoRunOrder self.old.fixed.model self.old.fixed.test run.now }
        requires room { op_count self.old.fixed.test ≤ cycle.old.room }
        ensures canonical { IsCanonicalRunCycle self.old.fixed.model self.old.fixed.test run.now cycle.new.list }
        ensures unchanged { self.new ≡ self.old }
        ensures room { cycle.new.room ≡ cycle.old.room }
    {
        self.cycle_counted::<Brand>(run, cycle, Blank::new(1));
    }
}
