//! The walk of one worker through its chunks.
ghost use Rattle.std.specs.Prelude.{◌≡◌, ◌↔◌, ℕ, ◌+◌, ◌^◌, ◌<◌, ◌≤◌, List, None, IfOk, IsTrue, OnOk, length, slice_index_or, slice_range, []};
ghost use Rattle.graph_model.specs.StaticGraph.{IsStaticGraph};
ghost use Rattle.test_lang.specs.Edges.{HasNoRunOrder, IsCanonicalRunCycle};
ghost use Rattle.test_lang.specs.Runs.{IsInside};
ghost use Rattle.test_lang.specs.Signatures.{Means};
ghost use Rattle.window_resort.specs.Walks.{TakesRun, is_cycle};
ghost use Rattle.chunk_pool.specs.Shares.{AreMeant, IsOrdered, IsSettled, IsSound, IsWalker, StaySettled, TakesSignature, WalksChunk};
ghost use Rattle.chunk_pool.specs.Tasks.{IsShareOf, IsTask};

use crate::share::{CycleAt, Share};
use crate::task::Task;
use digraph::{Nodes, Steps};
use graph_model::Static;
use mt_base::Gate;
use signature_plan::Plan;
use std::alloc::{AllocError, Global};
use std::marker::Brand;
use std::sync::ledger::{Blank, Ledger};
use tally::Signature;
use window_resort::{Checker, Verdict};

/// What a worker walks with. Each run and each cycle of its chunks is put where the one before was.
#[derive(Drop)]
struct Walker<'a> {
    plan: &'a Plan,
    checker: Checker<'a>,
    run: Vec<u32>,
    cycle: Nodes,
}

/// A copy with no more room than it needs.
fn copy_of(alloc: Global, nodes: &[u32]) -> Result<Nodes, AllocError>
    requires { length nodes.now < 2 ^ 32 }
    ensures { IfOk result (λ copy. copy.list ≡ nodes.now) }
{
    let mut copy = Nodes::with_room(alloc, nodes.len() as u32)?;
    for node in nodes {
        copy.push(*node);
    }
    Ok(copy)
}

impl<'a> Walker<'a> {
    fn new(alloc: Global, plan: &'a Plan, fixed: &'a Static) -> Result<Walker<'a>, AllocError>
        requires { plan.now ≡ fixed.now.test }
        ensures fixed { IfOk result (λ walker. walker.checker.fixed ≡ fixed.now) }
        ensures room { IfOk result (λ walker. IsWalker fixed.now walker.plan.now walker.run.items walker.cycle) }
    {
        Ok(Walker {
            plan,
            checker: Checker::new(alloc, fixed)?,
            run: vec![in alloc; 0u32; fixed.loads() as usize]?,
            cycle: Nodes::with_room(alloc, fixed.graph().nodes())?,
        })
    }

    /// Takes the run that a signature means.
    fn next<L: Ledger>(&mut self, signature: &Signature, steps: &mut Steps<L>) -> Verdict
        requires walker { IsWalker self.old.checker.fixed self.old.plan.now self.old.run.items self.old.cycle }
        requires meant { (run : List ℕ) × Means self.old.checker.fixed.test signature.now run }
        ensures walker { IsWalker self.old.checker.fixed self.new.plan.now self.new.run.items self.new.cycle }
        ensures fixed { self.new.checker.fixed ≡ self.old.checker.fixed }
        ensures means { Means self.old.checker.fixed.test signature.now self.new.run.items }
        ensures one { (other : List ℕ) → Means self.old.checker.fixed.test signature.now other →
            other ≡ self.new.run.items }
        ensures taken { TakesRun self.old.checker.fixed.model self.old.checker.fixed.test self.old.checker.base self.new.run.items result self.new.checker.base }
        ensures none { IsTrue (is_cycle result) ↔ HasNoRunOrder self.old.checker.fixed.model self.old.checker.fixed.test self.new.run.items }
    {
        self.plan
            .decode_into(signature.words(), &mut self.run)
            .unwrap();
        self.checker.next(&self.run, steps)
    }

    /// The canonical cycle of the run that was taken last, which has no order.
    fn cycle(&mut self, alloc: Global) -> Result<Nodes, AllocError>
        requires walker { IsWalker self.old.checker.fixed self.old.plan.now self.old.run.items self.old.cycle }
        requires inside { IsInside self.old.checker.fixed.test self.old.run.items }
        requires none { HasNoRunOrder self.old.checker.fixed.model self.old.checker.fixed.test self.old.run.items }
        ensures walker { IsWalker self.old.checker.fixed self.new.plan.now self.new.run.items self.new.cycle }
        ensures checker { self.new.checker ≡ self.old.checker }
        ensures canonical { IfOk result (λ nodes. IsCanonicalRunCycle self.old.checker.fixed.model self.old.checker.fixed.test self.old.run.items nodes.list) }
    {
        self.checker.cycle_into(&self.run, &mut self.cycle);
        copy_of(alloc, self.cycle.list())
    }

    /// Takes the signature at a place. A cycle is kept, and takes memory, of which the error is want.
    fn take<L: Ledger>(
        &mut self,
        alloc: Global,
        signatures: &[Signature],
        place: usize,
        share: &mut Share,
        steps: &mut Steps<L>,
    ) -> Result<(), AllocError>
        requires walker { IsWalker self.old.checker.fixed self.old.plan.now self.old.run.items self.old.cycle }
        requires ordered { IsOrdered self.old.checker.fixed self.old.checker.base }
        requires few { length signatures.now ≤ 1000000 }
        requires meant { AreMeant self.old.checker.fixed.test signatures.now }
        requires within { place < length signatures.now }
        requires sound { IsSound self.old.checker.fixed signatures.now share.old place }
        ensures walker { OnOk result (IsWalker self.old.checker.fixed self.new.plan.now self.new.run.items self.new.cycle) }
        ensures fixed { OnOk result (self.new.checker.fixed ≡ self.old.checker.fixed) }
        ensures ordered { OnOk result (IsOrdered self.old.checker.fixed self.new.checker.base) }
        ensures taken { OnOk result (TakesSignature self.old.checker.fixed (slice_index_or signatures.now place []) self.old.checker.base self.new.checker.base share.old.counts share.new.counts) }
        ensures sound { OnOk result (IsSound self.old.checker.fixed signatures.now share.new (place + 1)) }
        ensures settled { OnOk result (IsSettled self.old.checker.fixed signatures.now share.new.cycles.items place) }
        ensures kept { OnOk result (StaySettled self.old.checker.fixed signatures.now share.old.cycles.items share.new.cycles.items) }
    {
        let verdict = self.next(&signatures[place], steps);
        share.counts.count(verdict);
        if let Verdict::Cycle { .. } = verdict {
            let nodes = self.cycle(alloc)?;
            share.cycles.push(CycleAt { place, nodes })?;
        }
        Ok(())
    }

    /// Begins a chunk, of which no run was taken: there is no base.
    fn begin(&mut self)
        requires { IsWalker self.old.checker.fixed self.old.plan.now self.old.run.items self.old.cycle }
        ensures walker { IsWalker self.old.checker.fixed self.new.plan.now self.new.run.items self.new.cycle }
        ensures fixed { self.new.checker.fixed ≡ self.old.checker.fixed }
        ensures none { self.new.checker.base ≡ None }
    {
        self.checker.start();
    }

    /// Walks the chunk of the signatures from the place `first` to before `end`.
    fn walk<L: Ledger>(
        &mut self,
        alloc: Global,
        signatures: &[Signature],
        first: usize,
        end: usize,
        share: &mut Share,
        steps: &mut Steps<L>,
    ) -> Result<(), AllocError>
        requires walker { IsWalker self.old.checker.fixed self.old.plan.now self.old.run.items self.old.cycle }
        requires few { length signatures.now ≤ 1000000 }
        requires meant { AreMeant self.old.checker.fixed.test signatures.now }
        requires order { first ≤ end }
        requires within { end ≤ length signatures.now }
        requires sound { IsSound self.old.checker.fixed signatures.now share.old first }
        ensures walker { OnOk result (IsWalker self.old.checker.fixed self.new.plan.now self.new.run.items self.new.cycle) }
        ensures fixed { OnOk result (self.new.checker.fixed ≡ self.old.checker.fixed) }
        ensures walked { OnOk result (WalksChunk self.old.checker.fixed (slice_range signatures.now first end) share.old.counts share.new.counts) }
        ensures sound { OnOk result (IsSound self.old.checker.fixed signatures.now share.new end) }
        ensures settled { OnOk result ((place : ℕ) → first ≤ place → place < end → IsSettled self.old.checker.fixed signatures.now share.new.cycles.items place) }
        ensures kept { OnOk result (StaySettled self.old.checker.fixed signatures.now share.old.cycles.items share.new.cycles.items) }
    {
        self.begin();
        for place in first..end {
            self.take(alloc, signatures, place, share, steps)?;
        }
        Ok(())
    }
}

/// Walks the chunks of a worker: every so many-th, from the one with the worker's number on.
fn walk_counted<L: Ledger>(
    alloc: Global,
    task: &Task<'_>,
    worker: usize,
    blank: Blank,
) -> Result<Share, AllocError>
    requires name { blank.name ≡ L.name }
    requires parts { blank.parts ≡ L.parts }
    requires some { 0 < blank.parts }
    requires task { IsTask task.now }
    requires worker { worker < task.now.workers }
    ensures { IfOk result (IsShareOf task.now worker) }
{
    let mut steps = Steps::<L>::new(blank);
    let mut walker = Walker::new(alloc, task.plan, task.fixed)?;
    let mut share = Share::new(alloc);
    let signatures = task.signatures;
    for number in (worker..task.chunks()).step_by(task.workers) {
        let first = number * task.chunk;
        let end = signatures.len().min(first + task.chunk);
        walker.walk(alloc, signatures, first, end, &mut share, &mut steps)?;
    }
    Ok(share)
}

/// Does the share of a worker. The gate is told once that it begins, also where it has no chunk.
pub(crate) fn share_of<G: Gate>(
    alloc: Global,
    task: &Task<'_>,
    worker: usize,
    gate: &G,
) -> Result<Share, AllocError>
    requires task { IsTask task.now }
    requires worker { worker < task.now.workers }
    ensures { IfOk result (IsShareOf task.now worker) }
{
    gate.at(worker as u32, 0);
    walk_counted::<Brand>(alloc, task, worker, Blank::new(1))
}
