//! All runs of a job, over threads.
ghost use Rattle.std.specs.Prelude.{◌≡◌, ℕ, ◌<◌, ◌≤◌, List, [], ◌++◌, map, length, false, IfOk, OnOk, Some, slice_get, slice_index_or, vec_len};
ghost use Rattle.std.specs.Vec.{vec_capacity};
ghost use Rattle.tally.specs.declared.outcome.Outcome.{Outcome};
ghost use Rattle.tally.specs.Histories.{added_by, StandsFor};
ghost use Rattle.turn_set.specs.Passes.{PassState, AreAllOf, IsFresh};
ghost use Rattle.runner.specs.declared.task.Ran.{Ran};
ghost use Rattle.runner.specs.Jobs.{IsJob, IsTallyOfJob};
ghost use Rattle.runner.specs.Runners.{AreOutcomesOf, AreReady, HasPut, HaveRun, LateIsBusy};

use crate::build::Build;
use crate::job::Job;
use crate::task::{Ran, Task};
use crate::work::run_task;
use mt_base::Gate;
use sc_machine::ScMachine;
use std::alloc::{AllocError, Global};
use std::thread::{self, Threads};
use tally::Outcome;
use test_lang::target::Target;
use tso_machine::{PsoMachine, TsoMachine};
use turn_set::{Finished, Pass, SharedSet, finish};
use weak_machine::WeakMachine;

/// What each runner begins with, by rising number.
fn tasks_of<M: Build>(
    alloc: Global,
    set: &SharedSet,
    job: &Job<'_>,
    mut passes: Vec<Pass>,
) -> Result<Vec<Task<M>>, AllocError>
    requires job { IsJob job.now }
    requires kind { M.kind ≡ job.now.target }
    requires all { AreAllOf set.now passes.items }
    requires fresh { (k : ℕ) (p : PassState) → slice_get passes.items k ≡ Some p → IsFresh p }
    ensures { IfOk result (λ tasks. (vec_len tasks ≡ set.now.passes) × AreReady M.setup job.now set.now tasks.items) }
{
    let mut tasks: Vec<Task<M>> = Vec::with_capacity(alloc, passes.len())?;
    'passes: while !passes.is_empty() {
        let machine = M::build(alloc, job.test, job.fault)?;
        let words = vec![in alloc; 0u64; job.plan.words()]?;
        tasks.push_reserved(Task {
            pass: passes.remove(0),
            batch: Vec::new(alloc),
            machine,
            words,
        });
    }
    Ok(tasks)
}

/// Each runner does its part in a thread of its own.
fn run_tasks<M: Build, G: Gate + Sync, R: Threads + Sync>(
    rt: &R,
    alloc: Global,
    set: &SharedSet,
    job: &Job<'_>,
    runners: u32,
    tasks: Vec<Task<M>>,
    gate: &G,
) -> Result<Vec<Ran>, AllocError>
    requires job { IsJob job.now }
    requires runners { (vec_len tasks ≡ runners) × (runners ≤ 64) }
    requires ready { AreReady M.setup job.now set.now tasks.items }
    ensures { IfOk result (λ rans. (vec_len rans ≡ runners) × HaveRun job.now set.now runners rans.items) }
{
    thread::map_vec(
        rt,
        tasks,
        &|task| { run_task(alloc, set, job, runners, task, gate) },
    )
}

/// Whether memory was refused to a runner.
fn any_failed(rans: &[Ran]) -> bool
    ensures { result ≡ false → (k : ℕ) (d : Ran) → k < length rans.now → (slice_index_or rans.now k d).failed ≡ false }
{
    for ran in rans {
        if ran.failed {
            return true;
        }
    }
    false
}

/// The passes, and what is left of the batches.
fn part(mut rans: Vec<Ran>, passes: &mut Vec<Pass>, batches: &mut Vec<Vec<Outcome>>)
    requires { (passes.old.items ≡ []) × (batches.old.items ≡ [])
        × (vec_len rans ≤ vec_capacity passes.old) × (vec_len rans ≤ vec_capacity batches.old) }
    ensures passes { passes.new.items ≡ map (λ (ran : Ran). ran.pass) rans.items }
    ensures batches { batches.new.items ≡ map (λ (ran : Ran). ran.batch) rans.items }
{
    'rans: while !rans.is_empty() {
        let Ran { pass, batch, .. } = rans.remove(0);
        passes.push_reserved(pass);
        batches.push_reserved(batch);
    }
}

/// Puts what is left of the batches, each under the number of its pass. `Err` means want of memory.
fn put_all(finished: &mut Finished, mut batches: Vec<Vec<Outcome>>) -> Result<(), AllocError>
    requires { vec_len batches ≤ 64 }
    ensures same { OnOk result ((finished.new.finished_length ≡ finished.old.finished_length) × (finished.new.busy ≡ finished.old.busy)) }
    ensures put { OnOk result (HasPut finished.old.history (map (λ batch. batch.items) batches.items) finished.new.history) }
{
    'batches: while let Some(mut batch) = batches.pop() {
        let number = batches.len() as u32;
        finished.put(number, &mut batch)?;
    }
    Ok(())
}

/// The same as `run_all`, on a machine of this kind.
fn run_all_on<M: Build, G: Gate + Sync, R: Threads + Sync>(
    rt: &R,
    alloc: Global,
    job: &Job<'_>,
    runners: u32,
    gate: &G,
) -> Result<Finished, AllocError>
    requires job { IsJob job.now }
    requires kind { M.kind ≡ job.now.target }
    requires runners { (0 < runners) × (runners ≤ 64) }
    ensures passes { IfOk result (λ finished. (k : ℕ) → k < runners →
        AreOutcomesOf job.now runners k (added_by finished.history k)) }
    ensures others { IfOk result (λ finished. (k : ℕ) → runners ≤ k → added_by finished.history k ≡ []) }
    ensures late { IfOk result LateIsBusy }
    ensures tally { IfOk result (λ finished. (pairs : List (Outcome × ℕ)) →
        StandsFor pairs finished.history → IsTallyOfJob job.now pairs) }
{
    job.keeps_limits();
    let (set, passes) = SharedSet::new(alloc, runners)?;
    let tasks: Vec<Task<M>> = tasks_of(alloc, &set, job, passes)?;
    let rans = run_tasks(rt, alloc, &set, job, runners, tasks, gate)?;
    if any_failed(&rans) {
        return Err(AllocError);
    }
    let mut passes = Vec::with_capacity(alloc, rans.len())?;
    let mut batches = Vec::with_capacity(alloc, rans.len())?;
    part(rans, &mut passes, &mut batches);
    let mut finished = finish(set, passes);
    put_all(&mut finished, batches)?;
    Ok(finished)
}

/// Does a job by so many runners, each in a thread of its own, and answers the set that they added to. `Err` means want of memory.
///
/// Runner k plays the runs k, k + runners and so on, each on a machine of its own, and adds their outcomes by pass k. It tells the gate of its piece 0
/// before its first run, offers its batch whenever it has 64 outcomes or more and once at its end, and goes on where the turn is taken.
/// What is left of a batch is put when all runners are done.
pub fn run_all<G: Gate + Sync, R: Threads + Sync>(
    rt: &R,
    alloc: Global,
    job: &Job<'_>,
    runners: u32,
    gate: &G,
) -> Result<Finished, AllocError>
    requires job { IsJob job.now }
    requires runners { (0 < runners) × (runners ≤ 64) }
    ensures passes { IfOk result (λ finished. (k : ℕ) → k < runners →
        AreOutcomesOf job.now runners k (added_by finished.history k)) }
    ensures others { IfOk result (λ finished. (k : ℕ) → runners ≤ k → added_by finished.history k ≡ []) }
    ensures late { IfOk result LateIsBusy }
    ensures tally { IfOk result (λ finished. (pairs : List (Outcome × ℕ)) →
        StandsFor pairs finished.history → IsTallyOfJob job.now pairs) }
{
    match job.target {
        Target::Sc => run_all_on::<ScMachine, G, R>(rt, alloc, job, runners, gate),
        Target::Tso => run_all_on::<TsoMachine, G, R>(rt, alloc, job, runners, gate),
        Target::Pso => run_all_on::<PsoMachine, G, R>(rt, alloc, job, runners, gate),
        Target::Weak => run_all_on::<WeakMachine, G, R>(rt, alloc, job, runners, gate),
    }
}
