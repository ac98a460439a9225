//! What a runner does.
ghost use Rattle.std.specs.Prelude.{◌≡◌, ◌⊎◌, ℕ, ◌<◌, ◌≤◌, List, [], ◌++◌, length, IfOk, OnOk};
ghost use Rattle.test_lang.specs.Signatures.{groups};
ghost use Rattle.signature_plan.specs.Outcomes.{outcome_of};
ghost use Rattle.sim_core.specs.Drawn.{IsDrawnRun};
ghost use Rattle.turn_set.specs.Passes.{IsPassOf};
ghost use Rattle.runner.specs.Jobs.{IsJob, setup_of};
ghost use Rattle.runner.specs.Runners.{AreOutcomesOf, HasRun, IsOffered, IsReady};

use crate::job::Job;
use crate::play::play_anew;
use crate::task::{Ran, Task};
use mt_base::Gate;
use sim_core::Machine;
use std::alloc::{AllocError, Global};
use tally::{Outcome, Signature};
use turn_set::{AddFault, Pass, SharedSet};

/// As many outcomes or more are offered.
const FULL: usize = 64;

/// Plays a run, and answers its outcome. `words` is where its signature stands on the way. `Err` means want of memory.
fn play_run<M: Machine>(
    alloc: Global,
    job: &Job<'_>,
    run: u32,
    machine: &mut M,
    words: &mut [u64],
) -> Result<Outcome, AllocError>
    requires job { IsJob job.now }
    requires setup { M.setup machine.old ≡ setup_of job.now }
    requires words { length words.old ≡ length (groups job.now.test.now) }
    ensures outcome { IfOk result (λ outcome. (values : List ℕ) × IsDrawnRun (setup_of job.now) job.now.seed run values
        × (outcome ≡ outcome_of job.now.test.now values)) }
    ensures setup { M.setup machine.new ≡ M.setup machine.old }
{
    play_anew(machine, job.seed, run);
    match job.plan.encode_into(machine.loads(), words) {
        Ok(()) => Ok(Outcome::Inside(Signature::of(alloc, words)?)),
        Err(outside) => Ok(Outcome::Outside {
            node: outside.node,
            value: outside.value,
        }),
    }
}

/// Offers the batch once, and keeps it where the turn was taken. `Err` means want of memory.
fn offer<G: Gate>(
    set: &SharedSet,
    pass: &mut Pass,
    batch: &mut Vec<Outcome>,
    gate: &G,
) -> Result<(), AllocError>
    requires { IsPassOf set.now pass.old }
    ensures same { IsPassOf set.now pass.new × (pass.new.number ≡ pass.old.number) }
    ensures offered { OnOk result (IsOffered pass.old batch.old.items pass.new batch.new.items) }
{
    match set.try_add(pass, batch, gate) {
        Ok(()) | Err(AddFault::Busy) => Ok(()),
        Err(AddFault::Memory) => Err(AllocError),
    }
}

/// Offers the batch once where it is full, and otherwise not. `Err` means want of memory.
fn offer_full<G: Gate>(
    set: &SharedSet,
    pass: &mut Pass,
    batch: &mut Vec<Outcome>,
    gate: &G,
) -> Result<(), AllocError>
    requires { IsPassOf set.now pass.old }
    ensures same { IsPassOf set.now pass.new × (pass.new.number ≡ pass.old.number) }
    ensures all { OnOk result (pass.new.list ++ batch.new.items ≡ pass.old.list ++ batch.old.items) }
    ensures full { 64 ≤ length batch.old.items → OnOk result (IsOffered pass.old batch.old.items pass.new batch.new.items) }
    ensures few { length batch.old.items < 64 → (pass.new ≡ pass.old) × (batch.new.items ≡ batch.old.items) }
{
    if batch.len() < FULL {
        return Ok(());
    }
    offer(set, pass, batch, gate)
}

/// Plays the runs of a runner, and offers its batch where that is full, and at the end. `Err` means want of memory.
fn play_all<M: Machine, G: Gate>(
    alloc: Global,
    set: &SharedSet,
    job: &Job<'_>,
    runners: u32,
    task: &mut Task<M>,
    gate: &G,
) -> Result<(), AllocError>
    requires job { IsJob job.now }
    requires runners { (task.old.pass.number < runners) × (runners ≤ 64) }
    requires ready { IsReady M.setup job.now set.now task.old.pass.number task.old }
    ensures same { IsPassOf set.now task.new.pass × (task.new.pass.number ≡ task.old.pass.number) }
    ensures all { OnOk result (AreOutcomesOf job.now runners task.old.pass.number (task.new.pass.list ++ task.new.batch.items)) }
    ensures late { OnOk result ((task.new.batch.items ≡ []) ⊎ (1 ≤ task.new.pass.busy)) }
{
    let mut run = task.pass.number();
    'runs: while run < job.runs {
        let outcome = play_run(alloc, job, run, &mut task.machine, &mut task.words)?;
        task.batch.push(outcome)?;
        offer_full(set, &mut task.pass, &mut task.batch, gate)?;
        run += runners;
    }
    offer(set, &mut task.pass, &mut task.batch, gate)
}

/// Does a runner's part of a job. The gate is told before its first run.
pub(crate) fn run_task<M: Machine + Drop, G: Gate>(
    alloc: Global,
    set: &SharedSet,
    job: &Job<'_>,
    runners: u32,
    mut task: Task<M>,
    gate: &G,
) -> Ran
    requires job { IsJob job.now }
    requires runners { (task.pass.number < runners) × (runners ≤ 64) }
    requires ready { IsReady M.setup job.now set.now task.pass.number task }
    ensures { HasRun job.now set.now runners task.pass.number result }
{
    gate.at(task.pass.number(), 0);
    let failed = play_all(alloc, set, job, runners, &mut task, gate).is_err();
    let Task { pass, batch, .. } = task;
    Ran {
        pass,
        batch,
        failed,
    }
}
