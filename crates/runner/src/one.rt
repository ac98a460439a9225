//! All runs of a job, one after another.
ghost use Rattle.std.specs.Prelude.{◌≡◌, ℕ, ◌+◌, ◌^◌, ◌<◌, List, [], ◌∷◌, ◌++◌, length, IfOk, OnOk};
ghost use Rattle.tally.specs.declared.outcome.Outcome.{Outcome};
ghost use Rattle.tally.specs.Counting.{HasCounted};
ghost use Rattle.tally.specs.Tallies.{total_of};
ghost use Rattle.test_lang.specs.Signatures.{groups};
ghost use Rattle.test_lang.specs.Values.{load_count};
ghost use Rattle.signature_plan.specs.Outcomes.{outcome_of};
ghost use Rattle.runner.specs.Jobs.{IsJob, IsTallyOfJob};

use crate::build::Build;
use crate::job::Job;
use crate::play::play_anew;
use sc_machine::ScMachine;
use signature_plan::Plan;
use std::alloc::{AllocError, Global};
use tally::{Counter, Tally};
use test_lang::target::Target;
use tso_machine::{PsoMachine, TsoMachine};
use weak_machine::WeakMachine;

/// Counts the outcome of a run. `words` is where its signature stands on the way. `Err` means want of memory.
fn count_run(
    plan: &Plan,
    run: &[u32],
    words: &mut [u64],
    counter: &mut Counter,
) -> Result<(), AllocError>
    requires loads { length run.now ≡ load_count plan.now }
    requires words { length words.old ≡ length (groups plan.now) }
    requires width { counter.old.width ≡ length (groups plan.now) }
    requires room { total_of counter.old.pairs < 2 ^ 32 }
    ensures counted { OnOk result ((outcomes : List Outcome)
        → HasCounted outcomes counter.old → HasCounted (outcomes ++ outcome_of plan.now run.now ∷ []) counter.new) }
    ensures total { OnOk result (total_of counter.new.pairs ≡ total_of counter.old.pairs + 1) }
    ensures width { OnOk result (counter.new.width ≡ counter.old.width) }
{
    match plan.encode_into(run, words) {
        Ok(()) => counter.count(words),
        Err(outside) => counter.count_outside(outside.node, outside.value),
    }
}

/// Plays all runs on one machine of this kind, and counts their outcomes.
fn count_runs<M: Build>(alloc: Global, job: &Job<'_>) -> Result<Tally, AllocError>
    requires job { IsJob job.now }
    requires kind { M.kind ≡ job.now.target }
    ensures { IfOk result (IsTallyOfJob job.now) }
{
    job.keeps_limits();
    let mut machine = M::build(alloc, job.test, job.fault)?;
    let mut words = vec![in alloc; 0u64; job.plan.words()]?;
    let mut counter = Counter::new(alloc, job.plan.words());
    'runs: for run in 0..job.runs {
        play_anew(&mut machine, job.seed, run);
        count_run(job.plan, machine.loads(), &mut words, &mut counter)?;
    }
    counter.finish()
}

/// The tally of the outcomes of a job's drawn runs. It starts no thread. `Err` means want of memory.
///
/// One machine plays all runs, and one list of words holds their signatures on the way, so that memory is taken where a signature is new.
pub fn run_one(alloc: Global, job: &Job<'_>) -> Result<Tally, AllocError>
    requires { IsJob job.now }
    ensures { IfOk result (IsTallyOfJob job.now) }
{
    match job.target {
        Target::Sc => count_runs::<ScMachine>(alloc, job),
        Target::Tso => count_runs::<TsoMachine>(alloc, job),
        Target::Pso => count_runs::<PsoMachine>(alloc, job),
        Target::Weak => count_runs::<WeakMachine>(alloc, job),
    }
}
