//! Reads the recorded runs of an input, and counts their outcomes.
ghost use Rattle.std.specs.Prelude.{◌≡◌, ℕ, ◌+◌, ◌^◌, ◌<◌, ◌≤◌, List, length, Ok, IfOk, IfErr};
ghost use Rattle.run_text.specs.Runs.{reading};
ghost use Rattle.run_count.specs.Counts.{RefusesText, text_of};
ghost use Rattle.mtrace_app.specs.declared.refusal.InputFault.{InputFault};
ghost use Rattle.mtrace_app.specs.Counted.{AreCountedWithin};
ghost use Rattle.mtrace_app.specs.Failures.{IfRefused};
ghost use Rattle.mtrace_app.specs.Inputs.{AreRecordedRuns, AreRefusedRuns};

use crate::failure::Failure;
use crate::limits::most_runs;
use crate::refusal::Refusal;
use crate::test_runs::TestRuns;
use run_count::count_runs;
use run_text::fault::RunFault;
use signature_plan::Plan;
use std::alloc::Global;
use std::thread::Threads;
use tally::Tally;
use test_lang::test::Test;

/// Reads all runs of a text by so many workers, and counts their outcomes as far as the limits go.
fn count_within<R: Threads + Sync>(
    rt: &R,
    alloc: Global,
    plan: &Plan,
    text: &[u8],
    line: u32,
    workers: u32,
) -> Result<(u64, Tally), RunFault>
    requires lines { line + length text.now + 1 < 2 ^ 32 }
    requires workers { 1 ≤ workers }
    ensures ok { IfOk result (λ counted. (runs : List (List ℕ))
        × (reading (text_of plan.now line text.now) ≡ Ok runs)
        × AreCountedWithin plan.now runs counted.0 counted.1) }
    ensures few { IfOk result (λ counted. counted.0 ≤ length text.now) }
    ensures err { IfErr result (RefusesText (text_of plan.now line text.now)) }
{
    let most = most_runs(plan.loads() as u64);
    count_runs(rt, alloc, plan, text, line, most, workers)
}

/// The test of an input, and its recorded runs, which so many workers read and count.
pub(crate) fn read_runs<R: Threads + Sync>(
    rt: &R,
    alloc: Global,
    input: &[u8],
    workers: u32,
) -> Result<TestRuns, Failure>
    requires few { length input.now ≤ 2 ^ 30 }
    requires workers { 1 ≤ workers }
    ensures plan { IfOk result (λ read. read.plan ≡ read.test) }
    ensures few { IfOk result (λ read. read.runs < 2 ^ 32) }
    ensures ok { IfOk result (λ read. (runs : List (List ℕ))
        × AreRecordedRuns input.now read.test runs
        × AreCountedWithin read.test runs read.runs read.tally) }
    ensures err { IfErr result (IfRefused (λ refusal. (fault : InputFault)
        × (refusal ≡ Refusal.Input fault) × AreRefusedRuns input.now fault)) }
{
    let read = Test::read(alloc, input)?;
    let plan = Plan::of(alloc, &read.test)?;
    let (runs, tally) = count_within(
        rt,
        alloc,
        &plan,
        &input[read.used..],
        read.lines + 1,
        workers,
    )?;
    Ok(TestRuns {
        test: read.test,
        plan,
        runs,
        tally,
    })
}
