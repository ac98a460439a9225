//! Draws the runs of a test, and counts their outcomes.
ghost use Rattle.std.specs.Prelude.{◌≡◌, ℕ, ◌^◌, ◌<◌, ◌≤◌, List, length, IsTrue, IfOk, IfErr};
ghost use Rattle.command_line.specs.Settings.{AreConsistent, IsWithinRanges};
ghost use Rattle.test_gen.specs.Generated.{generated};
ghost use Rattle.test_lang.specs.Targets.{fits};
ghost use Rattle.mtrace_app.specs.declared.refusal.InputFault.{InputFault};
ghost use Rattle.mtrace_app.specs.declared.refusal.Refusal.{Refusal};
ghost use Rattle.mtrace_app.specs.Counted.{AreCountedWithin};
ghost use Rattle.mtrace_app.specs.Failures.{IfRefused};
ghost use Rattle.mtrace_app.specs.Inputs.{AreRunsDrawn, IsRefusedTestAlone, IsTestAlone};

use crate::failure::Failure;
use crate::limits::fit_limits;
use crate::refusal::Refusal;
use crate::test_runs::TestRuns;
use command_line::Settings;
use mt_base::Gate;
use run_text::next_line::nothing_after;
use runner::{Job, run_all};
use signature_plan::Plan;
use sim_core::one_list_of_drawn_runs;
use std::alloc::{AllocError, Global};
use std::thread::Threads;
use tally::Tally;
use test_gen::generate;
use test_lang::test::Test;

/// The test that an input is.
pub(crate) fn read_test(alloc: Global, input: &[u8]) -> Result<Test, Failure>
    requires { length input.now ≤ 2 ^ 30 }
    ensures ok { IfOk result (λ test. IsTestAlone input.now test) }
    ensures err { IfErr result (IfRefused (λ refusal. (fault : InputFault)
        × (refusal ≡ Refusal.Input fault) × IsRefusedTestAlone input.now fault)) }
{
    let read = Test::read(alloc, input)?;
    nothing_after(&input[read.used..], read.lines + 1)?;
    Ok(read.test)
}

/// Draws the runs of a test by so many runners as the settings say, and counts their outcomes. Where they pass a limit, none is drawn and none counted.
fn count_drawn<R: Threads + Sync, G: Gate + Sync>(
    rt: &R,
    alloc: Global,
    settings: &Settings,
    test: &Test,
    plan: &Plan,
    gate: &G,
) -> Result<Tally, AllocError>
    requires fits { IsTrue (fits settings.now.target settings.now.fault) }
    requires ranges { IsWithinRanges settings.now }
    requires plan { plan.now ≡ test.now }
    ensures { IfOk result (λ tally. (runs : List (List ℕ))
        × AreRunsDrawn settings.now test.now runs
        × AreCountedWithin test.now runs settings.now.runs tally) }
{
    // Runs that aren't drawn are there by this law.
    one_list_of_drawn_runs();
    if !fit_limits(u64::from(settings.runs), u64::from(test.loads())) {
        return Ok(Tally::new(alloc));
    }
    let job = Job {
        test,
        plan,
        target: settings.target,
        fault: settings.fault,
        seed: settings.gen_settings.seed,
        runs: settings.runs,
    };
    let finished = run_all(rt, alloc, &job, settings.runners, gate)?;
    Ok(finished.into_tally())
}

/// A test, and the runs that the settings draw of it.
fn draw_runs<R: Threads + Sync, G: Gate + Sync>(
    rt: &R,
    alloc: Global,
    settings: &Settings,
    test: Test,
    gate: &G,
) -> Result<TestRuns, AllocError>
    requires fits { IsTrue (fits settings.now.target settings.now.fault) }
    requires ranges { IsWithinRanges settings.now }
    ensures test { IfOk result (λ read. read.test ≡ test) }
    ensures plan { IfOk result (λ read. read.plan ≡ read.test) }
    ensures few { IfOk result (λ read. read.runs < 2 ^ 32) }
    ensures runs { IfOk result (λ read. (runs : List (List ℕ))
        × AreRunsDrawn settings.now test runs
        × AreCountedWithin test runs read.runs read.tally) }
{
    let plan = Plan::of(alloc, &test)?;
    let tally = count_drawn(rt, alloc, settings, &test, &plan, gate)?;
    Ok(TestRuns {
        test,
        plan,
        runs: u64::from(settings.runs),
        tally,
    })
}

/// The test that an input is, and its drawn runs.
pub(crate) fn draw_runs_of_input<R: Threads + Sync, G: Gate + Sync>(
    rt: &R,
    alloc: Global,
    settings: &Settings,
    input: &[u8],
    gate: &G,
) -> Result<TestRuns, Failure>
    requires ranges { IsWithinRanges settings.now }
    requires consistent { AreConsistent settings.now }
    requires few { length input.now ≤ 2 ^ 30 }
    ensures plan { IfOk result (λ read. read.plan ≡ read.test) }
    ensures few { IfOk result (λ read. read.runs < 2 ^ 32) }
    ensures ok { IfOk result (λ read. IsTestAlone input.now read.test × ((runs : List (List ℕ))
        × AreRunsDrawn settings.now read.test runs
        × AreCountedWithin read.test runs read.runs read.tally)) }
    ensures err { IfErr result (IfRefused (λ refusal. (fault : InputFault)
        × (refusal ≡ Refusal.Input fault) × IsRefusedTestAlone input.now fault)) }
{
    let test = read_test(alloc, input)?;
    Ok(draw_runs(rt, alloc, settings, test, gate)?)
}

/// The test that the settings generate, and its drawn runs.
pub(crate) fn draw_runs_of_generated<R: Threads + Sync, G: Gate + Sync>(
    rt: &R,
    alloc: Global,
    settings: &Settings,
    gate: &G,
) -> Result<TestRuns, AllocError>
    requires ranges { IsWithinRanges settings.now }
    requires consistent { AreConsistent settings.now }
    ensures test { IfOk result (λ read. read.test ≡ generated settings.now.gen_settings) }
    ensures plan { IfOk result (λ read. read.plan ≡ read.test) }
    ensures few { IfOk result (λ read. read.runs < 2 ^ 32) }
    ensures ok { IfOk result (λ read. (runs : List (List ℕ))
        × AreRunsDrawn settings.now read.test runs
        × AreCountedWithin read.test runs read.runs read.tally) }
{
    let test = generate(alloc, &settings.gen_settings)?;
    draw_runs(rt, alloc, settings, test, gate)
}
