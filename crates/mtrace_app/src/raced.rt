//! Races the threads of a test, and reports the runs.
ghost use Rattle.std.specs.Prelude.{◌≡◌, ℕ, ◌^◌, ◌<◌, ◌≤◌, List, length, IfOk, IfErr};
ghost use Rattle.command_line.specs.declared.meaning.Command.{Command};
ghost use Rattle.command_line.specs.Settings.{IsWithinRanges};
ghost use Rattle.test_lang.specs.Values.{load_count};
ghost use Rattle.mtrace_app.specs.Answers.{RefusesInput};
ghost use Rattle.mtrace_app.specs.Counted.{AreCounted};
ghost use Rattle.mtrace_app.specs.Failures.{IfRefused};
ghost use Rattle.mtrace_app.specs.Inputs.{AreRaces};
ghost use Rattle.mtrace_app.specs.Limits.{FitLimits};
ghost use Rattle.mtrace_app.specs.Outputs.{IsOutputOf};
ghost use Rattle.mtrace_app.specs.Report.{run_lines};

use crate::counted::{Counted, Output, report_of};
use crate::drawn::read_test;
use crate::failure::Failure;
use crate::limits::check_limits;
use crate::one_run::count_run;
use crate::refusal::Refusal;
use command_line::Settings;
use mt_base::Gate;
use shared_words::race;
use signature_plan::Plan;
use std::alloc::{AllocError, Global};
use std::thread::Threads;
use tally::{Counter, Tally};
use test_lang::test::Test;
use verdict_report::run_line;

/// The runs of races.
#[derive(Drop)]
struct Raced {
    /// A line of each run, in the order in which they were made.
    lines: Vec<u8>,
    /// How often each outcome occurred.
    tally: Tally,
}

/// Races a test so many times, one race after another.
fn race_runs<R: Threads + Sync, G: Gate + Sync>(
    rt: &R,
    alloc: Global,
    test: &Test,
    plan: &Plan,
    count: u32,
    gate: &G,
) -> Result<Raced, AllocError>
    requires thread { 0 < length test.now.threads }
    requires plan { plan.now ≡ test.now }
    requires fit { FitLimits count (load_count test.now) }
    ensures { IfOk result (λ raced. (runs : List (List ℕ)) × AreRaces test.now count runs
        × AreCounted test.now runs count raced.tally × (raced.lines.items ≡ run_lines runs)) }
{
    let mut words = vec![in alloc; 0u64; plan.words()]?;
    let mut counter = Counter::new(alloc, plan.words());
    let mut lines = Vec::new(alloc);
    'races: for index in 0..count {
        let run = race(rt, alloc, test, gate)?;
        let line = run_line(alloc, &run)?;
        lines.extend_from_slice(&line)?;
        count_run(plan, u64::from(index) + 1, &run, &mut words, &mut counter)?;
    }
    let tally = counter.finish()?;
    Ok(Raced { lines, tally })
}

/// Races the test that an input is. The output is a line of each run, and the report of these runs.
pub(crate) fn race_input<R: Threads + Sync, G: Gate + Sync>(
    rt: &R,
    alloc: Global,
    settings: &Settings,
    input: &[u8],
    gate: &G,
) -> Result<Output, Failure>
    requires race { settings.now.command ≡ Command.Race }
    requires ranges { IsWithinRanges settings.now }
    requires few { length input.now ≤ 2 ^ 30 }
    ensures output { IfOk result (λ output. IsOutputOf settings.now input.now output.text.items output.is_clean) }
    ensures refused { IfErr result (IfRefused (RefusesInput settings.now input.now)) }
{
    let test = read_test(alloc, input)?;
    let runs = u64::from(settings.runs);
    if let Err(size) = check_limits(runs, u64::from(test.loads())) {
        return Err(Failure::Refused(Refusal::TooLarge(size)));
    }
    let plan = Plan::of(alloc, &test)?;
    let Raced { mut lines, tally } = race_runs(rt, alloc, &test, &plan, settings.runs, gate)?;
    let counted = Counted {
        test: &test,
        plan: &plan,
        runs,
        tally: &tally,
    };
    let report = report_of(rt, alloc, settings, &counted, gate)?;
    lines.extend_from_slice(&report.text)?;
    Ok(Output {
        text: lines,
        is_clean: report.is_clean,
    })
}
