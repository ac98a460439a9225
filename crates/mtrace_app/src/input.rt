//! The output for the bytes that a command takes.
ghost use Rattle.std.specs.Prelude.{◌≡◌, ◌≢◌, ℕ, ◌^◌, ◌<◌, ◌≤◌, List, length, IsTrue, IfOk, IfErr};
ghost use Rattle.command_line.specs.declared.meaning.Command.{Command};
ghost use Rattle.command_line.specs.Settings.{AreConsistent, IsWithinRanges};
ghost use Rattle.mtrace_app.specs.declared.refusal.InputFault.{InputFault};
ghost use Rattle.mtrace_app.specs.Answers.{RefusesInput};
ghost use Rattle.mtrace_app.specs.Counted.{AreCountedWithin};
ghost use Rattle.mtrace_app.specs.Failures.{IfRefused};
ghost use Rattle.mtrace_app.specs.Inputs.{IsRecorded, IsRefusedInput};
ghost use Rattle.mtrace_app.specs.Outputs.{IsOutputOf, reports};

use crate::counted::{Counted, Output, report_of};
use crate::drawn::{draw_runs_of_generated, draw_runs_of_input};
use crate::failure::Failure;
use crate::limits::check_limits;
use crate::played::read_plays;
use crate::raced::race_input;
use crate::recorded::read_runs;
use crate::refusal::Refusal;
use crate::test_runs::TestRuns;
use command_line::{Command, Settings};
use mt_base::Gate;
use std::alloc::Global;
use std::thread::Threads;

/// The test of an input, and its recorded runs, as the command has them. `run` draws the runs, and `demo` generates the test too.
fn read_recorded<R: Threads + Sync, G: Gate + Sync>(
    rt: &R,
    alloc: Global,
    settings: &Settings,
    input: &[u8],
    gate: &G,
) -> Result<TestRuns, Failure>
    requires reports { IsTrue (reports settings.now.command) }
    requires ranges { IsWithinRanges settings.now }
    requires consistent { AreConsistent settings.now }
    requires few { length input.now ≤ 2 ^ 30 }
    ensures plan { IfOk result (λ read. read.plan ≡ read.test) }
    ensures few { IfOk result (λ read. read.runs < 2 ^ 32) }
    ensures ok { IfOk result (λ read. (runs : List (List ℕ))
        × IsRecorded settings.now input.now read.test runs
        × AreCountedWithin read.test runs read.runs read.tally) }
    ensures err { IfErr result (IfRefused (λ refusal. (fault : InputFault)
        × (refusal ≡ Refusal.Input fault) × IsRefusedInput settings.now input.now fault)) }
{
    match settings.command {
        Command::Check => read_runs(rt, alloc, input, settings.workers),
        Command::Replay => read_plays(alloc, settings, input),
        Command::Run => draw_runs_of_input(rt, alloc, settings, input, gate),
        Command::Demo => Ok(draw_runs_of_generated(rt, alloc, settings, gate)?),
        Command::Race | Command::Generate => unreachable!(),
    }
}

/// The report of the recorded runs of an input, in the form of the command.
fn report_for_input<R: Threads + Sync, G: Gate + Sync>(
    rt: &R,
    alloc: Global,
    settings: &Settings,
    input: &[u8],
    gate: &G,
) -> Result<Output, Failure>
    requires reports { IsTrue (reports settings.now.command) }
    requires ranges { IsWithinRanges settings.now }
    requires consistent { AreConsistent settings.now }
    requires few { length input.now ≤ 2 ^ 30 }
    ensures output { IfOk result (λ output. IsOutputOf settings.now input.now output.text.items output.is_clean) }
    ensures refused { IfErr result (IfRefused (RefusesInput settings.now input.now)) }
{
    let read = read_recorded(rt, alloc, settings, input, gate)?;
    if let Err(size) = check_limits(read.runs, u64::from(read.test.loads())) {
        return Err(Failure::Refused(Refusal::TooLarge(size)));
    }
    let counted = Counted {
        test: &read.test,
        plan: &read.plan,
        runs: read.runs,
        tally: &read.tally,
    };
    Ok(report_of(rt, alloc, settings, &counted, gate)?)
}

/// The output for the bytes that a command takes: all but `generate` check runs, and `race` writes these first.
pub(crate) fn output_for_input<R: Threads + Sync, G: Gate + Sync>(
    rt: &R,
    alloc: Global,
    settings: &Settings,
    input: &[u8],
    gate: &G,
) -> Result<Output, Failure>
    requires checks { settings.now.command ≢ Command.Generate }
    requires ranges { IsWithinRanges settings.now }
    requires consistent { AreConsistent settings.now }
    requires few { length input.now ≤ 2 ^ 30 }
    ensures output { IfOk result (λ output. IsOutputOf settings.now input.now output.text.items output.is_clean) }
    ensures refused { IfErr result (IfRefused (RefusesInput settings.now input.now)) }
{
    match settings.command {
        Command::Race => race_input(rt, alloc, settings, input, gate),
        Command::Check | Command::Replay | Command::Run | Command::Generate | Command::Demo =>
            report_for_input(rt, alloc, settings, input, gate),
    }
}
