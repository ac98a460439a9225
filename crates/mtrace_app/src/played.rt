//! Reads the schedules of an input, plays each, and counts the outcomes.
ghost use Rattle.std.specs.Prelude.{◌≡◌, ℕ, ◌+◌, ◌^◌, ◌<◌, ◌≤◌, List, [], map, length, false, IsTrue, IfOk, IfErr};
ghost use Rattle.test_lang.specs.declared.step.Step.{Step};
ghost use Rattle.test_lang.specs.Targets.{fits};
ghost use Rattle.run_text.specs.Items.{IsTextOf};
ghost use Rattle.sim_core.specs.Setup.{run_after};
ghost use Rattle.mtrace_app.specs.declared.failure.Failure.{Failure};
ghost use Rattle.mtrace_app.specs.declared.refusal.InputFault.{InputFault};
ghost use Rattle.mtrace_app.specs.declared.refusal.Refusal.{Refusal};
ghost use Rattle.mtrace_app.specs.Counted.{AreCountedWithin, RefusesBehind};
ghost use Rattle.mtrace_app.specs.Failures.{IfRefused};
ghost use Rattle.mtrace_app.specs.Inputs.{ArePlayedRuns, AreRefusedPlays, IsBadForPlays, IsLineOfPlay, fault_of_play, setup_of};
ghost use Rattle.mtrace_app.specs.Played.{PlaysOn};

use crate::failure::Failure;
use crate::one_run::count_run;
use crate::refusal::{InputFault, Reason, Refusal};
use crate::test_runs::TestRuns;
use command_line::Settings;
use run_text::schedule_lines::ScheduleLines;
use sc_machine::ScMachine;
use signature_plan::Plan;
use sim_core::{Machine, PlayFault, play_schedule};
use std::alloc::Global;
use tally::{Counter, Tally};
use test_lang::step::Step;
use test_lang::target::Target;
use test_lang::test::Test;
use tso_machine::{PsoMachine, TsoMachine};
use weak_machine::WeakMachine;

/// The refusal of the schedule in this line.
fn refused_play(line: u32, fault: PlayFault) -> Failure
    ensures { result ≡ Failure.Refused (Refusal.Input (fault_of_play line fault)) }
{
    let reason = match fault {
        PlayFault::NotEnabled { place } => Reason::NotEnabled { place },
        PlayFault::Unfinished => Reason::Unfinished,
    };
    Failure::Refused(Refusal::Input(InputFault { line, reason }))
}

/// Reads the next schedule into the buffer and plays it, if there is one.
fn next_play<M: Machine>(
    lines: &mut ScheduleLines<'_>,
    machine: &mut M,
    steps: &mut Vec<Step>,
) -> Result<bool, Failure>
    requires { lines.old.is_done ≡ false }
    ensures played { IfOk result (λ more. PlaysOn (M.setup machine.old) (M.stands machine.new) more lines.old lines.new) }
    ensures refused { IfErr result (IfRefused (λ refusal. (fault : InputFault) × (refusal ≡ Refusal.Input fault)
        × IsBadForPlays (M.setup machine.old) lines.old.line lines.old.left fault)) }
    ensures setup { M.setup machine.new ≡ M.setup machine.old }
{
    let line = lines.line();
    steps.clear();
    if !lines.next(steps)? {
        return Ok(false);
    }
    machine.reset();
    match play_schedule(machine, steps) {
        Ok(()) => Ok(true),
        Err(fault) => Err(refused_play(line, fault)),
    }
}

/// Plays all schedules of a text, and counts their outcomes as far as the limits go. Neither a schedule nor a run is kept.
fn count_plays<M: Machine>(
    alloc: Global,
    machine: &mut M,
    plan: &Plan,
    text: &[u8],
    line: u32,
) -> Result<(u64, Tally), Failure>
    requires line { line + length text.now < 2 ^ 32 }
    requires test { (M.setup machine.old).test ≡ plan.now }
    ensures ok { IfOk result (λ counted. (schedules : List (List Step))
        × IsTextOf (IsLineOfPlay (M.setup machine.old)) schedules text.now []
        × AreCountedWithin plan.now (map (run_after (M.setup machine.old)) schedules) counted.0 counted.1) }
    ensures few { IfOk result (λ counted. counted.0 ≤ length text.now) }
    ensures err { IfErr result (IfRefused (RefusesBehind (IsLineOfPlay (M.setup machine.old)) (IsBadForPlays (M.setup machine.old)) line text.now)) }
{
    let mut steps = Vec::new(alloc);
    let mut words = vec![in alloc; 0u64; plan.words()]?;
    let mut counter = Counter::new(alloc, plan.words());
    let mut lines = ScheduleLines::new(text, line);
    let mut runs = 0;
    'plays: while next_play(&mut lines, machine, &mut steps)? {
        runs += 1;
        count_run(plan, runs, machine.loads(), &mut words, &mut counter)?;
    }
    Ok((runs, counter.finish()?))
}

/// The same on the machine that the settings name.
fn count_plays_on_target(
    alloc: Global,
    settings: &Settings,
    test: &Test,
    plan: &Plan,
    text: &[u8],
    line: u32,
) -> Result<(u64, Tally), Failure>
    requires fits { IsTrue (fits settings.now.target settings.now.fault) }
    requires line { line + length text.now < 2 ^ 32 }
    requires plan { plan.now ≡ test.now }
    ensures ok { IfOk result (λ counted. (schedules : List (List Step))
        × IsTextOf (IsLineOfPlay (setup_of settings.now test.now)) schedules text.now []
        × AreCountedWithin test.now (map (run_after (setup_of settings.now test.now)) schedules) counted.0 counted.1) }
    ensures few { IfOk result (λ counted. counted.0 ≤ length text.now) }
    ensures err { IfErr result (IfRefused (RefusesBehind (IsLineOfPlay (setup_of settings.now test.now)) (IsBadForPlays (setup_of settings.now test.now)) line text.now)) }
{
    match settings.target {
        Target::Sc => {
            let mut machine = ScMachine::new(alloc, test, settings.fault)?;
            count_plays(alloc, &mut machine, plan, text, line)
        }
        Target::Weak => {
            let mut machine = WeakMachine::new(alloc, test, settings.fault)?;
            count_plays(alloc, &mut machine, plan, text, line)
        }
        Target::Tso => {
            let mut machine = TsoMachine::new(alloc, test, settings.fault)?;
            count_plays(alloc, &mut machine, plan, text, line)
        }
        Target::Pso => {
            let mut machine = PsoMachine::new(alloc, test, settings.fault)?;
            count_plays(alloc, &mut machine, plan, text, line)
        }
    }
}

/// The test of an input, and the runs of its schedules.
pub(crate) fn read_plays(
    alloc: Global,
    settings: &Settings,
    input: &[u8],
) -> Result<TestRuns, Failure>
    requires fits { IsTrue (fits settings.now.target settings.now.fault) }
    requires few { length input.now ≤ 2 ^ 30 }
    ensures plan { IfOk result (λ read. read.plan ≡ read.test) }
    ensures few { IfOk result (λ read. read.runs < 2 ^ 32) }
    ensures ok { IfOk result (λ read. (runs : List (List ℕ))
        × ArePlayedRuns settings.now input.now read.test runs
        × AreCountedWithin read.test runs read.runs read.tally) }
    ensures err { IfErr result (IfRefused (λ refusal. (fault : InputFault)
        × (refusal ≡ Refusal.Input fault) × AreRefusedPlays settings.now input.now fault)) }
{
    let read = Test::read(alloc, input)?;
    let plan = Plan::of(alloc, &read.test)?;
    let text = &input[read.used..];
    let line = read.lines + 1;
    let (runs, tally) = count_plays_on_target(alloc, settings, &read.test, &plan, text, line)?;
    Ok(TestRuns {
        test: read.test,
        plan,
        runs,
        tally,
    })
}
