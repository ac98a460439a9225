//! Plays that are drawn.
ghost use Rattle.std.specs.Prelude.{◌≡◌, ℕ, ◌+◌, ◌%◌, ◌<◌, List, [], length, Some, slice_get};
ghost use Rattle.std.specs.List.{AllByRecursion};
ghost use Rattle.mt_base.specs.Words.{draws_after, word};
ghost use Rattle.test_lang.specs.declared.step.Step.{Step};
ghost use Rattle.test_lang.specs.Program.{IsWithinLimits};
ghost use Rattle.test_lang.specs.Runs.{IsRun};
ghost use Rattle.sim_core.specs.Drawn.{AreDrawnRuns, IsDrawnPlay, IsDrawnRun};
ghost use Rattle.sim_core.specs.Setup.{Setup, choices_after};

use crate::machine::Machine;
use mt_base::Draws;
use test_lang::step::Step;
use test_lang::test::MAX_OPS;

/// Each run of a seed has a drawn play, and no other.
pub fn one_drawn_play()
    ensures some { (setup : Setup) (seed run : ℕ) → (steps : List Step) × IsDrawnPlay setup seed run steps }
    ensures one { (setup : Setup) (seed run : ℕ) (steps others : List Step) → IsDrawnPlay setup seed run steps
        → IsDrawnPlay setup seed run others → steps ≡ others }
{}

/// So a seed has one list of so many drawn runs, and each of these is a run of the test.
pub fn one_list_of_drawn_runs()
    ensures some { (setup : Setup) (seed count : ℕ) → (runs : List (List ℕ)) × AreDrawnRuns setup seed count runs }
    ensures one { (setup : Setup) (seed count : ℕ) (runs others : List (List ℕ)) → AreDrawnRuns setup seed count runs
        → AreDrawnRuns setup seed count others → runs ≡ others }
    ensures runs { (setup : Setup) (seed count : ℕ) (runs : List (List ℕ)) → IsWithinLimits setup.test
        → AreDrawnRuns setup seed count runs → AllByRecursion (IsRun setup.test) runs }
{}

/// Draws a choice of a machine that has one.
fn draw_choice<M: Machine>(machine: &M, draws: &mut Draws) -> Step
    requires { (steps : List Step) × M.stands machine.now steps × (0 < length (choices_after (M.setup machine.now) steps)) }
    ensures drawn { (seed stream j : ℕ) (steps : List Step) → draws.old ≡ draws_after seed stream j → M.stands machine.now steps
        → slice_get (choices_after (M.setup machine.now) steps)
        (word seed stream j % length (choices_after (M.setup machine.now) steps)) ≡ Some result }
    ensures behind { (seed stream j : ℕ) → draws.old ≡ draws_after seed stream j
        → draws.new ≡ draws_after seed stream (j + 1) }
{
    let number = draws.below(machine.count());
    machine.choice(number)
}

/// Plays a run of a seed from the opening state to the end. One word is drawn for each step, also where there is one choice.
/// It takes no memory.
pub fn play_drawn<M: Machine>(machine: &mut M, seed: u64, run: u32)
    requires opening { M.stands machine.old [] }
    ensures drawn { (steps : List Step) × IsDrawnPlay (M.setup machine.old) seed run steps × M.stands machine.new steps }
    ensures setup { M.setup machine.new ≡ M.setup machine.old }
{
    let mut draws = Draws::new(seed, u64::from(run));
    // A play that isn't done has a choice, and at most two steps for each operation are left at first.
    'steps: for _ in 0..2 * MAX_OPS {
        if machine.done() {
            return;
        }
        let choice = draw_choice(machine, &mut draws);
        machine.step(choice);
    }
}
