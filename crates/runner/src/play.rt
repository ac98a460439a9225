//! Plays a run on a machine that may have played others.
ghost use Rattle.std.specs.Prelude.{◌≡◌, List};
ghost use Rattle.test_lang.specs.declared.step.Step.{Step};
ghost use Rattle.sim_core.specs.Drawn.{IsDrawnPlay};

use sim_core::{Machine, play_drawn};

/// Plays a run of a seed, wherever the machine stands.
#[tactic(auto, using(crate::proofs::DrawnSoFar::drawn_again))]
pub(crate) fn play_anew<M: Machine>(machine: &mut M, seed: u64, run: u32)
    ensures drawn { (steps : List Step) × IsDrawnPlay (M.setup machine.old) seed run steps × M.stands machine.new steps }
    ensures setup { M.setup machine.new ≡ M.setup machine.old }
{
    machine.reset();
    play_drawn(machine, seed, run);
}
