//! Schedules that are played.
ghost use Rattle.std.specs.Prelude.{◌≡◌, []};
ghost use Rattle.sim_core.specs.Schedules.{ComesOut, taken};

use crate::machine::Machine;
use test_lang::plays::steps_left_fall;
use test_lang::step::Step;
use thiserror::Error;

/// Why a schedule is no play to the end.
#[derive(Clone, Copy, PartialEq, Eq, Debug, Drop, Error)]
pub enum PlayFault {
    /// The step at this place, counted from 0, isn't enabled.
    #[error("the step at place {place} isn't enabled")]
    NotEnabled { place: u32 },
    /// All steps were taken, and some operation hasn't taken effect.
    #[error("some operation hasn't taken effect")]
    Unfinished,
}

/// Plays a schedule from the opening state. After a refusal the machine stands behind the steps that were taken: those
/// before the one that isn't enabled, or all.
pub fn play_schedule<M: Machine>(machine: &mut M, steps: &[Step]) -> Result<(), PlayFault>
    requires opening { M.stands machine.old [] }
    ensures outcome { ComesOut (M.setup machine.old) steps.now result }
    ensures stands { M.stands machine.new (taken steps.now result) }
    ensures setup { M.setup machine.new ≡ M.setup machine.old }
{
    // So many steps are left that the place of each that is taken fits.
    steps_left_fall();
    for (place, step) in steps.iter().enumerate() {
        if !machine.enabled(*step) {
            let place = place as u32;
            return Err(PlayFault::NotEnabled { place });
        }
        machine.step(*step);
    }
    if machine.done() {
        Ok(())
    } else {
        Err(PlayFault::Unfinished)
    }
}
