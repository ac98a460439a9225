//! No false alarm: what a machine without a fault gives is never reported.
ghost use Rattle.std.specs.Prelude.{◌≡◌, List, IsTrue};
ghost use Rattle.test_lang.specs.declared.op.MemModel.{MemModel};
ghost use Rattle.test_lang.specs.declared.step.Step.{Step};
ghost use Rattle.test_lang.specs.declared.target.Fault.TheVariants.{None};
ghost use Rattle.test_lang.specs.Edges.{IsRunOrder};
ghost use Rattle.test_lang.specs.Models.{is_no_stronger};
ghost use Rattle.test_lang.specs.Runs.{IsInside};
ghost use Rattle.test_lang.specs.Play.Machines.{model_of};
ghost use Rattle.sim_core.specs.Setup.{effects_after, is_done_after, run_after};

use crate::machine::Machine;
use test_lang::plays::done_plays_raise_no_alarm;

/// What the loads of a machine without a fault gave when it is done is inside, and the order in which its operations
/// took effect respects each edge, under the machine's own model and each weaker one.
pub fn no_false_alarm<M: Machine>(machine: &M)
    ensures inside { (steps : List Step) → M.stands machine.now steps
        → (M.setup machine.now).fault ≡ None
        → IsTrue (is_done_after (M.setup machine.now) steps)
        → IsInside (M.setup machine.now).test (run_after (M.setup machine.now) steps) }
    ensures ordered { (m : MemModel) (steps : List Step) → M.stands machine.now steps
        → (M.setup machine.now).fault ≡ None
        → IsTrue (is_done_after (M.setup machine.now) steps)
        → IsTrue (is_no_stronger m (model_of (M.setup machine.now).target))
        → IsRunOrder m (M.setup machine.now).test (run_after (M.setup machine.now) steps)
        (effects_after (M.setup machine.now) steps) }
{
    done_plays_raise_no_alarm();
}
