//! Machines that are stepped.
ghost use Rattle.std.specs.Prelude.{◌≡◌, ◌∷◌, [], ◌++◌, ◌<◌, List, length, IsTrue, Some, slice_get};
ghost use Rattle.sim_core.specs.Setup.{Setup, choices_after, is_enabled_after, is_done_after, run_after, IsPlayOf};
ghost use Rattle.test_lang.specs.Program.{IsWithinLimits};
ghost use Rattle.test_lang.specs.declared.step.Step.{Step};

use test_lang::step::Step;

/// A machine that plays a test, one step after the other. No call takes memory. What makes a machine says its setup, and
/// that it stands for no step.
///
/// By the laws of plays (`test_lang::plays`) the choices are the enabled steps (`choices_are_the_enabled_steps`), a machine that
/// isn't done has one (`plays_go_on`), and each step brings it nearer to its end by one: at most two steps for each operation are
/// left in the opening state, and none where all is done (`steps_left_fall`).
pub trait Machine {
    /// What the machine is, and what it plays.
    ghost setup: { Self → Setup };

    /// The machine stands where these steps lead to from its opening state.
    ghost stands: { Self → List Step → Type 0 };

    /// How many steps are enabled.
    fn count(&self) -> u32
        ensures { (steps : List Step) → stands self.now steps → result ≡ length (choices_after (setup self.now) steps) };

    /// The enabled step with this number, counted from 0: by rising thread, a thread's `Execute` before its `Drain`s by
    /// rising place, and its `Perform`s by rising index.
    fn choice(&self, k: u32) -> Step
        requires { (steps : List Step) → stands self.now steps → k < length (choices_after (setup self.now) steps) }
        ensures { (steps : List Step) → stands self.now steps → slice_get (choices_after (setup self.now) steps) k ≡ Some result };

    /// Whether the step is enabled.
    fn enabled(&self, step: Step) -> bool
        ensures { (steps : List Step) → stands self.now steps → result ≡ is_enabled_after (setup self.now) steps step };

    /// Takes the step.
    fn step(&mut self, step: Step)
        requires { (steps : List Step) → stands self.old steps → IsTrue (is_enabled_after (setup self.old) steps step) }
        ensures setup { setup self.new ≡ setup self.old }
        ensures stands { (steps : List Step) → stands self.old steps → stands self.new (steps ++ step ∷ []) };

    /// Whether each operation has taken effect.
    fn done(&self) -> bool
        ensures { (steps : List Step) → stands self.now steps → result ≡ is_done_after (setup self.now) steps };

    /// Brings the machine back to its opening state.
    fn reset(&mut self)
        ensures setup { setup self.new ≡ setup self.old }
        ensures stands { stands self.new [] };

    /// The values that the loads gave, by rank, and 0 for a load that wasn't executed.
    fn loads(&self) -> &[u32]
        ensures { (steps : List Step) → stands self.now steps → result.now ≡ run_after (setup self.now) steps };

    /// What a machine stands for is a play.
    ghost is_play: { (machine : Self) (steps : List Step) → stands machine steps → IsPlayOf (setup machine) steps };

    /// Its test is within the limits.
    ghost limits: { (machine : Self) (steps : List Step) → stands machine steps → IsWithinLimits (setup machine).test };
}
