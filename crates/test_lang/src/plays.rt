//! Laws of plays. The one on which no false alarm rests: the run of a done play without a fault is inside, and the order in which its nodes took effect respects each edge, under the machine's own model and each weaker one.
ghost use Rattle.std.specs.Prelude.{◌≡◌, ◌↔◌, ℕ, ◌+◌, ◌*◌, ◌≤◌, List, Contains, IsTrue, IsFalse};
ghost use Rattle.orders.specs.Orders.{IsOrder};
ghost use Rattle.test_lang.specs.declared.op.MemModel.{MemModel};
ghost use Rattle.test_lang.specs.declared.op.MemModel.TheVariants.{Sc, Tso, Pso, Weak};
ghost use Rattle.test_lang.specs.declared.step.Step.{Step};
ghost use Rattle.test_lang.specs.declared.target.Target.{Target};
ghost use Rattle.test_lang.specs.declared.target.Fault.{Fault};
ghost use Rattle.test_lang.specs.declared.target.Fault.TheVariants.{None};
ghost use Rattle.test_lang.specs.Program.{Program, IsWithinLimits, all_nodes, op_count};
ghost use Rattle.test_lang.specs.Kept.{IsKept};
ghost use Rattle.test_lang.specs.Models.{is_no_stronger};
ghost use Rattle.test_lang.specs.Runs.{IsInside, IsRun};
ghost use Rattle.test_lang.specs.Edges.{RunEdge, IsRunOrder};
ghost use Rattle.test_lang.specs.Play.Machines.{model_of, is_enabled, after};
ghost use Rattle.test_lang.specs.Play.Plays.{IsPlay, IsDonePlay, final, is_done, run_of, effects_of, steps_left};
ghost use Rattle.test_lang.specs.Play.Choices.{choices};
ghost use Rattle.test_lang.specs.Play.Explanations.{Explains, IsWeaker, KeepsOneWord};

use orders::Relation;

/// Each model keeps a load or a store before each later store of its thread to the same word.
pub fn models_keep_one_word()
    ensures { (m : MemModel) (p : Program) → KeepsOneWord (IsKept m p) p }
{}

/// Each model keeps what the next weaker one keeps.
fn each_model_keeps_the_next()
    ensures tso { (p : Program) → IsWeaker (IsKept Tso p) (IsKept Sc p) }
    ensures pso { (p : Program) → IsWeaker (IsKept Pso p) (IsKept Tso p) }
    ensures weak { (p : Program) → IsWeaker (IsKept Weak p) (IsKept Pso p) }
{}

/// A model keeps what each weaker one keeps.
pub fn weaker_models_keep_less()
    ensures { (m n : MemModel) (p : Program) → IsTrue (is_no_stronger m n) → IsWeaker (IsKept m p) (IsKept n p) }
{
    each_model_keeps_the_next();
}

/// A run that is explained under some kept pairs is inside, and the order that explains it respects each edge, under these pairs and under any of them.
pub fn explained_runs_raise_no_alarm<Kept: Relation, Weaker: Relation>()
    ensures inside { (p : Program) (run order : List ℕ) → IsWithinLimits p
        → KeepsOneWord Kept.edges p → Explains Kept.edges p run order → IsInside p run }
    ensures ordered { (p : Program) (run order : List ℕ) → KeepsOneWord Kept.edges p
        → IsWeaker Weaker.edges Kept.edges → Explains Kept.edges p run order
        → IsOrder (RunEdge Weaker.edges p run) (all_nodes p) order }
{}

/// The order in which the nodes of a done play without a fault took effect explains its loads under the machine's own model.
pub fn plays_explain_their_loads()
    ensures { (target : Target) (p : Program) (steps : List Step) → IsDonePlay target None p steps
        → Explains (IsKept (model_of target) p) p (run_of target None p steps) (effects_of target None p steps) }
{}

/// So its loads are inside, and that order is one of the run under the machine's own model and under each weaker one.
pub fn done_plays_raise_no_alarm()
    ensures inside { (target : Target) (p : Program) (steps : List Step) → IsWithinLimits p
        → IsDonePlay target None p steps → IsInside p (run_of target None p steps) }
    ensures ordered { (target : Target) (m : MemModel) (p : Program) (steps : List Step)
        → IsTrue (is_no_stronger m (model_of target)) → IsDonePlay target None p steps
        → IsRunOrder m p (run_of target None p steps) (effects_of target None p steps) }
{
    plays_explain_their_loads();
    models_keep_one_word();
    weaker_models_keep_less();
}

/// With any fault, the loads' values are a run.
pub fn plays_give_runs()
    ensures { (target : Target) (fault : Fault) (p : Program) (steps : List Step) → IsWithinLimits p
        → IsRun p (run_of target fault p steps) }
{}

/// With any fault, a play that isn't done has an enabled step.
pub fn plays_go_on()
    ensures { (target : Target) (fault : Fault) (p : Program) (steps : List Step) → IsPlay target fault p steps
        → IsFalse (is_done p (final target fault p steps))
        → (step : Step) × IsTrue (is_enabled target fault p (final target fault p steps) step) }
{}

/// The choices are the enabled steps.
pub fn choices_are_the_enabled_steps()
    ensures { (target : Target) (fault : Fault) (p : Program) (steps : List Step) (step : Step) → IsPlay target fault p steps
        → Contains (choices target fault p (final target fault p steps)) step
        ↔ IsTrue (is_enabled target fault p (final target fault p steps) step) }
{}

/// A step takes one from the steps that are left, and none is left exactly where the play is done. They are at most two for each operation.
pub fn steps_left_fall()
    ensures falls { (target : Target) (fault : Fault) (p : Program) (steps : List Step) (step : Step) → IsPlay target fault p steps
        → IsTrue (is_enabled target fault p (final target fault p steps) step)
        → steps_left target fault p (after target fault p (final target fault p steps) step) + 1
        ≡ steps_left target fault p (final target fault p steps) }
    ensures ends { (target : Target) (fault : Fault) (p : Program) (steps : List Step) → IsPlay target fault p steps
        → IsTrue (is_done p (final target fault p steps))
        ↔ (steps_left target fault p (final target fault p steps) ≡ 0) }
    ensures few { (target : Target) (fault : Fault) (p : Program) (steps : List Step)
        → steps_left target fault p (final target fault p steps) ≤ 2 * op_count p }
{}
