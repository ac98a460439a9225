//! Laws of signatures, for any test.
ghost use Rattle.std.specs.Prelude.{◌≡◌, ◌↔◌, ℕ, List};
ghost use Rattle.std.specs.List.{concat};
ghost use Rattle.signature_plan.specs.Cuts.{IsLongestCut};
ghost use Rattle.signature_plan.specs.Fitting.{FitGroups};
ghost use Rattle.signature_plan.specs.Words.{run_of};
ghost use Rattle.test_lang.specs.Program.{Program, IsWithinLimits};
ghost use Rattle.test_lang.specs.Runs.{IsInside};
ghost use Rattle.test_lang.specs.Signatures.{Means, candidate_count, groups, groups_of, signature};
ghost use Rattle.test_lang.specs.Values.{load_nodes, thread_loads};

/// Words below their groups' products mean exactly one run, and other words mean none. So no two runs that are inside have one signature.
pub fn words_mean_one_run()
    ensures some { (p : Program) (words : List ℕ) → IsWithinLimits p → FitGroups p words →
        Means p words (run_of p words) }
    ensures only { (p : Program) (words run : List ℕ) → Means p words run → run ≡ run_of p words }
    ensures fit { (p : Program) (words run : List ℕ) → Means p words run → FitGroups p words }
    ensures injective { (p : Program) (a b : List ℕ) → IsInside p a → IsInside p b →
        signature p a ≡ signature p b → a ≡ b }
{}

/// The groups of a thread are its loads in order, none is empty, and each is the longest that fits a word. Those of all threads are all loads.
pub fn groups_are_longest()
    ensures threads { (p : Program) (thread : ℕ) → IsWithinLimits p
        → IsLongestCut (candidate_count p) (thread_loads p thread) (groups_of (candidate_count p) (thread_loads p thread)) }
    ensures whole { (p : Program) → concat (groups p) ≡ load_nodes p }
{}

/// The loads of a thread have one longest cut, their groups. So it is no choice that these are found load by load.
pub fn one_longest_cut()
    ensures { (p : Program) (thread : ℕ) (cut : List (List ℕ)) → IsWithinLimits p
        → IsLongestCut (candidate_count p) (thread_loads p thread) cut
        ↔ (cut ≡ groups_of (candidate_count p) (thread_loads p thread)) }
{}
