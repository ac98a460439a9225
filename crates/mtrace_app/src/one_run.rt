//! Counts the outcome of one run.
ghost use Rattle.std.specs.Prelude.{◌≡◌, ◌+◌, ◌^◌, ◌<◌, ◌≤◌, List, [], ◌∷◌, ◌++◌, length, OnOk};
ghost use Rattle.tally.specs.declared.outcome.Outcome.{Outcome};
ghost use Rattle.tally.specs.Counting.{HasCounted};
ghost use Rattle.tally.specs.Tallies.{total_of};
ghost use Rattle.test_lang.specs.Signatures.{groups};
ghost use Rattle.test_lang.specs.Values.{load_count};
ghost use Rattle.signature_plan.specs.Outcomes.{outcome_of};
ghost use Rattle.mtrace_app.specs.Limits.{FitLimits};

use crate::limits::fit_limits;
use signature_plan::Plan;
use std::alloc::AllocError;
use tally::Counter;

/// Counts the outcome of a run, which makes so many of them, unless they pass the limits. `words` is where its signature stands on the way.
pub(crate) fn count_run(
    plan: &Plan,
    runs: u64,
    run: &[u32],
    words: &mut [u64],
    counter: &mut Counter,
) -> Result<(), AllocError>
    requires few { runs < 2 ^ 32 }
    requires loads { length run.now ≡ load_count plan.now }
    requires words { length words.old ≡ length (groups plan.now) }
    requires width { counter.old.width ≡ length (groups plan.now) }
    requires room { total_of counter.old.pairs < 2 ^ 32 }
    ensures counted { OnOk result (FitLimits runs (load_count plan.now) → (outcomes : List Outcome)
        → HasCounted outcomes counter.old → HasCounted (outcomes ++ outcome_of plan.now run.now ∷ []) counter.new) }
    ensures total { OnOk result (FitLimits runs (load_count plan.now) →
        total_of counter.new.pairs ≡ total_of counter.old.pairs + 1) }
    ensures most { OnOk result (total_of counter.new.pairs ≤ total_of counter.old.pairs + 1) }
    ensures width { OnOk result (counter.new.width ≡ counter.old.width) }
{
    if !fit_limits(runs, plan.loads() as u64) {
        return Ok(());
    }
    match plan.encode_into(run, words) {
        Ok(()) => counter.count(words),
        Err(outside) => counter.count_outside(outside.node, outside.value),
    }
}
