//! Counts batches whole, or not at all.
ghost use Rattle.std.specs.Prelude.{◌≡◌, ◌+◌, ◌-◌, ◌^◌, ◌<◌, List, [], ◌∷◌, ◌++◌, length, OnOk, OnErr};
ghost use Rattle.tally.specs.declared.outcome.Outcome.{Outcome};
ghost use Rattle.tally.specs.Tallies.{IsTally, total_of};

use std::alloc::{AllocError, Global};
use tally::{Outcome, Tally};

/// Counts one more place of an equal outcome. `Err` means want of memory, and then the tally is as before.
fn count_one(alloc: Global, tally: &mut Tally, outcome: &Outcome) -> Result<(), AllocError>
    requires { total_of tally.old < 2 ^ 64 - 1 }
    ensures total { OnOk result (total_of tally.new ≡ total_of tally.old + 1) }
    ensures counted { OnOk result ((outcomes : List Outcome) → IsTally outcomes tally.old →
        IsTally (outcomes ++ outcome.now ∷ []) tally.new) }
    ensures refused { OnErr result (tally.new ≡ tally.old) }
{
    let copy = outcome.copy(alloc)?;
    match tally.add(copy) {
        Ok(()) => Ok(()),
        Err(_) => Err(AllocError),
    }
}

/// Takes the outcomes at the end of what was counted back, the last one first.
fn take_all_back(tally: &mut Tally, counted: &[Outcome])
    requires { (outcomes : List Outcome) × IsTally (outcomes ++ counted.now) tally.old }
    ensures { (outcomes : List Outcome) → IsTally (outcomes ++ counted.now) tally.old → IsTally outcomes tally.new }
{
    let mut left = counted;
    while let Some((last, others)) = left.split_last() {
        tally.take_back(last);
        left = others;
    }
}

/// Counts the outcomes of a batch behind those that were counted, all of them or none. `Err` means want of memory.
pub(crate) fn count_all(
    alloc: Global,
    tally: &mut Tally,
    batch: &[Outcome],
) -> Result<(), AllocError>
    requires stands { (outcomes : List Outcome) × IsTally outcomes tally.old }
    requires room { total_of tally.old + length batch.now < 2 ^ 64 }
    ensures counted { OnOk result ((outcomes : List Outcome) → IsTally outcomes tally.old →
        IsTally (outcomes ++ batch.now) tally.new) }
    ensures refused { OnErr result ((outcomes : List Outcome) → IsTally outcomes tally.old → IsTally outcomes tally.new) }
{
    for (counted, outcome) in batch.iter().enumerate() {
        if let Err(refused) = count_one(alloc, tally, outcome) {
            take_all_back(tally, &batch[..counted]);
            return Err(refused);
        }
    }
    Ok(())
}
