//! The book of a shared set.
ghost use Rattle.std.specs.Prelude.{◌≡◌, ℕ, ◌+◌, ◌≤◌, List, [], ◌++◌, OnOk, OnErr, length, vec_len};
ghost use Rattle.std.specs.Vec.{vec_capacity};
ghost use Rattle.tally.specs.Histories.{entries, StandsFor};

use crate::counting::count_all;
use std::alloc::{AllocError, Global};
use std::marker::Model;
use tally::{Entered, Outcome, Tally};

/// A history and its tally. Contracts see the history alone: the tally is always that of it.
#[derive(Drop)]
pub struct Book {
    alloc: Global,
    history: Vec<Entered>,
    tally: Tally,
}

impl Model for Book {
    ghost use Rattle.std.specs.Prelude.{List};
    ghost use Rattle.tally.specs.declared.entered.Entered.{Entered};
    ghost use Rattle.tally.specs.Histories.{StandsFor};

    ghost Value = { List Entered };

    ghost view = { λ b. b.history.items };

    ghost invariant = { λ b. StandsFor b.tally b.history.items };
}

impl Book {
    pub(crate) fn new(alloc: Global) -> Book
        ensures { result ≡ [] }
    {
        Book {
            alloc,
            history: Vec::new(alloc),
            tally: Tally::new(alloc),
        }
    }

    pub(crate) fn history(&self) -> &[Entered]
        ensures { result.now ≡ self.now }
    {
        self.history.as_slice()
    }

    pub(crate) fn tally(&self) -> &Tally
        ensures { StandsFor result.now self.now }
    {
        &self.tally
    }

    pub(crate) fn into_tally(self) -> Tally
        ensures { StandsFor result self }
    {
        self.tally
    }

    /// Puts the batch of a pass at the end, whole or not at all. `Err` means want of memory.
    pub(crate) fn add(&mut self, pass: u32, batch: &mut Vec<Outcome>) -> Result<(), AllocError>
        ensures added { OnOk result ((self.new ≡ self.old ++ entries pass batch.old.items) × (batch.new.items ≡ [])) }
        ensures refused { OnErr result ((self.new ≡ self.old) × (batch.new.items ≡ batch.old.items)) }
    {
        self.history.reserve(batch.len())?;
        count_all(self.alloc, &mut self.tally, batch.as_slice())?;
        enter_all(&mut self.history, pass, batch);
        Ok(())
    }
}

/// Moves the outcomes of a batch to the end of a history that has room for them.
fn enter_all(history: &mut Vec<Entered>, pass: u32, batch: &mut Vec<Outcome>)
    requires { vec_len history.old + vec_len batch.old ≤ vec_capacity history.old }
    ensures history { history.new.items ≡ history.old.items ++ entries pass batch.old.items }
    ensures batch { batch.new.items ≡ [] }
{
    for outcome in batch.drain(..) {
        history.push_reserved(Entered { pass, outcome });
    }
}
