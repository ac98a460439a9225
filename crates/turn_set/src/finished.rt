//! The set after all turns.
ghost use Rattle.std.specs.Prelude.{◌≡◌, ◌≢◌, ◌≤◌, ℕ, [], ◌++◌, map, length, slice_get, Some, false, OnOk, OnErr};
ghost use Rattle.tally.specs.Histories.{added_by, entries, BeginsWith, StandsFor};
ghost use Rattle.turn_set.specs.Passes.{PassState, AreAllOf, HasTakenIn};
ghost use Rattle.turn_set.specs.Rule.{HasEach, IsHistoryOf};

use crate::book::Book;
use crate::pass::Pass;
use crate::rule::Ends;
use crate::set::{Home, SharedSet};
use crate::turn::{PassSeat, Turns};
use std::alloc::AllocError;
use std::marker::Model;
use std::snapshot::Snapshot;
use tally::{Entered, Outcome, Tally};

/// The history of a set with its tally, after all turns. More may be put at its end.
/// Contracts see the history, how long it was when the set was finished, and how often each pass was told then that the turn was taken.
#[derive(Drop)]
pub struct Finished {
    book: Book,
    finished_length: usize,
    passes: Snapshot<Vec<Pass>>,
}

impl Model for Finished {
    ghost use Rattle.std.specs.Prelude.{map};
    ghost use Rattle.turn_set.specs.Passes.{PassState, FinishedState};

    ghost Value = { FinishedState };

    ghost view = { λ f. record {
      history = f.book;
      finished_length = f.finished_length;
      busy = map (λ (p : PassState). p.busy) f.passes.value.items;
    } };
}

/// The history of the set: what its passes added, and nothing else. `passes` are all passes of the set, by rising number. It takes no memory.
pub fn finish(set: SharedSet, mut passes: Vec<Pass>) -> Finished
    requires { AreAllOf set passes.items }
    ensures lists { (k : ℕ) (pass : PassState) → slice_get passes.items k ≡ Some pass → (added_by result.history k ≡ pass.list) × BeginsWith result.history pass.front }
    ensures others { (k : ℕ) → set.passes ≤ k → added_by result.history k ≡ [] }
    ensures kept { (result.finished_length ≡ length result.history) × (result.busy ≡ map (λ (p : PassState). p.busy) passes.items) }
{
    let kept = Snapshot::of(&passes);
    let SharedSet { table, passes: _ } = set;
    let Pass {
        number: _,
        mut seat,
    } = passes.remove(0);
    take_in(&table.shared, &mut seat, passes);
    let book = bring_home(table, seat);
    let finished_length = book.history().len();
    Finished {
        book,
        finished_length,
        passes: kept,
    }
}

impl Finished {
    /// Puts a batch at the end of the history, under the number of a pass, whole or not at all. `Err` means want of memory; the batch is whole then.
    pub fn put(&mut self, pass: u32, batch: &mut Vec<Outcome>) -> Result<(), AllocError>
        ensures same { (self.new.finished_length ≡ self.old.finished_length) × (self.new.busy ≡ self.old.busy) }
        ensures added { OnOk result ((self.new.history ≡ self.old.history ++ entries pass batch.old.items) × (batch.new.items ≡ [])) }
        ensures refused { OnErr result ((self.new.history ≡ self.old.history) × (batch.new.items ≡ batch.old.items)) }
    {
        self.book.add(pass, batch)
    }

    /// The tally of the history.
    pub fn tally(&self) -> &Tally
        ensures { StandsFor result.now self.now.history }
    {
        self.book.tally()
    }

    /// The tally of the history, which is given up.
    pub fn into_tally(self) -> Tally
        ensures { StandsFor result self.history }
    {
        self.book.into_tally()
    }

    /// The history: what was added, in the order of the turns, and behind it what was put.
    pub fn history(&self) -> &[Entered]
        ensures { result.now ≡ self.now.history }
    {
        self.book.history()
    }
}

/// Takes the passes into the seat of the pass 0.
fn take_in(table: &Turns, seat: &mut PassSeat, mut passes: Vec<Pass>)
    requires table { (seat.old.table_id ≡ table.now.table_id) × (table.now.table_id.words ≡ 1) }
    requires free { seat.old.me.0.holds ≡ false }
    requires others { (k : ℕ) (p : PassState) → slice_get passes.items k ≡ Some p → (p.table ≡ table.now.table_id) × (p.made ≡ 0) }
    ensures same { seat.new.table_id ≡ seat.old.table_id }
    ensures all { HasTakenIn seat.old.me.0 passes.items seat.new.me.0 }
{
    while let Some(pass) = passes.pop() {
        let Pass {
            number: _,
            seat: other,
        } = pass;
        table.join_seat::<Ends>(seat, other);
    }
}

/// The book, once all passes are in one seat.
fn bring_home(table: Home, seat: PassSeat) -> Book
    requires table { (seat.table_id ≡ table.shared.table_id) × (table.shared.table_id.words ≡ 1) × (table.shared.table_id.slots ≡ 1) }
    requires seat { (seat.me.0.holds ≡ false) × (seat.me.0.made ≢ 0) × HasEach seat.me.0 }
    ensures { IsHistoryOf seat.me.0 result }
{
    let mut closed = table.close_with(seat);
    let Some(book) = closed.take(0) else {
        unreachable!();
    };
    closed.free();
    book
}
