//! The steps on the turn word.
ghost use Rattle.std.specs.Prelude.{◌≡◌, ◌+◌, ◌<◌, ◌^◌, ◌++◌, ◌∷◌, [], true, false, Some, None, List, ℕ};
ghost use Rattle.std.specs.Bool.{OnTrue, OnFalse};
ghost use Rattle.tally.specs.declared.entered.Entered.{Entered};
ghost use Rattle.tally.specs.declared.outcome.Outcome.{Outcome};
ghost use Rattle.tally.specs.Histories.{added_by, entries, BeginsWith};
ghost use Rattle.turn_set.specs.Steps.{own, IsFree, winner, loser, added, returned, book_in};

use crate::book::Book;
use crate::rule::{Enters, Returns, Tries, Turn, View};
use atomic_table::{Seat, Shared};

/// The turn word, and the slot of the book.
pub(crate) type Turns = Shared<Option<Book>, View, (), Turn>;

/// The seat of a pass.
pub(crate) type PassSeat = Seat<Option<Book>, View>;

/// Tries once to win the turn. Where it is won, the book goes with the seat, whose view keeps its history.
pub(crate) fn try_win(table: &Turns, seat: &mut PassSeat, number: u64) -> bool
    requires table { (seat.old.table_id ≡ table.now.table_id) × (table.now.table_id.words ≡ 1) × (table.now.table_id.slots ≡ 1) }
    requires number { (number ≡ (own seat.old.me.0).number) × (number + 1 < 2 ^ 64) }
    requires free { IsFree seat.old.me }
    ensures same { (seat.new.table_id ≡ seat.old.table_id) × (seat.new.id ≡ seat.old.id) }
    ensures won { result ≡ true → (h : List Entered) × BeginsWith h (own seat.old.me.0).front × (added_by h number ≡ (own seat.old.me.0).list) × (seat.new.me ≡ (winner seat.old.me.0 h, (0, Some h) ∷ [])) }
    ensures lost { result ≡ false → seat.new.me ≡ (loser seat.old.me.0, []) }
{
    let found = table.compare_exchange::<Tries>(seat, 0, 0, number + 1);
    found == 0
}

/// Gives the turn back, with a batch at the end of the book.
pub(crate) fn give_back(table: &Turns, seat: &mut PassSeat)
    requires table { (seat.old.table_id ≡ table.now.table_id) × (table.now.table_id.words ≡ 1) × (table.now.table_id.slots ≡ 1) }
    requires holds { (seat.old.me.0.holds ≡ true) × (seat.old.me.0.parts ≡ own seat.old.me.0 ∷ []) × (seat.old.me.1 ≡ (0, Some (book_in seat.old.me.1)) ∷ []) }
    requires grown { (batch : List Outcome) × (book_in seat.old.me.1 ≡ seat.old.me.0.found ++ entries (own seat.old.me.0).number batch) }
    ensures same { (seat.new.table_id ≡ seat.old.table_id) × (seat.new.id ≡ seat.old.id) }
    ensures added { seat.new.me ≡ (added seat.old.me.0 (book_in seat.old.me.1), []) }
{
    table.store::<Enters>(seat, 0, 0);
}

/// Gives the turn back, with the book as it was found.
pub(crate) fn give_up(table: &Turns, seat: &mut PassSeat)
    requires table { (seat.old.table_id ≡ table.now.table_id) × (table.now.table_id.words ≡ 1) × (table.now.table_id.slots ≡ 1) }
    requires holds { (seat.old.me.0.holds ≡ true) × (seat.old.me.1 ≡ (0, Some seat.old.me.0.found) ∷ []) }
    ensures same { (seat.new.table_id ≡ seat.old.table_id) × (seat.new.id ≡ seat.old.id) }
    ensures returned { seat.new.me ≡ (returned seat.old.me.0, []) }
{
    table.store::<Returns>(seat, 0, 0);
}
