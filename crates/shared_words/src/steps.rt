//! The steps on the words. Each is one atomic step.
ghost use Rattle.std.specs.Prelude.{◌≡◌, ◌+◌, ◌<◌, ◌≤◌, ◌^◌, ◌∷◌, [], length, false};
ghost use Rattle.test_lang.specs.declared.op.Op.TheVariants.{Load, Store, Fence};
ghost use Rattle.test_lang.specs.Program.{op_count};
ghost use Rattle.test_lang.specs.Values.{value_of};
ghost use Rattle.shared_words.specs.Steps.{own, IsAlone, IsNext, next_node, passer, arriver};

use crate::rule::{Arrives, Loads, Looks, Passes, RaceRule, View};
use atomic_table::{Seat, Shared};
use test_lang::test::Test;

/// The words of a test, and behind them the arrivals.
pub(crate) type Words = Shared<u8, View, Test, RaceRule>;

/// The seat of a thread.
pub(crate) type RacerSeat = Seat<u8, View>;

/// One load of a word of the test.
pub(crate) fn load(words: &Words, seat: &mut RacerSeat, word: usize) -> u64
    requires table { (seat.old.table_id ≡ words.now.table_id) × (words.now.table_id.words ≡ words.now.key.words + 1) }
    requires word { (word < words.now.key.words) × (op_count words.now.key ≤ 2048) }
    requires alone { IsAlone seat.old.me }
    requires next { IsNext words.now.key (own seat.old.me.0) (Load word) }
    ensures same { (seat.new.table_id ≡ seat.old.table_id) × (seat.new.id ≡ seat.old.id) }
    ensures passed { seat.new.me ≡ (passer seat.old.me.0 (result ∷ []), []) }
    ensures small { result < 2 ^ 32 }
{
    words.load::<Loads>(seat, word)
}

/// One store to a word of the test.
pub(crate) fn store(words: &Words, seat: &mut RacerSeat, word: usize, value: u64)
    requires table { (seat.old.table_id ≡ words.now.table_id) × (words.now.table_id.words ≡ words.now.key.words + 1) }
    requires word { word < words.now.key.words }
    requires alone { IsAlone seat.old.me }
    requires next { IsNext words.now.key (own seat.old.me.0) (Store word) }
    requires value { value ≡ value_of words.now.key (next_node words.now.key (own seat.old.me.0)) }
    ensures same { (seat.new.table_id ≡ seat.old.table_id) × (seat.new.id ≡ seat.old.id) }
    ensures passed { seat.new.me ≡ (passer seat.old.me.0 [], []) }
{
    words.store::<Passes>(seat, word, value);
}

/// A fence: one load of the first word, whose value is thrown away.
pub(crate) fn fence(words: &Words, seat: &mut RacerSeat)
    requires table { (seat.old.table_id ≡ words.now.table_id) × (words.now.table_id.words ≡ words.now.key.words + 1) }
    requires alone { IsAlone seat.old.me }
    requires next { IsNext words.now.key (own seat.old.me.0) Fence }
    ensures same { (seat.new.table_id ≡ seat.old.table_id) × (seat.new.id ≡ seat.old.id) }
    ensures passed { seat.new.me ≡ (passer seat.old.me.0 [], []) }
{
    words.load::<Passes>(seat, 0);
}

/// Adds 1 to the arrivals.
pub(crate) fn arrive(words: &Words, seat: &mut RacerSeat, arrivals: usize)
    requires table { (seat.old.table_id ≡ words.now.table_id) × (words.now.table_id.words ≡ words.now.key.words + 1) }
    requires arrivals { (arrivals ≡ words.now.key.words) × (length words.now.key.threads ≤ 16) }
    requires alone { IsAlone seat.old.me }
    requires thread { ((own seat.old.me.0).number < length words.now.key.threads) × ((own seat.old.me.0).arrived ≡ false) }
    ensures same { (seat.new.table_id ≡ seat.old.table_id) × (seat.new.id ≡ seat.old.id) }
    ensures arrived { seat.new.me ≡ (arriver seat.old.me.0, []) }
{
    words.fetch_add::<Arrives>(seat, arrivals, 1);
}

/// One look at the arrivals.
pub(crate) fn look(words: &Words, seat: &mut RacerSeat, arrivals: usize) -> u64
    requires table { (seat.old.table_id ≡ words.now.table_id) × (words.now.table_id.words ≡ words.now.key.words + 1) }
    requires arrivals { arrivals ≡ words.now.key.words }
    ensures same { (seat.new.table_id ≡ seat.old.table_id) × (seat.new.id ≡ seat.old.id) × (seat.new.me ≡ seat.old.me) }
{
    words.load::<Looks>(seat, arrivals)
}
