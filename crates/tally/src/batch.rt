//! Rows of words that wait to be counted, equal ones together as far as guesses lead.
ghost use Rattle.std.specs.Prelude.{◌≡◌, ℕ, ◌+◌, ◌-◌, ◌*◌, ◌^◌, ◌<◌, ◌≤◌, List, [], ◌∷◌, ◌++◌, length, All, IsPermutation, IfOk, OnOk, OnErr, slice_index_or};
ghost use Rattle.std.specs.Bool.{OnTrue};
ghost use Rattle.tally.specs.Counting.{all_rows};
ghost use Rattle.tally.specs.Rows.{FitsIn, HasRoomAt, Holds, rows_at, rows_in};

use crate::guesses::{Guesses, NONE, WAYS, hash};
use crate::place::{Place, row_at};
use std::alloc::{AllocError, Global};
use std::marker::Model;
use std::mem::{replace, swap};

/// So many rows fill a batch: as many as guesses tell apart.
const ROWS: usize = NONE as usize;

/// So many words fill a batch, however few rows they make.
const WORDS: usize = 1 << 18;

/// A list of rows of `width` words each, and how often each waits. Its memory serves again, that of the words by turns with a queue's.
#[derive(Drop)]
pub(crate) struct Batch {
    width: usize,
    /// The words of the first row, then those of the second, and so on.
    words: Vec<u64>,
    /// How often each row waits. It is read and written at each row that comes again, so it is small.
    times: Vec<u32>,
    /// Where rows stand.
    guesses: Guesses,
    /// How many rows wait in all.
    len: u64,
}

impl Model for Batch {
    ghost use Rattle.tally.specs.Counting.{Waiting};

    ghost Value = { Waiting };

    ghost use Rattle.tally.specs.Rows.{Fills, rows_in};

    ghost view = { λ b. record {
      width = b.width;
      rows = rows_in b.words.items b.width b.times.items;
    } };

    ghost invariant = { λ b. Fills b.words.items b.width b.times.items b.len };
}

impl Batch {
    pub(crate) fn new(alloc: Global, width: usize) -> Batch
        ensures width { result.width ≡ width }
        ensures empty { result.rows ≡ [] }
    {
        Batch {
            width,
            words: Vec::new(alloc),
            times: Vec::new(alloc),
            guesses: Guesses::new(alloc),
            len: 0,
        }
    }

    /// Whether it has so many rows or words that it is time to empty it.
    pub(crate) fn is_full(&self) -> bool {
        self.times.len() >= ROWS || self.words.len() >= WORDS
    }

    /// Lets a row wait. `Err` means want of memory, and the rows stay.
    pub(crate) fn push(&mut self, row: &[u64]) -> Result<(), AllocError>
        requires width { length row.now ≡ self.old.width }
        requires room { length (all_rows self.old.rows) + 1 < 2 ^ 64 }
        ensures width { self.new.width ≡ self.old.width }
        ensures pushed { OnOk result
            (IsPermutation (all_rows self.old.rows ++ row.now ∷ []) (all_rows self.new.rows)) }
        ensures refused { OnErr result (self.new ≡ self.old) }
    {
        let hash = hash(row);
        match self.find(row, hash) {
            Ok(place) => self.raise(place),
            Err(way) => {
                self.guesses.set(hash, way, self.times.len())?;
                self.push_new(row)?;
            }
        }
        Ok(())
    }

    /// Where the row stands and can wait once more, if a guess leads there, and otherwise the way on which it is guessed from now on.
    fn find(&self, row: &[u64], hash: u64) -> Result<usize, usize>
        requires { length row.now ≡ self.now.width }
        ensures { IfOk result (λ place. HasRoomAt self.now.rows place row.now) }
    {
        'ways: for way in 0..WAYS {
            let Some(place) = self.guesses.at(hash, way) else {
                return Err(way);
            };
            if self.has_room_at(place, row) {
                return Ok(place);
            }
        }
        Err(0)
    }

    /// Whether the row stands at the place, and can wait there once more.
    fn has_room_at(&self, place: usize, row: &[u64]) -> bool
        requires { length row.now ≡ self.now.width }
        ensures { OnTrue result (HasRoomAt self.now.rows place row.now) }
    {
        if self.times.len() <= place {
            return false;
        }
        let start = place * self.width;
        &self.words[start..start + self.width] == row && self.times[place] < u32::MAX
    }

    /// Lets the row at a place wait once more.
    fn raise(&mut self, place: usize)
        requires within { place < length self.old.rows }
        requires fits { (slice_index_or self.old.rows place ([], 0)).1 + 1 < 2 ^ 32 }
        requires room { length (all_rows self.old.rows) + 1 < 2 ^ 64 }
        ensures width { self.new.width ≡ self.old.width }
        ensures raised { (row : List ℕ) → (slice_index_or self.old.rows place (row, 0)).0 ≡ row
            → IsPermutation (all_rows self.old.rows ++ row ∷ []) (all_rows self.new.rows) }
    {
        self.times[place] += 1;
        self.len += 1;
    }

    /// Puts a row at the end, which waits once. `Err` means want of memory, and the rows stay.
    fn push_new(&mut self, row: &[u64]) -> Result<(), AllocError>
        requires width { length row.now ≡ self.old.width }
        requires room { length (all_rows self.old.rows) + 1 < 2 ^ 64 }
        ensures width { self.new.width ≡ self.old.width }
        ensures pushed { OnOk result (all_rows self.new.rows
            ≡ all_rows self.old.rows ++ row.now ∷ []) }
        ensures refused { OnErr result (self.new ≡ self.old) }
    {
        let before = self.words.len();
        self.words.extend_from_slice(row)?;
        if self.times.push(1).is_err() {
            self.words.truncate(before);
            return Err(AllocError);
        }
        self.len += 1;
        Ok(())
    }

    /// How many words each row has.
    pub(crate) fn width(&self) -> usize
        ensures { result ≡ self.now.width }
    {
        self.width
    }

    /// How many rows wait in all.
    pub(crate) fn len(&self) -> u64
        ensures { result ≡ length (all_rows self.now.rows) }
    {
        self.len
    }

    /// Hands its rows over, which stand at the places among the words then, and tells how many wait in all. It takes the memory of
    /// the words that were there in exchange. `Err` means want of memory, and everything is as before.
    pub(crate) fn hand_over(
        &mut self,
        words: &mut Vec<u64>,
        places: &mut Vec<Place>,
    ) -> Result<u64, AllocError>
        requires { places.old.items ≡ [] }
        ensures width { self.new.width ≡ self.old.width }
        ensures rows { OnOk result
            (rows_at words.new.items self.old.width places.new.items ≡ self.old.rows) }
        ensures holds { IfOk result (Holds words.new.items self.old.width places.new.items) }
        ensures emptied { OnOk result (self.new.rows ≡ []) }
        ensures refused { OnErr result (self.new ≡ self.old) }
        ensures words { OnErr result (words.new.items ≡ words.old.items) }
        ensures places { OnErr result (places.new.items ≡ []) }
    {
        if push_places(&self.words, self.width, &self.times, places).is_err() {
            places.clear();
            return Err(AllocError);
        }
        swap(&mut self.words, words);
        self.words.clear();
        self.times.clear();
        self.guesses.clear();
        Ok(replace(&mut self.len, 0))
    }
}

/// Lists where rows begin that stand one after another, and how often each waits. `Err` means want of memory; then some are listed.
fn push_places(
    words: &[u64],
    width: usize,
    times: &[u32],
    places: &mut Vec<Place>,
) -> Result<(), AllocError>
    requires empty { places.old.items ≡ [] }
    requires whole { length words.now ≡ length times.now * width }
    requires some { All (λ n. 1 ≤ n) times.now }
    ensures rows { OnOk result
        (rows_at words.now width places.new.items ≡ rows_in words.now width times.now) }
    ensures fits { OnOk result (All (FitsIn words.now width) places.new.items) }
    ensures some { OnOk result (All (λ place. 1 ≤ place.times) places.new.items) }
{
    for (index, times) in times.iter().enumerate() {
        let start = index * width;
        let row = row_at(words, width, start);
        places.push(Place {
            first_word: row.first().copied().unwrap_or(0),
            start,
            times: u64::from(*times),
        })?;
    }
    Ok(())
}
