//! Rows of words in the order in which they are counted.
ghost use Rattle.std.specs.Prelude.{◌≡◌, ◌-◌, ◌<◌, ◌↔◌, [], length, take, IsNone, IsPermutation, IfSome, OnOk, OnErr, slice_index_or};
ghost use Rattle.tally.specs.Counting.{EndsWith, all_rows};

use crate::batch::Batch;
use crate::place::{Place, compare, row_at};
use std::alloc::{AllocError, Global};
use std::marker::Model;

/// Rows of `width` words each, and how often each waits: those of a batch, of which the last is counted first.
/// Its memory serves again for the rows of the next batch.
#[derive(Drop)]
pub(crate) struct Queue {
    width: usize,
    words: Vec<u64>,
    places: Vec<Place>,
    /// How many rows wait in all.
    len: u64,
}

impl Model for Queue {
    ghost use Rattle.tally.specs.Counting.{Waiting};

    ghost Value = { Waiting };

    ghost use Rattle.tally.specs.Rows.{Holds, rows_at};

    ghost view = { λ q. record {
      width = q.width;
      rows = rows_at q.words.items q.width q.places.items;
    } };

    ghost invariant = { λ q. Holds q.words.items q.width q.places.items q.len };
}

impl Queue {
    pub(crate) fn new(alloc: Global, width: usize) -> Queue
        ensures width { result.width ≡ width }
        ensures empty { result.rows ≡ [] }
    {
        Queue {
            width,
            words: Vec::new(alloc),
            places: Vec::new(alloc),
            len: 0,
        }
    }

    /// Takes the rows of a batch, which is empty then. `Err` means want of memory, and both are as before.
    pub(crate) fn take_rows(&mut self, batch: &mut Batch) -> Result<(), AllocError>
        requires empty { self.old.rows ≡ [] }
        requires width { self.old.width ≡ batch.old.width }
        ensures width { self.new.width ≡ self.old.width }
        ensures batch_width { batch.new.width ≡ batch.old.width }
        ensures taken { OnOk result (IsPermutation batch.old.rows self.new.rows) }
        ensures emptied { OnOk result (batch.new.rows ≡ []) }
        ensures refused { OnErr result (self.new ≡ self.old) }
        ensures batch_refused { OnErr result (batch.new ≡ batch.old) }
    {
        self.len = batch.hand_over(&mut self.words, &mut self.places)?;
        self.sort();
        Ok(())
    }

    /// Puts the rows in order, in time of n log n comparisons. Only the speed of counting them rests on the order.
    fn sort(&mut self)
        ensures width { self.new.width ≡ self.old.width }
        ensures permutation { IsPermutation self.old.rows self.new.rows }
    {
        let words = self.words.as_slice();
        let width = self.width;
        self.places
            .sort_unstable_by(|left, right| compare(words, width, left, right));
    }

    /// The last row, and how often it waits. None exactly where there is no row.
    pub(crate) fn last(&self) -> Option<(&[u64], u64)>
        ensures empty { IsNone result ↔ (self.now.rows ≡ []) }
        ensures last { IfSome result (λ last. EndsWith self.now.rows last.0.now last.1) }
    {
        let last = self.places.len().checked_sub(1)?;
        Some((self.row(last), self.places[last].times))
    }

    /// How many rows wait in all.
    pub(crate) fn len(&self) -> u64
        ensures { result ≡ length (all_rows self.now.rows) }
    {
        self.len
    }

    /// Drops the last row, however often it waits.
    pub(crate) fn pop(&mut self)
        ensures width { self.new.width ≡ self.old.width }
        ensures dropped { self.new.rows ≡ take (length self.old.rows - 1) self.old.rows }
    {
        if let Some(place) = self.places.pop() {
            self.len -= place.times;
        }
    }

    fn row(&self, index: usize) -> &[u64]
        requires { index < length self.now.rows }
        ensures { result.now ≡ (slice_index_or self.now.rows index (result.now, 0)).0 }
    {
        row_at(&self.words, self.width, self.places[index].start)
    }
}
