//! Counting the outcomes of very many runs, one after another.
ghost use Rattle.std.specs.Prelude.{◌≡◌, ℕ, ◌+◌, ◌-◌, ◌^◌, ◌<◌, ◌≤◌, List, [], ◌∷◌, ◌++◌, length, OnOk, OnErr, IfOk};
ghost use Rattle.tally.specs.declared.outcome.Outcome.{Outcome};
ghost use Rattle.tally.specs.Counting.{CanCount, HasCounted, all_rows, waiting_rows, with_rows};
ghost use Rattle.tally.specs.Tallies.{IsCounts, IsTally, total_of, with_more, with_one_more};

use crate::batch::Batch;
use crate::counts::Tally;
use crate::outcome::Outcome;
use crate::queue::Queue;
use crate::signature::Signature;
use std::alloc::{AllocError, Global};
use std::marker::Model;

/// Counts outcomes that come one after another, and gives their tally at the end.
/// All signatures that it is given have the same number of words, its width.
///
/// Signatures wait in a batch, where one that comes again is found by a hash and only raises a number. When the batch is full its
/// signatures are sorted and counted, each with its number: a search for each of them. Batches take memory for two lists of words and
/// one of places, which serve again, and otherwise only signatures that are new take any.
#[derive(Drop)]
pub struct Counter {
    alloc: Global,
    batch: Batch,
    /// The signatures of a full batch. It is empty, unless memory ran out while they were counted.
    queue: Queue,
    tally: Tally,
    probe: Outcome,
}

impl Model for Counter {
    ghost use Rattle.tally.specs.Counting.{CanCount, Counting, waiting_rows, with_rows};
    ghost use Rattle.std.specs.Prelude.{◌≡◌};

    ghost Value = { Counting };

    ghost view = { λ c. record {
      width = c.batch.width;
      pairs = with_rows c.tally (waiting_rows c.queue c.batch);
    } };

    ghost invariant = { λ c. CanCount c.tally (waiting_rows c.queue c.batch)
        × (c.queue.width ≡ c.batch.width) };
}

impl Counter {
    /// A counter of signatures of `width` words, which has counted nothing. It takes no memory.
    pub fn new(alloc: Global, width: usize) -> Counter
        ensures width { result.width ≡ width }
        ensures empty { result.pairs ≡ [] }
        ensures counted { HasCounted [] result }
    {
        Counter {
            alloc,
            batch: Batch::new(alloc, width),
            queue: Queue::new(alloc, width),
            tally: Tally::new(alloc),
            probe: Outcome::Outside { node: 0, value: 0 },
        }
    }

    /// How many words the signatures have.
    pub fn width(&self) -> usize
        ensures { result ≡ self.now.width }
    {
        self.batch.width()
    }

    /// How many outcomes were counted.
    pub fn total(&self) -> u64
        ensures { result ≡ total_of self.now.pairs }
    {
        self.tally.total() + self.queue.len() + self.batch.len()
    }

    /// Counts one more inside outcome, of the signature with these words.
    /// `Err` means want of memory, and then the counter stands for what it did.
    pub fn count(&mut self, words: &[u64]) -> Result<(), AllocError>
        requires room { total_of self.old.pairs < 2 ^ 64 - 1 }
        requires width { length words.now ≡ self.old.width }
        ensures width { self.new.width ≡ self.old.width }
        ensures added { OnOk result (self.new.pairs
            ≡ with_one_more self.old.pairs (Outcome.Inside words.now)) }
        ensures total { OnOk result (total_of self.new.pairs ≡ total_of self.old.pairs + 1) }
        ensures counted { OnOk result ((outcomes : List Outcome) → HasCounted outcomes self.old →
            HasCounted (outcomes ++ Outcome.Inside words.now ∷ []) self.new) }
        ensures refused { OnErr result (self.new ≡ self.old) }
    {
        self.make_room()?;
        self.batch.push(words)?;
        Ok(())
    }

    /// Counts one more outcome outside: this load, by its node, gave this value, of no candidate.
    /// `Err` means want of memory, and then the counter stands for what it did.
    pub fn count_outside(&mut self, node: u32, value: u32) -> Result<(), AllocError>
        requires room { total_of self.old.pairs < 2 ^ 64 - 1 }
        ensures width { self.new.width ≡ self.old.width }
        ensures added { OnOk result (self.new.pairs
            ≡ with_one_more self.old.pairs (Outcome.Outside node value)) }
        ensures total { OnOk result (total_of self.new.pairs ≡ total_of self.old.pairs + 1) }
        ensures counted { OnOk result ((outcomes : List Outcome) → HasCounted outcomes self.old →
            HasCounted (outcomes ++ Outcome.Outside node value ∷ []) self.new) }
        ensures refused { OnErr result (self.new ≡ self.old) }
    {
        let Ok(()) = self.tally.add(Outcome::Outside { node, value }) else {
            return Err(AllocError);
        };
        Ok(())
    }

    /// The tally of all outcomes that were counted. `Err` means want of memory.
    pub fn finish(self) -> Result<Tally, AllocError>
        ensures pairs { IfOk result (λ tally. tally ≡ self.pairs) }
        ensures counted { IfOk result (λ tally. (outcomes : List Outcome) →
            HasCounted outcomes self → IsTally outcomes tally) }
    {
        let Counter {
            alloc,
            mut batch,
            mut queue,
            mut tally,
            mut probe,
        } = self;
        empty_batch(alloc, &mut batch, &mut queue, &mut tally, &mut probe)?;
        Ok(tally)
    }

    /// Empties the batch if it is full. `Err` means want of memory.
    fn make_room(&mut self) -> Result<(), AllocError>
        ensures { self.new ≡ self.old }
    {
        if self.batch.is_full() {
            empty_batch(
                self.alloc,
                &mut self.batch,
                &mut self.queue,
                &mut self.tally,
                &mut self.probe,
            )?;
        }
        Ok(())
    }
}

/// Counts the rows of the queue and of the batch, each as often as it waits, and empties both.
/// `Err` means want of memory; then the rows that weren't counted wait on.
fn empty_batch(
    alloc: Global,
    batch: &mut Batch,
    queue: &mut Queue,
    tally: &mut Tally,
    probe: &mut Outcome,
) -> Result<(), AllocError>
    requires can { CanCount tally.old (waiting_rows queue.old batch.old) }
    requires width { queue.old.width ≡ batch.old.width }
    ensures sound { CanCount tally.new (waiting_rows queue.new batch.new) }
    ensures width { queue.new.width ≡ queue.old.width }
    ensures batch_width { batch.new.width ≡ batch.old.width }
    ensures same { with_rows tally.new (waiting_rows queue.new batch.new)
        ≡ with_rows tally.old (waiting_rows queue.old batch.old) }
    ensures emptied { OnOk result (queue.new.rows ≡ []) }
    ensures batch_emptied { OnOk result (batch.new.rows ≡ []) }
{
    count_queue(alloc, queue, tally, probe)?;
    queue.take_rows(batch)?;
    count_queue(alloc, queue, tally, probe)
}

/// Counts the rows of the queue, each as often as it waits, and empties it.
/// `Err` means want of memory; then the rows that weren't counted wait on.
fn count_queue(
    alloc: Global,
    queue: &mut Queue,
    tally: &mut Tally,
    probe: &mut Outcome,
) -> Result<(), AllocError>
    requires { CanCount tally.old (all_rows queue.old.rows) }
    ensures sound { CanCount tally.new (all_rows queue.new.rows) }
    ensures width { queue.new.width ≡ queue.old.width }
    ensures same { with_rows tally.new (all_rows queue.new.rows)
        ≡ with_rows tally.old (all_rows queue.old.rows) }
    ensures emptied { OnOk result (queue.new.rows ≡ []) }
{
    while let Some((row, times)) = queue.last() {
        count_row(alloc, tally, probe, row, times)?;
        queue.pop();
    }
    Ok(())
}

/// Counts so many more places of the signature with these words. It takes memory only for one that is new.
fn count_row(
    alloc: Global,
    tally: &mut Tally,
    probe: &mut Outcome,
    words: &[u64],
    times: u64,
) -> Result<(), AllocError>
    requires counts { IsCounts tally.old }
    requires room { total_of tally.old + times < 2 ^ 64 }
    requires some { 1 ≤ times }
    ensures added { OnOk result (tally.new ≡ with_more tally.old (Outcome.Inside words.now) times) }
    ensures refused { OnErr result (tally.new ≡ tally.old) }
    ensures counts { IsCounts tally.new }
{
    probe.set_inside(alloc, words)?;
    if tally.raise(probe, times) {
        return Ok(());
    }
    let signature = Signature::of(alloc, words)?;
    match tally.add_times(Outcome::Inside(signature), times) {
        Ok(()) => Ok(()),
        Err(_) => Err(AllocError),
    }
}
