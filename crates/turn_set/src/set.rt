//! The set that passes add to.
ghost use Rattle.std.specs.Prelude.{◌≡◌, ◌<◌, ◌≤◌, ◌++◌, ◌∷◌, [], Some, ℕ, ◌⊎◌, OnOk, OnErr, IfOk, IfErr, slice_get, vec_len, pred};
ghost use Rattle.std.specs.Vec.{vec_capacity};
ghost use Rattle.tally.specs.Histories.{entries};
ghost use Rattle.turn_set.specs.Passes.{PassState, IsPassOf, AreAllOf, IsFresh, IsAdded, IsRefused, turned, missed_often, fresh_others};
ghost use Rattle.turn_set.specs.Rule.{maker_of};
ghost use Rattle.turn_set.specs.Steps.{book_in};

use crate::book::Book;
use crate::fault::AddFault;
use crate::pass::Pass;
use crate::rule::{Makes, Turn, View};
use crate::turn::{PassSeat, Turns, give_back, give_up, try_win};
use atomic_table::Table;
use mt_base::{Gate, OpenGate};
use std::alloc::{AllocError, Global};
use std::marker::Model;
use std::sync::Wait;
use std::thread;
use tally::Outcome;

/// The table of a set.
pub(crate) type Home = Table<Option<Book>, View, (), Turn, Global>;

/// A set of outcomes that passes add to, in turns. Threads share it by a reference, each with a pass of its own.
#[derive(Drop)]
pub struct SharedSet {
    pub(crate) table: Home,
    pub(crate) passes: u32,
}

impl Model for SharedSet {
    ghost use Rattle.std.specs.Prelude.{◌≡◌, ◌<◌};
    ghost use Rattle.turn_set.specs.Passes.{SetIdentity};

    ghost Value = { SetIdentity };

    ghost view = { λ s. record { table = s.table.shared.table_id; passes = s.passes } };

    ghost invariant = { λ s. (s.table.shared.table_id.words ≡ 1) × (s.table.shared.table_id.slots ≡ 1) × (0 < s.passes) };
}

impl SharedSet {
    /// An empty set for so many passes, and these, by rising number from 0. No pass is made later. `Err` means want of memory.
    pub fn new(alloc: Global, passes: u32) -> Result<(SharedSet, Vec<Pass>), AllocError>
        requires { (0 < passes) × (passes ≤ 64) }
        ensures passes { IfOk result (λ made. made.0.passes ≡ passes) }
        ensures all { IfOk result (λ made. AreAllOf made.0 made.1.items) }
        ensures fresh { IfOk result (λ made. (k : ℕ) (pass : PassState) → slice_get made.1.items k ≡ Some pass → IsFresh pass) }
    {
        let mut all: Vec<Pass> = Vec::with_capacity(alloc, passes as usize)?;
        let (table, mut seat) = home(alloc)?;
        deal(&table.shared, &mut seat, &mut all, passes);
        all.insert(0, Pass { number: 0, seat })?;
        Ok((SharedSet { table, passes }, all))
    }

    /// Makes one try to add the batch, and never waits. Where the turn was won, the gate is told so once, before the turn is given back.
    /// A batch that was refused is whole, and the book is as it was found.
    pub fn try_add<G: Gate>(
        &self,
        pass: &mut Pass,
        batch: &mut Vec<Outcome>,
        gate: &G,
    ) -> Result<(), AddFault>
        requires { IsPassOf self.now pass.old }
        ensures same { IsPassOf self.now pass.new × (pass.new.number ≡ pass.old.number) }
        ensures added { OnOk result (IsAdded pass.old batch.old.items pass.new × (batch.new.items ≡ [])) }
        ensures refused { IfErr result (λ fault. IsRefused fault pass.old pass.new × (batch.new.items ≡ batch.old.items)) }
    {
        let number = pass.number;
        if !try_win(&self.table.shared, &mut pass.seat, u64::from(number)) {
            return Err(AddFault::Busy);
        }
        gate.held(number);
        match add_to_book(&self.table.shared, &mut pass.seat, number, batch) {
            Ok(()) => {
                give_back(&self.table.shared, &mut pass.seat);
                Ok(())
            }
            Err(_) => {
                give_up(&self.table.shared, &mut pass.seat);
                Err(AddFault::Memory)
            }
        }
    }

    /// Tries until the turn is won, and adds the batch. `Err` means want of memory; the batch is whole then.
    pub fn add<R: Wait>(
        &self,
        rt: &R,
        pass: &mut Pass,
        batch: &mut Vec<Outcome>,
    ) -> Result<(), AllocError>
        requires { IsPassOf self.now pass.old }
        ensures same { IsPassOf self.now pass.new × (pass.new.number ≡ pass.old.number) }
        ensures added { OnOk result (((n : ℕ) × IsAdded (missed_often pass.old n) batch.old.items pass.new) × (batch.new.items ≡ [])) }
        ensures refused { OnErr result (((n : ℕ) × ((pass.new ≡ missed_often pass.old n) ⊎ (pass.new ≡ turned (missed_often pass.old n)))) × (batch.new.items ≡ batch.old.items)) }
    {
        for _ in rt.forever() {
            match self.try_add(pass, batch, &OpenGate) {
                Ok(()) => return Ok(()),
                Err(AddFault::Memory) => return Err(AllocError),
                Err(AddFault::Busy) => thread::yield_now(),
            }
        }
        unreachable!()
    }
}

/// The table with an empty book, and the seat of the pass 0.
fn home(alloc: Global) -> Result<(Home, PassSeat), AllocError>
    ensures table { IfOk result (λ r. (r.0.shared.table_id.words ≡ 1) × (r.0.shared.table_id.slots ≡ 1)) }
    ensures seat { IfOk result (λ r. (r.1.table_id ≡ r.0.shared.table_id) × (r.1.me ≡ (maker_of 1, []))) }
{
    let mut slots = Vec::with_capacity(alloc, 1)?;
    slots.push_reserved(Some(Book::new(alloc)));
    match Table::new(alloc, &[0], slots, &()) {
        Ok(made) => Ok(made),
        Err(_) => Err(AllocError),
    }
}

/// Makes the passes from 1 on, out of the seat of the pass 0.
fn deal(table: &Turns, first: &mut PassSeat, all: &mut Vec<Pass>, passes: u32)
    requires table { (first.old.table_id ≡ table.now.table_id) × (table.now.table_id.words ≡ 1) × (table.now.table_id.slots ≡ 1) }
    requires first { first.old.me ≡ (maker_of 1, []) }
    requires room { (0 < passes) × (all.old.items ≡ []) × (passes ≤ vec_capacity all.old) }
    ensures first { (first.new.table_id ≡ first.old.table_id) × (first.new.me ≡ (maker_of passes, [])) }
    ensures all { all.new.items ≡ fresh_others table.now.table_id (pred passes) }
{
    for k in 1..passes {
        let seat = table.split_seat::<Makes>(first);
        all.push_reserved(Pass { number: k, seat });
    }
}

/// Takes the book out of the slot that the seat holds, puts the batch at its end, and brings it back. Want of memory brings it back as it was.
fn add_to_book(
    table: &Turns,
    seat: &mut PassSeat,
    number: u32,
    batch: &mut Vec<Outcome>,
) -> Result<(), AllocError>
    requires table { seat.old.table_id ≡ table.now.table_id }
    requires holds { seat.old.me.1 ≡ (0, Some (book_in seat.old.me.1)) ∷ [] }
    ensures same { (seat.new.table_id ≡ seat.old.table_id) × (seat.new.id ≡ seat.old.id) }
    ensures added { OnOk result ((seat.new.me ≡ (seat.old.me.0, (0, Some (book_in seat.old.me.1 ++ entries number batch.old.items)) ∷ [])) × (batch.new.items ≡ [])) }
    ensures refused { OnErr result ((seat.new.me ≡ seat.old.me) × (batch.new.items ≡ batch.old.items)) }
{
    let held = table.exchange(seat, 0, None);
    let Some(mut book) = held else {
        unreachable!();
    };
    let added = book.add(number, batch);
    let _ = table.exchange(seat, 0, Some(book));
    added
}
