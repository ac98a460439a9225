//! What a thread of a race does.
ghost use Rattle.std.specs.Prelude.{◌≡◌, ◌+◌, ◌-◌, ◌<◌, ◌≤◌, [], true, false, length};
ghost use Rattle.std.specs.Vec.{vec_capacity};
ghost use Rattle.test_lang.specs.Program.{op_count, thread_length};
ghost use Rattle.shared_words.specs.Steps.{own, IsAlone, arriver};

use crate::racer::{Racer, Task};
use crate::steps::{RacerSeat, Words, arrive, fence, load, look, store};
use mt_base::Gate;
use test_lang::op::Op;
use test_lang::test::Test;

/// How often a thread looks whether all have arrived.
const LOOKS: u32 = 10_000;

/// Arrives, and waits a while for the others.
fn meet(words: &Words, seat: &mut RacerSeat, test: &Test)
    requires table { (seat.old.table_id ≡ words.now.table_id) × (words.now.table_id.words ≡ words.now.key.words + 1) × (words.now.key ≡ test.now) }
    requires alone { IsAlone seat.old.me }
    requires thread { ((own seat.old.me.0).number < length test.now.threads) × ((own seat.old.me.0).arrived ≡ false) }
    ensures same { seat.new.table_id ≡ seat.old.table_id }
    ensures arrived { seat.new.me ≡ (arriver seat.old.me.0, []) }
{
    let arrivals = test.words() as usize;
    let threads = u64::from(test.threads());
    arrive(words, seat, arrivals);
    for _ in 0..LOOKS {
        if look(words, seat, arrivals) >= threads {
            break;
        }
    }
}

/// Does all operations of the thread.
fn do_all(words: &Words, seat: &mut RacerSeat, test: &Test, number: u32, values: &mut Vec<u32>)
    requires table { (seat.old.table_id ≡ words.now.table_id) × (words.now.table_id.words ≡ words.now.key.words + 1) × (words.now.key ≡ test.now) }
    requires alone { IsAlone seat.old.me × (number ≡ (own seat.old.me.0).number) }
    requires new { ((own seat.old.me.0).passed ≡ 0) × ((own seat.old.me.0).values ≡ []) }
    requires limit { op_count test.now ≤ 2048 }
    requires room { (number < length test.now.threads) × (values.old.items ≡ []) × (thread_length test.now number ≤ vec_capacity values.old) }
    ensures same { (seat.new.table_id ≡ seat.old.table_id) × (seat.new.me.0.made ≡ seat.old.me.0.made) × IsAlone seat.new.me }
    ensures kept { ((own seat.new.me.0).number ≡ number) × ((own seat.new.me.0).arrived ≡ (own seat.old.me.0).arrived) }
    ensures done { ((own seat.new.me.0).passed ≡ thread_length test.now number) × ((own seat.new.me.0).values ≡ values.new.items) }
{
    let first = test.first_of(number);
    for place in 0..test.len_of(number) {
        let node = first + place;
        match test.op(node) {
            Op::Load { word } => {
                let value = load(words, seat, word as usize);
                values.push_reserved(value as u32);
            }
            Op::Store { word } => {
                let value = u64::from(test.value_of(node));
                store(words, seat, word as usize, value);
            }
            Op::Fence => fence(words, seat),
        }
    }
}

/// A thread's part in the race.
pub(crate) fn run_thread<G: Gate>(words: &Words, test: &Test, task: Task, gate: &G) -> Task
    requires table { (task.racer.table ≡ words.now.table_id) × (words.now.table_id.words ≡ words.now.key.words + 1) × (words.now.key ≡ test.now) }
    requires racer { (task.racer.number < length test.now.threads) × (task.racer.arrived ≡ false) × (task.racer.passed ≡ 0) × (task.racer.values ≡ []) }
    requires limit { op_count test.now ≤ 2048 }
    requires room { (task.values.items ≡ []) × (thread_length test.now task.racer.number ≤ vec_capacity task.values) }
    ensures same { (result.racer.table ≡ task.racer.table) × (result.racer.made ≡ task.racer.made) × (result.racer.number ≡ task.racer.number) }
    ensures done { (result.racer.arrived ≡ true) × (result.racer.passed ≡ thread_length test.now task.racer.number) × (result.racer.values ≡ result.values.items) }
{
    let Task { racer, mut values } = task;
    let Racer { number, mut seat } = racer;
    gate.at(number, 0);
    meet(words, &mut seat, test);
    do_all(words, &mut seat, test, number, &mut values);
    Task {
        racer: Racer { number, seat },
        values,
    }
}
