//! A race: its table, its threads and its run.
ghost use Rattle.std.specs.Prelude.{◌≡◌, ◌+◌, ◌<◌, ◌≤◌, ◌∷◌, [], ℕ, IfOk, length, vec_len};
ghost use Rattle.std.specs.List.{flat_map};
ghost use Rattle.test_lang.specs.declared.op.MemModel.{MemModel};
ghost use Rattle.test_lang.specs.Edges.{IsRunAcyclic};
ghost use Rattle.test_lang.specs.Program.{op_count};
ghost use Rattle.test_lang.specs.Runs.{IsInside};
ghost use Rattle.shared_words.specs.declared.racer.Task.{Task};
ghost use Rattle.shared_words.specs.Interleavings.{IsInterleaved};
ghost use Rattle.shared_words.specs.Rule.{maker_of, IsReachedBy};
ghost use Rattle.shared_words.specs.Tasks.{AreReady, HaveRun, HasEach};

use crate::racer::{Racer, Task};
use crate::rule::{Ends, Makes, RaceRule, View};
use crate::run::run_thread;
use crate::steps::{RacerSeat, Words};
use atomic_table::Table;
use mt_base::Gate;
use std::alloc::{AllocError, Global};
use std::thread::{self, Threads};
use test_lang::plays::done_plays_raise_no_alarm;
use test_lang::test::Test;

/// The table of a race.
type Home = Table<u8, View, Test, RaceRule, Global>;

/// So many words, all 0, and the seat of the thread 0.
fn home(alloc: Global, words: usize, test: &Test) -> Result<(Home, RacerSeat), AllocError>
    requires { words ≡ test.now.words + 1 }
    ensures table { IfOk result (λ r. (r.0.shared.table_id.words ≡ words) × (r.0.shared.table_id.slots ≡ 0) × (r.0.shared.key ≡ test.now)) }
    ensures seat { IfOk result (λ r. (r.1.table_id ≡ r.0.shared.table_id) × (r.1.me ≡ (maker_of 1, []))) }
{
    let zeros = Vec::from_elem(alloc, 0, words)?;
    Table::of_words(alloc, zeros.as_slice(), test)
}

/// Makes the threads from 1 on out of the seat of the thread 0, each with room for its values.
fn deal(
    alloc: Global,
    words: &Words,
    test: &Test,
    mut first: RacerSeat,
) -> Result<Vec<Task>, AllocError>
    requires table { (first.table_id ≡ words.now.table_id) × (0 < words.now.table_id.words) }
    requires first { first.me ≡ (maker_of 1, []) }
    requires thread { 0 < length test.now.threads }
    ensures { IfOk result (λ tasks. (vec_len tasks ≡ length test.now.threads) × AreReady words.now.table_id test.now tasks.items) }
{
    let threads = test.threads();
    let mut tasks = Vec::with_capacity(alloc, threads as usize)?;
    for number in 1..threads {
        let values = Vec::with_capacity(alloc, test.len_of(number) as usize)?;
        let seat = words.split_seat::<Makes>(&mut first);
        let racer = Racer { number, seat };
        tasks.push_reserved(Task { racer, values });
    }
    let values = Vec::with_capacity(alloc, test.len_of(0) as usize)?;
    let racer = Racer {
        number: 0,
        seat: first,
    };
    tasks.insert(0, Task { racer, values })?;
    Ok(tasks)
}

/// Each thread runs.
fn run_threads<G: Gate + Sync, R: Threads + Sync>(
    rt: &R,
    words: &Words,
    test: &Test,
    tasks: Vec<Task>,
    gate: &G,
) -> Result<Vec<Task>, AllocError>
    requires table { (words.now.table_id.words ≡ words.now.key.words + 1) × (words.now.key ≡ test.now) }
    requires limit { op_count test.now ≤ 2048 }
    requires ready { (vec_len tasks ≡ length test.now.threads) × AreReady words.now.table_id test.now tasks.items }
    ensures { IfOk result (λ done. (vec_len done ≡ length test.now.threads) × HaveRun words.now.table_id test.now done.items) }
{
    thread::map_vec(rt, tasks, &|task| run_thread(words, test, task, gate))
}

/// Takes all threads into the seat of the thread 0, and puts their values in a row into the run, which is empty.
fn gather(
    words: &Words,
    test: &Test,
    mut tasks: Vec<Task>,
    run: &mut Vec<u32>,
) -> Result<RacerSeat, AllocError>
    requires table { 0 < words.now.table_id.words }
    requires ran { (0 < vec_len tasks) × HaveRun words.now.table_id test.now tasks.items }
    requires run { run.old.items ≡ [] }
    ensures seat { IfOk result (λ seat. (seat.table_id ≡ words.now.table_id) × HasEach seat.me.0 tasks.items) }
    ensures run { IfOk result (λ _. run.new.items ≡ flat_map (λ (task : Task). task.values.items) tasks.items) }
{
    let Task { racer, values } = tasks.remove(0);
    let Racer {
        number: _,
        mut seat,
    } = racer;
    run.extend_from_slice(values.as_slice())?;
    for task in tasks {
        let Task { racer, values } = task;
        let Racer {
            number: _,
            seat: other,
        } = racer;
        words.join_seat::<Ends>(&mut seat, other);
        run.extend_from_slice(values.as_slice())?;
    }
    Ok(seat)
}

/// Some play leads to what the seat knows.
fn settle(table: Home, seat: RacerSeat)
    requires table { (seat.table_id ≡ table.shared.table_id) × (table.shared.table_id.slots ≡ 0) }
    ensures { IsReachedBy table.shared.key seat.me.0 }
{
    let closed = table.close_with(seat);
    closed.free();
}

/// Lets the threads of a test race on words that all have 0 at the beginning, each thread in one of its own, and answers the run: a value for each load, by rank.
///
/// Thread t calls `gate.at(t, 0)`, arrives, and looks at most 10,000 times whether all have arrived. Then it does its operations, each by one atomic step on one table:
/// a load of the word, a store of the value of its node, and for a fence of any kind a load of word 0 whose value is thrown away. `Err` means want of memory.
/// Which interleaving it is, and that the threads overlap, no clause says.
pub fn race<G: Gate + Sync, R: Threads + Sync>(
    rt: &R,
    alloc: Global,
    test: &Test,
    gate: &G,
) -> Result<Vec<u32>, AllocError>
    requires { 0 < length test.now.threads }
    ensures interleaved { IfOk result (λ run. IsInterleaved test.now run.items) }
    ensures inside { IfOk result (λ run. IsInside test.now run.items) }
    ensures acyclic { IfOk result (λ run. (model : MemModel) → IsRunAcyclic model test.now run.items) }
{
    let mut run = Vec::with_capacity(alloc, test.loads() as usize)?;
    let words = test.words() as usize + 1;
    let (table, first) = home(alloc, words, test)?;
    let tasks = deal(alloc, &table.shared, test, first)?;
    let done = run_threads(rt, &table.shared, test, tasks, gate)?;
    let seat = gather(&table.shared, test, done, &mut run)?;
    settle(table, seat);
    done_plays_raise_no_alarm();
    Ok(run)
}
