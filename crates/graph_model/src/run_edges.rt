//! The edges of a run.
ghost use Rattle.std.specs.Prelude.{◌≡◌, ℕ, ◌+◌, ◌<◌, ◌≤◌, ◌&&◌, ◌||◌, ◌↔◌, nat_lt, IsTrue, Some};
ghost use Rattle.test_lang.specs.EdgeList.{is_before_any, is_before_later, is_edge, is_reads_from, is_written_before};
ghost use Rattle.test_lang.specs.Edges.{Edge};
ghost use Rattle.test_lang.specs.Program.{first_node, op_count, thread_at, thread_length};
ghost use Rattle.test_lang.specs.Runs.{IsInside, value_read};
ghost use Rattle.test_lang.specs.Values.{is_load_at, one_word, same_thread};

use crate::kept_order::{is_load, is_store, kept, same_word};
use test_lang::op::{MemModel, Op};
use test_lang::test::Test;

/// The value that a load gives in the run.
pub(crate) fn value_of_load(test: &Test, run: &[u32], load: u32) -> u32
    requires inside { IsInside test.now run.now }
    requires is_load { IsTrue (is_load_at test.now load) }
    ensures { result ≡ value_read test.now run.now load }
{
    run[test.rank_of(load) as usize]
}

/// Whether `to` is a load that gives the value of the store `from` of another thread.
fn reads_from(test: &Test, run: &[u32], from: u32, to: u32) -> bool
    requires inside { IsInside test.now run.now }
    requires first { from < op_count test.now }
    requires second { to < op_count test.now }
    ensures { result ≡ is_reads_from test.now run.now from to }
{
    match (test.op(from), test.op(to)) {
        (Op::Store { .. }, Op::Load { .. }) => {
            value_of_load(test, run, to) == test.value_of(from)
                && test.thread_of(from) != test.thread_of(to)
        }
        _ => false,
    }
}

/// Whether `later` is a later operation of the store's thread, on the same word.
fn is_later(test: &Test, store: u32, later: u32) -> bool
    requires first { store < op_count test.now }
    requires second { later < op_count test.now }
    ensures { result ≡ (same_thread test.now store later && (nat_lt store later && one_word test.now store later)) }
{
    test.thread_of(store) == test.thread_of(later)
        && store < later
        && same_word(test.op(store), test.op(later))
}

/// Whether `from` is a load, and `to` a store that is known to be later than what the load gives: later in the thread of the store whose value
/// it gives, or any store to its word where it gives the initial value.
pub(crate) fn comes_before(test: &Test, run: &[u32], from: u32, to: u32) -> bool
    requires inside { IsInside test.now run.now }
    requires first { from < op_count test.now }
    requires second { to < op_count test.now }
    ensures { result ≡ (is_before_later test.now run.now from to || is_before_any test.now run.now from to) }
{
    let first = test.op(from);
    let second = test.op(to);
    if !is_load(first) {
        return false;
    }
    if !is_store(second) {
        return false;
    }
    let value = value_of_load(test, run, from);
    if value == 0 {
        same_word(first, second)
    } else {
        is_later(test, test.store_of(value), to)
    }
}

/// The node behind the last one of the node's thread.
fn thread_end(test: &Test, node: u32) -> u32
    requires { node < op_count test.now }
    ensures within { result ≤ op_count test.now }
    ensures end { (thread : ℕ) → thread_at test.now node ≡ Some thread →
        result ≡ first_node test.now thread + thread_length test.now thread }
{
    let threads = test.threads();
    let next = test.thread_of(node) + 1;
    if next < threads {
        test.first_of(next)
    } else {
        test.ops()
    }
}

/// Whether a load gives the value of the store `to` of another thread, and `from` is the last store to its word before the load in the load's own
/// thread.
fn written_before(test: &Test, run: &[u32], from: u32, to: u32) -> bool
    requires inside { IsInside test.now run.now }
    requires first { from < op_count test.now }
    requires second { to < op_count test.now }
    ensures { result ≡ is_written_before test.now run.now from to }
{
    let first = test.op(from);
    if !is_store(first) || !is_store(test.op(to)) {
        return false;
    }
    if test.thread_of(from) == test.thread_of(to) {
        return false;
    }
    let value = test.value_of(to);
    let end = thread_end(test, from);
    for node in from + 1..end {
        let op = test.op(node);
        if same_word(first, op) {
            // Behind a next store to the word, that one is the last.
            if is_store(op) {
                return false;
            }
            if value_of_load(test, run, node) == value {
                return true;
            }
        }
    }
    false
}

fn has_edge(test: &Test, model: MemModel, run: &[u32], from: u32, to: u32) -> bool
    requires inside { IsInside test.now run.now }
    requires first { from < op_count test.now }
    requires second { to < op_count test.now }
    ensures { result ≡ is_edge model test.now run.now from to }
{
    let keeps = kept(test, model, from, to);
    keeps
        || reads_from(test, run, from, to)
        || comes_before(test, run, from, to)
        || written_before(test, run, from, to)
}

/// Whether the constraint graph of the run has an edge from one node to the other.
pub fn edge(test: &Test, model: MemModel, run: &[u32], from: u32, to: u32) -> bool
    requires inside { IsInside test.now run.now }
    requires first { from < op_count test.now }
    requires second { to < op_count test.now }
    ensures { IsTrue result ↔ Edge model test.now run.now from to }
{
    has_edge(test, model, run, from, to)
}
