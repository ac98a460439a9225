//! Tables of the stores that follow others or come before them, and of the first stores.
ghost use Rattle.std.specs.Prelude.{◌≡◌, ℕ, ◌+◌, ◌*◌, ◌<◌, length, slice_index_or, Some, None, IfOk, if◌then◌else◌};
ghost use Rattle.std.specs.Option.{option_or};
ghost use Rattle.test_lang.specs.Program.{op_count};
ghost use Rattle.graph_model.specs.StoreTables.{HasBaseStores, HasFirstStores, HasNextStores, is_thread_store};

use crate::few_kept::{last_of_kind, next_of_kind};
use crate::kinds::Kind;
use crate::nearest::Nearest;
use std::alloc::{AllocError, Global};
use test_lang::op::Op;
use test_lang::test::Test;

/// For each node, the first store after it in its thread to its word.
pub(crate) fn next_stores(alloc: Global, test: &Test) -> Result<Vec<Option<u32>>, AllocError>
    ensures { IfOk result (λ table. HasNextStores test.now table.items) }
{
    let mut table = vec![in alloc; None; test.ops() as usize]?;
    let mut nearest = Nearest::new(alloc, test.words())?;
    for node in (0..test.ops()).rev() {
        let action = test.action(node);
        table[node as usize] = next_of_kind(test, &nearest, Kind::StoreOfWord, node, action);
        nearest.meet(node, action);
    }
    Ok(table)
}

/// For each node, the last store before it in its thread to its word: for a load, its base store.
pub(crate) fn base_stores(alloc: Global, test: &Test) -> Result<Vec<Option<u32>>, AllocError>
    ensures { IfOk result (λ table. HasBaseStores test.now table.items) }
{
    let mut table = vec![in alloc; None; test.ops() as usize]?;
    let mut nearest = Nearest::new(alloc, test.words())?;
    for node in 0..test.ops() {
        let action = test.action(node);
        table[node as usize] = last_of_kind(test, &nearest, Kind::StoreOfWord, node, action);
        nearest.meet(node, action);
    }
    Ok(table)
}

/// The place of a word and a thread in a table by word and then by thread.
pub(crate) fn place_of(test: &Test, word: u32, thread: u32) -> usize
    requires word { word < test.now.words }
    requires thread { thread < length test.now.threads }
    ensures place { result ≡ word * length test.now.threads + thread }
    ensures inside { result < test.now.words * length test.now.threads }
{
    word as usize * test.threads() as usize + thread as usize
}

/// Notes a node as the first store of its thread to its word, if it is a store and none came before it.
fn note_first_store(test: &Test, node: u32, table: &mut [Option<u32>])
    requires node { node < op_count test.now }
    requires room { length table.old ≡ test.now.words * length test.now.threads }
    ensures { (word thread : ℕ) → word < test.now.words → thread < length test.now.threads →
        let place = word * length test.now.threads + thread in
        slice_index_or table.new place None
        ≡ option_or (slice_index_or table.old place None)
        (if is_thread_store test.now word thread node then Some node else None) }
{
    let Op::Store { word } = test.op(node) else {
        return;
    };
    let place = place_of(test, word, test.thread_of(node));
    table[place] = table[place].or(Some(node));
}

/// For each word and each thread, the thread's first store to the word.
pub(crate) fn first_stores(alloc: Global, test: &Test) -> Result<Vec<Option<u32>>, AllocError>
    ensures { IfOk result (λ table. HasFirstStores test.now table.items) }
{
    let places = (test.words() * test.threads()) as usize;
    let mut table = vec![in alloc; None; places]?;
    for node in 0..test.ops() {
        note_first_store(test, node, &mut table);
    }
    Ok(table)
}
