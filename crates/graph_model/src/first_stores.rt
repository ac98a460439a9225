//! The first stores of all threads to each word.
ghost use Rattle.std.specs.Prelude.{◌≡◌, ◌≤◌, ◌<◌, ◌*◌, ◌++◌, length, IfOk, OnOk, OnErr};
ghost use Rattle.graph_model.specs.FirstLists.{HasFirstLists, first_stores_to};
ghost use Rattle.graph_model.specs.StoreTables.{HasFirstStores};

use crate::store_tables::{first_stores, place_of};
use std::alloc::{AllocError, Global};
use test_lang::test::Test;

/// For each word the first stores of the threads that store to it, by rising thread, in one list of all words.
#[derive(Drop)]
pub(crate) struct FirstStores {
    /// Where those of each word begin, and behind them where the last ones end.
    pub(crate) starts: Vec<u32>,
    pub(crate) stores: Vec<u32>,
}

/// Puts the first stores to a word at the end of the list.
fn push_word(
    test: &Test,
    table: &[Option<u32>],
    word: u32,
    stores: &mut Vec<u32>,
) -> Result<(), AllocError>
    requires table { HasFirstStores test.now table.now }
    requires word { word < test.now.words }
    ensures { OnOk result (stores.new.items ≡ stores.old.items ++ first_stores_to test.now word) }
{
    for thread in 0..test.threads() {
        if let Some(first) = table[place_of(test, word, thread)] {
            stores.push(first)?;
        }
    }
    Ok(())
}

impl FirstStores {
    /// The first stores to the words of a test.
    pub(crate) fn of(alloc: Global, test: &Test) -> Result<FirstStores, AllocError>
        ensures { IfOk result (λ firsts. HasFirstLists test.now firsts.starts.items firsts.stores.items) }
    {
        let table = first_stores(alloc, test)?;
        let mut starts = vec![in alloc; 0u32; 1]?;
        let mut stores = Vec::new(alloc);
        for word in 0..test.words() {
            push_word(test, &table, word, &mut stores)?;
            starts.push(stores.len() as u32)?;
        }
        Ok(FirstStores { starts, stores })
    }
}
