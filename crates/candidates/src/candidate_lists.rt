//! The candidates of all loads in one list, and the place of each value among those of each load.
ghost use Rattle.std.specs.Prelude.{◌≡◌, ◌+◌, ◌<◌, ◌^◌, ◌==◌, IfOk, OnOk, None, Some, if◌then◌else◌};
ghost use Rattle.candidates.specs.Tables.{ListsLoads, told_place};
ghost use Rattle.test_lang.specs.Values.{load_count};

use crate::load_node::LoadNode;
use std::alloc::{AllocError, Global};
use test_lang::test::Test;

/// Where the candidates of a load stand in the list.
#[derive(Clone, Copy, Debug, Drop)]
pub(crate) struct LoadRow {
    /// The place of the first.
    pub first: usize,
    /// How many they are.
    pub count: u32,
}

/// Where a value stands among the candidates of a load. The table has very many rows, so they are small.
#[derive(Clone, Copy, Debug, Drop)]
pub(crate) struct PlaceRow {
    /// It says nothing where the value is no candidate's.
    pub place: u16,
    pub is_candidate: bool,
}

impl PlaceRow {
    /// The row of a value of a load with that base. If it is of another thread's store, it stands at the place `next`.
    fn of(base: u32, value: u32, is_other: bool, next: usize) -> PlaceRow
        requires { next < 2 ^ 16 }
        ensures { told_place result
            ≡ (if is_other then Some next else if value == base then Some 0 else None) }
    {
        PlaceRow {
            place: if is_other { next as u16 } else { 0 },
            is_candidate: is_other || value == base,
        }
    }
}

/// The candidates of the loads of a test.
#[derive(Debug, Drop)]
pub(crate) struct CandidateLists {
    /// Those of the first load, then those of the second, and so on.
    pub values: Vec<u32>,
    /// By rank.
    pub loads: Vec<LoadRow>,
    /// By value, those for the first load first.
    pub places: Vec<PlaceRow>,
}

impl CandidateLists {
    /// The candidates of all loads of the test.
    pub fn of(alloc: Global, test: &Test) -> Result<CandidateLists, AllocError>
        ensures { IfOk result (λ lists. ListsLoads test.now (load_count test.now)
            lists.loads.items lists.values.items lists.places.items) }
    {
        let loads = test.loads() as usize;
        let values = test.stores() as usize + 1;
        let mut lists = CandidateLists {
            values: Vec::new(alloc),
            loads: Vec::with_capacity(alloc, loads)?,
            places: Vec::with_capacity(alloc, loads * values)?,
        };
        for rank in 0..test.loads() {
            lists.push_load(test, rank)?;
        }
        Ok(lists)
    }

    /// Adds the candidates of the load of the next rank: the base, and then the values of other threads' stores, in one walk of all stores.
    fn push_load(&mut self, test: &Test, rank: u32) -> Result<(), AllocError>
        requires rank { rank < load_count test.now }
        requires before { ListsLoads test.now rank
            self.old.loads.items self.old.values.items self.old.places.items }
        ensures { OnOk result (ListsLoads test.now (rank + 1)
            self.new.loads.items self.new.values.items self.new.places.items) }
    {
        let load = LoadNode::of(test, rank);
        let base = load.base(test);
        let first = self.values.len();
        self.values.push(base)?;
        self.places.push(PlaceRow::of(base, 0, false, 0))?;
        for value in 1..test.stores() + 1 {
            let is_other = load.is_other(test, test.store_of(value));
            let next = self.values.len() - first;
            self.places.push(PlaceRow::of(base, value, is_other, next))?;
            if is_other {
                self.values.push(value)?;
            }
        }
        let count = (self.values.len() - first) as u32;
        self.loads.push(LoadRow { first, count })?;
        Ok(())
    }
}
