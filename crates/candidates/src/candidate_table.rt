//! Candidates in tables that answer in constant time: a list of the candidates of all loads, and a row for each value and load.
ghost use Rattle.std.specs.Prelude.{◌≡◌, ◌<◌, ◌≤◌, ◌↔◌, ◌==◌, ℕ, length, position, Contains, IfOk, IfSome, IsNone, IsTrue, None, Some, if◌then◌else◌, slice_get};
ghost use Rattle.std.specs.Bool.{OnTrue};
ghost use Rattle.std.specs.Option.{option_map};
ghost use Rattle.candidates.specs.ByRank.{FindsPlace, GivesCandidates, candidates_at, load_at};
ghost use Rattle.test_lang.specs.Program.{IsWithinLimits};
ghost use Rattle.test_lang.specs.Runs.{first_outside};
ghost use Rattle.test_lang.specs.Values.{load_count};

use crate::candidate_lists::CandidateLists;
use std::alloc::{AllocError, Global};
use std::marker::Model;
use test_lang::test::Test;

/// The candidates of each load of a test. Contracts see the test.
#[derive(Debug, Drop)]
pub struct Candidates {
    test: Test,
    /// The number of stores and one more, for the initial value.
    value_count: usize,
    lists: CandidateLists,
}

impl Model for Candidates {
    ghost use Rattle.std.specs.Prelude.{◌≡◌, ◌+◌};
    ghost use Rattle.test_lang.specs.Program.{Program, IsWithinLimits};
    ghost use Rattle.test_lang.specs.Values.{load_count, store_count};
    ghost use Rattle.candidates.specs.Tables.{ListsLoads};

    ghost Value = { Program };

    ghost view = { λ c. c.test };

    ghost invariant = { λ c.
        IsWithinLimits c.test × (c.value_count ≡ store_count c.test + 1)
        × ListsLoads c.test (load_count c.test)
        c.lists.loads.items c.lists.values.items c.lists.places.items };
}

impl Candidates {
    /// The candidates of the loads of the test. An error is want of memory.
    pub fn of(alloc: Global, test: &Test) -> Result<Candidates, AllocError>
        ensures { IfOk result (λ candidates. candidates ≡ test.now) }
    {
        let lists = CandidateLists::of(alloc, test)?;
        // The limits of a test are told with its words.
        let _words = test.words();
        Ok(Candidates {
            test: test.clone()?,
            value_count: test.stores() as usize + 1,
            lists,
        })
    }

    /// The test.
    pub fn test(&self) -> &Test
        ensures test { result.now ≡ self.now }
        ensures limits { IsWithinLimits self.now }
    {
        &self.test
    }

    /// The number of candidates of the load of a rank.
    pub fn count(&self, rank: u32) -> u32
        requires { rank < load_count self.now }
        ensures count { result ≡ length (candidates_at self.now rank) }
        ensures some { 1 ≤ result }
        ensures few { result ≤ 2048 }
    {
        self.lists.loads[rank as usize].count
    }

    /// The value of the candidate at a place, counted from 0. Which place that is, is up to chance, so no step branches on it.
    pub fn at(&self, rank: u32, place: u32) -> u32
        requires rank { rank < load_count self.now }
        requires place { place < length (candidates_at self.now rank) }
        ensures { slice_get (candidates_at self.now rank) place ≡ Some result }
    {
        self.lists.values[self.lists.loads[rank as usize].first + place as usize]
    }

    /// The place of a value among the candidates.
    pub fn index(&self, rank: u32, value: u32) -> Option<u32>
        requires { rank < load_count self.now }
        ensures found { (place : ℕ) → (result ≡ Some place)
            ↔ (slice_get (candidates_at self.now rank) place ≡ Some value) }
        ensures none { IsNone result ↔ (Contains (candidates_at self.now rank) value → ⊥) }
        // The same as a search.
        ensures position { result
            ≡ position (λ candidate. candidate == value) (candidates_at self.now rank) }
    {
        let (place, is_candidate) = self.place_if_any(rank, value);
        if is_candidate { Some(place) } else { None }
    }

    /// The place of a value among the candidates, which says nothing where it is no candidate's, and whether it is one's. Which
    /// candidate a load gives is up to chance, so no step branches on it.
    #[inline(always)]
    pub fn place_if_any(&self, rank: u32, value: u32) -> (u32, bool)
        requires { rank < load_count self.now }
        ensures candidate { IsTrue result.1 ↔ Contains (candidates_at self.now rank) value }
        ensures place { OnTrue result.1
            (position (λ candidate. candidate == value) (candidates_at self.now rank)
            ≡ Some result.0) }
        // Both in one.
        ensures found { FindsPlace (candidates_at self.now rank) value
            (if result.1 then Some result.0 else None) }
    {
        if self.value_count <= value as usize {
            return (0, false);
        }
        let row = self.lists.places[rank as usize * self.value_count + value as usize];
        (u32::from(row.place), row.is_candidate)
    }

    /// Whether each load of the run gives a candidate's value. Which candidate it gives is up to chance, so no step branches on it.
    fn is_inside(&self, run: &[u32]) -> bool
        requires { length run.now ≡ load_count self.now }
        ensures { IsTrue result ↔ GivesCandidates self.now run.now (load_count self.now) }
    {
        let loads = self.test.loads();
        let mut inside = true;
        for rank in 0..loads {
            let (_, is_candidate) = self.place_if_any(rank, run[rank as usize]);
            inside &= is_candidate;
        }
        inside
    }

    /// The rank of the first load, in node order, whose value is no candidate's.
    pub fn first_outside(&self, run: &[u32]) -> Option<u32>
        requires { length run.now ≡ load_count self.now }
        ensures load { option_map (load_at self.now) result ≡ first_outside self.now run.now }
        ensures rank { IfSome result (λ rank. rank < load_count self.now) }
    {
        if self.is_inside(run) {
            return None;
        }
        for rank in 0..self.test.loads() {
            if self.index(rank, run[rank as usize]).is_none() {
                return Some(rank);
            }
        }
        None
    }
}
