//! The plan of a test's signatures.
ghost use Rattle.std.specs.Prelude.{◌≡◌, ◌^◌, ◌<◌, ◌≤◌, IfOk, length};
ghost use Rattle.signature_plan.specs.Fitting.{product_at};
ghost use Rattle.test_lang.specs.Signatures.{groups};
ghost use Rattle.test_lang.specs.Values.{load_count};

use crate::group_rows::{Group, cut_loads};
use crate::inverse::list_inverses;
use candidates::Candidates;
use std::alloc::{AllocError, Global};
use std::marker::Model;
use test_lang::test::Test;

/// How the runs of a test are put into words of 64 bits, and back. Contracts see the test.
#[derive(Debug, Drop)]
pub struct Plan {
    pub(crate) candidates: Candidates,
    pub(crate) groups: Vec<Group>,
    /// The inverses of the loads' numbers of candidates, by rank.
    pub(crate) inverses: Vec<u64>,
}

impl Model for Plan {
    ghost use Rattle.test_lang.specs.Program.{Program};
    ghost use Rattle.signature_plan.specs.Rows.{TabulatesGroups};

    ghost Value = { Program };

    ghost view = { λ p. p.candidates };

    ghost invariant = { λ p. TabulatesGroups p.candidates p.groups.items p.inverses.items };
}

impl Plan {
    /// The plan of a test. An error is want of memory.
    pub fn of(alloc: Global, test: &Test) -> Result<Plan, AllocError>
        ensures { IfOk result (λ plan. plan ≡ test.now) }
    {
        let candidates = Candidates::of(alloc, test)?;
        let groups = cut_loads(alloc, &candidates)?;
        let inverses = list_inverses(alloc, &candidates)?;
        Ok(Plan {
            candidates,
            groups,
            inverses,
        })
    }

    /// The number of words of a signature.
    pub fn words(&self) -> usize
        ensures count { result ≡ length (groups self.now) }
        ensures few { result ≤ load_count self.now }
    {
        self.groups.len()
    }

    /// The number of values of a run.
    pub fn loads(&self) -> usize
        ensures count { result ≡ load_count self.now }
        ensures few { result ≤ 2048 }
    {
        self.candidates.test().loads() as usize
    }

    /// What the word at a place stays below: the product of its group's numbers of candidates.
    pub fn limit(&self, place: u32) -> u128
        requires { place < length (groups self.now) }
        ensures product { result ≡ product_at self.now place }
        ensures some { 1 ≤ result }
        ensures few { result ≤ 2 ^ 64 }
    {
        self.groups[place as usize].product
    }

    /// The candidates of the loads.
    pub fn candidates(&self) -> &Candidates
        ensures { result.now ≡ self.now }
    {
        &self.candidates
    }
}
