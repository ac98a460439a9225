//! Cutting the loads of a test into groups.
ghost use Rattle.std.specs.Prelude.{◌≡◌, ◌+◌, ◌*◌, ◌^◌, ◌<◌, ◌≤◌, ◌++◌, IfOk, OnOk, length, map, nat_le};
ghost use Rattle.test_lang.specs.Signatures.{candidate_count, groups, groups_of};
ghost use Rattle.test_lang.specs.Values.{thread_loads};
ghost use Rattle.signature_plan.specs.Rows.{row_of};

use candidates::Candidates;
use std::alloc::{AllocError, Global};
use test_lang::op::Op;

/// How many numbers a word of 64 bits stands for.
const WORDS_OF_64_BITS: u128 = 1 << 64;

/// A group of loads in a row of one thread, whose places make one word.
#[derive(Clone, Copy, Debug, Drop)]
pub(crate) struct Group {
    /// The number of loads.
    pub loads: u32,
    /// The product of their numbers of candidates.
    pub product: u128,
}

impl Group {
    const EMPTY: Group = Group {
        loads: 0,
        product: 1,
    };

    /// Whether one more load, of so many candidates, fits.
    fn has_room(&self, count: u32) -> bool
        requires { self.now.product ≤ 2 ^ 64 }
        ensures { result ≡ nat_le (self.now.product * count) (2 ^ 64) }
    {
        self.product * u128::from(count) <= WORDS_OF_64_BITS
    }

    /// With one more load, of so many candidates.
    fn with(&self, count: u32) -> Group
        requires loads { self.now.loads + 1 < 2 ^ 32 }
        requires product { self.now.product ≤ 2 ^ 64 }
        ensures { result ≡ record { loads = self.now.loads + 1; product = self.now.product * count } }
    {
        Group {
            loads: self.loads + 1,
            product: self.product * u128::from(count),
        }
    }
}

/// Cuts the loads of a thread into groups, which it adds.
fn cut_thread(candidates: &Candidates, thread: u32, rows: &mut Vec<Group>) -> Result<(), AllocError>
    requires { thread < length candidates.now.threads }
    ensures { OnOk result (rows.new.items ≡ rows.old.items
        ++ map (row_of candidates.now) (groups_of (candidate_count candidates.now) (thread_loads candidates.now thread))) }
{
    let test = candidates.test();
    let first = test.first_of(thread);
    let mut open = Group::EMPTY;
    for node in first..first + test.len_of(thread) {
        if let Op::Load { .. } = test.op(node) {
            let count = candidates.count(test.rank_of(node));
            if !open.has_room(count) {
                rows.push(open)?;
                open = Group::EMPTY;
            }
            open = open.with(count);
        }
    }
    if open.loads > 0 {
        rows.push(open)?;
    }
    Ok(())
}

/// The groups of all loads, those of thread 0 first.
pub(crate) fn cut_loads(alloc: Global, candidates: &Candidates) -> Result<Vec<Group>, AllocError>
    ensures { IfOk result (λ rows. rows.items
        ≡ map (row_of candidates.now) (groups candidates.now)) }
{
    let test = candidates.test();
    let mut rows = Vec::new(alloc);
    for thread in 0..test.threads() {
        cut_thread(candidates, thread, &mut rows)?;
    }
    Ok(rows)
}
