//! Tests of every candidate, and of every value that is none, of a few tests.

use crate::Candidates;
use std::alloc::{AllocError, Global};
use std::test::Fail;
use test_lang::op::Op;
use test_lang::test::Test;

/// A test, and the candidates of its loads, by rank.
struct Case {
    words: u32,
    threads: &'static [&'static [Op]],
    candidates: &'static [&'static [u32]],
}

const ST_0: Op = Op::Store { word: 0 };

const ST_1: Op = Op::Store { word: 1 };

const LD_0: Op = Op::Load { word: 0 };

const LD_1: Op = Op::Load { word: 1 };

const CASES: [Case; 8] = [
    // No load.
    Case {
        words: 2,
        threads: &[&[], &[ST_0, Op::Fence]],
        candidates: &[],
    },
    // No store.
    Case {
        words: 2,
        threads: &[&[LD_0, LD_1], &[LD_0]],
        candidates: &[&[0], &[0], &[0]],
    },
    // The last own store is the only candidate.
    Case {
        words: 1,
        threads: &[&[ST_0, ST_0, LD_0]],
        candidates: &[&[2]],
    },
    // Store buffering.
    Case {
        words: 2,
        threads: &[&[ST_0, LD_1], &[ST_1, LD_0]],
        candidates: &[&[0, 2], &[0, 1]],
    },
    // Two stores against two loads.
    Case {
        words: 1,
        threads: &[&[ST_0, ST_0], &[LD_0, LD_0]],
        candidates: &[&[0, 1, 2], &[0, 1, 2]],
    },
    // A later own store is no candidate.
    Case {
        words: 1,
        threads: &[&[LD_0, ST_0], &[ST_0]],
        candidates: &[&[0, 2]],
    },
    // Own stores stand before, among and behind the others.
    Case {
        words: 1,
        threads: &[
            &[ST_0, LD_0, ST_0],
            &[ST_0, LD_0, ST_0, LD_0],
            &[ST_0, LD_0],
        ],
        candidates: &[
            &[1, 3, 4, 5],
            &[3, 1, 2, 5],
            &[4, 1, 2, 5],
            &[5, 1, 2, 3, 4],
        ],
    },
    // Two words, fences, and threads without operations.
    Case {
        words: 256,
        threads: &[
            &[],
            &[LD_1, ST_0, Op::Fence, LD_0, ST_1],
            &[],
            &[ST_1, ST_0, LD_1, LD_0, Op::Load { word: 255 }],
            &[ST_1, ST_1],
            &[],
        ],
        candidates: &[&[0, 3, 5, 6], &[1, 4], &[3, 2, 5, 6], &[4, 1], &[0]],
    },
];

/// A test of these threads, if it is within the limits.
fn build(alloc: Global, words: u32, threads: &[&[Op]]) -> Result<Test, AllocError> {
    let mut test = new_test(alloc, words)?;
    for ops in threads {
        add_thread(&mut test, ops)?;
    }
    Ok(test)
}

fn new_test(alloc: Global, words: u32) -> Result<Test, AllocError> {
    if 1 <= words && words <= 256 {
        return Ok(Test::new(alloc, words));
    }
    Err(AllocError)
}

fn add_thread(test: &mut Test, ops: &[Op]) -> Result<(), AllocError> {
    if 16 <= test.threads() {
        return Err(AllocError);
    }
    test.add_thread()?;
    for op in ops {
        add_op(test, *op)?;
    }
    Ok(())
}

fn add_op(test: &mut Test, op: Op) -> Result<(), AllocError> {
    if test.threads() > 0 && test.ops() < 2048 && test.has_word(op) {
        return test.add_op(op);
    }
    Err(AllocError)
}

fn loads_of(candidates: &Candidates) -> usize {
    candidates.test().loads() as usize
}

/// The candidates of a load, if the test has it.
fn candidates_of(
    alloc: Global,
    candidates: &Candidates,
    rank: usize,
) -> Result<Vec<u32>, AllocError> {
    let mut all = Vec::new(alloc);
    if rank < candidates.test().loads() as usize {
        let rank = rank as u32;
        for place in 0..candidates.count(rank) {
            all.push(candidates.at(rank, place))?;
        }
    }
    Ok(all)
}

/// The place of a value among the candidates of a load; of a load that isn't there a place that no list has.
fn index_of(candidates: &Candidates, rank: usize, value: u32) -> Option<usize> {
    if rank < candidates.test().loads() as usize {
        let place = candidates.index(rank as u32, value)?;
        return Some(place as usize);
    }
    Some(usize::MAX)
}

/// The same by the other call.
fn place_of(candidates: &Candidates, rank: usize, value: u32) -> Option<usize> {
    if rank < candidates.test().loads() as usize {
        let (place, is_candidate) = candidates.place_if_any(rank as u32, value);
        return if is_candidate {
            Some(place as usize)
        } else {
            None
        };
    }
    Some(usize::MAX)
}

/// The rank of the first load outside; of a run of another length one that no test has.
fn first_outside(candidates: &Candidates, run: &[u32]) -> Option<usize> {
    if run.len() == candidates.test().loads() as usize {
        let rank = candidates.first_outside(run)?;
        return Some(rank as usize);
    }
    Some(usize::MAX)
}

fn place_in(list: &[u32], value: u32) -> Option<usize> {
    list.iter().position(|candidate| *candidate == value)
}

/// Whether the tables find a value where it stands in the list of the load's candidates, if at all.
fn finds(candidates: &Candidates, rank: usize, value: u32, list: &[u32]) -> bool {
    let place = place_in(list, value);
    index_of(candidates, rank, value) == place && place_of(candidates, rank, value) == place
}

/// Whether what the tables answer of one load goes with the list of its candidates.
fn answers_load(
    alloc: Global,
    candidates: &Candidates,
    rank: usize,
    list: &[u32],
    values: u32,
) -> Result<bool, AllocError> {
    for value in 0..values {
        if !finds(candidates, rank, value, list) {
            return Ok(false);
        }
    }
    let all = candidates_of(alloc, candidates, rank)?;
    Ok(all.as_slice() == list && finds(candidates, rank, u32::MAX, list))
}

/// The first value that isn't in the list.
fn first_without(list: &[u32]) -> u32 {
    for value in 0..u32::MAX {
        if !list.contains(&value) {
            return value;
        }
    }
    u32::MAX
}

/// The last candidates of all loads.
fn last_of_each(alloc: Global, lists: &[&[u32]]) -> Result<Vec<u32>, AllocError> {
    let mut run = Vec::new(alloc);
    for list in lists {
        run.push(list.last().copied().unwrap_or(u32::MAX))?;
    }
    Ok(run)
}

/// Whether the first load outside of a run is the one that was changed to a value that is no candidate's.
fn answers_runs(
    alloc: Global,
    candidates: &Candidates,
    lists: &[&[u32]],
) -> Result<bool, AllocError> {
    let mut run = last_of_each(alloc, lists)?;
    if first_outside(candidates, &run).is_some() {
        return Ok(false);
    }
    // The later loads stay outside, and the first of them counts.
    for rank in (0..lists.len()).rev() {
        if let Some(value) = run.get_mut(rank) {
            *value = first_without(lists[rank]);
        }
        if first_outside(candidates, &run) != Some(rank) {
            return Ok(false);
        }
    }
    Ok(true)
}

fn tables_of(alloc: Global, words: u32, threads: &[&[Op]]) -> Result<Candidates, AllocError> {
    let test = build(alloc, words, threads)?;
    Candidates::of(alloc, &test)
}

/// Whether the tables answer of all loads so.
fn answers_loads(
    alloc: Global,
    candidates: &Candidates,
    lists: &[&[u32]],
) -> Result<bool, AllocError> {
    let values = candidates.test().stores().saturating_add(2);
    for (rank, list) in lists.iter().enumerate() {
        if !answers_load(alloc, candidates, rank, list, values)? {
            return Ok(false);
        }
    }
    Ok(lists.len() == loads_of(candidates))
}

/// Whether the tables of a case answer so.
fn answers(alloc: Global, case: &Case) -> Result<bool, AllocError> {
    let candidates = tables_of(alloc, case.words, case.threads)?;
    Ok(
        answers_loads(alloc, &candidates, case.candidates)?
            && answers_runs(alloc, &candidates, case.candidates)?,
    )
}

/// The first case whose tables don't.
fn first_wrong(alloc: Global) -> Result<Option<usize>, AllocError> {
    for (place, case) in CASES.iter().enumerate() {
        if !answers(alloc, case)? {
            return Ok(Some(place));
        }
    }
    Ok(None)
}

/// The values below this one.
fn values_below(alloc: Global, end: u32) -> Result<Vec<u32>, AllocError> {
    let mut list = Vec::new(alloc);
    for value in 0..end {
        list.push(value)?;
    }
    Ok(list)
}

/// Whether a load answers so that has more candidates than 8 bits tell apart.
fn very_many_answer(alloc: Global) -> Result<bool, AllocError> {
    let candidates = tables_of(alloc, 1, &[&[ST_0; 300], &[LD_0]])?;
    answers_load(alloc, &candidates, 0, &values_below(alloc, 301)?, 303)
}

#[test]
fn candidates_of_loads(rt: HostRuntime) -> Result<(), Fail> {
    assert_eq!(rt; first_wrong(rt.alloc())?, None);
    assert!(rt; very_many_answer(rt.alloc())?);
    Ok(())
}
