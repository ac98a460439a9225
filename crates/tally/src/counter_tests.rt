//! Counters against tallies that were made one outcome after another.
use crate::tests::{Row, add, outcome_of, shown};
use crate::{Counter, Outcome, Signature, Tally};
use std::alloc::{AllocError, Global};
use std::test::Fail;

/// Counts a row, where it has the width and there is room, and says whether it did.
fn is_counted(counter: &mut Counter, row: &[u64]) -> bool {
    row.len() == counter.width() && counter.total() < u64::MAX && counter.count(row).is_ok()
}

/// Counts a row. What was counted stands after a refusal, and so it may be tried again.
fn count(counter: &mut Counter, row: &[u64]) -> Result<(), AllocError> {
    if is_counted(counter, row) || is_counted(counter, row) {
        return Ok(());
    }
    Err(AllocError)
}

fn count_outside(counter: &mut Counter, node: u32, value: u32) -> Result<(), AllocError> {
    if counter.total() < u64::MAX {
        return counter.count_outside(node, value);
    }
    Err(AllocError)
}

/// The width of a counter, its number of outcomes and its tally, as text.
fn text_of(alloc: Global, counter: Counter) -> Result<String, AllocError> {
    let width = counter.width();
    let total = counter.total();
    let pairs = shown(alloc, &counter.finish()?)?;
    format!(in alloc; "{width} {total} {pairs}")
}

/// Rows that are counted one after another, so many times, each time with the outcomes outside behind them, and the counter's text then.
struct CounterCase {
    width: usize,
    rows: &'static [&'static [u64]],
    outside: &'static [(u32, u32)],
    times: u32,
    text: &'static str,
}

const COUNTED: [CounterCase; 7] = [
    CounterCase {
        width: 2,
        rows: &[
            &[2, 1],
            &[2, 0],
            &[0, 1],
            &[0, 0],
            &[2, 1],
            &[2, 0],
            &[0, 1],
            &[0, 0],
        ],
        outside: &[(3, 1), (2, 9)],
        times: 2,
        text: "2 20 20: [0, 0] 4; [0, 1] 4; [2, 0] 4; [2, 1] 4; 2 9 2; 3 1 2;",
    },
    CounterCase {
        width: 2,
        rows: &[
            &[0, 0],
            &[0, 1],
            &[2, 0],
            &[2, 1],
            &[0, 0],
            &[0, 1],
            &[2, 0],
            &[2, 1],
        ],
        outside: &[(3, 1), (2, 9)],
        times: 2,
        text: "2 20 20: [0, 0] 4; [0, 1] 4; [2, 0] 4; [2, 1] 4; 2 9 2; 3 1 2;",
    },
    CounterCase {
        width: 5,
        rows: &[],
        outside: &[],
        times: 0,
        text: "5 0 0:",
    },
    CounterCase {
        width: 0,
        rows: &[&[]],
        outside: &[],
        times: 1,
        text: "0 1 1: [] 1;",
    },
    CounterCase {
        width: 0,
        rows: &[&[]],
        outside: &[],
        times: 65_535,
        text: "0 65535 65535: [] 65535;",
    },
    CounterCase {
        width: 0,
        rows: &[&[]],
        outside: &[],
        times: 65_536,
        text: "0 65536 65536: [] 65536;",
    },
    CounterCase {
        width: 0,
        rows: &[&[]],
        outside: &[],
        times: 65_537,
        text: "0 65537 65537: [] 65537;",
    },
];

fn count_all(counter: &mut Counter, case: &CounterCase) -> Result<(), AllocError> {
    for row in case.rows {
        count(counter, row)?;
    }
    for (node, value) in case.outside {
        count_outside(counter, *node, *value)?;
    }
    Ok(())
}

fn counted(alloc: Global, case: &CounterCase) -> Result<Counter, AllocError> {
    let mut counter = Counter::new(alloc, case.width);
    for _ in 0..case.times {
        count_all(&mut counter, case)?;
    }
    Ok(counter)
}

#[test]
fn rows_in_any_order_and_of_no_words(rt: HostRuntime) -> Result<(), Fail> {
    for case in &COUNTED {
        let counter = counted(rt.alloc(), case)?;
        assert_eq!(rt; text_of(rt.alloc(), counter)?.as_str(), case.text);
    }
    Ok(())
}

/// The row at a place: one number, in each of its words.
fn row_at(alloc: Global, width: usize, at: u32) -> Result<Vec<u64>, AllocError> {
    vec![in alloc; u64::from(at) * 7 % 65_537; width]
}

/// Whether there is an outcome outside behind the row at a place.
fn has_outside(at: u32) -> bool {
    at % 1000 == 1
}

fn count_at(alloc: Global, counter: &mut Counter, width: usize, at: u32) -> Result<(), AllocError> {
    count(counter, &row_at(alloc, width, at)?)?;
    if has_outside(at) {
        count_outside(counter, 7, 8)?;
    }
    Ok(())
}

fn add_at(alloc: Global, tally: &mut Tally, width: usize, at: u32) -> Result<(), AllocError> {
    let signature = Signature::of(alloc, &row_at(alloc, width, at)?)?;
    add(tally, Outcome::Inside(signature))?;
    if has_outside(at) {
        add(tally, outcome_of(alloc, &Row::Outside(7, 8))?)?;
    }
    Ok(())
}

/// What a counter has behind so many rows.
fn text_by_counter(alloc: Global, width: usize, rows: u32) -> Result<String, AllocError> {
    let mut counter = Counter::new(alloc, width);
    for at in 0..rows {
        count_at(alloc, &mut counter, width, at)?;
    }
    text_of(alloc, counter)
}

/// The same by a tally.
fn text_by_tally(alloc: Global, width: usize, rows: u32) -> Result<String, AllocError> {
    let mut tally = Tally::new(alloc);
    for at in 0..rows {
        add_at(alloc, &mut tally, width, at)?;
    }
    let pairs = shown(alloc, &tally)?;
    format!(in alloc; "{width} {} {pairs}", tally.total())
}

/// Batches of very many narrow rows, full by their number, and of few wide ones, full by their words.
const BATCHES: [(usize, u32); 8] = [
    (1, 65_536),
    (1, 131_072),
    (1, 131_073),
    (4, 65_537),
    (1 << 17, 2),
    (1 << 17, 3),
    (1 << 17, 6),
    (1 << 17, 7),
];

#[test]
fn batches_that_fill(rt: HostRuntime) -> Result<(), Fail> {
    for (width, rows) in &BATCHES {
        assert_eq!(rt;
            text_by_counter(rt.alloc(), *width, *rows)?.as_str(),
            text_by_tally(rt.alloc(), *width, *rows)?.as_str()
        );
    }
    Ok(())
}

/// The counts of a tally, sorted.
fn sorted_counts(alloc: Global, tally: &Tally) -> Result<Vec<u64>, AllocError> {
    let mut counts = Vec::new(alloc);
    for (_, count) in tally.iter() {
        counts.push(count)?;
    }
    counts.sort_unstable();
    Ok(counts)
}

/// Counts rows that all have the same hash, so that guesses don't find most of them.
fn count_of_one_hash(alloc: Global) -> Result<Tally, AllocError> {
    let mut counter = Counter::new(alloc, 1);
    for at in 0u64..200_000 {
        // A multiple of the inverse of the number that spreads bits, so that the hash is the multiplier.
        let word = (at % 6).wrapping_mul(0xf1de_83e1_9937_733d);
        count(&mut counter, &[word])?;
    }
    counter.finish()
}

#[test]
fn rows_of_one_hash(rt: HostRuntime) -> Result<(), Fail> {
    let tally = count_of_one_hash(rt.alloc())?;
    assert_eq!(rt;
        sorted_counts(rt.alloc(), &tally)?.as_slice(),
        [33_333, 33_333, 33_333, 33_333, 33_334, 33_334].as_slice()
    );
    Ok(())
}
