//! The order of outcomes, and tallies as a caller uses them.
//! The proof of a test grows with its code, so what is tried stands in tables, and the calls under test in small functions.
use crate::{Outcome, Signature, Tally};
use std::alloc::{AllocError, Global};
use std::cmp::Ordering;
use std::test::Fail;

/// An outcome in a table.
pub(crate) enum Row {
    Inside(&'static [u64]),
    Outside(u32, u32),
}

pub(crate) fn outcome_of(alloc: Global, row: &Row) -> Result<Outcome, AllocError> {
    match row {
        Row::Inside(words) => Ok(Outcome::Inside(Signature::of(alloc, words)?)),
        Row::Outside(node, value) => Ok(Outcome::Outside {
            node: *node,
            value: *value,
        }),
    }
}

/// Outcomes in their order, each once.
const RISING: [Row; 13] = [
    Row::Inside(&[]),
    Row::Inside(&[0]),
    Row::Inside(&[0, 0]),
    Row::Inside(&[0, u64::MAX]),
    Row::Inside(&[1]),
    Row::Inside(&[1, 0]),
    Row::Inside(&[2, 1, 7]),
    Row::Inside(&[u64::MAX]),
    Row::Outside(0, 0),
    Row::Outside(0, 9),
    Row::Outside(2, 1),
    Row::Outside(2, u32::MAX),
    Row::Outside(u32::MAX, 0),
];

/// How two outcomes compare, by each of the three calls.
fn compared(left: &Outcome, right: &Outcome) -> (Ordering, bool, Option<Ordering>) {
    (left.cmp(right), left == right, left.partial_cmp(right))
}

/// Whether the outcomes of two rows are in this order, by each of the calls.
fn are(alloc: Global, left: &Row, order: Ordering, right: &Row) -> Result<bool, AllocError> {
    let left = outcome_of(alloc, left)?;
    let right = outcome_of(alloc, right)?;
    let (full, equal, partial) = compared(&left, &right);
    Ok(full == order && equal == order.is_eq() && partial == Some(order))
}

/// Two places of the table whose outcomes aren't in its order.
fn first_disorder(alloc: Global) -> Result<Option<(usize, usize)>, AllocError> {
    for (i, left) in RISING.iter().enumerate() {
        for (j, right) in RISING.iter().enumerate() {
            if !are(alloc, left, i.cmp(&j), right)? {
                return Ok(Some((i, j)));
            }
        }
    }
    Ok(None)
}

const SIGNATURES: [&[u64]; 3] = [&[], &[7], &[3, 0, u64::MAX]];

/// Whether a signature of these words lends them, equals another one of them, and stands behind that of no words, unless it is that.
fn lends(alloc: Global, words: &[u64]) -> Result<bool, AllocError> {
    let signature = Signature::of(alloc, words)?;
    let same = signature.words() == words && signature == Signature::of(alloc, words)?;
    Ok(same && (signature > Signature::of(alloc, &[])?) != words.is_empty())
}

#[test]
fn outcomes_are_ordered_and_signatures_lend_their_words(rt: HostRuntime) -> Result<(), Fail> {
    assert_eq!(rt; first_disorder(rt.alloc())?, None);
    for words in &SIGNATURES {
        assert!(rt; lends(rt.alloc(), words)?);
    }
    Ok(())
}

/// Adds an outcome, where the tally isn't full.
pub(crate) fn add(tally: &mut Tally, outcome: Outcome) -> Result<(), AllocError> {
    if tally.total() < u64::MAX && tally.add(outcome).is_ok() {
        return Ok(());
    }
    Err(AllocError)
}

/// Writes an outcome and its count; of a signature at most the first two words.
fn show(out: &mut String, outcome: &Outcome, count: u64) -> Result<(), AllocError> {
    match outcome {
        Outcome::Inside(signature) => {
            let words = signature.words();
            let first = words.get(..2).unwrap_or(words);
            write!(out, " {first:?} {count};")
        }
        Outcome::Outside { node, value } => write!(out, " {node} {value} {count};"),
    }
}

/// The number of outcomes in a tally and its pairs, as text.
pub(crate) fn shown(alloc: Global, tally: &Tally) -> Result<String, AllocError> {
    let mut out = format!(in alloc; "{}:", tally.total())?;
    for (outcome, count) in tally.iter() {
        show(&mut out, outcome, count)?;
    }
    Ok(out)
}

/// Outcomes that are added to one tally, and what it has behind them. Equal ones are joined wherever they stand.
const ADDED: [(&[Row], &str); 3] = [
    (&[], "0:"),
    (
        &[
            Row::Inside(&[2, 1]),
            Row::Inside(&[2, 0]),
            Row::Inside(&[0, 1]),
            Row::Inside(&[0, 0]),
            Row::Inside(&[2, 1]),
            Row::Inside(&[2, 0]),
            Row::Inside(&[0, 1]),
            Row::Inside(&[0, 0]),
        ],
        "8: [0, 0] 2; [0, 1] 2; [2, 0] 2; [2, 1] 2;",
    ),
    (
        &[
            Row::Outside(3, 1),
            Row::Outside(2, 9),
            Row::Outside(3, 0),
            Row::Outside(2, 9),
            Row::Outside(3, 1),
            Row::Outside(2, 9),
            Row::Inside(&[]),
            Row::Inside(&[2]),
            Row::Inside(&[2, 1]),
        ],
        "17: [] 1; [0, 0] 2; [0, 1] 2; [2] 1; [2, 0] 2; [2, 1] 3; 2 9 3; 3 0 1; 3 1 2;",
    ),
];

fn add_all(alloc: Global, tally: &mut Tally, rows: &[Row]) -> Result<(), AllocError> {
    for row in rows {
        add(tally, outcome_of(alloc, row)?)?;
    }
    Ok(())
}

#[test]
fn equal_outcomes_are_joined_wherever_they_stand(rt: HostRuntime) -> Result<(), Fail> {
    let mut tally = Tally::new(rt.alloc());
    for (rows, text) in &ADDED {
        add_all(rt.alloc(), &mut tally, rows)?;
        assert_eq!(rt; shown(rt.alloc(), &tally)?.as_str(), *text);
    }
    Ok(())
}

const COUNTED_FIRST: [Row; 4] = [
    Row::Inside(&[2, 1]),
    Row::Outside(3, 1),
    Row::Inside(&[2, 1]),
    Row::Outside(2, 9),
];

/// Outcomes that are taken back, whether all of them were there, and what the tally has then.
const TAKEN_BACK: [(&[Row], bool, &str); 3] = [
    (
        &[Row::Inside(&[2, 1]), Row::Outside(3, 1)],
        true,
        "2: [2, 1] 1; 2 9 1;",
    ),
    (&[Row::Outside(3, 1)], false, "2: [2, 1] 1; 2 9 1;"),
    (&[Row::Outside(2, 9), Row::Inside(&[2, 1])], true, "0:"),
];

/// Takes back copies of the outcomes, one after another, up to one that isn't there; whether all were.
fn take_back(alloc: Global, tally: &mut Tally, rows: &[Row]) -> Result<bool, AllocError> {
    for row in rows {
        let outcome = outcome_of(alloc, row)?.copy(alloc)?;
        if tally.count(&outcome) == 0 {
            return Ok(false);
        }
        tally.take_back(&outcome);
    }
    Ok(true)
}

#[test]
fn what_is_taken_back_is_counted_no_more(rt: HostRuntime) -> Result<(), Fail> {
    let mut tally = Tally::new(rt.alloc());
    add_all(rt.alloc(), &mut tally, &COUNTED_FIRST)?;
    for (rows, there, text) in &TAKEN_BACK {
        assert_eq!(rt; take_back(rt.alloc(), &mut tally, rows)?, *there);
        assert_eq!(rt; shown(rt.alloc(), &tally)?.as_str(), *text);
    }
    Ok(())
}

/// Outcomes of two tallies, and what the first one has once the second is counted too.
const JOINED: [(&[Row], &[Row], &str); 4] = [
    (&[], &[], "0:"),
    (
        &[Row::Inside(&[2]), Row::Outside(3, 1)],
        &[],
        "2: [2] 1; 3 1 1;",
    ),
    (&[], &[Row::Inside(&[2]), Row::Inside(&[2])], "2: [2] 2;"),
    (
        &[Row::Inside(&[2]), Row::Outside(3, 1), Row::Inside(&[2])],
        &[
            Row::Outside(3, 1),
            Row::Inside(&[1]),
            Row::Outside(3, 1),
            Row::Inside(&[2]),
        ],
        "7: [1] 1; [2] 3; 3 1 3;",
    ),
];

fn tally_of(alloc: Global, rows: &[Row]) -> Result<Tally, AllocError> {
    let mut tally = Tally::new(alloc);
    add_all(alloc, &mut tally, rows)?;
    Ok(tally)
}

/// The tally of two lists, by joining their tallies where the sum of the totals has room.
fn joined(alloc: Global, before: &[Row], after: &[Row]) -> Result<Tally, AllocError> {
    let mut tally = tally_of(alloc, before)?;
    let other = tally_of(alloc, after)?;
    if tally.total() <= u64::MAX - other.total() {
        tally.join(other)?;
    }
    Ok(tally)
}

#[test]
fn joined_tallies_have_what_both_had(rt: HostRuntime) -> Result<(), Fail> {
    for (before, after, text) in &JOINED {
        let tally = joined(rt.alloc(), before, after)?;
        assert_eq!(rt; shown(rt.alloc(), &tally)?.as_str(), *text);
    }
    Ok(())
}
