//! Tests of counting by pieces: texts of some 70,000 runs of eight bytes each, with one bad line, whose counts and line numbers were worked out by hand.
//! By eight workers such a text is cut behind each 8,751 lines, and by two behind 35,001.
use crate::count_runs;
use run_text::fault::RunFault;
use signature_plan::Plan;
use std::alloc::{AllocError, Global};
use std::test::Fail;
use std::thread::Threads;
use tally::Tally;
use test_lang::test::Test;

const TEST: &[u8] = b"mtest 1\nwords 2\nthread\nst 0\nld 1\nthread\nst 1\nld 0\nend\n";

const RUNS: [&[u8]; 4] = [b"run 0 0\n", b"run 0 1\n", b"run 2 0\n", b"run 2 1\n"];

/// So many lines, and what stands behind them.
fn text_of(alloc: Global, lines: u32, end: &[u8]) -> Result<Vec<u8>, AllocError> {
    let mut text = Vec::new(alloc);
    for line in 0..lines {
        text.extend_from_slice(RUNS[(line % 4) as usize])?;
    }
    text.extend_from_slice(end)?;
    Ok(text)
}

/// The runs of a text whose first line is line 12.
fn count<R: Threads + Sync>(
    rt: &R,
    alloc: Global,
    text: &[u8],
    most: u64,
    workers: u32,
) -> Result<(u64, Tally), RunFault> {
    let Ok(read) = Test::read(alloc, TEST) else {
        return Err(RunFault::Memory);
    };
    let plan = Plan::of(alloc, &read.test)?;
    if text.len() > 1_000_000 || workers < 1 {
        return Err(RunFault::Memory);
    }
    count_runs(rt, alloc, &plan, text, 12, most, workers)
}

fn fault_of<R: Threads + Sync>(
    rt: &R,
    alloc: Global,
    text: &[u8],
    workers: u32,
) -> Option<RunFault> {
    count(rt, alloc, text, 1_000_000, workers).err()
}

/// How often each outcome occurred.
fn counts_of(tally: &Tally) -> [u64; 4] {
    let mut counts = [0u64; 4];
    for (place, (_, times)) in tally.iter().enumerate() {
        if let Some(count) = counts.get_mut(place) {
            *count = times;
        }
    }
    counts
}

#[test]
fn workers_count_the_same(rt: HostRuntime) -> Result<(), Fail> {
    let text = text_of(rt.alloc(), 70_001, b"done\n")?;
    for workers in [1, 2, 8] {
        let (runs, tally) = count(&rt, rt.alloc(), &text, 70_001, workers)?;
        assert!(rt; runs == 70_001);
        assert!(rt; tally.total() == 70_001);
        assert!(rt; counts_of(&tally) == [17_501, 17_500, 17_500, 17_500]);
        // Where they are too many, they are read all the same.
        let (runs, _) = count(&rt, rt.alloc(), &text, 10, workers)?;
        assert!(rt; runs == 70_001);
    }
    Ok(())
}

#[test]
fn small_texts_are_counted(rt: HostRuntime) -> Result<(), Fail> {
    for workers in [1, 2, 8] {
        let (runs, tally) = count(
            &rt,
            rt.alloc(),
            b"run 0 0\nrun 2 1\nrun 0 0\ndone\n",
            3,
            workers,
        )?;
        assert!(rt; runs == 3);
        assert!(rt; counts_of(&tally) == [2, 1, 0, 0]);
        assert!(rt; fault_of(&rt, rt.alloc(), b"", workers) == Some(RunFault::NoDone { line: 12 }));
    }
    Ok(())
}

/// The first and the last lines of pieces, and two within.
const PLACES: [u32; 10] = [
    0, 1, 8_750, 8_751, 17_501, 17_502, 35_000, 35_001, 52_506, 69_999,
];

#[test]
fn first_bad_line_is_told(rt: HostRuntime) -> Result<(), Fail> {
    for place in PLACES {
        let mut text = text_of(rt.alloc(), 70_000, b"done\n")?;
        // A line further back is bad too.
        for line in [place, 69_999] {
            if let Some(byte) = text.get_mut((line as usize).saturating_mul(8)) {
                *byte = b'x';
            }
        }
        let line = place.saturating_add(12);
        for workers in [1, 2, 8] {
            let fault = fault_of(&rt, rt.alloc(), &text, workers);
            assert!(rt; fault == Some(RunFault::BadRunLine { line }));
        }
    }
    Ok(())
}

#[test]
fn text_behind_done_is_told(rt: HostRuntime) -> Result<(), Fail> {
    for lines in PLACES {
        let mut text = text_of(rt.alloc(), lines, b"done\n")?;
        let behind = text_of(rt.alloc(), 70_000u32.saturating_sub(lines), b"done\n")?;
        text.extend_from_slice(&behind)?;
        let line = lines.saturating_add(13);
        for workers in [1, 2, 8] {
            let fault = fault_of(&rt, rt.alloc(), &text, workers);
            assert!(rt; fault == Some(RunFault::AfterDone { line }));
        }
    }
    Ok(())
}

#[test]
fn missing_done_is_told(rt: HostRuntime) -> Result<(), Fail> {
    for end in [b"".as_slice(), b"done", b"run 0"] {
        let text = text_of(rt.alloc(), 70_000, end)?;
        for workers in [1, 2, 8] {
            let fault = fault_of(&rt, rt.alloc(), &text, workers);
            assert!(rt; fault == Some(RunFault::NoDone { line: 70_012 }));
        }
    }
    Ok(())
}
