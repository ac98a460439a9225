//! Whole reports.
ghost use Rattle.std.specs.Prelude.{◌≡◌, length};
ghost use Rattle.verdict_report.specs.Lines.{signatures};

use crate::{Judged, Report, Work, run_line, summary, text};
use digraph::Nodes;
use std::alloc::{AllocError, Global};
use std::test::Fail;
use tally::{Outcome, Signature, Tally};
use test_lang::op::MemModel;

/// What a report is made of, and its text.
#[derive(Drop)]
struct Case<'a> {
    model: MemModel,
    runs: u64,
    /// The signatures of the runs inside, each as its words.
    inside: &'a [&'a [u64]],
    /// The node and the value of each run outside.
    outside: &'a [(u32, u32)],
    /// The cycle of each distinct signature, or no nodes where it is ok.
    cycles: &'a [&'a [u32]],
    /// Chunks, full, kept, resorted, nodes.
    work: [u64; 5],
    want: &'a str,
    /// Whether `want` has neither a cycle nor an outcome outside.
    clean: bool,
}

/// Adds an outcome, where the tally isn't full.
fn add(tally: &mut Tally, outcome: Outcome) -> Result<(), Fail> {
    if tally.total() < u64::MAX {
        tally.add(outcome).map_err(|_| "want of memory")?;
    }
    Ok(())
}

fn tally_of(alloc: Global, case: &Case<'_>) -> Result<Tally, Fail> {
    let mut tally = Tally::new(alloc);
    for (node, value) in case.outside {
        let outcome = Outcome::Outside {
            node: *node,
            value: *value,
        };
        add(&mut tally, outcome)?;
    }
    for words in case.inside {
        add(&mut tally, Outcome::Inside(Signature::of(alloc, words)?))?;
    }
    Ok(tally)
}

/// The verdict of a cycle of at most 8 nodes.
fn judged(alloc: Global, cycle: &[u32]) -> Result<Judged, AllocError> {
    if cycle.is_empty() {
        return Ok(Judged::Ok);
    }
    let mut nodes = Nodes::with_room(alloc, 8)?;
    for node in cycle {
        if nodes.list().len() < 8 {
            nodes.push(*node);
        }
    }
    Ok(Judged::Cycle(nodes))
}

/// The number of distinct signatures.
fn count_signatures(tally: &Tally) -> usize
    ensures { result ≡ length (signatures tally.now) }
{
    let mut count = 0;
    for (outcome, _) in tally.iter() {
        if let Outcome::Inside(_) = outcome {
            count += 1;
        }
    }
    count
}

/// The text of the case's report, its summary, and whether it is clean.
fn written(alloc: Global, case: &Case<'_>) -> Result<(Vec<u8>, Vec<u8>, bool), Fail> {
    let tally = tally_of(alloc, case)?;
    let mut found = Vec::new(alloc);
    for cycle in case.cycles {
        found.push(judged(alloc, cycle)?)?;
    }
    if count_signatures(&tally) != found.len() {
        return Err(Fail::from("another number of verdicts"));
    }
    let [chunks, full, kept, resorted, nodes] = case.work;
    let report = Report {
        model: case.model,
        runs: case.runs,
        tally: &tally,
        found: &found,
        work: Work {
            chunks,
            full,
            kept,
            resorted,
            nodes,
        },
    };
    Ok((
        text(alloc, &report)?,
        summary(alloc, &report)?,
        report.is_clean(),
    ))
}

const CASES: [Case<'static>; 7] = [
    Case {
        model: MemModel::Sc,
        runs: 1,
        inside: &[&[0, 0]],
        outside: &[],
        cycles: &[&[0, 1, 2, 3]],
        work: [1, 1, 0, 0, 0],
        want: "mtrace 1\nmodel sc\nruns 1\n\
            sig 0000000000000000.0000000000000000 count 1 cycle 0 1 2 3\n\
            sum signatures 1 ok 0 cycle 1 outside 0\n\
            work chunks 1 full 1 kept 0 resorted 0 nodes 0\n",
        clean: false,
    },
    Case {
        model: MemModel::Tso,
        runs: 1,
        inside: &[&[0, 0]],
        outside: &[],
        cycles: &[&[]],
        work: [1, 1, 0, 0, 0],
        want: "mtrace 1\nmodel tso\nruns 1\n\
            sig 0000000000000000.0000000000000000 count 1 ok\n\
            sum signatures 1 ok 1 cycle 0 outside 0\n\
            work chunks 1 full 1 kept 0 resorted 0 nodes 0\n",
        clean: true,
    },
    Case {
        model: MemModel::Sc,
        runs: 8,
        inside: &[
            &[1, 1],
            &[1, 0],
            &[0, 1],
            &[0, 0],
            &[1, 1],
            &[1, 0],
            &[0, 1],
            &[0, 0],
        ],
        outside: &[],
        cycles: &[&[0, 1, 2, 3], &[], &[], &[]],
        work: [1, 2, 0, 2, 6],
        want: "mtrace 1\nmodel sc\nruns 8\n\
            sig 0000000000000000.0000000000000000 count 2 cycle 0 1 2 3\n\
            sig 0000000000000000.0000000000000001 count 2 ok\n\
            sig 0000000000000001.0000000000000000 count 2 ok\n\
            sig 0000000000000001.0000000000000001 count 2 ok\n\
            sum signatures 4 ok 3 cycle 1 outside 0\n\
            work chunks 1 full 2 kept 0 resorted 2 nodes 6\n",
        clean: false,
    },
    Case {
        model: MemModel::Sc,
        runs: 3,
        inside: &[],
        outside: &[(2, 1), (2, 0), (2, 9)],
        cycles: &[],
        work: [0, 0, 0, 0, 0],
        want: "mtrace 1\nmodel sc\nruns 3\n\
            outside 2 value 0 count 1\n\
            outside 2 value 1 count 1\n\
            outside 2 value 9 count 1\n\
            sum signatures 0 ok 0 cycle 0 outside 3\n\
            work chunks 0 full 0 kept 0 resorted 0 nodes 0\n",
        clean: false,
    },
    Case {
        model: MemModel::Pso,
        runs: 0,
        inside: &[],
        outside: &[],
        cycles: &[],
        work: [0, 0, 0, 0, 0],
        want: "mtrace 1\nmodel pso\nruns 0\n\
            sum signatures 0 ok 0 cycle 0 outside 0\n\
            work chunks 0 full 0 kept 0 resorted 0 nodes 0\n",
        clean: true,
    },
    Case {
        model: MemModel::Weak,
        runs: 0,
        inside: &[],
        outside: &[],
        cycles: &[],
        work: [0, 0, 0, 0, 0],
        want: "mtrace 1\nmodel weak\nruns 0\n\
            sum signatures 0 ok 0 cycle 0 outside 0\n\
            work chunks 0 full 0 kept 0 resorted 0 nodes 0\n",
        clean: true,
    },
    Case {
        model: MemModel::Weak,
        runs: 1000000,
        inside: &[
            &[u64::MAX, 1],
            &[],
            &[0x0123_4567_89ab_cdef],
            &[],
            &[u64::MAX, 1],
            &[10],
            &[],
        ],
        outside: &[
            (4000000000, 7),
            (10, 4294967295),
            (4000000000, 7),
            (9, 2048),
        ],
        cycles: &[&[], &[3], &[1, 10, 2047], &[]],
        work: [12, 345, 18446744073709551615, 6, 1000000],
        want: "mtrace 1\nmodel weak\nruns 1000000\n\
            sig none count 3 ok\n\
            sig 000000000000000a count 1 cycle 3\n\
            sig 0123456789abcdef count 1 cycle 1 10 2047\n\
            sig ffffffffffffffff.0000000000000001 count 2 ok\n\
            outside 9 value 2048 count 1\n\
            outside 10 value 4294967295 count 1\n\
            outside 4000000000 value 7 count 2\n\
            sum signatures 4 ok 2 cycle 2 outside 3\n\
            work chunks 12 full 345 kept 18446744073709551615 resorted 6 nodes 1000000\n",
        clean: false,
    },
];

/// The lines of a text that tell no outcome.
fn without_outcomes(alloc: Global, text: &str) -> Result<String, AllocError> {
    let mut left = String::new(alloc);
    for line in text.lines() {
        if !line.starts_with("sig") && !line.starts_with("outside") {
            left.push_str(line)?;
            left.push('\n')?;
        }
    }
    Ok(left)
}

/// Whether the case's report and its summary are written as they must be, and the report is clean or not.
fn is_written(alloc: Global, case: &Case<'_>) -> Result<bool, Fail> {
    let (whole, short, clean) = written(alloc, case)?;
    let left = without_outcomes(alloc, case.want)?;
    Ok(
        whole.as_slice() == case.want.as_bytes()
            && short.as_slice() == left.as_bytes()
            && clean == case.clean,
    )
}

#[test]
fn reports_are_written(rt: HostRuntime) -> Result<(), Fail> {
    for case in &CASES {
        assert!(rt; is_written(rt.alloc(), case)?);
    }
    Ok(())
}

/// Runs, and their lines.
const RUNS: [(&[u32], &str); 4] = [
    (&[], "run\n"),
    (&[0], "run 0\n"),
    (&[2, 0, 10, 4294967295], "run 2 0 10 4294967295\n"),
    (&[1, 1], "run 1 1\n"),
];

/// The first run that has another line, if there is one.
fn wrong_line(alloc: Global) -> Result<Option<usize>, AllocError> {
    for (place, (values, line)) in RUNS.iter().enumerate() {
        if run_line(alloc, values)?.as_slice() != line.as_bytes() {
            return Ok(Some(place));
        }
    }
    Ok(None)
}

#[test]
fn lines_of_runs(rt: HostRuntime) -> Result<(), Fail> {
    assert_eq!(rt; wrong_line(rt.alloc())?, None);
    Ok(())
}
