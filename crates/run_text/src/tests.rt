//! Tests of reading runs: texts written by hand, with their values and how they are refused.
use crate::fault::RunFault;
use crate::next_line::nothing_after;
use crate::run_lines::RunLines;
use std::alloc::{AllocError, Global};
use std::process::Abort;
use std::test::Fail;

/// A text of runs whose first line is line 10, with the number of loads, and the values of all runs behind one that stood there before.
struct Good {
    bytes: &'static [u8],
    loads: u32,
    runs: u32,
    values: &'static [u32],
}

const GOOD: [Good; 6] = [
    Good {
        bytes: b"done\n",
        loads: 2,
        runs: 0,
        values: &[77],
    },
    Good {
        bytes: b"run 0 0\nrun 2 1\nrun 0 1\ndone\n",
        loads: 2,
        runs: 3,
        values: &[77, 0, 0, 2, 1, 0, 1],
    },
    // No load, so no value.
    Good {
        bytes: b"run\nrun\ndone\n",
        loads: 0,
        runs: 2,
        values: &[77],
    },
    // The largest values.
    Good {
        bytes: b"run 4294967295\nrun 4294967294\ndone\n",
        loads: 1,
        runs: 2,
        values: &[77, 4294967295, 4294967294],
    },
    // Each digit.
    Good {
        bytes: b"run 0 1 2 3 4 5 6 7 8 9 10 1234567890\ndone\n",
        loads: 12,
        runs: 1,
        values: &[77, 0, 1, 2, 3, 4, 5, 6, 7, 8, 9, 10, 1234567890],
    },
    Good {
        bytes: b"run 20 300 1\nrun 40 5 6\ndone\n",
        loads: 3,
        runs: 2,
        values: &[77, 20, 300, 1, 40, 5, 6],
    },
];

// The next two alone make the calls under test, and hand their answers on without clauses.

fn begin<'a>(rt: &impl Abort, bytes: &'a [u8], line: u32, loads: u32) -> RunLines<'a> {
    assert!(rt; bytes.len() < 2000 && line < 100);
    RunLines::new(bytes, line, loads)
}

fn next(lines: &mut RunLines<'_>, values: &mut Vec<u32>) -> Result<bool, RunFault> {
    lines.next(values)
}

fn check_runs(rt: &impl Abort, lines: &mut RunLines<'_>, values: &mut Vec<u32>, runs: u32) {
    for _ in 0..runs {
        let line = lines.line();
        assert!(rt; next(lines, values) == Ok(true));
        assert!(rt; lines.line() == line.saturating_add(1));
    }
}

fn check_good(rt: &impl Abort, alloc: Global, good: &Good) -> Result<(), Fail> {
    let mut lines = begin(rt, good.bytes, 10, good.loads);
    let mut values = Vec::new(alloc);
    values.push(77)?;
    assert!(rt; lines.line() == 10);
    check_runs(rt, &mut lines, &mut values, good.runs);
    // The end is told at each further call.
    for _ in 0..3 {
        assert!(rt; next(&mut lines, &mut values) == Ok(false));
        assert!(rt; lines.line() == good.runs.saturating_add(11));
    }
    assert!(rt; values.as_slice() == good.values);
    Ok(())
}

#[test]
fn reads_runs(rt: HostRuntime) -> Result<(), Fail> {
    for good in &GOOD {
        check_good(&rt, rt.alloc(), good)?;
    }
    Ok(())
}

/// Texts that are refused so behind their first good lines, where the first line is line 10 and a test has two loads.
struct Refused {
    good: u32,
    fault: RunFault,
    texts: &'static [&'static [u8]],
}

const REFUSED: [Refused; 13] = [
    // An unclosed line comes before all.
    Refused {
        good: 0,
        fault: RunFault::NoDone { line: 10 },
        texts: &[b"", b"run 0 0", b"done", b"run 0", b"x", b"ru"],
    },
    // The form of a line comes before what it says.
    Refused {
        good: 0,
        fault: RunFault::BadRunLine { line: 10 },
        texts: &[
            b"\n",
            b"\ndone\n",
            b"run 0  0\n",
            b"run  0 0\n",
            b"run 0 0 \n",
            b" run 0 0\n",
            b"run \n",
            b"run0 0\n",
            b"run\t0 0\n",
            b"run 0\t0\n",
            b"run 0 0\r\n",
            b"done\r\n",
            b"done \n",
            b"Done\n",
            b"Run 0 0\n",
            b"runs 0 0\n",
            b"ru\n",
            b"run 00 0\n",
            b"run 0 01\n",
            b"run -1 0\n",
            b"run +1 0\n",
            b"run 1.0 0\n",
            b"run 0x1 0\n",
            b"run 1,2\n",
            b"run 0 \xb2\n",
            b"run 0 0 # zero\n",
            b"run 1 2 4294967296x\n",
            b"end\n",
        ],
    },
    // The number of values comes before their size.
    Refused {
        good: 0,
        fault: RunFault::WrongCount {
            line: 10,
            want: 2,
            got: 0,
        },
        texts: &[b"run\n"],
    },
    Refused {
        good: 0,
        fault: RunFault::WrongCount {
            line: 10,
            want: 2,
            got: 1,
        },
        texts: &[b"run 0\n", b"run 4294967296\n"],
    },
    Refused {
        good: 0,
        fault: RunFault::WrongCount {
            line: 10,
            want: 2,
            got: 3,
        },
        texts: &[
            b"run 0 0 0\n",
            b"run 4294967296 0 0\n",
            b"run 0 0 4294967296\n",
        ],
    },
    Refused {
        good: 0,
        fault: RunFault::ValueRange { line: 10 },
        texts: &[
            b"run 0 4294967296\n",
            b"run 4294967296 0\n",
            b"run 0 18446744073709551616\n",
        ],
    },
    // Behind `done`.
    Refused {
        good: 0,
        fault: RunFault::AfterDone { line: 11 },
        texts: &[b"done\nx", b"done\n\n", b"done\ndone\n"],
    },
    // Behind good lines.
    Refused {
        good: 1,
        fault: RunFault::NoDone { line: 11 },
        texts: &[b"run 0 0\n"],
    },
    Refused {
        good: 2,
        fault: RunFault::NoDone { line: 12 },
        texts: &[b"run 0 0\nrun 1 1\ndone"],
    },
    Refused {
        good: 1,
        fault: RunFault::AfterDone { line: 12 },
        texts: &[b"run 0 0\ndone\nx"],
    },
    Refused {
        good: 1,
        fault: RunFault::WrongCount {
            line: 11,
            want: 2,
            got: 1,
        },
        texts: &[b"run 0 0\nrun 0\ndone\n"],
    },
    Refused {
        good: 2,
        fault: RunFault::ValueRange { line: 12 },
        texts: &[b"run 0 0\nrun 1 1\nrun 0 4294967296\nbad\n"],
    },
    Refused {
        good: 1,
        fault: RunFault::BadRunLine { line: 11 },
        texts: &[b"run 0 0\n\ndone\n"],
    },
];

fn check_refused(
    rt: &impl Abort,
    mut lines: RunLines<'_>,
    alloc: Global,
    good: u32,
    line: u32,
    fault: RunFault,
) -> Result<(), Fail> {
    let mut values = Vec::new(alloc);
    values.push(77)?;
    check_runs(rt, &mut lines, &mut values, good);
    let kept = values.clone()?;
    // Nothing has changed, so that the next call refuses again.
    for _ in 0..2 {
        assert!(rt; next(&mut lines, &mut values) == Err(fault));
        assert!(rt; lines.line() == line);
        assert!(rt; values.as_slice() == kept.as_slice());
    }
    Ok(())
}

#[test]
fn refuses_lines(rt: HostRuntime) -> Result<(), Fail> {
    for refused in &REFUSED {
        for text in refused.texts.iter() {
            let lines = begin(&rt, text, 10, 2);
            let line = refused.good.saturating_add(10);
            check_refused(&rt, lines, rt.alloc(), refused.good, line, refused.fault)?;
        }
    }
    Ok(())
}

/// A text with a value of so many digits, and how it is refused behind a test with one load.
const LONG: [(&[u8], u8, &[u8], RunFault); 4] = [
    (
        b"run 1",
        b'0',
        b"\ndone\n",
        RunFault::ValueRange { line: 1 },
    ),
    (b"run ", b'9', b"\ndone\n", RunFault::ValueRange { line: 1 }),
    (b"run ", b'0', b"\ndone\n", RunFault::BadRunLine { line: 1 }),
    (
        b"run ",
        b'9',
        b" 0\ndone\n",
        RunFault::WrongCount {
            line: 1,
            want: 1,
            got: 2,
        },
    ),
];

fn text_of(alloc: Global, front: &[u8], digit: u8, back: &[u8]) -> Result<Vec<u8>, AllocError> {
    let mut text = Vec::from_slice(alloc, front)?;
    for _ in 0..1000 {
        text.push(digit)?;
    }
    text.extend_from_slice(back)?;
    Ok(text)
}

#[test]
fn reads_long_numerals(rt: HostRuntime) -> Result<(), Fail> {
    for (front, digit, back, fault) in &LONG {
        let text = text_of(rt.alloc(), front, *digit, back)?;
        check_refused(&rt, begin(&rt, &text, 1, 1), rt.alloc(), 0, 1, *fault)?;
    }
    Ok(())
}

fn after(bytes: &[u8]) -> Result<(), RunFault> {
    nothing_after(bytes, 10)
}

#[test]
fn nothing_stands_after(rt: HostRuntime) {
    let late = RunFault::AfterDone { line: 10 };
    assert!(rt; after(b"") == Ok(()));
    assert!(rt; after(b"x") == Err(late));
    assert!(rt; after(b"\n") == Err(late));
    assert!(rt; after(b"done\n") == Err(late));
}
