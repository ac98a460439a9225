//! Tests of reading by pieces: texts and their pieces, and what pieces give by themselves, written by hand.
use crate::fault::RunFault;
use crate::piece_turn::PieceTurn;
use crate::pieces::cut_pieces;
use crate::run_lines::RunLines;
use std::alloc::{AllocError, Global};
use std::process::Abort;
use std::test::Fail;

/// A text, how many bytes a piece has at least, and its pieces.
struct Cut {
    text: &'static [u8],
    size: usize,
    pieces: &'static [&'static [u8]],
}

const CUTS: [Cut; 9] = [
    Cut {
        text: b"",
        size: 1,
        pieces: &[],
    },
    // A small text is one piece.
    Cut {
        text: b"a\nb\n",
        size: 4,
        pieces: &[b"a\nb\n"],
    },
    // A piece goes on to the end of its line, which may be that of the text.
    Cut {
        text: b"a\nb\n",
        size: 3,
        pieces: &[b"a\nb\n"],
    },
    Cut {
        text: b"a\nb\n",
        size: 2,
        pieces: &[b"a\n", b"b\n"],
    },
    Cut {
        text: b"long line\nb\nc\nd\n",
        size: 3,
        pieces: &[b"long line\n", b"b\nc\n", b"d\n"],
    },
    // The last line may be open.
    Cut {
        text: b"a\nbc",
        size: 1,
        pieces: &[b"a\n", b"bc"],
    },
    Cut {
        text: b"abc",
        size: 1,
        pieces: &[b"abc"],
    },
    // Empty lines.
    Cut {
        text: b"\n\n\n",
        size: 1,
        pieces: &[b"\n", b"\n", b"\n"],
    },
    Cut {
        text: b"\n\n\n",
        size: 2,
        pieces: &[b"\n\n", b"\n"],
    },
];

fn is_cut(alloc: Global, cut: &Cut) -> Result<bool, AllocError> {
    if cut.size < 1 {
        return Ok(false);
    }
    let pieces = cut_pieces(alloc, cut.text, cut.size)?;
    if pieces.len() != cut.pieces.len() {
        return Ok(false);
    }
    for (piece, expected) in pieces.iter().zip(cut.pieces.iter()) {
        if *piece != *expected {
            return Ok(false);
        }
    }
    Ok(true)
}

#[test]
fn cuts_texts(rt: HostRuntime) -> Result<(), Fail> {
    for cut in &CUTS {
        assert!(rt; is_cut(rt.alloc(), cut)?);
    }
    Ok(())
}

/// A piece behind a test of two loads, the values of its runs behind one that stood there before, and what comes then.
struct Read {
    piece: &'static [u8],
    runs: u32,
    values: &'static [u32],
    then: Result<PieceTurn, RunFault>,
}

const READ: [Read; 11] = [
    Read {
        piece: b"",
        runs: 0,
        values: &[77],
        then: Ok(PieceTurn::End),
    },
    Read {
        piece: b"run 0 3\nrun 1 2\n",
        runs: 2,
        values: &[77, 0, 3, 1, 2],
        then: Ok(PieceTurn::End),
    },
    Read {
        piece: b"done\n",
        runs: 0,
        values: &[77],
        then: Ok(PieceTurn::Done),
    },
    Read {
        piece: b"run 0 3\ndone\n",
        runs: 1,
        values: &[77, 0, 3],
        then: Ok(PieceTurn::Done),
    },
    // The first line is bad.
    Read {
        piece: b"\nrun 0 0\n",
        runs: 0,
        values: &[77],
        then: Err(RunFault::BadRunLine { line: 0 }),
    },
    Read {
        piece: b"run 0 4294967296\nrun 0 0\n",
        runs: 0,
        values: &[77],
        then: Err(RunFault::ValueRange { line: 0 }),
    },
    // The last line is bad.
    Read {
        piece: b"run 0 0\nrun 0\n",
        runs: 1,
        values: &[77, 0, 0],
        then: Err(RunFault::WrongCount {
            line: 1,
            want: 2,
            got: 1,
        }),
    },
    Read {
        piece: b"run 0 0\nrun 1 1\n\n",
        runs: 2,
        values: &[77, 0, 0, 1, 1],
        then: Err(RunFault::BadRunLine { line: 2 }),
    },
    Read {
        piece: b"run 0 0\nrun 1",
        runs: 1,
        values: &[77, 0, 0],
        then: Err(RunFault::NoDone { line: 1 }),
    },
    Read {
        piece: b"done",
        runs: 0,
        values: &[77],
        then: Err(RunFault::NoDone { line: 0 }),
    },
    Read {
        piece: b"run 0 0\ndone\nrun 1 1\n",
        runs: 1,
        values: &[77, 0, 0],
        then: Err(RunFault::AfterDone { line: 2 }),
    },
];

// It alone makes the call under test, and hands its answer on without clauses.
fn next(lines: &mut RunLines<'_>, values: &mut Vec<u32>) -> Result<PieceTurn, RunFault> {
    lines.next_in_piece(values)
}

fn check_read(rt: &impl Abort, alloc: Global, read: &Read) -> Result<(), Fail> {
    assert!(rt; read.piece.len() < 2000);
    let mut lines = RunLines::new(read.piece, 0, 2);
    let mut values = Vec::new(alloc);
    values.push(77)?;
    for _ in 0..read.runs {
        assert!(rt; next(&mut lines, &mut values) == Ok(PieceTurn::Run));
    }
    assert!(rt; next(&mut lines, &mut values) == read.then);
    assert!(rt; values.as_slice() == read.values);
    // A refusal comes again, and behind the end there is nothing.
    if read.then.is_err() {
        assert!(rt; next(&mut lines, &mut values) == read.then);
    } else {
        assert!(rt; next(&mut lines, &mut values) == Ok(PieceTurn::End));
    }
    assert!(rt; values.as_slice() == read.values);
    Ok(())
}

#[test]
fn reads_pieces(rt: HostRuntime) -> Result<(), Fail> {
    for read in &READ {
        check_read(&rt, rt.alloc(), read)?;
    }
    Ok(())
}

#[test]
fn refusals_move(rt: HostRuntime) {
    let count = RunFault::WrongCount {
        line: 3,
        want: 2,
        got: 1,
    };
    let moved_count = RunFault::WrongCount {
        line: 13,
        want: 2,
        got: 1,
    };
    assert!(rt; RunFault::BadRunLine { line: 3 }.moved(10) == RunFault::BadRunLine { line: 13 });
    assert!(rt; count.moved(10) == moved_count);
    assert!(rt; RunFault::ValueRange { line: 0 }.moved(10) == RunFault::ValueRange { line: 10 });
    assert!(rt; RunFault::NoDone { line: 1 }.moved(0) == RunFault::NoDone { line: 1 });
    assert!(rt; RunFault::AfterDone { line: 1 }.moved(1) == RunFault::AfterDone { line: 2 });
    assert!(rt; RunFault::Memory.moved(10) == RunFault::Memory);
}
