//! Sources and sinks in memory, told by tables: what each call answers, and what was taken or is held then. Draws, by their words.
use super::*;
use std::alloc::{AllocError, Global};
use std::test::Fail;

struct Takes {
    bytes: &'static [u8],
    most: usize,
    fails: &'static [u32],
    room: usize,
    answers: &'static [Take],
}

struct Puts {
    room: usize,
    most: usize,
    fails: &'static [u32],
    piece: &'static [u8],
    answers: &'static [Put],
    held: &'static [u8],
}

const TAKES: [Takes; 4] = [
    Takes {
        bytes: b"",
        most: 1,
        fails: &[],
        room: 8,
        answers: &[Take::End, Take::End],
    },
    Takes {
        bytes: b"abc",
        most: 1,
        fails: &[],
        room: 8,
        answers: &[Take::Took(1), Take::Took(1), Take::Took(1), Take::End],
    },
    Takes {
        bytes: b"abcde",
        most: 100,
        fails: &[],
        room: 2,
        answers: &[Take::Took(2), Take::Took(2), Take::Took(1), Take::End],
    },
    Takes {
        bytes: b"abcde",
        most: 3,
        fails: &[2, 0, 4, 9],
        room: 8,
        answers: &[
            Take::Failed,
            Take::Took(3),
            Take::Failed,
            Take::Took(2),
            Take::Failed,
            Take::End,
        ],
    },
];

const PUTS: [Puts; 4] = [
    Puts {
        room: 8,
        most: 100,
        fails: &[],
        piece: b"abc",
        answers: &[Put::Wrote(3)],
        held: b"abc",
    },
    Puts {
        room: 8,
        most: 1,
        fails: &[1],
        piece: b"abc",
        answers: &[Put::Wrote(1), Put::Failed, Put::Wrote(1), Put::Wrote(1)],
        held: b"abc",
    },
    Puts {
        room: 3,
        most: 2,
        fails: &[],
        piece: b"abcdef",
        answers: &[Put::Wrote(2), Put::Wrote(1), Put::Failed, Put::Failed],
        held: b"abc",
    },
    Puts {
        room: 0,
        most: 1,
        fails: &[],
        piece: b"a",
        answers: &[Put::Failed],
        held: b"",
    },
];

/// Takes once for each answer, puts what was taken behind `taken`, and tells whether each answer came.
fn answers_takes<S: Source>(
    source: &mut S,
    row: &Takes,
    taken: &mut Vec<u8>,
) -> Result<bool, AllocError> {
    let mut buf = [0u8; 8];
    if row.room == 0 || 8 < row.room {
        return Ok(false);
    }
    for answer in row.answers {
        let took = source.take(&mut buf[..row.room]);
        if took != *answer {
            return Ok(false);
        }
        if let Take::Took(count) = took {
            taken.extend_from_slice(&buf[..count])?;
        }
    }
    Ok(true)
}

/// Offers what is left of the piece, once for each answer, and tells whether each came.
fn answers_puts<K: Sink>(sink: &mut K, row: &Puts) -> bool {
    let mut left = row.piece;
    for answer in row.answers {
        if left.is_empty() {
            return false;
        }
        let put = sink.put(left);
        if put != *answer {
            return false;
        }
        if let Put::Wrote(count) = put {
            left = &left[count..];
        }
    }
    true
}

fn source_of(alloc: Global, row: &Takes) -> Result<MemSource, AllocError> {
    let bytes = row.bytes.to_vec(alloc)?;
    let fails = row.fails.to_vec(alloc)?;
    Ok(MemSource::new(bytes, row.most.max(1), fails))
}

fn gives(alloc: Global, row: &Takes) -> Result<bool, AllocError> {
    let mut source = source_of(alloc, row)?;
    let mut taken = Vec::new(alloc);
    Ok(answers_takes(&mut source, row, &mut taken)? && taken.as_slice() == row.bytes)
}

fn holds(alloc: Global, row: &Puts) -> Result<bool, AllocError> {
    let mut sink = MemSink::with_room(alloc, row.room, row.most.max(1), row.fails.to_vec(alloc)?)?;
    Ok(answers_puts(&mut sink, row) && sink.held_bytes() == row.held)
}

/// The first row of a source that doesn't answer so.
fn first_wrong_source(alloc: Global) -> Result<Option<usize>, AllocError> {
    for (place, row) in TAKES.iter().enumerate() {
        if !gives(alloc, row)? {
            return Ok(Some(place));
        }
    }
    Ok(None)
}

/// The first row of a sink that doesn't.
fn first_wrong_sink(alloc: Global) -> Result<Option<usize>, AllocError> {
    for (place, row) in PUTS.iter().enumerate() {
        if !holds(alloc, row)? {
            return Ok(Some(place));
        }
    }
    Ok(None)
}

fn pass<G: Gate + Sync>(gate: &G) {
    gate.at(0, 0);
    gate.held(1);
}

#[test]
fn what_is_in_memory_answers_as_it_is_told(rt: HostRuntime) -> Result<(), Fail> {
    assert_eq!(rt; first_wrong_source(rt.alloc())?, None);
    assert_eq!(rt; first_wrong_sink(rt.alloc())?, None);
    // An open gate lets everyone pass.
    pass(&OpenGate);
    Ok(())
}

/// Numbers, each with what the next draw below it gives.
struct Drawn {
    seed: u64,
    stream: u64,
    draws: &'static [(u32, u32)],
}

const DRAWN: [Drawn; 5] = [
    // The words that the demonstration of PCG's reference code prints: none is 2^32 - 1, so each is its own rest.
    Drawn {
        seed: 42,
        stream: 54,
        draws: &[
            (u32::MAX, 0xa15c02b7),
            (u32::MAX, 0x7b47f409),
            (u32::MAX, 0xba1d3330),
            (u32::MAX, 0x83d2f293),
            (u32::MAX, 0xbfa4784b),
            (u32::MAX, 0xcbed606e),
        ],
    },
    Drawn {
        seed: 42,
        stream: 54,
        draws: &[(3, 0), (3, 0), (3, 2)],
    },
    Drawn {
        seed: 42,
        stream: 54,
        draws: &[(2, 1), (3, 0), (4, 0), (3, 1), (2, 1), (1, 0)],
    },
    // Words by another program of the published recurrence.
    Drawn {
        seed: 0,
        stream: 0,
        draws: &[
            (u32::MAX, 3837872008),
            (u32::MAX, 932996374),
            (u32::MAX, 1548399547),
        ],
    },
    Drawn {
        seed: u64::MAX,
        stream: u64::MAX,
        draws: &[
            (u32::MAX, 645251143),
            (u32::MAX, 2004461623),
            (u32::MAX, 2705697299),
        ],
    },
];

/// Whether each draw gives what the row says, where a copy goes on after each.
fn draws_so(row: &Drawn) -> Result<bool, AllocError> {
    let mut draws = Draws::new(row.seed, row.stream);
    for (n, number) in row.draws {
        if *n == 0 || draws.below(*n) != *number {
            return Ok(false);
        }
        draws = draws.clone()?;
    }
    Ok(true)
}

#[test]
fn draws_are_the_words_of_a_seed_and_a_stream(rt: HostRuntime) -> Result<(), Fail> {
    for row in &DRAWN {
        assert!(rt; draws_so(row)?);
    }
    Ok(())
}
