//! Tests of reading and printing: texts written by hand, with what they say and how they are refused.

use crate::op::{Action, FenceKind};
use crate::test::Test;
use crate::test::tests::{build, check_threads};
use crate::text::fault::TestFault;
use crate::text::print::print;
use crate::text::read::ReadTest;
use std::alloc::{AllocError, Global};
use std::process::Abort;
use std::test::Fail;

const FULL: Action = Action::Fence {
    kind: FenceKind::Full,
};

const STORE_FENCE: Action = Action::Fence {
    kind: FenceKind::Store,
};

const LOAD_FENCE: Action = Action::Fence {
    kind: FenceKind::Load,
};

/// Bytes that begin with the text of a test.
struct Good {
    bytes: &'static [u8],
    used: usize,
    lines: u32,
    version: u32,
    words: u32,
    threads: &'static [&'static [Action]],
    first_nodes: &'static [u32],
}

const GOOD: [Good; 7] = [
    // The shortest text.
    Good {
        bytes: b"mtest 1\nwords 1\nthread\nend\n",
        used: 27,
        lines: 4,
        version: 1,
        words: 1,
        threads: &[&[]],
        first_nodes: &[0],
    },
    // Store buffering, and a run behind it.
    Good {
        bytes: b"mtest 1\nwords 2\nthread\nst 0\nld 1\nthread\nst 1\nld 0\nend\nrun 0 0\ndone\n",
        used: 54,
        lines: 9,
        version: 1,
        words: 2,
        threads: &[
            &[Action::Store { word: 0 }, Action::Load { word: 1 }],
            &[Action::Store { word: 1 }, Action::Load { word: 0 }],
        ],
        first_nodes: &[0, 2],
    },
    // Empty threads, and fences before, between and behind.
    Good {
        bytes: b"mtest 1\nwords 10\nthread\nthread\nfence\nld 9\nfence\nthread\nthread\nfence\nend\n",
        used: 72,
        lines: 11,
        version: 1,
        words: 10,
        threads: &[&[], &[FULL, Action::Load { word: 9 }, FULL], &[], &[FULL]],
        first_nodes: &[0, 0, 3, 3],
    },
    // The largest words, and a second end behind the first.
    Good {
        bytes: b"mtest 1\nwords 256\nthread\nld 255\nst 100\nend\nend\n",
        used: 43,
        lines: 6,
        version: 1,
        words: 256,
        threads: &[&[Action::Load { word: 255 }, Action::Store { word: 100 }]],
        first_nodes: &[0],
    },
    // Bytes behind the end are not looked at.
    Good {
        bytes: b"mtest 1\nwords 1\nthread\nst 0\nend\n\xff\r\n ",
        used: 32,
        lines: 5,
        version: 1,
        words: 1,
        threads: &[&[Action::Store { word: 0 }]],
        first_nodes: &[0],
    },
    // Fences of all kinds.
    Good {
        bytes: b"mtest 2\nwords 2\nthread\nst 0\nfence st\nst 1\nthread\nld 1\nfence ld\nld 0\nfence\nend\n",
        used: 78,
        lines: 12,
        version: 2,
        words: 2,
        threads: &[
            &[
                Action::Store { word: 0 },
                STORE_FENCE,
                Action::Store { word: 1 },
            ],
            &[
                Action::Load { word: 1 },
                LOAD_FENCE,
                Action::Load { word: 0 },
                FULL,
            ],
        ],
        first_nodes: &[0, 3],
    },
    // Version 2 without a fence of its own is another test than that of version 1.
    Good {
        bytes: b"mtest 2\nwords 1\nthread\nfence\nend\n",
        used: 33,
        lines: 5,
        version: 2,
        words: 1,
        threads: &[&[FULL]],
        first_nodes: &[0],
    },
];

/// Reads the bytes, without the clauses of the call.
fn read(alloc: Global, bytes: &[u8]) -> Result<ReadTest, TestFault> {
    Test::read(alloc, bytes)
}

/// Checks that the test is printed so.
fn check_print(rt: &impl Abort, alloc: Global, test: &Test, text: &[u8]) -> Result<(), AllocError> {
    assert!(rt; test.threads() > 0);
    assert!(rt; print(alloc, test)?.as_slice() == text);
    Ok(())
}

#[test]
fn reads_and_prints(rt: HostRuntime) -> Result<(), Fail> {
    for good in &GOOD {
        let read = read(rt.alloc(), good.bytes)?;
        assert!(rt; read.used == good.used);
        assert!(rt; read.lines == good.lines);
        assert!(rt; read.test.version() == good.version);
        assert!(rt; read.test.words() == good.words);
        check_threads(&rt, &read.test, good.threads, good.first_nodes);
        assert!(rt; read.used <= good.bytes.len());
        check_print(&rt, rt.alloc(), &read.test, &good.bytes[..read.used])?;
    }
    Ok(())
}

#[test]
fn prints_a_load_fence(rt: HostRuntime) -> Result<(), Fail> {
    let test = build(&rt, rt.alloc(), 2, 1, &[&[LOAD_FENCE]])?;
    check_print(
        &rt,
        rt.alloc(),
        &test,
        b"mtest 2\nwords 1\nthread\nfence ld\nend\n",
    )?;
    Ok(())
}

/// Texts by the refusal that they get.
const REFUSED: [(TestFault, &[&[u8]]); 12] = [
    // An unclosed line comes before all.
    (
        TestFault::NoEnd { line: 1 },
        &[b"", b"mtest 1", b"mtest 2", b"mtest 3"],
    ),
    (
        TestFault::NoEnd { line: 2 },
        &[b"mtest 1\n", b"mtest 2\n", b"mtest 1\nwords 999"],
    ),
    (
        TestFault::NoEnd { line: 4 },
        &[
            b"mtest 1\nwords 2\nthread\nst 0",
            b"mtest 1\nwords 2\nthread\nend",
            b"mtest 1\nwords 2\nthread\n",
        ],
    ),
    (TestFault::NoEnd { line: 3 }, &[b"mtest 1\nwords 2\nld 9"]),
    // The first line, and it comes before later ones.
    (
        TestFault::BadHead { line: 1 },
        &[
            b"mtest 3\n",
            b"mtest 0\n",
            b"mtest 12\n",
            b"mtest\n",
            b"mtest 2 \n",
            b"mtest 02\n",
            b"mtest 1 \n",
            b"mtest  1\n",
            b"mtest 01\n",
            b"mtest 1\r\nwords 1\r\n",
            b"Mtest 1\n",
            b"\nmtest 1\n",
            b"\xef\xbb\xbfmtest 1\n",
            b"mtest 3\nwords 0\n",
        ],
    ),
    // The second line.
    (
        TestFault::BadWords { line: 2 },
        &[
            b"mtest 1\nwords 0\n",
            b"mtest 1\nwords 257\n",
            b"mtest 1\nwords 4294967297\n",
            b"mtest 1\nwords 01\n",
            b"mtest 1\nwords 1 \n",
            b"mtest 1\nwords  1\n",
            b"mtest 1\nwords\t1\n",
            b"mtest 1\nwords +1\n",
            b"mtest 1\nwords \n",
            b"mtest 1\nwords\n",
            b"mtest 1\nthread\n",
            b"mtest 1\nwords 0\nld\n",
            b"mtest 2\nwords 0\n",
        ],
    ),
    // The form of a later line comes before all that it says.
    (
        TestFault::BadLine { line: 4 },
        &[
            b"mtest 1\nwords 1\nthread\nld 00\n",
            b"mtest 1\nwords 1\nthread\nld  0\n",
            b"mtest 1\nwords 1\nthread\nld 0 \n",
            b"mtest 1\nwords 1\nthread\nld 0\r\n",
            b"mtest 1\nwords 1\nthread\nst\t0\n",
            b"mtest 1\nwords 1\nthread\n st 0\n",
            b"mtest 1\nwords 1\nthread\nst -0\n",
            b"mtest 1\nwords 1\nthread\nst 0x0\n",
            b"mtest 1\nwords 1\nthread\nst \xb2\n",
            b"mtest 1\nwords 1\nthread\nst \n",
            b"mtest 1\nwords 1\nthread\nst\n",
            b"mtest 1\nwords 1\nthread\n\n",
            b"mtest 1\nwords 1\nthread\nfence 0\n",
            b"mtest 1\nwords 1\nthread\nfences\n",
            b"mtest 1\nwords 1\nthread\nEND\n",
            b"mtest 1\nwords 1\nthread\nend \n",
            b"mtest 1\nwords 1\nthread\n# end\n",
            b"mtest 1\nwords 1\nthread\nfence st\n",
            b"mtest 1\nwords 1\nthread\nfence ld\n",
            b"mtest 2\nwords 1\nthread\nfence  st\n",
            b"mtest 2\nwords 1\nthread\nfence st \n",
            b"mtest 2\nwords 1\nthread\nfence s\n",
            b"mtest 2\nwords 1\nthread\nfence full\n",
            b"mtest 2\nwords 1\nthread\nfence 0\n",
        ],
    ),
    (
        TestFault::BadLine { line: 3 },
        &[
            b"mtest 1\nwords 1\nld 00\n",
            b"mtest 1\nwords 1\nthread \n",
            b"mtest 1\nwords 1\nfence st\n",
        ],
    ),
    // Message passing with partial fences under the head of version 1.
    (
        TestFault::BadLine { line: 5 },
        &[b"mtest 1\nwords 2\nthread\nst 0\nfence st\nst 1\nthread\nld 1\nfence ld\nld 0\nend\n"],
    ),
    // Before the first thread, and there before the range of words.
    (
        TestFault::NoThread { line: 3 },
        &[
            b"mtest 1\nwords 1\nst 0\n",
            b"mtest 1\nwords 1\nld 9\n",
            b"mtest 1\nwords 1\nfence\n",
            b"mtest 1\nwords 1\nend\n",
            b"mtest 1\nwords 1\nfence\nthread",
            b"mtest 2\nwords 1\nfence st\n",
            b"mtest 2\nwords 1\nfence ld\n",
            b"mtest 2\nwords 1\nst 9\n",
        ],
    ),
    // The range of words.
    (
        TestFault::WordRange { line: 5 },
        &[b"mtest 1\nwords 2\nthread\nst 0\nld 2\nthread\nst 1\nld 0\nend\n"],
    ),
    (
        TestFault::WordRange { line: 4 },
        &[
            b"mtest 1\nwords 256\nthread\nst 256\n",
            b"mtest 1\nwords 1\nthread\nld 4294967295\n",
            b"mtest 1\nwords 1\nthread\nld 4294967296\n",
            b"mtest 1\nwords 1\nthread\nld 18446744073709551616\n",
            b"mtest 1\nwords 1\nthread\nld 1\nld\n",
        ],
    ),
];

/// How the bytes are refused, if they are.
fn refusal(alloc: Global, bytes: &[u8]) -> Option<TestFault> {
    match Test::read(alloc, bytes) {
        Ok(_) => None,
        Err(fault) => Some(fault),
    }
}

#[test]
fn refuses(rt: HostRuntime) {
    for (fault, texts) in &REFUSED {
        for text in texts.iter() {
            assert!(rt; refusal(rt.alloc(), text) == Some(*fault));
        }
    }
}

/// A text with one piece many times, and its refusal, if it has one.
struct Long {
    front: &'static [u8],
    piece: &'static [u8],
    times: u32,
    back: &'static [u8],
    fault: Option<TestFault>,
}

const LONG: [Long; 17] = [
    Long {
        front: b"mtest 1\nwords 1\n",
        piece: b"thread\n",
        times: 16,
        back: b"end\n",
        fault: None,
    },
    Long {
        front: b"mtest 1\nwords 1\n",
        piece: b"thread\n",
        times: 17,
        back: b"",
        fault: Some(TestFault::TooManyThreads { line: 19 }),
    },
    // The form comes before the number of threads.
    Long {
        front: b"mtest 1\nwords 1\n",
        piece: b"thread\n",
        times: 16,
        back: b"thread 1\n",
        fault: Some(TestFault::BadLine { line: 19 }),
    },
    Long {
        front: b"mtest 1\nwords 1\nthread\n",
        piece: b"fence\n",
        times: 2048,
        back: b"end\n",
        fault: None,
    },
    Long {
        front: b"mtest 1\nwords 1\nthread\n",
        piece: b"fence\n",
        times: 2049,
        back: b"",
        fault: Some(TestFault::TooManyOps { line: 2052 }),
    },
    Long {
        front: b"mtest 1\nwords 1\nthread\n",
        piece: b"ld 0\n",
        times: 2048,
        back: b"st 0\n",
        fault: Some(TestFault::TooManyOps { line: 2052 }),
    },
    // The form comes before the number of operations.
    Long {
        front: b"mtest 1\nwords 1\nthread\n",
        piece: b"fence\n",
        times: 2048,
        back: b"fence st\n",
        fault: Some(TestFault::BadLine { line: 2052 }),
    },
    Long {
        front: b"mtest 2\nwords 1\nthread\n",
        piece: b"fence st\n",
        times: 2048,
        back: b"fence ld\n",
        fault: Some(TestFault::TooManyOps { line: 2052 }),
    },
    Long {
        front: b"mtest 2\nwords 1\nthread\n",
        piece: b"fence ld\n",
        times: 2048,
        back: b"end\n",
        fault: None,
    },
    // The range of words comes before the number of operations.
    Long {
        front: b"mtest 1\nwords 1\nthread\n",
        piece: b"st 0\n",
        times: 2048,
        back: b"ld 1\n",
        fault: Some(TestFault::WordRange { line: 2052 }),
    },
    // Threads may follow the last operation.
    Long {
        front: b"mtest 1\nwords 1\nthread\n",
        piece: b"st 0\n",
        times: 2048,
        back: b"thread\nend\n",
        fault: None,
    },
    // Numerals of a thousand digits.
    Long {
        front: b"mtest 1\nwords 256\nthread\nld ",
        piece: b"9",
        times: 1000,
        back: b"\n",
        fault: Some(TestFault::WordRange { line: 4 }),
    },
    Long {
        front: b"mtest 1\nwords 256\nthread\nld ",
        piece: b"0",
        times: 1000,
        back: b"\n",
        fault: Some(TestFault::BadLine { line: 4 }),
    },
    Long {
        front: b"mtest 1\nwords ",
        piece: b"1",
        times: 1000,
        back: b"\n",
        fault: Some(TestFault::BadWords { line: 2 }),
    },
    Long {
        front: b"mtest 1\nwords 1\nthread\nst 1",
        piece: b"0",
        times: 1000,
        back: b"",
        fault: Some(TestFault::NoEnd { line: 4 }),
    },
    // A long line, and many lines.
    Long {
        front: b"mtest 1",
        piece: b" ",
        times: 10000,
        back: b"\n",
        fault: Some(TestFault::BadHead { line: 1 }),
    },
    Long {
        front: b"",
        piece: b"mtest 1\n",
        times: 1000,
        back: b"",
        fault: Some(TestFault::BadWords { line: 2 }),
    },
];

fn text_of(alloc: Global, long: &Long) -> Result<Vec<u8>, AllocError> {
    let mut text = Vec::from_slice(alloc, long.front)?;
    for _ in 0..long.times {
        text.extend_from_slice(long.piece)?;
    }
    text.extend_from_slice(long.back)?;
    Ok(text)
}

#[test]
fn reads_up_to_the_limits(rt: HostRuntime) -> Result<(), Fail> {
    for long in &LONG {
        let text = text_of(rt.alloc(), long)?;
        assert!(rt; refusal(rt.alloc(), &text) == long.fault);
    }
    Ok(())
}
