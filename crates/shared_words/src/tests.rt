//! Races of small tests, and the runs that they may give.
use crate::race;
use mt_base::{Gate, MeetGate, OpenGate};
use std::alloc::Global;
use std::sync::atomic::{AtomicBool, Ordering};
use std::test::Fail;
use std::thread::Threads;
use test_lang::test::Test;
use test_lang::text::fault::TestFault;

/// A test, and the runs of its interleavings.
#[derive(Drop)]
struct Case {
    test: &'static [u8],
    runs: &'static [&'static [u32]],
}

const STORE_BUFFERING: &[u8] = b"mtest 1\nwords 2\nthread\nst 0\nld 1\nthread\nst 1\nld 0\nend\n";

const MEETING: Case = Case {
    test: STORE_BUFFERING,
    runs: &[&[0, 1], &[2, 0], &[2, 1]],
};

const CASES: [Case; 6] = [
    // A load gives the store before it in its own thread.
    Case {
        test: b"mtest 1\nwords 1\nthread\nst 0\nld 0\nend\n",
        runs: &[&[1]],
    },
    // As many threads as a test may have, each on a word of its own.
    Case {
        test: b"mtest 1\nwords 16\nthread\nst 0\nld 0\nthread\nst 1\nld 1\nthread\nst 2\nld 2\nthread\nst 3\nld 3\nthread\nst 4\nld 4\nthread\nst 5\nld 5\nthread\nst 6\nld 6\nthread\nst 7\nld 7\nthread\nst 8\nld 8\nthread\nst 9\nld 9\nthread\nst 10\nld 10\nthread\nst 11\nld 11\nthread\nst 12\nld 12\nthread\nst 13\nld 13\nthread\nst 14\nld 14\nthread\nst 15\nld 15\nend\n",
        runs: &[&[1, 2, 3, 4, 5, 6, 7, 8, 9, 10, 11, 12, 13, 14, 15, 16]],
    },
    // Threads without operations.
    Case {
        test: b"mtest 1\nwords 1\nthread\nthread\nst 0\nld 0\nthread\nthread\nst 0\nthread\nend\n",
        runs: &[&[1], &[2]],
    },
    Case {
        test: b"mtest 1\nwords 256\nthread\nend\n",
        runs: &[&[]],
    },
    // Fences of each kind.
    Case {
        test: b"mtest 2\nwords 2\nthread\nst 0\nfence st\nst 1\nthread\nld 1\nfence ld\nld 0\nfence\nend\n",
        runs: &[&[0, 0], &[0, 1], &[2, 1]],
    },
    // No load.
    Case {
        test: b"mtest 1\nwords 1\nthread\nst 0\nst 0\nthread\nst 0\nend\n",
        runs: &[&[]],
    },
];

/// A race, and whether its run is one of these.
fn gives<G: Gate + Sync, R: Threads + Sync>(
    rt: &R,
    alloc: Global,
    test: &[u8],
    runs: &[&[u32]],
    gate: &G,
) -> Result<bool, TestFault> {
    let test = Test::read(alloc, test)?.test;
    if test.threads() == 0 {
        return Ok(false);
    }
    let run = race(rt, alloc, &test, gate)?;
    Ok(runs.iter().any(|expected| run.as_slice() == *expected))
}

#[test]
fn runs_are_those_of_interleavings(rt: HostRuntime) -> Result<(), Fail> {
    for case in &CASES {
        for _ in 0..3 {
            assert!(rt; gives(&rt, rt.alloc(), case.test, case.runs, &OpenGate)?);
        }
    }
    Ok(())
}

#[test]
fn two_threads_meet(rt: HostRuntime) -> Result<(), Fail> {
    for _ in 0..20 {
        let gate = MeetGate::new();
        assert!(rt; gives(&rt, rt.alloc(), MEETING.test, MEETING.runs, &gate)?);
        assert!(rt; gate.met());
    }
    Ok(())
}

/// A gate that keeps one worker at its first call for a while: it looks 100,000,000 times at a flag that nobody raises.
#[derive(Drop)]
struct KeepGate {
    worker: u32,
    flag: AtomicBool,
}

impl Gate for KeepGate {
    fn at(&self, worker: u32, _piece: u32) {
        if worker != self.worker {
            return;
        }
        for _ in 0..100_000_000 {
            if self.flag.load(Ordering::SeqCst) {
                return;
            }
        }
    }

    fn held(&self, _worker: u32) {}
}

#[test]
fn a_thread_that_is_kept_comes_last(rt: HostRuntime) -> Result<(), Fail> {
    let kept: [(u32, &[u32]); 2] = [(1, &[0, 1]), (0, &[2, 0])];
    for (worker, run) in kept {
        let gate = KeepGate {
            worker,
            flag: AtomicBool::new(false),
        };
        assert!(rt; gives(&rt, rt.alloc(), STORE_BUFFERING, &[run], &gate)?);
    }
    Ok(())
}
