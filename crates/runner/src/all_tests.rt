//! Jobs that are done by many runners, and what their gate is told.
use crate::tests::{STORE_BUFFERING, are_equal, read_test};
use crate::{Job, run_all, run_one};
use mt_base::{Gate, MeetGate, OpenGate};
use signature_plan::Plan;
use std::alloc::{AllocError, Global};
use std::sync::atomic::{AtomicU64, Ordering};
use std::test::Fail;
use std::thread::Threads;
use tally::Entered;
use test_lang::target::{Fault, Target, fits};

/// So many runs by so many runners, and how many entries of each pass the history has then.
#[derive(Clone, Copy)]
struct Case {
    runs: u32,
    runners: u32,
    entries: [u32; 8],
}

const NO_RUN: Case = Case {
    runs: 0,
    runners: 1,
    entries: [0; 8],
};

const ONE_LESS_THAN_FULL: Case = Case {
    runs: 63,
    runners: 1,
    entries: [63, 0, 0, 0, 0, 0, 0, 0],
};

const FULL_ONCE: Case = Case {
    runs: 64,
    runners: 1,
    entries: [64, 0, 0, 0, 0, 0, 0, 0],
};

const ONE_RUNNER: Case = Case {
    runs: 200,
    runners: 1,
    entries: [200, 0, 0, 0, 0, 0, 0, 0],
};

const TWO_RUNNERS: Case = Case {
    runs: 200,
    runners: 2,
    entries: [100, 100, 0, 0, 0, 0, 0, 0],
};

const EIGHT_RUNNERS: Case = Case {
    runs: 1003,
    runners: 8,
    entries: [126, 126, 126, 125, 125, 125, 125, 125],
};

const FEWER_RUNS_THAN_RUNNERS: Case = Case {
    runs: 3,
    runners: 8,
    entries: [1, 1, 1, 0, 0, 0, 0, 0],
};

fn entries_by_pass(history: &[Entered]) -> [u32; 8] {
    let mut counts = [0u32; 8];
    for entry in history {
        if let Some(count) = counts.get_mut(entry.pass as usize) {
            *count = count.wrapping_add(1);
        }
    }
    counts
}

/// Whether each pass has its entries, and the tally is that of one thread.
fn is_done<R: Threads + Sync, G: Gate + Sync>(
    rt: &R,
    alloc: Global,
    target: Target,
    case: Case,
    gate: &G,
) -> Result<bool, AllocError> {
    let Ok(test) = read_test(alloc, STORE_BUFFERING) else {
        return Ok(false);
    };
    let plan = Plan::of(alloc, &test)?;
    if case.runs > 1_000_000
        || case.runners < 1
        || case.runners > 64
        || !fits(target, Fault::None)
    {
        return Ok(false);
    }
    let job = Job {
        test: &test,
        plan: &plan,
        target,
        fault: Fault::None,
        seed: 5,
        runs: case.runs,
    };
    let finished = run_all(rt, alloc, &job, case.runners, gate)?;
    let tally = run_one(alloc, &job)?;
    Ok(entries_by_pass(finished.history()) == case.entries && are_equal(finished.tally(), &tally))
}

#[test]
fn runners_give_the_tally_of_one_thread(rt: HostRuntime) -> Result<(), Fail> {
    for target in [Target::Sc, Target::Tso, Target::Pso, Target::Weak] {
        for case in [
            NO_RUN,
            ONE_RUNNER,
            TWO_RUNNERS,
            EIGHT_RUNNERS,
            FEWER_RUNS_THAN_RUNNERS,
        ] {
            assert!(rt; is_done(&rt, rt.alloc(), target, case, &OpenGate)?);
        }
    }
    Ok(())
}

/// How often the gate was called, and the sum of 2 to the number of each runner that called it, of the pieces, and of the turns before; and how often the turn was held.
#[derive(Drop)]
struct CountingGate {
    calls: AtomicU64,
    runners: AtomicU64,
    pieces: AtomicU64,
    before: AtomicU64,
    turns: AtomicU64,
}

impl Gate for CountingGate {
    fn at(&self, worker: u32, piece: u32) {
        let bit = if worker < 64 { 1u64 << worker } else { 0 };
        self.calls.fetch_add(1, Ordering::SeqCst);
        self.runners.fetch_add(bit, Ordering::SeqCst);
        self.pieces.fetch_add(u64::from(piece), Ordering::SeqCst);
        let turns = self.turns.load(Ordering::SeqCst);
        self.before.fetch_add(turns, Ordering::SeqCst);
    }

    fn held(&self, _worker: u32) {
        self.turns.fetch_add(1, Ordering::SeqCst);
    }
}

/// How often the turn was held, where each runner called the gate once, and the one runner that there is did so before its first turn.
fn turns<R: Threads + Sync>(rt: &R, alloc: Global, case: Case) -> Result<Option<u64>, AllocError> {
    let gate = CountingGate {
        calls: AtomicU64::new(0),
        runners: AtomicU64::new(0),
        pieces: AtomicU64::new(0),
        before: AtomicU64::new(0),
        turns: AtomicU64::new(0),
    };
    let is_done = is_done(rt, alloc, Target::Sc, case, &gate)?;
    let each_once = if case.runners < 64 {
        (1u64 << case.runners) - 1
    } else {
        u64::MAX
    };
    let is_told = gate.calls.load(Ordering::SeqCst) == u64::from(case.runners)
        && gate.runners.load(Ordering::SeqCst) == each_once
        && gate.pieces.load(Ordering::SeqCst) == 0
        && (case.runners > 1 || gate.before.load(Ordering::SeqCst) == 0);
    Ok(if is_done && is_told {
        Some(gate.turns.load(Ordering::SeqCst))
    } else {
        None
    })
}

/// One runner adds batches of 64, 64, 64 and 8; one of 63; one of 64 and an empty one; and an empty one where it has no run.
#[test]
fn each_runner_calls_the_gate_once(rt: HostRuntime) -> Result<(), Fail> {
    for (case, held) in [
        (ONE_RUNNER, 4),
        (ONE_LESS_THAN_FULL, 1),
        (FULL_ONCE, 2),
        (NO_RUN, 1),
    ] {
        assert_eq!(rt; turns(&rt, rt.alloc(), case)?, Some(held));
    }
    for case in [TWO_RUNNERS, EIGHT_RUNNERS, FEWER_RUNS_THAN_RUNNERS] {
        assert!(rt; turns(&rt, rt.alloc(), case)?.is_some());
    }
    Ok(())
}

/// Runners on one thread would not meet.
#[test]
fn two_runners_meet_unlike_runners_on_one_thread(rt: HostRuntime) -> Result<(), Fail> {
    let gate = MeetGate::new();
    assert!(rt; is_done(&rt, rt.alloc(), Target::Sc, TWO_RUNNERS, &gate)?);
    assert!(rt; gate.met());
    Ok(())
}
