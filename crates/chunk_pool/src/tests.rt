//! Small tests whose verdicts and work are known, for several sizes of chunks and numbers of workers; what the gate is told; and that two workers meet.
ghost use Rattle.std.specs.Prelude.{ℕ, All, List, IfOk, IfSome};
ghost use Rattle.test_lang.specs.Signatures.{Means};

use crate::{Checked, check_all};
use mt_base::{Gate, MeetGate, OpenGate};
use signature_plan::Plan;
use std::alloc::{AllocError, Global};
use std::sync::atomic::{AtomicU64, Ordering};
use std::test::Fail;
use std::thread::Threads;
use tally::Signature;
use test_lang::op::MemModel;
use test_lang::test::Test;
use verdict_report::{Judged, Work};

const STORE_BUFFERING: &str = "mtest 1\nwords 2\nthread\nst 0\nld 1\nthread\nst 1\nld 0\nend\n";

const MESSAGE_PASSING: &str = "mtest 1\nwords 2\nthread\nst 0\nst 1\nthread\nld 1\nld 0\nend\n";

const TWO_WRITERS: &str = "mtest 1\nwords 1\nthread\nst 0\nthread\nst 0\nthread\nld 0\nend\n";

/// A test with runs that are inside, in the order of their signatures, and the nodes of each run's cycle, of which there are none where it is ok.
struct Case {
    text: &'static str,
    model: MemModel,
    runs: &'static [&'static [u32]],
    cycles: &'static [&'static [u32]],
    /// Sizes of chunks, each with the numbers of chunks, of full sorts, of orders that were kept, of windows and of the nodes in these.
    works: &'static [(u32, [u64; 5])],
}

const CASES: [Case; 6] = [
    Case {
        text: STORE_BUFFERING,
        model: MemModel::Sc,
        runs: &[&[0, 0], &[0, 1], &[2, 0], &[2, 1]],
        cycles: &[&[0, 1, 2, 3], &[], &[], &[]],
        works: &[
            (1, [4, 4, 0, 0, 0]),
            (2, [2, 3, 0, 1, 2]),
            (3, [2, 3, 0, 1, 4]),
            (4, [1, 2, 0, 2, 6]),
            (1_000_000, [1, 2, 0, 2, 6]),
            (u32::MAX, [1, 2, 0, 2, 6]),
        ],
    },
    Case {
        text: STORE_BUFFERING,
        model: MemModel::Tso,
        runs: &[&[0, 0]],
        cycles: &[&[]],
        works: &[(1, [1, 1, 0, 0, 0]), (64, [1, 1, 0, 0, 0])],
    },
    Case {
        text: MESSAGE_PASSING,
        model: MemModel::Sc,
        runs: &[&[0, 0], &[2, 0], &[2, 1]],
        cycles: &[&[], &[0, 1, 2, 3], &[]],
        works: &[(1, [3, 3, 0, 0, 0]), (4, [1, 1, 0, 2, 8])],
    },
    Case {
        text: MESSAGE_PASSING,
        model: MemModel::Weak,
        runs: &[&[0, 0], &[2, 0], &[2, 1]],
        cycles: &[&[], &[], &[]],
        works: &[(1, [3, 3, 0, 0, 0]), (4, [1, 1, 0, 2, 4])],
    },
    Case {
        text: TWO_WRITERS,
        model: MemModel::Sc,
        runs: &[&[1], &[2]],
        cycles: &[&[], &[]],
        works: &[(1, [2, 2, 0, 0, 0]), (4, [1, 1, 1, 0, 0])],
    },
    Case {
        text: TWO_WRITERS,
        model: MemModel::Sc,
        runs: &[],
        cycles: &[],
        works: &[(1, [0; 5]), (1_000_000, [0; 5])],
    },
];

/// The signature of a run, if it is inside.
fn signature_of(alloc: Global, plan: &Plan, run: &[u32]) -> Result<Option<Signature>, AllocError>
    ensures { IfOk result (λ found. IfSome found (λ words. Means plan.now words run.now)) }
{
    let mut words = vec![in alloc; 0u64; plan.words()]?;
    if run.len() != plan.loads() || plan.encode_into(run, &mut words).is_err() {
        return Ok(None);
    }
    Ok(Some(Signature::of(alloc, &words)?))
}

/// The signatures of those runs that are inside.
fn signatures_of(alloc: Global, plan: &Plan, runs: &[&[u32]]) -> Result<Vec<Signature>, AllocError>
    ensures { IfOk result (λ signatures. All (λ words. (run : List ℕ) × Means plan.now words run) signatures.items) }
{
    let mut signatures = Vec::new(alloc);
    for run in runs {
        if let Some(signature) = signature_of(alloc, plan, run)? {
            signatures.push(signature)?;
        }
    }
    Ok(signatures)
}

fn checked<R: Threads + Sync, G: Gate + Sync>(
    rt: &R,
    alloc: Global,
    case: &Case,
    chunk: u32,
    workers: u32,
    gate: &G,
) -> Result<Option<Checked>, AllocError> {
    let Ok(read) = Test::read(alloc, case.text.as_bytes()) else {
        return Ok(None);
    };
    let plan = Plan::of(alloc, &read.test)?;
    let signatures = signatures_of(alloc, &plan, case.runs)?;
    if signatures.len() > 1_000_000 || chunk < 1 || workers < 1 || workers > 64 {
        return Ok(None);
    }
    let checked = check_all(
        rt,
        alloc,
        &read.test,
        &plan,
        case.model,
        &signatures,
        chunk,
        workers,
        gate,
    )?;
    Ok(Some(checked))
}

fn are_found(found: &[Judged], cycles: &[&[u32]]) -> bool {
    if found.len() != cycles.len() {
        return false;
    }
    for (judged, nodes) in found.iter().zip(cycles.iter()) {
        let is_so = match judged {
            Judged::Ok => nodes.is_empty(),
            Judged::Cycle(cycle) => cycle.list() == *nodes,
        };
        if !is_so {
            return false;
        }
    }
    true
}

fn is_work(work: Work, numbers: [u64; 5]) -> bool {
    let [chunks, full, kept, resorted, nodes] = numbers;
    work == Work {
        chunks,
        full,
        kept,
        resorted,
        nodes,
    }
}

fn answers<R: Threads + Sync, G: Gate + Sync>(
    rt: &R,
    alloc: Global,
    case: &Case,
    work: (u32, [u64; 5]),
    workers: u32,
    gate: &G,
) -> Result<bool, AllocError> {
    let (chunk, numbers) = work;
    let Some(checked) = checked(rt, alloc, case, chunk, workers, gate)? else {
        return Ok(false);
    };
    Ok(are_found(&checked.found, case.cycles) && is_work(checked.work, numbers))
}

#[test]
fn chunks_and_workers_give_one_answer(rt: HostRuntime) -> Result<(), Fail> {
    for case in &CASES {
        for work in case.works {
            for workers in [1, 2, 3, 64] {
                assert!(rt; answers(&rt, rt.alloc(), case, *work, workers, &OpenGate)?);
            }
        }
    }
    Ok(())
}

/// How often the gate was called, and the sum of 2 to the number of each worker that called it, and of the pieces.
#[derive(Drop)]
struct CountingGate {
    calls: AtomicU64,
    workers: AtomicU64,
    pieces: AtomicU64,
}

impl Gate for CountingGate {
    fn at(&self, worker: u32, piece: u32) {
        let bit = if worker < 64 { 1u64 << worker } else { 0 };
        self.calls.fetch_add(1, Ordering::SeqCst);
        self.workers.fetch_add(bit, Ordering::SeqCst);
        self.pieces.fetch_add(u64::from(piece), Ordering::SeqCst);
    }

    fn held(&self, _worker: u32) {}
}

/// Whether each of so many workers calls the gate once, whatever there is to do. `bits` is the sum of 2 to the number of each.
fn calls_once<R: Threads + Sync>(
    rt: &R,
    alloc: Global,
    case: &Case,
    work: (u32, [u64; 5]),
    workers: u32,
    bits: u64,
) -> Result<bool, AllocError> {
    let gate = CountingGate {
        calls: AtomicU64::new(0),
        workers: AtomicU64::new(0),
        pieces: AtomicU64::new(0),
    };
    let is_answered = answers(rt, alloc, case, work, workers, &gate)?;
    Ok(
        is_answered
            && gate.calls.load(Ordering::SeqCst) == u64::from(workers)
            && gate.workers.load(Ordering::SeqCst) == bits
            && gate.pieces.load(Ordering::SeqCst) == 0,
    )
}

#[test]
fn each_worker_calls_the_gate_once(rt: HostRuntime) -> Result<(), Fail> {
    for (workers, bits) in [(1, 1), (8, 255), (64, u64::MAX)] {
        assert!(rt; calls_once(&rt, rt.alloc(), &CASES[5], (1, [0; 5]), workers, bits)?);
        assert!(rt;
            calls_once(
                &rt,
                rt.alloc(),
                &CASES[0],
                (3, [2, 3, 0, 1, 4]),
                workers,
                bits
            )?
        );
    }
    Ok(())
}

/// Workers on one thread would not meet.
#[test]
fn two_workers_meet_unlike_workers_on_one_thread(rt: HostRuntime) -> Result<(), Fail> {
    let gate = MeetGate::new();
    assert!(rt; answers(&rt, rt.alloc(), &CASES[0], (1, [4, 4, 0, 0, 0]), 2, &gate)?);
    assert!(rt; gate.met());
    Ok(())
}
