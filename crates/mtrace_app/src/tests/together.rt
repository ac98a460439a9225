//! Many runners and workers: they change nothing of what is written, and each tells the gate.
ghost use Rattle.std.specs.Prelude.{None};

use super::drawn::output_for;
use super::*;
use mt_base::{Gate, MeetGate};
use std::sync::atomic::{AtomicU64, Ordering};

/// Numbers of runners and workers.
const CREWS: [&str; 4] = [
    "--runners 1 --workers 3",
    "--runners 2 --workers 1",
    "--runners 2 --workers 3",
    "--runners 8 --workers 3",
];

/// Options of drawn runs, with each size of chunks.
const DRAWN: [&str; 3] = [
    "--chunk 1 --seed 9 --threads 3 --ops 12 --words 2 --runs 300 --target weak --fault loadload ",
    "--chunk 4 --seed 9 --threads 3 --ops 12 --words 2 --runs 300 --target weak --fault loadload ",
    "--chunk 1000000 --seed 9 --threads 3 --ops 12 --words 2 --runs 300 --target weak --fault loadload ",
];

/// Whether a command writes the same by each crew as by one runner and one worker.
fn is_one_output(
    rt: &(impl Threads + Sync),
    alloc: Global,
    command: &str,
    options: &str,
) -> Result<bool, AllocError> {
    let alone = output_for(rt, alloc, command, options, MESSAGE_PASSING)?;
    for crew in &CREWS {
        let all = joined(alloc, options, *crew, 1, "")?;
        let made = output_for(rt, alloc, command, all.as_str(), MESSAGE_PASSING)?;
        if made.output.as_slice() != alone.output.as_slice() || made.status != alone.status {
            return Ok(false);
        }
    }
    Ok(!alone.output.is_empty())
}

/// The options of the first row that a crew changes something of, if there are some.
fn changed_output(
    rt: &(impl Threads + Sync),
    alloc: Global,
    command: &str,
) -> Result<Option<&'static str>, AllocError> {
    for options in &DRAWN {
        if !is_one_output(rt, alloc, command, *options)? {
            return Ok(Some(*options));
        }
    }
    Ok(None)
}

#[test]
fn crews_change_nothing(rt: HostRuntime) -> Result<(), Fail> {
    assert_eq!(rt; changed_output(&rt, rt.alloc(), "run ")?, None);
    assert_eq!(rt; changed_output(&rt, rt.alloc(), "demo ")?, None);
    Ok(())
}

/// Counts its calls.
#[derive(Drop)]
struct CountingGate {
    at: AtomicU64,
}

impl Gate for CountingGate {
    fn at(&self, _worker: u32, _piece: u32) {
        self.at.fetch_add(1, Ordering::SeqCst);
    }

    fn held(&self, _worker: u32) {}
}

/// The status of a call at this gate.
fn status_at<G: Gate + Sync>(
    rt: &(impl Threads + Sync),
    alloc: Global,
    words: &str,
    input: &str,
    gate: &G,
) -> Result<Status, AllocError> {
    let words = words_of(alloc, words)?;
    let bytes = input.as_bytes().to_vec(alloc)?;
    let mut source = MemSource::new(bytes, 65_536, Vec::new(alloc));
    let mut sink = sink_of(alloc, &FREE)?;
    let mut errs = sink_of(alloc, &FREE)?;
    Ok(mtrace(rt, alloc, &words, &mut source, &mut sink, &mut errs, gate))
}

/// How often the gate is told that a runner or a worker begins.
fn calls_of(
    rt: &(impl Threads + Sync),
    alloc: Global,
    words: &str,
    input: &str,
) -> Result<(Status, u64), AllocError> {
    let gate = CountingGate {
        at: AtomicU64::new(0),
    };
    let status = status_at(rt, alloc, words, input, &gate)?;
    Ok((status, gate.at.load(Ordering::SeqCst)))
}

#[test]
fn runners_and_workers_tell_the_gate(rt: HostRuntime) -> Result<(), Fail> {
    let meeting = MeetGate::new();
    assert_eq!(rt;
        status_at(
            &rt,
            rt.alloc(),
            "run --runners 2",
            STORE_BUFFERING,
            &meeting
        )?,
        Status::Clean
    );
    assert!(rt; meeting.met());
    assert_eq!(rt;
        calls_of(
            &rt,
            rt.alloc(),
            "run --runners 3 --workers 5",
            STORE_BUFFERING
        )?,
        (Status::Clean, 8)
    );
    assert_eq!(rt;
        calls_of(&rt, rt.alloc(), "demo --ops 4 --runners 8", "")?,
        (Status::Clean, 9)
    );
    Ok(())
}

#[test]
fn reading_by_pieces_tells_the_gate_nothing(rt: HostRuntime) -> Result<(), Fail> {
    let refused = joined(rt.alloc(), STORE_BUFFERING, "run 0 1\n", 70_000, "")?;
    assert_eq!(rt;
        calls_of(&rt, rt.alloc(), "check --workers 8", refused.as_str())?,
        (Status::Input, 0)
    );
    Ok(())
}
