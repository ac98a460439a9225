//! Races of real threads: the lines of their runs, and the reports behind these.
ghost use Rattle.std.specs.Prelude.{None};

use super::*;
use mt_base::{Gate, MeetGate};
use std::str;
use std::sync::atomic::{AtomicBool, AtomicU32, Ordering};

/// Options that `check` has too, a test, and how often it is raced.
#[derive(Clone, Copy)]
struct Race {
    options: &'static str,
    test: &'static str,
    runs: u32,
}

const RACES: [Race; 9] = [
    Race {
        options: "",
        test: STORE_BUFFERING,
        runs: 20,
    },
    Race {
        options: "--chunk 1 --workers 3",
        test: MESSAGE_PASSING,
        runs: 20,
    },
    Race {
        options: "",
        test: STORE_BUFFERING,
        runs: 0,
    },
    // A load behind a store of its own thread.
    Race {
        options: "--model weak",
        test: "mtest 1\nwords 1\nthread\nst 0\nld 0\nend\n",
        runs: 3,
    },
    // As many threads as a test may have.
    Race {
        options: "--model tso",
        test: "mtest 1\nwords 2\nthread\nst 0\nthread\nst 1\nthread\nld 0\nthread\nld 1\nthread\nthread\nthread\nthread\nthread\nthread\nthread\nthread\nthread\nthread\nst 0\nthread\nst 1\nthread\nld 0\nend\n",
        runs: 2,
    },
    Race {
        options: "--chunk 2",
        test: "mtest 1\nwords 1\nthread\nthread\nst 0\nld 0\nend\n",
        runs: 3,
    },
    Race {
        options: "--model pso",
        test: MESSAGE_PASSING_PARTIAL_FENCES,
        runs: 5,
    },
    // No load.
    Race {
        options: "",
        test: STORES_ALONE,
        runs: 2,
    },
    Race {
        options: "",
        test: NO_OPERATION,
        runs: 2,
    },
];

/// What a race wrote: the lines of its runs, and all others.
#[derive(Drop)]
struct Written {
    lines: String,
    report: String,
}

fn parts_of(alloc: Global, output: &[u8]) -> Result<Written, AllocError> {
    let mut lines = String::new(alloc);
    let mut report = String::new(alloc);
    for line in str::from_utf8(output).unwrap_or("").lines() {
        let is_run = line == "run" || line.starts_with("run ");
        let part = if is_run { &mut lines } else { &mut report };
        part.push_str(line)?;
        part.push('\n')?;
    }
    Ok(Written { lines, report })
}

/// What `race` leaves with this gate.
fn make_race<G: Gate + Sync>(
    rt: &(impl Threads + Sync),
    alloc: Global,
    race: &Race,
    gate: &G,
) -> Result<Made, AllocError> {
    let all = format!(in alloc; "race --runs {0} {1}", race.runs, race.options)?;
    let words = words_of(alloc, all.as_str())?;
    let mut source = MemSource::new(race.test.as_bytes().to_vec(alloc)?, 64, Vec::new(alloc));
    let mut sink = sink_of(alloc, &FREE)?;
    let mut errs = sink_of(alloc, &FREE)?;
    let status = mtrace(rt, alloc, &words, &mut source, &mut sink, &mut errs, gate);
    Ok(Made {
        status,
        output: sink.held_bytes().to_vec(alloc)?,
        errs: errs.held_bytes().to_vec(alloc)?,
        is_read: is_at_end(source),
    })
}

/// Whether nothing was found, there are so many runs, and the report is that of `check` on their lines.
fn is_checked(
    rt: &(impl Threads + Sync),
    alloc: Global,
    race: &Race,
    made: &Made,
) -> Result<bool, AllocError> {
    let Written { lines, report } = parts_of(alloc, &made.output)?;
    let all = format!(in alloc; "check {0}", race.options)?;
    let words = words_of(alloc, all.as_str())?;
    let input = format!(in alloc; "{0}{lines}done\n", race.test)?;
    let call = Call {
        input: input.as_str(),
        ..CHECK
    };
    let checked = make_with(rt, alloc, &words, &call)?;
    let number = format!(in alloc; "\nruns {0}\n", race.runs)?;
    Ok(
        made.status == Status::Clean
            && made.is_read
            && report.contains(number.as_str())
            && checked.output.as_slice() == report.as_bytes(),
    )
}

#[test]
fn races_are_checked(rt: HostRuntime) -> Result<(), Fail> {
    for race in &RACES {
        let made = make_race(&rt, rt.alloc(), race, &OpenGate)?;
        assert!(rt; is_checked(&rt, rt.alloc(), race, &made)?);
    }
    Ok(())
}

#[test]
fn two_threads_meet(rt: HostRuntime) -> Result<(), Fail> {
    let gate = MeetGate::new();
    let race = &RACES[0];
    let made = make_race(&rt, rt.alloc(), race, &gate)?;
    assert!(rt; is_checked(&rt, rt.alloc(), race, &made)?);
    assert!(rt; gate.met());
    Ok(())
}

/// It keeps one of two threads for a while, the second in the first race, the first in the second, and so on: that looks 100,000,000 times at a flag that nobody raises.
#[derive(Drop)]
struct KeepInTurn {
    races: [AtomicU32; 2],
    flag: AtomicBool,
}

impl Gate for KeepInTurn {
    fn at(&self, worker: u32, _piece: u32) {
        let Some(races) = self.races.get(worker as usize) else {
            return;
        };
        let race = races.fetch_add(1, Ordering::SeqCst);
        if race.wrapping_add(worker) % 2 == 0 {
            return;
        }
        for _ in 0..100_000_000 {
            if self.flag.load(Ordering::SeqCst) {
                return;
            }
        }
    }

    fn held(&self, _worker: u32) {}
}

/// What two races of store buffering write, in each of which a thread is kept.
fn kept_in_turn(rt: &(impl Threads + Sync), alloc: Global) -> Result<Made, AllocError> {
    let gate = KeepInTurn {
        races: [AtomicU32::new(0), AtomicU32::new(0)],
        flag: AtomicBool::new(false),
    };
    let race = Race {
        options: "--workers 1",
        test: STORE_BUFFERING,
        runs: 2,
    };
    make_race(rt, alloc, &race, &gate)
}

/// A thread that is kept comes last, and the lines stand in the order of the races.
#[test]
fn races_stand_in_their_order(rt: HostRuntime) -> Result<(), Fail> {
    let made = kept_in_turn(&rt, rt.alloc())?;
    assert!(rt; made.output.starts_with(b"run 0 1\nrun 2 0\n"));
    Ok(())
}

/// Inputs of `race` that are refused, or pass a limit.
#[test]
fn refused_races(rt: HostRuntime) -> Result<(), Fail> {
    let input = joined(rt.alloc(), STORE_BUFFERING, "done\n", 1, "")?;
    let call = Call {
        words: "race",
        input: input.as_str(),
        ..CHECK
    };
    let line = "mtrace: input line 10: AfterDone\n";
    assert!(rt; leaves(&rt, rt.alloc(), &call, Status::Input, "", line)?);
    let loads = joined(
        rt.alloc(),
        "mtest 1\nwords 1\nthread\n",
        "ld 0\n",
        2048,
        "end\n",
    )?;
    let call = Call {
        words: "race --runs 32769",
        input: loads.as_str(),
        ..CHECK
    };
    let line = "mtrace: too large: values 67110912\n";
    assert!(rt; leaves(&rt, rt.alloc(), &call, Status::TooLarge, "", line)?);
    Ok(())
}
