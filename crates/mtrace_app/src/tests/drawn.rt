//! Runs that are drawn, of a test that is read and of one that is generated.
ghost use Rattle.std.specs.Prelude.{None};

use super::*;
use sc_machine::ScMachine;
use sim_core::{Machine, play_drawn};
use std::str;
use test_lang::target::Fault;
use test_lang::test::Test;
use tso_machine::{PsoMachine, TsoMachine};
use verdict_report::run_line;
use weak_machine::WeakMachine;

/// Store buffering with a fence in each thread.
const STORE_BUFFERING_FENCES: &str =
    "mtest 1\nwords 2\nthread\nst 0\nfence\nld 1\nthread\nst 1\nfence\nld 0\nend\n";

/// A store and two loads of one word.
const TWO_LOADS: &str = "mtest 1\nwords 1\nthread\nst 0\nthread\nld 0\nld 0\nend\n";

/// A thread of 2,048 loads of the one word.
fn loads_alone(alloc: Global) -> Result<String, AllocError> {
    joined(alloc, "mtest 1\nwords 1\nthread\n", "ld 0\n", 2048, "end\n")
}

/// The sum of the counts of all outcomes that a report tells.
fn sum_of_counts(output: &str) -> u64 {
    let mut sum = 0u64;
    let mut is_count = false;
    for word in output.split_ascii_whitespace() {
        if let (true, Ok(count)) = (is_count, word.parse::<u64>()) {
            sum = sum.saturating_add(count);
        }
        is_count = word == "count";
    }
    sum
}

/// The lines of a report that tell no outcome.
fn without_outcomes(alloc: Global, report: &str) -> Result<String, AllocError> {
    let mut left = String::new(alloc);
    for line in report.lines() {
        if !line.starts_with("sig") && !line.starts_with("outside") {
            left.push_str(line)?;
            left.push('\n')?;
        }
    }
    Ok(left)
}

/// Words of `run` on a machine without a fault, under its own model or a weaker one, the test, and how many runs there are.
const SOUND: [(&str, &str, u64); 16] = [
    (
        "run --chunk 1 --runs 200 --seed 5 --target tso --model tso --runners 1",
        STORE_BUFFERING,
        200,
    ),
    ("run --chunk 1", STORE_BUFFERING, 100),
    (
        "run --chunk 1 --target sc --model weak",
        MESSAGE_PASSING,
        100,
    ),
    (
        "run --chunk 1 --target tso --model pso",
        STORES_AGAINST_LOADS,
        100,
    ),
    (
        "run --chunk 1 --target pso --model pso",
        MESSAGE_PASSING,
        100,
    ),
    ("run --chunk 1 --target pso --model weak", TWO_WRITERS, 100),
    ("run --chunk 1 --target weak --model weak", TWO_LOADS, 100),
    ("run --chunk 1 --runs 0", STORE_BUFFERING, 0),
    // Store fences and load fences on each machine.
    ("run --chunk 1", MESSAGE_PASSING_PARTIAL_FENCES, 100),
    (
        "run --chunk 1 --target tso --model tso",
        MESSAGE_PASSING_PARTIAL_FENCES,
        100,
    ),
    (
        "run --chunk 1 --target pso --model pso",
        MESSAGE_PASSING_PARTIAL_FENCES,
        100,
    ),
    (
        "run --chunk 1 --target weak --model weak",
        MESSAGE_PASSING_PARTIAL_FENCES,
        100,
    ),
    ("run --chunk 1", STORE_BUFFERING_STORE_FENCES, 100),
    (
        "run --chunk 1 --target tso --model tso",
        STORE_BUFFERING_STORE_FENCES,
        100,
    ),
    (
        "run --chunk 1 --target pso --model pso",
        STORE_BUFFERING_STORE_FENCES,
        100,
    ),
    (
        "run --chunk 1 --target weak --model weak",
        STORE_BUFFERING_STORE_FENCES,
        100,
    ),
];

/// Whether the output tells so many runs, with counts that sum to them, and neither a cycle nor an outcome outside.
fn is_sound(output: &[u8], runs: u64) -> bool {
    let Ok(output) = str::from_utf8(output) else {
        return false;
    };
    output.contains(" cycle 0 outside 0\n") && sum_of_counts(output) == runs
}

/// The words of the first row that find something, if there are some.
fn unsound_words(
    rt: &(impl Threads + Sync),
    alloc: Global,
) -> Result<Option<&'static str>, AllocError> {
    for (words, input, runs) in &SOUND {
        let call = Call {
            words: *words,
            input: *input,
            ..CHECK
        };
        let made = make(rt, alloc, &call)?;
        if made.status != Status::Clean || !made.is_read || !is_sound(&made.output, *runs) {
            return Ok(Some(*words));
        }
    }
    Ok(None)
}

#[test]
fn machines_without_a_fault(rt: HostRuntime) -> Result<(), Fail> {
    assert_eq!(rt; unsound_words(&rt, rt.alloc())?, None);
    Ok(())
}

/// Words of `run` with a planted fault that the drawn runs show, and the test.
const FAULTY: [(&str, &str); 7] = [
    ("run --chunk 1 --runs 1000 --fault stale:3", STORE_BUFFERING),
    (
        "run --chunk 1 --runs 1000 --target tso --model tso --fault nofence",
        STORE_BUFFERING_FENCES,
    ),
    (
        "run --chunk 1 --runs 1000 --target tso --model tso --fault unordered",
        MESSAGE_PASSING,
    ),
    (
        "run --chunk 1 --runs 1000 --target tso --model tso --fault noforward",
        OWN_STORES,
    ),
    (
        "run --chunk 1 --runs 1000 --target pso --model pso --fault nofence",
        STORE_BUFFERING_FENCES,
    ),
    (
        "run --chunk 1 --runs 1000 --target weak --model weak --fault nofence",
        MESSAGE_PASSING_FENCES,
    ),
    (
        "run --chunk 1 --runs 1000 --target weak --model weak --fault loadload",
        TWO_LOADS,
    ),
];

/// The words of the first row that find nothing, if there are some.
fn missed_fault(
    rt: &(impl Threads + Sync),
    alloc: Global,
) -> Result<Option<&'static str>, AllocError> {
    for (words, input) in &FAULTY {
        let call = Call {
            words: *words,
            input: *input,
            ..CHECK
        };
        let made = make(rt, alloc, &call)?;
        if made.status != Status::Found || !made.errs.is_empty() {
            return Ok(Some(*words));
        }
    }
    Ok(None)
}

#[test]
fn planted_faults(rt: HostRuntime) -> Result<(), Fail> {
    assert_eq!(rt; missed_fault(&rt, rt.alloc())?, None);
    Ok(())
}

/// Words and an input that have no output, the status, and the line.
const REFUSED: [(&str, &str, Status, &str); 6] = [
    ("run", "", Status::Input, "input line 1: NoEnd"),
    (
        "run",
        "mtest 1\nwords 0\n",
        Status::Input,
        "input line 2: BadWords",
    ),
    (
        "run",
        "mtest 1\nwords 2\nthread\nst 0\nld 1\nthread\nst 1\nld 0\nend\ndone\n",
        Status::Input,
        "input line 10: AfterDone",
    ),
    (
        "run --target tso",
        "mtest 2\nwords 1\nthread\nend\nx",
        Status::Input,
        "input line 5: AfterDone",
    ),
    (
        "run --fault unordered",
        STORE_BUFFERING,
        Status::Words,
        "words",
    ),
    (
        "demo --threads 1 --ops 2048 --stores 0 --runs 32769",
        "",
        Status::TooLarge,
        "too large: values 67110912",
    ),
];

/// The words of the first row that is answered otherwise, if there are some.
fn passed_drawing(
    rt: &(impl Threads + Sync),
    alloc: Global,
) -> Result<Option<&'static str>, AllocError> {
    for (words, input, status, reason) in &REFUSED {
        let line = joined(alloc, "mtrace: ", *reason, 1, "\n")?;
        let call = Call {
            words: *words,
            input: *input,
            ..CHECK
        };
        if !leaves(rt, alloc, &call, *status, "", line.as_str())? {
            return Ok(Some(*words));
        }
    }
    Ok(None)
}

/// A run more than fits.
fn drawn_values_pass(rt: &(impl Threads + Sync), alloc: Global) -> Result<bool, AllocError> {
    let test = loads_alone(alloc)?;
    let call = Call {
        words: "run --runs 32769",
        input: test.as_str(),
        ..CHECK
    };
    let line = "mtrace: too large: values 67110912\n";
    leaves(rt, alloc, &call, Status::TooLarge, "", line)
}

#[test]
fn refused_drawing(rt: HostRuntime) -> Result<(), Fail> {
    assert_eq!(rt; passed_drawing(&rt, rt.alloc())?, None);
    assert!(rt; drawn_values_pass(&rt, rt.alloc())?);
    Ok(())
}

/// As many values as fit: each load gives the initial value, which is its one candidate.
fn most_values_fit(rt: &(impl Threads + Sync), alloc: Global) -> Result<bool, AllocError> {
    let test = loads_alone(alloc)?;
    let lines = "sig 0000000000000000 count 32768 ok\n";
    let output = report(alloc, "sc", 32_768, lines, [1, 0, 0])?;
    let call = Call {
        words: "run --runs 32768",
        input: test.as_str(),
        ..CHECK
    };
    leaves(rt, alloc, &call, Status::Clean, output.as_str(), "")
}

#[test]
fn most_drawn_values(rt: HostRuntime) -> Result<(), Fail> {
    assert!(rt; most_values_fit(&rt, rt.alloc())?);
    Ok(())
}

/// Settings of a generated test and of its runs. The last ones plant faults that are found.
const GENERATING: [(&str, Status); 8] = [
    (
        "--seed 9 --threads 4 --ops 50 --words 32 --runs 2000 --target weak --model weak --workers 8 --runners 8",
        Status::Clean,
    ),
    (
        "--chunk 1 --seed 9 --threads 4 --ops 50 --words 32 --runs 2000 --target weak --model weak",
        Status::Clean,
    ),
    (
        "--chunk 1 --seed 1 --threads 3 --ops 8 --words 3 --fences 20 --target tso --model tso",
        Status::Clean,
    ),
    ("--chunk 1 --runs 0", Status::Clean),
    (
        "--chunk 1 --ops 0 --threads 16 --words 256 --runs 3 --target pso --model weak",
        Status::Clean,
    ),
    (
        "--chunk 1 --seed 18446744073709551615 --fault stale:3 --runs 500 --ops 6 --threads 3",
        Status::Found,
    ),
    (
        "--chunk 1 --seed 7 --threads 4 --ops 20 --words 4 --target tso --model tso --fault noforward",
        Status::Found,
    ),
    (
        "--chunk 1 --seed 7 --threads 4 --ops 20 --words 4 --target weak --model weak --fault loadload",
        Status::Found,
    ),
];

/// The output of a command with options for an input, and its status.
pub(super) fn output_for(
    rt: &(impl Threads + Sync),
    alloc: Global,
    command: &str,
    options: &str,
    input: &str,
) -> Result<Made, AllocError> {
    let all = joined(alloc, command, options, 1, "")?;
    let words = words_of(alloc, all.as_str())?;
    let puts = Manner {
        room: 1_000_000,
        ..FREE
    };
    make_with(
        rt,
        alloc,
        &words,
        &Call {
            input,
            puts,
            ..CHECK
        },
    )
}

/// Whether `demo` writes the summary of what `run` reports on the test that `generate` writes, with the same status.
fn is_demo(
    rt: &(impl Threads + Sync),
    alloc: Global,
    options: &str,
    status: Status,
) -> Result<bool, AllocError> {
    let test = output_for(rt, alloc, "generate ", options, "")?;
    let Ok(test) = str::from_utf8(&test.output) else {
        return Ok(false);
    };
    let whole = output_for(rt, alloc, "run ", options, test)?;
    let Ok(report) = str::from_utf8(&whole.output) else {
        return Ok(false);
    };
    let summary = without_outcomes(alloc, report)?;
    let demo = output_for(rt, alloc, "demo ", options, "mtest 1\n")?;
    let again = output_for(rt, alloc, "demo ", options, "")?;
    Ok(
        demo.status == status
            && whole.status == status
            && demo.output.as_slice() == summary.as_bytes()
            && again.output.as_slice() == summary.as_bytes()
            && summary.lines().count() == 5
            && !demo.is_read
            && demo.errs.is_empty(),
    )
}

/// The options of the first row of which `demo` tells something else, if there are some.
fn wrong_demo(
    rt: &(impl Threads + Sync),
    alloc: Global,
) -> Result<Option<&'static str>, AllocError> {
    for (options, status) in &GENERATING {
        if !is_demo(rt, alloc, *options, *status)? {
            return Ok(Some(*options));
        }
    }
    Ok(None)
}

#[test]
fn demonstrations(rt: HostRuntime) -> Result<(), Fail> {
    assert_eq!(rt; wrong_demo(&rt, rt.alloc())?, None);
    Ok(())
}

/// Adds the lines of runs that a machine is drawn through, and the end.
fn push_runs<M: Machine>(
    alloc: Global,
    machine: &mut M,
    seed: u64,
    runs: u32,
    text: &mut String,
) -> Result<(), AllocError> {
    for run in 0..runs {
        machine.reset();
        play_drawn(machine, seed, run);
        if let Ok(line) = str::from_utf8(&run_line(alloc, machine.loads())?) {
            text.push_str(line)?;
        }
    }
    text.push_str("done\n")
}

/// The test with the first 50 drawn runs of seed 4 behind it, on the machine with this name.
fn with_drawn_runs(
    alloc: Global,
    test: &Test,
    target: &str,
    text: &str,
) -> Result<String, AllocError> {
    let mut input = String::from_str(alloc, text)?;
    match target {
        "tso" => push_runs(
            alloc,
            &mut TsoMachine::new(alloc, test, Fault::None)?,
            4,
            50,
            &mut input,
        )?,
        "pso" => push_runs(
            alloc,
            &mut PsoMachine::new(alloc, test, Fault::None)?,
            4,
            50,
            &mut input,
        )?,
        "weak" => push_runs(
            alloc,
            &mut WeakMachine::new(alloc, test, Fault::None)?,
            4,
            50,
            &mut input,
        )?,
        _ => push_runs(
            alloc,
            &mut ScMachine::new(alloc, test, Fault::None)?,
            4,
            50,
            &mut input,
        )?,
    }
    Ok(input)
}

/// Whether `run` on a machine reports what `check` reports of the same runs, written out behind the test.
fn is_run_as_checked(
    rt: &(impl Threads + Sync),
    alloc: Global,
    target: &str,
    text: &str,
) -> Result<bool, AllocError> {
    let Ok(read) = Test::read(alloc, text.as_bytes()) else {
        return Ok(false);
    };
    let input = with_drawn_runs(alloc, &read.test, target, text)?;
    let options = joined(
        alloc,
        "--chunk 1 --seed 4 --runs 50 --target ",
        target,
        1,
        "",
    )?;
    let run = output_for(rt, alloc, "run ", options.as_str(), text)?;
    let check = output_for(rt, alloc, "check ", "--chunk 1", input.as_str())?;
    Ok(
        run.status == check.status
            && run.output.as_slice() == check.output.as_slice()
            && !run.output.is_empty(),
    )
}

/// The machine, and whether the test is generated, of the first row in which the two differ, if there is one.
fn other_runs(
    rt: &(impl Threads + Sync),
    alloc: Global,
) -> Result<Option<(&'static str, bool)>, AllocError> {
    let options = "--seed 4 --threads 3 --ops 6 --words 2 --fences 10";
    let made = output_for(rt, alloc, "generate ", options, "")?;
    let Ok(text) = str::from_utf8(&made.output) else {
        return Ok(Some(("", true)));
    };
    for target in ALL {
        if !is_run_as_checked(rt, alloc, *target, text)? {
            return Ok(Some((*target, true)));
        }
        if !is_run_as_checked(rt, alloc, *target, MESSAGE_PASSING_PARTIAL_FENCES)? {
            return Ok(Some((*target, false)));
        }
    }
    Ok(None)
}

#[test]
fn runs_are_those_that_are_drawn(rt: HostRuntime) -> Result<(), Fail> {
    assert_eq!(rt; other_runs(&rt, rt.alloc())?, None);
    Ok(())
}

/// A report of any length has room.
const WIDE: Manner<'static> = Manner {
    room: 20_000_000,
    ..FREE
};

/// Whether 65,536 runs of a generated test, drawn by four runners and checked by four workers, are all reported, without a cycle.
fn ordinary_use_is_sound(rt: &(impl Threads + Sync), alloc: Global) -> Result<bool, AllocError> {
    let options = "--seed 9 --threads 4 --ops 50 --words 32";
    let made = output_for(rt, alloc, "generate ", options, "")?;
    let Ok(text) = str::from_utf8(&made.output) else {
        return Ok(false);
    };
    let call = Call {
        words: "run --seed 9 --runs 65536 --target tso --model tso --chunk 256 --workers 4 --runners 4",
        input: text,
        puts: WIDE,
        ..CHECK
    };
    let made = make(rt, alloc, &call)?;
    Ok(made.status == Status::Clean && is_sound(&made.output, 65_536))
}

#[test]
fn ordinary_use(rt: HostRuntime) -> Result<(), Fail> {
    assert!(rt; ordinary_use_is_sound(&rt, rt.alloc())?);
    Ok(())
}
