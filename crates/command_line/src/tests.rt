//! Words with their settings, written by hand, and words that have none.
use crate::meaning::{Command, Settings, WordsFault};
use crate::read::settings;
use std::alloc::Global;
use std::test::Fail;
use test_gen::GenSettings;
use test_lang::op::MemModel;
use test_lang::target::{Fault, Target};

/// Whether the words have these settings, or none. This alone makes the call, and hands its answer on without clauses.
fn answers(alloc: Global, words: &[String], want: Option<Settings>) -> bool {
    match settings(alloc, words) {
        Ok(got) => want == Some(got),
        Err(WordsFault::Refused) => want.is_none(),
        Err(WordsFault::Memory) => false,
    }
}

/// The same of the words of a line, which are separated by single spaces. An empty line has no words.
fn line_answers(alloc: Global, line: &str, want: Option<Settings>) -> Result<bool, Fail> {
    let mut words = Vec::new(alloc);
    if !line.is_empty() {
        for word in line.split(' ') {
            words.push(String::from_str(alloc, word)?)?;
        }
    }
    Ok(answers(alloc, words.as_slice(), want))
}

const DRAWN: GenSettings = GenSettings {
    seed: 0,
    threads: 2,
    ops: 4,
    words: 2,
    stores: 50,
    fences: 0,
};

const CHECK: Settings = Settings {
    command: Command::Check,
    model: MemModel::Sc,
    target: Target::Sc,
    fault: Fault::None,
    chunk: 64,
    workers: 1,
    runners: 1,
    runs: 100,
    gen_settings: DRAWN,
};

const TSO: Settings = Settings {
    model: MemModel::Tso,
    ..CHECK
};

const READ: [(&str, Settings); 35] = [
    ("check", CHECK),
    (
        "replay",
        Settings {
            command: Command::Replay,
            ..CHECK
        },
    ),
    (
        "run",
        Settings {
            command: Command::Run,
            ..CHECK
        },
    ),
    (
        "race",
        Settings {
            command: Command::Race,
            ..CHECK
        },
    ),
    (
        "generate",
        Settings {
            command: Command::Generate,
            ..CHECK
        },
    ),
    (
        "demo",
        Settings {
            command: Command::Demo,
            ..CHECK
        },
    ),
    // Two hyphens end the options, so the rest are no options.
    ("check --", CHECK),
    ("-- check", CHECK),
    // Options, each before or behind the command, with an equals sign or without.
    ("check --model tso", TSO),
    ("check --model=tso", TSO),
    ("--model tso check", TSO),
    ("--model=tso check", TSO),
    ("check --model sc", CHECK),
    (
        "check --model pso",
        Settings {
            model: MemModel::Pso,
            ..CHECK
        },
    ),
    (
        "check --model weak",
        Settings {
            model: MemModel::Weak,
            ..CHECK
        },
    ),
    ("check --target sc", CHECK),
    (
        "check --target tso",
        Settings {
            target: Target::Tso,
            ..CHECK
        },
    ),
    (
        "check --target pso",
        Settings {
            target: Target::Pso,
            ..CHECK
        },
    ),
    (
        "check --target weak",
        Settings {
            target: Target::Weak,
            ..CHECK
        },
    ),
    ("check --fault none", CHECK),
    (
        "check --fault stale:0",
        Settings {
            fault: Fault::Stale { node: 0 },
            ..CHECK
        },
    ),
    (
        "check --fault stale:2047",
        Settings {
            fault: Fault::Stale { node: 2047 },
            ..CHECK
        },
    ),
    (
        "--target tso check --fault nofence",
        Settings {
            target: Target::Tso,
            fault: Fault::NoFence,
            ..CHECK
        },
    ),
    (
        "check --fault unordered --target=tso",
        Settings {
            target: Target::Tso,
            fault: Fault::Unordered,
            ..CHECK
        },
    ),
    (
        "check --fault unordered --target pso",
        Settings {
            target: Target::Pso,
            fault: Fault::Unordered,
            ..CHECK
        },
    ),
    (
        "check --target weak --fault noforward",
        Settings {
            target: Target::Weak,
            fault: Fault::NoForward,
            ..CHECK
        },
    ),
    (
        "--fault=loadload --target=weak check",
        Settings {
            target: Target::Weak,
            fault: Fault::LoadLoad,
            ..CHECK
        },
    ),
    // Numbers up to their ends.
    ("check --chunk 1", Settings { chunk: 1, ..CHECK }),
    (
        "check --chunk 1000000",
        Settings {
            chunk: 1_000_000,
            ..CHECK
        },
    ),
    ("check --workers 1", CHECK),
    (
        "check --workers 64",
        Settings {
            workers: 64,
            ..CHECK
        },
    ),
    ("check --runners 1", CHECK),
    (
        "check --runners 64",
        Settings {
            runners: 64,
            ..CHECK
        },
    ),
    ("check --runs 0", Settings { runs: 0, ..CHECK }),
    (
        "check --runs 1000000",
        Settings {
            runs: 1_000_000,
            ..CHECK
        },
    ),
];

/// The settings of the generator, behind those of `CHECK`.
const DRAWS: [(&str, GenSettings); 14] = [
    ("check --seed 0", DRAWN),
    (
        "check --seed 18446744073709551615",
        GenSettings {
            seed: u64::MAX,
            ..DRAWN
        },
    ),
    (
        "check --threads 1",
        GenSettings {
            threads: 1,
            ..DRAWN
        },
    ),
    (
        "check --threads 16",
        GenSettings {
            threads: 16,
            ..DRAWN
        },
    ),
    ("check --ops 0", GenSettings { ops: 0, ..DRAWN }),
    (
        "check --ops 2048 --threads 1",
        GenSettings {
            threads: 1,
            ops: 2048,
            ..DRAWN
        },
    ),
    (
        "check --ops 128 --threads 16",
        GenSettings {
            threads: 16,
            ops: 128,
            ..DRAWN
        },
    ),
    ("check --words 1", GenSettings { words: 1, ..DRAWN }),
    (
        "check --words 256",
        GenSettings {
            words: 256,
            ..DRAWN
        },
    ),
    ("check --stores 0", GenSettings { stores: 0, ..DRAWN }),
    (
        "check --stores 100",
        GenSettings {
            stores: 100,
            ..DRAWN
        },
    ),
    ("check --fences 0", DRAWN),
    (
        "check --fences 50",
        GenSettings {
            fences: 50,
            ..DRAWN
        },
    ),
    (
        "check --fences 100 --stores 0",
        GenSettings {
            stores: 0,
            fences: 100,
            ..DRAWN
        },
    ),
];

#[test]
fn words_are_read(rt: HostRuntime) -> Result<(), Fail> {
    for (line, want) in &READ {
        assert!(rt; line_answers(rt.alloc(), line, Some(*want))?);
    }
    for (line, gen_settings) in &DRAWS {
        let want = Settings {
            gen_settings: *gen_settings,
            ..CHECK
        };
        assert!(rt; line_answers(rt.alloc(), line, Some(want))?);
    }
    Ok(())
}

const REFUSED: [&str; 66] = [
    // No command, or two, or one that isn't there.
    "",
    "--model sc",
    "--",
    "check extra",
    "check check",
    "verify",
    "Check",
    "chec",
    // No option of these names, or one without a text, or one twice.
    "check --orders yes",
    "check -m sc",
    "check --mode sc",
    "check --model",
    "check --model sc --model sc",
    "check --model=sc --model=sc",
    "-- check --model sc",
    // Help and the version are no settings.
    "--help",
    "-h",
    "check --help",
    "--version",
    "-V",
    "check --version",
    "help",
    // Texts that name nothing.
    "check --model rmo",
    "check --model SC",
    "check --model=",
    "check --target none",
    "check --fault stale",
    "check --fault stale:",
    "check --fault stale:01",
    "check --fault stale:2048",
    "check --fault stale:-1",
    // Faults that the machine can't carry, whatever the command.
    "run --fault unordered",
    "check --fault nofence",
    "generate --fault loadload",
    "run --target tso --fault loadload",
    "run --target pso --fault loadload",
    "run --target weak --fault unordered",
    // No numerals.
    "check --seed 007",
    "check --seed +7",
    "check --seed -7",
    "check --seed 0x7",
    "check --seed=",
    "check --seed 7.",
    "check --runs 00",
    // Numbers past their ends.
    "check --chunk 0",
    "check --chunk 1000001",
    "check --workers 0",
    "check --workers 65",
    "check --runners 0",
    "check --runners 65",
    "check --runs 1000001",
    "check --seed 18446744073709551616",
    "check --seed 340282366920938463463374607431768211456",
    "check --threads 0",
    "check --threads 17",
    "check --ops 2049",
    "check --ops 2049 --threads 1",
    "check --words 0",
    "check --words 257",
    "check --stores 101",
    "check --fences 101",
    // A text that is too large to be read as 32 bits, but would wrap to a good one.
    "check --chunk 4294967297",
    // Tests that are too large, and shares above a hundred.
    "generate --threads 16 --ops 129",
    "check --ops 1025",
    "generate --stores 60 --fences 41",
    "check --fences 51",
];

#[test]
fn words_are_refused(rt: HostRuntime) -> Result<(), Fail> {
    for line in &REFUSED {
        assert!(rt; line_answers(rt.alloc(), line, None)?);
    }
    Ok(())
}

fn one_word_answers(alloc: Global, word: &str, want: Option<Settings>) -> Result<bool, Fail> {
    let mut words = Vec::new(alloc);
    words.push(String::from_str(alloc, word)?)?;
    Ok(answers(alloc, words.as_slice(), want))
}

/// A word may hold anything that is text.
#[test]
fn words_with_spaces(rt: HostRuntime) -> Result<(), Fail> {
    for word in &["", " ", "check ", " check", "ché"] {
        assert!(rt; one_word_answers(rt.alloc(), word, None)?);
    }
    Ok(())
}
