//! The options of the command line, in one table: names, defaults, and the numbers that they take.

use test_lang::test::{MAX_OPS, MAX_THREADS, MAX_WORDS};

/// The most signatures that are checked together.
pub const MAX_CHUNK: u64 = 1_000_000;

/// The most threads that check.
pub const MAX_WORKERS: u64 = 64;

/// The most threads that play.
pub const MAX_RUNNERS: u64 = 64;

/// The most runs, played or recorded.
pub const MAX_RUNS: u64 = 1_000_000;

/// The most operations of a hundred that may be stores or fences.
pub const MAX_SHARES: u32 = 100;

/// An option: its name, and its text where the words have none.
#[derive(Clone, Copy, Debug, PartialEq, Eq, Drop)]
pub(crate) struct OptionRow {
    pub name: &'static str,
    pub default: &'static str,
}

/// An option that takes a number from `least` to `most`.
#[derive(Clone, Copy, Debug, PartialEq, Eq, Drop)]
pub(crate) struct NumberRow {
    pub row: OptionRow,
    pub least: u64,
    pub most: u64,
}

/// The name of the word that every command line has.
pub(crate) const COMMAND: &str = "COMMAND";

pub(crate) const MODEL: OptionRow = OptionRow {
    name: "model",
    default: "sc",
};

pub(crate) const TARGET: OptionRow = OptionRow {
    name: "target",
    default: "sc",
};

pub(crate) const FAULT: OptionRow = OptionRow {
    name: "fault",
    default: "none",
};

pub(crate) const CHUNK: NumberRow = NumberRow {
    row: OptionRow {
        name: "chunk",
        default: "64",
    },
    least: 1,
    most: MAX_CHUNK,
};

pub(crate) const WORKERS: NumberRow = NumberRow {
    row: OptionRow {
        name: "workers",
        default: "1",
    },
    least: 1,
    most: MAX_WORKERS,
};

pub(crate) const RUNNERS: NumberRow = NumberRow {
    row: OptionRow {
        name: "runners",
        default: "1",
    },
    least: 1,
    most: MAX_RUNNERS,
};

pub(crate) const RUNS: NumberRow = NumberRow {
    row: OptionRow {
        name: "runs",
        default: "100",
    },
    least: 0,
    most: MAX_RUNS,
};

pub(crate) const SEED: NumberRow = NumberRow {
    row: OptionRow {
        name: "seed",
        default: "0",
    },
    least: 0,
    most: u64::MAX,
};

pub(crate) const THREADS: NumberRow = NumberRow {
    row: OptionRow {
        name: "threads",
        default: "2",
    },
    least: 1,
    most: MAX_THREADS as u64,
};

pub(crate) const OPS: NumberRow = NumberRow {
    row: OptionRow {
        name: "ops",
        default: "4",
    },
    least: 0,
    most: MAX_OPS as u64,
};

pub(crate) const WORDS: NumberRow = NumberRow {
    row: OptionRow {
        name: "words",
        default: "2",
    },
    least: 1,
    most: MAX_WORDS as u64,
};

pub(crate) const STORES: NumberRow = NumberRow {
    row: OptionRow {
        name: "stores",
        default: "50",
    },
    least: 0,
    most: MAX_SHARES as u64,
};

pub(crate) const FENCES: NumberRow = NumberRow {
    row: OptionRow {
        name: "fences",
        default: "0",
    },
    least: 0,
    most: MAX_SHARES as u64,
};

/// The options whose texts are names.
pub(crate) const NAMES: [OptionRow; 3] = [MODEL, TARGET, FAULT];

/// The options whose texts are numerals.
pub(crate) const NUMBERS: [NumberRow; 10] = [
    CHUNK, WORKERS, RUNNERS, RUNS, SEED, THREADS, OPS, WORDS, STORES, FENCES,
];
