//! What the words of a command line say, or why they say nothing.

use test_gen::GenSettings;
use test_lang::op::MemModel;
use test_lang::target::{Fault, Target};
use thiserror::Error;

/// What the program is to do.
#[derive(Clone, Copy, Debug, PartialEq, Eq, Drop)]
pub enum Command {
    /// Check recorded runs of a test.
    Check,
    /// Play recorded schedules of a test, and check what they give.
    Replay,
    /// Play drawn schedules of a test, and check what they give.
    Run,
    /// Let real threads race on words, and check what they saw.
    Race,
    /// Print a random test.
    Generate,
    /// Play drawn schedules of a random test, and print the summary of their check.
    Demo,
}

/// All that the words say. Each setting is there, also where the command has no use for it.
#[derive(Clone, Copy, Debug, PartialEq, Eq, Drop)]
pub struct Settings {
    pub command: Command,
    /// The memory model that runs are checked against.
    pub model: MemModel,
    /// The machine that plays the test.
    pub target: Target,
    /// The fault that is planted in the machine, which can carry it.
    pub fault: Fault,
    /// How many signatures are checked together.
    pub chunk: u32,
    /// How many threads check.
    pub workers: u32,
    /// How many threads play.
    pub runners: u32,
    /// How many runs are played.
    pub runs: u32,
    /// Which random test is drawn; its seed is also that of drawn runs.
    pub gen_settings: GenSettings,
}

/// Why words have no settings.
#[derive(Clone, Copy, Debug, PartialEq, Eq, Drop, Error)]
pub enum WordsFault {
    /// The words have none.
    #[error("these words say no settings")]
    Refused,
    /// Want of memory.
    #[error("out of memory")]
    Memory,
}
