//! The words of the command line, and the settings that they say.
//!
//! What is proved:
//! `settings`: the settings of the words behind the program's name, exactly where clap's function of the words gives matches, every text reads by the table of options, the fault fits the target, and the products and
//! sums hold: threads times ops, stores plus fences (`ok`, `known`); refused exactly where there are none (`refused`); each number in its range (`ranges`). Words have one list of settings at most (`one_settings`).
#![tactic(auto)]

mod laws;
mod matches;
mod meaning;
mod options;
mod read;
mod texts;

pub use laws::one_settings;
pub use meaning::{Command, Settings, WordsFault};
pub use options::{MAX_CHUNK, MAX_RUNNERS, MAX_RUNS, MAX_SHARES, MAX_WORKERS};
pub use read::settings;

#[cfg(test)]
mod tests;
