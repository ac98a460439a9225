//! The text of a report: the verdicts on the outcomes of a test's runs.
//!
//! What is proved:
//! `text`: the report, byte for byte, of a tally, its verdicts and the numbers of work. `summary`: the same without the lines of outcomes. `Report::is_clean`: it has no cycle and no outcome outside, exactly.
//! `run_line`: the line of a run, which reads back as the run's values.
#![tactic(auto)]

mod clean;
pub mod laws;
mod lines;
mod numbers;
mod report;
mod run;
mod summaries;
mod writing;

pub use report::{Judged, Report, Work};
pub use run::run_line;
pub use summaries::summary;
pub use writing::text;

#[cfg(test)]
mod tests;
