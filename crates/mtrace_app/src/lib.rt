//! The whole of what the program does, as one call over a source, two sinks and a gate that are handed in.
//!
//! What is proved:
//! `mtrace`, for every test, model and recorded runs: each status has its row in the table of answers, with its cause, what the sink gets and the line for the errors (`answered`); words without settings
//! are refused before anything is taken (`by_words`); bytes within the limit that are taken without a fault are answered by what they mean, or by want of memory (`complete`, `too_large`). `Refusal::line` is
//! the line of a refusal, `Status::exit_number` the number of a status. A machine without a fault gives nothing that
//! its own memory model, or a weaker one, forbids, and a race gives nothing that any model forbids (`no_alarm`). Laws (`laws`): an input means recorded runs or is refused, and not both; its runs, its refusal and its output
//! are one, but for a race, whose output is that of `check` on the runs that it writes.
//! Inside, `counted` makes the report of counted runs, wherever these come from.
#![tactic(auto)]

mod answer;
mod counted;
mod drawn;
mod failure;
mod form;
mod generated;
mod input;
pub mod laws;
mod limits;
mod one_run;
mod output;
mod played;
mod program;
mod raced;
mod reading;
mod recorded;
mod refusal;
mod status;
mod test_runs;
mod writing;

pub use command_line::{Command, Settings, WordsFault, settings};
pub use program::mtrace;
pub use refusal::{InputFault, Reason, Refusal, Size};
pub use status::Status;

#[cfg(test)]
mod tests;
