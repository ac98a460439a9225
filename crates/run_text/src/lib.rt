//! The texts of runs and of schedules, which stand behind the text of a test: a line for each run or schedule, and `done`.
//!
//! What is proved:
//! `RunLines::next`: the next run, the end, or the refusal of the line, each exactly by the table of the format (both ways); a refusal changes nothing. What it tells of reading all lines.
//! `ScheduleLines::next`: the same of schedules, with the steps of each.
//! `cut_pieces`: a text is cut at line ends, and its pieces make the text. `RunLines::next_in_piece`: the next run of a piece, its end, `done`, or the refusal of the line, each exactly;
//! `RunFault::moved`: the refusal of a piece as that of the text.
//! Laws: what reading all lines gives is what the text means, as a text of items of which each is a run; reading a text is reading each of its pieces by itself, and joining what they give (`pieces_are_read`).
#![tactic(auto)]

pub mod fault;
pub mod laws;
pub mod next_line;
mod parts;
#[cfg(test)]
mod piece_tests;
pub mod piece_turn;
pub mod pieces;
mod run_line;
pub mod run_lines;
mod schedule_line;
pub mod schedule_lines;
mod small_parts;
mod step_text;
#[cfg(test)]
mod tests;
