//! A reader of schedule lines, up to the line `done`: one pass over the bytes, and no memory but that of the steps.
ghost use Rattle.std.specs.Prelude.{◌≡◌, ◌+◌, ◌^◌, ◌<◌, Result, Ok, false, length};
ghost use Rattle.std.specs.Bool.{OnFalse, OnTrue};
ghost use Rattle.run_text.specs.declared.fault.RunFault.{RunFault};
ghost use Rattle.run_text.specs.ScheduleReader.{ScheduleTurn, GivesSchedule, schedule_turn};
ghost use Rattle.run_text.specs.ScheduleGrammar.{ScheduleMeans};

use crate::fault::RunFault;
use crate::next_line::next_line;
use crate::schedule_line::read_schedule;
use std::marker::Model;
use test_lang::step::Step;

/// The schedule lines of a text, each with the steps of one play.
#[derive(Drop)]
pub struct ScheduleLines<'a> {
    left: &'a [u8],
    line: u32,
    is_done: bool,
}

impl<'a> Model for ScheduleLines<'a> {
    ghost use Rattle.std.specs.Prelude.{◌+◌, ◌^◌, ◌<◌, length};
    ghost use Rattle.run_text.specs.ScheduleReader.{Schedules};

    ghost Value = { Schedules };

    ghost view = { λ lines.
        record { left = lines.left.now; line = lines.line; is_done = lines.is_done } };

    ghost invariant = { λ lines. lines.line + length lines.left.now < 2 ^ 32 };
}

impl<'a> ScheduleLines<'a> {
    /// The reader of a text whose first line has this number.
    pub fn new(bytes: &'a [u8], line: u32) -> ScheduleLines<'a>
        requires { line + length bytes.now < 2 ^ 32 }
        ensures { result ≡ record { left = bytes.entry.now; line = line; is_done = false } }
    {
        ScheduleLines {
            left: bytes,
            line,
            is_done: false,
        }
    }

    /// The number of the line that comes next.
    pub fn line(&self) -> u32
        ensures { result ≡ self.now.line }
    {
        self.line
    }

    /// Reads the next line. `true`: it was a schedule line, and its steps were appended. `false`: it was `done`, and
    /// nothing stands behind it. A refusal changes nothing, and is never `WrongCount`.
    pub fn next(&mut self, steps: &mut Vec<Step>) -> Result<bool, RunFault>
        // What a call gives is a function of the reader, unless memory runs out.
        ensures exact { GivesSchedule result steps.old.items steps.new.items self.old self.new
            (schedule_turn self.old) }
        // What is given is what the lines mean.
        ensures found { OnFalse self.old.is_done ((meant : Result ScheduleTurn RunFault)
            × ScheduleMeans self.old meant
            × GivesSchedule result steps.old.items steps.new.items self.old self.new meant) }
        // What the lines mean is given, unless memory runs out.
        ensures only { OnFalse self.old.is_done ((meant : Result ScheduleTurn RunFault) →
            ScheduleMeans self.old meant
            → GivesSchedule result steps.old.items steps.new.items self.old self.new meant) }
        // After `done` each call answers `false`, and changes nothing.
        ensures ended { OnTrue self.old.is_done ((result ≡ Ok false)
            × (steps.new.items ≡ steps.old.items) × (self.new ≡ self.old)) }
    {
        self.step(steps)
    }

    fn step(&mut self, steps: &mut Vec<Step>) -> Result<bool, RunFault>
        ensures ended { OnTrue self.old.is_done (result ≡ Ok false) }
        ensures exact { GivesSchedule result steps.old.items steps.new.items self.old self.new
            (schedule_turn self.old) }
    {
        if self.is_done {
            return Ok(false);
        }
        let Some((line, rest)) = next_line(self.left, self.line)? else {
            self.left = &[];
            self.line += 1;
            self.is_done = true;
            return Ok(false);
        };
        read_schedule(line, self.line, steps)?;
        self.left = rest;
        self.line += 1;
        Ok(true)
    }
}

#[cfg(test)]
mod tests;
