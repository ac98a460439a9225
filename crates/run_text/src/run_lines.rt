//! A reader of run lines, up to the line `done`: one pass over the bytes, and no memory but that of the values.
ghost use Rattle.std.specs.Prelude.{◌≡◌, ◌+◌, ◌^◌, ◌<◌, ◌≤◌, Result, Ok, false, length, IfErr};
ghost use Rattle.std.specs.Bool.{OnFalse, OnTrue};
ghost use Rattle.run_text.specs.declared.fault.RunFault.{RunFault};
ghost use Rattle.run_text.specs.Reader.{Turn, Gives, turn};
ghost use Rattle.run_text.specs.Grammar.{CallMeans};
ghost use Rattle.run_text.specs.Runs.{ReadsOn};
ghost use Rattle.run_text.specs.Pieces.{line_of};
ghost use Rattle.run_text.specs.InPiece.{GivesInPiece, ReadsInPiece};

use crate::fault::RunFault;
use crate::next_line::next_line;
use crate::piece_turn::PieceTurn;
use crate::run_line::read_run;
use std::marker::Model;

/// The run lines of a text, each with as many values as a test has loads.
#[derive(Drop)]
pub struct RunLines<'a> {
    left: &'a [u8],
    line: u32,
    loads: u32,
    is_done: bool,
}

impl<'a> Model for RunLines<'a> {
    ghost use Rattle.std.specs.Prelude.{◌+◌, ◌^◌, ◌<◌, length};
    ghost use Rattle.run_text.specs.Reader.{Reader};

    ghost Value = { Reader };

    ghost view = { λ lines.
        record { left = lines.left.now; line = lines.line; loads = lines.loads; is_done = lines.is_done } };

    ghost invariant = { λ lines. lines.line + length lines.left.now < 2 ^ 32 };
}

impl<'a> RunLines<'a> {
    /// The reader of a text whose first line has this number, behind a test with so many loads.
    pub fn new(bytes: &'a [u8], line: u32, loads: u32) -> RunLines<'a>
        requires { line + length bytes.now < 2 ^ 32 }
        ensures { result
            ≡ record { left = bytes.entry.now; line = line; loads = loads; is_done = false } }
    {
        RunLines {
            left: bytes,
            line,
            loads,
            is_done: false,
        }
    }

    /// The number of the line that comes next.
    pub fn line(&self) -> u32
        ensures { result ≡ self.now.line }
    {
        self.line
    }

    /// Reads the next line. `true`: it was a run line, and its values were appended. `false`: it was `done`, and nothing
    /// stands behind it. A refusal changes nothing.
    pub fn next(&mut self, values: &mut Vec<u32>) -> Result<bool, RunFault>
        // What a call gives is a function of the reader, unless memory runs out.
        ensures exact { Gives result values.old.items values.new.items self.old self.new
            (turn self.old) }
        // What is given is what the lines mean.
        ensures found { OnFalse self.old.is_done ((meant : Result Turn RunFault)
            × CallMeans self.old meant
            × Gives result values.old.items values.new.items self.old self.new meant) }
        // What the lines mean is given, unless memory runs out.
        ensures only { OnFalse self.old.is_done ((meant : Result Turn RunFault) →
            CallMeans self.old meant
            → Gives result values.old.items values.new.items self.old self.new meant) }
        // What a call tells of reading all lines, for a loop that reads on.
        ensures reads_on { ReadsOn result values.old.items values.new.items self.old self.new }
        // After `done` each call answers `false`, and changes nothing.
        ensures ended { OnTrue self.old.is_done ((result ≡ Ok false)
            × (values.new.items ≡ values.old.items) × (self.new ≡ self.old)) }
    {
        self.step(values)
    }

    /// Reads the next line where the bytes are a piece of a text: as `next`, but a piece may end without `done`.
    /// A refusal changes nothing.
    pub fn next_in_piece(&mut self, values: &mut Vec<u32>) -> Result<PieceTurn, RunFault>
        // Where a byte is left the call is that of the next line.
        ensures exact { GivesInPiece result values.old.items values.new.items self.old self.new }
        // What a call tells of reading the piece, for a loop that reads on.
        ensures reads_on { ReadsInPiece result values.old.items values.new.items self.old self.new }
        ensures line { IfErr result (λ fault. line_of fault ≤ self.old.line + length self.old.left) }
    {
        self.step_in_piece(values)
    }

    fn step_in_piece(&mut self, values: &mut Vec<u32>) -> Result<PieceTurn, RunFault>
        ensures { GivesInPiece result values.old.items values.new.items self.old self.new }
    {
        if self.left.is_empty() {
            return Ok(PieceTurn::End);
        }
        if self.step(values)? {
            Ok(PieceTurn::Run)
        } else {
            Ok(PieceTurn::Done)
        }
    }

    fn step(&mut self, values: &mut Vec<u32>) -> Result<bool, RunFault>
        ensures ended { OnTrue self.old.is_done (result ≡ Ok false) }
        ensures exact { Gives result values.old.items values.new.items self.old self.new
            (turn self.old) }
    {
        if self.is_done {
            return Ok(false);
        }
        let Some((line, rest)) = next_line(self.left, self.line)? else {
            self.left = &[];
            self.line += 1;
            self.is_done = true;
            return Ok(false);
        };
        read_run(line, self.line, self.loads, values)?;
        self.left = rest;
        self.line += 1;
        Ok(true)
    }
}
