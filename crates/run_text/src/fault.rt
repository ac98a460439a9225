//! How a text of runs or of schedules is refused.
ghost use Rattle.std.specs.Prelude.{◌≡◌, ◌+◌, ◌^◌, ◌<◌};
ghost use Rattle.run_text.specs.Pieces.{line_of, moved};

use std::alloc::AllocError;
use thiserror::Error;

/// The refusal of a text of runs or of schedules: that of its first bad line, whose number counts from the first line of
/// the input. On one line the first refusal that applies is given, in this order: `NoDone`, `BadRunLine`, `WrongCount`,
/// `ValueRange`; behind `done` there is only `AfterDone`.
#[derive(Clone, Copy, PartialEq, Eq, Debug, Drop, Error)]
pub enum RunFault {
    /// The line is neither `done` nor a run line; in a text of schedules, nor a schedule line.
    #[error("line {line}: neither `done` nor a line of this text")]
    BadRunLine { line: u32 },
    /// A run line has `got` values, and the test has `want` loads. It is never that of a schedule line.
    #[error("line {line}: expected {want} values, got {got}")]
    WrongCount { line: u32, want: u32, got: u32 },
    /// A numeral is above 4294967295.
    #[error("line {line}: a number is too large")]
    ValueRange { line: u32 },
    /// No line feed closes the line.
    #[error("line {line}: the text ends before `done`")]
    NoDone { line: u32 },
    /// A byte stands behind `done`.
    #[error("line {line}: more text behind `done`")]
    AfterDone { line: u32 },
    /// Want of memory.
    #[error("out of memory")]
    Memory,
}

impl From<AllocError> for RunFault {
    ghost use Rattle.std.specs.Prelude.{◌≡◌};
    ghost use Rattle.run_text.specs.declared.fault.RunFault.TheVariants.{Memory};

    ghost from_gives = { λ _ fault. fault ≡ Memory };

    fn from(_error: AllocError) -> RunFault {
        RunFault::Memory
    }
}

impl RunFault {
    /// The same refusal where so many more lines stand before the text.
    pub fn moved(self, lines: u32) -> RunFault
        requires { lines + line_of self < 2 ^ 32 }
        ensures { result ≡ moved lines self }
    {
        match self {
            RunFault::BadRunLine { line } => RunFault::BadRunLine { line: lines + line },
            RunFault::WrongCount { line, want, got } => RunFault::WrongCount {
                line: lines + line,
                want,
                got,
            },
            RunFault::ValueRange { line } => RunFault::ValueRange { line: lines + line },
            RunFault::NoDone { line } => RunFault::NoDone { line: lines + line },
            RunFault::AfterDone { line } => RunFault::AfterDone { line: lines + line },
            RunFault::Memory => RunFault::Memory,
        }
    }
}
