//! Why a call has no output, and the line that tells it.
ghost use Rattle.std.specs.Prelude.{◌≡◌, IfOk, IsOk, IsTrue};
ghost use Rattle.std.specs.Cow.{cow_str_bytes};
ghost use Rattle.mtrace_app.specs.Refusals.{has_fixed_line, message, refusal_text, status_of};

use crate::status::Status;
use std::alloc::{AllocError, Global};
use std::borrow::CowStr;
use std::fmt;

/// Why a line of an input is bad.
#[derive(Clone, Copy, Debug, PartialEq, Eq, Drop)]
pub enum Reason {
    /// The first line of a test isn't its head.
    BadHead,
    /// The second line of a test doesn't say its words.
    BadWords,
    /// A line of a test has no form.
    BadLine,
    /// An operation names a word that the test doesn't have.
    WordRange,
    /// A test has a thread too many.
    TooManyThreads,
    /// A test has an operation too many.
    TooManyOps,
    /// An operation, or the end, stands before the first thread.
    NoThread,
    /// The text ends within a test.
    NoEnd,
    /// A line behind a test is neither a run or schedule nor their end.
    BadRunLine,
    /// A run has `got` values, and the test has `want` loads.
    WrongCount { want: u32, got: u32 },
    /// A value of a run is above 4294967295.
    ValueRange,
    /// The text ends within the runs.
    NoDone,
    /// A byte stands behind the end of the runs.
    AfterDone,
    /// A schedule's step at this place, counted from 0, isn't enabled.
    NotEnabled { place: u32 },
    /// A schedule ends before each operation has taken effect.
    Unfinished,
}

impl fmt::Display for Reason {
    ghost use Rattle.std.specs.Prelude.{Some};
    ghost use Rattle.mtrace_app.specs.Refusals.{reason_text};

    ghost output = { λ reason. Some (reason_text reason) };

    fn fmt<W: fmt::Write>(&self, f: &mut fmt::Formatter<W>) -> fmt::Result {
        match self {
            Reason::BadHead => f.write_str("BadHead"),
            Reason::BadWords => f.write_str("BadWords"),
            Reason::BadLine => f.write_str("BadLine"),
            Reason::WordRange => f.write_str("WordRange"),
            Reason::TooManyThreads => f.write_str("TooManyThreads"),
            Reason::TooManyOps => f.write_str("TooManyOps"),
            Reason::NoThread => f.write_str("NoThread"),
            Reason::NoEnd => f.write_str("NoEnd"),
            Reason::BadRunLine => f.write_str("BadRunLine"),
            Reason::WrongCount { want, got } => write!(f, "WrongCount want {want} got {got}"),
            Reason::ValueRange => f.write_str("ValueRange"),
            Reason::NoDone => f.write_str("NoDone"),
            Reason::AfterDone => f.write_str("AfterDone"),
            Reason::NotEnabled { place } => write!(f, "NotEnabled place {place}"),
            Reason::Unfinished => f.write_str("Unfinished"),
        }
    }
}

/// The first bad line of an input. Its number counts from the first line of the input.
#[derive(Clone, Copy, Debug, PartialEq, Eq, Drop)]
pub struct InputFault {
    pub line: u32,
    pub reason: Reason,
}

/// Which limit is passed, and how many there are.
#[derive(Clone, Copy, Debug, PartialEq, Eq, Drop)]
pub enum Size {
    /// The bytes of an input.
    Bytes,
    /// So many runs.
    Runs(u64),
    /// So many values in all runs together.
    Values(u64),
}

impl fmt::Display for Size {
    ghost use Rattle.std.specs.Prelude.{Some};
    ghost use Rattle.mtrace_app.specs.Refusals.{size_text};

    ghost output = { λ size. Some (size_text size) };

    fn fmt<W: fmt::Write>(&self, f: &mut fmt::Formatter<W>) -> fmt::Result {
        match self {
            Size::Bytes => f.write_str("bytes"),
            Size::Runs(count) => write!(f, "runs {count}"),
            Size::Values(count) => write!(f, "values {count}"),
        }
    }
}

impl Size {
    /// The line for the errors. That of the bytes takes no memory, of which the error is want.
    fn line(&self, alloc: Global) -> Result<CowStr<'static>, AllocError>
        ensures text { IfOk result (λ line. cow_str_bytes line ≡ message (refusal_text (Refusal.TooLarge self.now))) }
        ensures fixed { self.now ≡ Size.Bytes → IsOk result }
    {
        match self {
            Size::Bytes => Ok(CowStr::Borrowed("mtrace: too large: bytes\n")),
            size => Ok(CowStr::Owned(format!(in alloc; "mtrace: too large: {size}\n")?)),
        }
    }
}

/// Why a call has no output. Want of memory is apart.
#[derive(Clone, Copy, Debug, PartialEq, Eq, Drop)]
pub enum Refusal {
    /// The words have no settings.
    Words,
    /// A take from the source failed.
    ReadFault,
    /// The input is out of form.
    Input(InputFault),
    /// The input passes a limit.
    TooLarge(Size),
}

impl fmt::Display for Refusal {
    ghost use Rattle.std.specs.Prelude.{Some};
    ghost use Rattle.mtrace_app.specs.Refusals.{refusal_text};

    ghost output = { λ refusal. Some (refusal_text refusal) };

    fn fmt<W: fmt::Write>(&self, f: &mut fmt::Formatter<W>) -> fmt::Result {
        match self {
            Refusal::Words => f.write_str("words"),
            Refusal::ReadFault => f.write_str("read fault"),
            Refusal::Input(fault) => write!(f, "input line {0}: {1}", fault.line, fault.reason),
            Refusal::TooLarge(size) => write!(f, "too large: {size}"),
        }
    }
}

impl Refusal {
    /// The status of a call that is refused so.
    pub fn status(&self) -> Status
        ensures { result ≡ status_of self.now }
    {
        match self {
            Refusal::Words => Status::Words,
            Refusal::ReadFault => Status::ReadFault,
            Refusal::Input(_) => Status::Input,
            Refusal::TooLarge(_) => Status::TooLarge,
        }
    }

    /// The line for the errors. The error is want of memory; a line without numbers takes none.
    pub fn line(&self, alloc: Global) -> Result<CowStr<'static>, AllocError>
        ensures text { IfOk result (λ line. cow_str_bytes line ≡ message (refusal_text self.now)) }
        ensures fixed { IsTrue (has_fixed_line self.now) → IsOk result }
    {
        match self {
            Refusal::Words => Ok(CowStr::Borrowed("mtrace: words\n")),
            Refusal::ReadFault => Ok(CowStr::Borrowed("mtrace: read fault\n")),
            Refusal::TooLarge(size) => size.line(alloc),
            Refusal::Input(_) => Ok(CowStr::Owned(format!(in alloc; "mtrace: {self}\n")?)),
        }
    }
}
