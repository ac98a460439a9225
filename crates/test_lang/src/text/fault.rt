//! How a text is refused that doesn't begin with the text of a test.
ghost use Rattle.std.specs.Prelude.{◌≡◌};
ghost use Rattle.test_lang.specs.declared.text.fault.TestFault.TheVariants.{Memory};

use std::alloc::AllocError;
use thiserror::Error;

/// The refusal of a test text: that of its first bad line, whose number is counted from 1. On one line the first
/// refusal that applies is given, in the order that `specs/Text/Reading.antt` states.
#[derive(Clone, Copy, PartialEq, Eq, Debug, Drop, Error)]
pub enum TestFault {
    /// The first line is neither `mtest 1` nor `mtest 2`.
    #[error("line {line}: expected `mtest 1` or `mtest 2`")]
    BadHead { line: u32 },
    /// The second line isn't `words N`, with a number from 1 to 256.
    #[error("line {line}: expected `words` and a number from 1 to 256")]
    BadWords { line: u32 },
    /// A later line is none of `thread`, `ld N`, `st N`, `fence` and `end`, nor, in version 2, of `fence st` and `fence ld`.
    #[error("line {line}: expected `thread`, `ld N`, `st N`, `fence` or `end`, or in version 2 `fence st` or `fence ld`")]
    BadLine { line: u32 },
    /// A load or a store of a word that the test doesn't have.
    #[error("line {line}: no such word")]
    WordRange { line: u32 },
    /// A thread behind 16 threads.
    #[error("line {line}: more than 16 threads")]
    TooManyThreads { line: u32 },
    /// An operation behind 2048 operations.
    #[error("line {line}: more than 2048 operations")]
    TooManyOps { line: u32 },
    /// An operation or the end before the first thread.
    #[error("line {line}: no thread yet")]
    NoThread { line: u32 },
    /// No line feed closes the line.
    #[error("line {line}: the text ends within the test")]
    NoEnd { line: u32 },
    /// Want of memory.
    #[error("out of memory")]
    Memory,
}

impl From<AllocError> for TestFault {
    ghost from_gives = { λ _ fault. fault ≡ Memory };

    fn from(_error: AllocError) -> TestFault {
        TestFault::Memory
    }
}
