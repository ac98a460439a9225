//! How the work on an answer fails.
ghost use Rattle.std.specs.Prelude.{◌≡◌};
ghost use Rattle.mtrace_app.specs.Inputs.{fault_in_test, fault_behind_test};

use crate::reading::ReadError;
use crate::refusal::{InputFault, Reason, Refusal, Size};
use command_line::WordsFault;
use run_text::fault::RunFault;
use std::alloc::AllocError;
use test_lang::text::fault::TestFault;

/// There is no output, or memory was refused.
#[derive(Clone, Copy, Drop)]
pub(crate) enum Failure {
    Refused(Refusal),
    Memory,
}

impl From<AllocError> for Failure {
    ghost use Rattle.std.specs.Prelude.{◌≡◌};
    ghost use Rattle.mtrace_app.specs.declared.failure.Failure.TheVariants.{Memory};

    ghost from_gives = { λ _ failure. failure ≡ Memory };

    fn from(_error: AllocError) -> Failure {
        Failure::Memory
    }
}

impl From<Refusal> for Failure {
    ghost use Rattle.std.specs.Prelude.{◌≡◌};
    ghost use Rattle.mtrace_app.specs.declared.failure.Failure.TheVariants.{Refused};

    ghost from_gives = { λ refusal failure. failure ≡ Refused refusal };

    fn from(refusal: Refusal) -> Failure {
        Failure::Refused(refusal)
    }
}

impl From<WordsFault> for Failure {
    ghost use Rattle.std.specs.Prelude.{◌≡◌};
    ghost use Rattle.mtrace_app.specs.Failures.{failure_of_words};

    ghost from_gives = { λ fault failure. failure ≡ failure_of_words fault };

    fn from(fault: WordsFault) -> Failure {
        match fault {
            WordsFault::Refused => Failure::Refused(Refusal::Words),
            WordsFault::Memory => Failure::Memory,
        }
    }
}

impl From<ReadError> for Failure {
    ghost use Rattle.std.specs.Prelude.{◌≡◌};
    ghost use Rattle.mtrace_app.specs.Failures.{failure_of_reading};

    ghost from_gives = { λ error failure. failure ≡ failure_of_reading error };

    fn from(error: ReadError) -> Failure {
        match error {
            ReadError::Fault => Failure::Refused(Refusal::ReadFault),
            ReadError::TooLarge => Failure::Refused(Refusal::TooLarge(Size::Bytes)),
            ReadError::Memory => Failure::Memory,
        }
    }
}

impl From<TestFault> for Failure {
    ghost use Rattle.std.specs.Prelude.{◌≡◌};
    ghost use Rattle.mtrace_app.specs.Failures.{failure_of};
    ghost use Rattle.mtrace_app.specs.Inputs.{fault_in_test};

    ghost from_gives = { λ fault failure. failure ≡ failure_of (fault_in_test fault) };

    fn from(fault: TestFault) -> Failure {
        let (line, reason) = match fault {
            TestFault::BadHead { line } => (line, Reason::BadHead),
            TestFault::BadWords { line } => (line, Reason::BadWords),
            TestFault::BadLine { line } => (line, Reason::BadLine),
            TestFault::WordRange { line } => (line, Reason::WordRange),
            TestFault::TooManyThreads { line } => (line, Reason::TooManyThreads),
            TestFault::TooManyOps { line } => (line, Reason::TooManyOps),
            TestFault::NoThread { line } => (line, Reason::NoThread),
            TestFault::NoEnd { line } => (line, Reason::NoEnd),
            TestFault::Memory => return Failure::Memory,
        };
        Failure::Refused(Refusal::Input(InputFault { line, reason }))
    }
}

impl From<RunFault> for Failure {
    ghost use Rattle.std.specs.Prelude.{◌≡◌};
    ghost use Rattle.mtrace_app.specs.Failures.{failure_of};
    ghost use Rattle.mtrace_app.specs.Inputs.{fault_behind_test};

    ghost from_gives = { λ fault failure. failure ≡ failure_of (fault_behind_test fault) };

    fn from(fault: RunFault) -> Failure {
        let (line, reason) = match fault {
            RunFault::BadRunLine { line } => (line, Reason::BadRunLine),
            RunFault::WrongCount { line, want, got } => (line, Reason::WrongCount { want, got }),
            RunFault::ValueRange { line } => (line, Reason::ValueRange),
            RunFault::NoDone { line } => (line, Reason::NoDone),
            RunFault::AfterDone { line } => (line, Reason::AfterDone),
            RunFault::Memory => return Failure::Memory,
        };
        Failure::Refused(Refusal::Input(InputFault { line, reason }))
    }
}
