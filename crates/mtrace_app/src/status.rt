//! The status that a call ends with.
ghost use Rattle.std.specs.Prelude.{◌≡◌};
ghost use Rattle.mtrace_app.specs.Status.{exit_number};

/// How a call ended. The program ends with its number as exit status.
#[derive(Clone, Copy, Debug, PartialEq, Eq)]
pub enum Status {
    /// The report has no cycle and no value outside of the candidates.
    Clean = 0,
    /// The report has a cycle, or a value outside of the candidates.
    Found = 1,
    /// The words have no settings.
    Words = 2,
    /// The input is out of form.
    Input = 3,
    /// A take from the source failed.
    ReadFault = 4,
    /// A put to the sink failed.
    WriteFault = 5,
    /// Memory was refused.
    Memory = 6,
    /// The input passes a limit.
    TooLarge = 7,
}

impl Status {
    /// The number that the program ends with as exit status.
    pub fn exit_number(self) -> u8
        ensures { result ≡ exit_number self }
    {
        self as u8
    }
}
