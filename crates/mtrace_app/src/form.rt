//! The form in which a command tells what it found.
ghost use Rattle.std.specs.Prelude.{◌≡◌};
ghost use Rattle.mtrace_app.specs.Outputs.{form_of};

use command_line::Command;

/// How much is written of a report.
#[derive(Clone, Copy)]
pub(crate) enum Form {
    /// All of its lines.
    Whole,
    /// Its lines without those of outcomes.
    Summary,
}

impl Form {
    /// The form of a command. `generate` reports nothing, and isn't asked for one.
    pub(crate) fn of(command: Command) -> Form
        ensures { result ≡ form_of command }
    {
        match command {
            Command::Demo => Form::Summary,
            Command::Check | Command::Replay | Command::Run | Command::Race | Command::Generate =>
                Form::Whole,
        }
    }
}
