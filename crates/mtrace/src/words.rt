//! The words of the command line, as the system gives them.
ghost use Rattle.std.specs.Prelude.{◌≡◌, ◌≢◌};
ghost use Rattle.std.specs.IoError.{error_kind};

use mtrace_app::Status;
use std::io::ErrorKind;
use std::rt::Env;
use std::{env, io};

/// The exit status where the system refuses the list of words, but not for want of memory.
const REFUSED: u8 = 10;

/// The words that stand behind the program's name.
pub fn words(rt: &(impl Env + AllocGlobal)) -> io::Result<Vec<String>> {
    Ok(env::args(rt)?.skip(1).collect(rt.alloc())?)
}

/// The exit status where the system refused the list of words.
pub fn refusal(error: &io::Error) -> u8
    ensures memory { error_kind error.now ≡ ErrorKind.OutOfMemory → result ≡ 6 }
    ensures other { error_kind error.now ≢ ErrorKind.OutOfMemory → result ≡ 10 }
{
    match error.kind() {
        ErrorKind::OutOfMemory => Status::Memory.exit_number(),
        _ => REFUSED,
    }
}
