//! Puts bytes to a sink.
ghost use Rattle.std.specs.Prelude.{◌≤◌, OnOk, OnErr};
ghost use Rattle.std.specs.Io.KnownBytes.{Appends};
ghost use Rattle.mt_base.specs.Faults.{Rose};
ghost use Rattle.mtrace_app.specs.Outside.{AppendsFront};

use mt_base::{Put, Sink};

/// A put failed.
#[derive(Clone, Copy)]
pub(crate) struct WriteError;

/// Puts all of the bytes. Each put offers all that is left of them. It stops at the first put that fails.
pub(crate) fn put_all<K: Sink>(sink: &mut K, bytes: &[u8]) -> Result<(), WriteError>
    ensures whole { OnOk result (Appends (K.held sink.old) (K.held sink.new) bytes.now) }
    ensures fault { OnErr result (Rose (K.faults sink.old) (K.faults sink.new)) }
    ensures front { OnErr result (AppendsFront (K.held sink.old) (K.held sink.new) bytes.now) }
    ensures later { K.faults sink.old ≤ K.faults sink.new }
{
    let mut rest = bytes;
    while !rest.is_empty() {
        match sink.put(rest) {
            Put::Wrote(count) => rest = &rest[count..],
            Put::Failed => return Err(WriteError),
        }
    }
    Ok(())
}
