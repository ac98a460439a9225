//! A sink over a writer.
ghost use Rattle.std.specs.Prelude.{◌≡◌};

use mt_base::{Put, Sink};
use std::io::Write;

/// A sink over any writer. It tells what the writer tells: of standard output and standard error, nothing.
#[derive(Drop)]
pub struct WriterSink<W> {
    pub writer: W,
    pub faults: u64,
}

impl<W> WriterSink<W> {
    pub fn new(writer: W) -> WriterSink<W>
        ensures { result ≡ record { writer = writer; faults = 0 } }
    {
        WriterSink { writer, faults: 0 }
    }
}

impl<W: Write> Sink for WriterSink<W> {
    ghost held = { λ sink. W.contents sink.writer };

    ghost faults = { λ sink. sink.faults };

    /// One write. One that takes nothing is a fault, as every error is, that of an interrupted call among them.
    fn put(&mut self, piece: &[u8]) -> Put {
        match self.writer.write(piece) {
            Ok(0) | Err(_) => {
                self.faults = self.faults.saturating_add(1);
                Put::Failed
            }
            Ok(count) => Put::Wrote(count),
        }
    }
}
