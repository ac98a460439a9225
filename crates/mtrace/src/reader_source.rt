//! A source over a reader.
ghost use Rattle.std.specs.Prelude.{◌≡◌};

use mt_base::{Source, Take};
use std::io::Read;

/// A source over any reader. It tells what the reader tells: of standard input, nothing.
#[derive(Drop)]
pub struct ReaderSource<R> {
    pub reader: R,
    pub faults: u64,
}

impl<R> ReaderSource<R> {
    pub fn new(reader: R) -> ReaderSource<R>
        ensures { result ≡ record { reader = reader; faults = 0 } }
    {
        ReaderSource { reader, faults: 0 }
    }
}

impl<R: Read> Source for ReaderSource<R> {
    ghost left = { λ source. R.remaining source.reader };

    ghost faults = { λ source. source.faults };

    /// One read. A read of no byte is the end, and every error is a fault, that of an interrupted call among them.
    fn take(&mut self, buf: &mut [u8]) -> Take {
        match self.reader.read(buf) {
            Ok(0) => Take::End,
            Ok(count) => Take::Took(count),
            Err(_) => {
                self.faults = self.faults.saturating_add(1);
                Take::Failed
            }
        }
    }
}
