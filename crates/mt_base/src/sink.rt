//! Where bytes go.
ghost use Rattle.std.specs.Prelude.{◌≡◌, ◌<◌, ◌≤◌, ℕ, List, length, Option};
ghost use Rattle.mt_base.specs.Faults.{Rose};
ghost use Rattle.mt_base.specs.Sink.{IsWithinPiece, PutsNext};

/// What a put to a sink answers.
#[derive(Clone, Copy, Debug, PartialEq, Eq)]
pub enum Put {
    /// So many bytes of the piece were appended.
    Wrote(usize),
    /// The sink failed, and what it holds is as before.
    Failed,
}

/// A sink of bytes that counts its faults.
pub trait Sink {
    /// The bytes that the sink holds, where it tells them.
    ghost held: { Self → Option (List ℕ) };

    /// How often the sink has failed. It never falls, and stops at 2^64 - 1.
    ghost faults: { Self → ℕ };

    /// Appends bytes from the front of the piece, at least one.
    fn put(&mut self, piece: &[u8]) -> Put
        requires { 0 < length piece.now }
        ensures within { IsWithinPiece result (length piece.now) }
        ensures next { PutsNext (held self.old) (held self.new) piece.now result }
        ensures later { faults self.old ≤ faults self.new }
        ensures failed { result ≡ Put.Failed → Rose (faults self.old) (faults self.new) };
}
