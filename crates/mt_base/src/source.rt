//! Where bytes come from.
ghost use Rattle.std.specs.Prelude.{◌≡◌, ◌<◌, ◌≤◌, ℕ, List, length, Option};
ghost use Rattle.mt_base.specs.Faults.{Rose};
ghost use Rattle.mt_base.specs.Source.{IsWithinRoom, TakesNext};

/// What a take from a source answers.
#[derive(Clone, Copy, Debug, PartialEq, Eq)]
pub enum Take {
    /// So many bytes were taken.
    Took(usize),
    /// Nothing is left.
    End,
    /// The source failed, and what it has left is as before.
    Failed,
}

/// A source of bytes that counts its faults.
pub trait Source {
    /// The bytes that are left, where the source tells them.
    ghost left: { Self → Option (List ℕ) };

    /// How often the source has failed. It never falls, and stops at 2^64 - 1.
    ghost faults: { Self → ℕ };

    /// Takes the next bytes, at least one, into the front of the buffer. What it leaves behind them is open, and after `End` and `Failed` the whole buffer.
    fn take(&mut self, buf: &mut [u8]) -> Take
        requires { 0 < length buf.old }
        ensures within { IsWithinRoom result (length buf.old) }
        ensures next { TakesNext (left self.old) (left self.new) buf.new result }
        ensures later { faults self.old ≤ faults self.new }
        ensures failed { result ≡ Take.Failed → Rose (faults self.old) (faults self.new) };
}
