//! A source in memory.
ghost use Rattle.std.specs.Prelude.{◌≡◌, ◌++◌, ◌<◌, ◌≤◌, ℕ, List, length, take, drop, Some};
ghost use Rattle.mt_base.specs.Calls.{no_calls};
ghost use Rattle.mt_base.specs.Faults.{Rose};
ghost use Rattle.mt_base.specs.MemSource.{given, take_answer, after_take};
ghost use Rattle.mt_base.specs.Source.{IsWithinRoom, TakesNext};

use crate::calls::Calls;
use crate::source::{Source, Take};
use std::marker::Model;

/// A source that has its bytes in memory, and fails at the calls that are named.
#[derive(Drop)]
pub struct MemSource {
    bytes: Vec<u8>,
    start: usize,
    most: usize,
    calls: Calls,
}

impl Model for MemSource {
    ghost use Rattle.std.specs.Prelude.{◌≤◌, length, drop};
    ghost use Rattle.mt_base.specs.MemSource.{MemSourceState};

    ghost Value = { MemSourceState };

    ghost view = { λ source.
        record { left = drop source.start source.bytes.items; most = source.most; calls = source.calls } };

    ghost invariant = { λ source. (source.start ≤ length source.bytes.items) × (1 ≤ source.most) };
}

impl MemSource {
    /// A take gives at most `most` of the bytes. `fails` has the numbers, from 0, of the takes that fail.
    pub fn new(bytes: Vec<u8>, most: usize, fails: Vec<u32>) -> MemSource
        requires { 1 ≤ most }
        ensures { result
            ≡ record { left = bytes.items; most = most; calls = no_calls fails.items } }
    {
        MemSource {
            bytes,
            start: 0,
            most,
            calls: Calls::new(fails),
        }
    }

    fn left(&self) -> &[u8]
        ensures { result.now ≡ self.now.left }
    {
        &self.bytes[self.start..]
    }
}

impl Source for MemSource {
    ghost left = { λ source. Some source.left };

    ghost faults = { λ source. source.calls.faults };

    fn take(&mut self, buf: &mut [u8]) -> Take
        requires { 0 < length buf.old }
        ensures within { IsWithinRoom result (length buf.old) }
        ensures next { TakesNext (Some self.old.left) (Some self.new.left) buf.new result }
        ensures later { self.old.calls.faults ≤ self.new.calls.faults }
        ensures failed { result ≡ Take.Failed → Rose self.old.calls.faults self.new.calls.faults }

        // It is known exactly.
        ensures answer { result ≡ take_answer self.old (length buf.old) }
        ensures after { self.new ≡ after_take self.old (length buf.old) }
        ensures bytes { let n = given self.old (length buf.old) in
            buf.new ≡ take n self.old.left ++ drop n buf.old }
    {
        if self.calls.count(false) {
            return Take::Failed;
        }
        let left = self.left();
        if left.is_empty() {
            return Take::End;
        }
        let count = self.most.min(buf.len()).min(left.len());
        buf[..count].copy_from_slice(&left[..count]);
        self.start += count;
        Take::Took(count)
    }
}
