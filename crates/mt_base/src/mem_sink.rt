//! A sink in memory.
ghost use Rattle.std.specs.Prelude.{◌≡◌, ◌<◌, ◌≤◌, ℕ, List, [], length, Some, IfOk};
ghost use Rattle.mt_base.specs.Calls.{no_calls};
ghost use Rattle.mt_base.specs.Faults.{Rose};
ghost use Rattle.mt_base.specs.MemSink.{put_answer, after_put};
ghost use Rattle.mt_base.specs.Sink.{IsWithinPiece, PutsNext};

use crate::calls::Calls;
use crate::sink::{Put, Sink};
use std::alloc::{AllocError, Global};
use std::marker::Model;

/// A sink that keeps its bytes in memory, as many as it has room for, and fails at the calls that are named.
#[derive(Drop)]
pub struct MemSink {
    held: Vec<u8>,
    room: usize,
    most: usize,
    calls: Calls,
}

impl Model for MemSink {
    ghost use Rattle.std.specs.Prelude.{◌≤◌, ◌+◌, vec_len, vec_capacity};
    ghost use Rattle.mt_base.specs.MemSink.{MemSinkState};

    ghost Value = { MemSinkState };

    ghost view = { λ sink.
        record { held = sink.held.items; room = sink.room; most = sink.most; calls = sink.calls } };

    ghost invariant = { λ sink.
        (vec_len sink.held + sink.room ≤ vec_capacity sink.held) × (1 ≤ sink.most) };
}

impl MemSink {
    /// A sink with room for so many bytes. A put takes at most `most` of them. `fails` has the numbers, from 0, of
    /// the puts that fail; one that finds the room used up fails too.
    pub fn with_room(
        alloc: Global,
        room: usize,
        most: usize,
        fails: Vec<u32>,
    ) -> Result<MemSink, AllocError>
        requires { 1 ≤ most }
        ensures { IfOk result (λ sink. sink
            ≡ record { held = []; room = room; most = most; calls = no_calls fails.items }) }
    {
        Ok(MemSink {
            held: Vec::with_capacity(alloc, room)?,
            room,
            most,
            calls: Calls::new(fails),
        })
    }

    /// The bytes that were appended.
    pub fn held_bytes(&self) -> &[u8]
        ensures { result.now ≡ self.now.held }
    {
        self.held.as_slice()
    }
}

impl Sink for MemSink {
    ghost held = { λ sink. Some sink.held };

    ghost faults = { λ sink. sink.calls.faults };

    fn put(&mut self, piece: &[u8]) -> Put
        requires { 0 < length piece.now }
        ensures within { IsWithinPiece result (length piece.now) }
        ensures next { PutsNext (Some self.old.held) (Some self.new.held) piece.now result }
        ensures later { self.old.calls.faults ≤ self.new.calls.faults }
        ensures failed { result ≡ Put.Failed → Rose self.old.calls.faults self.new.calls.faults }

        // It is known exactly.
        ensures answer { result ≡ put_answer self.old piece.now }
        ensures after { self.new ≡ after_put self.old piece.now }
    {
        if self.calls.count(self.room == 0) {
            return Put::Failed;
        }
        let count = self.most.min(piece.len()).min(self.room);
        self.held.extend_from_slice(&piece[..count]).unwrap();
        self.room -= count;
        Put::Wrote(count)
    }
}
