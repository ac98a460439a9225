//! The buffers of all threads.
ghost use Rattle.std.specs.Prelude.{◌≡◌, ◌<◌, ◌≤◌, IfOk, length, map, slice_index};
ghost use Rattle.orders.specs.Orders.{nodes_below};
ghost use Rattle.tso_machine.specs.Queues.{AreRanges, cleared, empty_queues, empty_range, entries_at, with_entry, without_entry};
ghost use Rattle.test_lang.specs.Program.{op_count};

use std::alloc::{AllocError, Global};
use std::marker::Model;
use test_lang::test::Test;

/// A thread's part of the list of nodes, and where its entries stand in it.
#[derive(Clone, Copy, Debug, Drop)]
struct Range {
    /// Where the part begins. After a clear the first entry is put here.
    first: u32,
    /// The place of the oldest entry.
    begin: u32,
    /// The place behind the newest entry, where the next one is put.
    end: u32,
    /// The place behind the part. That of the next thread begins no earlier.
    limit: u32,
}

/// The buffers of all threads in one list. A thread's entries move only towards its limit, and there is room for as many as it has operations.
#[derive(Debug, Drop)]
pub struct Buffers {
    nodes: Vec<u32>,
    ranges: Vec<Range>,
}

impl Model for Buffers {
    ghost use Rattle.std.specs.Prelude.{length};
    ghost use Rattle.tso_machine.specs.Queues.{AreRanges, Queues, queues_of};

    ghost Value = { Queues };

    ghost view = { λ b. queues_of b.nodes.items b.ranges.items };

    ghost invariant = { λ b. AreRanges (length b.nodes.items) b.ranges.items };
}

/// A range in front of which nothing was pushed, for each thread of the test.
fn empty_ranges(alloc: Global, test: &Test) -> Result<Vec<Range>, AllocError>
    requires { op_count test.now ≤ 2048 }
    ensures { IfOk result (λ ranges.
        ranges.items ≡ map (empty_range test.now) (nodes_below (length test.now.threads))) }
{
    let mut ranges = Vec::new(alloc);
    for thread in 0..test.threads() {
        let first = test.first_of(thread);
        ranges.push(Range {
            first,
            begin: first,
            end: first,
            limit: first + test.len_of(thread),
        })?;
    }
    Ok(ranges)
}

impl Buffers {
    /// Empty buffers, with room for an entry for each operation of the test. An error is want of memory.
    pub fn new(alloc: Global, test: &Test) -> Result<Buffers, AllocError>
        ensures { IfOk result (λ buffers. buffers ≡ empty_queues test.now) }
    {
        Ok(Buffers {
            nodes: vec![in alloc; 0u32; test.ops() as usize]?,
            ranges: empty_ranges(alloc, test)?,
        })
    }

    /// The entries of a thread, the oldest first.
    pub fn of(&self, thread: u32) -> &[u32]
        requires { thread < length self.now.entries }
        ensures entries { result.now ≡ entries_at self.now thread }
        ensures few { length result.now ≤ slice_index self.now.rooms thread }
    {
        let range = self.ranges[thread as usize];
        &self.nodes[range.begin as usize..range.end as usize]
    }

    /// Puts a node at the end of a thread's buffer.
    pub fn push(&mut self, thread: u32, node: u32)
        requires thread { thread < length self.old.entries }
        requires room { slice_index self.old.pushed thread < slice_index self.old.rooms thread }
        ensures { self.new ≡ with_entry self.old thread node }
    {
        let range = self.ranges[thread as usize];
        self.nodes[range.end as usize] = node;
        self.ranges[thread as usize] = Range {
            end: range.end + 1,
            ..range
        };
    }

    /// Takes the entry at a place out of a thread's buffer. Those before it move up.
    pub fn remove(&mut self, thread: u32, place: u32)
        requires thread { thread < length self.old.entries }
        requires place { place < length (entries_at self.old thread) }
        ensures { self.new ≡ without_entry self.old thread place }
    {
        let range = self.ranges[thread as usize];
        let begin = range.begin as usize;
        self.nodes
            .copy_within(begin..begin + place as usize, begin + 1);
        self.ranges[thread as usize] = Range {
            begin: range.begin + 1,
            ..range
        };
    }

    /// Empties all buffers.
    pub fn clear(&mut self)
        ensures { self.new ≡ cleared self.old }
    {
        for range in self.ranges.iter_mut() {
            *range = Range {
                begin: range.first,
                end: range.first,
                ..*range
            };
        }
    }
}
