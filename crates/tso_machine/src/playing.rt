//! A test that is played with buffers.
ghost use Rattle.std.specs.Prelude.{◌≡◌, ◌≤◌, [], IfOk, length, map};
ghost use Rattle.orders.specs.Orders.{nodes_below};
ghost use Rattle.test_lang.specs.Program.{first_node};
ghost use Rattle.tso_machine.specs.Moments.{StandsBehind, target_of};

use crate::buffers::Buffers;
use std::alloc::{AllocError, Global};
use std::marker::Model;
use test_lang::target::Fault;
use test_lang::test::Test;

mod asked;
mod moved;

/// In which order stores and store fences leave a buffer.
#[derive(Clone, Copy, PartialEq, Eq, Debug, Drop)]
pub enum StoreOrder {
    /// Total store order: that of the thread.
    Total,
    /// Partial store order: any that keeps the order of stores to one word, and that of each pair with a store fence.
    Partial,
}

/// A test that is played. Contracts see what is played and where it stands.
#[derive(Debug, Drop)]
pub struct Playing {
    order: StoreOrder,
    fault: Fault,
    test: Test,
    /// By thread: the node of its next operation, or the one behind its last.
    positions: Vec<u32>,
    buffers: Buffers,
    /// By word: its value now.
    values: Vec<u32>,
    /// By word: its value before.
    values_before: Vec<u32>,
    /// By rank: the value that the load gave, or 0.
    loads: Vec<u32>,
}

impl Model for Playing {
    ghost use Rattle.tso_machine.specs.Moments.{Moment, moment_of};
    ghost use Rattle.tso_machine.specs.Moves.{IsPlaying};

    ghost Value = { Moment };

    ghost view = { λ s. moment_of s.order s.fault s.test s.positions.items s.buffers s.values.items s.values_before.items s.loads.items };

    ghost invariant = { λ s. IsPlaying
        (moment_of s.order s.fault s.test s.positions.items s.buffers s.values.items s.values_before.items s.loads.items) s.buffers };
}

/// The first node of each thread.
fn first_nodes(alloc: Global, test: &Test) -> Result<Vec<u32>, AllocError>
    ensures { IfOk result (λ nodes.
        nodes.items ≡ map (first_node test.now) (nodes_below (length test.now.threads))) }
{
    let mut nodes = Vec::new(alloc);
    for thread in 0..test.threads() {
        nodes.push(test.first_of(thread))?;
    }
    Ok(nodes)
}

/// Puts the first node of each thread into a list.
fn put_first_nodes(test: &Test, nodes: &mut [u32])
    requires { length nodes.old ≡ length test.now.threads }
    ensures { nodes.new ≡ map (first_node test.now) (nodes_below (length test.now.threads)) }
{
    for thread in 0..test.threads() {
        nodes[thread as usize] = test.first_of(thread);
    }
}

impl Playing {
    /// The opening of a test. An error is want of memory.
    pub fn new(
        alloc: Global,
        test: &Test,
        order: StoreOrder,
        fault: Fault,
    ) -> Result<Playing, AllocError>
        ensures setup { IfOk result (λ playing.
            playing.setup ≡ record { target = target_of order; fault = fault; test = test.now }) }
        ensures stands { IfOk result (λ playing. StandsBehind playing []) }
    {
        let words = test.words() as usize;
        Ok(Playing {
            order,
            fault,
            test: test.clone()?,
            positions: first_nodes(alloc, test)?,
            buffers: Buffers::new(alloc, test)?,
            values: vec![in alloc; 0u32; words]?,
            values_before: vec![in alloc; 0u32; words]?,
            loads: vec![in alloc; 0u32; test.loads() as usize]?,
        })
    }

    /// Goes back to the opening.
    pub fn reset(&mut self)
        ensures setup { self.new.setup ≡ self.old.setup }
        ensures stands { StandsBehind self.new [] }
    {
        put_first_nodes(&self.test, &mut self.positions);
        self.buffers.clear();
        self.values.fill(0);
        self.values_before.fill(0);
        self.loads.fill(0);
    }

    /// The number of threads.
    pub fn threads(&self) -> u32
        ensures count { result ≡ length self.now.setup.test.threads }
        ensures few { result ≤ 16 }
    {
        self.test.threads()
    }

    /// The values of the loads.
    pub fn loads(&self) -> &[u32]
        ensures { result.now ≡ self.now.loads }
    {
        &self.loads
    }

    /// The values of the words now.
    #[cfg(test)]
    pub fn values(&self) -> &[u32] {
        &self.values
    }
}
