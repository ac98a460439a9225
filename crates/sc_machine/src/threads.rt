//! Where the threads of a machine stand.
ghost use Rattle.std.specs.Prelude.{◌≡◌, ◌<◌, ◌≤◌, false, IfOk, length, map, take};
ghost use Rattle.orders.specs.Orders.{nodes_below};
ghost use Rattle.sc_machine.specs.Threads.{is_open, open_numbers, opening_thread, thread_end};

use std::alloc::{AllocError, Global};
use test_lang::test::Test;

/// Nodes of a thread.
#[derive(Clone, Copy, Debug, Drop)]
pub struct Thread {
    /// The next operation, or `end`.
    pub next: u32,
    /// The node behind the last operation.
    pub end: u32,
}

impl Thread {
    /// Whether an operation is left.
    pub fn is_open(&self) -> bool
        ensures { result ≡ is_open self.now }
    {
        self.next < self.end
    }
}

/// The node behind a thread's last operation.
fn thread_end(test: &Test, thread: u32) -> u32
    requires { thread < length test.now.threads }
    ensures { result ≡ thread_end test.now thread }
{
    let threads = test.threads();
    let behind = thread + 1;
    if behind < threads {
        test.first_of(behind)
    } else {
        test.ops()
    }
}

/// A thread at its beginning.
fn opening_thread(test: &Test, thread: u32) -> Thread
    requires { thread < length test.now.threads }
    ensures { result ≡ opening_thread test.now thread }
{
    Thread {
        next: test.first_of(thread),
        end: thread_end(test, thread),
    }
}

/// All threads at their beginning.
pub fn opening_threads(alloc: Global, test: &Test) -> Result<Vec<Thread>, AllocError>
    ensures { IfOk result (λ threads. threads.items
        ≡ map (opening_thread test.now) (nodes_below (length test.now.threads))) }
{
    let mut threads = Vec::new(alloc);
    for thread in 0..test.threads() {
        threads.push(opening_thread(test, thread))?;
    }
    Ok(threads)
}

/// Puts all threads back to their beginning.
pub fn rewind(test: &Test, threads: &mut [Thread])
    requires { length threads.old ≡ length test.now.threads }
    ensures { threads.new ≡ map (opening_thread test.now) (nodes_below (length test.now.threads)) }
{
    for thread in 0..test.threads() {
        threads[thread as usize] = opening_thread(test, thread);
    }
}

/// Lists the threads with an operation left at the front, rising, and answers how many there are.
pub fn list_open(threads: &[Thread], listed: &mut [u32]) -> u32
    requires few { length threads.now ≤ 16 }
    requires room { length listed.old ≡ length threads.now }
    ensures count { result ≡ length (open_numbers threads.now) }
    ensures listed { take result listed.new ≡ open_numbers threads.now }
{
    let mut count = 0;
    for (number, thread) in threads.iter().enumerate() {
        if thread.is_open() {
            listed[count as usize] = number as u32;
            count += 1;
        }
    }
    count
}

/// Lists them anew where a thread was closed, which executed its last operation. Otherwise the list stays, with as many as there were.
pub fn list_again(closed: bool, threads: &[Thread], listed: &mut [u32], count: u32) -> u32
    requires few { length threads.now ≤ 16 }
    requires room { length listed.old ≡ length threads.now }
    requires count { closed ≡ false → count ≡ length (open_numbers threads.now) }
    requires listed { closed ≡ false → take count listed.old ≡ open_numbers threads.now }
    ensures count { result ≡ length (open_numbers threads.now) }
    ensures listed { take result listed.new ≡ open_numbers threads.now }
{
    if closed {
        list_open(threads, listed)
    } else {
        count
    }
}
