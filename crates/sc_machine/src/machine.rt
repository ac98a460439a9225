//! The machine.
ghost use Rattle.std.specs.Prelude.{◌≡◌, ℕ, ◌+◌, ◌<◌, List, [], ◌∷◌, IfOk, IsTrue, length, replicate, slice_index, if◌then◌else◌};
ghost use Rattle.test_lang.specs.declared.target.Target.TheVariants.{Sc};
ghost use Rattle.test_lang.specs.declared.step.Step.{Step};
ghost use Rattle.test_lang.specs.declared.step.Step.TheVariants.{Execute};
ghost use Rattle.test_lang.specs.Targets.{fits};
ghost use Rattle.test_lang.specs.Play.Faults.{is_stale};
ghost use Rattle.sim_core.specs.Setup.{is_enabled_after};
ghost use Rattle.sc_machine.specs.Standing.{Standing, Stands, setup_of, executing_at};

use crate::threads::{Thread, list_again, list_open, opening_threads, rewind};
use sim_core::Machine;
use std::alloc::{AllocError, Global};
use std::marker::Model;
use test_lang::op::Op;
use test_lang::step::Step;
use test_lang::target::Fault;
use test_lang::test::Test;

/// A machine on which each operation takes effect when it is executed, in the order of its thread.
///
/// To count and to choose takes constant time, and so does a step, but for the last of a thread, which looks at all threads.
/// All memory is taken by `new`.
#[derive(Debug, Drop)]
pub struct ScMachine {
    test: Test,
    fault: Fault,
    threads: Vec<Thread>,
    /// By word: its value now.
    now: Vec<u32>,
    /// By word: its value before.
    before: Vec<u32>,
    /// By rank: the value that the load gave, or 0.
    loads: Vec<u32>,
    /// How many operations are left.
    left: u32,
    /// The threads that have an operation left, rising. Behind them stands what was left there.
    open_threads: Vec<u32>,
    /// How many have one.
    open_count: u32,
}

impl Model for ScMachine {
    ghost use Rattle.sc_machine.specs.Standing.{Standing};
    ghost use Rattle.sc_machine.specs.Machine.{IsCounted, standing_of};

    ghost Value = { Standing };

    ghost view = { λ m. standing_of m.test m.fault m.threads.items m.now.items m.before.items m.loads.items m.left };

    ghost invariant = { λ m. IsCounted
        (standing_of m.test m.fault m.threads.items m.now.items m.before.items m.loads.items m.left)
        m.threads.items m.open_threads.items m.open_count };
}

fn clear(values: &mut [u32])
    ensures { values.new ≡ replicate (length values.old) 0 }
{
    values.fill(0);
}

/// What a load gives of the values now and before of its word.
fn value_of_load(fault: Fault, load: u32, now: u32, before: u32) -> u32
    ensures { result ≡ (if is_stale fault load then before else now) }
{
    match fault {
        Fault::Stale { node } if node == load => before,
        _ => now,
    }
}

impl ScMachine {
    /// The machine in its opening state. An error is want of memory.
    pub fn new(alloc: Global, test: &Test, fault: Fault) -> Result<ScMachine, AllocError>
        requires { IsTrue (fits Sc fault) }
        ensures setup { IfOk result (λ machine.
            setup_of machine ≡ record { target = Sc; fault = fault; test = test.now }) }
        ensures stands { IfOk result (λ machine. Stands machine []) }
    {
        let words = test.words() as usize;
        let threads = opening_threads(alloc, test)?;
        let mut open_threads = vec![in alloc; 0u32; threads.len()]?;
        let open_count = list_open(&threads, &mut open_threads);
        Ok(ScMachine {
            test: test.clone()?,
            fault,
            threads,
            now: vec![in alloc; 0u32; words]?,
            before: vec![in alloc; 0u32; words]?,
            loads: vec![in alloc; 0u32; test.loads() as usize]?,
            left: test.ops(),
            open_threads,
            open_count,
        })
    }

    /// Executes the next operation of a thread.
    fn execute(&mut self, thread: u32)
        requires { (steps : List Step) → Stands self.old steps →
            IsTrue (is_enabled_after (setup_of self.old) steps (Execute thread)) }
        ensures { self.new ≡ executing_at self.old thread (slice_index self.old.positions thread) }
    {
        let standing = self.threads[thread as usize];
        let node = standing.next;
        let moved = Thread {
            next: node + 1,
            ..standing
        };
        self.threads[thread as usize] = moved;
        self.open_count = list_again(
            !moved.is_open(),
            &self.threads,
            &mut self.open_threads,
            self.open_count,
        );
        self.left -= 1;
        match self.test.op(node) {
            Op::Load { word } => {
                let now = self.now[word as usize];
                let before = self.before[word as usize];
                let rank = self.test.rank_of(node);
                self.loads[rank as usize] = value_of_load(self.fault, node, now, before);
            }
            Op::Store { word } => {
                let value = self.test.value_of(node);
                self.before[word as usize] = self.now[word as usize];
                self.now[word as usize] = value;
            }
            Op::Fence => {}
        }
    }
}

impl Machine for ScMachine {
    ghost setup = { setup_of };

    ghost stands = { Stands };

    fn count(&self) -> u32 {
        self.open_count
    }

    fn choice(&self, k: u32) -> Step {
        Step::Execute {
            thread: self.open_threads[k as usize],
        }
    }

    fn enabled(&self, step: Step) -> bool {
        match step {
            Step::Execute { thread } => match self.threads.get(thread as usize) {
                Some(thread) => thread.is_open(),
                None => false,
            },
            Step::Drain { .. } | Step::Perform { .. } => false,
        }
    }

    fn step(&mut self, step: Step) {
        // No other step is ever enabled.
        let Step::Execute { thread } = step else {
            return;
        };
        self.execute(thread);
    }

    fn done(&self) -> bool {
        self.left == 0
    }

    fn reset(&mut self) {
        rewind(&self.test, &mut self.threads);
        clear(&mut self.now);
        clear(&mut self.before);
        clear(&mut self.loads);
        self.left = self.test.ops();
        self.open_count = list_open(&self.threads, &mut self.open_threads);
    }

    fn loads(&self) -> &[u32] {
        &self.loads
    }

    ghost is_play = { λ machine steps stands. stands.is_play };

    ghost limits = { λ machine steps stands. stands.limits };
}
