//! The machine.
ghost use Rattle.std.specs.Prelude.{◌≡◌, ℕ, ◌+◌, ◌<◌, List, [], ◌∷◌, IsTrue, IfOk};
ghost use Rattle.test_lang.specs.declared.target.Target.TheVariants.{Weak};
ghost use Rattle.test_lang.specs.declared.step.Step.{Step};
ghost use Rattle.test_lang.specs.Program.{op_count, first_node, thread_length};
ghost use Rattle.test_lang.specs.Targets.{fits};
ghost use Rattle.test_lang.specs.Runs.{base};
ghost use Rattle.test_lang.specs.Values.{word_at};
ghost use Rattle.test_lang.specs.Play.Machines.{is_ready};
ghost use Rattle.weak_machine.specs.Standing.{Stands, state_of, performing, base_is_left, given_by};
ghost use Rattle.weak_machine.specs.Machine.{setup_of};

use crate::base_stores::base_stores;
use crate::direct_waits::direct_waits;
use crate::faults::{forwards_nothing, is_stale};
use crate::lists::Lists;
use crate::memory::Memory;
use crate::progress::Progress;
use sim_core::Machine;
use std::alloc::{AllocError, Global};
use std::marker::Model;
use test_lang::op::Op;
use test_lang::step::Step;
use test_lang::target::Fault;
use test_lang::test::Test;

/// A machine on which each operation is performed at once, after those of its thread that it waits for.
///
/// A step costs as many turns as operations wait directly for the one that is performed: those that wait for it, and for no other one that does. The number of choices is kept, and
/// a choice is found in words of 64 operations. `new` looks at each pair of operations of a thread.
#[derive(Debug, Drop)]
pub struct WeakMachine {
    test: Test,
    fault: Fault,
    /// By node: the nodes that wait for it directly.
    waiting: Lists,
    /// By node: its base store.
    bases: Vec<Option<u32>>,
    /// The progress in the opening state.
    opening: Progress,
    progress: Progress,
    memory: Memory,
    loads: Vec<u32>,
}

impl Model for WeakMachine {
    ghost use Rattle.weak_machine.specs.Standing.{Standing};
    ghost use Rattle.weak_machine.specs.Machine.{IsMachine};

    ghost Value = { Standing };

    ghost view = { λ m. record {
      test = m.test;
      fault = m.fault;
      performed = m.progress.performed.items;
      values = m.memory.values.items;
      values_before = m.memory.values_before.items;
      loads = m.loads.items;
    } };

    ghost invariant = { λ m. IsMachine
        (record {
          test = m.test;
          fault = m.fault;
          performed = m.progress.performed.items;
          values = m.memory.values.items;
          values_before = m.memory.values_before.items;
          loads = m.loads.items;
        })
        m.waiting m.bases.items
        (record {
          performed = m.progress.performed.items;
          missing = m.progress.missing.items;
          ready = m.progress.ready;
          left = m.progress.left;
        })
        (record {
          performed = m.opening.performed.items;
          missing = m.opening.missing.items;
          ready = m.opening.ready;
          left = m.opening.left;
        }) };
}

impl WeakMachine {
    /// The machine in its opening state. The error is want of memory.
    pub fn new(alloc: Global, test: &Test, fault: Fault) -> Result<WeakMachine, AllocError>
        requires { IsTrue (fits Weak fault) }
        ensures setup { IfOk result (λ m.
            setup_of m ≡ record { target = Weak; fault = fault; test = test.now }) }
        ensures stands { IfOk result (λ m. Stands m []) }
    {
        let words = test.words();
        let waiting = direct_waits(alloc, test, fault)?;
        Ok(WeakMachine {
            test: test.clone()?,
            fault,
            bases: base_stores(alloc, test)?,
            opening: Progress::new(alloc, &waiting)?,
            progress: Progress::new(alloc, &waiting)?,
            memory: Memory::new(alloc, words)?,
            loads: vec![in alloc; 0u32; test.loads() as usize]?,
            waiting,
        })
    }

    /// Whether the node's base is a store that wasn't performed.
    fn base_is_left(&self, node: u32) -> bool
        requires { node < op_count self.now.test }
        ensures { result ≡ base_is_left self.now node }
    {
        match self.bases[node as usize] {
            None => false,
            Some(store) => !self.progress.performed[store as usize],
        }
    }

    /// The value of the node's base.
    fn base(&self, node: u32) -> u32
        requires { node < op_count self.now.test }
        ensures { result ≡ base self.now.test node }
    {
        match self.bases[node as usize] {
            None => 0,
            Some(store) => self.test.value_of(store),
        }
    }

    /// What a load of the word gives.
    fn value_of_load(&self, node: u32, word: u32) -> u32
        requires node { node < op_count self.now.test }
        requires word { word ≡ word_at self.now.test node }
        ensures { result ≡ given_by self.now node }
    {
        if self.base_is_left(node) && !forwards_nothing(self.fault) {
            return self.base(node);
        }
        if is_stale(self.fault, node) {
            self.memory.values_before[word as usize]
        } else {
            self.memory.values[word as usize]
        }
    }

    /// Performs a node that can be.
    fn perform(&mut self, node: u32)
        requires node { node < op_count self.old.test }
        requires ready { (steps : List Step) → Stands self.old steps →
            IsTrue (is_ready self.old.fault self.old.test (state_of self.old steps) node) }
        ensures { self.new ≡ performing self.old node }
    {
        match self.test.op(node) {
            Op::Load { word } => {
                let value = self.value_of_load(node, word);
                let rank = self.test.rank_of(node);
                self.loads[rank as usize] = value;
            }
            Op::Store { word } => self.memory.store(word, self.test.value_of(node)),
            Op::Fence => {}
        }
        self.progress.perform(&self.waiting, node);
    }
}

impl Machine for WeakMachine {
    ghost setup = { setup_of };

    ghost stands = { Stands };

    fn count(&self) -> u32 {
        self.progress.ready.count()
    }

    fn choice(&self, k: u32) -> Step {
        let node = self.progress.ready.nth(k);
        let thread = self.test.thread_of(node);
        Step::Perform {
            thread,
            index: node - self.test.first_of(thread),
        }
    }

    fn enabled(&self, step: Step) -> bool {
        let Step::Perform { thread, index } = step else {
            return false;
        };
        if thread >= self.test.threads() || index >= self.test.len_of(thread) {
            return false;
        }
        self.progress.ready.has(self.test.first_of(thread) + index)
    }

    fn step(&mut self, step: Step) {
        if let Step::Perform { thread, index } = step {
            let node = self.test.first_of(thread) + index;
            self.perform(node);
        }
    }

    fn done(&self) -> bool {
        self.progress.left == 0
    }

    fn reset(&mut self) {
        self.progress.copy_from(&self.opening);
        self.memory.clear();
        self.loads.fill(0);
    }

    fn loads(&self) -> &[u32] {
        &self.loads
    }

    ghost is_play = { λ machine steps stands. stands.is_play };

    ghost limits = { λ machine steps stands. stands.limits };
}
