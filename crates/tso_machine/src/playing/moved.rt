//! What a step does.
ghost use Rattle.std.specs.Prelude.{◌≡◌, ◌<◌, IsFalse, IsTrue, Some, length};
ghost use Rattle.test_lang.specs.declared.step.Step.TheVariants.{Execute, Drain};
ghost use Rattle.test_lang.specs.declared.op.Action.TheVariants.{Load};
ghost use Rattle.test_lang.specs.Program.{action_at};
ghost use Rattle.test_lang.specs.Values.{is_fence_at};
ghost use Rattle.test_lang.specs.Play.Machines.{waits_at};
ghost use Rattle.tso_machine.specs.Moves.{IsEnabled, IsNext, Takes, thread_of};

use crate::faults::frees_fences;
use crate::playing::Playing;
use test_lang::op::{Action, FenceKind};
use test_lang::step::Step;

impl Playing {
    /// Executes a load of a word.
    fn execute_load(&mut self, thread: u32, node: u32, word: u32)
        requires thread { thread < length self.old.setup.test.threads }
        requires next { IsNext self.old thread node }
        requires enabled { IsEnabled self.old (Execute thread) }
        requires word { word < self.old.setup.test.words }
        requires load { action_at self.old.setup.test node ≡ Some (Load word) }
        ensures { Takes self.old self.new (Execute thread) }
    {
        let value = self.value(thread, node, word);
        let rank = self.test.rank_of(node);
        self.loads[rank as usize] = value;
        self.positions[thread as usize] = node + 1;
    }

    /// Executes an operation that waits in the thread's buffer.
    fn execute_entry(&mut self, thread: u32, node: u32)
        requires thread { thread < length self.old.setup.test.threads }
        requires next { IsNext self.old thread node }
        requires enabled { IsEnabled self.old (Execute thread) }
        requires entry { IsTrue (waits_at self.old.setup.target self.old.setup.fault self.old.setup.test node) }
        ensures { Takes self.old self.new (Execute thread) }
    {
        self.buffers.push(thread, node);
        self.positions[thread as usize] = node + 1;
    }

    /// Executes a fence that doesn't wait in a buffer.
    fn execute_fence(&mut self, thread: u32, node: u32)
        requires thread { thread < length self.old.setup.test.threads }
        requires next { IsNext self.old thread node }
        requires enabled { IsEnabled self.old (Execute thread) }
        requires fence { IsTrue (is_fence_at self.old.setup.test node) }
        requires no_entry { IsFalse (waits_at self.old.setup.target self.old.setup.fault self.old.setup.test node) }
        ensures { Takes self.old self.new (Execute thread) }
    {
        let position = &mut self.positions[thread as usize];
        *position = node + 1;
    }

    /// Executes a thread's next operation.
    fn execute(&mut self, thread: u32)
        requires thread { thread < length self.old.setup.test.threads }
        requires enabled { IsEnabled self.old (Execute thread) }
        ensures { Takes self.old self.new (Execute thread) }
    {
        let node = self.positions[thread as usize];
        match self.test.action(node) {
            Action::Load { word } => self.execute_load(thread, node, word),
            Action::Store { .. } => self.execute_entry(thread, node),
            Action::Fence { kind } => {
                if kind == FenceKind::Store && !frees_fences(self.fault) {
                    self.execute_entry(thread, node);
                } else {
                    self.execute_fence(thread, node);
                }
            }
        }
    }

    /// Drains the entry at a place of a thread's buffer.
    fn drain(&mut self, thread: u32, place: u32)
        requires thread { thread < length self.old.setup.test.threads }
        requires enabled { IsEnabled self.old (Drain thread place) }
        ensures { Takes self.old self.new (Drain thread place) }
    {
        let node = self.entries(thread)[place as usize];
        self.buffers.remove(thread, place);
        if let Action::Store { word } = self.test.action(node) {
            let word = word as usize;
            self.values_before[word] = self.values[word];
            self.values[word] = self.test.value_of(node);
        }
    }

    /// Takes an enabled step, and answers whose it is.
    #[inline(always)]
    pub fn take(&mut self, step: Step) -> u32
        requires { IsEnabled self.old step }
        ensures takes { Takes self.old self.new step }
        ensures thread { result ≡ thread_of step }
        ensures in_range { result < length self.old.setup.test.threads }
    {
        // From here on it is known where the fields stand in a play.
        let _ = &self.order;
        match step {
            Step::Execute { thread } => {
                self.execute(thread);
                thread
            }
            Step::Drain { thread, place } => {
                self.drain(thread, place);
                thread
            }
            Step::Perform { .. } => unreachable!(),
        }
    }
}
