//! What a play is asked: which steps are enabled, and what a load would give.
ghost use Rattle.std.specs.Prelude.{◌≡◌, ◌<◌, ◌≤◌, [], List, All, IfSome, Some, length, slice_get, slice_index_or};
ghost use Rattle.sim_core.specs.Setup.{is_enabled_after, state_after};
ghost use Rattle.test_lang.specs.declared.step.Step.{Step};
ghost use Rattle.test_lang.specs.declared.step.Step.TheVariants.{Execute, Drain};
ghost use Rattle.test_lang.specs.declared.op.Action.TheVariants.{Load};
ghost use Rattle.test_lang.specs.Program.{action_at, op_count};
ghost use Rattle.test_lang.specs.Play.States.{next_of};
ghost use Rattle.test_lang.specs.Play.Machines.{is_unfenced, memory, value};
ghost use Rattle.tso_machine.specs.Moments.{StandsBehind};
ghost use Rattle.tso_machine.specs.Moves.{IsNext, drain_places, thread_choices};

use crate::faults::{drains_any, forwards_nothing, frees_fences, is_stale};
use crate::newest::newest_store;
use crate::places::{count_free, is_free, nth_free};
use crate::playing::{Playing, StoreOrder};
use test_lang::op::{Action, FenceKind};
use test_lang::step::Step;

impl Playing {
    /// The node of a thread's next operation, if it has one left.
    fn next(&self, thread: u32) -> Option<u32>
        requires { thread < length self.now.setup.test.threads }
        ensures next { (steps : List Step) → StandsBehind self.now steps →
            result ≡ next_of self.now.setup.test (state_after self.now.setup steps) thread }
        ensures within { IfSome result (λ node. node < op_count self.now.setup.test) }
    {
        let position = self.positions[thread as usize];
        let end = self.test.first_of(thread) + self.test.len_of(thread);
        if position < end { Some(position) } else { None }
    }

    /// The entries of a thread's buffer, the oldest first.
    pub(super) fn entries(&self, thread: u32) -> &[u32]
        requires { thread < length self.now.setup.test.threads }
        ensures entries { result.now ≡ slice_index_or self.now.buffers thread [] }
        ensures nodes { All (λ node. node < op_count self.now.setup.test) result.now }
        ensures few { length result.now ≤ 2048 }
    {
        self.buffers.of(thread)
    }

    /// Whether the node waits for no buffer.
    fn is_unfenced(&self, thread: u32, node: u32) -> bool
        requires thread { thread < length self.now.setup.test.threads }
        requires node { node < op_count self.now.setup.test }
        ensures { (steps : List Step) → StandsBehind self.now steps →
            result ≡ is_unfenced self.now.setup.fault self.now.setup.test (state_after self.now.setup steps) thread node }
    {
        match self.test.action(node) {
            Action::Fence {
                kind: FenceKind::Full,
            } => frees_fences(self.fault) || self.entries(thread).is_empty(),
            _ => true,
        }
    }

    /// Whether a thread may execute its next operation.
    fn may_execute(&self, thread: u32) -> bool
        requires { thread < length self.now.setup.test.threads }
        ensures { (steps : List Step) → StandsBehind self.now steps →
            result ≡ is_enabled_after self.now.setup steps (Execute thread) }
    {
        match self.next(thread) {
            Some(node) => self.is_unfenced(thread, node),
            None => false,
        }
    }

    /// Whether the entry at a place may leave a thread's buffer.
    fn may_drain(&self, thread: u32, place: u32) -> bool
        requires { thread < length self.now.setup.test.threads }
        ensures { (steps : List Step) → StandsBehind self.now steps →
            result ≡ is_enabled_after self.now.setup steps (Drain thread place) }
    {
        let entries = self.entries(thread);
        if entries.len() <= place as usize {
            return false;
        }
        match self.order {
            StoreOrder::Total => place == 0 || drains_any(self.fault),
            StoreOrder::Partial => { drains_any(self.fault) || is_free(&self.test, entries, place) }
        }
    }

    /// Whether a step is enabled.
    pub fn enabled(&self, step: Step) -> bool
        ensures { (steps : List Step) → StandsBehind self.now steps →
            result ≡ is_enabled_after self.now.setup steps step }
    {
        match step {
            Step::Execute { thread } => thread < self.threads() && self.may_execute(thread),
            Step::Drain { thread, place } => {
                thread < self.threads() && self.may_drain(thread, place)
            }
            Step::Perform { .. } => false,
        }
    }

    /// From how many places of a thread's buffer an entry may leave.
    fn count_drains(&self, thread: u32) -> u32
        requires { thread < length self.now.setup.test.threads }
        ensures count { (steps : List Step) → StandsBehind self.now steps →
            result ≡ length (drain_places self.now.setup steps thread) }
        ensures few { result ≤ 2048 }
    {
        let entries = self.entries(thread);
        if drains_any(self.fault) {
            return entries.len() as u32;
        }
        match self.order {
            StoreOrder::Total => u32::from(!entries.is_empty()),
            StoreOrder::Partial => count_free(&self.test, entries),
        }
    }

    /// The place with a number among them, counted from 0.
    fn nth_drain(&self, thread: u32, k: u32) -> u32
        requires thread { thread < length self.now.setup.test.threads }
        requires k { (steps : List Step) → StandsBehind self.now steps →
            k < length (drain_places self.now.setup steps thread) }
        ensures { (steps : List Step) → StandsBehind self.now steps →
            slice_get (drain_places self.now.setup steps thread) k ≡ Some result }
    {
        if drains_any(self.fault) {
            return k;
        }
        match self.order {
            StoreOrder::Total => 0,
            StoreOrder::Partial => nth_free(&self.test, self.entries(thread), k),
        }
    }

    /// How many choices a thread has.
    #[inline(always)]
    pub fn count_choices(&self, thread: u32) -> u32
        requires { thread < length self.now.setup.test.threads }
        ensures count { (steps : List Step) → StandsBehind self.now steps →
            result ≡ length (thread_choices self.now.setup steps thread) }
        ensures few { result ≤ 2049 }
    {
        u32::from(self.may_execute(thread)) + self.count_drains(thread)
    }

    /// The choice of a thread with a number, counted from 0.
    pub fn nth_choice(&self, thread: u32, k: u32) -> Step
        requires thread { thread < length self.now.setup.test.threads }
        requires k { (steps : List Step) → StandsBehind self.now steps →
            k < length (thread_choices self.now.setup steps thread) }
        ensures { (steps : List Step) → StandsBehind self.now steps →
            slice_get (thread_choices self.now.setup steps thread) k ≡ Some result }
    {
        let executes = u32::from(self.may_execute(thread));
        if k < executes {
            return Step::Execute { thread };
        }
        let place = self.nth_drain(thread, k - executes);
        Step::Drain { thread, place }
    }

    /// What a load of a word finds in memory.
    fn memory(&self, node: u32, word: u32) -> u32
        requires word { word < self.now.setup.test.words }
        requires load { action_at self.now.setup.test node ≡ Some (Load word) }
        ensures { (steps : List Step) → StandsBehind self.now steps →
            result ≡ memory self.now.setup.fault self.now.setup.test (state_after self.now.setup steps) node }
    {
        if is_stale(self.fault, node) {
            self.values_before[word as usize]
        } else {
            self.values[word as usize]
        }
    }

    /// The value that a load of a word gives, a thread's next operation.
    pub fn value(&self, thread: u32, node: u32, word: u32) -> u32
        requires thread { thread < length self.now.setup.test.threads }
        requires next { IsNext self.now thread node }
        requires word { word < self.now.setup.test.words }
        requires load { action_at self.now.setup.test node ≡ Some (Load word) }
        ensures { (steps : List Step) → StandsBehind self.now steps →
            result ≡ value self.now.setup.target self.now.setup.fault self.now.setup.test
            (state_after self.now.setup steps) node }
    {
        if forwards_nothing(self.fault) {
            return self.memory(node, word);
        }
        match newest_store(&self.test, self.entries(thread), word) {
            Some(store) => self.test.value_of(store),
            None => self.memory(node, word),
        }
    }
}
