//! What a test answers of a node, a thread, a value or a rank. Each answer is one read of a table.
ghost use Rattle.std.specs.Prelude.{◌≡◌, ◌+◌, ◌<◌, ◌≤◌, ◌↔◌, length, IsTrue, Some, slice_get};
ghost use Rattle.test_lang.specs.Actions.{op_of, allows_kind};
ghost use Rattle.test_lang.specs.Program.{op_count, action_at, op_at, thread_at, first_node, thread_length, HasWord};
ghost use Rattle.test_lang.specs.Tables.{Describes};
ghost use Rattle.test_lang.specs.Values.{is_load_at, is_store_at, is_fence_at, load_count, store_count, load_nodes, rank_of, value_of};

use crate::op::{Action, FenceKind, Op};
use crate::test::{Row, Test};

impl Test {
    fn row(&self, node: u32) -> Row
        requires { node < op_count self.now }
        ensures row { Describes self.now node result }
        ensures word { HasWord self.now (op_of result.action) }
    {
        self.rows[node as usize]
    }

    /// Whether the word of an operation, if it has one, is a word of the test.
    pub fn has_word(&self, op: Op) -> bool
        ensures { IsTrue result ↔ HasWord self.now op }
    {
        match op {
            Op::Load { word } | Op::Store { word } => word < self.words,
            Op::Fence => true,
        }
    }

    /// Whether the test may have fences of a kind.
    pub fn allows_kind(&self, kind: FenceKind) -> bool
        ensures { result ≡ allows_kind self.now.version kind }
    {
        match kind {
            FenceKind::Full => true,
            FenceKind::Store | FenceKind::Load => self.version == 2,
        }
    }

    /// The action of a node.
    pub fn action(&self, node: u32) -> Action
        requires { node < op_count self.now }
        ensures found { action_at self.now node ≡ Some result }
        ensures word { HasWord self.now (op_of result) }
    {
        self.row(node).action
    }

    /// The kind of a fence.
    pub fn fence_kind(&self, node: u32) -> FenceKind
        requires { IsTrue (is_fence_at self.now node) }
        ensures { action_at self.now node ≡ Some (Action.Fence result) }
    {
        match self.row(node).action {
            Action::Fence { kind } => kind,
            _ => unreachable!(),
        }
    }

    /// The operation of a node.
    pub fn op(&self, node: u32) -> Op
        requires { node < op_count self.now }
        ensures found { op_at self.now node ≡ Some result }
        ensures word { HasWord self.now result }
    {
        self.row(node).action.op()
    }

    /// The thread of a node.
    pub fn thread_of(&self, node: u32) -> u32
        requires { node < op_count self.now }
        ensures found { thread_at self.now node ≡ Some result }
        ensures in_range { result < length self.now.threads }
    {
        self.row(node).thread
    }

    /// The node that the thread's first operation has or would have.
    pub fn first_of(&self, thread: u32) -> u32
        requires { thread < length self.now.threads }
        ensures first { result ≡ first_node self.now thread }
        ensures within { result ≤ op_count self.now }
    {
        self.first_nodes[thread as usize]
    }

    /// The number of operations of a thread.
    pub fn len_of(&self, thread: u32) -> u32
        requires { thread < length self.now.threads }
        ensures count { result ≡ thread_length self.now thread }
        ensures within { first_node self.now thread + result ≤ op_count self.now }
    {
        let threads = self.threads();
        let end = if thread + 1 < threads {
            self.first_of(thread + 1)
        } else {
            self.ops()
        };
        end - self.first_of(thread)
    }

    /// The value of a store.
    pub fn value_of(&self, store_node: u32) -> u32
        requires { IsTrue (is_store_at self.now store_node) }
        ensures value { result ≡ value_of self.now store_node }
        ensures some { 1 ≤ result }
        ensures few { result ≤ store_count self.now }
    {
        self.row(store_node).value
    }

    /// The node of the store of a value.
    pub fn store_of(&self, value: u32) -> u32
        requires some { 1 ≤ value }
        requires few { value ≤ store_count self.now }
        ensures is_store { IsTrue (is_store_at self.now result) }
        ensures value { value_of self.now result ≡ value }
        ensures in_range { result < op_count self.now }
    {
        self.store_nodes[value as usize - 1]
    }

    /// The rank of a load.
    pub fn rank_of(&self, load_node: u32) -> u32
        requires { IsTrue (is_load_at self.now load_node) }
        ensures rank { result ≡ rank_of self.now load_node }
        ensures in_range { result < load_count self.now }
    {
        self.row(load_node).rank
    }

    /// The node of the load of a rank.
    pub fn load_at(&self, rank: u32) -> u32
        requires { rank < load_count self.now }
        ensures is_load { IsTrue (is_load_at self.now result) }
        ensures rank { rank_of self.now result ≡ rank }
        ensures listed { slice_get (load_nodes self.now) rank ≡ Some result }
        ensures in_range { result < op_count self.now }
    {
        self.load_nodes[rank as usize]
    }
}
