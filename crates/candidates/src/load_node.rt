//! A load, and which values are its candidates.
ghost use Rattle.std.specs.Prelude.{◌≡◌, ◌<◌, IsTrue, Some};
ghost use Rattle.candidates.specs.ByRank.{load_at};
ghost use Rattle.candidates.specs.Loads.{IsLoadNode, is_other_store};
ghost use Rattle.test_lang.specs.Program.{op_at, op_count};
ghost use Rattle.test_lang.specs.Runs.{base};
ghost use Rattle.test_lang.specs.Values.{is_load_at, load_count};

use test_lang::op::Op;
use test_lang::test::Test;

/// A load of a test.
#[derive(Clone, Copy, Debug, Drop)]
pub(crate) struct LoadNode {
    pub node: u32,
    pub thread: u32,
    pub word: u32,
}

/// The word of a load.
fn word_of(test: &Test, load: u32) -> u32
    requires { IsTrue (is_load_at test.now load) }
    ensures { op_at test.now load ≡ Some (Op.Load result) }
{
    match test.op(load) {
        Op::Load { word } => word,
        _ => unreachable!(),
    }
}

impl LoadNode {
    /// The load of a rank.
    pub fn of(test: &Test, rank: u32) -> LoadNode
        requires { rank < load_count test.now }
        ensures rank { result.node ≡ load_at test.now rank }
        ensures load { IsLoadNode test.now result }
    {
        let node = test.load_at(rank);
        LoadNode {
            node,
            thread: test.thread_of(node),
            word: word_of(test, node),
        }
    }

    /// The value of the last earlier store to the load's word in its own thread, or the initial value 0 where there is none.
    pub fn base(self, test: &Test) -> u32
        requires { IsLoadNode test.now self }
        ensures { result ≡ base test.now self.node }
    {
        for node in (test.first_of(self.thread)..self.node).rev() {
            if test.op(node) == (Op::Store { word: self.word }) {
                return test.value_of(node);
            }
        }
        0
    }

    /// Whether a store is one to the load's word in another thread.
    pub fn is_other(self, test: &Test, store: u32) -> bool
        requires load { IsLoadNode test.now self }
        requires store { store < op_count test.now }
        ensures { result ≡ is_other_store test.now self.node store }
    {
        match test.op(store) {
            Op::Store { word } => word == self.word && test.thread_of(store) != self.thread,
            _ => false,
        }
    }
}
