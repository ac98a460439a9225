//! The base store of each load.
ghost use Rattle.std.specs.Prelude.{◌≡◌, ◌<◌, ◌&&◌, IfOk};
ghost use Rattle.test_lang.specs.Program.{op_count};
ghost use Rattle.test_lang.specs.Runs.{own_earlier, base_store};
ghost use Rattle.test_lang.specs.Values.{is_store, same_word};
ghost use Rattle.weak_machine.specs.Waiting.{base_stores};

use std::alloc::{AllocError, Global};
use test_lang::op::Op;
use test_lang::test::Test;

/// Whether the second is a store to the word of the first.
fn writes_word(first: Op, second: Op) -> bool
    ensures { result ≡ (is_store second && same_word first second) }
{
    match second {
        Op::Store { word: other } => match first {
            Op::Load { word } | Op::Store { word } => word == other,
            Op::Fence => false,
        },
        _ => false,
    }
}

/// Whether the second node is an earlier store to the first one's word in its own thread.
fn is_own_earlier(test: &Test, node: u32, earlier: u32) -> bool
    requires node { node < op_count test.now }
    requires earlier { earlier < op_count test.now }
    ensures { result ≡ own_earlier test.now node earlier }
{
    if node <= earlier || test.thread_of(node) != test.thread_of(earlier) {
        return false;
    }
    writes_word(test.op(node), test.op(earlier))
}

/// The last store to the node's word before it in its own thread.
fn base_store(test: &Test, node: u32) -> Option<u32>
    requires { node < op_count test.now }
    ensures { result ≡ base_store test.now node }
{
    let mut last = None;
    for earlier in 0..test.ops() {
        if is_own_earlier(test, node, earlier) {
            last = Some(earlier);
        }
    }
    last
}

/// That store of each node.
pub fn base_stores(alloc: Global, test: &Test) -> Result<Vec<Option<u32>>, AllocError>
    ensures { IfOk result (λ bases. bases.items ≡ base_stores test.now) }
{
    let mut bases = Vec::with_capacity(alloc, test.ops() as usize)?;
    for node in 0..test.ops() {
        bases.push(base_store(test, node))?;
    }
    Ok(bases)
}
