//! The newest store of a buffer to a word.
ghost use Rattle.std.specs.Prelude.{◌≡◌, ◌<◌, All, None, filter};
ghost use Rattle.std.specs.List.{last_or};
ghost use Rattle.test_lang.specs.Program.{op_count};
ghost use Rattle.test_lang.specs.Play.States.{stores_to};

use test_lang::op::Action;
use test_lang::test::Test;

/// Whether the node is a store to the word.
fn stores_to(test: &Test, word: u32, node: u32) -> bool
    requires { node < op_count test.now }
    ensures { result ≡ stores_to test.now word node }
{
    match test.action(node) {
        Action::Store { word: stored } => word == stored,
        _ => false,
    }
}

/// The last of the nodes that is a store to the word. It looks at those behind it alone.
pub fn newest_store(test: &Test, entries: &[u32], word: u32) -> Option<u32>
    requires { All (λ node. node < op_count test.now) entries.now }
    ensures { result ≡ last_or None (filter (stores_to test.now word) entries.now) }
{
    let mut place = entries.len();
    while place > 0 {
        place -= 1;
        let node = entries[place];
        if stores_to(test, word, node) {
            return Some(node);
        }
    }
    None
}
