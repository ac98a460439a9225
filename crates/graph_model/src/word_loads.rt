//! The loads of each word, one behind another.
ghost use Rattle.std.specs.Prelude.{IfOk};

use crate::kinds::Kind;
use crate::nearest::Nearest;
use std::alloc::{AllocError, Global};
use test_lang::test::Test;

/// The loads of each word in all threads, from the last one to the first.
#[derive(Drop)]
pub(crate) struct WordLoads {
    /// The last nodes of each kind, and so the last load of each word.
    pub(crate) last: Nearest,
    /// For each node, the last load before it of its word.
    pub(crate) before: Vec<Option<u32>>,
}

impl WordLoads {
    ghost use Rattle.graph_model.specs.WordLoads.{TellsWordLoads};

    /// The loads of the words of a test.
    pub(crate) fn of(alloc: Global, test: &Test) -> Result<WordLoads, AllocError>
        ensures { IfOk result (TellsWordLoads test.now) }
    {
        let mut before = vec![in alloc; None; test.ops() as usize]?;
        let mut last = Nearest::new(alloc, test.words())?;
        for node in 0..test.ops() {
            let action = test.action(node);
            before[node as usize] = last.of(Kind::LoadOfWord, action);
            last.meet(node, action);
        }
        Ok(WordLoads { last, before })
    }
}
