//! The memory of a machine.
ghost use Rattle.std.specs.Prelude.{◌≡◌, ◌<◌, length, map, IfOk, slice_index, slice_set};
ghost use Rattle.orders.specs.Orders.{nodes_below};

use std::alloc::{AllocError, Global};

/// The values now and before of the words.
#[derive(Debug, Drop)]
pub struct Memory {
    pub values: Vec<u32>,
    pub values_before: Vec<u32>,
}

impl Memory {
    /// So many words of the initial value 0.
    pub fn new(alloc: Global, words: u32) -> Result<Memory, AllocError>
        ensures now { IfOk result (λ memory.
            memory.values.items ≡ map (λ word. 0) (nodes_below words)) }
        ensures before { IfOk result (λ memory.
            memory.values_before.items ≡ map (λ word. 0) (nodes_below words)) }
    {
        Ok(Memory {
            values: vec![in alloc; 0u32; words as usize]?,
            values_before: vec![in alloc; 0u32; words as usize]?,
        })
    }

    /// Gives a word a value.
    pub fn store(&mut self, word: u32, value: u32)
        requires now { word < length self.old.values.items }
        requires before { word < length self.old.values_before.items }
        ensures now { self.new.values.items ≡ slice_set self.old.values.items word value }
        ensures before { self.new.values_before.items
            ≡ slice_set self.old.values_before.items word (slice_index self.old.values.items word) }
    {
        self.values_before[word as usize] = self.values[word as usize];
        self.values[word as usize] = value;
    }

    /// Gives each word its initial value.
    pub fn clear(&mut self)
        ensures now { self.new.values.items
            ≡ map (λ word. 0) (nodes_below (length self.old.values.items)) }
        ensures before { self.new.values_before.items
            ≡ map (λ word. 0) (nodes_below (length self.old.values_before.items)) }
    {
        self.values.fill(0);
        self.values_before.fill(0);
    }
}
