//! Lists of nodes in one flat list.
ghost use Rattle.std.specs.Prelude.{◌≡◌, ◌+◌, ◌<◌, ◌^◌, [], ◌∷◌, ◌++◌, length, sum_by, IfOk, OnOk, slice_index_or};

use std::alloc::{AllocError, Global};
use std::marker::Model;

/// Lists, one behind the other. Contracts see a list of them.
#[derive(Debug, Drop)]
pub struct Lists {
    /// Where each list begins, and where the last one ends.
    starts: Vec<u32>,
    flat: Vec<u32>,
}

impl Model for Lists {
    ghost use Rattle.std.specs.Prelude.{List, ℕ};
    ghost use Rattle.weak_machine.specs.Lists.{lists_of, AreStarts};

    ghost Value = { List (List ℕ) };

    ghost view = { λ s. lists_of s.starts.items s.flat.items };

    ghost invariant = { λ s. AreStarts s.starts.items s.flat.items };
}

impl Lists {
    /// No list.
    pub fn new(alloc: Global) -> Result<Lists, AllocError>
        ensures { IfOk result (λ lists. lists ≡ []) }
    {
        let mut starts = Vec::new(alloc);
        starts.push(0)?;
        Ok(Lists {
            starts,
            flat: Vec::new(alloc),
        })
    }

    /// Adds a list at the end.
    pub fn push(&mut self, list: &[u32]) -> Result<(), AllocError>
        requires { sum_by length self.old + length list.now < 2 ^ 32 }
        ensures { OnOk result (self.new ≡ self.old ++ list.now ∷ []) }
    {
        // Room for the end comes first, so that nothing has to be undone.
        self.starts.reserve(1)?;
        self.flat.extend_from_slice(list)?;
        self.starts.push(self.flat.len() as u32).unwrap();
        Ok(())
    }

    /// The number of lists.
    pub fn len(&self) -> usize
        ensures { result ≡ length self.now }
    {
        self.starts.len() - 1
    }

    /// The list at a place.
    pub fn at(&self, place: u32) -> &[u32]
        requires { place < length self.now }
        ensures { result.now ≡ slice_index_or self.now place [] }
    {
        let from = self.starts[place as usize] as usize;
        let to = self.starts[place as usize + 1] as usize;
        &self.flat[from..to]
    }
}
