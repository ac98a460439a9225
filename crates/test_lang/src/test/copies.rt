//! Copies of a test.
ghost use Rattle.std.specs.Prelude.{◌≡◌};

use crate::test::Test;
use std::alloc::AllocError;

/// A clone is the same test.
impl Clone for Test {
    ghost is_clone = { λ test copy. copy ≡ test };

    fn clone(&self) -> Result<Test, AllocError> {
        let alloc = *self.rows.allocator();
        Ok(Test {
            version: self.version,
            words: self.words,
            rows: Vec::from_slice(alloc, &self.rows)?,
            load_nodes: Vec::from_slice(alloc, &self.load_nodes)?,
            store_nodes: Vec::from_slice(alloc, &self.store_nodes)?,
            first_nodes: Vec::from_slice(alloc, &self.first_nodes)?,
        })
    }
}
