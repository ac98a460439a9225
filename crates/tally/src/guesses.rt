//! Guesses where a row stands in a list, by a hash of its words. A guess may be wrong, so who takes one looks at the row that stands there.
use std::alloc::{AllocError, Global};

/// How many guesses there are.
const SLOTS: usize = 1 << 17;

/// How many of them a row has.
pub(crate) const WAYS: usize = 4;

/// No guess. Guesses are small, so that the table stays near the processor.
pub(crate) const NONE: u16 = u16::MAX;

/// An odd number that spreads the bits of a word over the high ones: 2^64 divided by the golden ratio.
const SPREAD: u64 = 0x9e37_79b9_7f4a_7c15;

/// A table of guesses. It takes no memory before the first one.
#[derive(Drop)]
pub(crate) struct Guesses {
    slots: Vec<u16>,
}

/// A number by which rows are told apart, mostly.
pub(crate) fn hash(row: &[u64]) -> u64 {
    let mut hash = 0u64;
    for word in row {
        hash = (hash.rotate_left(32) ^ *word).wrapping_mul(SPREAD);
    }
    hash
}

/// Which slot a row with this hash has on a way.
fn slot(hash: u64, way: usize) -> usize {
    ((hash >> 47) as usize ^ way) % SLOTS
}

impl Guesses {
    pub(crate) fn new(alloc: Global) -> Guesses {
        Guesses {
            slots: Vec::new(alloc),
        }
    }

    /// The guess on a way for a row with this hash.
    pub(crate) fn at(&self, hash: u64, way: usize) -> Option<usize> {
        match self.slots.get(slot(hash, way)) {
            Some(&place) if place != NONE => Some(usize::from(place)),
            _ => None,
        }
    }

    /// From now on a row with this hash is guessed at this place, on this way. `Err` means want of memory.
    pub(crate) fn set(&mut self, hash: u64, way: usize, place: usize) -> Result<(), AllocError> {
        if self.slots.is_empty() {
            self.slots.resize(SLOTS, NONE)?;
        }
        if let Some(guess) = self.slots.get_mut(slot(hash, way)) {
            *guess = u16::try_from(place).unwrap_or(NONE);
        }
        Ok(())
    }

    /// Forgets all guesses.
    pub(crate) fn clear(&mut self) {
        self.slots.fill(NONE);
    }
}
