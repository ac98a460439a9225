//! Signatures: lists of words of 64 bits.
ghost use Rattle.std.specs.Prelude.{◌≡◌, IfOk, OnOk, nat_eq};
ghost use Rattle.std.specs.Cmp.{partial_order_from_own_ties};
ghost use Rattle.std.specs.Cmp.Lexicographic.{pointwise, slice_cmp};
ghost use Rattle.std.specs.Cmp.Rules.{comparing};
ghost use Rattle.std.specs.Ordering.{as_partial_cmp, nat_cmp};
ghost use Rattle.std.proofs.Common.{rules};

use std::alloc::{AllocError, Global};
use std::cmp::Ordering;
use std::marker::Model;

/// The signature of a run: a list of words of 64 bits, which may be empty.
/// Signatures are compared as lists, first word first; a list that begins another one stands before it.
#[derive(Debug, Drop)]
pub struct Signature {
    words: Vec<u64>,
}

impl Model for Signature {
    ghost use Rattle.std.specs.Prelude.{List, ℕ};

    ghost Value = { List ℕ };

    ghost view = { λ s. s.words.items };
}

impl Signature {
    /// The signature whose list is `words`. `Err` means want of memory.
    pub fn of(alloc: Global, words: &[u64]) -> Result<Signature, AllocError>
        ensures { IfOk result (λ signature. signature ≡ words.now) }
    {
        Ok(Signature {
            words: Vec::from_slice(alloc, words)?,
        })
    }

    /// Makes this the signature whose list is `words`. It takes no memory where it has held as many words.
    /// `Err` means want of memory.
    pub(crate) fn set(&mut self, words: &[u64]) -> Result<(), AllocError>
        ensures { OnOk result (self.new ≡ words.now) }
    {
        self.words.clear();
        self.words.extend_from_slice(words)
    }

    /// The list of its words.
    pub fn words(&self) -> &[u64]
        ensures { result.now ≡ self.now }
    {
        &self.words
    }
}

impl PartialEq for Signature {
    ghost eq = { pointwise nat_eq };

    ghost laws = { Prim.search (comparing, rules) };

    fn eq(&self, other: &Signature) -> bool {
        self.words == other.words
    }
}

impl Eq for Signature {
    ghost laws = { Prim.search (comparing, rules) };
}

impl PartialOrd for Signature {
    ghost partial_cmp = { as_partial_cmp (slice_cmp nat_cmp) };

    ghost laws = { partial_order_from_own_ties (Prim.search (comparing, rules)) (Prim.search (comparing, rules)) };

    fn partial_cmp(&self, other: &Signature) -> Option<Ordering> {
        Some(self.cmp(other))
    }
}

impl Ord for Signature {
    ghost cmp = { slice_cmp nat_cmp };

    ghost total = { Prim.search (comparing, rules) };

    ghost matches_partial_cmp = { Prim.search (comparing, rules) };

    ghost matches_eq = { Prim.search (comparing, rules) };

    fn cmp(&self, other: &Signature) -> Ordering {
        self.words.cmp(&other.words)
    }
}
