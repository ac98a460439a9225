//! Division by a number that many words are divided by, as a multiplication with its inverse.
ghost use Rattle.std.specs.Prelude.{◌≡◌, ℕ, ◌-◌, ◌<◌, ◌≤◌, ◌/◌, ◌%◌, ◌^◌, IfOk, length, slice_index};
ghost use Rattle.candidates.specs.ByRank.{candidates_at};
ghost use Rattle.test_lang.specs.Values.{load_count};

use candidates::Candidates;
use std::alloc::{AllocError, Global};

/// The inverse of the number of candidates of each load, by rank: how often that number goes into 2^64 - 1.
pub(crate) fn list_inverses(alloc: Global, candidates: &Candidates) -> Result<Vec<u64>, AllocError>
    ensures long { IfOk result (λ inverses. length inverses.items ≡ load_count candidates.now) }
    ensures each { IfOk result (λ inverses. (rank : ℕ) → rank < load_count candidates.now →
        slice_index inverses.items rank ≡ (2 ^ 64 - 1) / length (candidates_at candidates.now rank)) }
{
    let mut inverses = Vec::new(alloc);
    for rank in 0..candidates.test().loads() {
        inverses.push(u64::MAX / u64::from(candidates.count(rank)))?;
    }
    Ok(inverses)
}

/// The quotient of the word by the count, and the rest. The product of word and inverse over 2^64 is the quotient or one less.
pub(crate) fn divided(word: u64, count: u64, inverse: u64) -> (u64, u64)
    requires some { 1 ≤ count }
    requires inverse { inverse ≡ (2 ^ 64 - 1) / count }
    ensures quotient { result.0 ≡ word / count }
    ensures rest { result.1 ≡ word % count }
{
    let guess = ((u128::from(word) * u128::from(inverse)) >> 64) as u64;
    let rest = word - guess * count;
    if rest < count {
        (guess, rest)
    } else {
        (guess + 1, rest - count)
    }
}
