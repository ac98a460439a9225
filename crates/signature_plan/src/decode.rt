//! From words to runs.
ghost use Rattle.std.specs.Prelude.{◌≡◌, ℕ, ◌^◌, ◌<◌, ◌≤◌, ◌↔◌, ◌++◌, List, IfErr, IfSome, IsNone, IsOk, OnErr, OnOk, length, take, drop};
ghost use Rattle.signature_plan.specs.Fitting.{FitGroups, IsFirstTooLarge};
ghost use Rattle.signature_plan.specs.Words.{group_values, loads_between};
ghost use Rattle.test_lang.specs.Signatures.{Means, groups};
ghost use Rattle.test_lang.specs.Values.{load_count};

use crate::inverse::divided;
use crate::plan::Plan;
use thiserror::Error;

/// A word that no run has at its place: the product of the counts of its group isn't above it.
#[derive(Clone, Copy, PartialEq, Eq, Debug, Drop, Error)]
#[error("word {place} is {word}, and has to be below {limit}")]
pub struct WordTooLarge {
    pub place: u32,
    pub word: u64,
    pub limit: u64,
}

impl Plan {
    /// The first word that isn't below its group's product.
    fn first_too_large(&self, words: &[u64]) -> Option<WordTooLarge>
        requires { length words.now ≡ length (groups self.now) }
        ensures none { IsNone result ↔ FitGroups self.now words.now }
        ensures some { IfSome result (λ fault. IsFirstTooLarge self.now words.now fault.place fault.word fault.limit) }
    {
        for (place, word) in words.iter().enumerate() {
            let limit = self.groups[place].product;
            if u128::from(*word) >= limit {
                return Some(WordTooLarge {
                    place: place as u32,
                    word: *word,
                    limit: limit as u64,
                });
            }
        }
        None
    }

    /// Writes the values that the word gives the loads of the ranks from `first` to before `end`.
    fn write_values(&self, mut word: u64, first: u32, end: u32, out: &mut [u32])
        requires order { first ≤ end }
        requires within { end ≤ load_count self.now }
        requires loads { length out.old ≡ load_count self.now }
        ensures { out.new ≡ take first out.old ++ group_values self.now word (loads_between self.now first end) ++ drop end out.old }
    {
        for rank in first..end {
            let count = u64::from(self.candidates.count(rank));
            let (quotient, place) = divided(word, count, self.inverses[rank as usize]);
            out[rank as usize] = self.candidates.at(rank, place as u32);
            word = quotient;
        }
    }

    /// Writes the run that words below their groups' products mean.
    fn write_run(&self, words: &[u64], out: &mut [u32])
        requires fit { FitGroups self.now words.now }
        requires loads { length out.old ≡ load_count self.now }
        ensures { Means self.now words.now out.new }
    {
        let mut first = 0;
        for (place, word) in words.iter().enumerate() {
            let end = first + self.groups[place].loads;
            self.write_values(*word, first, end, out);
            first = end;
        }
    }

    /// Writes the run that the words mean, or finds the first word that isn't below its group's product. `out` is unchanged then.
    /// A group with the product 2^64 never refuses.
    pub fn decode_into(&self, words: &[u64], out: &mut [u32]) -> Result<(), WordTooLarge>
        requires words { length words.now ≡ length (groups self.now) }
        requires loads { length out.old ≡ load_count self.now }
        ensures ok { OnOk result (Means self.now words.now out.new) }
        ensures only { OnOk result ((run : List ℕ) → Means self.now words.now run → run ≡ out.new) }
        ensures fit { IsOk result ↔ FitGroups self.now words.now }
        ensures too_large { IfErr result (λ fault. IsFirstTooLarge self.now words.now fault.place fault.word fault.limit) }
        ensures err { OnErr result (out.new ≡ out.old) }
    {
        if let Some(fault) = self.first_too_large(words) {
            return Err(fault);
        }
        self.write_run(words, out);
        Ok(())
    }
}
