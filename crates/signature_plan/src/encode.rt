//! From runs to words.
ghost use Rattle.std.specs.Prelude.{◌≡◌, ◌^◌, ◌<◌, ◌≤◌, ◌↔◌, Some, IfErr, IsOk, OnErr, OnOk, length};
ghost use Rattle.signature_plan.specs.Outcomes.{outcome_of};
ghost use Rattle.std.specs.Bool.{OnFalse, OnTrue};
ghost use Rattle.signature_plan.specs.Words.{ReadCandidates, loads_between, mixed_radix};
ghost use Rattle.tally.specs.declared.outcome.Outcome.{Outcome};
ghost use Rattle.test_lang.specs.Runs.{IsInside, outside_of};
ghost use Rattle.test_lang.specs.Signatures.{Means, candidate_count, groups, group_product, place, signature};
ghost use Rattle.test_lang.specs.Values.{load_count};

use crate::plan::Plan;
use thiserror::Error;

/// A load whose value is no candidate's, and the value.
#[derive(Clone, Copy, PartialEq, Eq, Debug, Drop, Error)]
#[error("the load at node {node} gives {value}, which is no candidate's value")]
pub struct Outside {
    pub node: u32,
    pub value: u32,
}

/// Signatures of so many words at most are made in a place of their own, by one walk through the run.
const FEW: usize = 16;

impl Plan {
    /// The word of the loads of the ranks from `first` to before `end`: their places as digits, the first the lowest. And
    /// whether their values are candidates'; where one isn't, the word says nothing.
    fn word_if_inside(&self, run: &[u32], first: u32, end: u32) -> (u64, bool)
        requires order { first ≤ end }
        requires within { end ≤ load_count self.now }
        requires loads { length run.now ≡ load_count self.now }
        requires fits { group_product self.now (loads_between self.now first end) ≤ 2 ^ 64 }
        ensures inside { OnTrue result.1 (ReadCandidates self.now run.now first end) }
        ensures word { IsInside self.now run.now →
            result.0 ≡ mixed_radix (candidate_count self.now) (place self.now run.now) (loads_between self.now first end) }
    {
        let mut word = 0u64;
        let mut inside = true;
        for rank in (first..end).rev() {
            let (place, is_candidate) = self.candidates.place_if_any(rank, run[rank as usize]);
            let count = u64::from(self.candidates.count(rank));
            word = word.wrapping_mul(count).wrapping_add(u64::from(place));
            inside &= is_candidate;
        }
        (word, inside)
    }

    /// Writes the signature of a run, and tells whether it is inside; where it isn't, what was written says nothing.
    #[inline(never)]
    fn write_if_inside(&self, run: &[u32], out: &mut [u64]) -> bool
        requires loads { length run.now ≡ load_count self.now }
        requires words { length out.old ≡ length (groups self.now) }
        ensures inside { OnTrue result (IsInside self.now run.now) }
        ensures written { IsInside self.now run.now → out.new ≡ signature self.now run.now }
    {
        let mut first = 0;
        let mut inside = true;
        for (place, word) in out.iter_mut().enumerate() {
            let end = first + self.groups[place].loads;
            let (found, is_inside) = self.word_if_inside(run, first, end);
            *word = found;
            inside &= is_inside;
            first = end;
        }
        inside
    }

    /// Writes the signature of a run that is inside, if it is a short one, and tells whether it did. Else nothing is changed.
    fn write_short(&self, run: &[u32], out: &mut [u64]) -> bool
        requires loads { length run.now ≡ load_count self.now }
        requires words { length out.old ≡ length (groups self.now) }
        ensures written { OnTrue result (IsInside self.now run.now
            × (out.new ≡ signature self.now run.now)) }
        ensures unchanged { OnFalse result (out.new ≡ out.old) }
    {
        if out.len() > FEW {
            return false;
        }
        let mut words = [0u64; FEW];
        let words = &mut words[..out.len()];
        if !self.write_if_inside(run, words) {
            return false;
        }
        out.copy_from_slice(words);
        true
    }

    /// Writes the signature of a run, or finds the first load in node order whose value is no candidate's. `out` is unchanged then.
    pub fn encode_into(&self, run: &[u32], out: &mut [u64]) -> Result<(), Outside>
        requires loads { length run.now ≡ load_count self.now }
        requires words { length out.old ≡ length (groups self.now) }
        ensures ok { OnOk result (Means self.now out.new run.now) }
        ensures inside { IsOk result ↔ IsInside self.now run.now }
        ensures outside { IfErr result (λ outside. outside_of self.now run.now
            ≡ Some (outside.node, outside.value)) }
        ensures err { OnErr result (out.new ≡ out.old) }
        ensures outcome_inside { OnOk result (outcome_of self.now run.now
            ≡ Outcome.Inside out.new) }
        ensures outcome_outside { IfErr result (λ outside. outcome_of self.now run.now
            ≡ Outcome.Outside outside.node outside.value) }
    {
        if self.write_short(run, out) {
            return Ok(());
        }
        if let Some(rank) = self.candidates.first_outside(run) {
            return Err(Outside {
                node: self.candidates.test().load_at(rank),
                value: run[rank as usize],
            });
        }
        self.write_if_inside(run, out);
        Ok(())
    }
}
