//! How often each outcome occurred.
ghost use Rattle.std.specs.Prelude.{◌≡◌, ℕ, ◌+◌, ◌-◌, ◌^◌, ◌<◌, ◌≤◌, List, [], ◌∷◌, ◌++◌, length, OnErr, OnOk, IfErr};
ghost use Rattle.std.specs.Bool.{OnTrue, OnFalse};
ghost use Rattle.tally.specs.declared.outcome.Outcome.{Outcome};
ghost use Rattle.tally.specs.Joining.{HasSomeOf, with_counts};
ghost use Rattle.tally.specs.Tallies.{IsCounts, IsTally, count_of, total_of, with_more, with_one_less, with_one_more};

use crate::outcome::Outcome;
use std::alloc::{AllocError, Global};
use std::collections::{BTreeMap, btree_map};
use std::marker::Model;

/// A map from outcomes to counts of at least 1: the tally of the outcomes that were added to it.
/// It is the list of its pairs, each of an outcome and its count, in the order of outcomes.
#[derive(Drop)]
pub struct Tally {
    counts: BTreeMap<Outcome, u64>,
    total: u64,
}

impl Model for Tally {
    ghost use Rattle.std.specs.Prelude.{List, ℕ, ◌≡◌};
    ghost use Rattle.tally.specs.declared.outcome.Outcome.{Outcome};

    ghost Value = { List (Outcome × ℕ) };

    ghost use Rattle.tally.specs.Tallies.{IsCounts, total_of};

    ghost view = { λ t. t.counts.entries };

    ghost invariant = { λ t. IsCounts t.counts.entries × (t.total ≡ total_of t.counts.entries) };
}

impl Tally {
    /// The tally of no outcomes. It takes no memory.
    pub fn new(alloc: Global) -> Tally
        ensures empty { result ≡ [] }
        ensures tally { IsTally [] result }
    {
        Tally {
            counts: BTreeMap::new(alloc),
            total: 0,
        }
    }

    /// Counts one more place of the outcome, in time of the logarithm of the number of distinct ones.
    /// `Err` means want of memory; it hands the outcome back, and the tally is as before.
    pub fn add(&mut self, outcome: Outcome) -> Result<(), Outcome>
        requires { total_of self.old < 2 ^ 64 - 1 }
        ensures added { OnOk result (self.new ≡ with_one_more self.old outcome) }
        ensures total { OnOk result (total_of self.new ≡ total_of self.old + 1) }
        // The tally of a list becomes the tally of the list with this outcome at its end.
        ensures tally { OnOk result ((outcomes : List Outcome) → IsTally outcomes self.old →
            IsTally (outcomes ++ outcome ∷ []) self.new) }
        ensures refused { IfErr result (λ back. (back ≡ outcome) × (self.new ≡ self.old)) }
        ensures sound { IsCounts self.new }
    {
        add_times(&mut self.counts, outcome, 1)?;
        self.total += 1;
        Ok(())
    }

    /// Takes one place of the outcome away. It takes no memory.
    pub fn take_back(&mut self, outcome: &Outcome)
        requires { 1 ≤ count_of self.old outcome.now }
        ensures taken { self.new ≡ with_one_less self.old outcome.now }
        ensures total { total_of self.new + 1 ≡ total_of self.old }
        // The tally of a list with this outcome at its end becomes the tally of the list without it.
        ensures tally { (outcomes : List Outcome) → IsTally (outcomes ++ outcome.now ∷ []) self.old →
            IsTally outcomes self.new }
        ensures sound { IsCounts self.new }
    {
        take_one_back(&mut self.counts, outcome);
        self.total -= 1;
    }

    /// Counts so many more places of the outcome at once.
    /// `Err` means want of memory; it hands the outcome back, and the tally is as before.
    pub(crate) fn add_times(&mut self, outcome: Outcome, times: u64) -> Result<(), Outcome>
        requires room { total_of self.old + times < 2 ^ 64 }
        requires some { 1 ≤ times }
        ensures added { OnOk result (self.new ≡ with_more self.old outcome times) }
        ensures refused { IfErr result (λ back. (back ≡ outcome) × (self.new ≡ self.old)) }
        ensures sound { IsCounts self.old × IsCounts self.new }
    {
        add_times(&mut self.counts, outcome, times)?;
        self.total += times;
        Ok(())
    }

    /// Counts the places of all outcomes of another tally too, whose outcomes become its own.
    /// `Err` means want of memory; then those of a front of the other tally's pairs are counted, and no others.
    pub fn join(&mut self, other: Tally) -> Result<(), AllocError>
        requires { total_of self.old + total_of other < 2 ^ 64 }
        ensures joined { OnOk result (self.new ≡ with_counts self.old other) }
        ensures total { OnOk result (total_of self.new ≡ total_of self.old + total_of other) }
        // The tally of a list becomes the tally of the list with the other one behind it.
        ensures tally { OnOk result ((before after : List Outcome) → IsTally before self.old →
            IsTally after other → IsTally (before ++ after) self.new) }
        ensures refused { OnErr result (HasSomeOf other self.old self.new) }
    {
        for (outcome, times) in other.counts {
            self.count_on(outcome, times)?;
        }
        Ok(())
    }

    /// Counts so many more places of the outcome. `Err` means want of memory, and the tally is as before.
    fn count_on(&mut self, outcome: Outcome, times: u64) -> Result<(), AllocError>
        requires room { total_of self.old + times < 2 ^ 64 }
        requires some { 1 ≤ times }
        ensures added { OnOk result (self.new ≡ with_more self.old outcome times) }
        ensures refused { OnErr result (self.new ≡ self.old) }
        ensures sound { IsCounts self.old }
    {
        match self.add_times(outcome, times) {
            Ok(()) => Ok(()),
            Err(_) => Err(AllocError),
        }
    }

    /// Counts so many more places of the outcome if it is there, and says whether it is. It takes no memory.
    pub(crate) fn raise(&mut self, outcome: &Outcome, times: u64) -> bool
        requires { total_of self.old + times < 2 ^ 64 }
        ensures raised { OnTrue result (self.new ≡ with_more self.old outcome.now times) }
        ensures absent { OnFalse result (self.new ≡ self.old) }
        ensures sound { IsCounts self.old × IsCounts self.new }
    {
        match self.counts.get_mut(outcome) {
            Some(count) => {
                *count += times;
                self.total += times;
                true
            }
            None => false,
        }
    }

    /// How often the outcome was added; 0 where it isn't there. It takes no memory.
    pub fn count(&self, outcome: &Outcome) -> u64
        ensures { result ≡ count_of self.now outcome.now }
    {
        count(&self.counts, outcome)
    }

    /// The pairs of an outcome and its count, in the order of outcomes.
    pub fn iter(&self) -> TallyIter<'_>
        ensures pairs { result ≡ self.now }
        ensures few { length self.now < 2 ^ 63 }
        ensures sound { IsCounts self.now }
    {
        TallyIter {
            pairs: self.counts.iter(),
        }
    }

    /// The sum of the counts: how many outcomes were added.
    pub fn total(&self) -> u64
        ensures sum { result ≡ total_of self.now }
        ensures sound { IsCounts self.now }
    {
        self.total
    }
}

fn add_times(
    counts: &mut BTreeMap<Outcome, u64>,
    outcome: Outcome,
    times: u64,
) -> Result<(), Outcome>
    requires { total_of counts.old.entries + times < 2 ^ 64 }
    ensures added { OnOk result (counts.new.entries ≡ with_more counts.old.entries outcome times) }
    ensures refused { IfErr result (λ back. (back ≡ outcome)
        × (counts.new.entries ≡ counts.old.entries)) }
{
    match counts.entry(outcome) {
        Ok(entry) => {
            *entry.or_insert(0) += times;
            Ok(())
        }
        Err(refused) => Err(refused.value),
    }
}

fn count(counts: &BTreeMap<Outcome, u64>, outcome: &Outcome) -> u64
    ensures { result ≡ count_of counts.now.entries outcome.now }
{
    match counts.get(outcome) {
        Some(count) => *count,
        None => 0,
    }
}

fn take_one_back(counts: &mut BTreeMap<Outcome, u64>, outcome: &Outcome)
    requires counts { IsCounts counts.old.entries }
    requires there { 1 ≤ count_of counts.old.entries outcome.now }
    ensures { counts.new.entries ≡ with_one_less counts.old.entries outcome.now }
{
    if count(counts, outcome) == 1 {
        counts.remove(outcome);
    } else if let Some(count) = counts.get_mut(outcome) {
        *count -= 1;
    }
}

/// The pairs of a tally that are left to give, each of an outcome and its count.
#[derive(Drop)]
pub struct TallyIter<'a> {
    pairs: btree_map::Iter<'a, Outcome, u64>,
}

impl<'a> Model for TallyIter<'a> {
    ghost use Rattle.std.specs.Prelude.{List, ℕ};
    ghost use Rattle.tally.specs.declared.outcome.Outcome.{Outcome};

    ghost Value = { List (Outcome × ℕ) };

    ghost view = { λ t. t.pairs };
}

impl<'a> Iterator for TallyIter<'a> {
    type Item = (&'a Outcome, u64);

    ghost use Rattle.std.specs.Iterator.{YieldsFirstBy, item_count};

    ghost next_gives = { YieldsFirstBy (λ pair. (pair.0.now, pair.1)) (λ pairs. pairs) };

    ghost remaining = { item_count (λ pairs. pairs) };

    /// The next pair; none exactly where all were given.
    fn next(&mut self) -> Option<(&'a Outcome, u64)> {
        let (outcome, count) = self.pairs.next()?;
        Some((outcome, *count))
    }
}
