//! Laws of tallies, over the definitions alone.
ghost use Rattle.std.specs.Prelude.{◌≡◌, ◌++◌, ℕ, List, IsTrue, ◌↔◌};
ghost use Rattle.tally.specs.declared.outcome.Outcome.{Outcome};
ghost use Rattle.tally.specs.Outcomes.{outcome_eq};
ghost use Rattle.tally.specs.Joining.{IsSum, with_counts};
ghost use Rattle.tally.specs.Tallies.{IsTally};

/// Outcomes are equal exactly where they are the same.
pub fn equal_outcomes_are_the_same()
    ensures { (x y : Outcome) → IsTrue (outcome_eq x y) ↔ (x ≡ y) }
{}

/// A list of outcomes has one tally.
pub fn one_tally()
    ensures { (outcomes : List Outcome) (pairs others : List (Outcome × ℕ)) →
        IsTally outcomes pairs → IsTally outcomes others → pairs ≡ others }
{}

/// Whatever gives each outcome the sum of its counts in the tallies of two lists is the tally of the one list behind the other.
pub fn a_sum_is_the_tally_of_both()
    ensures { (before after : List Outcome) (pairs others sum : List (Outcome × ℕ)) →
        IsTally before pairs → IsTally after others → IsSum pairs others sum → IsTally (before ++ after) sum }
{}

/// Counting the pairs of a second tally on makes such a sum.
pub fn counting_on_makes_a_sum()
    ensures { (before after : List Outcome) (pairs others : List (Outcome × ℕ)) →
        IsTally before pairs → IsTally after others → IsTally (before ++ after) (with_counts pairs others) }
{}
