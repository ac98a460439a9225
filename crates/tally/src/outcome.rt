//! Outcomes of runs, and their order.

use crate::signature::Signature;
use std::alloc::{AllocError, Global};
use std::cmp::Ordering;

/// What a run came to. Outcomes are ordered: first those inside by their signatures, then those outside by node and then by value.
#[derive(Debug, Drop)]
pub enum Outcome {
    /// Each load gave the value of a candidate; the signature says which.
    Inside(Signature),
    /// This load, by its node, was the first one in node order that gave a value of no candidate.
    Outside { node: u32, value: u32 },
}

impl Outcome {
    ghost use Rattle.std.specs.Prelude.{◌≡◌, IfOk, OnOk};

    /// An equal outcome. `Err` means want of memory.
    pub fn copy(&self, alloc: Global) -> Result<Outcome, AllocError>
        ensures { IfOk result (λ copy. copy ≡ self.now) }
    {
        match self {
            Outcome::Inside(signature) => {
                let signature = Signature::of(alloc, signature.words())?;
                Ok(Outcome::Inside(signature))
            }
            Outcome::Outside { node, value } => Ok(Outcome::Outside {
                node: *node,
                value: *value,
            }),
        }
    }

    /// Makes this the inside outcome of the signature with these words. It takes no memory where it has held a signature as long.
    /// `Err` means want of memory.
    pub(crate) fn set_inside(&mut self, alloc: Global, words: &[u64]) -> Result<(), AllocError>
        ensures { OnOk result (self.new ≡ Outcome.Inside words.now) }
    {
        if let Outcome::Inside(signature) = self {
            return signature.set(words);
        }
        *self = Outcome::Inside(Signature::of(alloc, words)?);
        Ok(())
    }
}

impl PartialEq for Outcome {
    ghost use Rattle.tally.specs.Outcomes.{outcome_eq};
    ghost use Rattle.tally.specs.OutcomeLaws.{outcome_eq_partial};

    ghost eq = { outcome_eq };

    ghost laws = { outcome_eq_partial };

    fn eq(&self, other: &Outcome) -> bool {
        match (self, other) {
            (Outcome::Inside(left), Outcome::Inside(right)) => left == right,
            (
                Outcome::Outside { node, value },
                Outcome::Outside {
                    node: other_node,
                    value: other_value,
                },
            ) => node == other_node && value == other_value,
            _ => false,
        }
    }
}

impl Eq for Outcome {
    ghost use Rattle.tally.specs.OutcomeLaws.{outcome_eq_equivalence};

    ghost laws = { outcome_eq_equivalence };
}

impl PartialOrd for Outcome {
    ghost use Rattle.std.specs.Ordering.{as_partial_cmp};
    ghost use Rattle.tally.specs.Outcomes.{outcome_cmp};
    ghost use Rattle.tally.specs.OutcomeLaws.{outcome_cmp_partial};

    ghost partial_cmp = { as_partial_cmp outcome_cmp };

    ghost laws = { outcome_cmp_partial };

    fn partial_cmp(&self, other: &Outcome) -> Option<Ordering> {
        Some(self.cmp(other))
    }
}

impl Ord for Outcome {
    ghost use Rattle.std.proofs.Common.{refl};
    ghost use Rattle.tally.specs.Outcomes.{outcome_cmp};
    ghost use Rattle.tally.specs.OutcomeLaws.{outcome_cmp_total, outcome_ties};

    ghost cmp = { outcome_cmp };

    ghost total = { outcome_cmp_total };

    ghost matches_partial_cmp = { λ x y. refl };

    ghost matches_eq = { outcome_ties };

    fn cmp(&self, other: &Outcome) -> Ordering {
        match (self, other) {
            (Outcome::Inside(left), Outcome::Inside(right)) => left.cmp(right),
            (Outcome::Inside(_), Outcome::Outside { .. }) => Ordering::Less,
            (Outcome::Outside { .. }, Outcome::Inside(_)) => Ordering::Greater,
            (
                Outcome::Outside { node, value },
                Outcome::Outside {
                    node: other_node,
                    value: other_value,
                },
            ) => node.cmp(other_node).then(value.cmp(other_value)),
        }
    }
}
