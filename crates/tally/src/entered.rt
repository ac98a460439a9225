//! Entries of the history of a set that many passes add to.

use crate::outcome::Outcome;

/// An entry of a history: an outcome, and the number of the pass that added it.
#[derive(Debug, Drop)]
pub struct Entered {
    pub pass: u32,
    pub outcome: Outcome,
}
