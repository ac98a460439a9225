//! Whether a report found anything.
ghost use Rattle.std.specs.Prelude.{◌≡◌, ◌&&◌, not};
ghost use Rattle.verdict_report.specs.Lines.{has_cycle, has_outside, is_cycle, is_outside};

use crate::report::{Judged, Report};
use tally::{Outcome, Tally};

fn is_cycle(judged: &Judged) -> bool
    ensures { result ≡ is_cycle judged.now }
{
    matches!(judged, Judged::Cycle(_))
}

fn is_outside(outcome: &Outcome) -> bool
    ensures { result ≡ is_outside outcome.now }
{
    matches!(outcome, Outcome::Outside { .. })
}

/// Whether some verdict is a cycle.
fn has_cycle(found: &[Judged]) -> bool
    ensures { result ≡ has_cycle found.now }
{
    found.iter().any(is_cycle)
}

/// Whether some outcome is outside.
fn has_outside(tally: &Tally) -> bool
    ensures { result ≡ has_outside tally.now }
{
    for (outcome, _) in tally.iter() {
        if is_outside(outcome) {
            return true;
        }
    }
    false
}

impl Report<'_> {
    /// Whether nothing was found: no verdict is a cycle, and no outcome is outside. It takes no memory, and time of one look at each of them.
    pub fn is_clean(&self) -> bool
        ensures { result
            ≡ (not (has_cycle self.now.found.now) && not (has_outside self.now.tally.now)) }
    {
        !has_cycle(self.found) && !has_outside(self.tally)
    }
}
