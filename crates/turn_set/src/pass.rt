//! The right of one thread to add to a shared set.

use crate::turn::PassSeat;
use std::marker::Model;

/// A pass of a shared set: its number, what it added, the history as it last left it, and how often it won the turn and was told that it was taken.
/// Between its calls it doesn't hold the turn. It may go to another thread.
#[derive(Drop)]
pub struct Pass {
    pub(crate) number: u32,
    pub(crate) seat: PassSeat,
}

impl Model for Pass {
    ghost use Rattle.std.specs.Prelude.{◌≡◌};
    ghost use Rattle.turn_set.specs.Passes.{PassState, pass_state};
    ghost use Rattle.turn_set.specs.Steps.{IsFree, own};

    ghost Value = { PassState };

    ghost view = { λ p. pass_state p.seat.table_id p.seat.me.0 };

    ghost invariant = { λ p. IsFree p.seat.me × (p.number ≡ (own p.seat.me.0).number) };
}

impl Pass {
    ghost use Rattle.std.specs.Prelude.{◌≡◌};

    /// Its number, from 0.
    pub fn number(&self) -> u32
        ensures { result ≡ self.now.number }
    {
        self.number
    }
}
