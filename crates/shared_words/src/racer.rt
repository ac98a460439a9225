//! A thread's place in a race.

use crate::steps::RacerSeat;
use std::marker::Model;

/// A thread of the test in a race: its number, and what it has done. It may go to another thread.
#[derive(Drop)]
pub(crate) struct Racer {
    pub(crate) number: u32,
    pub(crate) seat: RacerSeat,
}

impl Model for Racer {
    ghost use Rattle.std.specs.Prelude.{◌≡◌};
    ghost use Rattle.shared_words.specs.Racers.{RacerState, racer_state};
    ghost use Rattle.shared_words.specs.Steps.{IsAlone, own};

    ghost Value = { RacerState };

    ghost view = { λ r. racer_state r.seat.table_id r.seat.me.0 };

    ghost invariant = { λ r. IsAlone r.seat.me × (r.number ≡ (own r.seat.me.0).number) };
}

/// What a thread begins with and gives back: the values are those of the loads that it has passed.
#[derive(Drop)]
pub(crate) struct Task {
    pub(crate) racer: Racer,
    pub(crate) values: Vec<u32>,
}
