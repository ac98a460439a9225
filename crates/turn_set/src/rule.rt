//! The rule of the turn, what each kind of step tells, and how the seats of the passes are made and ended.
use crate::book::Book;
use atomic_table::{Join, Play, Split, TableRule};
use std::collections::LinkedList;
use tally::{Entered, Outcome};

/// What is known of a pass, live or ended. No value of it is made.
pub struct Part {
    /// The number of the pass.
    pub number: u64,
    /// The outcomes that it added.
    pub list: LinkedList<Outcome>,
    /// The history as it left it when it last added some.
    pub front: LinkedList<Entered>,
}

/// What a seat knows. No value of it is made.
pub struct View {
    /// How many passes were made, in the view of the pass 0; otherwise 0.
    pub made: u64,
    /// Whether it holds the turn.
    pub holds: bool,
    /// The history that it found when it won the turn, while it holds it.
    pub found: LinkedList<Entered>,
    /// How many turns it won.
    pub turns: u64,
    /// How often it was told that the turn was taken.
    pub busy: u64,
    /// Its own part, and behind it those of the ended passes that it took in.
    pub parts: LinkedList<Part>,
}

/// The rule of a table with the turn word and the book.
pub struct Turn;

impl TableRule<Option<Book>, View, ()> for Turn {
    ghost use Rattle.turn_set.specs.Rule.{first_view, Holds};

    ghost holds = { λ _. Holds };

    ghost first = { λ _. first_view };
}

/// A try to win the turn.
pub struct Tries;

impl Play<Option<Book>, View> for Tries {
    ghost use Rattle.turn_set.specs.Steps.{Tried};

    ghost then = { Tried };
}

/// The turn is given back with a batch at the end of the book.
pub struct Enters;

impl Play<Option<Book>, View> for Enters {
    ghost use Rattle.turn_set.specs.Steps.{GaveBack};

    ghost then = { GaveBack };
}

/// The turn is given back with the book as it was found.
pub struct Returns;

impl Play<Option<Book>, View> for Returns {
    ghost use Rattle.turn_set.specs.Steps.{Returned};

    ghost then = { Returned };
}

/// The pass 0 makes the next pass.
pub struct Makes;

impl Split<View> for Makes {
    ghost use Rattle.turn_set.specs.Rule.{maker_after, newcomer};

    ghost left = { maker_after };

    ghost right = { λ v. newcomer v.made };
}

/// A pass takes an ended one in.
pub struct Ends;

impl Join<View> for Ends {
    ghost use Rattle.turn_set.specs.Rule.{keeper_after, spent};

    ghost both = { keeper_after };

    ghost spent = { spent };
}
