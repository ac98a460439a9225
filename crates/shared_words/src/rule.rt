//! The rule of racing words, what each kind of step tells, and how the seats of the threads are made and ended.
use atomic_table::{Join, Play, Split, TableRule};
use std::collections::LinkedList;
use test_lang::test::Test;

/// What is known of a thread, live or ended. No value of it is made.
pub struct Part {
    /// The number of the thread.
    pub number: u64,
    /// Whether it has arrived.
    pub arrived: bool,
    /// How many of its operations it has passed.
    pub passed: u64,
    /// The values of the loads among them.
    pub values: LinkedList<u32>,
}

/// What a seat knows. No value of it is made.
pub struct View {
    /// How many threads were made, in the view of the thread 0; otherwise 0.
    pub made: u64,
    /// Its own part, and behind it those of the ended threads that it took in.
    pub parts: LinkedList<Part>,
}

/// The rule of a table with the words of a test and the arrivals. It has no slot.
pub struct RaceRule;

impl TableRule<u8, View, Test> for RaceRule {
    ghost use Rattle.shared_words.specs.Rule.{first_view, Holds};

    ghost holds = { Holds };

    ghost first = { λ _. first_view };
}

/// A load of a word of the test.
pub struct Loads;

impl Play<u8, View> for Loads {
    ghost use Rattle.shared_words.specs.Steps.{Loaded};

    ghost then = { Loaded };
}

/// A store to a word of the test, or a fence.
pub struct Passes;

impl Play<u8, View> for Passes {
    ghost use Rattle.shared_words.specs.Steps.{Passed};

    ghost then = { Passed };
}

/// An arrival.
pub struct Arrives;

impl Play<u8, View> for Arrives {
    ghost use Rattle.shared_words.specs.Steps.{Arrived};

    ghost then = { Arrived };
}

/// A look at the arrivals.
pub struct Looks;

impl Play<u8, View> for Looks {
    ghost use Rattle.shared_words.specs.Steps.{Looked};

    ghost then = { Looked };
}

/// The thread 0 makes the next thread.
pub struct Makes;

impl Split<View> for Makes {
    ghost use Rattle.shared_words.specs.Rule.{maker_after, newcomer};

    ghost left = { maker_after };

    ghost right = { λ v. newcomer v.made };
}

/// A thread takes an ended one in.
pub struct Ends;

impl Join<View> for Ends {
    ghost use Rattle.shared_words.specs.Rule.{keeper_after, spent};

    ghost both = { keeper_after };

    ghost spent = { spent };
}
