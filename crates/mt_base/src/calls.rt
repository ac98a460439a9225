//! Counts the calls of a source or a sink in memory.
ghost use Rattle.std.specs.Prelude.{◌≡◌, ◌≤◌, ◌||◌};
ghost use Rattle.mt_base.specs.Calls.{no_calls, is_next_listed, after_call};

use std::marker::Model;

/// Which calls are to fail, how many calls were made, and how many failed.
#[derive(Drop)]
pub(crate) struct Calls {
    fails: Vec<u32>,
    made: u64,
    faults: u64,
}

impl Model for Calls {
    ghost use Rattle.mt_base.specs.Calls.{CallCounts};

    ghost Value = { CallCounts };

    ghost view = { λ calls.
        record { fails = calls.fails.items; made = calls.made; faults = calls.faults } };
}

impl Calls {
    /// `fails` has the numbers, from 0, of the calls that are to fail.
    pub(crate) fn new(fails: Vec<u32>) -> Calls
        ensures { result ≡ no_calls fails.items }
    {
        Calls {
            fails,
            made: 0,
            faults: 0,
        }
    }

    /// Counts a call, and answers whether it fails: because it must, or because its number is listed.
    pub(crate) fn count(&mut self, must_fail: bool) -> bool
        ensures fails { result ≡ (must_fail || is_next_listed self.old) }
        ensures after { self.new ≡ after_call (must_fail || is_next_listed self.old) self.old }
        ensures later { self.old.faults ≤ self.new.faults }
    {
        let fails = must_fail || self.is_next_listed();
        self.made = self.made.saturating_add(1);
        if fails {
            self.faults = self.faults.saturating_add(1);
        }
        fails
    }

    fn is_next_listed(&self) -> bool
        ensures { result ≡ is_next_listed self.now }
    {
        self.fails
            .iter()
            .any(|number| u64::from(*number) == self.made)
    }
}
