//! A machine with buffers, whose choices are counted.
ghost use Rattle.std.specs.Prelude.{◌≡◌, ◌+◌, ◌<◌, ◌≤◌, [], ◌∷◌, ◌++◌, List, All, IfOk, IsTrue, Some, length, slice_get, sum};
ghost use Rattle.sim_core.specs.Setup.{choices_after, is_done_after, is_enabled_after, run_after};
ghost use Rattle.test_lang.specs.declared.step.Step.{Step};
ghost use Rattle.tso_machine.specs.Moments.{StandsBehind, target_of};
ghost use Rattle.tso_machine.specs.Moves.{IsEnabled, Takes, choice_counts};

use crate::playing::{Playing, StoreOrder};
use sim_core::Machine;
use std::alloc::{AllocError, Global};
use std::marker::Model;
use test_lang::step::Step;
use test_lang::target::Fault;
use test_lang::test::Test;

/// A test that is played, with the number of choices of each thread and of all.
#[derive(Debug, Drop)]
pub struct Buffered {
    playing: Playing,
    counts: Vec<u32>,
    total: u32,
}

impl Model for Buffered {
    ghost use Rattle.tso_machine.specs.Moments.{Moment};
    ghost use Rattle.tso_machine.specs.Moves.{IsCounted};

    ghost Value = { Moment };

    ghost view = { λ m. m.playing };

    ghost invariant = { λ m. IsCounted m.playing m.counts.items m.total };
}

/// Counts the choices of each thread, and answers how many there are.
fn count_all(playing: &Playing, counts: &mut [u32]) -> u32
    requires { length counts.old ≡ length playing.now.setup.test.threads }
    ensures counts { (steps : List Step) → StandsBehind playing.now steps →
        counts.new ≡ choice_counts playing.now.setup steps }
    ensures few { All (λ count. count ≤ 2049) counts.new }
    ensures total { result ≡ sum counts.new }
{
    let mut total = 0;
    for thread in 0..playing.threads() {
        let count = playing.count_choices(thread);
        counts[thread as usize] = count;
        total += count;
    }
    total
}

impl Buffered {
    /// The opening of a test. An error is want of memory.
    pub fn new(
        alloc: Global,
        test: &Test,
        order: StoreOrder,
        fault: Fault,
    ) -> Result<Buffered, AllocError>
        ensures setup { IfOk result (λ machine.
            machine.setup ≡ record { target = target_of order; fault = fault; test = test.now }) }
        ensures stands { IfOk result (λ machine. StandsBehind machine []) }
    {
        let playing = Playing::new(alloc, test, order, fault)?;
        let mut counts = vec![in alloc; 0u32; playing.threads() as usize]?;
        let total = count_all(&playing, &mut counts);
        Ok(Buffered {
            playing,
            counts,
            total,
        })
    }
}

impl Machine for Buffered {
    ghost setup = { λ machine. machine.setup };

    ghost stands = { StandsBehind };

    fn count(&self) -> u32 {
        self.total
    }

    #[inline(always)]
    fn choice(&self, k: u32) -> Step {
        let mut left = k;
        for thread in 0..self.playing.threads() {
            let count = self.counts[thread as usize];
            if left < count {
                return self.playing.nth_choice(thread, left);
            }
            left -= count;
        }
        unreachable!()
    }

    fn enabled(&self, step: Step) -> bool {
        self.playing.enabled(step)
    }

    #[inline(always)]
    fn step(&mut self, step: Step) {
        let thread = self.playing.take(step);
        let count = self.playing.count_choices(thread);
        let place = thread as usize;
        self.total = self.total - self.counts[place] + count;
        self.counts[place] = count;
    }

    fn done(&self) -> bool {
        self.total == 0
    }

    fn reset(&mut self) {
        self.playing.reset();
        self.total = count_all(&self.playing, &mut self.counts);
    }

    fn loads(&self) -> &[u32] {
        self.playing.loads()
    }

    ghost is_play = { λ machine steps stands. stands.is_play };

    ghost limits = { λ machine steps stands. stands.limits };
}

#[cfg(test)]
mod tests;
