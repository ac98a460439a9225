//! The machine of total store order.
ghost use Rattle.std.specs.Prelude.{◌≡◌, [], IfOk, IsTrue};
ghost use Rattle.test_lang.specs.Targets.{fits};
ghost use Rattle.test_lang.specs.declared.target.Target.TheVariants.{Tso};
ghost use Rattle.tso_machine.specs.Moments.{StandsBehind};

use crate::buffered::Buffered;
use crate::playing::StoreOrder;
use sim_core::Machine;
use std::alloc::{AllocError, Global};
use std::marker::Model;
use test_lang::step::Step;
use test_lang::target::Fault;
use test_lang::test::Test;

/// A machine whose stores and store fences wait in a buffer of their thread. They leave it in the order of the thread. Contracts see where it stands in a play.
#[derive(Debug, Drop)]
pub struct TsoMachine {
    machine: Buffered,
}

impl Model for TsoMachine {
    ghost use Rattle.tso_machine.specs.Moments.{Moment};

    ghost Value = { Moment };

    ghost view = { λ m. m.machine };
}

impl TsoMachine {
    /// The machine in its opening state. An error is want of memory.
    pub fn new(alloc: Global, test: &Test, fault: Fault) -> Result<TsoMachine, AllocError>
        requires { IsTrue (fits Tso fault) }
        ensures setup { IfOk result (λ machine.
            machine.setup ≡ record { target = Tso; fault = fault; test = test.now }) }
        ensures stands { IfOk result (λ machine. StandsBehind machine []) }
    {
        Ok(TsoMachine {
            machine: Buffered::new(alloc, test, StoreOrder::Total, fault)?,
        })
    }
}

impl Machine for TsoMachine {
    ghost setup = { λ machine. machine.setup };

    ghost stands = { StandsBehind };

    fn count(&self) -> u32 {
        self.machine.count()
    }

    fn choice(&self, k: u32) -> Step {
        self.machine.choice(k)
    }

    fn enabled(&self, step: Step) -> bool {
        self.machine.enabled(step)
    }

    fn step(&mut self, step: Step) {
        self.machine.step(step);
    }

    fn done(&self) -> bool {
        self.machine.done()
    }

    fn reset(&mut self) {
        self.machine.reset();
    }

    fn loads(&self) -> &[u32] {
        self.machine.loads()
    }

    ghost is_play = { λ machine steps stands. stands.is_play };

    ghost limits = { λ machine steps stands. stands.limits };
}
