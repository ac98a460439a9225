//! The machine of partial store order.
ghost use Rattle.std.specs.Prelude.{◌≡◌, [], IfOk, IsTrue};
ghost use Rattle.test_lang.specs.Targets.{fits};
ghost use Rattle.test_lang.specs.declared.target.Target.TheVariants.{Pso};
ghost use Rattle.tso_machine.specs.Moments.{StandsBehind};

use crate::buffered::Buffered;
use crate::playing::StoreOrder;
use sim_core::Machine;
use std::alloc::{AllocError, Global};
use std::marker::Model;
use test_lang::step::Step;
use test_lang::target::Fault;
use test_lang::test::Test;

/// A machine whose stores and store fences wait in a buffer of their thread. A store may leave it before older stores to other words, unless a store fence
/// stands between: nothing passes a store fence, and it passes nothing. Contracts see where it stands in a play.
#[derive(Debug, Drop)]
pub struct PsoMachine {
    machine: Buffered,
}

impl Model for PsoMachine {
    ghost use Rattle.tso_machine.specs.Moments.{Moment};

    ghost Value = { Moment };

    ghost view = { λ m. m.machine };
}

impl PsoMachine {
    /// The machine in its opening state. An error is want of memory.
    pub fn new(alloc: Global, test: &Test, fault: Fault) -> Result<PsoMachine, AllocError>
        requires { IsTrue (fits Pso fault) }
        ensures setup { IfOk result (λ machine.
            machine.setup ≡ record { target = Pso; fault = fault; test = test.now }) }
        ensures stands { IfOk result (λ machine. StandsBehind machine []) }
    {
        Ok(PsoMachine {
            machine: Buffered::new(alloc, test, StoreOrder::Partial, fault)?,
        })
    }
}

impl Machine for PsoMachine {
    ghost setup = { λ machine. machine.setup };

    ghost stands = { StandsBehind };

    fn count(&self) -> u32 {
        self.machine.count()
    }

    fn choice(&self, k: u32) -> Step {
        self.machine.choice(k)
    }

    fn enabled(&self, step: Step) -> bool {
        self.machine.enabled(step)
    }

    fn step(&mut self, step: Step) {
        self.machine.step(step);
    }

    fn done(&self) -> bool {
        self.machine.done()
    }

    fn reset(&mut self) {
        self.machine.reset();
    }

    fn loads(&self) -> &[u32] {
        self.machine.loads()
    }

    ghost is_play = { λ machine steps stands. stands.is_play };

    ghost limits = { λ machine steps stands. stands.limits };
}
