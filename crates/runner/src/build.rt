//! Machines that are made by their target.
ghost use Rattle.std.specs.Prelude.{◌≡◌, IfOk, IsTrue};
ghost use Rattle.test_lang.specs.declared.target.Target.{Target};
ghost use Rattle.test_lang.specs.Targets.{fits};

use sc_machine::ScMachine;
use sim_core::Machine;
use std::alloc::{AllocError, Global};
use test_lang::target::Fault;
use test_lang::test::Test;
use tso_machine::{PsoMachine, TsoMachine};
use weak_machine::WeakMachine;

/// A machine of one target, as `run_all` and `run_one` make it for their job.
pub(crate) trait Build: Machine + Send + Drop {
    /// Which machine it is.
    ghost kind: { Target };

    /// The machine in its opening state. `Err` means want of memory.
    fn build(alloc: Global, test: &Test, fault: Fault) -> Result<Self, AllocError>
        requires { IsTrue (fits kind fault) }
        ensures setup { IfOk result (λ machine.
            Self.setup machine ≡ record { target = kind; fault = fault; test = test.now }) };
}

impl Build for ScMachine {
    ghost use Rattle.test_lang.specs.declared.target.Target.TheVariants.{Sc};

    ghost kind = { Sc };

    fn build(alloc: Global, test: &Test, fault: Fault) -> Result<ScMachine, AllocError> {
        ScMachine::new(alloc, test, fault)
    }
}

impl Build for TsoMachine {
    ghost use Rattle.test_lang.specs.declared.target.Target.TheVariants.{Tso};

    ghost kind = { Tso };

    fn build(alloc: Global, test: &Test, fault: Fault) -> Result<TsoMachine, AllocError> {
        TsoMachine::new(alloc, test, fault)
    }
}

impl Build for PsoMachine {
    ghost use Rattle.test_lang.specs.declared.target.Target.TheVariants.{Pso};

    ghost kind = { Pso };

    fn build(alloc: Global, test: &Test, fault: Fault) -> Result<PsoMachine, AllocError> {
        PsoMachine::new(alloc, test, fault)
    }
}

impl Build for WeakMachine {
    ghost use Rattle.test_lang.specs.declared.target.Target.TheVariants.{Weak};

    ghost kind = { Weak };

    fn build(alloc: Global, test: &Test, fault: Fault) -> Result<WeakMachine, AllocError> {
        WeakMachine::new(alloc, test, fault)
    }
}
