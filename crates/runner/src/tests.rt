//! Runs that are drawn, on all machines. What is expected was worked out by a program of its own, from what the machines are.
ghost use Rattle.std.specs.Prelude.{◌≡◌, IsTrue};
ghost use Rattle.test_lang.specs.Targets.{fits};

use crate::{Job, run_one};
use mt_base::Draws;
use sc_machine::ScMachine;
use signature_plan::Plan;
use sim_core::{Machine, one_drawn_play, one_list_of_drawn_runs, play_drawn};
use std::alloc::{AllocError, Global};
use std::test::Fail;
use tally::{Outcome, Signature, Tally};
use test_lang::step::Step;
use test_lang::target::{Fault, Target, fits};
use test_lang::test::Test;
use test_lang::text::fault::TestFault;
use tso_machine::{PsoMachine, TsoMachine};
use weak_machine::WeakMachine;

pub(crate) const STORE_BUFFERING: &[u8] =
    b"mtest 1\nwords 2\nthread\nst 0\nld 1\nthread\nst 1\nld 0\nend\n";

const STORE_BUFFERING_FENCES: &[u8] =
    b"mtest 1\nwords 2\nthread\nst 0\nfence\nld 1\nthread\nst 1\nfence\nld 0\nend\n";

const MESSAGE_PASSING: &[u8] = b"mtest 1\nwords 2\nthread\nst 0\nst 1\nthread\nld 1\nld 0\nend\n";

const ONE_STORE: &[u8] = b"mtest 1\nwords 1\nthread\nst 0\nthread\nld 0\nld 0\nend\n";

const TWO_STORES: &[u8] = b"mtest 1\nwords 1\nthread\nst 0\nst 0\nthread\nld 0\nld 0\nend\n";

const FORWARDING: &[u8] = b"mtest 1\nwords 1\nthread\nst 0\nld 0\nend\n";

const T0: Step = Step::Execute { thread: 0 };

const T1: Step = Step::Execute { thread: 1 };

const D0: Step = Step::Drain {
    thread: 0,
    place: 0,
};

const D0_1: Step = Step::Drain {
    thread: 0,
    place: 1,
};

const D1: Step = Step::Drain {
    thread: 1,
    place: 0,
};

const P0_0: Step = Step::Perform {
    thread: 0,
    index: 0,
};

const P0_1: Step = Step::Perform {
    thread: 0,
    index: 1,
};

const P0_2: Step = Step::Perform {
    thread: 0,
    index: 2,
};

const P1_0: Step = Step::Perform {
    thread: 1,
    index: 0,
};

const P1_1: Step = Step::Perform {
    thread: 1,
    index: 1,
};

const P1_2: Step = Step::Perform {
    thread: 1,
    index: 2,
};

/// A run of seed 42: its steps, what its loads give, and what they give where the machine has no fault.
struct Drawn {
    target: Target,
    fault: Fault,
    test: &'static [u8],
    run: u32,
    steps: &'static [Step],
    loads: &'static [u32],
    sound: &'static [u32],
}

/// A run of each machine, and each fault of each machine in a run that it changes.
const DRAWN: [Drawn; 18] = [
    Drawn {
        target: Target::Sc,
        fault: Fault::None,
        test: STORE_BUFFERING,
        run: 54,
        steps: &[T1, T1, T0, T0],
        loads: &[2, 0],
        sound: &[2, 0],
    },
    Drawn {
        target: Target::Tso,
        fault: Fault::None,
        test: STORE_BUFFERING,
        run: 54,
        steps: &[T1, T0, T0, T1, D1, D0],
        loads: &[0, 0],
        sound: &[0, 0],
    },
    Drawn {
        target: Target::Pso,
        fault: Fault::None,
        test: STORE_BUFFERING,
        run: 54,
        steps: &[T1, T0, T0, T1, D1, D0],
        loads: &[0, 0],
        sound: &[0, 0],
    },
    Drawn {
        target: Target::Weak,
        fault: Fault::None,
        test: STORE_BUFFERING,
        run: 54,
        steps: &[P1_1, P0_0, P0_1, P1_0],
        loads: &[0, 0],
        sound: &[0, 0],
    },
    Drawn {
        target: Target::Pso,
        fault: Fault::None,
        test: MESSAGE_PASSING,
        run: 49,
        steps: &[T0, T0, D0_1, T1, T1, D0],
        loads: &[2, 0],
        sound: &[2, 0],
    },
    Drawn {
        target: Target::Sc,
        fault: Fault::Stale { node: 2 },
        test: ONE_STORE,
        run: 0,
        steps: &[T0, T1, T1],
        loads: &[1, 0],
        sound: &[1, 1],
    },
    Drawn {
        target: Target::Tso,
        fault: Fault::Stale { node: 2 },
        test: ONE_STORE,
        run: 0,
        steps: &[T0, D0, T1, T1],
        loads: &[1, 0],
        sound: &[1, 1],
    },
    Drawn {
        target: Target::Tso,
        fault: Fault::NoFence,
        test: STORE_BUFFERING_FENCES,
        run: 3,
        steps: &[T1, T0, T1, T1, T0, D0, T0, D1],
        loads: &[0, 0],
        sound: &[2, 1],
    },
    Drawn {
        target: Target::Tso,
        fault: Fault::Unordered,
        test: MESSAGE_PASSING,
        run: 49,
        steps: &[T0, T0, D0_1, T1, T1, D0],
        loads: &[2, 0],
        sound: &[0, 0],
    },
    Drawn {
        target: Target::Tso,
        fault: Fault::NoForward,
        test: FORWARDING,
        run: 0,
        steps: &[T0, T0, D0],
        loads: &[0],
        sound: &[1],
    },
    Drawn {
        target: Target::Pso,
        fault: Fault::Stale { node: 2 },
        test: ONE_STORE,
        run: 0,
        steps: &[T0, D0, T1, T1],
        loads: &[1, 0],
        sound: &[1, 1],
    },
    Drawn {
        target: Target::Pso,
        fault: Fault::NoFence,
        test: STORE_BUFFERING_FENCES,
        run: 3,
        steps: &[T1, T0, T1, T1, T0, D0, T0, D1],
        loads: &[0, 0],
        sound: &[2, 1],
    },
    Drawn {
        target: Target::Pso,
        fault: Fault::Unordered,
        test: TWO_STORES,
        run: 185,
        steps: &[T0, T0, D0_1, T1, D0, T1],
        loads: &[2, 1],
        sound: &[0, 0],
    },
    Drawn {
        target: Target::Pso,
        fault: Fault::NoForward,
        test: FORWARDING,
        run: 0,
        steps: &[T0, T0, D0],
        loads: &[0],
        sound: &[1],
    },
    Drawn {
        target: Target::Weak,
        fault: Fault::Stale { node: 2 },
        test: ONE_STORE,
        run: 0,
        steps: &[P0_0, P1_0, P1_1],
        loads: &[1, 0],
        sound: &[1, 1],
    },
    Drawn {
        target: Target::Weak,
        fault: Fault::NoFence,
        test: STORE_BUFFERING_FENCES,
        run: 9,
        steps: &[P1_2, P1_1, P0_1, P0_2, P0_0, P1_0],
        loads: &[0, 0],
        sound: &[2, 1],
    },
    Drawn {
        target: Target::Weak,
        fault: Fault::NoForward,
        test: FORWARDING,
        run: 1,
        steps: &[P0_1, P0_0],
        loads: &[0],
        sound: &[1],
    },
    Drawn {
        target: Target::Weak,
        fault: Fault::LoadLoad,
        test: ONE_STORE,
        run: 6,
        steps: &[P1_1, P0_0, P1_0],
        loads: &[1, 0],
        sound: &[1, 1],
    },
];

pub(crate) fn read_test(alloc: Global, text: &[u8]) -> Result<Test, TestFault> {
    Ok(Test::read(alloc, text)?.test)
}

/// Whether these are the steps that are drawn, one by one, and lead to the end.
fn takes<M: Machine>(machine: &mut M, seed: u64, run: u32, steps: &[Step]) -> bool {
    machine.reset();
    let mut draws = Draws::new(seed, u64::from(run));
    for step in steps {
        let count = machine.count();
        if count == 0 || machine.choice(draws.below(count)) != *step || !machine.enabled(*step) {
            return false;
        }
        machine.step(*step);
    }
    machine.done()
}

/// Whether the loads of the drawn run give this, also where the run is played again.
fn gives<M: Machine>(machine: &mut M, seed: u64, run: u32, loads: &[u32]) -> bool {
    machine.reset();
    play_drawn(machine, seed, run);
    let first = machine.done() && machine.loads() == loads;
    machine.reset();
    play_drawn(machine, seed, run);
    first && machine.loads() == loads
}

fn is_drawn<M: Machine + Drop>(mut machine: M, drawn: &Drawn) -> bool {
    takes(&mut machine, 42, drawn.run, drawn.steps)
        && gives(&mut machine, 42, drawn.run, drawn.loads)
}

fn is_sound<M: Machine + Drop>(mut machine: M, drawn: &Drawn) -> bool {
    gives(&mut machine, 42, drawn.run, drawn.sound)
}

fn is_drawn_on_its_machine(alloc: Global, test: &Test, drawn: &Drawn) -> Result<bool, AllocError>
    requires { IsTrue (fits drawn.now.target drawn.now.fault) }
{
    let fault = drawn.fault;
    Ok(match drawn.target {
        Target::Sc => {
            is_drawn(ScMachine::new(alloc, test, fault)?, drawn)
                && is_sound(ScMachine::new(alloc, test, Fault::None)?, drawn)
        }
        Target::Tso => {
            is_drawn(TsoMachine::new(alloc, test, fault)?, drawn)
                && is_sound(TsoMachine::new(alloc, test, Fault::None)?, drawn)
        }
        Target::Pso => {
            is_drawn(PsoMachine::new(alloc, test, fault)?, drawn)
                && is_sound(PsoMachine::new(alloc, test, Fault::None)?, drawn)
        }
        Target::Weak => {
            is_drawn(WeakMachine::new(alloc, test, fault)?, drawn)
                && is_sound(WeakMachine::new(alloc, test, Fault::None)?, drawn)
        }
    })
}

#[test]
fn runs_are_drawn(rt: HostRuntime) -> Result<(), Fail> {
    one_drawn_play();
    one_list_of_drawn_runs();
    for drawn in &DRAWN {
        let test = read_test(rt.alloc(), drawn.test)?;
        assert!(rt; fits(drawn.target, drawn.fault));
        assert!(rt; is_drawn_on_its_machine(rt.alloc(), &test, drawn)?);
    }
    Ok(())
}

/// How often the loads of store buffering give `0 0`, `0 1`, `2 0` and `2 1` in 1,000 runs of seed 42.
const COUNTS: [(Target, [u64; 4]); 4] = [
    (Target::Sc, [0, 245, 265, 490]),
    (Target::Tso, [173, 324, 350, 153]),
    (Target::Pso, [173, 324, 350, 153]),
    (Target::Weak, [268, 245, 266, 221]),
];

/// The outcome of a run that is inside.
fn outcome(alloc: Global, plan: &Plan, run: &[u32]) -> Result<Option<Outcome>, AllocError> {
    let mut words = vec![in alloc; 0u64; plan.words()]?;
    if run.len() != plan.loads() || plan.encode_into(run, &mut words).is_err() {
        return Ok(None);
    }
    Ok(Some(Outcome::Inside(Signature::of(alloc, &words)?)))
}

fn count(alloc: Global, plan: &Plan, tally: &Tally, run: &[u32]) -> Result<u64, AllocError> {
    Ok(match outcome(alloc, plan, run)? {
        Some(outcome) => tally.count(&outcome),
        None => 0,
    })
}

/// The tally of the drawn runs, played and added one by one.
fn add_one_by_one<M: Machine>(
    alloc: Global,
    machine: &mut M,
    job: &Job<'_>,
) -> Result<Tally, AllocError> {
    let mut tally = Tally::new(alloc);
    for run in 0..job.runs {
        machine.reset();
        play_drawn(machine, job.seed, run);
        if let Some(outcome) = outcome(alloc, job.plan, machine.loads())?
            && tally.total() < 1_000_000
        {
            if tally.add(outcome).is_err() {
                return Err(AllocError);
            }
        }
    }
    Ok(tally)
}

fn add_on_its_machine(alloc: Global, job: &Job<'_>) -> Result<Tally, AllocError> {
    match job.target {
        Target::Sc => add_one_by_one(
            alloc,
            &mut ScMachine::new(alloc, job.test, Fault::None)?,
            job,
        ),
        Target::Tso => {
            add_one_by_one(
                alloc,
                &mut TsoMachine::new(alloc, job.test, Fault::None)?,
                job,
            )
        }
        Target::Pso => {
            add_one_by_one(
                alloc,
                &mut PsoMachine::new(alloc, job.test, Fault::None)?,
                job,
            )
        }
        Target::Weak => {
            add_one_by_one(
                alloc,
                &mut WeakMachine::new(alloc, job.test, Fault::None)?,
                job,
            )
        }
    }
}

pub(crate) fn are_equal(tally: &Tally, other: &Tally) -> bool {
    tally.total() == other.total()
        && tally
            .iter()
            .all(|(outcome, count)| other.count(outcome) == count)
}

#[test]
fn runs_are_counted(rt: HostRuntime) -> Result<(), Fail> {
    let test = read_test(rt.alloc(), STORE_BUFFERING)?;
    let plan = Plan::of(rt.alloc(), &test)?;
    for (target, counts) in COUNTS {
        assert!(rt; fits(target, Fault::None));
        let mut job = Job {
            test: &test,
            plan: &plan,
            target,
            fault: Fault::None,
            seed: 42,
            runs: 0,
        };
        assert_eq!(rt; run_one(rt.alloc(), &job)?.iter().count(), 0);
        job.runs = 1000;
        let tally = run_one(rt.alloc(), &job)?;
        assert!(rt; are_equal(&tally, &add_on_its_machine(rt.alloc(), &job)?));
        for (run, times) in [[0, 0], [0, 1], [2, 0], [2, 1]].iter().zip(counts) {
            assert_eq!(rt; count(rt.alloc(), &plan, &tally, run)?, times);
        }
    }
    Ok(())
}
