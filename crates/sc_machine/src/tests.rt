//! Tests of schedules that are played, by hand-made tables, and of choices.
use crate::ScMachine;
use sim_core::{Machine, PlayFault, no_false_alarm, play_schedule};
use std::alloc::{AllocError, Global};
use std::test::Fail;
use test_lang::step::Step;
use test_lang::target::{Fault, Target, fits};
use test_lang::test::Test;
use test_lang::text::fault::TestFault;

const STORE_BUFFERING: &[u8] = b"mtest 1\nwords 2\nthread\nst 0\nld 1\nthread\nst 1\nld 0\nend\n";

const FENCED: &[u8] =
    b"mtest 2\nwords 2\nthread\nst 0\nfence\nld 1\nthread\nst 1\nfence st\nfence ld\nld 0\nend\n";

const TWO_STORES: &[u8] = b"mtest 1\nwords 1\nthread\nst 0\nst 0\nld 0\nend\n";

const EMPTY_THREADS: &[u8] =
    b"mtest 1\nwords 1\nthread\nthread\nst 0\nld 0\nthread\nthread\nst 0\nthread\nend\n";

const NO_OPERATIONS: &[u8] = b"mtest 1\nwords 1\nthread\nend\n";

const T0: Step = Step::Execute { thread: 0 };

const T1: Step = Step::Execute { thread: 1 };

const T3: Step = Step::Execute { thread: 3 };

/// A schedule, what comes of it, and the values of the loads behind it.
struct Played {
    test: &'static [u8],
    fault: Fault,
    steps: &'static [Step],
    outcome: Result<(), PlayFault>,
    loads: &'static [u32],
}

const PLAYED: [Played; 21] = [
    Played {
        test: STORE_BUFFERING,
        fault: Fault::None,
        steps: &[T0, T1, T0, T1],
        outcome: Ok(()),
        loads: &[2, 1],
    },
    Played {
        test: STORE_BUFFERING,
        fault: Fault::None,
        steps: &[T0, T0, T0],
        outcome: Err(PlayFault::NotEnabled { place: 2 }),
        loads: &[0, 0],
    },
    Played {
        test: STORE_BUFFERING,
        fault: Fault::None,
        steps: &[T0, T1],
        outcome: Err(PlayFault::Unfinished),
        loads: &[0, 0],
    },
    Played {
        test: STORE_BUFFERING,
        fault: Fault::None,
        steps: &[],
        outcome: Err(PlayFault::Unfinished),
        loads: &[0, 0],
    },
    Played {
        test: STORE_BUFFERING,
        fault: Fault::None,
        steps: &[T1, T0, T1],
        outcome: Err(PlayFault::Unfinished),
        loads: &[0, 1],
    },
    // A stale load, and the same schedule without it, or with a fault at no load or no node.
    Played {
        test: STORE_BUFFERING,
        fault: Fault::Stale { node: 3 },
        steps: &[T0, T0, T1, T1],
        outcome: Ok(()),
        loads: &[0, 0],
    },
    Played {
        test: STORE_BUFFERING,
        fault: Fault::None,
        steps: &[T0, T0, T1, T1],
        outcome: Ok(()),
        loads: &[0, 1],
    },
    Played {
        test: STORE_BUFFERING,
        fault: Fault::Stale { node: 0 },
        steps: &[T0, T0, T1, T1],
        outcome: Ok(()),
        loads: &[0, 1],
    },
    Played {
        test: STORE_BUFFERING,
        fault: Fault::Stale { node: 2047 },
        steps: &[T0, T0, T1, T1],
        outcome: Ok(()),
        loads: &[0, 1],
    },
    // The value before is that of the store before.
    Played {
        test: TWO_STORES,
        fault: Fault::Stale { node: 2 },
        steps: &[T0, T0, T0],
        outcome: Ok(()),
        loads: &[1],
    },
    Played {
        test: TWO_STORES,
        fault: Fault::None,
        steps: &[T0, T0, T0],
        outcome: Ok(()),
        loads: &[2],
    },
    // Fences of each kind do nothing.
    Played {
        test: FENCED,
        fault: Fault::None,
        steps: &[T0, T1, T0, T1, T0, T1, T1],
        outcome: Ok(()),
        loads: &[2, 1],
    },
    Played {
        test: FENCED,
        fault: Fault::None,
        steps: &[T0, T0, T0, T1, T1, T1],
        outcome: Err(PlayFault::Unfinished),
        loads: &[0, 0],
    },
    // Steps that this machine doesn't have.
    Played {
        test: STORE_BUFFERING,
        fault: Fault::None,
        steps: &[
            T0,
            Step::Drain {
                thread: 0,
                place: 0,
            },
        ],
        outcome: Err(PlayFault::NotEnabled { place: 1 }),
        loads: &[0, 0],
    },
    Played {
        test: STORE_BUFFERING,
        fault: Fault::None,
        steps: &[Step::Perform {
            thread: 0,
            index: 0,
        }],
        outcome: Err(PlayFault::NotEnabled { place: 0 }),
        loads: &[0, 0],
    },
    // Threads that aren't there.
    Played {
        test: STORE_BUFFERING,
        fault: Fault::None,
        steps: &[T0, T0, T1, T1, Step::Execute { thread: 2 }],
        outcome: Err(PlayFault::NotEnabled { place: 4 }),
        loads: &[0, 1],
    },
    Played {
        test: STORE_BUFFERING,
        fault: Fault::None,
        steps: &[Step::Execute { thread: 4294967295 }],
        outcome: Err(PlayFault::NotEnabled { place: 0 }),
        loads: &[0, 0],
    },
    // Threads without operations.
    Played {
        test: EMPTY_THREADS,
        fault: Fault::None,
        steps: &[T0],
        outcome: Err(PlayFault::NotEnabled { place: 0 }),
        loads: &[0],
    },
    Played {
        test: EMPTY_THREADS,
        fault: Fault::None,
        steps: &[T1, T3, T1],
        outcome: Ok(()),
        loads: &[2],
    },
    Played {
        test: NO_OPERATIONS,
        fault: Fault::None,
        steps: &[],
        outcome: Ok(()),
        loads: &[],
    },
    Played {
        test: NO_OPERATIONS,
        fault: Fault::None,
        steps: &[T0],
        outcome: Err(PlayFault::NotEnabled { place: 0 }),
        loads: &[],
    },
];

fn read_test(alloc: Global, text: &[u8]) -> Result<Test, TestFault> {
    Ok(Test::read(alloc, text)?.test)
}

/// Plays the schedule twice, from the opening state and from that to which the machine was brought back.
fn comes_out(alloc: Global, played: &Played) -> Result<bool, TestFault> {
    let test = read_test(alloc, played.test)?;
    if !fits(Target::Sc, played.fault) {
        return Ok(false);
    }
    let Ok(mut machine) = ScMachine::new(alloc, &test, played.fault) else {
        return Err(TestFault::Memory);
    };
    let outcome = play_schedule(&mut machine, played.steps);
    let first = outcome == played.outcome && machine.loads() == played.loads;
    no_false_alarm(&machine);
    machine.reset();
    let outcome = play_schedule(&mut machine, played.steps);
    let second = outcome == played.outcome && machine.loads() == played.loads;
    machine.reset();
    let cleared = machine.loads().iter().all(|value| *value == 0);
    Ok(first && second && cleared)
}

#[test]
fn schedules_come_out(rt: HostRuntime) -> Result<(), Fail> {
    for played in &PLAYED {
        assert!(rt; comes_out(rt.alloc(), played)?);
    }
    Ok(())
}

/// What a machine answers behind each of some steps: whether it is done, and its choices.
fn answers<M: Machine>(
    alloc: Global,
    machine: &M,
    done: bool,
    choices: &[Step],
) -> Result<bool, AllocError> {
    let mut found = Vec::new(alloc);
    for k in 0..machine.count() {
        found.push(machine.choice(k))?;
    }
    Ok(machine.done() == done && found.as_slice() == choices)
}

/// The choices behind each of the steps, the first behind none.
struct Walk {
    test: &'static [u8],
    steps: &'static [Step],
    choices: &'static [&'static [Step]],
}

const WALKS: [Walk; 3] = [
    Walk {
        test: STORE_BUFFERING,
        steps: &[T1, T0, T0, T1],
        choices: &[&[T0, T1], &[T0, T1], &[T0, T1], &[T1], &[]],
    },
    Walk {
        test: EMPTY_THREADS,
        steps: &[T1, T1, T3],
        choices: &[&[T1, T3], &[T1, T3], &[T3], &[]],
    },
    Walk {
        test: NO_OPERATIONS,
        steps: &[],
        choices: &[&[]],
    },
];

fn walks(alloc: Global, walk: &Walk) -> Result<bool, TestFault> {
    let test = read_test(alloc, walk.test)?;
    let Ok(mut machine) = ScMachine::new(alloc, &test, Fault::None) else {
        return Err(TestFault::Memory);
    };
    let mut good = true;
    for (place, choices) in walk.choices.iter().enumerate() {
        let done = place == walk.steps.len();
        let Ok(answered) = answers(alloc, &machine, done, choices) else {
            return Err(TestFault::Memory);
        };
        good &= answered;
        if let Some(step) = walk.steps.get(place) {
            if !machine.enabled(*step) {
                return Ok(false);
            }
            machine.step(*step);
        }
    }
    Ok(good)
}

#[test]
fn choices_are_in_order(rt: HostRuntime) -> Result<(), Fail> {
    for walk in &WALKS {
        assert!(rt; walks(rt.alloc(), walk)?);
    }
    Ok(())
}
