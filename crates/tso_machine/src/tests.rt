//! Tests of schedules that are played, by hand-made tables, and of choices.
ghost use Rattle.std.specs.Prelude.{[]};

use crate::{PsoMachine, TsoMachine};
use sim_core::{Machine, PlayFault, no_false_alarm, play_schedule};
use std::alloc::{AllocError, Global};
use std::test::Fail;
use test_lang::op::Op;
use test_lang::step::Step;
use test_lang::target::{Fault, Target, fits};
use test_lang::test::{MAX_OPS, MAX_THREADS, Test};
use test_lang::text::fault::TestFault;

const STORE_BUFFERING: &[u8] = b"mtest 1\nwords 2\nthread\nst 0\nld 1\nthread\nst 1\nld 0\nend\n";

const STORE_BUFFERING_FENCES: &[u8] =
    b"mtest 1\nwords 2\nthread\nst 0\nfence\nld 1\nthread\nst 1\nfence\nld 0\nend\n";

const MESSAGE_PASSING: &[u8] = b"mtest 1\nwords 2\nthread\nst 0\nst 1\nthread\nld 1\nld 0\nend\n";

const MESSAGE_PASSING_FENCES: &[u8] =
    b"mtest 2\nwords 2\nthread\nst 0\nfence st\nst 1\nthread\nld 1\nfence ld\nld 0\nend\n";

const FORWARDING: &[u8] = b"mtest 1\nwords 1\nthread\nst 0\nld 0\nend\n";

const OWN_STORES: &[u8] = b"mtest 1\nwords 1\nthread\nst 0\nst 0\nld 0\nend\n";

const T0: Step = Step::Execute { thread: 0 };

const T1: Step = Step::Execute { thread: 1 };

/// The oldest entry of the first thread leaves, the one behind it, and the one behind that.
const D0: Step = Step::Drain {
    thread: 0,
    place: 0,
};

const D0_1: Step = Step::Drain {
    thread: 0,
    place: 1,
};

const D0_2: Step = Step::Drain {
    thread: 0,
    place: 2,
};

const D1: Step = Step::Drain {
    thread: 1,
    place: 0,
};

/// A schedule, what comes of it, and the values of the loads behind it.
struct Played {
    target: Target,
    test: &'static [u8],
    fault: Fault,
    steps: &'static [Step],
    outcome: Result<(), PlayFault>,
    loads: &'static [u32],
}

const PLAYED: [Played; 31] = [
    // Both stores reach memory behind the loads.
    Played {
        target: Target::Tso,
        test: STORE_BUFFERING,
        fault: Fault::None,
        steps: &[T0, T1, T0, T1, D0, D1],
        outcome: Ok(()),
        loads: &[0, 0],
    },
    // A store passes an older one with a fault alone.
    Played {
        target: Target::Tso,
        test: MESSAGE_PASSING,
        fault: Fault::Unordered,
        steps: &[T0, T0, D0_1, T1, T1, D0],
        outcome: Ok(()),
        loads: &[2, 0],
    },
    Played {
        target: Target::Tso,
        test: MESSAGE_PASSING,
        fault: Fault::None,
        steps: &[T0, T0, D0_1, T1, T1, D0],
        outcome: Err(PlayFault::NotEnabled { place: 2 }),
        loads: &[0, 0],
    },
    // A load finds the store of its thread in the buffer, but for a fault. A stale load gives the value before where it reads memory alone.
    Played {
        target: Target::Tso,
        test: FORWARDING,
        fault: Fault::NoForward,
        steps: &[T0, T0, D0],
        outcome: Ok(()),
        loads: &[0],
    },
    Played {
        target: Target::Tso,
        test: FORWARDING,
        fault: Fault::None,
        steps: &[T0, T0, D0],
        outcome: Ok(()),
        loads: &[1],
    },
    Played {
        target: Target::Tso,
        test: FORWARDING,
        fault: Fault::Stale { node: 1 },
        steps: &[T0, T0, D0],
        outcome: Ok(()),
        loads: &[1],
    },
    Played {
        target: Target::Tso,
        test: FORWARDING,
        fault: Fault::Stale { node: 1 },
        steps: &[T0, D0, T0],
        outcome: Ok(()),
        loads: &[0],
    },
    Played {
        target: Target::Tso,
        test: FORWARDING,
        fault: Fault::None,
        steps: &[T0, D0, T0],
        outcome: Ok(()),
        loads: &[1],
    },
    // A fence waits for its thread's buffer, but for a fault.
    Played {
        target: Target::Tso,
        test: STORE_BUFFERING_FENCES,
        fault: Fault::NoFence,
        steps: &[T0, T0, T0, T1, T1, T1, D0, D1],
        outcome: Ok(()),
        loads: &[0, 0],
    },
    Played {
        target: Target::Tso,
        test: STORE_BUFFERING_FENCES,
        fault: Fault::None,
        steps: &[T0, T0, T0, T1, T1, T1, D0, D1],
        outcome: Err(PlayFault::NotEnabled { place: 1 }),
        loads: &[0, 0],
    },
    Played {
        target: Target::Tso,
        test: STORE_BUFFERING_FENCES,
        fault: Fault::None,
        steps: &[T0, D0, T0, T0, T1, D1, T1, T1],
        outcome: Ok(()),
        loads: &[0, 1],
    },
    // The newest store of the buffer is read.
    Played {
        target: Target::Tso,
        test: OWN_STORES,
        fault: Fault::None,
        steps: &[T0, T0, T0, D0, D0],
        outcome: Ok(()),
        loads: &[2],
    },
    Played {
        target: Target::Tso,
        test: OWN_STORES,
        fault: Fault::None,
        steps: &[T0, T0, D0, T0, D0],
        outcome: Ok(()),
        loads: &[2],
    },
    Played {
        target: Target::Tso,
        test: OWN_STORES,
        fault: Fault::Unordered,
        steps: &[T0, T0, D0_1, T0, D0],
        outcome: Ok(()),
        loads: &[1],
    },
    // A store fence goes through the buffer, but for a fault.
    Played {
        target: Target::Tso,
        test: MESSAGE_PASSING_FENCES,
        fault: Fault::None,
        steps: &[T0, T0, T0, D0, D0, D0, T1, T1, T1],
        outcome: Ok(()),
        loads: &[2, 1],
    },
    Played {
        target: Target::Tso,
        test: MESSAGE_PASSING_FENCES,
        fault: Fault::None,
        steps: &[T0, T0, T0, D0, D0, T1, T1, T1],
        outcome: Err(PlayFault::Unfinished),
        loads: &[0, 1],
    },
    Played {
        target: Target::Tso,
        test: MESSAGE_PASSING_FENCES,
        fault: Fault::NoFence,
        steps: &[T0, T0, T0, D0, D0, T1, T1, T1],
        outcome: Ok(()),
        loads: &[2, 1],
    },
    // An entry is left.
    Played {
        target: Target::Tso,
        test: FORWARDING,
        fault: Fault::None,
        steps: &[T0, T0],
        outcome: Err(PlayFault::Unfinished),
        loads: &[1],
    },
    // Steps that the machine doesn't have, or not now.
    Played {
        target: Target::Tso,
        test: FORWARDING,
        fault: Fault::None,
        steps: &[Step::Perform {
            thread: 0,
            index: 0,
        }],
        outcome: Err(PlayFault::NotEnabled { place: 0 }),
        loads: &[0],
    },
    Played {
        target: Target::Tso,
        test: FORWARDING,
        fault: Fault::None,
        steps: &[D0],
        outcome: Err(PlayFault::NotEnabled { place: 0 }),
        loads: &[0],
    },
    Played {
        target: Target::Tso,
        test: FORWARDING,
        fault: Fault::Unordered,
        steps: &[T0, T0, D0_1],
        outcome: Err(PlayFault::NotEnabled { place: 2 }),
        loads: &[1],
    },
    Played {
        target: Target::Tso,
        test: FORWARDING,
        fault: Fault::None,
        steps: &[T0, T1],
        outcome: Err(PlayFault::NotEnabled { place: 1 }),
        loads: &[0],
    },
    Played {
        target: Target::Tso,
        test: FORWARDING,
        fault: Fault::None,
        steps: &[T0, D1],
        outcome: Err(PlayFault::NotEnabled { place: 1 }),
        loads: &[0],
    },
    Played {
        target: Target::Tso,
        test: FORWARDING,
        fault: Fault::None,
        steps: &[T0, T0, D0, T0],
        outcome: Err(PlayFault::NotEnabled { place: 3 }),
        loads: &[1],
    },
    // Stores to different words pass each other.
    Played {
        target: Target::Pso,
        test: MESSAGE_PASSING,
        fault: Fault::None,
        steps: &[T0, T0, D0_1, T1, T1, D0],
        outcome: Ok(()),
        loads: &[2, 0],
    },
    // Stores to one word don't, but for a fault.
    Played {
        target: Target::Pso,
        test: OWN_STORES,
        fault: Fault::None,
        steps: &[T0, T0, D0_1],
        outcome: Err(PlayFault::NotEnabled { place: 2 }),
        loads: &[0],
    },
    Played {
        target: Target::Pso,
        test: OWN_STORES,
        fault: Fault::Unordered,
        steps: &[T0, T0, D0_1, T0, D0],
        outcome: Ok(()),
        loads: &[1],
    },
    // Nothing passes a store fence, and it passes nothing, but for a fault.
    Played {
        target: Target::Pso,
        test: MESSAGE_PASSING_FENCES,
        fault: Fault::None,
        steps: &[T0, T0, T0, D0_2, T1, T1, T1, D0, D0],
        outcome: Err(PlayFault::NotEnabled { place: 3 }),
        loads: &[0, 0],
    },
    Played {
        target: Target::Pso,
        test: MESSAGE_PASSING_FENCES,
        fault: Fault::None,
        steps: &[T0, T0, D0_1],
        outcome: Err(PlayFault::NotEnabled { place: 2 }),
        loads: &[0, 0],
    },
    Played {
        target: Target::Pso,
        test: MESSAGE_PASSING_FENCES,
        fault: Fault::None,
        steps: &[T0, T0, D0, D0, T0, D0, T1, T1, T1],
        outcome: Ok(()),
        loads: &[2, 1],
    },
    Played {
        target: Target::Pso,
        test: MESSAGE_PASSING_FENCES,
        fault: Fault::NoFence,
        steps: &[T0, T0, T0, D0_1, T1, T1, T1, D0],
        outcome: Ok(()),
        loads: &[2, 0],
    },
];

fn read_test(alloc: Global, text: &[u8]) -> Result<Test, TestFault> {
    Ok(Test::read(alloc, text)?.test)
}

/// Plays the schedule twice, from the opening state and from that to which the machine was brought back.
fn comes_out<M: Machine>(machine: &mut M, played: &Played) -> bool
    requires { M.stands machine.old [] }
{
    let outcome = play_schedule(machine, played.steps);
    let first = outcome == played.outcome && machine.loads() == played.loads;
    no_false_alarm(machine);
    machine.reset();
    let outcome = play_schedule(machine, played.steps);
    let second = outcome == played.outcome && machine.loads() == played.loads;
    machine.reset();
    first && second && machine.loads().iter().all(|value| *value == 0)
}

fn comes_out_on_its_machine(alloc: Global, played: &Played) -> Result<bool, TestFault> {
    let test = read_test(alloc, played.test)?;
    match played.target {
        Target::Tso if fits(Target::Tso, played.fault) => {
            let Ok(mut machine) = TsoMachine::new(alloc, &test, played.fault) else {
                return Err(TestFault::Memory);
            };
            Ok(comes_out(&mut machine, played))
        }
        Target::Pso if fits(Target::Pso, played.fault) => {
            let Ok(mut machine) = PsoMachine::new(alloc, &test, played.fault) else {
                return Err(TestFault::Memory);
            };
            Ok(comes_out(&mut machine, played))
        }
        _ => Ok(false),
    }
}

#[test]
fn schedules_come_out(rt: HostRuntime) -> Result<(), Fail> {
    for played in &PLAYED {
        assert!(rt; comes_out_on_its_machine(rt.alloc(), played)?);
    }
    Ok(())
}

/// The choices behind each of the steps, the first behind none.
struct Walk {
    target: Target,
    test: &'static [u8],
    fault: Fault,
    steps: &'static [Step],
    choices: &'static [&'static [Step]],
}

const WALKS: [Walk; 5] = [
    Walk {
        target: Target::Tso,
        test: STORE_BUFFERING,
        fault: Fault::None,
        steps: &[T0, T0, T1, D1, T1, D0],
        choices: &[
            &[T0, T1],
            &[T0, D0, T1],
            &[D0, T1],
            &[D0, T1, D1],
            &[D0, T1],
            &[D0],
            &[],
        ],
    },
    Walk {
        target: Target::Tso,
        test: STORE_BUFFERING_FENCES,
        fault: Fault::None,
        steps: &[T0, D0, T0],
        choices: &[&[T0, T1], &[D0, T1], &[T0, T1], &[T0, T1]],
    },
    Walk {
        target: Target::Tso,
        test: MESSAGE_PASSING_FENCES,
        fault: Fault::Unordered,
        steps: &[T0, T0, T0, D0_1],
        choices: &[
            &[T0, T1],
            &[T0, D0, T1],
            &[T0, D0, D0_1, T1],
            &[D0, D0_1, D0_2, T1],
            &[D0, D0_1, T1],
        ],
    },
    Walk {
        target: Target::Pso,
        test: MESSAGE_PASSING,
        fault: Fault::None,
        steps: &[T0, T0, D0_1],
        choices: &[&[T0, T1], &[T0, D0, T1], &[D0, D0_1, T1], &[D0, T1]],
    },
    Walk {
        target: Target::Pso,
        test: MESSAGE_PASSING_FENCES,
        fault: Fault::None,
        steps: &[T0, T0, T0, D0, D0],
        choices: &[
            &[T0, T1],
            &[T0, D0, T1],
            &[T0, D0, T1],
            &[D0, T1],
            &[D0, T1],
            &[D0, T1],
        ],
    },
];

/// Whether the machine answers so: whether it is done, and its choices.
fn answers<M: Machine>(
    alloc: Global,
    machine: &M,
    done: bool,
    choices: &[Step],
) -> Result<bool, AllocError> {
    let mut found = Vec::new(alloc);
    for k in 0..machine.count() {
        found.push(machine.choice(k))?;
    }
    Ok(machine.done() == done && found.as_slice() == choices)
}

fn walks<M: Machine>(alloc: Global, machine: &mut M, walk: &Walk) -> Result<bool, AllocError> {
    let mut good = true;
    for (place, choices) in walk.choices.iter().enumerate() {
        good &= answers(alloc, machine, choices.is_empty(), choices)?;
        if let Some(step) = walk.steps.get(place) {
            if !machine.enabled(*step) {
                return Ok(false);
            }
            machine.step(*step);
        }
    }
    Ok(good)
}

fn walks_on_its_machine(alloc: Global, walk: &Walk) -> Result<Result<bool, AllocError>, TestFault> {
    let test = read_test(alloc, walk.test)?;
    match walk.target {
        Target::Tso if fits(Target::Tso, walk.fault) => {
            let Ok(mut machine) = TsoMachine::new(alloc, &test, walk.fault) else {
                return Err(TestFault::Memory);
            };
            Ok(walks(alloc, &mut machine, walk))
        }
        Target::Pso if fits(Target::Pso, walk.fault) => {
            let Ok(mut machine) = PsoMachine::new(alloc, &test, walk.fault) else {
                return Err(TestFault::Memory);
            };
            Ok(walks(alloc, &mut machine, walk))
        }
        _ => Ok(Ok(false)),
    }
}

#[test]
fn choices_are_in_order(rt: HostRuntime) -> Result<(), Fail> {
    for walk in &WALKS {
        assert!(rt; walks_on_its_machine(rt.alloc(), walk)??);
    }
    Ok(())
}

/// Adds the operation to the last thread, if there may be one more.
fn add(test: &mut Test, op: Op) -> Result<(), AllocError> {
    if test.ops() < MAX_OPS && test.threads() > 0 && test.has_word(op) {
        test.add_op(op)?;
    }
    Ok(())
}

fn add_thread(test: &mut Test) -> Result<(), AllocError> {
    if test.threads() < MAX_THREADS {
        test.add_thread()?;
    }
    Ok(())
}

/// As many stores to one word as there may be beside a load of a second thread.
fn many_stores(alloc: Global) -> Result<Test, AllocError> {
    let mut test = Test::new(alloc, 1);
    add_thread(&mut test)?;
    for _ in 1..MAX_OPS {
        add(&mut test, Op::Store { word: 0 })?;
    }
    add_thread(&mut test)?;
    add(&mut test, Op::Load { word: 0 })?;
    Ok(test)
}

/// Takes the step if it is enabled.
fn take<M: Machine>(machine: &mut M, step: Step) -> bool {
    if !machine.enabled(step) {
        return false;
    }
    machine.step(step);
    true
}

/// Executes all stores, drains them from the newest or from the oldest on, and loads the word: whether all steps were enabled and all is done.
fn drains<M: Machine>(machine: &mut M, newest: bool) -> bool {
    let mut good = true;
    for _ in 1..MAX_OPS {
        good &= take(machine, T0);
    }
    for left in 1..MAX_OPS {
        let place = if newest { MAX_OPS - 1 - left } else { 0 };
        good &= take(machine, Step::Drain { thread: 0, place });
    }
    good && take(machine, T1) && machine.done()
}

/// The value that the load gives, if all came out.
fn last_drained(alloc: Global, newest: bool) -> Result<Option<u32>, AllocError> {
    let test = many_stores(alloc)?;
    let mut machine = TsoMachine::new(alloc, &test, Fault::Unordered)?;
    if !drains(&mut machine, newest) {
        return Ok(None);
    }
    Ok(machine.loads().first().copied())
}

#[test]
fn full_buffer_is_drained_from_each_end(rt: HostRuntime) -> Result<(), Fail> {
    assert!(rt; last_drained(rt.alloc(), true)? == Some(1));
    assert!(rt; last_drained(rt.alloc(), false)? == Some(MAX_OPS - 1));
    Ok(())
}
