//! Tests of plays: what they may do, in which order the choices stand, and what the loads give.

use crate::WeakMachine;
use sim_core::{Machine, no_false_alarm};
use std::alloc::{AllocError, Global};
use std::process::Abort;
use std::test::Fail;
use test_lang::op::{Action, FenceKind};
use test_lang::step::Step;
use test_lang::target::{Fault, Target, fits};
use test_lang::test::{MAX_OPS, MAX_THREADS, Test};

const ST_0: Action = Action::Store { word: 0 };

const ST_1: Action = Action::Store { word: 1 };

const LD_0: Action = Action::Load { word: 0 };

const LD_1: Action = Action::Load { word: 1 };

const FENCE: Action = Action::Fence {
    kind: FenceKind::Full,
};

const FENCE_ST: Action = Action::Fence {
    kind: FenceKind::Store,
};

const FENCE_LD: Action = Action::Fence {
    kind: FenceKind::Load,
};

/// A test of two words, a fault, and steps, each a thread and an index.
struct Case {
    threads: &'static [&'static [Action]],
    fault: Fault,
    steps: &'static [(u32, u32)],
    /// The place of the first step that isn't enabled.
    refused: Option<u32>,
    /// The loads' values then.
    loads: &'static [u32],
    /// The choices then.
    choices: &'static [(u32, u32)],
}

const ONE_STORE_TWO_LOADS: &[&[Action]] = &[&[ST_0], &[LD_0, LD_0]];

const MESSAGE_PASSING: &[&[Action]] = &[&[ST_0, ST_1], &[LD_1, LD_0]];

const FULL_FENCES: &[&[Action]] = &[&[ST_0, FENCE, ST_1], &[LD_1, FENCE, LD_0]];

const STORE_FENCES: &[&[Action]] = &[&[ST_0, FENCE_ST, ST_1], &[LD_1, FENCE_ST, LD_0]];

const LOAD_FENCES: &[&[Action]] = &[&[ST_0, FENCE_LD, ST_1], &[LD_1, FENCE_LD, LD_0]];

const FENCE_TWO_LOADS: &[&[Action]] = &[&[FENCE_LD, LD_0, LD_0]];

const OWN_STORES: &[&[Action]] = &[&[ST_0, ST_0, LD_0]];

const CASES: [Case; 23] = [
    // Loads of one word wait for each other, unless a fault spares them.
    Case {
        threads: ONE_STORE_TWO_LOADS,
        fault: Fault::None,
        steps: &[(1, 1), (0, 0), (1, 0)],
        refused: Some(0),
        loads: &[0, 0],
        choices: &[(0, 0), (1, 0)],
    },
    Case {
        threads: ONE_STORE_TWO_LOADS,
        fault: Fault::LoadLoad,
        steps: &[(1, 1), (0, 0), (1, 0)],
        refused: None,
        loads: &[1, 0],
        choices: &[],
    },
    // Stores to two words, and loads of two, pass each other.
    Case {
        threads: MESSAGE_PASSING,
        fault: Fault::None,
        steps: &[(0, 1), (1, 0), (1, 1), (0, 0)],
        refused: None,
        loads: &[2, 0],
        choices: &[],
    },
    // No operation is performed twice.
    Case {
        threads: MESSAGE_PASSING,
        fault: Fault::None,
        steps: &[(0, 1), (1, 0), (0, 1)],
        refused: Some(2),
        loads: &[2, 0],
        choices: &[(0, 0), (1, 1)],
    },
    // Neither an index behind the last, nor a thread.
    Case {
        threads: MESSAGE_PASSING,
        fault: Fault::None,
        steps: &[(0, 0), (0, 2)],
        refused: Some(1),
        loads: &[0, 0],
        choices: &[(0, 1), (1, 0), (1, 1)],
    },
    Case {
        threads: MESSAGE_PASSING,
        fault: Fault::None,
        steps: &[(2, 0)],
        refused: Some(0),
        loads: &[0, 0],
        choices: &[(0, 0), (0, 1), (1, 0), (1, 1)],
    },
    // A full fence waits for all, and all wait for it.
    Case {
        threads: FULL_FENCES,
        fault: Fault::None,
        steps: &[(0, 1)],
        refused: Some(0),
        loads: &[0, 0],
        choices: &[(0, 0), (1, 0)],
    },
    Case {
        threads: FULL_FENCES,
        fault: Fault::None,
        steps: &[(0, 0), (1, 0), (1, 1), (1, 2), (0, 2)],
        refused: Some(4),
        loads: &[0, 1],
        choices: &[(0, 1)],
    },
    Case {
        threads: FULL_FENCES,
        fault: Fault::NoFence,
        steps: &[(0, 2), (1, 0), (1, 2), (0, 1), (0, 0)],
        refused: None,
        loads: &[2, 0],
        choices: &[(1, 1)],
    },
    // A store fence waits for stores alone.
    Case {
        threads: STORE_FENCES,
        fault: Fault::None,
        steps: &[(1, 2), (1, 1), (0, 2)],
        refused: Some(2),
        loads: &[0, 0],
        choices: &[(0, 0), (1, 0)],
    },
    Case {
        threads: STORE_FENCES,
        fault: Fault::None,
        steps: &[(0, 0), (0, 1), (0, 2), (1, 0), (1, 2), (1, 1)],
        refused: None,
        loads: &[2, 1],
        choices: &[],
    },
    Case {
        threads: STORE_FENCES,
        fault: Fault::NoFence,
        steps: &[(0, 2), (0, 1), (1, 0), (1, 2)],
        refused: None,
        loads: &[2, 0],
        choices: &[(0, 0), (1, 1)],
    },
    // A load fence waits for loads alone.
    Case {
        threads: LOAD_FENCES,
        fault: Fault::None,
        steps: &[(0, 2), (0, 1), (1, 2)],
        refused: Some(2),
        loads: &[0, 0],
        choices: &[(0, 0), (1, 0)],
    },
    Case {
        threads: LOAD_FENCES,
        fault: Fault::None,
        steps: &[(0, 2), (1, 0), (1, 1), (1, 2), (0, 0), (0, 1)],
        refused: None,
        loads: &[2, 0],
        choices: &[],
    },
    Case {
        threads: LOAD_FENCES,
        fault: Fault::LoadLoad,
        steps: &[(1, 2)],
        refused: Some(0),
        loads: &[0, 0],
        choices: &[(0, 0), (0, 1), (0, 2), (1, 0)],
    },
    Case {
        threads: LOAD_FENCES,
        fault: Fault::NoFence,
        steps: &[(1, 2), (0, 0), (0, 2), (1, 0)],
        refused: None,
        loads: &[2, 0],
        choices: &[(0, 1), (1, 1)],
    },
    // Where loads of one word are spared, the second still waits for a fence that both wait for.
    Case {
        threads: FENCE_TWO_LOADS,
        fault: Fault::LoadLoad,
        steps: &[(0, 2)],
        refused: Some(0),
        loads: &[0, 0],
        choices: &[(0, 0)],
    },
    // A load gives its own thread's last store where that wasn't performed, and memory's value where it was.
    Case {
        threads: OWN_STORES,
        fault: Fault::None,
        steps: &[(0, 0), (0, 2), (0, 1)],
        refused: None,
        loads: &[2],
        choices: &[],
    },
    Case {
        threads: OWN_STORES,
        fault: Fault::NoForward,
        steps: &[(0, 0), (0, 2), (0, 1)],
        refused: None,
        loads: &[1],
        choices: &[],
    },
    Case {
        threads: OWN_STORES,
        fault: Fault::None,
        steps: &[(0, 1)],
        refused: Some(0),
        loads: &[0],
        choices: &[(0, 0), (0, 2)],
    },
    // The value before, where the load reads memory.
    Case {
        threads: OWN_STORES,
        fault: Fault::Stale { node: 2 },
        steps: &[(0, 0), (0, 1), (0, 2)],
        refused: None,
        loads: &[1],
        choices: &[],
    },
    Case {
        threads: OWN_STORES,
        fault: Fault::Stale { node: 2 },
        steps: &[(0, 0), (0, 2), (0, 1)],
        refused: None,
        loads: &[2],
        choices: &[],
    },
    // No thread.
    Case {
        threads: &[],
        fault: Fault::None,
        steps: &[],
        refused: None,
        loads: &[],
        choices: &[],
    },
];

fn build(rt: &impl Abort, alloc: Global, threads: &[&[Action]]) -> Result<Test, Fail> {
    let mut test = Test::new_version(alloc, 2, 2);
    for actions in threads {
        assert!(rt; test.threads() < MAX_THREADS);
        test.add_thread()?;
        for action in actions.iter() {
            add(rt, &mut test, *action)?;
        }
    }
    Ok(test)
}

fn add(rt: &impl Abort, test: &mut Test, action: Action) -> Result<(), Fail> {
    assert!(rt; test.threads() > 0 && test.ops() < MAX_OPS);
    assert!(rt; test.has_word(action.op()));
    if let Action::Fence { kind } = action {
        assert!(rt; test.allows_kind(kind));
        test.add_fence(kind)?;
    } else {
        test.add_op(action.op())?;
    }
    Ok(())
}

fn machine_of(
    rt: &impl Abort,
    alloc: Global,
    test: &Test,
    fault: Fault,
) -> Result<WeakMachine, AllocError> {
    assert!(rt; fits(Target::Weak, fault));
    WeakMachine::new(alloc, test, fault)
}

/// Takes the steps up to the first that isn't enabled, and answers its place.
fn play<M: Machine>(machine: &mut M, steps: &[(u32, u32)]) -> Option<u32> {
    let mut place: u32 = 0;
    for (thread, index) in steps {
        let step = Step::Perform {
            thread: *thread,
            index: *index,
        };
        if !machine.enabled(step) {
            return Some(place);
        }
        machine.step(step);
        place = place.saturating_add(1);
    }
    None
}

/// The choice with a number.
fn choice_at<M: Machine>(rt: &impl Abort, machine: &M, k: u32) -> Step {
    assert!(rt; k < machine.count());
    machine.choice(k)
}

/// Whether the choices are these.
fn has_choices<M: Machine>(rt: &impl Abort, machine: &M, choices: &[(u32, u32)]) -> bool {
    if machine.count() as usize != choices.len() {
        return false;
    }
    let mut k: u32 = 0;
    for (thread, index) in choices {
        let step = Step::Perform {
            thread: *thread,
            index: *index,
        };
        if choice_at(rt, machine, k) != step || !machine.enabled(step) {
            return false;
        }
        k = k.saturating_add(1);
    }
    true
}

/// Whether the loads gave these values.
fn gives(machine: &WeakMachine, loads: &[u32]) -> bool {
    let given = machine.loads();
    given.len() == loads.len() && given.iter().zip(loads).all(|(value, load)| value == load)
}

fn check(rt: &impl Abort, machine: &mut WeakMachine, case: &Case) {
    assert!(rt; play(machine, case.steps) == case.refused);
    no_false_alarm(machine);
    assert!(rt; gives(machine, case.loads));
    assert!(rt; has_choices(rt, machine, case.choices));
    assert!(rt; machine.done() == case.choices.is_empty());
    assert!(rt; !machine.enabled(Step::Execute { thread: 0 }));
    assert!(rt;
        !machine.enabled(Step::Drain {
            thread: 0,
            place: 0
        })
    );
}

/// Each case is played twice, on one machine.
#[test]
fn plays(rt: HostRuntime) -> Result<(), Fail> {
    for case in &CASES {
        let test = build(&rt, rt.alloc(), case.threads)?;
        let mut machine = machine_of(&rt, rt.alloc(), &test, case.fault)?;
        check(&rt, &mut machine, case);
        machine.reset();
        check(&rt, &mut machine, case);
    }
    Ok(())
}

/// A thread of so many loads, of all words in turn.
fn loads_in_turn(rt: &impl Abort, alloc: Global) -> Result<Test, Fail> {
    let mut test = Test::new(alloc, 256);
    test.add_thread()?;
    for place in 0..MAX_OPS {
        add(rt, &mut test, Action::Load { word: place % 256 })?;
    }
    Ok(test)
}

/// Performs the least operation until none is left. Answers whether the choices were, each time, so many or all that are left, the first and the last of them those that stand there.
fn plays_in_turn(rt: &impl Abort, machine: &mut WeakMachine, at_once: u32) -> bool {
    for index in 0..MAX_OPS {
        let count = at_once.min(MAX_OPS - index);
        let more = count.saturating_sub(1);
        let first = Step::Perform { thread: 0, index };
        let last = Step::Perform {
            thread: 0,
            index: index + more,
        };
        if machine.count() != count || choice_at(rt, machine, more) != last {
            return false;
        }
        if choice_at(rt, machine, 0) != first || !machine.enabled(first) {
            return false;
        }
        machine.step(first);
    }
    machine.done()
}

#[test]
fn as_many_operations_as_a_test_has(rt: HostRuntime) -> Result<(), Fail> {
    let test = loads_in_turn(&rt, rt.alloc())?;
    let mut all = machine_of(&rt, rt.alloc(), &test, Fault::LoadLoad)?;
    assert!(rt; plays_in_turn(&rt, &mut all, MAX_OPS));
    let mut some = machine_of(&rt, rt.alloc(), &test, Fault::None)?;
    assert!(rt; plays_in_turn(&rt, &mut some, 256));
    Ok(())
}
