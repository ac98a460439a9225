//! Tests of every lookup, at every node, thread, rank, value and fence of a few tests.

use crate::op::{Action, FenceKind, Op};
use crate::test::{LAST_VERSION, MAX_OPS, MAX_THREADS, MAX_WORDS, Test};
use std::alloc::Global;
use std::process::Abort;
use std::test::Fail;

const FULL: Action = Action::Fence {
    kind: FenceKind::Full,
};

const STORE_FENCE: Action = Action::Fence {
    kind: FenceKind::Store,
};

const LOAD_FENCE: Action = Action::Fence {
    kind: FenceKind::Load,
};

/// A test, and what its lookups answer.
struct Case {
    version: u32,
    words: u32,
    threads: &'static [&'static [Action]],
    /// The number of operations.
    ops: u32,
    /// The first node of each thread.
    first_nodes: &'static [u32],
    /// The nodes of the loads, by rank.
    loads: &'static [u32],
    /// The nodes of the stores, by value.
    stores: &'static [u32],
    /// The nodes of the fences, each with its kind.
    fences: &'static [(u32, FenceKind)],
}

const CASES: [Case; 8] = [
    // No thread.
    Case {
        version: 1,
        words: 1,
        threads: &[],
        ops: 0,
        first_nodes: &[],
        loads: &[],
        stores: &[],
        fences: &[],
    },
    // No operation.
    Case {
        version: 1,
        words: 256,
        threads: &[&[], &[]],
        ops: 0,
        first_nodes: &[0, 0],
        loads: &[],
        stores: &[],
        fences: &[],
    },
    // No load and no store.
    Case {
        version: 1,
        words: 1,
        threads: &[&[FULL, FULL]],
        ops: 2,
        first_nodes: &[0],
        loads: &[],
        stores: &[],
        fences: &[(0, FenceKind::Full), (1, FenceKind::Full)],
    },
    // Store buffering.
    Case {
        version: 1,
        words: 2,
        threads: &[
            &[Action::Store { word: 0 }, Action::Load { word: 1 }],
            &[Action::Store { word: 1 }, Action::Load { word: 0 }],
        ],
        ops: 4,
        first_nodes: &[0, 2],
        loads: &[1, 3],
        stores: &[0, 2],
        fences: &[],
    },
    // Empty threads in the middle and at the end, and fences.
    Case {
        version: 1,
        words: 3,
        threads: &[
            &[
                Action::Store { word: 0 },
                FULL,
                Action::Load { word: 1 },
                Action::Load { word: 2 },
            ],
            &[],
            &[
                Action::Load { word: 0 },
                Action::Store { word: 2 },
                Action::Store { word: 0 },
                FULL,
            ],
            &[FULL, Action::Load { word: 0 }],
            &[],
        ],
        ops: 10,
        first_nodes: &[0, 4, 4, 8, 10],
        loads: &[2, 3, 4, 9],
        stores: &[0, 5, 6],
        fences: &[
            (1, FenceKind::Full),
            (7, FenceKind::Full),
            (8, FenceKind::Full),
        ],
    },
    // Empty threads at the beginning, and the last word.
    Case {
        version: 1,
        words: 256,
        threads: &[&[], &[], &[Action::Store { word: 255 }]],
        ops: 1,
        first_nodes: &[0, 0, 0],
        loads: &[],
        stores: &[0],
        fences: &[],
    },
    // Version 2 without a fence of its own.
    Case {
        version: 2,
        words: 1,
        threads: &[&[FULL, Action::Load { word: 0 }]],
        ops: 2,
        first_nodes: &[0],
        loads: &[1],
        stores: &[],
        fences: &[(0, FenceKind::Full)],
    },
    // Fences of all kinds.
    Case {
        version: 2,
        words: 2,
        threads: &[
            &[
                Action::Store { word: 0 },
                STORE_FENCE,
                Action::Store { word: 1 },
            ],
            &[
                Action::Load { word: 1 },
                LOAD_FENCE,
                Action::Load { word: 0 },
                FULL,
                STORE_FENCE,
            ],
        ],
        ops: 8,
        first_nodes: &[0, 3],
        loads: &[3, 5],
        stores: &[0, 2],
        fences: &[
            (1, FenceKind::Store),
            (4, FenceKind::Load),
            (6, FenceKind::Full),
            (7, FenceKind::Store),
        ],
    },
];

/// Adds the action, a full fence by `add_op`.
fn add_one(rt: &impl Abort, test: &mut Test, action: Action) -> Result<(), Fail> {
    assert!(rt; test.threads() > 0 && test.ops() < MAX_OPS);
    match action {
        Action::Load { word } => {
            assert!(rt; word < test.words());
            test.add_op(Op::Load { word })?;
        }
        Action::Store { word } => {
            assert!(rt; word < test.words());
            test.add_op(Op::Store { word })?;
        }
        Action::Fence {
            kind: FenceKind::Full,
        } => test.add_op(Op::Fence)?,
        Action::Fence { kind } => {
            assert!(rt; test.allows_kind(kind));
            test.add_fence(kind)?;
        }
    }
    Ok(())
}

fn add(rt: &impl Abort, test: &mut Test, actions: &[Action]) -> Result<(), Fail> {
    assert!(rt; test.threads() < MAX_THREADS);
    test.add_thread()?;
    for action in actions {
        add_one(rt, test, *action)?;
    }
    Ok(())
}

/// A test of version 1 by `new`, and of version 2 by `new_version`.
fn begin(rt: &impl Abort, alloc: Global, version: u32, words: u32) -> Test {
    assert!(rt; 1 <= version && version <= LAST_VERSION);
    assert!(rt; 1 <= words && words <= MAX_WORDS);
    if version == 1 {
        Test::new(alloc, words)
    } else {
        Test::new_version(alloc, version, words)
    }
}

pub(crate) fn build(
    rt: &impl Abort,
    alloc: Global,
    version: u32,
    words: u32,
    threads: &[&[Action]],
) -> Result<Test, Fail> {
    let mut test = begin(rt, alloc, version, words);
    for actions in threads {
        add(rt, &mut test, actions)?;
    }
    Ok(test)
}

// Each of the next five alone makes its calls, and hands their answers on without clauses.

/// The first node of a thread, and its number of operations.
fn thread_answers(rt: &impl Abort, test: &Test, thread: u32) -> (u32, u32) {
    assert!(rt; thread < test.threads());
    (test.first_of(thread), test.len_of(thread))
}

/// The action of a node, its operation, and its thread.
fn node_answers(rt: &impl Abort, test: &Test, node: u32) -> (Action, Op, u32) {
    assert!(rt; node < test.ops());
    (test.action(node), test.op(node), test.thread_of(node))
}

/// The kind of a fence.
fn kind_answer(rt: &impl Abort, test: &Test, node: u32) -> FenceKind {
    assert!(rt; node < test.ops());
    assert!(rt; test.op(node) == Op::Fence);
    test.fence_kind(node)
}

/// The operation that an action is.
fn op_of(action: Action) -> Op {
    match action {
        Action::Load { word } => Op::Load { word },
        Action::Store { word } => Op::Store { word },
        Action::Fence { .. } => Op::Fence,
    }
}

/// The node of a load, and the rank of that.
fn load_answers(rt: &impl Abort, test: &Test, rank: u32) -> (u32, u32) {
    assert!(rt; rank < test.loads());
    let node = test.load_at(rank);
    (node, test.rank_of(node))
}

/// The node of a store, and the value of that.
fn store_answers(rt: &impl Abort, test: &Test, value: u32) -> (u32, u32) {
    assert!(rt; 1 <= value && value <= test.stores());
    let node = test.store_of(value);
    (node, test.value_of(node))
}

/// Checks the actions and the first node of each thread.
pub(crate) fn check_threads(
    rt: &impl Abort,
    test: &Test,
    threads: &[&[Action]],
    first_nodes: &[u32],
) {
    assert!(rt; test.threads() as usize == threads.len());
    assert!(rt; first_nodes.len() == threads.len());
    let mut thread = 0;
    let mut node = 0;
    for (actions, first) in threads.iter().zip(first_nodes) {
        assert!(rt; node == *first);
        let (begin, len) = thread_answers(rt, test, thread);
        assert!(rt; begin == node && len as usize == actions.len());
        for action in actions.iter() {
            assert!(rt; node_answers(rt, test, node) == (*action, op_of(*action), thread));
            node = node.saturating_add(1);
        }
        thread = thread.saturating_add(1);
    }
}

fn check_loads(rt: &impl Abort, test: &Test, loads: &[u32]) {
    assert!(rt; test.loads() as usize == loads.len());
    let mut rank: u32 = 0;
    for node in loads {
        assert!(rt; load_answers(rt, test, rank) == (*node, rank));
        rank = rank.saturating_add(1);
    }
}

fn check_stores(rt: &impl Abort, test: &Test, stores: &[u32]) {
    assert!(rt; test.stores() as usize == stores.len());
    let mut value: u32 = 1;
    for node in stores {
        assert!(rt; store_answers(rt, test, value) == (*node, value));
        value = value.saturating_add(1);
    }
}

fn check_fences(rt: &impl Abort, test: &Test, fences: &[(u32, FenceKind)]) {
    for (node, kind) in fences {
        assert!(rt; kind_answer(rt, test, *node) == *kind);
    }
}

fn check(rt: &impl Abort, test: &Test, case: &Case) {
    assert!(rt; test.version() == case.version);
    assert!(rt; test.words() == case.words);
    assert!(rt; test.ops() == case.ops);
    check_threads(rt, test, case.threads, case.first_nodes);
    check_loads(rt, test, case.loads);
    check_stores(rt, test, case.stores);
    check_fences(rt, test, case.fences);
}

#[test]
fn lookups(rt: HostRuntime) -> Result<(), Fail> {
    for case in &CASES {
        let test = build(&rt, rt.alloc(), case.version, case.words, case.threads)?;
        check(&rt, &test, case);
        check(&rt, &test.clone()?, case);
    }
    Ok(())
}
