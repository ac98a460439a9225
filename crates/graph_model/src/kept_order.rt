//! The order of a thread that a memory model keeps.
ghost use Rattle.std.specs.Prelude.{◌≡◌, ◌<◌};
ghost use Rattle.test_lang.specs.Actions.{is_full_fence, is_store_fence, is_load_fence, is_store_like, is_load_like};
ghost use Rattle.test_lang.specs.Kept.{keeps, is_kept, is_store_load, are_stores_apart, is_word_kept, is_fenced};
ghost use Rattle.test_lang.specs.Program.{op_count};
ghost use Rattle.test_lang.specs.Values.{is_load, is_store, same_word};

use test_lang::op::{Action, FenceKind, MemModel, Op};
use test_lang::test::Test;

/// Whether both are loads or stores of one word.
pub(crate) fn same_word(first: Op, second: Op) -> bool
    ensures { result ≡ same_word first second }
{
    match (first, second) {
        (
            Op::Load { word: x } | Op::Store { word: x },
            Op::Load { word: y } | Op::Store { word: y },
        ) => x == y,
        _ => false,
    }
}

pub(crate) fn is_load(op: Op) -> bool
    ensures { result ≡ is_load op }
{
    matches!(op, Op::Load { .. })
}

pub(crate) fn is_store(op: Op) -> bool
    ensures { result ≡ is_store op }
{
    matches!(op, Op::Store { .. })
}

fn is_full_fence(action: Action) -> bool
    ensures { result ≡ is_full_fence action }
{
    matches!(
        action,
        Action::Fence {
            kind: FenceKind::Full
        }
    )
}

fn is_store_fence(action: Action) -> bool
    ensures { result ≡ is_store_fence action }
{
    matches!(
        action,
        Action::Fence {
            kind: FenceKind::Store
        }
    )
}

fn is_load_fence(action: Action) -> bool
    ensures { result ≡ is_load_fence action }
{
    matches!(
        action,
        Action::Fence {
            kind: FenceKind::Load
        }
    )
}

/// Whether it is a store or a store fence.
fn is_store_like(action: Action) -> bool
    ensures { result ≡ is_store_like action }
{
    match action {
        Action::Store { .. } => true,
        _ => is_store_fence(action),
    }
}

/// Whether it is a load or a load fence.
fn is_load_like(action: Action) -> bool
    ensures { result ≡ is_load_like action }
{
    match action {
        Action::Load { .. } => true,
        _ => is_load_fence(action),
    }
}

fn is_store_load(first: Action, second: Action) -> bool
    ensures { result ≡ is_store_load first second }
{
    is_store_like(first) && is_load_like(second)
}

/// Whether both are stores, to different words.
fn are_stores_apart(first: Action, second: Action) -> bool
    ensures { result ≡ are_stores_apart first second }
{
    match (first, second) {
        (Action::Store { word: x }, Action::Store { word: y }) => x != y,
        _ => false,
    }
}

/// Whether both are loads or stores of one word, but not a store and then a load.
fn is_word_kept(first: Action, second: Action) -> bool
    ensures { result ≡ is_word_kept first second }
{
    let (first, second) = (first.op(), second.op());
    same_word(first, second) && !(is_store(first) && is_load(second))
}

/// Whether a fence among the two keeps them in order.
fn is_fenced(first: Action, second: Action) -> bool
    ensures { result ≡ is_fenced first second }
{
    (is_full_fence(first) || is_full_fence(second))
        || (is_store_fence(first) && is_store_like(second))
        || (is_store_like(first) && is_store_fence(second))
        || (is_load_fence(first) && is_load_like(second))
        || (is_load_like(first) && is_load_fence(second))
}

/// Whether the model keeps the order of two actions of one thread.
fn keeps(model: MemModel, first: Action, second: Action) -> bool
    ensures { result ≡ keeps model first second }
{
    match model {
        MemModel::Sc => true,
        MemModel::Tso => !is_store_load(first, second),
        MemModel::Pso => !is_store_load(first, second) && !are_stores_apart(first, second),
        MemModel::Weak => is_fenced(first, second) || is_word_kept(first, second),
    }
}

/// Whether the model keeps node `a` before node `b`.
pub fn kept(test: &Test, model: MemModel, a: u32, b: u32) -> bool
    requires first { a < op_count test.now }
    requires second { b < op_count test.now }
    ensures { result ≡ is_kept model test.now a b }
{
    a < b && test.thread_of(a) == test.thread_of(b) && keeps(model, test.action(a), test.action(b))
}
