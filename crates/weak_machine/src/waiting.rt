//! Which operations of a thread wait for which.
ghost use Rattle.std.specs.Prelude.{◌≡◌, ◌<◌, ◌&&◌, not, All};
ghost use Rattle.test_lang.specs.declared.op.Action.TheVariants.{Load, Store, Fence};
ghost use Rattle.test_lang.specs.declared.op.MemModel.TheVariants.{Weak};
ghost use Rattle.test_lang.specs.Actions.{op_of};
ghost use Rattle.test_lang.specs.Kept.{keeps};
ghost use Rattle.test_lang.specs.Program.{op_count};
ghost use Rattle.test_lang.specs.Values.{is_load, is_fence};
ghost use Rattle.weak_machine.specs.Waiting.{spares_actions, waits_for, waits_for_any};

use test_lang::op::{Action, FenceKind};
use test_lang::target::Fault;
use test_lang::test::Test;

/// Whether the weak model keeps a load of the word before the action.
fn keeps_load(word: u32, second: Action) -> bool
    ensures { result ≡ keeps Weak (Load word) second }
{
    match second {
        Action::Load { word: other } | Action::Store { word: other } => word == other,
        Action::Fence { kind } => match kind {
            FenceKind::Full | FenceKind::Load => true,
            FenceKind::Store => false,
        },
    }
}

/// Whether it keeps a store to the word before the action.
fn keeps_store(word: u32, second: Action) -> bool
    ensures { result ≡ keeps Weak (Store word) second }
{
    match second {
        Action::Load { .. } => false,
        Action::Store { word: other } => word == other,
        Action::Fence { kind } => match kind {
            FenceKind::Full | FenceKind::Store => true,
            FenceKind::Load => false,
        },
    }
}

/// Whether it keeps a fence before the action.
fn keeps_fence(kind: FenceKind, second: Action) -> bool
    ensures { result ≡ keeps Weak (Fence kind) second }
{
    match kind {
        FenceKind::Full => true,
        FenceKind::Store => match second {
            Action::Load { .. } => false,
            Action::Store { .. } => true,
            Action::Fence { kind: other } => match other {
                FenceKind::Full | FenceKind::Store => true,
                FenceKind::Load => false,
            },
        },
        FenceKind::Load => match second {
            Action::Load { .. } => true,
            Action::Store { .. } => false,
            Action::Fence { kind: other } => match other {
                FenceKind::Full | FenceKind::Load => true,
                FenceKind::Store => false,
            },
        },
    }
}

/// Whether it keeps the order of two actions of one thread.
fn keeps(first: Action, second: Action) -> bool
    ensures { result ≡ keeps Weak first second }
{
    match first {
        Action::Load { word } => keeps_load(word, second),
        Action::Store { word } => keeps_store(word, second),
        Action::Fence { kind } => keeps_fence(kind, second),
    }
}

fn is_load(action: Action) -> bool
    ensures { result ≡ is_load (op_of action) }
{
    matches!(action, Action::Load { .. })
}

fn is_fence(action: Action) -> bool
    ensures { result ≡ is_fence (op_of action) }
{
    matches!(action, Action::Fence { .. })
}

/// Whether the fault takes the order of two actions away.
fn spares(fault: Fault, first: Action, second: Action) -> bool
    ensures { result ≡ spares_actions fault first second }
{
    match fault {
        Fault::NoFence => is_fence(first) || is_fence(second),
        Fault::LoadLoad => is_load(first) && is_load(second),
        _ => false,
    }
}

/// Whether the second of two actions of one thread waits for the first.
fn waits(fault: Fault, first: Action, second: Action) -> bool
    ensures { result ≡ (keeps Weak first second && not (spares_actions fault first second)) }
{
    keeps(first, second) && !spares(fault, first, second)
}

/// Whether node `b` waits for node `a`.
pub fn waits_for(test: &Test, fault: Fault, a: u32, b: u32) -> bool
    requires first { a < op_count test.now }
    requires second { b < op_count test.now }
    ensures { result ≡ waits_for fault test.now a b }
{
    if b <= a {
        return false;
    }
    if test.thread_of(a) != test.thread_of(b) {
        return false;
    }
    waits(fault, test.action(a), test.action(b))
}

/// Whether node `b` waits for one of the nodes.
pub fn waits_for_any(test: &Test, fault: Fault, nodes: &[u32], b: u32) -> bool
    requires nodes { All (λ a. a < op_count test.now) nodes.now }
    requires second { b < op_count test.now }
    ensures { result ≡ waits_for_any fault test.now nodes.now b }
{
    for a in nodes {
        if waits_for(test, fault, *a, b) {
            return true;
        }
    }
    false
}
