//! Kinds of actions, and which of them the few edges in place of all kept pairs lead from and to.
ghost use Rattle.std.specs.Prelude.{◌≡◌};
ghost use Rattle.graph_model.specs.FewKept.{kinds_before, kinds_after};

use test_lang::op::{Action, FenceKind, MemModel};

/// A kind of actions, as seen from an action.
#[derive(Clone, Copy, Debug)]
pub(crate) enum Kind {
    Any,
    /// Neither a store nor a store fence.
    NotStoreLike,
    /// A store or a store fence.
    StoreLike,
    AnyStoreFence,
    /// A store fence or a full fence.
    StoreBarrier,
    /// A load fence or a full fence.
    LoadBarrier,
    /// A load of its word.
    LoadOfWord,
    /// A store to its word.
    StoreOfWord,
}

/// The kinds from whose last action in the thread an edge leads to the action.
///
/// Of two actions of one of these kinds the first is kept before the second, and before the action, or an edge leads from it to a fence between
/// them. So the last one stands for all.
pub(crate) fn kinds_before(model: MemModel, action: Action) -> &'static [Kind]
    ensures { result.now ≡ kinds_before model action }
{
    match (model, action) {
        (MemModel::Sc, _) => &[Kind::Any],
        (
            MemModel::Tso,
            Action::Load { .. }
            | Action::Fence {
                kind: FenceKind::Load,
            },
        ) => &[Kind::NotStoreLike],
        (MemModel::Tso, _) => &[Kind::NotStoreLike, Kind::StoreLike],
        (MemModel::Pso, Action::Store { .. }) => {
            &[Kind::NotStoreLike, Kind::StoreOfWord, Kind::AnyStoreFence]
        }
        (MemModel::Pso, _) => &[Kind::NotStoreLike],
        (MemModel::Weak, Action::Load { .. }) => &[Kind::LoadOfWord, Kind::LoadBarrier],
        (MemModel::Weak, Action::Store { .. }) => {
            &[Kind::LoadOfWord, Kind::StoreOfWord, Kind::StoreBarrier]
        }
        (
            MemModel::Weak,
            Action::Fence {
                kind: FenceKind::Full,
            },
        ) => &[Kind::LoadBarrier, Kind::StoreBarrier],
        (
            MemModel::Weak,
            Action::Fence {
                kind: FenceKind::Store,
            },
        ) => &[Kind::StoreBarrier],
        (
            MemModel::Weak,
            Action::Fence {
                kind: FenceKind::Load,
            },
        ) => &[Kind::LoadBarrier],
    }
}

/// The kinds to whose next action in the thread an edge leads from the action.
pub(crate) fn kinds_after(model: MemModel, action: Action) -> &'static [Kind]
    ensures { result.now ≡ kinds_after model action }
{
    match (model, action) {
        (
            MemModel::Pso,
            Action::Store { .. }
            | Action::Fence {
                kind: FenceKind::Store,
            },
        ) => &[Kind::StoreBarrier],
        (MemModel::Weak, Action::Load { .. }) => &[Kind::LoadBarrier],
        (MemModel::Weak, Action::Store { .. }) => &[Kind::StoreBarrier],
        _ => &[],
    }
}
