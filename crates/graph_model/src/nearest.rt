//! The node of each kind that was met last, on a way through the nodes in either direction.
ghost use Rattle.std.specs.Prelude.{◌≡◌, length};
ghost use Rattle.test_lang.specs.Actions.{op_of};
ghost use Rattle.test_lang.specs.Program.{HasWordBelow};
ghost use Rattle.graph_model.specs.WordTables.{at_word};

use crate::kinds::Kind;
use std::alloc::{AllocError, Global};
use test_lang::op::{Action, FenceKind};

/// The node of each kind that was met last.
#[derive(Drop)]
pub(crate) struct Nearest {
    any: Option<u32>,
    not_store_like: Option<u32>,
    store_like: Option<u32>,
    store_fence: Option<u32>,
    store_barrier: Option<u32>,
    load_barrier: Option<u32>,
    /// The loads of each word, and the stores to it.
    loads: Vec<Option<u32>>,
    stores: Vec<Option<u32>>,
    ghost same_room: { length stores.items ≡ length loads.items },
}

impl Nearest {
    ghost use Rattle.std.specs.Prelude.{◌≡◌, ◌<◌, ℕ, Bool, Option, None, OnOk, IfOk, length};
    ghost use Rattle.test_lang.specs.declared.op.Action.{Action};
    ghost use Rattle.test_lang.specs.Actions.{op_of};
    ghost use Rattle.graph_model.specs.FewKept.{is_kind};
    ghost use Rattle.graph_model.specs.NearestNodes.{Tells, with_node};

    /// No node was met yet.
    pub fn new(alloc: Global, words: u32) -> Result<Nearest, AllocError>
        ensures room { IfOk result (λ table. length table.loads.items ≡ words) }
        ensures told { IfOk result (Tells (λ _. None)) }
    {
        Ok(Nearest {
            any: None,
            not_store_like: None,
            store_like: None,
            store_fence: None,
            store_barrier: None,
            load_barrier: None,
            loads: vec![in alloc; None; words as usize]?,
            stores: vec![in alloc; None; words as usize]?,
        })
    }

    /// Meets a node with this action.
    pub fn meet(&mut self, node: u32, action: Action)
        requires { HasWordBelow (length self.old.loads.items) (op_of action) }
        ensures room { length self.new.loads.items ≡ length self.old.loads.items }
        ensures told { (f : (Action → Bool) → Option ℕ) →
            Tells f self.old → Tells (with_node f node action) self.new }
    {
        self.any = Some(node);
        match action {
            Action::Load { word } => {
                self.not_store_like = Some(node);
                self.loads[word as usize] = Some(node);
            }
            Action::Store { word } => {
                self.store_like = Some(node);
                self.stores[word as usize] = Some(node);
            }
            Action::Fence {
                kind: FenceKind::Full,
            } => {
                self.not_store_like = Some(node);
                self.store_barrier = Some(node);
                self.load_barrier = Some(node);
            }
            Action::Fence {
                kind: FenceKind::Store,
            } => {
                self.store_like = Some(node);
                self.store_fence = Some(node);
                self.store_barrier = Some(node);
            }
            Action::Fence {
                kind: FenceKind::Load,
            } => {
                self.not_store_like = Some(node);
                self.load_barrier = Some(node);
            }
        }
    }

    /// The node of the kind, as seen from the action, that was met last.
    pub fn of(&self, kind: Kind, action: Action) -> Option<u32>
        requires { HasWordBelow (length self.now.loads.items) (op_of action) }
        ensures { (f : (Action → Bool) → Option ℕ) → Tells f self.now → result ≡ f (is_kind kind action) }
    {
        match kind {
            Kind::Any => self.any,
            Kind::NotStoreLike => self.not_store_like,
            Kind::StoreLike => self.store_like,
            Kind::AnyStoreFence => self.store_fence,
            Kind::StoreBarrier => self.store_barrier,
            Kind::LoadBarrier => self.load_barrier,
            Kind::LoadOfWord => at_word(&self.loads, action),
            Kind::StoreOfWord => at_word(&self.stores, action),
        }
    }
}

/// What stands at the action's word, if it has one.
fn at_word(nodes: &[Option<u32>], action: Action) -> Option<u32>
    requires { HasWordBelow (length nodes.now) (op_of action) }
    ensures { result ≡ at_word nodes.now action }
{
    match action {
        Action::Load { word } => nodes[word as usize],
        Action::Store { word } => nodes[word as usize],
        Action::Fence { .. } => None,
    }
}
