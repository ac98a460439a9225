//! Operations of a thread, the kinds of fences, and memory models.

/// One operation of a thread. Words are numbered from 0.
#[derive(Clone, Copy, PartialEq, Eq, Debug, Drop)]
pub enum Op {
    /// Gives the value of a word.
    Load { word: u32 },
    /// Gives a word a value of its own: no two stores of a test have the same.
    Store { word: u32 },
    /// Orders what stands before it with what stands behind it. It is of one of three kinds, which `Action` tells.
    Fence,
}

/// What a fence orders.
#[derive(Clone, Copy, PartialEq, Eq, Debug, Drop)]
pub enum FenceKind {
    /// All operations.
    Full,
    /// Stores and store fences.
    Store,
    /// Loads and load fences.
    Load,
}

/// An operation that tells the kind of a fence.
#[derive(Clone, Copy, PartialEq, Eq, Debug, Drop)]
pub enum Action {
    Load { word: u32 },
    Store { word: u32 },
    Fence { kind: FenceKind },
}

impl Op {
    ghost use Rattle.std.specs.Prelude.{◌≡◌};
    ghost use Rattle.test_lang.specs.Actions.{action_of};

    /// The action that the operation stands for: a fence is a full one.
    pub fn action(self) -> Action
        ensures { result ≡ action_of self }
    {
        match self {
            Op::Load { word } => Action::Load { word },
            Op::Store { word } => Action::Store { word },
            Op::Fence => Action::Fence {
                kind: FenceKind::Full,
            },
        }
    }
}

impl Action {
    ghost use Rattle.std.specs.Prelude.{◌≡◌};
    ghost use Rattle.test_lang.specs.Actions.{op_of};

    /// The operation that the action is.
    pub fn op(self) -> Op
        ensures { result ≡ op_of self }
    {
        match self {
            Action::Load { word } => Op::Load { word },
            Action::Store { word } => Op::Store { word },
            Action::Fence { .. } => Op::Fence,
        }
    }
}

/// A memory model: which pairs of operations of one thread take effect in the order of the text.
///
/// An operation is store-like where it is a store or a store fence, and load-like where it is a load or a load fence.
#[derive(Clone, Copy, PartialEq, Eq, Debug, Drop)]
pub enum MemModel {
    /// Sequential consistency: all pairs.
    Sc,
    /// Total store order: all but a store-like operation followed by a load-like one.
    Tso,
    /// Partial store order: as total store order, but not two stores to different words.
    Pso,
    /// Pairs of one word but a store followed by a load, pairs with a full fence, and pairs of store-like or of load-like operations with a fence
    /// among them.
    Weak,
}

impl MemModel {
    ghost use Rattle.std.specs.Prelude.{◌≡◌};
    ghost use Rattle.test_lang.specs.Models.{model_name};

    /// The name that commands and reports give the model.
    pub fn name(self) -> &'static str
        ensures { result.now ≡ model_name self }
    {
        match self {
            MemModel::Sc => "sc",
            MemModel::Tso => "tso",
            MemModel::Pso => "pso",
            MemModel::Weak => "weak",
        }
    }
}
