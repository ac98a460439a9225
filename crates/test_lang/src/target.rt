//! Machines that play a test, and the faults that can be planted in them.
ghost use Rattle.std.specs.Prelude.{◌≡◌};
ghost use Rattle.test_lang.specs.Targets.{fits};

/// A machine that plays a test, named after its memory model.
#[derive(Clone, Copy, PartialEq, Eq, Debug, Drop)]
pub enum Target {
    /// Each operation takes effect at once, in the order of its thread.
    Sc,
    /// Stores and store fences wait in a buffer of their thread, and leave it in order.
    Tso,
    /// Stores and store fences wait in a buffer of their thread. Stores to different words leave it in any order, but none passes a store fence.
    Pso,
    /// Operations of a thread take effect in any order that the weak model allows.
    Weak,
}

/// A fault that is planted in a machine.
#[derive(Clone, Copy, PartialEq, Eq, Debug, Drop)]
pub enum Fault {
    None,
    /// The load with this node gives the value before the one that stands in memory. The fault acts where the load reads memory: a load that
    /// gives a store of its own thread which hasn't reached memory isn't touched by it.
    Stale { node: u32 },
    /// Fences order nothing.
    NoFence,
    /// A buffer's stores reach memory in any order.
    Unordered,
    /// No load sees the stores of its own thread that haven't reached memory.
    NoForward,
    /// Loads of one word pass each other.
    LoadLoad,
}

/// Whether a machine can carry a fault.
pub fn fits(target: Target, fault: Fault) -> bool
    ensures { result ≡ fits target fault }
{
    match (target, fault) {
        (_, Fault::None | Fault::Stale { .. }) => true,
        (Target::Sc, _) => false,
        (_, Fault::NoFence | Fault::NoForward) => true,
        (Target::Tso | Target::Pso, Fault::Unordered) => true,
        (Target::Weak, Fault::LoadLoad) => true,
        _ => false,
    }
}

#[cfg(test)]
mod tests;
