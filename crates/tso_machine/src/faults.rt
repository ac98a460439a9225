//! What each planted fault changes.
ghost use Rattle.std.specs.Prelude.{◌≡◌};
ghost use Rattle.test_lang.specs.Play.Faults.{is_stale, forwards_nothing, drains_any, frees_fences};

use test_lang::target::Fault;

/// Whether the load gives the value before where it reads memory.
pub fn is_stale(fault: Fault, load: u32) -> bool
    ensures { result ≡ is_stale fault load }
{
    match fault {
        Fault::Stale { node } => node == load,
        _ => false,
    }
}

/// Whether every load reads memory.
pub fn forwards_nothing(fault: Fault) -> bool
    ensures { result ≡ forwards_nothing fault }
{
    matches!(fault, Fault::NoForward)
}

/// Whether a buffer is drained in any order.
pub fn drains_any(fault: Fault) -> bool
    ensures { result ≡ drains_any fault }
{
    matches!(fault, Fault::Unordered)
}

/// Whether a full fence waits for no buffer, and a store fence doesn't enter it.
pub fn frees_fences(fault: Fault) -> bool
    ensures { result ≡ frees_fences fault }
{
    matches!(fault, Fault::NoFence)
}
