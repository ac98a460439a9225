//! What each planted fault changes.
ghost use Rattle.std.specs.Prelude.{◌≡◌};
ghost use Rattle.test_lang.specs.Play.Faults.{is_stale, forwards_nothing};

use test_lang::target::Fault;

/// Whether the load gives the value before where it reads memory.
pub fn is_stale(fault: Fault, load: u32) -> bool
    ensures { result ≡ is_stale fault load }
{
    match fault {
        Fault::Stale { node } => node == load,
        _ => false,
    }
}

/// Whether every load reads memory.
pub fn forwards_nothing(fault: Fault) -> bool
    ensures { result ≡ forwards_nothing fault }
{
    matches!(fault, Fault::NoForward)
}
