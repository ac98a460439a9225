//! Why a batch was refused.

/// Why a batch wasn't added. It is whole then, and may be offered again.
#[derive(Clone, Copy, Debug, PartialEq, Eq)]
pub enum AddFault {
    /// Another pass had the turn.
    Busy,
    /// There was no memory.
    Memory,
}
