//! Reads a source to its end.
ghost use Rattle.std.specs.Prelude.{◌≡◌, ◌≤◌, ◌^◌, ◌↔◌, IfOk, IfSome, OnOk, IsErrOf, vec_len};
ghost use Rattle.std.specs.Io.KnownBytes.{IsAtEnd};
ghost use Rattle.mt_base.specs.Faults.{Rose};
ghost use Rattle.mtrace_app.specs.Outside.{IsRestOf, WhereTold, IsPastLimit};
ghost use Rattle.mtrace_app.specs.declared.reading.ReadError.TheVariants.{Memory};

use mt_base::{Source, Take};
use std::alloc::{AllocError, Global};

/// The most bytes that an input may have.
const MAX_BYTES: usize = 1 << 30;

/// How many bytes are asked for at once.
const BLOCK: usize = 1 << 16;

/// Why a source wasn't read to its end.
#[derive(Clone, Copy)]
pub(crate) enum ReadError {
    /// A take failed.
    Fault,
    /// More bytes were taken than an input may have.
    TooLarge,
    Memory,
}

impl From<AllocError> for ReadError {
    ghost from_gives = { λ _ e. e ≡ Memory };

    fn from(_: AllocError) -> ReadError {
        ReadError::Memory
    }
}

/// All bytes that are left. It stops at the first take that fails, and as soon as the limit is passed.
pub(crate) fn read_to_end<S: Source>(alloc: Global, source: &mut S) -> Result<Vec<u8>, ReadError>
    ensures bytes { IfOk result (λ bytes. IfSome (S.left source.old) (λ left. bytes.items ≡ left)) }
    ensures end { OnOk result (IsAtEnd (S.left source.new)) }
    ensures fits { IfOk result (λ bytes. vec_len bytes ≤ 2 ^ 30) }
    ensures fault { IsErrOf result ReadError.Fault →
        Rose (S.faults source.old) (S.faults source.new) }
    ensures too_large { WhereTold (S.left source.old) (S.left source.new)
        (λ before now. IsErrOf result ReadError.TooLarge ↔ IsPastLimit before now) }
    ensures rest { IsRestOf (S.left source.old) (S.left source.new) }
    ensures later { S.faults source.old ≤ S.faults source.new }
{
    let mut block = [0u8; BLOCK];
    let mut bytes = Vec::new(alloc);
    loop {
        match source.take(&mut block) {
            Take::Took(count) if count > MAX_BYTES - bytes.len() => return Err(ReadError::TooLarge),
            Take::Took(count) => bytes.extend_from_slice(&block[..count])?,
            Take::End => return Ok(bytes),
            Take::Failed => return Err(ReadError::Fault),
        }
    }
}
