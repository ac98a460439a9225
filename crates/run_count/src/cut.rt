//! Cuts a text into a piece for each worker.
ghost use Rattle.std.specs.Prelude.{◌≡◌, ◌+◌, ◌/◌, ◌^◌, ◌<◌, ◌≤◌, length, map, IfOk, vec_len};
ghost use Rattle.std.specs.List.{concat};
ghost use Rattle.run_text.specs.Pieces.{AreCut};

use run_text::pieces::cut_pieces;
use std::alloc::{AllocError, Global};

/// How many bytes a piece has at least: a smaller one isn't worth a thread.
const LEAST_PIECE: usize = 1 << 16;

/// How many bytes a piece has at least, where a text of so many bytes has at most one piece for each worker.
fn least_size(length: usize, workers: u32) -> usize
    requires workers { 1 ≤ workers }
    requires short { length < 2 ^ 32 }
    ensures some { 1 ≤ result }
    ensures share { length / workers + 1 ≤ result }
{
    LEAST_PIECE.max(length / workers as usize + 1)
}

/// The pieces of a text, at most one for each worker. Each but the last has 65,536 bytes or more. `Err` means want of memory.
pub(crate) fn cut_for(alloc: Global, text: &[u8], workers: u32) -> Result<Vec<&[u8]>, AllocError>
    requires workers { 1 ≤ workers }
    requires short { length text.now < 2 ^ 32 }
    ensures whole { IfOk result (λ pieces. concat (map (λ piece. piece.now) pieces.items) ≡ text.now) }
    ensures cut { IfOk result (λ pieces. AreCut (map (λ piece. piece.now) pieces.items)) }
    ensures few { IfOk result (λ pieces. vec_len pieces ≤ workers) }
{
    cut_pieces(alloc, text, least_size(text.len(), workers))
}
