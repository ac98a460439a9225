//! Cuts a text at line ends into pieces, each of which can be read by itself.
ghost use Rattle.std.specs.Prelude.{◌≡◌, ◌+◌, ◌*◌, ◌<◌, ◌≤◌, [], ◌∷◌, ◌++◌, length, map, IfOk, IfSome, vec_len};
ghost use Rattle.std.specs.List.{concat};
ghost use Rattle.run_text.specs.Pieces.{AreCut, EndsInFeed};

use std::alloc::{AllocError, Global};
use test_lang::text::line::first_line;

/// A front of the text that ends in a line feed and has so many bytes at least, and the rest; none where the text has no more bytes than that, or where the whole text is such a front.
fn cut_front(text: &[u8], size: usize) -> Option<(&[u8], &[u8])>
    requires { 1 ≤ size }
    ensures whole { IfSome result (λ cut. text.now ≡ cut.0.now ++ cut.1.now) }
    ensures feed { IfSome result (λ cut. EndsInFeed cut.0.now) }
    ensures front { IfSome result (λ cut. size ≤ length cut.0.now) }
    ensures long { IfSome result (λ cut. size < length text.now) }
    ensures shorter { IfSome result (λ cut. length cut.1.now < length text.now) }
{
    if text.len() <= size {
        return None;
    }
    let (_, rest) = first_line(&text[size - 1..])?;
    Some(text.split_at(text.len() - rest.len()))
}

/// Cuts a text at line ends into pieces of so many bytes at least, of which the last may be shorter. No piece is empty. `Err` means want of memory.
pub fn cut_pieces(alloc: Global, text: &[u8], size: usize) -> Result<Vec<&[u8]>, AllocError>
    requires { 1 ≤ size }
    ensures whole { IfOk result (λ pieces. concat (map (λ piece. piece.now) pieces.items) ≡ text.now) }
    ensures cut { IfOk result (λ pieces. AreCut (map (λ piece. piece.now) pieces.items)) }
    ensures few { IfOk result (λ pieces. size * vec_len pieces < length text.now + size) }
    // A small text is one piece.
    ensures small { IfOk result (λ pieces. 1 ≤ length text.now → length text.now ≤ size →
        map (λ piece. piece.now) pieces.items ≡ text.now ∷ []) }
{
    let mut pieces = Vec::new(alloc);
    let mut left = text;
    'cuts: while let Some((piece, rest)) = cut_front(left, size) {
        pieces.push(piece)?;
        left = rest;
    }
    if left.is_empty() {
        return Ok(pieces);
    }
    pieces.push(left)?;
    Ok(pieces)
}
