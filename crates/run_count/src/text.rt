//! Reads and counts a text by its pieces.
ghost use Rattle.std.specs.Prelude.{◌≡◌, ℕ, ◌+◌, ◌^◌, ◌<◌, ◌≤◌, All, List, length, Ok, IfOk, IfErr, vec_len};
ghost use Rattle.run_text.specs.Runs.{reading};
ghost use Rattle.run_count.specs.Counts.{AreCountedUpTo, RefusesText, text_of};
ghost use Rattle.run_count.specs.Pieces.{AreReadPieces, IsReadByPieces, IsReadPiece};

use crate::cut::cut_for;
use crate::join::join_pieces;
use crate::piece::{PieceCount, count_piece};
use run_text::fault::RunFault;
use signature_plan::Plan;
use std::alloc::{AllocError, Global};
use std::thread::{self, Threads};
use tally::Tally;

/// Reads and counts each piece by itself, by a thread of its own where one can be made. One piece takes no thread.
fn count_each<R: Threads + Sync>(
    rt: &R,
    alloc: Global,
    plan: &Plan,
    pieces: Vec<&[u8]>,
    most: u64,
) -> Result<Vec<Result<PieceCount, RunFault>>, AllocError>
    requires { All (λ piece. length piece.now < 2 ^ 32) pieces.items }
    ensures len { IfOk result (λ counts. vec_len counts ≡ vec_len pieces.entry) }
    ensures each { IfOk result (λ counts. AreReadPieces most plan.now pieces.entry.items counts.items) }
{
    thread::map_vec(
        rt,
        pieces,
        &|piece: &[u8]| -> Result<PieceCount, RunFault>
            requires { length piece.now < 2 ^ 32 }
            ensures { IsReadPiece most plan.entry.now piece.entry.now result }
        { count_piece(alloc, plan, piece, most) },
    )
}

/// Cuts a text at line ends into at most one piece for each worker, and reads and counts each piece by itself.
fn count_by_pieces<R: Threads + Sync>(
    rt: &R,
    alloc: Global,
    plan: &Plan,
    text: &[u8],
    most: u64,
    workers: u32,
) -> Result<Vec<Result<PieceCount, RunFault>>, AllocError>
    requires short { length text.now < 2 ^ 32 }
    requires workers { 1 ≤ workers }
    ensures { IfOk result (λ counts. IsReadByPieces most plan.now text.now counts.items) }
{
    let pieces = cut_for(alloc, text, workers)?;
    count_each(rt, alloc, plan, pieces, most)
}

/// Reads all runs of a text, whose first line has this number, up to the line `done`, and counts their outcomes. Answers how many runs there are and their tally, or the refusal of the first bad line.
/// Where there are more than `most` runs they are read all the same, but the tally may be that of some of them.
///
/// The text is cut at line ends into at most one piece for each worker, and threads read and count the pieces. A small text is one piece, and then, as with one worker, no thread is made. No run is kept.
pub fn count_runs<R: Threads + Sync>(
    rt: &R,
    alloc: Global,
    plan: &Plan,
    text: &[u8],
    line: u32,
    most: u64,
    workers: u32,
) -> Result<(u64, Tally), RunFault>
    requires lines { line + length text.now + 1 < 2 ^ 32 }
    requires workers { 1 ≤ workers }
    ensures ok { IfOk result (λ counted. (runs : List (List ℕ))
        × (reading (text_of plan.now line text.now) ≡ Ok runs)
        × AreCountedUpTo most plan.now runs counted.0 counted.1) }
    ensures few { IfOk result (λ counted. counted.0 ≤ length text.now) }
    ensures err { IfErr result (RefusesText (text_of plan.now line text.now)) }
{
    let counts = count_by_pieces(rt, alloc, plan, text, most, workers)?;
    join_pieces(alloc, line, counts, most)
}
