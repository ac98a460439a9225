//! Joins what the pieces of a text gave, in their order.
ghost use Rattle.std.specs.Prelude.{◌≡◌, ℕ, ◌+◌, ◌^◌, ◌<◌, ◌≤◌, ◌⊎◌, List, ◌++◌, length, Ok, Err, IfOk, IfErr};
ghost use Rattle.std.specs.List.{concat};
ghost use Rattle.run_text.specs.declared.fault.RunFault.TheVariants.{Memory};
ghost use Rattle.run_text.specs.Pieces.{joined};
ghost use Rattle.tally.specs.Tallies.{total_of};
ghost use Rattle.test_lang.specs.Program.{Program};
ghost use Rattle.run_count.specs.Counts.{AreCountedUpTo};
ghost use Rattle.run_count.specs.Pieces.{AreReadFrom, FitsBehind, IsCountOf, JoinsNext, pieces_read};

use crate::piece::PieceCount;
use run_text::fault::RunFault;
use std::alloc::{AllocError, Global};
use tally::Tally;

/// The runs of both, those of `before` first. The tallies are joined where these are at most so many.
fn join_two(before: PieceCount, after: PieceCount, most: u64) -> Result<PieceCount, AllocError>
    requires few { before.runs + after.runs < 2 ^ 32 }
    requires most { (total_of before.tally ≤ before.runs) × (total_of after.tally ≤ after.runs) }
    ensures counted { IfOk result (λ sum. (p : Program) (first second : List (List ℕ)) → IsCountOf most p first before
        → IsCountOf most p second after → IsCountOf most p (first ++ second) sum) }
    ensures is_done { IfOk result (λ sum. sum.is_done ≡ after.is_done) }
{
    let first = before.runs;
    if first == 0 {
        return Ok(after);
    }
    let mut tally = before.tally;
    let PieceCount {
        runs: second,
        tally: others,
        is_done,
    } = after;
    let runs = first + second;
    if runs > most {
        return Ok(PieceCount {
            runs,
            tally,
            is_done,
        });
    }
    tally.join(others)?;
    Ok(PieceCount {
        runs,
        tally,
        is_done,
    })
}

/// The pieces so far, and the next one behind them. A refusal is that of the text, whose first line has this number.
fn join_next(
    line: u32,
    all: PieceCount,
    next: Result<PieceCount, RunFault>,
    most: u64,
) -> Result<PieceCount, RunFault>
    requires lines { line + all.runs + 1 < 2 ^ 32 }
    requires most { total_of all.tally ≤ all.runs }
    requires next { FitsBehind line all next }
    ensures { (p : Program) → JoinsNext most p line all next result }
{
    let first = line + all.runs as u32;
    if all.is_done {
        return Err(RunFault::AfterDone { line: first + 1 });
    }
    match next {
        Ok(next) => Ok(join_two(all, next, most)?),
        Err(fault) => Err(fault.moved(first)),
    }
}

/// What a text gives, whose first line has this number, by what each of its pieces gave: the number of its runs, and their tally where they are at
/// most so many; or the refusal of its first bad line.
pub(crate) fn join_pieces(
    alloc: Global,
    line: u32,
    counts: Vec<Result<PieceCount, RunFault>>,
    most: u64,
) -> Result<(u64, Tally), RunFault>
    requires { (p : Program) × (texts : List (List ℕ)) × AreReadFrom most p line texts counts.items }
    ensures ok { IfOk result (λ counted. (p : Program) (texts : List (List ℕ)) → AreReadFrom most p line texts counts.items → (runs : List (List ℕ))
        × (joined (pieces_read p texts) line ≡ Ok runs)
        × AreCountedUpTo most p runs counted.0 counted.1) }
    ensures few { IfOk result (λ counted. (p : Program) (texts : List (List ℕ)) → AreReadFrom most p line texts counts.items →
        counted.0 ≤ length (concat texts)) }
    ensures err { IfErr result (λ fault. (p : Program) (texts : List (List ℕ)) → AreReadFrom most p line texts counts.items →
        (fault ≡ Memory) ⊎ (joined (pieces_read p texts) line ≡ Err fault)) }
{
    let mut all = PieceCount {
        runs: 0,
        tally: Tally::new(alloc),
        is_done: false,
    };
    for next in counts {
        all = join_next(line, all, next, most)?;
    }
    if !all.is_done {
        return Err(RunFault::NoDone {
            line: line + all.runs as u32,
        });
    }
    Ok((all.runs, all.tally))
}
