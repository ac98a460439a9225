//! Reads the runs of one piece of a text, and counts their outcomes.
ghost use Rattle.std.specs.Prelude.{◌≡◌, ◌+◌, ◌^◌, ◌<◌, ◌≤◌, List, [], ◌∷◌, ◌++◌, length, OnOk, IfErr, IfOk};
ghost use Rattle.tally.specs.declared.outcome.Outcome.{Outcome};
ghost use Rattle.tally.specs.Counting.{HasCounted};
ghost use Rattle.tally.specs.Tallies.{total_of};
ghost use Rattle.test_lang.specs.Signatures.{groups};
ghost use Rattle.test_lang.specs.Values.{load_count};
ghost use Rattle.run_text.specs.InPiece.{ReadsInPiece};
ghost use Rattle.run_text.specs.Pieces.{line_of};
ghost use Rattle.signature_plan.specs.Outcomes.{outcome_of};
ghost use Rattle.run_text.specs.declared.fault.RunFault.TheVariants.{Memory};
ghost use Rattle.run_count.specs.Pieces.{IsFinished, IsReadPiece};

use run_text::fault::RunFault;
use run_text::piece_turn::PieceTurn;
use run_text::run_lines::RunLines;
use signature_plan::Plan;
use std::alloc::{AllocError, Global};
use tally::{Counter, Tally};

/// Runs that were read and counted: how many they are, how often each outcome occurred, and whether `done` stands behind them.
#[derive(Drop)]
pub(crate) struct PieceCount {
    pub(crate) runs: u64,
    /// Where the runs are too many, only of some of them.
    pub(crate) tally: Tally,
    pub(crate) is_done: bool,
}

/// Reads the next line of a piece; the values of a run line stand in the buffer then.
fn next_run(lines: &mut RunLines<'_>, run: &mut Vec<u32>) -> Result<PieceTurn, RunFault>
    ensures turn { ReadsInPiece result [] run.new.items lines.old lines.new }
    ensures line { IfErr result (λ fault. line_of fault ≤ lines.old.line + length lines.old.left) }
{
    run.clear();
    lines.next_in_piece(run)
}

/// Counts the outcome of a run, which makes so many of them, unless these are more than `most`. `words` is where its signature stands on the way.
fn count_run(
    plan: &Plan,
    runs: u64,
    most: u64,
    run: &[u32],
    words: &mut [u64],
    counter: &mut Counter,
) -> Result<(), AllocError>
    requires loads { length run.now ≡ load_count plan.now }
    requires words { length words.old ≡ length (groups plan.now) }
    requires width { counter.old.width ≡ length (groups plan.now) }
    requires room { total_of counter.old.pairs < 2 ^ 32 }
    ensures counted { OnOk result (runs ≤ most → (outcomes : List Outcome)
        → HasCounted outcomes counter.old → HasCounted (outcomes ++ outcome_of plan.now run.now ∷ []) counter.new) }
    ensures total { OnOk result (runs ≤ most → total_of counter.new.pairs ≡ total_of counter.old.pairs + 1) }
    ensures few { OnOk result (total_of counter.new.pairs ≤ total_of counter.old.pairs + 1) }
    ensures width { OnOk result (counter.new.width ≡ counter.old.width) }
{
    if runs > most {
        return Ok(());
    }
    match plan.encode_into(run, words) {
        Ok(()) => counter.count(words),
        Err(outside) => counter.count_outside(outside.node, outside.value),
    }
}

/// What was counted of a piece that is read to its end.
fn finish(runs: u64, counter: Counter, is_done: bool) -> Result<PieceCount, RunFault>
    ensures counted { IfOk result (IsFinished runs counter is_done) }
    ensures refused { IfErr result (λ fault. fault ≡ Memory) }
{
    Ok(PieceCount {
        runs,
        tally: counter.finish()?,
        is_done,
    })
}

/// Reads a piece by itself, whose lines count from 0, and counts the outcomes of its first runs, at most so many. No run is kept.
pub(crate) fn count_piece(
    alloc: Global,
    plan: &Plan,
    text: &[u8],
    most: u64,
) -> Result<PieceCount, RunFault>
    requires { length text.now < 2 ^ 32 }
    ensures { IsReadPiece most plan.now text.now result }
{
    let mut run = Vec::with_capacity(alloc, plan.loads())?;
    let mut words = vec![in alloc; 0u64; plan.words()]?;
    let mut counter = Counter::new(alloc, plan.words());
    let mut lines = RunLines::new(text, 0, plan.loads() as u32);
    let mut runs = 0;
    'runs: loop {
        match next_run(&mut lines, &mut run)? {
            PieceTurn::Run => {}
            PieceTurn::End => return finish(runs, counter, false),
            PieceTurn::Done => return finish(runs, counter, true),
        }
        runs += 1;
        count_run(plan, runs, most, &run, &mut words, &mut counter)?;
    }
}
