//! Putting together what the workers found.
ghost use Rattle.std.specs.Prelude.{◌≡◌, ◌<◌, ◌≤◌, IfOk, length, replicate, vec_len};
ghost use Rattle.std.specs.List.{AllByRecursion};
ghost use Rattle.verdict_report.specs.declared.report.Judged.TheVariants.{Ok as FoundOk};
ghost use Rattle.chunk_pool.specs.Gathered.{AreSmall, IsGathered};
ghost use Rattle.chunk_pool.specs.Shares.{IsFew, counts_with, put_cycles};

use crate::checked::Checked;
use crate::share::{Counts, CycleAt, Share};
use std::alloc::{AllocError, Global};
use verdict_report::{Judged, Work};

/// So many verdicts, each of which is ok.
fn all_ok(alloc: Global, count: usize) -> Result<Vec<Judged>, AllocError>
    ensures { IfOk result (λ found. found.items ≡ replicate count FoundOk) }
{
    let mut found = Vec::with_capacity(alloc, count)?;
    for _ in 0..count {
        found.push(Judged::Ok)?;
    }
    Ok(found)
}

/// Puts each cycle at the place of its signature.
fn put_all(found: &mut [Judged], cycles: Vec<CycleAt>)
    requires { AllByRecursion (λ cycle. cycle.place < length found.old) cycles.items }
    ensures { found.new ≡ put_cycles found.old cycles.items }
{
    for cycle in cycles {
        found[cycle.place] = Judged::Cycle(cycle.nodes);
    }
}

/// The verdicts on so many signatures in their order, and the work of so many chunks.
pub(crate) fn gather(
    alloc: Global,
    signatures: usize,
    chunks: usize,
    shares: Vec<Result<Share, AllocError>>,
) -> Result<Checked, AllocError>
    requires workers { vec_len shares ≤ 64 }
    requires small { AreSmall signatures shares.items }
    ensures { IfOk result (IsGathered signatures chunks shares.items) }
{
    let mut found = all_ok(alloc, signatures)?;
    let mut counts = Counts::new();
    for share in shares {
        let share = share?;
        put_all(&mut found, share.cycles);
        counts.add(&share.counts);
    }
    let work = Work {
        chunks: chunks as u64,
        full: counts.full,
        kept: counts.kept,
        resorted: counts.resorted,
        nodes: counts.nodes,
    };
    Ok(Checked { found, work })
}
