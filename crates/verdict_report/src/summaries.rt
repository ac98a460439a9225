//! Writing the summary of a report.
ghost use Rattle.std.specs.Prelude.{◌≡◌, length, IfOk};
ghost use Rattle.verdict_report.specs.Lines.{signatures, summary_text};

use crate::lines::{count_outside, push_head, push_runs, push_sum, push_work};
use crate::report::Report;
use std::alloc::{AllocError, Global};

/// The summary of a report, in one buffer: its text without the lines of outcomes. `Err` means want of memory.
pub fn summary(alloc: Global, report: &Report<'_>) -> Result<Vec<u8>, AllocError>
    requires { length report.now.found.now ≡ length (signatures report.now.tally.now) }
    ensures { IfOk result (λ summary. summary.items ≡ summary_text report.now) }
{
    let mut out = Vec::new(alloc);
    push_head(&mut out, report.model)?;
    push_runs(&mut out, report.runs)?;
    push_sum(&mut out, report.found, count_outside(report.tally))?;
    push_work(&mut out, report.work)?;
    Ok(out)
}
