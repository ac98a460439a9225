//! Writing a report.
ghost use Rattle.std.specs.Prelude.{◌≡◌, length, IfOk};
ghost use Rattle.verdict_report.specs.Lines.{report_text, signatures};

use crate::lines::{push_head, push_outcomes, push_runs, push_sum, push_work};
use crate::report::Report;
use std::alloc::{AllocError, Global};

/// The text of a report, in one buffer. `Err` means want of memory.
pub fn text(alloc: Global, report: &Report<'_>) -> Result<Vec<u8>, AllocError>
    requires { length report.now.found.now ≡ length (signatures report.now.tally.now) }
    ensures { IfOk result (λ text. text.items ≡ report_text report.now) }
{
    let mut out = Vec::new(alloc);
    push_head(&mut out, report.model)?;
    push_runs(&mut out, report.runs)?;
    let outside = push_outcomes(&mut out, report.tally, report.found)?;
    push_sum(&mut out, report.found, outside)?;
    push_work(&mut out, report.work)?;
    Ok(out)
}
