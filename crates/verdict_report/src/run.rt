//! The line of a run.
ghost use Rattle.std.specs.Prelude.{◌≡◌, [], ◌∷◌, IfOk};
ghost use Rattle.test_lang.specs.Text.Line.{closed};
ghost use Rattle.run_text.specs.Runs.{line_of_run};
ghost use Rattle.verdict_report.specs.RunLine.{IsReadAs};

use crate::numbers::push_part;
use std::alloc::{AllocError, Global};

/// The line of a run with these values, and its line feed. `Err` means want of memory.
pub fn run_line(alloc: Global, values: &[u32]) -> Result<Vec<u8>, AllocError>
    ensures text { IfOk result (λ line. line.items ≡ closed (line_of_run values.now ∷ [])) }
    ensures read_back { IfOk result (λ line. IsReadAs values.now line.items) }
{
    let mut out = Vec::new(alloc);
    out.extend_from_slice(b"run")?;
    for value in values {
        push_part(&mut out, u64::from(*value))?;
    }
    out.push(b'\n')?;
    Ok(out)
}
