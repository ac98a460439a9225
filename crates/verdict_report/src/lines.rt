//! The lines of a report, added to one buffer.
ghost use Rattle.std.specs.Prelude.{◌≡◌, [], ◌∷◌, ◌++◌, length, count_by, IfOk, OnOk};
ghost use Rattle.std.specs.Fmt.{decimal};
ghost use Rattle.std.specs.List.{flat_map};
ghost use Rattle.test_lang.specs.Text.Line.{closed};
ghost use Rattle.test_lang.specs.Text.Numeral.{part};
ghost use Rattle.verdict_report.specs.Lines.{cycle_of, format_line, is_cycle, is_ok, model_line, runs_line, sum_line, outcome_lines, outside_line, outsides, signature_line, signatures, verdict_text, work_line};

use crate::numbers::{push_named, push_part, push_signature};
use crate::report::{Judged, Work};
use std::alloc::AllocError;
use tally::{Outcome, Tally};
use test_lang::op::MemModel;

/// Adds the lines of the format and of the model.
pub fn push_head(out: &mut Vec<u8>, model: MemModel) -> Result<(), AllocError>
    ensures { OnOk result
        (out.new.items ≡ out.old.items ++ closed (format_line ∷ model_line model ∷ [])) }
{
    out.extend_from_slice(b"mtrace 1\nmodel ")?;
    out.extend_from_slice(model.name().as_bytes())?;
    out.push(b'\n')?;
    Ok(())
}

/// Adds the line of the number of runs.
pub fn push_runs(out: &mut Vec<u8>, runs: u64) -> Result<(), AllocError>
    ensures { OnOk result (out.new.items ≡ out.old.items ++ closed (runs_line runs ∷ [])) }
{
    out.extend_from_slice(b"runs")?;
    push_part(out, runs)?;
    out.push(b'\n')?;
    Ok(())
}

/// Adds nodes, each behind a space.
fn push_nodes(out: &mut Vec<u8>, nodes: &[u32]) -> Result<(), AllocError>
    ensures { OnOk result
        (out.new.items ≡ out.old.items ++ flat_map (λ node. part (decimal node)) nodes.now) }
{
    for node in nodes {
        push_part(out, u64::from(*node))?;
    }
    Ok(())
}

/// Adds what stands of a verdict behind the count.
fn push_verdict(out: &mut Vec<u8>, judged: &Judged) -> Result<(), AllocError>
    ensures { OnOk result (out.new.items ≡ out.old.items ++ verdict_text (cycle_of judged.now)) }
{
    match judged {
        Judged::Ok => out.extend_from_slice(b" ok"),
        Judged::Cycle(nodes) => {
            out.extend_from_slice(b" cycle")?;
            push_nodes(out, nodes.list())
        }
    }
}

/// Adds the line of a signature.
fn push_inside(
    out: &mut Vec<u8>,
    words: &[u64],
    count: u64,
    judged: &Judged,
) -> Result<(), AllocError>
    ensures { OnOk result (out.new.items
        ≡ out.old.items ++ closed (signature_line ((words.now, count), judged.now) ∷ [])) }
{
    out.extend_from_slice(b"sig ")?;
    push_signature(out, words)?;
    push_named(out, b"count", count)?;
    push_verdict(out, judged)?;
    out.push(b'\n')?;
    Ok(())
}

/// Adds the line of an outcome outside.
fn push_outside(out: &mut Vec<u8>, node: u32, value: u32, count: u64) -> Result<(), AllocError>
    ensures { OnOk result
        (out.new.items ≡ out.old.items ++ closed (outside_line (node, value, count) ∷ [])) }
{
    out.extend_from_slice(b"outside")?;
    push_part(out, u64::from(node))?;
    push_named(out, b"value", u64::from(value))?;
    push_named(out, b"count", count)?;
    out.push(b'\n')?;
    Ok(())
}

/// Adds a line for each outcome, and gives the number of those outside.
pub fn push_outcomes(out: &mut Vec<u8>, tally: &Tally, found: &[Judged]) -> Result<u64, AllocError>
    requires { length found.now ≡ length (signatures tally.now) }
    ensures lines { OnOk result
        (out.new.items ≡ out.old.items ++ closed (outcome_lines tally.now found.now)) }
    ensures outside { IfOk result (λ outside. outside ≡ length (outsides tally.now)) }
{
    let mut place = 0;
    let mut outside = 0;
    for (outcome, count) in tally.iter() {
        match outcome {
            Outcome::Inside(signature) => {
                push_inside(out, signature.words(), count, &found[place])?;
                place += 1;
            }
            Outcome::Outside { node, value } => {
                push_outside(out, *node, *value, count)?;
                outside += 1;
            }
        }
    }
    Ok(outside)
}

/// The number of outcomes outside.
pub fn count_outside(tally: &Tally) -> u64
    ensures { result ≡ length (outsides tally.now) }
{
    let mut count = 0;
    for (outcome, _) in tally.iter() {
        if let Outcome::Outside { .. } = outcome {
            count += 1;
        }
    }
    count
}

/// How many verdicts are `Ok`.
fn count_ok(found: &[Judged]) -> u64
    ensures { result ≡ count_by is_ok found.now }
{
    let mut count = 0;
    for judged in found {
        if let Judged::Ok = judged {
            count += 1;
        }
    }
    count
}

/// Adds the line that counts the lines of each kind.
pub fn push_sum(out: &mut Vec<u8>, found: &[Judged], outside: u64) -> Result<(), AllocError>
    ensures { OnOk result (out.new.items ≡ out.old.items ++ closed (sum_line
        (length found.now) (count_by is_ok found.now) (count_by is_cycle found.now) outside ∷ [])) }
{
    let signatures = found.len() as u64;
    let ok = count_ok(found);
    out.extend_from_slice(b"sum")?;
    push_named(out, b"signatures", signatures)?;
    push_named(out, b"ok", ok)?;
    push_named(out, b"cycle", signatures - ok)?;
    push_named(out, b"outside", outside)?;
    out.push(b'\n')?;
    Ok(())
}

/// Adds the line that tells how the signatures were checked.
pub fn push_work(out: &mut Vec<u8>, work: Work) -> Result<(), AllocError>
    ensures { OnOk result (out.new.items ≡ out.old.items ++ closed (work_line work ∷ [])) }
{
    out.extend_from_slice(b"work")?;
    push_named(out, b"chunks", work.chunks)?;
    push_named(out, b"full", work.full)?;
    push_named(out, b"kept", work.kept)?;
    push_named(out, b"resorted", work.resorted)?;
    push_named(out, b"nodes", work.nodes)?;
    out.push(b'\n')?;
    Ok(())
}
