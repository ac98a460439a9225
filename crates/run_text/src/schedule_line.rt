//! One schedule line.
ghost use Rattle.std.specs.Prelude.{◌≡◌, ◌∷◌, ◌≤◌, length, take, IfOk, vec_len};
ghost use Rattle.std.specs.List.{position};
ghost use Rattle.run_text.specs.Steps.{is_space, parts_of, parts_behind, schedule_steps, schedule_of};
ghost use Rattle.run_text.specs.ReadSteps.{MayKeepSteps, AppendsSteps};

use crate::fault::RunFault;
use crate::step_text::{ReadStep, read_step};
use std::alloc::AllocError;
use test_lang::step::Step;

fn first_space(text: &[u8]) -> Option<usize>
    ensures { result ≡ position is_space text.now }
{
    text.iter().position(|byte| *byte == b' ')
}

/// The bytes before the first space, and those from it on.
fn cut_at_space(text: &[u8]) -> (&[u8], &[u8])
    ensures parts { parts_of text.now ≡ result.0.now ∷ parts_behind result.1.now }
    ensures shorter { length result.1.now ≤ length text.now }
{
    match first_space(text) {
        Some(end) => text.split_at(end),
        None => (text, &[]),
    }
}

/// Appends the steps of a schedule line, but for those with a number that is too large. Tells whether all fit, or none
/// where the line has another form.
fn find_steps(line: &[u8], steps: &mut Vec<Step>) -> Result<Option<bool>, AllocError>
    ensures exact { IfOk result
        (λ found. MayKeepSteps steps.old.items found steps.new.items (schedule_steps line.now)) }
    ensures front { take (vec_len steps.old) steps.new.items ≡ steps.old.items }
{
    let (word, mut left) = cut_at_space(line);
    if word != b"schedule".as_slice() {
        return Ok(None);
    }
    let mut all_fit = true;
    'parts: while let Some((_, behind)) = left.split_first() {
        let (text, rest) = cut_at_space(behind);
        match read_step(text) {
            None => return Ok(None),
            Some(ReadStep::Fits(step)) => steps.push(step)?,
            Some(ReadStep::IsLarge) => all_fit = false,
        }
        left = rest;
    }
    Ok(Some(all_fit))
}

/// Appends the steps of a schedule line. A refusal changes nothing.
pub fn read_schedule(line: &[u8], number: u32, steps: &mut Vec<Step>) -> Result<(), RunFault>
    ensures { AppendsSteps steps.old.items result steps.new.items (schedule_of number line.now) }
{
    let before = steps.len();
    let fault = match find_steps(line, steps) {
        Err(AllocError) => RunFault::Memory,
        Ok(None) => RunFault::BadRunLine { line: number },
        Ok(Some(false)) => RunFault::ValueRange { line: number },
        Ok(Some(true)) => return Ok(()),
    };
    steps.truncate(before);
    Err(fault)
}
