//! The text of one step of a schedule.
ghost use Rattle.std.specs.Prelude.{◌≡◌, ◌^◌, ◌≤◌, ℕ};
ghost use Rattle.std.specs.Option.{option_map};
ghost use Rattle.test_lang.specs.declared.step.Step.TheVariants.{Execute, Drain, Perform};
ghost use Rattle.test_lang.specs.Text.Numeral.{held};
ghost use Rattle.run_text.specs.Steps.{step_behind, step_of};
ghost use Rattle.run_text.specs.ReadSteps.{as_read};

use test_lang::step::Step;
use test_lang::text::numeral::{numeral, whole_numeral};

/// What a text of the form of a step says.
#[derive(Clone, Copy, Drop)]
pub enum ReadStep {
    Fits(Step),
    /// A number is above 4294967295.
    IsLarge,
}

fn execute(thread: u64) -> ReadStep
    ensures { (n : ℕ) → thread ≡ held n → result ≡ as_read (Execute n) }
{
    match u32::try_from(thread) {
        Ok(thread) => ReadStep::Fits(Step::Execute { thread }),
        Err(_) => ReadStep::IsLarge,
    }
}

fn drain(thread: u64, place: u64) -> ReadStep
    ensures { (n k : ℕ) → thread ≡ held n → place ≡ held k → result ≡ as_read (Drain n k) }
{
    match (u32::try_from(thread), u32::try_from(place)) {
        (Ok(thread), Ok(place)) => ReadStep::Fits(Step::Drain { thread, place }),
        _ => ReadStep::IsLarge,
    }
}

fn perform(thread: u64, index: u64) -> ReadStep
    ensures { (n k : ℕ) → thread ≡ held n → index ≡ held k → result ≡ as_read (Perform n k) }
{
    match (u32::try_from(thread), u32::try_from(index)) {
        (Ok(thread), Ok(index)) => ReadStep::Fits(Step::Perform { thread, index }),
        _ => ReadStep::IsLarge,
    }
}

/// What stands behind the numeral of the thread: nothing, or `!` or `:` and a numeral, which may be missing behind `!`.
fn read_behind(thread: u64, rest: &[u8]) -> Option<ReadStep>
    ensures { (n : ℕ) → thread ≡ held n →
        result ≡ option_map as_read (step_behind n rest.now) }
{
    let Some((mark, second)) = rest.split_first() else {
        return Some(execute(thread));
    };
    match *mark {
        b'!' if second.is_empty() => Some(drain(thread, 0)),
        b'!' => Some(drain(thread, whole_numeral(second)?)),
        b':' => Some(perform(thread, whole_numeral(second)?)),
        _ => None,
    }
}

/// The step of a text, or none where the text has another form.
pub fn read_step(text: &[u8]) -> Option<ReadStep>
    ensures { result ≡ option_map as_read (step_of text.now) }
{
    let (thread, rest) = numeral(text)?;
    read_behind(thread, rest)
}
