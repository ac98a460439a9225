//! The lines of a test text behind the second.
ghost use Rattle.std.specs.Prelude.{◌≡◌};
ghost use Rattle.std.specs.Option.{option_map};
ghost use Rattle.test_lang.specs.Text.Form.{form_of, partial_fence_of, held_form, held_word};
ghost use Rattle.test_lang.specs.Text.Numeral.{whole_numeral};

use crate::op::{Action, FenceKind};
use crate::text::numeral::whole_numeral;

/// What a line of a test text behind the second says.
#[derive(Clone, Copy, PartialEq, Eq, Debug, Drop)]
pub enum Form {
    /// `thread`: a thread begins.
    Thread,
    /// `ld N`, `st N`, `fence`, `fence st` or `fence ld`: the last thread has one operation more.
    Operation(Action),
    /// `end`: the test ends.
    End,
}

/// The word that a numeral names, or the largest of 32 bits where it names a larger one: no test has so many words.
fn read_word(numeral: &[u8]) -> Option<u32>
    ensures { result ≡ option_map held_word (whole_numeral numeral.now) }
{
    let word = whole_numeral(numeral)?;
    Some(u32::try_from(word).unwrap_or(u32::MAX))
}

/// The form of the line of a store fence or a load fence.
fn read_partial_fence(line: &[u8]) -> Option<Form>
    ensures { result ≡ partial_fence_of line.now }
{
    if line == b"fence st".as_slice() {
        Some(Form::Operation(Action::Fence {
            kind: FenceKind::Store,
        }))
    } else if line == b"fence ld".as_slice() {
        Some(Form::Operation(Action::Fence {
            kind: FenceKind::Load,
        }))
    } else {
        None
    }
}

/// The form of a line in a text of this version, or none where it has none. A word too large for 32 bits is the largest of 32 bits.
pub fn read_form(version: u32, line: &[u8]) -> Option<Form>
    ensures { result ≡ option_map held_form (form_of version line.now) }
{
    if line == b"thread".as_slice() {
        Some(Form::Thread)
    } else if line == b"fence".as_slice() {
        Some(Form::Operation(Action::Fence {
            kind: FenceKind::Full,
        }))
    } else if line == b"end".as_slice() {
        Some(Form::End)
    } else if let Some(numeral) = line.strip_prefix(b"ld ") {
        read_word(numeral).map(|word| Form::Operation(Action::Load { word }))
    } else if let Some(numeral) = line.strip_prefix(b"st ") {
        read_word(numeral).map(|word| Form::Operation(Action::Store { word }))
    } else if version == 2 {
        read_partial_fence(line)
    } else {
        None
    }
}
