//! Printing the text of a test, into one buffer.
ghost use Rattle.std.specs.Prelude.{◌≡◌, ℕ, ◌+◌, ◌<◌, ◌≤◌, List, [], ◌∷◌, ◌++◌, length, slice_index_or, OnOk, IfOk, Ok, codes};
ghost use Rattle.std.specs.Fmt.{decimal};
ghost use Rattle.test_lang.specs.Program.{op_count};
ghost use Rattle.test_lang.specs.Text.Line.{closed};
ghost use Rattle.test_lang.specs.Text.Numeral.{part};
ghost use Rattle.test_lang.specs.Text.Grammar.{action_line, thread_lines, test_text};
ghost use Rattle.test_lang.specs.Text.Reading.{reading};

use crate::op::{Action, FenceKind};
use crate::test::{MAX_OPS, Test};
use itoa::Buffer;
use std::alloc::{AllocError, Global};

/// Adds the line of a word and a number.
fn push_numbered(out: &mut Vec<u8>, word: &[u8], number: u32) -> Result<(), AllocError>
    ensures { OnOk result
        (out.new.items ≡ out.old.items ++ closed ((word.now ++ part (decimal number)) ∷ [])) }
{
    let mut buffer = Buffer::new();
    out.extend_from_slice(word)?;
    out.push(b' ')?;
    out.extend_from_slice(buffer.format(number).as_bytes())?;
    out.push(b'\n')?;
    Ok(())
}

/// The line of a fence, with its line feed.
fn fence_line(kind: FenceKind) -> &'static [u8]
    ensures { result.now ≡ closed (action_line (Action.Fence kind) ∷ []) }
{
    match kind {
        FenceKind::Full => b"fence\n",
        FenceKind::Store => b"fence st\n",
        FenceKind::Load => b"fence ld\n",
    }
}

/// Adds the line of an action.
fn push_action(out: &mut Vec<u8>, action: Action) -> Result<(), AllocError>
    ensures { OnOk result (out.new.items ≡ out.old.items ++ closed (action_line action ∷ [])) }
{
    match action {
        Action::Load { word } => push_numbered(out, b"ld", word),
        Action::Store { word } => push_numbered(out, b"st", word),
        Action::Fence { kind } => out.extend_from_slice(fence_line(kind)),
    }
}

/// Adds the lines of a thread.
fn push_thread(out: &mut Vec<u8>, test: &Test, thread: u32) -> Result<(), AllocError>
    requires thread { thread < length test.now.threads }
    requires few { op_count test.now ≤ MAX_OPS }
    ensures { OnOk result (out.new.items
        ≡ out.old.items ++ closed (thread_lines (slice_index_or test.now.threads thread []))) }
{
    out.extend_from_slice(b"thread\n")?;
    let first = test.first_of(thread);
    for place in 0..test.len_of(thread) {
        push_action(out, test.action(first + place))?;
    }
    Ok(())
}

/// The one text of a test that has a thread. An error is want of memory.
pub fn print(alloc: Global, test: &Test) -> Result<Vec<u8>, AllocError>
    requires { 0 < length test.now.threads }
    ensures text { IfOk result (λ text. text.items ≡ test_text test.now) }
    // Reading what was printed gives the test back, whatever bytes follow.
    ensures read_back { IfOk result
        (λ text. (rest : List ℕ) → reading (text.items ++ rest) ≡ Ok test.now) }
    // No other text reads as this test.
    ensures only { IfOk result (λ text. (bytes : List ℕ) → reading bytes ≡ Ok test.now
        → (rest : List ℕ) × (bytes ≡ text.items ++ rest)) }
{
    let mut out = Vec::new(alloc);
    push_numbered(&mut out, b"mtest", test.version())?;
    push_numbered(&mut out, b"words", test.words())?;
    for thread in 0..test.threads() {
        push_thread(&mut out, test, thread)?;
    }
    out.extend_from_slice(b"end\n")?;
    Ok(out)
}
