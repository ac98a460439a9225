//! The next line of a text of lines that ends with the line `done`.
ghost use Rattle.std.specs.Prelude.{◌≡◌, ◌≢◌, ◌+◌, ◌^◌, ◌<◌, [], Ok, Err, length, OnOk, IfOk, IfErr, IfSome};
ghost use Rattle.std.specs.Option.{option_map};
ghost use Rattle.run_text.specs.declared.fault.RunFault.TheVariants.{AfterDone};
ghost use Rattle.run_text.specs.NextLine.{next_line};

use crate::fault::RunFault;
use test_lang::text::line::first_line;

/// Nothing stands behind the text, whose last line has the number before this one.
pub fn nothing_after(bytes: &[u8], line: u32) -> Result<(), RunFault>
    ensures ok { OnOk result (bytes.now ≡ []) }
    ensures refused { IfErr result (λ fault. (fault ≡ AfterDone line) × (bytes.now ≢ [])) }
{
    if bytes.is_empty() {
        Ok(())
    } else {
        Err(RunFault::AfterDone { line })
    }
}

/// The next line, which has this number, and the bytes behind it; none where it is `done` and the text ends there.
pub(crate) fn next_line(bytes: &[u8], number: u32) -> Result<Option<(&[u8], &[u8])>, RunFault>
    requires { number + length bytes.now < 2 ^ 32 }
    ensures found { IfOk result (λ found. next_line number bytes.now
        ≡ Ok (option_map (λ l. (l.0.now, l.1.now)) found)) }
    ensures refused { IfErr result (λ fault. next_line number bytes.now ≡ Err fault) }
    ensures shorter { IfOk result (λ found. IfSome found
        (λ l. length l.0.now + 1 + length l.1.now ≡ length bytes.now)) }
    ensures some { OnOk result (0 < length bytes.now) }
{
    let Some((line, rest)) = first_line(bytes) else {
        return Err(RunFault::NoDone { line: number });
    };
    if line != b"done".as_slice() {
        return Ok(Some((line, rest)));
    }
    nothing_after(rest, number + 1)?;
    Ok(None)
}
