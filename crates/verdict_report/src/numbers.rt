//! Numbers as text, added to one buffer.
ghost use Rattle.std.specs.Prelude.{◌≡◌, ◌<◌, ◌++◌, false, OnOk, codes};
ghost use Rattle.std.specs.Fmt.{decimal, digit_glyph};
ghost use Rattle.std.specs.List.{flat_map};
ghost use Rattle.test_lang.specs.Text.Numeral.{part};
ghost use Rattle.verdict_report.specs.Numbers.{hex_word, signature_text};

use itoa::Buffer;
use std::alloc::AllocError;

/// The character of a hexadecimal digit.
fn hex_digit(digit: u8) -> u8
    requires { digit < 16 }
    ensures { result ≡ digit_glyph false digit }
{
    if digit < 10 {
        b'0' + digit
    } else {
        b'a' - 10 + digit
    }
}

/// The 16 hexadecimal digits of a word.
fn hex_digits(word: u64) -> [u8; 16]
    ensures { result ≡ hex_word word }
{
    let mut digits = [b'0'; 16];
    let mut rest = word;
    let mut place = 16;
    while place > 0 {
        place -= 1;
        digits[place] = hex_digit((rest % 16) as u8);
        rest /= 16;
    }
    digits
}

/// Adds the words of a signature, or that it has none.
pub fn push_signature(out: &mut Vec<u8>, words: &[u64]) -> Result<(), AllocError>
    ensures { OnOk result (out.new.items ≡ out.old.items ++ signature_text words.now) }
{
    let Some((first, later)) = words.split_first() else {
        return out.extend_from_slice(b"none");
    };
    out.extend_from_slice(&hex_digits(*first))?;
    push_later(out, later)
}

/// Adds words, each behind a full stop.
fn push_later(out: &mut Vec<u8>, words: &[u64]) -> Result<(), AllocError>
    ensures { OnOk result (out.new.items
        ≡ out.old.items ++ flat_map (λ later. codes "." ++ hex_word later) words.now) }
{
    for word in words {
        out.push(b'.')?;
        out.extend_from_slice(&hex_digits(*word))?;
    }
    Ok(())
}

/// Adds a space, a word, a space, and a number in decimal digits.
pub fn push_named(out: &mut Vec<u8>, name: &[u8], number: u64) -> Result<(), AllocError>
    ensures { OnOk result
        (out.new.items ≡ out.old.items ++ (part name.now ++ part (decimal number))) }
{
    out.push(b' ')?;
    out.extend_from_slice(name)?;
    push_part(out, number)
}

/// Adds a space and a number in decimal digits.
pub fn push_part(out: &mut Vec<u8>, number: u64) -> Result<(), AllocError>
    ensures { OnOk result (out.new.items ≡ out.old.items ++ part (decimal number)) }
{
    let mut buffer = Buffer::new();
    out.push(b' ')?;
    out.extend_from_slice(buffer.format(number).as_bytes())
}
