//! The first line of a text.
ghost use Rattle.std.specs.Prelude.{◌≡◌, ◌+◌, length, MatchOption, IfSome};
ghost use Rattle.std.specs.Option.{option_map};
ghost use Rattle.test_lang.specs.Text.Line.{IsLine, StartsWithLine, first_line};

use memchr::memchr;

/// The first line, without its line feed, and the bytes behind it, or none where no line is closed.
pub fn first_line(text: &[u8]) -> Option<(&[u8], &[u8])>
    ensures found { MatchOption result (IsLine text.now)
        (λ found. StartsWithLine text.now found.0.now found.1.now) }
    ensures exact { option_map (λ found. (found.0.now, found.1.now)) result ≡ first_line text.now }
    ensures shorter { IfSome result
        (λ found. length found.0.now + 1 + length found.1.now ≡ length text.now) }
{
    match memchr(b'\n', text) {
        Some(end) => Some((&text[..end], &text[end + 1..])),
        None => None,
    }
}
