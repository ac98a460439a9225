//! Parts of a run line whose values have one to three digits, as nearly all have: a few steps read each of them.
ghost use Rattle.std.specs.Prelude.{◌≡◌, ◌+◌, ◌-◌, ◌<◌, ◌≤◌, ℕ, List, length, take, true, IfOk, IfSome, vec_len};
ghost use Rattle.run_text.specs.Parts.{parts, gap, with_front};
ghost use Rattle.run_text.specs.Found.{SoFar};

use crate::parts::Found;
use std::alloc::AllocError;

/// The value of the part at the front, and the bytes behind it, where it has one to three digits and stands before others.
#[inline(always)]
fn small_part(text: &[u8]) -> Option<(u32, &[u8])>
    ensures exact { IfSome result (λ part. parts gap text.now
        ≡ with_front part.0 (parts gap part.1.now)) }
    ensures small { IfSome result (λ part. part.0 < 1000) }
    ensures shorter { IfSome result (λ part. length part.1.now + 2 ≤ length text.now) }
{
    if text.len() < 5 || text[0] != b' ' || !text[1].is_ascii_digit() {
        return None;
    }
    let one = u32::from(text[1] - b'0');
    if !text[2].is_ascii_digit() {
        return Some((one, &text[2..]));
    }
    if text[1] == b'0' {
        return None;
    }
    let two = 10 * one + u32::from(text[2] - b'0');
    if !text[3].is_ascii_digit() {
        return Some((two, &text[3..]));
    }
    if text[4].is_ascii_digit() {
        return None;
    }
    Some((10 * two + u32::from(text[3] - b'0'), &text[4..]))
}

/// Writes the values of the small parts at the front, as far as they go, into the places from `first` on. Gives the place behind the last, and the bytes behind.
#[inline(never)]
fn fill_small<'a>(bytes: &'a [u8], first: usize, places: &mut [u32]) -> (usize, &'a [u8])
    requires { first ≤ length places.old }
    ensures within { (first ≤ result.0) × (result.0 ≤ length places.old) }
    ensures front { take first places.new ≡ take first places.old }
    ensures read { (values : List ℕ)
        × SoFar (length places.old - first) bytes.now result.1.now (take first places.old)
        (record { count = result.0 - first; all_fit = true }) (take result.0 places.new) values }
{
    let mut left = bytes;
    for place in first..places.len() {
        let Some((value, rest)) = small_part(left) else {
            return (place, left);
        };
        places[place] = value;
        left = rest;
    }
    (places.len(), left)
}

/// Appends the values of the small parts at the front, the first `want` of them at most. Tells what was found, and which bytes are left.
pub(crate) fn read_small<'a>(
    bytes: &'a [u8],
    want: u32,
    values: &mut Vec<u32>,
) -> Result<(Found, &'a [u8]), AllocError>
    ensures front { take (vec_len values.old) values.new.items ≡ values.old.items }
    ensures read { IfOk result (λ read. (found : List ℕ)
        × SoFar want bytes.now read.1.now values.old.items read.0 values.new.items found) }
{
    let first = values.len();
    values.resize(first + want as usize, 0)?;
    let (end, left) = fill_small(bytes, first, values.as_mut_slice());
    values.truncate(end);
    let found = Found {
        count: (end - first) as u32,
        all_fit: true,
    };
    Ok((found, left))
}
