//! The parts of a run line: each is one space and a numeral.
ghost use Rattle.std.specs.Prelude.{◌≡◌, ◌<◌, ◌+◌, ◌^◌, length, take, IfOk, OnOk, OnErr, vec_len};
ghost use Rattle.run_text.specs.Parts.{parts, gap};
ghost use Rattle.run_text.specs.Found.{with_value, add_value, MayKeep};

use crate::small_parts::read_small;
use std::alloc::AllocError;
use test_lang::text::numeral::{HELD, numeral};

/// How many values were found, and whether each of them is below 2^32.
#[derive(Clone, Copy, Drop)]
pub struct Found {
    pub count: u32,
    pub all_fit: bool,
}

impl Found {
    /// Counts one more value, and keeps it unless there are as many as wanted.
    #[inline(always)]
    fn add(&mut self, value: u64, want: u32, values: &mut Vec<u32>) -> Result<(), AllocError>
        requires room { self.old.count + 1 < 2 ^ 32 }
        ensures found { OnOk result (self.new ≡ with_value self.old value) }
        ensures values { OnOk result
            (values.new.items ≡ add_value self.old.count want value values.old.items) }
        ensures err { OnErr result (values.new.items ≡ values.old.items) }
    {
        if self.count < want {
            values.push(u32::try_from(value).unwrap_or(u32::MAX))?;
        }
        self.count += 1;
        self.all_fit &= value < HELD;
        Ok(())
    }
}

/// Appends the values of the parts, the first `want` of them, and tells how many there are, or none where the bytes have
/// another form.
pub fn read_parts(
    bytes: &[u8],
    want: u32,
    values: &mut Vec<u32>,
) -> Result<Option<Found>, AllocError>
    requires short { length bytes.now < 2 ^ 32 }
    ensures exact { IfOk result
        (λ found. MayKeep want values.old.items found values.new.items (parts gap bytes.now)) }
    ensures front { take (vec_len values.old) values.new.items ≡ values.old.items }
{
    let (mut found, mut left) = read_small(bytes, want, values)?;
    'parts: while let Some((first, behind)) = left.split_first() {
        if *first != b' ' {
            return Ok(None);
        }
        let Some((value, rest)) = numeral(behind) else {
            return Ok(None);
        };
        found.add(value, want, values)?;
        left = rest;
    }
    Ok(Some(found))
}
