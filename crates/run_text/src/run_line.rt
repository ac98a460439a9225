//! One run line.
ghost use Rattle.std.specs.Prelude.{◌≡◌, ◌<◌, ◌^◌, length, take, IfOk, vec_len};
ghost use Rattle.run_text.specs.Found.{MayKeep};
ghost use Rattle.run_text.specs.RunLine.{run_values, run_of, Appends};

use crate::fault::RunFault;
use crate::parts::{Found, read_parts};
use std::alloc::AllocError;

/// Appends the values of a run line, the first `want` of them, and tells how many there are, or none where the line has
/// another form.
fn find_values(line: &[u8], want: u32, values: &mut Vec<u32>) -> Result<Option<Found>, AllocError>
    requires short { length line.now < 2 ^ 32 }
    ensures exact { IfOk result
        (λ found. MayKeep want values.old.items found values.new.items (run_values line.now)) }
    ensures front { take (vec_len values.old) values.new.items ≡ values.old.items }
{
    match line.strip_prefix(b"run") {
        Some(parts) => read_parts(parts, want, values),
        None => Ok(None),
    }
}

/// Appends the values of a run line. A refusal changes nothing.
pub fn read_run(line: &[u8], number: u32, want: u32, values: &mut Vec<u32>) -> Result<(), RunFault>
    requires short { length line.now < 2 ^ 32 }
    ensures { Appends values.old.items result values.new.items (run_of number want line.now) }
{
    let before = values.len();
    let fault = match find_values(line, want, values) {
        Err(AllocError) => RunFault::Memory,
        Ok(None) => RunFault::BadRunLine { line: number },
        Ok(Some(found)) => {
            if found.count != want {
                RunFault::WrongCount {
                    line: number,
                    want,
                    got: found.count,
                }
            } else if !found.all_fit {
                RunFault::ValueRange { line: number }
            } else {
                return Ok(());
            }
        }
    };
    values.truncate(before);
    Err(fault)
}
