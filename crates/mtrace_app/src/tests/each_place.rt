//! One call, which fails at each place in turn: at each take, at each put, and where its input ends.
ghost use Rattle.std.specs.Prelude.{None};

use super::*;
use std::str;

/// How many bytes the input of the call has, and by how many puts of eight bytes its output is written.
const BYTES: u32 = 67;

const PUTS: u32 = 22;

/// Whether the call leaves its report where the source and the sink behave so.
fn is_reported(
    rt: &(impl Threads + Sync),
    alloc: Global,
    takes: Manner<'_>,
    puts: Manner<'_>,
    tells: Manner<'_>,
) -> Result<bool, AllocError> {
    let output = both_zero(alloc, 1)?;
    let call = Call {
        input: ZEROS,
        takes,
        puts,
        tells,
        ..CHECK
    };
    leaves(rt, alloc, &call, Status::Found, output.as_str(), "")
}

/// The first take that fails and is answered otherwise than as a fault of reading, if there is one. Each gives one byte; the last tells the end.
fn passed_take(rt: &(impl Threads + Sync), alloc: Global) -> Result<Option<u32>, AllocError> {
    for place in 0..=BYTES {
        let fails = [place];
        let takes = Manner {
            room: 0,
            most: 1,
            fails: &fails,
        };
        let call = Call {
            input: ZEROS,
            takes,
            ..CHECK
        };
        let line = "mtrace: read fault\n";
        if !leaves(rt, alloc, &call, Status::ReadFault, "", line)? {
            return Ok(Some(place));
        }
    }
    Ok(None)
}

/// The first put that fails and leaves something else than what was put before, if there is one.
fn passed_put(rt: &(impl Threads + Sync), alloc: Global) -> Result<Option<u32>, AllocError> {
    for place in 0..PUTS {
        let fails = [place];
        let puts = Manner {
            room: 10_000,
            most: 8,
            fails: &fails,
        };
        if !puts_fail(rt, alloc, puts, 8 * place as usize)? {
            return Ok(Some(place));
        }
    }
    Ok(None)
}

/// Takes and puts that are never made fail nothing, and the errors aren't used.
fn behind_the_last(rt: &(impl Threads + Sync), alloc: Global) -> Result<bool, AllocError> {
    let takes = Manner {
        room: 0,
        most: 1,
        fails: &[BYTES + 1],
    };
    let puts = Manner {
        room: 10_000,
        most: 8,
        fails: &[PUTS],
    };
    let tells = Manner {
        room: 100,
        most: 100,
        fails: &[0],
    };
    is_reported(rt, alloc, takes, puts, tells)
}

#[test]
fn each_take_and_each_put_fails(rt: HostRuntime) -> Result<(), Fail> {
    assert_eq!(rt; passed_take(&rt, rt.alloc())?, None);
    assert_eq!(rt; passed_put(&rt, rt.alloc())?, None);
    assert!(rt; behind_the_last(&rt, rt.alloc())?);
    Ok(())
}

/// How the input that ends behind so many bytes is refused: its test has 54 bytes and nine lines, and its run line ends behind 62.
fn refusal_of_cut(alloc: Global, cut: &str, length: u32) -> Result<String, AllocError> {
    match length {
        0..=53 => {
            let line = cut.lines().count()
                + if cut.is_empty() || cut.ends_with("\n") {
                    1
                } else {
                    0
                };
            format!(in alloc; "input line {line}: NoEnd")
        }
        54..=61 => format!(in alloc; "input line 10: NoDone"),
        _ => format!(in alloc; "input line 11: NoDone"),
    }
}

/// The first length at which the cut input is answered otherwise, if there is one.
fn passed_cut(rt: &(impl Threads + Sync), alloc: Global) -> Result<Option<u32>, AllocError> {
    for length in 0..BYTES {
        let Ok(cut) = str::from_utf8(&ZEROS.as_bytes()[..length as usize]) else {
            return Ok(Some(length));
        };
        let reason = refusal_of_cut(alloc, cut, length)?;
        if !is_refused(rt, alloc, cut, Status::Input, reason.as_str())? {
            return Ok(Some(length));
        }
    }
    Ok(None)
}

#[test]
fn input_ends_behind_each_byte(rt: HostRuntime) -> Result<(), Fail> {
    assert_eq!(rt; passed_cut(&rt, rt.alloc())?, None);
    Ok(())
}

/// A value of a thousand digits.
fn long_value(rt: &(impl Threads + Sync), alloc: Global) -> Result<bool, AllocError> {
    let head = joined(alloc, STORE_BUFFERING, "run ", 1, "")?;
    let input = joined(alloc, head.as_str(), "9", 1000, " 0\ndone\n")?;
    is_refused(
        rt,
        alloc,
        input.as_str(),
        Status::Input,
        "input line 10: ValueRange",
    )
}

#[test]
fn value_of_a_thousand_digits(rt: HostRuntime) -> Result<(), Fail> {
    assert!(rt; long_value(&rt, rt.alloc())?);
    Ok(())
}
