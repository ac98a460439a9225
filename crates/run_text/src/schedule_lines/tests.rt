//! Tests of reading schedules: texts written by hand, with their steps and how they are refused.
use crate::fault::RunFault;
use crate::schedule_lines::ScheduleLines;
use std::alloc::{AllocError, Global};
use std::process::Abort;
use std::test::Fail;
use test_lang::step::Step;

/// A step that stands in the list before anything is read.
const OLD: Step = Step::Execute { thread: 77 };

/// A text of schedules whose first line is line 10, with the steps of all schedules behind the old one.
struct Good {
    bytes: &'static [u8],
    schedules: u32,
    steps: &'static [Step],
}

const GOOD: [Good; 6] = [
    Good {
        bytes: b"done\n",
        schedules: 0,
        steps: &[OLD],
    },
    // No step.
    Good {
        bytes: b"schedule\nschedule\ndone\n",
        schedules: 2,
        steps: &[OLD],
    },
    Good {
        bytes: b"schedule 0 1 0 1\ndone\n",
        schedules: 1,
        steps: &[
            OLD,
            Step::Execute { thread: 0 },
            Step::Execute { thread: 1 },
            Step::Execute { thread: 0 },
            Step::Execute { thread: 1 },
        ],
    },
    // Each form. A place that is left out is 0.
    Good {
        bytes: b"schedule 12 3! 3!0 4!56 7:0 80:91\ndone\n",
        schedules: 1,
        steps: &[
            OLD,
            Step::Execute { thread: 12 },
            Step::Drain {
                thread: 3,
                place: 0,
            },
            Step::Drain {
                thread: 3,
                place: 0,
            },
            Step::Drain {
                thread: 4,
                place: 56,
            },
            Step::Perform {
                thread: 7,
                index: 0,
            },
            Step::Perform {
                thread: 80,
                index: 91,
            },
        ],
    },
    // The largest numbers.
    Good {
        bytes: b"schedule 4294967295\nschedule 4294967295!4294967295 4294967295:4294967295\ndone\n",
        schedules: 2,
        steps: &[
            OLD,
            Step::Execute { thread: 4294967295 },
            Step::Drain {
                thread: 4294967295,
                place: 4294967295,
            },
            Step::Perform {
                thread: 4294967295,
                index: 4294967295,
            },
        ],
    },
    Good {
        bytes: b"schedule 1!\nschedule\nschedule 0:1\ndone\n",
        schedules: 3,
        steps: &[
            OLD,
            Step::Drain {
                thread: 1,
                place: 0,
            },
            Step::Perform {
                thread: 0,
                index: 1,
            },
        ],
    },
];

// The next two alone make the calls under test, and hand their answers on without clauses.

fn begin<'a>(rt: &impl Abort, bytes: &'a [u8], line: u32) -> ScheduleLines<'a> {
    assert!(rt; bytes.len() < 2000 && line < 100);
    ScheduleLines::new(bytes, line)
}

fn next(lines: &mut ScheduleLines<'_>, steps: &mut Vec<Step>) -> Result<bool, RunFault> {
    lines.next(steps)
}

fn check_schedules(
    rt: &impl Abort,
    lines: &mut ScheduleLines<'_>,
    steps: &mut Vec<Step>,
    schedules: u32,
) {
    for _ in 0..schedules {
        let line = lines.line();
        assert!(rt; next(lines, steps) == Ok(true));
        assert!(rt; lines.line() == line.saturating_add(1));
    }
}

fn check_good(rt: &impl Abort, alloc: Global, good: &Good) -> Result<(), Fail> {
    let mut lines = begin(rt, good.bytes, 10);
    let mut steps = Vec::new(alloc);
    steps.push(OLD)?;
    assert!(rt; lines.line() == 10);
    check_schedules(rt, &mut lines, &mut steps, good.schedules);
    // The end is told at each further call.
    for _ in 0..2 {
        assert!(rt; next(&mut lines, &mut steps) == Ok(false));
        assert!(rt; lines.line() == good.schedules.saturating_add(11));
    }
    assert!(rt; steps.as_slice() == good.steps);
    Ok(())
}

#[test]
fn reads_schedules(rt: HostRuntime) -> Result<(), Fail> {
    for good in &GOOD {
        check_good(&rt, rt.alloc(), good)?;
    }
    Ok(())
}

/// Texts that are refused so behind their first good lines, where the first line is line 10.
struct Refused {
    good: u32,
    fault: RunFault,
    texts: &'static [&'static [u8]],
}

const REFUSED: [Refused; 7] = [
    // An unclosed line comes before all.
    Refused {
        good: 0,
        fault: RunFault::NoDone { line: 10 },
        texts: &[b"", b"schedule 0 1", b"done", b"x"],
    },
    // The form of a line comes before what it says.
    Refused {
        good: 0,
        fault: RunFault::BadRunLine { line: 10 },
        texts: &[
            b"\n",
            b"schedule \n",
            b"schedule 0  1\n",
            b"schedule  0\n",
            b"schedule 0 \n",
            b" schedule 0\n",
            b"schedule0\n",
            b"schedule\t0\n",
            b"schedule 0\r\n",
            b"schedules 0\n",
            b"Schedule 0\n",
            b"schedul\n",
            b"run 0 0\n",
            b"done \n",
            b"schedule 00\n",
            b"schedule 01\n",
            b"schedule !\n",
            b"schedule !0\n",
            b"schedule :0\n",
            b"schedule 0:\n",
            b"schedule 0!!\n",
            b"schedule 0!00\n",
            b"schedule 0!:1\n",
            b"schedule 0:1!\n",
            b"schedule 0:01\n",
            b"schedule 0 !\n",
            b"schedule 0! 0\x00\n",
            b"schedule 0.1\n",
            b"schedule -1\n",
            b"schedule x\n",
            b"schedule 4294967296 x\n",
            b"schedule 4294967296!x\n",
        ],
    },
    Refused {
        good: 0,
        fault: RunFault::ValueRange { line: 10 },
        texts: &[
            b"schedule 4294967296\n",
            b"schedule 0 4294967296 1\n",
            b"schedule 4294967296!\n",
            b"schedule 0!4294967296\n",
            b"schedule 4294967296!0\n",
            b"schedule 0:4294967296\n",
            b"schedule 4294967296:0\n",
            b"schedule 0 18446744073709551616\n",
        ],
    },
    // Behind `done`.
    Refused {
        good: 0,
        fault: RunFault::AfterDone { line: 11 },
        texts: &[b"done\nx", b"done\n\n", b"done\ndone\n"],
    },
    // Behind good lines.
    Refused {
        good: 2,
        fault: RunFault::NoDone { line: 12 },
        texts: &[b"schedule 0 1!\nschedule\ndone"],
    },
    Refused {
        good: 1,
        fault: RunFault::ValueRange { line: 11 },
        texts: &[b"schedule 0\nschedule 1 4294967296\nbad\n"],
    },
    Refused {
        good: 1,
        fault: RunFault::BadRunLine { line: 11 },
        texts: &[b"schedule 0\nschedule 0,1\nschedule 4294967296\n"],
    },
];

fn check_refused(
    rt: &impl Abort,
    mut lines: ScheduleLines<'_>,
    alloc: Global,
    good: u32,
    line: u32,
    fault: RunFault,
) -> Result<(), Fail> {
    let mut steps = Vec::new(alloc);
    steps.push(OLD)?;
    check_schedules(rt, &mut lines, &mut steps, good);
    let kept = steps.clone()?;
    // Nothing has changed, so that the next call refuses again.
    for _ in 0..2 {
        assert!(rt; next(&mut lines, &mut steps) == Err(fault));
        assert!(rt; lines.line() == line);
        assert!(rt; steps.as_slice() == kept.as_slice());
    }
    Ok(())
}

#[test]
fn refuses_schedule_lines(rt: HostRuntime) -> Result<(), Fail> {
    for refused in &REFUSED {
        for text in refused.texts.iter() {
            let line = refused.good.saturating_add(10);
            let lines = begin(&rt, text, 10);
            check_refused(&rt, lines, rt.alloc(), refused.good, line, refused.fault)?;
        }
    }
    Ok(())
}

/// A text with a number of so many digits, and how it is refused.
const LONG: [(&[u8], u8, &[u8], RunFault); 3] = [
    (
        b"schedule 1",
        b'0',
        b"\ndone\n",
        RunFault::ValueRange { line: 1 },
    ),
    (
        b"schedule 0:",
        b'9',
        b"\ndone\n",
        RunFault::ValueRange { line: 1 },
    ),
    (
        b"schedule 0!",
        b'0',
        b"\ndone\n",
        RunFault::BadRunLine { line: 1 },
    ),
];

fn text_of(alloc: Global, front: &[u8], digit: u8, back: &[u8]) -> Result<Vec<u8>, AllocError> {
    let mut text = Vec::from_slice(alloc, front)?;
    for _ in 0..1000 {
        text.push(digit)?;
    }
    text.extend_from_slice(back)?;
    Ok(text)
}

#[test]
fn reads_long_numbers(rt: HostRuntime) -> Result<(), Fail> {
    for (front, digit, back, fault) in &LONG {
        let text = text_of(rt.alloc(), front, *digit, back)?;
        check_refused(&rt, begin(&rt, &text, 1), rt.alloc(), 0, 1, *fault)?;
    }
    Ok(())
}
