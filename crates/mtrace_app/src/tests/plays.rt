//! Schedules that are played: reports, and schedules that are refused.
ghost use Rattle.std.specs.Prelude.{None};

use super::*;

const FENCED_STORE_BUFFERING: &str =
    "mtest 1\nwords 2\nthread\nst 0\nfence\nld 1\nthread\nst 1\nfence\nld 0\nend\n";

const OWN_STORE: &str = "mtest 1\nwords 1\nthread\nst 0\nld 0\nend\n";

const STORE_AGAINST_TWO_LOADS: &str = "mtest 1\nwords 1\nthread\nst 0\nthread\nld 0\nld 0\nend\n";

/// Schedules of a test: the words and their model, the number of schedules, the lines of their outcomes, and the sums.
#[derive(Clone, Copy)]
struct Played {
    words: &'static str,
    model: &'static str,
    test: &'static str,
    schedules: &'static str,
    count: u32,
    lines: &'static str,
    sums: [u32; 3],
}

const PLAYED: [Played; 20] = [
    // Both threads store before either loads.
    Played {
        words: "replay",
        model: "sc",
        test: STORE_BUFFERING,
        schedules: "schedule 0 1 0 1\ndone\n",
        count: 1,
        lines: "sig 0000000000000001.0000000000000001 count 1 ok\n",
        sums: [1, 0, 0],
    },
    // No schedule, and one of no step.
    Played {
        words: "replay",
        model: "sc",
        test: STORE_BUFFERING,
        schedules: "done\n",
        count: 0,
        lines: "",
        sums: [0, 0, 0],
    },
    Played {
        words: "replay --target weak",
        model: "sc",
        test: NO_OPERATION,
        schedules: "schedule\nschedule\ndone\n",
        count: 2,
        lines: "sig none count 2 ok\n",
        sums: [1, 0, 0],
    },
    // A stale load.
    Played {
        words: "replay --fault stale:3",
        model: "sc",
        test: STORE_BUFFERING,
        schedules: "schedule 0 0 1 1\ndone\n",
        count: 1,
        lines: "sig 0000000000000000.0000000000000000 count 1 cycle 0 1 2 3\n",
        sums: [0, 1, 0],
    },
    // Partial fences do nothing on `sc`.
    Played {
        words: "replay --chunk 1",
        model: "sc",
        test: MESSAGE_PASSING_PARTIAL_FENCES,
        schedules: "schedule 0 0 0 1 1 1\nschedule 1 1 1 0 0 0\nschedule 1 0 1 0 0 1\ndone\n",
        count: 3,
        lines: "sig 0000000000000000 count 1 ok\n\
            sig 0000000000000002 count 1 ok\n\
            sig 0000000000000003 count 1 ok\n",
        sums: [3, 0, 0],
    },
    // Both stores wait in their buffers while both loads read memory. The place 0 may be left out, or not.
    Played {
        words: "replay --target tso",
        model: "sc",
        test: STORE_BUFFERING,
        schedules: "schedule 0 1 0 1 0! 1!\ndone\n",
        count: 1,
        lines: "sig 0000000000000000.0000000000000000 count 1 cycle 0 1 2 3\n",
        sums: [0, 1, 0],
    },
    Played {
        words: "replay --target tso --model tso",
        model: "tso",
        test: STORE_BUFFERING,
        schedules: "schedule 0 1 0 1 0! 1!\nschedule 0 1 0 1 1!0 0!\nschedule 1 0 0 1 1! 0!\ndone\n",
        count: 3,
        lines: "sig 0000000000000000.0000000000000000 count 3 ok\n",
        sums: [1, 0, 0],
    },
    // Stores that leave the buffer out of order.
    Played {
        words: "replay --target tso --fault unordered --model tso",
        model: "tso",
        test: MESSAGE_PASSING,
        schedules: "schedule 0 0 0!1 1 1 0!0\ndone\n",
        count: 1,
        lines: "sig 0000000000000001 count 1 cycle 0 1 2 3\n",
        sums: [0, 1, 0],
    },
    // A load that doesn't look into its buffer, and one that does.
    Played {
        words: "replay --target tso --fault noforward --model tso",
        model: "tso",
        test: OWN_STORE,
        schedules: "schedule 0 0 0!\ndone\n",
        count: 1,
        lines: "outside 1 value 0 count 1\n",
        sums: [0, 0, 1],
    },
    Played {
        words: "replay --target tso --model tso",
        model: "tso",
        test: OWN_STORE,
        schedules: "schedule 0 0 0!\ndone\n",
        count: 1,
        lines: "sig 0000000000000000 count 1 ok\n",
        sums: [1, 0, 0],
    },
    // Of two stores that wait the load gives the last.
    Played {
        words: "replay --target tso --model tso",
        model: "tso",
        test: OWN_STORES,
        schedules: "schedule 0 0 0 0! 0!\ndone\n",
        count: 1,
        lines: "sig 0000000000000000 count 1 ok\n",
        sums: [1, 0, 0],
    },
    // Fences that don't wait.
    Played {
        words: "replay --target tso --fault nofence --model tso",
        model: "tso",
        test: FENCED_STORE_BUFFERING,
        schedules: "schedule 0 0 0 1 1 1 0! 1!\ndone\n",
        count: 1,
        lines: "sig 0000000000000000.0000000000000000 count 1 cycle 0 1 2 3 4 5\n",
        sums: [0, 1, 0],
    },
    // Two loads of one word that pass each other.
    Played {
        words: "replay --target weak --fault loadload --model weak",
        model: "weak",
        test: STORE_AGAINST_TWO_LOADS,
        schedules: "schedule 1:1 0:0 1:0\ndone\n",
        count: 1,
        lines: "sig 0000000000000001 count 1 cycle 0 1 2\n",
        sums: [0, 1, 0],
    },
    // Message passing on the weak machine: the flag before the data.
    Played {
        words: "replay --target weak --model weak",
        model: "weak",
        test: MESSAGE_PASSING,
        schedules: "schedule 0:1 1:0 1:1 0:0\ndone\n",
        count: 1,
        lines: "sig 0000000000000001 count 1 ok\n",
        sums: [1, 0, 0],
    },
    Played {
        words: "replay --target weak --model sc",
        model: "sc",
        test: MESSAGE_PASSING,
        schedules: "schedule 0:1 1:0 1:1 0:0\ndone\n",
        count: 1,
        lines: "sig 0000000000000001 count 1 cycle 0 1 2 3\n",
        sums: [0, 1, 0],
    },
    // The same on `pso`.
    Played {
        words: "replay --target pso --model pso",
        model: "pso",
        test: MESSAGE_PASSING,
        schedules: "schedule 0 0 0!1 1 1 0!0\ndone\n",
        count: 1,
        lines: "sig 0000000000000001 count 1 ok\n",
        sums: [1, 0, 0],
    },
    Played {
        words: "replay --target pso --model tso",
        model: "tso",
        test: MESSAGE_PASSING,
        schedules: "schedule 0 0 0!1 1 1 0!0\ndone\n",
        count: 1,
        lines: "sig 0000000000000001 count 1 cycle 0 1 2 3\n",
        sums: [0, 1, 0],
    },
    // A store fence that doesn't wait.
    Played {
        words: "replay --target pso --model pso --fault nofence",
        model: "pso",
        test: MESSAGE_PASSING_PARTIAL_FENCES,
        schedules: "schedule 0 0 0 0!1 1 1 1 0!\ndone\n",
        count: 1,
        lines: "sig 0000000000000001 count 1 cycle 0 1 2 3 5\n",
        sums: [0, 1, 0],
    },
    Played {
        words: "replay --target weak --fault noforward --model weak",
        model: "weak",
        test: OWN_STORE,
        schedules: "schedule 0:1 0:0\ndone\n",
        count: 1,
        lines: "outside 1 value 0 count 1\n",
        sums: [0, 0, 1],
    },
    Played {
        words: "replay --target weak --fault nofence --model weak",
        model: "weak",
        test: FENCED_STORE_BUFFERING,
        schedules: "schedule 0:2 1:2 0:0 0:1 1:0 1:1\ndone\n",
        count: 1,
        lines: "sig 0000000000000000.0000000000000000 count 1 cycle 0 1 2 3 4 5\n",
        sums: [0, 1, 0],
    },
];

/// Whether schedules have this report.
fn is_played(rt: &(impl Threads + Sync), alloc: Global, row: &Played) -> Result<bool, AllocError> {
    let [_, cycle, outside] = row.sums;
    let status = if cycle == 0 && outside == 0 {
        Status::Clean
    } else {
        Status::Found
    };
    let input = joined(alloc, row.test, row.schedules, 1, "")?;
    let output = report(alloc, row.model, row.count, row.lines, row.sums)?;
    let call = Call {
        words: row.words,
        input: input.as_str(),
        ..CHECK
    };
    leaves(rt, alloc, &call, status, output.as_str(), "")
}

/// The schedules of the first row that have another report, if there is one.
fn wrong_report(
    rt: &(impl Threads + Sync),
    alloc: Global,
) -> Result<Option<&'static str>, AllocError> {
    for row in &PLAYED {
        if !is_played(rt, alloc, row)? {
            return Ok(Some(row.schedules));
        }
    }
    Ok(None)
}

/// The words, the test, its schedules, and the reason for which they are refused. Store buffering has nine lines, so its first schedule stands in
/// line 10.
const NOT_PLAYED: [(&str, &str, &str, &str); 18] = [
    (
        "replay",
        STORE_BUFFERING,
        "schedule 0 0 0\ndone\n",
        "10: NotEnabled place 2",
    ),
    (
        "replay",
        STORE_BUFFERING,
        "schedule 0 1\ndone\n",
        "10: Unfinished",
    ),
    (
        "replay",
        STORE_BUFFERING,
        "schedule 0 1 0 1\nschedule\ndone\n",
        "11: Unfinished",
    ),
    // A schedule that isn't played comes before a bad form in a later line, and its own form before it.
    (
        "replay",
        STORE_BUFFERING,
        "schedule 0 0 0\nschedule  0\ndone\n",
        "10: NotEnabled place 2",
    ),
    (
        "replay",
        STORE_BUFFERING,
        "schedule 0 0 0 4294967296\ndone\n",
        "10: ValueRange",
    ),
    (
        "replay",
        STORE_BUFFERING,
        "schedule 0 0 0 1:x\ndone\n",
        "10: BadRunLine",
    ),
    (
        "replay",
        STORE_BUFFERING,
        "run 0 0\ndone\n",
        "10: BadRunLine",
    ),
    (
        "replay",
        STORE_BUFFERING,
        "schedule 0 1 0 1\n",
        "11: NoDone",
    ),
    (
        "replay",
        STORE_BUFFERING,
        "schedule 0 1 0 1\ndone\n\n",
        "12: AfterDone",
    ),
    // Steps that the machine doesn't have, and a thread that isn't there.
    (
        "replay",
        STORE_BUFFERING,
        "schedule 0 0:1\ndone\n",
        "10: NotEnabled place 1",
    ),
    (
        "replay",
        STORE_BUFFERING,
        "schedule 0 0!\ndone\n",
        "10: NotEnabled place 1",
    ),
    (
        "replay --target pso",
        STORE_BUFFERING,
        "schedule 4294967295\ndone\n",
        "10: NotEnabled place 0",
    ),
    (
        "replay --target weak",
        STORE_BUFFERING,
        "schedule 0:0 2:0\ndone\n",
        "10: NotEnabled place 1",
    ),
    // Without the fault.
    (
        "replay --target tso",
        MESSAGE_PASSING,
        "schedule 0 0 0!1 1 1 0!0\ndone\n",
        "10: NotEnabled place 2",
    ),
    (
        "replay --target tso",
        FENCED_STORE_BUFFERING,
        "schedule 0 0 0 1 1 1 0! 1!\ndone\n",
        "12: NotEnabled place 1",
    ),
    (
        "replay --target weak",
        STORE_AGAINST_TWO_LOADS,
        "schedule 1:1 0:0 1:0\ndone\n",
        "9: NotEnabled place 0",
    ),
    (
        "replay --target pso",
        MESSAGE_PASSING_PARTIAL_FENCES,
        "schedule 0 0 0 0!2 1 1 1 0! 0!\ndone\n",
        "12: NotEnabled place 3",
    ),
    // A store that waits.
    (
        "replay --target tso",
        OWN_STORE,
        "schedule 0 0\ndone\n",
        "7: Unfinished",
    ),
];

/// The reason of the first row that is answered otherwise, if there is one.
fn wrong_reason(
    rt: &(impl Threads + Sync),
    alloc: Global,
) -> Result<Option<&'static str>, AllocError> {
    for (words, test, schedules, reason) in &NOT_PLAYED {
        let input = joined(alloc, *test, *schedules, 1, "")?;
        let line = joined(alloc, "mtrace: input line ", *reason, 1, "\n")?;
        let call = Call {
            words: *words,
            input: input.as_str(),
            ..CHECK
        };
        if !leaves(rt, alloc, &call, Status::Input, "", line.as_str())? {
            return Ok(Some(*reason));
        }
    }
    Ok(None)
}

#[test]
fn schedules(rt: HostRuntime) -> Result<(), Fail> {
    assert_eq!(rt; wrong_report(&rt, rt.alloc())?, None);
    assert_eq!(rt; wrong_reason(&rt, rt.alloc())?, None);
    Ok(())
}

fn too_many_schedules(rt: &(impl Threads + Sync), alloc: Global) -> Result<bool, AllocError> {
    let input = joined(alloc, NO_OPERATION, "schedule\n", 1_000_001, "done\n")?;
    let call = Call {
        words: "replay",
        input: input.as_str(),
        ..CHECK
    };
    let line = "mtrace: too large: runs 1000001\n";
    leaves(rt, alloc, &call, Status::TooLarge, "", line)
}

#[test]
fn limit_on_schedules(rt: HostRuntime) -> Result<(), Fail> {
    assert!(rt; too_many_schedules(&rt, rt.alloc())?);
    Ok(())
}
