//! Recorded runs that several workers read and count: each has a piece of the text, and what is written is what reading in one go gives.
ghost use Rattle.std.specs.Prelude.{None};

use super::*;

/// So many lines of eight bytes are cut behind each 8,751 of them by eight workers, and behind 35,001 by two.
const LINES: u32 = 70_000;

const BY_WORKERS: [&str; 3] = [
    "check --chunk 1 --workers 1",
    "check --chunk 1 --workers 2",
    "check --chunk 1 --workers 8",
];

const BAD: &str = "run 0 x\n";

/// Places of runs, the line in place of each of these, and why the text is refused. The first run stands in line 10.
const BAD_LINES: [(&[u32], &str, &str); 17] = [
    // The first and the last line of pieces.
    (&[0], BAD, "input line 10: BadRunLine"),
    (&[8_750], BAD, "input line 8760: BadRunLine"),
    (&[8_751], BAD, "input line 8761: BadRunLine"),
    (&[17_501], BAD, "input line 17511: BadRunLine"),
    (&[17_502], BAD, "input line 17512: BadRunLine"),
    (&[35_000], BAD, "input line 35010: BadRunLine"),
    (&[35_001], BAD, "input line 35011: BadRunLine"),
    (&[61_256], BAD, "input line 61266: BadRunLine"),
    (&[61_257], BAD, "input line 61267: BadRunLine"),
    (&[69_999], BAD, "input line 70009: BadRunLine"),
    // Several pieces have one.
    (
        &[8_751, 17_502, 26_253, 35_004, 43_755, 52_506, 61_257],
        BAD,
        "input line 8761: BadRunLine",
    ),
    (
        &[26_252, 35_000, 69_999],
        "run 100\n",
        "input line 26262: WrongCount want 2 got 1",
    ),
    (
        &[69_998, 69_999],
        "run 100\n",
        "input line 70008: WrongCount want 2 got 1",
    ),
    // A piece ends behind `done`, or begins with it.
    (&[8_750], "done\n", "input line 8761: AfterDone"),
    (&[8_751], "done\n", "input line 8762: AfterDone"),
    (&[35_000], "done\n", "input line 35011: AfterDone"),
    (&[35_001, 69_999], "done\n", "input line 35012: AfterDone"),
];

/// What stands behind all runs, and why the text is refused.
const BAD_ENDS: [(&str, &str); 4] = [
    ("", "input line 70010: NoDone"),
    ("done", "input line 70010: NoDone"),
    ("done\n\n", "input line 70011: AfterDone"),
    ("done\nrun 0 0\n", "input line 70011: AfterDone"),
];

/// A test with this line in place of the runs at these places, and this end.
fn input_with(alloc: Global, places: &[u32], line: &str, end: &str) -> Result<String, AllocError> {
    let mut input = String::from_str(alloc, STORE_BUFFERING)?;
    for place in 0..LINES {
        let is_good = !places.contains(&place);
        input.push_str(if is_good { "run 0 0\n" } else { line })?;
    }
    input.push_str(end)?;
    Ok(input)
}

/// Whether each number of workers leaves just this.
fn all_leave(
    rt: &(impl Threads + Sync),
    alloc: Global,
    input: &str,
    status: Status,
    output: &str,
    line: &str,
) -> Result<bool, AllocError> {
    for words in &BY_WORKERS {
        let call = Call {
            words: *words,
            input,
            ..CHECK
        };
        if !leaves(rt, alloc, &call, status, output, line)? {
            return Ok(false);
        }
    }
    Ok(true)
}

/// Whether each number of workers refuses an input for this reason.
fn all_refuse(
    rt: &(impl Threads + Sync),
    alloc: Global,
    input: &str,
    reason: &str,
) -> Result<bool, AllocError> {
    let line = joined(alloc, "mtrace: ", reason, 1, "\n")?;
    all_leave(rt, alloc, input, Status::Input, "", line.as_str())
}

/// The reason of the first text of the tables that is answered otherwise, if there is one.
fn passed_text(
    rt: &(impl Threads + Sync),
    alloc: Global,
) -> Result<Option<&'static str>, AllocError> {
    for (places, line, reason) in &BAD_LINES {
        let input = input_with(alloc, *places, *line, "done\n")?;
        if !all_refuse(rt, alloc, input.as_str(), *reason)? {
            return Ok(Some(*reason));
        }
    }
    for (end, reason) in &BAD_ENDS {
        let input = input_with(alloc, &[], "", *end)?;
        if !all_refuse(rt, alloc, input.as_str(), *reason)? {
            return Ok(Some(*reason));
        }
    }
    Ok(None)
}

#[test]
fn first_bad_line_of_all_pieces_is_told(rt: HostRuntime) -> Result<(), Fail> {
    assert_eq!(rt; passed_text(&rt, rt.alloc())?, None);
    Ok(())
}

const EACH_OUTCOME: &str = "\
sig 0000000000000000.0000000000000000 count 17500 cycle 0 1 2 3
sig 0000000000000000.0000000000000001 count 17500 ok
sig 0000000000000001.0000000000000000 count 17500 ok
sig 0000000000000001.0000000000000001 count 17500 ok
";

/// The four runs of store buffering in turn, 70,000 in all.
fn each_outcome(rt: &(impl Threads + Sync), alloc: Global) -> Result<bool, AllocError> {
    let runs = "run 0 0\nrun 0 1\nrun 2 0\nrun 2 1\n";
    let input = joined(alloc, STORE_BUFFERING, runs, 17_500, "done\n")?;
    let output = report(alloc, "sc", 70_000, EACH_OUTCOME, [3, 1, 0])?;
    all_leave(
        rt,
        alloc,
        input.as_str(),
        Status::Found,
        output.as_str(),
        "",
    )
}

fn no_run(rt: &(impl Threads + Sync), alloc: Global) -> Result<bool, AllocError> {
    let input = joined(alloc, STORE_BUFFERING, "", 0, "done\n")?;
    let output = report(alloc, "sc", 0, "", [0, 0, 0])?;
    all_leave(
        rt,
        alloc,
        input.as_str(),
        Status::Clean,
        output.as_str(),
        "",
    )
}

#[test]
fn workers_write_the_same(rt: HostRuntime) -> Result<(), Fail> {
    assert!(rt; each_outcome(&rt, rt.alloc())?);
    assert!(rt; no_run(&rt, rt.alloc())?);
    Ok(())
}

/// As many runs as there may be, by pieces.
fn a_million_runs(rt: &(impl Threads + Sync), alloc: Global) -> Result<bool, AllocError> {
    let input = joined(alloc, ONE_STORE, "run\n", 1_000_000, "done\n")?;
    let lines = "sig none count 1000000 ok\n";
    let output = report(alloc, "sc", 1_000_000, lines, [1, 0, 0])?;
    all_leave(
        rt,
        alloc,
        input.as_str(),
        Status::Clean,
        output.as_str(),
        "",
    )
}

/// No piece has too many runs, but all together have.
fn one_run_more(rt: &(impl Threads + Sync), alloc: Global) -> Result<bool, AllocError> {
    let input = joined(alloc, ONE_STORE, "run\n", 1_000_001, "done\n")?;
    let line = "mtrace: too large: runs 1000001\n";
    all_leave(rt, alloc, input.as_str(), Status::TooLarge, "", line)
}

#[test]
fn limit_on_the_runs_of_all_pieces(rt: HostRuntime) -> Result<(), Fail> {
    assert!(rt; a_million_runs(&rt, rt.alloc())?);
    assert!(rt; one_run_more(&rt, rt.alloc())?);
    Ok(())
}
