//! Signatures that are checked together, in chunks and by several workers.
ghost use Rattle.std.specs.Prelude.{None};

use super::*;

const FOUR_RUNS: &str = "run 0 0\nrun 0 1\nrun 2 0\nrun 2 1\ndone\n";

/// All four runs of store buffering, each twice and so that no two equal ones stand beside each other.
const EIGHT_RUNS: &str =
    "run 2 1\nrun 2 0\nrun 0 1\nrun 0 0\nrun 2 1\nrun 2 0\nrun 0 1\nrun 0 0\ndone\n";

const ONE_EACH: &str = "sig 0000000000000000.0000000000000000 count 1 cycle 0 1 2 3\n\
    sig 0000000000000000.0000000000000001 count 1 ok\n\
    sig 0000000000000001.0000000000000000 count 1 ok\n\
    sig 0000000000000001.0000000000000001 count 1 ok\n\
    sum signatures 4 ok 3 cycle 1 outside 0\n";

const TWO_EACH: &str = "sig 0000000000000000.0000000000000000 count 2 cycle 0 1 2 3\n\
    sig 0000000000000000.0000000000000001 count 2 ok\n\
    sig 0000000000000001.0000000000000000 count 2 ok\n\
    sig 0000000000000001.0000000000000001 count 2 ok\n\
    sum signatures 4 ok 3 cycle 1 outside 0\n";

/// The options of the chunks, a test, its runs, how many these are, and what the report tells of them behind their number.
struct Chunked {
    options: &'static [&'static str],
    test: &'static str,
    runs: &'static str,
    count: u32,
    lines: &'static str,
    work: &'static str,
}

const CHUNKED: [Chunked; 8] = [
    // The first has no order and leaves no base; the window of the third has four nodes, that of the fourth two.
    Chunked {
        options: &["--chunk 4", "", "--chunk 1000000 --workers 64"],
        test: STORE_BUFFERING,
        runs: FOUR_RUNS,
        count: 4,
        lines: ONE_EACH,
        work: "work chunks 1 full 2 kept 0 resorted 2 nodes 6\n",
    },
    Chunked {
        options: &["--chunk 4", "--workers 2"],
        test: STORE_BUFFERING,
        runs: EIGHT_RUNS,
        count: 8,
        lines: TWO_EACH,
        work: "work chunks 1 full 2 kept 0 resorted 2 nodes 6\n",
    },
    // The last chunk is shorter.
    Chunked {
        options: &[
            "--chunk 3",
            "--chunk 3 --workers 2",
            "--chunk 3 --workers 64",
        ],
        test: STORE_BUFFERING,
        runs: FOUR_RUNS,
        count: 4,
        lines: ONE_EACH,
        work: "work chunks 2 full 3 kept 0 resorted 1 nodes 4\n",
    },
    Chunked {
        options: &["--chunk 1", "--chunk 1 --workers 3"],
        test: STORE_BUFFERING,
        runs: FOUR_RUNS,
        count: 4,
        lines: ONE_EACH,
        work: "work chunks 4 full 4 kept 0 resorted 0 nodes 0\n",
    },
    // The second has no order: the third is compared with the run of the first.
    Chunked {
        options: &["--chunk 4", "--chunk 4 --workers 2"],
        test: MESSAGE_PASSING,
        runs: "run 0 0\nrun 2 0\nrun 2 1\ndone\n",
        count: 3,
        lines: "sig 0000000000000000 count 1 ok\n\
            sig 0000000000000001 count 1 cycle 0 1 2 3\n\
            sig 0000000000000003 count 1 ok\n\
            sum signatures 3 ok 2 cycle 1 outside 0\n",
        work: "work chunks 1 full 1 kept 0 resorted 2 nodes 8\n",
    },
    Chunked {
        options: &["--chunk 4"],
        test: TWO_WRITERS,
        runs: "run 1\nrun 2\ndone\n",
        count: 2,
        lines: "sig 0000000000000001 count 1 ok\n\
            sig 0000000000000002 count 1 ok\n\
            sum signatures 2 ok 2 cycle 0 outside 0\n",
        work: "work chunks 1 full 1 kept 1 resorted 0 nodes 0\n",
    },
    // Windows of three nodes and of two; in the last, each load reads the other thread's store over its own.
    Chunked {
        options: &["--chunk 4", "--chunk 4 --workers 2"],
        test: STORE_LOAD_EACH,
        runs: "run 1 2\nrun 1 1\nrun 2 2\nrun 2 1\ndone\n",
        count: 4,
        lines: "sig 0000000000000000.0000000000000000 count 1 ok\n\
            sig 0000000000000000.0000000000000001 count 1 ok\n\
            sig 0000000000000001.0000000000000000 count 1 ok\n\
            sig 0000000000000001.0000000000000001 count 1 cycle 0 2\n\
            sum signatures 4 ok 3 cycle 1 outside 0\n",
        work: "work chunks 1 full 1 kept 0 resorted 3 nodes 7\n",
    },
    Chunked {
        options: &["", "--workers 64"],
        test: STORE_BUFFERING,
        runs: "done\n",
        count: 0,
        lines: "sum signatures 0 ok 0 cycle 0 outside 0\n",
        work: "work chunks 0 full 0 kept 0 resorted 0 nodes 0\n",
    },
];

/// Whether the report of a row is written, with each of its options.
fn is_chunked(
    rt: &(impl Threads + Sync),
    alloc: Global,
    row: &Chunked,
) -> Result<bool, AllocError> {
    let (count, lines, work) = (row.count, row.lines, row.work);
    let report = format!(in alloc; "mtrace 1\nmodel sc\nruns {count}\n{lines}{work}")?;
    let input = joined(alloc, row.test, row.runs, 1, "")?;
    for options in row.options {
        let all = joined(alloc, "check ", *options, 1, "")?;
        let words = words_of(alloc, all.as_str())?;
        let call = Call {
            input: input.as_str(),
            ..CHECK
        };
        let made = make_with(rt, alloc, &words, &call)?;
        if made.output.as_slice() != report.as_bytes() || !made.errs.is_empty() {
            return Ok(false);
        }
    }
    Ok(true)
}

/// The place of the first row that has another report, if there is one.
fn wrong_chunks(rt: &(impl Threads + Sync), alloc: Global) -> Result<Option<usize>, AllocError> {
    for (place, row) in CHUNKED.iter().enumerate() {
        if !is_chunked(rt, alloc, row)? {
            return Ok(Some(place));
        }
    }
    Ok(None)
}

#[test]
fn chunks_and_workers(rt: HostRuntime) -> Result<(), Fail> {
    assert_eq!(rt; wrong_chunks(&rt, rt.alloc())?, None);
    Ok(())
}
