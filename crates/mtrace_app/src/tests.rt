//! The top call over sources and sinks in memory: whole reports, refusals and their lines, and faults.
ghost use Rattle.std.specs.Prelude.{None};

use super::*;
use mt_base::{MemSink, MemSource, OpenGate, Source, Take};
use std::alloc::{AllocError, Global};
use std::test::Fail;
use std::thread::Threads;

mod chunks;
mod drawn;
mod each_place;
mod generated;
mod pieces;
mod plays;
mod raced;
mod together;

const STORE_BUFFERING: &str = "mtest 1\nwords 2\nthread\nst 0\nld 1\nthread\nst 1\nld 0\nend\n";

const MESSAGE_PASSING: &str = "mtest 1\nwords 2\nthread\nst 0\nst 1\nthread\nld 1\nld 0\nend\n";

const MESSAGE_PASSING_FENCES: &str =
    "mtest 1\nwords 2\nthread\nst 0\nfence\nst 1\nthread\nld 1\nfence\nld 0\nend\n";

/// The same with a store fence between the stores and a load fence between the loads.
const MESSAGE_PASSING_PARTIAL_FENCES: &str =
    "mtest 2\nwords 2\nthread\nst 0\nfence st\nst 1\nthread\nld 1\nfence ld\nld 0\nend\n";

/// Store buffering with a store fence in each thread.
const STORE_BUFFERING_STORE_FENCES: &str =
    "mtest 2\nwords 2\nthread\nst 0\nfence st\nld 1\nthread\nst 1\nfence st\nld 0\nend\n";

/// Each of two threads stores to the one word and then loads it.
const STORE_LOAD_EACH: &str = "mtest 1\nwords 1\nthread\nst 0\nld 0\nthread\nst 0\nld 0\nend\n";

const OWN_STORES: &str = "mtest 1\nwords 1\nthread\nst 0\nst 0\nld 0\nend\n";

const STORES_AGAINST_LOADS: &str =
    "mtest 1\nwords 1\nthread\nst 0\nst 0\nthread\nld 0\nld 0\nend\n";

const TWO_WRITERS: &str = "mtest 1\nwords 1\nthread\nst 0\nthread\nst 0\nthread\nld 0\nend\n";

const NO_OPERATION: &str = "mtest 1\nwords 1\nthread\nend\n";

const STORES_ALONE: &str = "mtest 1\nwords 1\nthread\nst 0\nthread\nst 0\nend\n";

/// A store, then loads of one word and of another, in each of two threads.
const STORE_THEN_LOAD_OF_ONE_WORD: &str =
    "mtest 1\nwords 2\nthread\nst 0\nld 0\nld 1\nthread\nst 1\nld 1\nld 0\nend\n";

/// How a source or a sink behaves: how many bytes a sink has room for, how many a call moves at most, and which calls fail.
#[derive(Clone, Copy)]
struct Manner<'a> {
    room: usize,
    most: usize,
    fails: &'a [u32],
}

const FREE: Manner<'static> = Manner {
    room: 100_000,
    most: 65_536,
    fails: &[],
};

/// How a call is made: the words, with a space between two, the input, and how the source, the sink and the errors behave.
#[derive(Clone, Copy)]
struct Call<'a> {
    words: &'static str,
    input: &'a str,
    takes: Manner<'a>,
    puts: Manner<'a>,
    tells: Manner<'a>,
}

const CHECK: Call<'static> = Call {
    words: "check --chunk 1",
    input: "",
    takes: FREE,
    puts: FREE,
    tells: FREE,
};

/// What a call leaves.
#[derive(Drop)]
struct Made {
    status: Status,
    output: Vec<u8>,
    errs: Vec<u8>,
    /// The source is at its end.
    is_read: bool,
}

fn words_of(alloc: Global, text: &str) -> Result<Vec<String>, AllocError> {
    let mut words = Vec::new(alloc);
    for word in text.split_ascii_whitespace() {
        words.push(String::from_str(alloc, word)?)?;
    }
    Ok(words)
}

fn sink_of(alloc: Global, manner: &Manner<'_>) -> Result<MemSink, AllocError> {
    MemSink::with_room(
        alloc,
        manner.room,
        manner.most.max(1),
        manner.fails.to_vec(alloc)?,
    )
}

/// A take that fails is made again.
fn is_at_end(mut source: MemSource) -> bool {
    let mut block = [0u8; 1];
    for _ in 0..2 {
        match source.take(&mut block) {
            Take::End => return true,
            Take::Took(_) => return false,
            Take::Failed => {}
        }
    }
    false
}

/// The one call of all tests.
fn status_of<S: Source>(
    rt: &(impl Threads + Sync),
    alloc: Global,
    words: &[String],
    source: &mut S,
    sink: &mut MemSink,
    errs: &mut MemSink,
) -> Status {
    mtrace(rt, alloc, words, source, sink, errs, &OpenGate)
}

fn make(rt: &(impl Threads + Sync), alloc: Global, call: &Call<'_>) -> Result<Made, AllocError> {
    let words = words_of(alloc, call.words)?;
    make_with(rt, alloc, &words, call)
}

/// The same with these words.
fn make_with(
    rt: &(impl Threads + Sync),
    alloc: Global,
    words: &[String],
    call: &Call<'_>,
) -> Result<Made, AllocError> {
    let bytes = call.input.as_bytes().to_vec(alloc)?;
    let mut source = MemSource::new(
        bytes,
        call.takes.most.max(1),
        call.takes.fails.to_vec(alloc)?,
    );
    let mut sink = sink_of(alloc, &call.puts)?;
    let mut errs = sink_of(alloc, &call.tells)?;
    let status = status_of(rt, alloc, words, &mut source, &mut sink, &mut errs);
    Ok(Made {
        status,
        output: sink.held_bytes().to_vec(alloc)?,
        errs: errs.held_bytes().to_vec(alloc)?,
        is_read: is_at_end(source),
    })
}

/// Whether a call leaves just this. With a status that comes of an input all of the source was read.
fn leaves(
    rt: &(impl Threads + Sync),
    alloc: Global,
    call: &Call<'_>,
    status: Status,
    output: &str,
    line: &str,
) -> Result<bool, AllocError> {
    let made = make(rt, alloc, call)?;
    let may_leave = matches!(status, Status::Words | Status::ReadFault);
    Ok(
        made.status == status
            && made.output.as_slice() == output.as_bytes()
            && made.errs.as_slice() == line.as_bytes()
            && (made.is_read || may_leave),
    )
}

/// The report on so many runs with these lines of outcomes, and so many signatures, ok and not, and outcomes outside. Each signature is a chunk.
fn report(
    alloc: Global,
    model: &str,
    runs: u32,
    lines: &str,
    sums: [u32; 3],
) -> Result<String, AllocError> {
    let [ok, cycle, outside] = sums;
    let signatures = u64::from(ok) + u64::from(cycle);
    format!(in alloc;
        "mtrace 1\nmodel {model}\nruns {runs}\n{lines}\
        sum signatures {signatures} ok {ok} cycle {cycle} outside {outside}\n\
        work chunks {signatures} full {signatures} kept 0 resorted 0 nodes 0\n"
    )
}

/// Runs of a test under each of these models: how many there are, the lines of their outcomes, and the sums.
#[derive(Clone, Copy)]
struct Row<'a> {
    models: &'a [&'a str],
    test: &'a str,
    runs: &'a str,
    count: u32,
    lines: &'a str,
    sums: [u32; 3],
}

const SC: &[&str] = &["sc"];

const TSO: &[&str] = &["tso"];

const PSO: &[&str] = &["pso"];

const WEAK: &[&str] = &["weak"];

const RELAXED: &[&str] = &["tso", "pso", "weak"];

const STRONG: &[&str] = &["sc", "tso"];

const ALL: &[&str] = &["sc", "tso", "pso", "weak"];

const ROWS: [Row<'static>; 26] = [
    // Store buffering: both loads give the initial value.
    Row {
        models: SC,
        test: STORE_BUFFERING,
        runs: "run 0 0\ndone\n",
        count: 1,
        lines: "sig 0000000000000000.0000000000000000 count 1 cycle 0 1 2 3\n",
        sums: [0, 1, 0],
    },
    Row {
        models: TSO,
        test: STORE_BUFFERING,
        runs: "run 0 0\ndone\n",
        count: 1,
        lines: "sig 0000000000000000.0000000000000000 count 1 ok\n",
        sums: [1, 0, 0],
    },
    // All four runs, each once.
    Row {
        models: SC,
        test: STORE_BUFFERING,
        runs: "run 2 1\nrun 2 0\nrun 0 1\nrun 0 0\ndone\n",
        count: 4,
        lines: "sig 0000000000000000.0000000000000000 count 1 cycle 0 1 2 3\n\
            sig 0000000000000000.0000000000000001 count 1 ok\n\
            sig 0000000000000001.0000000000000000 count 1 ok\n\
            sig 0000000000000001.0000000000000001 count 1 ok\n",
        sums: [3, 1, 0],
    },
    // Each twice, with equal ones apart.
    Row {
        models: SC,
        test: STORE_BUFFERING,
        runs: "run 2 1\nrun 2 0\nrun 0 1\nrun 0 0\nrun 2 1\nrun 2 0\nrun 0 1\nrun 0 0\ndone\n",
        count: 8,
        lines: "sig 0000000000000000.0000000000000000 count 2 cycle 0 1 2 3\n\
            sig 0000000000000000.0000000000000001 count 2 ok\n\
            sig 0000000000000001.0000000000000000 count 2 ok\n\
            sig 0000000000000001.0000000000000001 count 2 ok\n",
        sums: [3, 1, 0],
    },
    // Message passing: the flag is seen, and the data aren't.
    Row {
        models: STRONG,
        test: MESSAGE_PASSING,
        runs: "run 2 0\ndone\n",
        count: 1,
        lines: "sig 0000000000000001 count 1 cycle 0 1 2 3\n",
        sums: [0, 1, 0],
    },
    Row {
        models: WEAK,
        test: MESSAGE_PASSING,
        runs: "run 2 0\ndone\n",
        count: 1,
        lines: "sig 0000000000000001 count 1 ok\n",
        sums: [1, 0, 0],
    },
    // With fences: the shortest cycle leaves them out where they aren't needed.
    Row {
        models: STRONG,
        test: MESSAGE_PASSING_FENCES,
        runs: "run 2 0\ndone\n",
        count: 1,
        lines: "sig 0000000000000001 count 1 cycle 0 2 3 5\n",
        sums: [0, 1, 0],
    },
    Row {
        models: WEAK,
        test: MESSAGE_PASSING_FENCES,
        runs: "run 2 0\ndone\n",
        count: 1,
        lines: "sig 0000000000000001 count 1 cycle 0 1 2 3 4 5\n",
        sums: [0, 1, 0],
    },
    // Under `pso` the stores need their fence, and the loads don't.
    Row {
        models: PSO,
        test: MESSAGE_PASSING,
        runs: "run 2 0\ndone\n",
        count: 1,
        lines: "sig 0000000000000001 count 1 ok\n",
        sums: [1, 0, 0],
    },
    Row {
        models: PSO,
        test: MESSAGE_PASSING_FENCES,
        runs: "run 2 0\ndone\n",
        count: 1,
        lines: "sig 0000000000000001 count 1 cycle 0 1 2 3 5\n",
        sums: [0, 1, 0],
    },
    // Store fences and load fences do as well.
    Row {
        models: STRONG,
        test: MESSAGE_PASSING_PARTIAL_FENCES,
        runs: "run 2 0\ndone\n",
        count: 1,
        lines: "sig 0000000000000001 count 1 cycle 0 2 3 5\n",
        sums: [0, 1, 0],
    },
    Row {
        models: PSO,
        test: MESSAGE_PASSING_PARTIAL_FENCES,
        runs: "run 2 0\ndone\n",
        count: 1,
        lines: "sig 0000000000000001 count 1 cycle 0 1 2 3 5\n",
        sums: [0, 1, 0],
    },
    Row {
        models: WEAK,
        test: MESSAGE_PASSING_PARTIAL_FENCES,
        runs: "run 2 0\ndone\n",
        count: 1,
        lines: "sig 0000000000000001 count 1 cycle 0 1 2 3 4 5\n",
        sums: [0, 1, 0],
    },
    // A load doesn't wait for a store fence.
    Row {
        models: RELAXED,
        test: STORE_BUFFERING_STORE_FENCES,
        runs: "run 0 0\ndone\n",
        count: 1,
        lines: "sig 0000000000000000.0000000000000000 count 1 ok\n",
        sums: [1, 0, 0],
    },
    // Each load gives the other thread's store over its own, so each store came before the other.
    Row {
        models: ALL,
        test: STORE_LOAD_EACH,
        runs: "run 2 1\ndone\n",
        count: 1,
        lines: "sig 0000000000000001.0000000000000001 count 1 cycle 0 2\n",
        sums: [0, 1, 0],
    },
    // Two loads see two stores of another thread in the other order.
    Row {
        models: ALL,
        test: STORES_AGAINST_LOADS,
        runs: "run 2 1\ndone\n",
        count: 1,
        lines: "sig 0000000000000005 count 1 cycle 1 2 3\n",
        sums: [0, 1, 0],
    },
    Row {
        models: ALL,
        test: STORES_AGAINST_LOADS,
        runs: "run 1 2\ndone\n",
        count: 1,
        lines: "sig 0000000000000007 count 1 ok\n",
        sums: [1, 0, 0],
    },
    // A load may pass a store of its own thread to its word.
    Row {
        models: TSO,
        test: STORE_THEN_LOAD_OF_ONE_WORD,
        runs: "run 1 0 2 0\ndone\n",
        count: 1,
        lines: "sig 0000000000000000.0000000000000000 count 1 ok\n",
        sums: [1, 0, 0],
    },
    Row {
        models: SC,
        test: STORE_THEN_LOAD_OF_ONE_WORD,
        runs: "run 1 0 2 0\ndone\n",
        count: 1,
        lines: "sig 0000000000000000.0000000000000000 count 1 cycle 0 2 3 5\n",
        sums: [0, 1, 0],
    },
    Row {
        models: SC,
        test: TWO_WRITERS,
        runs: "run 1\nrun 2\ndone\n",
        count: 2,
        lines: "sig 0000000000000001 count 1 ok\nsig 0000000000000002 count 1 ok\n",
        sums: [2, 0, 0],
    },
    // The only candidate is the last store of its own thread.
    Row {
        models: SC,
        test: OWN_STORES,
        runs: "run 1\nrun 0\nrun 9\ndone\n",
        count: 3,
        lines: "outside 2 value 0 count 1\noutside 2 value 1 count 1\noutside 2 value 9 count 1\n",
        sums: [0, 0, 3],
    },
    Row {
        models: SC,
        test: OWN_STORES,
        runs: "run 2\nrun 4294967295\nrun 2\ndone\n",
        count: 3,
        lines: "sig 0000000000000000 count 2 ok\noutside 2 value 4294967295 count 1\n",
        sums: [1, 0, 1],
    },
    // No operation, and no run.
    Row {
        models: SC,
        test: NO_OPERATION,
        runs: "run\ndone\n",
        count: 1,
        lines: "sig none count 1 ok\n",
        sums: [1, 0, 0],
    },
    Row {
        models: SC,
        test: NO_OPERATION,
        runs: "done\n",
        count: 0,
        lines: "",
        sums: [0, 0, 0],
    },
    // Stores alone: no load has a word.
    Row {
        models: SC,
        test: STORES_ALONE,
        runs: "run\nrun\ndone\n",
        count: 2,
        lines: "sig none count 2 ok\n",
        sums: [1, 0, 0],
    },
    // A chunk of more than one signature isn't asked for.
    Row {
        models: SC,
        test: STORE_BUFFERING,
        runs: "run 0 0\nrun 0 0\ndone\n",
        count: 2,
        lines: "sig 0000000000000000.0000000000000000 count 2 cycle 0 1 2 3\n",
        sums: [0, 1, 0],
    },
];

/// The words that ask for a check under a model.
fn words_for(model: &str) -> &'static str {
    match model {
        "sc" => "check --chunk 1",
        "tso" => "check --chunk=1 --model=tso",
        "pso" => "check --model pso --chunk=1",
        _ => "check --model weak --chunk 1",
    }
}

/// Whether a row holds under a model, with so many bytes for each take and for each put.
fn holds_by(
    rt: &(impl Threads + Sync),
    alloc: Global,
    row: &Row<'_>,
    model: &str,
    sizes: (usize, usize),
) -> Result<bool, AllocError> {
    let [_, cycle, outside] = row.sums;
    let status = if cycle == 0 && outside == 0 {
        Status::Clean
    } else {
        Status::Found
    };
    let (takes, puts) = sizes;
    let input = joined(alloc, row.test, row.runs, 1, "")?;
    let output = report(alloc, model, row.count, row.lines, row.sums)?;
    let call = Call {
        words: words_for(model),
        input: input.as_str(),
        takes: Manner {
            most: takes,
            ..FREE
        },
        puts: Manner { most: puts, ..FREE },
        tells: FREE,
    };
    leaves(rt, alloc, &call, status, output.as_str(), "")
}

/// Whether a row holds under a model: with free sources and sinks, and with one byte for each take and three for each put.
fn holds_under(
    rt: &(impl Threads + Sync),
    alloc: Global,
    row: &Row<'_>,
    model: &str,
) -> Result<bool, AllocError> {
    Ok(
        holds_by(rt, alloc, row, model, (65_536, 65_536))?
            && holds_by(rt, alloc, row, model, (1, 3))?,
    )
}

/// The runs of the first row that doesn't hold, if there is one.
fn wrong_row(
    rt: &(impl Threads + Sync),
    alloc: Global,
) -> Result<Option<&'static str>, AllocError> {
    for row in &ROWS {
        for model in row.models {
            if !holds_under(rt, alloc, row, *model)? {
                return Ok(Some(row.runs));
            }
        }
    }
    Ok(None)
}

/// The rows begin with store buffering. A body that gives up (`always_memory`) reports none of them.
#[test]
fn reports_of_runs(rt: HostRuntime) -> Result<(), Fail> {
    assert_eq!(rt; wrong_row(&rt, rt.alloc())?, None);
    Ok(())
}

/// A text, a piece behind it so many times, and an end.
fn joined(
    alloc: Global,
    head: &str,
    piece: &str,
    times: u32,
    end: &str,
) -> Result<String, AllocError> {
    let mut all = String::from_str(alloc, head)?;
    for _ in 0..times {
        all.push_str(piece)?;
    }
    all.push_str(end)?;
    Ok(all)
}

/// Whether an input of one run has a report with these lines, and no cycle.
fn is_clean_run(
    rt: &(impl Threads + Sync),
    alloc: Global,
    input: &str,
    lines: &str,
) -> Result<bool, AllocError> {
    let output = report(alloc, "sc", 1, lines, [1, 0, 0])?;
    let call = Call { input, ..CHECK };
    leaves(rt, alloc, &call, Status::Clean, output.as_str(), "")
}

/// One store against 65 loads, all of which give it.
fn several_words(rt: &(impl Threads + Sync), alloc: Global) -> Result<bool, AllocError> {
    let head = "mtest 1\nwords 1\nthread\nst 0\nthread\n";
    let test = joined(alloc, head, "ld 0\n", 65, "end\nrun")?;
    let input = joined(alloc, test.as_str(), " 1", 65, "\ndone\n")?;
    let lines = "sig ffffffffffffffff.0000000000000001 count 1 ok\n";
    is_clean_run(rt, alloc, input.as_str(), lines)
}

/// One thread of stores and 15 of loads of one word. Each load gives the initial value, which is its first candidate of 129: nine loads fill a
/// word, so a thread has 15 words.
fn sixteen_threads(rt: &(impl Threads + Sync), alloc: Global) -> Result<bool, AllocError> {
    let stores = joined(alloc, "mtest 1\nwords 1\nthread\n", "st 0\n", 128, "")?;
    let thread = joined(alloc, "thread\n", "ld 0\n", 128, "")?;
    let test = joined(alloc, stores.as_str(), thread.as_str(), 15, "end\nrun")?;
    let input = joined(alloc, test.as_str(), " 0", 1920, "\ndone\n")?;
    let first = "sig 0000000000000000";
    let lines = joined(alloc, first, ".0000000000000000", 224, " count 1 ok\n")?;
    is_clean_run(rt, alloc, input.as_str(), lines.as_str())
}

#[test]
fn signatures_of_many_words(rt: HostRuntime) -> Result<(), Fail> {
    assert!(rt; several_words(&rt, rt.alloc())?);
    assert!(rt; sixteen_threads(&rt, rt.alloc())?);
    Ok(())
}

/// Whether an input has no output, and ends with this status and this line.
fn is_refused(
    rt: &(impl Threads + Sync),
    alloc: Global,
    input: &str,
    status: Status,
    reason: &str,
) -> Result<bool, AllocError> {
    let line = joined(alloc, "mtrace: ", reason, 1, "\n")?;
    let call = Call { input, ..CHECK };
    leaves(rt, alloc, &call, status, "", line.as_str())
}

const ONE_STORE: &str = "mtest 1\nwords 1\nthread\nst 0\nend\n";

fn a_million_runs_fit(rt: &(impl Threads + Sync), alloc: Global) -> Result<bool, AllocError> {
    let input = joined(alloc, ONE_STORE, "run\n", 1_000_000, "done\n")?;
    let lines = "sig none count 1000000 ok\n";
    let output = report(alloc, "sc", 1_000_000, lines, [1, 0, 0])?;
    let call = Call {
        input: input.as_str(),
        ..CHECK
    };
    leaves(rt, alloc, &call, Status::Clean, output.as_str(), "")
}

/// A run more, which passes the limit; a bad line behind it is still refused.
fn one_more_passes(rt: &(impl Threads + Sync), alloc: Global) -> Result<bool, AllocError> {
    let mut input = joined(alloc, ONE_STORE, "run\n", 1_000_001, "done\n")?;
    let reason = "too large: runs 1000001";
    let passes = is_refused(rt, alloc, input.as_str(), Status::TooLarge, reason)?;
    input.push_str("x")?;
    let reason = "input line 1000008: AfterDone";
    Ok(passes && is_refused(rt, alloc, input.as_str(), Status::Input, reason)?)
}

fn values_pass(rt: &(impl Threads + Sync), alloc: Global) -> Result<bool, AllocError> {
    let head = "mtest 1\nwords 1\nthread\n";
    let test = joined(alloc, head, "ld 0\n", 2048, "end\n")?;
    let run = joined(alloc, "run", " 0", 2048, "\n")?;
    let input = joined(alloc, test.as_str(), run.as_str(), 32_769, "done\n")?;
    let reason = "too large: values 67110912";
    is_refused(rt, alloc, input.as_str(), Status::TooLarge, reason)
}

#[test]
fn limits_on_runs(rt: HostRuntime) -> Result<(), Fail> {
    assert!(rt; a_million_runs_fit(&rt, rt.alloc())?);
    assert!(rt; one_more_passes(&rt, rt.alloc())?);
    Ok(())
}

#[test]
fn limit_on_values(rt: HostRuntime) -> Result<(), Fail> {
    assert!(rt; values_pass(&rt, rt.alloc())?);
    Ok(())
}

const REFUSED_TESTS: [(&str, &str); 10] = [
    ("", "input line 1: NoEnd"),
    ("mtest 3\n", "input line 1: BadHead"),
    ("mtest 1\r\n", "input line 1: BadHead"),
    ("mtest 1\nwords 257\n", "input line 2: BadWords"),
    ("mtest 1\nwords 1\nst 0\n", "input line 3: NoThread"),
    ("mtest 1\nwords 2\nthread\nst 0", "input line 4: NoEnd"),
    ("mtest 1\nwords 1\nthread\nld 00\n", "input line 4: BadLine"),
    (
        "mtest 1\nwords 2\nthread\nst 0\nld 2\nend\n",
        "input line 5: WordRange",
    ),
    // Store fences and load fences stand in version 2 alone.
    (
        "mtest 1\nwords 2\nthread\nst 0\nfence st\nst 1\nthread\nld 1\nfence ld\nld 0\nend\n",
        "input line 5: BadLine",
    ),
    ("mtest 2\nwords 1\nfence st\n", "input line 3: NoThread"),
];

/// A piece so many times behind the head of a test.
const LONG_TESTS: [(&str, &str, u32, &str); 3] = [
    (
        "mtest 1\nwords 1\n",
        "thread\n",
        17,
        "input line 19: TooManyThreads",
    ),
    (
        "mtest 1\nwords 1\nthread\n",
        "fence\n",
        2049,
        "input line 2052: TooManyOps",
    ),
    (
        "mtest 2\nwords 1\nthread\n",
        "fence ld\n",
        2049,
        "input line 2052: TooManyOps",
    ),
];

/// Behind store buffering.
const REFUSED_RUNS: [(&str, &str); 10] = [
    ("", "input line 10: NoDone"),
    ("run 0\ndone\n", "input line 10: WrongCount want 2 got 1"),
    (
        "run 0 0 0\ndone\n",
        "input line 10: WrongCount want 2 got 3",
    ),
    ("run 0 4294967296\ndone\n", "input line 10: ValueRange"),
    ("run 0 0\n", "input line 11: NoDone"),
    ("run 0 0\ndone\n\n", "input line 12: AfterDone"),
    ("run 0 0\nrun  0 0\ndone\n", "input line 11: BadRunLine"),
    ("run 0 0\nrun 0 01\ndone\n", "input line 11: BadRunLine"),
    ("run 0 0\r\ndone\n", "input line 10: BadRunLine"),
    ("run 0 0\nrun 0 0\ndone", "input line 12: NoDone"),
];

/// The reason of the first input of the tables that is answered otherwise, if there is one.
fn passed_input(
    rt: &(impl Threads + Sync),
    alloc: Global,
) -> Result<Option<&'static str>, AllocError> {
    for (input, reason) in &REFUSED_TESTS {
        if !is_refused(rt, alloc, *input, Status::Input, *reason)? {
            return Ok(Some(*reason));
        }
    }
    for (head, piece, times, reason) in &LONG_TESTS {
        let input = joined(alloc, *head, *piece, *times, "")?;
        if !is_refused(rt, alloc, input.as_str(), Status::Input, *reason)? {
            return Ok(Some(*reason));
        }
    }
    for (runs, reason) in &REFUSED_RUNS {
        let input = joined(alloc, STORE_BUFFERING, *runs, 1, "")?;
        if !is_refused(rt, alloc, input.as_str(), Status::Input, *reason)? {
            return Ok(Some(*reason));
        }
    }
    Ok(None)
}

#[test]
fn refused_inputs(rt: HostRuntime) -> Result<(), Fail> {
    assert_eq!(rt; passed_input(&rt, rt.alloc())?, None);
    Ok(())
}

/// The report on store buffering where both loads give 0 in so many runs.
fn both_zero(alloc: Global, runs: u32) -> Result<String, AllocError> {
    let lines = format!(in alloc;
        "sig 0000000000000000.0000000000000000 count {runs} cycle 0 1 2 3\n"
    )?;
    report(alloc, "sc", runs, lines.as_str(), [0, 1, 0])
}

const WORDS: [(&str, Status, &str); 6] = [
    ("", Status::Words, "mtrace: words\n"),
    ("check --chunk 0", Status::Words, "mtrace: words\n"),
    ("verify", Status::Words, "mtrace: words\n"),
    ("check --seed 007", Status::Words, "mtrace: words\n"),
    ("--help", Status::Words, "mtrace: words\n"),
    (
        "replay --target pso --fault loadload",
        Status::Words,
        "mtrace: words\n",
    ),
];

const ZEROS: &str =
    "mtest 1\nwords 2\nthread\nst 0\nld 1\nthread\nst 1\nld 0\nend\nrun 0 0\ndone\n";

/// The first words of the table that are answered otherwise, or of which something is taken, if there are some.
fn passed_words(
    rt: &(impl Threads + Sync),
    alloc: Global,
) -> Result<Option<&'static str>, AllocError> {
    for (words, status, line) in &WORDS {
        let call = Call {
            words: *words,
            input: ZEROS,
            ..CHECK
        };
        if !leaves(rt, alloc, &call, *status, "", *line)? || make(rt, alloc, &call)?.is_read {
            return Ok(Some(*words));
        }
    }
    Ok(None)
}

#[test]
fn refused_words(rt: HostRuntime) -> Result<(), Fail> {
    assert_eq!(rt; passed_words(&rt, rt.alloc())?, None);
    Ok(())
}

/// How many runs the input has, how many bytes a take gives at most, and which takes fail. Seventy thousand bytes are taken by blocks of 4,096: the eighteenth take gives the last.
const FAILING_TAKES: [(u32, usize, &[u32]); 6] = [
    (1, 1, &[5]),
    // The take that would tell the end fails.
    (1, 65_536, &[1]),
    (8743, 4096, &[0]),
    (8743, 4096, &[8]),
    (8743, 4096, &[17]),
    (8743, 4096, &[18]),
];

/// Whether failing takes of an input are a fault of reading. The input and the numbers are lent for one time, since a call holds both.
fn takes_fail<'a>(
    rt: &(impl Threads + Sync),
    alloc: Global,
    input: &'a str,
    most: usize,
    fails: &'a [u32],
) -> Result<bool, AllocError> {
    let takes = Manner {
        room: 0,
        most,
        fails,
    };
    let call = Call {
        input,
        takes,
        ..CHECK
    };
    let line = "mtrace: read fault\n";
    leaves(rt, alloc, &call, Status::ReadFault, "", line)
}

fn all_takes_fail(rt: &(impl Threads + Sync), alloc: Global) -> Result<bool, AllocError> {
    for (runs, most, fails) in &FAILING_TAKES {
        let input = joined(alloc, STORE_BUFFERING, "run 0 0\n", *runs, "done\n")?;
        if !takes_fail(rt, alloc, input.as_str(), *most, *fails)? {
            return Ok(false);
        }
    }
    Ok(true)
}

/// A take that would come behind the end fails nothing.
fn takes_behind_the_end(rt: &(impl Threads + Sync), alloc: Global) -> Result<bool, AllocError> {
    let input = joined(alloc, STORE_BUFFERING, "run 0 0\n", 8743, "done\n")?;
    let output = both_zero(alloc, 8743)?;
    let takes = Manner {
        room: 0,
        most: 4096,
        fails: &[19],
    };
    let call = Call {
        input: input.as_str(),
        takes,
        ..CHECK
    };
    leaves(rt, alloc, &call, Status::Found, output.as_str(), "")
}

#[test]
fn faults_of_reading(rt: HostRuntime) -> Result<(), Fail> {
    assert!(rt; all_takes_fail(&rt, rt.alloc())?);
    assert!(rt; takes_behind_the_end(&rt, rt.alloc())?);
    Ok(())
}

/// The room of a sink, how many bytes a put writes at most, which puts fail, and how many of the 172 bytes of the report are then written.
const FAILING_PUTS: [(usize, usize, &[u32], usize); 5] = [
    (10_000, 8, &[1], 8),
    (10_000, 8, &[0], 0),
    // A room that is too small.
    (20, 20, &[], 20),
    // The last put fails.
    (10_000, 8, &[21], 168),
    (171, 10_000, &[], 171),
];

fn puts_fail(
    rt: &(impl Threads + Sync),
    alloc: Global,
    puts: Manner<'_>,
    written: usize,
) -> Result<bool, AllocError> {
    let output = both_zero(alloc, 1)?;
    let call = Call {
        input: ZEROS,
        puts,
        ..CHECK
    };
    let made = make(rt, alloc, &call)?;
    Ok(
        made.status == Status::WriteFault
            && made.errs.as_slice() == b"mtrace: write fault\n".as_slice()
            && made.output.len() == written
            && output.as_bytes().starts_with(&made.output),
    )
}

fn all_puts_fail(rt: &(impl Threads + Sync), alloc: Global) -> Result<bool, AllocError> {
    for (room, most, fails, written) in &FAILING_PUTS {
        let puts = Manner {
            room: *room,
            most: *most,
            fails: *fails,
        };
        if !puts_fail(rt, alloc, puts, *written)? {
            return Ok(false);
        }
    }
    Ok(true)
}

/// A put that would come behind the last fails nothing, and where a put may write all, it is the only one.
fn puts_behind_the_last(rt: &(impl Threads + Sync), alloc: Global) -> Result<bool, AllocError> {
    let output = both_zero(alloc, 1)?;
    for (most, fails) in [(8, [22u32].as_slice()), (172, [1u32].as_slice())] {
        let puts = Manner {
            room: 172,
            most,
            fails,
        };
        let call = Call {
            input: ZEROS,
            puts,
            ..CHECK
        };
        if !leaves(rt, alloc, &call, Status::Found, output.as_str(), "")? {
            return Ok(false);
        }
    }
    Ok(true)
}

#[test]
fn faults_of_writing(rt: HostRuntime) -> Result<(), Fail> {
    assert!(rt; all_puts_fail(&rt, rt.alloc())?);
    assert!(rt; puts_behind_the_last(&rt, rt.alloc())?);
    Ok(())
}

const ONE_VALUE: &str =
    "mtest 1\nwords 2\nthread\nst 0\nld 1\nthread\nst 1\nld 0\nend\nrun 0\ndone\n";

/// The words, how many bytes a put to the errors writes at most, which fail, the status, and what the errors get.
const FAILING_ERRORS: [(&str, usize, &[u32], Status, &str); 2] = [
    ("check", 4, &[2], Status::Input, "mtrace: "),
    ("", 100, &[0], Status::Words, ""),
];

fn errors_fail(rt: &(impl Threads + Sync), alloc: Global) -> Result<bool, AllocError> {
    for (words, most, fails, status, line) in &FAILING_ERRORS {
        let tells = Manner {
            room: 100,
            most: *most,
            fails: *fails,
        };
        let call = Call {
            words: *words,
            input: ONE_VALUE,
            tells,
            ..CHECK
        };
        if !leaves(rt, alloc, &call, *status, "", *line)? {
            return Ok(false);
        }
    }
    Ok(true)
}

#[test]
fn faults_of_the_errors_change_no_status(rt: HostRuntime) -> Result<(), Fail> {
    assert!(rt; errors_fail(&rt, rt.alloc())?);
    Ok(())
}

const REFUSALS: [(Refusal, u8, &str); 8] = [
    (Refusal::Words, 2, "mtrace: words\n"),
    (
        Refusal::Input(InputFault {
            line: 7,
            reason: Reason::WrongCount { want: 2, got: 10 },
        }),
        3,
        "mtrace: input line 7: WrongCount want 2 got 10\n",
    ),
    (
        Refusal::Input(InputFault {
            line: 10,
            reason: Reason::NotEnabled { place: 2 },
        }),
        3,
        "mtrace: input line 10: NotEnabled place 2\n",
    ),
    (
        Refusal::Input(InputFault {
            line: 10,
            reason: Reason::Unfinished,
        }),
        3,
        "mtrace: input line 10: Unfinished\n",
    ),
    (Refusal::ReadFault, 4, "mtrace: read fault\n"),
    (
        Refusal::TooLarge(Size::Bytes),
        7,
        "mtrace: too large: bytes\n",
    ),
    (
        Refusal::TooLarge(Size::Runs(9)),
        7,
        "mtrace: too large: runs 9\n",
    ),
    (
        Refusal::TooLarge(Size::Values(9)),
        7,
        "mtrace: too large: values 9\n",
    ),
];

const NUMBERS: [(Status, u8); 4] = [
    (Status::Clean, 0),
    (Status::Found, 1),
    (Status::WriteFault, 5),
    (Status::Memory, 6),
];

fn refusals_are_told(alloc: Global) -> Result<bool, AllocError> {
    for (refusal, number, text) in &REFUSALS {
        let line = refusal.line(alloc)?;
        if line.as_bytes() != text.as_bytes() || refusal.status().exit_number() != *number {
            return Ok(false);
        }
    }
    for (status, number) in &NUMBERS {
        if status.exit_number() != *number {
            return Ok(false);
        }
    }
    Ok(true)
}

#[test]
fn each_refusal_has_its_line_and_each_status_its_number(rt: HostRuntime) -> Result<(), Fail> {
    assert!(rt; refusals_are_told(rt.alloc())?);
    Ok(())
}

/// It fills every buffer with line feeds.
#[derive(Drop)]
struct LineFeeds;

impl Source for LineFeeds {
    ghost left = { λ _. None };

    ghost faults = { λ _. 0 };

    fn take(&mut self, buf: &mut [u8]) -> Take {
        buf.fill(b'\n');
        Take::Took(buf.len())
    }
}

fn never_ends(rt: &(impl Threads + Sync), alloc: Global) -> Result<bool, AllocError> {
    let words = words_of(alloc, "check")?;
    let mut sink = sink_of(alloc, &FREE)?;
    let mut errs = sink_of(alloc, &FREE)?;
    let status = status_of(rt, alloc, &words, &mut LineFeeds, &mut sink, &mut errs);
    Ok(status == Status::TooLarge && errs.held_bytes() == b"mtrace: too large: bytes\n".as_slice())
}

#[test]
fn an_input_without_end_is_too_large(rt: HostRuntime) -> Result<(), Fail> {
    assert!(rt; never_ends(&rt, rt.alloc())?);
    Ok(())
}
