//! Tests that are generated.
ghost use Rattle.std.specs.Prelude.{None};

use super::*;

/// The words, and the text that comes of them.
const GENERATED: [(&str, &str); 4] = [
    (
        "generate --seed 42 --threads 1 --ops 3 --fences 30",
        "mtest 1\nwords 2\nthread\nld 1\nfence\nst 1\nend\n",
    ),
    (
        "generate --seed 42 --threads 1 --ops 3",
        "mtest 1\nwords 2\nthread\nld 1\nst 1\nld 0\nend\n",
    ),
    // What other commands use changes nothing.
    (
        "generate --seed 42 --threads 1 --ops 3 --model weak --target tso --chunk 7 --runs 3",
        "mtest 1\nwords 2\nthread\nld 1\nst 1\nld 0\nend\n",
    ),
    (
        "generate --ops 0 --threads 3 --words 256 --stores 100",
        "mtest 1\nwords 256\nthread\nthread\nthread\nend\n",
    ),
];

/// The words of the first row that write another text, or take something of the source, if there are some.
fn wrong_text(
    rt: &(impl Threads + Sync),
    alloc: Global,
) -> Result<Option<&'static str>, AllocError> {
    for (words, text) in &GENERATED {
        let call = Call {
            words: *words,
            input: "mtest 1\n",
            ..CHECK
        };
        let made = make(rt, alloc, &call)?;
        let is_written = made.status == Status::Clean && made.output.as_slice() == text.as_bytes();
        if !is_written || !made.errs.is_empty() || made.is_read {
            return Ok(Some(*words));
        }
    }
    Ok(None)
}

#[test]
fn generated_tests(rt: HostRuntime) -> Result<(), Fail> {
    assert_eq!(rt; wrong_text(&rt, rt.alloc())?, None);
    Ok(())
}
