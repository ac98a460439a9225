//! Settings, and the tests that they draw. The texts are those of another program of the generator's published recurrence.
use crate::{GenSettings, generate};
use std::alloc::{AllocError, Global};
use std::process::Abort;
use std::test::Fail;
use test_lang::test::{MAX_OPS, MAX_THREADS, MAX_WORDS};
use test_lang::text::print::print;

/// Settings are the same where each of them is.
#[test]
fn settings_are_compared_whole(rt: HostRuntime) {
    let settings = GenSettings {
        seed: u64::MAX,
        threads: 2,
        ops: 4,
        words: 2,
        stores: 50,
        fences: 0,
    };
    let copied = settings;
    assert_eq!(rt; copied, settings);
    assert!(rt;
        GenSettings {
            seed: 0,
            ..settings
        } != settings
    );
    assert!(rt;
        GenSettings {
            fences: 1,
            ..settings
        } != settings
    );
}

/// Settings, and the text of the test that they draw.
struct Drawn {
    settings: GenSettings,
    text: &'static str,
}

const DRAWN: [Drawn; 9] = [
    // A fence takes one word, a load or a store two.
    Drawn {
        settings: GenSettings {
            seed: 42,
            threads: 1,
            ops: 3,
            words: 2,
            stores: 50,
            fences: 30,
        },
        text: "mtest 1\nwords 2\nthread\nld 1\nfence\nst 1\nend\n",
    },
    Drawn {
        settings: GenSettings {
            seed: 42,
            threads: 1,
            ops: 3,
            words: 2,
            stores: 50,
            fences: 0,
        },
        text: "mtest 1\nwords 2\nthread\nld 1\nst 1\nld 0\nend\n",
    },
    // A thread draws on where the one before it ended.
    Drawn {
        settings: GenSettings {
            seed: 5,
            threads: 2,
            ops: 3,
            words: 3,
            stores: 50,
            fences: 20,
        },
        text: "mtest 1\nwords 3\nthread\nld 0\nst 2\nld 2\nthread\nst 2\nld 1\nfence\nend\n",
    },
    // The most words.
    Drawn {
        settings: GenSettings {
            seed: 0,
            threads: 2,
            ops: 3,
            words: 256,
            stores: 40,
            fences: 20,
        },
        text: "mtest 1\nwords 256\nthread\nst 39\nld 22\nst 77\nthread\nld 50\nst 73\nld 248\nend\n",
    },
    // One word, and no load.
    Drawn {
        settings: GenSettings {
            seed: 42,
            threads: 2,
            ops: 2,
            words: 1,
            stores: 70,
            fences: 30,
        },
        text: "mtest 1\nwords 1\nthread\nst 0\nfence\nthread\nst 0\nst 0\nend\n",
    },
    // Loads alone.
    Drawn {
        settings: GenSettings {
            seed: u64::MAX,
            threads: 2,
            ops: 2,
            words: 2,
            stores: 0,
            fences: 0,
        },
        text: "mtest 1\nwords 2\nthread\nld 0\nld 1\nthread\nld 0\nld 0\nend\n",
    },
    // Stores alone.
    Drawn {
        settings: GenSettings {
            seed: 7,
            threads: 2,
            ops: 2,
            words: 3,
            stores: 100,
            fences: 0,
        },
        text: "mtest 1\nwords 3\nthread\nst 2\nst 2\nthread\nst 1\nst 2\nend\n",
    },
    // Fences alone.
    Drawn {
        settings: GenSettings {
            seed: 7,
            threads: 2,
            ops: 2,
            words: 3,
            stores: 0,
            fences: 100,
        },
        text: "mtest 1\nwords 3\nthread\nfence\nfence\nthread\nfence\nfence\nend\n",
    },
    // No operation.
    Drawn {
        settings: GenSettings {
            seed: 7,
            threads: 3,
            ops: 0,
            words: 3,
            stores: 50,
            fences: 50,
        },
        text: "mtest 1\nwords 3\nthread\nthread\nthread\nend\n",
    },
];

/// As many threads and operations as a test may have.
const LARGEST: GenSettings = GenSettings {
    seed: 9,
    threads: 16,
    ops: 128,
    words: 32,
    stores: 50,
    fences: 10,
};

/// The text of the test that the settings draw.
fn drawn_text(
    rt: &impl Abort,
    alloc: Global,
    settings: &GenSettings,
) -> Result<Vec<u8>, AllocError> {
    assert!(rt; settings.threads <= MAX_THREADS);
    assert!(rt; 1 <= settings.words && settings.words <= MAX_WORDS);
    assert!(rt; settings.threads.saturating_mul(settings.ops) <= MAX_OPS);
    assert!(rt; settings.stores.saturating_add(settings.fences) <= 100);
    let test = generate(alloc, settings)?;
    assert!(rt; 0 < test.threads());
    print(alloc, &test)
}

/// A number that tells texts apart: the bytes as digits to the base 31, modulo 2^64.
fn fingerprint(text: &[u8]) -> u64 {
    let mut number = 0u64;
    for byte in text {
        number = number.wrapping_mul(31).wrapping_add(u64::from(*byte));
    }
    number
}

#[test]
fn settings_draw_these_tests(rt: HostRuntime) -> Result<(), Fail> {
    for drawn in &DRAWN {
        let text = drawn_text(&rt, rt.alloc(), &drawn.settings)?;
        assert!(rt; text.as_slice() == drawn.text.as_bytes());
    }
    let text = drawn_text(&rt, rt.alloc(), &LARGEST)?;
    assert_eq!(rt; text.len(), 11852);
    assert_eq!(rt; fingerprint(&text), 7837826969467911085);
    Ok(())
}
