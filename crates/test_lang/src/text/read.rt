//! Reading the text of a test, with the refusal of the first bad line: one pass over the bytes, and no memory but the
//! test's own.
ghost use Rattle.std.specs.Prelude.{◌≡◌, ◌⊎◌, ℕ, ◌+◌, ◌≤◌, List, [], ◌∷◌, ◌++◌, length, Result, Ok, Err, IfOk, IfErr, codes};
ghost use Rattle.test_lang.specs.Program.{Program, empty_program};
ghost use Rattle.test_lang.specs.declared.text.fault.TestFault.TheVariants.{Memory};
ghost use Rattle.test_lang.specs.Text.Line.{closed, lines_of};
ghost use Rattle.test_lang.specs.Text.Grammar.{body_lines};
ghost use Rattle.test_lang.specs.Text.Reading.{walk, version_of, words_of, reading};
ghost use Rattle.test_lang.specs.Text.Refusal.{IsRefused, TextMeans};
ghost use Rattle.test_lang.specs.Text.Answer.{IsRead, Answers};
ghost use Rattle.test_lang.specs.declared.text.fault.TestFault.{TestFault};

use crate::test::{LAST_VERSION, MAX_OPS, MAX_THREADS, MAX_WORDS, Test};
use crate::text::fault::TestFault;
use crate::text::form::{Form, read_form};
use crate::text::judge::judge;
use crate::text::line::first_line;
use crate::text::numeral::whole_numeral;
use std::alloc::Global;

/// The most lines that the text of a test may have: the first two, one for each thread and each operation, and the last.
pub const MAX_LINES: u32 = 2 + MAX_THREADS + MAX_OPS + 1;

/// A test, as it was read at the front of some bytes.
#[derive(Debug, Drop)]
pub struct ReadTest {
    pub test: Test,
    /// How many bytes the text of the test has: what stands behind it begins there.
    pub used: usize,
    /// How many lines the text of the test has.
    pub lines: u32,
}

/// The version that the first line gives, or none where it has another form or there is no such version.
fn read_version(line: &[u8]) -> Option<u32>
    ensures { result ≡ version_of line.now }
{
    if line == b"mtest 1".as_slice() {
        Some(1)
    } else if line == b"mtest 2".as_slice() {
        Some(2)
    } else {
        None
    }
}

/// The number of words that the second line gives, or none where it has another form or the number is out of range.
fn read_words(line: &[u8]) -> Option<u32>
    ensures { result ≡ words_of line.now }
{
    match whole_numeral(line.strip_prefix(b"words ")?) {
        Some(words) if 1 <= words && words <= u64::from(MAX_WORDS) => Some(words as u32),
        _ => None,
    }
}

/// A test, the number of its last line, and the bytes behind it.
#[derive(Drop)]
struct Body<'a> {
    test: Test,
    last: u32,
    left: &'a [u8],
}

/// Reads the lines behind the second, up to `end`.
fn read_body(alloc: Global, text: &[u8], version: u32, words: u32) -> Result<Body<'_>, TestFault>
    requires first { 1 ≤ version }
    requires last { version ≤ LAST_VERSION }
    requires some { 1 ≤ words }
    requires few { words ≤ MAX_WORDS }
    ensures test { IfOk result
        (λ body. walk (empty_program version words) 3 (lines_of text.now) ≡ Ok body.test) }
    ensures last { IfOk result (λ body. body.last ≡ length (body_lines body.test) + 3) }
    ensures left { IfOk result
        (λ body. text.now ≡ closed (body_lines body.test ++ codes "end" ∷ []) ++ body.left.now) }
    ensures fault { IfErr result (λ fault. (fault ≡ Memory)
        ⊎ (walk (empty_program version words) 3 (lines_of text.now) ≡ Err fault)) }
{
    let mut test = Test::new_version(alloc, version, words);
    let mut left = text;
    let mut line = 3;
    'body: loop {
        let Some((bytes, rest)) = first_line(left) else {
            return Err(TestFault::NoEnd { line });
        };
        match judge(&test, line, read_form(version, bytes))? {
            Form::Thread => test.add_thread()?,
            Form::Operation(action) => test.add_action(action)?,
            Form::End => {
                return Ok(Body {
                    test,
                    last: line,
                    left: rest,
                });
            }
        }
        left = rest;
        line += 1;
    }
}

fn read_test(alloc: Global, bytes: &[u8]) -> Result<ReadTest, TestFault>
    ensures { Answers result (reading bytes.now) }
{
    let Some((head, rest)) = first_line(bytes) else {
        return Err(TestFault::NoEnd { line: 1 });
    };
    let Some(version) = read_version(head) else {
        return Err(TestFault::BadHead { line: 1 });
    };
    let Some((second, rest)) = first_line(rest) else {
        return Err(TestFault::NoEnd { line: 2 });
    };
    let Some(words) = read_words(second) else {
        return Err(TestFault::BadWords { line: 2 });
    };
    let body = read_body(alloc, rest, version, words)?;
    Ok(ReadTest {
        test: body.test,
        used: bytes.len() - body.left.len(),
        lines: body.last,
    })
}

impl Test {
    /// Reads the test whose text stands at the front of the bytes, or refuses its first bad line.
    pub fn read(alloc: Global, bytes: &[u8]) -> Result<ReadTest, TestFault>
        // What is answered is a function of the bytes, unless memory runs out.
        ensures exact { Answers result (reading bytes.now) }
        // The text of the test that is read stands at the front of the bytes.
        ensures found { IfOk result (IsRead bytes.now) }
        // What is refused is refused so by the rules of the text.
        ensures refused { IfErr result (λ fault. (fault ≡ Memory) ⊎ IsRefused bytes.now fault) }
        // What the bytes mean is answered, unless memory runs out.
        ensures only { (meant : Result Program TestFault) →
            TextMeans bytes.now meant → Answers result meant }
        ensures used_within { IfOk result (λ read. read.used ≤ length bytes.now) }
        ensures few_lines { IfOk result (λ read. read.lines ≤ MAX_LINES) }
    {
        read_test(alloc, bytes)
    }
}
