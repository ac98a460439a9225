//! What the lines of a test text have to keep to behind those before them.
ghost use Rattle.std.specs.Prelude.{◌≡◌};
ghost use Rattle.test_lang.specs.Text.Reading.{judged};

use crate::test::{MAX_OPS, MAX_THREADS, Test};
use crate::text::fault::TestFault;
use crate::text::form::Form;

/// The form of a line behind the lines of the test, or the first refusal that applies.
pub fn judge(test: &Test, line: u32, form: Option<Form>) -> Result<Form, TestFault>
    ensures { result ≡ judged test.now line form }
{
    match form {
        None => Err(TestFault::BadLine { line }),
        Some(Form::Thread) if test.threads() >= MAX_THREADS => {
            Err(TestFault::TooManyThreads { line })
        }
        Some(Form::Thread) => Ok(Form::Thread),
        Some(_) if test.threads() == 0 => Err(TestFault::NoThread { line }),
        Some(Form::Operation(action)) if !test.has_word(action.op()) => Err(TestFault::WordRange {
            line,
        }),
        Some(Form::Operation(_)) if test.ops() >= MAX_OPS => Err(TestFault::TooManyOps { line }),
        Some(form) => Ok(form),
    }
}
