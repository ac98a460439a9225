//! Draws the test that settings say.
ghost use Rattle.std.specs.Prelude.{◌≡◌, ℕ, ◌+◌, ◌*◌, ◌≤◌, IfOk};
ghost use Rattle.mt_base.specs.Words.{draws_after};
ghost use Rattle.test_lang.specs.Program.{HasWordBelow};
ghost use Rattle.test_gen.specs.Generated.{generated, op_from, words_for};

use crate::settings::GenSettings;
use mt_base::Draws;
use std::alloc::{AllocError, Global};
use test_lang::op::Op;
use test_lang::test::{MAX_OPS, MAX_THREADS, MAX_WORDS, Test};

/// The stream of the words that tests are drawn from.
const STREAM: u64 = 54;

/// Shares of fences and of stores are told in a hundred.
const SHARES: u32 = 100;

/// Draws an operation: one word says what it is, and where it isn't a fence the next one says its word.
fn draw_op(settings: &GenSettings, draws: &mut Draws) -> Op
    requires words { 1 ≤ settings.now.words }
    requires shares { settings.now.stores + settings.now.fences ≤ 100 }
    ensures op { (j : ℕ) → draws.old ≡ draws_after settings.now.seed STREAM j →
        result ≡ op_from settings.now j }
    ensures behind { (j : ℕ) → draws.old ≡ draws_after settings.now.seed STREAM j →
        draws.new ≡ draws_after settings.now.seed STREAM (j + words_for result) }
    ensures word { HasWordBelow settings.now.words result }
{
    let share = draws.below(SHARES);
    if share < settings.fences {
        return Op::Fence;
    }
    let word = draws.below(settings.words);
    if share < settings.fences + settings.stores {
        Op::Store { word }
    } else {
        Op::Load { word }
    }
}

/// The test that the settings draw. An error is want of memory. Without threads, the test has no text.
pub fn generate(alloc: Global, settings: &GenSettings) -> Result<Test, AllocError>
    requires threads { settings.now.threads ≤ MAX_THREADS }
    requires some_words { 1 ≤ settings.now.words }
    requires words { settings.now.words ≤ MAX_WORDS }
    requires ops { settings.now.threads * settings.now.ops ≤ MAX_OPS }
    requires shares { settings.now.stores + settings.now.fences ≤ 100 }
    ensures { IfOk result (λ test. test ≡ generated settings.now) }
{
    let mut test = Test::new(alloc, settings.words);
    let mut draws = Draws::new(settings.seed, STREAM);
    for _thread in 0..settings.threads {
        test.add_thread()?;
        for _place in 0..settings.ops {
            test.add_op(draw_op(settings, &mut draws))?;
        }
    }
    Ok(test)
}
