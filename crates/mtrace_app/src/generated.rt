//! What `generate` writes.
ghost use Rattle.std.specs.Prelude.{◌≡◌, true, IfOk};
ghost use Rattle.command_line.specs.Settings.{AreConsistent, IsWithinRanges};
ghost use Rattle.test_gen.specs.Generated.{generated};
ghost use Rattle.test_lang.specs.Text.Grammar.{test_text};

use crate::counted::Output;
use command_line::Settings;
use std::alloc::{AllocError, Global};
use test_gen::generate;
use test_lang::text::print::print;

/// The text of the test that the settings draw.
pub(crate) fn generated_text(alloc: Global, settings: &Settings) -> Result<Output, AllocError>
    requires ranges { IsWithinRanges settings.now }
    requires consistent { AreConsistent settings.now }
    ensures text { IfOk result (λ output. output.text.items ≡ test_text (generated settings.now.gen_settings)) }
    ensures clean { IfOk result (λ output. output.is_clean ≡ true) }
{
    let test = generate(alloc, &settings.gen_settings)?;
    Ok(Output {
        text: print(alloc, &test)?,
        is_clean: true,
    })
}
