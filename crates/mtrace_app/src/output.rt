//! What a command writes, by the words and by what the source gives.
ghost use Rattle.std.specs.Prelude.{◌≡◌, ◌⊎◌, ◌≤◌, Err, false, IfOk, IfErr};
ghost use Rattle.command_line.specs.declared.meaning.Settings.{Settings};
ghost use Rattle.command_line.specs.Settings.{AreConsistent, HasNoSettings, HasSettings, IsWithinRanges};
ghost use Rattle.mtrace_app.specs.declared.refusal.Refusal.{Refusal};
ghost use Rattle.mtrace_app.specs.declared.failure.Failure.TheVariants.{Memory, Refused};
ghost use Rattle.mtrace_app.specs.Answers.{HasCause, HasOutput, IsCause, texts};
ghost use Rattle.mtrace_app.specs.Failures.{IfRefused};
ghost use Rattle.mtrace_app.specs.Inputs.{reads};
ghost use Rattle.mtrace_app.specs.Outputs.{IsOfInput, IsOutputOf};
ghost use Rattle.mtrace_app.specs.Outside.{change, IsPastLimit, IsRestOf, WhereTold};

use crate::counted::Output;
use crate::failure::Failure;
use crate::generated::generated_text;
use crate::input::output_for_input;
use crate::reading::read_to_end;
use crate::refusal::{Refusal, Size};
use command_line::{Command, Settings, settings};
use mt_base::{Gate, Source};
use std::alloc::Global;
use std::thread::Threads;

/// The output of a command with its settings.
fn output_of<R: Threads + Sync, S: Source, G: Gate + Sync>(
    rt: &R,
    alloc: Global,
    settings: &Settings,
    source: &mut S,
    gate: &G,
) -> Result<Output, Failure>
    requires ranges { IsWithinRanges settings.now }
    requires consistent { AreConsistent settings.now }
    ensures output { IfOk result (λ output. IsOfInput settings.now (change (S.left source.old) (S.left source.new) (S.faults source.old) (S.faults source.new))
        (λ bytes. IsOutputOf settings.now bytes output.text.items output.is_clean)) }
    ensures refused { IfErr result (IfRefused (IsCause settings.now
        (change (S.left source.old) (S.left source.new) (S.faults source.old) (S.faults source.new)))) }
    ensures too_large { WhereTold (S.left source.old) (S.left source.new)
        (λ before now. IsPastLimit before now → result ≡ Err (Refused (Refusal.TooLarge Size.Bytes))) }
    ensures untouched { reads settings.now.command ≡ false → source.new ≡ source.old }
    ensures rest { IsRestOf (S.left source.old) (S.left source.new) }
    ensures later { S.faults source.old ≤ S.faults source.new }
{
    match settings.command {
        Command::Check | Command::Replay | Command::Run | Command::Race => {
            let input = read_to_end(alloc, source)?;
            output_for_input(rt, alloc, settings, &input, gate)
        }
        Command::Generate => Ok(generated_text(alloc, settings)?),
        Command::Demo => output_for_input(rt, alloc, settings, &[], gate),
    }
}

/// The output that the words ask for.
pub(crate) fn output_for<R: Threads + Sync, S: Source, G: Gate + Sync>(
    rt: &R,
    alloc: Global,
    words: &[String],
    source: &mut S,
    gate: &G,
) -> Result<Output, Failure>
    ensures output { IfOk result (λ output. HasOutput (texts words.now)
        (change (S.left source.old) (S.left source.new) (S.faults source.old) (S.faults source.new)) output.text.items output.is_clean) }
    ensures refused { IfErr result (IfRefused (HasCause (texts words.now)
        (change (S.left source.old) (S.left source.new) (S.faults source.old) (S.faults source.new)))) }
    ensures by_words { HasNoSettings (texts words.now) →
        ((result ≡ Err (Refused Refusal.Words)) ⊎ (result ≡ Err Memory)) × (source.new ≡ source.old) }
    ensures too_large { WhereTold (S.left source.old) (S.left source.new)
        (λ before now. IsPastLimit before now → result ≡ Err (Refused (Refusal.TooLarge Size.Bytes))) }
    ensures untouched { (s : Settings) → HasSettings (texts words.now) s → reads s.command ≡ false → source.new ≡ source.old }
    ensures rest { IsRestOf (S.left source.old) (S.left source.new) }
    ensures later { S.faults source.old ≤ S.faults source.new }
{
    let settings = settings(alloc, words)?;
    output_of(rt, alloc, &settings, source, gate)
}
