//! What a call answers, before anything of it is written.
ghost use Rattle.std.specs.Prelude.{◌≡◌, ◌⊎◌, ◌≤◌, false};
ghost use Rattle.command_line.specs.declared.meaning.Settings.{Settings};
ghost use Rattle.command_line.specs.Settings.{HasNoSettings, HasSettings};
ghost use Rattle.mtrace_app.specs.Answering.{IsAnswerTo, TellsRefusal, answer_line, answer_status};
ghost use Rattle.mtrace_app.specs.Answers.{texts};
ghost use Rattle.mtrace_app.specs.Inputs.{reads};
ghost use Rattle.mtrace_app.specs.Outside.{change, IsPastLimit, IsRestOf, WhereTold};

use crate::counted::Output;
use crate::failure::Failure;
use crate::output::output_for;
use crate::refusal::Refusal;
use crate::status::Status;
use mt_base::{Gate, Source};
use std::alloc::Global;
use std::borrow::CowStr;
use std::thread::Threads;

/// An output that is to be written, or a refusal with its line, or memory was refused.
#[derive(Drop)]
pub(crate) enum Answer {
    Made(Output),
    Refused {
        refusal: Refusal,
        line: CowStr<'static>,
    },
    NoMemory,
}

/// A refusal with its line, unless that wants memory which is refused.
fn refused(alloc: Global, refusal: Refusal) -> Answer
    ensures { TellsRefusal refusal result }
{
    match refusal.line(alloc) {
        Ok(line) => Answer::Refused { refusal, line },
        Err(_) => Answer::NoMemory,
    }
}

/// The answer to words.
pub(crate) fn answer_words<R: Threads + Sync, S: Source, G: Gate + Sync>(
    rt: &R,
    alloc: Global,
    words: &[String],
    source: &mut S,
    gate: &G,
) -> Answer
    ensures answer { IsAnswerTo (texts words.now)
        (change (S.left source.old) (S.left source.new) (S.faults source.old) (S.faults source.new)) result }
    ensures by_words { HasNoSettings (texts words.now) →
        ((answer_status result ≡ Status.Words) ⊎ (result ≡ Answer.NoMemory)) × (source.new ≡ source.old) }
    ensures untouched { (s : Settings) → HasSettings (texts words.now) s → reads s.command ≡ false → source.new ≡ source.old }
    ensures too_large { WhereTold (S.left source.old) (S.left source.new)
        (λ before now. IsPastLimit before now → answer_status result ≡ Status.TooLarge) }
    ensures rest { IsRestOf (S.left source.old) (S.left source.new) }
    ensures later { S.faults source.old ≤ S.faults source.new }
{
    match output_for(rt, alloc, words, source, gate) {
        Ok(output) => Answer::Made(output),
        Err(Failure::Refused(refusal)) => refused(alloc, refusal),
        Err(Failure::Memory) => Answer::NoMemory,
    }
}

impl Answer {
    /// The bytes of the line for the errors, where everything is written; none with an output.
    pub(crate) fn line(&self) -> &[u8]
        ensures { result.now ≡ answer_line self.now }
    {
        match self {
            Answer::Made(_) => b"",
            Answer::Refused { line, .. } => line.as_bytes(),
            Answer::NoMemory => b"mtrace: memory\n",
        }
    }
}
