//! The settings that the words say.
ghost use Rattle.std.specs.Prelude.{◌≡◌, ◌↔◌, ◌<◌, ◌≤◌, ◌^◌, ◌⊎◌, IfOk, IfSome, IsTrue, MatchOption, Ok, Err, map, option_map, string_bytes};
ghost use Rattle.clap.specs.Words.{first_of};
ghost use Rattle.test_gen.specs.declared.settings.GenSettings.{GenSettings};
ghost use Rattle.command_line.specs.declared.meaning.Settings.{Settings};
ghost use Rattle.command_line.specs.Options.{command_value, fault_option, found_rows, model_option, target_option, value};
ghost use Rattle.command_line.specs.Rows.{option_of_number};
ghost use Rattle.command_line.specs.Settings.{HasSettings, HasNoSettings, IsWithinRanges, IsGenWithinRanges, Says, SaysGen, AreConsistent};

use crate::matches::matches;
use crate::meaning::{Command, Settings, WordsFault};
use crate::options::{
    CHUNK, COMMAND, FAULT, FENCES, MAX_SHARES, MODEL, NumberRow, OPS, RUNNERS, RUNS, SEED, STORES,
    TARGET, THREADS, WORDS, WORKERS,
};
use crate::texts::{read_command, read_fault, read_model, read_number, read_target};
use clap::ArgMatches;
use std::alloc::Global;
use test_gen::GenSettings;
use test_lang::op::MemModel;
use test_lang::target::{Fault, Target, fits};
use test_lang::test::MAX_OPS;

/// The text that clap gives of a word.
fn text<'a>(matches: &ArgMatches<'a>, name: &str) -> Option<&'a str>
    ensures { option_map (λ s. s.now) result ≡ first_of name.now (found_rows matches.now) }
{
    matches.get_str(name)
}

impl NumberRow {
    /// The number that the option's text spells.
    fn read(&self, matches: &ArgMatches) -> Option<u64>
        ensures exact { result ≡ value (found_rows matches.now) (option_of_number self.now) }
        ensures within { IfSome result (λ n. (self.now.least ≤ n) × (n ≤ self.now.most)) }
    {
        read_number(text(matches, self.row.name)?, self.least, self.most)
    }

    /// The same, where no number of the option needs more than 32 bits.
    fn read_small(&self, matches: &ArgMatches) -> Option<u32>
        requires { self.now.most < 2 ^ 32 }
        ensures exact { result ≡ value (found_rows matches.now) (option_of_number self.now) }
        ensures within { IfSome result (λ n. (self.now.least ≤ n) × (n ≤ self.now.most)) }
    {
        let number = self.read(matches)?;
        Some(number as u32)
    }
}

/// What the command's word names.
fn command(matches: &ArgMatches) -> Option<Command>
    ensures { result ≡ command_value (found_rows matches.now) }
{
    read_command(text(matches, COMMAND)?)
}

/// What the option of the model names.
fn model(matches: &ArgMatches) -> Option<MemModel>
    ensures { result ≡ value (found_rows matches.now) model_option }
{
    read_model(text(matches, MODEL.name)?)
}

/// What the option of the machine names.
fn target(matches: &ArgMatches) -> Option<Target>
    ensures { result ≡ value (found_rows matches.now) target_option }
{
    read_target(text(matches, TARGET.name)?)
}

/// What the option of the fault names.
fn fault(matches: &ArgMatches) -> Option<Fault>
    ensures { result ≡ value (found_rows matches.now) fault_option }
{
    read_fault(text(matches, FAULT.name)?)
}

/// The settings of the generator.
fn read_gen(matches: &ArgMatches) -> Option<GenSettings>
    ensures says { MatchOption result ((g : GenSettings) → SaysGen (found_rows matches.now) g → ⊥)
        (SaysGen (found_rows matches.now)) }
    ensures ranges { IfSome result IsGenWithinRanges }
{
    Some(GenSettings {
        seed: SEED.read(matches)?,
        threads: THREADS.read_small(matches)?,
        ops: OPS.read_small(matches)?,
        words: WORDS.read_small(matches)?,
        stores: STORES.read_small(matches)?,
        fences: FENCES.read_small(matches)?,
    })
}

/// The settings that all texts say.
fn read_all(matches: &ArgMatches) -> Option<Settings>
    ensures says { MatchOption result ((s : Settings) → Says (found_rows matches.now) s → ⊥)
        (Says (found_rows matches.now)) }
    ensures ranges { IfSome result IsWithinRanges }
{
    Some(Settings {
        command: command(matches)?,
        model: model(matches)?,
        target: target(matches)?,
        fault: fault(matches)?,
        chunk: CHUNK.read_small(matches)?,
        workers: WORKERS.read_small(matches)?,
        runners: RUNNERS.read_small(matches)?,
        runs: RUNS.read_small(matches)?,
        gen_settings: read_gen(matches)?,
    })
}

/// Whether the machine can carry the fault, no drawn test is too large, and no more than all operations are stores and fences.
fn are_consistent(settings: &Settings) -> bool
    requires { IsWithinRanges settings.now }
    ensures { IsTrue result ↔ AreConsistent settings.now }
{
    let drawn = &settings.gen_settings;
    fits(settings.target, settings.fault)
        && drawn.threads * drawn.ops <= MAX_OPS
        && drawn.stores + drawn.fences <= MAX_SHARES
}

/// The settings of the words behind the program's name. Want of memory may be answered in place of any other answer.
pub fn settings(alloc: Global, words: &[String]) -> Result<Settings, WordsFault>
    ensures ok { IfOk result (HasSettings (map string_bytes words.now)) }
    ensures refused { result ≡ Err WordsFault.Refused → HasNoSettings (map string_bytes words.now) }

    // Words that have settings are never refused, and get these.
    ensures known { (s : Settings) →
        HasSettings (map string_bytes words.now) s
        → (result ≡ Ok s) ⊎ (result ≡ Err WordsFault.Memory) }
    ensures ranges { IfOk result IsWithinRanges }
{
    let matches = matches(alloc, words)?;
    let Some(settings) = read_all(&matches) else {
        return Err(WordsFault::Refused);
    };
    if are_consistent(&settings) {
        Ok(settings)
    } else {
        Err(WordsFault::Refused)
    }
}
