//! The words by clap: one command with a word and options.
ghost use Rattle.std.specs.Prelude.{◌≡◌, ◌≢◌, [], IfOk, Err, false, map, string_bytes};
ghost use Rattle.clap.specs.Words.{app_of, rule_of, fault_of, matches_of, with_rule};
ghost use Rattle.command_line.specs.Options.{command_rule, found_rows, option_rule, the_command, with_rules};
ghost use Rattle.command_line.specs.Rows.{number_rule, row_rule};

use crate::meaning::WordsFault;
use crate::options::{COMMAND, NAMES, NUMBERS, NumberRow, OptionRow};
use clap::error::ErrorKind;
use clap::{Arg, ArgMatches, Command};
use std::alloc::{AllocError, Global};

/// An option that takes one text and has a default.
fn option<'a>(alloc: Global, row: &OptionRow) -> Arg<'a>
    ensures rule { rule_of result ≡ option_rule row.now.name.now row.now.default.now }
    ensures local { result.global ≡ false }
{
    Arg::new(alloc, row.name)
        .long(row.name)
        .default_value(row.default)
}

/// The command with an option more for each row.
fn with_names<'a>(
    alloc: Global,
    mut command: Command<'a>,
    rows: &[OptionRow],
) -> Result<Command<'a>, AllocError>
    ensures { IfOk result
        (λ c. app_of c ≡ with_rules (app_of command.entry) (map row_rule rows.now)) }
{
    for row in rows {
        command = command.arg(option(alloc, row))?;
    }
    Ok(command)
}

/// The command with an option more for each row of one that takes numbers.
fn with_numbers<'a>(
    alloc: Global,
    mut command: Command<'a>,
    numbers: &[NumberRow],
) -> Result<Command<'a>, AllocError>
    ensures { IfOk result
        (λ c. app_of c ≡ with_rules (app_of command.entry) (map number_rule numbers.now)) }
{
    for number in numbers {
        command = command.arg(option(alloc, &number.row))?;
    }
    Ok(command)
}

/// The command that the words are read as.
fn command<'a>(alloc: Global) -> Result<Command<'a>, AllocError>
    ensures { IfOk result (λ c. app_of c ≡ the_command) }
{
    let word = Arg::new(alloc, COMMAND).required(true);
    let command = Command::new(alloc, "mtrace")
        .no_binary_name(true)
        .arg(word)?;
    let command = with_names(alloc, command, &NAMES)?;
    with_numbers(alloc, command, &NUMBERS)
}

/// What clap gives of the words.
pub(crate) fn matches<'a>(alloc: Global, words: &'a [String]) -> Result<ArgMatches<'a>, WordsFault>
    ensures ok { IfOk result (λ m. (fault_of the_command (map string_bytes words.entry.now) ≡ [])
        × (found_rows m ≡ matches_of the_command (map string_bytes words.entry.now))) }
    ensures refused { result ≡ Err WordsFault.Refused
        → fault_of the_command (map string_bytes words.entry.now) ≢ [] }
{
    let Ok(command) = command(alloc) else {
        return Err(WordsFault::Memory);
    };
    match command.try_get_matches_from(words) {
        Ok(matches) => Ok(matches),
        Err(error) => match error.kind() {
            ErrorKind::OutOfMemory => Err(WordsFault::Memory),
            _ => Err(WordsFault::Refused),
        },
    }
}
