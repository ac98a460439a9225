//! What the text of a word stands for.
ghost use Rattle.std.specs.Prelude.{◌≡◌, ◌≤◌, IfSome, is_some};
ghost use Rattle.test_lang.specs.Text.Numeral.{whole_numeral};
ghost use Rattle.command_line.specs.Options.{between, command_of, fault_of, model_of, number_between, plain_fault_of, target_of};

use crate::meaning::Command;
use test_lang::op::MemModel;
use test_lang::target::{Fault, Target};
use test_lang::test::MAX_OPS;
use test_lang::text::numeral::whole_numeral;

/// The command that a text names.
pub(crate) fn read_command(text: &str) -> Option<Command>
    ensures { result ≡ command_of text.now }
{
    match text {
        "check" => Some(Command::Check),
        "replay" => Some(Command::Replay),
        "run" => Some(Command::Run),
        "race" => Some(Command::Race),
        "generate" => Some(Command::Generate),
        "demo" => Some(Command::Demo),
        _ => None,
    }
}

/// The memory model that a text names.
pub(crate) fn read_model(text: &str) -> Option<MemModel>
    ensures { result ≡ model_of text.now }
{
    match text {
        "sc" => Some(MemModel::Sc),
        "tso" => Some(MemModel::Tso),
        "pso" => Some(MemModel::Pso),
        "weak" => Some(MemModel::Weak),
        _ => None,
    }
}

/// The machine that a text names.
pub(crate) fn read_target(text: &str) -> Option<Target>
    ensures { result ≡ target_of text.now }
{
    match text {
        "sc" => Some(Target::Sc),
        "tso" => Some(Target::Tso),
        "pso" => Some(Target::Pso),
        "weak" => Some(Target::Weak),
        _ => None,
    }
}

/// The fault that a word names.
fn read_plain_fault(text: &str) -> Option<Fault>
    ensures { result ≡ plain_fault_of text.now }
{
    match text {
        "none" => Some(Fault::None),
        "nofence" => Some(Fault::NoFence),
        "unordered" => Some(Fault::Unordered),
        "noforward" => Some(Fault::NoForward),
        "loadload" => Some(Fault::LoadLoad),
        _ => None,
    }
}

/// The fault that a text names: one of five words, or `stale:` and the numeral of a node.
pub(crate) fn read_fault(text: &str) -> Option<Fault>
    ensures { result ≡ fault_of text.now }
{
    let Some(node) = text.strip_prefix("stale:") else {
        return read_plain_fault(text);
    };
    let node = read_number(node, 0, u64::from(MAX_OPS) - 1)?;
    Some(Fault::Stale { node: node as u32 })
}

/// The number, if it lies from `least` to `most`.
fn within(number: u64, least: u64, most: u64) -> Option<u64>
    ensures exact { result ≡ between least most number }
    ensures within { IfSome result (λ n. (least ≤ n) × (n ≤ most)) }
{
    if least <= number && number <= most {
        Some(number)
    } else {
        None
    }
}

/// Whether a text is a numeral: digits, of which the first is no zero unless it stands alone.
fn is_numeral(text: &str) -> bool
    ensures { result ≡ is_some (whole_numeral text.now) }
{
    whole_numeral(text.as_bytes()).is_some()
}

/// The number of a numeral, from `least` to `most`. A numeral has no sign and no leading zero.
pub(crate) fn read_number(text: &str, least: u64, most: u64) -> Option<u64>
    ensures exact { result ≡ number_between least most text.now }
    ensures within { IfSome result (λ n. (least ≤ n) × (n ≤ most)) }
{
    if !is_numeral(text) {
        return None;
    }
    match text.parse::<u64>() {
        Ok(number) => within(number, least, most),
        Err(_) => None,
    }
}
