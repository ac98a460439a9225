//! The call that does all that the program does.
ghost use Rattle.std.specs.Prelude.{◌≡◌, ◌≢◌, ◌≤◌, ◌^◌, ℕ, List, length, false, IfSome, codes};
ghost use Rattle.std.specs.Io.KnownBytes.{Keeps};
ghost use Rattle.mt_base.specs.Faults.{Rose};
ghost use Rattle.command_line.specs.declared.meaning.Settings.{Settings};
ghost use Rattle.command_line.specs.Settings.{HasNoSettings, HasSettings};
ghost use Rattle.mtrace_app.specs.Alarms.{IsAlarmFree};
ghost use Rattle.mtrace_app.specs.Answering.{IsPut, answer_line};
ghost use Rattle.mtrace_app.specs.Answers.{IsAnswered, IsDue, texts};
ghost use Rattle.mtrace_app.specs.Inputs.{reads};
ghost use Rattle.mtrace_app.specs.Outputs.{input_of};
ghost use Rattle.mtrace_app.specs.Outside.{change, IsPastLimit, IsRestOf, IsTold, WhereTold};
ghost use Rattle.mtrace_app.specs.Refusals.{message};
ghost use Rattle.mtrace_app.specs.Status.{EndsWith};

use crate::answer::{Answer, answer_words};
use crate::laws::machines_raise_no_alarm;
use crate::status::Status;
use crate::writing::put_all;
use mt_base::{Gate, Sink, Source};
use std::alloc::Global;
use std::thread::Threads;

/// Answers the words, which stand behind the program's name. A status from 2 on is told by a line to `errs`.
///
/// `check`, `replay`, `run` and `race` read the source to its end: a test, and for the first two recorded runs or schedules of it. `generate` and `demo` take
/// nothing. `check` reads and counts its runs by as many workers as the words say, `run` and `demo` play theirs by as many runners, and signatures are
/// checked by as many workers. Runner `k` tells the gate `at(k, 0)` before its first run, in each race so does thread `k` of the test, and when all runs
/// are there, so does worker `k` before its first signature; the gate is told too when a runner holds the turn of the set that runners share. Who reads and
/// counts recorded runs tells it nothing. The whole output is made before it is put to the sink, and each put offers all that is left of it.
pub fn mtrace<S: Source, K: Sink, E: Sink, G: Gate + Sync>(
    rt: &(impl Threads + Sync),
    alloc: Global,
    words: &[String],
    source: &mut S,
    sink: &mut K,
    errs: &mut E,
    gate: &G,
) -> Status
    // Each answer has its cause, and by it what the sink gets and the line for the errors. Want of memory needs no cause.
    // Where the errors have a fault, they get a front of that line.
    ensures answered { (line : List ℕ)
        × IsAnswered (texts words.now)
        (change (S.left source.old) (S.left source.new) (S.faults source.old) (S.faults source.new))
        (change (K.held sink.old) (K.held sink.new) (K.faults sink.old) (K.faults sink.new)) result line
        × IsTold line (change (E.held errs.old) (E.held errs.new) (E.faults errs.old) (E.faults errs.new)) }

    // Words without settings are refused before anything is taken or put.
    ensures by_words { HasNoSettings (texts words.now) → EndsWith result Status.Words × (source.new ≡ source.old) × Keeps (K.held sink.old) (K.held sink.new) }

    // Bytes within the limit that are taken without a fault are answered by what they mean.
    // Nothing but want of memory keeps that back.
    ensures complete { (s : Settings) → HasSettings (texts words.now) s
        → ¬ (Rose (S.faults source.old) (S.faults source.new))
        → IfSome (input_of s (S.left source.old)) (λ bytes. length bytes ≤ 2 ^ 30
        → IsDue s bytes (change (K.held sink.old) (K.held sink.new) (K.faults sink.old) (K.faults sink.new)) result) }
    // A machine without a fault gives nothing that its own memory model, or a weaker one, forbids.
    ensures no_alarm { (s : Settings) → HasSettings (texts words.now) s → IsAlarmFree s → result ≢ Status.Found }
    ensures too_large { WhereTold (S.left source.old) (S.left source.new) (λ before now. IsPastLimit before now → result ≡ Status.TooLarge) }
    // A command that reads nothing takes nothing.
    ensures untouched { (s : Settings) → HasSettings (texts words.now) s → reads s.command ≡ false → source.new ≡ source.old }

    // No more is taken than the limit and a block of 2^16 bytes, and no count of faults falls.
    ensures rest { IsRestOf (S.left source.old) (S.left source.new) }
    ensures source_later { S.faults source.old ≤ S.faults source.new }
    ensures sink_later { K.faults sink.old ≤ K.faults sink.new }
    ensures errs_later { E.faults errs.old ≤ E.faults errs.new }
{
    // The law of no false alarm, for the clause `no_alarm`.
    machines_raise_no_alarm();
    let answer = answer_words(rt, alloc, words, source, gate);
    let status = put_output(&answer, sink);
    let _ = put_all(errs, told(&answer, status));
    status
}

/// Puts the output, if there is one, to the sink, and gives the status.
fn put_output<K: Sink>(answer: &Answer, sink: &mut K) -> Status
    ensures put { IsPut answer.now (change (K.held sink.old) (K.held sink.new) (K.faults sink.old) (K.faults sink.new)) result }
    ensures later { K.faults sink.old ≤ K.faults sink.new }
{
    match answer {
        Answer::Made(output) => match put_all(sink, &output.text) {
            Ok(()) if output.is_clean => Status::Clean,
            Ok(()) => Status::Found,
            Err(_) => Status::WriteFault,
        },
        Answer::Refused { refusal, .. } => refusal.status(),
        Answer::NoMemory => Status::Memory,
    }
}

/// The line that tells how the call ends.
fn told(answer: &Answer, status: Status) -> &[u8]
    ensures failed { status ≡ Status.WriteFault → result.now ≡ message (codes "write fault") }
    ensures other { status ≢ Status.WriteFault → result.now ≡ answer_line answer.now }
{
    match status {
        Status::WriteFault => b"mtrace: write fault\n",
        _ => answer.line(),
    }
}
