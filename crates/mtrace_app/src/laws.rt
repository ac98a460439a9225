//! What an input means to a command, over the definitions alone.
ghost use Rattle.std.specs.Prelude.{◌≡◌, ◌⊎◌, ℕ, List, ◌++◌, length, Bool, true, [], ◌∷◌, IsTrue, codes};
ghost use Rattle.command_line.specs.declared.meaning.Command.{Command};
ghost use Rattle.command_line.specs.declared.meaning.Settings.{Settings};
ghost use Rattle.command_line.specs.Settings.{HasSettings};
ghost use Rattle.test_lang.specs.Program.{Program};
ghost use Rattle.test_lang.specs.Text.Line.{closed};
ghost use Rattle.verdict_report.specs.declared.report.Work.{Work};
ghost use Rattle.verdict_report.specs.Lines.{work_line};
ghost use Rattle.mtrace_app.specs.declared.refusal.InputFault.{InputFault};
ghost use Rattle.mtrace_app.specs.Alarms.{IsAlarmFree};
ghost use Rattle.mtrace_app.specs.Inputs.{IsRecorded, IsRefusedInput, fixes_runs};
ghost use Rattle.mtrace_app.specs.OtherSettings.{with_chunk, with_crew};
ghost use Rattle.mtrace_app.specs.Outputs.{IsOutputOf, reports};

use test_lang::plays::done_plays_raise_no_alarm;

/// An input means one test with one list of recorded runs at most, of which a race leaves open all but the number; and then it isn't refused.
pub fn inputs_say_one_thing()
    ensures one { (s : Settings) (bytes : List ℕ) (p q : Program) (runs others : List (List ℕ)) →
        IsRecorded s bytes p runs → IsRecorded s bytes q others
        → (p ≡ q) × (length runs ≡ length others) × (IsTrue (fixes_runs s.command) → runs ≡ others) }
    ensures not_both { (s : Settings) (bytes : List ℕ) (p : Program) (runs : List (List ℕ)) (fault : InputFault) →
        IsRecorded s bytes p runs → ¬ (IsRefusedInput s bytes fault) }
{}

/// An input means recorded runs, or is refused.
pub fn inputs_say_something()
    ensures { (s : Settings) (bytes : List ℕ) → ((p : Program) × (runs : List (List ℕ)) × IsRecorded s bytes p runs)
        ⊎ ((fault : InputFault) × IsRefusedInput s bytes fault) }
{}

/// An input has one refusal at most: its first bad line is one, and so is the reason.
pub fn inputs_have_one_refusal()
    ensures { (s : Settings) (bytes : List ℕ) (fault other : InputFault) →
        IsRefusedInput s bytes fault → IsRefusedInput s bytes other → fault ≡ other }
{}

/// An input has one output at most: one text, which is clean or isn't. Only those of races may differ.
pub fn inputs_have_one_output()
    ensures { (s : Settings) (bytes text other : List ℕ) (is_clean also : Bool) → IsTrue (fixes_runs s.command) →
        IsOutputOf s bytes text is_clean → IsOutputOf s bytes other also
        → (text ≡ other) × (is_clean ≡ also) }
{}

/// How many workers and runners there are changes nothing of what an output is.
pub fn crews_change_nothing()
    ensures { (s : Settings) (workers runners : ℕ) (bytes text : List ℕ) (is_clean : Bool) →
        IsOutputOf s bytes text is_clean → IsOutputOf (with_crew s workers runners) bytes text is_clean }
{}

/// How many signatures stand in a chunk changes the last line of a report alone, that of the work.
pub fn chunks_change_the_last_line_alone()
    ensures { (s : Settings) (chunk : ℕ) (bytes text other : List ℕ) (is_clean also : Bool) → IsTrue (reports s.command) →
        IsOutputOf s bytes text is_clean → IsOutputOf (with_chunk s chunk) bytes other also
        → (front : List ℕ) × (work : Work) × (otherwise : Work) × (text ≡ front ++ closed (work_line work ∷ []))
        × (other ≡ front ++ closed (work_line otherwise ∷ [])) × (is_clean ≡ also) }
{}

/// A race writes lines of runs, and behind them what `check` writes, by the same model and chunks, for the test with these lines and the line `done` behind it.
pub fn races_are_reported_as_checked()
    ensures { (s t : Settings) (bytes text : List ℕ) (is_clean : Bool) → s.command ≡ Command.Race → t.command ≡ Command.Check → t.model ≡ s.model → t.chunk ≡ s.chunk
        → IsOutputOf s bytes text is_clean
        → (lines : List ℕ) × (report : List ℕ) × (text ≡ lines ++ report) × IsOutputOf t (bytes ++ (lines ++ codes "done\n")) report is_clean }
{
    done_plays_raise_no_alarm();
}

/// A machine without a fault gives nothing that its own memory model, or a weaker one, forbids, and a race gives nothing that any model forbids: by settings
/// that words have, the output is clean.
pub fn machines_raise_no_alarm()
    ensures { (words : List (List ℕ)) (s : Settings) (bytes text : List ℕ) (is_clean : Bool) → HasSettings words s → IsAlarmFree s
        → IsOutputOf s bytes text is_clean → is_clean ≡ true }
{
    done_plays_raise_no_alarm();
}
