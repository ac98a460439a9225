//! From counted runs to their report: nothing here asks where the runs come from.
ghost use Rattle.std.specs.Prelude.{◌≡◌, ◌≤◌, ℕ, List, length, not, ◌&&◌, IfOk};
ghost use Rattle.command_line.specs.Settings.{IsWithinRanges};
ghost use Rattle.verdict_report.specs.Lines.{signatures, has_cycle, has_outside};
ghost use Rattle.mtrace_app.specs.Counted.{AreCounted, AreMeant};
ghost use Rattle.mtrace_app.specs.Outputs.{form_of};
ghost use Rattle.mtrace_app.specs.Report.{IsReportIn, text_in, words_of};

use crate::form::Form;
use chunk_pool::{Checked, check_all};
use command_line::Settings;
use mt_base::Gate;
use signature_plan::Plan;
use std::alloc::{AllocError, Global};
use std::thread::Threads;
use tally::{Outcome, Signature, Tally};
use test_lang::op::MemModel;
use test_lang::test::Test;
use verdict_report::{Report, summary, text};

/// Runs of a test that were counted: how many they are, and how often each outcome occurred.
#[derive(Drop)]
pub(crate) struct Counted<'a> {
    pub(crate) test: &'a Test,
    pub(crate) plan: &'a Plan,
    pub(crate) runs: u64,
    pub(crate) tally: &'a Tally,
}

/// What a command writes.
#[derive(Drop)]
pub(crate) struct Output {
    pub(crate) text: Vec<u8>,
    /// It tells no cycle and no value outside of the candidates.
    pub(crate) is_clean: bool,
}

/// The distinct signatures, rising.
fn signatures_of(alloc: Global, tally: &Tally) -> Result<Vec<Signature>, AllocError>
    ensures { IfOk result (λ found. found.items ≡ words_of (signatures tally.now)) }
{
    let mut found = Vec::new(alloc);
    for (outcome, _) in tally.iter() {
        if let Outcome::Inside(signature) = outcome {
            found.push(Signature::of(alloc, signature.words())?)?;
        }
    }
    Ok(found)
}

/// The report of counted runs, by the settings: under their model, in chunks of their size, by so many workers, and in the form of their command.
pub(crate) fn report_of<R: Threads + Sync, G: Gate + Sync>(
    rt: &R,
    alloc: Global,
    settings: &Settings,
    counted: &Counted<'_>,
    gate: &G,
) -> Result<Output, AllocError>
    requires ranges { IsWithinRanges settings.now }
    requires plan { counted.now.plan.now ≡ counted.now.test.now }
    requires few { length (signatures counted.now.tally.now) ≤ 1000000 }
    requires meant { AreMeant counted.now.test.now (signatures counted.now.tally.now) }
    ensures { IfOk result (λ output. (runs : List (List ℕ)) → AreCounted counted.now.test.now runs counted.now.runs counted.now.tally.now
        → IsReportIn (form_of settings.now.command) settings.now.model settings.now.chunk counted.now.test.now runs output.text.items output.is_clean) }
{
    let signatures = signatures_of(alloc, counted.tally)?;
    let checked = check_all(
        rt,
        alloc,
        counted.test,
        counted.plan,
        settings.model,
        &signatures,
        settings.chunk,
        settings.workers,
        gate,
    )?;
    let form = Form::of(settings.command);
    write_report(alloc, settings.model, form, counted, &checked)
}

/// The text of the report in a form, by the verdicts on the signatures and the work.
fn write_report(
    alloc: Global,
    model: MemModel,
    form: Form,
    counted: &Counted<'_>,
    checked: &Checked,
) -> Result<Output, AllocError>
    requires { length checked.now.found.items ≡ length (signatures counted.now.tally.now) }
    ensures text { IfOk result (λ output. output.text.items ≡ text_in form model counted.now.runs
        (record { tally = counted.now.tally.now; verdicts = checked.now.found.items; work = checked.now.work })) }
    ensures clean { IfOk result (λ output. output.is_clean
        ≡ (not (has_cycle checked.now.found.items) && not (has_outside counted.now.tally.now))) }
{
    let report = Report {
        model,
        runs: counted.runs,
        tally: counted.tally,
        found: &checked.found,
        work: checked.work,
    };
    let text = match form {
        Form::Whole => text(alloc, &report)?,
        Form::Summary => summary(alloc, &report)?,
    };
    Ok(Output {
        text,
        is_clean: report.is_clean(),
    })
}
