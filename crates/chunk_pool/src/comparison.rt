//! The checker of a chunk against the walk as it is defined, on drawn tests and runs: each run gets one verdict from both, and both keep one order.
ghost use Rattle.std.specs.Prelude.{◌≡◌, ◌<◌, ◌≤◌, IfOk, IfSome, length};
ghost use Rattle.test_lang.specs.Edges.{IsRunOrder};
ghost use Rattle.test_lang.specs.Runs.{IsInside};
ghost use Rattle.test_lang.specs.Signatures.{groups};

use digraph::Steps;
use graph_model::Static;
use mt_base::Draws;
use signature_plan::Plan;
use std::alloc::{AllocError, Global};
use std::marker::Brand;
use std::sync::ledger::{Blank, Ledger};
use std::test::Fail;
use test_lang::op::MemModel;
use test_lang::test::Test;
use window_resort::plain::{Placed, take_slowly};
use window_resort::{Checker, Verdict};

const SEED: u64 = 1;

/// How many tests are drawn.
const TESTS: u64 = 200;

/// How many runs are taken of each test under each model.
const RUNS: u32 = 8;

const MODELS: [MemModel; 4] = [MemModel::Sc, MemModel::Tso, MemModel::Pso, MemModel::Weak];

/// The line of a drawn operation: mostly a load or a store, and now and then a fence.
fn draw_line(alloc: Global, words: u32, draws: &mut Draws) -> Result<String, AllocError>
    requires { 1 ≤ words }
{
    let word = draws.below(words);
    match draws.below(15) {
        0..=5 => format!(in alloc; "ld {word}\n"),
        6..=11 => format!(in alloc; "st {word}\n"),
        12 => format!(in alloc; "fence\n"),
        13 => format!(in alloc; "fence st\n"),
        _ => format!(in alloc; "fence ld\n"),
    }
}

/// The text of a drawn test, of 4 to 8 operations, which 2 or 3 threads share alike.
fn draw_text(alloc: Global, draws: &mut Draws) -> Result<String, AllocError> {
    let words = 2 + draws.below(2);
    let threads = 2 + draws.below(2);
    let ops = 4 + draws.below(5);
    let mut text = format!(in alloc; "mtest 2\nwords {words}\n")?;
    for thread in 0..threads {
        text.push_str("thread\n")?;
        for _ in (thread..ops).step_by(threads as usize) {
            let line = draw_line(alloc, words, draws)?;
            text.push_str(&line)?;
        }
    }
    text.push_str("end\n")?;
    Ok(text)
}

/// Lets a load give this value, if the run is inside then.
fn set_if_inside(plan: &Plan, run: &mut [u32], words: &mut [u64], rank: usize, value: u32)
    requires inside { IsInside plan.now run.old }
    requires rank { rank < length run.old }
    requires words { length words.old ≡ length (groups plan.now) }
    ensures inside { IsInside plan.now run.new }
    ensures words { length words.new ≡ length words.old }
{
    let before = run[rank];
    run[rank] = value;
    if plan.encode_into(run, words).is_err() {
        run[rank] = before;
    }
}

/// The run after this one: about half of the loads are drawn anew, and those that are outside then give what they gave before.
fn draw_next(plan: &Plan, run: &mut [u32], words: &mut [u64], values: u32, draws: &mut Draws)
    requires inside { IsInside plan.now run.old }
    requires words { length words.old ≡ length (groups plan.now) }
    requires values { 1 ≤ values }
    ensures inside { IsInside plan.now run.new }
    ensures words { length words.new ≡ length words.old }
{
    for rank in 0..run.len() {
        if draws.below(2) == 0 {
            let value = draws.below(values);
            set_if_inside(plan, run, words, rank, value);
        }
    }
}

fn next_counted<L: Ledger>(checker: &mut Checker<'_>, run: &[u32], blank: Blank) -> Verdict
    requires inside { IsInside checker.old.fixed.test run.now }
    requires name { blank.name ≡ L.name }
    requires parts { blank.parts ≡ L.parts }
    requires some { 0 < blank.parts }
    ensures { checker.new.fixed ≡ checker.old.fixed }
{
    let mut steps = Steps::<L>::new(blank);
    checker.next(run, &mut steps)
}

/// Whether the checker has the order of this base, or none where there is none.
fn has_order_of(checker: &Checker<'_>, base: &Option<Placed>) -> bool {
    match base {
        Some(placed) => checker.has_base() && checker.order() == placed.order(),
        None => !checker.has_base(),
    }
}

/// A run is taken by the checker and by the slow walk. The verdict, where both have the same and keep the same order, and the slow walk's base.
fn take_by_both(
    alloc: Global,
    checker: &mut Checker<'_>,
    test: &Test,
    model: MemModel,
    base: Option<Placed>,
    run: &[u32],
) -> Result<(Option<Verdict>, Option<Placed>), AllocError>
    requires inside { IsInside test.now run.now }
    requires test { checker.old.fixed.test ≡ test.now }
    requires order { IfSome base (λ b. IsRunOrder model test.now b.run b.order) }
    ensures fixed { checker.new.fixed ≡ checker.old.fixed }
    ensures order { IfOk result (λ taken. IfSome taken.1 (λ b. IsRunOrder model test.now b.run b.order)) }
{
    let found = next_counted::<Brand>(checker, run, Blank::new(1));
    let (verdict, base) = take_slowly(alloc, test, model, base, run)?;
    if found == verdict && has_order_of(checker, &base) {
        Ok((Some(verdict), base))
    } else {
        Ok((None, base))
    }
}

/// Which verdicts came up.
#[derive(Drop)]
struct Seen {
    sorted: bool,
    kept: bool,
    resorted: bool,
    unsorted: bool,
    unresorted: bool,
}

impl Seen {
    fn note(&mut self, verdict: Verdict) {
        match verdict {
            Verdict::Sorted => self.sorted = true,
            Verdict::Kept => self.kept = true,
            Verdict::Resorted { .. } => self.resorted = true,
            Verdict::Cycle { window: None } => self.unsorted = true,
            Verdict::Cycle { window: Some(_) } => self.unresorted = true,
        }
    }

    fn all(&self) -> bool {
        self.sorted && self.kept && self.resorted && self.unsorted && self.unresorted
    }
}

/// Whether the checker walks drawn runs as it is defined. The first is the run in which each load gives its first candidate.
fn walks_as_defined(
    alloc: Global,
    checker: &mut Checker<'_>,
    test: &Test,
    plan: &Plan,
    model: MemModel,
    draws: &mut Draws,
    seen: &mut Seen,
) -> Result<bool, AllocError>
    requires plan { plan.now ≡ test.now }
    requires checker { checker.old.fixed.test ≡ test.now }
{
    let values = test.stores() + 1;
    let mut words = vec![in alloc; 0u64; plan.words()]?;
    let mut run = vec![in alloc; 0u32; plan.loads()]?;
    let words = words.as_mut_slice();
    let run = run.as_mut_slice();
    if plan.decode_into(words, run).is_err() {
        return Ok(false);
    }
    let mut base = None;
    for _ in 0..RUNS {
        let (verdict, after) = take_by_both(alloc, checker, test, model, base, run)?;
        base = after;
        match verdict {
            Some(verdict) => seen.note(verdict),
            None => return Ok(false),
        }
        draw_next(plan, run, words, values, draws);
    }
    Ok(true)
}

/// Whether a chunk of drawn runs is walked as it is defined.
fn chunk_agrees(
    alloc: Global,
    test: &Test,
    plan: &Plan,
    model: MemModel,
    draws: &mut Draws,
    seen: &mut Seen,
) -> Result<bool, AllocError>
    requires { plan.now ≡ test.now }
{
    let fixed = Static::of(alloc, test, model)?;
    let mut checker = Checker::new(alloc, &fixed)?;
    walks_as_defined(alloc, &mut checker, test, plan, model, draws, seen)
}

/// Whether the checker walks chunks of a drawn test as they are defined, under each model.
fn drawn_test_agrees(alloc: Global, number: u64, seen: &mut Seen) -> Result<bool, AllocError> {
    let mut draws = Draws::new(SEED, number);
    let text = draw_text(alloc, &mut draws)?;
    let Ok(read) = Test::read(alloc, text.as_bytes()) else {
        return Ok(false);
    };
    let plan = Plan::of(alloc, &read.test)?;
    for model in MODELS {
        if !chunk_agrees(alloc, &read.test, &plan, model, &mut draws, seen)? {
            return Ok(false);
        }
    }
    Ok(true)
}

#[test]
fn checker_walks_as_defined(rt: HostRuntime) -> Result<(), Fail> {
    let mut seen = Seen {
        sorted: false,
        kept: false,
        resorted: false,
        unsorted: false,
        unresorted: false,
    };
    for number in 0..TESTS {
        assert!(rt;
            drawn_test_agrees(rt.alloc(), number, &mut seen)?,
            "test {number}"
        );
    }
    assert!(rt; seen.all());
    Ok(())
}
