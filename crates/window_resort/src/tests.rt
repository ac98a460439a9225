//! Walks of small tests: the verdict on each run, and the base's order after it.
ghost use Rattle.std.specs.Prelude.{◌≡◌, ◌≤◌, ◌<◌, IfOk};
ghost use Rattle.test_lang.specs.declared.op.MemModel.TheVariants.{Sc};
ghost use Rattle.test_lang.specs.Litmus.{message_passing, no_operations, store_buffering, store_load_each, two_writers};
ghost use Rattle.test_lang.specs.Runs.{IsInside};

use crate::{Checker, Verdict};
use digraph::{Nodes, Steps};
use graph_model::Static;
use std::alloc::{AllocError, Global};
use std::marker::Brand;
use std::sync::ledger::{Blank, Ledger};
use std::test::Fail;
use test_lang::op::{MemModel, Op};
use test_lang::test::Test;

fn next_counted<L: Ledger>(checker: &mut Checker<'_>, run: &[u32], blank: Blank) -> Verdict
    requires inside { IsInside checker.old.fixed.test run.now }
    requires name { blank.name ≡ L.name }
    requires parts { blank.parts ≡ L.parts }
    requires some { 0 < blank.parts }
    ensures { checker.new.fixed ≡ checker.old.fixed }
{
    let mut steps = Steps::<L>::new(blank);
    checker.next(run, &mut steps)
}

fn next(checker: &mut Checker<'_>, run: &[u32]) -> Verdict
    requires { IsInside checker.old.fixed.test run.now }
    ensures { checker.new.fixed ≡ checker.old.fixed }
{
    next_counted::<Brand>(checker, run, Blank::new(1))
}

/// The verdict on a run, and the base's order after it. Without a base the order is empty.
type Row = (Verdict, &'static [u32]);

/// Whether the run is taken so.
fn takes(checker: &mut Checker<'_>, run: &[u32], row: Row) -> bool
    requires { IsInside checker.old.fixed.test run.now }
    ensures { checker.new.fixed ≡ checker.old.fixed }
{
    let (verdict, order) = row;
    let got = next(checker, run);
    let has_order = if checker.has_base() {
        checker.order() == order
    } else {
        order.is_empty()
    };
    got == verdict && has_order
}

fn buffering(alloc: Global) -> Result<Test, AllocError>
    ensures { IfOk result (λ t. t ≡ store_buffering) }
{
    let mut test = Test::new(alloc, 2);
    test.add_thread()?;
    test.add_op(Op::Store { word: 0 })?;
    test.add_op(Op::Load { word: 1 })?;
    test.add_thread()?;
    test.add_op(Op::Store { word: 1 })?;
    test.add_op(Op::Load { word: 0 })?;
    Ok(test)
}

fn passing(alloc: Global) -> Result<Test, AllocError>
    ensures { IfOk result (λ t. t ≡ message_passing) }
{
    let mut test = Test::new(alloc, 2);
    test.add_thread()?;
    test.add_op(Op::Store { word: 0 })?;
    test.add_op(Op::Store { word: 1 })?;
    test.add_thread()?;
    test.add_op(Op::Load { word: 1 })?;
    test.add_op(Op::Load { word: 0 })?;
    Ok(test)
}

fn writers(alloc: Global) -> Result<Test, AllocError>
    ensures { IfOk result (λ t. t ≡ two_writers) }
{
    let mut test = Test::new(alloc, 1);
    test.add_thread()?;
    test.add_op(Op::Store { word: 0 })?;
    test.add_thread()?;
    test.add_op(Op::Store { word: 0 })?;
    test.add_thread()?;
    test.add_op(Op::Load { word: 0 })?;
    Ok(test)
}

fn reading_writers(alloc: Global) -> Result<Test, AllocError>
    ensures { IfOk result (λ t. t ≡ store_load_each) }
{
    let mut test = Test::new(alloc, 1);
    test.add_thread()?;
    test.add_op(Op::Store { word: 0 })?;
    test.add_op(Op::Load { word: 0 })?;
    test.add_thread()?;
    test.add_op(Op::Store { word: 0 })?;
    test.add_op(Op::Load { word: 0 })?;
    Ok(test)
}

fn idle(alloc: Global) -> Result<Test, AllocError>
    ensures { IfOk result (λ t. t ≡ no_operations) }
{
    let mut test = Test::new(alloc, 1);
    test.add_thread()?;
    Ok(test)
}

/// The runs 0 0, 0 1, 2 0 and 2 1 of store buffering. Under `sc` the first has a cycle before there is a base; windows are of all nodes, and of two at the front, in the middle and at the back.
const BUFFERING: [(MemModel, [Row; 4]); 4] = [
    (
        MemModel::Sc,
        [
            (Verdict::Cycle { window: None }, &[]),
            (Verdict::Sorted, &[0, 1, 2, 3]),
            (Verdict::Resorted { nodes: 4 }, &[2, 3, 0, 1]),
            (Verdict::Resorted { nodes: 2 }, &[2, 0, 3, 1]),
        ],
    ),
    (
        MemModel::Tso,
        [
            (Verdict::Sorted, &[1, 2, 3, 0]),
            (Verdict::Resorted { nodes: 2 }, &[1, 2, 0, 3]),
            (Verdict::Resorted { nodes: 4 }, &[2, 1, 3, 0]),
            (Verdict::Resorted { nodes: 2 }, &[2, 1, 0, 3]),
        ],
    ),
    (
        MemModel::Pso,
        [
            (Verdict::Sorted, &[1, 2, 3, 0]),
            (Verdict::Resorted { nodes: 2 }, &[1, 2, 0, 3]),
            (Verdict::Resorted { nodes: 4 }, &[2, 1, 3, 0]),
            (Verdict::Resorted { nodes: 2 }, &[2, 1, 0, 3]),
        ],
    ),
    (
        MemModel::Weak,
        [
            (Verdict::Sorted, &[1, 2, 3, 0]),
            (Verdict::Resorted { nodes: 2 }, &[1, 2, 0, 3]),
            (Verdict::Resorted { nodes: 4 }, &[2, 1, 3, 0]),
            (Verdict::Resorted { nodes: 2 }, &[2, 1, 0, 3]),
        ],
    ),
];

/// The runs 0 0, 2 0 and 2 1 of message passing. Under `sc` the second has a cycle, so the third is sorted from the order of the first.
const PASSING: [(MemModel, [Row; 3]); 4] = [
    (
        MemModel::Sc,
        [
            (Verdict::Sorted, &[2, 3, 0, 1]),
            (Verdict::Cycle { window: Some(4) }, &[2, 3, 0, 1]),
            (Verdict::Resorted { nodes: 4 }, &[0, 1, 2, 3]),
        ],
    ),
    (
        MemModel::Tso,
        [
            (Verdict::Sorted, &[2, 3, 0, 1]),
            (Verdict::Cycle { window: Some(4) }, &[2, 3, 0, 1]),
            (Verdict::Resorted { nodes: 4 }, &[0, 1, 2, 3]),
        ],
    ),
    (
        MemModel::Pso,
        [
            (Verdict::Sorted, &[2, 1, 3, 0]),
            (Verdict::Resorted { nodes: 2 }, &[1, 2, 3, 0]),
            (Verdict::Resorted { nodes: 2 }, &[1, 2, 0, 3]),
        ],
    ),
    (
        MemModel::Weak,
        [
            (Verdict::Sorted, &[2, 1, 3, 0]),
            (Verdict::Resorted { nodes: 2 }, &[1, 2, 3, 0]),
            (Verdict::Resorted { nodes: 2 }, &[1, 2, 0, 3]),
        ],
    ),
];

/// The runs 1 2, 1 1, 2 2 and 2 1 of two threads that each store to one word and then load it: what each load gives shows which store came last.
const READING_WRITERS: [(MemModel, [Row; 4]); 4] = [
    (
        MemModel::Sc,
        [
            (Verdict::Sorted, &[0, 1, 2, 3]),
            (Verdict::Resorted { nodes: 3 }, &[2, 0, 1, 3]),
            (Verdict::Resorted { nodes: 2 }, &[0, 2, 1, 3]),
            (Verdict::Cycle { window: Some(2) }, &[0, 2, 1, 3]),
        ],
    ),
    (
        MemModel::Tso,
        [
            (Verdict::Sorted, &[0, 1, 2, 3]),
            (Verdict::Resorted { nodes: 3 }, &[1, 2, 0, 3]),
            (Verdict::Resorted { nodes: 3 }, &[0, 2, 1, 3]),
            (Verdict::Cycle { window: Some(2) }, &[0, 2, 1, 3]),
        ],
    ),
    (
        MemModel::Pso,
        [
            (Verdict::Sorted, &[0, 1, 2, 3]),
            (Verdict::Resorted { nodes: 3 }, &[1, 2, 0, 3]),
            (Verdict::Resorted { nodes: 3 }, &[0, 2, 1, 3]),
            (Verdict::Cycle { window: Some(2) }, &[0, 2, 1, 3]),
        ],
    ),
    (
        MemModel::Weak,
        [
            (Verdict::Sorted, &[0, 1, 2, 3]),
            (Verdict::Resorted { nodes: 3 }, &[1, 2, 0, 3]),
            (Verdict::Resorted { nodes: 3 }, &[0, 2, 1, 3]),
            (Verdict::Cycle { window: Some(2) }, &[0, 2, 1, 3]),
        ],
    ),
];

fn takes_buffering(checker: &mut Checker<'_>, rows: &[Row; 4]) -> bool
    requires { checker.old.fixed.test ≡ store_buffering }
{
    let first = takes(checker, &[0, 0], rows[0]);
    let second = takes(checker, &[0, 1], rows[1]);
    let third = takes(checker, &[2, 0], rows[2]);
    let fourth = takes(checker, &[2, 1], rows[3]);
    first & second & third & fourth
}

fn buffering_walks(alloc: Global, model: MemModel, rows: &[Row; 4]) -> Result<bool, AllocError> {
    let test = buffering(alloc)?;
    let fixed = Static::of(alloc, &test, model)?;
    let mut checker = Checker::new(alloc, &fixed)?;
    Ok(takes_buffering(&mut checker, rows))
}

fn takes_passing(checker: &mut Checker<'_>, rows: &[Row; 3]) -> bool
    requires { checker.old.fixed.test ≡ message_passing }
{
    let first = takes(checker, &[0, 0], rows[0]);
    let second = takes(checker, &[2, 0], rows[1]);
    let third = takes(checker, &[2, 1], rows[2]);
    first & second & third
}

fn passing_walks(alloc: Global, model: MemModel, rows: &[Row; 3]) -> Result<bool, AllocError> {
    let test = passing(alloc)?;
    let fixed = Static::of(alloc, &test, model)?;
    let mut checker = Checker::new(alloc, &fixed)?;
    Ok(takes_passing(&mut checker, rows))
}

fn takes_reading_writers(checker: &mut Checker<'_>, rows: &[Row; 4]) -> bool
    requires { checker.old.fixed.test ≡ store_load_each }
{
    let first = takes(checker, &[1, 2], rows[0]);
    let second = takes(checker, &[1, 1], rows[1]);
    let third = takes(checker, &[2, 2], rows[2]);
    let fourth = takes(checker, &[2, 1], rows[3]);
    first & second & third & fourth
}

fn reading_writers_walk(
    alloc: Global,
    model: MemModel,
    rows: &[Row; 4],
) -> Result<bool, AllocError> {
    let test = reading_writers(alloc)?;
    let fixed = Static::of(alloc, &test, model)?;
    let mut checker = Checker::new(alloc, &fixed)?;
    Ok(takes_reading_writers(&mut checker, rows))
}

#[test]
fn walks_under_each_model(rt: HostRuntime) -> Result<(), Fail> {
    for (model, rows) in &BUFFERING {
        assert!(rt; buffering_walks(rt.alloc(), *model, rows)?);
    }
    for (model, rows) in &PASSING {
        assert!(rt; passing_walks(rt.alloc(), *model, rows)?);
    }
    for (model, rows) in &READING_WRITERS {
        assert!(rt; reading_writers_walk(rt.alloc(), *model, rows)?);
    }
    Ok(())
}

/// Two threads store to a word, and the load of a third shows nothing of their order.
fn takes_writers(checker: &mut Checker<'_>) -> bool
    requires { checker.old.fixed.test ≡ two_writers }
{
    let sorted = takes(checker, &[1], (Verdict::Sorted, &[0, 1, 2]));
    let kept = takes(checker, &[2], (Verdict::Kept, &[0, 1, 2]));
    sorted & kept
}

fn writers_keep_the_order(alloc: Global) -> Result<bool, AllocError> {
    let test = writers(alloc)?;
    let fixed = Static::of(alloc, &test, MemModel::Sc)?;
    let mut checker = Checker::new(alloc, &fixed)?;
    Ok(takes_writers(&mut checker))
}

/// Without an order there is no base, and a chunk begins without one.
fn takes_chunks(checker: &mut Checker<'_>) -> bool
    requires { checker.old.fixed.test ≡ store_buffering }
{
    let none: Row = (Verdict::Cycle { window: None }, &[]);
    let first = takes(checker, &[0, 0], none);
    let again = takes(checker, &[0, 0], none);
    let sorted = takes(checker, &[2, 0], (Verdict::Sorted, &[2, 3, 0, 1]));
    checker.start();
    let anew = takes(checker, &[2, 1], (Verdict::Sorted, &[0, 2, 1, 3]));
    first & again & sorted & anew
}

fn begins_anew(alloc: Global) -> Result<bool, AllocError> {
    let test = buffering(alloc)?;
    let fixed = Static::of(alloc, &test, MemModel::Sc)?;
    let mut checker = Checker::new(alloc, &fixed)?;
    Ok(takes_chunks(&mut checker))
}

/// A test without operations has one run, whose order is empty.
fn takes_idle(checker: &mut Checker<'_>) -> bool
    requires { checker.old.fixed.test ≡ no_operations }
{
    let sorted = takes(checker, &[], (Verdict::Sorted, &[]));
    let kept = takes(checker, &[], (Verdict::Kept, &[]));
    sorted & kept
}

fn idle_keeps_the_order(alloc: Global) -> Result<bool, AllocError> {
    let test = idle(alloc)?;
    let fixed = Static::of(alloc, &test, MemModel::Weak)?;
    let mut checker = Checker::new(alloc, &fixed)?;
    Ok(takes_idle(&mut checker))
}

#[test]
fn small_chunks(rt: HostRuntime) -> Result<(), Fail> {
    assert!(rt; writers_keep_the_order(rt.alloc())?);
    assert!(rt; begins_anew(rt.alloc())?);
    assert!(rt; idle_keeps_the_order(rt.alloc())?);
    Ok(())
}

/// Whether the run of store buffering in which both loads give 0 has this cycle, and the base stays.
fn cycle_is(checker: &mut Checker<'_>, cycle: &mut Nodes, want: &[u32]) -> bool
    requires test { checker.old.fixed.test ≡ store_buffering }
    requires model { checker.old.fixed.model ≡ Sc }
    requires room { 4 ≤ cycle.old.room }
    ensures unchanged { checker.new ≡ checker.old }
    ensures room { cycle.new.room ≡ cycle.old.room }
{
    checker.cycle_into(&[0, 0], cycle);
    cycle.list() == want
}

/// The cycle is the same with a base and without one, and a run after it is sorted from the base.
fn finds_cycles(checker: &mut Checker<'_>, cycle: &mut Nodes) -> bool
    requires test { checker.old.fixed.test ≡ store_buffering }
    requires model { checker.old.fixed.model ≡ Sc }
    requires room { 4 ≤ cycle.old.room }
{
    let without_base = cycle_is(checker, cycle, &[0, 1, 2, 3]);
    let sorted = takes(checker, &[2, 0], (Verdict::Sorted, &[2, 3, 0, 1]));
    let with_base = cycle_is(checker, cycle, &[0, 1, 2, 3]);
    let resorted = takes(
        checker,
        &[2, 1],
        (Verdict::Resorted { nodes: 2 }, &[2, 0, 3, 1]),
    );
    without_base & sorted & with_base & resorted
}

fn cycle_agrees(alloc: Global) -> Result<bool, AllocError> {
    let test = buffering(alloc)?;
    let fixed = Static::of(alloc, &test, MemModel::Sc)?;
    let mut checker = Checker::new(alloc, &fixed)?;
    let mut cycle = Nodes::with_room(alloc, 4)?;
    Ok(finds_cycles(&mut checker, &mut cycle))
}

#[test]
fn cycles_leave_the_base(rt: HostRuntime) -> Result<(), Fail> {
    assert!(rt; cycle_agrees(rt.alloc())?);
    Ok(())
}
