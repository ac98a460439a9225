//! Sets that passes add to, each in a thread of its own.
//! The proof of a test grows with its code, so what the passes do stands in tables and small functions.
ghost use Rattle.std.specs.Prelude.{◌≡◌, ℕ, ◌<◌, ◌≤◌, IfOk, length, slice_index_or, vec_len};
ghost use Rattle.turn_set.specs.Passes.{AreAllOf, IsPassOf, PassState};

use crate::{AddFault, Entered, Finished, Pass, SharedSet, finish};
use mt_base::{HoldGate, OpenGate};
use std::alloc::{AllocError, Global};
use std::sync::Wait;
use std::sync::atomic::{AtomicBool, Ordering};
use std::test::Fail;
use std::thread::{self, Threads};
use tally::{Outcome, Tally};

/// What a pass does in its thread.
trait Work {
    fn work(&self, set: &SharedSet, pass: Pass) -> Pass
        requires { IsPassOf set.now pass }
        ensures { IsPassOf set.now result × (result.number ≡ pass.number) };
}

/// Each pass does its work in a thread of its own.
fn each_in_a_thread<R: Threads + Sync, W: Work + Sync>(
    rt: &R,
    set: &SharedSet,
    passes: Vec<Pass>,
    work: &W,
) -> Result<Vec<Pass>, AllocError>
    requires { (k : ℕ) (d : PassState) → k < length passes.items → IsPassOf set.now (slice_index_or passes.items k d) × ((slice_index_or passes.items k d).number ≡ k) }
    ensures len { IfOk result (λ back. vec_len back ≡ vec_len passes) }
    ensures each { IfOk result (λ back. (k : ℕ) (d : PassState) → k < length back.items → IsPassOf set.now (slice_index_or back.items k d) × ((slice_index_or back.items k d).number ≡ k)) }
{
    thread::map_vec(rt, passes, &|pass| work.work(set, pass))
}

/// All passes of the set do their work, and come back.
fn in_threads<R: Threads + Sync, W: Work + Sync>(
    rt: &R,
    set: &SharedSet,
    passes: Vec<Pass>,
    work: &W,
) -> Result<Vec<Pass>, AllocError>
    requires { AreAllOf set.now passes.items }
    ensures { IfOk result (λ back. AreAllOf set.now back.items) }
{
    let back = each_in_a_thread(rt, set, passes, work)?;
    Ok(back)
}

/// A batch of outcomes outside, of this node and with rising values, or with one value alone.
fn batch_of(
    alloc: Global,
    node: u32,
    first: u32,
    len: u32,
    rising: bool,
) -> Result<Vec<Outcome>, AllocError> {
    let mut batch = Vec::new(alloc);
    for place in 0..len {
        let value = first.wrapping_add(if rising { place } else { 0 });
        batch.push(Outcome::Outside { node, value })?;
    }
    Ok(batch)
}

/// The pass 0 adds an outcome and is held up. Each other one offers one meanwhile.
#[derive(Drop)]
struct Meeting {
    alloc: Global,
    gate: HoldGate,
    /// Whether a pass was told that the turn was taken, and kept its batch.
    refused: AtomicBool,
}

impl Meeting {
    /// Offers a batch while the turn is held, and answers whether it was refused and is whole.
    fn is_refused(&self, set: &SharedSet, pass: &mut Pass, batch: &mut Vec<Outcome>) -> bool
        requires { IsPassOf set.now pass.old }
        ensures { IsPassOf set.now pass.new × (pass.new.number ≡ pass.old.number) }
    {
        let held = self.gate.wait_held();
        let answer = set.try_add(pass, batch, &OpenGate);
        self.gate.release();
        held && answer == Err(AddFault::Busy) && batch.len() == 1
    }
}

impl Work for Meeting {
    fn work(&self, set: &SharedSet, mut pass: Pass) -> Pass {
        let number = pass.number();
        let Ok(mut batch) = batch_of(self.alloc, number, 5, 1, true) else {
            self.gate.release();
            return pass;
        };
        if number == 0 {
            let _added = set.try_add(&mut pass, &mut batch, &self.gate);
        } else {
            let refused = self.is_refused(set, &mut pass, &mut batch);
            self.refused.store(refused, Ordering::SeqCst);
        }
        pass
    }
}

/// What is added by each pass from a number on: so many batches, in turns of two lengths.
#[derive(Clone, Copy)]
struct Plan {
    from: u32,
    batches: u32,
    lengths: (u32, u32),
    /// The first value, and whether the others rise.
    value: u32,
    rising: bool,
    /// Whether the passes wait for the turn, or try again until it is won.
    waits: bool,
}

#[derive(Drop)]
struct Adding<'a, R> {
    rt: &'a R,
    alloc: Global,
    plan: Plan,
}

impl<R: Wait> Adding<'_, R> {
    fn add(
        &self,
        set: &SharedSet,
        pass: &mut Pass,
        batch: &mut Vec<Outcome>,
    ) -> Result<(), AllocError>
        requires { IsPassOf set.now pass.old }
        ensures { IsPassOf set.now pass.new × (pass.new.number ≡ pass.old.number) }
    {
        if self.plan.waits {
            return set.add(self.rt, pass, batch);
        }
        for _ in self.rt.forever() {
            match set.try_add(pass, batch, &OpenGate) {
                Ok(()) => return Ok(()),
                Err(AddFault::Memory) => return Err(AllocError),
                Err(AddFault::Busy) => thread::yield_now(),
            }
        }
        unreachable!()
    }

    fn add_all(&self, set: &SharedSet, pass: &mut Pass) -> Result<(), AllocError>
        requires { IsPassOf set.now pass.old }
        ensures { IsPassOf set.now pass.new × (pass.new.number ≡ pass.old.number) }
    {
        let number = pass.number();
        let mut value = self.plan.value;
        for place in 0..self.plan.batches {
            let (even, odd) = self.plan.lengths;
            let len = if place % 2 == 0 { even } else { odd };
            let mut batch = batch_of(self.alloc, number, value, len, self.plan.rising)?;
            self.add(set, pass, &mut batch)?;
            value = value.wrapping_add(if self.plan.rising { len } else { 0 });
        }
        Ok(())
    }
}

impl<R: Wait> Work for Adding<'_, R> {
    fn work(&self, set: &SharedSet, mut pass: Pass) -> Pass {
        if pass.number() >= self.plan.from {
            let _added = self.add_all(set, &mut pass);
        }
        pass
    }
}

fn show(out: &mut String, number: u64, outcome: &Outcome) -> Result<(), AllocError> {
    match outcome {
        Outcome::Outside { node, value } => write!(out, " {number} ({node} {value})"),
        Outcome::Inside(_) => write!(out, " {number}"),
    }
}

/// The entries of the history, each with its pass, and the outcomes of the tally, each with its count, as text.
fn shown(alloc: Global, finished: &Finished) -> Result<String, AllocError> {
    let mut out = String::new(alloc);
    for entry in finished.history() {
        show(&mut out, u64::from(entry.pass), &entry.outcome)?;
    }
    write!(out, ";")?;
    for (outcome, count) in finished.tally().iter() {
        show(&mut out, count, outcome)?;
    }
    Ok(out)
}

/// Passes that add by a plan, all in one set.
fn added_by_plan<R: Threads + Wait + Sync>(
    rt: &R,
    alloc: Global,
    passes: u32,
    plan: Plan,
) -> Result<Finished, AllocError>
    requires { (0 < passes) × (passes ≤ 64) }
{
    let (set, passes) = SharedSet::new(alloc, passes)?;
    let passes = in_threads(rt, &set, passes, &Adding { rt, alloc, plan })?;
    Ok(finish(set, passes))
}

/// Two passes of which one is held up; the one that was refused then adds its outcome, and one more is put. Answers whether it was refused, and what the set has.
fn met<R: Threads + Wait + Sync>(
    rt: &R,
    alloc: Global,
    waits: bool,
) -> Result<(bool, String), AllocError> {
    let (set, passes) = SharedSet::new(alloc, 2)?;
    let meeting = Meeting {
        alloc,
        gate: HoldGate::new(),
        refused: AtomicBool::new(false),
    };
    let passes = in_threads(rt, &set, passes, &meeting)?;
    let plan = Plan {
        from: 1,
        batches: 1,
        lengths: (1, 1),
        value: 5,
        rising: true,
        waits,
    };
    let passes = in_threads(rt, &set, passes, &Adding { rt, alloc, plan })?;
    let mut finished = finish(set, passes);
    finished.put(0, &mut batch_of(alloc, 0, 7, 1, true)?)?;
    let text = shown(alloc, &finished)?;
    Ok((meeting.refused.load(Ordering::SeqCst), text))
}

#[test]
fn a_pass_is_busy_while_another_holds_the_turn(rt: HostRuntime) -> Result<(), Fail> {
    for waits in [false, true] {
        let (refused, text) = met(&rt, rt.alloc(), waits)?;
        assert!(rt; refused);
        assert_eq!(rt;
            text.as_str(),
            " 0 (0 5) 1 (1 5) 0 (0 7); 1 (0 5) 1 (0 7) 1 (1 5)"
        );
    }
    Ok(())
}

#[test]
fn few_and_many_passes(rt: HostRuntime) -> Result<(), Fail> {
    let twice = Plan {
        from: 0,
        batches: 2,
        lengths: (2, 2),
        value: 9,
        rising: false,
        waits: false,
    };
    let one = added_by_plan(&rt, rt.alloc(), 1, twice)?;
    assert_eq!(rt;
        shown(rt.alloc(), &one)?.as_str(),
        " 0 (0 9) 0 (0 9) 0 (0 9) 0 (0 9); 4 (0 9)"
    );
    let none = added_by_plan(
        &rt,
        rt.alloc(),
        64,
        Plan {
            batches: 0,
            ..twice
        },
    )?;
    assert_eq!(rt; shown(rt.alloc(), &none)?.as_str(), ";");
    Ok(())
}

/// How many of 8 passes have so many entries, of values that rise from 0.
fn passes_in_order(history: &[Entered], each: u32) -> usize {
    let mut next = [0u32; 8];
    for entry in history {
        let Outcome::Outside { node, value } = &entry.outcome else {
            return 0;
        };
        let Some(expected) = next.get_mut(entry.pass as usize) else {
            return 0;
        };
        if *node != entry.pass || *value != *expected {
            return 0;
        }
        *expected = expected.wrapping_add(1);
    }
    next.iter().filter(|count| **count == each).count()
}

/// How many outcomes occurred once, of how many in all.
fn single(tally: &Tally) -> (u64, u64) {
    let mut single = 0u64;
    for (_, count) in tally.iter() {
        single = single.wrapping_add(u64::from(count == 1));
    }
    (single, tally.total())
}

#[test]
fn eight_threads_add_all_that_they_have(rt: HostRuntime) -> Result<(), Fail> {
    for waits in [false, true] {
        let plan = Plan {
            from: 0,
            batches: 1000,
            lengths: (1, 64),
            value: 0,
            rising: true,
            waits,
        };
        let finished = added_by_plan(&rt, rt.alloc(), 8, plan)?;
        assert_eq!(rt; passes_in_order(finished.history(), 32500), 8);
        assert_eq!(rt; single(&finished.into_tally()), (260_000, 260_000));
    }
    Ok(())
}

/// The pass 1 offers a batch of 64 outcomes, and once more where memory was refused. The other one does nothing.
#[derive(Drop)]
struct Retrying {
    alloc: Global,
    /// Whether the batch was whole after a refusal, and entered in the end.
    entered: AtomicBool,
}

impl Retrying {
    fn offers(&self, set: &SharedSet, pass: &mut Pass, batch: &mut Vec<Outcome>) -> bool
        requires { IsPassOf set.now pass.old }
        ensures { IsPassOf set.now pass.new × (pass.new.number ≡ pass.old.number) }
    {
        let is_added = match set.try_add(pass, batch, &OpenGate) {
            Ok(()) => true,
            Err(_) => batch.len() == 64 && set.try_add(pass, batch, &OpenGate).is_ok(),
        };
        is_added && batch.is_empty()
    }
}

impl Work for Retrying {
    fn work(&self, set: &SharedSet, mut pass: Pass) -> Pass {
        if pass.number() != 1 {
            return pass;
        }
        let made = match batch_of(self.alloc, 1, 0, 64, true) {
            Ok(batch) => Ok(batch),
            Err(_) => batch_of(self.alloc, 1, 0, 64, true),
        };
        if let Ok(mut batch) = made {
            let entered = self.offers(set, &mut pass, &mut batch);
            self.entered.store(entered, Ordering::SeqCst);
        }
        pass
    }
}

/// With memory that isn't refused this says that a batch enters; `tools/faults.py` runs it with each request refused in turn.
#[test]
fn refused_batch_is_whole_and_enters_once(rt: HostRuntime) -> Result<(), Fail> {
    let (set, passes) = SharedSet::new(rt.alloc(), 2)?;
    let retrying = Retrying {
        alloc: rt.alloc(),
        entered: AtomicBool::new(false),
    };
    let passes = in_threads(&rt, &set, passes, &retrying)?;
    let finished = finish(set, passes);
    assert!(rt; retrying.entered.load(Ordering::SeqCst));
    assert_eq!(rt; passes_in_order(finished.history(), 64), 1);
    assert_eq!(rt; single(finished.tally()), (64, 64));
    Ok(())
}
