//! A buffer with as many entries as there may be, and what its drains leave in the words.

use crate::buffered::Buffered;
use crate::playing::StoreOrder;
use sim_core::Machine;
use std::alloc::{AllocError, Global};
use std::test::Fail;
use test_lang::op::Op;
use test_lang::step::Step;
use test_lang::target::Fault;
use test_lang::test::{MAX_OPS, Test};

/// One thread of as many stores as there may be, to the words in turn.
fn stores_in_turn(alloc: Global) -> Result<Test, AllocError> {
    let mut test = Test::new(alloc, 4);
    test.add_thread()?;
    for node in 0..MAX_OPS {
        let op = Op::Store { word: node % 4 };
        if test.ops() < MAX_OPS && test.threads() > 0 && test.has_word(op) {
            test.add_op(op)?;
        }
    }
    Ok(test)
}

/// Takes the step if it is enabled.
fn take(machine: &mut Buffered, step: Step) -> bool {
    let enabled = machine.enabled(step);
    if enabled {
        machine.step(step);
    }
    enabled
}

/// Puts all stores into the buffer, and drains them from the oldest or from the newest on. Answers whether each step was enabled.
fn drains(machine: &mut Buffered, newest: bool) -> bool {
    let mut good = true;
    for _ in 0..MAX_OPS {
        good &= take(machine, Step::Execute { thread: 0 });
    }
    good &= machine.playing.values() == [0, 0, 0, 0].as_slice();
    for drained in 0..MAX_OPS {
        let place = if newest { MAX_OPS - 1 - drained } else { 0 };
        good &= take(machine, Step::Drain { thread: 0, place });
    }
    good
}

/// The stores that are drained last stay: in order these are the last ones, and from the newest on the first.
#[test]
fn buffer_of_all_operations_is_drained_from_each_end(rt: HostRuntime) -> Result<(), Fail> {
    let test = stores_in_turn(rt.alloc())?;
    for (fault, newest, values) in [
        (Fault::None, false, [2045, 2046, 2047, 2048]),
        (Fault::Unordered, false, [2045, 2046, 2047, 2048]),
        (Fault::Unordered, true, [1, 2, 3, 4]),
    ] {
        let mut machine = Buffered::new(rt.alloc(), &test, StoreOrder::Total, fault)?;
        assert!(rt; drains(&mut machine, newest));
        assert!(rt; machine.done());
        assert!(rt; machine.playing.values() == values.as_slice());
    }
    Ok(())
}
