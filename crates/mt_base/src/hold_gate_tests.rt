//! A worker that is held up, and let go by another thread.
use crate::{Gate, HoldGate};
use std::test::Fail;
use std::thread::{self, Threads};

/// A worker that tells where it is, and has the turn twice.
fn work<G: Gate>(gate: &G) -> u32 {
    gate.at(0, 0);
    gate.held(0);
    gate.held(0);
    7
}

/// Lets the worker go once it has the turn, and answers whether that was seen.
fn let_go(gate: &HoldGate) -> bool {
    let seen = gate.wait_held();
    gate.release();
    seen
}

fn meet<R: Threads + Sync>(rt: &R, gate: &HoldGate) -> (u32, bool) {
    thread::join(rt, || work(gate), || let_go(gate))
}

#[test]
fn a_held_worker_goes_on_when_it_is_released(rt: HostRuntime) -> Result<(), Fail> {
    let gate = HoldGate::new();
    assert_eq!(rt; meet(&rt, &gate), (7, true));
    // Released and held before, it holds nobody up again, and still tells that it did.
    assert_eq!(rt; work(&gate), 7);
    assert!(rt; gate.wait_held());
    Ok(())
}
