//! Two workers that meet at a gate, and what no meeting is.
use crate::{Gate, MeetGate};
use std::test::Fail;
use std::thread::{self, Threads};

fn pass<G: Gate>(gate: &G, worker: u32) -> u32 {
    gate.held(worker);
    gate.at(worker, 0);
    worker
}

fn meet<R: Threads + Sync>(rt: &R, gate: &MeetGate) -> (u32, u32) {
    thread::join(rt, || pass(gate, 0), || pass(gate, 1))
}

#[test]
fn two_workers_meet(rt: HostRuntime) -> Result<(), Fail> {
    let gate = MeetGate::new();
    // The turn, and other workers, hold up nobody and don't count.
    gate.held(0);
    gate.held(1);
    assert_eq!(rt; pass(&gate, 2), 2);
    assert_eq!(rt; pass(&gate, 63), 63);
    assert!(rt; !gate.met());
    assert_eq!(rt; meet(&rt, &gate), (0, 1));
    assert!(rt; gate.met());
    // Met before, it holds nobody up again, and still tells that it did.
    assert_eq!(rt; pass(&gate, 1), 1);
    assert!(rt; gate.met());
    Ok(())
}
