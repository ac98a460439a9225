//! Which machine can carry which fault.
use crate::target::{Fault, Target, fits};

const STALE: Fault = Fault::Stale { node: 3 };

const ROWS: [(Target, Fault, bool); 24] = [
    (Target::Sc, Fault::None, true),
    (Target::Sc, STALE, true),
    (Target::Sc, Fault::NoFence, false),
    (Target::Sc, Fault::Unordered, false),
    (Target::Sc, Fault::NoForward, false),
    (Target::Sc, Fault::LoadLoad, false),
    (Target::Tso, Fault::None, true),
    (Target::Tso, STALE, true),
    (Target::Tso, Fault::NoFence, true),
    (Target::Tso, Fault::Unordered, true),
    (Target::Tso, Fault::NoForward, true),
    (Target::Tso, Fault::LoadLoad, false),
    (Target::Pso, Fault::None, true),
    (Target::Pso, STALE, true),
    (Target::Pso, Fault::NoFence, true),
    (Target::Pso, Fault::Unordered, true),
    (Target::Pso, Fault::NoForward, true),
    (Target::Pso, Fault::LoadLoad, false),
    (Target::Weak, Fault::None, true),
    (Target::Weak, STALE, true),
    (Target::Weak, Fault::NoFence, true),
    (Target::Weak, Fault::Unordered, false),
    (Target::Weak, Fault::NoForward, true),
    (Target::Weak, Fault::LoadLoad, true),
];

#[test]
fn faults_that_fit_a_machine(rt: HostRuntime) {
    for (target, fault, fit) in ROWS {
        assert!(rt; fits(target, fault) == fit);
    }
}
