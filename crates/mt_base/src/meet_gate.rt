//! A gate at which two workers meet.

use crate::flags::is_seen;
use crate::gate::Gate;
use std::sync::atomic::{AtomicBool, Ordering};

/// A gate that holds up worker 0 and worker 1 until each has seen that the other is there. Flags alone pass between the
/// threads, so that what a look saw is shown by tests, and no clause tells it.
#[derive(Debug, Default, Drop)]
pub struct MeetGate {
    first: Side,
    second: Side,
}

/// What a worker tells: that it is there, and that it saw the other one.
#[derive(Debug, Default, Drop)]
struct Side {
    raised: AtomicBool,
    saw: AtomicBool,
}

impl MeetGate {
    pub fn new() -> MeetGate {
        MeetGate {
            first: Side::new(),
            second: Side::new(),
        }
    }

    /// Whether worker 0 and worker 1 have each seen that the other was there.
    pub fn met(&self) -> bool {
        self.first.saw.load(Ordering::SeqCst) && self.second.saw.load(Ordering::SeqCst)
    }
}

impl Side {
    fn new() -> Side {
        Side {
            raised: AtomicBool::new(false),
            saw: AtomicBool::new(false),
        }
    }

    /// The first call tells that this side is there, and looks for the other one.
    fn meet(&self, other: &Side) {
        if !self.raised.swap(true, Ordering::SeqCst) && is_seen(&other.raised) {
            self.saw.store(true, Ordering::SeqCst);
        }
    }
}

impl Gate for MeetGate {
    /// The first call of worker 0 and that of worker 1 tell that they are there, and look, at most 1,000,000,000 times, for
    /// the other one. Later calls and those of other workers do nothing.
    fn at(&self, worker: u32, _piece: u32) {
        match worker {
            0 => self.first.meet(&self.second),
            1 => self.second.meet(&self.first),
            _ => {}
        }
    }

    fn held(&self, _worker: u32) {}
}
