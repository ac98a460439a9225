//! A gate that holds the turn until it is let go.

use crate::flags::is_seen;
use crate::gate::Gate;
use std::sync::atomic::{AtomicBool, Ordering};

/// A gate that holds up the first worker that has the turn, until it is released. Flags alone pass between the threads, so
/// that what a look saw is shown by tests, and no clause tells it.
#[derive(Debug, Default, Drop)]
pub struct HoldGate {
    held: AtomicBool,
    released: AtomicBool,
}

impl HoldGate {
    pub fn new() -> HoldGate {
        HoldGate {
            held: AtomicBool::new(false),
            released: AtomicBool::new(false),
        }
    }

    /// Looks, at most 1,000,000,000 times, whether a worker has the turn, and answers whether it saw that.
    pub fn wait_held(&self) -> bool {
        is_seen(&self.held)
    }

    /// Lets the worker go that is held up, or is about to be.
    pub fn release(&self) {
        self.released.store(true, Ordering::SeqCst);
    }
}

impl Gate for HoldGate {
    fn at(&self, _worker: u32, _piece: u32) {}

    /// The first call tells that the turn is held, and looks for the release, at most 1,000,000,000 times. Later calls do nothing.
    fn held(&self, _worker: u32) {
        if !self.held.swap(true, Ordering::SeqCst) {
            let _released = is_seen(&self.released);
        }
    }
}
