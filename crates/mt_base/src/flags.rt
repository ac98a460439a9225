//! Flags that pass between threads. What a look saw is shown by tests, and no clause tells it.

use std::sync::atomic::{AtomicBool, Ordering};
use std::thread;

/// How often a flag is looked at before the look-out is given up.
const LOOKS: u32 = 1_000_000_000;

/// Whether the flag is seen to be raised. Between two looks other threads may go on.
pub(crate) fn is_seen(flag: &AtomicBool) -> bool {
    for _ in 0..LOOKS {
        if flag.load(Ordering::SeqCst) {
            return true;
        }
        thread::yield_now();
    }
    false
}
