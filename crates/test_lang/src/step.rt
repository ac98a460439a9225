//! Steps of machines.

/// One step of a machine. Threads are numbered from 0.
#[derive(Clone, Copy, PartialEq, Eq, Debug, Drop)]
pub enum Step {
    /// The thread executes its next operation.
    Execute { thread: u32 },
    /// The operation at this place of the thread's buffer, counted from 0 at the oldest, takes effect.
    Drain { thread: u32, place: u32 },
    /// The thread's operation with this index, counted from 0, is performed: it is executed and takes effect.
    Perform { thread: u32, index: u32 },
}
