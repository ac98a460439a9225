//! The gate that workers pass.

/// A gate is told how far workers are, and may hold them up. It tells nothing and answers nothing.
pub trait Gate {
    /// A worker calls it once, before its first piece of work.
    fn at(&self, worker: u32, piece: u32);

    /// It is called while a worker holds the turn of the set that all workers share.
    fn held(&self, worker: u32);
}

/// A gate that holds nobody up.
#[derive(Clone, Copy, Debug, Default)]
pub struct OpenGate;

impl Gate for OpenGate {
    fn at(&self, _worker: u32, _piece: u32) {}

    fn held(&self, _worker: u32) {}
}
