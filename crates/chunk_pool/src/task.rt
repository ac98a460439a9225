//! What the workers have in common.
ghost use Rattle.std.specs.Prelude.{◌≡◌, ◌<◌, length};
ghost use Rattle.std.specs.Int.{div_ceil};

use graph_model::Static;
use signature_plan::Plan;
use tally::Signature;

/// The signatures, what they mean, and how they are cut among the workers.
#[derive(Drop)]
pub(crate) struct Task<'a> {
    pub(crate) plan: &'a Plan,
    pub(crate) fixed: &'a Static,
    pub(crate) signatures: &'a [Signature],
    /// The size of a chunk.
    pub(crate) chunk: usize,
    pub(crate) workers: usize,
}

impl<'a> Task<'a> {
    /// The number of chunks.
    pub(crate) fn chunks(&self) -> usize
        requires { 0 < self.now.chunk }
        ensures { result ≡ div_ceil (length self.now.signatures.now) self.now.chunk }
    {
        self.signatures.len().div_ceil(self.chunk)
    }
}
