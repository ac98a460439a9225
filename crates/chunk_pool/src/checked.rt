//! What comes of checking signatures.

use verdict_report::{Judged, Work};

/// The verdicts on signatures, and how they were reached.
#[derive(Drop)]
pub struct Checked {
    /// One verdict for each signature, in their order.
    pub found: Vec<Judged>,
    /// The work of all chunks.
    pub work: Work,
}
