//! What says which test is drawn.

/// What says which random test is drawn. The same settings draw the same test.
#[derive(Clone, Copy, Debug, PartialEq, Eq, Drop)]
pub struct GenSettings {
    /// The seed of the draws.
    pub seed: u64,
    /// The number of threads.
    pub threads: u32,
    /// The number of operations of each thread.
    pub ops: u32,
    /// The number of words that loads and stores name.
    pub words: u32,
    /// How many of a hundred operations are stores, on average.
    pub stores: u32,
    /// How many of a hundred operations are fences, on average. The others are loads.
    pub fences: u32,
}
