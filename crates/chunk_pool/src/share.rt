//! What one worker finds.
ghost use Rattle.std.specs.Prelude.{◌≡◌, ℕ, ◌+◌, [], ◌∷◌};
ghost use Rattle.chunk_pool.specs.Shares.{IsFew, counted, counts_with, no_counts};

use digraph::Nodes;
use std::alloc::Global;
use window_resort::Verdict;

/// The cycle of a signature, with the signature's place among all.
#[derive(Drop)]
pub(crate) struct CycleAt {
    pub(crate) place: usize,
    pub(crate) nodes: Nodes,
}

/// What the walks of chunks count.
#[derive(Drop)]
pub(crate) struct Counts {
    pub(crate) full: u64,
    pub(crate) kept: u64,
    pub(crate) resorted: u64,
    pub(crate) nodes: u64,
}

/// What a worker finds on its chunks. The signatures of which it has no cycle are ok.
#[derive(Drop)]
pub(crate) struct Share {
    pub(crate) cycles: Vec<CycleAt>,
    pub(crate) counts: Counts,
}

impl Share {
    /// That of a worker which has done nothing yet.
    pub(crate) fn new(alloc: Global) -> Share
        ensures cycles { result.cycles.items ≡ [] }
        ensures counts { result.counts ≡ no_counts }
    {
        Share {
            cycles: Vec::new(alloc),
            counts: Counts::new(),
        }
    }
}

impl Counts {
    pub(crate) fn new() -> Counts
        ensures { result ≡ no_counts }
    {
        Counts {
            full: 0,
            kept: 0,
            resorted: 0,
            nodes: 0,
        }
    }

    /// Counts one verdict.
    pub(crate) fn count(&mut self, verdict: Verdict)
        requires { IsFew 1000000 self.old }
        ensures counted { self.new ≡ counted self.old (verdict ∷ []) }
        ensures few { (n : ℕ) → IsFew n self.old → IsFew (n + 1) self.new }
    {
        match verdict {
            Verdict::Sorted | Verdict::Cycle { window: None } => self.full += 1,
            Verdict::Kept => self.kept += 1,
            Verdict::Resorted { nodes }
            | Verdict::Cycle {
                window: Some(nodes),
            } => {
                self.resorted += 1;
                self.nodes += u64::from(nodes);
            }
        }
    }

    /// Counts what others have counted.
    pub(crate) fn add(&mut self, more: &Counts)
        requires few { IsFew 64000000 self.old }
        requires few_more { IsFew 1000000 more.now }
        ensures { self.new ≡ counts_with self.old more.now }
    {
        self.full += more.full;
        self.kept += more.kept;
        self.resorted += more.resorted;
        self.nodes += more.nodes;
    }
}
