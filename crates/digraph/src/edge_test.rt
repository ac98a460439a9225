//! Sets of edges that a test tells.
ghost use Rattle.std.specs.Prelude.{◌≡◌, ◌↔◌, ℕ, ◌<◌, IsTrue, length};
ghost use Rattle.digraph.specs.Marks.{MarksSources};

/// A set of edges between nodes, told by a test.
pub trait Pairs {
    /// How many nodes there are: they are the numbers below this.
    ghost node_count: { Self → ℕ };

    /// The set of edges.
    ghost edges: { Self → ℕ → ℕ → Type 0 };

    /// The number of nodes, between which all edges lead.
    fn nodes(&self) -> u32
        ensures count { result ≡ node_count self.now }
        ensures inside { (a b : ℕ) → edges self.now a b → (a < result) × (b < result) };

    /// Whether an edge leads from the one node to the other.
    fn edge(&self, from: u32, to: u32) -> bool
        requires from { from < node_count self.now }
        requires to { to < node_count self.now }
        ensures { IsTrue result ↔ edges self.now from to };

    /// Gives the mark to each node from which an edge leads to `to`, where the node has none yet: its place in `marks` is 0. All other marks stay.
    ///
    /// It tests each node that has no mark. A set that knows more of where its edges come from looks at fewer nodes.
    fn mark_sources(&self, to: u32, mark: u32, marks: &mut [u32])
        requires to { to < node_count self.now }
        requires marks { length marks.old ≡ node_count self.now }
        ensures { MarksSources (edges self.now) to mark marks.old marks.new }
    {
        for node in 0..self.nodes() {
            if marks[node as usize] == 0 && self.edge(node, to) {
                marks[node as usize] = mark;
            }
        }
    }
}
