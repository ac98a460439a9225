//! What is at hand of the edges from each node and to each node.
ghost use Rattle.std.specs.Prelude.{◌≡◌, ℕ, List, ◌+◌, ◌*◌, ◌<◌, ◌^◌, ◌++◌, length, slice_index, slice_set, min, All};
ghost use Rattle.digraph.specs.AtHand.{TellAtHand};

/// So many targets of a node are at hand.
pub const NEAR: usize = 3;

/// The place for the target of an edge from the node, with so many edges before it.
pub fn near_place(node: u32, before: u32) -> usize
    ensures { result ≡ 4 * node + min before 3 }
{
    4 * node as usize + usize::min(before as usize, NEAR)
}

/// Counts an edge at its ends, and puts its target at hand.
#[inline(always)]
pub fn put_at_hand(
    from: u32,
    to: u32,
    near: &mut [u32],
    out_degrees: &mut [u32],
    in_degrees: &mut [u32],
)
    requires near { length near.old ≡ 4 * length out_degrees.old }
    requires from { from < length out_degrees.old }
    requires to { to < length in_degrees.old }
    requires few_out { slice_index out_degrees.old from + 1 < 2 ^ 32 }
    requires few_in { slice_index in_degrees.old to + 1 < 2 ^ 32 }
    ensures near { near.new
        ≡ slice_set near.old (4 * from + min (slice_index out_degrees.old from) 3) to }
    ensures out_degrees { out_degrees.new
        ≡ slice_set out_degrees.old from (slice_index out_degrees.old from + 1) }
    ensures in_degrees { in_degrees.new
        ≡ slice_set in_degrees.old to (slice_index in_degrees.old to + 1) }
{
    let before = out_degrees[from as usize];
    near[near_place(from, before)] = to;
    out_degrees[from as usize] = before + 1;
    in_degrees[to as usize] += 1;
}

/// Counts edges at their ends, and puts their targets at hand, in their order.
pub fn put_all_at_hand(
    edges: &[(u32, u32)],
    near: &mut [u32],
    out_degrees: &mut [u32],
    in_degrees: &mut [u32],
)
    requires near { length near.old ≡ 4 * length out_degrees.old }
    requires nodes { length in_degrees.old ≡ length out_degrees.old }
    requires ends { All (λ edge. (edge.0 < length out_degrees.old)
        × (edge.1 < length out_degrees.old)) edges.now }
    requires few_out { (node : ℕ) → node < length out_degrees.old →
        slice_index out_degrees.old node + length edges.now < 2 ^ 32 }
    requires few_in { (node : ℕ) → node < length out_degrees.old →
        slice_index in_degrees.old node + length edges.now < 2 ^ 32 }
    ensures { (before : List (ℕ × ℕ)) →
        TellAtHand (length out_degrees.old) before near.old out_degrees.old in_degrees.old →
        TellAtHand (length out_degrees.old) (before ++ edges.now)
        near.new out_degrees.new in_degrees.new }
{
    for edge in edges {
        let (from, to) = *edge;
        put_at_hand(from, to, near, out_degrees, in_degrees);
    }
}
