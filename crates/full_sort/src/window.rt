//! The least order of a window.
ghost use Rattle.std.specs.Prelude.{◌≡◌, ◌≢◌, ℕ, ◌+◌, ◌*◌, ◌<◌, ◌≤◌, ◌^◌, length, slice_index, All, AllPairs, Contains, take, true, false, None};
ghost use Rattle.std.specs.Bool.{OnTrue, OnFalse};
ghost use Rattle.orders.specs.Orders.{IsLeastOrder, HasNoOrder};
ghost use Rattle.digraph.specs.Digraph.{HasEdge, edges_out};
ghost use Rattle.full_sort.specs.Bits.{IsFirstBit};
ghost use Rattle.full_sort.specs.Scratch.{IsClean};
ghost use Rattle.full_sort.specs.Waiting.{is_marked, marked_of, IsWaiting, HasFree};

use crate::node_set::NodeSet;
use crate::ready::take_ready;
use crate::releasing::release_all;
use crate::waiting::{lower, note_free, raise};
use digraph::{Graph, Steps};
use std::sync::ledger::Ledger;

/// Marks the window's nodes, and counts the edges from them at each node.
fn count_window<L: Ledger>(
    graph: &Graph,
    window: &[u32],
    waiting: &mut [u32],
    marks: &mut [bool],
    steps: &mut Steps<L>,
)
    requires window { All (λ n. n < graph.now.nodes) window.now }
    requires once { AllPairs (λ a b. a ≢ b) window.now }
    requires few { length graph.now.edges < 2 ^ 32 }
    requires waiting { length waiting.old ≡ graph.now.nodes + 1 }
    requires marks { length marks.old ≡ graph.now.nodes }
    requires no_counts { (t : ℕ) → slice_index waiting.old t ≡ 0 }
    requires no_marks { (t : ℕ) → is_marked marks.old t ≡ false }
    ensures counted { IsWaiting graph.now.edges graph.now.nodes window.now waiting.new marks.new }
    ensures marked { All (λ z. is_marked marks.new z ≡ true) window.now }
    ensures ticks { steps.new ≡ steps.old + edges_out graph.now.edges window.now }
{
    for node in window {
        marks[*node as usize] = true;
        raise(graph, *node, waiting, steps);
    }
}

/// Takes the free nodes of the window into the set.
fn find_free(window: &[u32], waiting: &[u32], marks: &[bool], ready: &mut NodeSet)
    requires waiting { All (λ n. n < length waiting.now) window.now }
    requires marks { All (λ n. n < length marks.now) window.now }
    requires room { All (λ n. n < 64 * length ready.old) window.now }
    requires only { (t : ℕ) → is_marked marks.now t ≡ true → Contains window.now t }
    requires empty { IsFirstBit ready.old None }
    ensures free { HasFree ready.new waiting.now marks.now }
    ensures room { length ready.new ≡ length ready.old }
{
    for node in window {
        note_free(*node, waiting, marks, ready);
    }
}

/// Places the least free node, until all are placed or none is free. What is placed is marked no more.
fn place_window<L: Ledger>(
    graph: &Graph,
    window: &[u32],
    waiting: &mut [u32],
    marks: &mut [bool],
    ready: &mut NodeSet,
    placed: &mut [u32],
    steps: &mut Steps<L>,
) -> bool
    requires window { All (λ n. n < graph.now.nodes) window.now }
    requires once { AllPairs (λ a b. a ≢ b) window.now }
    requires waiting { length waiting.old ≡ graph.now.nodes + 1 }
    requires marks { length marks.old ≡ graph.now.nodes }
    requires room { graph.now.nodes ≤ 64 * length ready.old }
    requires placed { length placed.old ≡ length window.now }
    requires counted { IsWaiting graph.now.edges graph.now.nodes window.now waiting.old marks.old }
    requires marked { All (λ z. is_marked marks.old z ≡ true) window.now }
    requires free { HasFree ready.old waiting.old marks.old }
    ensures found { OnTrue result (IsLeastOrder (HasEdge graph.now.edges) window.now placed.new) }
    ensures none { OnFalse result (HasNoOrder (HasEdge graph.now.edges) window.now) }
    ensures counted { IsWaiting graph.now.edges graph.now.nodes window.now waiting.new marks.new }
    ensures unmarked { OnTrue result (All (λ z. is_marked marks.new z ≡ false) window.now) }
    ensures empty { IsFirstBit ready.new None }
    ensures room { length ready.new ≡ length ready.old }
    ensures ticks { steps.new + edges_out graph.now.edges (marked_of marks.new window.now)
        ≡ steps.old + edges_out graph.now.edges window.now }
{
    let mut kept = None;
    for k in 0..window.len() {
        match take_ready(ready, kept) {
            None => return false,
            Some(node) => {
                placed[k] = node;
                marks[node as usize] = false;
                kept = release_all(graph, node, waiting, marks, ready, steps);
            }
        }
    }
    true
}

/// Takes the marks away that are left in the window, and the counts of the edges from there.
fn clean_up<L: Ledger>(
    graph: &Graph,
    window: &[u32],
    waiting: &mut [u32],
    marks: &mut [bool],
    steps: &mut Steps<L>,
)
    requires window { All (λ n. n < graph.now.nodes) window.now }
    requires once { AllPairs (λ a b. a ≢ b) window.now }
    requires waiting { length waiting.old ≡ graph.now.nodes + 1 }
    requires marks { length marks.old ≡ graph.now.nodes }
    requires counted { IsWaiting graph.now.edges graph.now.nodes window.now waiting.old marks.old }
    ensures no_counts { (t : ℕ) → slice_index waiting.new t ≡ 0 }
    ensures no_marks { (t : ℕ) → is_marked marks.new t ≡ false }
    ensures ticks { steps.new
        ≡ steps.old + edges_out graph.now.edges (marked_of marks.old window.now) }
{
    for node in window {
        if marks[*node as usize] {
            marks[*node as usize] = false;
            lower(graph, *node, waiting, steps);
        }
    }
    waiting[graph.nodes() as usize] = 0;
}

/// Puts the least order of the window into the first places of `placed`, and says whether there is one.
/// The arrays `waiting` and `marks` and the set are clean before and after; `placed` may hold anything. The place in `waiting` behind those of the nodes
/// is that of no node.
pub fn order_into<L: Ledger>(
    graph: &Graph,
    window: &[u32],
    waiting: &mut [u32],
    marks: &mut [bool],
    ready: &mut NodeSet,
    placed: &mut [u32],
    steps: &mut Steps<L>,
) -> bool
    requires window { All (λ n. n < graph.now.nodes) window.now }
    requires once { AllPairs (λ a b. a ≢ b) window.now }
    requires few { length graph.now.edges < 2 ^ 32 }
    requires waiting { length waiting.old ≡ graph.now.nodes + 1 }
    requires marks { length marks.old ≡ graph.now.nodes }
    requires room { graph.now.nodes ≤ 64 * length ready.old }
    requires clean { IsClean waiting.old marks.old ready.old }
    requires placed { length window.now ≤ length placed.old }
    ensures found { OnTrue result (IsLeastOrder (HasEdge graph.now.edges) window.now
        (take (length window.now) placed.new)) }
    ensures none { OnFalse result (HasNoOrder (HasEdge graph.now.edges) window.now) }
    ensures clean { IsClean waiting.new marks.new ready.new }
    ensures room { length ready.new ≡ length ready.old }
    ensures ticks { steps.new ≡ steps.old + 2 * edges_out graph.now.edges window.now }
{
    count_window(graph, window, waiting, marks, steps);
    find_free(window, waiting, marks, ready);
    let list = &mut placed[..window.len()];
    if place_window(graph, window, waiting, marks, ready, list, steps) {
        waiting[graph.nodes() as usize] = 0;
        return true;
    }
    clean_up(graph, window, waiting, marks, steps);
    false
}
