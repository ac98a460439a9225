//! Windows: what edges that point backward span in an order.
ghost use Rattle.std.specs.Prelude.{◌≡◌, ℕ, ◌+◌, ◌^◌, ◌<◌, ◌≤◌, ◌++◌, List, Option, Some, All, length, slice_index};
ghost use Rattle.window_resort.specs.Changes.{LeadsBack, widened};
ghost use Rattle.window_resort.specs.Windows.{IsSpan, window_length};

/// A part of an order, by the places of its first node and its last.
#[derive(Clone, Copy, PartialEq, Eq, Debug, Drop)]
pub struct Window {
    pub first: u32,
    pub last: u32,
}

impl Window {
    /// How many nodes it has.
    pub(crate) fn nodes(self) -> u32
        requires rising { self.first ≤ self.last }
        requires few { self.last + 1 < 2 ^ 32 }
        ensures { result ≡ window_length self }
    {
        self.last + 1 - self.first
    }
}

/// The window with the places of an edge that points backward.
pub(crate) fn widen(window: Option<Window>, source: u32, target: u32) -> Window
    ensures { result ≡ widened window source target }
{
    match window {
        None => Window {
            first: target,
            last: source,
        },
        Some(window) => Window {
            first: u32::min(window.first, target),
            last: u32::max(window.last, source),
        },
    }
}

/// The window with the places of those of the edges that point backward.
pub(crate) fn widen_by(
    window: Option<Window>,
    edges: &[(u32, u32)],
    places: &[u32],
) -> Option<Window>
    requires ends { All (λ edge. (edge.0 < length places.now)
        × (edge.1 < length places.now)) edges.now }
    ensures { (before : List (ℕ × ℕ)) → IsSpan (LeadsBack places.now before) window →
        IsSpan (LeadsBack places.now (before ++ edges.now)) result }
{
    let mut widest = window;
    for edge in edges {
        let (from, to) = *edge;
        let source = places[from as usize];
        let target = places[to as usize];
        if target < source {
            widest = Some(widen(widest, source, target));
        }
    }
    widest
}
