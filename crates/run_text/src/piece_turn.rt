//! What comes next in a piece of a text of runs.

/// What the next line of a piece is, if it has one.
#[derive(Clone, Copy, PartialEq, Eq, Debug, Drop)]
pub enum PieceTurn {
    /// A run line.
    Run,
    /// There is none: the piece is at its end.
    End,
    /// `done`, and nothing stands behind it in the piece.
    Done,
}
