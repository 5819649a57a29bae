//! A piece of a run.

use crate::plain::PlainPiece;

/// Samples of a run that follow each other, which are written as a fragment of their own.
#[derive(Clone, Copy, Debug, PartialEq, Eq)]
pub struct Piece {
    /// Which samples it has, where they begin, and their sums.
    pub plain: PlainPiece,
    /// The least composition time of its samples, in ticks of the track's timescale.
    pub least: i128,
}
