//! How a piece is filled with rows.

ghost use Rattle.std.specs.Prelude.{◌≡◌, ◌+◌, ◌^◌, ◌<◌, ◌∷◌, ◌++◌, Bool, option_to_list};
ghost use Rattle.mp4_pieces.specs.Implementation.Counting.{IsPlain};
ghost use Rattle.mp4_pieces.specs.Implementation.Growing.{Grows, grown, opened, pieces_left, takes, with_row};
ghost use Rattle.mp4_pieces.specs.PlainPieces.{plain_end};

use crate::cut::Cut;
use crate::piece::Piece;
use crate::plain::{PlainPiece, plain_at};
use crate::run_cut::RunCut;
use mp4_frag::{Cursor, Row, Rows};
use mp4_traf::is_sync;

impl Cut {
    /// Whether one more row fits in a piece, whose last row is a sync sample or not.
    #[tactic(auto, unfolding(crate::specs::Implementation::Growing::takes))]
    #[inline(always)]
    fn takes(&self, piece: &Piece, last: bool, row: &Row) -> bool
        requires bytes { piece.now.plain.bytes + row.now.size < 2 ^ 64 }
        requires ticks { piece.now.plain.duration + row.now.duration < 2 ^ 64 }
        ensures { result ≡ takes self.now piece.now last row.now }
    {
        let has_bytes = match self.bytes {
            None => true,
            Some(most) => piece.plain.bytes + u64::from(row.size) <= most,
        };
        let has_ticks = match self.ticks {
            None => true,
            Some(most) => piece.plain.duration + u64::from(row.duration) <= most,
        };
        // Most rows are asked for no more than their size: their flags matter only with `sync` and `keyframes`.
        let may_start = self.sync || (self.keyframes && !last);
        piece.plain.count < self.samples
            && has_bytes
            && has_ticks
            && !(may_start && is_sync(row.flags))
    }
}

/// The piece of one row, from a cursor on.
#[tactic(auto, unfolding(crate::specs::Implementation::Growing::opened))]
#[inline(always)]
pub(crate) fn opened(at: Cursor, row: &Row) -> Piece
    ensures { result ≡ opened at row.now }
{
    Piece {
        plain: plain_at(&at, 1, u64::from(row.size), u64::from(row.duration)),
        least: i128::from(at.time) + i128::from(row.offset),
    }
}

/// The piece with one more row.
#[tactic(auto, unfolding(crate::specs::Implementation::Growing::with_row))]
#[inline(always)]
fn with_row(piece: Piece, row: &Row) -> Piece
    requires count { piece.plain.count + 1 < 2 ^ 32 }
    requires bytes { piece.plain.bytes + row.now.size < 2 ^ 64 }
    requires time { piece.plain.time + piece.plain.duration + row.now.duration < 2 ^ 64 }
    ensures { result ≡ with_row piece row.now }
{
    let plain = piece.plain;
    let time = plain.time + plain.duration;
    let composed = i128::from(time) + i128::from(row.offset);
    Piece {
        plain: PlainPiece {
            count: plain.count + 1,
            bytes: plain.bytes + u64::from(row.size),
            duration: plain.duration + u64::from(row.duration),
            ..plain
        },
        least: piece.least.min(composed),
    }
}

/// A piece, and the row after it, which didn't fit.
#[derive(Clone, Copy)]
pub(crate) struct Filled {
    pub(crate) piece: Piece,
    pub(crate) peeked: Option<Row>,
}

/// The piece that begins so, with the rows that follow, where nothing but their number bounds it.
#[inline(always)]
pub(crate) fn fill_counted(own: &RunCut, begun: Piece, rows: &mut Rows<'_>) -> Piece
    requires grows { Grows begun rows.old }
    requires plain { IsPlain own.now.cut }
    ensures pieces { (last : Bool) → grown own.now.cut begun last rows.old ≡ result ∷ pieces_left own.now.cut
        (plain_end result.plain) rows.new }
    ensures grows { Grows result rows.new }
{
    let mut piece = begun;
    while piece.plain.count < own.cut.samples {
        let Some(row) = rows.next() else {
            return piece;
        };
        piece = with_row(piece, &row);
    }
    piece
}

/// The piece that begins so, and so far ends with a sync sample or not, with the rows that fit in it. No row is read
/// after one that has as many as it may.
#[inline(always)]
pub(crate) fn fill(own: &RunCut, begun: Piece, sync: bool, rows: &mut Rows<'_>) -> Filled
    requires { Grows begun rows.old }
    ensures pieces { grown own.now.cut begun sync rows.old ≡ result.piece ∷ pieces_left own.now.cut
        (plain_end result.piece.plain) (option_to_list result.peeked ++ rows.new) }
    ensures grows { Grows result.piece (option_to_list result.peeked ++ rows.new) }
{
    let mut piece = begun;
    let mut last = sync;
    while piece.plain.count < own.cut.samples {
        let Some(row) = rows.next() else {
            return Filled {
                piece,
                peeked: None,
            };
        };
        if !own.cut.takes(&piece, last, &row) {
            return Filled {
                piece,
                peeked: Some(row),
            };
        }
        piece = with_row(piece, &row);
        last = is_sync(row.flags);
    }
    Filled {
        piece,
        peeked: None,
    }
}
