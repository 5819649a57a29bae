//! A piece of a run without the number that only an index needs.

ghost use Rattle.std.specs.Prelude.{◌≡◌, ◌+◌, ◌<◌, ◌≤◌, ◌∷◌, drop};
ghost use Rattle.mp4_traf.specs.Ranges.{IsRunOf};
ghost use Rattle.mp4_traf.specs.Rows.{IsCursor, rows_of};
ghost use Rattle.mp4_pieces.specs.Bounds.{IsBound};
ghost use Rattle.mp4_pieces.specs.Implementation.Counting.{IsFirst, LastsWithin};
ghost use Rattle.mp4_pieces.specs.Pieces.{pieces_from};
ghost use Rattle.mp4_pieces.specs.PlainPieces.{EndsInRange, piece_of, plain_at, plain_end, plain_start};

use crate::bound::Bound;
use crate::cut::Cut;
use crate::pieces::Pieces;
use mp4_frag::{Cursor, Run};

/// Samples of a run that follow each other, and their sums. Times are ticks of the track's timescale. A `Piece` has
/// their least composition time too, which only an index needs.
#[derive(Clone, Copy, Debug, PartialEq, Eq)]
pub struct PlainPiece {
    /// The index in the run of its first sample.
    pub first: u32,
    /// How many samples it has.
    pub count: u32,
    /// The decode time of its first sample.
    pub time: u64,
    /// The offset in the stream of its first byte.
    pub place: i128,
    /// The sizes of its samples in bytes, added up.
    pub bytes: u64,
    /// The durations of its samples, added up.
    pub duration: u64,
}

/// The first piece from a cursor on, row by row.
#[inline(never)]
fn first_by_row(run: &Run, moof_bytes: &[u8], cut: &Cut, at: &Cursor) -> PlainPiece
    requires run { IsRunOf moof_bytes.now run.now }
    requires cursor { IsCursor run.now moof_bytes.now at.now }
    requires some { at.now.row < run.now.count }
    ensures { pieces_from cut.now moof_bytes.now run.now at.now ≡ piece_of moof_bytes.now run.now result ∷
        pieces_from cut.now moof_bytes.now run.now (plain_end result) }
{
    let piece = Pieces::at(run, moof_bytes, cut, *at).next().unwrap();
    piece.plain
}

/// The first piece from a cursor on, which has so many samples: nothing but their sizes and durations is read.
#[inline(always)]
fn first_of(run: &Run, moof_bytes: &[u8], at: &Cursor, count: u32) -> PlainPiece
    requires run { IsRunOf moof_bytes.now run.now }
    requires cursor { IsCursor run.now moof_bytes.now at.now }
    requires first { (cut : Cut) × IsFirst cut moof_bytes.now run.now at.now count }
    ensures { (cut : Cut) → IsFirst cut moof_bytes.now run.now at.now count →
        pieces_from cut moof_bytes.now run.now at.now ≡ piece_of moof_bytes.now run.now result ∷
        pieces_from cut moof_bytes.now run.now (plain_end result) }
{
    let sums = run.sums_between(moof_bytes, at.row, count);
    plain_at(at, count, sums.bytes, sums.ticks)
}

/// How many of `most` samples from a row on last no longer than so many ticks, or 1 where the first lasts longer.
#[inline(never)]
fn count_in_time(run: &Run, moof_bytes: &[u8], row: u32, most: u32, ticks: u64) -> u32
    requires some { 0 < most }
    requires rows { row + most ≤ run.now.count }
    ensures { LastsWithin ticks most (drop row (rows_of run.now moof_bytes.now)) result }
{
    run.count_within(moof_bytes, row, most, ticks).max(1)
}

/// The piece of so many samples from a cursor on, with these sums.
#[inline(always)]
pub(crate) fn plain_at(at: &Cursor, count: u32, bytes: u64, duration: u64) -> PlainPiece
    ensures { result ≡ plain_at at.now count bytes duration }
{
    PlainPiece {
        first: at.row,
        count,
        time: at.time,
        place: at.place,
        bytes,
        duration,
    }
}

impl PlainPiece {
    /// The first piece of a run from a cursor on. `moof_bytes` are the bytes of its moof. Where only the number of
    /// samples and their durations bound it, nothing but their sizes and durations is read.
    #[inline(always)]
    pub fn first(run: &Run, moof_bytes: &[u8], cut: &Cut, at: &Cursor) -> PlainPiece
        requires run { IsRunOf moof_bytes.now run.now }
        requires cursor { IsCursor run.now moof_bytes.now at.now }
        requires some { at.now.row < run.now.count }
        ensures { pieces_from cut.now moof_bytes.now run.now at.now ≡ piece_of moof_bytes.now run.now result ∷
            pieces_from cut.now moof_bytes.now run.now (plain_end result) }
    {
        PlainPiece::first_within(run, moof_bytes, cut, cut.bound(run), at)
    }

    /// The same, with what bounds the pieces of the run (`Cut::bound`).
    #[inline(always)]
    pub fn first_within(
        run: &Run,
        moof_bytes: &[u8],
        cut: &Cut,
        bound: Bound,
        at: &Cursor,
    ) -> PlainPiece
        requires run { IsRunOf moof_bytes.now run.now }
        requires cursor { IsCursor run.now moof_bytes.now at.now }
        requires some { at.now.row < run.now.count }
        requires bound { IsBound cut.now run.now bound }
        ensures { pieces_from cut.now moof_bytes.now run.now at.now ≡ piece_of moof_bytes.now run.now result ∷
            pieces_from cut.now moof_bytes.now run.now (plain_end result) }
    {
        let left = run.count - at.row;
        match bound {
            Bound::Samples(most) => first_of(run, moof_bytes, at, most.min(left)),
            Bound::Ticks(ticks) => {
                let most = cut.samples.min(left);
                let count = count_in_time(run, moof_bytes, at.row, most, ticks);
                first_of(run, moof_bytes, at, count)
            }
            Bound::Rows => {
                // A copy, so that only here the piece need be in memory.
                let piece = first_by_row(run, moof_bytes, cut, at);
                piece
            }
        }
    }

    /// The cursor before its first sample.
    #[inline(always)]
    pub fn cursor(&self) -> Cursor
        ensures { result ≡ plain_start self.now }
    {
        Cursor {
            row: self.first,
            time: self.time,
            place: self.place,
        }
    }

    /// The cursor after it, where the next piece begins. Each piece of a run ends in range.
    #[inline(always)]
    pub fn cursor_after(&self) -> Cursor
        requires { EndsInRange self.now }
        ensures { result ≡ plain_end self.now }
    {
        Cursor {
            row: self.first + self.count,
            time: self.time + self.duration,
            place: self.place + i128::from(self.bytes),
        }
    }
}
