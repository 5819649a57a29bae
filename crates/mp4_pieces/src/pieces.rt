//! The pieces of a run, one after the other.

ghost use Rattle.std.specs.Prelude.{◌≡◌};
ghost use Rattle.std.specs.Iterator.{YieldsFirst, item_count};
ghost use Rattle.mp4_traf.specs.Rows.{IsCursor};
ghost use Rattle.mp4_pieces.specs.Pieces.{pieces_from, pieces_of};
ghost use Rattle.mp4_traf.specs.Ranges.{IsRunOf};

use crate::cut::Cut;
use crate::fill::{fill, fill_counted, opened};
use crate::piece::Piece;
use crate::run_cut::RunCut;
use mp4_frag::{Cursor, Row, Rows, Run};
use mp4_traf::is_sync;
use std::marker::Model;

/// Goes over the pieces of a run.
#[derive(Drop)]
pub struct Pieces<'a> {
    cut: RunCut,
    /// Where the next piece begins.
    at: Cursor,
    /// The first of its rows, if it was read to find the end of the piece before it.
    peeked: Option<Row>,
    /// The rows that are left.
    rows: Rows<'a>,
}

// A contract sees the pieces that are left.
impl<'a> Model for Pieces<'a> {
    ghost use Rattle.std.specs.Prelude.{List, ◌++◌, option_to_list};
    ghost use Rattle.mp4_pieces.specs.declared.piece.Piece.{Piece};
    ghost use Rattle.mp4_pieces.specs.Implementation.Growing.{pieces_left};
    ghost use Rattle.mp4_traf.specs.Cursors.{HasRoom};

    ghost Value = { List Piece };

    ghost view = { λ p. pieces_left p.cut.cut p.at (option_to_list p.peeked ++ p.rows) };

    ghost invariant = { λ p. HasRoom p.at (option_to_list p.peeked ++ p.rows) };
}

impl<'a> Pieces<'a> {
    /// The pieces of a run. `moof_bytes` are the bytes of its moof.
    #[tactic(auto, using(mp4_traf::proofs::RowLemmas::cursor_first))]
    pub fn of(run: &Run, moof_bytes: &'a [u8], cut: &Cut) -> Pieces<'a>
        requires run { IsRunOf moof_bytes.now run.now }
        ensures { result ≡ pieces_of cut.now moof_bytes.now run.now }
    {
        Pieces::at(run, moof_bytes, cut, run.first_cursor())
    }

    /// The pieces of a run from a cursor on, as if its rows began there. `moof_bytes` are the bytes of
    /// its moof.
    pub fn at(run: &Run, moof_bytes: &'a [u8], cut: &Cut, cursor: Cursor) -> Pieces<'a>
        requires run { IsRunOf moof_bytes.now run.now }
        requires cursor { IsCursor run.now moof_bytes.now cursor }
        ensures { result ≡ pieces_from cut.now moof_bytes.now run.now cursor }
    {
        Pieces {
            cut: cut.for_run(run),
            at: cursor,
            peeked: None,
            rows: run.rows_from(moof_bytes, cursor),
        }
    }
}

impl<'a> Iterator for Pieces<'a> {
    type Item = Piece;

    ghost next_gives = { YieldsFirst (λ rest. rest) };

    ghost remaining = { item_count (λ rest. rest) };

    /// The next piece. It reads no row twice, and at most one after the piece.
    #[tactic(auto, unfolding(crate::specs::Implementation::Growing::pieces_left))]
    #[inline(always)]
    fn next(&mut self) -> Option<Piece> {
        let first = match self.peeked.take() {
            Some(row) => row,
            None => self.rows.next()?,
        };
        let begun = opened(self.at, &first);
        if self.cut.is_counted {
            let piece = fill_counted(&self.cut, begun, &mut self.rows);
            self.at = piece.plain.cursor_after();
            self.peeked = None;
            return Some(piece);
        }
        let filled = fill(&self.cut, begun, is_sync(first.flags), &mut self.rows);
        self.at = filled.piece.plain.cursor_after();
        self.peeked = filled.peeked;
        Some(filled.piece)
    }
}
