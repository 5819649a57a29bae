//! Rows of runs, as the order of runs sees them.

ghost use Rattle.std.specs.Prelude.{◌≡◌};
ghost use Rattle.std.specs.Iterator.{YieldsFirst, item_count};
ghost use Rattle.mp4_frag.specs.Implementation.RunRows.{listed_row, listed_words, row_of_words};

use crate::run_list::run_row::{RunRow, row_of_words};
use mp4_ledger::Rows64;
use mp4_run_order::ListedRun;
use std::marker::Model;

/// What the order of runs depends on, of the run of a row.
pub(crate) fn listed_row(row: &RunRow) -> ListedRun
    ensures { result ≡ listed_row row.now }
{
    ListedRun {
        number: row.trun,
        track: row.track,
        count: row.count,
        place: row.place,
        bytes: row.bytes,
    }
}

/// Goes over the runs of rows.
#[derive(Drop)]
pub(crate) struct Listed<'a> {
    rows: &'a Rows64,
    at: usize,
}

// A contract sees the runs that are left.
impl<'a> Model for Listed<'a> {
    ghost use Rattle.std.specs.Prelude.{◌≤◌, List, drop, length};
    ghost use Rattle.mp4_run_order.specs.declared.runs.ListedRun.{ListedRun};
    ghost use Rattle.mp4_frag.specs.Implementation.RunRows.{listed_words};

    ghost Value = { List ListedRun };

    ghost view = { λ l. listed_words (drop l.at l.rows.now.rows) };

    ghost invariant = { λ l. l.at ≤ length l.rows.now.rows };
}

/// The runs of all rows.
pub(crate) fn runs_of(rows: &Rows64) -> Listed<'_>
    ensures { result ≡ listed_words rows.now.rows }
{
    Listed { rows, at: 0 }
}

impl<'a> Iterator for Listed<'a> {
    type Item = ListedRun;

    ghost next_gives = { YieldsFirst (λ rest. rest) };

    ghost remaining = { item_count (λ rest. rest) };

    fn next(&mut self) -> Option<ListedRun> {
        if self.at == self.rows.len() {
            return None;
        }
        let run = listed_row(&row_of_words(self.rows.get(self.at)));
        self.at += 1;
        Some(run)
    }
}
