//! From a moof to the rows of its runs, in listing order.

ghost use Rattle.std.specs.Prelude.{◌≡◌, ◌+◌, ◌≤◌, ◌∷◌, ◌++◌, [], length};
ghost use Rattle.std.specs.List.{All, AllByRecursion};
ghost use Rattle.mp4_box.specs.Paths.{at_path};
ghost use Rattle.mp4_box.specs.Trees.{view};
ghost use Rattle.mp4_run_order.specs.Orders.{FitsKeys};
ghost use Rattle.mp4_traf.specs.Kinds.{traf};
ghost use Rattle.mp4_traf.specs.Ranges.{IsSound};
ghost use Rattle.mp4_frag.specs.Implementation.RunRows.{listed_words, rows_of_trafs, rows_of_words};
ghost use Rattle.mp4_traf.specs.Runs.{moof_at, traf_of};

use crate::run_list::run_row::push_run;
use mp4_box::BoxRef;
use mp4_box::types::TRAF;
use mp4_init::TrackList;
use mp4_ledger::Rows64;
use mp4_traf::internal::{RunsOf, children_of, runs_of};

/// Appends the rows of all runs of a moof that begins at this offset, in listing order.
pub(crate) fn fill(
    rows: &mut Rows64,
    moof_bytes: &[u8],
    offset: u64,
    moof: &BoxRef<'_>,
    tracks: &TrackList,
)
    requires room { length rows.old.rows + length (rows_of_trafs (moof_at moof_bytes.now offset)
        tracks.now (at_path (traf ∷ []) (view moof.now))) ≤ rows.old.cap }
    requires sound { AllByRecursion (λ t. IsSound (traf_of (moof_at moof_bytes.now offset)
        tracks.now t)) (at_path (traf ∷ []) (view moof.now)) }
    requires fits { All FitsKeys (listed_words rows.old.rows) }
    ensures rows { rows_of_words rows.new.rows ≡ rows_of_words rows.old.rows ++
        rows_of_trafs (moof_at moof_bytes.now offset) tracks.now
        (at_path (traf ∷ []) (view moof.now)) }
    ensures fits { All FitsKeys (listed_words rows.new.rows) }
    ensures cap { rows.new.cap ≡ rows.old.cap }
{
    for traf in children_of(TRAF, moof) {
        let RunsOf {
            tfhd,
            track: _,
            time: _,
            runs,
        } = runs_of(moof_bytes, offset, tracks, &traf);
        for run in runs {
            push_run(rows, tfhd, &run);
        }
    }
}
