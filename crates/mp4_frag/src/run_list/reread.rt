//! From the row of a run to the run.

ghost use Rattle.std.specs.Prelude.{◌≡◌, ◌+◌, ◌^◌, ◌≤◌, length};
ghost use Rattle.mp4_box.specs.Trees.{view};
ghost use Rattle.mp4_traf.specs.Runs.{moof_at};
ghost use Rattle.mp4_frag.specs.Implementation.Rereads.{box_in, run_of_row};

use crate::part::headless;
use crate::run_list::run_row::RunRow;
use mp4_box::{BoxRef, Walk};
use mp4_init::TrackList;
use mp4_traf::Run;
use mp4_traf::internal::{RunStart, TrafContext, header_by, known_track, run_at, track_id};

/// The box of a moof that begins at this offset in the stream.
#[inline(always)]
fn box_in<'a>(moof_bytes: &'a [u8], moof: u64, offset: u64) -> BoxRef<'a>
    requires { moof + length moof_bytes.now ≤ 2 ^ 62 }
    ensures { view result ≡ box_in (moof_at moof_bytes.now moof) offset }
{
    let at = offset.saturating_sub(moof);
    if at > moof_bytes.len() as u64 {
        return headless(&moof_bytes[..0], 0);
    }
    let (_, rest) = moof_bytes.split_at(at as usize);
    let part = headless(rest, moof + at);
    match Walk::of(&part).next() {
        Some(this) => this,
        None => headless(&moof_bytes[..0], 0),
    }
}

/// The run of a row, in the moof that begins at this offset.
#[inline]
#[tactic(auto, unfolding(crate::specs::Implementation::Rereads::run_of_row))]
pub(crate) fn run_of_row(moof_bytes: &[u8], moof: u64, tracks: &TrackList, row: &RunRow) -> Run
    requires { moof + length moof_bytes.now ≤ 2 ^ 62 }
    ensures { result ≡ run_of_row (moof_at moof_bytes.now moof) tracks.now row.now }
{
    let tfhd = box_in(moof_bytes, moof, row.tfhd).payload;
    let context = TrafContext {
        moof_bytes,
        moof,
        header: header_by(known_track(tracks, track_id(tfhd)), tfhd),
        ends_at: row.traf_ends_at,
    };
    let start = RunStart {
        time: row.time,
        place: 0,
    };
    let mut run = run_at(&context, &start, &box_in(moof_bytes, moof, row.trun));
    run.place = i128::from(row.place);
    run.end = row.end;
    run.bytes = row.bytes;
    run
}
