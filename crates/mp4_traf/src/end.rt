//! Where a traf ends.

ghost use Rattle.std.specs.Prelude.{◌≡◌, ◌+◌, ◌^◌, ◌<◌, [], ◌∷◌};
ghost use Rattle.mp4_box.specs.Paths.{at_path};
ghost use Rattle.mp4_box.specs.Trees.{view};
ghost use Rattle.mp4_traf.specs.Kinds.{trun};
ghost use Rattle.mp4_traf.specs.Runs.{moof_at, traf_of};
ghost use Rattle.mp4_traf.specs.Settling.{ended, timed_in};
ghost use Rattle.mp4_traf.specs.Implementation.Ends.{EndsInTime};

use crate::fields::flags_of;
use crate::start::{Start, start_of};
use crate::times::ticks_in;
use crate::trun::{sample_count, sample_fields};
use mp4_box::BoxRef;
use mp4_box::types::TRUN;
use mp4_init::TrackList;

/// Sets where the track of a traf ends: where the traf does. Those of its samples that have durations of their own are
/// counted.
pub fn end_traf(
    moof_bytes: &[u8],
    moof: u64,
    traf: &BoxRef<'_>,
    tracks: &mut TrackList,
    count: &mut u32,
)
    requires time { EndsInTime (traf_of (moof_at moof_bytes.now moof) tracks.old
        (view traf.now)) }
    requires few { count.old + timed_in (at_path (trun ∷ []) (view traf.now)) < 2 ^ 32 }
    ensures tracks { tracks.new ≡ ended tracks.old (traf_of (moof_at moof_bytes.now moof)
        tracks.old (view traf.now)) }
    ensures count { count.new ≡ count.old + timed_in (at_path (trun ∷ []) (view traf.now)) }
{
    let start = start_of(moof_bytes, moof, tracks, traf);
    let Start {
        context,
        time,
        track,
        tfhd: _,
        rest,
    } = start;
    let mut end = time;
    for child in rest {
        if child.header.kind.is(TRUN) {
            end += ticks_in(&context, &child);
            // All samples of a trun have durations of their own, or none.
            if sample_fields(flags_of(child.payload))
                .sample_duration
                .is_some()
            {
                *count += sample_count(child.payload);
            }
        }
    }
    if let Some(i) = track {
        tracks.set_next(i, end);
    }
}
