//! Checks a moof in one pass over its boxes.
//!
//! The rules are checked one by one, each with a pass of its own, so that of several faults the first is reported.
//! Nearly every moof has none, and one pass shows that. Trafs without tfdt are counted: if there are some, those that
//! follow others of their track are searched for too.

ghost use Rattle.std.specs.Prelude.{◌≡◌, ◌≢◌, ◌≤◌, ◌∷◌, [], length, true, IfSome, IsSome, IsTrue};
ghost use Rattle.std.specs.List.{AllByRecursion, flat_map, list_all};
ghost use Rattle.mp4_box.specs.Order.{least_from};
ghost use Rattle.mp4_box.specs.Paths.{at_path, of_kind};
ghost use Rattle.mp4_box.specs.Trees.{box_faults, box_len, children, view};
ghost use Rattle.mp4_frag.specs.Implementation.AtOnce.{Adds, HasEarlyEnd, IsComplete, IsCount, IsEarly, TrafHasTicks, faults_in_moof, faults_in_traf, in_trafs, is_complete, is_early, most_64, passed_over};
ghost use Rattle.mp4_traf.specs.Implementation.Heads.{HasTicks};
ghost use Rattle.mp4_traf.specs.Kinds.{is_kind, free, skip, tfdt, tfhd, to_trun, traf};
ghost use Rattle.mp4_frag.specs.Moofs.{value_faults};
ghost use Rattle.mp4_frag.specs.Repeats.{repeat_faults, trafs_of, untimed_ids};
ghost use Rattle.mp4_frag.specs.Rules.{form_faults, samples_of};
ghost use Rattle.mp4_traf.specs.Rules.{most_in_moof};

pub(crate) mod child_at_once;

use crate::at_once::child_at_once::{add_len, all_hold, count_kind, note_in_moof};
use crate::rules::counts::MOST_IN_MOOF;
use crate::rules::repeats::lacks_time;
use mp4_box::types::{MFHD, TRAF};
use mp4_box::{BoxRef, Fault, Walk};
use mp4_init::TrackList;
use mp4_traf::internal::track_of;

/// Findings on a moof that has no fault in its tree, its boxes and their values.
#[derive(Clone, Copy)]
pub(crate) struct MoofCounts {
    /// How many samples it has.
    pub(crate) samples: u32,
    /// How many truns it has.
    pub(crate) truns: u64,
    /// Whether its times are so early that none of its runs ends past 64 bits.
    pub(crate) is_early: bool,
}

/// A moof has so few samples that a traf which begins before this time ends within 64 bits.
pub(crate) const LATE: u64 = 1 << 63;

/// The bytes of a moof have room for so many truns at most.
const MOST_TRUNS: u64 = 1 << 62;

/// Notes the faults of each box of a moof by itself, adds the box to the findings, and counts the trafs without tfdt.
/// Returns whether the moof has just one mfhd, each traf just one tfhd and at most one tfdt, and none of them a rest.
fn note_moof(
    tracks: &TrackList,
    moof: &BoxRef<'_>,
    best: &mut Option<Fault>,
    sound: &mut MoofCounts,
    untimed: &mut u64,
) -> bool
    ensures best { best.new ≡ least_from best.old
        (flat_map (faults_in_moof tracks.now) (children (view moof.now))) }
    ensures complete { IsTrue result → IsComplete (view moof.now) }
    ensures adds { Adds (in_trafs (children (view moof.now))) sound.old sound.new }
    ensures ticks { AllByRecursion (TrafHasTicks tracks.now)
        (of_kind traf (children (view moof.now))) }
    ensures count { IsTrue result → IsCount most_64 untimed.old
        (length (untimed_ids (of_kind traf (children (view moof.now))))) untimed.new }
{
    let mut mfhds = 0;
    let mut len = 0;
    let mut complete = true;
    for child in Walk::of(moof) {
        complete = note_in_moof(tracks, &child, best, sound, untimed) && complete;
        add_len(&child, &mut len);
        count_kind(MFHD, &child, &mut mfhds);
    }
    all_hold(complete, mfhds == 1, len == moof.payload.len() as u64)
}

/// Whether a child of a moof is no traf, or has a tfdt, or its track ended early.
fn has_early_end(tracks: &TrackList, child: &BoxRef<'_>) -> bool
    ensures { IsTrue result →
        AllByRecursion (HasEarlyEnd tracks.now) (of_kind traf (view child.now ∷ [])) }
{
    if !child.header.kind.is(TRAF) || !lacks_time(child) {
        return true;
    }
    track_of(tracks, child).next < LATE
}

/// Whether the track of each traf without tfdt ended early: there the traf begins.
pub(crate) fn ended_early(tracks: &TrackList, moof: &BoxRef<'_>) -> bool
    ensures { IsTrue result →
        AllByRecursion (HasEarlyEnd tracks.now) (trafs_of (view moof.now)) }
{
    for child in Walk::of(moof) {
        if !has_early_end(tracks, &child) {
            return false;
        }
    }
    true
}

/// Findings on a moof without a fault in its tree, its boxes and their values, times aside, except that a traf without
/// tfdt may follow another of its track: trafs without tfdt are counted, and only the times of tfdts are known to be
/// early.
pub(crate) fn read_at_once(
    tracks: &TrackList,
    moof: &BoxRef<'_>,
    untimed: &mut u64,
) -> Option<MoofCounts>
    ensures tree { IsSome result → box_faults (view moof.now) ≡ [] }
    ensures forms { IsSome result → form_faults (view moof.now) ≡ [] }
    ensures values { IsSome result →
        value_faults tracks.now (view moof.now) ≡ repeat_faults (view moof.now) }
    ensures count { IsSome result → IsCount most_64 untimed.old
        (length (untimed_ids (trafs_of (view moof.now)))) untimed.new }
    ensures samples { IfSome result (λ s. s.samples ≡ samples_of (view moof.now)) }
    ensures few { IfSome result (λ s. s.samples ≤ most_in_moof) }
    ensures truns { IfSome result (λ s.
        s.truns ≡ length (at_path to_trun (view moof.now))) }
    ensures early { IfSome result (λ s. s.is_early ≡ true →
        AllByRecursion (HasEarlyEnd tracks.now) (trafs_of (view moof.now)) →
        IsEarly tracks.now (view moof.now)) }
{
    let mut best = None;
    let mut sound = MoofCounts {
        samples: 0,
        truns: 0,
        is_early: true,
    };
    if !note_moof(tracks, moof, &mut best, &mut sound, untimed) {
        return None;
    }
    if best.is_some() || sound.samples > MOST_IN_MOOF || sound.truns > MOST_TRUNS {
        return None;
    }
    Some(sound)
}
