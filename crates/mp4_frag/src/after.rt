//! The next run of a moof, found from a run alone.

ghost use Rattle.std.specs.Prelude.{◌≡◌, ◌+◌, ◌++◌, ◌∷◌, ◌^◌, ◌<◌, ◌≤◌, List, length, IfSome};
ghost use Rattle.std.specs.List.{AllByRecursion, flat_map};
ghost use Rattle.mp4_box.specs.Headers.{IsWhole};
ghost use Rattle.mp4_box.specs.Trees.{children, first_of, view};
ghost use Rattle.mp4_traf.specs.declared.run.Run.{Run};
ghost use Rattle.mp4_frag.specs.After.{IsBetween, IsOneOf};
ghost use Rattle.mp4_frag.specs.Implementation.LaterRuns.{all_after, boxes_between, runs_after, trafs_after};
ghost use Rattle.mp4_frag.specs.Moofs.{IsRead, moof_runs};
ghost use Rattle.mp4_traf.specs.Ranges.{InRange, IsSound};
ghost use Rattle.mp4_traf.specs.Runs.{moof_at, runs_of};

use crate::moof::Moof;
use crate::part::headless;
use mp4_box::BoxRef;
use mp4_init::TrackList;
use mp4_traf::internal::{TrafContext, TrafHeader, run_end};
use mp4_traf::{Run, Runs, Trafs};

/// The bytes between two places of a moof, as the payload of a box without a header.
fn part_of<'a>(moof_bytes: &'a [u8], moof: u64, from: u64, to: u64) -> BoxRef<'a>
    requires order { from ≤ to }
    requires within { to ≤ length moof_bytes.now }
    requires room { moof + length moof_bytes.now ≤ 2 ^ 62 }
    ensures { children (view result) ≡ boxes_between (moof_at moof_bytes.now moof)
        from to }
{
    headless(&moof_bytes[from as usize..to as usize], moof + from)
}

/// The runs after a run in its traf.
#[tactic(auto, unfolding(crate::specs::Implementation::LaterRuns::runs_after))]
fn runs_after<'a>(moof_bytes: &'a [u8], moof: u64, run: &Run) -> Runs<'a>
    requires order { run.now.ends_at ≤ run.now.traf_ends_at }
    requires within { run.now.traf_ends_at ≤ length moof_bytes.now }
    requires room { moof + length moof_bytes.now ≤ 2 ^ 62 }
    requires here { InRange run.now }
    requires range { AllByRecursion InRange
        (runs_after (moof_at moof_bytes.now moof) run.now) }
    ensures { result ≡ runs_after (moof_at moof_bytes.now moof) run.now }
{
    let context = TrafContext {
        moof_bytes,
        moof,
        header: TrafHeader {
            track: run.track,
            timescale: run.timescale,
            entry: run.entry,
            duration: run.duration,
            size: run.size,
            flags: run.flags,
        },
        ends_at: run.traf_ends_at,
    };
    let part = part_of(moof_bytes, moof, run.ends_at, run.traf_ends_at);
    Runs::of(&context, &run_end(run), &part)
}

/// The trafs after the traf of a run.
#[tactic(auto, unfolding(crate::specs::Implementation::LaterRuns::trafs_after))]
fn trafs_after<'a>(moof_bytes: &'a [u8], moof: u64, tracks: &'a TrackList, run: &Run) -> Trafs<'a>
    requires within { run.now.traf_ends_at ≤ length moof_bytes.now }
    requires room { moof + length moof_bytes.now ≤ 2 ^ 62 }
    requires sound { AllByRecursion IsSound
        (trafs_after (moof_at moof_bytes.now moof) tracks.now run.now) }
    ensures { result ≡ trafs_after (moof_at moof_bytes.now moof) tracks.now run.now }
{
    let part = part_of(moof_bytes, moof, run.traf_ends_at, moof_bytes.len() as u64);
    Trafs::of(moof_bytes, moof, tracks, &part)
}

/// The first run of some trafs.
fn first_run(trafs: Trafs<'_>) -> Option<Run>
    ensures { result ≡ first_of (flat_map runs_of trafs.entry) }
{
    for traf in trafs {
        if let Some(run) = traf.runs().next() {
            return Some(run);
        }
    }
    None
}

/// The run after a run in the moof that the bytes are, which begin at this offset.
fn run_after(moof_bytes: &[u8], moof: u64, tracks: &TrackList, run: &Run) -> Option<Run>
    requires whole { IsWhole moof_bytes.now }
    requires room { moof + length moof_bytes.now ≤ 2 ^ 62 }
    requires read { IsRead (moof_at moof_bytes.now moof) tracks.now }
    requires small { run.now.size < 2 ^ 32 }
    requires run { IsOneOf run.now (moof_runs (moof_at moof_bytes.now moof) tracks.now) }
    ensures next { (before after : List Run) → IsBetween
        (moof_runs (moof_at moof_bytes.now moof) tracks.now) before run.now after →
        result ≡ first_of after }
    ensures run { IfSome result (λ next. IsOneOf next
        (moof_runs (moof_at moof_bytes.now moof) tracks.now)) }
{
    if let Some(next) = runs_after(moof_bytes, moof, run).next() {
        return Some(next);
    }
    first_run(trafs_after(moof_bytes, moof, tracks, run))
}

/// A run of a moof, of which the next can be found.
pub trait RunOfMoof {
    // The run.
    ghost itself: { Self → Run };

    /// The run that follows in the listing of the moof's runs: that of the next trun of its traf, or else the first of
    /// a traf after it; none after the last. `tracks` are those that the moof was read with. It reads no row but those
    /// of the run that it gives.
    fn after(self, moof: &Moof<'_>, tracks: &TrackList) -> Option<Run>
        requires read { IsRead moof.now tracks.now }
        requires run { IsOneOf (itself self) (moof_runs moof.now tracks.now) }
        ensures next { (before after : List Run) → IsBetween (moof_runs moof.now tracks.now)
            before (itself self) after → result ≡ first_of after }
        ensures run { IfSome result (λ next. IsOneOf next (moof_runs moof.now tracks.now)) };
}

impl RunOfMoof for Run {
    ghost itself = { λ r. r };

    fn after(self, moof: &Moof<'_>, tracks: &TrackList) -> Option<Run> {
        run_after(moof.moof_bytes, moof.offset, tracks, &self)
    }
}
