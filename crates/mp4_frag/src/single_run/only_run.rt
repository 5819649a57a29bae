//! The only run of a moof of any form.

ghost use Rattle.std.specs.Prelude.{◌≡◌, ℕ, List, ◌≢◌, ◌+◌, ◌^◌, ◌<◌, ◌≤◌, ◌↔◌, ◌∷◌, ◌==◌, [], length, true, None, Some, IfNone, IfSome, IsSome};
ghost use Rattle.std.specs.List.{position};
ghost use Rattle.std.specs.Option.{unwrap_or};
ghost use Rattle.mp4_box.specs.Headers.{IsWhole};
ghost use Rattle.mp4_box.specs.Paths.{of_kind};
ghost use Rattle.mp4_box.specs.Trees.{children, view};
ghost use Rattle.mp4_init.specs.declared.table.Track.{Track};
ghost use Rattle.mp4_traf.specs.Kinds.{trun};
ghost use Rattle.mp4_traf.specs.Ranges.{InRange, IsSound};
ghost use Rattle.mp4_traf.specs.Runs.{base_of, moof_at, runs_of, tfhd_of, traf_of};
ghost use Rattle.mp4_traf.specs.Tfhd.{track_id};
ghost use Rattle.mp4_frag.specs.Moofs.{IsRead, moof_runs, moof_samples, moof_trafs};
ghost use Rattle.mp4_frag.specs.RunLists.{taken_runs};
ghost use Rattle.mp4_frag.specs.SingleRuns.{IsSingle};

use crate::moof::Moof;
use crate::rules::mfhd::sequence_in;
use crate::single_run::SingleRun;
use mp4_box::types::{TRAF, TRUN};
use mp4_box::{BoxRef, FourCc, Walk, whole_box};
use mp4_init::TrackList;
use mp4_traf::internal::{
    TrafContext, before_runs, end_in, header_by, heads_of, next_of, run_of, track_at, track_id,
};
use mp4_traf::{Run, Steps};

/// The only box of this type among those that are left; none where there are more, or none at all.
#[inline(always)]
fn only_of<'a>(kind: FourCc, mut walk: Walk<'a>) -> Option<BoxRef<'a>>
    ensures only { IfSome result (λ b. of_kind kind walk.entry ≡ view b ∷ []) }
    ensures none { IfNone result (length (of_kind kind walk.entry) ≢ 1) }
{
    let Some(only) = next_of(kind, &mut walk) else {
        return None;
    };
    match next_of(kind, &mut walk) {
        Some(_) => None,
        None => Some(only),
    }
}

/// The only run of a traf with this tfhd and this base time, in the moof that begins at this offset. Its track is at
/// this index.
#[inline(always)]
pub(crate) fn run_with<'a>(
    moof_bytes: &'a [u8],
    moof: u64,
    tracks: &TrackList,
    track: usize,
    traf: &BoxRef<'a>,
    tfhd: &'a [u8],
    time: Option<u64>,
    only: &BoxRef<'a>,
) -> Run
    requires track { position (λ t. t.id == track_id tfhd.now) tracks.now ≡ Some track }
    requires within { track < length tracks.now }
    requires tfhd { tfhd.now ≡ tfhd_of (view traf.now) }
    requires time { (next : ℕ) → unwrap_or time next ≡ base_of next (view traf.now) }
    requires trun { of_kind trun (children (view traf.now)) ≡ view only.now ∷ [] }
    requires sound { IsSound (traf_of (moof_at moof_bytes.now moof) tracks.now
        (view traf.now)) }
    ensures run { runs_of (traf_of (moof_at moof_bytes.now moof) tracks.now (view traf.now)) ≡
        result ∷ [] }
    ensures range { InRange result }
    ensures track { position (λ t. t.id == track_id (tfhd_of (view traf.now))) tracks.now ≡
        Some track }
{
    let of = track_at(tracks, Some(track));
    let context = TrafContext {
        moof_bytes,
        moof,
        header: header_by(of, tfhd),
        ends_at: end_in(moof, traf),
    };
    let run_start = before_runs(time.unwrap_or(of.next), moof);
    run_of(&context, &run_start, only)
}

/// The only run of a traf, in the moof that begins at this offset and has this number. Its track is known.
#[inline(always)]
fn single_of<'a>(
    moof_bytes: &'a [u8],
    moof: u64,
    tracks: &TrackList,
    traf: &BoxRef<'a>,
    sequence: u32,
) -> Option<SingleRun>
    requires sound { IsSound (traf_of (moof_at moof_bytes.now moof) tracks.now
        (view traf.now)) }
    requires known { IsSome (position (λ t. t.id == track_id (tfhd_of (view traf.now)))
        tracks.now) }
    ensures run { IfSome result (λ l.
        runs_of (traf_of (moof_at moof_bytes.now moof) tracks.now (view traf.now)) ≡ l.run ∷ []) }
    ensures range { IfSome result (λ l. InRange l.run) }
    ensures track { IfSome result (λ l.
        position (λ t. t.id == track_id (tfhd_of (view traf.now))) tracks.now ≡ Some l.track) }
    ensures within { IfSome result (λ l. l.track < length tracks.now) }
    ensures sequence { IfSome result (λ l. l.sequence ≡ sequence) }
    ensures none { IfNone result (length
        (runs_of (traf_of (moof_at moof_bytes.now moof) tracks.now (view traf.now))) ≢ 1) }
{
    let heads = heads_of(traf);
    let Some(trun) = only_of(TRUN, heads.rest) else {
        return None;
    };
    let track = tracks.find(track_id(heads.tfhd)).unwrap();
    let tfhd = heads.tfhd;
    Some(SingleRun {
        run: run_with(
            moof_bytes, moof, tracks, track, traf, tfhd, heads.time, &trun,
        ),
        track,
        sequence,
    })
}

/// The only run of the moof that the bytes are, which begin at this offset: of its only traf.
#[inline(always)]
fn single_in(moof_bytes: &[u8], offset: u64, tracks: &TrackList) -> Option<SingleRun>
    requires whole { IsWhole moof_bytes.now }
    requires room { offset + length moof_bytes.now ≤ 2 ^ 62 }
    requires read { IsRead (moof_at moof_bytes.now offset) tracks.now }
    ensures single_run { IfSome result (λ l. IsSingle (moof_at moof_bytes.now offset) tracks.now l) }
    ensures none { length (moof_trafs (moof_at moof_bytes.now offset) tracks.now) ≡ 1 →
        length (moof_runs (moof_at moof_bytes.now offset) tracks.now) ≡ 1 → IsSome result }
{
    let moof = whole_box(moof_bytes, offset);
    let Some(traf) = only_of(TRAF, Walk::of(&moof)) else {
        return None;
    };
    let sequence = sequence_in(moof_bytes, offset);
    single_of(moof_bytes, offset, tracks, &traf, sequence)
}

impl<'a> Moof<'a> {
    /// The run of a moof that has one traf, with one trun in it; none where it has others. `tracks` are those that it
    /// was read with. Its samples are counted in `steps` as rows that were read; where there is no such run, no row is
    /// read.
    pub fn only_run(&self, tracks: &TrackList, steps: &mut Steps) -> Option<SingleRun>
        requires read { IsRead self.now tracks.now }
        requires steps { steps.old.rows < 2 ^ 127 }
        ensures single_run { IfSome result (λ l. IsSingle self.now tracks.now l) }
        ensures taken { IfSome result (λ l. taken_runs self.now tracks.now ≡ l.run ∷ []) }
        ensures none { length (moof_trafs self.now tracks.now) ≡ 1 →
            length (moof_runs self.now tracks.now) ≡ 1 → IsSome result }
        ensures rows_read { IfSome result (λ _. steps.new.rows ≡
            steps.old.rows + moof_samples self.now) }
        ensures unread { result ≡ None → steps.new ≡ steps.old }
    {
        let Some(single_run) = single_in(self.moof_bytes, self.offset, tracks) else {
            return None;
        };
        steps.rows += u128::from(single_run.run.count);
        Some(single_run)
    }
}

/// Whether the moof that the bytes are, which begin at this offset, has one traf, with one trun in it.
#[inline(always)]
pub(crate) fn has_one_run(moof_bytes: &[u8], offset: u64) -> bool
    requires whole { IsWhole moof_bytes.now }
    requires room { offset + length moof_bytes.now ≤ 2 ^ 62 }
    ensures { (tracks : List Track) → (result ≡ true) ↔
        ((length (moof_trafs (moof_at moof_bytes.now offset) tracks) ≡ 1) ×
        (length (moof_runs (moof_at moof_bytes.now offset) tracks) ≡ 1)) }
{
    let moof = whole_box(moof_bytes, offset);
    let Some(traf) = only_of(TRAF, Walk::of(&moof)) else {
        return false;
    };
    only_of(TRUN, Walk::of(&traf)).is_some()
}
