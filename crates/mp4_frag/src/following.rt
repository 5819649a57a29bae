//! Runs that follow one another as they are listed: none is at fault by its place then, and no list of them is needed.

ghost use Rattle.std.specs.Prelude.{ℕ, ◌≡◌, ◌+◌, ◌^◌, ◌<◌, ◌≤◌, ◌≤ℤ◌, ◌∷◌, ◌++◌, [], length, map, pos, take, true, Some, None, IfSome, IsSome, IsTrue};
ghost use Rattle.std.specs.List.{AllByRecursion, list_all, sum_by};
ghost use Rattle.mp4_box.specs.Headers.{IsWhole};
ghost use Rattle.mp4_box.specs.Paths.{at_path};
ghost use Rattle.mp4_box.specs.Trees.{view};
ghost use Rattle.mp4_run_order.specs.Takings.{AllFollow};
ghost use Rattle.mp4_traf.specs.declared.run.Run.{Run};
ghost use Rattle.mp4_traf.specs.Kinds.{traf};
ghost use Rattle.mp4_frag.specs.Moofs.{IsRead, moof_of, moof_runs, moof_samples, moof_truns};
ghost use Rattle.mp4_frag.specs.Places.{place_fault};
ghost use Rattle.mp4_traf.specs.Ranges.{InRange, IsSound};
ghost use Rattle.mp4_frag.specs.RunLists.{moof_listing, taken_runs};
ghost use Rattle.mp4_traf.specs.Runs.{begins_early, last_end, moof_at, runs_of, traf_of};
ghost use Rattle.mp4_frag.specs.TrafEnds.{AreEndsOf, few_trafs, traf_end};
ghost use Rattle.mp4_frag.specs.Implementation.Following.{all_follow, bytes_with, ends_by, follows, past_run, past_runs, runs_of_trafs, timed_run};

use crate::at_once::LATE;
use crate::moof::Moof;
use crate::places::lies_in;
use crate::traf_ends::{TrafEnd, TrafEnds};
use mp4_box::types::TRAF;
use mp4_box::{BoxRef, whole_box};
use mp4_init::TrackList;
use mp4_run_order::Payload;
use mp4_traf::internal::{RunsOf, base_of, children_of, runs_of};
use mp4_traf::{Run, Runs, Steps};

/// The runs of a moof that follow one another as they are listed.
#[derive(Drop)]
pub struct Following {
    /// How many there are.
    pub runs: u64,
    /// How many bytes their samples have.
    pub bytes: u64,
    /// Where its trafs end.
    pub ends: TrafEnds,
}

/// The end of the runs so far, and their sums.
#[derive(Clone, Copy)]
struct Followed {
    /// The stream offset after the last of them that has samples.
    end: i128,
    /// How many bytes those with samples have.
    bytes: u64,
    /// When the last of its traf ends, in ticks.
    time: u64,
    /// How many samples have durations of their own.
    timed: u32,
}

/// No run so far, in a payload.
#[inline(always)]
fn before_all(payload: Payload) -> Followed
    ensures end { result.end ≡ pos payload.start }
    ensures bytes { result.bytes ≡ 0 }
    ensures timed { result.timed ≡ 0 }
{
    Followed {
        end: i128::from(payload.start),
        bytes: 0,
        time: 0,
        timed: 0,
    }
}

/// How many samples of a run have durations of their own: all or none.
#[inline(always)]
fn timed_in(run: &Run) -> u32
    ensures { result ≡ timed_run run.now }
{
    if run.fields.sample_duration.is_some() {
        run.count
    } else {
        0
    }
}

/// Adds a run, if it follows those before it. Returns whether it does.
#[inline(always)]
#[tactic(auto, unfolding(crate::specs::Implementation::Following::follows))]
fn follow_run(payload: Payload, run: &Run, so_far: &mut Followed) -> bool
    requires range { InRange run.now }
    requires room { pos (payload.start + so_far.old.bytes) ≤ℤ so_far.old.end }
    requires few { so_far.old.timed + timed_run run.now < 2 ^ 32 }
    ensures is { result ≡ follows payload so_far.old.end run.now }
    ensures end { IsTrue result → so_far.new.end ≡ past_run so_far.old.end run.now }
    ensures bytes { IsTrue result → so_far.new.bytes ≡ so_far.old.bytes + bytes_with run.now }
    ensures room { IsTrue result → pos (payload.start + so_far.new.bytes) ≤ℤ so_far.new.end }
    ensures time { so_far.new.time ≡ run.now.end }
    ensures timed { so_far.new.timed ≡ so_far.old.timed + timed_run run.now }
{
    so_far.time = run.end;
    so_far.timed += timed_in(run);
    if run.count == 0 {
        return true;
    }
    if run.place < so_far.end || !lies_in(run, payload) {
        return false;
    }
    so_far.end = run.place + i128::from(run.bytes);
    so_far.bytes += run.bytes;
    true
}

/// Adds some runs, if each follows those before it. Returns whether they do.
#[inline(always)]
fn follow_runs(payload: Payload, runs: Runs<'_>, so_far: &mut Followed) -> bool
    requires range { AllByRecursion InRange runs }
    requires room { pos (payload.start + so_far.old.bytes) ≤ℤ so_far.old.end }
    requires few { so_far.old.timed + sum_by timed_run runs < 2 ^ 32 }
    ensures is { result ≡ all_follow payload so_far.old.end runs.entry }
    ensures end { IsTrue result → so_far.new.end ≡ past_runs so_far.old.end runs.entry }
    ensures bytes { IsTrue result →
        so_far.new.bytes ≡ so_far.old.bytes + sum_by bytes_with runs.entry }
    ensures room { IsTrue result → pos (payload.start + so_far.new.bytes) ≤ℤ so_far.new.end }
    ensures time { IsTrue result → so_far.new.time ≡ last_end so_far.old.time runs.entry }
    ensures timed { IsTrue result →
        so_far.new.timed ≡ so_far.old.timed + sum_by timed_run runs.entry }
{
    for run in runs {
        if !follow_run(payload, &run, so_far) {
            return false;
        }
    }
    true
}

/// Adds the runs of a traf, in the moof that begins at this offset, if each follows those before it. Returns whether
/// they do. Where the traf ends is kept then.
#[inline(always)]
fn follow_traf(
    payload: Payload,
    moof_bytes: &[u8],
    offset: u64,
    traf: &BoxRef<'_>,
    tracks: &TrackList,
    so_far: &mut Followed,
    ends: &mut TrafEnds,
) -> bool
    requires sound { IsSound (traf_of (moof_at moof_bytes.now offset) tracks.now (view traf.now)) }
    requires room { pos (payload.start + so_far.old.bytes) ≤ℤ so_far.old.end }
    requires few { so_far.old.timed + sum_by timed_run (runs_of
        (traf_of (moof_at moof_bytes.now offset) tracks.now (view traf.now))) < 2 ^ 32 }
    ensures is { result ≡ all_follow payload so_far.old.end (runs_of
        (traf_of (moof_at moof_bytes.now offset) tracks.now (view traf.now))) }
    ensures end { IsTrue result → so_far.new.end ≡ past_runs so_far.old.end (runs_of
        (traf_of (moof_at moof_bytes.now offset) tracks.now (view traf.now))) }
    ensures bytes { IsTrue result → so_far.new.bytes ≡ so_far.old.bytes + sum_by bytes_with
        (runs_of (traf_of (moof_at moof_bytes.now offset) tracks.now (view traf.now))) }
    ensures room { IsTrue result → pos (payload.start + so_far.new.bytes) ≤ℤ so_far.new.end }
    ensures timed { IsTrue result → so_far.new.timed ≡ so_far.old.timed + sum_by timed_run
        (runs_of (traf_of (moof_at moof_bytes.now offset) tracks.now (view traf.now))) }
    ensures ends { IsTrue result → ends.new.ends.items ≡ take few_trafs (ends.old.ends.items ++
        traf_end (traf_of (moof_at moof_bytes.now offset) tracks.now (view traf.now)) ∷ []) }
{
    let RunsOf {
        tfhd: _,
        track,
        time,
        runs,
    } = runs_of(moof_bytes, offset, tracks, traf);
    so_far.time = time;
    if !follow_runs(payload, runs, so_far) {
        return false;
    }
    ends.push(TrafEnd {
        track,
        time: so_far.time,
    });
    true
}

/// Adds the runs of the trafs of a moof that begins at this offset, if each follows those before it. Returns whether
/// they do. Where the trafs end is kept then.
#[tactic(auto, using(crate::proofs::FollowingLemmas::traf_steps))]
fn follow_trafs(
    payload: Payload,
    moof_bytes: &[u8],
    offset: u64,
    moof: &BoxRef<'_>,
    tracks: &TrackList,
    so_far: &mut Followed,
    ends: &mut TrafEnds,
) -> bool
    requires sound { AllByRecursion (λ t. IsSound (traf_of (moof_at moof_bytes.now offset)
        tracks.now t)) (at_path (traf ∷ []) (view moof.now)) }
    requires room { pos (payload.start + so_far.old.bytes) ≤ℤ so_far.old.end }
    requires few { so_far.old.timed + sum_by timed_run (runs_of_trafs
        (moof_at moof_bytes.now offset) tracks.now (at_path (traf ∷ []) (view moof.now))) < 2 ^ 32 }
    requires fits { take few_trafs ends.old.ends.items ≡ ends.old.ends.items }
    ensures is { result ≡ all_follow payload so_far.old.end (runs_of_trafs
        (moof_at moof_bytes.now offset) tracks.now (at_path (traf ∷ []) (view moof.now))) }
    ensures end { IsTrue result → so_far.new.end ≡ past_runs so_far.old.end (runs_of_trafs
        (moof_at moof_bytes.now offset) tracks.now (at_path (traf ∷ []) (view moof.now))) }
    ensures bytes { IsTrue result → so_far.new.bytes ≡ so_far.old.bytes + sum_by bytes_with
        (runs_of_trafs (moof_at moof_bytes.now offset) tracks.now (at_path (traf ∷ []) (view moof.now))) }
    ensures room { IsTrue result → pos (payload.start + so_far.new.bytes) ≤ℤ so_far.new.end }
    ensures timed { IsTrue result → so_far.new.timed ≡ so_far.old.timed + sum_by timed_run
        (runs_of_trafs (moof_at moof_bytes.now offset) tracks.now (at_path (traf ∷ []) (view moof.now))) }
    ensures ends { IsTrue result → ends.new.ends.items ≡ take few_trafs (ends.old.ends.items ++
        ends_by (moof_at moof_bytes.now offset) tracks.now (at_path (traf ∷ []) (view moof.now))) }
{
    for traf in children_of(TRAF, moof) {
        if !follow_traf(payload, moof_bytes, offset, &traf, tracks, so_far, ends) {
            return false;
        }
    }
    true
}

/// How many bytes the samples of the moof have that the bytes are, which begin at this offset, if its runs follow one
/// another. Where its trafs end is kept then.
#[inline(always)]
fn bytes_in_order(
    moof_bytes: &[u8],
    offset: u64,
    payload: Payload,
    tracks: &TrackList,
    ends: &mut TrafEnds,
) -> Option<u64>
    requires whole { IsWhole moof_bytes.now }
    requires room { offset + length moof_bytes.now ≤ 2 ^ 62 }
    requires read { IsRead (moof_at moof_bytes.now offset) tracks.now }
    requires empty { ends.old.ends.items ≡ [] }
    ensures some { IsSome result →
        AllFollow payload (moof_listing (moof_at moof_bytes.now offset) tracks.now) }
    ensures all { AllFollow payload (moof_listing (moof_at moof_bytes.now offset) tracks.now) →
        IsSome result }
    ensures placed { IsSome result →
        place_fault payload (moof_runs (moof_at moof_bytes.now offset) tracks.now) ≡ None }
    ensures runs { moof_truns (moof_at moof_bytes.now offset) ≡
        length (moof_runs (moof_at moof_bytes.now offset) tracks.now) }
    ensures bytes { IfSome result (λ b. b ≡ sum_by (λ (run : Run). run.bytes)
        (taken_runs (moof_at moof_bytes.now offset) tracks.now)) }
    ensures within { IfSome result (λ b. (end : ℕ) → payload.end ≡ Some end →
        payload.start ≤ end → payload.start + b ≤ end) }
    ensures ends { IsSome result → AreEndsOf ends.new (moof_at moof_bytes.now offset) tracks.now }
{
    let mut so_far = before_all(payload);
    let moof = whole_box(moof_bytes, offset);
    if !follow_trafs(
        payload,
        moof_bytes,
        offset,
        &moof,
        tracks,
        &mut so_far,
        ends,
    ) {
        return None;
    }
    ends.set_timed(so_far.timed);
    Some(so_far.bytes)
}

/// Whether each traf of a moof has a time of its own that is early.
fn all_begin_early(moof: &BoxRef<'_>) -> bool
    ensures { result ≡ list_all begins_early (at_path (traf ∷ []) (view moof.now)) }
{
    for traf in children_of(TRAF, moof) {
        if base_of(LATE, &traf) >= LATE {
            return false;
        }
    }
    true
}

impl<'a> Moof<'a> {
    /// Whether each traf of the moof that the bytes are, one whole box that begins at `offset` in the stream, has a
    /// tfdt whose time lies before tick 2^63. To see that the runs of such a moof end within 64 bits no row of it need
    /// be read.
    #[tactic(auto, using(crate::proofs::MoofLemmas::moof_is))]
    pub fn begins_early(moof_bytes: &[u8], offset: u64) -> bool
        requires whole { IsWhole moof_bytes.now }
        requires room { offset + length moof_bytes.now ≤ 2 ^ 62 }
        ensures { result ≡ list_all begins_early
            (at_path (traf ∷ []) (moof_of (moof_at moof_bytes.now offset))) }
    {
        all_begin_early(&whole_box(moof_bytes, offset))
    }

    /// Sums over its runs, if each with samples lies in the payload and begins where those with samples that are listed
    /// before it end, or after that; none if one doesn't. Such runs may all lie where they do ([`Moof::places`]), and
    /// no list of them is claimed to say so. `tracks` are those that it was read with. Its samples are counted in
    /// `steps` as rows that were read, as [`Moof::list`] counts them, also where there is nothing to answer.
    #[inline(always)]
    pub fn following(
        &self,
        payload: Payload,
        tracks: &TrackList,
        steps: &mut Steps,
    ) -> Option<Following>
        requires read { IsRead self.now tracks.now }
        requires steps { steps.old.rows < 2 ^ 127 }
        ensures some { IsSome result → AllFollow payload (moof_listing self.now tracks.now) }
        ensures all { AllFollow payload (moof_listing self.now tracks.now) → IsSome result }
        ensures placed { IsSome result → place_fault payload (moof_runs self.now tracks.now) ≡ None }
        ensures runs { IfSome result (λ f. f.runs ≡ length (moof_runs self.now tracks.now)) }
        ensures bytes { IfSome result (λ f. f.bytes ≡ sum_by (λ (run : Run). run.bytes)
            (taken_runs self.now tracks.now)) }
        ensures within { IfSome result (λ f. (end : ℕ) → payload.end ≡ Some end →
            payload.start ≤ end → payload.start + f.bytes ≤ end) }
        ensures ends { IfSome result (λ f. AreEndsOf f.ends self.now tracks.now) }
        ensures rows_read { steps.new.rows ≡ steps.old.rows + moof_samples self.now }
    {
        steps.rows += u128::from(self.samples());
        let mut ends = TrafEnds::new();
        let Some(bytes) = bytes_in_order(self.moof_bytes, self.offset, payload, tracks, &mut ends)
        else {
            return None;
        };
        Some(Following {
            runs: self.truns_len(),
            bytes,
            ends,
        })
    }
}
