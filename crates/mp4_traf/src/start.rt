//! What is read of a track fragment before its runs.

ghost use Rattle.std.specs.Prelude.{◌≡◌, ◌==◌, ◌<◌, ◌^◌, ℕ, pos, length, IfSome};
ghost use Rattle.std.specs.List.{position};
ghost use Rattle.std.specs.Option.{unwrap_or};
ghost use Rattle.mp4_box.specs.Paths.{of_kind};
ghost use Rattle.mp4_box.specs.Trees.{children, view};
ghost use Rattle.mp4_traf.specs.Kinds.{trun};
ghost use Rattle.mp4_traf.specs.Implementation.Heads.{tfhd_at};
ghost use Rattle.mp4_traf.specs.Ranges.{IsSound};
ghost use Rattle.mp4_traf.specs.Runs.{base_of, moof_at, runs_of, shared_by, tfhd_of, track_of, traf_of};
ghost use Rattle.mp4_traf.specs.Implementation.TrafContexts.{shared_of};
ghost use Rattle.mp4_traf.specs.Tfhd.{track_id};

use crate::children::children_of;
use crate::runs::{RunStart, Runs};
use crate::tfdt::base_media_decode_time;
use crate::tfhd::track_id;
use crate::traf::{TrafContext, end_in, header_by, track_at};
use mp4_box::types::{TFDT, TFHD};
use mp4_box::{BoxRef, Walk};
use mp4_init::TrackList;

/// The offset of a tfhd where there is none.
const NOWHERE: u64 = u64::MAX;

/// The tfhd and the tfdt of a traf, and what else it holds.
#[derive(Drop)]
pub struct Heads<'a> {
    /// The payload of its tfhd, empty where it has none.
    pub tfhd: &'a [u8],
    /// The offset in the stream of its tfhd.
    tfhd_at: u64,
    /// The time of its tfdt.
    pub time: Option<u64>,
    /// Its children, but for some that are no truns.
    pub rest: Walk<'a>,
}

/// What is read of a traf before its runs.
#[derive(Drop)]
pub(crate) struct Start<'a> {
    /// What its runs share.
    pub(crate) context: TrafContext<'a>,
    /// Its base time.
    pub(crate) time: u64,
    /// The index of its track.
    pub(crate) track: Option<usize>,
    /// The offset in the stream of its tfhd.
    pub(crate) tfhd: u64,
    /// Its children, but for some that are no truns.
    pub rest: Walk<'a>,
}

/// The heads of a traf, wherever they are.
#[inline(never)]
fn heads_anywhere<'a>(traf: &BoxRef<'a>) -> Heads<'a>
    ensures tfhd { result.tfhd.now ≡ tfhd_of (view traf.now) }
    ensures at { result.tfhd_at ≡ tfhd_at (view traf.now) }
    ensures time { (next : ℕ) → unwrap_or result.time next ≡ base_of next (view traf.now) }
    ensures truns { of_kind trun result.rest ≡ of_kind trun (children (view traf.now)) }
{
    let (tfhd, tfhd_at): (&[u8], u64) = match children_of(TFHD, traf).next() {
        Some(tfhd) => (tfhd.payload, tfhd.offset),
        None => (&[], NOWHERE),
    };
    let time = match children_of(TFDT, traf).next() {
        Some(tfdt) => Some(base_media_decode_time(tfdt.payload)),
        None => None,
    };
    Heads {
        tfhd,
        tfhd_at,
        time,
        rest: Walk::of(traf),
    }
}

/// The heads of a traf: mostly its first two children are its tfhd and its tfdt.
#[inline(always)]
pub fn heads_of<'a>(traf: &BoxRef<'a>) -> Heads<'a>
    ensures tfhd { result.tfhd.now ≡ tfhd_of (view traf.now) }
    ensures at { result.tfhd_at ≡ tfhd_at (view traf.now) }
    ensures time { (next : ℕ) → unwrap_or result.time next ≡ base_of next (view traf.now) }
    ensures truns { of_kind trun result.rest ≡ of_kind trun (children (view traf.now)) }
{
    let mut rest = Walk::of(traf);
    let Some(tfhd) = rest.next() else {
        return heads_anywhere(traf);
    };
    let Some(tfdt) = rest.next() else {
        return heads_anywhere(traf);
    };
    if !tfhd.header.kind.is(TFHD) || !tfdt.header.kind.is(TFDT) {
        return heads_anywhere(traf);
    }
    Heads {
        tfhd: tfhd.payload,
        tfhd_at: tfhd.offset,
        time: Some(base_media_decode_time(tfdt.payload)),
        rest,
    }
}

/// What is read of a traf before its runs, in the moof that begins at this offset.
#[inline(always)]
pub(crate) fn start_of<'a>(
    moof_bytes: &'a [u8],
    moof: u64,
    tracks: &TrackList,
    traf: &BoxRef<'a>,
) -> Start<'a>
    ensures shared { shared_of result.context ≡ shared_by (moof_at moof_bytes.now moof)
        (track_of tracks.now (view traf.now)) (view traf.now) }
    ensures small { result.context.header.size < 2 ^ 32 }
    ensures time { result.time ≡
        base_of (track_of tracks.now (view traf.now)).next (view traf.now) }
    ensures track { result.track ≡
        position (λ t. t.id == track_id (tfhd_of (view traf.now))) tracks.now }
    ensures within { IfSome result.track (λ i. i < length tracks.now) }
    ensures tfhd { result.tfhd ≡ tfhd_at (view traf.now) }
    ensures truns { of_kind trun result.rest ≡ of_kind trun (children (view traf.now)) }
{
    let heads = heads_of(traf);
    let at = tracks.find(track_id(heads.tfhd));
    let track = track_at(tracks, at);
    Start {
        context: TrafContext {
            moof_bytes,
            moof,
            header: header_by(track, heads.tfhd),
            ends_at: end_in(moof, traf),
        },
        time: heads.time.unwrap_or(track.next),
        track: at,
        tfhd: heads.tfhd_at,
        rest: heads.rest,
    }
}

/// The runs of a traf, its track and its base time, and where its tfhd begins.
#[derive(Drop)]
pub struct RunsOf<'a> {
    pub tfhd: u64,
    /// The track_ID of its track.
    pub track: u32,
    /// Its base time.
    pub time: u64,
    pub runs: Runs<'a>,
}

/// Where the first run of a traf may begin, in the moof that begins at this offset.
#[inline]
pub fn before_runs(time: u64, moof: u64) -> RunStart
    ensures time { result.time ≡ time }
    ensures place { result.place ≡ pos moof }
{
    RunStart {
        time,
        place: i128::from(moof),
    }
}

/// The runs of a traf, in the moof that begins at this offset.
#[inline(always)]
pub fn runs_of<'a>(
    moof_bytes: &'a [u8],
    moof: u64,
    tracks: &TrackList,
    traf: &BoxRef<'a>,
) -> RunsOf<'a>
    requires { IsSound (traf_of (moof_at moof_bytes.now moof) tracks.now
        (view traf.now)) }
    ensures tfhd { result.tfhd ≡ tfhd_at (view traf.now) }
    ensures track { result.track ≡ (traf_of (moof_at moof_bytes.now moof) tracks.now
        (view traf.now)).shared.header.track }
    ensures time { result.time ≡
        (traf_of (moof_at moof_bytes.now moof) tracks.now (view traf.now)).time }
    ensures runs { result.runs ≡
        runs_of (traf_of (moof_at moof_bytes.now moof) tracks.now (view traf.now)) }
{
    let start = start_of(moof_bytes, moof, tracks, traf);
    let Start {
        context,
        time,
        track: _,
        tfhd,
        rest,
    } = start;
    let run_start = before_runs(time, moof);
    RunsOf {
        tfhd,
        track: context.header.track,
        time,
        runs: Runs::among(&context, &run_start, rest),
    }
}
