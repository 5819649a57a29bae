//! What a track fragment says of its runs.

ghost use Rattle.std.specs.Prelude.{◌≡◌, ◌<◌, ◌^◌, [], length, slice_get, IfSome};
ghost use Rattle.std.specs.Option.{option_and_then, unwrap_or};
ghost use Rattle.std.specs.Iterator.{YieldsFirst, item_count};
ghost use Rattle.std.specs.List.{AllByRecursion};
ghost use Rattle.mp4_box.specs.Trees.{children, view};
ghost use Rattle.mp4_traf.specs.Ranges.{InRange, IsSound};
ghost use Rattle.mp4_traf.specs.Runs.{base_of, end_in, header_by, moof_at, known_track, no_track, runs_of, shared_by, track_of, traf_of, trafs_by};
ghost use Rattle.mp4_traf.specs.Implementation.TrafContexts.{track_fragment, shared_of};

use crate::children::{children_of, next_of};
use crate::fields::{flags_of, number_or, payload_at};
use crate::runs::{RunStart, Runs};
use crate::tfdt::base_media_decode_time;
use crate::tfhd::{entry_of, tfhd_fields, track_id};
use mp4_box::types::{TFDT, TFHD, TRAF};
use mp4_box::{BoxRef, Walk};
use mp4_init::{Track, TrackList};
use std::marker::Model;

/// What the tfhd of a traf says, and else its track.
#[derive(Clone, Copy)]
pub struct TrafHeader {
    /// The track_ID.
    pub track: u32,
    /// The index of the sample entry.
    pub entry: u32,
    /// The default duration of a sample, in ticks.
    pub duration: u32,
    /// The default size of a sample, in bytes.
    pub size: u32,
    /// The default flags of a sample.
    pub flags: u32,
    /// The timescale of the track: how many ticks a second has.
    pub timescale: u32,
}

/// What the runs of a traf share.
#[derive(Clone, Copy)]
pub struct TrafContext<'a> {
    /// The bytes of the moof.
    pub moof_bytes: &'a [u8],
    /// The offset in the stream of the first of them.
    pub moof: u64,
    /// What the tfhd of the traf says, and else its track.
    pub header: TrafHeader,
    /// Where in the moof the traf ends.
    pub ends_at: u64,
}

/// The track where there is none.
const NO_TRACK: Track = Track {
    id: 0,
    timescale: 0,
    handler: 0,
    entries: 0,
    desc: 0,
    duration: 0,
    size: 0,
    flags: 0,
    next: 0,
};

/// The track with this track_ID, which there is in a moof without a fault; else one whose fields are all 0.
pub fn known_track(tracks: &TrackList, id: u32) -> Track
    ensures { result ≡ known_track id tracks.now }
{
    track_at(tracks, tracks.find(id))
}

/// The track at this index, where one was found; else one whose fields are all 0.
#[inline]
pub fn track_at(tracks: &TrackList, at: Option<usize>) -> Track
    requires { IfSome at (λ i. i < length tracks.now) }
    ensures { result ≡ unwrap_or (option_and_then (slice_get tracks.now) at) no_track }
{
    match at {
        Some(i) => tracks.at(i),
        None => NO_TRACK,
    }
}

/// What a tfhd says, and else its track.
pub fn header_by(track: Track, tfhd: &[u8]) -> TrafHeader
    ensures header { result ≡ header_by track tfhd.now }
    ensures small { result.size < 2 ^ 32 }
{
    let fields = tfhd_fields(flags_of(tfhd));
    TrafHeader {
        track: track_id(tfhd),
        timescale: track.timescale,
        entry: entry_of(track, tfhd),
        duration: number_or(tfhd, fields.default_sample_duration, track.duration),
        size: number_or(tfhd, fields.default_sample_size, track.size),
        flags: number_or(tfhd, fields.default_sample_flags, track.flags),
    }
}

/// The base time of a traf, in ticks: that of its tfdt, or else `next`, where its track ended.
pub fn base_of(next: u64, traf: &BoxRef<'_>) -> u64
    ensures { result ≡ base_of next (view traf.now) }
{
    match children_of(TFDT, traf).next() {
        Some(tfdt) => base_media_decode_time(tfdt.payload),
        None => next,
    }
}

/// Where in the moof that begins at this offset in the stream a box ends, in bytes from the first of the moof.
pub fn end_in(moof: u64, this: &BoxRef<'_>) -> u64
    ensures { result ≡ end_in (record { bytes = []; offset = moof }) (view this.now) }
{
    (this.offset + this.header.header_len + this.payload.len() as u64).saturating_sub(moof)
}

/// The track of a traf.
pub fn track_of(tracks: &TrackList, traf: &BoxRef<'_>) -> Track
    ensures { result ≡ track_of tracks.now (view traf.now) }
{
    known_track(tracks, track_id(payload_at(TFHD, traf)))
}

/// What the runs of a traf share, in the moof that begins at this offset.
pub(crate) fn context_of<'a>(
    moof_bytes: &'a [u8],
    moof: u64,
    track: Track,
    traf: &BoxRef<'_>,
) -> TrafContext<'a>
    ensures shared { shared_of result ≡ shared_by (moof_at moof_bytes.now moof) track
        (view traf.now) }
    ensures small { result.header.size < 2 ^ 32 }
{
    TrafContext {
        moof_bytes,
        moof,
        header: header_by(track, payload_at(TFHD, traf)),
        ends_at: end_in(moof, traf),
    }
}

/// A track fragment of a moof without a fault (ISO/IEC 14496-12, 8.8.6).
#[derive(Drop)]
pub struct Traf<'a> {
    pub(crate) context: TrafContext<'a>,
    /// Its base time.
    pub(crate) time: u64,
    this: BoxRef<'a>,
}

// A contract sees what its runs share, its base time and its truns.
impl<'a> Model for Traf<'a> {
    ghost use Rattle.std.specs.List.{AllByRecursion};
    ghost use Rattle.mp4_traf.specs.Ranges.{InRange};
    ghost use Rattle.mp4_traf.specs.Runs.{moof_at, runs_of, TrackFragment};
    ghost use Rattle.mp4_traf.specs.Implementation.TrafContexts.{track_fragment};

    ghost Value = { TrackFragment };

    ghost view = { λ t. track_fragment t.context t.time t.this };

    ghost invariant = { λ t. AllByRecursion InRange
        (runs_of (track_fragment t.context t.time t.this)) };
}

impl<'a> Traf<'a> {
    /// Its runs, in order (ISO/IEC 14496-12, 8.8.8).
    pub fn runs(&self) -> Runs<'a>
        ensures { result ≡ runs_of self.now }
    {
        let run_start = RunStart {
            time: self.time,
            place: i128::from(self.context.moof),
        };
        Runs::of(&self.context, &run_start, &self.this)
    }
}

/// The traf that a box is, in the moof that begins at this offset.
pub(crate) fn traf_of<'a>(
    moof_bytes: &'a [u8],
    moof: u64,
    tracks: &TrackList,
    this: &BoxRef<'a>,
) -> Traf<'a>
    requires { IsSound (traf_of (moof_at moof_bytes.now moof) tracks.now
        (view this.now)) }
    ensures { result ≡ traf_of (moof_at moof_bytes.now moof) tracks.now
        (view this.now) }
{
    let track = track_of(tracks, this);
    Traf {
        context: context_of(moof_bytes, moof, track, this),
        time: base_of(track.next, this),
        this: *this,
    }
}

/// Goes over the trafs of a moof.
#[derive(Drop)]
pub struct Trafs<'a> {
    moof_bytes: &'a [u8],
    moof: u64,
    tracks: &'a TrackList,
    /// The children that are left.
    walk: Walk<'a>,
}

// A contract sees the trafs that are left.
impl<'a> Model for Trafs<'a> {
    ghost use Rattle.std.specs.Prelude.{List};
    ghost use Rattle.std.specs.List.{AllByRecursion};
    ghost use Rattle.mp4_traf.specs.Ranges.{InRange, IsSound};
    ghost use Rattle.mp4_traf.specs.Runs.{moof_at, TrackFragment, trafs_by};

    ghost Value = { List TrackFragment };

    ghost view = { λ t. trafs_by (moof_at t.moof_bytes.now t.moof) t.tracks.now t.walk };

    ghost invariant = { λ t. AllByRecursion IsSound
        (trafs_by (moof_at t.moof_bytes.now t.moof) t.tracks.now t.walk) };
}

impl<'a> Trafs<'a> {
    /// The trafs among the children of a box, in the moof that begins at this offset.
    pub fn of(
        moof_bytes: &'a [u8],
        moof: u64,
        tracks: &'a TrackList,
        this: &BoxRef<'a>,
    ) -> Trafs<'a>
        requires { AllByRecursion IsSound (trafs_by (moof_at moof_bytes.now moof)
            tracks.now (children (view this.now))) }
        ensures { result ≡ trafs_by (moof_at moof_bytes.now moof) tracks.now
            (children (view this.now)) }
    {
        Trafs {
            moof_bytes,
            moof,
            tracks,
            walk: Walk::of(this),
        }
    }
}

impl<'a> Iterator for Trafs<'a> {
    type Item = Traf<'a>;

    ghost next_gives = { YieldsFirst (λ rest. rest) };

    ghost remaining = { item_count (λ rest. rest) };

    fn next(&mut self) -> Option<Traf<'a>> {
        let this = next_of(TRAF, &mut self.walk)?;
        Some(traf_of(self.moof_bytes, self.moof, self.tracks, &this))
    }
}
