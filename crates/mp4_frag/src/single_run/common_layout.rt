//! A moof of the common layout, read in one straight line: it holds an mfhd and a traf, and that a tfhd, a tfdt and a
//! trun.
//!
//! Nearly all moofs of live streams with one track have this form. The findings are the same as those of the general
//! way.

ghost use Rattle.std.specs.Prelude.{◌≡◌, ◌∷◌, ◌≤◌, ◌^◌, ◌+◌, ◌<◌, ◌==◌, [], not, true, length, Some, IfSome, IsSome};
ghost use Rattle.std.specs.List.{position};
ghost use Rattle.std.specs.Str.{bytes_eq};
ghost use Rattle.mp4_box.specs.Headers.{IsWhole, uuid};
ghost use Rattle.mp4_box.specs.Trees.{Box, box_at, box_len, view};
ghost use Rattle.mp4_traf.specs.Kinds.{is_kind};
ghost use Rattle.mp4_frag.specs.SingleRuns.{IsSingle};
ghost use Rattle.mp4_traf.specs.Runs.{moof_at};
ghost use Rattle.mp4_traf.specs.Tfhd.{track_id};
ghost use Rattle.mp4_frag.specs.Implementation.CommonLayout.{HasCommonLayout, IsSoundEarly};

use crate::at_once::LATE;
use crate::rules::counts::MOST_IN_MOOF;
use crate::rules::mfhd::{MFHD_LEN, sequence_number};
use crate::single_run::SingleRun;
use crate::single_run::only_run::run_with;
use mp4_box::types::{MFHD, MOOF, TFDT, TFHD, TRAF, TRUN};
use mp4_box::{BoxRef, Check, FourCc, Header, Layout, Size, array_at, u32_at};
use mp4_init::TrackList;
use mp4_traf::internal::{
    FlagsOnce, LONG_TFDT_LEN, TFDT_LEN, TfhdLength, TrunLength, base_media_decode_time, note_tfhd,
    sample_count,
};

/// The boxes of a moof of the common layout.
#[derive(Clone, Copy)]
struct CommonLayout<'a> {
    mfhd: BoxRef<'a>,
    traf: BoxRef<'a>,
    tfhd: BoxRef<'a>,
    tfdt: BoxRef<'a>,
    trun: BoxRef<'a>,
}

/// The box at the front of the bytes, which begin at `offset`, where it is of this type and its header has eight bytes
/// and states a size.
#[inline(always)]
fn plain_first<'a>(kind: FourCc, bytes: &'a [u8], offset: u64) -> Option<BoxRef<'a>>
    requires room { offset + length bytes.now < 2 ^ 63 }
    requires plain { not (bytes_eq kind.0 uuid) ≡ true }
    ensures here { IfSome result (λ b. box_at offset bytes.now ≡ Some (view b)) }
    ensures within { IfSome result (λ b. (8 ≤ box_len (view b)) ×
        (box_len (view b) ≤ length bytes.now)) }
    ensures head { IfSome result (λ b. b.header.header_len ≡ 8) }
    ensures kind { IfSome result (λ b. is_kind kind (view b) ≡ true) }
{
    if bytes.len() < 8 {
        return None;
    }
    let size = u32_at(bytes, 0) as usize;
    if size < 8 || size > bytes.len() || !FourCc(array_at::<4>(bytes, 4)).is(kind) {
        return None;
    }
    Some(BoxRef {
        header: Header {
            kind,
            user: None,
            size: Size::Exact(size as u64),
            header_len: 8,
        },
        offset,
        payload: &bytes[8..size],
    })
}

/// The boxes of a moof, where it has the common layout: those of the moof and of its traf take all of their payload.
#[inline(always)]
fn common_of<'a>(moof: &BoxRef<'a>) -> Option<CommonLayout<'a>>
    ensures { IfSome result (λ u. HasCommonLayout (view moof.now) (view u.mfhd) (view u.traf)
        (view u.tfhd) (view u.tfdt) (view u.trun)) }
{
    let at = moof.offset + moof.header.header_len;
    let mfhd = plain_first(MFHD, moof.payload, at)?;
    let (_, rest) = moof.payload.split_at(8 + mfhd.payload.len());
    let traf = plain_first(TRAF, rest, at + 8 + mfhd.payload.len() as u64)?;
    if traf.payload.len() + 8 != rest.len() {
        return None;
    }
    let at = traf.offset + traf.header.header_len;
    let tfhd = plain_first(TFHD, traf.payload, at)?;
    let (_, rest) = traf.payload.split_at(8 + tfhd.payload.len());
    let at = at + 8 + tfhd.payload.len() as u64;
    let tfdt = plain_first(TFDT, rest, at)?;
    let (_, rest) = rest.split_at(8 + tfdt.payload.len());
    let trun = plain_first(TRUN, rest, at + 8 + tfdt.payload.len() as u64)?;
    if trun.payload.len() + 8 != rest.len() {
        return None;
    }
    Some(CommonLayout {
        mfhd,
        traf,
        tfhd,
        tfdt,
        trun,
    })
}

/// The index of the track of a moof of the common layout, where nothing is at fault with it and its time is early.
#[inline(always)]
fn sound_track(tracks: &TrackList, common_layout: &CommonLayout<'_>) -> Option<usize>
    ensures sound { (moof : Box) → HasCommonLayout moof (view common_layout.now.mfhd)
        (view common_layout.now.traf) (view common_layout.now.tfhd) (view common_layout.now.tfdt)
        (view common_layout.now.trun) → IsSome result → IsSoundEarly tracks.now moof }
    ensures found { IfSome result (λ i.
        position (λ t. t.id == track_id common_layout.now.tfhd.payload.now) tracks.now ≡ Some i) }
    ensures within { IfSome result (λ i. i < length tracks.now) }
{
    let mut best = None;
    Layout::Exactly(MFHD_LEN).note_at(&common_layout.mfhd, &mut best);
    TfhdLength.note_at(&common_layout.tfhd, &mut best);
    let found = note_tfhd(tracks, &common_layout.tfhd, &mut best);
    Layout::Versioned(TFDT_LEN, LONG_TFDT_LEN).note_at(&common_layout.tfdt, &mut best);
    TrunLength.note_at(&common_layout.trun, &mut best);
    FlagsOnce.note_at(&common_layout.trun, &mut best);
    if best.is_some() || sample_count(common_layout.trun.payload) > MOST_IN_MOOF {
        return None;
    }
    if base_media_decode_time(common_layout.tfdt.payload) >= LATE {
        return None;
    }
    found
}

/// The run of the moof that the bytes are, which begin at this offset, where it has the common layout, nothing is at
/// fault with it and its time is early.
#[inline(always)]
pub(crate) fn common_run(moof_bytes: &[u8], offset: u64, tracks: &TrackList) -> Option<SingleRun>
    requires whole { IsWhole moof_bytes.now }
    requires room { offset + length moof_bytes.now ≤ 2 ^ 62 }
    ensures { IfSome result (λ l. IsSingle (moof_at moof_bytes.now offset) tracks.now l) }
{
    let Some(moof) = plain_first(MOOF, moof_bytes, offset) else {
        return None;
    };
    let Some(common_layout) = common_of(&moof) else {
        return None;
    };
    let Some(track) = sound_track(tracks, &common_layout) else {
        return None;
    };
    let time = base_media_decode_time(common_layout.tfdt.payload);
    // A copy, so that the other boxes need not be in memory.
    let trun = common_layout.trun;
    let tfhd = common_layout.tfhd.payload;
    let traf = &common_layout.traf;
    Some(SingleRun {
        run: run_with(
            moof_bytes,
            offset,
            tracks,
            track,
            traf,
            tfhd,
            Some(time),
            &trun,
        ),
        track,
        sequence: sequence_number(common_layout.mfhd.payload),
    })
}
