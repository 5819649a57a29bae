//! The tracks of a moov, put into claimed memory.

ghost use Rattle.std.specs.Prelude.{◌≡◌, ◌+◌, ◌*◌, ◌<◌, ◌≤◌, ◌↔◌, [], length, map, option_map, IfOk, OnOk, OnErr, IsErrOf};
ghost use Rattle.mp4_ledger.specs.Memory.{claimed};
ghost use Rattle.mp4_box.specs.Paths.{at_path, of_kind};
ghost use Rattle.mp4_box.specs.Trees.{children, view, first_of};
ghost use Rattle.mp4_init.specs.Fields.{after_times};
ghost use Rattle.mp4_init.specs.Implementation.Rows.{node_of_row, track_of_row};
ghost use Rattle.mp4_init.specs.Implementation.SearchTrees.{IsIndexed};
ghost use Rattle.mp4_init.specs.Implementation.Summaries.{summaries_in};
ghost use Rattle.mp4_init.specs.Tracks.{entries_of, field_of, handler_of, id_of, timescale_of, track_of, tracks_of};

use crate::fields::number_after_times;
use crate::slots::{FEW_SLOTS, SLOTS, Slots};
use crate::table::{Track, TrackList, push_track};
use arrayvec::ArrayVec;
use mp4_box::types::{MDHD, MDIA, MINF, STBL, STSD, TKHD, TRAK};
use mp4_box::{BoxRef, FourCc, Walk, count_of, first_at, number_at};
use mp4_ledger::{Ledger, Refused, Rows64};

/// The field after the times of the first tkhd or mdhd on the path, 0 where there is none.
fn after_times_at(path: &[FourCc], trak: &BoxRef<'_>) -> u32
    requires { length path.now ≤ 8 }
    ensures { result ≡ field_of after_times (first_of (at_path path.now (view trak.now))) }
{
    match first_at(path, trak) {
        Some(this) => number_after_times(&this),
        None => 0,
    }
}

/// The type of the box that names the handler of a track (ISO/IEC 14496-12, 8.4.3).
const HDLR: FourCc = FourCc(*b"hdlr");

/// The handler_type of a trak, 0 where it has none.
fn handler_in(trak: &BoxRef<'_>) -> u32
    ensures { result ≡ handler_of (view trak.now) }
{
    match first_at(&[MDIA, HDLR], trak) {
        Some(hdlr) => number_at(hdlr.payload, 8),
        None => 0,
    }
}

/// How many sample entries a trak counts.
fn entries_in(trak: &BoxRef<'_>) -> u32
    ensures { result ≡ entries_of (view trak.now) }
{
    match first_at(&[MDIA, MINF, STBL, STSD], trak) {
        Some(stsd) => number_at(stsd.payload, 4),
        None => 0,
    }
}

/// The track of a trak.
#[tactic(auto, using(crate::proofs::SummaryLemmas::defaults_by), unfolding(crate::specs::Tracks::track_of))]
fn track_in<const N: usize>(moov: &BoxRef<'_>, trak: &BoxRef<'_>, slots: &mut Slots<N>) -> Track
    requires some { 0 < N }
    requires added { slots.old.summaries.items ≡ summaries_in (view moov.now) slots.old.ids.items }
    ensures track { result ≡ track_of (view moov.now) (view trak.now) }
    ensures added { slots.new.summaries.items ≡ summaries_in (view moov.now) slots.new.ids.items }
{
    let id = after_times_at(&[TKHD], trak);
    let defaults = slots.summary(moov, trak.offset, id).defaults;
    Track {
        id,
        timescale: after_times_at(&[MDIA, MDHD], trak),
        handler: handler_in(trak),
        entries: entries_in(trak),
        desc: defaults.desc,
        duration: defaults.duration,
        size: defaults.size,
        flags: defaults.flags,
        next: 0,
    }
}

/// Puts the tracks of a moov into a table that has just the room for them, with summaries of `N` track_IDs at once.
// A function of its own, since a function clears its locals at each call.
#[inline(never)]
fn push_tracks<const N: usize>(rows: &mut Rows64, moov: &BoxRef<'_>)
    requires some { 0 < N }
    requires most { N ≤ SLOTS }
    requires empty { rows.old.rows ≡ [] }
    requires cap { rows.old.cap ≡ length (tracks_of (view moov.now)) }
    ensures tracks { map track_of_row rows.new.rows ≡ tracks_of (view moov.now) }
    ensures indexed { IsIndexed (map node_of_row rows.new.rows) }
    ensures full { length rows.new.rows ≡ rows.new.cap }
{
    let mut slots = Slots::<N> {
        ids: ArrayVec::new(),
        summaries: ArrayVec::new(),
    };
    for trak in Walk::of(moov) {
        if trak.header.kind.0.as_slice() == TRAK.0.as_slice() {
            push_track(rows, track_in(moov, &trak, &mut slots));
        }
    }
}

/// Claims a table for the tracks of a moov without a fault, and fills it.
///
/// # Errors
///
/// As the ledger refuses the claim; nothing is claimed then.
pub(crate) fn list_of(ledger: &mut Ledger, moov: &BoxRef<'_>) -> Result<TrackList, Refused>
    ensures list { IfOk result (λ l. l ≡ tracks_of (view moov.now)) }
    ensures ok { OnOk result (ledger.new ≡ claimed ledger.old
        (64 * length (tracks_of (view moov.now)))) }
    ensures over_limit { IsErrOf result Refused.OverLimit ↔
        (ledger.old.limit < ledger.old.live + 64 * length (tracks_of (view moov.now))) }
    ensures err { OnErr result (ledger.new ≡ ledger.old) }
{
    let mut rows = match ledger.rows(count_of(TRAK, moov)) {
        Ok(rows) => rows,
        Err(refused) => return Err(refused),
    };
    if rows.cap() <= FEW_SLOTS {
        push_tracks::<FEW_SLOTS>(&mut rows, moov);
    } else {
        push_tracks::<SLOTS>(&mut rows, moov);
    }
    Ok(TrackList::of(rows))
}
