//! The lines of the tracks.

ghost use Rattle.std.specs.Prelude.{◌≡◌, ◌++◌, ◌<◌, [], IfSome, None, drop, map, option_to_list, take, true};
ghost use Rattle.mp4_box.specs.Trees.{Box, boxes, view};
ghost use Rattle.mp4_init.specs.Tracks.{tracks_of};
ghost use Rattle.mp4_grammar.specs.TrackLines.{kinds_in, kinds_of, none_text, track_line, track_lines, types_text};
ghost use Rattle.mp4_machine.specs.Ends.{sent};
ghost use Rattle.mp4_machine.specs.Puts.{Puts};

use mp4_box::types::{FREE, MDIA, MINF, STBL, STSD, TRAK};
use mp4_box::{BoxRef, FourCc, Header, Size, Walk, first_at, number_at};
use mp4_ends::{Failed, Sink};
use mp4_grammar::{ListedEntry, ListedTrack};
use mp4_init::{Track, TrackList};
use mp4_machine::Block;
use mp4_traf::internal::next_of;

/// The boxes after the entry_count of an stsd (ISO/IEC 14496-12, 8.5.2).
#[tactic(auto, using(std::proofs::lemmas::List::drop_min))]
fn entries_of<'a>(stsd: &BoxRef<'a>) -> Walk<'a>
    ensures { result ≡ boxes 0 (drop 8 stsd.now.payload.now) }
{
    let (_, payload) = stsd.payload.split_at(stsd.payload.len().min(8));
    Walk::of(&BoxRef {
        header: Header {
            kind: FREE,
            user: None,
            size: Size::ToEnd,
            header_len: 0,
        },
        offset: 0,
        payload,
    })
}

/// The type of the next of the boxes that are left, of which no more than so many are sample entries.
fn next_kind(left: &mut u32, entries: &mut Walk<'_>) -> Option<FourCc>
    ensures steps { take left.old (map (λ (b : Box). b.header.kind) entries.old) ≡
        option_to_list result ++ take left.new (map (λ (b : Box). b.header.kind) entries.new) }
    ensures fewer { IfSome result (λ _. left.new < left.old) }
    ensures none { result ≡ None → take left.new (map (λ (b : Box). b.header.kind) entries.new) ≡ [] }
{
    if *left == 0 {
        return None;
    }
    match entries.next() {
        Some(entry) => {
            *left -= 1;
            Some(entry.header.kind)
        }
        None => None,
    }
}

/// Puts the end of the line of a track, whose types were put unless there is none.
fn put_end<W: Sink>(none: bool, out: &mut Block, w: &mut W) -> Result<(), Failed>
    ensures { Puts (sent W.contents W.has_failed w.old w.new) out.old out.new (none_text none) result }
{
    if none {
        out.put_array(w, b"-\n")
    } else {
        out.put_array(w, b"\n")
    }
}

/// Puts the types of the sample entries of an stsd, and the end of the line of its track.
fn put_entries<W: Sink>(stsd: &BoxRef<'_>, out: &mut Block, w: &mut W) -> Result<(), Failed>
    ensures { Puts (sent W.contents W.has_failed w.old w.new) out.old out.new
        (types_text true (kinds_in (view stsd.now))) result }
{
    let mut entries = entries_of(stsd);
    let mut left = number_at(stsd.payload, 4);
    let mut is_first = true;
    loop {
        let Some(kind) = next_kind(&mut left, &mut entries) else {
            return put_end(is_first, out, w);
        };
        match out.put_line(w, &ListedEntry { kind, is_first }) {
            Ok(()) => {}
            Err(Failed) => return Err(Failed),
        }
        is_first = false;
    }
}

/// Puts the types of the sample entries of a trak, and the end of its line.
fn put_types<W: Sink>(trak: &BoxRef<'_>, out: &mut Block, w: &mut W) -> Result<(), Failed>
    ensures { Puts (sent W.contents W.has_failed w.old w.new) out.old out.new
        (types_text true (kinds_of (view trak.now))) result }
{
    match first_at(&[MDIA, MINF, STBL, STSD], trak) {
        Some(stsd) => put_entries(&stsd, out, w),
        None => put_end(true, out, w),
    }
}

/// Puts the line of a track, of which this is the trak.
fn put_track_line<W: Sink>(
    track: &Track,
    trak: &BoxRef<'_>,
    out: &mut Block,
    w: &mut W,
) -> Result<(), Failed>
    ensures { Puts (sent W.contents W.has_failed w.old w.new) out.old out.new
        (track_line track.now (view trak.now)) result }
{
    match out.put_line(w, &ListedTrack::of(track)) {
        Ok(()) => {}
        Err(Failed) => return Err(Failed),
    }
    put_types(trak, out, w)
}

/// Puts the lines of the tracks of a moov, which are these.
#[inline(never)]
pub(crate) fn put_track_lines<W: Sink>(
    moov: &BoxRef<'_>,
    tracks: &TrackList,
    out: &mut Block,
    w: &mut W,
) -> Result<(), Failed>
    requires { tracks.now ≡ tracks_of (view moov.now) }
    ensures { Puts (sent W.contents W.has_failed w.old w.new) out.old out.new
        (track_lines (view moov.now)) result }
{
    let mut walk = Walk::of(moov);
    let mut i = 0;
    while i < tracks.len() {
        let Some(trak) = next_of(TRAK, &mut walk) else {
            return Ok(());
        };
        match put_track_line(&tracks.at(i), &trak, out, w) {
            Ok(()) => {}
            Err(Failed) => return Err(Failed),
        }
        i += 1;
    }
    Ok(())
}
