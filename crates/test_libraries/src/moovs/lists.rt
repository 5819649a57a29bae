//! The tracks of a moov.

ghost use Rattle.std.specs.Prelude.{◌*◌, ◌≤◌, length, IfSome};

use super::{check, fault, grown, push_all};
use mp4_box::vectors::{V1, V1_MOOF, V1_MOOV, V2};
use mp4_box::{Rule, is_box};
use mp4_init::{InitStop, Track, TrackList, tracks};
use mp4_ledger::{Ledger, Refused};
use std::alloc::Global;
use std::test::Fail;

/// The tracks of a moov at 20.
fn list_of(ledger: &mut Ledger, moov: &[u8]) -> Option<TrackList>
    ensures { IfSome result (λ l. 64 * length l ≤ ledger.new.live) }
{
    if moov.len() > 1000 || !is_box(moov) {
        return None;
    }
    tracks(ledger, moov, 20).ok()
}

/// The first track of a moov at 20.
fn first_track(alloc: Global, moov: &[u8]) -> Option<Track> {
    let mut ledger = Ledger::new(alloc, 1000);
    let list = list_of(&mut ledger, moov)?;
    let track = if list.is_empty() {
        None
    } else {
        Some(list.at(0))
    };
    list.back(&mut ledger);
    track
}

const FIRST: Track = Track {
    id: 1,
    timescale: 48000,
    handler: 0,
    entries: 1,
    desc: 1,
    duration: 1024,
    size: 0,
    flags: 0x02000000,
    next: 0,
};

#[test]
fn one_track(rt: HostRuntime) {
    assert_eq!(rt;
        first_track(rt.alloc(), &V1.as_slice()[V1_MOOV..V1_MOOF]),
        Some(FIRST)
    );
}

#[test]
fn one_track_takes_64_bytes(rt: HostRuntime) {
    let mut ledger = Ledger::new(rt.alloc(), 64);
    let Some(list) = list_of(&mut ledger, &V1.as_slice()[V1_MOOV..V1_MOOF]) else {
        panic!(rt; "one track");
    };
    let found = (list.len(), list.find(1), list.find(0));
    list.back(&mut ledger);
    assert_eq!(rt; found, (1, Some(0), None));
    assert_eq!(rt; (ledger.live(), ledger.peak()), (0, 64));
}

#[test]
fn two_tracks(rt: HostRuntime) {
    let moov = &V2.as_slice()[20..584];
    let mut ledger = Ledger::new(rt.alloc(), 128);
    let Some(mut list) = list_of(&mut ledger, moov) else {
        panic!(rt; "two tracks");
    };
    let count = list.len();
    let found = (list.find(1), list.find(2), list.find(3));
    if count == 2 {
        list.set_next(1, u64::MAX);
    }
    let mut all = [FIRST; 2];
    for (i, track) in all.iter_mut().enumerate() {
        if i < list.len() {
            *track = list.at(i);
        }
    }
    list.back(&mut ledger);
    assert_eq!(rt; (count, found), (2, (Some(0), Some(1), None)));
    let mut second = FIRST;
    second.id = 2;
    second.next = u64::MAX;
    assert_eq!(rt; all, [FIRST, second]);
    assert_eq!(rt; (ledger.live(), ledger.peak()), (0, 128));
}

#[test]
fn a_table_past_the_limit(rt: HostRuntime) {
    let moov = &V2.as_slice()[20..584];
    let mut ledger = Ledger::new(rt.alloc(), 127);
    if moov.len() < 1000 && is_box(moov) {
        match tracks(&mut ledger, moov, 20) {
            Ok(list) => list.back(&mut ledger),
            Err(stop) => assert_eq!(rt; stop, InitStop::Refused(Refused::OverLimit)),
        }
    }
    assert_eq!(rt; (ledger.live(), ledger.peak()), (0, 0));
}

#[test]
fn a_moov_without_traks(rt: HostRuntime) -> Result<(), Fail> {
    let moov = b"\0\0\0\x10moov\0\0\0\x08mvex";
    check(&rt, rt.alloc(), moov, Some(Ok(0)))?;
    Ok(())
}

#[test]
fn the_longer_layouts(rt: HostRuntime) -> Result<(), Fail> {
    let mut bytes = *V1;
    // Both full boxes at version 1, and the trex of track 7.
    bytes[152] = 1;
    bytes[252] = 1;
    bytes[347] = 7;
    let timescale = b"\0\0\0\0\0\0\0\0\0\0\xac\x44";
    let moov = grown(
        rt.alloc(),
        &bytes[20..364],
        264,
        timescale,
        &[20, 136, 236, 244],
    )?;
    let id = b"\0\0\0\0\0\0\0\0\0\0\0\x07";
    let moov = grown(rt.alloc(), moov.as_slice(), 164, id, &[20, 136, 144])?;
    let mut track = FIRST;
    track.id = 7;
    track.timescale = 44100;
    assert_eq!(rt; first_track(rt.alloc(), moov.as_slice()), Some(track));
    Ok(())
}

/// The smallest trak of a track_ID.
fn push_trak(bytes: &mut Vec<u8>, id: u32) -> Result<(), Fail> {
    let parts: &[&[u8]] = &[
        b"\0\0\0\xactrak\0\0\0\x5ctkhd\0\0\0\0\0\0\0\0\0\0\0\0",
        &id.to_be_bytes(),
        &[0; 68],
        b"\0\0\0\x48mdia\0\0\0\x20mdhd",
        &[0; 24],
        b"\0\0\0\x20minf\0\0\0\x18stbl\0\0\0\x10stsd\0\0\0\0\0\0\0\0",
    ];
    push_all(bytes, parts)
}

/// A moov of so many of the smallest traks, each with its trex, the trexes from last to first.
fn moov_of_many(alloc: Global, count: u32, last: u32) -> Result<Vec<u8>, Fail> {
    let mut bytes = Vec::new(alloc);
    let size = 16 + count.min(80_000) * 204;
    bytes.extend_from_slice(&size.to_be_bytes())?;
    bytes.extend_from_slice(b"moov")?;
    for i in 0..count {
        let id = if i + 1 == count { last } else { i };
        push_trak(&mut bytes, id.wrapping_mul(0x9e3779b1))?;
    }
    let size = 8 + count.min(80_000) * 32;
    bytes.extend_from_slice(&size.to_be_bytes())?;
    bytes.extend_from_slice(b"mvex")?;
    for i in (0..count).rev() {
        bytes.extend_from_slice(b"\0\0\0\x20trex\0\0\0\0")?;
        bytes.extend_from_slice(&i.wrapping_mul(0x9e3779b1).to_be_bytes())?;
        bytes.extend_from_slice(&[0; 8])?;
        bytes.extend_from_slice(&i.to_be_bytes())?;
        bytes.extend_from_slice(&[0; 4])?;
    }
    Ok(bytes)
}

#[test]
fn many_tracks(rt: HostRuntime) -> Result<(), Fail> {
    let count = 1_000;
    let moov = moov_of_many(rt.alloc(), count, count - 1)?;
    if moov.len() > 16_777_216 || !is_box(moov.as_slice()) {
        panic!(rt; "no box");
    }
    let mut ledger = Ledger::new(rt.alloc(), 1 << 30);
    let Ok(list) = tracks(&mut ledger, moov.as_slice(), 20) else {
        panic!(rt; "no tracks");
    };
    // Each is found, and has the defaults of its own trex; so is one that no track has.
    let mut found = 0u32;
    for i in 0..count {
        let at = i as usize;
        if list.find(i.wrapping_mul(0x9e3779b1)) == Some(at) && at < list.len() {
            let track = list.at(at);
            if track.size == i {
                found = found.saturating_add(1);
            }
        }
    }
    let none = list.find(count.wrapping_mul(0x9e3779b1));
    list.back(&mut ledger);
    assert_eq!(rt; (found, none), (count, None));
    // The last has the track_ID of the first.
    let moov = moov_of_many(rt.alloc(), count, 0)?;
    let last = 20 + 8 + 172 * 999 + 8;
    check(
        &rt,
        rt.alloc(),
        moov.as_slice(),
        fault(Rule::UnknownTrack, b"tkhd", last),
    )?;
    Ok(())
}
