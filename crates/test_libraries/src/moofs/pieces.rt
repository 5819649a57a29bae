//! The pieces of the first run of a moof.

ghost use Rattle.std.specs.Prelude.{◌≡◌, ◌+◌, ◌^◌, ◌≤◌, length, IfSome};
ghost use Rattle.mp4_box.specs.Headers.{IsWhole};
ghost use Rattle.mp4_frag.specs.Moofs.{IsRead};
ghost use Rattle.mp4_traf.specs.Ranges.{AreRunsOf, IsRunOf};

use super::{TFDT, TFHD, TRUN, one_traf, push_box};
use crate::callers::next_piece;
use mp4_box::is_box;
use mp4_box::vectors::{V1, V1_MOOF, V1_MOOV};
use mp4_frag::{Cursor, Moof, Run, Runs, Steps};
use mp4_init::{TrackList, tracks};
use mp4_ledger::Ledger;
use mp4_pieces::{Cut, Piece, Pieces, PlainPiece};
use std::alloc::Global;
use std::process::Abort;
use std::test::Fail;

/// A tfhd whose samples are no sync samples, but for flags of their own.
pub(super) const NO_SYNC: &[u8] = b"\0\0\0\x14tfhd\0\x02\0\x20\0\0\0\x01\x01\x01\0\0";

/// The first of these runs.
fn first_of(runs: Runs<'_>, held: &[u8]) -> Option<Run>
    requires { AreRunsOf held.now runs }
    ensures { IfSome result (λ run. IsRunOf held.now run) }
{
    let mut runs = runs;
    let run = runs.next()?;
    Some(run)
}

/// The first run of the first traf, if it has one.
fn first_run<'a>(moof: &Moof<'a>, held: &[u8], list: &'a TrackList) -> Option<Run>
    requires held { held.now ≡ moof.now.bytes }
    requires whole { IsWhole held.now }
    requires near { moof.now.offset + length held.now ≤ 2 ^ 62 }
    requires read { IsRead moof.now list.now }
    ensures { IfSome result (λ run. IsRunOf held.now run) }
{
    let traf = moof.trafs(list).next()?;
    first_of(traf.runs(), held)
}

/// The pieces of a run. Those that are found from a cursor after each are the same.
fn pieces_of(alloc: Global, run: &Run, held: &[u8], cut: &Cut) -> Result<Vec<Piece>, Fail>
    requires { IsRunOf held.now run.now }
{
    let mut pieces = Vec::new(alloc);
    let mut at = Cursor {
        row: 0,
        time: run.time,
        place: run.place,
    };
    for piece in Pieces::of(run, held, cut) {
        pieces.push(piece)?;
        if at.row >= run.count {
            return Err("a piece too many".into());
        }
        if PlainPiece::first(run, held, cut, &at) != piece.plain {
            return Err("another piece without its least composition time".into());
        }
        if next_piece(run, held, cut, &mut at) != Some(piece) {
            return Err("another piece after a cursor".into());
        }
    }
    if next_piece(run, held, cut, &mut at).is_some() {
        return Err("a piece too many".into());
    }
    Ok(pieces)
}

/// The pieces of the first run of a moof that begins at 364.
fn read(alloc: Global, list: &TrackList, moof: &[u8], cut: &Cut) -> Result<Vec<Piece>, Fail> {
    if moof.len() > 67_108_864 || !is_box(moof) {
        return Err("no box".into());
    }
    let mut steps = Steps { rows: 0 };
    let Ok(read) = Moof::read(moof, 364, list, &mut steps) else {
        return Err("a fault".into());
    };
    match first_run(&read, moof, list) {
        Some(run) => pieces_of(alloc, &run, moof, cut),
        None => Err("no run".into()),
    }
}

/// The same, with the tracks of a moov that begins at 20.
pub(super) fn outcome_of(
    alloc: Global,
    moov: &[u8],
    moof: &[u8],
    cut: &Cut,
) -> Result<Vec<Piece>, Fail> {
    if moov.len() > 16_777_216 || !is_box(moov) {
        return Err("no box".into());
    }
    let mut ledger = Ledger::new(alloc, 1000);
    match tracks(&mut ledger, moov, 20) {
        Ok(list) => {
            let outcome = read(alloc, &list, moof, cut);
            list.back(&mut ledger);
            outcome
        }
        Err(_) => Err("no tracks".into()),
    }
}

/// The same, with the tracks of V1.
fn outcome(alloc: Global, moof: &[u8], cut: &Cut) -> Result<Vec<Piece>, Fail> {
    outcome_of(alloc, &V1.as_slice()[V1_MOOV..V1_MOOF], moof, cut)
}

/// Samples, bytes and whether pieces end before sync samples.
type Asked = (u32, Option<u64>, bool);

fn cut_by((samples, bytes, sync): Asked) -> Result<Cut, Fail> {
    match Cut::new(samples, bytes, false) {
        Some(cut) => Ok(if sync { cut.with_sync() } else { cut }),
        None => Err("no such cut".into()),
    }
}

/// A trun with a data_offset of 104: its version and flags, its count, and the fields after the
/// data_offset.
pub(super) fn trun_of(
    alloc: Global,
    full: u32,
    count: u32,
    fields: &[u32],
) -> Result<Vec<u8>, Fail> {
    let mut content = Vec::new(alloc);
    content.extend_from_slice(&full.to_be_bytes())?;
    content.extend_from_slice(&count.to_be_bytes())?;
    content.extend_from_slice(&104_u32.to_be_bytes())?;
    for field in fields {
        content.extend_from_slice(&field.to_be_bytes())?;
    }
    let mut bytes = Vec::new(alloc);
    push_box(&mut bytes, b"trun", &[content.as_slice()])?;
    Ok(bytes)
}

/// The pieces of a run of V1's track from time 0 on: for each its first sample, its count, its
/// place and its bytes. Its samples have 1,024 ticks, and no offsets.
fn check(
    rt: &impl Abort,
    alloc: Global,
    boxes: &[&[u8]],
    asked: Asked,
    expected: &[(u32, u32, i128, u64)],
) -> Result<(), Fail> {
    let moof = one_traf(alloc, boxes)?;
    let cut = cut_by(asked)?;
    let mut pieces = Vec::new(alloc);
    for (first, count, place, bytes) in expected {
        let time = u64::from(*first) * 1024;
        let plain = PlainPiece {
            first: *first,
            count: *count,
            time,
            place: *place,
            bytes: *bytes,
            duration: u64::from(*count) * 1024,
        };
        pieces.push(Piece {
            plain,
            least: i128::from(time),
        })?;
    }
    assert_eq!(rt;
        outcome(alloc, moof.as_slice(), &cut)?.as_slice(),
        pieces.as_slice(),
        "{asked:?}"
    );
    Ok(())
}

#[test]
fn v1_is_cut(rt: HostRuntime) -> Result<(), Fail> {
    const BOXES: &[&[u8]] = &[TFHD, TFDT, TRUN];
    let each = [(0, 1, 468, 5), (1, 1, 473, 7), (2, 1, 480, 3)];
    let two = [(0, 2, 468, 12), (2, 1, 480, 3)];
    for (asked, expected) in [
        ((9, None, false), &[(0, 3, 468, 15)][..]),
        ((3, None, false), &[(0, 3, 468, 15)][..]),
        ((2, None, false), &two[..]),
        ((1, None, false), &each[..]),
        // A piece may have just as many bytes as are asked for, and one sample may have more.
        ((9, Some(10), false), &[(0, 1, 468, 5), (1, 2, 473, 10)][..]),
        ((9, Some(12), false), &two[..]),
        ((9, Some(9), false), &each[..]),
        ((9, Some(4), false), &each[..]),
        ((2, Some(15), false), &two[..]),
        // Each sample is a sync sample.
        ((9, None, true), &each[..]),
    ] {
        check(&rt, rt.alloc(), BOXES, asked, expected)?;
    }
    Ok(())
}

#[test]
fn pieces_end_before_sync_samples(rt: HostRuntime) -> Result<(), Fail> {
    let alloc = rt.alloc();
    const SYNC: u32 = 0x0200_0000;
    const OTHER: u32 = 0x0101_0000;
    let whole = [(0, 3, 468, 0)];
    // Flags for the first sample alone, for none, and for each.
    let first = trun_of(alloc, 0x0005, 3, &[SYNC])?;
    let none = trun_of(alloc, 0x0001, 3, &[])?;
    let second = trun_of(alloc, 0x0401, 3, &[OTHER, SYNC, OTHER])?;
    let last = trun_of(alloc, 0x0401, 3, &[SYNC, OTHER, SYNC])?;
    for (trun, asked, expected) in [
        (&first, (9, None, true), &whole[..]),
        (
            &first,
            (2, None, true),
            &[(0, 2, 468, 0), (2, 1, 468, 0)][..],
        ),
        (&none, (9, None, true), &whole[..]),
        (
            &second,
            (9, None, true),
            &[(0, 1, 468, 0), (1, 2, 468, 0)][..],
        ),
        (
            &last,
            (9, None, true),
            &[(0, 2, 468, 0), (2, 1, 468, 0)][..],
        ),
        (&last, (9, None, false), &whole[..]),
    ] {
        check(
            &rt,
            alloc,
            &[NO_SYNC, TFDT, trun.as_slice()],
            asked,
            expected,
        )?;
    }
    Ok(())
}

#[test]
fn bytes_are_counted(rt: HostRuntime) -> Result<(), Fail> {
    let alloc = rt.alloc();
    let zeros = trun_of(alloc, 0x0201, 5, &[5, 0, 0, 5, 0])?;
    let large = trun_of(alloc, 0x0201, 3, &[9, 0, 3])?;
    check(
        &rt,
        alloc,
        &[TFHD, TFDT, zeros.as_slice()],
        (9, Some(5), false),
        &[(0, 3, 468, 5), (3, 2, 468 + 5, 5)],
    )?;
    // Nothing follows a sample that is too large, not even one without bytes.
    check(
        &rt,
        alloc,
        &[TFHD, TFDT, large.as_slice()],
        (9, Some(4), false),
        &[(0, 1, 468, 9), (1, 2, 468 + 9, 3)],
    )?;
    Ok(())
}

/// The least composition time of each piece of a run with these offsets.
fn check_least(
    rt: &impl Abort,
    alloc: Global,
    samples: u32,
    offsets: &[u32],
    expected: &[i128],
) -> Result<(), Fail> {
    let count = offsets.len().min(9) as u32;
    let trun = trun_of(alloc, 0x0100_0801, count, offsets)?;
    let moof = one_traf(alloc, &[TFHD, TFDT, trun.as_slice()])?;
    let cut = cut_by((samples, None, false))?;
    let mut least = Vec::new(alloc);
    for piece in outcome(alloc, moof.as_slice(), &cut)? {
        least.push(piece.least)?;
    }
    assert_eq!(rt; least.as_slice(), expected);
    Ok(())
}

#[test]
fn least_composition_times(rt: HostRuntime) -> Result<(), Fail> {
    let early = [0xffff_fe00, 0, 0];
    check_least(&rt, rt.alloc(), 9, &early, &[-512])?;
    check_least(&rt, rt.alloc(), 2, &early, &[-512, 2048])?;
    check_least(&rt, rt.alloc(), 1, &early, &[-512, 1024, 2048])?;
    // The second is composed first.
    check_least(&rt, rt.alloc(), 9, &[5000, 0xffff_f448, 0], &[-1976])?;
    check_least(
        &rt,
        rt.alloc(),
        1,
        &[5000, 0xffff_f448, 0],
        &[5000, -1976, 2048],
    )?;
    Ok(())
}

#[test]
fn cuts_have_ranges(rt: HostRuntime) {
    for (samples, bytes, expected) in [
        (0, None, false),
        (1, None, true),
        (1_000_000, None, true),
        (1_000_001, None, false),
        (u32::MAX, None, false),
        (1, Some(0), false),
        (1, Some(1), true),
        (1, Some(1 << 62), true),
        (1, Some((1 << 62) + 1), false),
        (0, Some(1), false),
    ] {
        assert_eq!(rt; Cut::new(samples, bytes, true).is_some(), expected);
    }
    let cut = Cut::new(1, None, true);
    assert_eq!(rt; cut.map(|cut| cut.with_sync().has_index()), Some(true));
    for (millis, expected) in [(0, false), (1, true), (u32::MAX, true)] {
        let cut = cut.and_then(|cut| cut.with_duration(millis));
        assert_eq!(rt; cut.is_some(), expected);
    }
}
