//! Whether there is room for the numbers of the pieces of a moof.

use super::{TFDT, TFHD, TRUN, fault, moof_of, one_traf, push_box, traf_of};
use mp4_box::vectors::{V1, V1_MOOF, V1_MOOV, V2};
use mp4_box::{Fault, Rule, is_box};
use mp4_frag::{Moof, Steps};
use mp4_init::{TrackList, tracks};
use mp4_ledger::Ledger;
use mp4_pieces::{Cut, room};
use std::alloc::Global;
use std::process::Abort;
use std::test::Fail;

/// The number after the pieces of a moof, or its fault, and how many rows are counted as read for
/// it.
type Outcome = (Result<u64, Fault>, u128);

/// Result of reading a moof that begins at this offset, where its first piece has this number.
fn read(list: &TrackList, moof: &[u8], at: u32, cut: &Cut, seq: u64) -> Result<Outcome, Fail> {
    if seq > 1 << 32 || moof.len() > 67_108_864 || !is_box(moof) {
        return Err("no box".into());
    }
    let mut steps = Steps { rows: 0 };
    let Ok(read) = Moof::read(moof, u64::from(at), list, &mut steps) else {
        return Err("a fault".into());
    };
    let mut steps = Steps { rows: 0 };
    let next = room(&read, list, cut, seq, &mut steps);
    Ok((next, steps.rows))
}

/// The same, with the tracks of a moov that begins at 20.
fn outcome(
    alloc: Global,
    moov: &[u8],
    moof: &[u8],
    at: u32,
    asked: (u32, bool),
    seq: u64,
) -> Result<Outcome, Fail> {
    if moov.len() > 16_777_216 || !is_box(moov) {
        return Err("no box".into());
    }
    let Some(cut) = Cut::new(asked.0, None, asked.1) else {
        return Err("no cut".into());
    };
    let mut ledger = Ledger::new(alloc, 1000);
    match tracks(&mut ledger, moov, 20) {
        Ok(list) => {
            let outcome = read(&list, moof, at, &cut, seq);
            list.back(&mut ledger);
            outcome
        }
        Err(_) => Err("no tracks".into()),
    }
}

/// How many samples a piece has and whether an index is asked for; the number of the first piece;
/// and the number after the last, or the fault.
type Case = ((u32, bool), u64, Result<u64, Option<Fault>>);

/// Result of reading a moof at 364, with V1's track. Its samples are counted twice.
fn check(
    rt: &impl Abort,
    alloc: Global,
    moof: &[u8],
    samples: u128,
    cases: &[Case],
) -> Result<(), Fail> {
    for (asked, seq, expected) in cases {
        let (next, rows) = outcome(
            alloc,
            &V1.as_slice()[V1_MOOV..V1_MOOF],
            moof,
            364,
            *asked,
            *seq,
        )?;
        assert_eq!(rt; next.map_err(Some), *expected, "{asked:?} {seq}");
        assert_eq!(rt; rows, samples.saturating_mul(2));
    }
    Ok(())
}

/// The same of moofs with one traf of these boxes and so many samples.
fn check_trafs(
    rt: &impl Abort,
    alloc: Global,
    rows: &[(&[&[u8]], u128, &[Case])],
) -> Result<(), Fail> {
    for (boxes, samples, cases) in rows {
        let moof = one_traf(alloc, boxes)?;
        check(rt, alloc, moof.as_slice(), *samples, cases)?;
    }
    Ok(())
}

fn index_range(offset: u64) -> Result<u64, Option<Fault>> {
    Err(fault(Rule::IndexRange, b"trun", offset))
}

fn sequence_end() -> Result<u64, Option<Fault>> {
    Err(fault(Rule::SequenceEnd, b"moof", 364))
}

/// A box with these 32-bit fields.
fn words_of(alloc: Global, kind: &[u8; 4], words: &[u32]) -> Result<Vec<u8>, Fail> {
    let mut content = Vec::new(alloc);
    for word in words {
        content.extend_from_slice(&word.to_be_bytes())?;
    }
    let mut bytes = Vec::new(alloc);
    push_box(&mut bytes, kind, &[content.as_slice()])?;
    Ok(bytes)
}

#[test]
fn numbers_have_an_end(rt: HostRuntime) -> Result<(), Fail> {
    // A run without samples has no piece, and so no number.
    const NONE: &[u8] = b"\0\0\0\x14trun\0\0\x02\x01\0\0\0\0\x80\0\0\0";
    check_trafs(
        &rt,
        rt.alloc(),
        &[
            (
                &[TFHD, TFDT, TRUN],
                3,
                &[
                    ((9, false), 1, Ok(2)),
                    ((2, true), 1, Ok(3)),
                    ((9, false), 4_294_967_295, Ok(4_294_967_296)),
                    ((9, false), 4_294_967_296, sequence_end()),
                    ((2, false), 4_294_967_294, Ok(4_294_967_296)),
                    ((2, false), 4_294_967_295, sequence_end()),
                    ((1, true), 4_294_967_294, sequence_end()),
                ],
            ),
            (
                &[TFHD, TFDT, NONE],
                0,
                &[((1, true), 4_294_967_296, Ok(4_294_967_296))],
            ),
        ],
    )
}

#[test]
fn runs_are_counted_together(rt: HostRuntime) -> Result<(), Fail> {
    let v2 = V2.as_slice();
    let (next, rows) = outcome(rt.alloc(), &v2[20..584], &v2[584..748], 584, (2, true), 1)?;
    assert_eq!(rt; next, Ok(4));
    assert_eq!(rt; rows, 10);
    Ok(())
}

#[test]
fn groups_begin_in_time(rt: HostRuntime) -> Result<(), Fail> {
    // Version 1, offsets of -512, 0 and 0.
    const EARLY: &[u8] = b"\0\0\0\x20trun\x01\0\x08\x01\0\0\0\x03\0\0\0\x68\
        \xff\xff\xfe\0\0\0\0\0\0\0\0\0";
    // Offsets of 0, -4096 and 0.
    const SECOND: &[u8] = b"\0\0\0\x20trun\x01\0\x08\x01\0\0\0\x03\0\0\0\x68\
        \0\0\0\0\xff\xff\xf0\0\0\0\0\0";
    // Time 2^64 - 3073, and offsets that lead to 2^64 - 1 and past it.
    const LATE: &[u8] = b"\0\0\0\x14tfdt\x01\0\0\0\xff\xff\xff\xff\xff\xff\xf3\xff";
    const MOST: &[u8] = b"\0\0\0\x18trun\0\0\x08\x01\0\0\0\x01\0\0\0\x68\0\0\x0c\0";
    const PAST: &[u8] = b"\0\0\0\x18trun\0\0\x08\x01\0\0\0\x01\0\0\0\x68\0\0\x0c\x01";
    check_trafs(
        &rt,
        rt.alloc(),
        &[
            (
                &[TFHD, TFDT, EARLY],
                3,
                &[
                    ((2, true), 1, index_range(428)),
                    ((2, false), 1, Ok(3)),
                    // The lower rule is reported.
                    ((1, true), 4_294_967_295, index_range(428)),
                ],
            ),
            // Only the first piece of a group is checked.
            (
                &[TFHD, TFDT, SECOND],
                3,
                &[((1, true), 1, Ok(4)), ((2, true), 1, index_range(428))],
            ),
            (&[TFHD, LATE, MOST], 1, &[((1, true), 1, Ok(2))]),
            (&[TFHD, LATE, PAST], 1, &[((1, true), 1, index_range(432))]),
        ],
    )
}

#[test]
fn references_have_room(rt: HostRuntime) -> Result<(), Fail> {
    // A duration of 2^32 - 1 for each sample.
    const LONG: &[u8] = b"\0\0\0\x14tfhd\0\x02\0\x08\0\0\0\x01\xff\xff\xff\xff";
    // A moof of 108 bytes, a header of 8, and the bytes that make it 2^31 - 1, or one more.
    const MOST: &[u8] = b"\0\0\0\x18trun\0\0\x02\x01\0\0\0\x01\0\0\0\x68\x7f\xff\xff\x8b";
    const PAST: &[u8] = b"\0\0\0\x18trun\0\0\x02\x01\0\0\0\x01\0\0\0\x68\x7f\xff\xff\x8c";
    check_trafs(
        &rt,
        rt.alloc(),
        &[
            (
                &[LONG, TFDT, TRUN],
                3,
                &[
                    ((1, true), 1, Ok(4)),
                    ((2, true), 1, index_range(432)),
                    ((2, false), 1, Ok(3)),
                ],
            ),
            (&[TFHD, TFDT, MOST], 1, &[((1, true), 1, Ok(2))]),
            (
                &[TFHD, TFDT, PAST],
                1,
                &[((1, true), 1, index_range(428)), ((1, false), 1, Ok(2))],
            ),
            // Of two runs at fault the first is named.
            (
                &[TFHD, TFDT, TRUN, PAST, PAST],
                5,
                &[((9, true), 1, index_range(460))],
            ),
        ],
    )
}

/// A moof of so many samples of 1,024 ticks, of which the one at this index is composed before time
/// 0.
fn early_at(alloc: Global, count: u32, index: u32) -> Result<Vec<u8>, Fail> {
    let mut words = Vec::new(alloc);
    words.extend_from_slice(&[0x0100_0801, count, 104][..])?;
    for i in 0..count.min(100_000) {
        words.push(if i == index { 0x8000_0000 } else { 0 })?;
    }
    let trun = words_of(alloc, b"trun", words.as_slice())?;
    one_traf(alloc, &[TFHD, TFDT, trun.as_slice()])
}

#[test]
fn groups_have_65535_pieces(rt: HostRuntime) -> Result<(), Fail> {
    let alloc = rt.alloc();
    let many = early_at(alloc, 65_535, 65_534)?;
    check(
        &rt,
        alloc,
        many.as_slice(),
        65_535,
        &[((1, true), 1, Ok(65_536))],
    )?;
    // One piece more begins a group.
    let more = early_at(alloc, 65_536, 65_535)?;
    check(
        &rt,
        alloc,
        more.as_slice(),
        65_536,
        &[((1, true), 1, index_range(428))],
    )?;
    let more = early_at(alloc, 65_537, 65_536)?;
    check(
        &rt,
        alloc,
        more.as_slice(),
        65_537,
        &[((1, true), 1, Ok(65_538))],
    )?;
    // The pieces of another run are of other groups.
    let first = traf_of(alloc, &[TFHD, TFDT, TRUN])?;
    let early = words_of(alloc, b"trun", &[0x0100_0801, 1, 104, 0xffff_ffff])?;
    let second = traf_of(alloc, &[TFHD, TFDT, early.as_slice()])?;
    let moof = moof_of(alloc, &[first.as_slice(), second.as_slice()])?;
    check(
        &rt,
        alloc,
        moof.as_slice(),
        4,
        &[((1, true), 1, index_range(500))],
    )
}
