//! What is at fault with a moof.

use super::{MFHD, TFDT, TFHD, TRUN, fault, moof_of, one_traf, push_box, traf_of};
use mp4_box::vectors::{V1, V1_MOOF, V1_MOOV, V2};
use mp4_box::{Fault, Rule, is_box};
use mp4_frag::{Moof, Steps};
use mp4_init::{TrackList, tracks};
use mp4_ledger::Ledger;
use std::alloc::Global;
use std::process::Abort;
use std::test::Fail;

/// The fault of a moof that begins at this offset, and how many rows are counted.
fn read(list: &TrackList, moof: &[u8], at: u32) -> Result<(Option<Fault>, u128), Fail> {
    if moof.len() > 67_108_864 || !is_box(moof) {
        return Err("no box".into());
    }
    let mut steps = Steps { rows: 0 };
    let fault = match Moof::read(moof, u64::from(at), list, &mut steps) {
        Ok(_) => None,
        Err(fault) => Some(fault),
    };
    Ok((fault, steps.rows))
}

/// The same, with the tracks of a moov that begins at 20.
fn outcome(
    alloc: Global,
    moov: &[u8],
    moof: &[u8],
    at: u32,
) -> Result<(Option<Fault>, u128), Fail> {
    if moov.len() > 16_777_216 || !is_box(moov) {
        return Err("no box".into());
    }
    let mut ledger = Ledger::new(alloc, 1 << 30);
    match tracks(&mut ledger, moov, 20) {
        Ok(list) => {
            let outcome = read(&list, moof, at);
            list.back(&mut ledger);
            outcome
        }
        Err(_) => Err("no tracks".into()),
    }
}

/// Checks the fault of a moof that begins at 364, with V1's track: how many rows are counted.
fn check_moof(
    rt: &impl Abort,
    alloc: Global,
    moof: &[u8],
    expected: Option<Fault>,
) -> Result<u128, Fail> {
    let moov = &V1.as_slice()[V1_MOOV..V1_MOOF];
    let (fault, rows) = outcome(alloc, moov, moof, 364)?;
    assert_eq!(rt; fault, expected, "{moof:?}");
    Ok(rows)
}

/// The same of moofs of these boxes after their mfhd.
fn check_boxes(
    rt: &impl Abort,
    alloc: Global,
    rows: &[(&[&[u8]], Option<Fault>)],
) -> Result<(), Fail> {
    for (boxes, expected) in rows {
        let moof = moof_of(alloc, boxes)?;
        check_moof(rt, alloc, moof.as_slice(), *expected)?;
    }
    Ok(())
}

/// The same of moofs with one traf of these boxes.
fn check_trafs(
    rt: &impl Abort,
    alloc: Global,
    rows: &[(&[&[u8]], Option<Fault>)],
) -> Result<(), Fail> {
    for (boxes, expected) in rows {
        let moof = one_traf(alloc, boxes)?;
        check_moof(rt, alloc, moof.as_slice(), *expected)?;
    }
    Ok(())
}

/// The same of moofs with these trafs, each by its boxes.
fn check_moofs(
    rt: &impl Abort,
    alloc: Global,
    rows: &[(&[&[&[u8]]], Option<Fault>)],
) -> Result<(), Fail> {
    for (trafs, expected) in rows {
        let mut content = Vec::new(alloc);
        for boxes in *trafs {
            push_box(&mut content, b"traf", boxes)?;
        }
        let moof = moof_of(alloc, &[content.as_slice()])?;
        check_moof(rt, alloc, moof.as_slice(), *expected)?;
    }
    Ok(())
}

#[test]
fn boxes_are_missing_or_twice(rt: HostRuntime) -> Result<(), Fail> {
    check_trafs(
        &rt,
        rt.alloc(),
        &[
            (&[TFHD, TFDT, TRUN], None),
            (&[TFDT, TRUN], fault(Rule::Missing, b"traf", 388)),
            (&[TFHD, TFHD, TRUN], fault(Rule::Twice, b"tfhd", 412)),
            (&[TFHD, TFDT, TFDT], fault(Rule::Twice, b"tfdt", 428)),
        ],
    )?;
    check_moofs(
        &rt,
        rt.alloc(),
        &[
            // Missing is the lower rule, though the tfhd that is there twice begins first.
            (
                &[&[TFHD, TFHD], &[TRUN]],
                fault(Rule::Missing, b"traf", 428),
            ),
            // Of two the one that begins first.
            (
                &[&[TFHD], &[TRUN], &[TRUN]],
                fault(Rule::Missing, b"traf", 412),
            ),
        ],
    )?;
    check_boxes(
        &rt,
        rt.alloc(),
        &[(&[MFHD], fault(Rule::Twice, b"mfhd", 388))],
    )?;
    let no_mfhd = b"\0\0\0\x08moof";
    let rows = check_moof(&rt, rt.alloc(), no_mfhd, fault(Rule::Missing, b"moof", 364))?;
    assert_eq!(rt; rows, 0);
    Ok(())
}

#[test]
fn boxes_have_another_form(rt: HostRuntime) -> Result<(), Fail> {
    const VERSION_2: &[u8] = b"\0\0\0\x10tfdt\x02\0\0\0\0\0\0\0";
    const NO_SAMPLES: &[u8] = b"\0\0\0\x14trun\x02\0\0\0\0\0\0\0\0\0\0\0";
    const FOUR: &[u8] =
        b"\0\0\0\x20trun\0\0\x02\x01\0\0\0\x04\0\0\0\x68\0\0\0\x05\0\0\0\x07\0\0\0\x03";
    const MOST: &[u8] =
        b"\0\0\0\x20trun\0\0\x02\x01\xff\xff\xff\xff\0\0\0\x68\0\0\0\x05\0\0\0\x07\0\0\0\x03";
    const SHORT_TFHD: &[u8] = b"\0\0\0\x0ftfhd\0\x02\0\0\0\0\0";
    check_trafs(
        &rt,
        rt.alloc(),
        &[
            (&[TFHD, VERSION_2], fault(Rule::Version, b"tfdt", 412)),
            (
                &[TFHD, TFDT, NO_SAMPLES],
                fault(Rule::Version, b"trun", 428),
            ),
            (&[TFHD, TFDT, FOUR], fault(Rule::FieldLength, b"trun", 428)),
            (&[TFHD, TFDT, MOST], fault(Rule::FieldLength, b"trun", 428)),
            (&[SHORT_TFHD, TFDT], fault(Rule::FieldLength, b"tfhd", 396)),
            // Version is the lower rule.
            (&[TFHD, FOUR, VERSION_2], fault(Rule::Version, b"tfdt", 444)),
        ],
    )
}

#[test]
fn boxes_are_unsupported(rt: HostRuntime) -> Result<(), Fail> {
    const SENC: &[u8] = b"\0\0\0\x10senc\0\0\0\0\0\0\0\0";
    const FREE: &[u8] = b"\0\0\0\x08free";
    const SKIP: &[u8] = b"\0\0\0\x08skip";
    const TRAF: &[u8] = b"\0\0\0\x08traf";
    const SHORT_TRUN: &[u8] = b"\0\0\0\x0dtrun\0\0\0\0\0";
    check_trafs(
        &rt,
        rt.alloc(),
        &[
            (&[TFHD, SENC, TRUN], fault(Rule::Unsupported, b"senc", 412)),
            (&[TFHD, FREE, SKIP, TRUN], None),
            // A traf in a traf has no tfhd, and needs none.
            (&[TFHD, TRAF], fault(Rule::Unsupported, b"traf", 412)),
        ],
    )?;
    // A trun that is in no traf isn't read.
    check_boxes(
        &rt,
        rt.alloc(),
        &[(&[SHORT_TRUN], fault(Rule::Unsupported, b"trun", 388))],
    )
}

#[test]
fn trafs_are_nested(rt: HostRuntime) -> Result<(), Fail> {
    // So many trafs, each in the one before.
    for (trafs, expected) in [
        (7, fault(Rule::Missing, b"moof", 364)),
        (8, fault(Rule::Depth, b"traf", 428)),
    ] {
        let mut inner = Vec::new(rt.alloc());
        for _ in 0..trafs {
            inner = traf_of(rt.alloc(), &[inner.as_slice()])?;
        }
        let mut moof = Vec::new(rt.alloc());
        push_box(&mut moof, b"moof", &[inner.as_slice()])?;
        check_moof(&rt, rt.alloc(), moof.as_slice(), expected)?;
    }
    Ok(())
}

#[test]
fn a_tfhd_says_what_is_not_read(rt: HostRuntime) -> Result<(), Fail> {
    const NO_BASE: &[u8] = b"\0\0\0\x10tfhd\0\0\0\0\0\0\0\x01";
    const OWN_BASE: &[u8] = b"\0\0\0\x18tfhd\0\x02\0\x01\0\0\0\x01\0\0\0\0\0\0\0\0";
    const EMPTY: &[u8] = b"\0\0\0\x10tfhd\0\x03\0\0\0\0\0\x01";
    const OTHER_TRACK: &[u8] = b"\0\0\0\x10tfhd\0\x02\0\0\0\0\0\x02";
    const ENTRY_0: &[u8] = b"\0\0\0\x14tfhd\0\x02\0\x02\0\0\0\x01\0\0\0\0";
    const ENTRY_1: &[u8] = b"\0\0\0\x14tfhd\0\x02\0\x02\0\0\0\x01\0\0\0\x01";
    const ENTRY_2: &[u8] = b"\0\0\0\x14tfhd\0\x02\0\x02\0\0\0\x01\0\0\0\x02";
    check_trafs(
        &rt,
        rt.alloc(),
        &[
            (
                &[NO_BASE, TFDT, TRUN],
                fault(Rule::BaseNotMoof, b"tfhd", 396),
            ),
            (
                &[OWN_BASE, TFDT, TRUN],
                fault(Rule::BaseNotMoof, b"tfhd", 396),
            ),
            (
                &[EMPTY, TFDT, TRUN],
                fault(Rule::EmptyDuration, b"tfhd", 396),
            ),
            (
                &[OTHER_TRACK, TFDT, TRUN],
                fault(Rule::UnknownTrack, b"tfhd", 396),
            ),
            (
                &[ENTRY_0, TFDT, TRUN],
                fault(Rule::EntryIndex, b"tfhd", 396),
            ),
            (&[ENTRY_1, TFDT, TRUN], None),
            (
                &[ENTRY_2, TFDT, TRUN],
                fault(Rule::EntryIndex, b"tfhd", 396),
            ),
        ],
    )
}

#[test]
fn track_ids_repeat(rt: HostRuntime) -> Result<(), Fail> {
    const OF_9: &[u8] = b"\0\0\0\x10tfhd\0\x02\0\0\0\0\0\x09";
    check_moofs(
        &rt,
        rt.alloc(),
        &[
            (&[&[TFHD, TFDT], &[TFHD, TFDT]], None),
            (&[&[TFHD], &[TFHD, TFDT]], None),
            (
                &[&[TFHD, TFDT], &[TFHD]],
                fault(Rule::Unsupported, b"traf", 428),
            ),
            (
                &[&[TFHD], &[TFHD], &[TFHD]],
                fault(Rule::Unsupported, b"traf", 412),
            ),
            // A track_ID that no track has repeats too.
            (
                &[&[TFHD], &[OF_9], &[OF_9]],
                fault(Rule::Unsupported, b"traf", 436),
            ),
            (
                &[&[TFHD], &[OF_9, TFDT], &[OF_9, TFDT]],
                fault(Rule::UnknownTrack, b"tfhd", 420),
            ),
        ],
    )?;
    // V2 with two trafs of track 1, the second without its tfdt.
    let mut moof = V2.as_slice()[584..748].to_vec(rt.alloc())?;
    if moof.len() != 164 {
        return Err("no such moof".into());
    }
    moof.as_mut_slice()[119] = 1;
    moof.as_mut_slice()[124..128].copy_from_slice(b"free");
    let (fault_of, rows) = outcome(rt.alloc(), &V2.as_slice()[20..584], moof.as_slice(), 584)?;
    assert_eq!(rt; fault_of, fault(Rule::Unsupported, b"traf", 680));
    assert_eq!(rt; rows, 0);
    Ok(())
}

#[test]
fn a_trun_says_too_much(rt: HostRuntime) -> Result<(), Fail> {
    const TWO_FLAGS: &[u8] = b"\0\0\0\x30trun\0\0\x06\x05\0\0\0\x03\0\0\0\x68\x02\0\0\0\
        \0\0\0\x05\x02\0\0\0\0\0\0\x07\x02\0\0\0\0\0\0\x03\x02\0\0\0";
    const A_MILLION: &[u8] = b"\0\0\0\x14trun\0\0\0\x01\0\x0f\x42\x40\0\0\0\0";
    const ONE_MORE: &[u8] = b"\0\0\0\x14trun\0\0\0\x01\0\x0f\x42\x41\0\0\0\0";
    const MOST: &[u8] = b"\0\0\0\x14trun\0\0\0\x01\xff\xff\xff\xff\0\0\0\0";
    check_trafs(
        &rt,
        rt.alloc(),
        &[
            (
                &[TFHD, TFDT, TWO_FLAGS],
                fault(Rule::FlagsConflict, b"trun", 428),
            ),
            (&[TFHD, TFDT, A_MILLION], None),
            (
                &[TFHD, TFDT, ONE_MORE],
                fault(Rule::TooManySamples, b"trun", 428),
            ),
            (
                &[TFHD, TFDT, MOST],
                fault(Rule::TooManySamples, b"trun", 428),
            ),
            (
                &[TFHD, TFDT, TRUN, A_MILLION],
                fault(Rule::TooManySamples, b"trun", 460),
            ),
            (
                &[TFHD, TFDT, MOST, MOST],
                fault(Rule::TooManySamples, b"trun", 428),
            ),
        ],
    )
}

#[test]
fn times_pass_64_bits(rt: HostRuntime) -> Result<(), Fail> {
    // Three samples of 1,024 ticks end at 2^64 - 1 at the latest.
    const LAST: &[u8] = b"\0\0\0\x14tfdt\x01\0\0\0\xff\xff\xff\xff\xff\xff\xf3\xff";
    const PAST: &[u8] = b"\0\0\0\x14tfdt\x01\0\0\0\xff\xff\xff\xff\xff\xff\xf4\0";
    check_trafs(
        &rt,
        rt.alloc(),
        &[
            (&[TFHD, LAST, TRUN], None),
            (&[TFHD, PAST, TRUN], fault(Rule::TimeRange, b"trun", 432)),
            // The run with which the time passes.
            (
                &[TFHD, LAST, TRUN, TRUN],
                fault(Rule::TimeRange, b"trun", 464),
            ),
        ],
    )?;
    // Its samples are counted all the same.
    let moof = one_traf(rt.alloc(), &[TFHD, PAST, TRUN])?;
    let rows = check_moof(
        &rt,
        rt.alloc(),
        moof.as_slice(),
        fault(Rule::TimeRange, b"trun", 432),
    )?;
    assert_eq!(rt; rows, 3);
    Ok(())
}
