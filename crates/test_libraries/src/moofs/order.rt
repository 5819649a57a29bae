//! The order in which the runs of a moof are taken, and where they may lie.

use super::{TFDT, TFHD, fault, moof_of, push_box};
use mp4_box::vectors::{V1, V1_MDAT, V1_MOOF, V1_MOOV, V2, V3};
use mp4_box::{Fault, Rule, is_box};
use mp4_frag::{Moof, Payload, Steps};
use mp4_init::{TrackList, tracks};
use mp4_ledger::{Ledger, Refused};
use std::alloc::Global;
use std::process::Abort;
use std::test::Fail;

/// What is taken, by track_ID and place, and the first run that may not lie where it does; or why there is no list.
type Outcome = Result<(Vec<(u32, i128)>, Option<Fault>), Refused>;

/// A moof with the moov before it, which begins at 20, and the payload of its mdat.
#[derive(Clone, Copy)]
struct Fragment<'a> {
    moov: &'a [u8],
    moof: &'a [u8],
    at: u32,
    payload: Payload,
}

/// The runs of the moof, and what is at fault with their places.
fn read(
    alloc: Global,
    ledger: &mut Ledger,
    list: &TrackList,
    fragment: &Fragment<'_>,
) -> Result<Outcome, Fail> {
    let moof = fragment.moof;
    if moof.len() > 67_108_864 || !is_box(moof) {
        return Err("no box".into());
    }
    let mut steps = Steps { rows: 0 };
    let Ok(read) = Moof::read(moof, u64::from(fragment.at), list, &mut steps) else {
        return Err("a fault".into());
    };
    let runs = match read.list(ledger, list, &mut steps) {
        Ok(runs) => runs,
        Err(refused) => return Ok(Err(refused)),
    };
    let mut taken = Vec::new(alloc);
    let mut pushed = Ok(());
    for i in 0..runs.len() {
        let run = runs.at(i, &read, list);
        if pushed.is_ok() {
            pushed = taken.push((run.track, run.place));
        }
    }
    let misplaced = match read.places(fragment.payload, &runs) {
        Ok(()) => None,
        Err(fault) => Some(fault),
    };
    runs.back(ledger);
    pushed?;
    Ok(Ok((taken, misplaced)))
}

/// The same, with the tracks of the moov, and so many bytes to claim for the list.
fn outcome(alloc: Global, limit: u64, fragment: &Fragment<'_>) -> Result<Outcome, Fail> {
    if fragment.moov.len() > 16_777_216 || !is_box(fragment.moov) {
        return Err("no box".into());
    }
    let mut ledger = Ledger::new(alloc, 1 << 30);
    match tracks(&mut ledger, fragment.moov, 20) {
        Ok(list) => {
            let outcome = read(alloc, &mut Ledger::new(alloc, limit), &list, fragment);
            list.back(&mut ledger);
            outcome
        }
        Err(_) => Err("no tracks".into()),
    }
}

/// Checks what is taken, with 64 bytes to claim for each run, and what is at fault.
fn check(
    rt: &impl Abort,
    alloc: Global,
    fragment: &Fragment<'_>,
    expected: &[(u32, i128)],
    misplaced: Option<Fault>,
) -> Result<(), Fail> {
    let limit = (expected.len() as u64).saturating_mul(64);
    let Ok((taken, found)) = outcome(alloc, limit, fragment)? else {
        return Err("a refusal".into());
    };
    assert_eq!(rt;
        (taken.as_slice(), found),
        (expected, misplaced),
        "{:?}",
        fragment.moof
    );
    Ok(())
}

/// A copy with these bytes at these places.
fn changed(alloc: Global, bytes: &[u8], changes: &[(usize, u8)]) -> Result<Vec<u8>, Fail> {
    let mut copy = bytes.to_vec(alloc)?;
    for (at, byte) in changes {
        if *at >= copy.len() {
            return Err("no such byte".into());
        }
        copy.as_mut_slice()[*at] = *byte;
    }
    Ok(copy)
}

/// Checks changes of a moof at 584 with the tracks of V2, whose payload is this: what is taken, and what is at fault.
fn check_two_tracks(
    rt: &impl Abort,
    alloc: Global,
    moof: &[u8],
    payload: Payload,
    rows: &[(&[(usize, u8)], &[(u32, i128)], Option<Fault>)],
) -> Result<(), Fail> {
    for (changes, expected, misplaced) in rows {
        let moof = changed(alloc, moof, changes)?;
        let fragment = Fragment {
            moov: &V2.as_slice()[20..584],
            moof: moof.as_slice(),
            at: 584,
            payload,
        };
        check(rt, alloc, &fragment, expected, *misplaced)?;
    }
    Ok(())
}

#[test]
fn one_run_takes_64_bytes(rt: HostRuntime) -> Result<(), Fail> {
    let v1 = V1.as_slice();
    for (end, expected) in [
        (Some(483), None),
        (None, None),
        (Some(482), fault(Rule::RunPlace, b"trun", 428)),
    ] {
        let fragment = Fragment {
            moov: &v1[V1_MOOV..V1_MOOF],
            moof: &v1[V1_MOOF..V1_MDAT],
            at: 364,
            payload: Payload { start: 468, end },
        };
        check(&rt, rt.alloc(), &fragment, &[(1, 468)], expected)?;
        let Err(refused) = outcome(rt.alloc(), 63, &fragment)? else {
            return Err("64 of 63 bytes".into());
        };
        assert_eq!(rt; refused, Refused::OverLimit);
    }
    Ok(())
}

#[test]
fn runs_lie_in_turn(rt: HostRuntime) -> Result<(), Fail> {
    let payload = Payload {
        start: 792,
        end: Some(812),
    };
    check_two_tracks(
        &rt,
        rt.alloc(),
        &V3.as_slice()[584..784],
        payload,
        &[
            (&[], &[(1, 792), (2, 797), (1, 801), (2, 808)], None),
            // The third of the listing begins a byte before the first ends.
            (
                &[(755 - 584, 212)],
                &[(1, 792), (2, 796), (1, 801), (2, 808)],
                fault(Rule::RunPlace, b"trun", 736),
            ),
            // The runs of track 2 have changed their places.
            (
                &[(755 - 584, 224), (779 - 584, 213)],
                &[(1, 792), (2, 797), (1, 801), (2, 808)],
                fault(Rule::RunPlace, b"trun", 760),
            ),
            // Two runs at one place.
            (
                &[(755 - 584, 208)],
                &[(1, 792), (2, 792), (1, 801), (2, 808)],
                fault(Rule::RunPlace, b"trun", 736),
            ),
        ],
    )
}

#[test]
fn runs_follow_each_other(rt: HostRuntime) -> Result<(), Fail> {
    let moof = &V2.as_slice()[584..748];
    let payload = Payload {
        start: 756,
        end: Some(779),
    };
    check_two_tracks(
        &rt,
        rt.alloc(),
        moof,
        payload,
        &[
            (&[], &[(1, 756), (2, 771)], None),
            (
                &[(739 - 584, 186)],
                &[(1, 756), (2, 770)],
                fault(Rule::RunPlace, b"trun", 720),
            ),
            (
                &[(739 - 584, 188)],
                &[(1, 756), (2, 772)],
                fault(Rule::RunPlace, b"trun", 720),
            ),
        ],
    )?;
    // Of two runs at fault the one that is listed first.
    let later = Payload {
        start: 757,
        end: Some(778),
    };
    let first = fault(Rule::RunPlace, b"trun", 648);
    check_two_tracks(
        &rt,
        rt.alloc(),
        moof,
        later,
        &[(&[], &[(1, 756), (2, 771)], first)],
    )
}

#[test]
fn runs_lie_far_away(rt: HostRuntime) -> Result<(), Fail> {
    let v1 = V1.as_slice();
    let payload = Payload {
        start: 468,
        end: None,
    };
    for (offset, place, expected) in [
        ([0x7f, 0xff, 0xff, 0xff], 364 + 2_147_483_647, None),
        (
            [0x80, 0, 0, 0],
            364 - 2_147_483_648,
            fault(Rule::RunPlace, b"trun", 428),
        ),
        ([0, 0, 0, 0x67], 467, fault(Rule::RunPlace, b"trun", 428)),
    ] {
        let [first, second, third, last] = offset;
        let changes = [(80, first), (81, second), (82, third), (83, last)];
        let moof = changed(rt.alloc(), &v1[V1_MOOF..V1_MDAT], &changes)?;
        let fragment = Fragment {
            moov: &v1[V1_MOOV..V1_MOOF],
            moof: moof.as_slice(),
            at: 364,
            payload,
        };
        check(&rt, rt.alloc(), &fragment, &[(1, place)], expected)?;
    }
    Ok(())
}

/// A run of 5 bytes, which lies from 684 on in a moof at 584.
const FIVE: &[u8] = b"\0\0\0\x18trun\0\0\x02\x01\0\0\0\x01\0\0\0\x64\0\0\0\x05";
/// A payload from 684 on.
const FROM_684: Payload = Payload {
    start: 684,
    end: None,
};

/// Checks moofs at 584 with the tracks of V2, whose payload begins at 684, each by the boxes of its trafs.
fn check_trafs(
    rt: &impl Abort,
    alloc: Global,
    rows: &[(&[&[&[u8]]], &[(u32, i128)], Option<Fault>)],
) -> Result<(), Fail> {
    for (trafs, expected, misplaced) in rows {
        let mut content = Vec::new(alloc);
        for boxes in *trafs {
            push_box(&mut content, b"traf", boxes)?;
        }
        let moof = moof_of(alloc, &[content.as_slice()])?;
        check_two_tracks(
            rt,
            alloc,
            moof.as_slice(),
            FROM_684,
            &[(&[], expected, *misplaced)],
        )?;
    }
    Ok(())
}

#[test]
fn a_run_without_bytes_follows_its_track(rt: HostRuntime) -> Result<(), Fail> {
    const AT_688: &[u8] = b"\0\0\0\x14trun\0\0\0\x01\0\0\0\x01\0\0\0\x68";
    const AT_689: &[u8] = b"\0\0\0\x14trun\0\0\0\x01\0\0\0\x01\0\0\0\x69";
    check_trafs(
        &rt,
        rt.alloc(),
        &[
            (
                &[&[TFHD, TFDT, FIVE, AT_688]],
                &[(1, 684), (1, 688)],
                fault(Rule::RunPlace, b"trun", 672),
            ),
            (&[&[TFHD, TFDT, FIVE, AT_689]], &[(1, 684), (1, 689)], None),
        ],
    )
}

#[test]
fn runs_without_bytes_share_none(rt: HostRuntime) -> Result<(), Fail> {
    // Runs within one of 5 bytes: without samples, and with a sample of size 0 by another track.
    const NONE: &[u8] = b"\0\0\0\x14trun\0\0\0\x01\0\0\0\0\0\0\0\x66";
    const EMPTY: &[u8] = b"\0\0\0\x14trun\0\0\0\x01\0\0\0\x01\0\0\0\x66";
    const OF_2: &[u8] = b"\0\0\0\x10tfhd\0\x02\0\0\0\0\0\x02";
    check_trafs(
        &rt,
        rt.alloc(),
        &[
            // Those at one place are taken as they are listed.
            (
                &[&[TFHD, TFDT, FIVE, NONE], &[OF_2, TFDT, EMPTY]],
                &[(1, 684), (1, 686), (2, 686)],
                None,
            ),
            // The sample of size 0 begins before an earlier one of its own track ends.
            (
                &[&[TFHD, TFDT, FIVE, EMPTY], &[OF_2, TFDT, NONE]],
                &[(1, 684), (1, 686), (2, 686)],
                fault(Rule::RunPlace, b"trun", 672),
            ),
        ],
    )
}
