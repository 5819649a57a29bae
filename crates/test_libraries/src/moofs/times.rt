//! The pieces of a run that is cut by time, or before keyframes.

use super::pieces::{NO_SYNC, outcome_of, trun_of};
use super::{TFDT, TFHD, one_traf};
use mp4_box::vectors::{V1, V1_MOOF, V1_MOOV};
use mp4_pieces::Cut;
use std::alloc::Global;
use std::process::Abort;
use std::test::Fail;

/// The flags of a sample that is a sync sample, and of one that isn't.
const SYNC: u32 = 0x0200_0000;

const OTHER: u32 = 0x0101_0000;

/// The limits of a piece.
#[derive(Clone, Copy, Debug)]
struct Limits {
    samples: u32,
    bytes: Option<u64>,
    millis: Option<u32>,
    keyframes: bool,
}

/// At most so many milliseconds.
fn lasting(millis: u32) -> Limits {
    Limits {
        samples: 9,
        bytes: None,
        millis: Some(millis),
        keyframes: false,
    }
}

fn cut_by(limits: Limits) -> Option<Cut> {
    let cut = Cut::new(limits.samples, limits.bytes, false)?;
    let cut = match limits.millis {
        Some(millis) => cut.with_duration(millis)?,
        None => cut,
    };
    Some(if limits.keyframes {
        cut.with_keyframes()
    } else {
        cut
    })
}

/// V1's moov with this timescale, and this default duration of a sample.
fn moov_of(alloc: Global, timescale: u32, duration: u32) -> Result<Vec<u8>, Fail> {
    let v1 = V1.as_slice();
    let mut moov = v1[V1_MOOV..264].to_vec(alloc)?;
    moov.extend_from_slice(&timescale.to_be_bytes())?;
    moov.extend_from_slice(&v1[268..352])?;
    moov.extend_from_slice(&duration.to_be_bytes())?;
    moov.extend_from_slice(&v1[356..V1_MOOF])?;
    Ok(moov)
}

/// A tfhd with a default duration of a sample.
fn tfhd_of(alloc: Global, duration: u32) -> Result<Vec<u8>, Fail> {
    let mut tfhd = b"\0\0\0\x14tfhd\0\x02\0\x08\0\0\0\x01".to_vec(alloc)?;
    tfhd.extend_from_slice(&duration.to_be_bytes())?;
    Ok(tfhd)
}

/// The pieces of a run: how many samples each has, and how long it lasts.
fn check(
    rt: &impl Abort,
    alloc: Global,
    moov: &[u8],
    boxes: &[&[u8]],
    limits: Limits,
    expected: &[(u32, u64)],
) -> Result<(), Fail> {
    let moof = one_traf(alloc, boxes)?;
    let Some(cut) = cut_by(limits) else {
        return Err("no such cut".into());
    };
    let mut pieces = Vec::new(alloc);
    for piece in outcome_of(alloc, moov, &moof, &cut)? {
        pieces.push((piece.plain.count, piece.plain.duration))?;
    }
    assert_eq!(rt; pieces.as_slice(), expected, "{limits:?}");
    Ok(())
}

/// Seven samples of one duration, which the trex has or the tfhd.
#[test]
fn default_durations(rt: HostRuntime) -> Result<(), Fail> {
    let alloc = rt.alloc();
    let trun = trun_of(alloc, 0x0001, 7, &[])?;
    let ones = [(1, 1); 7];
    for (timescale, duration, millis, expected) in [
        // Three samples last 64 ms, and seven 149.3.
        (
            48_000,
            1024,
            63,
            &[(2, 2048), (2, 2048), (2, 2048), (1, 1024)][..],
        ),
        (48_000, 1024, 64, &[(3, 3072), (3, 3072), (1, 1024)][..]),
        (48_000, 1024, 65, &[(3, 3072), (3, 3072), (1, 1024)][..]),
        (48_000, 1024, 149, &[(6, 6144), (1, 1024)][..]),
        (48_000, 1024, 150, &[(7, 7168)][..]),
        // 500.5 ticks, and 501.501.
        (
            1001,
            167,
            500,
            &[(2, 334), (2, 334), (2, 334), (1, 167)][..],
        ),
        (1001, 167, 501, &[(3, 501), (3, 501), (1, 167)][..]),
        (1, 1, 999, &ones[..]),
        (1, 1, 3999, &[(3, 3), (3, 3), (1, 1)][..]),
        (0, 1, u32::MAX, &ones[..]),
        (0, 0, 1, &[(7, 0)][..]),
        (u32::MAX, u32::MAX, u32::MAX, &[(7, 30_064_771_065)][..]),
        (
            u32::MAX,
            u32::MAX,
            5999,
            &[(5, 21_474_836_475), (2, 8_589_934_590)][..],
        ),
        (
            u32::MAX,
            u32::MAX,
            6000,
            &[(6, 25_769_803_770), (1, 4_294_967_295)][..],
        ),
    ] {
        let own = moov_of(alloc, timescale, duration)?;
        let other = moov_of(alloc, timescale, 77)?;
        let tfhd = tfhd_of(alloc, duration)?;
        check(
            &rt,
            alloc,
            &own,
            &[TFHD, TFDT, trun.as_slice()],
            lasting(millis),
            expected,
        )?;
        check(
            &rt,
            alloc,
            &other,
            &[tfhd.as_slice(), TFDT, trun.as_slice()],
            lasting(millis),
            expected,
        )?;
    }
    Ok(())
}

/// Samples whose durations the trun has.
#[test]
fn own_durations(rt: HostRuntime) -> Result<(), Fail> {
    let alloc = rt.alloc();
    for (timescale, millis, durations, expected) in [
        (
            48_000,
            64,
            &[1024, 1024, 1024, 1][..],
            &[(3, 3072), (1, 1)][..],
        ),
        (
            48_000,
            64,
            &[1024, 1024, 1025, 1][..],
            &[(2, 2048), (2, 1026)][..],
        ),
        (
            1001,
            500,
            &[250, 250, 250, 251][..],
            &[(2, 500), (1, 250), (1, 251)][..],
        ),
        // Samples that last longer.
        (
            1000,
            1000,
            &[400, 2000, 400, 600][..],
            &[(1, 400), (1, 2000), (2, 1000)][..],
        ),
        // A sample of no ticks fits after one of just as many as there may be, and not after a longer one.
        (
            1000,
            1000,
            &[1000, 0, 0, 1, 0][..],
            &[(3, 1000), (2, 1)][..],
        ),
        (1000, 1000, &[1001, 0, 5][..], &[(1, 1001), (2, 5)][..]),
        (
            0,
            u32::MAX,
            &[0, 0, 5, 0, 0][..],
            &[(2, 0), (1, 5), (2, 0)][..],
        ),
        (
            1,
            u32::MAX,
            &[4_294_967, 0, 1][..],
            &[(2, 4_294_967), (1, 1)][..],
        ),
        (
            1000,
            u32::MAX,
            &[u32::MAX - 1, 1, 1][..],
            &[(2, 4_294_967_295), (1, 1)][..],
        ),
        (
            u32::MAX,
            u32::MAX,
            &[u32::MAX; 3][..],
            &[(3, 12_884_901_885)][..],
        ),
    ] {
        let moov = moov_of(alloc, timescale, 77)?;
        let trun = trun_of(alloc, 0x0101, durations.len().min(9) as u32, durations)?;
        check(
            &rt,
            alloc,
            &moov,
            &[TFHD, TFDT, trun.as_slice()],
            lasting(millis),
            expected,
        )?;
    }
    Ok(())
}

/// Each limit ends a piece: three samples, 10 bytes, 100 ticks.
#[test]
fn all_limits(rt: HostRuntime) -> Result<(), Fail> {
    let alloc = rt.alloc();
    let moov = moov_of(alloc, 1000, 77)?;
    let rows = [30, 1, 30, 1, 30, 1, 10, 6, 10, 5, 90, 5, 1, 0];
    let trun = trun_of(alloc, 0x0301, 7, &rows)?;
    let limits = Limits {
        samples: 3,
        bytes: Some(10),
        ..lasting(100)
    };
    let expected = [(3, 90), (1, 10), (2, 100), (1, 1)];
    check(
        &rt,
        alloc,
        &moov,
        &[TFHD, TFDT, trun.as_slice()],
        limits,
        &expected,
    )
}

/// A sync sample begins a piece after one that isn't. Samples have 1,024 ticks, of which 43 ms hold two.
#[test]
fn keyframes(rt: HostRuntime) -> Result<(), Fail> {
    let alloc = rt.alloc();
    let moov = moov_of(alloc, 48_000, 1024)?;
    for (samples, millis, flags, expected) in [
        (
            9,
            None,
            &[SYNC, OTHER, SYNC, SYNC][..],
            &[(2, 2048), (2, 2048)][..],
        ),
        (
            9,
            None,
            &[OTHER, SYNC, OTHER][..],
            &[(1, 1024), (2, 2048)][..],
        ),
        (
            9,
            None,
            &[OTHER, OTHER, SYNC, SYNC, OTHER, SYNC][..],
            &[(2, 2048), (3, 3072), (1, 1024)][..],
        ),
        (9, None, &[SYNC; 4][..], &[(4, 4096)][..]),
        (9, None, &[OTHER; 4][..], &[(4, 4096)][..]),
        (
            2,
            None,
            &[SYNC, SYNC, OTHER, SYNC][..],
            &[(2, 2048), (1, 1024), (1, 1024)][..],
        ),
        (
            9,
            Some(43),
            &[SYNC, OTHER, SYNC, SYNC, SYNC][..],
            &[(2, 2048), (2, 2048), (1, 1024)][..],
        ),
        (
            9,
            Some(43),
            &[SYNC, OTHER, OTHER, SYNC][..],
            &[(2, 2048), (1, 1024), (1, 1024)][..],
        ),
    ] {
        let limits = Limits {
            samples,
            bytes: None,
            millis,
            keyframes: true,
        };
        let trun = trun_of(alloc, 0x0401, flags.len().min(9) as u32, flags)?;
        check(
            &rt,
            alloc,
            &moov,
            &[NO_SYNC, TFDT, trun.as_slice()],
            limits,
            expected,
        )?;
    }
    Ok(())
}
