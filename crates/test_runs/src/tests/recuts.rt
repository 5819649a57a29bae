//! Times of new fragments, and new fragments that are read again.

use super::fragments::check_sound;
use super::joined;
use super::layouts::{MFHD, TFHD};
use super::splits::{BY_TWO, by_two, check_bad, check_good};
use super::wanted::{SYNC, piece_at, recut};
use mp4_stream::vectors::{
    V1, V1_MEDIA, V1_MOOF, V1_SECOND_SAMPLE, V1_SIZES, V1_THIRD_SAMPLE, V1_TRUN,
};
use std::alloc::{AllocError, Global};
use std::test::Fail;

#[test]
fn samples_of_new_fragments(rt: HostRuntime) -> Result<(), Fail> {
    let two = by_two(rt.alloc())?;
    let lines = [
        "track=1 dts=0 cts=0 dur=1024 size=5 flags=02000000 sync desc=1 at=496\n",
        "track=1 dts=1024 cts=1024 dur=1024 size=7 flags=02000000 sync desc=1 at=501\n",
        "track=1 dts=2048 cts=2048 dur=1024 size=3 flags=02000000 sync desc=1 at=624\n",
    ];
    let counts = "fragments=2 samples=3 media=15 held=65944\n";
    check_sound(&rt, rt.alloc(), &[&two], &lines, counts)
}

#[test]
fn sync_samples_again(rt: HostRuntime) -> Result<(), Fail> {
    let (alloc, v1) = (rt.alloc(), V1.as_slice());
    let ones = [
        piece_at(1, 0, &[[5, SYNC]], &v1[V1_MEDIA..V1_SECOND_SAMPLE]),
        piece_at(
            2,
            1024,
            &[[7, SYNC]],
            &v1[V1_SECOND_SAMPLE..V1_THIRD_SAMPLE],
        ),
        piece_at(3, 2048, &[[3, SYNC]], &v1[V1_THIRD_SAMPLE..]),
    ];
    let ones = recut(alloc, &[&v1[..V1_MOOF]], &ones)?;
    let sync = ["--samples", "9", "--sync"];
    check_good(&rt, alloc, &sync, &[v1], &ones)?;
    check_good(&rt, alloc, &sync, &[&ones], &ones)
}

/// A second fragment without tfdt begins where the first ended.
#[test]
fn fragments_without_tfdt(rt: HostRuntime) -> Result<(), Fail> {
    let (alloc, v1) = (rt.alloc(), V1.as_slice());
    let stream = [
        v1,
        b"\0\0\0\x50moof".as_slice(),
        MFHD,
        b"\0\0\0\x38traf",
        TFHD,
        &v1[V1_TRUN..444],
        b"\0\0\0\x58",
        &v1[V1_SIZES..],
    ];
    let pair = [[5, SYNC], [7, SYNC]];
    let all = [
        piece_at(1, 0, &pair, &v1[V1_MEDIA..V1_THIRD_SAMPLE]),
        piece_at(2, 2048, &[[3, SYNC]], &v1[V1_THIRD_SAMPLE..]),
        piece_at(3, 3072, &pair, &v1[V1_MEDIA..V1_THIRD_SAMPLE]),
        piece_at(4, 5120, &[[3, SYNC]], &v1[V1_THIRD_SAMPLE..]),
    ];
    let all = recut(alloc, &[&v1[..V1_MOOF]], &all)?;
    check_good(&rt, alloc, &BY_TWO, &stream, &all)
}

/// The first vector with this base time in 64 bits.
fn with_time(alloc: Global, time: u64) -> Result<Vec<u8>, AllocError> {
    let v1 = V1.as_slice();
    joined(
        alloc,
        &[
            &v1[..V1_MOOF],
            b"\0\0\0\x64moof",
            MFHD,
            b"\0\0\0\x4ctraf",
            TFHD,
            b"\0\0\0\x14tfdt\x01\0\0\0",
            &time.to_be_bytes(),
            &v1[V1_TRUN..444],
            b"\0\0\0\x6c",
            &v1[V1_SIZES..],
        ],
    )
}

/// The last sample may end with the last time that 64 bits hold, and not after it.
#[test]
fn last_times(rt: HostRuntime) -> Result<(), Fail> {
    let (alloc, v1) = (rt.alloc(), V1.as_slice());
    let pair = [[5, SYNC], [7, SYNC]];
    let all = [
        piece_at(
            1,
            18_446_744_073_709_548_543,
            &pair,
            &v1[V1_MEDIA..V1_THIRD_SAMPLE],
        ),
        piece_at(
            2,
            18_446_744_073_709_550_591,
            &[[3, SYNC]],
            &v1[V1_THIRD_SAMPLE..],
        ),
    ];
    let all = recut(alloc, &[&v1[..V1_MOOF]], &all)?;
    let last = with_time(alloc, 18_446_744_073_709_548_543)?;
    check_good(&rt, alloc, &BY_TWO, &[&last], &all)?;
    let late = with_time(alloc, 18_446_744_073_709_548_544)?;
    let fault = "fmp4: 21 TimeRange in trun at 432\n";
    check_bad(&rt, alloc, &[&late], &v1[..V1_MOOF], fault)
}
