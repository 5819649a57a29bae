//! Fragments that are cut by time, and before keyframes. What must be written is laid out by hand.

use super::joined;
use super::splits::check_good;
use super::wanted::{OTHER, SYNC, Wanted, piece_at, recut};
use mp4_stream::vectors::{V1, V1_MEDIA, V1_MOOF, V1_SECOND_SAMPLE, V1_THIRD_SAMPLE, V2};
use std::alloc::{AllocError, Global};
use std::process::Abort;
use std::test::Fail;

/// A fragment of the second track, whose samples are 2880 ticks long.
fn second<'a>(number: u32, time: u64, rows: &'a [[u32; 2]], media: &'a [u8]) -> Wanted<'a> {
    Wanted {
        track: 2,
        duration: 2880,
        ..piece_at(number, time, rows, media)
    }
}

/// The second vector up to its moof, with 90,000 ticks a second in its second track.
fn front() -> [&'static [u8]; 3] {
    let v2 = V2.as_slice();
    [&v2[..452], b"\0\x01\x5f\x90", &v2[456..584]]
}

/// The second vector, where the second track has four samples of 2880 ticks and two bytes. All but the second are sync
/// samples.
fn two_timescales(alloc: Global) -> Result<Vec<u8>, AllocError> {
    let v2 = V2.as_slice();
    let mut stream = joined(alloc, &front())?;
    let fragment = [
        b"\0\0\0\xccmoof".as_slice(),
        &v2[592..664],
        b"\0\0\0\xd4",
        &v2[668..680],
        b"\0\0\0\x6ctraf",
        &v2[688..720],
        b"\0\0\0\x44trun\0\0\x07\x01\0\0\0\x04\0\0\0\xe3",
        b"\0\0\x0b\x40\0\0\0\x02\x02\0\0\0\0\0\x0b\x40\0\0\0\x02\x01\x01\0\0",
        b"\0\0\x0b\x40\0\0\0\x02\x02\0\0\0\0\0\x0b\x40\0\0\0\x02\x02\0\0\0",
        &v2[748..],
    ];
    for part in fragment {
        stream.extend_from_slice(part)?;
    }
    Ok(stream)
}

/// The samples of the first track as one fragment.
fn sound() -> Wanted<'static> {
    let rows = &[[5, SYNC], [7, SYNC], [3, SYNC]];
    piece_at(1, 0, rows, &V2.as_slice()[756..771])
}

/// That, and the second track in one fragment of four samples, in three and one, and in two and two.
fn by_four(alloc: Global) -> Result<Vec<u8>, AllocError> {
    let media = &V2.as_slice()[771..];
    let four = [[2, SYNC], [2, OTHER], [2, SYNC], [2, SYNC]];
    recut(alloc, &front(), &[sound(), second(2, 0, &four, media)])
}

fn by_three(alloc: Global) -> Result<Vec<u8>, AllocError> {
    let media = &V2.as_slice()[771..];
    let three = [
        sound(),
        second(2, 0, &[[2, SYNC], [2, OTHER], [2, SYNC]], &media[..6]),
        second(3, 8640, &[[2, SYNC]], &media[6..]),
    ];
    recut(alloc, &front(), &three)
}

fn by_pairs(alloc: Global) -> Result<Vec<u8>, AllocError> {
    let media = &V2.as_slice()[771..];
    let pairs = [
        sound(),
        second(2, 0, &[[2, SYNC], [2, OTHER]], &media[..4]),
        second(3, 5760, &[[2, SYNC], [2, SYNC]], &media[4..]),
    ];
    recut(alloc, &front(), &pairs)
}

/// The first track in fragments of two samples, and the second in those of one.
fn below_64(alloc: Global) -> Result<Vec<u8>, AllocError> {
    let media = &V2.as_slice()[756..];
    let below = [
        piece_at(1, 0, &[[5, SYNC], [7, SYNC]], &media[..12]),
        piece_at(2, 2048, &[[3, SYNC]], &media[12..15]),
        second(3, 0, &[[2, SYNC]], &media[15..17]),
        second(4, 2880, &[[2, OTHER]], &media[17..19]),
        second(5, 5760, &[[2, SYNC]], &media[19..21]),
        second(6, 8640, &[[2, SYNC]], &media[21..]),
    ];
    recut(alloc, &front(), &below)
}

/// Of the first track three samples last 64 ms, of the second two.
#[test]
fn times_and_keyframes(rt: HostRuntime) -> Result<(), Fail> {
    let alloc = rt.alloc();
    let stream = two_timescales(alloc)?;
    let (below, pairs) = (below_64(alloc)?, by_pairs(alloc)?);
    let (three, all) = (by_three(alloc)?, by_four(alloc)?);
    for (options, input, written) in [
        (["--duration", "63"].as_slice(), &stream, &below),
        (&["--duration", "64"], &stream, &pairs),
        (&["--duration", "65"], &stream, &pairs),
        (&["--duration", "96"], &stream, &three),
        (&["--duration", "4294967295"], &stream, &all),
        (&["--samples", "1000000", "--keyframes"], &stream, &pairs),
        (&["--keyframes", "--duration", "96"], &stream, &pairs),
        (&["--duration", "64"], &pairs, &pairs),
        (&["--duration", "63"], &below, &below),
    ] {
        check_good(&rt, alloc, options, &[input], written)?;
    }
    Ok(())
}

/// A fragment of the first vector, whose samples last so many ticks, from one of them on.
fn first<'a>(
    number: u32,
    index: u32,
    duration: u32,
    rows: &'a [[u32; 2]],
    media: &'a [u8],
) -> Wanted<'a> {
    let time = u64::from(index) * u64::from(duration);
    Wanted {
        duration,
        ..piece_at(number, time, rows, media)
    }
}

/// The fragments of the first vector by one, two or three samples each, after these bytes.
fn by_samples(
    alloc: Global,
    front: &[&[u8]],
    duration: u32,
    samples: u32,
) -> Result<Vec<u8>, AllocError> {
    let v1 = V1.as_slice();
    let ones = [
        first(
            1,
            0,
            duration,
            &[[5, SYNC]],
            &v1[V1_MEDIA..V1_SECOND_SAMPLE],
        ),
        first(
            2,
            1,
            duration,
            &[[7, SYNC]],
            &v1[V1_SECOND_SAMPLE..V1_THIRD_SAMPLE],
        ),
        first(3, 2, duration, &[[3, SYNC]], &v1[V1_THIRD_SAMPLE..]),
    ];
    let two = [
        first(
            1,
            0,
            duration,
            &[[5, SYNC], [7, SYNC]],
            &v1[V1_MEDIA..V1_THIRD_SAMPLE],
        ),
        first(2, 2, duration, &[[3, SYNC]], &v1[V1_THIRD_SAMPLE..]),
    ];
    let all = [[5, SYNC], [7, SYNC], [3, SYNC]];
    match samples {
        1 => recut(alloc, front, &ones),
        2 => recut(alloc, front, &two),
        _ => recut(
            alloc,
            front,
            &[first(1, 0, duration, &all, &v1[V1_MEDIA..])],
        ),
    }
}

/// The first vector with this timescale, and this duration of its samples, is cut by so many milliseconds into fragments
/// of so many samples.
fn check_millis(
    rt: &impl Abort,
    alloc: Global,
    (timescale, duration): (u32, u32),
    millis: &str,
    samples: u32,
) -> Result<(), Fail> {
    let v1 = V1.as_slice();
    let (ticks, length) = (timescale.to_be_bytes(), duration.to_be_bytes());
    let front = [
        &v1[..264],
        &ticks,
        &v1[268..352],
        &length,
        &v1[356..V1_MOOF],
    ];
    let written = by_samples(alloc, &front, duration, samples)?;
    let stream = [
        front[0],
        front[1],
        front[2],
        front[3],
        front[4],
        &v1[V1_MOOF..],
    ];
    check_good(rt, alloc, &["--duration", millis], &stream, &written)
}

#[test]
fn timescales(rt: HostRuntime) -> Result<(), Fail> {
    const MOST: u32 = u32::MAX;
    for (stream, millis, samples) in [
        // 473.6 ticks, 512, 742.4 and 755.2.
        ((12_800, 237), "37", 1),
        ((12_800, 256), "40", 2),
        ((12_800, 250), "58", 2),
        ((12_800, 250), "59", 3),
        ((1, 1), "999", 1),
        ((1, 1), "2000", 2),
        ((0, 1024), "4294967295", 1),
        ((0, 0), "1", 3),
        ((MOST, MOST), "1999", 1),
        ((MOST, MOST), "2000", 2),
        ((MOST, MOST), "4294967295", 3),
    ] {
        check_millis(&rt, rt.alloc(), stream, millis, samples)?;
    }
    Ok(())
}
