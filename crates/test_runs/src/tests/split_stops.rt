//! Limits while a stream is recut, and what is counted where a claim was refused or a write failed.

ghost use Rattle.std.specs.Prelude.{◌≡◌, ◌<◌};

use super::joined;
use super::layouts::MFHD;
use super::splits::{by_two, check_split};
use mp4_stream::ends::{FromSlice, ToVec};
use mp4_stream::vectors::{V1, V1_MOOF, V1_SIZES, V1_TRAF};
use mp4_stream::{Cut, Ledger, Stop, Totals, split};
use std::alloc::{AllocError, Global};
use std::process::Abort;
use std::test::Fail;

/// The first vector by two samples a fragment, in 627 bytes: after its first 364 a moof of 124 bytes with an mdat of
/// 20, and a moof of 108 bytes with one of 11.
#[test]
fn fragments_that_a_writer_took(rt: HostRuntime) -> Result<(), Fail> {
    let alloc = rt.alloc();
    let cut = Cut::new(2, None, false).expect(&rt, "two samples are allowed");
    for step in [7, 483] {
        for room in 0..=627usize {
            let mut r = FromSlice::new(V1.as_slice(), step, false);
            let mut w = ToVec::new(alloc, room, 1000, true)?;
            let mut ledger = Ledger::new(alloc, 1 << 20);
            let mut totals = Totals::new();
            let answer = split(&mut r, &mut w, &mut ledger, &cut, 4096, &mut totals);
            let due = if room < 627 { Err(Stop::Write) } else { Ok(()) };
            let fragments = match room {
                0..488 => 0,
                488..616 => 1,
                _ => 2,
            };
            assert_eq!(&rt;
                (answer, totals.fragments),
                (due, fragments),
                "room for {room}"
            );
        }
    }
    Ok(())
}

/// The first vector with a moof of 496 bytes: a free box of 400 follows its mfhd.
pub(super) fn with_a_large_moof(alloc: Global) -> Result<Vec<u8>, AllocError> {
    let v1 = V1.as_slice();
    joined(
        alloc,
        &[
            &v1[..V1_MOOF],
            b"\0\0\x01\xf0moof",
            MFHD,
            b"\0\0\x01\x90free",
            &[0; 392],
            &v1[V1_TRAF..444],
            b"\0\0\x01\xf8",
            &v1[V1_SIZES..],
        ],
    )
}

/// The first vector, and the fragment with the large moof after it.
pub(super) fn before_a_large_moof(alloc: Global) -> Result<Vec<u8>, AllocError> {
    let large = with_a_large_moof(alloc)?;
    joined(alloc, &[V1.as_slice(), &large[364.min(large.len())..]])
}

/// Recuts a stream under a limit that is too little, by reads of so many bytes: what is written, and how many fragments
/// are counted.
fn check_refused(
    rt: &impl Abort,
    alloc: Global,
    stream: &[u8],
    limit: u64,
    step: usize,
    written: &[u8],
    fragments: u64,
) -> Result<(), Fail>
    requires { 0 < step }
{
    let cut = Cut::new(2, None, false).expect(rt, "two samples are allowed");
    let mut r = FromSlice::new(stream, step, false);
    let mut w = ToVec::new(alloc, 1000, 1000, true)?;
    let mut ledger = Ledger::new(alloc, limit);
    let mut totals = Totals::new();
    let answer = split(&mut r, &mut w, &mut ledger, &cut, 65_536, &mut totals);
    assert_eq!(rt;
        (answer, w.bytes(), totals.fragments, ledger.live()),
        (Err(Stop::OverLimit), written, fragments, 0),
        "limit {limit}, reads of {step}"
    );
    Ok(())
}

/// The claim for the runs of the second fragment is refused, one byte too large, and that of the bytes to read into.
#[test]
fn fragments_before_a_refused_claim(rt: HostRuntime) -> Result<(), Fail> {
    let alloc = rt.alloc();
    let (stream, two) = (before_a_large_moof(alloc)?, by_two(alloc)?);
    for step in [1, 7, 65_536] {
        check_refused(&rt, alloc, &stream, 66_159, step, &two, 2)?;
        check_refused(&rt, alloc, &stream, 65_535, step, b"", 0)?;
    }
    Ok(())
}

/// Recuts a stream under a limit: so many bytes must be written, and where these aren't all of the 627, the limit was
/// passed.
fn check_limit(
    rt: &impl Abort,
    alloc: Global,
    limit: &'static str,
    stream: &[u8],
    written: usize,
) -> Result<(), Fail> {
    let two = by_two(alloc)?;
    let options = ["--samples", "2", "--max-held", limit];
    let (status, fault) = if written < 627 {
        (4, "fmp4: over the limit\n")
    } else {
        (0, "")
    };
    let written = &two[..written.min(two.len())];
    check_split(rt, alloc, &options, &[stream], status, written, fault)
}

#[test]
fn limits_of_split(rt: HostRuntime) -> Result<(), Fail> {
    let alloc = rt.alloc();
    for (limit, written) in [
        ("100", 0),
        ("65535", 0),
        ("65536", 20),
        ("65943", 20),
        ("65944", 627),
    ] {
        check_limit(&rt, alloc, limit, V1.as_slice(), written)?;
    }
    let large = with_a_large_moof(alloc)?;
    check_limit(&rt, alloc, "66159", &large, 364)?;
    check_limit(&rt, alloc, "66160", &large, 627)
}
