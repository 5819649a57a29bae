//! How much is claimed, and its limit.

ghost use Rattle.std.specs.Prelude.{◌≤◌};

use super::ends::FRAGMENTS;
use super::fragments::{COUNTS, SAMPLES};
use super::split_stops::with_a_large_moof;
use super::{FTYP, MDAT, MOOF, MOOV, check_words, joined};
use mp4_stream::ends::{FromSlice, ToVec};
use mp4_stream::vectors::{V1, V1_MOOF};
use mp4_stream::{Cut, Fault, FourCc, Ledger, Rule, Stop, Totals, boxes, check, samples, split};
use std::alloc::Global;
use std::process::Abort;
use std::test::Fail;

#[test]
fn limits(rt: HostRuntime) -> Result<(), Fail> {
    let v1 = [V1.as_slice()];
    let all = [FTYP, MOOV, MOOF, MDAT];
    // The bytes that are read into, and the moov of 344 bytes.
    check_words(
        &rt,
        rt.alloc(),
        &["fmp4", "boxes", "--max-held", "65880"],
        &v1,
        0,
        &all,
        "",
    )?;
    check_words(
        &rt,
        rt.alloc(),
        &["fmp4", "boxes", "--max-held", "65879"],
        &v1,
        4,
        &[FTYP],
        "fmp4: over the limit\n",
    )?;
    check_words(
        &rt,
        rt.alloc(),
        &["fmp4", "boxes", "--max-held", "65535"],
        &v1,
        4,
        &[],
        "fmp4: over the limit\n",
    )?;
    // A moof that would be claimed after the moov was given back.
    let moof = [&V1.as_slice()[..V1_MOOF], b"\0\0\x01\x59moof".as_slice()];
    check_words(
        &rt,
        rt.alloc(),
        &["fmp4", "boxes", "--max-held", "65880"],
        &moof,
        4,
        &[FTYP, MOOV],
        "fmp4: over the limit\n",
    )
}

/// Lists the samples and the fragments of a stream and checks it under a limit: its lines and its counts. Where the
/// limit is passed, there are no counts, and of the lines at most that of the track, which its moov has.
fn check_listings(
    rt: &impl Abort,
    alloc: Global,
    limit: &'static str,
    stream: &[u8],
    lines: &[&str],
    fragments: &[&str],
    counts: &'static str,
) -> Result<(), Fail> {
    let (status, fault) = if counts.is_empty() {
        (4, "fmp4: over the limit\n")
    } else {
        (0, "")
    };
    let samples = ["fmp4", "samples", "--max-held", limit];
    check_words(rt, alloc, &samples, &[stream], status, lines, fault)?;
    let listed = ["fmp4", "fragments", "--max-held", limit];
    check_words(rt, alloc, &listed, &[stream], status, fragments, fault)?;
    let check = ["fmp4", "check", "--max-held", limit];
    check_words(rt, alloc, &check, &[stream], status, &[counts], fault)
}

/// Each claim of the commands that read fragments, one byte too large and just small enough: the bytes that are read
/// into, the moov of 344 bytes with the table of its track, and the moof of 496 with the list of its runs.
#[test]
fn limits_of_listings(rt: HostRuntime) -> Result<(), Fail> {
    let alloc = rt.alloc();
    for limit in ["65535", "65536", "65879", "65880", "65943"] {
        check_listings(&rt, alloc, limit, V1.as_slice(), &[], &[], "")?;
    }
    let v1 = V1.as_slice();
    check_listings(&rt, alloc, "65944", v1, &SAMPLES, &FRAGMENTS, COUNTS)?;
    let large = with_a_large_moof(alloc)?;
    for limit in ["66095", "66096", "66159"] {
        check_listings(&rt, alloc, limit, &large, &[], &FRAGMENTS[..1], "")?;
    }
    let lines = [
        "track=1 dts=0 cts=0 dur=1024 size=5 flags=02000000 sync desc=1 at=868\n",
        "track=1 dts=1024 cts=1024 dur=1024 size=7 flags=02000000 sync desc=1 at=873\n",
        "track=1 dts=2048 cts=2048 dur=1024 size=3 flags=02000000 sync desc=1 at=880\n",
    ];
    let fragments = [
        FRAGMENTS[0],
        "fragment=1 at=364 size=519 track=1 dts=0 dur=3072 samples=3 sync=yes media=15 pts=0 syncs=3 gap=0\n",
    ];
    let counts = "fragments=1 samples=3 media=15 held=66160\n";
    check_listings(&rt, alloc, "66160", &large, &lines, &fragments, counts)
}

/// Lists the boxes of these bytes under a limit: the answer, and the most that was claimed at once.
fn peak_of(
    rt: &impl Abort,
    alloc: Global,
    parts: &[&[u8]],
    copy: u32,
    limit: u64,
) -> Result<(Result<(), Stop>, u64), Fail>
    requires { (4096 ≤ copy) × (copy ≤ 1048576) }
{
    let input = joined(alloc, parts)?;
    let mut r = FromSlice::new(&input, 1000, false);
    let mut w = ToVec::new(alloc, 8192, 1000, true)?;
    let mut ledger = Ledger::new(alloc, limit);
    let mut totals = Totals::new();
    let answer = boxes(&mut r, &mut w, &mut ledger, copy, &mut totals);
    assert_eq!(rt; (ledger.live(), ledger.peak()), (0, totals.peak));
    Ok((answer, totals.peak))
}

#[test]
fn peaks(rt: HostRuntime) -> Result<(), Fail> {
    let v1 = V1.as_slice();
    assert_eq!(&rt; peak_of(&rt, rt.alloc(), &[], 4096, 4096)?, (Ok(()), 4096));
    assert_eq!(&rt;
        peak_of(&rt, rt.alloc(), &[], 4096, 4095)?,
        (Err(Stop::OverLimit), 0)
    );
    assert_eq!(&rt;
        peak_of(&rt, rt.alloc(), &[v1], 4096, 4440)?,
        (Ok(()), 4440)
    );
    assert_eq!(&rt;
        peak_of(&rt, rt.alloc(), &[v1], 4096, 4439)?,
        (Err(Stop::OverLimit), 4096)
    );
    // A declared size that is refused was not claimed.
    let (answer, peak) = peak_of(
        &rt,
        rt.alloc(),
        &[&v1[..V1_MOOF], b"\x04\0\0\x01moof".as_slice()],
        65536,
        1 << 62,
    )?;
    assert_eq!(&rt; (answer.is_err(), peak), (true, 65880));
    Ok(())
}

/// A moof that states a byte more than it may have isn't claimed: the peak is that of the moov and the table of its
/// track.
#[test]
fn peaks_of_a_refused_moof(rt: HostRuntime) -> Result<(), Fail> {
    let alloc = rt.alloc();
    let stream = joined(alloc, &[&V1.as_slice()[..V1_MOOF], b"\x04\0\0\x01moof"])?;
    let too_large = Err(Stop::Stream(Fault {
        rule: Rule::TooLarge,
        kind: Some(FourCc(*b"moof")),
        offset: 364,
    }));
    let cut = Cut::new(2, None, false).expect(&rt, "two samples are allowed");
    for step in [1, 7, 4096] {
        let mut ledger = Ledger::new(alloc, 1 << 62);
        let mut w = ToVec::new(alloc, 1000, 1000, true)?;
        let (mut split_of, mut samples_of, mut check_of) = (
            Totals::new(),
            Totals::new(),
            Totals::new(),
        );
        let mut r = FromSlice::new(&stream, step, false);
        let split = split(&mut r, &mut w, &mut ledger, &cut, 65_536, &mut split_of);
        let mut r = FromSlice::new(&stream, step, false);
        let samples = samples(&mut r, &mut w, &mut ledger, 65_536, &mut samples_of);
        let mut r = FromSlice::new(&stream, step, false);
        let check = check(&mut r, &mut ledger, 65_536, &mut check_of);
        assert_eq!(&rt; (split, samples, check), (too_large, too_large, too_large));
        assert_eq!(&rt;
            (split_of.peak, samples_of.peak, check_of.peak),
            (65_944, 65_944, 65_944)
        );
    }
    Ok(())
}
