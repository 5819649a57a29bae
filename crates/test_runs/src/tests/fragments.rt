//! Samples that are listed, and streams that are checked.

use super::check_words;
use mp4_stream::vectors::{V1, V1_MDAT, V1_MEDIA, V1_MOOF, V1_MOOV, V1_TFDT, V1_TFHD, V1_TRUN, V2};
use std::alloc::Global;
use std::process::Abort;
use std::test::Fail;

/// The samples of the first vector.
pub(super) const SAMPLES: [&str; 3] = [
    "track=1 dts=0 cts=0 dur=1024 size=5 flags=02000000 sync desc=1 at=468\n",
    "track=1 dts=1024 cts=1024 dur=1024 size=7 flags=02000000 sync desc=1 at=473\n",
    "track=1 dts=2048 cts=2048 dur=1024 size=3 flags=02000000 sync desc=1 at=480\n",
];

/// Its result.
pub(super) const COUNTS: &str = "fragments=1 samples=3 media=15 held=65944\n";

const HEADER_TO_END: &[u8] = b"\0\0\0\0mdat";

/// A stream whose samples are these, and that breaks no rule.
pub(super) fn check_sound(
    rt: &impl Abort,
    alloc: Global,
    parts: &[&[u8]],
    lines: &[&str],
    counts: &str,
) -> Result<(), Fail> {
    check_words(rt, alloc, &["fmp4", "samples"], parts, 0, lines, "")?;
    check_words(rt, alloc, &["fmp4", "check"], parts, 0, &[counts], "")
}

/// A stream with this fault, before which these samples are listed.
pub(super) fn check_fault(
    rt: &impl Abort,
    alloc: Global,
    parts: &[&[u8]],
    lines: &[&str],
    fault: &str,
) -> Result<(), Fail> {
    check_words(rt, alloc, &["fmp4", "samples"], parts, 2, lines, fault)?;
    check_words(rt, alloc, &["fmp4", "check"], parts, 2, &[], fault)
}

#[test]
fn sound_streams(rt: HostRuntime) -> Result<(), Fail> {
    let (alloc, v1) = (rt.alloc(), V1.as_slice());
    check_sound(&rt, alloc, &[v1], &SAMPLES, COUNTS)?;
    let to_end = [&v1[..V1_MDAT], HEADER_TO_END, &v1[V1_MEDIA..]];
    check_sound(&rt, alloc, &to_end, &SAMPLES, COUNTS)?;
    let none = "fragments=0 samples=0 media=0 held=65536\n";
    check_sound(&rt, alloc, &[], &[], none)
}

/// The lines of the first vector's fragments.
const FRAGMENTS: [&str; 2] = [
    "track=1 timescale=48000 entries=1 handler=???? types=mp4a\n",
    "fragment=1 at=364 size=119 track=1 dts=0 dur=3072 samples=3 sync=yes media=15 pts=0 syncs=3 gap=0\n",
];

#[test]
fn tracks_and_fragments(rt: HostRuntime) -> Result<(), Fail> {
    let (alloc, v1) = (rt.alloc(), V1.as_slice());
    let words = ["fmp4", "fragments"];
    check_words(&rt, alloc, &words, &[v1], 0, &FRAGMENTS, "")?;
    check_words(&rt, alloc, &words, &[], 0, &[], "")?;
    let to_end = [&v1[..V1_MDAT], HEADER_TO_END, &v1[V1_MEDIA..]];
    let lines = [
        FRAGMENTS[0],
        "fragment=1 at=364 size=end track=1 dts=0 dur=3072 samples=3 sync=yes media=15 pts=0 syncs=3 gap=0\n",
    ];
    check_words(&rt, alloc, &words, &to_end, 0, &lines, "")?;
    // The first fragment is listed before the second is refused; an mdat that is cut short was accepted.
    let fault = "fmp4: 6 MdatMissing in moof at 483\n";
    check_words(
        &rt,
        alloc,
        &words,
        &[v1, &v1[V1_MOOF..V1_MDAT]],
        2,
        &FRAGMENTS,
        fault,
    )?;
    let fault = "fmp4: 1 Truncated in mdat at 460\n";
    check_words(&rt, alloc, &words, &[&v1[..482]], 2, &FRAGMENTS, fault)
}

#[test]
fn trafs_of_a_fragment(rt: HostRuntime) -> Result<(), Fail> {
    let (alloc, v1, v2) = (rt.alloc(), V1.as_slice(), V2.as_slice());
    let words = ["fmp4", "fragments"];
    let two_tracks = [
        "track=1 timescale=48000 entries=1 handler=???? types=mp4a\n",
        "track=2 timescale=48000 entries=1 handler=???? types=mp4a\n",
        "fragment=1 at=584 size=195 track=1 dts=0 dur=3072 samples=3 sync=yes media=15 pts=0 syncs=3 gap=0\n",
        "fragment=1 at=584 size=195 track=2 dts=0 dur=2048 samples=2 sync=yes media=8 pts=0 syncs=2 gap=0\n",
    ];
    check_words(&rt, alloc, &words, &[v2], 0, &two_tracks, "")?;
    let (front, tfhd) = (&v1[..V1_MOOF], &v1[V1_TFHD..V1_TFDT]);
    // Two runs, of which only the second begins with a sync sample.
    let two_runs = [
        front,
        b"\0\0\0\x74moof\0\0\0\x10mfhd\0\0\0\0\0\0\0\x07\0\0\0\x5ctraf".as_slice(),
        tfhd,
        b"\0\0\0\x10tfdt\0\0\0\0\0\0\x10\0",
        b"\0\0\0\x1ctrun\0\0\x02\x05\0\0\0\x01\0\0\0\x7c\x01\x01\0\0\0\0\0\x05",
        b"\0\0\0\x18trun\0\0\x02\x01\0\0\0\x01\0\0\0\x81\0\0\0\x07",
        b"\0\0\0\x14mdat\x01\x02\x03\x04\x05\x06\x07\x08\x09\x0a\x0b\x0c",
    ];
    let lines = [
        FRAGMENTS[0],
        "fragment=7 at=364 size=136 track=1 dts=4096 dur=2048 samples=2 sync=no media=12 pts=4096 syncs=1 gap=4096\n",
    ];
    check_words(&rt, alloc, &words, &two_runs, 0, &lines, "")?;
    // A traf without runs.
    let no_run = [
        front,
        b"\0\0\0\x40moof\0\0\0\x10mfhd\0\0\0\0\0\0\0\x08\0\0\0\x28traf".as_slice(),
        tfhd,
        &v1[V1_TFDT..V1_TRUN],
        b"\0\0\0\x08mdat",
    ];
    let lines = [
        FRAGMENTS[0],
        "fragment=8 at=364 size=72 track=1 dts=0 dur=0 samples=0 sync=no media=0 pts=0 syncs=0 gap=0\n",
    ];
    check_words(&rt, alloc, &words, &no_run, 0, &lines, "")
}

#[test]
fn boxes_out_of_place(rt: HostRuntime) -> Result<(), Fail> {
    let (alloc, v1) = (rt.alloc(), V1.as_slice());
    let (start, moov, moof, mdat) = (
        &v1[..V1_MOOV],
        &v1[V1_MOOV..V1_MOOF],
        &v1[V1_MOOF..V1_MDAT],
        &v1[V1_MDAT..],
    );
    let fault = "fmp4: 3 NoMoov in moof at 20\n";
    check_fault(&rt, alloc, &[start, moof, mdat], &[], fault)?;
    let fault = "fmp4: 4 SecondMoov in moov at 364\n";
    check_fault(&rt, alloc, &[start, moov, moov], &[], fault)?;
    let fault = "fmp4: 5 StrayMdat in mdat at 364\n";
    check_fault(&rt, alloc, &[start, moov, mdat], &[], fault)?;
    let fault = "fmp4: 6 MdatMissing in moof at 364\n";
    check_fault(&rt, alloc, &[start, moov, moof], &[], fault)?;
    check_fault(&rt, alloc, &[start, moov, moof, start], &[], fault)?;
    let fault = "fmp4: 2 BadSize in mdat at 460\n";
    let bad = [start, moov, moof, b"\0\0\0\x07mdat".as_slice()];
    check_fault(&rt, alloc, &bad, &[], fault)
}

#[test]
fn media_at_fault(rt: HostRuntime) -> Result<(), Fail> {
    let (alloc, v1) = (rt.alloc(), V1.as_slice());
    let cut = "fmp4: 1 Truncated in mdat at 460\n";
    check_fault(&rt, alloc, &[&v1[..482]], &SAMPLES, cut)?;
    // An mdat that goes to the end of the stream must have the bytes that the runs need.
    let to_end = [&v1[..V1_MDAT], HEADER_TO_END, &v1[V1_MEDIA..482]];
    check_fault(&rt, alloc, &to_end, &SAMPLES, cut)?;
    let cut = "fmp4: 1 Truncated in (none) at 460\n";
    check_fault(&rt, alloc, &[&v1[..467]], &[], cut)?;
    // The header is longer by eight bytes, so the run begins within it.
    let long = [
        &v1[..V1_MDAT],
        b"\0\0\0\x01mdat\0\0\0\0\0\0\0\x1f".as_slice(),
        &v1[V1_MEDIA..],
    ];
    check_fault(&rt, alloc, &long, &[], "fmp4: 22 RunPlace in trun at 428\n")
}

#[test]
fn limits_of_fragments(rt: HostRuntime) -> Result<(), Fail> {
    let (alloc, v1) = (rt.alloc(), [V1.as_slice()]);
    let enough = ["fmp4", "samples", "--max-held", "65944"];
    check_words(&rt, alloc, &enough, &v1, 0, &SAMPLES, "")?;
    let enough = ["fmp4", "check", "--max-held", "65944"];
    check_words(&rt, alloc, &enough, &v1, 0, &[COUNTS], "")?;
    let over = "fmp4: over the limit\n";
    for command in ["samples", "check"] {
        let few = ["fmp4", command, "--max-held", "65943"];
        check_words(&rt, alloc, &few, &v1, 4, &[], over)?;
        let few = ["fmp4", command, "--max-held", "100"];
        check_words(&rt, alloc, &few, &v1, 4, &[], over)?;
    }
    Ok(())
}
