//! Samples in the layouts that a fragment may have, and moofs at fault. What is expected is counted by hand.

use super::check_words;
use super::fragments::{COUNTS, SAMPLES, check_fault, check_sound};
use mp4_stream::vectors::{
    V1, V1_MDAT, V1_MDHD, V1_MDIA, V1_MEDIA, V1_MINF, V1_MOOF, V1_MOOV, V1_MVEX, V1_MVHD, V1_SIZES,
    V1_TFDT, V1_TKHD, V1_TRAF, V1_TRAK, V1_TREX, V1_TRUN, V2, V3,
};
use std::test::Fail;

/// The first vector's mfhd, and the tfhd of its traf.
pub(super) const MFHD: &[u8] = b"\0\0\0\x10mfhd\0\0\0\0\0\0\0\x01";

pub(super) const TFHD: &[u8] = b"\0\0\0\x10tfhd\0\x02\0\0\0\0\0\x01";

#[test]
fn headers_and_boxes_around(rt: HostRuntime) -> Result<(), Fail> {
    let (alloc, v1) = (rt.alloc(), V1.as_slice());
    // An mdat with a long header, and the run after that.
    let long = [
        &v1[..444],
        b"\0\0\0\x70".as_slice(),
        &v1[V1_SIZES..V1_MDAT],
        b"\0\0\0\x01mdat\0\0\0\0\0\0\0\x1f",
        &v1[V1_MEDIA..],
    ];
    let lines = [
        "track=1 dts=0 cts=0 dur=1024 size=5 flags=02000000 sync desc=1 at=476\n",
        "track=1 dts=1024 cts=1024 dur=1024 size=7 flags=02000000 sync desc=1 at=481\n",
        "track=1 dts=2048 cts=2048 dur=1024 size=3 flags=02000000 sync desc=1 at=488\n",
    ];
    check_sound(&rt, alloc, &long, &lines, COUNTS)?;
    // A sidx and a box with a user type before the moof, and an mfra at the end.
    let around = [
        &v1[..V1_MOOF],
        b"\0\0\0\x34sidx".as_slice(),
        &[0; 44],
        b"\0\0\0\x1cuuid0123456789abcdef\0\0\0\0",
        &v1[V1_MOOF..],
        b"\0\0\0\x10mfra\0\0\0\0\0\0\0\0",
    ];
    let lines = [
        "track=1 dts=0 cts=0 dur=1024 size=5 flags=02000000 sync desc=1 at=548\n",
        "track=1 dts=1024 cts=1024 dur=1024 size=7 flags=02000000 sync desc=1 at=553\n",
        "track=1 dts=2048 cts=2048 dur=1024 size=3 flags=02000000 sync desc=1 at=560\n",
    ];
    check_sound(&rt, alloc, &around, &lines, COUNTS)
}

#[test]
fn free_space_in_a_moof(rt: HostRuntime) -> Result<(), Fail> {
    let (alloc, v1) = (rt.alloc(), V1.as_slice());
    let lines = [
        "track=1 dts=0 cts=0 dur=1024 size=5 flags=02000000 sync desc=1 at=476\n",
        "track=1 dts=1024 cts=1024 dur=1024 size=7 flags=02000000 sync desc=1 at=481\n",
        "track=1 dts=2048 cts=2048 dur=1024 size=3 flags=02000000 sync desc=1 at=488\n",
    ];
    for space in [b"\0\0\0\x08free", b"\0\0\0\x08skip"] {
        let stream = [
            &v1[..V1_MOOF],
            b"\0\0\0\x68moof".as_slice(),
            MFHD,
            space,
            &v1[V1_TRAF..444],
            b"\0\0\0\x70",
            &v1[V1_SIZES..],
        ];
        check_sound(&rt, alloc, &stream, &lines, COUNTS)?;
    }
    Ok(())
}

/// The second of two sample entries, and other samples than those of the trex: 500 ticks long, of 6 bytes, and no sync
/// samples.
#[test]
fn defaults_of_a_tfhd(rt: HostRuntime) -> Result<(), Fail> {
    let (alloc, v1) = (rt.alloc(), V1.as_slice());
    let (start, mvhd, tkhd, mdhd) = (
        &v1[..V1_MOOV],
        &v1[V1_MVHD..V1_TRAK],
        &v1[V1_TKHD..V1_MDIA],
        &v1[V1_MDHD..V1_MINF],
    );
    let (entry, mvex, tfdt) = (
        &v1[308..V1_MVEX],
        &v1[V1_MVEX..V1_MOOF],
        &v1[V1_TFDT..V1_TRUN],
    );
    let stream = [
        start,
        b"\0\0\x01\x68moov".as_slice(),
        mvhd,
        b"\0\0\0\xcctrak",
        tkhd,
        b"\0\0\0\x68mdia",
        mdhd,
        b"\0\0\0\x40minf\0\0\0\x38stbl\0\0\0\x30stsd\0\0\0\0\0\0\0\x02",
        entry,
        entry,
        mvex,
        b"\0\0\0\x64moof",
        MFHD,
        b"\0\0\0\x4ctraf\0\0\0\x20tfhd\0\x02\0\x3a\0\0\0\x01",
        b"\0\0\0\x02\0\0\x01\xf4\0\0\0\x06\x01\x01\0\0",
        tfdt,
        b"\0\0\0\x14trun\0\0\0\x01\0\0\0\x03\0\0\0\x6c",
        b"\0\0\0\x1amdat",
        &[0; 18],
    ];
    let lines = [
        "track=1 dts=0 cts=0 dur=500 size=6 flags=01010000 - desc=2 at=488\n",
        "track=1 dts=500 cts=500 dur=500 size=6 flags=01010000 - desc=2 at=494\n",
        "track=1 dts=1000 cts=1000 dur=500 size=6 flags=01010000 - desc=2 at=500\n",
    ];
    let counts = "fragments=1 samples=3 media=18 held=65960\n";
    check_sound(&rt, alloc, &stream, &lines, counts)
}

#[test]
fn flags_of_samples(rt: HostRuntime) -> Result<(), Fail> {
    let (alloc, v1) = (rt.alloc(), V1.as_slice());
    // The flags of the first sample are in the trun, those of the others in the trex.
    let first = [
        &v1[..360],
        b"\x01\x01\0\0\0\0\0\x64moof".as_slice(),
        MFHD,
        b"\0\0\0\x4ctraf",
        TFHD,
        &v1[V1_TFDT..V1_TRUN],
        b"\0\0\0\x24trun\0\0\x02\x05\0\0\0\x03\0\0\0\x6c\x02\0\0\0",
        &v1[V1_SIZES..],
    ];
    let lines = [
        "track=1 dts=0 cts=0 dur=1024 size=5 flags=02000000 sync desc=1 at=472\n",
        "track=1 dts=1024 cts=1024 dur=1024 size=7 flags=01010000 - desc=1 at=477\n",
        "track=1 dts=2048 cts=2048 dur=1024 size=3 flags=01010000 - desc=1 at=484\n",
    ];
    check_sound(&rt, alloc, &first, &lines, COUNTS)?;
    // They are in two places.
    let twice = [
        &v1[..V1_MOOF],
        b"\0\0\0\x70moof".as_slice(),
        MFHD,
        b"\0\0\0\x58traf",
        TFHD,
        &v1[V1_TFDT..V1_TRUN],
        b"\0\0\0\x30trun\0\0\x06\x05\0\0\0\x03\0\0\0\x78\x02\0\0\0",
        b"\0\0\0\x05\x02\0\0\0\0\0\0\x07\x02\0\0\0\0\0\0\x03\x02\0\0\0",
        &v1[V1_MDAT..],
    ];
    check_fault(
        &rt,
        alloc,
        &twice,
        &[],
        "fmp4: 17 FlagsConflict in trun at 428\n",
    )
}

#[test]
fn times_of_samples(rt: HostRuntime) -> Result<(), Fail> {
    let (alloc, v1) = (rt.alloc(), V1.as_slice());
    // Composition time offsets with a sign.
    let signed = [
        &v1[..V1_MOOF],
        b"\0\0\0\x6cmoof".as_slice(),
        MFHD,
        b"\0\0\0\x54traf",
        TFHD,
        &v1[V1_TFDT..V1_TRUN],
        b"\0\0\0\x2ctrun\x01\0\x0a\x01\0\0\0\x03\0\0\0\x74",
        b"\0\0\0\x05\xff\xff\xfe\0\0\0\0\x07\0\0\0\0\0\0\0\x03\0\0\0\0",
        &v1[V1_MDAT..],
    ];
    let lines = [
        "track=1 dts=0 cts=-512 dur=1024 size=5 flags=02000000 sync desc=1 at=480\n",
        "track=1 dts=1024 cts=1024 dur=1024 size=7 flags=02000000 sync desc=1 at=485\n",
        "track=1 dts=2048 cts=2048 dur=1024 size=3 flags=02000000 sync desc=1 at=492\n",
    ];
    check_sound(&rt, alloc, &signed, &lines, COUNTS)?;
    // A second fragment without tfdt begins where the first ended.
    let second = [
        v1,
        b"\0\0\0\x50moof".as_slice(),
        MFHD,
        b"\0\0\0\x38traf",
        TFHD,
        &v1[V1_TRUN..444],
        b"\0\0\0\x58",
        &v1[V1_SIZES..],
    ];
    let [a, b, c] = SAMPLES;
    let lines = [
        a,
        b,
        c,
        "track=1 dts=3072 cts=3072 dur=1024 size=5 flags=02000000 sync desc=1 at=571\n",
        "track=1 dts=4096 cts=4096 dur=1024 size=7 flags=02000000 sync desc=1 at=576\n",
        "track=1 dts=5120 cts=5120 dur=1024 size=3 flags=02000000 sync desc=1 at=583\n",
    ];
    let counts = "fragments=2 samples=6 media=30 held=65944\n";
    check_sound(&rt, alloc, &second, &lines, counts)
}

#[test]
fn times_to_the_last(rt: HostRuntime) -> Result<(), Fail> {
    let (alloc, v1) = (rt.alloc(), V1.as_slice());
    let (front, tfdt) = (&v1[..V1_MOOF], b"\0\0\0\x14tfdt\x01\0\0\0".as_slice());
    let (moof, traf) = (b"\0\0\0\x64moof".as_slice(), b"\0\0\0\x4ctraf".as_slice());
    let (run, after) = (&v1[V1_TRUN..444], b"\0\0\0\x6c".as_slice());
    let base = b"\xff\xff\xff\xff\xff\xff\xf3\xff".as_slice();
    let last = [
        front,
        moof,
        MFHD,
        traf,
        TFHD,
        tfdt,
        base,
        run,
        after,
        &v1[V1_SIZES..],
    ];
    let lines = [
        "track=1 dts=18446744073709548543 cts=18446744073709548543 dur=1024 size=5 flags=02000000 sync desc=1 at=472\n",
        "track=1 dts=18446744073709549567 cts=18446744073709549567 dur=1024 size=7 flags=02000000 sync desc=1 at=477\n",
        "track=1 dts=18446744073709550591 cts=18446744073709550591 dur=1024 size=3 flags=02000000 sync desc=1 at=484\n",
    ];
    check_sound(&rt, alloc, &last, &lines, COUNTS)?;
    let base = b"\xff\xff\xff\xff\xff\xff\xf4\0".as_slice();
    let late = [
        front,
        moof,
        MFHD,
        traf,
        TFHD,
        tfdt,
        base,
        run,
        after,
        &v1[V1_SIZES..],
    ];
    check_fault(
        &rt,
        alloc,
        &late,
        &[],
        "fmp4: 21 TimeRange in trun at 432\n",
    )
}

#[test]
fn counts_of_samples(rt: HostRuntime) -> Result<(), Fail> {
    let (alloc, v1) = (rt.alloc(), V1.as_slice());
    let (moof, traf) = (b"\0\0\0\x54moof".as_slice(), b"\0\0\0\x3ctraf".as_slice());
    let (front, tfdt, mdat) = (
        &v1[..V1_MOOF],
        &v1[V1_TFDT..V1_TRUN],
        b"\0\0\0\x08mdat".as_slice(),
    );
    // Samples without bytes, as many as there may be, and one more.
    let run = b"\0\0\0\x14trun\0\0\0\x01\0\x0f\x42\x40\0\0\0\x5c".as_slice();
    let most = [front, moof, MFHD, traf, TFHD, tfdt, run, mdat];
    let counts = "fragments=1 samples=1000000 media=0 held=65944\n";
    check_words(&rt, alloc, &["fmp4", "check"], &most, 0, &[counts], "")?;
    let run = b"\0\0\0\x14trun\0\0\0\x01\0\x0f\x42\x41\0\0\0\x5c".as_slice();
    let more = [front, moof, MFHD, traf, TFHD, tfdt, run, mdat];
    check_fault(
        &rt,
        alloc,
        &more,
        &[],
        "fmp4: 20 TooManySamples in trun at 428\n",
    )?;
    // A run without samples may lie anywhere.
    let run = b"\0\0\0\x14trun\0\0\x02\x01\0\0\0\0\x80\0\0\0".as_slice();
    let none = [front, moof, MFHD, traf, TFHD, tfdt, run, &v1[V1_MDAT..]];
    let counts = "fragments=1 samples=0 media=0 held=65944\n";
    check_sound(&rt, alloc, &none, &[], counts)
}

#[test]
fn runs_of_two_tracks(rt: HostRuntime) -> Result<(), Fail> {
    let (alloc, v2, v3) = (rt.alloc(), V2.as_slice(), V3.as_slice());
    let lines = [
        "track=1 dts=0 cts=0 dur=1024 size=5 flags=02000000 sync desc=1 at=756\n",
        "track=1 dts=1024 cts=1024 dur=1024 size=7 flags=02000000 sync desc=1 at=761\n",
        "track=1 dts=2048 cts=2048 dur=1024 size=3 flags=02000000 sync desc=1 at=768\n",
        "track=2 dts=0 cts=0 dur=1024 size=4 flags=02000000 sync desc=1 at=771\n",
        "track=2 dts=1024 cts=1024 dur=1024 size=4 flags=02000000 sync desc=1 at=775\n",
    ];
    let counts = "fragments=1 samples=5 media=23 held=66228\n";
    check_sound(&rt, alloc, &[v2], &lines, counts)?;
    // The second run begins a byte too soon.
    let shared = [&v2[..736], b"\0\0\0\xba".as_slice(), &v2[740..]];
    check_fault(
        &rt,
        alloc,
        &shared,
        &[],
        "fmp4: 22 RunPlace in trun at 720\n",
    )?;
    // Runs that lie in turn are listed by place.
    let lines = [
        "track=1 dts=0 cts=0 dur=1024 size=5 flags=02000000 sync desc=1 at=792\n",
        "track=2 dts=0 cts=0 dur=1024 size=4 flags=02000000 sync desc=1 at=797\n",
        "track=1 dts=1024 cts=1024 dur=1024 size=7 flags=02000000 sync desc=1 at=801\n",
        "track=2 dts=1024 cts=1024 dur=1024 size=4 flags=02000000 sync desc=1 at=808\n",
    ];
    let counts = "fragments=1 samples=4 media=20 held=66228\n";
    check_sound(&rt, alloc, &[v3], &lines, counts)?;
    let shared = [&v3[..752], b"\0\0\0\xd4".as_slice(), &v3[756..]];
    check_fault(
        &rt,
        alloc,
        &shared,
        &[],
        "fmp4: 22 RunPlace in trun at 736\n",
    )?;
    // The second run of a track lies before its first.
    let turned = [
        &v3[..752],
        b"\0\0\0\xe0".as_slice(),
        &v3[756..776],
        b"\0\0\0\xd5",
        &v3[780..],
    ];
    check_fault(
        &rt,
        alloc,
        &turned,
        &[],
        "fmp4: 22 RunPlace in trun at 760\n",
    )
}

#[test]
fn trees_at_fault(rt: HostRuntime) -> Result<(), Fail> {
    let (alloc, v1) = (rt.alloc(), V1.as_slice());
    let large = [&v1[..V1_MOOF], b"\x04\0\0\x01moof".as_slice()];
    check_fault(&rt, alloc, &large, &[], "fmp4: 7 TooLarge in moof at 364\n")?;
    let past = [&v1[..V1_TREX], b"\0\0\0\x21".as_slice(), &v1[336..]];
    check_fault(&rt, alloc, &past, &[], "fmp4: 2 BadSize in trex at 332\n")?;
    let seven = b"\0\0\0\x38trak\0\0\0\x30trak\0\0\0\x28trak\0\0\0\x20trak\
        \0\0\0\x18trak\0\0\0\x10trak\0\0\0\x08trak"
        .as_slice();
    let shallow = [b"\0\0\0\x40moov".as_slice(), seven];
    check_fault(&rt, alloc, &shallow, &[], "fmp4: 9 Missing in moov at 0\n")?;
    let eight = b"\0\0\0\x40trak\0\0\0\x38trak\0\0\0\x30trak\0\0\0\x28trak\
        \0\0\0\x20trak\0\0\0\x18trak\0\0\0\x10trak\0\0\0\x08trak"
        .as_slice();
    let deep = [b"\0\0\0\x48moov".as_slice(), eight];
    check_fault(&rt, alloc, &deep, &[], "fmp4: 8 Depth in trak at 64\n")
}
