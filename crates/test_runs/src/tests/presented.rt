//! What lines and records say of when samples are presented, of gaps between fragments, and of handlers and sample
//! entries.

use super::check_words;
use super::trafs::check_records;
use mp4_stream::vectors::{
    V1, V1_MDAT, V1_MDHD, V1_MDIA, V1_MINF, V1_MOOF, V1_MOOV, V1_MVEX, V1_MVHD, V1_TKHD, V1_TRAK,
};
use std::test::Fail;

const WORDS: [&str; 2] = ["fmp4", "fragments"];

/// Three samples of 1,024 ticks from tick 0 on, with signed composition time offsets: 2,048, -3,000 and -1,024. Only the
/// first is a sync sample.
const SIGNED: &[u8; 120] = b"\
    \0\0\0\x78moof\
    \0\0\0\x10mfhd\0\0\0\0\0\0\0\x01\
    \0\0\0\x60traf\
    \0\0\0\x10tfhd\0\x02\0\0\0\0\0\x01\
    \0\0\0\x10tfdt\0\0\0\0\0\0\0\0\
    \0\0\0\x38trun\x01\0\x0e\x01\0\0\0\x03\0\0\0\x80\
    \0\0\0\x05\x02\0\0\0\0\0\x08\0\
    \0\0\0\x07\x01\x01\0\0\xff\xff\xf4\x48\
    \0\0\0\x03\x01\x01\0\0\xff\xff\xfc\0";

/// Three samples from tick 2,072 on, 1,000 before the track's end, with unsigned offsets: 2^32 - 1, 5,000 and 0. The
/// second is no sync sample.
const UNSIGNED: &[u8; 120] = b"\
    \0\0\0\x78moof\
    \0\0\0\x10mfhd\0\0\0\0\0\0\0\x02\
    \0\0\0\x60traf\
    \0\0\0\x10tfhd\0\x02\0\0\0\0\0\x01\
    \0\0\0\x10tfdt\0\0\0\0\0\0\x08\x18\
    \0\0\0\x38trun\0\0\x0e\x01\0\0\0\x03\0\0\0\x80\
    \0\0\0\x05\x02\0\0\0\xff\xff\xff\xff\
    \0\0\0\x07\x01\x01\0\0\0\0\x13\x88\
    \0\0\0\x03\x02\0\0\0\0\0\0\0";

/// A run of two samples from tick 4,096 on, with the offsets 512 and -2,048, and a run of one, with -4,096. The first is
/// no sync sample.
const TWO_RUNS: &[u8; 140] = b"\
    \0\0\0\x8cmoof\
    \0\0\0\x10mfhd\0\0\0\0\0\0\0\x03\
    \0\0\0\x74traf\
    \0\0\0\x10tfhd\0\x02\0\0\0\0\0\x01\
    \0\0\0\x10tfdt\0\0\0\0\0\0\x10\0\
    \0\0\0\x2ctrun\x01\0\x0e\x01\0\0\0\x02\0\0\0\x94\
    \0\0\0\x05\x01\x01\0\0\0\0\x02\0\
    \0\0\0\x07\x02\0\0\0\xff\xff\xf8\0\
    \0\0\0\x20trun\x01\0\x0e\x01\0\0\0\x01\0\0\0\xa0\
    \0\0\0\x03\x02\0\0\0\xff\xff\xf0\0";

/// The three fragments, each with the mdat of the vector.
fn fragments<'a>() -> [&'a [u8]; 7] {
    let v1 = V1.as_slice();
    let mdat = &v1[V1_MDAT..];
    [
        &v1[..V1_MOOF],
        SIGNED.as_slice(),
        mdat,
        UNSIGNED.as_slice(),
        mdat,
        TWO_RUNS.as_slice(),
        mdat,
    ]
}

#[test]
fn lines_of_presented_samples(rt: HostRuntime) -> Result<(), Fail> {
    let alloc = rt.alloc();
    let lines = [
        "track=1 timescale=48000 entries=1 handler=???? types=mp4a\n",
        "fragment=1 at=364 size=143 track=1 dts=0 dur=3072 samples=3 sync=yes media=15",
        " pts=-1976 syncs=1 gap=0\n",
        "fragment=2 at=507 size=143 track=1 dts=2072 dur=3072 samples=3 sync=yes media=15",
        " pts=4120 syncs=2 gap=-1000\n",
        "fragment=3 at=650 size=163 track=1 dts=4096 dur=3072 samples=3 sync=no media=15",
        " pts=2048 syncs=2 gap=-1048\n",
    ];
    check_words(&rt, alloc, &WORDS, &fragments(), 0, &lines, "")
}

#[test]
fn records_of_presented_samples(rt: HostRuntime) -> Result<(), Fail> {
    let alloc = rt.alloc();
    let records = [
        b"\0\0\0\0\0\0\x01\x6c\0\0\0\0\0\0\0\x8f".as_slice(),
        b"\0\0\0\0\0\0\0\0\0\0\0\0\0\0\x0c\0\0\0\0\0\0\0\0\x0f",
        b"\0\0\0\x01\0\0\0\x01\0\0\xbb\x80\0\0\0\x03\0\0\0\x01\0\0\0\x01",
        b"\0\0\0\0\0\0\0\0\xff\xff\xff\xff\xff\xff\xf8\x48\0\0\0\0\0\0\0\x01",
        b"\0\0\0\0\0\0\x01\xfb\0\0\0\0\0\0\0\x8f",
        b"\0\0\0\0\0\0\x08\x18\0\0\0\0\0\0\x0c\0\0\0\0\0\0\0\0\x0f",
        b"\0\0\0\x02\0\0\0\x01\0\0\xbb\x80\0\0\0\x03\0\0\0\x01\0\0\0\x02",
        b"\0\0\0\0\0\0\x0c\0\0\0\0\0\0\0\x08\0\0\0\0\0\0\0\0\x01",
        b"\0\0\0\0\0\0\x02\x8a\0\0\0\0\0\0\0\xa3",
        b"\0\0\0\0\0\0\x10\0\0\0\0\0\0\0\x0c\0\0\0\0\0\0\0\0\x0f",
        b"\0\0\0\x03\0\0\0\x01\0\0\xbb\x80\0\0\0\x03\0\0\0\0\0\0\0\x02",
        b"\0\0\0\0\0\0\x14\x18\xff\xff\xff\xff\xff\xff\xf8\0\0\0\0\0\0\0\0\x01",
    ];
    check_records(&rt, alloc, &fragments(), &records)
}

/// A moov whose track has an hdlr, and an stsd with two sample entries, of which it counts so many.
fn with_handler<'a>(hdlr: &'a [u8], counted: &'a [u8]) -> [&'a [u8]; 12] {
    let v1 = V1.as_slice();
    [
        &v1[..V1_MOOV],
        b"\0\0\x01\x88moov".as_slice(),
        &v1[V1_MVHD..V1_TRAK],
        b"\0\0\0\xectrak".as_slice(),
        &v1[V1_TKHD..V1_MDIA],
        b"\0\0\0\x88mdia".as_slice(),
        &v1[V1_MDHD..V1_MINF],
        hdlr,
        b"\0\0\0\x40minf\0\0\0\x38stbl\0\0\0\x30stsd\0\0\0\0".as_slice(),
        counted,
        b"\0\0\0\x10avc1\0\0\0\0\0\0\0\x01\0\0\0\x10\0, ~\0\0\0\0\0\0\0\x01".as_slice(),
        &v1[V1_MVEX..],
    ]
}

const VIDEO: &[u8] = b"\0\0\0\x20hdlr\0\0\0\0\0\0\0\0vide\0\0\0\0\0\0\0\0\0\0\0\0";

/// Its handler_type isn't all there.
const SHORT: &[u8] = b"\0\0\0\x13hdlr\0\0\0\0\0\0\0\0vid\0\0\0\x0dfree\0\0\0\0\0";

#[test]
fn lines_of_handlers_and_entries(rt: HostRuntime) -> Result<(), Fail> {
    let alloc = rt.alloc();
    let line =
        "fragment=1 at=412 size=119 track=1 dts=0 dur=3072 samples=3 sync=yes media=15 pts=0 syncs=3 gap=0\n";
    let two = with_handler(VIDEO, b"\0\0\0\x02");
    let track = "track=1 timescale=48000 entries=2 handler=vide types=avc1,???~\n";
    check_words(&rt, alloc, &WORDS, &two, 0, &[track, line], "")?;
    let one = with_handler(VIDEO, b"\0\0\0\x01");
    let track = "track=1 timescale=48000 entries=1 handler=vide types=avc1\n";
    check_words(&rt, alloc, &WORDS, &one, 0, &[track, line], "")?;
    // A handler_type that isn't all there.
    let short = with_handler(SHORT, b"\0\0\0\x02");
    let track = "track=1 timescale=48000 entries=2 handler=???? types=avc1,???~\n";
    check_words(&rt, alloc, &WORDS, &short, 0, &[track, line], "")
}

#[test]
fn records_of_handlers_and_entries(rt: HostRuntime) -> Result<(), Fail> {
    let alloc = rt.alloc();
    let record = [
        b"\0\0\0\0\0\0\x01\x9c\0\0\0\0\0\0\0\x77".as_slice(),
        b"\0\0\0\0\0\0\0\0\0\0\0\0\0\0\x0c\0\0\0\0\0\0\0\0\x0f",
        b"\0\0\0\x01\0\0\0\x01\0\0\xbb\x80\0\0\0\x03\0\0\0\x01\0\0\0\x03",
        [0; 16].as_slice(),
    ];
    let [place, times, samples, shown] = record;
    let two = with_handler(VIDEO, b"\0\0\0\x02");
    let video = b"vide\0\0\0\x02".as_slice();
    check_records(&rt, alloc, &two, &[place, times, samples, shown, video])?;
    let short = with_handler(SHORT, b"\0\0\0\x02");
    let none = b"\0\0\0\0\0\0\0\x02".as_slice();
    check_records(&rt, alloc, &short, &[place, times, samples, shown, none])
}
