//! Trafs that are listed by lines and by records. The numbers of the two tracks of a stream differ.

ghost use Rattle.std.specs.Prelude.{◌≡◌, ◌<◌, ◌≤◌};
ghost use Rattle.mp4_stream.specs.Feeders.{held_by};

use super::{check_words, joined};
use mp4_stream::ends::ToVec;
use mp4_stream::vectors::{
    V1, V1_MDAT, V1_MDHD, V1_MDIA, V1_MINF, V1_MOOF, V1_MOOV, V1_MVEX, V1_MVHD, V1_TFDT, V1_TFHD,
    V1_TKHD, V1_TRAK, V2,
};
use mp4_stream::{Command, Feeder, Ledger, Operation, Stop, Totals};
use std::alloc::Global;
use std::process::Abort;
use std::test::Fail;

const WORDS: [&str; 2] = ["fmp4", "fragments"];

/// The ftyp and the moov of the second vector, with 90,000 ticks a second for track 2.
fn front_of_two<'a>() -> [&'a [u8]; 3] {
    let v2 = V2.as_slice();
    [&v2[..452], b"\0\x01\x5f\x90".as_slice(), &v2[456..584]]
}

/// A moof with track 2 first, from tick 2^32 + 5 on, with samples of 6 and 9 bytes that last 3,000 and 2^32 - 1 ticks,
/// of which the first is a sync sample; then track 1 from tick 4,096 on, with samples of 1, 2 and 4 bytes, of which the
/// first is none.
const MOOF: &[u8; 188] = b"\
    \0\0\0\xbcmoof\
    \0\0\0\x10mfhd\0\0\0\0\0\0\0\x07\
    \0\0\0\x58traf\
    \0\0\0\x10tfhd\0\x02\0\0\0\0\0\x02\
    \0\0\0\x14tfdt\x01\0\0\0\0\0\0\x01\0\0\0\x05\
    \0\0\0\x2ctrun\0\0\x07\x01\0\0\0\x02\0\0\0\xc4\
    \0\0\x0b\xb8\0\0\0\x06\x02\0\0\0\
    \xff\xff\xff\xff\0\0\0\x09\x01\x01\0\0\
    \0\0\0\x4ctraf\
    \0\0\0\x10tfhd\0\x02\0\0\0\0\0\x01\
    \0\0\0\x10tfdt\0\0\0\0\0\0\x10\0\
    \0\0\0\x24trun\0\0\x02\x05\0\0\0\x03\0\0\0\xd3\x01\x01\0\0\
    \0\0\0\x01\0\0\0\x02\0\0\0\x04";

/// Its media, all that the two runs have.
const MEDIA: &[u8; 22] = b"\
    \x01\x02\x03\x04\x05\x06\x07\x08\x09\x0a\x0b\x0c\x0d\x0e\x0f\
    \x21\x22\x23\x24\x25\x26\x27";

/// The header of their mdat: with its size, and up to the end of the stream.
const SIZED: &[u8] = b"\0\0\0\x1emdat";

const TO_END: &[u8] = b"\0\0\0\0mdat";

/// The stream with this header of its mdat.
fn muxed<'a>(header: &'a [u8]) -> [&'a [u8]; 6] {
    let [before, timescale, after] = front_of_two();
    [
        before,
        timescale,
        after,
        MOOF.as_slice(),
        header,
        MEDIA.as_slice(),
    ]
}

#[test]
fn lines_of_two_tracks(rt: HostRuntime) -> Result<(), Fail> {
    let alloc = rt.alloc();
    let tracks = [
        "track=1 timescale=48000 entries=1 handler=???? types=mp4a\n",
        "track=2 timescale=90000 entries=1 handler=???? types=mp4a\n",
    ];
    let lines = [
        tracks[0],
        tracks[1],
        "fragment=7 at=584 size=218 track=2 dts=4294967301 dur=4294970295 samples=2 sync=yes media=15",
        " pts=4294967301 syncs=1 gap=4294967301\n",
        "fragment=7 at=584 size=218 track=1 dts=4096 dur=3072 samples=3 sync=no media=7 pts=4096 syncs=2 gap=4096\n",
    ];
    check_words(&rt, alloc, &WORDS, &muxed(SIZED), 0, &lines, "")?;
    let lines = [
        tracks[0],
        tracks[1],
        "fragment=7 at=584 size=end track=2 dts=4294967301 dur=4294970295 samples=2 sync=yes media=15",
        " pts=4294967301 syncs=1 gap=4294967301\n",
        "fragment=7 at=584 size=end track=1 dts=4096 dur=3072 samples=3 sync=no media=7 pts=4096 syncs=2 gap=4096\n",
    ];
    check_words(&rt, alloc, &WORDS, &muxed(TO_END), 0, &lines, "")
}

#[test]
fn lines_of_one_track(rt: HostRuntime) -> Result<(), Fail> {
    let (alloc, v1) = (rt.alloc(), V1.as_slice());
    let track = "track=1 timescale=48000 entries=1 handler=???? types=mp4a\n";
    // A tfdt of version 1.
    let long_time = [
        &v1[..V1_MOOF],
        b"\0\0\0\x64moof\0\0\0\x10mfhd\0\0\0\0\0\0\0\x01\0\0\0\x4ctraf".as_slice(),
        &v1[V1_TFHD..V1_TFDT],
        b"\0\0\0\x14tfdt\x01\0\0\0\0\0\0\x01\0\0\0\x05",
        b"\0\0\0\x20trun\0\0\x02\x01\0\0\0\x03\0\0\0\x6c\0\0\0\x05\0\0\0\x07\0\0\0\x03",
        &v1[V1_MDAT..],
    ];
    let lines = [
        track,
        "fragment=1 at=364 size=123 track=1 dts=4294967301 dur=3072 samples=3 sync=yes media=15",
        " pts=4294967301 syncs=3 gap=4294967301\n",
    ];
    check_words(&rt, alloc, &WORDS, &long_time, 0, &lines, "")?;
    // A traf without samples.
    let no_sample = [
        &v1[..V1_MOOF],
        b"\0\0\0\x40moof\0\0\0\x10mfhd\0\0\0\0\0\0\0\x08\0\0\0\x28traf".as_slice(),
        &v1[V1_TFHD..V1_TFDT],
        b"\0\0\0\x10tfdt\0\0\0\0\0\0\x10\0",
        b"\0\0\0\x08mdat",
    ];
    let line =
        "fragment=8 at=364 size=72 track=1 dts=4096 dur=0 samples=0 sync=no media=0 pts=4096 syncs=0 gap=4096\n";
    check_words(&rt, alloc, &WORDS, &no_sample, 0, &[track, line], "")?;
    // Two sample entries, of which the trex names the first.
    let two_entries = [
        &v1[..V1_MOOV],
        b"\0\0\x01\x68moov".as_slice(),
        &v1[V1_MVHD..V1_TRAK],
        b"\0\0\0\xcctrak",
        &v1[V1_TKHD..V1_MDIA],
        b"\0\0\0\x68mdia",
        &v1[V1_MDHD..V1_MINF],
        b"\0\0\0\x40minf\0\0\0\x38stbl\0\0\0\x30stsd\0\0\0\0\0\0\0\x02",
        b"\0\0\0\x10mp4a\0\0\0\0\0\0\0\x01\0\0\0\x10mp4a\0\0\0\0\0\0\0\x01",
        &v1[V1_MVEX..],
    ];
    let track = "track=1 timescale=48000 entries=2 handler=???? types=mp4a,mp4a\n";
    let line =
        "fragment=1 at=380 size=119 track=1 dts=0 dur=3072 samples=3 sync=yes media=15 pts=0 syncs=3 gap=0\n";
    check_words(&rt, alloc, &WORDS, &two_entries, 0, &[track, line], "")
}

/// A Feeder that lists trafs by records, the ledger that serves it, and what it writes to.
struct Recorded {
    feeder: Feeder,
    ledger: Ledger,
    w: ToVec,
    ghost claim: { held_by feeder ≤ ledger.live },
}

impl Recorded {
    fn new(alloc: Global) -> Result<Recorded, Fail> {
        let w = ToVec::new(alloc, 1000, 1000, true)?;
        Ok(Recorded {
            feeder: Feeder::with_operation(Operation::List(Command::Records)),
            ledger: Ledger::new(alloc, 1 << 20),
            w,
        })
    }

    /// Pushes these bytes in as one input.
    fn push(&mut self, input: &[u8]) -> Result<(), Stop> {
        self.feeder.feed(&mut self.ledger, input, &mut self.w)
    }

    /// And so many at once.
    fn push_by(&mut self, step: usize, bytes: &[u8]) -> Result<(), Stop>
        requires { 0 < step }
    {
        for input in bytes.chunks(step) {
            self.push(input)?;
        }
        Ok(())
    }

    /// The stream ended: the answer, and how much is claimed then.
    fn finish(self) -> (Result<Totals, Stop>, u64) {
        let Recorded {
            feeder,
            ledger,
            w: _,
        } = self;
        let mut ledger = ledger;
        let answer = feeder.finish(&mut ledger);
        (answer, ledger.live())
    }
}

/// A stream whose records are these, by inputs of one byte, of seven, and of all.
pub(super) fn check_records(
    rt: &impl Abort,
    alloc: Global,
    parts: &[&[u8]],
    records: &[&[u8]],
) -> Result<(), Fail> {
    let (input, all) = (joined(alloc, parts)?, joined(alloc, records)?);
    for step in [1, 7, 4096] {
        let mut recorded = Recorded::new(alloc)?;
        assert_eq!(rt; recorded.push_by(step, &input), Ok(()), "by {step} bytes");
        assert_eq!(rt; recorded.w.bytes(), all.as_slice(), "by {step} bytes");
        let (answer, live) = recorded.finish();
        assert_eq!(rt; (answer.is_ok(), live), (true, 0), "by {step} bytes");
    }
    Ok(())
}

#[test]
fn records_of_two_tracks(rt: HostRuntime) -> Result<(), Fail> {
    let alloc = rt.alloc();
    // The offset of the moof and the size; time, duration and media; sequence_number, track_ID, timescale and samples,
    // whether the first is a sync sample, and how many are; when the track ended before, how long after its base time
    // the first of the samples is presented; and of the track the handler and how many sample entries it has.
    let rest = b"\0\0\0\0\0\0\0\0\0\0\0\0\0\0\0\0\0\0\0\0\0\0\0\x01".as_slice();
    let sized = [
        b"\0\0\0\0\0\0\x02\x48\0\0\0\0\0\0\0\xda".as_slice(),
        b"\0\0\0\x01\0\0\0\x05\0\0\0\x01\0\0\x0b\xb7\0\0\0\0\0\0\0\x0f",
        b"\0\0\0\x07\0\0\0\x02\0\x01\x5f\x90\0\0\0\x02\0\0\0\x01\0\0\0\x01",
        rest,
        b"\0\0\0\0\0\0\x02\x48\0\0\0\0\0\0\0\xda",
        b"\0\0\0\0\0\0\x10\0\0\0\0\0\0\0\x0c\0\0\0\0\0\0\0\0\x07",
        b"\0\0\0\x07\0\0\0\x01\0\0\xbb\x80\0\0\0\x03\0\0\0\0\0\0\0\x02",
        rest,
    ];
    check_records(&rt, alloc, &muxed(SIZED), &sized)?;
    let place = b"\0\0\0\0\0\0\x02\x48\xff\xff\xff\xff\xff\xff\xff\xff".as_slice();
    let to_end = [
        place, sized[1], sized[2], rest, place, sized[5], sized[6], rest,
    ];
    check_records(&rt, alloc, &muxed(TO_END), &to_end)
}

#[test]
fn records_of_one_track(rt: HostRuntime) -> Result<(), Fail> {
    let (alloc, v1) = (rt.alloc(), V1.as_slice());
    let first = b"\
        \0\0\0\0\0\0\x01\x6c\0\0\0\0\0\0\0\x77\
        \0\0\0\0\0\0\0\0\0\0\0\0\0\0\x0c\0\0\0\0\0\0\0\0\x0f\
        \0\0\0\x01\0\0\0\x01\0\0\xbb\x80\0\0\0\x03\0\0\0\x01\0\0\0\x03\
        \0\0\0\0\0\0\0\0\0\0\0\0\0\0\0\0\
        \0\0\0\0\0\0\0\x01"
        .as_slice();
    check_records(&rt, alloc, &[v1], &[first])?;
    // The same moof and mdat once more, without a tfdt: it begins where the track ended.
    let no_time = [
        v1,
        b"\0\0\0\x50moof\0\0\0\x10mfhd\0\0\0\0\0\0\0\x02\0\0\0\x38traf".as_slice(),
        &v1[V1_TFHD..V1_TFDT],
        b"\0\0\0\x20trun\0\0\x02\x01\0\0\0\x03\0\0\0\x58\0\0\0\x05\0\0\0\x07\0\0\0\x03",
        &v1[V1_MDAT..],
    ];
    let second = b"\
        \0\0\0\0\0\0\x01\xe3\0\0\0\0\0\0\0\x67\
        \0\0\0\0\0\0\x0c\0\0\0\0\0\0\0\x0c\0\0\0\0\0\0\0\0\x0f\
        \0\0\0\x02\0\0\0\x01\0\0\xbb\x80\0\0\0\x03\0\0\0\x01\0\0\0\x03\
        \0\0\0\0\0\0\x0c\0\0\0\0\0\0\0\0\0\
        \0\0\0\0\0\0\0\x01"
        .as_slice();
    check_records(&rt, alloc, &no_time, &[first, second])?;
    check_records(&rt, alloc, &[], &[])
}
