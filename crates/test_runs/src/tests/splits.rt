//! Fragments that are cut into shorter ones. What must be written is laid out by hand.

use super::layouts::{MFHD, TFHD};
use super::wanted::{OTHER, SYNC, Wanted, lasting, piece_at, push_fragment, recut};
use super::{check_bytes, check_words, joined};
use mp4_stream::vectors::{
    V1, V1_MDAT, V1_MEDIA, V1_MOOF, V1_MOOV, V1_SECOND_SAMPLE, V1_SIZES, V1_TFDT, V1_THIRD_SAMPLE,
    V1_TREX, V1_TRUN, V2, V3,
};
use std::alloc::{AllocError, Global};
use std::process::Abort;
use std::test::Fail;

pub(super) const BY_TWO: [&str; 2] = ["--samples", "2"];

/// Runs `split` with these options on a stream: its status, what it writes and its line of a fault must be these.
pub(super) fn check_split(
    rt: &impl Abort,
    alloc: Global,
    options: &[&str],
    parts: &[&[u8]],
    status: u8,
    written: &[u8],
    fault: &str,
) -> Result<(), Fail> {
    let mut words = Vec::new(alloc);
    words.extend_from_slice(&["fmp4", "split"])?;
    words.extend_from_slice(options)?;
    check_bytes(rt, alloc, &words, parts, status, written, fault)
}

/// A success.
pub(super) fn check_good(
    rt: &impl Abort,
    alloc: Global,
    options: &[&str],
    parts: &[&[u8]],
    written: &[u8],
) -> Result<(), Fail> {
    check_split(rt, alloc, options, parts, 0, written, "")
}

/// A stream at fault, by two samples a fragment.
pub(super) fn check_bad(
    rt: &impl Abort,
    alloc: Global,
    parts: &[&[u8]],
    written: &[u8],
    fault: &str,
) -> Result<(), Fail> {
    check_split(rt, alloc, &BY_TWO, parts, 2, written, fault)
}

/// The fragments of the first vector by two samples each, after these bytes.
fn two_after(alloc: Global, front: &[&[u8]]) -> Result<Vec<u8>, AllocError> {
    let v1 = V1.as_slice();
    let fragments = [
        piece_at(
            1,
            0,
            &[[5, SYNC], [7, SYNC]],
            &v1[V1_MEDIA..V1_THIRD_SAMPLE],
        ),
        piece_at(2, 2048, &[[3, SYNC]], &v1[V1_THIRD_SAMPLE..]),
    ];
    recut(alloc, front, &fragments)
}

/// The first vector by two samples a fragment.
pub(super) fn by_two(alloc: Global) -> Result<Vec<u8>, AllocError> {
    two_after(alloc, &[&V1.as_slice()[..V1_MOOF]])
}

/// And by one.
fn by_one(alloc: Global) -> Result<Vec<u8>, AllocError> {
    let v1 = V1.as_slice();
    let fragments = [
        piece_at(1, 0, &[[5, SYNC]], &v1[V1_MEDIA..V1_SECOND_SAMPLE]),
        piece_at(
            2,
            1024,
            &[[7, SYNC]],
            &v1[V1_SECOND_SAMPLE..V1_THIRD_SAMPLE],
        ),
        piece_at(3, 2048, &[[3, SYNC]], &v1[V1_THIRD_SAMPLE..]),
    ];
    recut(alloc, &[&v1[..V1_MOOF]], &fragments)
}

#[test]
fn pieces(rt: HostRuntime) -> Result<(), Fail> {
    let (alloc, v1) = (rt.alloc(), V1.as_slice());
    let (two, one) = (by_two(alloc)?, by_one(alloc)?);
    let after = [
        piece_at(1, 0, &[[5, SYNC]], &v1[V1_MEDIA..V1_SECOND_SAMPLE]),
        piece_at(2, 1024, &[[7, SYNC], [3, SYNC]], &v1[V1_SECOND_SAMPLE..]),
    ];
    let after = recut(alloc, &[&v1[..V1_MOOF]], &after)?;
    let (v1, again) = ([v1], [two.as_slice()]);
    check_good(&rt, alloc, &BY_TWO, &v1, &two)?;
    check_good(&rt, alloc, &["--samples", "9", "--bytes", "12"], &v1, &two)?;
    check_good(
        &rt,
        alloc,
        &["--samples", "9", "--bytes", "10"],
        &v1,
        &after,
    )?;
    check_good(&rt, alloc, &["--samples", "9", "--bytes", "9"], &v1, &one)?;
    // A sample with more bytes is a fragment by itself.
    check_good(&rt, alloc, &["--samples", "9", "--bytes", "4"], &v1, &one)?;
    check_good(&rt, alloc, &["--samples", "9", "--sync"], &v1, &one)?;
    check_good(&rt, alloc, &BY_TWO, &again, &two)
}

#[test]
fn indexes(rt: HostRuntime) -> Result<(), Fail> {
    let (alloc, v1, v2) = (rt.alloc(), V1.as_slice(), V2.as_slice());
    let two = by_two(alloc)?;
    // Two references, of 144 bytes and 119.
    let sidx =
        b"\0\0\0\x40sidx\x01\0\0\0\0\0\0\x01\0\0\xbb\x80\0\0\0\0\0\0\0\0\0\0\0\0\0\0\0\0\0\0\0\x02\
        \0\0\0\x90\0\0\x08\0\0\0\0\0\0\0\0\x77\0\0\x04\0\0\0\0\0"
            .as_slice();
    let indexed = two_after(alloc, &[&v1[..V1_MOOF], sidx])?;
    // One of 140 bytes comes before the fragment of the second track.
    let second =
        b"\0\0\0\x34sidx\x01\0\0\0\0\0\0\x02\0\0\xbb\x80\0\0\0\0\0\0\0\0\0\0\0\0\0\0\0\0\0\0\0\x01\
        \0\0\0\x8c\0\0\x08\0\0\0\0\0"
            .as_slice();
    let mut tracks = two_after(alloc, &[&v2[..584], sidx])?;
    tracks.extend_from_slice(second)?;
    let last = Wanted {
        track: 2,
        ..piece_at(3, 0, &[[4, SYNC], [4, SYNC]], &v2[771..])
    };
    push_fragment(&mut tracks, &last)?;
    let (v1, v2, again) = ([v1], [v2], [indexed.as_slice()]);
    check_good(&rt, alloc, &["--samples", "2", "--index"], &v1, &indexed)?;
    check_good(&rt, alloc, &["--samples", "2", "--index"], &v2, &tracks)?;
    check_good(&rt, alloc, &BY_TWO, &again, &two)?;
    let counts = "fragments=2 samples=3 media=15 held=65944\n";
    check_words(&rt, alloc, &["fmp4", "check"], &again, 0, &[counts], "")
}

#[test]
fn fields_of_an_index(rt: HostRuntime) -> Result<(), Fail> {
    let (alloc, v1) = (rt.alloc(), V1.as_slice());
    let front = [
        &v1[..352],
        b"\xff\xff\xff\xff".as_slice(),
        &v1[356..V1_MOOF],
    ];
    let sidx =
        b"\0\0\0\x4csidx\x01\0\0\0\0\0\0\x01\0\0\xbb\x80\0\0\0\0\0\0\0\0\0\0\0\0\0\0\0\0\0\0\0\x03\
        \0\0\0\x79\xff\xff\xff\xff\0\0\0\0\0\0\0\x7b\xff\xff\xff\xff\0\0\0\0\
        \0\0\0\x77\xff\xff\xff\xff\0\0\0\0"
            .as_slice();
    let fragments = [
        lasting(piece_at(1, 0, &[[5, SYNC]], &v1[V1_MEDIA..V1_SECOND_SAMPLE])),
        lasting(piece_at(
            2,
            0xffff_ffff,
            &[[7, SYNC]],
            &v1[V1_SECOND_SAMPLE..V1_THIRD_SAMPLE],
        )),
        lasting(piece_at(3, 0x1_ffff_fffe, &[[3, SYNC]], &v1[V1_THIRD_SAMPLE..])),
    ];
    let written = joined(alloc, &front)?;
    let indexed = recut(alloc, &[front[0], front[1], front[2], sidx], &fragments)?;
    let slow = [&v1[..352], b"\xff\xff\xff\xff".as_slice(), &v1[356..]];
    // The first sample is shown before time 0.
    let early = [
        &v1[..V1_MOOF],
        b"\0\0\0\x6cmoof".as_slice(),
        MFHD,
        b"\0\0\0\x54traf",
        TFHD,
        &v1[V1_TFDT..V1_TRUN],
        b"\0\0\0\x2ctrun\x01\0\x0a\x01\0\0\0\x03\0\0\0\x74",
        b"\0\0\0\x05\xff\xff\xfe\0\0\0\0\x07\0\0\0\0\0\0\0\x03\0\0\0\0",
        &v1[V1_MDAT..],
    ];
    let fault = "fmp4: 23 IndexRange in trun at 428\n";
    let two = ["--samples", "2", "--index"];
    check_good(&rt, alloc, &["--samples", "1", "--index"], &slow, &indexed)?;
    check_split(&rt, alloc, &two, &slow, 2, &written, fault)?;
    check_split(&rt, alloc, &two, &early, 2, &v1[..V1_MOOF], fault)
}

#[test]
fn boxes_around_fragments(rt: HostRuntime) -> Result<(), Fail> {
    let (alloc, v1) = (rt.alloc(), V1.as_slice());
    let two = by_two(alloc)?;
    let to_end = [&v1[..V1_MDAT], b"\0\0\0\0mdat".as_slice(), &v1[V1_MEDIA..]];
    let long = [
        &v1[..444],
        b"\0\0\0\x70".as_slice(),
        &v1[V1_SIZES..V1_MDAT],
        b"\0\0\0\x01mdat\0\0\0\0\0\0\0\x1f",
        &v1[V1_MEDIA..],
    ];
    let more = [
        &v1[..V1_MDAT],
        b"\0\0\0\x1cmdat".as_slice(),
        &v1[V1_MEDIA..],
        b"more.",
    ];
    let user = b"\0\0\0\x1cuuid0123456789abcdef\0\0\0\0".as_slice();
    let around = [
        &v1[..V1_MOOF],
        b"\0\0\0\x34sidx".as_slice(),
        &[0; 44],
        user,
        &v1[V1_MOOF..],
        b"\0\0\0\x10mfra\0\0\0\0\0\0\0\0",
    ];
    let kept = two_after(alloc, &[&v1[..V1_MOOF], user])?;
    // A run without samples gives no fragment.
    let none = [
        &v1[..V1_MOOF],
        b"\0\0\0\x54moof".as_slice(),
        MFHD,
        b"\0\0\0\x3ctraf",
        TFHD,
        &v1[V1_TFDT..V1_TRUN],
        b"\0\0\0\x14trun\0\0\x02\x01\0\0\0\0\x80\0\0\0",
        &v1[V1_MDAT..],
    ];
    check_good(&rt, alloc, &BY_TWO, &[], b"")?;
    check_good(&rt, alloc, &BY_TWO, &to_end, &two)?;
    check_good(&rt, alloc, &BY_TWO, &long, &two)?;
    check_good(&rt, alloc, &BY_TWO, &more, &two)?;
    check_good(&rt, alloc, &BY_TWO, &around, &kept)?;
    check_good(&rt, alloc, &BY_TWO, &none, &v1[..V1_MOOF])
}

#[test]
fn sync_samples(rt: HostRuntime) -> Result<(), Fail> {
    let (alloc, v1) = (rt.alloc(), V1.as_slice());
    // The flags of the first sample are in the trun, those of the others in the trex.
    let (front, media) = ([&v1[..360], b"\x01\x01\0\0".as_slice()], &v1[V1_MEDIA..]);
    let first = [
        front[0],
        front[1],
        b"\0\0\0\x64moof",
        MFHD,
        b"\0\0\0\x4ctraf",
        TFHD,
        &v1[V1_TFDT..V1_TRUN],
        b"\0\0\0\x24trun\0\0\x02\x05\0\0\0\x03\0\0\0\x6c\x02\0\0\0",
        &v1[V1_SIZES..],
    ];
    let all = [[5, SYNC], [7, OTHER], [3, OTHER]];
    let whole = recut(alloc, &front, &[piece_at(1, 0, &all, media)])?;
    let pairs = [
        piece_at(1, 0, &[[5, SYNC], [7, OTHER]], &media[..12]),
        piece_at(2, 2048, &[[3, OTHER]], &media[12..]),
    ];
    let pairs = recut(alloc, &front, &pairs)?;
    let ones = [
        piece_at(1, 0, &[[5, SYNC]], &media[..5]),
        piece_at(2, 1024, &[[7, OTHER]], &media[5..12]),
        piece_at(3, 2048, &[[3, OTHER]], &media[12..]),
    ];
    let ones = recut(alloc, &front, &ones)?;
    let sidx =
        b"\0\0\0\x34sidx\x01\0\0\0\0\0\0\x01\0\0\xbb\x80\0\0\0\0\0\0\0\0\0\0\0\0\0\0\0\0\0\0\0\x01\
        \0\0\0\xa3\0\0\x0c\0\0\0\0\0"
            .as_slice();
    let indexed = [front[0], front[1], sidx];
    let indexed = recut(alloc, &indexed, &[piece_at(1, 0, &all, media)])?;
    let sync = ["--samples", "9", "--sync"];
    let (again, indexed_again, pairs_again) = (
        [whole.as_slice()],
        [indexed.as_slice()],
        [pairs.as_slice()],
    );
    check_good(&rt, alloc, &["--samples", "1"], &first, &ones)?;
    check_good(&rt, alloc, &sync, &first, &whole)?;
    check_good(
        &rt,
        alloc,
        &["--samples", "9", "--sync", "--index"],
        &first,
        &indexed,
    )?;
    check_good(&rt, alloc, &["--sync", "--samples", "2"], &first, &pairs)?;
    check_good(&rt, alloc, &sync, &again, &whole)?;
    check_good(&rt, alloc, &sync, &indexed_again, &whole)?;
    check_good(
        &rt,
        alloc,
        &["--samples", "2", "--sync"],
        &pairs_again,
        &pairs,
    )
}

/// The last fragment of the second vector.
fn last_of_two() -> Wanted<'static> {
    Wanted {
        track: 2,
        ..piece_at(3, 0, &[[4, SYNC], [4, SYNC]], &V2.as_slice()[771..])
    }
}

/// The second vector by two samples a fragment.
pub(super) fn tracks_by_two(alloc: Global) -> Result<Vec<u8>, AllocError> {
    let v2 = V2.as_slice();
    let two = [
        piece_at(1, 0, &[[5, SYNC], [7, SYNC]], &v2[756..768]),
        piece_at(2, 2048, &[[3, SYNC]], &v2[768..771]),
        last_of_two(),
    ];
    recut(alloc, &[&v2[..584]], &two)
}

#[test]
fn two_tracks(rt: HostRuntime) -> Result<(), Fail> {
    let (alloc, v2, v3) = (rt.alloc(), V2.as_slice(), V3.as_slice());
    let (last, two) = (last_of_two(), tracks_by_two(alloc)?);
    let by_bytes = [
        piece_at(1, 0, &[[5, SYNC]], &v2[756..761]),
        piece_at(2, 1024, &[[7, SYNC]], &v2[761..768]),
        piece_at(3, 2048, &[[3, SYNC]], &v2[768..771]),
        Wanted { number: 4, ..last },
    ];
    let by_bytes = recut(alloc, &[&v2[..584]], &by_bytes)?;
    // Runs that lie in turn are cut by place.
    let turns = [
        piece_at(1, 0, &[[5, SYNC]], &v3[792..797]),
        Wanted {
            track: 2,
            ..piece_at(2, 0, &[[4, SYNC]], &v3[797..801])
        },
        piece_at(3, 1024, &[[7, SYNC]], &v3[801..808]),
        Wanted {
            track: 2,
            ..piece_at(4, 1024, &[[4, SYNC]], &v3[808..])
        },
    ];
    let turns = recut(alloc, &[&v3[..584]], &turns)?;
    let shared = [&v2[..736], b"\0\0\0\xba".as_slice(), &v2[740..]];
    let (front, v2, v3, again) = (&v2[..584], [v2], [v3], [by_bytes.as_slice()]);
    check_good(&rt, alloc, &BY_TWO, &v2, &two)?;
    check_good(
        &rt,
        alloc,
        &["--samples", "9", "--bytes", "8"],
        &v2,
        &by_bytes,
    )?;
    check_good(&rt, alloc, &BY_TWO, &v3, &turns)?;
    check_bad(
        &rt,
        alloc,
        &shared,
        front,
        "fmp4: 22 RunPlace in trun at 720\n",
    )?;
    let counts = "fragments=4 samples=5 media=23 held=66228\n";
    check_words(&rt, alloc, &["fmp4", "check"], &again, 0, &[counts], "")
}

#[test]
fn streams_at_fault(rt: HostRuntime) -> Result<(), Fail> {
    let (alloc, v1) = (rt.alloc(), V1.as_slice());
    let two = by_two(alloc)?;
    let len = two.len();
    let (start, moov, moof, mdat) = (
        &v1[..V1_MOOV],
        &v1[V1_MOOV..V1_MOOF],
        &v1[V1_MOOF..V1_MDAT],
        &v1[V1_MDAT..],
    );
    let (front, short) = (&v1[..V1_MOOF], [&v1[..482]]);
    let (shorter, zeros) = ([&v1[..V1_THIRD_SAMPLE]], [v1, b"\0\0\0".as_slice()]);
    let (no_moov, no_moof) = ([start, moof, mdat], [start, moov, mdat]);
    let (no_mdat, again) = ([start, moov, moof], [start, moov, moov]);
    let size = [front, moof, b"\0\0\0\x07mdat"];
    let trex = [&v1[..V1_TREX], b"\0\0\0\x21".as_slice(), &v1[336..]];
    let large = [front, b"\x04\0\0\x01moof".as_slice()];
    // The header is longer by eight bytes, so the run begins within it.
    let place = [
        &v1[..V1_MDAT],
        b"\0\0\0\x01mdat\0\0\0\0\0\0\0\x1f".as_slice(),
        &v1[V1_MEDIA..],
    ];
    let cut = "fmp4: 1 Truncated in mdat at 460\n";
    check_bad(&rt, alloc, &short, &two[..626.min(len)], cut)?;
    check_bad(&rt, alloc, &shorter, &two[..624.min(len)], cut)?;
    check_bad(
        &rt,
        alloc,
        &zeros,
        &two,
        "fmp4: 1 Truncated in (none) at 483\n",
    )?;
    check_bad(
        &rt,
        alloc,
        &no_moov,
        start,
        "fmp4: 3 NoMoov in moof at 20\n",
    )?;
    check_bad(
        &rt,
        alloc,
        &again,
        front,
        "fmp4: 4 SecondMoov in moov at 364\n",
    )?;
    check_bad(
        &rt,
        alloc,
        &no_moof,
        front,
        "fmp4: 5 StrayMdat in mdat at 364\n",
    )?;
    check_bad(
        &rt,
        alloc,
        &no_mdat,
        front,
        "fmp4: 6 MdatMissing in moof at 364\n",
    )?;
    check_bad(&rt, alloc, &size, front, "fmp4: 2 BadSize in mdat at 460\n")?;
    check_bad(&rt, alloc, &trex, start, "fmp4: 2 BadSize in trex at 332\n")?;
    check_bad(
        &rt,
        alloc,
        &large,
        front,
        "fmp4: 7 TooLarge in moof at 364\n",
    )?;
    check_bad(
        &rt,
        alloc,
        &place,
        front,
        "fmp4: 22 RunPlace in trun at 428\n",
    )
}
