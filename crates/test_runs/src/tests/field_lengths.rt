//! Payloads of a length that their fields don't have. A moof is read in three ways, and each must refuse them: in a
//! straight line where it has just one traf and one trun, in one pass over its boxes, and rule by rule.

use super::fragments::check_fault;
use super::layouts::{MFHD, TFHD};
use super::{check_words, joined};
use mp4_stream::vectors::{
    V1, V1_MDAT, V1_MDHD, V1_MDIA, V1_MINF, V1_MOOF, V1_MOOV, V1_MVEX, V1_MVHD, V1_TFDT, V1_TKHD,
    V1_TRAK, V1_TRUN,
};
use std::alloc::{AllocError, Global};
use std::process::Abort;
use std::test::Fail;

/// A box of this type whose payload has so many bytes: these, and zeros after them.
fn box_of(alloc: Global, kind: &[u8; 4], front: &[u8], len: usize) -> Result<Vec<u8>, AllocError> {
    let mut payload = Vec::new(alloc);
    payload.extend_from_slice(&front[..len.min(front.len())])?;
    payload.resize(len, 0)?;
    boxed(alloc, kind, &payload, b"", b"")
}

/// A box of these parts.
fn boxed(
    alloc: Global,
    kind: &[u8; 4],
    first: &[u8],
    second: &[u8],
    third: &[u8],
) -> Result<Vec<u8>, AllocError> {
    let mut payload = first.to_vec(alloc)?;
    payload.extend_from_slice(second)?;
    payload.extend_from_slice(third)?;
    let size = u32::try_from(payload.len()).unwrap_or(0).saturating_add(8);
    let mut all = Vec::new(alloc);
    all.extend_from_slice(&size.to_be_bytes())?;
    all.extend_from_slice(kind)?;
    all.extend_from_slice(&payload)?;
    Ok(all)
}

/// One byte too few, and one too many.
fn wrong_lengths(len: usize) -> [usize; 2] {
    [len.saturating_sub(1), len.saturating_add(1)]
}

/// A header of the first vector's track.
#[derive(Clone, Copy)]
enum Header {
    Tkhd,
    Mdhd,
}

impl Header {
    fn kind(self) -> &'static [u8; 4] {
        match self {
            Header::Tkhd => b"tkhd",
            Header::Mdhd => b"mdhd",
        }
    }

    fn fault(self) -> &'static str {
        match self {
            Header::Tkhd => "fmp4: 12 FieldLength in tkhd at 144\n",
            Header::Mdhd => "fmp4: 12 FieldLength in mdhd at 244\n",
        }
    }

    /// The first vector with this box in its place.
    fn stream(self, alloc: Global, header: &[u8]) -> Result<Vec<u8>, AllocError> {
        match self {
            Header::Tkhd => with_headers(alloc, header, &V1.as_slice()[V1_MDHD..V1_MINF]),
            Header::Mdhd => with_headers(alloc, &V1.as_slice()[V1_TKHD..V1_MDIA], header),
        }
    }
}

/// The first vector with these boxes in place of its tkhd and its mdhd.
fn with_headers(alloc: Global, tkhd: &[u8], mdhd: &[u8]) -> Result<Vec<u8>, AllocError> {
    let (mvhd, mvex) = (
        &V1.as_slice()[V1_MVHD..V1_TRAK],
        &V1.as_slice()[V1_MVEX..V1_MOOF],
    );
    let mdia = boxed(alloc, b"mdia", mdhd, &V1.as_slice()[V1_MINF..V1_MVEX], b"")?;
    let trak = boxed(alloc, b"trak", tkhd, &mdia, b"")?;
    let mut all = V1.as_slice()[..V1_MOOV].to_vec(alloc)?;
    let moov = boxed(alloc, b"moov", mvhd, &trak, mvex)?;
    all.extend_from_slice(&moov)?;
    all.extend_from_slice(&V1.as_slice()[V1_MOOF..])?;
    Ok(all)
}

/// The front of a header whose payload has this length: up to its track_ID or timescale, after which zeros are as good
/// as any.
#[derive(Clone, Copy)]
struct Front {
    of: Header,
    bytes: &'static [u8],
    len: usize,
    counts: &'static str,
}

const FRONTS: [Front; 4] = [
    Front {
        of: Header::Tkhd,
        bytes: b"\0\0\0\x07\0\0\0\0\0\0\0\0\0\0\0\x01",
        len: 84,
        counts: "fragments=1 samples=3 media=15 held=65944\n",
    },
    Front {
        of: Header::Tkhd,
        bytes: b"\x01\0\0\x07\0\0\0\0\0\0\0\0\0\0\0\0\0\0\0\0\0\0\0\x01",
        len: 96,
        counts: "fragments=1 samples=3 media=15 held=65956\n",
    },
    Front {
        of: Header::Mdhd,
        bytes: b"\0\0\0\0\0\0\0\0\0\0\0\0\0\0\xbb\x80",
        len: 24,
        counts: "fragments=1 samples=3 media=15 held=65944\n",
    },
    Front {
        of: Header::Mdhd,
        bytes: b"\x01\0\0\0\0\0\0\0\0\0\0\0\0\0\0\0\0\0\0\0\0\0\xbb\x80",
        len: 36,
        counts: "fragments=1 samples=3 media=15 held=65956\n",
    },
];

#[test]
fn headers_of_tracks(rt: HostRuntime) -> Result<(), Fail> {
    let alloc = rt.alloc();
    for Front {
        of,
        bytes,
        len,
        counts,
    } in FRONTS {
        let right = box_of(alloc, of.kind(), bytes, len)?;
        let right = of.stream(alloc, &right)?;
        check_words(&rt, alloc, &["fmp4", "check"], &[&right], 0, &[counts], "")?;
        for wrong in wrong_lengths(len) {
            let wrong = box_of(alloc, of.kind(), bytes, wrong)?;
            let stream = of.stream(alloc, &wrong)?;
            check_fault(&rt, alloc, &[&stream], &[], of.fault())?;
        }
    }
    Ok(())
}

/// A box of a moof with one traf.
#[derive(Clone, Copy)]
enum Part {
    Mfhd,
    Tfhd,
    Tfdt,
    Trun,
}

/// How a moof is read.
#[derive(Clone, Copy)]
enum Way {
    Straight,
    OnePass,
    ByRules,
}

impl Part {
    fn kind(self) -> &'static [u8; 4] {
        match self {
            Part::Mfhd => b"mfhd",
            Part::Tfhd => b"tfhd",
            Part::Tfdt => b"tfdt",
            Part::Trun => b"trun",
        }
    }

    /// A traf of 24 bytes comes before that of the box where the rules are searched one by one.
    fn fault(self, way: Way) -> &'static str {
        match (self, way) {
            (Part::Mfhd, _) => "fmp4: 12 FieldLength in mfhd at 372\n",
            (Part::Tfhd, Way::ByRules) => "fmp4: 12 FieldLength in tfhd at 420\n",
            (Part::Tfdt, Way::ByRules) => "fmp4: 12 FieldLength in tfdt at 436\n",
            (Part::Trun, Way::ByRules) => "fmp4: 12 FieldLength in trun at 452\n",
            (Part::Tfhd, _) => "fmp4: 12 FieldLength in tfhd at 396\n",
            (Part::Tfdt, _) => "fmp4: 12 FieldLength in tfdt at 412\n",
            (Part::Trun, _) => "fmp4: 12 FieldLength in trun at 428\n",
        }
    }

    /// The first vector's traf with this box in its place, if that is in a traf.
    fn traf(self, alloc: Global, part: &[u8]) -> Result<Vec<u8>, AllocError> {
        let (tfdt, trun) = (
            &V1.as_slice()[V1_TFDT..V1_TRUN],
            &V1.as_slice()[V1_TRUN..V1_MDAT],
        );
        match self {
            Part::Mfhd => boxed(alloc, b"traf", TFHD, tfdt, trun),
            Part::Tfhd => boxed(alloc, b"traf", part, tfdt, trun),
            Part::Tfdt => boxed(alloc, b"traf", TFHD, part, trun),
            Part::Trun => boxed(alloc, b"traf", TFHD, tfdt, part),
        }
    }

    /// Its moof with this box in its place.
    fn moof(self, alloc: Global, way: Way, part: &[u8]) -> Result<Vec<u8>, AllocError> {
        let traf = self.traf(alloc, part)?;
        match self {
            Part::Mfhd => way.moof(alloc, part, &traf),
            Part::Tfhd | Part::Tfdt | Part::Trun => way.moof(alloc, MFHD, &traf),
        }
    }
}

impl Way {
    /// A moof of these boxes. With a second traf it isn't read in a straight line, and with one without tfdt not in one
    /// pass.
    fn moof(self, alloc: Global, mfhd: &[u8], traf: &[u8]) -> Result<Vec<u8>, AllocError> {
        let timed = boxed(alloc, b"traf", TFHD, &V1.as_slice()[V1_TFDT..V1_TRUN], b"")?;
        let untimed = boxed(alloc, b"traf", TFHD, b"", b"")?;
        match self {
            Way::Straight => boxed(alloc, b"moof", mfhd, traf, b""),
            Way::OnePass => boxed(alloc, b"moof", mfhd, traf, &timed),
            Way::ByRules => boxed(alloc, b"moof", mfhd, &untimed, traf),
        }
    }
}

/// Boxes by how their payloads begin, and how long these must be.
const PARTS: [(Part, &[u8], usize); 6] = [
    (Part::Mfhd, b"\0\0\0\0\0\0\0\x01", 8),
    (Part::Tfhd, b"\0\x02\0\0\0\0\0\x01", 8),
    (Part::Tfhd, b"\0\x02\0\x3a\0\0\0\x01\0\0\0\x01", 24),
    (Part::Tfdt, b"\0\0\0\0", 8),
    (Part::Tfdt, b"\x01\0\0\0", 12),
    (
        Part::Trun,
        b"\0\0\x02\x01\0\0\0\x03\0\0\0\x68\0\0\0\x05\0\0\0\x07\0\0\0\x03",
        24,
    ),
];

/// The first vector with this moof in place of its own.
fn with_moof(alloc: Global, moof: &[u8]) -> Result<Vec<u8>, AllocError> {
    joined(
        alloc,
        &[&V1.as_slice()[..V1_MOOF], moof, &V1.as_slice()[V1_MDAT..]],
    )
}

#[test]
fn boxes_of_moofs(rt: HostRuntime) -> Result<(), Fail> {
    let alloc = rt.alloc();
    for (part, front, len) in PARTS {
        for way in [Way::Straight, Way::OnePass, Way::ByRules] {
            for wrong in wrong_lengths(len) {
                let wrong = box_of(alloc, part.kind(), front, wrong)?;
                let moof = part.moof(alloc, way, &wrong)?;
                let stream = with_moof(alloc, &moof)?;
                check_fault(&rt, alloc, &[&stream], &[], part.fault(way))?;
            }
        }
    }
    Ok(())
}
