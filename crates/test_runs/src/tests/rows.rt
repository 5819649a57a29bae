//! Rows of samples that are read while a stream is recut: no run is read again for each of its pieces.

ghost use Rattle.std.specs.Prelude.{◌≡◌, ◌<◌, false};

use super::joined;
use super::layouts::MFHD;
use mp4_stream::ends::FromSlice;
use mp4_stream::vectors::{V1, V1_MDAT, V1_MOOF, V1_TFHD, V1_TRUN};
use mp4_stream::{Cut, Failed, Ledger, Sink, Totals, split};
use std::alloc::{AllocError, Global};
use std::process::Abort;
use std::test::Fail;

/// How many bytes of what it takes a counter keeps.
const KEPT: usize = 52;

/// Counts the bytes that it takes, and keeps a few of them.
#[derive(Drop)]
struct Counter {
    bytes: u64,
    kept_from: u64,
    kept: [u8; KEPT],
}

impl Counter {
    /// Keeps what it takes of the bytes that lie at this offset.
    fn keep(&mut self, from: &[u8]) {
        let first = self.kept_from.saturating_sub(self.bytes) as usize;
        let at = self.bytes.saturating_sub(self.kept_from) as usize;
        if first >= from.len() || at >= KEPT {
            return;
        }
        let n = (KEPT - at).min(from.len() - first);
        self.kept[at..at + n].copy_from_slice(&from[first..first + n]);
    }
}

impl Sink for Counter {
    ghost has_failed = { λ _. false };

    fn write(&mut self, from: &[u8]) -> Result<usize, Failed> {
        self.keep(from);
        self.bytes = self.bytes.saturating_add(from.len() as u64);
        Ok(from.len())
    }

    fn flush(&mut self) -> Result<(), Failed> {
        Ok(())
    }

    fn failed(&self) -> bool {
        false
    }
}

/// The first vector with one run of so many samples, which have no bytes: a moof of 84 bytes.
pub(super) fn with_empty_samples(alloc: Global, count: u32) -> Result<Vec<u8>, AllocError> {
    let v1 = V1.as_slice();
    joined(
        alloc,
        &[
            &v1[..V1_MOOF],
            b"\0\0\0\x54moof",
            MFHD,
            b"\0\0\0\x3ctraf",
            &v1[V1_TFHD..V1_TRUN],
            b"\0\0\0\x14trun\0\0\0\x01",
            &count.to_be_bytes(),
            b"\0\0\0\x5c",
            &v1[V1_MDAT..],
        ],
    )
}

/// What is checked of a recut stream: how many bytes were written, some of them, and the totals.
#[derive(Drop)]
struct Recut {
    bytes: u64,
    kept: [u8; KEPT],
    totals: Totals,
}

/// Recuts a stream by so many samples a fragment, and keeps the bytes at this offset.
fn recut_by(
    rt: &impl Abort,
    alloc: Global,
    samples: u32,
    stream: &[u8],
    index: bool,
    kept_from: u64,
) -> Recut {
    let cut = Cut::new(samples, None, index).expect(rt, "so many samples are allowed");
    let mut r = FromSlice::new(stream, 4096, false);
    let mut w = Counter {
        bytes: 0,
        kept_from,
        kept: [0; KEPT],
    };
    let mut ledger = Ledger::new(alloc, 1 << 20);
    let mut totals = Totals::new();
    let answer = split(&mut r, &mut w, &mut ledger, &cut, 4096, &mut totals);
    assert_eq!(rt; answer, Ok(()));
    Recut {
        bytes: w.bytes,
        kept: w.kept,
        totals,
    }
}

/// How many bytes are written of a stream by one sample a fragment, and its totals.
fn by_one(rt: &impl Abort, alloc: Global, stream: &[u8], index: bool) -> (u64, Totals) {
    let Recut {
        bytes,
        kept: _,
        totals,
    } = recut_by(rt, alloc, 1, stream, index, 0);
    (bytes, totals)
}

#[test]
fn rows_of_few_pieces(rt: HostRuntime) -> Result<(), Fail> {
    let (_, totals) = by_one(&rt, rt.alloc(), V1.as_slice(), true);
    assert_eq!(&rt;
        (totals.fragments, totals.samples, totals.media_bytes),
        (3, 3, 15)
    );
    // With an index, 11 to 12 times each.
    assert!(&rt; 33 <= totals.rows_read && totals.rows_read <= 36);
    Ok(())
}

/// A run of 65,536 samples has two groups of pieces: an index of 65,535 references in 786,460 bytes, and one of 52.
#[test]
fn rows_of_an_index(rt: HostRuntime) -> Result<(), Fail> {
    let stream = with_empty_samples(rt.alloc(), 65_536)?;
    let (bytes, totals) = by_one(&rt, rt.alloc(), &stream, true);
    assert_eq!(&rt;
        (bytes, totals.fragments),
        (364 + 786_460 + 52 + 65_536 * 116, 65_536)
    );
    assert!(&rt; 720_896 <= totals.rows_read && totals.rows_read <= 786_432);
    Ok(())
}

/// By one sample a fragment, an index begins so at this offset.
fn check_index(rt: &impl Abort, alloc: Global, stream: &[u8], at: u64, index: &[u8; KEPT]) {
    let recut = recut_by(rt, alloc, 1, stream, true, at);
    let kept = recut.kept;
    assert_eq!(rt;
        (recut.bytes, kept.as_slice()),
        (8_389_052, index.as_slice()),
        "at {at}"
    );
}

/// The first index is at 364, after the moov, and the second after 65,535 fragments of 116 bytes, whose samples last
/// 1,024 ticks each: 67,107,840 in all.
#[test]
fn places_of_indexes(rt: HostRuntime) -> Result<(), Fail> {
    let alloc = rt.alloc();
    let stream = with_empty_samples(alloc, 65_536)?;
    let first =
        b"\0\x0c\0\x1csidx\x01\0\0\0\0\0\0\x01\0\0\xbb\x80\0\0\0\0\0\0\0\0\0\0\0\0\0\0\0\0\0\0\xff\xff\
        \0\0\0\x74\0\0\x04\0\0\0\0\0";
    let second =
        b"\0\0\0\x34sidx\x01\0\0\0\0\0\0\x01\0\0\xbb\x80\0\0\0\0\x03\xff\xfc\0\0\0\0\0\0\0\0\0\0\0\0\x01\
        \0\0\0\x74\0\0\x04\0\0\0\0\0";
    check_index(&rt, alloc, &stream, 364, first);
    check_index(&rt, alloc, &stream, 8_388_884, second);
    Ok(())
}

#[test]
fn a_million_samples_as_one_piece(rt: HostRuntime) -> Result<(), Fail> {
    let stream = with_empty_samples(rt.alloc(), 1_000_000)?;
    let recut = recut_by(&rt, rt.alloc(), 1_000_000, &stream, false, 0);
    assert_eq!(&rt; (recut.bytes, recut.totals.fragments), (16_000_464, 1));
    Ok(())
}

/// Read from its first row for each piece, a run of 1,000,000 samples would take hours.
#[test]
fn a_million_pieces(rt: HostRuntime) -> Result<(), Fail> {
    let stream = with_empty_samples(rt.alloc(), 1_000_000)?;
    let (bytes, totals) = by_one(&rt, rt.alloc(), &stream, false);
    assert_eq!(&rt; (bytes, totals.fragments), (116_000_364, 1_000_000));
    // Without an index, 5 to 8 times each.
    assert!(&rt; 5_000_000 <= totals.rows_read && totals.rows_read <= 8_000_000);
    Ok(())
}
