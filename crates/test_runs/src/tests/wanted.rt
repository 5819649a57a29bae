//! Fragments that must be written, laid out by hand.

use super::joined;
use std::alloc::{AllocError, Global};

/// The flags of a sample that is a sync sample, and of one that isn't.
pub(super) const SYNC: u32 = 0x0200_0000;

pub(super) const OTHER: u32 = 0x0101_0000;

/// A fragment that must be written: its number, its track, its decode time, how long its samples are, the size and the
/// flags of each, and their bytes.
#[derive(Clone, Copy)]
pub(super) struct Wanted<'a> {
    pub(super) number: u32,
    pub(super) track: u32,
    pub(super) time: u64,
    pub(super) duration: u32,
    pub(super) rows: &'a [[u32; 2]],
    pub(super) media: &'a [u8],
}

/// One of the first track, whose samples are 1024 ticks long.
pub(super) fn piece_at<'a>(
    number: u32,
    time: u64,
    rows: &'a [[u32; 2]],
    media: &'a [u8],
) -> Wanted<'a> {
    Wanted {
        number,
        track: 1,
        time,
        duration: 1024,
        rows,
        media,
    }
}

/// The same, whose samples last as long as a field can say.
pub(super) fn lasting<'a>(short: Wanted<'a>) -> Wanted<'a> {
    Wanted {
        duration: 0xffff_ffff,
        ..short
    }
}

/// Its bytes, after those.
pub(super) fn push_fragment(all: &mut Vec<u8>, wanted: &Wanted<'_>) -> Result<(), AllocError> {
    let count = u32::try_from(wanted.rows.len()).unwrap_or(0);
    let table = count.saturating_mul(16);
    let bytes = u32::try_from(wanted.media.len()).unwrap_or(0);
    push_numbers(all, &[table.saturating_add(92)])?;
    all.extend_from_slice(b"moof\0\0\0\x10mfhd\0\0\0\0")?;
    push_numbers(all, &[wanted.number, table.saturating_add(68)])?;
    all.extend_from_slice(b"traf\0\0\0\x14tfhd\0\x02\0\x02")?;
    push_numbers(all, &[wanted.track, 1, 20])?;
    all.extend_from_slice(b"tfdt\x01\0\0\0")?;
    all.extend_from_slice(&wanted.time.to_be_bytes())?;
    push_numbers(all, &[table.saturating_add(20)])?;
    all.extend_from_slice(b"trun\0\0\x0f\x01")?;
    push_numbers(all, &[count, table.saturating_add(100)])?;
    for row in wanted.rows {
        let fields = [wanted.duration, row[0], row[1], 0];
        push_numbers(all, &fields)?;
    }
    push_numbers(all, &[bytes.saturating_add(8)])?;
    all.extend_from_slice(b"mdat")?;
    all.extend_from_slice(wanted.media)
}

fn push_numbers(all: &mut Vec<u8>, numbers: &[u32]) -> Result<(), AllocError> {
    for number in numbers {
        all.extend_from_slice(&number.to_be_bytes())?;
    }
    Ok(())
}

/// These bytes, and after them the fragments.
pub(super) fn recut(
    alloc: Global,
    front: &[&[u8]],
    fragments: &[Wanted<'_>],
) -> Result<Vec<u8>, AllocError> {
    let mut all = joined(alloc, front)?;
    for fragment in fragments {
        push_fragment(&mut all, fragment)?;
    }
    Ok(all)
}
