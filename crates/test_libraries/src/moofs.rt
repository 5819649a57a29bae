//! Worked moofs: what no clause says is which of their bytes are which sample or fault.
//!
//! - [`faults`]: moofs with one thing wrong, or two, and what is at fault then;
//! - [`order`]: the order in which runs are taken, and where they may lie;
//! - [`pieces`]: how runs are cut, and [`room`]: whether their pieces have room for their numbers;
//! - [`runs`]: the runs of moofs, and the run after a run;
//! - [`samples`]: the samples of moofs, and where their tracks end;
//! - [`times`]: how runs are cut by time, and before keyframes;
//! - [`written`]: the moofs and indexes that are written for the pieces of a run.

mod faults;
mod order;
mod pieces;
mod room;
mod runs;
mod samples;
mod times;
mod written;

use mp4_box::{Fault, FourCc, Rule};
use std::alloc::Global;
use std::test::Fail;

const MFHD: &[u8] = b"\0\0\0\x10mfhd\0\0\0\0\0\0\0\x01";
/// The header of a traf of track 1, at 396 in the first traf.
const TFHD: &[u8] = b"\0\0\0\x10tfhd\0\x02\0\0\0\0\0\x01";
/// Time 0, at 412 in the first traf.
const TFDT: &[u8] = b"\0\0\0\x10tfdt\0\0\0\0\0\0\0\0";
/// V1's run of samples of 5, 7 and 3 bytes, at 428 in the first traf.
const TRUN: &[u8] = b"\0\0\0\x20trun\0\0\x02\x01\0\0\0\x03\0\0\0\x68\0\0\0\x05\0\0\0\x07\0\0\0\x03";

/// How many bytes a box has with these parts.
fn size_of(parts: &[&[u8]]) -> u32 {
    let mut size: usize = 8;
    for part in parts {
        size = size.saturating_add(part.len());
    }
    size.min(1 << 30) as u32
}

fn push_box(bytes: &mut Vec<u8>, kind: &[u8; 4], parts: &[&[u8]]) -> Result<(), Fail> {
    bytes.extend_from_slice(&size_of(parts).to_be_bytes())?;
    bytes.extend_from_slice(kind)?;
    for part in parts {
        bytes.extend_from_slice(part)?;
    }
    Ok(())
}

/// A moof of these boxes after its mfhd.
fn moof_of(alloc: Global, boxes: &[&[u8]]) -> Result<Vec<u8>, Fail> {
    let mut content = MFHD.to_vec(alloc)?;
    for each in boxes {
        content.extend_from_slice(each)?;
    }
    let mut bytes = Vec::new(alloc);
    push_box(&mut bytes, b"moof", &[content.as_slice()])?;
    Ok(bytes)
}

/// A traf of these boxes.
fn traf_of(alloc: Global, boxes: &[&[u8]]) -> Result<Vec<u8>, Fail> {
    let mut bytes = Vec::new(alloc);
    push_box(&mut bytes, b"traf", boxes)?;
    Ok(bytes)
}

/// A moof with one traf of these boxes.
fn one_traf(alloc: Global, boxes: &[&[u8]]) -> Result<Vec<u8>, Fail> {
    let traf = traf_of(alloc, boxes)?;
    moof_of(alloc, &[traf.as_slice()])
}

fn fault(rule: Rule, kind: &[u8; 4], offset: u64) -> Option<Fault> {
    let kind = Some(FourCc(*kind));
    Some(Fault { rule, kind, offset })
}
