//! Worked moovs: what no clause says is which of their bytes are which track or fault.
//!
//! - [`faults`]: moovs with a byte changed, or with more bytes, and what is at fault then;
//! - [`lists`]: the tracks of moovs, and the table that they take.

mod faults;
mod lists;

use mp4_box::{Fault, FourCc, Rule, is_box, u32_at};
use mp4_init::{InitStop, tracks};
use mp4_ledger::Ledger;
use std::alloc::Global;
use std::process::Abort;
use std::test::Fail;

/// Result of reading a moov at 20: how many tracks, or its fault; none for bytes that are no box.
type Outcome = Option<Result<usize, InitStop>>;

fn outcome(alloc: Global, moov: &[u8]) -> Outcome {
    if moov.len() > 16_777_216 || !is_box(moov) {
        return None;
    }
    let mut ledger = Ledger::new(alloc, 1 << 30);
    match tracks(&mut ledger, moov, 20) {
        Ok(list) => {
            let count = list.len();
            list.back(&mut ledger);
            Some(Ok(count))
        }
        Err(stop) => Some(Err(stop)),
    }
}

fn fault(rule: Rule, kind: &[u8; 4], offset: u64) -> Outcome {
    let kind = Some(FourCc(*kind));
    Some(Err(InitStop::Fault(Fault { rule, kind, offset })))
}

fn check(rt: &impl Abort, alloc: Global, moov: &[u8], expected: Outcome) -> Result<(), Fail> {
    assert_eq!(rt; outcome(alloc, moov), expected);
    Ok(())
}

fn push_all(bytes: &mut Vec<u8>, parts: &[&[u8]]) -> Result<(), Fail> {
    for part in parts {
        bytes.extend_from_slice(part)?;
    }
    Ok(())
}

/// A moov that begins at 20, with more bytes at this offset, and the boxes at the other offsets grown by them.
fn grown(
    alloc: Global,
    moov: &[u8],
    at: usize,
    more: &[u8],
    parents: &[usize],
) -> Result<Vec<u8>, Fail> {
    if moov.len() > 1000 || at < 20 || at > moov.len() + 20 || more.len() > 1000 {
        return Err("no such moov".into());
    }
    let mut bytes = Vec::new(alloc);
    push_all(&mut bytes, &[&moov[..at - 20], more, &moov[at - 20..]])?;
    for parent in parents {
        let begin = *parent;
        if begin < 20 || begin > 1000 || bytes.len() < begin {
            return Err("no such box".into());
        }
        let size = u32_at(bytes.as_slice(), begin - 20).saturating_add(more.len() as u32);
        bytes.as_mut_slice()[begin - 20..begin - 16].copy_from_slice(&size.to_be_bytes());
    }
    Ok(bytes)
}
