//! Runs over memory. What is expected is counted by hand.

ghost use Rattle.std.specs.Prelude.{◌≡◌, ◌<◌};

mod box_feeders;
mod boxes_between;
mod calls;
mod ends;
mod feeders;
mod field_lengths;
mod fragments;
mod hostile;
mod layouts;
mod listings;
mod memory;
mod presented;
mod recuts;
mod rows;
mod split_stops;
mod splits;
mod times;
mod trafs;
mod wanted;
mod words;
mod work;

use fmp4_program::run;
use mp4_stream::ends::{FromSlice, ToVec};
use std::alloc::{AllocError, Global};
use std::process::Abort;
use std::test::Fail;

const FTYP: &str = "ftyp 20 @0\n";

/// The lines of the first vector's moov.
const MOOV: &str = "moov 344 @20
  mvhd 108 @28
  trak 188 @136
    tkhd 92 @144
    mdia 88 @236
      mdhd 32 @244
      minf 48 @276
        stbl 40 @284
          stsd 32 @292
  mvex 40 @324
    trex 32 @332
";

/// The lines of its moof.
const MOOF: &str = "moof 96 @364
  mfhd 16 @372
  traf 72 @388
    tfhd 16 @396
    tfdt 16 @412
    trun 32 @428
";

const MDAT: &str = "mdat 23 @460\n";

fn words_of(alloc: Global, words: &[&str]) -> Result<Vec<String>, AllocError> {
    let mut all = Vec::new(alloc);
    for word in words {
        all.push(String::from_str(alloc, word)?)?;
    }
    Ok(all)
}

fn joined(alloc: Global, parts: &[&[u8]]) -> Result<Vec<u8>, AllocError> {
    let mut all = Vec::new(alloc);
    for part in parts {
        all.extend_from_slice(part)?;
    }
    Ok(all)
}

fn listing_of(alloc: Global, lines: &[&str]) -> Result<Vec<u8>, AllocError> {
    let mut listing = Vec::new(alloc);
    for line in lines {
        listing.extend_from_slice(line.as_bytes())?;
    }
    Ok(listing)
}

/// What the program is given to read from, by so many bytes a read, and to write to.
#[derive(Clone, Copy)]
struct Given<'a> {
    input: &'a [u8],
    fails: bool,
    step: usize,
    room: usize,
    fault_room: usize,
    flushes: bool,
}

impl<'a> Given<'a> {
    /// With ample room, and no failures.
    fn ample(input: &'a [u8], step: usize) -> Self
        ensures { result.step ≡ step }
    {
        Given {
            input,
            fails: false,
            step,
            room: 8192,
            fault_room: 100,
            flushes: true,
        }
    }
}

/// Runs the program: its status, its listing and its line of a fault must be these.
fn check_run(
    rt: &impl Abort,
    alloc: Global,
    words: &[&str],
    given: Given<'_>,
    status: u8,
    listing: &[u8],
    fault: &[u8],
) -> Result<(), Fail>
    requires { 0 < given.step }
{
    let mut r = FromSlice::new(given.input, given.step, given.fails);
    let mut w = ToVec::new(alloc, given.room, given.step, given.flushes)?;
    let mut fault_w = ToVec::new(alloc, given.fault_room, given.step, true)?;
    let got = run(alloc, words_of(alloc, words)?, &mut r, &mut w, &mut fault_w);
    let seen = (got, w.bytes(), fault_w.bytes());
    assert_eq!(rt;
        seen,
        (status, listing, fault),
        "{words:?}, room for {}",
        given.room
    );
    Ok(())
}

/// What is written of these bytes by reads of one byte, of seven, and of many.
fn check_bytes(
    rt: &impl Abort,
    alloc: Global,
    words: &[&str],
    parts: &[&[u8]],
    status: u8,
    written: &[u8],
    fault: &str,
) -> Result<(), Fail> {
    let input = joined(alloc, parts)?;
    for step in [1, 7, 4096] {
        let given = Given::ample(&input, step);
        check_run(rt, alloc, words, given, status, written, fault.as_bytes())?;
    }
    Ok(())
}

/// So it is with the lines of a listing.
fn check_words(
    rt: &impl Abort,
    alloc: Global,
    words: &[&str],
    parts: &[&[u8]],
    status: u8,
    lines: &[&str],
    fault: &str,
) -> Result<(), Fail> {
    let listing = listing_of(alloc, lines)?;
    check_bytes(rt, alloc, words, parts, status, &listing, fault)
}

fn check_rows(
    rt: &impl Abort,
    alloc: Global,
    parts: &[&[u8]],
    status: u8,
    lines: &[&str],
    fault: &str,
) -> Result<(), Fail> {
    check_words(rt, alloc, &["fmp4", "boxes"], parts, status, lines, fault)
}
