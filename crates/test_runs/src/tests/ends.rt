//! The first vector cut after each of its bytes, and readers and writers that fail after each, by every command.

ghost use Rattle.std.specs.Prelude.{◌≡◌};

use super::fragments::{COUNTS, SAMPLES};
use super::splits::by_two;
use super::{FTYP, Given, MDAT, MOOF, MOOV, check_run, listing_of};
use mp4_stream::vectors::V1;
use std::alloc::{AllocError, Global};
use std::io::Write;
use std::process::Abort;
use std::test::Fail;

#[derive(Clone, Copy, PartialEq, Eq)]
pub(super) enum Command {
    Boxes,
    Samples,
    Fragments,
    Check,
    Split,
}

pub(super) const COMMANDS: [Command; 5] = [
    Command::Boxes,
    Command::Samples,
    Command::Fragments,
    Command::Check,
    Command::Split,
];

/// The lines of the vector's track and of its fragment.
pub(super) const FRAGMENTS: [&str; 2] = [
    "track=1 timescale=48000 entries=1 handler=???? types=mp4a\n",
    "fragment=1 at=364 size=119 track=1 dts=0 dur=3072 samples=3 sync=yes media=15 pts=0 syncs=3 gap=0\n",
];

impl Command {
    pub(super) fn words(self) -> &'static [&'static str] {
        match self {
            Command::Boxes => &["fmp4", "boxes"],
            Command::Samples => &["fmp4", "samples"],
            Command::Fragments => &["fmp4", "fragments"],
            Command::Check => &["fmp4", "check"],
            Command::Split => &["fmp4", "split", "--samples", "2"],
        }
    }

    /// All that it writes of the vector.
    fn text(self, alloc: Global) -> Result<Vec<u8>, AllocError> {
        match self {
            Command::Boxes => listing_of(alloc, &[FTYP, MOOV, MOOF, MDAT]),
            Command::Samples => listing_of(alloc, &SAMPLES),
            Command::Fragments => listing_of(alloc, &FRAGMENTS),
            Command::Check => listing_of(alloc, &[COUNTS]),
            Command::Split => by_two(alloc),
        }
    }

    /// How many bytes of that are due after the vector's first `k` bytes. The line of a box is due after its header,
    /// those of a moov or moof after the box, that of a track after the moov, and those of samples and of a fragment
    /// after their mdat's header.
    pub(super) fn due(self, k: usize) -> usize {
        let (ftyp, moov) = (FTYP.len(), FTYP.len() + MOOV.len());
        match (self, k) {
            (Command::Boxes, 0..8) => 0,
            (Command::Boxes, 8..364) => ftyp,
            (Command::Boxes, 364..460) => moov,
            (Command::Boxes, 460..468) => moov + MOOF.len(),
            (Command::Boxes, _) => 310,
            (Command::Samples, 0..468) => 0,
            (Command::Samples, _) => 222,
            (Command::Fragments, 0..364) => 0,
            (Command::Fragments, 364..468) => 58,
            (Command::Fragments, _) => 156,
            (Command::Check, _) => 0,
            (Command::Split, k) => due_of_split(k),
        }
    }
}

/// The same for the new fragments: what comes before a byte of media is due with the byte before it.
pub(super) fn due_of_split(k: usize) -> usize {
    match k {
        0..8 => 0,
        8..20 => k,
        20..364 => 20,
        364..468 => 364,
        468..480 => k + 28,
        480..483 => k + 144,
        _ => 627,
    }
}

/// The fault of the vector's first `k` bytes.
fn fault_after(k: usize) -> &'static str {
    match k {
        1..8 => "fmp4: 1 Truncated in (none) at 0\n",
        8..20 => "fmp4: 1 Truncated in ftyp at 0\n",
        21..28 => "fmp4: 1 Truncated in (none) at 20\n",
        28..364 => "fmp4: 1 Truncated in moov at 20\n",
        365..372 => "fmp4: 1 Truncated in (none) at 364\n",
        372..460 => "fmp4: 1 Truncated in moof at 364\n",
        460 => "fmp4: 6 MdatMissing in moof at 364\n",
        461..468 => "fmp4: 1 Truncated in (none) at 460\n",
        468..483 => "fmp4: 1 Truncated in mdat at 460\n",
        _ => "",
    }
}

/// The vector's first `k` bytes, which are all that come.
fn first(k: usize) -> Given<'static>
    ensures { result.step ≡ 7 }
{
    Given::ample(&V1.as_slice()[..k.min(483)], 7)
}

#[test]
fn streams_that_end_anywhere(rt: HostRuntime) -> Result<(), Fail> {
    let alloc = rt.alloc();
    for command in COMMANDS {
        let all = command.text(alloc)?;
        for k in 0..483usize {
            let fault = match (command, k) {
                // It asks no mdat of a moof.
                (Command::Boxes, 460) => "",
                _ => fault_after(k),
            };
            let status = if fault.is_empty() { 0 } else { 2 };
            let counts = match (command, k) {
                (Command::Check, 0 | 20) => "fragments=0 samples=0 media=0 held=65536\n",
                (Command::Check, 364) => "fragments=0 samples=0 media=0 held=65944\n",
                _ => "",
            };
            let due = &all[..command.due(k).min(all.len())];
            let written = if counts.is_empty() {
                due
            } else {
                counts.as_bytes()
            };
            let words = command.words();
            check_run(
                &rt,
                alloc,
                words,
                first(k),
                status,
                written,
                fault.as_bytes(),
            )?;
        }
    }
    Ok(())
}

#[test]
fn failing_readers(rt: HostRuntime) -> Result<(), Fail> {
    let alloc = rt.alloc();
    for command in COMMANDS {
        let all = command.text(alloc)?;
        for k in 0..=483usize {
            let mut given = first(k);
            given.fails = true;
            let written = &all[..command.due(k).min(all.len())];
            let mut fault = Vec::new(alloc);
            write!(fault, "fmp4: read failed at {k}\n")?;
            check_run(&rt, alloc, command.words(), given, 3, written, &fault)?;
        }
    }
    Ok(())
}

#[test]
fn failing_writers(rt: HostRuntime) -> Result<(), Fail> {
    let alloc = rt.alloc();
    let failed = b"fmp4: write failed\n";
    for command in COMMANDS {
        let all = command.text(alloc)?;
        for room in 0..all.len() {
            let mut given = first(483);
            given.room = room;
            check_run(&rt, alloc, command.words(), given, 3, &all[..room], failed)?;
        }
        let mut given = first(483);
        given.flushes = false;
        check_run(&rt, alloc, command.words(), given, 3, &all, failed)?;
    }
    Ok(())
}

/// The line of a fault is cut where its writer fails, and the status stays.
#[test]
fn failing_writers_of_faults(rt: HostRuntime) -> Result<(), Fail> {
    let alloc = rt.alloc();
    for command in COMMANDS {
        let all = command.text(alloc)?;
        for fault_room in 0..20usize {
            let mut given = first(482);
            given.fault_room = fault_room;
            let written = &all[..command.due(482).min(all.len())];
            let fault = fault_after(482).as_bytes();
            let fault = &fault[..fault_room.min(fault.len())];
            check_run(&rt, alloc, command.words(), given, 2, written, fault)?;
            let mut given = first(483);
            (given.room, given.fault_room) = (10, fault_room.min(19));
            let fault = &b"fmp4: write failed\n"[..fault_room.min(19)];
            let written = &all[..all.len().min(10)];
            check_run(&rt, alloc, command.words(), given, 3, written, fault)?;
        }
    }
    Ok(())
}
