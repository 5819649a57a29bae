//! Reads the first moof of a stream: how many runs and samples it has, and how many rows were read for it; or the
//! number and the place of what is at fault. Its mdat is taken to go to the end of the stream.

ghost use Rattle.std.specs.Prelude.{◌≡◌, ◌^◌, ◌≤◌, length};
ghost use Rattle.mp4_box.specs.Headers.{IsWhole};

use crate::input::{Boxes, Input};
use mp4_box::Fault;
use mp4_frag::{Moof, Payload, Steps};
use mp4_init::{TrackList, tracks};
use mp4_ledger::{Ledger, Refused};
use std::io;

/// Why a moof isn't listed.
enum Stop {
    Fault(Fault),
    Refused(Refused),
}

/// Result of reading a moof.
#[derive(Clone, Copy)]
struct Counts {
    runs: usize,
    samples: u32,
    rows: u128,
}

/// Reads a moof at offset 0, lists its runs, checks where they lie, and settles its tracks.
fn count(ledger: &mut Ledger, list: &mut TrackList, moof: &[u8]) -> Result<Counts, Stop>
    requires whole { IsWhole moof.now }
    requires room { length moof.now ≤ 2 ^ 62 }
    ensures tracks { length list.new ≡ length list.old }
    ensures back { ledger.new.live ≡ ledger.old.live }
{
    let mut steps = Steps { rows: 0 };
    let moof = match Moof::read(moof, 0, list, &mut steps) {
        Ok(moof) => moof,
        Err(fault) => return Err(Stop::Fault(fault)),
    };
    let runs = match moof.list(ledger, list, &mut steps) {
        Ok(runs) => runs,
        Err(refused) => return Err(Stop::Refused(refused)),
    };
    let payload = Payload {
        start: 0,
        end: None,
    };
    let placed = moof.places(payload, &runs);
    let count = runs.len();
    runs.back(ledger);
    if let Err(fault) = placed {
        return Err(Stop::Fault(fault));
    }
    let samples = moof.samples();
    moof.settle(list, &mut steps);
    Ok(Counts {
        runs: count,
        samples,
        rows: steps.rows,
    })
}

/// Reads the first moov and moof, and prints what there is to say of the moof.
pub(crate) fn print_counts(rt: &HostRuntime, input: &Input<'_>) -> io::Result<()> {
    let Some(Boxes { moov, moof }) = input.boxes() else {
        return println!(rt; "not a moov of at most 16 MiB and a moof of at most 64 MiB");
    };
    let mut ledger = Ledger::new(rt.alloc(), 1 << 30);
    let Ok(list) = tracks(&mut ledger, moov, 0) else {
        return println!(rt; "no tracks");
    };
    let mut list = list;
    let outcome = count(&mut ledger, &mut list, moof);
    list.back(&mut ledger);
    match outcome {
        Ok(counts) => println!(rt;
            "{} runs, {} samples, {} rows",
            counts.runs, counts.samples, counts.rows
        ),
        Err(Stop::Fault(fault)) => println!(rt; "rule {} at {}", fault.rule.number(), fault.offset),
        Err(Stop::Refused(_)) => println!(rt; "no memory"),
    }
}
