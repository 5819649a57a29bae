//! Cuts the first run of the first moof of a stream, and counts the bytes that are written for its pieces: their moofs,
//! and the headers of their mdats.

ghost use Rattle.std.specs.Prelude.{◌≡◌, ◌+◌, ◌^◌, ◌≤◌, length, Option, List, ℕ, None, Bool, true, false, IfOk, IfSome, OnErr, OnOk};
ghost use Rattle.mp4_box.specs.Headers.{IsWhole};
ghost use Rattle.mp4_frag.specs.Moofs.{IsRead};
ghost use Rattle.mp4_traf.specs.Runs.{runs_of};
ghost use Rattle.mp4_traf.specs.Ranges.{AreRunsOf, IsRunOf};

use crate::input::{Boxes, Input};
use mp4_cut::{Cut, Pieces, put_mdat_header, put_moof};
use mp4_ends::{Failed, Sink};
use mp4_frag::{Moof, Run, Steps, Traf};
use mp4_init::{TrackList, tracks};
use mp4_ledger::Ledger;
use mp4_machine::Block;
use std::io;

/// Counts the bytes that it takes.
#[derive(Drop)]
struct Counter {
    bytes: u64,
    writes: u64,
}

impl Sink for Counter {
    ghost has_failed = { λ _. false };

    fn write(&mut self, from: &[u8]) -> Result<usize, Failed> {
        self.bytes = self.bytes.saturating_add(from.len() as u64);
        self.writes = self.writes.saturating_add(1);
        Ok(from.len())
    }

    fn flush(&mut self) -> Result<(), Failed> {
        Ok(())
    }

    fn failed(&self) -> bool {
        false
    }
}

/// The first run of a traf, if it has one.
fn first_of(traf: &Traf<'_>, moof_bytes: &[u8]) -> Option<Run>
    requires { AreRunsOf moof_bytes.now (runs_of traf.now) }
    ensures { IfSome result (λ run. IsRunOf moof_bytes.now run) }
{
    traf.runs().next()
}

/// The first run of the first traf, if it has one.
fn first_run<'a>(moof: &Moof<'a>, moof_bytes: &[u8], list: &'a TrackList) -> Option<Run>
    requires moof_bytes { moof_bytes.now ≡ moof.now.bytes }
    requires whole { IsWhole moof_bytes.now }
    requires near { moof.now.offset + length moof_bytes.now ≤ 2 ^ 62 }
    requires read { IsRead moof.now list.now }
    ensures { IfSome result (λ run. IsRunOf moof_bytes.now run) }
{
    let traf = moof.trafs(list).next()?;
    first_of(&traf, moof_bytes)
}

/// Puts the moof of each piece and the header of its mdat into a block on their way to a counter:
/// how many pieces there are.
fn put_all(run: &Run, moof_bytes: &[u8], cut: &Cut, w: &mut Counter) -> Result<u32, Failed>
    requires { IsRunOf moof_bytes.now run.now }
{
    let mut block = Block::new();
    let mut number: u32 = 0;
    for piece in Pieces::of(run, moof_bytes, cut) {
        number = number.saturating_add(1);
        put_moof(&piece, run, moof_bytes, number, &mut block, w)?;
        put_mdat_header(piece.plain.bytes.min(1 << 62), &mut block, w)?;
    }
    block.send(w)?;
    Ok(number)
}

/// How many pieces the first run has, and what is counted of them.
fn cut_first(list: &TrackList, moof: &[u8], cut: &Cut, w: &mut Counter) -> Option<u32>
    requires whole { IsWhole moof.now }
    requires room { length moof.now ≤ 2 ^ 62 }
{
    let mut steps = Steps { rows: 0 };
    let Ok(read) = Moof::read(moof, 0, list, &mut steps) else {
        return None;
    };
    let run = first_run(&read, moof, list)?;
    match put_all(&run, moof, cut, w) {
        Ok(pieces) => Some(pieces),
        Err(Failed) => None,
    }
}

/// Cuts the first run of the first moof, and prints what is counted.
pub(crate) fn print_counts(rt: &HostRuntime, input: &Input<'_>) -> io::Result<()> {
    let Some(cut) = Cut::new(input.samples, None, false) else {
        return println!(rt; "no number of samples from 1 to 1,000,000");
    };
    let Some(Boxes { moov, moof }) = input.boxes() else {
        return println!(rt; "not a moov of at most 16 MiB and a moof of at most 64 MiB");
    };
    let mut ledger = Ledger::new(rt.alloc(), 1 << 30);
    let Ok(list) = tracks(&mut ledger, moov, 0) else {
        return println!(rt; "no tracks");
    };
    let mut w = Counter {
        bytes: 0,
        writes: 0,
    };
    let outcome = cut_first(&list, moof, &cut, &mut w);
    list.back(&mut ledger);
    match outcome {
        Some(pieces) => println!(rt; "{} pieces, {} bytes, {} writes", pieces, w.bytes, w.writes),
        None => println!(rt; "no run"),
    }
}
