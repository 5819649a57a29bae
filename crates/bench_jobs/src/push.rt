//! Pushes a stream into a Feeder in inputs, as often as asked, and counts the bytes that are written. With inputs of 0
//! bytes the stream is read by `split`, 65,536 bytes at a time.

ghost use Rattle.std.specs.Prelude.{◌<◌, ◌≤◌, false};
ghost use Rattle.mp4_stream.specs.Feeders.{held_by};

use crate::input::Input;
use mp4_ends::{Failed, Sink};
use mp4_stream::ends::FromSlice;
use mp4_stream::{Cut, Feeder, Ledger, Stop, Totals, split};
use std::alloc::Global;
use std::io;

/// How many bytes `split` reads at once.
const PIECE: u32 = 65_536;

/// The ledger's limit.
const LIMIT: u64 = 1 << 30;

/// Counts the bytes that it takes.
#[derive(Drop)]
struct Counter {
    bytes: u64,
}

impl Sink for Counter {
    ghost has_failed = { λ _. false };

    fn write(&mut self, from: &[u8]) -> Result<usize, Failed> {
        self.bytes = self.bytes.saturating_add(from.len() as u64);
        Ok(from.len())
    }

    fn flush(&mut self) -> Result<(), Failed> {
        Ok(())
    }

    fn failed(&self) -> bool {
        false
    }
}

/// What came of a stream: the totals or why it stopped, and how many bytes are claimed still.
#[derive(Clone, Copy)]
struct Outcome {
    answer: Result<Totals, Stop>,
    live: u64,
}

/// A Feeder, and the ledger that serves it.
struct Pushed {
    feeder: Feeder,
    ledger: Ledger,
    ghost claim: { held_by feeder ≤ ledger.live },
}

impl Pushed {
    fn new(alloc: Global, cut: Cut) -> Pushed {
        Pushed {
            feeder: Feeder::new(cut),
            ledger: Ledger::new(alloc, LIMIT),
        }
    }

    /// Pushes a stream in, in inputs of so many bytes.
    fn push_all(&mut self, stream: &[u8], len: usize, w: &mut Counter) -> Result<(), Stop>
        requires { 0 < len }
    {
        for input in stream.chunks(len) {
            self.feeder.feed(&mut self.ledger, input, w)?;
        }
        Ok(())
    }

    /// Ends the stream.
    fn finish(self) -> Outcome {
        let Pushed { feeder, ledger } = self;
        let mut ledger = ledger;
        let answer = feeder.finish(&mut ledger);
        Outcome {
            answer,
            live: ledger.live(),
        }
    }
}

/// Cuts a stream that comes in inputs of so many bytes.
fn push_stream(alloc: Global, stream: &[u8], len: usize, cut: Cut, w: &mut Counter) -> Outcome
    requires { 0 < len }
{
    let mut pushed = Pushed::new(alloc, cut);
    // After a stop `finish` answers the same.
    let _ = pushed.push_all(stream, len, w);
    pushed.finish()
}

/// Cuts a stream that is read.
fn read_stream(alloc: Global, stream: &[u8], cut: Cut, w: &mut Counter) -> Outcome {
    let mut ledger = Ledger::new(alloc, LIMIT);
    let mut totals = Totals::new();
    let mut r = FromSlice::new(stream, PIECE as usize, false);
    let answer = match split(&mut r, w, &mut ledger, &cut, PIECE, &mut totals) {
        Ok(()) => Ok(totals),
        Err(stop) => Err(stop),
    };
    Outcome {
        answer,
        live: ledger.live(),
    }
}

/// Cuts a stream, in inputs of so many bytes or as a whole.
fn cut_stream(alloc: Global, stream: &[u8], len: usize, cut: Cut, w: &mut Counter) -> Outcome {
    if len == 0 {
        read_stream(alloc, stream, cut, w)
    } else {
        push_stream(alloc, stream, len, cut, w)
    }
}

/// Cuts the stream as often as asked, and prints what is counted of the last time.
pub(crate) fn print_counts(rt: &HostRuntime, input: &Input<'_>) -> io::Result<()> {
    let Some(cut) = Cut::new(input.samples, None, false) else {
        return println!(rt; "no number of samples from 1 to 1,000,000");
    };
    for _ in 1..input.times {
        let _ = cut_stream(
            rt.alloc(),
            input.stream,
            input.len,
            cut,
            &mut Counter { bytes: 0 },
        );
    }
    let mut w = Counter { bytes: 0 };
    let Outcome { answer, live } = cut_stream(rt.alloc(), input.stream, input.len, cut, &mut w);
    match answer {
        Ok(totals) => println!(rt; "{} fragments, {} bytes", totals.fragments, w.bytes),
        Err(stop) => println!(rt; "{stop:?} after {} bytes, {live} claimed", w.bytes),
    }
}
