//! A run of the program.

ghost use Rattle.std.specs.Prelude.{◌≡◌, ◌≤◌, true, false, map, string_bytes, None, IfSome, IfErr, OnOk, OnErr};
ghost use Rattle.mp4_machine.specs.Ends.{between, received, sent};
ghost use Rattle.mp4_ends.specs.Streams.{AppendsPrefix};
ghost use Rattle.std.specs.Io.KnownBytes.{Appends, Keeps};
ghost use Rattle.fmp4_program.specs.Words.{IsAllowed, MayCut, command_of};
ghost use Rattle.fmp4_program.specs.Runs.{Checks, IsCutBy, Lists, Ran, ReportsStop, RunsAndFlushes, SplitsBy, WritesLine, status_of};

use crate::asked::{Invocation, Listing, Settings, SplitOptions};
use crate::command::{NoCommand, read_words};
use crate::lines::{check_line, stop_line};
use mp4_stream::fragments::fragments;
use mp4_stream::{
    Cut, Ledger, Sink, Source, Stop, Totals, boxes, check, samples, split, write_all,
};
use std::alloc::Global;

/// Runs the command that the words name, the first of which is the program's name. Bytes are read from `r`,
/// what the command writes goes to `w`, and one line on what stopped it to `fault_w`. The result is the exit
/// status: 0 after a success, 1 for words that are no command line, 2 for a stream with a fault, 3 for an end
/// that failed, 4 for out of memory or a claim past the limit.
pub fn run<R: Source, W: Sink, F: Sink>(
    alloc: Global,
    words: Vec<String>,
    r: &mut R,
    w: &mut W,
    fault_w: &mut F,
) -> u8
    ensures { Ran ((r.new ≡ r.old) × (w.new ≡ w.old)) (command_of (map string_bytes words.items))
        (record {
          ends = between (received R.remaining R.has_ended R.has_failed R.last_read r.old r.new)
              (sent W.contents W.has_failed w.old w.new);
          reported = F.contents fault_w.old;
          reported' = F.contents fault_w.new;
          fault_failed = F.has_failed fault_w.new;
          status = result;
        }) }
{
    let asked = match read_words(alloc, words.as_slice()) {
        Ok(asked) => asked,
        Err(NoCommand::BadWords) => {
            write_line(fault_w, b"fmp4: bad command line\n");
            return 1;
        }
        Err(NoCommand::Memory) => {
            write_line(fault_w, b"fmp4: out of memory\n");
            return 4;
        }
    };
    let answer = match asked {
        Invocation::Boxes(settings) => list(alloc, Listing::Boxes, r, w, settings),
        Invocation::Samples(settings) => list(alloc, Listing::Samples, r, w, settings),
        Invocation::Fragments(settings) => list(alloc, Listing::Fragments, r, w, settings),
        Invocation::Check(settings) => check_stream(alloc, r, w, settings),
        Invocation::Split(settings, options) => split_stream(alloc, r, w, settings, &options),
    };
    report_answer(fault_w, &answer);
    status_for(&answer)
}

/// Lists the stream within the memory that the settings allow, and flushes the listing.
fn list<R: Source, W: Sink>(
    alloc: Global,
    listing: Listing,
    r: &mut R,
    w: &mut W,
    settings: Settings,
) -> Result<(), Stop>
    requires { IsAllowed settings }
    ensures { RunsAndFlushes settings (Lists listing) (between
        (received R.remaining R.has_ended R.has_failed R.last_read r.old r.new)
        (sent W.contents W.has_failed w.old w.new)) result }
{
    let mut ledger = Ledger::new(alloc, settings.max_held);
    match write_listing(listing, r, w, &mut ledger, settings.copy) {
        Ok(()) => flush(w),
        Err(stop) => Err(stop),
    }
}

/// Lists the stream.
fn write_listing<R: Source, W: Sink>(
    listing: Listing,
    r: &mut R,
    w: &mut W,
    ledger: &mut Ledger,
    copy: u32,
) -> Result<(), Stop>
    requires copy { (4096 ≤ copy) × (copy ≤ 1048576) }
    requires idle { ledger.old.live ≡ 0 }
    ensures runs { Lists listing
        (record { copy = copy; limit = ledger.old.limit; peak = ledger.new.peak }) (between
        (received R.remaining R.has_ended R.has_failed R.last_read r.old r.new)
        (sent W.contents W.has_failed w.old w.new)) result }
    ensures within { ledger.new.peak ≤ ledger.old.limit }
{
    let mut totals = Totals::new();
    match listing {
        Listing::Boxes => boxes(r, w, ledger, copy, &mut totals),
        Listing::Samples => samples(r, w, ledger, copy, &mut totals),
        Listing::Fragments => fragments(r, w, ledger, copy, &mut totals),
    }
}

/// Checks the stream, and writes and flushes the line of what it counted.
fn check_stream<R: Source, W: Sink>(
    alloc: Global,
    r: &mut R,
    w: &mut W,
    settings: Settings,
) -> Result<(), Stop>
    requires { IsAllowed settings }
    ensures { Checks settings (between
        (received R.remaining R.has_ended R.has_failed R.last_read r.old r.new)
        (sent W.contents W.has_failed w.old w.new)) result }
{
    let mut ledger = Ledger::new(alloc, settings.max_held);
    let mut totals = Totals::new();
    match check(r, &mut ledger, settings.copy, &mut totals) {
        Ok(()) => send(w, check_line(&totals).bytes()),
        Err(stop) => Err(stop),
    }
}

/// The cut that the options ask for.
fn cut_by(options: &SplitOptions) -> Cut
    requires { MayCut options.now }
    ensures { IsCutBy options.now result }
{
    let cut = Cut::new(options.samples, options.bytes, options.index).unwrap();
    let cut = in_time(cut, options.duration);
    let cut = if options.keyframes {
        cut.with_keyframes()
    } else {
        cut
    };
    if options.sync { cut.with_sync() } else { cut }
}

/// The same cut, with a limit in milliseconds if there is one.
fn in_time(cut: Cut, duration: Option<u32>) -> Cut
    requires limit { IfSome duration (λ millis. 1 ≤ millis) }
    requires none { cut.duration ≡ None }
    ensures samples { result.samples ≡ cut.samples }
    ensures bytes { result.bytes ≡ cut.bytes }
    ensures index { result.index ≡ cut.index }
    ensures sync { result.sync ≡ cut.sync }
    ensures keyframes { result.keyframes ≡ cut.keyframes }
    ensures duration { result.duration ≡ duration }
{
    let Some(millis) = duration else {
        return cut;
    };
    cut.with_duration(millis).unwrap()
}

/// Cuts the fragments of the stream into shorter ones, and flushes what was written.
fn split_stream<R: Source, W: Sink>(
    alloc: Global,
    r: &mut R,
    w: &mut W,
    settings: Settings,
    options: &SplitOptions,
) -> Result<(), Stop>
    requires settings { IsAllowed settings }
    requires options { MayCut options.now }
    ensures { RunsAndFlushes settings (SplitsBy options.now) (between
        (received R.remaining R.has_ended R.has_failed R.last_read r.old r.new)
        (sent W.contents W.has_failed w.old w.new)) result }
{
    let mut ledger = Ledger::new(alloc, settings.max_held);
    let cut = cut_by(options);
    match split(r, w, &mut ledger, &cut, settings.copy, &mut Totals::new()) {
        Ok(()) => flush(w),
        Err(stop) => Err(stop),
    }
}

/// Writes these bytes and flushes them.
fn send<W: Sink>(w: &mut W, text: &[u8]) -> Result<(), Stop>
    ensures ok { OnOk result (Appends (W.contents w.old) (W.contents w.new) text.now) }
    ensures whole { OnOk result (W.has_failed w.new ≡ false) }
    ensures err { OnErr result (AppendsPrefix (W.contents w.old) (W.contents w.new) text.now) }
    ensures failed { OnErr result (W.has_failed w.new ≡ true) }
    ensures write { IfErr result (λ e. e ≡ Stop.Write) }
{
    match write_all(w, text) {
        Ok(()) => flush(w),
        Err(_) => Err(Stop::Write),
    }
}

/// Flushes what was written.
fn flush<W: Sink>(w: &mut W) -> Result<(), Stop>
    ensures bytes { Keeps (W.contents w.old) (W.contents w.new) }
    ensures ok { OnOk result ((W.has_failed w.old ≡ false) × (W.has_failed w.new ≡ false)) }
    ensures err { IfErr result (λ e. (e ≡ Stop.Write) × (W.has_failed w.new ≡ true)) }
{
    match w.flush() {
        Ok(()) => Ok(()),
        Err(_) => Err(Stop::Write),
    }
}

fn status_for(answer: &Result<(), Stop>) -> u8
    ensures { result ≡ status_of answer.now }
{
    match answer {
        Ok(()) => 0,
        Err(Stop::Stream(_)) => 2,
        Err(Stop::Read { .. }) | Err(Stop::Write) => 3,
        Err(Stop::OverLimit) | Err(Stop::Memory) => 4,
    }
}

/// Writes a line. If its writer fails, the failure can't be reported.
fn write_line<F: Sink>(fault_w: &mut F, text: &[u8])
    ensures { WritesLine (F.contents fault_w.old) (F.contents fault_w.new) (F.has_failed fault_w.new)
        text.now }
{
    let _ = write_all(fault_w, text);
}

fn report_answer<F: Sink>(fault_w: &mut F, answer: &Result<(), Stop>)
    ensures { ReportsStop (F.contents fault_w.old) (F.contents fault_w.new) (F.has_failed fault_w.new)
        answer.now }
{
    match answer {
        Ok(()) => {}
        Err(stop) => write_line(fault_w, stop_line(stop).bytes()),
    }
}
