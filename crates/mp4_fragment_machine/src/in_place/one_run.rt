//! Takes a fragment that is whole in the input, with one run, in place: it is listed or counted, recut, or refused.
//!
//! Most fragments of live streams are such. Their claims are counted, and no memory is requested.

ghost use Rattle.std.specs.Prelude.{◌≡◌, ◌+◌, ◌-◌, ◌*◌, ◌<◌, ◌≤◌, ◌^◌, ℕ, List, false, length, Some, OnOk};
ghost use Rattle.mp4_box.specs.declared.headers.Header.{Header};
ghost use Rattle.mp4_box.specs.declared.headers.Size.TheVariants.{Exact};
ghost use Rattle.mp4_init.specs.declared.table.Track.{Track};
ghost use Rattle.mp4_traf.specs.Runs.{moof_at};
ghost use Rattle.mp4_ledger.specs.Memory.{claimed, given_back};
ghost use Rattle.mp4_machine.specs.Ends.{sent};
ghost use Rattle.mp4_machine.specs.Inputs.{change};
ghost use Rattle.mp4_machine.specs.Puts.{Puts};
ghost use Rattle.mp4_machine.specs.Readings.{plus};
ghost use Rattle.mp4_grammar.specs.Commands.{accepted};
ghost use Rattle.mp4_grammar.specs.Contexts.{context};
ghost use Rattle.mp4_grammar.specs.Items.{fragment, inspected};
ghost use Rattle.mp4_grammar.specs.Meanings.{counted_in};
ghost use Rattle.mp4_pieces.specs.Pieces.{pieces_of};
ghost use Rattle.mp4_recut.specs.Media.{PutsAll};
ghost use Rattle.mp4_recut.specs.Splitting.{run_fragments};
ghost use Rattle.mp4_fragment_machine.specs.Places.{Untouched, claim_of, unsent};
ghost use Rattle.mp4_fragment_machine.specs.States.{IsCounted, listed_by, place_in};
ghost use Rattle.mp4_fragment_machine.specs.Implementation.Feeds.{Feeds, HasEnded};
ghost use Rattle.mp4_fragment_machine.specs.Implementation.InPlace.{HasOneRun, IsFragment, IsRefused, media_in, media_start};
ghost use Rattle.mp4_recut.specs.declared.operation.Operation.TheVariants as operations;

use crate::counter::{Counter, accept, count_samples, inspect};
use crate::in_place::{Boxes, ROW};
use crate::machine::FragmentMachine;
use crate::mdat::sample_lines;
use crate::mdat::traf_lines::put_single_traf;
use crate::state::{go_to, stop_at};
use mp4_box::Fault;
use mp4_cut::Cut;
use mp4_ends::{Failed, Sink};
use mp4_frag::SingleRun;
use mp4_grammar::Command;
use mp4_init::TrackList;
use mp4_ledger::Ledger;
use mp4_machine::{Block, Stop};
use mp4_recut::{Operation, whole};

impl FragmentMachine {
    /// Takes a fragment of one run that is whole at the front of the input: claims it, lists, counts or recuts it, and
    /// ends its track where its run ends. Returns how many bytes it has.
    ///
    /// # Errors
    ///
    /// `Write` where a write failed.
    #[inline(always)]
    pub(crate) fn take_one_run<W: Sink>(
        &mut self,
        at: u64,
        boxes: &Boxes<'_>,
        single_run: &SingleRun,
        ledger: &mut Ledger,
        input: &[u8],
        out: &mut Block,
        w: &mut W,
    ) -> Result<usize, Stop>
        requires found { HasOneRun self.old ledger.old at input.now boxes.now single_run.now }
        requires claim { claim_of (place_in self.old) ≤ ledger.old.live }
        ensures { Feeds (change (sent W.contents W.has_failed w.old w.new) out.old out.new
            ledger.old ledger.new self.old.counter.tally self.new.counter.tally)
            self.old self.new input.now result }
    {
        let Some(list) = &mut self.carried.tracks else {
            unreachable!();
        };
        count_allowed(ledger, boxes.moof.len() as u64 + ROW);
        let counter = &mut self.carried.counter;
        let put = match self.carried.operation {
            Operation::List(command) => {
                list_run(command, at, boxes, single_run, list, counter, out, w)
            }
            Operation::Split(cut) => {
                recut_run(&cut, at, boxes, single_run, input, counter, out, w)
            }
        };
        match put {
            Ok(()) => {
                single_run.settle(list);
                let size = boxes.moof.len() as u64 + boxes.mdat.size;
                go_to(&mut self.state, at + size);
                Ok(size as usize)
            }
            Err(Failed) => {
                stop_at(&mut self.state, &mut self.carried, ledger);
                Err(Stop::Write)
            }
        }
    }

    /// Stops at a fragment of so many samples that is whole in the input, whose only fault is a time or the place of its
    /// only run. Its claim is counted, and so are its samples, of which so many rows were read.
    #[inline(never)]
    pub(crate) fn refuse_fragment(
        &mut self,
        bytes: u64,
        samples: u128,
        rows: u128,
        fault: Fault,
        ledger: &mut Ledger,
    ) -> Stop
        requires refused { (at : ℕ) × (input : List ℕ) ×
            IsRefused self.old ledger.old at input bytes samples rows fault }
        requires claim { claim_of (place_in self.old) ≤ ledger.old.live }
        ensures ended { (u : Untouched) (at : ℕ) (input : List ℕ) →
            IsRefused self.old ledger.old at input bytes samples rows fault →
            HasEnded (change (unsent u) u.waiting u.waiting
            ledger.old ledger.new self.old.counter.tally self.new.counter.tally)
            self.old self.new input result }
        ensures rows_read { self.new.counter.steps.rows ≡ self.old.counter.steps.rows + rows }
    {
        count_allowed(ledger, bytes);
        inspect(&mut self.carried.counter, samples, rows);
        stop_at(&mut self.state, &mut self.carried, ledger);
        Stop::Stream(fault)
    }
}

/// Counts a claim of so many bytes, which the limit allows: of a moof, with the row of its run where that was read.
#[inline(always)]
fn count_allowed(ledger: &mut Ledger, bytes: u64)
    requires { ledger.old.live + bytes ≤ ledger.old.limit }
    ensures { ledger.new ≡ given_back (claimed ledger.old bytes) bytes }
{
    ledger.count_claim(bytes).unwrap();
}

/// Counts a fragment, and puts the lines of its samples or of its traf if they are asked for. Its rows were read with
/// its moof, and for its run.
///
/// # Errors
///
/// `Failed` where a write failed.
#[inline(always)]
fn list_run<W: Sink>(
    command: Command,
    at: u64,
    boxes: &Boxes<'_>,
    single_run: &SingleRun,
    tracks: &TrackList,
    counter: &mut Counter,
    out: &mut Block,
    w: &mut W,
) -> Result<(), Failed>
    requires is { (input : List ℕ) × IsFragment at tracks.now input boxes.now single_run.now }
    requires counted { IsCounted (operations.List command) counter.old at 0 0 }
    ensures puts { (g : Header) → g.size ≡ Exact boxes.now.mdat.size →
        Puts (sent W.contents W.has_failed w.old w.new) out.old out.new
        (accepted command (fragment (context at (Some tracks.now) 1) tracks.now
        boxes.now.moof.now g)).text result }
    ensures tally { (g : Header) → counter.new.tally ≡ plus (plus counter.old.tally
        (inspected (moof_at boxes.now.moof.now at))) (counted_in (fragment
        (context at (Some tracks.now) 1) tracks.now boxes.now.moof.now g)) }
    ensures rows_read { counter.new.steps.rows ≡ counter.old.steps.rows + 2 * single_run.now.run.count +
        listed_by (operations.List command) single_run.now.run.count }
    ensures counted { IsCounted (operations.List command) counter.new
        (at + length boxes.now.moof.now + boxes.now.mdat.size) 0 0 }
{
    let run = &single_run.run;
    let moof = boxes.moof;
    inspect(counter, u128::from(run.count), 2 * u128::from(run.count));
    accept(counter, command, u64::from(run.count), run.bytes);
    match command {
        Command::Check => Ok(()),
        Command::Samples => sample_lines::put_run(run, moof, out, w),
        Command::Fragments | Command::Records => {
            let size = moof.len() as u64 + boxes.mdat.size;
            put_single_traf(command, moof, at, single_run, size, tracks, out, w)
        }
    }
}

/// Counts a fragment at `at` that is recut, and puts the fragments into which its run is cut. Its rows were read with
/// its moof, and for its run.
///
/// # Errors
///
/// `Failed` where a write failed.
#[inline(always)]
fn recut_run<W: Sink>(
    cut: &Cut,
    at: u64,
    boxes: &Boxes<'_>,
    single_run: &SingleRun,
    input: &[u8],
    counter: &mut Counter,
    out: &mut Block,
    w: &mut W,
) -> Result<(), Failed>
    requires is { (tracks : List Track) × IsFragment at tracks input.now boxes.now single_run.now }
    requires plain { cut.now.index ≡ false }
    requires numbers { counter.old.tally.fragments + 1 + single_run.now.run.count ≤ 2 ^ 32 }
    requires counted { IsCounted (operations.Split cut.now) counter.old at 0 0 }
    ensures puts { (timescale : ℕ) → PutsAll (sent W.contents W.has_failed w.old w.new) out.old out.new
        (media_start at boxes.now) (media_in input.now boxes.now)
        (run_fragments cut.now boxes.now.moof.now single_run.now.run timescale 0
        (counter.old.tally.fragments + 1)
        (pieces_of cut.now boxes.now.moof.now single_run.now.run)) result }
    ensures number { OnOk result (counter.new.tally.fragments ≡ counter.old.tally.fragments +
        length (pieces_of cut.now boxes.now.moof.now single_run.now.run)) }
    ensures least { counter.old.tally.fragments ≤ counter.new.tally.fragments }
    ensures most { counter.new.tally.fragments ≤ counter.old.tally.fragments +
        length (pieces_of cut.now boxes.now.moof.now single_run.now.run) }
    ensures tally { counter.new.tally ≡ record counter.old.tally {
      fragments = counter.new.tally.fragments;
      samples = counter.old.tally.samples + single_run.now.run.count;
      media_bytes = counter.old.tally.media_bytes + single_run.now.run.bytes;
      inspected = counter.old.tally.inspected + single_run.now.run.count;
    } }
    ensures steps { counter.new.steps.rows ≡
        counter.old.steps.rows + 5 * single_run.now.run.count }
{
    let run = &single_run.run;
    inspect(counter, u128::from(run.count), 5 * u128::from(run.count));
    count_samples(&mut counter.tally, u64::from(run.count), run.bytes);
    let moof_bytes = boxes.moof;
    let mdat = &boxes.mdat;
    let (_, after) = input.split_at(moof_bytes.len());
    let (_, body) = after.split_at(mdat.header_len as usize);
    let (payload, _) = body.split_at((mdat.size - mdat.header_len) as usize);
    let start = at + moof_bytes.len() as u64 + mdat.header_len;
    let fragments = &mut counter.tally.fragments;
    match whole::put_run(run, moof_bytes, cut, start, payload, fragments, out, w) {
        Ok(()) => Ok(()),
        Err(Failed) => Err(Failed),
    }
}
