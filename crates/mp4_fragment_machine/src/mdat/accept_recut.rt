//! Accepts a fragment that is recut, and begins its media.

ghost use Rattle.std.specs.Prelude.{◌≡◌, ℕ, ◌+◌, ◌<◌, ◌≤◌, ◌^◌, List, length, None, Some, OnOk, []};
ghost use Rattle.std.specs.List.{sum_by};
ghost use Rattle.mp4_box.specs.Headers.{HasRoom, header_at, need};
ghost use Rattle.mp4_box.specs.declared.headers.Header.{Header};
ghost use Rattle.mp4_box.specs.declared.headers.Step.TheVariants as steps;
ghost use Rattle.mp4_init.specs.Moovs.{fault_of};
ghost use Rattle.mp4_frag.specs.Moofs.{moof_runs, moof_samples};
ghost use Rattle.mp4_frag.specs.RunLists.{taken_runs};
ghost use Rattle.mp4_traf.specs.declared.run.Run.{Run};
ghost use Rattle.mp4_traf.specs.Rules.{most_in_moof};
ghost use Rattle.mp4_pieces.specs.Rooms.{room_fault};
ghost use Rattle.mp4_machine.specs.Ends.{sent};
ghost use Rattle.mp4_machine.specs.Bodies.{least_end, longest};
ghost use Rattle.mp4_grammar.specs.Meanings.{fragment_fault};
ghost use Rattle.mp4_recut.specs.Splitting.{runs_fragments, splitting};
ghost use Rattle.mp4_recut.specs.Cursors.{AreCut};
ghost use Rattle.mp4_recut.specs.declared.operation.Operation.TheVariants as operations;
ghost use Rattle.mp4_fragment_machine.specs.Places.{Untouched};
ghost use Rattle.mp4_fragment_machine.specs.States.{IsPendingMoof, claimed_in, cut_least, cut_most, moof_in, reads_per_row, IsCounted, bound_after, known};
ghost use Rattle.mp4_fragment_machine.specs.Implementation.Media.{BeginsMedia};
ghost use Rattle.mp4_fragment_machine.specs.Implementation.Recuts.{recut_fragment};
ghost use Rattle.mp4_fragment_machine.specs.Implementation.Splits.{BeginsSplit, EntersMedia};
ghost use Rattle.mp4_fragment_machine.specs.Implementation.Steps.{borrowed, Advances, MayBeginFragment, ledger_alone, with_head};
ghost use Rattle.mp4_fragment_machine.specs.declared.state.State.TheVariants as states;

use crate::counter::{Counter, count_samples};
use crate::mdat::check::{check_mdat, payload_of};
use crate::mdat::end::end_fragment;
use crate::mdat::totals::{MoofTotals, add_up_runs};
use crate::pending_moof::{PendingMoof, back};
use crate::state::{Carried, Recutting, State};
use mp4_box::{Fault, Header};
use mp4_cut::Cut;
use mp4_ends::{Failed, Sink};
use mp4_frag::Steps;
use mp4_init::TrackList;
use mp4_ledger::Ledger;
use mp4_machine::{AnyBody, Block, Stop, Tally, body_of};
use mp4_recut::media::{CutMoof, Media, begin, write_ready_heads};
use mp4_recut::room::check_room;

/// A fragment that was begun: its moof, its media, and how many bytes of its mdat's payload are needed.
pub(crate) struct Split {
    pub(crate) pending_moof: PendingMoof,
    pub(crate) media: Media,
    pub(crate) needed: u64,
}

/// Begins the media of the pending moof, whose mdat is accepted: counts its samples, and writes everything that needs
/// no media yet.
///
/// # Errors
///
/// `Failed` where a write failed.
fn begin_media<W: Sink>(
    pending_moof: &PendingMoof,
    moof_totals: MoofTotals,
    tracks: &TrackList,
    cut: &Cut,
    tally: &mut Tally,
    out: &mut Block,
    w: &mut W,
) -> Result<Media, Failed>
    requires pending_moof { IsPendingMoof (Some tracks.now) pending_moof.now }
    requires cut { AreCut cut.now (moof_in pending_moof.now) tracks.now }
    requires numbers { tally.old.fragments + 1 + length (runs_fragments cut.now pending_moof.now.moof.bytes
        tracks.now (tally.old.fragments + 1) (taken_runs (moof_in pending_moof.now) tracks.now)) ≤ 2 ^ 32 }
    requires samples { moof_totals.samples ≡ moof_samples (moof_in pending_moof.now) }
    requires bytes { moof_totals.bytes ≡ sum_by (λ (run : Run). run.bytes)
        (taken_runs (moof_in pending_moof.now) tracks.now) }
    requires few { tally.old.samples + moof_totals.samples < 2 ^ 128 }
    requires small { tally.old.media_bytes + moof_totals.bytes < 2 ^ 64 }
    ensures { (h : Header) → HasRoom h.size h.header_len → fragment_fault (splitting cut.now)
        (recut_fragment pending_moof.now tracks.now (tally.old.fragments + 1) h) ≡ None →
        BeginsMedia cut.now (recut_fragment pending_moof.now tracks.now (tally.old.fragments + 1) h)
        pending_moof.now (sent W.contents W.has_failed w.old w.new) out.old out.new tally.old tally.new result }
{
    count_samples(tally, moof_totals.samples, moof_totals.bytes);
    let moof = pending_moof.moof();
    let cut_moof = CutMoof {
        moof: &moof,
        runs: &pending_moof.runs,
        tracks,
        cut,
    };
    let media = begin(&cut_moof);
    match write_ready_heads(media, &cut_moof, &mut tally.fragments, out, w) {
        Ok(media) => Ok(media),
        Err(Failed) => Err(Failed),
    }
}

/// Checks that there is room for the numbers of the pieces of the pending moof, if the next fragment has this one: then
/// its runs can be cut. The rows that are read for this, and while its samples are recut, are counted.
///
/// # Errors
///
/// As [`check_room`].
fn check_fragment(
    pending_moof: &PendingMoof,
    tracks: &TrackList,
    cut: &Cut,
    number: u64,
    samples: u64,
    steps: &mut Steps,
) -> Result<(), Fault>
    requires pending_moof { IsPendingMoof (Some tracks.now) pending_moof.now }
    requires numbers { number ≤ 2 ^ 32 }
    requires samples { samples ≡ moof_samples (moof_in pending_moof.now) }
    requires few { samples ≤ most_in_moof }
    requires steps { steps.old.rows < 2 ^ 120 }
    ensures cut { OnOk result (AreCut cut.now (moof_in pending_moof.now) tracks.now) }
    ensures numbers { OnOk result (number + length (runs_fragments cut.now pending_moof.now.moof.bytes
        tracks.now number (taken_runs (moof_in pending_moof.now) tracks.now)) ≤ 2 ^ 32) }
    ensures fault { fault_of result ≡ room_fault cut.now (moof_in pending_moof.now)
        (moof_runs (moof_in pending_moof.now) tracks.now) number }
    ensures least { OnOk result (steps.old.rows + cut_least cut.now.index samples ≤
        steps.new.rows) }
    ensures low { steps.old.rows ≤ steps.new.rows }
    ensures most { steps.new.rows ≤ steps.old.rows + cut_most cut.now.index samples }
{
    let moof = pending_moof.moof();
    match check_room(&moof, tracks, cut, number, samples, steps) {
        Ok(()) => {
            steps.rows += u128::from(samples * reads_per_row(cut));
            Ok(())
        }
        Err(fault) => Err(fault),
    }
}

/// The greatest number of reads of each row while its run is recut: for its piece, for the number of pieces, and for
/// its moof; with an index again for its group, for the number of its pieces, and twice for the reference.
fn reads_per_row(cut: &Cut) -> u64
    ensures { result ≡ reads_per_row cut.now.index }
{
    if cut.has_index() { 7 } else { 3 }
}

/// Begins to recut the fragment of the pending moof, followed by the box with this header: counts its samples, and
/// writes everything that needs no media yet. The moof and its list are given back where it is refused.
///
/// # Errors
///
/// `Stream` where that box may not follow, the runs of the moof don't lie in it, or there is no room for the numbers of
/// its pieces; `Write` where a write failed.
fn begin_fragment<W: Sink>(
    pending_moof: PendingMoof,
    header: &Header,
    tracks: &TrackList,
    cut: &Cut,
    ledger: &mut Ledger,
    counter: &mut Counter,
    out: &mut Block,
    w: &mut W,
) -> Result<Split, Stop>
    requires room { HasRoom header.now.size header.now.header_len }
    requires pending_moof { IsPendingMoof (Some tracks.now) pending_moof }
    requires claim { claimed_in (Some tracks.now) (Some pending_moof) ≤ ledger.old.live }
    requires numbers { counter.old.tally.fragments + 1 ≤ 2 ^ 32 }
    requires steps { counter.old.steps.rows < 2 ^ 120 }
    requires few { counter.old.tally.samples < 2 ^ 100 }
    requires small { counter.old.tally.media_bytes < 2 ^ 63 }
    ensures { (header_bytes : List ℕ) → length header_bytes ≡ need header_bytes →
        header_at header_bytes ≡ steps.Whole header.now → BeginsSplit cut.now (recut_fragment pending_moof
        tracks.now (counter.old.tally.fragments + 1) header.now) pending_moof header.now header_bytes
        (borrowed W.contents W.has_failed w.old w.new out.old out.new ledger.old ledger.new)
        counter.old counter.new result }
{
    match check_mdat(&pending_moof, header, tracks) {
        Ok(()) => {}
        Err(fault) => {
            back(Some(pending_moof), ledger);
            return Err(Stop::Stream(fault));
        }
    }
    let next = pending_moof.moof.offset() + pending_moof.moof.size();
    let totals = add_up_runs(&pending_moof, payload_of(next, header), tracks);
    let samples = totals.samples;
    let number = counter.tally.fragments + 1;
    let steps = &mut counter.steps;
    match check_fragment(&pending_moof, tracks, cut, number, samples, steps) {
        Ok(()) => {}
        Err(fault) => {
            back(Some(pending_moof), ledger);
            return Err(Stop::Stream(fault));
        }
    }
    let needed = totals.needed;
    let tally = &mut counter.tally;
    match begin_media(&pending_moof, totals, tracks, cut, tally, out, w) {
        Ok(media) => Ok(Split {
            pending_moof,
            media,
            needed,
        }),
        Err(Failed) => {
            back(Some(pending_moof), ledger);
            Err(Stop::Write)
        }
    }
}

/// The state after the header of the mdat at `at`, whose media were begun.
fn enter_media(
    at: u64,
    header: &Header,
    split: Split,
    carried: &mut Carried,
    ledger: &mut Ledger,
) -> State
    requires room { HasRoom header.now.size header.now.header_len }
    requires near { least_end at header.now header.now.size ≤ longest }
    requires at { at ≡ split.pending_moof.moof.at + length split.pending_moof.moof.bytes }
    requires empty { carried.old.header_bytes ≡ [] }
    requires pending_moof { IsPendingMoof carried.old.tracks split.pending_moof }
    requires claim { claimed_in carried.old.tracks (Some split.pending_moof) ≤ ledger.old.live }
    requires counted { IsCounted carried.old.operation carried.old.counter (bound_after at header.now.size)
        0 (moof_samples (moof_in split.pending_moof)) }
    ensures { (cut : Cut) (number : ℕ) (u : Untouched) → carried.old.operation ≡ operations.Split cut →
        EntersMedia cut (recut_fragment split.pending_moof (known carried.old.tracks) number header.now)
        header.now split (ledger_alone u ledger.old ledger.new) carried.old carried.new result }
{
    let Split {
        pending_moof,
        media,
        needed,
    } = split;
    let Some(list) = &mut carried.tracks else {
        unreachable!();
    };
    match body_of(at, header, needed) {
        AnyBody::Empty { next } => {
            end_fragment(pending_moof, list, ledger, &mut carried.counter);
            State::Header { at: next }
        }
        AnyBody::Bytes(body) => State::Media(Recutting {
            body,
            media,
            pending_moof,
        }),
    }
}

/// Begins to recut the fragment of the pending moof, followed by the box with this header. Returns the next state. The
/// moof and its list are given back where it is refused.
///
/// # Errors
///
/// As [`begin_fragment`].
pub(crate) fn accept_recut<W: Sink>(
    pending_moof: PendingMoof,
    header: &Header,
    cut: Cut,
    carried: &mut Carried,
    ledger: &mut Ledger,
    out: &mut Block,
    w: &mut W,
) -> Result<State, Stop>
    requires { (header_bytes : List ℕ) × MayBeginFragment (operations.Split cut) carried.old ledger.old
        pending_moof header.now header_bytes }
    ensures { (header_bytes : List ℕ) → MayBeginFragment (operations.Split cut) carried.old ledger.old
        pending_moof header.now header_bytes →
        Advances (borrowed W.contents W.has_failed w.old w.new out.old out.new ledger.old ledger.new)
        (with_head header_bytes carried.old) carried.new (states.MdatHeader pending_moof) result }
{
    let Some(list) = &carried.tracks else {
        unreachable!();
    };
    let at = pending_moof.moof.offset() + pending_moof.moof.size();
    match begin_fragment(
        pending_moof,
        header,
        list,
        &cut,
        ledger,
        &mut carried.counter,
        out,
        w,
    ) {
        Ok(split) => Ok(enter_media(at, header, split, carried, ledger)),
        Err(stop) => Err(stop),
    }
}
