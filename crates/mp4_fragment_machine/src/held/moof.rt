//! A moof of which all bytes came.

ghost use Rattle.std.specs.Prelude.{◌≡◌, ◌+◌, ◌*◌, ◌<◌, ◌≤◌, ◌^◌, [], length, None, Some, IfOk, IfErr, IfSome, OnOk, OnErr, IsSome};
ghost use Rattle.mp4_frag.specs.Moofs.{IsRead, fault_before_times, moof_fault, moof_samples};
ghost use Rattle.mp4_traf.specs.Rules.{most_in_moof};
ghost use Rattle.mp4_traf.specs.Runs.{moof_at};
ghost use Rattle.mp4_machine.specs.Bodies.{longest};
ghost use Rattle.mp4_machine.specs.Buffering.{Begins};
ghost use Rattle.mp4_machine.specs.Readings.{plus};
ghost use Rattle.mp4_grammar.specs.Items.{inspected};
ghost use Rattle.mp4_fragment_machine.specs.Places.{Untouched};
ghost use Rattle.mp4_fragment_machine.specs.States.{known};
ghost use Rattle.mp4_fragment_machine.specs.Implementation.Steps.{CanStep, AcceptsMoof, ledger_alone};
ghost use Rattle.mp4_fragment_machine.specs.Implementation.InPlace.{WasReadInPlace};
ghost use Rattle.mp4_fragment_machine.specs.declared.state.State.TheVariants as states;

use crate::counter::{Counter, inspect};
use crate::in_place::attempt::InPlaceRead;
use crate::pending_moof::PendingMoof;
use crate::state::Carried;
use mp4_box::Fault;
use mp4_frag::{Moof, Steps};
use mp4_init::TrackList;
use mp4_ledger::Ledger;
use mp4_machine::{BufferedBox, Stop};

/// Reads a moof, and claims the list of its runs: it is kept for its mdat then, and given back where it is refused.
/// `found`: what was found in it in place, if it was read there.
///
/// # Errors
///
/// `Stream` where it is at fault; `OverLimit` or `Memory` where the claim of the list is refused.
pub(crate) fn accept_moof(
    buffered: BufferedBox,
    found: Option<InPlaceRead>,
    carried: &mut Carried,
    ledger: &mut Ledger,
) -> Result<PendingMoof, Stop>
    requires known { carried.old.tracks ≡ Some (known carried.old.tracks) }
    requires begins { Begins buffered.size buffered.bytes }
    requires near { buffered.at + buffered.size ≤ longest }
    requires whole { length buffered.bytes ≡ buffered.size }
    requires empty { carried.old.header_bytes ≡ [] }
    requires can { CanStep carried.old ledger.old (states.Buffering buffered) }
    requires found { IfSome found (WasReadInPlace (moof_at buffered.bytes buffered.at) (known carried.old.tracks)) }
    ensures tracks { OnOk result (carried.new.tracks ≡ carried.old.tracks) }
    ensures waits { (u : Untouched) → AcceptsMoof (ledger_alone u ledger.old ledger.new)
        carried.old carried.new (states.Buffering buffered) result }
    ensures rows_read { OnOk result (carried.new.counter.steps.rows ≡
        carried.old.counter.steps.rows + 2 * moof_samples (moof_at buffered.bytes buffered.at)) }
    ensures once { OnErr result (carried.new.counter.steps.rows + carried.old.counter.tally.inspected ≡
        carried.old.counter.steps.rows + carried.new.counter.tally.inspected) }
{
    let Some(list) = &carried.tracks else {
        unreachable!();
    };
    let moof = match read_moof(&buffered, found, list, &mut carried.counter) {
        Ok(moof) => moof,
        Err(fault) => {
            buffered.back(ledger);
            return Err(Stop::Stream(fault));
        }
    };
    match moof.list(ledger, list, &mut carried.counter.steps) {
        Ok(runs) => Ok(PendingMoof {
            moof: buffered,
            runs,
        }),
        Err(refused) => {
            buffered.back(ledger);
            Err(Stop::of_refusal(refused))
        }
    }
}

/// Reads a moof of which all bytes came, and counts its samples as inspected once they were read. Where it was read in
/// place, those rows are counted, and what was found is reported.
///
/// # Errors
///
/// What is at fault with it.
fn read_moof<'a>(
    buffered: &'a BufferedBox,
    found: Option<InPlaceRead>,
    tracks: &TrackList,
    counter: &mut Counter,
) -> Result<Moof<'a>, Fault>
    requires begins { Begins buffered.now.size buffered.now.bytes }
    requires whole { length buffered.now.bytes ≡ buffered.now.size }
    requires steps { counter.old.steps.rows < 2 ^ 127 }
    requires inspected { counter.old.tally.inspected < 2 ^ 127 }
    requires found { IfSome found (WasReadInPlace (moof_at buffered.now.bytes buffered.now.at) tracks.now) }
    ensures moof { IfOk result (λ m. m ≡ moof_at buffered.now.bytes buffered.now.at) }
    ensures good { OnOk result (IsRead (moof_at buffered.now.bytes buffered.now.at) tracks.now) }
    ensures fault { IfErr result (λ f.
        moof_fault (moof_at buffered.now.bytes buffered.now.at) tracks.now ≡ Some f) }
    ensures tally { fault_before_times (moof_at buffered.now.bytes buffered.now.at) tracks.now ≡ None →
        counter.new.tally ≡
        plus counter.old.tally (inspected (moof_at buffered.now.bytes buffered.now.at)) }
    ensures rows { fault_before_times (moof_at buffered.now.bytes buffered.now.at) tracks.now ≡ None →
        counter.new.steps.rows ≡
        counter.old.steps.rows + moof_samples (moof_at buffered.now.bytes buffered.now.at) }
    ensures once { counter.new.steps.rows + counter.old.tally.inspected ≡
        counter.old.steps.rows + counter.new.tally.inspected }
    ensures unread { IsSome (fault_before_times (moof_at buffered.now.bytes buffered.now.at) tracks.now) →
        counter.new ≡ counter.old }
    ensures few { fault_before_times (moof_at buffered.now.bytes buffered.now.at) tracks.now ≡ None →
        moof_samples (moof_at buffered.now.bytes buffered.now.at) ≤ most_in_moof }
    ensures fragments { counter.new.tally.fragments ≡ counter.old.tally.fragments }
{
    if let Some(found) = found {
        return match found.count(counter) {
            Ok(()) => Ok(Moof::again(buffered.bytes(), buffered.offset())),
            Err(fault) => Err(fault),
        };
    }
    let mut steps = Steps { rows: 0 };
    let read = Moof::read(buffered.bytes(), buffered.offset(), tracks, &mut steps);
    inspect(counter, steps.rows, steps.rows);
    match read {
        Ok(moof) => Ok(moof),
        Err(fault) => Err(fault),
    }
}
