//! Recuts media as they come.

ghost use Rattle.std.specs.Prelude.{◌≡◌, ◌+◌, ◌-◌, ◌<◌, ◌≤◌, length};
ghost use Rattle.mp4_machine.specs.Bodies.{latest_end, longest};
ghost use Rattle.mp4_machine.specs.Ends.{sent};
ghost use Rattle.mp4_fragment_machine.specs.States.{AreMediaOf};
ghost use Rattle.mp4_recut.specs.Media.{copy_taken};
ghost use Rattle.mp4_fragment_machine.specs.Implementation.Media.{TakesMedia};
ghost use Rattle.mp4_fragment_machine.specs.Implementation.Steps.{CanStep, ConsumesInPlace, IsIn, borrowed};
ghost use Rattle.mp4_fragment_machine.specs.declared.state.Recutting.{Recutting};
ghost use Rattle.mp4_fragment_machine.specs.declared.state.State.TheVariants as states;

use crate::mdat::end::end_fragment;
use crate::state::{Carried, Recutting, State, leave_media, let_go};
use mp4_cut::Cut;
use mp4_ends::{Failed, Sink};
use mp4_init::TrackList;
use mp4_ledger::Ledger;
use mp4_machine::{Block, Stop, Tally};
use mp4_recut::Operation;
use mp4_recut::media::{CutMoof, Media, copy_all_media};

/// Takes bytes of an mdat that is recut from the front of the input: all that belong to the bytes that remain of it.
/// Returns how many. The media are changed in place, and nothing else is.
///
/// # Errors
///
/// `Failed` where a write failed.
pub(crate) fn recut_front<W: Sink>(
    recutting: &mut Recutting,
    input: &[u8],
    tracks: &TrackList,
    cut: &Cut,
    tally: &mut Tally,
    out: &mut Block,
    w: &mut W,
) -> Result<usize, Failed>
    requires within { recutting.old.body.left ≤ latest_end recutting.old.body.extent }
    requires near { latest_end recutting.old.body.extent ≤ longest }
    requires media { AreMediaOf cut.now tracks.now recutting.old.pending_moof
        (tally.old.fragments + 1) recutting.old.media }
    ensures takes { TakesMedia cut.now tracks.now recutting.old.pending_moof
        (sent W.contents W.has_failed w.old w.new) out.old out.new tally.old tally.new
        (latest_end recutting.old.body.extent - recutting.old.body.left) recutting.old.body.left
        recutting.old.media input.now (copy_taken recutting.new.media result) }
    ensures body { recutting.new.body ≡ recutting.old.body }
    ensures moof { recutting.new.pending_moof ≡ recutting.old.pending_moof }
{
    let at = recutting.body.reached();
    let most = recutting.body.left.min(input.len() as u64);
    let (front, _) = input.split_at(most as usize);
    let media = &mut recutting.media;
    let pending_moof = &recutting.pending_moof;
    let moof = pending_moof.moof();
    let cut_moof = CutMoof {
        moof: &moof,
        runs: &pending_moof.runs,
        tracks,
        cut,
    };
    match copy_all_media(at, media, front, &cut_moof, &mut tally.fragments, out, w) {
        Ok(()) => Ok(most as usize),
        Err(Failed) => Err(Failed),
    }
}

/// Takes bytes of an mdat that is recut from the front of the input, and changes the state in place. Returns how many.
/// At its end, and at a stop, its moof is given back; at its end its tracks end too.
///
/// # Errors
///
/// `Stream` where the mdat goes too far: the bytes before that were recut; `Write` where a write failed.
pub(crate) fn take_recut<W: Sink>(
    current: &mut State,
    input: &[u8],
    carried: &mut Carried,
    ledger: &mut Ledger,
    out: &mut Block,
    w: &mut W,
) -> Result<usize, Stop>
    requires some { 0 < length input.now }
    requires media { (r : Recutting) × (current.old ≡ states.Media r) }
    requires state { IsIn carried.old current.old }
    requires can { CanStep carried.old ledger.old current.old }
    ensures { ConsumesInPlace (borrowed W.contents W.has_failed w.old w.new out.old out.new ledger.old ledger.new)
        carried.old carried.new current.old current.new input.now result }
{
    let Operation::Split(cut) = &carried.operation else {
        unreachable!();
    };
    let Some(list) = &mut carried.tracks else {
        unreachable!();
    };
    let State::Media(recutting) = current else {
        unreachable!();
    };
    let tally = &mut carried.counter.tally;
    if recutting.body.left == 0 {
        let stop = recutting.body.too_far();
        let_go(current, ledger);
        return Err(stop);
    }
    let count = match recut_front(recutting, input, list, cut, tally, out, w) {
        Ok(count) => count,
        Err(Failed) => {
            let_go(current, ledger);
            return Err(Stop::Write);
        }
    };
    recutting.body.pass(count as u64);
    if let Some(next) = recutting.body.next() {
        let counter = &mut carried.counter;
        end_fragment(leave_media(current, next), list, ledger, counter);
        return Ok(count);
    }
    Ok(count)
}
