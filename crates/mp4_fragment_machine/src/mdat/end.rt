//! The end of an mdat: its tracks end, and its moof is given back.

ghost use Rattle.std.specs.Prelude.{◌≡◌, ◌+◌, ◌*◌, ◌<◌, ◌≤◌, ◌^◌, length, Some};
ghost use Rattle.mp4_frag.specs.Moofs.{moof_of, moof_samples, moof_trafs};
ghost use Rattle.mp4_traf.specs.Settling.{settled, timed_of};
ghost use Rattle.mp4_ledger.specs.Memory.{given_back};
ghost use Rattle.mp4_fragment_machine.specs.States.{IsPendingMoof, moof_in};

use crate::counter::Counter;
use crate::pending_moof::PendingMoof;
use mp4_init::TrackList;
use mp4_ledger::Ledger;

/// Ends the tracks after a moof and its mdat, and gives the moof and its list back.
pub(crate) fn end_fragment(
    pending_moof: PendingMoof,
    tracks: &mut TrackList,
    ledger: &mut Ledger,
    counter: &mut Counter,
)
    requires pending_moof { IsPendingMoof (Some tracks.old) pending_moof }
    requires claim { pending_moof.moof.size + 64 * length pending_moof.runs.rows ≤ ledger.old.live }
    requires steps { counter.old.steps.rows < 2 ^ 127 }
    ensures tracks { tracks.new ≡ settled tracks.old (moof_trafs (moof_in pending_moof) tracks.old) }
    ensures len { length tracks.new ≡ length tracks.old }
    ensures back { ledger.new ≡ given_back (given_back ledger.old
        (64 * length pending_moof.runs.rows)) pending_moof.moof.size }
    ensures tally { counter.new.tally ≡ counter.old.tally }
    ensures rows_read { counter.new.steps.rows ≡
        counter.old.steps.rows + timed_of (moof_of (moof_in pending_moof)) }
    ensures few { counter.new.steps.rows ≤
        counter.old.steps.rows + moof_samples (moof_in pending_moof) }
{
    pending_moof.moof().settle(tracks, &mut counter.steps);
    let PendingMoof { moof, runs } = pending_moof;
    runs.back(ledger);
    moof.back(ledger);
}
