//! A moof that waits for its mdat.

ghost use Rattle.std.specs.Prelude.{◌≡◌, Some, ◌≤◌, List};
ghost use Rattle.mp4_init.specs.declared.table.Track.{Track};
ghost use Rattle.mp4_ledger.specs.Memory.{given_back};
ghost use Rattle.mp4_fragment_machine.specs.States.{IsPendingMoof, moof_in, taken_by};

use mp4_frag::{Moof, RunList};
use mp4_ledger::Ledger;
use mp4_machine::BufferedBox;

/// A sound moof that waits for its mdat or for the end of that, with its runs in the order in which they are taken.
pub(crate) struct PendingMoof {
    pub(crate) moof: BufferedBox,
    pub(crate) runs: RunList,
}

impl PendingMoof {
    /// The moof that was read from its bytes. It reads no row.
    #[inline(always)]
    pub(crate) fn moof(&self) -> Moof<'_>
        requires { (tracks : List Track) × IsPendingMoof (Some tracks) self.now }
        ensures { result ≡ moof_in self.now }
    {
        Moof::again(self.moof.bytes(), self.moof.offset())
    }
}

/// Gives a pending moof and its list back, if there is one.
pub(crate) fn back(pending_moof: Option<PendingMoof>, ledger: &mut Ledger)
    requires { taken_by pending_moof ≤ ledger.old.live }
    ensures { ledger.new ≡ given_back ledger.old (taken_by pending_moof) }
{
    if let Some(PendingMoof { moof, runs }) = pending_moof {
        runs.back(ledger);
        moof.back(ledger);
    }
}
