//! Where the runs of a moof may lie: the rule RunPlace.

ghost use Rattle.std.specs.Prelude.{◌≡◌, List, ◌∷◌, []};
ghost use Rattle.mp4_init.specs.declared.table.Track.{Track};
ghost use Rattle.mp4_init.specs.Moovs.{fault_of};
ghost use Rattle.mp4_frag.specs.Moofs.{moof_runs};
ghost use Rattle.mp4_run_order.specs.Places.{lies_in};
ghost use Rattle.mp4_frag.specs.Places.{IsPlaceFault, listed_run, place_fault, run_place_fault};
ghost use Rattle.mp4_frag.specs.RunLists.{moof_listing};
ghost use Rattle.mp4_frag.specs.ListsOfRuns.{IsListOf};

use crate::moof::Moof;
use crate::run_list::RunList;
use crate::run_list::listed::runs_of;
use crate::single_run::SingleRun;
use mp4_box::types::TRUN;
use mp4_box::{Fault, Rule};
use mp4_run_order::{Payload, PlaceSearch};
use mp4_traf::Run;

/// Fault of the trun that begins at this offset and may not lie where it does.
pub(crate) fn run_place_fault(offset: u64) -> Fault
    ensures { result ≡ run_place_fault offset }
{
    Fault {
        rule: Rule::RunPlace,
        kind: Some(TRUN),
        offset,
    }
}

impl<'a> Moof<'a> {
    /// Whether its runs may lie where they do in the payload of its mdat. The list is that of this moof, with the
    /// tracks that it was read with. No row is read.
    ///
    /// # Errors
    ///
    /// RunPlace at the first trun in the listing that is at fault: it has samples, and its run doesn't lie in the
    /// payload, shares a byte with a run that is listed earlier, or begins before the end of a run of its track
    /// with samples that is listed earlier.
    pub fn places(&self, payload: Payload, list: &RunList) -> Result<(), Fault>
        ensures fault { (tracks : List Track) → IsListOf self.now tracks list.now →
            fault_of result ≡ place_fault payload (moof_runs self.now tracks) }
        ensures first { (tracks : List Track) → IsListOf self.now tracks list.now →
            IsPlaceFault payload (moof_listing self.now tracks) (fault_of result) }
    {
        let mut search = PlaceSearch::new(payload, list.faulty_by_track);
        for taken in runs_of(&list.rows) {
            search = search.past(taken);
        }
        match search.offender {
            None => Ok(()),
            Some(offset) => Err(run_place_fault(offset)),
        }
    }
}

/// Whether a run lies in a payload: from its first byte on, and up to its end, where it has one.
#[inline(always)]
pub(crate) fn lies_in(run: &Run, payload: Payload) -> bool
    ensures { result ≡ lies_in payload (listed_run run.now) }
{
    if run.place < i128::from(payload.start) {
        return false;
    }
    match payload.end {
        None => true,
        Some(end) => run.place <= i128::from(end) - i128::from(run.bytes),
    }
}

impl SingleRun {
    /// Whether the run may lie where it does in the payload of its mdat, being the only one of its moof: it has no
    /// samples, or lies in the payload.
    ///
    /// # Errors
    ///
    /// RunPlace at its trun.
    #[inline]
    pub fn places(&self, payload: Payload) -> Result<(), Fault>
        ensures { fault_of result ≡ place_fault payload (self.now.run ∷ []) }
    {
        if self.run.count == 0 || lies_in(&self.run, payload) {
            return Ok(());
        }
        Err(run_place_fault(self.run.offset))
    }
}
