//! Where the tracks end after a moof.

ghost use Rattle.std.specs.Prelude.{◌≡◌, ◌+◌, ◌^◌, ◌<◌, ◌≤◌, length};
ghost use Rattle.mp4_init.specs.Tracks.{with_next};
ghost use Rattle.mp4_frag.specs.Moofs.{IsRead, moof_of, moof_samples, moof_trafs};
ghost use Rattle.mp4_frag.specs.TrafEnds.{AreEndsOf};
ghost use Rattle.mp4_traf.specs.Settling.{settled, timed_of};

use crate::moof::Moof;
use crate::single_run::SingleRun;
use crate::traf_ends::TrafEnds;
use mp4_box::types::TRAF;
use mp4_box::whole_box;
use mp4_init::TrackList;
use mp4_traf::Steps;
use mp4_traf::internal::{children_of, end_traf};

impl<'a> Moof<'a> {
    /// Sets where each track ends: its `next` becomes the end of its last traf in the moof, in ticks, and that of the
    /// others stays. `tracks` are those that the moof was read with, so this is its last use. The samples that have
    /// durations of their own are counted in `steps` as rows that were read.
    #[tactic(auto, using(crate::proofs::SettleLemmas::settled_length, crate::proofs::SettleLemmas::settle_steps))]
    pub fn settle(&self, tracks: &mut TrackList, steps: &mut Steps)
        requires read { IsRead self.now tracks.old }
        requires steps { steps.old.rows < 2 ^ 127 }
        ensures tracks { tracks.new ≡ settled tracks.old (moof_trafs self.now tracks.old) }
        ensures len { length tracks.new ≡ length tracks.old }
        ensures rows_read { steps.new.rows ≡ steps.old.rows + timed_of (moof_of self.now) }
        ensures few { steps.new.rows ≤ steps.old.rows + moof_samples self.now }
    {
        let this = whole_box(self.moof_bytes, self.offset);
        let mut timed = 0;
        for traf in children_of(TRAF, &this) {
            end_traf(self.moof_bytes, self.offset, &traf, tracks, &mut timed);
        }
        steps.rows += u128::from(timed);
    }

    /// The same as [`Moof::settle`], where it was kept where the trafs end ([`Moof::following`]): they are gone over
    /// only where more of them are than are kept.
    #[inline(always)]
    #[tactic(auto, using(crate::proofs::SettleLemmas::settled_length))]
    pub fn settle_by(&self, ends: &TrafEnds, tracks: &mut TrackList, steps: &mut Steps)
        requires read { IsRead self.now tracks.old }
        requires ends { AreEndsOf ends.now self.now tracks.old }
        requires steps { steps.old.rows < 2 ^ 127 }
        ensures tracks { tracks.new ≡ settled tracks.old (moof_trafs self.now tracks.old) }
        ensures len { length tracks.new ≡ length tracks.old }
        ensures rows_read { steps.new.rows ≡ steps.old.rows + timed_of (moof_of self.now) }
        ensures few { steps.new.rows ≤ steps.old.rows + moof_samples self.now }
    {
        if !ends.has_room() {
            self.settle(tracks, steps);
            return;
        }
        ends.settle(tracks);
        steps.rows += u128::from(ends.timed());
    }
}

impl SingleRun {
    /// Moves the decode time of its track past the moof: to where the run ends. `tracks` are those that the moof was
    /// read with. No row is read.
    pub fn settle(&self, tracks: &mut TrackList)
        requires { self.now.track < length tracks.old }
        ensures tracks { tracks.new ≡ with_next self.now.track self.now.run.end tracks.old }
        ensures len { length tracks.new ≡ length tracks.old }
    {
        tracks.set_next(self.track, self.run.end);
    }
}
