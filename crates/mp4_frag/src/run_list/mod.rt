//! The runs of a moof in the order in which they are taken, in claimed memory.

ghost use Rattle.std.specs.Prelude.{◌≡◌, ◌+◌, ◌*◌, ◌^◌, ◌<◌, ◌≤◌, ◌↔◌, length, slice_index_or, List, IsErrOf, IfOk, OnOk, OnErr};
ghost use Rattle.mp4_ledger.specs.Memory.{claimed, given_back};
ghost use Rattle.mp4_init.specs.declared.table.Track.{Track};
ghost use Rattle.mp4_traf.specs.declared.run.Run.{Run};
ghost use Rattle.mp4_frag.specs.Moofs.{IsRead, moof_runs, moof_samples};
ghost use Rattle.mp4_frag.specs.Places.{listed_run};
ghost use Rattle.mp4_traf.specs.Runs.{MoofBytes};
ghost use Rattle.mp4_frag.specs.RunLists.{taken_runs};
ghost use Rattle.mp4_frag.specs.ListsOfRuns.{IsListOf};

pub(crate) mod fill;
pub(crate) mod listed;
pub(crate) mod reread;
pub(crate) mod run_row;

use crate::moof::Moof;
use crate::run_list::fill::fill;
use crate::run_list::listed::{listed_row, runs_of};
use crate::run_list::reread::run_of_row;
use crate::run_list::run_row::row_of_words;
use mp4_box::whole_box;
use mp4_init::TrackList;
use mp4_ledger::{Ledger, Refused, Rows64};
use mp4_run_order::{ListedRun, TrackSearch};
use mp4_traf::{Run, Steps};
use std::marker::Model;

/// The runs of a moof in the order in which they are taken: by place, and those at one place as the moof lists
/// them. They are kept in claimed memory, 64 bytes for each. The list must be given back to its ledger, and can't
/// be dropped.
pub struct RunList {
    pub(crate) rows: Rows64,
    /// The offset of the first trun in the listing that begins before the end of an earlier one of its track.
    pub(crate) faulty_by_track: Option<u64>,
}

// A contract sees what its rows keep of the runs, and what was found by track.
impl Model for RunList {
    ghost use Rattle.std.specs.Prelude.{◌≡◌, length};
    ghost use Rattle.mp4_frag.specs.RunLists.{ListedRows};
    ghost use Rattle.mp4_frag.specs.Implementation.RunRows.{rows_of_words};

    ghost Value = { ListedRows };

    ghost view = { λ l. record { rows = rows_of_words l.rows.rows; faulty_by_track = l.faulty_by_track } };

    ghost invariant = { λ l. length l.rows.rows ≡ l.rows.cap };
}

impl RunList {
    /// How many runs it has.
    #[tactic(auto, using(crate::proofs::RunListLemmas::length_rows))]
    pub fn len(&self) -> usize
        ensures { result ≡ length self.now.rows }
    {
        self.rows.len()
    }

    /// The run at this index, of a list of this moof with these tracks. It reads no row of the run.
    #[inline]
    pub fn at(&self, i: usize, moof: &Moof<'_>, tracks: &TrackList) -> Run
        requires index { i < length self.now.rows }
        requires list { IsListOf moof.now tracks.now self.now }
        ensures { result ≡ slice_index_or (taken_runs moof.now tracks.now) i result }
    {
        run_of_row(
            moof.moof_bytes,
            moof.offset,
            tracks,
            &row_of_words(self.rows.get(i)),
        )
    }

    /// What the order of runs depends on, of the run at this index: where it lies, and how many samples and bytes it
    /// has. It reads no box.
    pub fn listed(&self, i: usize) -> ListedRun
        requires { i < length self.now.rows }
        ensures { (h : MoofBytes) (tracks : List Track) (run : Run) → IsListOf h tracks self.now →
            run ≡ slice_index_or (taken_runs h tracks) i run → result ≡ listed_run run }
    {
        listed_row(&row_of_words(self.rows.get(i)))
    }

    /// Gives its claim back.
    #[tactic(auto, using(crate::proofs::RunListLemmas::length_rows))]
    pub fn back(self, ledger: &mut Ledger)
        requires { 64 * length self.rows ≤ ledger.old.live }
        ensures { ledger.new ≡ given_back ledger.old (64 * length self.rows) }
    {
        let RunList {
            rows,
            faulty_by_track: _,
        } = self;
        ledger.back_rows(rows);
    }
}

impl<'a> Moof<'a> {
    /// Its runs in the order in which they are taken, in a table that is claimed, 64 bytes for each. `tracks` are
    /// those that it was read with. Its samples are counted in `steps` as rows that were read.
    ///
    /// # Errors
    ///
    /// `OverLimit` exactly where the claim passes the limit; else `Memory` where the allocator has none. Nothing is
    /// claimed and no row is read then.
    pub fn list(
        &self,
        ledger: &mut Ledger,
        tracks: &TrackList,
        steps: &mut Steps,
    ) -> Result<RunList, Refused>
        requires read { IsRead self.now tracks.now }
        requires steps { steps.old.rows < 2 ^ 127 }
        ensures list { IfOk result (λ l. IsListOf self.now tracks.now l) }
        ensures len { IfOk result (λ l. length l.rows ≡ length (moof_runs self.now tracks.now)) }
        ensures ok { OnOk result (ledger.new ≡
            claimed ledger.old (64 * length (moof_runs self.now tracks.now))) }
        ensures rows_read { OnOk result (steps.new.rows ≡ steps.old.rows + moof_samples self.now) }
        ensures over_limit { IsErrOf result Refused.OverLimit ↔ (ledger.old.limit <
            ledger.old.live + 64 * length (moof_runs self.now tracks.now)) }
        ensures err { OnErr result (ledger.new ≡ ledger.old) }
        ensures unread { OnErr result (steps.new ≡ steps.old) }
    {
        let moof = whole_box(self.moof_bytes, self.offset);
        let mut rows = match ledger.rows(self.truns_len()) {
            Ok(rows) => rows,
            Err(refused) => return Err(refused),
        };
        fill(&mut rows, self.moof_bytes, self.offset, &moof, tracks);
        // By track, and those of one track as they are listed.
        rows.all_mut()
            .sort_unstable_by_key(|words| listed_row(&row_of_words(*words)).track_key());
        let mut search = TrackSearch::new();
        for run in runs_of(&rows) {
            search = search.past(run);
        }
        // By place, and those at one place as they are listed.
        rows.all_mut()
            .sort_unstable_by_key(|words| listed_row(&row_of_words(*words)).place_key());
        steps.rows += u128::from(self.samples());
        Ok(RunList {
            rows,
            faulty_by_track: search.offender,
        })
    }
}
