//! The run of a moof that has no other, from the bytes of the moof.

ghost use Rattle.std.specs.Prelude.{◌+◌, ◌^◌, ◌<◌, ◌≤◌, length};
ghost use Rattle.mp4_box.specs.Headers.{IsWhole};
ghost use Rattle.mp4_traf.specs.Runs.{moof_at};
ghost use Rattle.mp4_frag.specs.SingleRuns.{ReadsSingleRun};

pub(crate) mod common_layout;
pub(crate) mod only_run;

use crate::moof::read_by_rules;
use crate::single_run::common_layout::common_run;
use crate::single_run::only_run::has_one_run;
use mp4_box::Fault;
use mp4_init::TrackList;
use mp4_traf::{Run, Steps};

/// The only run of a moof, the index of its track among the tracks, and the sequence_number of the moof.
#[derive(Clone, Copy, Debug)]
pub struct SingleRun {
    /// The run.
    pub run: Run,
    /// The index of its track.
    pub track: usize,
    /// The sequence_number of the moof (ISO/IEC 14496-12, 8.8.5).
    pub sequence: u32,
}

/// The same as [`SingleRun::read`], whatever form the moof has.
#[inline(never)]
fn read_generally(
    moof_bytes: &[u8],
    offset: u64,
    tracks: &TrackList,
    steps: &mut Steps,
) -> Result<Option<SingleRun>, Fault>
    requires whole { IsWhole moof_bytes.now }
    requires room { offset + length moof_bytes.now ≤ 2 ^ 62 }
    requires steps { steps.old.rows < 2 ^ 126 }
    ensures { ReadsSingleRun (moof_at moof_bytes.now offset) tracks.now steps.old steps.new result }
{
    if !has_one_run(moof_bytes, offset) {
        return Ok(None);
    }
    match read_by_rules(moof_bytes, offset, tracks, steps) {
        Ok(moof) => Ok(moof.only_run(tracks, steps)),
        Err(found) => {
            if found.is_time_fault {
                Err(found.fault)
            } else {
                Ok(None)
            }
        }
    }
}

impl SingleRun {
    /// The run of the moof that the bytes are, one whole box of stated size that begins at `offset` in the stream,
    /// where nothing is at fault with it and it has one traf, with one trun in it; none of other moofs. `tracks` are
    /// those of its moov. Where there is such a run, its samples are counted in `steps` twice as rows that were read:
    /// once for the rules, as [`Moof::read`] counts them, and once for the run. Where there is none, no row is read.
    ///
    /// # Errors
    ///
    /// TimeRange at its trun, where that ends past 64 bits and no other rule is broken: its samples are counted once
    /// then.
    pub fn read(
        moof_bytes: &[u8],
        offset: u64,
        tracks: &TrackList,
        steps: &mut Steps,
    ) -> Result<Option<SingleRun>, Fault>
        requires whole { IsWhole moof_bytes.now }
        requires room { offset + length moof_bytes.now ≤ 2 ^ 62 }
        requires steps { steps.old.rows < 2 ^ 126 }
        ensures { ReadsSingleRun (moof_at moof_bytes.now offset) tracks.now steps.old steps.new result }
    {
        match common_run(moof_bytes, offset, tracks) {
            Some(run) => {
                steps.rows += 2 * u128::from(run.run.count);
                Ok(Some(run))
            }
            // Taken apart, so that only here the answer need be in memory.
            None => match read_generally(moof_bytes, offset, tracks, steps) {
                Ok(Some(run)) => Ok(Some(run)),
                Ok(None) => Ok(None),
                Err(fault) => Err(fault),
            },
        }
    }
}
