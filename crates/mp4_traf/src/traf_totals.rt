//! Sums over the samples of a traf.

ghost use Rattle.std.specs.Prelude.{◌≡◌, ◌+◌, ◌^◌, ◌<◌, ◌≤◌, ◌∷◌, []};
ghost use Rattle.std.specs.List.{sum_by};
ghost use Rattle.std.specs.Option.{option_or};
ghost use Rattle.mp4_traf.specs.declared.run.Run.{Run};
ghost use Rattle.mp4_traf.specs.Ranges.{IsSound};
ghost use Rattle.mp4_traf.specs.Runs.{TrackFragment, last_end, runs_of};
ghost use Rattle.mp4_traf.specs.TrafTotals.{are_sync, first_flags, flags_of_first, totals_of};

use crate::run::Run;
use crate::runs::Runs;
use crate::sync::is_sync;
use crate::traf::{Traf, TrafHeader};

/// A traf by its samples. Times are ticks of its track's timescale.
#[derive(Clone, Copy, Debug, PartialEq, Eq)]
pub struct TrafTotals {
    /// The track_ID of its track.
    pub track: u32,
    /// Its base time: when its first sample is decoded.
    pub time: u64,
    /// The durations of its samples, added up.
    pub duration: u64,
    /// How many samples it has.
    pub samples: u32,
    /// Their bytes, added up.
    pub bytes: u64,
    /// Whether its first sample is a sync sample (8.8.3); false where it has none.
    pub sync: bool,
}

/// What was found in the runs so far.
#[derive(Clone, Copy)]
struct RunSums {
    /// When the last of them ends, in ticks.
    end: u64,
    /// How many samples they have.
    samples: u32,
    /// How many bytes their samples have.
    bytes: u64,
    /// The flags of their first sample, if they have one.
    flags: Option<u32>,
}

/// Whether there is a sample with these flags, and it is a sync sample.
fn are_sync(flags: Option<u32>) -> bool
    ensures { result ≡ are_sync flags }
{
    match flags {
        Some(flags) => is_sync(flags),
        None => false,
    }
}

/// The flags of the first sample of a run, if it has one.
fn flags_of_first(run: &Run, moof_bytes: &[u8]) -> Option<u32>
    ensures { result ≡ flags_of_first moof_bytes.now run.now }
{
    if run.count == 0 {
        return None;
    }
    Some(run.row(moof_bytes, 0).flags)
}

/// The default size of a sample has 32 bits.
fn size_fits(header: &TrafHeader)
    ensures { header.now.size < 2 ^ 32 }
{
    let _size = header.size;
}

/// Adds a run. `moof_bytes` are the bytes of its moof.
fn add_run(so_far: &mut RunSums, run: &Run, moof_bytes: &[u8])
    requires samples { so_far.old.samples + run.now.count < 2 ^ 32 }
    requires bytes { so_far.old.bytes + run.now.bytes < 2 ^ 64 }
    ensures end { so_far.new.end ≡ run.now.end }
    ensures samples { so_far.new.samples ≡ so_far.old.samples + run.now.count }
    ensures bytes { so_far.new.bytes ≡ so_far.old.bytes + run.now.bytes }
    ensures flags { so_far.new.flags ≡
        option_or so_far.old.flags (flags_of_first moof_bytes.now run.now) }
{
    so_far.end = run.end;
    so_far.samples += run.count;
    so_far.bytes += run.bytes;
    if so_far.flags.is_none() {
        so_far.flags = flags_of_first(run, moof_bytes);
    }
}

/// Adds some runs. `moof_bytes` are the bytes of their moof.
#[tactic(auto, using(crate::proofs::TrafTotalLemmas::flags_join), unfolding(crate::specs::TrafTotals::first_flags))]
fn add_runs(so_far: &mut RunSums, runs: Runs<'_>, moof_bytes: &[u8])
    requires samples { so_far.old.samples + sum_by (λ (run : Run). run.count) runs < 2 ^ 32 }
    requires bytes { so_far.old.bytes + sum_by (λ (run : Run). run.bytes) runs < 2 ^ 64 }
    ensures end { so_far.new.end ≡ last_end so_far.old.end runs.entry }
    ensures samples { so_far.new.samples ≡
        so_far.old.samples + sum_by (λ (run : Run). run.count) runs.entry }
    ensures bytes { so_far.new.bytes ≡
        so_far.old.bytes + sum_by (λ (run : Run). run.bytes) runs.entry }
    ensures flags { so_far.new.flags ≡
        option_or so_far.old.flags (first_flags moof_bytes.now runs.entry) }
{
    for run in runs {
        add_run(so_far, &run, moof_bytes);
    }
}

impl<'a> Traf<'a> {
    /// Its track, its base time, and the sums over its samples. For the sums each row of its runs is read once.
    pub fn totals(&self) -> TrafTotals
        requires sound { IsSound self.now }
        ensures { result ≡ totals_of self.now }
    {
        size_fits(&self.context.header);
        let mut sums = RunSums {
            end: self.time,
            samples: 0,
            bytes: 0,
            flags: None,
        };
        add_runs(&mut sums, self.runs(), self.context.moof_bytes);
        TrafTotals {
            track: self.context.header.track,
            time: self.time,
            duration: sums.end - self.time,
            samples: sums.samples,
            bytes: sums.bytes,
            sync: are_sync(sums.flags),
        }
    }
}

impl TrafTotals {
    /// Those of a traf that has this run and no other. `moof_bytes` are the bytes of its moof, of which the run's first
    /// sample is read.
    #[inline(always)]
    pub fn of_only_run(run: &Run, moof_bytes: &[u8]) -> TrafTotals
        requires { run.now.time ≤ run.now.end }
        ensures { (t : TrackFragment) → t.shared.moof.bytes ≡ moof_bytes.now → runs_of t ≡ run.now ∷ [] →
            result ≡ totals_of t }
    {
        TrafTotals {
            track: run.track,
            time: run.time,
            duration: run.end - run.time,
            samples: run.count,
            bytes: run.bytes,
            sync: are_sync(flags_of_first(run, moof_bytes)),
        }
    }
}
