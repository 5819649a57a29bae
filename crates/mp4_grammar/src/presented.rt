//! When the first sample of a traf is presented, and how many of its samples are sync samples.

ghost use Rattle.std.specs.Prelude.{◌≡◌, ◌+◌, ◌+ℤ◌, ◌<◌, ◌≤◌, ◌^◌, ◌∷◌, [], None, Some, length, pos};
ghost use Rattle.std.specs.Option.{unwrap_or};
ghost use Rattle.mp4_traf.specs.Ranges.{IsSound};
ghost use Rattle.mp4_traf.specs.Rows.{durations, rows_of};
ghost use Rattle.mp4_traf.specs.Runs.{TrackFragment, runs_of};
ghost use Rattle.mp4_traf.specs.SyncSamples.{is_sync};
ghost use Rattle.mp4_grammar.specs.Implementation.FoundRows.{earliest_from, lesser};
ghost use Rattle.mp4_grammar.specs.Presented.{all_rows, once_if, presented_in, presented_of, syncs_in};

use mp4_frag::{Row, Rows, Run, Runs, Traf};
use mp4_traf::is_sync;

/// What the samples of a traf are to who plays them.
#[derive(Clone, Copy, Debug, PartialEq, Eq)]
pub struct Presented {
    /// The least composition time of its samples, less its base time, in ticks; 0 where it has none.
    pub earliest: i64,
    /// How many of its samples are sync samples (8.8.3).
    pub syncs: u32,
}

/// What was found in the rows so far.
#[derive(Clone, Copy)]
struct Found {
    /// As in [`Presented`], if there was a row.
    earliest: Option<i64>,
    /// How many of the rows are of sync samples.
    syncs: u32,
    /// Their durations, added up, in ticks.
    elapsed: u64,
}

/// Before the first row.
const NOTHING: Found = Found {
    earliest: None,
    syncs: 0,
    elapsed: 0,
};

/// The lesser of a number of ticks, if there is one, and of those after which a sample is presented, which is decoded
/// after `elapsed`.
#[inline(always)]
fn lesser(best: Option<i64>, elapsed: u64, offset: i64) -> i64
    requires { best ≡ None → elapsed ≡ 0 }
    ensures { result ≡ lesser best (pos elapsed +ℤ offset) }
{
    match best {
        None => offset,
        Some(best) => {
            let ticks = i128::from(elapsed) + i128::from(offset);
            if ticks < i128::from(best) {
                ticks as i64
            } else {
                best
            }
        }
    }
}

/// 1 where something is so, else 0.
#[inline(always)]
pub(crate) fn once_if(is_so: bool) -> u32
    ensures result { result ≡ once_if is_so }
    ensures few { result ≤ 1 }
{
    if is_so { 1 } else { 0 }
}

/// 1 where the flags are those of a sync sample (ISO/IEC 14496-12, 8.8.3), else 0.
#[inline(always)]
fn once_if_sync(flags: u32) -> u32
    ensures result { result ≡ once_if (is_sync flags) }
    ensures few { result ≤ 1 }
{
    once_if(is_sync(flags))
}

/// Adds a row.
#[inline(always)]
fn add_row(so_far: &mut Found, row: &Row)
    requires first { so_far.old.earliest ≡ None → so_far.old.elapsed ≡ 0 }
    requires time { so_far.old.elapsed + row.now.duration < 2 ^ 64 }
    requires few { so_far.old.syncs + 1 < 2 ^ 32 }
    ensures earliest { so_far.new.earliest ≡
        Some (lesser so_far.old.earliest (pos so_far.old.elapsed +ℤ row.now.offset)) }
    ensures syncs { so_far.new.syncs ≡ so_far.old.syncs + once_if (is_sync row.now.flags) }
    ensures elapsed { so_far.new.elapsed ≡ so_far.old.elapsed + row.now.duration }
    ensures few { so_far.new.syncs ≤ so_far.old.syncs + 1 }
{
    so_far.earliest = Some(lesser(so_far.earliest, so_far.elapsed, row.offset));
    so_far.syncs += once_if_sync(row.flags);
    so_far.elapsed += u64::from(row.duration);
}

/// Adds some rows.
#[inline(always)]
#[tactic(auto, unfolding(crate::specs::Implementation::FoundRows::earliest_from))]
fn add_rows(so_far: &mut Found, rows: Rows<'_>)
    requires first { so_far.old.earliest ≡ None → so_far.old.elapsed ≡ 0 }
    requires time { so_far.old.elapsed + durations rows < 2 ^ 64 }
    requires few { so_far.old.syncs + length rows < 2 ^ 32 }
    ensures earliest { so_far.new.earliest ≡
        earliest_from so_far.old.earliest so_far.old.elapsed rows.entry }
    ensures syncs { so_far.new.syncs ≡ so_far.old.syncs + syncs_in rows.entry }
    ensures elapsed { so_far.new.elapsed ≡ so_far.old.elapsed + durations rows.entry }
    ensures first { so_far.new.earliest ≡ None → so_far.new.elapsed ≡ 0 }
    ensures few { so_far.new.syncs ≤ so_far.old.syncs + length rows.entry }
{
    for row in rows {
        add_row(so_far, &row);
    }
}

/// Adds the rows of some runs. `moof_bytes` are the bytes of their moof.
fn add_runs(so_far: &mut Found, runs: Runs<'_>, moof_bytes: &[u8])
    requires first { so_far.old.earliest ≡ None → so_far.old.elapsed ≡ 0 }
    requires time { so_far.old.elapsed + durations (all_rows moof_bytes.now runs) < 2 ^ 64 }
    requires few { so_far.old.syncs + length (all_rows moof_bytes.now runs) < 2 ^ 32 }
    ensures earliest { so_far.new.earliest ≡
        earliest_from so_far.old.earliest so_far.old.elapsed (all_rows moof_bytes.now runs.entry) }
    ensures syncs { so_far.new.syncs ≡ so_far.old.syncs + syncs_in (all_rows moof_bytes.now runs.entry) }
{
    for run in runs {
        add_rows(so_far, run.rows(moof_bytes));
    }
}

/// What was found in all rows of a traf.
#[inline(always)]
fn to_presented(found: &Found) -> Presented
    ensures { result ≡ record { earliest = unwrap_or found.now.earliest (pos 0); syncs = found.now.syncs } }
{
    Presented {
        earliest: found.earliest.unwrap_or(0),
        syncs: found.syncs,
    }
}

/// What the sample of a row is, if there is no other.
#[inline(always)]
fn of_row(row: &Row) -> Presented
    ensures { result ≡ record { earliest = row.now.offset; syncs = once_if (is_sync row.now.flags) } }
{
    Presented {
        earliest: row.offset,
        syncs: once_if_sync(row.flags),
    }
}

/// How many samples of a run are sync samples whose rows have no flags of their own. The first row is read.
fn default_syncs(run: &Run, moof_bytes: &[u8]) -> u32
    requires { run.now.fields.sample_flags ≡ None }
    ensures { result ≡ syncs_in (rows_of run.now moof_bytes.now) }
{
    if run.count == 0 {
        return 0;
    }
    let first = once_if_sync(run.row(moof_bytes, 0).flags);
    first + once_if_sync(run.flags) * (run.count - 1)
}

/// The number of samples has 32 bits.
fn count_fits(run: &Run)
    ensures { run.now.count < 2 ^ 32 }
{
    let _count = run.count;
}

/// The same of a run of any samples, each of whose rows is read once.
#[inline(never)]
fn by_rows(run: &Run, moof_bytes: &[u8]) -> Presented
    requires { durations (rows_of run.now moof_bytes.now) < 2 ^ 64 }
    ensures { result ≡ presented_in (rows_of run.now moof_bytes.now) }
{
    count_fits(run);
    let mut found = NOTHING;
    add_rows(&mut found, run.rows(moof_bytes));
    to_presented(&found)
}

/// What the samples of a run are. Only where their rows have flags or composition time offsets is each row read.
#[inline(always)]
fn of_run(run: &Run, moof_bytes: &[u8]) -> Presented
    requires { durations (rows_of run.now moof_bytes.now) < 2 ^ 64 }
    ensures { result ≡ presented_in (rows_of run.now moof_bytes.now) }
{
    if run.count == 1 {
        return of_row(&run.row(moof_bytes, 0));
    }
    let fields = &run.fields;
    if fields.sample_flags.is_none() && fields.sample_composition_time_offset.is_none() {
        return Presented {
            earliest: 0,
            syncs: default_syncs(run, moof_bytes),
        };
    }
    by_rows(run, moof_bytes)
}

impl Presented {
    /// What the samples of a traf are, in whose moof these are the bytes. Each row of its runs is read once, and once
    /// more to find where the next run begins.
    pub fn of(traf: &Traf<'_>, moof_bytes: &[u8]) -> Presented
        requires sound { IsSound traf.now }
        requires bytes { traf.now.shared.moof.bytes ≡ moof_bytes.now }
        ensures { result ≡ presented_of traf.now }
    {
        let mut found = NOTHING;
        add_runs(&mut found, traf.runs(), moof_bytes);
        to_presented(&found)
    }

    /// What the samples of a traf are that has this run and no other, each of whose rows is read at most once.
    /// `moof_bytes` are the bytes of its moof.
    #[inline(always)]
    pub fn of_only_run(run: &Run, moof_bytes: &[u8]) -> Presented
        requires { durations (rows_of run.now moof_bytes.now) < 2 ^ 64 }
        ensures { (t : TrackFragment) → t.shared.moof.bytes ≡ moof_bytes.now → runs_of t ≡ run.now ∷ [] →
            result ≡ presented_of t }
    {
        of_run(run, moof_bytes)
    }
}
