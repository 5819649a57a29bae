//! From the truns of a traf to its runs.

ghost use Rattle.std.specs.Prelude.{◌≡◌, ◌+◌, ◌∷◌, ◌<◌, ◌^◌, length, pos, None, IfSome};
ghost use Rattle.std.specs.List.{AllByRecursion};
ghost use Rattle.std.specs.Iterator.{YieldsFirst, item_count};
ghost use Rattle.mp4_box.specs.Trees.{children, view};
ghost use Rattle.mp4_traf.specs.Kinds.{trun};
ghost use Rattle.mp4_traf.specs.Ranges.{InRange};
ghost use Rattle.mp4_traf.specs.Runs.{end_place, run_at, run_of};
ghost use Rattle.mp4_traf.specs.Implementation.TrafContexts.{runs_left, shared_of};
ghost use Rattle.mp4_traf.specs.Implementation.Times.{ticks_in};

use crate::children::next_of;
use crate::fields::flags_of;
use crate::run::Run;
use crate::traf::{TrafContext, end_in};
use crate::trun::{data_offset, first_sample_flags, sample_count, sample_fields, trun_fields};
use mp4_box::types::TRUN;
use mp4_box::{BoxRef, Walk, version_of};
use std::marker::Model;

/// Where the runs of a traf end so far, and the next may begin.
#[derive(Clone, Copy)]
pub struct RunStart {
    /// In time, in ticks.
    pub time: u64,
    /// The offset in the stream.
    pub place: i128,
}

/// The run of a trun, but for its end and its bytes.
#[inline(always)]
#[tactic(auto, unfolding(crate::specs::Runs::run_at))]
pub fn run_at(context: &TrafContext<'_>, run_start: &RunStart, trun: &BoxRef<'_>) -> Run
    ensures { result ≡ run_at (shared_of context.now) run_start.now.time run_start.now.place
        (view trun.now) }
{
    let flags = flags_of(trun.payload);
    let payload_at = (trun.offset + trun.header.header_len).saturating_sub(context.moof);
    // Counted from the first byte of the moof, or where the run before it ends.
    let place = match data_offset(trun.payload) {
        Some(offset) => i128::from(context.moof) + i128::from(offset),
        None => run_start.place,
    };
    Run {
        track: context.header.track,
        timescale: context.header.timescale,
        entry: context.header.entry,
        version: version_of(trun.payload),
        count: sample_count(trun.payload),
        time: run_start.time,
        end: run_start.time,
        place,
        bytes: 0,
        offset: trun.offset,
        duration: context.header.duration,
        size: context.header.size,
        flags: context.header.flags,
        default_first_flags: first_sample_flags(trun.payload).unwrap_or(context.header.flags),
        fields: sample_fields(flags),
        samples_at: payload_at + u64::from(trun_fields(flags).samples),
        ends_at: end_in(context.moof, trun),
        traf_ends_at: context.ends_at,
    }
}

/// The run of a trun.
#[inline(always)]
#[tactic(auto, unfolding(crate::specs::Runs::run_of))]
pub fn run_of(context: &TrafContext<'_>, run_start: &RunStart, trun: &BoxRef<'_>) -> Run
    requires { run_start.now.time + ticks_in (shared_of context.now) (view trun.now) < 2 ^ 64 }
    ensures { result ≡ run_of (shared_of context.now) run_start.now.time run_start.now.place
        (view trun.now) }
{
    let mut run = run_at(context, run_start, trun);
    let sums = run.sums_between(context.moof_bytes, 0, run.count);
    run.end = run_start.time + sums.ticks;
    run.bytes = sums.bytes;
    run
}

/// Goes over the runs of a traf.
#[derive(Drop)]
pub struct Runs<'a> {
    context: TrafContext<'a>,
    /// Where the runs so far end.
    run_start: RunStart,
    /// The children that are left.
    walk: Walk<'a>,
}

// A contract sees the runs that are left.
impl<'a> Model for Runs<'a> {
    ghost use Rattle.std.specs.Prelude.{List};
    ghost use Rattle.std.specs.List.{AllByRecursion};
    ghost use Rattle.mp4_traf.specs.declared.run.Run.{Run};
    ghost use Rattle.mp4_traf.specs.Ranges.{InRange};
    ghost use Rattle.mp4_traf.specs.Implementation.TrafContexts.{runs_left};

    ghost Value = { List Run };

    ghost view = { λ r. runs_left r.context r.run_start r.walk };

    ghost invariant = { λ r. AllByRecursion InRange (runs_left r.context r.run_start r.walk) };
}

impl<'a> Runs<'a> {
    /// The runs of the truns among the children of a box, after the runs so far.
    pub fn of(context: &TrafContext<'a>, run_start: &RunStart, this: &BoxRef<'a>) -> Runs<'a>
        requires { AllByRecursion InRange
            (runs_left context.now run_start.now (children (view this.now))) }
        ensures { result ≡ runs_left context.now run_start.now (children (view this.now)) }
    {
        Runs::among(context, run_start, Walk::of(this))
    }

    /// The runs of the truns among some boxes, after the runs so far.
    pub(crate) fn among(context: &TrafContext<'a>, run_start: &RunStart, walk: Walk<'a>) -> Runs<'a>
        requires { AllByRecursion InRange (runs_left context.now run_start.now walk) }
        ensures { result ≡ runs_left context.now run_start.now walk.entry }
    {
        Runs {
            context: *context,
            run_start: *run_start,
            walk,
        }
    }
}

/// Where a run ends.
pub fn run_end(run: &Run) -> RunStart
    requires { InRange run.now }
    ensures time { result.time ≡ run.now.end }
    ensures place { result.place ≡ end_place run.now }
{
    RunStart {
        time: run.end,
        place: run.place + i128::from(run.bytes),
    }
}

impl<'a> Iterator for Runs<'a> {
    type Item = Run;

    ghost next_gives = { YieldsFirst (λ rest. rest) };

    ghost remaining = { item_count (λ rest. rest) };

    #[inline(always)]
    fn next(&mut self) -> Option<Run> {
        let Some(trun) = next_of(TRUN, &mut self.walk) else {
            return None;
        };
        let run = run_of(&self.context, &self.run_start, &trun);
        self.run_start = run_end(&run);
        Some(run)
    }
}
