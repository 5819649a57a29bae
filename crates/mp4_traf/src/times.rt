//! How long runs last, and which of a moof end past 64 bits.

ghost use Rattle.std.specs.Prelude.{◌≡◌};
ghost use Rattle.mp4_box.specs.Order.{least_from};
ghost use Rattle.mp4_box.specs.Paths.{of_kind};
ghost use Rattle.mp4_box.specs.Trees.{children, view};
ghost use Rattle.mp4_traf.specs.Kinds.{trun};
ghost use Rattle.mp4_traf.specs.TimeFaults.{time_faults_of};
ghost use Rattle.mp4_traf.specs.Runs.{moof_at, traf_of};
ghost use Rattle.mp4_traf.specs.Implementation.TrafContexts.{shared_of};
ghost use Rattle.mp4_traf.specs.Implementation.Times.{late_at, late_from, ticks_in};

use crate::fields::flags_of;
use crate::groups::{durations_in, groups_from};
use crate::runs::{RunStart, run_at};
use crate::traf::{TrafContext, base_of, context_of, track_of};
use crate::trun::{sample_count, sample_fields};
use mp4_box::types::TRUN;
use mp4_box::{BoxRef, Check, Fault, Rule, Walk, note};
use mp4_init::TrackList;

/// The durations of the samples of a trun, added up: by a product where no sample has its own.
#[inline(always)]
#[tactic(auto, using(crate::proofs::BetweenLemmas::duration), unfolding(crate::specs::Implementation::Times::ticks_in))]
pub(crate) fn ticks_in(context: &TrafContext<'_>, trun: &BoxRef<'_>) -> u64
    ensures { result ≡ ticks_in (shared_of context.now) (view trun.now) }
{
    if sample_fields(flags_of(trun.payload))
        .sample_duration
        .is_none()
    {
        return u64::from(context.header.duration) * u64::from(sample_count(trun.payload));
    }
    // How long a run lasts doesn't depend on when and where it begins.
    let start = RunStart { time: 0, place: 0 };
    let run = run_at(context, &start, trun);
    let groups = groups_from(&run, context.moof_bytes, 0);
    durations_in(&run, groups, run.count)
}

/// The runs of a traf end within 64 bits.
#[derive(Drop)]
pub struct InTime<'a> {
    pub moof_bytes: &'a [u8],
    pub moof: u64,
    pub tracks: &'a TrackList,
}

/// Notes a trun whose run ends past 64 bits.
#[tactic(auto, unfolding(mp4_box::specs::Order::least_from))]
fn note_end(end: u128, trun: &BoxRef<'_>, best: &mut Option<Fault>)
    ensures { best.new ≡ least_from best.old (late_at end (view trun.now)) }
{
    if end > u128::from(u64::MAX) {
        let fault = Fault {
            rule: Rule::TimeRange,
            kind: Some(TRUN),
            offset: trun.offset,
        };
        note(best, fault);
    }
}

/// Notes the truns of a traf whose runs end past 64 bits, where the first begins at a time.
fn note_ends(context: &TrafContext<'_>, time: u64, traf: &BoxRef<'_>, best: &mut Option<Fault>)
    ensures { best.new ≡ least_from best.old (late_from (shared_of context.now) time
        (of_kind trun (children (view traf.now)))) }
{
    let mut end = u128::from(time);
    for child in Walk::of(traf) {
        if child.header.kind.is(TRUN) {
            end += u128::from(ticks_in(context, &child));
            note_end(end, &child, best);
        }
    }
}

/// Notes the truns of a traf whose runs end past 64 bits.
#[tactic(auto, using(crate::proofs::TimeLemmas::late_are), unfolding(crate::specs::Runs::traf_of))]
fn note_traf(
    moof_bytes: &[u8],
    moof: u64,
    tracks: &TrackList,
    traf: &BoxRef<'_>,
    best: &mut Option<Fault>,
)
    ensures { best.new ≡ least_from best.old (time_faults_of
        (traf_of (moof_at moof_bytes.now moof) tracks.now (view traf.now))) }
{
    let track = track_of(tracks, traf);
    let context = context_of(moof_bytes, moof, track, traf);
    note_ends(&context, base_of(track.next, traf), traf, best);
}

impl<'a> Check for InTime<'a> {
    ghost faults = { λ c b. time_faults_of (traf_of (moof_at c.moof_bytes.now c.moof)
        c.tracks.now b) };

    fn note_at(&self, this: &BoxRef<'_>, best: &mut Option<Fault>) {
        note_traf(self.moof_bytes, self.moof, self.tracks, this, best);
    }
}
