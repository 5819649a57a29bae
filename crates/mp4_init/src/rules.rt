//! The rules of a moov: which boxes are checked for what.

ghost use Rattle.std.specs.Prelude.{◌≡◌, ◌<◌, Option, ◌≤◌};
ghost use Rattle.mp4_box.specs.Trees.{view};
ghost use Rattle.mp4_box.specs.Order.{least_from, least};
ghost use Rattle.mp4_box.specs.Checks.{along};
ghost use Rattle.mp4_init.specs.Moovs.{content_fault, form_faults, value_faults};
ghost use Rattle.mp4_init.specs.Rules.{below_stbl, field_faults, is_known, known, number_faults, sample_faults, track_faults};
ghost use Rattle.mp4_init.specs.Implementation.Summaries.{summaries_in};

use crate::fields::number_after_times;
use crate::sample_tables::{Entries, NoSamples};
use crate::slots::{FEW_SLOTS, SLOTS, Slots};
use arrayvec::ArrayVec;
use mp4_box::types::{
    CO64, MDHD, MDIA, MINF, MVEX, STBL, STCO, STSC, STSD, STSZ, STTS, STZ2, TKHD, TRAK, TREX,
};
use mp4_box::{Along, BoxRef, Check, Fault, FourCc, Layout, One, Rule, count_of, note, note_along};

/// Boxes that are missing, or occur a second time.
#[tactic(auto, using(mp4_box::proofs::OrderLemmas::least_from_append), unfolding(crate::specs::Rules::number_faults))]
fn note_numbers(moov: &BoxRef<'_>, best: &mut Option<Fault>)
    ensures { best.new ≡ least_from best.old (number_faults (view moov.now)) }
{
    note_along(&One(MVEX), &[], moov, best);
    note_along(&One(TKHD), &[TRAK], moov, best);
    note_along(&One(MDIA), &[TRAK], moov, best);
    note_along(&One(MDHD), &[TRAK, MDIA], moov, best);
    note_along(&One(MINF), &[TRAK, MDIA], moov, best);
    note_along(&One(STBL), &[TRAK, MDIA, MINF], moov, best);
    note_along(&One(STSD), &[TRAK, MDIA, MINF, STBL], moov, best);
}

/// Checks the boxes of a type in the stbl of a track.
fn note_in_stbl<C: Check>(check: &C, kind: FourCc, moov: &BoxRef<'_>, best: &mut Option<Fault>)
    ensures { best.new ≡ least_from best.old (along (C.faults check.now) (below_stbl kind.0)
        (view moov.now)) }
{
    note_along(check, &[TRAK, MDIA, MINF, STBL, kind], moov, best);
}

/// Boxes whose version or length is wrong.
#[tactic(auto, using(mp4_box::proofs::OrderLemmas::least_from_append), unfolding(crate::specs::Rules::field_faults))]
fn note_fields(moov: &BoxRef<'_>, best: &mut Option<Fault>)
    ensures { best.new ≡ least_from best.old (field_faults (view moov.now)) }
{
    note_along(&Layout::Versioned(84, 96), &[TRAK, TKHD], moov, best);
    note_along(&Layout::Versioned(24, 36), &[TRAK, MDIA, MDHD], moov, best);
    note_in_stbl(&Entries, STSD, moov, best);
    note_in_stbl(&Layout::AtLeast(8), STTS, moov, best);
    note_in_stbl(&Layout::AtLeast(8), STSC, moov, best);
    note_in_stbl(&Layout::AtLeast(8), STCO, moov, best);
    note_in_stbl(&Layout::AtLeast(8), CO64, moov, best);
    note_in_stbl(&Layout::AtLeast(12), STSZ, moov, best);
    note_in_stbl(&Layout::AtLeast(12), STZ2, moov, best);
    note_along(&Layout::Exactly(24), &[MVEX, TREX], moov, best);
}

/// Tables of samples.
#[tactic(auto, using(mp4_box::proofs::OrderLemmas::least_from_append), unfolding(crate::specs::Rules::sample_faults))]
fn note_samples(moov: &BoxRef<'_>, best: &mut Option<Fault>)
    ensures { best.new ≡ least_from best.old (sample_faults (view moov.now)) }
{
    note_in_stbl(&NoSamples(4), STTS, moov, best);
    note_in_stbl(&NoSamples(4), STSC, moov, best);
    note_in_stbl(&NoSamples(4), STCO, moov, best);
    note_in_stbl(&NoSamples(4), CO64, moov, best);
    note_in_stbl(&NoSamples(8), STSZ, moov, best);
    note_in_stbl(&NoSamples(8), STZ2, moov, best);
}

/// Whether no tkhd before this one has its track_ID, and just one trex has it.
fn is_known_in<const N: usize>(moov: &BoxRef<'_>, tkhd: &BoxRef<'_>, slots: &mut Slots<N>) -> bool
    requires some { 0 < N }
    requires added { slots.old.summaries.items ≡ summaries_in (view moov.now) slots.old.ids.items }
    ensures known { result ≡ is_known (view moov.now) (view tkhd.now) }
    ensures added { slots.new.summaries.items ≡ summaries_in (view moov.now) slots.new.ids.items }
{
    let summary = slots.summary(moov, tkhd.offset, number_after_times(tkhd));
    if summary.first < tkhd.offset {
        return false;
    }
    summary.trexes == 1
}

/// Tracks whose track_ID a tkhd before has, or that haven't just one trex.
#[tactic(auto, unfolding(mp4_box::specs::Order::least_from, crate::specs::Rules::track_faults))]
fn note_unknown<const N: usize>(moov: &BoxRef<'_>, slots: &mut Slots<N>, best: &mut Option<Fault>)
    requires some { 0 < N }
    requires added { slots.old.summaries.items ≡ summaries_in (view moov.now) slots.old.ids.items }
    ensures { best.new ≡ least_from best.old (track_faults (view moov.now)) }
{
    for tkhd in Along::of(&[TRAK, TKHD], moov) {
        if !is_known_in(moov, &tkhd, slots) {
            note(best, tkhd.fault(Rule::UnknownTrack));
        }
    }
}

/// The same, with summaries of `N` track_IDs at once.
// A function of its own, since a function clears its locals at each call.
#[inline(never)]
#[tactic(auto, using(crate::proofs::SummaryTableLemmas::summaries_of_none))]
fn note_unknown_by<const N: usize>(moov: &BoxRef<'_>, best: &mut Option<Fault>)
    requires some { 0 < N }
    requires most { N ≤ SLOTS }
    ensures { best.new ≡ least_from best.old (track_faults (view moov.now)) }
{
    let mut slots = Slots::<N> {
        ids: ArrayVec::new(),
        summaries: ArrayVec::new(),
    };
    note_unknown(moov, &mut slots, best);
}

/// The fault of the content of a moov whose tree is good.
pub(crate) fn content_fault_of(moov: &BoxRef<'_>) -> Option<Fault>
    ensures { result ≡ content_fault (view moov.now) }
{
    let mut best = None;
    note_numbers(moov, &mut best);
    note_fields(moov, &mut best);
    if best.is_none() {
        note_samples(moov, &mut best);
        if count_of(TRAK, moov) <= FEW_SLOTS as u64 {
            note_unknown_by::<FEW_SLOTS>(moov, &mut best);
        } else {
            note_unknown_by::<SLOTS>(moov, &mut best);
        }
    }
    best
}
