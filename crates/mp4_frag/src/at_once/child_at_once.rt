//! Checks a child of a moof, and the children of a traf, in the pass over all boxes of the moof.

ghost use Rattle.std.specs.Prelude.{◌≡◌, ◌≢◌, ◌≤◌, ◌∷◌, [], length, true, IsTrue};
ghost use Rattle.std.specs.List.{AllByRecursion, flat_map, list_all};
ghost use Rattle.mp4_box.specs.Order.{least_from};
ghost use Rattle.mp4_box.specs.Paths.{at_path, of_kind};
ghost use Rattle.mp4_box.specs.Trees.{box_len, children, view};
ghost use Rattle.mp4_frag.specs.Implementation.AtOnce.{Adds, IsComplete, IsCount, IsEarly, TrafHasTicks, faults_in_moof, faults_in_traf, in_trafs, is_complete, is_early, most_64, passed_over};
ghost use Rattle.mp4_traf.specs.Implementation.Heads.{HasTicks};
ghost use Rattle.mp4_traf.specs.Kinds.{is_kind, free, skip, tfdt, tfhd, to_trun, traf};
ghost use Rattle.mp4_frag.specs.Repeats.{trafs_of, untimed_ids};
ghost use Rattle.mp4_frag.specs.Rules.{samples_of};

use crate::at_once::{LATE, MoofCounts};
use crate::rules::mfhd::MFHD_LEN;
use mp4_box::types::{FREE, MFHD, SKIP, TFDT, TFHD, TRAF, TRUN};
use mp4_box::{BoxRef, Check, Fault, FourCc, Layout, Rule, Walk, note};
use mp4_init::TrackList;
use mp4_traf::internal::{
    FlagsOnce, LONG_TFDT_LEN, TFDT_LEN, TfhdLength, TrunLength, base_media_decode_time, note_tfhd,
    sample_count,
};

/// Notes a box that may not be where it is.
#[inline]
#[tactic(auto, unfolding(mp4_box::specs::Order::least_from))]
fn note_other(child: &BoxRef<'_>, best: &mut Option<Fault>)
    ensures { best.new ≡ least_from best.old
        (passed_over (is_kind free (view child.now)) (is_kind skip (view child.now)) (view child.now)) }
{
    if child.header.kind.is(FREE) || child.header.kind.is(SKIP) {
        return;
    }
    note(best, child.fault(Rule::Unsupported));
}

/// Notes what is at fault with a child of a traf by itself.
#[inline]
fn note_in_traf(tracks: &TrackList, child: &BoxRef<'_>, best: &mut Option<Fault>)
    ensures best { best.new ≡ least_from best.old (faults_in_traf tracks.now (view child.now)) }
    ensures ticks { is_kind tfhd (view child.now) ≡ true → HasTicks tracks.now (view child.now) }
{
    let kind = child.header.kind;
    if kind.is(TRUN) {
        TrunLength.note_at(child, best);
        FlagsOnce.note_at(child, best);
    } else if kind.is(TFHD) {
        TfhdLength.note_at(child, best);
        note_tfhd(tracks, child, best);
    } else if kind.is(TFDT) {
        Layout::Versioned(TFDT_LEN, LONG_TFDT_LEN).note_at(child, best);
    } else {
        note_other(child, best);
    }
}

/// Whether a tfdt has an early time.
fn is_early(tfdt: &BoxRef<'_>) -> bool
    ensures { result ≡ is_early (view tfdt.now) }
{
    base_media_decode_time(tfdt.payload) < LATE
}

/// Adds the bytes of a box to those before it.
#[inline(always)]
pub(crate) fn add_len(this: &BoxRef<'_>, len: &mut u64)
    ensures { IsCount most_64 len.old (box_len (view this.now)) len.new }
{
    *len = len.saturating_add(this.header.header_len + this.payload.len() as u64);
}

/// Counts a box of this type.
#[inline(always)]
pub(crate) fn count_kind(kind: FourCc, this: &BoxRef<'_>, count: &mut u64)
    ensures { IsCount most_64 count.old (length (of_kind kind (view this.now ∷ []))) count.new }
{
    if this.header.kind.is(kind) {
        *count = count.saturating_add(1);
    }
}

/// Adds a child of a traf to the findings on the moof.
#[inline(always)]
fn add_child(child: &BoxRef<'_>, sound: &mut MoofCounts)
    ensures { Adds (view child.now ∷ []) sound.old sound.new }
{
    let kind = child.header.kind;
    if kind.is(TRUN) {
        sound.samples = sound.samples.saturating_add(sample_count(child.payload));
        sound.truns = sound.truns.saturating_add(1);
    } else if kind.is(TFDT) {
        sound.is_early = sound.is_early && is_early(child);
    }
}

/// Whether all three hold.
#[inline(always)]
pub(crate) fn all_hold(first: bool, second: bool, third: bool) -> bool
    ensures { IsTrue result → (first ≡ true) × (second ≡ true) × (third ≡ true) }
{
    first && second && third
}

/// Counts a traf that has so many tfdts, where it has none.
#[inline(always)]
fn count_untimed(tfdts: u64, untimed: &mut u64)
    ensures none { tfdts ≡ 0 → IsCount most_64 untimed.old 1 untimed.new }
    ensures some { tfdts ≢ 0 → untimed.new ≡ untimed.old }
{
    if tfdts == 0 {
        *untimed = untimed.saturating_add(1);
    }
}

/// Notes the faults of each child of a traf by itself, adds the child to the findings, and counts the traf if it has
/// no tfdt. Returns whether it has just one tfhd, at most one tfdt, and no rest.
fn note_traf(
    tracks: &TrackList,
    traf: &BoxRef<'_>,
    best: &mut Option<Fault>,
    sound: &mut MoofCounts,
    untimed: &mut u64,
) -> bool
    ensures best { best.new ≡ least_from best.old
        (flat_map (faults_in_traf tracks.now) (children (view traf.now))) }
    ensures complete { IsTrue result → is_complete (view traf.now) ≡ true }
    ensures adds { Adds (children (view traf.now)) sound.old sound.new }
    ensures ticks { TrafHasTicks tracks.now (view traf.now) }
    ensures count { IsTrue result → IsCount most_64 untimed.old
        (length (untimed_ids (view traf.now ∷ []))) untimed.new }
{
    let mut tfhds = 0;
    let mut tfdts = 0;
    let mut len = 0;
    for child in Walk::of(traf) {
        add_child(&child, sound);
        note_in_traf(tracks, &child, best);
        add_len(&child, &mut len);
        count_kind(TFHD, &child, &mut tfhds);
        count_kind(TFDT, &child, &mut tfdts);
    }
    count_untimed(tfdts, untimed);
    all_hold(tfhds == 1, tfdts <= 1, len == traf.payload.len() as u64)
}

/// Notes the faults of a child of a moof by itself, and adds the child to the findings. Returns whether it is a traf
/// with just one tfhd, at most one tfdt, and no rest, or is no traf.
#[inline(always)]
pub(crate) fn note_in_moof(
    tracks: &TrackList,
    child: &BoxRef<'_>,
    best: &mut Option<Fault>,
    sound: &mut MoofCounts,
    untimed: &mut u64,
) -> bool
    ensures best { best.new ≡ least_from best.old (faults_in_moof tracks.now (view child.now)) }
    ensures complete { IsTrue result →
        list_all is_complete (of_kind traf (view child.now ∷ [])) ≡ true }
    ensures adds { Adds (in_trafs (view child.now ∷ [])) sound.old sound.new }
    ensures ticks { AllByRecursion (TrafHasTicks tracks.now) (of_kind traf (view child.now ∷ [])) }
    ensures count { IsTrue result → IsCount most_64 untimed.old
        (length (untimed_ids (of_kind traf (view child.now ∷ [])))) untimed.new }
{
    if child.header.kind.is(TRAF) {
        return note_traf(tracks, child, best, sound, untimed);
    }
    if child.header.kind.is(MFHD) {
        Layout::Exactly(MFHD_LEN).note_at(child, best);
    } else {
        note_other(child, best);
    }
    true
}
