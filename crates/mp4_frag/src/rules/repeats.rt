//! Trafs without a base time of their own, after others of their track.
//!
//! A moof of 64 MiB may have millions of trafs. The track_IDs of trafs without tfdt are read in blocks of a fixed size:
//! each is marked when a traf that has it is passed. The moof is gone over again for each block alone.

ghost use Rattle.std.specs.Prelude.{◌≡◌, ◌≤◌, ◌<◌, ◌+◌, [], ◌∷◌, ◌++◌, true, false, length, take};
ghost use Rattle.mp4_box.specs.Trees.{view};
ghost use Rattle.mp4_box.specs.Order.{least_from};
ghost use Rattle.mp4_box.specs.Paths.{of_kind};
ghost use Rattle.mp4_init.specs.OrderedIds.{AreInOrder, sought};
ghost use Rattle.mp4_traf.specs.Kinds.{traf};
ghost use Rattle.mp4_frag.specs.Repeats.{is_listed, is_repeat, lacks_time, repeat_faults, repeats, traf_id, trafs_after, trafs_before, trafs_of, untimed_ids};
ghost use Rattle.mp4_frag.specs.Implementation.AtOnce.{IsCount, most_64};
ghost use Rattle.mp4_frag.specs.Implementation.RepeatMarks.{all_marked, marked_at, marks};

use arrayvec::ArrayVec;
use mp4_box::types::{TFDT, TFHD, TRAF};
use mp4_box::{BoxRef, Fault, Rule, Walk, count_of, note};
use mp4_init::seek_in_order;
use mp4_traf::internal::{children_of, payload_at, track_id};

/// For how many track_IDs a moof is gone over at once: where so many trafs or fewer lack a tfdt, and where more do.
const FEW: usize = 64;

const SOME: usize = 1024;

const MANY: usize = 45_056;

/// The track_ID of a traf.
#[tactic(auto, unfolding(crate::specs::Repeats::traf_id))]
fn traf_id(traf: &BoxRef<'_>) -> u32
    ensures { result ≡ traf_id (view traf.now) }
{
    track_id(payload_at(TFHD, traf))
}

/// Whether a traf has no tfdt.
#[tactic(auto, unfolding(crate::specs::Repeats::lacks_time))]
pub(crate) fn lacks_time(traf: &BoxRef<'_>) -> bool
    ensures { result ≡ lacks_time (view traf.now) }
{
    children_of(TFDT, traf).next().is_none()
}

/// Adds the track_ID of a child of the moof that is a traf without tfdt.
#[tactic(auto, unfolding(crate::specs::Repeats::untimed_ids))]
fn push_id<const N: usize>(child: &BoxRef<'_>, ids: &mut ArrayVec<u32, N>)
    requires { length ids.old.items < N }
    ensures ids { ids.new.items ≡ ids.old.items ++ untimed_ids (of_kind traf (view child.now ∷ [])) }
    ensures fits { length ids.new.items ≤ N }
{
    if !child.header.kind.is(TRAF) {
        return;
    }
    if lacks_time(child) {
        ids.push(traf_id(child));
    }
}

/// Adds the track_IDs of the trafs without tfdt after so many children of the moof, as many as there is room for.
fn push_ids<const N: usize>(moof: &BoxRef<'_>, passed: usize, ids: &mut ArrayVec<u32, N>)
    requires empty { ids.old.items ≡ [] }
    ensures { ids.new.items ≡ take N (untimed_ids (trafs_after passed (view moof.now))) }
{
    let mut left = passed;
    for child in Walk::of(moof) {
        if ids.is_full() {
            return;
        }
        if left == 0 {
            push_id(&child, ids);
        } else {
            left -= 1;
        }
    }
}

/// Takes these in order in the places of all.
fn take_ids<const N: usize>(moof: &BoxRef<'_>, passed: usize, ids: &mut ArrayVec<u32, N>)
    ensures { AreInOrder (take N (untimed_ids (trafs_after passed (view moof.now)))) ids.new.items }
{
    ids.clear();
    push_ids(moof, passed, ids);
    ids.as_mut_slice().sort_unstable();
}

/// Track_IDs of trafs without tfdt, in order, and which of them a traf has that was passed.
#[derive(Drop)]
struct Marks<const N: usize> {
    ids: ArrayVec<u32, N>,
    seen: [bool; N],
}

impl<const N: usize> Marks<N> {
    /// Marks the track_ID of a traf that is passed.
    fn mark(&mut self, id: u32)
        ensures seen { self.new.seen ≡ marked_at self.old.seen (sought self.old.ids.items id) }
        ensures ids { self.new.ids ≡ self.old.ids }
    {
        if let Some(at) = seek_in_order(self.ids.as_slice(), id) {
            self.seen[at] = true;
        }
    }

    /// Marks the track_ID of a child of the moof that is passed, if it is a traf. Returns whether it is this one.
    #[tactic(auto, unfolding(crate::specs::Implementation::RepeatMarks::all_marked, crate::specs::Repeats::is_listed))]
    fn pass(&mut self, child: &BoxRef<'_>, id: u32) -> bool
        ensures seen { self.new.seen ≡ all_marked self.old.ids.items self.old.seen
            (of_kind traf (view child.now ∷ [])) }
        ensures ids { self.new.ids ≡ self.old.ids }
        ensures listed { result ≡ is_listed id (of_kind traf (view child.now ∷ [])) }
    {
        if !child.header.kind.is(TRAF) {
            return false;
        }
        let other = traf_id(child);
        self.mark(other);
        other == id
    }

    /// Takes other track_IDs: those of the trafs from here on. Returns whether an earlier traf has this track_ID.
    // A function of its own, since a function clears its locals at each call.
    #[tactic(auto, using(crate::proofs::PassLemmas::next), unfolding(crate::specs::Implementation::RepeatMarks::marks))]
    fn refill(&mut self, moof: &BoxRef<'_>, passed: usize, id: u32) -> bool
        ensures seen { self.new.seen ≡ marks N self.new.ids.items (trafs_before passed (view moof.now)) }
        ensures listed { result ≡ is_listed id (trafs_before passed (view moof.now)) }
    {
        take_ids(moof, passed, &mut self.ids);
        self.seen.fill(false);
        let mut found = false;
        let mut left = passed;
        for child in Walk::of(moof) {
            if left == 0 {
                break;
            }
            left -= 1;
            found = self.pass(&child, id) || found;
        }
        found
    }

    /// Whether a traf that was passed has the track_ID.
    fn has(&mut self, moof: &BoxRef<'_>, passed: usize, id: u32) -> bool
        requires seen { self.old.seen ≡ marks N self.old.ids.items (trafs_before passed (view moof.now)) }
        ensures seen { self.new.seen ≡ marks N self.new.ids.items (trafs_before passed (view moof.now)) }
        ensures listed { result ≡ is_listed id (trafs_before passed (view moof.now)) }
    {
        match seek_in_order(self.ids.as_slice(), id) {
            Some(at) => self.seen[at],
            None => self.refill(moof, passed, id),
        }
    }

    /// Whether a traf has no tfdt though one that was passed has its track_ID.
    fn repeats(&mut self, moof: &BoxRef<'_>, passed: usize, traf: &BoxRef<'_>) -> bool
        requires seen { self.old.seen ≡ marks N self.old.ids.items (trafs_before passed (view moof.now)) }
        ensures seen { self.new.seen ≡ marks N self.new.ids.items (trafs_before passed (view moof.now)) }
        ensures repeat { result ≡ is_repeat (trafs_before passed (view moof.now)) (view traf.now) }
    {
        if !lacks_time(traf) {
            return false;
        }
        self.has(moof, passed, traf_id(traf))
    }

    /// Notes such a traf.
    #[tactic(auto, unfolding(crate::specs::Repeats::repeats, mp4_box::specs::Order::least_from))]
    fn note_child(
        &mut self,
        moof: &BoxRef<'_>,
        passed: usize,
        child: &BoxRef<'_>,
        best: &mut Option<Fault>,
    )
        requires seen { self.old.seen ≡ marks N self.old.ids.items (trafs_before passed (view moof.now)) }
        ensures seen { self.new.seen ≡ marks N self.new.ids.items (trafs_before passed (view moof.now)) }
        ensures best { best.new ≡ least_from best.old (repeats
            (trafs_before passed (view moof.now)) (of_kind traf (view child.now ∷ []))) }
    {
        if !child.header.kind.is(TRAF) {
            return;
        }
        if self.repeats(moof, passed, child) {
            note(best, child.fault(Rule::Unsupported));
        }
    }

    /// Notes the trafs that have no tfdt though one that is listed earlier has their track_ID.
    #[tactic(auto, using(crate::proofs::PassLemmas::repeats_none))]
    fn note_all(&mut self, moof: &BoxRef<'_>, best: &mut Option<Fault>)
        requires seen { self.old.seen ≡ marks N self.old.ids.items [] }
        ensures best { best.new ≡ least_from best.old (repeat_faults (view moof.now)) }
    {
        let mut passed = 0;
        for child in Walk::of(moof) {
            self.note_child(moof, passed, &child, best);
            self.pass(&child, 0);
            passed += 1;
        }
    }
}

/// The same, with room for so many track_IDs.
// It is a call of its own so that its room is no part of the frame of its caller, which handles every moof.
#[inline(never)]
fn note_by<const N: usize>(moof: &BoxRef<'_>, best: &mut Option<Fault>)
    requires { N ≤ MANY }
    ensures { best.new ≡ least_from best.old (repeat_faults (view moof.now)) }
{
    let mut marks = Marks::<N> {
        ids: ArrayVec::new(),
        seen: [false; N],
    };
    marks.note_all(moof, best);
}

/// Whether a child of the moof is a traf without tfdt.
#[tactic(auto, unfolding(crate::specs::Repeats::untimed_ids))]
fn is_untimed(child: &BoxRef<'_>) -> bool
    ensures yes { result ≡ true → length (untimed_ids (of_kind traf (view child.now ∷ []))) ≡ 1 }
    ensures no { result ≡ false → length (untimed_ids (of_kind traf (view child.now ∷ []))) ≡ 0 }
{
    if child.header.kind.is(TRAF) {
        lacks_time(child)
    } else {
        false
    }
}

/// How many trafs of the moof have no tfdt.
#[tactic(auto, using(crate::proofs::PassLemmas::count_next))]
fn untimed_in(moof: &BoxRef<'_>) -> u64
    ensures { result ≡ length (untimed_ids (trafs_of (view moof.now))) }
{
    let mut count: u64 = 0;
    for child in Walk::of(moof) {
        if is_untimed(&child) {
            count += 1;
        }
    }
    count
}

/// Notes the trafs that have no tfdt though one that is listed earlier has their track_ID, where so many lack one.
pub(crate) fn note_among(count: u64, moof: &BoxRef<'_>, best: &mut Option<Fault>)
    requires { IsCount most_64 0 (length (untimed_ids (trafs_of (view moof.now)))) count }
    ensures { best.new ≡ least_from best.old (repeat_faults (view moof.now)) }
{
    if count == 0 {
        return;
    }
    if count_of(TRAF, moof) < 2 {
        return;
    }
    if count <= FEW as u64 {
        note_by::<FEW>(moof, best);
    } else if count <= SOME as u64 {
        note_by::<SOME>(moof, best);
    } else {
        note_by::<MANY>(moof, best);
    }
}

/// Notes the trafs that have no tfdt though one that is listed earlier has their track_ID.
pub(crate) fn note_repeats(moof: &BoxRef<'_>, best: &mut Option<Fault>)
    ensures { best.new ≡ least_from best.old (repeat_faults (view moof.now)) }
{
    note_among(untimed_in(moof), moof, best);
}
