//! What a moov says of many track_IDs at once, so that a moov of many tracks is gone over few times.

ghost use Rattle.std.specs.Prelude.{◌≡◌, ◌<◌, ◌≤◌, [], length, replicate, take};
ghost use Rattle.mp4_box.specs.Paths.{at_path};
ghost use Rattle.mp4_box.specs.Trees.{view};
ghost use Rattle.mp4_init.specs.Kinds.{to_tkhd};
ghost use Rattle.mp4_init.specs.OrderedIds.{AreInOrder, sought};
ghost use Rattle.mp4_init.specs.Implementation.Summaries.{all_added, gathered, id_by, ids_from, empty_summary, summaries_in, summary_in, added_at, added_if};

use crate::fields::number_after_times;
use crate::ordered_ids::seek_in_order;
use crate::summary::{NOTHING, Source, Summary, add_box, id_in};
use arrayvec::ArrayVec;
use mp4_box::types::{MVEX, TKHD, TRAK, TREX};
use mp4_box::{Along, BoxRef, FourCc};

/// Adds the track_IDs of the tkhds that begin at the offset or after it, as many as there is room for.
fn push_ids<const N: usize>(moov: &BoxRef<'_>, from: u64, ids: &mut ArrayVec<u32, N>)
    requires empty { ids.old.items ≡ [] }
    ensures { ids.new.items ≡ take N (ids_from from (at_path to_tkhd (view moov.now))) }
{
    for tkhd in Along::of(&[TRAK, TKHD], moov) {
        if ids.is_full() {
            return;
        }
        if tkhd.offset >= from {
            ids.push(number_after_times(&tkhd));
        }
    }
}

/// Takes these in order in the places of all.
fn take_ids<const N: usize>(moov: &BoxRef<'_>, from: u64, ids: &mut ArrayVec<u32, N>)
    ensures { AreInOrder (take N (ids_from from (at_path to_tkhd (view moov.now)))) ids.new.items }
{
    ids.clear();
    push_ids(moov, from, ids);
    ids.as_mut_slice().sort_unstable();
}

/// Puts as many summaries in the places of all, each before any box was seen.
fn clear<const N: usize>(count: usize, summaries: &mut ArrayVec<Summary, N>)
    requires { count ≤ N }
    ensures { summaries.new.items ≡ replicate count empty_summary }
{
    summaries.clear();
    while summaries.len() < count {
        summaries.push(NOTHING);
    }
}

/// Adds a box to the summary of its track_ID, if that has a place.
fn add_placed(source: Source, ids: &[u32], this: &BoxRef<'_>, summaries: &mut [Summary])
    requires { length summaries.old ≡ length ids.now }
    ensures { summaries.new ≡ added_at source (view this.now) summaries.old
        (sought ids.now (id_by source (view this.now))) }
{
    if let Some(at) = seek_in_order(ids, id_in(source, this)) {
        add_box(&mut summaries[at], source, this);
    }
}

/// Adds a box to the summary of this track_ID, if the box has it.
fn add_own(source: Source, id: u32, this: &BoxRef<'_>, own: &mut Summary)
    ensures { own.new ≡ added_if source id own.old (view this.now) }
{
    if id_in(source, this) == id {
        add_box(own, source, this);
    }
}

/// Adds the boxes on a path to the summaries of their track_IDs, and to that of this one.
fn add_along(
    source: Source,
    path: &[FourCc],
    moov: &BoxRef<'_>,
    ids: &[u32],
    summaries: &mut [Summary],
    id: u32,
    own: &mut Summary,
)
    requires size { length summaries.old ≡ length ids.now }
    requires path { length path.now ≤ 8 }
    ensures all { summaries.new ≡ all_added source ids.now summaries.old
        (at_path path.now (view moov.now)) }
    ensures own { own.new ≡ gathered source id own.old (at_path path.now (view moov.now)) }
{
    for this in Along::of(path, moov) {
        add_placed(source, ids, &this, summaries);
        add_own(source, id, &this, own);
    }
}

/// For how many track_IDs a moov is gone over at once.
pub(crate) const SLOTS: usize = 6144;

/// The same for a moov of as many tracks at most.
pub(crate) const FEW_SLOTS: usize = 64;

/// Some track_IDs in order, none at first, and the summary of each. The moov is gone over again only for another
/// track_ID.
#[derive(Drop)]
pub(crate) struct Slots<const N: usize> {
    pub(crate) ids: ArrayVec<u32, N>,
    pub(crate) summaries: ArrayVec<Summary, N>,
}

impl<const N: usize> Slots<N> {
    /// Puts the track_IDs of the tkhds that begin at the offset or after it in the places of all. Returns what the moov
    /// says of this one.
    // A function of its own, since a function clears its locals at each call.
    fn refill(&mut self, moov: &BoxRef<'_>, from: u64, id: u32) -> Summary
        ensures added { self.new.summaries.items ≡ summaries_in (view moov.now) self.new.ids.items }
        ensures summary { result ≡ summary_in (view moov.now) id }
    {
        take_ids(moov, from, &mut self.ids);
        clear(self.ids.len(), &mut self.summaries);
        let ids = self.ids.as_slice();
        let summaries = self.summaries.as_mut_slice();
        let mut own = NOTHING;
        add_along(
            Source::Tkhd,
            &[TRAK, TKHD],
            moov,
            ids,
            summaries,
            id,
            &mut own,
        );
        add_along(
            Source::Trex,
            &[MVEX, TREX],
            moov,
            ids,
            summaries,
            id,
            &mut own,
        );
        own
    }

    /// What the moov says of a track_ID. Those of tkhds that begin at the offset or after it will be asked for next.
    pub(crate) fn summary(&mut self, moov: &BoxRef<'_>, from: u64, id: u32) -> Summary
        requires { self.old.summaries.items ≡ summaries_in (view moov.now) self.old.ids.items }
        ensures summary { result ≡ summary_in (view moov.now) id }
        ensures added { self.new.summaries.items ≡ summaries_in (view moov.now) self.new.ids.items }
    {
        match seek_in_order(self.ids.as_slice(), id) {
            Some(at) => self.summaries.as_slice()[at],
            None => self.refill(moov, from, id),
        }
    }
}
