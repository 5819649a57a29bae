//! Where the trafs of a moof end, kept while its runs are gone over, so that they needn't be gone over again to settle
//! the tracks.

ghost use Rattle.std.specs.Prelude.{◌≡◌, ◌<◌, ◌++◌, ◌∷◌, [], length, take, IsTrue};
ghost use Rattle.std.specs.List.{fold};
ghost use Rattle.mp4_frag.specs.TrafEnds.{ended_by, few_trafs};

use arrayvec::ArrayVec;
use mp4_init::TrackList;

/// For how many trafs it is kept where they end. Most moofs have fewer.
const FEW_TRAFS: usize = 4;

/// Where a traf ends.
#[derive(Clone, Copy, Default)]
pub struct TrafEnd {
    /// The track_ID of its track.
    pub track: u32,
    /// The time, in ticks.
    pub time: u64,
}

/// Where the first trafs of a moof end, and how many of its samples have durations of their own.
#[derive(Drop)]
pub struct TrafEnds {
    ends: ArrayVec<TrafEnd, FEW_TRAFS>,
    timed: u32,
}

/// Sets where the track of a traf ends.
fn set_end(tracks: &mut TrackList, end: &TrafEnd)
    ensures { tracks.new ≡ ended_by tracks.old end.now }
{
    if let Some(i) = tracks.find(end.track) {
        tracks.set_next(i, end.time);
    }
}

impl TrafEnds {
    /// No traf so far.
    #[inline(always)]
    pub(crate) fn new() -> TrafEnds
        ensures ends { result.ends.items ≡ [] }
        ensures timed { result.timed ≡ 0 }
    {
        TrafEnds {
            ends: ArrayVec::new(),
            timed: 0,
        }
    }

    /// Keeps one traf more, where there is room.
    #[inline(always)]
    pub(crate) fn push(&mut self, end: TrafEnd)
        ensures ends { self.new.ends.items ≡ take few_trafs (self.old.ends.items ++ end ∷ []) }
        ensures timed { self.new.timed ≡ self.old.timed }
    {
        if self.ends.is_full() {
            return;
        }
        self.ends.push(end);
    }

    /// Keeps how many samples have durations of their own.
    #[inline(always)]
    pub(crate) fn set_timed(&mut self, timed: u32)
        ensures ends { self.new.ends ≡ self.old.ends }
        ensures timed { self.new.timed ≡ timed }
    {
        self.timed = timed;
    }

    /// Whether all trafs are kept of a moof: there is room for one more.
    #[inline(always)]
    pub(crate) fn has_room(&self) -> bool
        ensures { IsTrue result → length self.now.ends.items < few_trafs }
    {
        !self.ends.is_full()
    }

    /// How many samples of the moof have durations of their own.
    #[inline(always)]
    pub(crate) fn timed(&self) -> u32
        ensures { result ≡ self.now.timed }
    {
        self.timed
    }

    /// Sets where the tracks of the trafs that are kept end, one after the other.
    pub(crate) fn settle(&self, tracks: &mut TrackList)
        ensures { tracks.new ≡ fold ended_by tracks.old self.now.ends.items }
    {
        for end in self.ends.as_slice() {
            set_end(tracks, end);
        }
    }
}
