//! A table of tracks in claimed memory.

ghost use Rattle.std.specs.Prelude.{◌≡◌, ◌+◌, ◌*◌, ◌^◌, ◌<◌, ◌≤◌, ◌==◌, ◌↔◌, [], ◌++◌, ◌∷◌, length, map, slice_index_or, IfSome, IsTrue};
ghost use Rattle.std.specs.List.{AllByRecursion, position};
ghost use Rattle.mp4_ledger.specs.Memory.{given_back};
ghost use Rattle.mp4_init.specs.Implementation.Rows.{node_of_row, track_of_row};
ghost use Rattle.mp4_init.specs.Tracks.{with_next};
ghost use Rattle.mp4_init.specs.Implementation.SearchTrees.{IsIndexed};

use crate::row::{ended_row, linked_row, node_for, row_for, track_for};
use crate::search_tree::{Ending, Node, Nodes, search};
use mp4_ledger::{Ledger, Rows64};
use std::marker::Model;

/// What a moov says of a track, and where its last fragment ended. Times are ticks of the track's timescale.
#[derive(Clone, Copy, Debug, PartialEq, Eq)]
pub struct Track {
    /// track_ID (ISO/IEC 14496-12, 8.3.2).
    pub id: u32,
    /// How many ticks a second has (8.4.2).
    pub timescale: u32,
    /// Its handler_type (8.4.3) as a number, whose highest byte is the first; 0 where it has none.
    pub handler: u32,
    /// How many sample entries it has (8.5.2).
    pub entries: u32,
    /// The index of the sample entry of a fragment's samples, if the fragment has none (8.8.3).
    pub desc: u32,
    /// The duration of a sample, if its fragment has none (8.8.3).
    pub duration: u32,
    /// The size of a sample in bytes, if its fragment has none (8.8.3).
    pub size: u32,
    /// The flags of a sample, if its fragment has none (8.8.3).
    pub flags: u32,
    /// The decode time at which the last of its fragments ended, 0 before the first.
    pub next: u64,
}

/// The tracks of a moov, in claimed memory, 64 bytes for each. It must be given back to its ledger, and can't be
/// dropped.
pub struct TrackList {
    rows: Rows64,
}

// A contract sees the tracks, in the order of their traks.
impl Model for TrackList {
    ghost use Rattle.std.specs.Prelude.{◌≡◌, List, map, length};
    ghost use Rattle.mp4_init.specs.declared.table.Track.{Track};
    ghost use Rattle.mp4_init.specs.Implementation.Rows.{node_of_row, track_of_row};
    ghost use Rattle.mp4_init.specs.Implementation.SearchTrees.{IsIndexed};

    ghost Value = { List Track };

    ghost view = { λ l. map track_of_row l.rows.rows };

    ghost invariant = { λ l. (length l.rows.rows ≡ l.rows.cap) ×
        IsIndexed (map node_of_row l.rows.rows) };
}

impl TrackList {
    /// How many tracks it has. The default size of a sample is below 2^32 in each.
    #[tactic(auto, using(crate::proofs::RowLemmas::sizes_small))]
    pub fn len(&self) -> usize
        ensures len { result ≡ length self.now }
        ensures small { AllByRecursion (λ t. t.size < 2 ^ 32) self.now }
    {
        self.rows.len()
    }

    /// Whether it has none.
    pub fn is_empty(&self) -> bool
        ensures { IsTrue result ↔ (self.now ≡ []) }
    {
        self.len() == 0
    }

    /// The track at this index.
    #[tactic(auto, using(crate::proofs::RowLemmas::row_at))]
    pub fn at(&self, i: usize) -> Track
        requires { i < length self.now }
        ensures { result ≡ slice_index_or self.now i result }
    {
        track_for(self.rows.get(i))
    }

    /// The list of the tracks in the rows.
    pub(crate) fn of(rows: Rows64) -> TrackList
        requires full { length rows.rows ≡ rows.cap }
        requires indexed { IsIndexed (map node_of_row rows.rows) }
        ensures { result ≡ map track_of_row rows.rows }
    {
        TrackList { rows }
    }

    /// The index of the track with this track_ID; none where no track has it. It reads one track for each of the 32
    /// bits of a track_ID at most, and one more.
    pub fn find(&self, id: u32) -> Option<usize>
        ensures first { result ≡ position (λ t. t.id == id) self.now }
        ensures within { IfSome result (λ i. i < length self.now) }
    {
        match search(&self.rows, id) {
            Ending::Found(at) => Some(at),
            Ending::After(_) | Ending::Unasked => None,
        }
    }

    /// Sets where the last fragment of the track at this index ended.
    #[tactic(auto, using(crate::proofs::RowLemmas::length_with_next))]
    pub fn set_next(&mut self, i: usize, next: u64)
        requires { i < length self.old }
        ensures next { self.new ≡ with_next i next self.old }
        ensures len { length self.new ≡ length self.old }
    {
        let row = ended_row(self.rows.get(i), next);
        self.rows.set(i, row);
    }

    /// Gives its claim back.
    pub fn back(self, ledger: &mut Ledger)
        requires { 64 * length self ≤ ledger.old.live }
        ensures { ledger.new ≡ given_back ledger.old (64 * length self) }
    {
        let TrackList { rows } = self;
        ledger.back_rows(rows);
    }
}

impl Nodes for Rows64 {
    ghost nodes = { λ t. map node_of_row t.rows };

    #[tactic(auto, using(crate::proofs::RowLemmas::node_at, crate::proofs::RowLemmas::node_past))]
    fn node(&self, at: usize) -> Option<Node> {
        if at < self.len() {
            Some(node_for(self.get(at)))
        } else {
            None
        }
    }
}

/// Appends a track for which there is room, and links its node, so that a search finds it.
pub(crate) fn push_track(rows: &mut Rows64, track: Track)
    requires room { length rows.old.rows < rows.old.cap }
    requires indexed { IsIndexed (map node_of_row rows.old.rows) }
    ensures tracks { map track_of_row rows.new.rows ≡ map track_of_row rows.old.rows ++ track ∷ [] }
    ensures indexed { IsIndexed (map node_of_row rows.new.rows) }
    ensures len { length rows.new.rows ≡ length rows.old.rows + 1 }
    ensures cap { rows.new.cap ≡ rows.old.cap }
{
    let ending = search(rows, track.id);
    let last = rows.len();
    rows.push(row_for(track));
    if let Ending::After(link) = ending {
        let row = linked_row(rows.get(link.at), link.is_odd, last);
        rows.set(link.at, row);
    }
}
