//! What the definitions of a moov's rules and tracks imply.

ghost use Rattle.std.specs.Prelude.{◌≡◌, ◌*◌, ◌≤◌, ℕ, true, List, [], length, slice_get, Some, None};
ghost use Rattle.std.specs.List.{AllByRecursion};
ghost use Rattle.std.specs.List.Sorted.{IsSorted};
ghost use Rattle.std.specs.Option.{is_some};
ghost use Rattle.std.specs.Ordering.{nat_cmp};
ghost use Rattle.mp4_box.specs.Headers.{IsBytes};
ghost use Rattle.mp4_box.specs.Paths.{of_kind};
ghost use Rattle.mp4_box.specs.Trees.{Box, box_at, children};
ghost use Rattle.mp4_init.specs.TrackFields.{FitsTrackFields};
ghost use Rattle.mp4_init.specs.Moovs.{moov_fault, moov_faults, moov_tracks};
ghost use Rattle.mp4_init.specs.Kinds.{trak};
ghost use Rattle.mp4_init.specs.OrderedIds.{sought};
ghost use Rattle.mp4_init.specs.Rules.{trexes_of};
ghost use Rattle.mp4_init.specs.Tracks.{id_of};

/// A moov has no fault only where nothing is at fault with it, as far as it is checked.
pub fn no_fault()
    ensures { (o : ℕ) (x : List ℕ) → moov_fault o x ≡ None → moov_faults o x ≡ [] }
{}

/// The table of a moov without a fault takes no more bytes than the moov.
pub fn table_is_small()
    ensures { (o : ℕ) (x : List ℕ) → IsBytes x → moov_fault o x ≡ None →
        64 * length (moov_tracks o x) ≤ length x }
{}

/// In a moov without a fault just one trex has the track_ID of each trak, so that its defaults are the track's.
pub fn each_has_one_trex()
    ensures { (o : ℕ) (x : List ℕ) (moov : Box) → box_at o x ≡ Some moov → moov_fault o x ≡ None →
        AllByRecursion (λ t. length (trexes_of moov (id_of t)) ≡ 1) (of_kind trak (children moov)) }
{}

/// Each number of a track has the bits of its field.
pub fn tracks_fit_their_fields()
    ensures { (o : ℕ) (x : List ℕ) → IsBytes x →
        AllByRecursion FitsTrackFields (moov_tracks o x) }
{}

/// A moov that is good at one stream offset is good at each, and has the same tracks there.
pub fn moovs_are_good_anywhere()
    ensures good { (o to : ℕ) (x : List ℕ) → moov_fault o x ≡ None → moov_fault to x ≡ None }
    ensures tracks { (o to : ℕ) (x : List ℕ) → moov_tracks to x ≡ moov_tracks o x }
{}

/// A track_ID that is among at most 65,536 in order is found, and found nowhere else: the id at its place is it.
pub fn ids_in_order_are_found()
    ensures found { (ids : List ℕ) (id k : ℕ) → IsSorted nat_cmp ids → length ids ≤ 65536 →
        slice_get ids k ≡ Some id → is_some (sought ids id) ≡ true }
    ensures holds_id { (ids : List ℕ) (id k : ℕ) → sought ids id ≡ Some k → slice_get ids k ≡ Some id }
{}
