//! What the definitions of where runs lie, how they are searched and how they are taken imply.

ghost use Rattle.std.specs.Prelude.{ℕ, List, ◌≡◌, ◌≤ℤ◌, option_map};
ghost use Rattle.std.specs.List.{All, AllPairs, filter};
ghost use Rattle.std.specs.List.Sorted.{IsNonDecreasingBy, IsPermutation};
ghost use Rattle.mp4_run_order.specs.declared.runs.ListedRun.{ListedRun};
ghost use Rattle.mp4_run_order.specs.declared.runs.Payload.{Payload};
ghost use Rattle.mp4_run_order.specs.Orders.{FitsKeys, IsTakingOrder, IsTrackOrder, place_key, taken, track_key};
ghost use Rattle.mp4_run_order.specs.Places.{IsOffender, Placed, first_offender};
ghost use Rattle.mp4_run_order.specs.Runs.{IsListing};
ghost use Rattle.mp4_run_order.specs.Implementation.Searches.{found_by_place, found_by_track};
ghost use Rattle.mp4_run_order.specs.Worked.{AreAtFault, AreTakenInTurns, AreWithoutBytes};
ghost use Rattle.mp4_run_order.specs.Takings.{AllFollow, IsTakenWell, has_samples};

/// The two passes find the number of the first run in the listing that is at fault, and none where none is.
pub fn search_finds_the_first()
    ensures { (p : Payload) (runs sorted xs : List ListedRun) → IsListing runs →
        IsTrackOrder runs sorted → IsTakingOrder runs xs →
        found_by_place p (found_by_track sorted) xs
        ≡ option_map (λ run. run.number) (first_offender p runs) }
{}

/// The result is the first run in the listing that may not lie where it does, or none where all may.
pub fn offender_is_the_first()
    ensures { (p : Payload) (runs : List ListedRun) → IsListing runs →
        IsOffender p runs (first_offender p runs) }
{}

/// The taking order of a listing is one, and it is that which is computed.
pub fn taking_order_is_one()
    ensures exists { (runs : List ListedRun) → IsListing runs → IsTakingOrder runs (taken runs) }
    ensures alone { (runs xs : List ListedRun) → IsListing runs → IsTakingOrder runs xs →
        xs ≡ taken runs }
{}

/// Runs that are sorted by their keys are in taking order, or in order by track.
pub fn keys_determine_the_orders()
    ensures place { (runs xs : List ListedRun) → IsListing runs → All FitsKeys runs →
        IsPermutation runs xs → IsNonDecreasingBy place_key xs → IsTakingOrder runs xs }
    ensures track { (runs xs : List ListedRun) → IsListing runs → All FitsKeys runs →
        IsPermutation runs xs → IsNonDecreasingBy track_key xs → IsTrackOrder runs xs }
{}

/// Without an offender the runs with bytes ascend in taking order and share no byte, those with samples lie in the
/// payload, and those of each track are taken as they are listed.
pub fn placed_runs_are_taken_well()
    ensures { (p : Payload) (runs xs : List ListedRun) → IsListing runs → IsTakingOrder runs xs →
        Placed p runs → IsTakenWell p runs xs }
{}

/// Runs whose places ascend in the listing are taken as they are listed.
pub fn ascending_runs_are_taken_as_listed()
    ensures { (runs : List ListedRun) → IsListing runs → AllPairs (λ a b. a.place ≤ℤ b.place) runs →
        taken runs ≡ runs }
{}

/// Where no run begins before the end of one that is listed earlier, which is a stricter rule, no run is at fault, and
/// those with samples are taken as they are listed.
pub fn following_runs_are_placed()
    ensures placed { (p : Payload) (runs : List ListedRun) → AllFollow p runs → Placed p runs }
    ensures order { (p : Payload) (runs xs : List ListedRun) → IsListing runs →
        IsTakingOrder runs xs → AllFollow p runs → filter has_samples xs ≡ filter has_samples runs }
{}

/// Runs of two tracks in turn, with one that is moved, and with one that has no bytes.
pub fn worked_runs()
    ensures in_turns { AreTakenInTurns }
    ensures at_fault { AreAtFault }
    ensures without_bytes { AreWithoutBytes }
{}
