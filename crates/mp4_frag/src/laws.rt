//! What the definitions of a moof's rules, runs and rows imply.

ghost use Rattle.std.specs.Prelude.{◌≡◌, ◌<◌, ◌≤◌, ◌^◌, ◌+◌, ◌*◌, ◌==◌, ◌∷◌, ℕ, List, [], length, option_map, true};
ghost use Rattle.std.specs.List.{AllByRecursion, AllPairs, flat_map, list_all, sum_by};
ghost use Rattle.std.specs.List.Sorted.{IsPermutation};
ghost use Rattle.mp4_box.specs.Headers.{IsBytes, IsWhole};
ghost use Rattle.mp4_box.specs.Paths.{at_path, of_kind};
ghost use Rattle.mp4_box.specs.Trees.{children, first_of};
ghost use Rattle.mp4_init.specs.declared.table.Track.{Track};
ghost use Rattle.mp4_init.specs.TrackFields.{FitsTrackFields};
ghost use Rattle.mp4_run_order.specs.Orders.{IsTakenBefore};
ghost use Rattle.mp4_run_order.specs.Runs.{IsListing};
ghost use Rattle.mp4_traf.specs.declared.run.Run.{Run};
ghost use Rattle.mp4_traf.specs.declared.rows.Cursor.{Cursor};
ghost use Rattle.mp4_traf.specs.declared.rows.Row.{Row};
ghost use Rattle.mp4_traf.specs.Kinds.{traf};
ghost use Rattle.mp4_frag.specs.Laws.{TrafRowsAreGroups, in_turn};
ghost use Rattle.mp4_traf.specs.Cursors.{first_cursor, past};
ghost use Rattle.mp4_frag.specs.Moofs.{IsRead, moof_faults, moof_of, moof_runs, moof_samples, moof_trafs, time_faults};
ghost use Rattle.mp4_traf.specs.Ranges.{InRange, IsSound};
ghost use Rattle.mp4_frag.specs.Repeats.{repeat_faults};
ghost use Rattle.mp4_traf.specs.Rows.{IsCursor, durations, row_of, rows_of};
ghost use Rattle.mp4_frag.specs.Rules.{count_faults};
ghost use Rattle.mp4_frag.specs.RunLists.{moof_listing, taken_runs, ListedRows};
ghost use Rattle.mp4_frag.specs.ListsOfRuns.{IsListOf};
ghost use Rattle.mp4_frag.specs.Places.{listed_run};
ghost use Rattle.mp4_traf.specs.Runs.{MoofBytes, TrackFragment, begins_early, runs_of};
ghost use Rattle.mp4_traf.specs.Settling.{settled};
ghost use Rattle.mp4_traf.specs.SyncSamples.{is_sync};
ghost use Rattle.mp4_traf.specs.TrafTotals.{bytes_in_traf, duration_of, first_flags, samples_in_traf};

/// A moof without a fault has no fault, as far as it is checked.
pub fn no_fault()
    ensures { (h : MoofBytes) (tracks : List Track) → IsRead h tracks → moof_faults h tracks ≡ [] }
{}

/// In a moof without a fault row i of the run of each trun has the fields of group i of the trun's payload.
pub fn rows_are_groups()
    ensures { (h : MoofBytes) (tracks : List Track) → IsWhole h.bytes → IsBytes h.bytes →
        IsRead h tracks → AllByRecursion (TrafRowsAreGroups h tracks)
        (of_kind traf (children (moof_of h))) }
{}

/// The samples of a moof are the rows of all its runs.
pub fn samples_are_rows()
    ensures { (h : MoofBytes) (tracks : List Track) →
        length (flat_map (λ run. rows_of run h.bytes) (moof_runs h tracks)) ≡ moof_samples h }
{}

/// The sums over the trafs of a moof are those over its samples. The duration of a traf is that of its samples, added
/// up, and it begins with the flags of the first of them.
pub fn trafs_have_all_samples()
    ensures samples { (h : MoofBytes) (tracks : List Track) →
        sum_by samples_in_traf (moof_trafs h tracks) ≡ moof_samples h }
    ensures bytes { (h : MoofBytes) (tracks : List Track) → sum_by bytes_in_traf (moof_trafs h tracks) ≡
        sum_by (λ (run : Run). run.bytes) (taken_runs h tracks) }
    ensures duration { (t : TrackFragment) → duration_of t ≡
        sum_by (λ (run : Run). durations (rows_of run t.shared.moof.bytes)) (runs_of t) }
    ensures first { (t : TrackFragment) → first_flags t.shared.moof.bytes (runs_of t) ≡
        option_map (λ (row : Row). row.flags)
        (first_of (flat_map (λ (run : Run). rows_of run t.shared.moof.bytes) (runs_of t))) }
{}

/// A run's time and place are a cursor at its first row, and a cursor that has gone past a row is a cursor.
pub fn cursors_go_on()
    ensures first { (run : Run) (moof_bytes : List ℕ) → IsCursor run moof_bytes (first_cursor run) }
    ensures past { (run : Run) (moof_bytes : List ℕ) (c : Cursor) → IsCursor run moof_bytes c →
        c.row < run.count → IsCursor run moof_bytes (past c (row_of run moof_bytes c.row)) }
{}

/// Where no traf without tfdt has the track_ID of an earlier one, the ends of the tracks before the moof are all that
/// base times need: each traf is as if the trafs were gone over in turn, and each set where its track ended.
pub fn ends_before_serve()
    ensures { (h : MoofBytes) (tracks : List Track) → repeat_faults (moof_of h) ≡ [] →
        in_turn h tracks (of_kind traf (children (moof_of h))) ≡ moof_trafs h tracks }
{}

/// In a moof without a fault each run ends within 64 bits, and its samples lie from 2^31 bytes before the stream on and
/// end before byte 2^63.
pub fn runs_are_in_range()
    ensures { (h : MoofBytes) (tracks : List Track) → IsWhole h.bytes → IsBytes h.bytes →
        h.offset + length h.bytes ≤ 2 ^ 62 → AllByRecursion (λ t. t.size < 2 ^ 32) tracks →
        IsRead h tracks → AllByRecursion InRange (moof_runs h tracks) }
{}

/// The trafs of a moof without a fault are sound, as [`Traf::totals`](crate::Traf::totals) requires.
pub fn trafs_are_sound()
    ensures { (h : MoofBytes) (tracks : List Track) → IsWhole h.bytes → IsBytes h.bytes →
        h.offset + length h.bytes ≤ 2 ^ 62 → IsRead h tracks →
        AllByRecursion IsSound (moof_trafs h tracks) }
{}

/// Where the samples of a moof aren't too many and each of its trafs has a time of its own before tick 2^63, each run
/// ends within 64 bits, whatever its rows say.
pub fn early_trafs_end_in_time()
    ensures { (h : MoofBytes) (tracks : List Track) → IsWhole h.bytes → IsBytes h.bytes →
        AllByRecursion FitsTrackFields tracks → count_faults (moof_of h) ≡ [] →
        list_all begins_early (at_path (traf ∷ []) (moof_of h)) ≡ true →
        time_faults (moof_trafs h tracks) ≡ [] }
{}

/// A list of a moof has just its runs, by place, and those at one place as they are listed.
pub fn lists_are_in_order()
    ensures same { (h : MoofBytes) (tracks : List Track) →
        IsPermutation (moof_runs h tracks) (taken_runs h tracks) }
    ensures order { (h : MoofBytes) (tracks : List Track) (l : ListedRows) → IsListOf h tracks l →
        AllPairs (λ a b. IsTakenBefore (listed_run a) (listed_run b)) (taken_runs h tracks) }
{}

/// A moof lists its runs, also where it has a fault: their numbers rise in the listing.
pub fn moofs_list_their_runs()
    ensures { (h : MoofBytes) (tracks : List Track) → IsBytes h.bytes →
        IsListing (moof_listing h tracks) }
{}

/// Where a moof sets the ends of tracks, their numbers still fit their fields.
pub fn settled_tracks_fit()
    ensures { (tracks : List Track) (trafs : List TrackFragment) →
        AllByRecursion FitsTrackFields tracks →
        AllByRecursion FitsTrackFields (settled tracks trafs) }
{}

/// A sample is a sync sample exactly where the bit sample_is_non_sync_sample of its flags is 0, which
/// is above the 16 bits of sample_degradation_priority (ISO/IEC 14496-12, 8.8.3).
pub fn one_bit_marks_sync_samples()
    ensures { (above bit priority : ℕ) → bit < 2 → priority < 2 ^ 16 →
        is_sync ((above * 2 + bit) * 2 ^ 16 + priority) ≡ (bit == 0) }
{}
