//! What the definitions of how runs are cut imply.

ghost use Rattle.std.specs.Prelude.{◌≡◌, ◌+◌, ◌*◌, ◌/◌, ◌^◌, ◌≤◌, ◌<◌, ◌↔◌, ◌+ℤ◌, ◌≤ℤ◌, pos, ◌∷◌, [], true, ℕ, List, Some, None, length, take, drop};
ghost use Rattle.std.specs.List.{AllByRecursion};
ghost use Rattle.std.specs.List.Sorted.{IsPermutation};
ghost use Rattle.mp4_box.specs.Headers.{IsBytes, IsWhole};
ghost use Rattle.mp4_box.specs.declared.rules.Fault.{Fault};
ghost use Rattle.mp4_box.specs.declared.rules.Rule.TheVariants.{IndexRange};
ghost use Rattle.mp4_init.specs.declared.table.Track.{Track};
ghost use Rattle.mp4_traf.specs.CompositionTimes.{IsLeastOf, composition_times};
ghost use Rattle.mp4_traf.specs.declared.run.Run.{Run};
ghost use Rattle.mp4_traf.specs.declared.rows.Cursor.{Cursor};
ghost use Rattle.mp4_traf.specs.declared.rows.Row.{Row};
ghost use Rattle.mp4_frag.specs.Moofs.{IsRead, moof_runs, moof_samples};
ghost use Rattle.mp4_traf.specs.Rows.{IsCursor};
ghost use Rattle.mp4_traf.specs.Runs.{MoofBytes, end_place};
ghost use Rattle.mp4_pieces.specs.declared.cut.Cut.{Cut};
ghost use Rattle.mp4_pieces.specs.declared.piece.Piece.{Piece};
ghost use Rattle.mp4_pieces.specs.Cutting.{ArePieces, IsLimit};
ghost use Rattle.mp4_pieces.specs.Fits.{HasRoomFor};
ghost use Rattle.mp4_pieces.specs.Fitting.{cut_for, fits};
ghost use Rattle.mp4_pieces.specs.Groups.{AreGroups, groups};
ghost use Rattle.mp4_pieces.specs.Laws.{IsFollowedBy, MayBeOnePiece};
ghost use Rattle.mp4_pieces.specs.Pieces.{IsPieceOf, cut_rows, piece_count, pieces_from, pieces_of, rows_in};
ghost use Rattle.mp4_pieces.specs.PlainPieces.{EndsInRange};
ghost use Rattle.mp4_traf.specs.Ranges.{AreRunsOf, IsRunOf};
ghost use Rattle.mp4_pieces.specs.Rooms.{index_faults, room_fault, room_faults};

/// There is just one way to cut samples into pieces, and it is the computed one.
pub fn pieces_are_one()
    ensures exists { (cut : Cut) (rows : List Row) →
        ArePieces (fits cut) rows (cut_rows cut rows) }
    ensures alone { (cut : Cut) (rows : List Row) (ps : List (List Row)) →
        ArePieces (fits cut) rows ps → ps ≡ cut_rows cut rows }
{}

/// What fits in one piece: at most so many samples, at most so many bytes and ticks or just one sample, and no sync
/// sample but the first where a piece is to end before each.
pub fn what_fits()
    ensures { (cut : Cut) (rows : List Row) → (fits cut rows ≡ true) ↔ MayBeOnePiece cut rows }
{}

/// One sample fits, and so does each prefix of what fits. So samples that fit together are one
/// piece.
pub fn what_fits_is_one_piece()
    ensures limit { (cut : Cut) → IsLimit (fits cut) }
    ensures whole { (cut : Cut) (row : Row) (rows : List Row) →
        fits cut (row ∷ rows) ≡ true → cut_rows cut (row ∷ rows) ≡ (row ∷ rows) ∷ [] }
{}

/// Each piece of a run names samples of it, and has their sums. It ends in range.
pub fn pieces_name_samples()
    ensures pieces { (cut : Cut) (moof_bytes : List ℕ) (run : Run) →
        AllByRecursion (IsPieceOf moof_bytes run) (pieces_of cut moof_bytes run) }
    ensures least { (moof_bytes : List ℕ) (run : Run) (p : Piece) → IsPieceOf moof_bytes run p →
        IsLeastOf (composition_times p.plain.time (rows_in moof_bytes run p)) p.least }
    ensures range { (moof_bytes : List ℕ) (run : Run) (p : Piece) → IsRunOf moof_bytes run →
        IsPieceOf moof_bytes run p → EndsInRange p.plain }
{}

/// Where there is a limit in milliseconds, a piece of a run that has more than one sample lasts no longer: its duration
/// has at most so many ticks of the timescale of its track, rounded down.
pub fn pieces_are_short()
    ensures ticks { (cut : Cut) (moof_bytes : List ℕ) (run : Run) (millis : ℕ) → cut.duration ≡ Some millis →
        AllByRecursion (λ p. 1 < p.plain.count → p.plain.duration ≤ millis * run.timescale / 1000)
        (pieces_of cut moof_bytes run) }
    ensures time { (cut : Cut) (moof_bytes : List ℕ) (run : Run) (millis : ℕ) → cut.duration ≡ Some millis →
        AllByRecursion (λ p. 1 < p.plain.count → 1000 * p.plain.duration ≤ millis * run.timescale)
        (pieces_of cut moof_bytes run) }
{}

/// Where there is none, the cut for a timescale cuts as the cut itself does, unless that has a limit in ticks.
pub fn no_limit_in_time()
    ensures { (cut : Cut) (timescale : ℕ) (rows : List Row) → cut.duration ≡ None → cut.ticks ≡ None →
        cut_rows (cut_for timescale cut) rows ≡ cut_rows cut rows }
{}

/// After the first piece from a cursor on there is a cursor of the run, and from there on it has
/// the other pieces. So no list of pieces need be kept.
pub fn cursors_go_on()
    ensures { (cut : Cut) (moof_bytes : List ℕ) (run : Run) (c : Cursor) (p : Piece) (ps : List Piece) →
        IsCursor run moof_bytes c → pieces_from cut moof_bytes run c ≡ p ∷ ps →
        IsFollowedBy cut moof_bytes run p ps }
{}

/// There is just one way to put pieces into groups, and it is the computed one.
pub fn groups_are_one()
    ensures exists { (ps : List Piece) → AreGroups ps (groups ps) }
    ensures alone { (ps : List Piece) (gs : List (List Piece)) → AreGroups ps gs →
        gs ≡ groups ps }
{}

/// There is no fault exactly where there is room for the numbers of all pieces.
pub fn no_fault_is_room()
    ensures { (cut : Cut) (h : MoofBytes) (runs : List Run) (seq : ℕ) →
        (room_faults cut h runs seq ≡ []) ↔ HasRoomFor cut h runs seq }
{}

/// Where an index has no room, that is the fault, and not the numbers of the pieces: the lower rule is reported.
pub fn index_before_numbers()
    ensures { (cut : Cut) (h : MoofBytes) (runs : List Run) (seq : ℕ) (f g : Fault) (fs : List Fault) →
        index_faults cut h.bytes runs ≡ f ∷ fs → room_fault cut h runs seq ≡ Some g →
        g.rule ≡ IndexRange }
{}

/// It doesn't matter in which order runs are taken: they can be cut, have as many pieces, and have
/// room.
pub fn order_is_free()
    ensures runs { (moof_bytes : List ℕ) (xs ys : List Run) → IsPermutation xs ys →
        AreRunsOf moof_bytes xs → AreRunsOf moof_bytes ys }
    ensures count { (cut : Cut) (moof_bytes : List ℕ) (xs ys : List Run) → IsPermutation xs ys →
        piece_count cut moof_bytes ys ≡ piece_count cut moof_bytes xs }
    ensures room { (cut : Cut) (h : MoofBytes) (xs ys : List Run) (seq : ℕ) → IsPermutation xs ys →
        HasRoomFor cut h xs seq → HasRoomFor cut h ys seq }
{}

/// A moof has at most as many pieces as samples.
pub fn pieces_are_few()
    ensures { (cut : Cut) (h : MoofBytes) (tracks : List Track) →
        piece_count cut h.bytes (moof_runs h tracks) ≤ moof_samples h }
{}

/// The runs of a moof that was read can be cut.
pub fn runs_of_a_moof_can_be_cut()
    ensures { (h : MoofBytes) (tracks : List Track) → IsWhole h.bytes → IsBytes h.bytes →
        h.offset + length h.bytes ≤ 2 ^ 62 → IsRead h tracks →
        AreRunsOf h.bytes (moof_runs h tracks) }
{}

/// The groups of some pieces are the first 65,535 of them, or all where there are fewer, and the groups
/// of the rest.
pub fn groups_begin_with_the_first()
    ensures none { groups {A = Piece} [] ≡ [] }
    ensures some { (p : Piece) (ps : List Piece) →
        groups (p ∷ ps) ≡ take 65535 (p ∷ ps) ∷ groups (drop 65535 (p ∷ ps)) }
{}

/// The bytes of a piece lie among those of its run.
pub fn pieces_lie_in_their_run()
    ensures from { (moof_bytes : List ℕ) (run : Run) (p : Piece) → IsRunOf moof_bytes run →
        IsPieceOf moof_bytes run p → run.place ≤ℤ p.plain.place }
    ensures to { (moof_bytes : List ℕ) (run : Run) (p : Piece) → IsRunOf moof_bytes run →
        IsPieceOf moof_bytes run p → (p.plain.place +ℤ pos p.plain.bytes) ≤ℤ end_place run }
{}
