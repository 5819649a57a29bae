//! Laws over pieces, runs and items, from which those over streams follow: a piece, pieces one after
//! the other, the samples of a run, the items of a stream, and a stream by its items.

ghost use Rattle.std.specs.Prelude.{◌≡◌, ◌+◌, ◌<◌, ◌≤◌, ◌^◌, ◌++◌, ℕ, List, length, take, drop, false, Some};
ghost use Rattle.std.specs.List.{AllByRecursion, flat_map};
ghost use Rattle.mp4_box.specs.Headers.{IsBytes};
ghost use Rattle.mp4_init.specs.declared.table.Track.{Track};
ghost use Rattle.mp4_traf.specs.Rows.{durations, sizes};
ghost use Rattle.mp4_traf.specs.Settling.{with_end};
ghost use Rattle.mp4_traf.specs.declared.rows.Row.{Row};
ghost use Rattle.mp4_traf.specs.declared.run.Run.{Run};
ghost use Rattle.mp4_pieces.specs.declared.cut.Cut.{Cut};
ghost use Rattle.mp4_cut.specs.Moof.{WrittenFragment};
ghost use Rattle.mp4_machine.specs.Readings.{Sound};
ghost use Rattle.mp4_grammar.specs.Contexts.{context, first_context};
ghost use Rattle.mp4_grammar.specs.Joined.{AreSound, Item, bytes_of, joined};
ghost use Rattle.mp4_recut.specs.Splitting.{reading, splitting};
ghost use Rattle.mp4_recut.specs.Texts.{items_text};
ghost use Rattle.mp4_recut_laws.specs.MediaSamples.{items_samples, media_samples_from, media_samples_of_run};
ghost use Rattle.mp4_recut_laws.specs.PieceItems.{IsOnePiece, IsOwnRecut, LiesIn, PieceWithMedia, piece_item, piece_samples, pieces_items, pieces_with_media};
ghost use Rattle.mp4_recut_laws.specs.Premises.{AreFirstItems};
ghost use Rattle.mp4_recut_laws.specs.RecutItems.{AreRecutAnywhere, items_recut, without_index};
ghost use Rattle.mp4_recut_laws.specs.Streams.{IsSoundStream, Stream, recut, stream_bytes, stream_samples, stream_text};

/// A fragment of one piece is its own recut text, at each stream offset.
pub fn piece_is_its_own_recut()
    ensures { (cut : Cut) (at number : ℕ) (tracks : List Track) (f : WrittenFragment) (media : List ℕ) →
        cut.index ≡ false → number < 2 ^ 32 → IsOnePiece cut tracks f media →
        IsOwnRecut cut (context at (Some tracks) number) (piece_item f number media)
        (context (at + length (bytes_of (piece_item f number media)))
        (Some (with_end f.track (f.time + durations f.rows) tracks)) (number + 1)) }
{}

/// Pieces that follow one another and are numbered on are their own recut text, and their
/// samples stay. Where the tracks ended before doesn't matter.
pub fn pieces_are_their_own_recut()
    ensures { (cut : Cut) (number : ℕ) (tracks : List Track) (qs : List PieceWithMedia) →
        cut.index ≡ false → number + length qs ≤ 2 ^ 32 →
        AllByRecursion (λ q. IsOnePiece cut tracks q.written q.media) qs →
        AreRecutAnywhere cut number tracks (pieces_items number qs)
        (joined (pieces_items number qs)) (length qs) (flat_map piece_samples qs) }
{}

/// Rows that are cut in two have the samples of both parts.
pub fn samples_are_cut()
    ensures { (track entry time : ℕ) (xs ys : List Row) (media : List ℕ) →
        media_samples_from track entry (xs ++ ys) time media ≡
        media_samples_from track entry xs time (take (sizes xs) media) ++
        media_samples_from track entry ys (time + durations xs) (drop (sizes xs) media) }
{}

/// The pieces of a run that lies in its payload have the samples of the run.
pub fn pieces_have_the_samples()
    ensures { (cut : Cut) (moof_bytes : List ℕ) (start : ℕ) (payload : List ℕ) (run : Run) →
        LiesIn start payload moof_bytes run →
        flat_map piece_samples (pieces_with_media cut moof_bytes start payload run) ≡
        media_samples_of_run moof_bytes start payload run }
{}

/// The recut text of whole items that break no rule is again whole items that break no rule. Without
/// an index these have the recut text of the first, and the same samples.
pub fn items_are_recut()
    ensures joined { (cut : Cut) (is : List Item) → AreFirstItems cut is →
        joined (items_recut cut first_context is) ≡ items_text cut first_context is }
    ensures sound { (cut : Cut) (is : List Item) → AreFirstItems cut is →
        AreSound (splitting (without_index cut)) first_context (items_recut cut first_context is) }
    ensures again { (cut : Cut) (is : List Item) → AreFirstItems cut is →
        items_text (without_index cut) first_context (items_recut cut first_context is) ≡
        items_text (without_index cut) first_context is }
    ensures samples { (cut : Cut) (is : List Item) → AreFirstItems cut is →
        items_samples (without_index cut) first_context (items_recut cut first_context is) ≡
        items_samples cut first_context is }
{}

/// The recut text of whole items is read without a fault, if it has at most 2^62 bytes.
pub fn text_has_no_fault()
    ensures { (cut : Cut) (is : List Item) → AreFirstItems cut is →
        length (items_text cut first_context is) ≤ 2 ^ 62 →
        (reading (without_index cut) (items_text cut first_context is)).outcome ≡ Sound }
{}

/// The recut text of a stream is the bytes of the stream that it is recut to. Without an index that has
/// the recut text of the first and the same samples, and it is read without a fault, if it has at most
/// 2^62 bytes.
pub fn recut_of_a_stream()
    ensures bytes { (cut : Cut) (s : Stream) → IsSoundStream cut s →
        stream_bytes (recut cut s) ≡ stream_text cut s }
    ensures again { (cut : Cut) (s : Stream) → IsSoundStream cut s →
        stream_text (without_index cut) (recut cut s) ≡ stream_text (without_index cut) s }
    ensures samples { (cut : Cut) (s : Stream) → IsSoundStream cut s →
        stream_samples (without_index cut) (recut cut s) ≡ stream_samples cut s }
    ensures read { (cut : Cut) (s : Stream) → IsSoundStream cut s →
        length (stream_text cut s) ≤ 2 ^ 62 →
        (reading (without_index cut) (stream_text cut s)).outcome ≡ Sound }
{}

/// Bytes that are read without a fault are a stream of whole items and an ending.
pub fn every_sound_stream()
    ensures { (cut : Cut) (b : List ℕ) → IsBytes b → (reading cut b).outcome ≡ Sound →
        (s : Stream) × IsSoundStream cut s × (stream_bytes s ≡ b) }
{}
