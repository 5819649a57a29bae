//! Laws of the recut text: what `split` writes of a stream that is read without a fault.
//!
//! - [`recut_text_of_a_stream`]: the recut text, item by item, without a reader or a machine;
//! - [`recut_text_is_a_stream`]: it is read without a fault, it is its own recut text, and it has the
//!   samples of the stream;
//! - [`indexes_are_true`]: each index in it is true of the fragments after it;
//! - [`recut_text_with_an_index`]: when it is read without a fault with the same cut and an index;
//! - [`recut_text_has_a_line_a_piece`]: how it is listed by its fragments;
//! - [`recut_text_has_a_record_a_piece`]: how it is listed by records;
//! - [`items`]: the laws over pieces, runs and items on which these rest.
//!
//! The definitions: `specs/RecutText.antt` (the recut text, and reports on samples, by the
//! bytes of a stream alone), `specs/Streams.antt` (a stream without a fault, by its items, and the
//! stream that it is recut to), `specs/MediaSamples.antt` (a sample with its bytes),
//! `specs/MoofEnds.antt` (where the moofs of a stream end, and their numbers),
//! `specs/Listings.antt` (what a command writes of items), `specs/EachFragment.antt` (what holds of each fragment),
//! `specs/PieceLines.antt` and `specs/PieceRecords.antt` (the line and the record of a piece),
//! `specs/IndexTruth.antt` (when an index is true of the items after it) and
//! `specs/PieceTimes.antt` (when an index has room for the time of each piece). The laws of
//! [`items`] speak of `specs/PieceItems.antt` and `specs/RecutItems.antt` (pieces, and the recut
//! text, as items), `specs/Premises.antt` (premises on items) and `specs/Indexes.antt` (what an
//! index says, and of which pieces) too.
//!
//! No function here has a body: each clause is a law.
#![tactic(auto)]

ghost use Rattle.std.specs.Prelude.{◌≡◌, ◌↔◌, ◌+◌, ◌*◌, ◌<◌, ◌≤◌, ◌^◌, ℕ, List, length, false, true, Some, None};
ghost use Rattle.std.specs.List.{flat_map};
ghost use Rattle.mp4_box.specs.Headers.{IsBytes};
ghost use Rattle.mp4_init.specs.declared.table.Track.{Track};
ghost use Rattle.mp4_frag.specs.Moofs.{moof_runs};
ghost use Rattle.mp4_pieces.specs.Rooms.{room_fault};
ghost use Rattle.mp4_pieces.specs.declared.cut.Cut.{Cut};
ghost use Rattle.mp4_cut.specs.Moof.{WrittenFragment};
ghost use Rattle.mp4_cut.specs.Reads.{held_moof};
ghost use Rattle.mp4_machine.specs.Readings.{Sound, whole_in};
ghost use Rattle.mp4_grammar.specs.Commands as commands;
ghost use Rattle.mp4_grammar.specs.Contexts.{context, first_context};
ghost use Rattle.mp4_grammar.specs.FragmentLines.{traf_line};
ghost use Rattle.mp4_grammar.specs.TrafRecords.{record_bytes, record_len};
ghost use Rattle.mp4_grammar.specs.declared.command.Command.TheVariants.{Fragments, Records};
ghost use Rattle.mp4_recut.specs.Splitting.{reading};
ghost use Rattle.mp4_recut_laws.specs.EachFragment.{EachFragment};
ghost use Rattle.mp4_recut_laws.specs.IndexTruth.{IndexesAreTrue};
ghost use Rattle.mp4_recut_laws.specs.Indexes.{EndingIsIndexed, ItemsAreIndexed};
ghost use Rattle.mp4_recut_laws.specs.Listings.{item_listing, items_listing};
ghost use Rattle.mp4_recut_laws.specs.MediaSamples.{MediaSample};
ghost use Rattle.mp4_recut_laws.specs.MoofEnds.{moof_ends};
ghost use Rattle.mp4_recut_laws.specs.PieceItems.{IsOnePiece, piece_item};
ghost use Rattle.mp4_recut_laws.specs.PieceLines.{IsOneLine};
ghost use Rattle.mp4_recut_laws.specs.PieceRecords.{IsOneRecord, LiesThere, piece_record, piece_traf};
ghost use Rattle.mp4_recut_laws.specs.PieceTimes.{EndingTimesFit, FitsOwnIndex, ItemsTimesFit};
ghost use Rattle.mp4_recut_laws.specs.RecutItems.{without_index};
ghost use Rattle.mp4_recut_laws.specs.RecutText.{recut_text, reported_by};
ghost use Rattle.mp4_recut_laws.specs.Streams.{IsSoundStream, IsWellFormed, Stream, ending_context, recut, stream_bytes, stream_listing, stream_samples, stream_text};

pub mod items;

/// What `split` writes of a stream that is read without a fault is exactly its recut text: the texts
/// of its items, one after the other, and that of its ending. A report on its samples is a report on
/// those of its items and of its ending, in order. Each such stream has these items and this ending. The
/// fragments that are counted are the moofs of the recut text, numbered from 1 on: just where each of them
/// ends it is whole, and all are in the whole text.
pub fn recut_text_of_a_stream()
    ensures text { (cut : Cut) (s : Stream) → IsSoundStream cut s →
        (reading cut (stream_bytes s)).effects.text ≡ stream_text cut s }
    ensures sound { (cut : Cut) (s : Stream) → IsSoundStream cut s →
        (reading cut (stream_bytes s)).outcome ≡ Sound }
    ensures each { (cut : Cut) (b : List ℕ) → IsBytes b → (reading cut b).outcome ≡ Sound →
        (s : Stream) × IsSoundStream cut s × (stream_bytes s ≡ b) ×
        (recut_text cut b ≡ stream_text cut s) }
    ensures samples { (cut : Cut) (s : Stream) (report : MediaSample → List ℕ) →
        IsSoundStream cut s →
        reported_by report (stream_bytes s) ≡ flat_map report (stream_samples cut s) }
    ensures moofs { (cut : Cut) (s : Stream) → IsSoundStream cut s →
        (reading cut (stream_bytes s)).effects.fragment_ends ≡ moof_ends 0 1 (recut cut s).items }
    ensures counted { (cut : Cut) (s : Stream) → IsSoundStream cut s →
        (reading cut (stream_bytes s)).effects.tally.fragments ≡
        length (moof_ends 0 1 (recut cut s).items) }
    ensures whole { (cut : Cut) (s : Stream) (n : ℕ) → IsSoundStream cut s →
        whole_in (length (stream_text cut s) + n) 0 (reading cut (stream_bytes s)).effects.fragment_ends ≡
        length (moof_ends 0 1 (recut cut s).items) }
{}

/// The recut text of bytes that are read without a fault is the bytes of a stream that breaks no rule but that it may
/// be longer than 2^62 bytes, and the list of its samples is that of the stream. If it has at most 2^62 bytes, it is
/// read without a fault, and without an index it is its own recut text; however it is taken apart into items, its
/// samples are those of the stream, and any report on each sample of the stream, in order, is a report on each sample
/// of the text.
pub fn recut_text_is_a_stream()
    ensures bytes { (cut : Cut) (b : List ℕ) → IsBytes b → (reading cut b).outcome ≡ Sound →
        IsBytes (recut_text cut b) }
    ensures read { (cut : Cut) (b : List ℕ) → IsBytes b → (reading cut b).outcome ≡ Sound →
        length (recut_text cut b) ≤ 2 ^ 62 →
        (reading (without_index cut) (recut_text cut b)).outcome ≡ Sound }
    ensures again { (cut : Cut) (b : List ℕ) → IsBytes b → (reading cut b).outcome ≡ Sound →
        length (recut_text cut b) ≤ 2 ^ 62 →
        recut_text (without_index cut) (recut_text cut b) ≡ recut_text (without_index cut) b }
    ensures own { (cut : Cut) (b : List ℕ) → cut.index ≡ false → IsBytes b →
        (reading cut b).outcome ≡ Sound → length (recut_text cut b) ≤ 2 ^ 62 →
        recut_text cut (recut_text cut b) ≡ recut_text cut b }
    ensures samples { (cut : Cut) (b : List ℕ) → IsBytes b → (reading cut b).outcome ≡ Sound →
        (s : Stream) × IsSoundStream cut s × (stream_bytes s ≡ b) ×
        IsWellFormed (without_index cut) (recut cut s) ×
        (stream_bytes (recut cut s) ≡ recut_text cut b) ×
        (stream_samples (without_index cut) (recut cut s) ≡ stream_samples cut s) }
    ensures one_list { (cut : Cut) (b : List ℕ) (s t : Stream) → IsBytes b →
        (reading cut b).outcome ≡ Sound → length (recut_text cut b) ≤ 2 ^ 62 →
        IsSoundStream cut s → stream_bytes s ≡ b →
        IsSoundStream (without_index cut) t → stream_bytes t ≡ recut_text cut b →
        stream_samples (without_index cut) t ≡ stream_samples cut s }
    ensures reported { (cut : Cut) (b : List ℕ) (report : MediaSample → List ℕ) → IsBytes b →
        (reading cut b).outcome ≡ Sound → length (recut_text cut b) ≤ 2 ^ 62 →
        reported_by report (recut_text cut b) ≡ reported_by report b }
{}

/// Where an index is asked for, each sidx of the recut text is true: what is read in it holds
/// of the items directly after it, as many as it has references. The recut text of bytes that are
/// read without a fault has such items, and each index was written for its group of pieces.
pub fn indexes_are_true()
    ensures bytes { (cut : Cut) (b : List ℕ) → IsBytes b → (reading cut b).outcome ≡ Sound →
        cut.index ≡ true → length (recut_text cut b) ≤ 2 ^ 62 →
        (s : Stream) × IsSoundStream (without_index cut) s × (stream_bytes s ≡ recut_text cut b) ×
        IndexesAreTrue cut first_context s.items }
    ensures read { (cut : Cut) (s : Stream) → IsSoundStream cut s → cut.index ≡ true →
        IndexesAreTrue cut first_context (recut cut s).items }
    ensures written { (cut : Cut) (s : Stream) → IsSoundStream cut s → cut.index ≡ true →
        ItemsAreIndexed cut first_context s.items ×
        EndingIsIndexed cut (ending_context cut s) s.ending }
{}

/// Read with an index, each fragment of a recut text gets an index of its own. So it is read without a
/// fault where an index has room for the least composition time of each piece. Where several pieces
/// shared an index, only the first of them had to have room.
pub fn recut_text_with_an_index()
    ensures one { (cut : Cut) (at number : ℕ) (tracks : List Track) (f : WrittenFragment)
        (media : List ℕ) → cut.index ≡ true → number < 2 ^ 32 → IsOnePiece cut tracks f media →
        (room_fault cut (held_moof f number at) (moof_runs (held_moof f number at) tracks) number
        ≡ None) ↔ FitsOwnIndex f }
    ensures read { (cut : Cut) (s : Stream) → IsSoundStream cut s → cut.index ≡ true →
        ItemsTimesFit cut first_context s.items →
        EndingTimesFit cut (ending_context cut s) s.ending →
        length (stream_text cut s) ≤ 2 ^ 62 →
        (reading cut (stream_text cut s)).outcome ≡ Sound }
    ensures text { (cut : Cut) (s : Stream) → IsSoundStream cut s → cut.index ≡ true →
        ItemsTimesFit cut first_context s.items →
        EndingTimesFit cut (ending_context cut s) s.ending →
        length (stream_text cut s) ≤ 2 ^ 62 →
        recut_text cut (stream_text cut s) ≡ stream_text cut (recut cut s) }
{}

/// Where the recut text takes the place of the stream, `fragments` lists one line a piece. The line has the number of
/// the piece, where it begins in the recut text, and how many bytes and samples it has; each of its fields is what the
/// piece was written from. Of every stream without a fault the lines are those of its items, and those of its ending.
pub fn recut_text_has_a_line_a_piece()
    ensures stream { (cut : Cut) (s : Stream) → IsSoundStream cut s →
        (commands.reading Fragments (stream_bytes s)).effects.text ≡ stream_listing Fragments cut s }
    ensures recut { (cut : Cut) (s : Stream) → IsSoundStream cut s → length (stream_text cut s) ≤ 2 ^ 62 →
        (commands.reading Fragments (stream_text cut s)).effects.text ≡
        items_listing Fragments (without_index cut) first_context (recut cut s).items }
    ensures one { (cut : Cut) (s : Stream) → IsSoundStream cut s →
        EachFragment IsOneLine (without_index cut) first_context (recut cut s).items }
    ensures piece { (cut : Cut) (at number : ℕ) (tracks : List Track) (f : WrittenFragment)
        (media : List ℕ) → number < 2 ^ 32 → IsOnePiece cut tracks f media →
        item_listing Fragments (context at (Some tracks) number) (piece_item f number media) ≡
        traf_line (piece_traf tracks at number f media) }
{}

/// Where the recut text takes the place of the stream, its listing by records is one record of 88 bytes a piece, in the
/// order of the pieces: as many as the cut counts fragments. The bytes of a piece are in the recut text at the offset
/// of its record. Of every stream without a fault the records are those of its items, and those of its ending.
///
/// The record of a piece has the offset of its moof in the recut text, and how many bytes moof and mdat have, and their
/// media; the number of the piece (ISO/IEC 14496-12, 8.8.5), and its track_ID (8.8.7). In ticks of its track it has the
/// decode time of the first sample (8.8.12), all durations added up, and the least composition time less that decode
/// time. It says how many samples there are, whether the first is a sync sample (8.8.3), and how many are. Of the track
/// it has the timescale, the handler_type, the entry_count, and the tick at which the track ended before.
pub fn recut_text_has_a_record_a_piece()
    ensures stream { (cut : Cut) (s : Stream) → IsSoundStream cut s →
        (commands.reading Records (stream_bytes s)).effects.text ≡ stream_listing Records cut s }
    ensures recut { (cut : Cut) (s : Stream) → IsSoundStream cut s → length (stream_text cut s) ≤ 2 ^ 62 →
        (commands.reading Records (stream_text cut s)).effects.text ≡
        items_listing Records (without_index cut) first_context (recut cut s).items }
    ensures one { (cut : Cut) (s : Stream) → IsSoundStream cut s →
        EachFragment (IsOneRecord (without_index cut)) (without_index cut) first_context
        (recut cut s).items }
    ensures place { (cut : Cut) (s : Stream) → IsSoundStream cut s →
        EachFragment (LiesThere (stream_text cut s)) (without_index cut) first_context
        (recut cut s).items }
    ensures count { (cut : Cut) (s : Stream) → IsSoundStream cut s → length (stream_text cut s) ≤ 2 ^ 62 →
        length (commands.reading Records (stream_text cut s)).effects.text ≡
        record_len * (reading cut (stream_bytes s)).effects.tally.fragments }
    ensures piece { (cut : Cut) (at number : ℕ) (tracks : List Track) (f : WrittenFragment)
        (media : List ℕ) → number < 2 ^ 32 → IsOnePiece cut tracks f media →
        item_listing Records (context at (Some tracks) number) (piece_item f number media) ≡
        record_bytes (piece_record tracks at number f media) }
{}
