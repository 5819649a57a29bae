//! What the definitions of what is written imply.

ghost use Rattle.std.specs.Prelude.{◌≡◌, ◌+◌, ◌*◌, ◌^◌, ◌≤◌, ◌<◌, ◌++◌, ◌∷◌, [], ℕ, List, length, map, drop, take};
ghost use Rattle.std.specs.List.{AllByRecursion};
ghost use Rattle.mp4_box.specs.Fields.{number_in};
ghost use Rattle.mp4_box.specs.Headers.{IsBox, IsBytes, IsWhole};
ghost use Rattle.mp4_box.specs.Paths.{of_kind};
ghost use Rattle.mp4_box.specs.Trees.{children};
ghost use Rattle.mp4_init.specs.declared.table.Track.{Track};
ghost use Rattle.mp4_traf.specs.declared.run.Run.{Run};
ghost use Rattle.mp4_frag.specs.After.{IsOneOf};
ghost use Rattle.mp4_traf.specs.Kinds.{mfhd};
ghost use Rattle.mp4_traf.specs.declared.rows.Row.{Row};
ghost use Rattle.mp4_traf.specs.Cursors.{first_cursor};
ghost use Rattle.mp4_frag.specs.Moofs.{IsRead, moof_of, moof_runs};
ghost use Rattle.mp4_traf.specs.Runs.{MoofBytes};
ghost use Rattle.mp4_pieces.specs.declared.cut.Cut.{Cut};
ghost use Rattle.mp4_pieces.specs.declared.piece.Piece.{Piece};
ghost use Rattle.mp4_pieces.specs.Fits.{FitsIndex};
ghost use Rattle.mp4_pieces.specs.Groups.{groups};
ghost use Rattle.mp4_pieces.specs.Pieces.{IsPieceOf, piece_at, pieces_of};
ghost use Rattle.mp4_pieces.specs.Rooms.{moof};
ghost use Rattle.mp4_pieces.specs.Sizes.{mdat_header_size, moof_size};
ghost use Rattle.mp4_cut.specs.Indexes.{CanBeIndexed, IsIndexReadAs, index_in};
ghost use Rattle.mp4_cut.specs.Mdat.{mdat, mdat_header};
ghost use Rattle.mp4_cut.specs.Moof.{WrittenFragment, written_fragment, moof_box, written_moof};
ghost use Rattle.mp4_cut.specs.Reads.{CanBeRead, Describes, FitsFields, FitsTrack, IsHeaded, IsReadAs, header_of, held_moof};
ghost use Rattle.mp4_cut.specs.Mfhd.{mfhd_payload};
ghost use Rattle.mp4_cut.specs.Sidx.{sidx, sidx_payload, written_index};
ghost use Rattle.mp4_cut.specs.Tfdt.{tfdt_payload};
ghost use Rattle.mp4_cut.specs.Tfhd.{tfhd_payload};
ghost use Rattle.mp4_cut.specs.Trun.{trun_payload};
ghost use Rattle.mp4_cut.specs.IndexGroups.{IsGroupOf};

/// A moof of n samples has 92 + 16 n bytes, the header of an mdat 8 or 16, and an index of r pieces
/// 40 + 12 r.
pub fn sizes()
    ensures moof { (piece : Piece) (run : Run) (moof_bytes : List ℕ) (sequence_number : ℕ) →
        IsPieceOf moof_bytes run piece →
        length (written_moof piece run moof_bytes sequence_number) ≡ moof_size piece.plain.count }
    ensures mdat { (bytes : ℕ) → length (mdat_header bytes) ≡ mdat_header_size bytes }
    ensures index { (run : Run) (timescale : ℕ) (pieces : List Piece) →
        length (written_index run timescale pieces) ≡ 40 + 12 * length pieces }
{}

/// What the full boxes of a fragment begin with: each version, and the flags. A tfhd has its sample_description_index,
/// and its base is the moof; a trun has a data_offset, and all four fields of each sample (ISO/IEC 14496-12, 8.8.5,
/// 8.8.7, 8.8.8 and 8.8.12).
pub fn versions_and_flags()
    ensures mfhd { (sequence_number : ℕ) →
        take 4 (mfhd_payload sequence_number) ≡ 0 ∷ 0 ∷ 0 ∷ 0 ∷ [] }
    ensures tfhd { (track index : ℕ) → take 4 (tfhd_payload track index) ≡ 0 ∷ 2 ∷ 0 ∷ 2 ∷ [] }
    ensures tfdt { (time : ℕ) → take 4 (tfdt_payload time) ≡ 1 ∷ 0 ∷ 0 ∷ 0 ∷ [] }
    ensures trun { (version data_offset : ℕ) (rows : List Row) →
        take 4 (trun_payload version data_offset rows) ≡ version ∷ 0 ∷ 15 ∷ 1 ∷ [] }
    ensures sidx { (track timescale : ℕ) (pieces : List Piece) →
        take 4 (sidx_payload track timescale pieces) ≡ 1 ∷ 0 ∷ 0 ∷ 0 ∷ [] }
{}

/// Each box begins with the header that says its type and its size.
pub fn headers_are_read_again()
    ensures moof { (f : WrittenFragment) (sequence_number : ℕ) → FitsFields f →
        IsHeaded moof (moof_size (length f.rows)) 8 (moof_box f sequence_number) }
    ensures mdat { (bytes : ℕ) → bytes ≤ 2 ^ 62 → IsHeaded mdat (mdat_header_size bytes + bytes)
        (mdat_header_size bytes) (mdat_header bytes) }
    ensures index { (run : Run) (timescale : ℕ) (pieces : List Piece) → length pieces ≤ 65535 →
        IsHeaded sidx (40 + 12 * length pieces) 8 (written_index run timescale pieces) }
{}

/// The moof of a fragment is one whole box, in which the fragment is read again: with the same
/// samples, times, flags, version and sample entry. Its run, taken as one piece, is the same
/// fragment again.
pub fn moofs_are_read_again()
    ensures whole { (f : WrittenFragment) (sequence_number : ℕ) → FitsFields f →
        IsWhole (moof_box f sequence_number) }
    ensures bytes { (f : WrittenFragment) (sequence_number : ℕ) → FitsFields f →
        IsBytes (moof_box f sequence_number) }
    ensures read { (tracks : List Track) (f : WrittenFragment) (sequence_number offset : ℕ) →
        CanBeRead tracks f → IsReadAs tracks f (held_moof f sequence_number offset) }
    ensures again { (f : WrittenFragment) (h : MoofBytes) (run : Run) → Describes f h run →
        written_fragment h.bytes run (piece_at (first_cursor run) f.rows) ≡ f }
{}

/// The same holds for each piece of each run of a moof without a fault, after the same tracks.
pub fn pieces_can_be_read_again()
    ensures { (h : MoofBytes) (tracks : List Track) (run : Run) (piece : Piece) → IsWhole h.bytes →
        IsBytes h.bytes → h.offset + length h.bytes ≤ 2 ^ 62 → AllByRecursion FitsTrack tracks →
        IsRead h tracks → IsOneOf run (moof_runs h tracks) → IsPieceOf h.bytes run piece →
        CanBeRead tracks (written_fragment h.bytes run piece) }
{}

/// Each group of the pieces of a run can be written, where an index has room for them.
pub fn groups_can_be_written()
    ensures { (cut : Cut) (moof_bytes : List ℕ) (run : Run) → FitsIndex (pieces_of cut moof_bytes run) →
        AllByRecursion (IsGroupOf cut moof_bytes run) (groups (pieces_of cut moof_bytes run)) }
{}

/// An mdat that is written is one whole box, with its media as its payload.
pub fn mdats_are_whole_boxes()
    ensures { (media : List ℕ) → length media ≤ 2 ^ 62 → IsBox (header_of mdat
        (mdat_header_size (length media) + length media) (mdat_header_size (length media))) media
        (mdat_header (length media) ++ media) }
{}

/// An index that is written says by the standard's fields (ISO/IEC 14496-12, 8.16.3) what it was
/// written for: of each piece how many bytes its moof and its mdat have, and the sum of the durations
/// of its samples; the least composition time of the first piece; the track, and the timescale.
pub fn indexes_are_read_again()
    ensures { (moof_bytes : List ℕ) (run : Run) (timescale sequence_number : ℕ) (p : Piece)
        (ps : List Piece) → run.track < 2 ^ 32 → timescale < 2 ^ 32 →
        CanBeIndexed moof_bytes run p ps → IsIndexReadAs moof_bytes run timescale sequence_number p ps
        (index_in (drop 8 (written_index run timescale (p ∷ ps)))) }
{}

/// The mfhd of a moof that is written has its sequence_number at the standard's offset (ISO/IEC
/// 14496-12, 8.8.5), and there is no other mfhd.
pub fn sequence_numbers_are_read_again()
    ensures { (f : WrittenFragment) (sequence_number offset : ℕ) → FitsFields f →
        sequence_number < 2 ^ 32 → map (λ b. number_in b.payload 4) (of_kind mfhd
        (children (moof_of (held_moof f sequence_number offset)))) ≡ sequence_number ∷ [] }
{}
