//! A movie fragment, moof (ISO/IEC 14496-12, 8.8.4): mfhd, and one traf with tfhd, tfdt and trun.

ghost use Rattle.std.specs.Prelude.{◌≡◌, ◌≤◌, length};
ghost use Rattle.mp4_pieces.specs.Pieces.{IsPieceOf};
ghost use Rattle.mp4_pieces.specs.PlainPieces.{piece_of};
ghost use Rattle.mp4_traf.specs.Ranges.{IsRunOf};
ghost use Rattle.mp4_cut.specs.Implementation.Fronts.{moof_front};
ghost use Rattle.mp4_cut.specs.Moof.{written_moof};
ghost use Rattle.mp4_machine.specs.Ends.{sent};
ghost use Rattle.mp4_machine.specs.Puts.{Puts, Writes};
ghost use Rattle.mp4_pieces.specs.Allowed.{most_in_piece};

use crate::fields::Fields;
use crate::trun::{put_samples, sample_bytes};
use crate::write_fault::WriteFault;
use mp4_box::types::{MFHD, MOOF, TFDT, TFHD, TRAF, TRUN};
use mp4_ends::{Failed, Sink};
use mp4_frag::Run;
use mp4_machine::Block;
use mp4_pieces::{Piece, PlainPiece, mdat_header_size, moof_size};

/// default-base-is-moof, and sample_description_index is present (ISO/IEC 14496-12, 8.8.7).
const TFHD_FLAGS: u32 = 0x02_0002;

/// data_offset is present, and duration, size, flags and composition time offset of each sample (ISO/IEC 14496-12,
/// 8.8.8).
const TRUN_FLAGS: u32 = 0x00_0f01;

/// The moof of a piece, as far as its samples: mfhd (ISO/IEC 14496-12, 8.8.5), and a traf with tfhd (8.8.7), tfdt
/// (8.8.12) and the front of trun (8.8.8).
#[tactic(auto, unfolding(crate::specs::Implementation::Fronts::moof_front))]
fn moof_front(piece: &PlainPiece, run: &Run, sequence_number: u32) -> Fields
    requires { piece.now.count ≤ most_in_piece }
    ensures bytes { result ≡ moof_front run.now piece.now sequence_number }
    ensures len { length result ≡ 92 }
{
    let size = moof_size(piece.count) as u32;
    let data_offset = size + mdat_header_size(piece.bytes) as u32;
    let mut front = Fields::new();

    front.put_header(size, MOOF);

    front.put_header(16, MFHD);
    front.put_version_and_flags(0, 0);
    front.put_u32(sequence_number);

    front.put_header(68 + 16 * piece.count, TRAF);

    front.put_header(20, TFHD);
    front.put_version_and_flags(0, TFHD_FLAGS);
    front.put_u32(run.track);
    front.put_u32(run.entry);

    front.put_header(20, TFDT);
    front.put_version_and_flags(1, 0);
    front.put_u64(piece.time);

    front.put_header(20 + 16 * piece.count, TRUN);
    front.put_version_and_flags(run.version, TRUN_FLAGS);
    front.put_u32(piece.count);
    front.put_u32(data_offset);

    front
}

/// Puts the moof of a piece of a run into a block that borrows a sink. `moof_bytes` are the bytes of the
/// run's moof.
///
/// # Errors
///
/// `Failed` where the sink failed.
pub fn put_moof<W: Sink>(
    piece: &Piece,
    run: &Run,
    moof_bytes: &[u8],
    sequence_number: u32,
    block: &mut Block,
    w: &mut W,
) -> Result<(), Failed>
    requires run { IsRunOf moof_bytes.now run.now }
    requires piece { IsPieceOf moof_bytes.now run.now piece.now }
    ensures { Puts (sent W.contents W.has_failed w.old w.new) block.old block.new
        (written_moof piece.now run.now moof_bytes.now sequence_number) result }
{
    put_plain_moof(&piece.plain, run, moof_bytes, sequence_number, block, w)
}

/// As [`put_moof`], of a piece without its least composition time, which no moof has.
///
/// # Errors
///
/// `Failed` where the sink failed.
pub fn put_plain_moof<W: Sink>(
    piece: &PlainPiece,
    run: &Run,
    moof_bytes: &[u8],
    sequence_number: u32,
    block: &mut Block,
    w: &mut W,
) -> Result<(), Failed>
    requires run { IsRunOf moof_bytes.now run.now }
    requires piece { IsPieceOf moof_bytes.now run.now (piece_of moof_bytes.now run.now piece.now) }
    ensures { Puts (sent W.contents W.has_failed w.old w.new) block.old block.new
        (written_moof (piece_of moof_bytes.now run.now piece.now) run.now moof_bytes.now sequence_number)
        result }
{
    let front = moof_front(piece, run, sequence_number).whole();
    match block.put_array(w, &front) {
        Ok(()) => {}
        Err(Failed) => return Err(Failed),
    }
    if piece.count == 1 {
        return block.put_array(w, &sample_bytes(&run.row(moof_bytes, piece.first)));
    }
    // The groups in the moof are those that are to be written, if they have all fields.
    if let Some(groups) = run.whole_groups(moof_bytes, piece.first, piece.count) {
        return block.put_groups(w, groups);
    }
    let mut rows = run.rows_from(moof_bytes, piece.cursor());
    put_samples(block, w, &mut rows, piece.count)
}

/// Writes the moof of a piece of a run, 92 bytes and 16 for each sample. `moof_bytes` are the bytes of
/// the run's moof.
///
/// # Errors
///
/// `WriteFault` where the sink failed; it may have taken some of the bytes, from the first on.
pub fn write_moof<W: Sink>(
    piece: &Piece,
    run: &Run,
    moof_bytes: &[u8],
    sequence_number: u32,
    w: &mut W,
) -> Result<(), WriteFault>
    requires run { IsRunOf moof_bytes.now run.now }
    requires piece { IsPieceOf moof_bytes.now run.now piece.now }
    ensures { Writes (sent W.contents W.has_failed w.old w.new)
        (written_moof piece.now run.now moof_bytes.now sequence_number) result }
{
    let mut block = Block::new();
    match put_moof(piece, run, moof_bytes, sequence_number, &mut block, w) {
        Ok(()) => {}
        Err(Failed) => return Err(WriteFault),
    }
    match block.send(w) {
        Ok(()) => Ok(()),
        Err(Failed) => Err(WriteFault),
    }
}
