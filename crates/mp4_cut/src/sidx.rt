//! The index of segments, sidx (ISO/IEC 14496-12, 8.16.3).

ghost use Rattle.std.specs.Prelude.{◌≡◌, ◌+◌, ◌≤◌, ◌<◌, ◌^◌, ◌++◌, length, take};
ghost use Rattle.std.specs.List.{AllByRecursion, flat_map};
ghost use Rattle.mp4_pieces.specs.Groups.{group_length};
ghost use Rattle.mp4_traf.specs.Ranges.{IsRunOf};
ghost use Rattle.mp4_pieces.specs.Fits.{FitsReference, FitsTime};
ghost use Rattle.mp4_pieces.specs.Sizes.{fragment_size};
ghost use Rattle.mp4_cut.specs.Implementation.Fronts.{index_front};
ghost use Rattle.mp4_machine.specs.Ends.{sent};
ghost use Rattle.mp4_machine.specs.Puts.{Puts, Writes};
ghost use Rattle.mp4_cut.specs.Sidx.{natural, reference_bytes, written_index};
ghost use Rattle.mp4_cut.specs.IndexGroups.{IsGroup, group_from};

use crate::fields::Fields;
use crate::write_fault::WriteFault;
use byteorder::{BigEndian, ByteOrder};
use mp4_box::types::SIDX;
use mp4_ends::{Failed, Sink};
use mp4_frag::Run;
use mp4_machine::Block;
use mp4_pieces::{Cut, Piece, Pieces, fragment_size};

/// A number that isn't below 0.
fn natural(z: i128) -> u64
    requires { FitsTime z }
    ensures { result ≡ natural z }
{
    z as u64
}

/// The index of so many pieces, of which this is the first, as far as its references.
#[tactic(auto, unfolding(crate::specs::Implementation::Fronts::index_front))]
fn index_front(run: &Run, timescale: u32, first: &Piece, count: u16) -> Fields
    requires { FitsTime first.now.least }
    ensures { result ≡ index_front run.now timescale first.now count }
{
    let mut front = Fields::new();
    front.put_header(40 + 12 * u32::from(count), SIDX);
    front.put_version_and_flags(1, 0);
    front.put_u32(run.track);
    front.put_u32(timescale);
    front.put_u64(natural(first.least));
    front.put_u64(0);
    front.put_u16(0);
    front.put_u16(count);
    front
}

/// A reference to a piece.
fn reference_bytes(piece: &Piece) -> [u8; 12]
    requires { FitsReference piece.now }
    ensures { result ≡ reference_bytes piece.now }
{
    let mut bytes = [0; 12];
    BigEndian::write_u32(&mut bytes[..4], fragment_size(piece) as u32);
    BigEndian::write_u32(&mut bytes[4..8], piece.plain.duration as u32);
    bytes
}

/// Puts references to the first pieces, so many or all that are left.
fn put_references<W: Sink>(
    block: &mut Block,
    w: &mut W,
    pieces: &mut Pieces<'_>,
    count: u16,
) -> Result<(), Failed>
    requires { AllByRecursion FitsReference (take count pieces.old) }
    ensures { Puts (sent W.contents W.has_failed w.old w.new) block.old block.new
        (flat_map reference_bytes (take count pieces.old)) result }
{
    let mut left = count;
    while left > 0 {
        let Some(piece) = pieces.next() else {
            return Ok(());
        };
        match block.put(w, &reference_bytes(&piece)) {
            Ok(()) => {}
            Err(Failed) => return Err(Failed),
        }
        left -= 1;
    }
    Ok(())
}

/// How many pieces the group has that begins with these: all of them, or the first 65,535.
pub fn group_len(pieces: Pieces<'_>) -> u16
    ensures { result ≡ length (take group_length pieces.entry) }
{
    let mut count = 0;
    for _ in pieces {
        if count == u16::MAX {
            return count;
        }
        count += 1;
    }
    count
}

/// Puts the index of a group of `count` pieces of a run, as it is cut, into a block that borrows a
/// sink. `first` is the first of them, `moof_bytes` are the bytes of the run's moof, and `timescale` is
/// that of its track.
///
/// # Errors
///
/// `Failed` where the sink failed.
pub fn put_index<W: Sink>(
    run: &Run,
    moof_bytes: &[u8],
    first: &Piece,
    count: u16,
    timescale: u32,
    cut: &Cut,
    block: &mut Block,
    w: &mut W,
) -> Result<(), Failed>
    requires run { IsRunOf moof_bytes.now run.now }
    requires group { IsGroup cut.now moof_bytes.now run.now first.now count }
    ensures { Puts (sent W.contents W.has_failed w.old w.new) block.old block.new (written_index run.now
        timescale (group_from cut.now moof_bytes.now run.now first.now count)) result }
{
    let front = index_front(run, timescale, first, count);
    match block.put(w, front.as_slice()) {
        Ok(()) => {}
        Err(Failed) => return Err(Failed),
    }
    let mut pieces = Pieces::at(run, moof_bytes, cut, first.plain.cursor());
    put_references(block, w, &mut pieces, count)
}

/// Writes the index of a group of `count` pieces of a run, as it is cut: 40 bytes and 12 for each
/// piece. `first` is the first of them, `moof_bytes` are the bytes of the run's moof, and `timescale` is
/// that of its track.
///
/// # Errors
///
/// `WriteFault` where the sink failed; it may have taken some of the bytes, from the first on.
pub fn write_index<W: Sink>(
    run: &Run,
    moof_bytes: &[u8],
    first: &Piece,
    count: u16,
    timescale: u32,
    cut: &Cut,
    w: &mut W,
) -> Result<(), WriteFault>
    requires run { IsRunOf moof_bytes.now run.now }
    requires group { IsGroup cut.now moof_bytes.now run.now first.now count }
    ensures { Writes (sent W.contents W.has_failed w.old w.new) (written_index run.now timescale
        (group_from cut.now moof_bytes.now run.now first.now count)) result }
{
    let mut block = Block::new();
    match put_index(run, moof_bytes, first, count, timescale, cut, &mut block, w) {
        Ok(()) => {}
        Err(Failed) => return Err(WriteFault),
    }
    match block.send(w) {
        Ok(()) => Ok(()),
        Err(Failed) => Err(WriteFault),
    }
}
