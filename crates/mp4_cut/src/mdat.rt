//! The header of the media data, mdat (ISO/IEC 14496-12, 4.2 and 8.1.1).

ghost use Rattle.std.specs.Prelude.{◌≤◌, ◌^◌, ◌++◌, length};
ghost use Rattle.byteorder.specs.Endian.{big_bytes};
ghost use Rattle.mp4_cut.specs.Mdat.{mdat, mdat_header};
ghost use Rattle.mp4_machine.specs.Ends.{sent};
ghost use Rattle.mp4_machine.specs.Puts.{Puts, Writes};

use crate::fields::Fields;
use crate::write_fault::WriteFault;
use byteorder::{BigEndian, ByteOrder};
use mp4_box::types::MDAT;
use mp4_ends::{Failed, Sink};
use mp4_machine::Block;
use mp4_pieces::LONG_MEDIA;

/// Puts the header of an mdat before so many bytes of media, at most 2^62, into a block that is
/// borrows a sink.
///
/// # Errors
///
/// `Failed` where the sink failed.
#[tactic(auto, unfolding(crate::specs::Mdat::mdat_header))]
pub fn put_mdat_header<W: Sink>(bytes: u64, block: &mut Block, w: &mut W) -> Result<(), Failed>
    requires { bytes ≤ 2 ^ 62 }
    ensures { Puts (sent W.contents W.has_failed w.old w.new) block.old block.new (mdat_header bytes)
        result }
{
    if bytes < LONG_MEDIA {
        let mut header = [0; 8];
        BigEndian::write_u32(&mut header, 8 + bytes as u32);
        header[4..].copy_from_slice(&MDAT.0);
        return block.put_array(w, &header);
    }
    let mut header = Fields::new();
    header.put_header(1, MDAT);
    header.put_u64(16 + bytes);
    block.put(w, header.as_slice())
}

/// Writes the header of an mdat before so many bytes of media, at most 2^62: 8 bytes, or 16 where
/// its size takes 64 bits.
///
/// # Errors
///
/// `WriteFault` where the sink failed; it may have taken some of the bytes, from the first on.
pub fn write_mdat_header<W: Sink>(bytes: u64, w: &mut W) -> Result<(), WriteFault>
    requires { bytes ≤ 2 ^ 62 }
    ensures { Writes (sent W.contents W.has_failed w.old w.new) (mdat_header bytes) result }
{
    let mut block = Block::new();
    match put_mdat_header(bytes, &mut block, w) {
        Ok(()) => {}
        Err(Failed) => return Err(WriteFault),
    }
    match block.send(w) {
        Ok(()) => Ok(()),
        Err(Failed) => Err(WriteFault),
    }
}
