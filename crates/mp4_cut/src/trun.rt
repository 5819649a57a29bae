//! The samples of a run, trun (ISO/IEC 14496-12, 8.8.8).

ghost use Rattle.std.specs.Prelude.{◌≡◌, take};
ghost use Rattle.std.specs.List.{flat_map};
ghost use Rattle.mp4_machine.specs.Ends.{sent};
ghost use Rattle.mp4_machine.specs.Puts.{Puts};
ghost use Rattle.mp4_cut.specs.Trun.{offset_bits, sample_bytes};

use byteorder::{BigEndian, ByteOrder};
use mp4_ends::{Failed, Sink};
use mp4_frag::{Row, Rows};
use mp4_machine::Block;

/// The 32 bits of a composition time offset.
fn offset_bits(offset: i64) -> u32
    ensures { result ≡ offset_bits offset }
{
    (offset.cast_unsigned() % (1 << 32)) as u32
}

/// The fields of a sample.
#[inline(always)]
pub(crate) fn sample_bytes(row: &Row) -> [u8; 16]
    ensures { result ≡ sample_bytes row.now }
{
    let mut bytes = [0; 16];
    BigEndian::write_u32(&mut bytes[..4], row.duration);
    BigEndian::write_u32(&mut bytes[4..8], row.size);
    BigEndian::write_u32(&mut bytes[8..12], row.flags);
    BigEndian::write_u32(&mut bytes[12..], offset_bits(row.offset));
    bytes
}

/// Puts the fields of the first rows, so many or all that are left.
pub(crate) fn put_samples<W: Sink>(
    block: &mut Block,
    w: &mut W,
    rows: &mut Rows<'_>,
    count: u32,
) -> Result<(), Failed>
    ensures { Puts (sent W.contents W.has_failed w.old w.new) block.old block.new
        (flat_map sample_bytes (take count rows.old)) result }
{
    let mut left = count;
    while left > 0 {
        let Some(row) = rows.next() else {
            return Ok(());
        };
        match block.put_array(w, &sample_bytes(&row)) {
            Ok(()) => {}
            Err(Failed) => return Err(Failed),
        }
        left -= 1;
    }
    Ok(())
}
