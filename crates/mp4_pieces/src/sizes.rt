//! How many bytes a piece has when it is written: its moof, and its mdat (ISO/IEC 14496-12, 8.8.4 and 8.1.1).

ghost use Rattle.std.specs.Prelude.{◌≡◌, ◌^◌, ◌<◌};
ghost use Rattle.mp4_pieces.specs.Sizes.{fragment_size, mdat_header_size, moof_size};

use crate::piece::Piece;

/// The least media bytes of an mdat with a size of 64 bits: 2^32 less the 8 bytes of its
/// header (4.2).
pub const LONG_MEDIA: u64 = (1 << 32) - 8;

/// How many bytes the moof of a piece of so many samples has.
#[inline]
pub fn moof_size(samples: u32) -> u64
    ensures { result ≡ moof_size samples }
{
    92 + 16 * u64::from(samples)
}

/// How many bytes the header of an mdat has, with so many bytes of media.
#[inline]
pub fn mdat_header_size(bytes: u64) -> u64
    ensures size { result ≡ mdat_header_size bytes }
    ensures small { result < 2 ^ 5 }
{
    if bytes < LONG_MEDIA { 8 } else { 16 }
}

/// How many bytes the moof and the mdat of a piece have.
#[inline]
pub fn fragment_size(piece: &Piece) -> u128
    ensures { result ≡ fragment_size piece.now }
{
    let moof = u128::from(moof_size(piece.plain.count));
    moof + (u128::from(mdat_header_size(piece.plain.bytes)) + u128::from(piece.plain.bytes))
}
