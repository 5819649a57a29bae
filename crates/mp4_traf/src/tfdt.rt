//! The base time of a track fragment, tfdt (ISO/IEC 14496-12, 8.8.12).
//!
//! | Field | Offset in the payload | Bits |
//! |---|---|---|
//! | version and flags | 0 | 32 |
//! | base_media_decode_time | 4 | 32 at version 0, 64 at version 1 |

ghost use Rattle.std.specs.Prelude.{◌≡◌};
ghost use Rattle.mp4_traf.specs.Tfdt.{base_media_decode_time};

use mp4_box::{long_number_at, number_at, version_of};

/// Place of base_media_decode_time.
const BASE_MEDIA_DECODE_TIME: u32 = 4;

/// How long the payload of a tfdt is at version 0, in bytes.
pub const TFDT_LEN: usize = 8;

/// How long the payload of a tfdt is at version 1, in bytes.
pub const LONG_TFDT_LEN: usize = 12;

/// The base_media_decode_time of a tfdt, in ticks.
pub fn base_media_decode_time(payload: &[u8]) -> u64
    ensures { result ≡ base_media_decode_time payload.now }
{
    if version_of(payload) == 0 {
        u64::from(number_at(payload, BASE_MEDIA_DECODE_TIME))
    } else {
        long_number_at(payload, BASE_MEDIA_DECODE_TIME)
    }
}
