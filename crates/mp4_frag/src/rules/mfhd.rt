//! The header of a movie fragment, mfhd (ISO/IEC 14496-12, 8.8.5).
//!
//! | Field | Offset in the payload | Bits |
//! |---|---|---|
//! | version and flags | 0 | 32 |
//! | sequence_number | 4 | 32 |

ghost use Rattle.std.specs.Prelude.{◌≡◌, ◌+◌, ◌≤◌, ◌^◌, length};
ghost use Rattle.mp4_box.specs.Headers.{IsWhole};
ghost use Rattle.mp4_frag.specs.Mfhd.{sequence_number};
ghost use Rattle.mp4_frag.specs.Moofs.{sequence_of};
ghost use Rattle.mp4_traf.specs.Runs.{moof_at};

use mp4_box::types::MFHD;
use mp4_box::{number_at, whole_box};
use mp4_traf::internal::payload_at;

/// Place of sequence_number.
const SEQUENCE_NUMBER: u32 = 4;

/// How long the payload is.
pub(crate) const MFHD_LEN: usize = 8;

/// The sequence_number of an mfhd.
pub(crate) fn sequence_number(payload: &[u8]) -> u32
    ensures { result ≡ sequence_number payload.now }
{
    number_at(payload, SEQUENCE_NUMBER)
}

/// The sequence_number of the moof that the bytes are, which begin at `offset`.
#[tactic(auto, using(crate::proofs::MoofLemmas::moof_is))]
pub(crate) fn sequence_in(moof_bytes: &[u8], offset: u64) -> u32
    requires whole { IsWhole moof_bytes.now }
    requires room { offset + length moof_bytes.now ≤ 2 ^ 62 }
    ensures { result ≡ sequence_of (moof_at moof_bytes.now offset) }
{
    sequence_number(payload_at(MFHD, &whole_box(moof_bytes, offset)))
}
