//! The kinds of boxes at the top of a fragmented stream.

ghost use Rattle.std.specs.Prelude.{◌≡◌};
ghost use Rattle.mp4_grammar.specs.Kinds.{kind_in};

use mp4_box::FourCc;
use mp4_box::types::{MDAT, MOOF, MOOV};

/// The most bytes that a moov may have.
pub const MOST_MOOV: u64 = 16_777_216;

/// The most bytes that a moof may have.
pub const MOST_MOOF: u64 = 67_108_864;

/// The kind of a box at the top.
#[derive(Clone, Copy, Debug, PartialEq, Eq)]
pub enum Kind {
    /// What the tracks are (ISO/IEC 14496-12, 8.2.1).
    Moov,
    /// What the samples of a fragment are (8.8.4).
    Moof,
    /// Their media (8.1.1).
    Mdat,
    /// All others.
    Other,
}

/// The kind of a box of this type. A type is compared as one number.
#[tactic(auto, unfolding(crate::specs::Kinds::kind_in))]
#[inline(always)]
pub fn kind_of(kind: FourCc) -> Kind
    ensures { result ≡ kind_in kind.0 }
{
    if kind.is(MOOV) {
        return Kind::Moov;
    }
    if kind.is(MOOF) {
        return Kind::Moof;
    }
    if kind.is(MDAT) {
        return Kind::Mdat;
    }
    Kind::Other
}
