//! Whether an index of the pieces of a run has room for its numbers.

ghost use Rattle.std.specs.Prelude.{◌≡◌, ◌+◌, ◌^◌, ◌<◌, ◌∷◌, [], length};
ghost use Rattle.mp4_pieces.specs.Implementation.Rooming.{check_past};
ghost use Rattle.mp4_pieces.specs.Rooms.{passes_index, passes_reference, passes_time};

use crate::piece::Piece;
use crate::pieces::Pieces;
use crate::sizes::fragment_size;

/// The most pieces of an index: reference_count of sidx has 16 bits (ISO/IEC 14496-12, 8.16.3).
pub const MOST_IN_INDEX: u32 = 65_535;

/// The greatest referenced_size, which has 31 bits.
const MOST_SIZE: u128 = (1 << 31) - 1;

/// The greatest subsegment_duration.
const MOST_DURATION: u64 = (1 << 32) - 1;

/// Whether a reference has no room for a piece.
fn passes_reference(piece: &Piece) -> bool
    ensures { result ≡ passes_reference piece.now }
{
    fragment_size(piece) > MOST_SIZE || piece.plain.duration > MOST_DURATION
}

/// Whether an index has no room for the time of a group that begins with this piece.
fn passes_time(piece: &Piece) -> bool
    ensures { result ≡ passes_time (piece.now ∷ []) }
{
    piece.least < 0 || piece.least > i128::from(u64::MAX)
}

/// The state of the check while the pieces of a run are gone over.
#[derive(Clone, Copy)]
struct IndexCheck {
    /// How many pieces come before the next group.
    left: u32,
    /// Whether an index had no room for a piece so far.
    passes: bool,
}

impl IndexCheck {
    /// The check after one more piece.
    #[tactic(auto, unfolding(crate::specs::Implementation::Rooming::check_past))]
    fn past(self, piece: &Piece) -> IndexCheck
        ensures { result ≡ check_past self piece.now }
    {
        if self.left == 0 {
            IndexCheck {
                left: MOST_IN_INDEX - 1,
                passes: self.passes || passes_time(piece) || passes_reference(piece),
            }
        } else {
            IndexCheck {
                left: self.left - 1,
                passes: self.passes || passes_reference(piece),
            }
        }
    }
}

/// Sums over the pieces of a run.
#[derive(Clone, Copy)]
pub(crate) struct Outcome {
    /// How many there are.
    pub(crate) count: u32,
    /// Whether an index has no room for them.
    pub(crate) passes: bool,
}

/// The sums over the pieces of a run.
#[tactic(auto, using(crate::proofs::RoomLemmas::check_more, crate::proofs::RoomLemmas::check_none))]
pub(crate) fn outcome_of(pieces: Pieces<'_>) -> Outcome
    requires { length pieces < 2 ^ 32 }
    ensures count { result.count ≡ length pieces.entry }
    ensures passes { result.passes ≡ passes_index pieces.entry }
{
    let mut count = 0;
    let mut check = IndexCheck {
        left: 0,
        passes: false,
    };
    for piece in pieces {
        check = check.past(&piece);
        count += 1;
    }
    Outcome {
        count,
        passes: check.passes,
    }
}
