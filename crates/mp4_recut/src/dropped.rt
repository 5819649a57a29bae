//! Which boxes `split` leaves out.

ghost use Rattle.std.specs.Prelude.{◌≡◌};
ghost use Rattle.mp4_recut.specs.Splitting.{is_dropped};

use mp4_box::FourCc;

/// Whether a box of this type is left out of what is written.
#[tactic(auto, unfolding(crate::specs::Splitting::is_dropped))]
pub fn is_dropped(kind: FourCc) -> bool
    ensures { result ≡ is_dropped kind.0 }
{
    matches!(&kind.0, b"sidx" | b"ssix" | b"mfra")
}
