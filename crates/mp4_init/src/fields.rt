//! Fields of the boxes that are read.

ghost use Rattle.std.specs.Prelude.{◌≡◌};
ghost use Rattle.mp4_box.specs.Trees.{view};
ghost use Rattle.mp4_init.specs.Fields.{after_times};

use mp4_box::{BoxRef, number_at, version_of};

/// The field after the times of a tkhd or mdhd: its track_ID, or its timescale.
pub(crate) fn number_after_times(this: &BoxRef<'_>) -> u32
    ensures { result ≡ after_times (view this.now) }
{
    let at = if version_of(this.payload) == 0 {
        12
    } else {
        20
    };
    number_at(this.payload, at)
}
