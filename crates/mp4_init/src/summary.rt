//! What a moov says of one track_ID.

ghost use Rattle.std.specs.Prelude.{◌≡◌, Some};
ghost use Rattle.mp4_box.specs.Trees.{view};
ghost use Rattle.mp4_init.specs.Implementation.Summaries.{added, id_by};
ghost use Rattle.mp4_init.specs.Tracks.{defaults_of};

use crate::fields::number_after_times;
use mp4_box::{BoxRef, number_at};

/// The four defaults of a trex (ISO/IEC 14496-12, 8.8.3).
#[derive(Clone, Copy, Default)]
pub struct Defaults {
    pub desc: u32,
    pub duration: u32,
    pub size: u32,
    pub flags: u32,
}

/// What a moov says of one track_ID.
#[derive(Clone, Copy, Default)]
pub struct Summary {
    /// The least offset of its tkhds.
    pub first: u64,
    /// How many trexes it has: none, one, or more.
    pub trexes: u8,
    /// The defaults of the first of them.
    pub defaults: Defaults,
}

/// Before any box was seen.
pub(crate) const NOTHING: Summary = Summary {
    first: u64::MAX,
    trexes: 0,
    defaults: Defaults {
        desc: 0,
        duration: 0,
        size: 0,
        flags: 0,
    },
};

/// The boxes that have a track_ID.
#[derive(Clone, Copy)]
pub enum Source {
    Tkhd,
    Trex,
}

/// The defaults of a trex.
fn defaults_in(trex: &BoxRef<'_>) -> Defaults
    ensures { result ≡ defaults_of (Some (view trex.now)) }
{
    Defaults {
        desc: number_at(trex.payload, 8),
        duration: number_at(trex.payload, 12),
        size: number_at(trex.payload, 16),
        flags: number_at(trex.payload, 20),
    }
}

/// The track_ID of a tkhd or trex.
pub(crate) fn id_in(source: Source, this: &BoxRef<'_>) -> u32
    ensures { result ≡ id_by source (view this.now) }
{
    match source {
        Source::Tkhd => number_after_times(this),
        Source::Trex => number_at(this.payload, 4),
    }
}

/// Adds a box of the track_ID.
pub(crate) fn add_box(summary: &mut Summary, source: Source, this: &BoxRef<'_>)
    ensures { summary.new ≡ added source summary.old (view this.now) }
{
    match source {
        Source::Tkhd => {
            if this.offset < summary.first {
                summary.first = this.offset;
            }
        }
        Source::Trex => {
            if summary.trexes == 0 {
                summary.trexes = 1;
                summary.defaults = defaults_in(this);
            } else {
                summary.trexes = 2;
            }
        }
    }
}
