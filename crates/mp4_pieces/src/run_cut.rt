//! The cut of one run, by the timescale of its track and the durations of its samples.

ghost use Rattle.std.specs.Prelude.{◌≡◌, ◌<◌, true};
ghost use Rattle.mp4_pieces.specs.Fitting.{cut_for};
ghost use Rattle.mp4_pieces.specs.Implementation.Counting.{CutsAs, IsPlain};

use crate::bound::{Bound, ticks_in};
use crate::cut::Cut;
use mp4_frag::Run;

/// A cut for the samples of one run.
#[derive(Clone, Copy)]
pub(crate) struct RunCut {
    pub(crate) cut: Cut,
    /// Whether nothing but the number of samples bounds a piece.
    pub(crate) is_counted: bool,
    ghost plain: { is_counted ≡ true → IsPlain cut },
}

impl Cut {
    /// The same cut for the runs of a track with this timescale, with the limit of milliseconds in its ticks.
    #[inline(always)]
    fn for_timescale(&self, timescale: u32) -> Cut
        ensures { result ≡ cut_for timescale self.now }
    {
        let mut cut = *self;
        cut.ticks = match self.duration {
            None => None,
            Some(millis) => Some(ticks_in(timescale, millis)),
        };
        cut
    }

    /// A cut into pieces of at most so many samples, with no other limit.
    #[inline(always)]
    fn counted(&self, most: u32) -> Cut
        requires { 0 < most }
        ensures plain { IsPlain result }
        ensures samples { result.samples ≡ most }
    {
        Cut {
            samples: most,
            bytes: None,
            duration: None,
            ticks: None,
            index: self.index,
            sync: false,
            keyframes: false,
            is_counted: true,
        }
    }

    /// The same cut for the samples of a run.
    #[inline(always)]
    pub(crate) fn for_run(&self, run: &Run) -> RunCut
        ensures { CutsAs self.now run.now result.cut }
    {
        match self.bound(run) {
            Bound::Samples(most) => RunCut {
                cut: self.counted(most),
                is_counted: true,
            },
            Bound::Ticks(_) | Bound::Rows => RunCut {
                cut: self.for_timescale(run.timescale),
                is_counted: false,
            },
        }
    }
}
