//! What bounds the pieces of a run.

ghost use Rattle.std.specs.Prelude.{◌≡◌, ℕ, None, Some};
ghost use Rattle.mp4_pieces.specs.Bounds.{IsBound, IsBySums};
ghost use Rattle.mp4_pieces.specs.Fitting.{ticks_in};
ghost use Rattle.mp4_pieces.specs.declared.bound.Bound as bounds;

use crate::cut::Cut;
use mp4_frag::Run;

/// What bounds the pieces of a run.
#[derive(Clone, Copy)]
pub enum Bound {
    /// The number of their samples alone: at most so many.
    Samples(u32),
    /// The most samples of the cut, and durations that the samples have of their own: at most so many ticks.
    Ticks(u64),
    /// Bytes or sync samples too: each row is asked.
    Rows,
}

/// So many milliseconds in ticks of a timescale, rounded down.
#[inline(always)]
pub(crate) fn ticks_in(timescale: u32, millis: u32) -> u64
    ensures { result ≡ ticks_in timescale millis }
{
    u64::from(millis) * u64::from(timescale) / 1000
}

impl Cut {
    /// What bounds the pieces of a run. Where all its samples last equally long, a limit of milliseconds is one of their
    /// number.
    #[inline(always)]
    pub fn bound(&self, run: &Run) -> Bound
        ensures bound { IsBound self.now run.now result }
        ensures rows { result ≡ Bound.Rows → IsBySums self.now → ⊥ }
        ensures ticks { (most : ℕ) → result ≡ Bound.Ticks most → run.now.fields.sample_duration ≡ None → ⊥ }
    {
        if self.is_counted {
            return Bound::Samples(self.samples);
        }
        self.further_bound(run)
    }

    /// The same, where the number of samples may not be the only limit.
    #[inline(never)]
    fn further_bound(&self, run: &Run) -> Bound
        ensures bound { IsBound self.now run.now result }
        ensures rows { result ≡ Bound.Rows → IsBySums self.now → ⊥ }
        ensures ticks { (most : ℕ) → result ≡ Bound.Ticks most → run.now.fields.sample_duration ≡ None → ⊥ }
    {
        if self.bytes.is_some() || self.sync || self.keyframes {
            return Bound::Rows;
        }
        match self.duration {
            None => Bound::Samples(self.samples),
            Some(millis) => self.bound_in_time(run, millis),
        }
    }

    /// The same by sums, where there is a limit of milliseconds.
    fn bound_in_time(&self, run: &Run, millis: u32) -> Bound
        requires sums { IsBySums self.now }
        requires asked { self.now.duration ≡ Some millis }
        ensures bound { IsBound self.now run.now result }
        ensures rows { result ≡ Bound.Rows → ⊥ }
        ensures ticks { (most : ℕ) → result ≡ Bound.Ticks most → run.now.fields.sample_duration ≡ None → ⊥ }
    {
        let ticks = ticks_in(run.timescale, millis);
        if run.fields.sample_duration.is_some() {
            return Bound::Ticks(ticks);
        }
        if run.duration == 0 {
            return Bound::Samples(self.samples);
        }
        let fit = (ticks / u64::from(run.duration)).max(1);
        Bound::Samples(fit.min(u64::from(self.samples)) as u32)
    }
}
