//! The search in taking order.

ghost use Rattle.std.specs.Prelude.{◌≡◌};
ghost use Rattle.mp4_run_order.specs.Implementation.Searches.{may_be_first, place_start, place_step, shared_step};

use crate::numbers::{is_below, lower_of};
use crate::runs::{ListedRun, Payload};

/// The search, among runs that are gone over in taking order, for the first in the listing that is at fault. It is
/// the second of two passes, after [`TrackSearch`](crate::TrackSearch).
#[derive(Clone, Copy, Debug)]
pub struct PlaceSearch {
    /// Where runs must lie.
    pub payload: Payload,
    /// The number of the first that was found so far, in this pass or by track.
    pub offender: Option<u64>,
    /// The last run that has bytes, lies in the payload and wasn't found.
    pub last: Option<ListedRun>,
}

impl PlaceSearch {
    /// The search before the first run, with what was found by track.
    pub fn new(payload: Payload, offender: Option<u64>) -> PlaceSearch
        ensures { result ≡ place_start payload offender }
    {
        PlaceSearch {
            payload,
            offender,
            last: None,
        }
    }

    fn may_be_first(self, run: ListedRun) -> bool
        ensures { result ≡ may_be_first self.offender run }
    {
        run.count != 0 && is_below(run.number, self.offender)
    }

    /// The search after a run that shares a byte with the last one.
    fn past_shared(self, last: ListedRun, run: ListedRun) -> PlaceSearch
        ensures { result ≡ shared_step self last run }
    {
        if last.number < run.number {
            PlaceSearch {
                offender: Some(run.number),
                ..self
            }
        } else {
            PlaceSearch {
                offender: Some(lower_of(last.number, self.offender)),
                last: Some(run),
                ..self
            }
        }
    }

    /// The search after one more run, the next that is taken.
    #[must_use]
    pub fn past(self, run: ListedRun) -> PlaceSearch
        ensures { result ≡ place_step self run }
    {
        if !self.may_be_first(run) {
            self
        } else if !self.payload.holds(run) {
            PlaceSearch {
                offender: Some(run.number),
                ..self
            }
        } else if run.bytes == 0 {
            self
        } else {
            match self.last {
                Some(last) if i128::from(run.place) < last.end() => self.past_shared(last, run),
                _ => PlaceSearch {
                    last: Some(run),
                    ..self
                },
            }
        }
    }
}
