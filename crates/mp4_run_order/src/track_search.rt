//! The search by track.

ghost use Rattle.std.specs.Prelude.{◌≡◌};
ghost use Rattle.mp4_run_order.specs.Implementation.Searches.{overtakes_last, track_start, track_step};

use crate::numbers::lower_of;
use crate::runs::ListedRun;

/// The search, among runs that are gone over by track, for the first in the listing that begins before the end of
/// an earlier run of its track. It is the first of two passes: [`PlaceSearch`](crate::PlaceSearch) begins with what
/// it found.
#[derive(Clone, Copy, Debug)]
pub struct TrackSearch {
    /// The number of the first that was found so far.
    pub offender: Option<u64>,
    /// The last run that has samples and wasn't found.
    pub last: Option<ListedRun>,
}

impl TrackSearch {
    /// The search before the first run.
    pub fn new() -> TrackSearch
        ensures { result ≡ track_start }
    {
        TrackSearch {
            offender: None,
            last: None,
        }
    }

    /// Whether it begins before the end of the last run, and is of its track.
    fn overtakes_last(self, run: ListedRun) -> bool
        ensures { result ≡ overtakes_last self.last run }
    {
        match self.last {
            None => false,
            Some(last) => {
                last.count != 0 && last.track == run.track && i128::from(run.place) < last.end()
            }
        }
    }

    /// The search after one more run, the next by track_ID, and of one track the next in the listing.
    #[must_use]
    pub fn past(self, run: ListedRun) -> TrackSearch
        ensures { result ≡ track_step self run }
    {
        if run.count == 0 {
            self
        } else if self.overtakes_last(run) {
            TrackSearch {
                offender: Some(lower_of(run.number, self.offender)),
                ..self
            }
        } else {
            TrackSearch {
                last: Some(run),
                ..self
            }
        }
    }
}
