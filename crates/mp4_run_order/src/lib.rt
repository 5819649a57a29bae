//! Where the runs of a moof may lie (the rule RunPlace) and in which order they are taken, on plain lists of runs.
//! `CALLING.md` shows a caller.
//!
//! - [`ListedRun`]: a run of samples, and [`Payload`]: where it must lie;
//! - [`TrackSearch`] (`track_search.rt`), then [`PlaceSearch`] (`place_search.rt`): two passes over sorted runs that
//!   find the first run at fault;
//! - [`ListedRun::track_key`], [`ListedRun::place_key`]: by which numbers runs are sorted for them;
//! - [`laws`]: what the definitions of `specs/` imply.
//!
//! The definitions: `specs/Runs.antt` (runs, their bytes, the listing), `specs/Places.antt` (which run is at fault),
//! `specs/Orders.antt` (the order in which runs are taken, the order by track), `specs/Takings.antt` (what that order
//! keeps). `specs/Worked.antt` has examples, and `specs/Implementation/Searches.antt` says how the first run at fault
//! is found.
#![tactic(auto)]

pub mod laws;
mod numbers;
mod place_search;
mod runs;
mod track_search;

pub use place_search::PlaceSearch;
pub use runs::{ListedRun, Payload};
pub use track_search::TrackSearch;
