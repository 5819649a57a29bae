//! The items of a fragmented stream and what its bytes are read as: a moov, fragments, and other boxes between them.
//!
//! - [`kinds`]: [`Kind`], the kinds of boxes at the top of a stream;
//! - [`command`]: [`Command`], the operations on fragments;
//! - [`sample`]: [`Sample`], and its line in a listing;
//! - [`cached_line`]: [`CachedLine`], the lines of samples that follow one another;
//! - [`listed_traf`]: [`ListedTraf`], a traf of a fragment and its line, and [`listed_track`]: [`ListedTrack`], a track
//!   and its line;
//! - [`presented`]: [`Presented`], when the first sample of a traf is presented, and how many are sync samples;
//! - [`traf_record`]: [`TrafRecord`], a traf as 80 bytes;
//! - [`laws`]: what the definitions of `specs/` imply.
//!
//! The definitions: `specs/Items.antt` (what is at the front of some bytes, and its effects) with `specs/Contexts.antt`
//! (what is known where an item begins) and `specs/Kinds.antt`; `specs/Meanings.antt` (what a command makes of a
//! fragment), `specs/Samples.antt` (the samples of a fragment and their lines), `specs/FragmentLines.antt` (the lines
//! of its trafs) with `specs/Presented.antt` (what their rows say of when samples are presented),
//! `specs/TrackLines.antt` (the lines of the tracks), `specs/TrafRecords.antt` (its trafs as records),
//! `specs/Commands.antt` (the commands). The laws speak of `specs/Joined.antt` (whole items one after the other),
//! `specs/Rests.antt` (what may be left after them), `specs/HeldSizes.antt` (how large the boxes are that are held),
//! `specs/Counts.antt` (what is counted before a box that requests memory), `specs/LinesByRows.antt` (the line of a
//! traf by the rows of its samples), `specs/AcceptedFragments.antt` (fragments that are accepted, and their records)
//! and `specs/WithoutText.antt` (effects without their text) too.
#![tactic(auto)]

pub mod cached_line;
pub mod command;
pub mod kinds;
pub mod laws;
pub mod listed_track;
pub mod listed_traf;
pub mod presented;
pub mod sample;
pub mod traf_record;

pub use cached_line::CachedLine;
pub use command::Command;
pub use kinds::{Kind, MOST_MOOF, MOST_MOOV, kind_of};
pub use listed_track::{ListedEntry, ListedTrack};
pub use listed_traf::ListedTraf;
pub use presented::Presented;
pub use sample::Sample;
pub use traf_record::{RECORD_BYTES, TrafRecord};
