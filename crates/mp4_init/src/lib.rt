//! The tracks of a fragmented movie: what a moov (ISO/IEC 14496-12, 8.2.1) says of each, and the rules that it
//! must keep. `CALLING.md` shows a caller.
//!
//! - [`tracks`]: from the bytes of a moov to its [`TrackList`], or why there is none ([`InitStop`]);
//! - [`rules`]: which boxes of a moov are checked for what, and [`sample_tables`]: what its sample tables are asked;
//! - [`build`]: from the traks of a moov to a table, [`table`]: [`TrackList`], that table in claimed memory, and
//! [`row`]: a [`Track`] as a row of it;
//! - [`summary`]: what a moov says of one track_ID, and [`slots`]: of many at once;
//! - [`ordered_ids`]: the search for a track_ID among some in order ([`seek_in_order`]), and [`search_tree`]: by its
//!   bits, in a table;
//! - [`fields`]: the fields of the boxes that are read;
//! - [`laws`]: what the definitions of `specs/` imply.
//!
//! The definitions: `specs/Kinds.antt` (types and paths), `specs/Fields.antt` (payloads), `specs/Rules.antt`
//! (what is at fault), `specs/Tracks.antt` (the tracks), `specs/Moovs.antt` (the tracks of a moov or its
//! fault), `specs/TrackFields.antt` (bounds of the numbers of a track). How all this is computed is said in
//! `specs/Implementation/`.
#![tactic(auto)]

mod build;
mod fields;
pub mod laws;
mod moov;
mod ordered_ids;
mod row;
mod rules;
mod sample_tables;
mod search_tree;
mod slots;
mod summary;
mod table;

pub use moov::{InitStop, tracks};
pub use ordered_ids::seek_in_order;
pub use table::{Track, TrackList};
