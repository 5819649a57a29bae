//! How the samples of a movie fragment are cut: the pieces of each run (ISO/IEC 14496-12, 8.8.8).
//!
//! - [`Cut`]: the limits of a piece, and further options; [`Bound`] says which of them bound the pieces of a run, and
//!   `run_cut.rt` has the cut of a run;
//! - [`PlainPiece`] (`plain.rt`): some samples of a run that follow each other, with their sums;
//!   [`PlainPiece::first`] is the first from a cursor on;
//! - [`Piece`]: the same, with the least composition time of its samples, which only an index needs;
//! - [`Pieces`], which goes over the pieces of a run, from its first sample or a cursor on, each filled by `fill.rt`;
//! - [`room`] (`rooms.rt`): whether there is room for the numbers in the output of a moof, and `index.rt` for an index;
//! - [`moof_size`], [`mdat_header_size`] and [`fragment_size`] (`sizes.rt`): how many bytes a piece has when it is
//!   written;
//! - [`laws`]: what the definitions of `specs/` imply.
//!
//! `specs/Cutting.antt` cuts any list by a test of what fits, `specs/Fitting.antt` says which samples fit in a piece,
//! `specs/Pieces.antt` what the pieces of a run are, `specs/PlainPieces.antt` what they are without their least
//! composition times, `specs/Groups.antt` which of them share an index, `specs/Sizes.antt` how many bytes a piece has
//! when it is written, `specs/Rooms.antt` for which numbers there is no room, and `specs/Fits.antt` when there is room
//! for all. `specs/Allowed.antt` has the arguments of a cut, `specs/Bounds.antt` what bounds the pieces of a run. How
//! pieces and their room are found, row by row, is said in `specs/Implementation/`.
#![tactic(auto)]

mod bound;
mod cut;
mod fill;
mod index;
pub mod laws;
mod piece;
mod pieces;
mod plain;
mod rooms;
mod run_cut;
mod sizes;

pub use bound::Bound;
pub use cut::{Cut, MOST_IN_PIECE};
pub use index::MOST_IN_INDEX;
pub use piece::Piece;
pub use pieces::Pieces;
pub use plain::PlainPiece;
pub use rooms::room;
pub use sizes::{LONG_MEDIA, fragment_size, mdat_header_size, moof_size};
