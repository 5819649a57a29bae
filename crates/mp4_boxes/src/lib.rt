//! The boxes of a stream, listed as it comes: those at the top by their headers, and a moov or moof with the boxes
//! below it once its tree is known to be good.
//!
//! - [`machine`]: [`BoxMachine`], which lists the boxes of a stream that it is fed in inputs, [`state`]: its states,
//!   and [`step`]: how;
//! - [`header`]: takes a header and begins its box, [`buffered_box`]: a moov or moof until it is whole, and [`body`]: a
//!   body that is passed over;
//! - [`listed_box`]: a moov or moof of which all bytes came, and [`listing`]: the line of a box, and those of a tree of
//!   boxes;
//! - [`laws`]: what the definitions of `specs/` imply.
//!
//! The definitions: `specs/Boxes.antt` (how the bytes of a stream are read) with `specs/Buffering.antt` (the boxes that
//! are held) and `specs/Listing.antt` (the lines), `specs/Joined.antt` (whole boxes one after the other, for the laws)
//! with `specs/Rests.antt` (what is left after them) and `specs/HeldBoxes.antt` (the sizes of those that are held, and
//! what a run claims by them), `specs/States.antt` (where the machine is in a stream, and what that means) with
//! `specs/Steps.antt` (a step of it). What a run returns, writes and claims is defined in `mp4_machine`, in
//! `specs/StreamRuns.antt`; `boxes` of `mp4_stream` is such a run.
#![tactic(auto)]

mod body;
mod buffered_box;
mod header;
pub mod laws;
mod listed_box;
mod listing;
pub mod machine;
mod state;
mod step;

pub use machine::BoxMachine;
