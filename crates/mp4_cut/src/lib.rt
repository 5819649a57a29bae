//! The boxes of an output fragment (ISO/IEC 14496-12): the moof of a piece of a run, the header of
//! its mdat, and an index of pieces. `CALLING.md` shows a caller.
//!
//! - [`put_moof`], [`put_plain_moof`] and [`write_moof`]: the moof of a piece;
//! - [`put_mdat_header`] and [`write_mdat_header`]: the header of its mdat;
//! - [`put_index`] and [`write_index`]: the index of a group of pieces, which [`group_len`] counts;
//! - [`laws`]: what the definitions of `specs/` imply. What is written is read again as what it was
//!   written for.
//!
//! The `put` functions go through a block that borrows a sink, and the `write` functions make one
//! for the call. It re-exports how runs are cut: [`Cut`], [`Piece`], [`Pieces`], [`PlainPiece`] and [`room`].
//!
//! Each box that is written has a file in `specs/`, with its fields by the standard's names in their
//! order: mfhd, tfhd, tfdt, trun, moof, mdat, sidx. Here `moof.rt` writes a moof as far as its samples,
//! `trun.rt` those, and `mdat.rt` and `sidx.rt` their boxes, from the fields of `fields.rt`. `write_fault.rt`
//! says why something wasn't written. `specs/Boxes.antt` says how any box is written, `specs/IndexGroups.antt`
//! for which pieces an index is, and `specs/Reads.antt` and `specs/Indexes.antt` what is read again.
//! `specs/Implementation/Fronts.antt` says how a moof and an index are computed. What a call does to a block
//! and a sink is `Puts` and `Writes` of `mp4_machine`.
#![tactic(auto)]

mod fields;
pub mod laws;
mod mdat;
mod moof;
mod sidx;
mod trun;
mod write_fault;

pub use mdat::{put_mdat_header, write_mdat_header};
pub use moof::{put_moof, put_plain_moof, write_moof};
pub use mp4_pieces::{Cut, Piece, Pieces, PlainPiece, room};
pub use sidx::{group_len, put_index, write_index};
pub use write_fault::WriteFault;
