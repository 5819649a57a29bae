//! The boxes of an MP4 stream (ISO/IEC 14496-12): how their headers are written and read, the tree of a box that
//! is held, the fields of payloads, and the rules that a stream can break. `CALLING.md` shows a caller.
//!
//! - [`headers`]: the header of a box, in all its forms, and [`header_of`], which reads it from a slice;
//! - [`reader`]: [`HeaderReader`], which reads it byte by byte;
//! - [`tree`]: [`check_tree`], which checks the tree of a held box; `box_ref.rt`: [`BoxRef`], a box of it, and
//!   `walk.rt`: [`Walk`], which goes over its children;
//! - [`types`]: the types of boxes by their names, and [`fields`]: the numbers in a payload;
//! - [`rules`]: the rules, and the [`Fault`] of a stream that breaks one; `order.rt`: which of several is reported;
//! - [`paths`]: the boxes on a path of types, [`Along`], and [`checks`]: what a box can be asked for, and asking it of
//!   the boxes on a path, where [`note`] keeps the fault that is reported;
//! - [`flags`]: the flag words of tfhd and trun, [`TfhdFlags`] and [`TrunFlags`], which keep the bits that are flags,
//!   and [`of_word_keeps_flags`], the law that no flag is lost;
//! - [`laws`]: what the definitions of `specs/` imply.
//!
//! It re-exports the ends of a stream, from [`Source`] to [`ends`], and three small streams for tests, [`vectors`]:
//! their users name this crate.
#![tactic(auto)]

mod box_ref;
pub mod checks;
pub mod fields;
pub mod flags;
pub mod headers;
pub mod laws;
mod order;
pub mod paths;
pub mod reader;
pub mod rules;
pub mod tree;
pub mod types;
mod walk;

pub use box_ref::BoxRef;
pub use checks::{AtMostOne, Check, Layout, One, note_along};
pub use fields::{array_at, full, i32_at, long_number_at, number_at, u32_at, u64_at, version_of};
pub use flags::{Flags, TfhdFlags, TrunFlags, of_word_keeps_flags};
pub use headers::{FourCc, Header, Size, Step, header_of};
pub use mp4_ends::{Failed, FromRead, IntoWrite, Sink, Source, ends, write_all};
pub use mp4_vectors as vectors;
pub use order::note;
pub use paths::{Along, count_of, first_at};
pub use reader::HeaderReader;
pub use rules::{Fault, Rule};
pub use tree::{check_tree, holds_boxes, is_box, whole_box};
pub use walk::Walk;
