//! The two ends of a stream: what its bytes are read from, and what bytes are written to. They know nothing of boxes.
//!
//! - [`streams`]: [`Source`] and [`Sink`], with their failures, [`write_all`] and [`write_front`];
//! - [`adapters`]: std's readers (`from_read.rt`) and writers (`into_write.rt`) as such ends;
//! - [`ends`]: ends in memory, for tests: bytes to read (`from_slice.rt`), and memory to write to (`to_vec.rt`).
#![tactic(auto)]

pub mod adapters;
pub mod ends;
pub mod streams;

pub use adapters::{FromRead, IntoWrite};
pub use streams::{Failed, Short, Sink, Source, write_all, write_front};
