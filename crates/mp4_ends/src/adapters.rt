//! std's readers and writers as the ends of a stream.

mod from_read;
mod into_write;

pub use from_read::FromRead;
pub use into_write::IntoWrite;

/// State of a source or a sink.
#[derive(Clone, Copy, Debug, PartialEq, Eq)]
pub enum State {
    /// It goes on.
    Open,
    /// Its stream has ended.
    Ended,
    /// It has failed.
    Broken,
}
