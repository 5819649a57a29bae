//! What a stream is opened for.

use mp4_stream::Operation;

/// What is done with a stream.
#[derive(Clone, Copy)]
pub enum Task {
    /// An operation on its fragments.
    Fragments(Operation),
    /// Its boxes are listed.
    Boxes,
}
