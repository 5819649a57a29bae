//! What a machine takes next that lists boxes.

use mp4_machine::{Body, BufferedBox};

/// What a machine takes next.
pub(crate) enum State {
    /// A byte of the header of the box at `at`.
    Header { at: u64 },
    /// Bytes of a moov or moof.
    Buffering(BufferedBox),
    /// Bytes of a body.
    Body(Body),
}

/// Bytes that were taken from the front of the input: how many, and the next state.
pub(crate) struct Taken {
    pub(crate) count: usize,
    pub(crate) state: State,
}
