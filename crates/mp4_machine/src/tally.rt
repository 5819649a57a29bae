//! What is counted of a stream.

/// What is counted of some bytes of a stream. A command that lists boxes counts nothing.
#[derive(Clone, Copy, Debug, PartialEq, Eq)]
pub struct Tally {
    /// How many fragments: moofs with their mdats.
    pub fragments: u64,
    /// How many samples.
    pub samples: u128,
    /// How many bytes of media.
    pub media_bytes: u64,
    /// How many samples the moofs had whose samples were read.
    pub inspected: u128,
}
