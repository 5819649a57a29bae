//! The requests that a command line can make.

/// The numbers that every command takes.
#[derive(Clone, Copy, Debug, PartialEq, Eq)]
pub struct Settings {
    /// The size of the buffer that bytes are read into, in bytes.
    pub copy: u32,
    /// The most memory that may be claimed at once, in bytes.
    pub max_held: u64,
}

/// How `split` cuts the fragments of a stream.
#[derive(Clone, Copy, Debug, PartialEq, Eq)]
pub struct SplitOptions {
    /// The most samples that a fragment of the output may have.
    pub samples: u32,
    /// The most bytes of media of a piece with several samples, if there is a limit.
    pub bytes: Option<u64>,
    /// The most milliseconds of a piece with several samples, if there is a limit.
    pub duration: Option<u32>,
    /// Whether each group of fragments has an index before it.
    pub index: bool,
    /// Whether a fragment ends before each sync sample.
    pub sync: bool,
    /// Whether a fragment ends before each sync sample after one that isn't.
    pub keyframes: bool,
}

/// A command, with what came with it.
#[derive(Clone, Copy, Debug, PartialEq, Eq)]
pub enum Invocation {
    /// List the boxes of the stream.
    Boxes(Settings),
    /// List its samples.
    Samples(Settings),
    /// List its tracks and fragments.
    Fragments(Settings),
    /// Check it, and count its fragments, samples and bytes of media.
    Check(Settings),
    /// Cut its fragments into shorter ones.
    Split(Settings, SplitOptions),
}

/// What is listed, with a line for each.
#[derive(Clone, Copy)]
pub enum Listing {
    /// The boxes of the stream.
    Boxes,
    /// Its samples.
    Samples,
    /// Its tracks and fragments.
    Fragments,
}
