//! Operations that read fragments and write none.

/// A command that reads fragments.
#[derive(Clone, Copy, Debug, PartialEq, Eq)]
pub enum Command {
    /// The samples of each fragment are listed.
    Samples,
    /// The tracks are listed, and then the trafs of each fragment.
    Fragments,
    /// The trafs of each fragment are given as records.
    Records,
    /// The samples are counted alone.
    Check,
}
