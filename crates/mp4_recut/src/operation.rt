//! Operations on a fragmented stream.

use mp4_cut::Cut;
use mp4_grammar::Command;

/// An operation on a fragmented stream.
#[derive(Clone, Copy, Debug)]
pub enum Operation {
    /// Its samples are listed, or only counted.
    List(Command),
    /// Its fragments are recut into smaller ones.
    Split(Cut),
}
