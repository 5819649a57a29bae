//! How far a stream is followed, and what is refused.

ghost use Rattle.std.specs.Prelude.{◌≡◌, ◌<◌, ◌≤◌, ◌↔◌, IsTrue};
ghost use Rattle.mp4_machine.specs.Bodies.{fault, least_end, longest};

use crate::stop::Stop;
use mp4_box::{Fault, FourCc, Header, Rule, Size};

/// No stream is followed further than this many bytes.
pub const LONGEST: u64 = 1 << 62;

/// A refusal of the box at `at`.
pub fn at_fault(rule: Rule, kind: Option<FourCc>, at: u64) -> Stop
    ensures { result ≡ Stop.Stream (fault rule kind at) }
{
    Stop::Stream(Fault {
        rule,
        kind,
        offset: at,
    })
}

/// Whether the box at `at` with this header goes past the longest stream.
pub fn is_too_long(at: u64, header: &Header) -> bool
    requires at { at ≤ longest }
    ensures { IsTrue result ↔ (longest < least_end at header.now header.now.size) }
{
    let least = match header.size {
        Size::Exact(size) => size,
        Size::ToEnd => header.header_len,
    };
    least > LONGEST - at
}
