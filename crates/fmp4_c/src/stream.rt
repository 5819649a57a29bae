//! What C keeps of a stream.

ghost use Rattle.std.specs.Prelude.{◌≡◌};

use crate::handle::Handle;

/// A stream, which C has as zeros before it is opened. Its fields are the library's.
#[repr(C)]
pub struct Stream {
    /// What is open.
    pub(crate) handle: Handle,
    /// 0 where it was never closed.
    pub(crate) closed: u32,
}

/// A value that may be moved to another thread, as C may move what it has of a stream.
pub(crate) fn for_any_thread<T: Send>(value: T) -> T
    ensures { result ≡ value }
{
    value
}
