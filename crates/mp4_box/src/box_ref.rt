//! A box that is held.

ghost use Rattle.std.specs.Prelude.{◌≡◌, ◌+◌, ◌^◌, ◌<◌, length};

use crate::headers::Header;

/// A box of stated size in bytes that are held.
#[derive(Clone, Copy)]
pub struct BoxRef<'a> {
    /// Its header.
    pub header: Header,
    /// The offset in the stream of its first byte.
    pub offset: u64,
    /// Its payload.
    pub payload: &'a [u8],
    pub ghost room: { offset + header.header_len + length payload.now < 2 ^ 63 },
}
