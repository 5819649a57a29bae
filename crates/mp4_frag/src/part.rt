//! Bytes of a moof that are gone over as the children of a box.

ghost use Rattle.std.specs.Prelude.{◌≡◌, ◌+◌, ◌^◌, ◌<◌, length};
ghost use Rattle.mp4_box.specs.Trees.{view};
ghost use Rattle.mp4_frag.specs.Implementation.Rereads.{absent_box};

use mp4_box::types::FREE;
use mp4_box::{BoxRef, Header, Size};

/// These bytes, which begin at an offset in the stream, as the payload of a box without a header.
#[inline]
pub(crate) fn headless(payload: &[u8], offset: u64) -> BoxRef<'_>
    requires { offset + length payload.now < 2 ^ 63 }
    ensures { view result ≡ record absent_box { offset = offset; payload = payload.now } }
{
    BoxRef {
        header: Header {
            kind: FREE,
            user: None,
            size: Size::ToEnd,
            header_len: 0,
        },
        offset,
        payload,
    }
}
