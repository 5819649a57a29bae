//! Fields that a flag announces (ISO/IEC 14496-12, 4.2).

ghost use Rattle.std.specs.Prelude.{◌≡◌, ◌≤◌, ◌<◌, ◌^◌, [], ◌∷◌};
ghost use Rattle.mp4_box.specs.Fields.{number_in};
ghost use Rattle.mp4_box.specs.Paths.{at_path};
ghost use Rattle.mp4_box.specs.Trees.{first_of, view};
ghost use Rattle.mp4_traf.specs.Fields.{flags_in, number_or, payload_of, place_if, signed_in, width_if};

use crate::children::children_of;
use mp4_box::{BoxRef, FourCc, full, i32_at, number_at};

/// The flags of a full box, 0 where they aren't all there.
pub(crate) fn flags_of(payload: &[u8]) -> u32
    ensures { result ≡ flags_in payload.now }
{
    match full(payload) {
        Some((_, flags)) => flags,
        None => 0,
    }
}

/// How many bytes a field of 32 bits takes.
pub(crate) fn width_if(is_there: bool) -> u32
    ensures value { result ≡ width_if is_there }
    ensures small { result ≤ 4 }
{
    if is_there { 4 } else { 0 }
}

/// The place of a field that is there.
pub(crate) fn place_if(is_there: bool, at: u32) -> Option<u32>
    ensures { result ≡ place_if is_there at }
{
    if is_there { Some(at) } else { None }
}

/// The number of the field at a place, or a default if the field isn't there.
pub(crate) fn number_or(payload: &[u8], at: Option<u32>, default_value: u32) -> u32
    ensures { result ≡ number_or payload.now at default_value }
{
    match at {
        Some(at) => number_at(payload, at),
        None => default_value,
    }
}

/// The signed number in the four bytes at a place of a payload, 0 where they aren't all there.
pub(crate) fn signed_at(payload: &[u8], at: u32) -> i32
    ensures { result ≡ signed_in payload.now at }
{
    let at = at as usize;
    if payload.len() < at + 4 {
        return 0;
    }
    i32_at(payload, at)
}

/// The payload of the first child of this type, empty where there is none.
pub fn payload_at<'a>(kind: FourCc, this: &BoxRef<'a>) -> &'a [u8]
    ensures { result.now ≡ payload_of (first_of (at_path (kind ∷ []) (view this.now))) }
{
    match children_of(kind, this).next() {
        Some(found) => found.payload,
        None => &[],
    }
}
