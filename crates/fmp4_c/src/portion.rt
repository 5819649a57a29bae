//! How much of an input is taken at once: if it can be, up to where a fragment ends, so that none is taken in parts.

ghost use Rattle.std.specs.Prelude.{◌≡◌, ℕ, ◌<◌, ◌≤◌, length};
ghost use Rattle.mp4_grammar.specs.Kinds.{kind_in};
ghost use Rattle.fmp4_c.specs.Portions.{body_end, last_mdat, later, portion_of};

use mp4_box::{FourCc, Size, header_of};
use mp4_grammar::{Kind, kind_of};

/// How many bytes are taken of an input where `left` of a body are to come, and `most` may be taken at once.
pub(crate) fn portion_of(input: &[u8], left: u64, most: usize) -> usize
    requires { 0 < most }
    ensures is { result ≡ portion_of input.now left most }
    ensures some { 0 < length input.now → 0 < result }
    ensures within { result ≤ length input.now }
{
    if input.len() <= most {
        return input.len();
    }
    last_mdat(input, left as usize, most)
}

/// Where a body ends of which `left` bytes are to come, if that is among `most` bytes: after these if not, or if none
/// is left.
fn body_end(left: usize, most: usize) -> usize
    requires { 0 < most }
    ensures is { result ≡ body_end left most }
    ensures some { 0 < result }
    ensures within { result ≤ most }
{
    if left == 0 {
        return most;
    }
    left.min(most)
}

/// Where the last mdat ends among the first `most` bytes of an input, whose next header is at `left`; where the body
/// before that ends, if none does.
fn last_mdat(input: &[u8], left: usize, most: usize) -> usize
    requires some { 0 < most }
    requires most { most ≤ length input.now }
    ensures is { result ≡ last_mdat most input.now most left (body_end left most) }
    ensures some { 0 < result }
    ensures within { result ≤ most }
{
    let mut at = left;
    let mut last = body_end(left, most);
    while at < most {
        let (_, rest) = input.split_at(at);
        let Ok(header) = header_of(rest) else {
            return last;
        };
        let Size::Exact(size) = header.size else {
            return last;
        };
        if size > (most - at) as u64 {
            return last;
        }
        at += size as usize;
        last = later(header.kind, at, last);
    }
    last
}

/// Where the last mdat ends, after a box of this type.
fn later(kind: FourCc, end: usize, last: usize) -> usize
    ensures is { result ≡ later (kind_in kind.0) end last }
    ensures some { 0 < end → 0 < last → 0 < result }
    ensures within { (most : ℕ) → end ≤ most → last ≤ most → result ≤ most }
{
    match kind_of(kind) {
        Kind::Mdat => end,
        Kind::Moov | Kind::Moof | Kind::Other => last,
    }
}
