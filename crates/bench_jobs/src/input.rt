//! What standard input has: three numbers of four bytes, the highest first, and the boxes of a stream.

ghost use Rattle.std.specs.Prelude.{◌≤◌, ◌^◌, length, IfSome};
ghost use Rattle.mp4_box.specs.Headers.{IsWhole};

use mp4_box::{Size, header_of, is_box, number_at};

/// A moov may have so many bytes.
const LONGEST_MOOV: usize = 16 << 20;

/// A moof may have so many bytes.
const LONGEST_MOOF: usize = 64 << 20;

/// Standard input.
#[derive(Clone, Copy)]
pub(crate) struct Input<'a> {
    /// The greatest number of samples of a fragment.
    pub(crate) samples: u32,
    /// How many bytes an input has.
    pub(crate) len: usize,
    /// How many times the stream is cut.
    pub(crate) times: u32,
    /// The boxes.
    pub(crate) stream: &'a [u8],
}

/// A moov, and the moof after it.
#[derive(Clone, Copy)]
pub(crate) struct Boxes<'a> {
    pub(crate) moov: &'a [u8],
    pub(crate) moof: &'a [u8],
}

impl<'a> Input<'a> {
    /// The numbers, and the boxes after them.
    pub(crate) fn of(bytes: &'a [u8]) -> Input<'a> {
        let (numbers, stream) = bytes.split_at(bytes.len().min(12));
        Input {
            samples: number_at(numbers, 0),
            len: number_at(numbers, 4) as usize,
            times: number_at(numbers, 8),
            stream,
        }
    }

    /// The first two boxes, of which the one is read as a moov and the other as a moof.
    pub(crate) fn boxes(&self) -> Option<Boxes<'a>>
        ensures moov { IfSome result (λ b. IsWhole b.moov.now) }
        ensures moof { IfSome result (λ b. IsWhole b.moof.now) }
        ensures small { IfSome result (λ b. (length b.moov.now ≤ 2 ^ 24) × (length b.moof.now ≤ 2 ^ 26)) }
    {
        let (moov, rest) = self.stream.split_at(first_end(self.stream));
        let (moof, _) = rest.split_at(first_end(rest));
        if moov.len() > LONGEST_MOOV
            || !is_box(moov)
            || moof.len() > LONGEST_MOOF
            || !is_box(moof)
        {
            return None;
        }
        Some(Boxes { moov, moof })
    }
}

/// Where the first box ends.
fn first_end(bytes: &[u8]) -> usize
    ensures { result ≤ length bytes.now }
{
    match header_of(bytes) {
        Ok(header) => match header.size {
            Size::Exact(size) => size.min(bytes.len() as u64) as usize,
            Size::ToEnd => 0,
        },
        Err(_) => 0,
    }
}
