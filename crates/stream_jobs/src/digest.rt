//! A number for all bytes that are written, however they are cut into writes: four polynomials over their words, modulo
//! 2^64.

ghost use Rattle.std.specs.Prelude.{◌≡◌, ◌+◌, ◌≤◌, length, false};

use arrayvec::ArrayVec;
use mp4_ends::{Failed, Sink};

/// How many bytes are mixed in at once.
const BLOCK: usize = 32;

/// An odd number without a pattern in its bits.
const FACTOR: u64 = 0x9e37_79b9_7f4a_7c15;

/// Four numbers, each of which takes in every fourth word of eight bytes.
#[derive(Clone, Copy)]
struct Lanes {
    first: u64,
    second: u64,
    third: u64,
    fourth: u64,
}

/// The bytes from `at` on as a number.
#[inline(always)]
fn word(block: &[u8], at: usize) -> u64
    requires { at + 8 ≤ length block.now }
{
    let bytes = &block[at..at + 8];
    u64::from_le_bytes([
        bytes[0], bytes[1], bytes[2], bytes[3], bytes[4], bytes[5], bytes[6], bytes[7],
    ])
}

/// A lane after one more word.
#[inline(always)]
fn mix(lane: u64, word: u64) -> u64 {
    lane.wrapping_mul(FACTOR).wrapping_add(word)
}

impl Lanes {
    /// The lanes after one more block.
    #[inline(always)]
    fn with(self, block: &[u8]) -> Lanes
        requires { length block.now ≡ 32 }
    {
        Lanes {
            first: mix(self.first, word(block, 0)),
            second: mix(self.second, word(block, 8)),
            third: mix(self.third, word(block, 16)),
            fourth: mix(self.fourth, word(block, 24)),
        }
    }
}

/// Takes all bytes in, and keeps none.
#[derive(Drop)]
pub struct Digest {
    lanes: Lanes,
    /// The bytes after the last whole block.
    rest: ArrayVec<u8, 32>,
    bytes: u64,
}

impl Digest {
    pub fn new() -> Digest {
        Digest {
            lanes: Lanes {
                first: 1,
                second: 2,
                third: 3,
                fourth: 4,
            },
            rest: ArrayVec::new(),
            bytes: 0,
        }
    }

    /// How many bytes came, and the number for them.
    pub fn answer(&self) -> (u64, u64) {
        let Lanes {
            first,
            second,
            third,
            fourth,
        } = self.lanes;
        let mut answer = mix(mix(mix(mix(self.bytes, first), second), third), fourth);
        for byte in self.rest.as_slice() {
            answer = mix(answer, u64::from(*byte));
        }
        (self.bytes, answer)
    }

    /// Takes these in after the bytes of the rest: how many, none where there is no rest.
    fn fill_rest(&mut self, from: &[u8]) -> usize
        ensures { result ≤ length from.now }
    {
        if self.rest.is_empty() {
            return 0;
        }
        let count = self.rest.remaining_capacity().min(from.len());
        let _ = self.rest.try_extend_from_slice(&from[..count]);
        if self.rest.len() == BLOCK {
            self.lanes = self.lanes.with(self.rest.as_slice());
            self.rest.clear();
        }
        count
    }
}

impl Sink for Digest {
    ghost has_failed = { λ _. false };

    fn write(&mut self, from: &[u8]) -> Result<usize, Failed> {
        self.bytes = self.bytes.wrapping_add(from.len() as u64);
        let count = self.fill_rest(from);
        let mut lanes = self.lanes;
        let blocks = from[count..].chunks_exact(BLOCK);
        let rest = blocks.remainder();
        for block in blocks {
            lanes = lanes.with(block);
        }
        self.lanes = lanes;
        let _ = self.rest.try_extend_from_slice(rest);
        Ok(from.len())
    }

    fn flush(&mut self) -> Result<(), Failed> {
        Ok(())
    }

    fn failed(&self) -> bool {
        false
    }
}
