//! Pseudorandom numbers, which are the same for the same seed: a generator of Marsaglia's, by three shifts of 64
//! bits. Source: G. Marsaglia, Xorshift RNGs, Journal of Statistical Software 8 (2003).

ghost use Rattle.std.specs.Prelude.{◌<◌};

/// The state after the last number, which is never 0 for a state that wasn't.
#[derive(Clone, Copy)]
pub struct Random {
    state: u64,
}

impl Random {
    /// The numbers of a seed. Near seeds begin far from each other.
    pub fn new(seed: u32) -> Random {
        Random {
            state: u64::from(seed)
                .wrapping_mul(0x9e37_79b9_7f4a_7c15)
                .wrapping_add(0x2545_f491_4f6c_dd1d),
        }
    }

    /// The next number.
    pub fn number(&mut self) -> u64 {
        let mut next = self.state;
        next ^= next.wrapping_shl(13);
        next ^= next >> 7;
        next ^= next.wrapping_shl(17);
        self.state = next;
        next
    }

    /// The next number from 0 up to a limit, and 0 where that is 0.
    pub fn below(&mut self, limit: u32) -> u32 {
        if limit == 0 {
            return 0;
        }
        ((self.number() >> 16) % u64::from(limit)) as u32
    }
}
