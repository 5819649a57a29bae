//! Text under construction.

ghost use Rattle.std.specs.Prelude.{◌≡◌, ◌+◌, ◌*◌, ◌^◌, ◌<◌, ◌≤◌, ◌++◌, [], length, take, drop};
ghost use Rattle.std.specs.Fmt.{decimal, signed_decimal};
ghost use Rattle.mp4_lines.specs.Digits.{decimal_triple, eight_digits, hex_bytes};

use crate::digits::{
    DECIMAL_DIGITS, SIGNED_DECIMAL_BYTES, WIDE_DECIMAL_DIGITS, decimal_four, decimal_pair, hex_pair,
};
use crate::triples::{decimal_triple, short_decimal, short_decimal_len};
use itoa::Buffer;
use std::marker::Model;
use std::simd::Simd;

/// The most bytes that [`Text::push_again`] appends.
pub const MOST_AGAIN: usize = 32;

/// Text of at most `CAP` bytes. A contract sees it as the list of its bytes.
#[derive(Drop)]
pub struct Text<const CAP: usize> {
    bytes: [u8; CAP],
    len: usize,
}

impl<const CAP: usize> Model for Text<CAP> {
    ghost use Rattle.std.specs.Prelude.{◌≡◌, ◌≤◌, length, take, List, ℕ};

    ghost Value = { List ℕ };

    ghost view = { λ t. take t.len t.bytes };

    ghost invariant = { λ t. (t.len ≤ CAP) × (length t.bytes ≡ CAP) };
}

impl<const CAP: usize> Text<CAP> {
    /// No text.
    pub fn new() -> Self
        ensures { result ≡ [] }
    {
        Text {
            bytes: [0; CAP],
            len: 0,
        }
    }

    /// How many bytes it has.
    #[inline]
    pub fn len(&self) -> usize
        ensures len { result ≡ length self.now }
        ensures within { result ≤ CAP }
    {
        self.len
    }

    /// The bytes so far.
    pub fn bytes(&self) -> &[u8]
        ensures { result.now ≡ self.now }
    {
        &self.bytes[..self.len]
    }

    /// Empties it.
    pub fn clear(&mut self)
        ensures { self.new ≡ [] }
    {
        self.len = 0;
    }

    /// Keeps the first `n` bytes, or all if there are fewer.
    #[inline]
    pub fn truncate(&mut self, n: usize)
        ensures { self.new ≡ take n self.old }
    {
        self.len = self.len.min(n);
    }

    /// Appends these bytes.
    #[inline]
    pub fn push_bytes(&mut self, bytes: &[u8])
        requires { length self.old + length bytes.now ≤ CAP }
        ensures text { self.new ≡ self.old ++ bytes.now }
        ensures len { length self.new ≡ length self.old + length bytes.now }
    {
        let end = self.len + bytes.len();
        let all = &mut self.bytes[..];
        all[self.len..end].copy_from_slice(bytes);
        self.len = end;
    }

    /// Appends the bytes of an array. Its type knows how many, so that the copy of a few is a move or two.
    #[inline(always)]
    pub fn push_array<const N: usize>(&mut self, bytes: &[u8; N])
        requires { length self.old + N ≤ CAP }
        ensures text { self.new ≡ self.old ++ bytes.now }
        ensures len { length self.new ≡ length self.old + N }
    {
        self.push_front::<N>(bytes, N);
    }

    /// Appends the first `n` of these bytes. `N` of them are moved, since a move of a length that is known is fast.
    #[inline(always)]
    fn push_front<const N: usize>(&mut self, bytes: &[u8], n: usize)
        requires few { n ≤ N }
        requires there { N ≤ length bytes.now }
        requires room { length self.old + N ≤ CAP }
        ensures text { self.new ≡ self.old ++ take n bytes.now }
        ensures len { length self.new ≡ length self.old + n }
    {
        let at = self.len;
        let all = &mut self.bytes[..];
        for i in 0..N {
            all[at + i] = bytes[i];
        }
        self.len = at + n;
    }

    /// Appends another text. All of its place is moved, since a move of a length that is known is fast, and the bytes
    /// that it has count.
    #[inline(always)]
    pub fn push_text<const MORE: usize>(&mut self, more: &Text<MORE>)
        requires { length self.old + MORE ≤ CAP }
        ensures text { self.new ≡ self.old ++ more.now }
        ensures len { length self.new ≡ length self.old + length more.now }
        ensures within { length self.new ≤ length self.old + MORE }
    {
        let at = self.len;
        let all = &mut self.bytes[..];
        all[at..at + MORE].copy_from_slice(&more.bytes);
        self.len = at + more.len;
    }

    /// Appends the number in decimal, at most [`DECIMAL_DIGITS`] bytes, and 10 where it has 32 bits.
    #[inline(always)]
    pub fn push_decimal(&mut self, number: u64)
        requires { length self.old + DECIMAL_DIGITS ≤ CAP }
        ensures text { self.new ≡ self.old ++ decimal number }
        ensures len { length self.new ≤ length self.old + DECIMAL_DIGITS }
        ensures short { number < 2 ^ 32 → length self.new ≤ length self.old + 10 }
    {
        if number < 1_000 {
            self.push_three_at_most(number as u32);
        } else {
            self.push_long_decimal(number);
        }
    }

    /// Appends the number in decimal, as [`Text::push_decimal`] does, and sooner where it has four to nine digits.
    #[inline(always)]
    pub fn push_large_decimal(&mut self, number: u64)
        requires { length self.old + DECIMAL_DIGITS ≤ CAP }
        ensures text { self.new ≡ self.old ++ decimal number }
        ensures len { length self.new ≤ length self.old + DECIMAL_DIGITS }
        ensures short { number < 2 ^ 32 → length self.new ≤ length self.old + 10 }
    {
        if 1_000 <= number && number < 1_000_000_000 {
            self.push_four_to_nine(number as u32);
        } else {
            self.push_decimal(number);
        }
    }

    /// Appends a number of more than three digits in decimal; of more than nine its last eight after those before them.
    #[inline(never)]
    fn push_long_decimal(&mut self, number: u64)
        requires long { 1_000 ≤ number }
        requires room { length self.old + DECIMAL_DIGITS ≤ CAP }
        ensures { self.new ≡ self.old ++ decimal number }
    {
        if number < 1_000_000_000 {
            self.push_four_to_nine(number as u32);
            return;
        }
        let last = (number % 100_000_000) as u32;
        self.push_twelve_at_most(number / 100_000_000);
        self.push_eight(last);
    }

    /// Appends a number of four to nine digits in decimal.
    #[inline(always)]
    fn push_four_to_nine(&mut self, number: u32)
        requires long { 1_000 ≤ number }
        requires short { number < 1_000_000_000 }
        requires room { length self.old + 10 ≤ CAP }
        ensures text { self.new ≡ self.old ++ decimal number }
        ensures len { length self.new ≤ length self.old + 9 }
    {
        if number < 1_000_000 {
            self.push_three_at_most(number / 1_000);
            self.push_three(number % 1_000);
        } else {
            self.push_three_at_most(number / 1_000_000);
            self.push_three(number / 1_000 % 1_000);
            self.push_three(number % 1_000);
        }
    }

    /// Appends a number of at most twelve digits in decimal.
    #[inline(always)]
    fn push_twelve_at_most(&mut self, number: u64)
        requires number { number < 1_000_000_000_000 }
        requires room { length self.old + 12 ≤ CAP }
        ensures text { self.new ≡ self.old ++ decimal number }
        ensures len { length self.new ≤ length self.old + 12 }
    {
        if number < 100_000_000 {
            self.push_eight_at_most(number as u32);
        } else {
            self.push_four_at_most((number / 100_000_000) as u32);
            self.push_eight((number % 100_000_000) as u32);
        }
    }

    /// Appends a number of at most sixteen digits in decimal.
    pub(crate) fn push_sixteen_at_most(&mut self, number: u64)
        requires number { number < 10_000_000_000_000_000 }
        requires room { length self.old + 16 ≤ CAP }
        ensures { self.new ≡ self.old ++ decimal number }
    {
        if number < 100_000_000 {
            self.push_eight_at_most(number as u32);
        } else {
            self.push_eight_at_most((number / 100_000_000) as u32);
            self.push_eight((number % 100_000_000) as u32);
        }
    }

    /// Appends a number of at most four digits in decimal.
    #[inline(always)]
    pub(crate) fn push_four_at_most(&mut self, number: u32)
        requires number { number < 10_000 }
        requires room { length self.old + 4 ≤ CAP }
        ensures text { self.new ≡ self.old ++ decimal number }
        ensures len { length self.new ≤ length self.old + 4 }
    {
        if number < 10 {
            self.push_array(&[b'0' + number as u8]);
        } else if number < 100 {
            self.push_array(&decimal_pair(number));
        } else if number < 1_000 {
            self.push_array(&[b'0' + (number / 100) as u8]);
            self.push_array(&decimal_pair(number % 100));
        } else {
            self.push_array(&decimal_four(number));
        }
    }

    /// Appends a number of at most three digits in decimal.
    #[inline(always)]
    fn push_three_at_most(&mut self, number: u32)
        requires number { number < 1_000 }
        requires room { length self.old + 4 ≤ CAP }
        ensures text { self.new ≡ self.old ++ decimal number }
        ensures len { length self.new ≤ length self.old + 3 }
    {
        self.push_front::<4>(short_decimal(number), short_decimal_len(number));
    }

    /// Appends three digits of a number below 1,000: zeros in front where it has fewer.
    #[inline(always)]
    fn push_three(&mut self, number: u32)
        requires number { number < 1_000 }
        requires room { length self.old + 4 ≤ CAP }
        ensures text { self.new ≡ self.old ++ decimal_triple number }
        ensures len { length self.new ≡ length self.old + 3 }
    {
        self.push_front::<4>(decimal_triple(number), 3);
    }

    /// Appends a number of at most eight digits in decimal.
    #[inline(always)]
    fn push_eight_at_most(&mut self, number: u32)
        requires number { number < 100_000_000 }
        requires room { length self.old + 8 ≤ CAP }
        ensures text { self.new ≡ self.old ++ decimal number }
        ensures len { length self.new ≤ length self.old + 8 }
    {
        if number < 10_000 {
            self.push_four_at_most(number);
        } else {
            self.push_four_at_most(number / 10_000);
            self.push_array(&decimal_four(number % 10_000));
        }
    }

    /// Appends eight digits of a number below 100,000,000: zeros in front where it has fewer.
    #[inline(always)]
    fn push_eight(&mut self, number: u32)
        requires number { number < 100_000_000 }
        requires room { length self.old + 8 ≤ CAP }
        ensures text { self.new ≡ self.old ++ eight_digits number }
        ensures len { length self.new ≡ length self.old + 8 }
    {
        self.push_array(&decimal_four(number / 10_000));
        self.push_array(&decimal_four(number % 10_000));
    }

    /// Appends the number in decimal, at most [`WIDE_DECIMAL_DIGITS`] bytes.
    pub fn push_wide_decimal(&mut self, number: u128)
        requires { length self.old + WIDE_DECIMAL_DIGITS ≤ CAP }
        ensures text { self.new ≡ self.old ++ decimal number }
        ensures len { length self.new ≤ length self.old + WIDE_DECIMAL_DIGITS }
    {
        if number <= u64::MAX as u128 {
            self.push_decimal(number as u64);
            return;
        }
        let mut digits = Buffer::new();
        self.push_bytes(digits.format(number).as_bytes());
    }

    /// Appends the number in decimal, a negative one after a minus sign: at most [`SIGNED_DECIMAL_BYTES`] bytes.
    #[inline(always)]
    pub fn push_signed_decimal(&mut self, number: i128)
        requires { length self.old + SIGNED_DECIMAL_BYTES ≤ CAP }
        ensures text { self.new ≡ self.old ++ signed_decimal number }
        ensures len { length self.new ≤ length self.old + SIGNED_DECIMAL_BYTES }
    {
        if 0 <= number && number <= u64::MAX as i128 {
            self.push_decimal(number as u64);
        } else {
            self.push_long_signed(number);
        }
    }

    /// Appends a number in decimal that is negative or has more than 64 bits, or any other.
    fn push_long_signed(&mut self, number: i128)
        requires { length self.old + SIGNED_DECIMAL_BYTES ≤ CAP }
        ensures text { self.new ≡ self.old ++ signed_decimal number }
        ensures len { length self.new ≤ length self.old + SIGNED_DECIMAL_BYTES }
    {
        if number < 0 {
            self.push_bytes(b"-");
        }
        self.push_wide_decimal(number.unsigned_abs());
    }

    /// Appends `n` of its bytes once more, those from `from` on. [`MOST_AGAIN`] are moved, whatever `n` is, since a
    /// move of a length that is known is fast, and the first `n` count.
    #[inline(always)]
    pub fn push_again(&mut self, from: usize, n: usize)
        requires there { from + n ≤ length self.old }
        requires few { n ≤ MOST_AGAIN }
        requires room { length self.old + MOST_AGAIN ≤ CAP }
        ensures text { self.new ≡ self.old ++ take n (drop from self.old) }
        ensures len { length self.new ≡ length self.old + n }
    {
        let more = self.len + n;
        let all = &mut self.bytes[..];
        let moved = Simd::<u8, MOST_AGAIN>::from_slice(&all[from..]);
        moved.copy_to_slice(&mut all[self.len..]);
        self.len = more;
    }

    /// Appends the bytes in hexadecimal, two digits each, in lower case.
    #[inline]
    pub fn push_hex(&mut self, bytes: &[u8])
        requires { length self.old + 2 * length bytes.now ≤ CAP }
        ensures text { self.new ≡ self.old ++ hex_bytes bytes.now }
        ensures len { length self.new ≡ length self.old + 2 * length bytes.now }
    {
        for byte in bytes {
            self.push_array(&hex_pair(*byte));
        }
    }
}
