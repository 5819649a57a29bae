//! Numbers whose digits are kept.

ghost use Rattle.std.specs.Prelude.{◌≡◌, ◌+◌, ◌<◌, ◌^◌, ◌≤◌, ◌++◌, length};
ghost use Rattle.std.specs.Fmt.{decimal};

use crate::digits::{DECIMAL_DIGITS, decimal_four};
use crate::text::Text;
use std::marker::Model;

/// The most digits of a `u64` in decimal before its last four.
const HIGH_DIGITS: usize = 16;

/// A number, and its digits before the last four. Where it grows by little, they stay, and aren't written anew. A
/// contract sees the number.
#[derive(Drop)]
pub struct CachedNumber {
    number: u64,
    /// The number without its last four digits, or 0.
    high: u64,
    digits: Text<HIGH_DIGITS>,
}

impl Model for CachedNumber {
    ghost use Rattle.std.specs.Prelude.{◌≡◌, ◌/◌, ℕ};
    ghost use Rattle.std.specs.Fmt.{decimal};

    ghost Value = { ℕ };

    ghost view = { λ k. k.number };

    ghost invariant = { λ k. (k.high ≡ k.number / 10000) × (k.digits ≡ decimal k.high) };
}

impl CachedNumber {
    /// The number 0.
    pub fn new() -> Self
        ensures { result ≡ 0 }
    {
        let mut digits = Text::new();
        digits.push_four_at_most(0);
        CachedNumber {
            number: 0,
            high: 0,
            digits,
        }
    }

    /// The number.
    #[inline(always)]
    pub fn number(&self) -> u64
        ensures { result ≡ self.now }
    {
        self.number
    }

    /// Takes another number.
    #[inline(always)]
    pub fn set(&mut self, number: u64)
        ensures { self.new ≡ number }
    {
        keep_digits(&mut self.digits, &mut self.high, number / 10_000);
        self.number = number;
    }

    /// Appends it in decimal.
    #[inline(always)]
    pub fn push_to<const CAP: usize>(&self, text: &mut Text<CAP>)
        requires { length text.old + DECIMAL_DIGITS ≤ CAP }
        ensures text { text.new ≡ text.old ++ decimal self.now }
        ensures len { length text.new ≤ length text.old + DECIMAL_DIGITS }
    {
        if self.number < 10_000 {
            text.push_four_at_most(self.number as u32);
        } else {
            text.push_text(&self.digits);
            text.push_array(&decimal_four((self.number - self.high * 10_000) as u32));
        }
    }
}

/// Makes a number another one, and its digits those of that.
#[inline(always)]
fn keep_digits(digits: &mut Text<HIGH_DIGITS>, number: &mut u64, to: u64)
    requires from { digits.old ≡ decimal number.old }
    requires few { to < 10_000_000_000_000_000 }
    ensures digits { digits.new ≡ decimal to }
    ensures number { number.new ≡ to }
{
    if *number != to {
        rewrite_digits(digits, *number, to);
        *number = to;
    }
}

/// Changes the digits of a number to those of another. Where only the last four change, the others stay.
#[inline(never)]
fn rewrite_digits(digits: &mut Text<HIGH_DIGITS>, from: u64, to: u64)
    requires from { digits.old ≡ decimal from }
    requires few { to < 10_000_000_000_000_000 }
    ensures { digits.new ≡ decimal to }
{
    let high = to / 10_000;
    if high != 0 && high == from / 10_000 {
        digits.truncate(digits.len() - 4);
        digits.push_array(&decimal_four((to % 10_000) as u32));
    } else {
        digits.clear();
        digits.push_sixteen_at_most(to);
    }
}
