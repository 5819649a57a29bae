//! Text under construction: bytes, and numbers in decimal and hexadecimal.
//!
//! - [`text`]: [`Text`], which holds up to a number of bytes that its type names, and allocates nothing;
//! - [`cached_number`]: [`CachedNumber`], a number whose digits are kept for when it is written again with others at
//!   its end;
//! - [`digits`]: how many digits numbers have at most, and the digits of small numbers;
//! - [`triples`]: the digits of each number below 1000.
//!
//! Decimals are std's `decimal` and `signed_decimal`. Hexadecimal is defined in `specs/Digits.antt`.
#![tactic(auto)]

pub mod cached_number;
pub mod digits;
pub mod text;
mod triples;

pub use cached_number::CachedNumber;
pub use digits::{DECIMAL_DIGITS, SIGNED_DECIMAL_BYTES, WIDE_DECIMAL_DIGITS};
pub use text::{MOST_AGAIN, Text};
