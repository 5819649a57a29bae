//! The digits of small numbers, in decimal and hexadecimal.

ghost use Rattle.std.specs.Prelude.{◌≡◌, ◌<◌};
ghost use Rattle.mp4_lines.specs.Digits as spec;

/// The most digits of a `u64` in decimal.
pub const DECIMAL_DIGITS: usize = 20;

/// The most digits of a `u128` in decimal.
pub const WIDE_DECIMAL_DIGITS: usize = 39;

/// The most bytes of an `i128` in decimal, with its sign.
pub const SIGNED_DECIMAL_BYTES: usize = 40;

/// The two decimal digits of each number below 100.
static DECIMAL_PAIRS: [u8; 200] = *b"\
    0001020304050607080910111213141516171819\
    2021222324252627282930313233343536373839\
    4041424344454647484950515253545556575859\
    6061626364656667686970717273747576777879\
    8081828384858687888990919293949596979899";

/// The two hexadecimal digits of each byte, in lower case.
static HEX_PAIRS: [u8; 512] = *b"\
    000102030405060708090a0b0c0d0e0f101112131415161718191a1b1c1d1e1f\
    202122232425262728292a2b2c2d2e2f303132333435363738393a3b3c3d3e3f\
    404142434445464748494a4b4c4d4e4f505152535455565758595a5b5c5d5e5f\
    606162636465666768696a6b6c6d6e6f707172737475767778797a7b7c7d7e7f\
    808182838485868788898a8b8c8d8e8f909192939495969798999a9b9c9d9e9f\
    a0a1a2a3a4a5a6a7a8a9aaabacadaeafb0b1b2b3b4b5b6b7b8b9babbbcbdbebf\
    c0c1c2c3c4c5c6c7c8c9cacbcccdcecfd0d1d2d3d4d5d6d7d8d9dadbdcdddedf\
    e0e1e2e3e4e5e6e7e8e9eaebecedeeeff0f1f2f3f4f5f6f7f8f9fafbfcfdfeff";

/// The two decimal digits of a number below 100.
#[inline(always)]
pub(crate) fn decimal_pair(number: u32) -> [u8; 2]
    requires { number < 100 }
    ensures { result ≡ spec.decimal_pair number }
{
    let from = number as usize * 2;
    [DECIMAL_PAIRS[from], DECIMAL_PAIRS[from + 1]]
}

/// The four decimal digits of a number below 10,000.
#[inline(always)]
pub(crate) fn decimal_four(number: u32) -> [u8; 4]
    requires { number < 10_000 }
    ensures { result ≡ spec.decimal_four number }
{
    let high = decimal_pair(number / 100);
    let low = decimal_pair(number % 100);
    [high[0], high[1], low[0], low[1]]
}

/// The two hexadecimal digits of a byte, in lower case.
#[inline(always)]
pub(crate) fn hex_pair(byte: u8) -> [u8; 2]
    ensures { result ≡ spec.hex_pair byte }
{
    let from = byte as usize * 2;
    [HEX_PAIRS[from], HEX_PAIRS[from + 1]]
}
