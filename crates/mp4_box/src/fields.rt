//! The fields of payloads, big-endian (ISO/IEC 14496-12, 4.2).

ghost use Rattle.std.specs.Prelude.{◌≡◌, ◌+◌, ◌<◌, ◌≤◌, ◌↔◌, length, drop, take, IsNone, IfSome, slice_index};
ghost use Rattle.byteorder.specs.Endian.{big_number, twos_complement};
ghost use Rattle.mp4_box.specs.Fields.{long_number_in, number_in, version_in};

use byteorder::{BigEndian, ByteOrder};

/// The unsigned number in the four bytes at `at`.
pub fn u32_at(bytes: &[u8], at: usize) -> u32
    requires { at + 4 ≤ length bytes.now }
    ensures { result ≡ big_number 4 (drop at bytes.now) }
{
    BigEndian::read_u32(&bytes[at..])
}

/// The unsigned number in the eight bytes at `at`.
pub fn u64_at(bytes: &[u8], at: usize) -> u64
    requires { at + 8 ≤ length bytes.now }
    ensures { result ≡ big_number 8 (drop at bytes.now) }
{
    BigEndian::read_u64(&bytes[at..])
}

/// The signed number in the four bytes at `at`, in two's complement.
pub fn i32_at(bytes: &[u8], at: usize) -> i32
    requires { at + 4 ≤ length bytes.now }
    ensures { result ≡ twos_complement 4 (big_number 4 (drop at bytes.now)) }
{
    BigEndian::read_i32(&bytes[at..])
}

/// The version and the flags that a full box's payload begins with (8 and 24 bits); none where it is too
/// short for them.
pub fn full(payload: &[u8]) -> Option<(u8, u32)>
    ensures none { IsNone result ↔ (length payload.now < 4) }
    ensures version { IfSome result (λ f. f.0 ≡ slice_index payload.now 0) }
    ensures flags { IfSome result (λ f. f.1 ≡ big_number 3 (drop 1 payload.now)) }
{
    if payload.len() < 4 {
        return None;
    }
    Some((payload[0], BigEndian::read_u24(&payload[1..])))
}

/// The version that a full box's payload begins with, 0 where it is empty.
pub fn version_of(payload: &[u8]) -> u8
    ensures { result ≡ version_in payload.now }
{
    if payload.is_empty() { 0 } else { payload[0] }
}

/// The unsigned number in the four bytes at `at`, 0 where they aren't all there.
pub fn number_at(payload: &[u8], at: u32) -> u32
    ensures { result ≡ number_in payload.now at }
{
    let at = at as usize;
    if payload.len() < at + 4 {
        return 0;
    }
    u32_at(payload, at)
}

/// The unsigned number in the eight bytes at `at`, 0 where they aren't all there.
pub fn long_number_at(payload: &[u8], at: u32) -> u64
    ensures { result ≡ long_number_in payload.now at }
{
    let at = at as usize;
    if payload.len() < at + 8 {
        return 0;
    }
    u64_at(payload, at)
}

/// The `N` bytes at `at`.
pub fn array_at<const N: usize>(bytes: &[u8], at: usize) -> [u8; N]
    requires { at + N ≤ length bytes.now }
    ensures { result ≡ take N (drop at bytes.now) }
{
    let mut found = [0; N];
    found.copy_from_slice(&bytes[at..at + N]);
    found
}
