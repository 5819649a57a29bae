//! The header of a box (ISO/IEC 14496-12, 4.2).

ghost use Rattle.std.specs.Prelude.{◌≡◌, ◌+◌, ◌<◌, ◌≤◌, ◌↔◌, ◌⊎◌, ℕ, length, map, take, Ok, Err, IfOk, IfErr};
ghost use Rattle.std.specs.Str.{bytes_eq};
ghost use Rattle.mp4_box.specs.Headers.{BeginsWith, HasRoom, IfWhole, has_user, header_at, need, result_of};
ghost use Rattle.mp4_box.specs.Shown.{shown_byte};
ghost use Rattle.mp4_box.specs.declared.headers.Header.{Header};
ghost use Rattle.mp4_box.specs.declared.headers.Step.TheVariants.{Whole};
ghost use Rattle.mp4_box.specs.declared.rules.Rule.TheVariants.{Truncated, BadSize};

use crate::fields::{array_at, u32_at, u64_at};
use crate::rules::Rule;

/// The type of a box: four bytes, mostly letters.
#[derive(Clone, Copy, Debug, PartialEq, Eq)]
pub struct FourCc(pub [u8; 4]);

impl FourCc {
    /// Whether it is this type.
    #[inline]
    pub fn is(self, kind: FourCc) -> bool
        ensures { result ≡ bytes_eq self.0 kind.0 }
    {
        // One comparison of numbers.
        u32::from_be_bytes(self.0) == u32::from_be_bytes(kind.0)
    }

    /// The type as it is printed: a byte that is no printing ASCII character is shown as `?`.
    pub fn shown(self) -> [u8; 4]
        ensures { result ≡ map shown_byte self.0 }
    {
        let [a, b, c, d] = self.0;
        [shown(a), shown(b), shown(c), shown(d)]
    }
}

fn shown(byte: u8) -> u8
    ensures { result ≡ shown_byte byte }
{
    match byte {
        b' '..=b'~' => byte,
        _ => b'?',
    }
}

/// The size that a box states, in bytes and with its header.
#[derive(Clone, Copy, Debug, PartialEq, Eq)]
pub enum Size {
    /// So many bytes.
    Exact(u64),
    /// All bytes to the end of the stream.
    ToEnd,
}

/// The header of a box.
#[derive(Clone, Copy, Debug, PartialEq, Eq)]
pub struct Header {
    /// The type.
    pub kind: FourCc,
    /// The user type, which a box of the type `uuid` has.
    pub user: Option<[u8; 16]>,
    /// The size of the box.
    pub size: Size,
    /// The length of the header itself in bytes: 8, 16, 24 or 32.
    pub header_len: u64,
}

/// Result of reading the first bytes of a box.
#[derive(Clone, Copy, Debug, PartialEq, Eq)]
pub enum Step {
    /// They are fewer than the header needs.
    More,
    /// They begin with this header.
    Whole(Header),
    /// They begin with a header whose size has no room for the header itself.
    BadSize,
}

/// Whether the header has a user type.
fn has_user_type(bytes: &[u8]) -> bool
    requires { 8 ≤ length bytes.now }
    ensures { result ≡ has_user bytes.now }
{
    array_at::<4>(bytes, 4) == *b"uuid"
}

/// How many bytes the header has that begins with these.
fn need_of(bytes: &[u8]) -> usize
    ensures { result ≡ need bytes.now }
{
    if bytes.len() < 8 {
        return 8;
    }
    let long = if u32_at(bytes, 0) == 1 { 8 } else { 0 };
    let user = if has_user_type(bytes) { 16 } else { 0 };
    8 + long + user
}

/// Reads these first bytes of a box.
#[tactic(auto, unfolding(crate::specs::Headers::header_at))]
pub(crate) fn read_header(bytes: &[u8]) -> Step
    ensures exact { result ≡ header_at bytes.now }
    ensures room { IfWhole result (λ h. HasRoom h.size h.header_len) }
    ensures within { IfWhole result (λ h. (8 ≤ h.header_len) × (h.header_len ≤ length bytes.now)) }
{
    let header_len = need_of(bytes);
    if bytes.len() < header_len {
        return Step::More;
    }
    let kind = FourCc(array_at::<4>(bytes, 4));
    let user = if has_user_type(bytes) {
        Some(array_at::<16>(bytes, header_len - 16))
    } else {
        None
    };
    let field = u32_at(bytes, 0);
    let size = if field == 1 {
        u64_at(bytes, 8)
    } else {
        u64::from(field)
    };
    let header_len = header_len as u64;
    if field == 0 {
        return Step::Whole(Header {
            kind,
            user,
            size: Size::ToEnd,
            header_len,
        });
    }
    if size < header_len {
        return Step::BadSize;
    }
    Step::Whole(Header {
        kind,
        user,
        size: Size::Exact(size),
        header_len,
    })
}

/// The header that these bytes begin with.
///
/// # Errors
///
/// `Truncated` where they are fewer than the header needs, `BadSize` where its size has no room for the
/// header itself.
pub fn header_of(bytes: &[u8]) -> Result<Header, Rule>
    ensures whole { (h : Header) → (result ≡ Ok h) ↔ BeginsWith h bytes.now }
    ensures truncated { (result ≡ Err Truncated) ↔ (length bytes.now < need bytes.now) }
    ensures err { IfErr result (λ rule. (rule ≡ Truncated) ⊎ (rule ≡ BadSize)) }

    // The same, computed.
    ensures computed { result ≡ result_of (header_at bytes.now) }
    ensures within { IfOk result (λ h. (8 ≤ h.header_len) × (h.header_len ≤ length bytes.now)) }
    ensures room { IfOk result (λ h. HasRoom h.size h.header_len) }
{
    match read_header(bytes) {
        Step::Whole(header) => Ok(header),
        Step::More => Err(Rule::Truncated),
        Step::BadSize => Err(Rule::BadSize),
    }
}
