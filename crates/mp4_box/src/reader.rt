//! A reader of one header, byte by byte.

ghost use Rattle.std.specs.Prelude.{◌≡◌, ◌+◌, ◌<◌, ◌≤◌, ◌++◌, ◌∷◌, [], ℕ, List, length, ◌↔◌, IsNone, IfSome, IsTrue};
ghost use Rattle.mp4_box.specs.Headers.{Head, need, header_at, kind_field, kind_of};
ghost use Rattle.mp4_box.specs.declared.headers.Header.{Header};
ghost use Rattle.mp4_box.specs.declared.headers.Step.TheVariants.{More, Whole, BadSize};

use crate::fields::array_at;
use crate::headers::{FourCc, Step, read_header};
use arrayvec::ArrayVec;
use std::marker::Model;

/// Takes the header of a box byte by byte.
#[derive(Drop)]
pub struct HeaderReader {
    bytes: ArrayVec<u8, 32>,
}

// A contract sees the bytes that came.
impl Model for HeaderReader {
    ghost Value = { List ℕ };

    ghost view = { λ r. r.bytes.items };
}

impl HeaderReader {
    /// A reader to which no byte has come.
    pub fn new() -> Self
        ensures { result ≡ [] }
    {
        HeaderReader {
            bytes: ArrayVec::new(),
        }
    }

    /// Takes the next byte of the header, which wasn't whole yet, and returns the result of the bytes so far.
    #[tactic(auto, using(crate::proofs::HeaderLemmas::need_more))]
    pub fn feed(&mut self, byte: u8) -> Step
        requires { length self.old < need self.old }
        ensures bytes { self.new ≡ self.old ++ byte ∷ [] }
        ensures whole { (h : Header) → (result ≡ Whole h) ↔ Head h self.new }
        ensures bad_size { (result ≡ BadSize) ↔
            ((length self.new ≡ need self.new) × ((h : Header) → Head h self.new → ⊥)) }
        ensures more { (result ≡ More) ↔ (length self.new < need self.new) }

        // The same, computed.
        ensures computed { result ≡ header_at self.new }
    {
        self.bytes.push(byte);
        step_for(self.bytes.as_slice())
    }

    /// The bytes that came.
    pub fn bytes(&self) -> &[u8]
        ensures { result.now ≡ self.now }
    {
        self.bytes.as_slice()
    }

    /// Whether no byte has come.
    pub fn is_empty(&self) -> bool
        ensures { IsTrue result ↔ (self.now ≡ []) }
    {
        self.bytes.is_empty()
    }

    /// The type of the box, once its eight first bytes came.
    pub fn kind(&self) -> Option<FourCc>
        ensures none { IsNone result ↔ (length self.now < 8) }
        ensures kind { IfSome result (λ kind. kind.0 ≡ kind_field self.now) }
        ensures computed { result ≡ kind_of self.now }
    {
        if self.bytes.len() < 8 {
            return None;
        }
        Some(FourCc(array_at::<4>(self.bytes.as_slice(), 4)))
    }
}

/// The result of a reader after these bytes.
fn step_for(bytes: &[u8]) -> Step
    requires { length bytes.now ≤ need bytes.now }
    ensures whole { (h : Header) → (result ≡ Whole h) ↔ Head h bytes.now }
    ensures bad_size { (result ≡ BadSize) ↔ ((length bytes.now ≡ need bytes.now) ×
        ((h : Header) → Head h bytes.now → ⊥)) }
    ensures more { (result ≡ More) ↔ (length bytes.now < need bytes.now) }
    ensures computed { result ≡ header_at bytes.now }
{
    read_header(bytes)
}
