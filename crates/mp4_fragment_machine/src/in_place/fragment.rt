//! The boxes of a fragment that the input has whole.

ghost use Rattle.std.specs.Prelude.{◌≡◌, ℕ, ◌+◌, ◌≤◌, List, IfSome, length, take};
ghost use Rattle.mp4_grammar.specs.Kinds.{most_moof};
ghost use Rattle.mp4_grammar.specs.declared.kinds.Kind.TheVariants.{Moof};
ghost use Rattle.mp4_fragment_machine.specs.Implementation.InPlace.{AreBoxes, IsFirstBox, payload_in};

use crate::in_place::find::first_box;
use crate::in_place::{Boxes, ROW, Span};
use mp4_frag::Payload;
use mp4_grammar::{Kind, kind_of};
use mp4_ledger::Ledger;

/// The boxes of the fragment at `at`, whose moof is whole at the front of the input, if the input has all of its
/// mdat too, and its moof and a row of a list may be claimed.
#[inline(always)]
pub(crate) fn boxes_in<'a>(
    at: u64,
    moof: &Span,
    input: &'a [u8],
    ledger: &Ledger,
) -> Option<Boxes<'a>>
    requires moof { IsFirstBox Moof at input.now moof.now }
    requires most { moof.now.size ≤ most_moof }
    ensures are { IfSome result (λ b. AreBoxes at input.now b) }
    ensures bytes { IfSome result (λ b. b.moof.now ≡ take moof.now.size input.now) }
    ensures room { IfSome result (λ b.
        ledger.now.live + (length b.moof.now + 64) ≤ ledger.now.limit) }
{
    if moof.size + ROW > ledger.limit() - ledger.live() {
        return None;
    }
    let (bytes, after) = input.split_at(moof.size as usize);
    let Some(mdat) = first_box(at + moof.size, after) else {
        return None;
    };
    match kind_of(mdat.kind) {
        Kind::Mdat => Some(Boxes { moof: bytes, mdat }),
        Kind::Moov | Kind::Moof | Kind::Other => None,
    }
}

/// The payload of the mdat of a fragment at `at`.
#[inline(always)]
pub(crate) fn payload_after(at: u64, boxes: &Boxes<'_>) -> Payload
    requires { (input : List ℕ) × AreBoxes at input boxes.now }
    ensures { (input : List ℕ) (are : AreBoxes at input boxes.now) →
        result ≡ payload_in (at + are.span.size) boxes.now.mdat }
{
    let next = at + boxes.moof.len() as u64;
    Payload {
        start: next + boxes.mdat.header_len,
        end: Some(next + boxes.mdat.size),
    }
}
