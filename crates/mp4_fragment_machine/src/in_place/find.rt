//! Finds a box that the input has whole.

ghost use Rattle.std.specs.Prelude.{◌≤◌, IfSome};
ghost use Rattle.mp4_grammar.specs.Kinds.{kind_in};
ghost use Rattle.mp4_machine.specs.Bodies.{longest};
ghost use Rattle.mp4_fragment_machine.specs.Implementation.Feeds.{seen};
ghost use Rattle.mp4_fragment_machine.specs.Implementation.InPlace.{IsFirstBox, IsFoundInPlace};
ghost use Rattle.mp4_fragment_machine.specs.declared.state.State.TheVariants as states;

use crate::in_place::{InPlace, Span};
use crate::state::Carried;
use mp4_box::{Size, header_of};
use mp4_grammar::{Kind, MOST_MOOF, kind_of};
use mp4_machine::is_too_long;

/// Finds what the input has whole at `at`, if no byte of a header came before.
#[inline(always)]
pub(crate) fn find_in_place(at: u64, input: &[u8], carried: &Carried) -> InPlace
    requires at { at ≤ longest }
    ensures { IsFoundInPlace (seen carried.now (states.Header at)) at input.now result }
{
    if !carried.header_bytes.is_empty() {
        return InPlace::No;
    }
    let Some(span) = first_box(at, input) else {
        return InPlace::No;
    };
    match kind_of(span.kind) {
        Kind::Other => InPlace::Other(span),
        Kind::Moof => {
            if span.size > MOST_MOOF || carried.tracks.is_none() {
                return InPlace::No;
            }
            InPlace::Moof(span)
        }
        Kind::Moov | Kind::Mdat => InPlace::No,
    }
}

/// The box at `at`, if it is whole at the front of the bytes and doesn't go past the longest stream.
#[inline(always)]
pub(crate) fn first_box(at: u64, bytes: &[u8]) -> Option<Span>
    requires at { at ≤ longest }
    ensures { IfSome result (λ b. IsFirstBox (kind_in b.kind.0) at bytes.now b) }
{
    let Ok(header) = header_of(bytes) else {
        return None;
    };
    let Size::Exact(size) = header.size else {
        return None;
    };
    if size > bytes.len() as u64 || is_too_long(at, &header) {
        return None;
    }
    Some(Span {
        kind: header.kind,
        header_len: header.header_len,
        size,
    })
}
