//! The box after a moof, which must be an mdat.

ghost use Rattle.std.specs.Prelude.{◌≡◌, ℕ, ◌+◌, ◌-◌, ◌<◌, ◌≤◌, ◌++◌, List, length, Some, None, IfErr, OnOk};
ghost use Rattle.mp4_box.specs.Headers.{HasRoom, header_at, need};
ghost use Rattle.mp4_frag.specs.Moofs.{moof_runs};
ghost use Rattle.mp4_frag.specs.Places.{place_fault};
ghost use Rattle.mp4_grammar.specs.Contexts.{context};
ghost use Rattle.mp4_grammar.specs.Items.{after_moof, end_of, faulty, fragment};
ghost use Rattle.mp4_grammar.specs.Kinds.{kind_in, moof};
ghost use Rattle.mp4_grammar.specs.Meanings.{Meaning};
ghost use Rattle.mp4_grammar.specs.declared.kinds.Kind.TheVariants.{Mdat};
ghost use Rattle.mp4_machine.specs.Bodies.{fault, least_end, longest};
ghost use Rattle.mp4_fragment_machine.specs.States.{IsPendingMoof, moof_in};
ghost use Rattle.mp4_box.specs.declared.headers.Step.TheVariants as steps;

use crate::pending_moof::PendingMoof;
use mp4_box::types::MOOF;
use mp4_box::{Fault, Header, Rule, Size};
use mp4_frag::Payload;
use mp4_grammar::{Kind, kind_of};
use mp4_init::TrackList;
use mp4_machine::is_too_long;

/// Checks the box with this header after the pending moof, and where the runs of the moof lie in it.
///
/// # Errors
///
/// `StreamTooLong` where it goes too far, `MdatMissing` where it is no mdat, `RunPlace` where a run may not lie where
/// it does.
#[inline]
pub(crate) fn check_mdat(
    pending_moof: &PendingMoof,
    header: &Header,
    tracks: &TrackList,
) -> Result<(), Fault>
    requires pending_moof { IsPendingMoof (Some tracks.now) pending_moof.now }
    requires room { HasRoom header.now.size header.now.header_len }
    ensures near { OnOk result (least_end (pending_moof.now.moof.at + pending_moof.now.moof.size)
        header.now header.now.size ≤ longest) }
    ensures mdat { OnOk result (kind_in header.now.kind.0 ≡ Mdat) }
    ensures good { OnOk result ((number : ℕ) → place_fault
        (fragment (context pending_moof.now.moof.at (Some tracks.now) number) tracks.now
        pending_moof.now.moof.bytes header.now).payload
        (moof_runs (moof_in pending_moof.now) tracks.now) ≡ None) }
    ensures fault { IfErr result (λ f. (meaning : Meaning) (number : ℕ) (x later : List ℕ) →
        length x ≡ need x → header_at x ≡ steps.Whole header.now →
        after_moof meaning (context pending_moof.now.moof.at (Some tracks.now) number) tracks.now
        pending_moof.now.moof.bytes (x ++ later) ≡ faulty f) }
{
    let at = pending_moof.moof.offset();
    let next = at + pending_moof.moof.size();
    if is_too_long(next, header) {
        return Err(Fault {
            rule: Rule::StreamTooLong,
            kind: Some(header.kind),
            offset: next,
        });
    }
    match kind_of(header.kind) {
        Kind::Mdat => {
            let payload = payload_of(next, header);
            let moof = pending_moof.moof();
            match moof.places(payload, &pending_moof.runs) {
                Ok(()) => Ok(()),
                Err(fault) => Err(fault),
            }
        }
        _ => Err(Fault {
            rule: Rule::MdatMissing,
            kind: Some(MOOF),
            offset: at,
        }),
    }
}

/// The payload of the mdat at `at`.
pub(crate) fn payload_of(at: u64, header: &Header) -> Payload
    requires room { HasRoom header.now.size header.now.header_len }
    requires end { least_end at header.now header.now.size ≤ longest }
    ensures start { result.start ≡ at + header.now.header_len }
    ensures end { result.end ≡ end_of at header.now.size }
{
    let end = match header.size {
        Size::Exact(size) => Some(at + size),
        Size::ToEnd => None,
    };
    Payload {
        start: at + header.header_len,
        end,
    }
}
