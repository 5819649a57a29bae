//! Takes the header after a moof, and begins the fragment of the moof.

ghost use Rattle.std.specs.Prelude.{◌≡◌, ◌<◌, [], ℕ, List, Ok, Option, Some, length};
ghost use Rattle.mp4_box.specs.Headers.{need};
ghost use Rattle.mp4_init.specs.declared.table.Track.{Track};
ghost use Rattle.mp4_machine.specs.Readings.{fault_in};
ghost use Rattle.mp4_grammar.specs.Contexts.{context};
ghost use Rattle.mp4_grammar.specs.Meanings.{Meaning};
ghost use Rattle.mp4_fragment_machine.specs.Places.{InMdatHeader, continuation_at};
ghost use Rattle.mp4_fragment_machine.specs.States.{IsPendingMoof, known};
ghost use Rattle.mp4_fragment_machine.specs.Implementation.Steps.{Consumes, MayTake, borrowed};
ghost use Rattle.mp4_fragment_machine.specs.declared.state.State.TheVariants as states;

use crate::mdat::accept_list::accept_listed;
use crate::mdat::accept_recut::accept_recut;
use crate::pending_moof::{PendingMoof, back};
use crate::state::{Carried, State, Taken};
use mp4_box::types::MOOF;
use mp4_box::{Fault, HeaderReader, Rule};
use mp4_ends::Sink;
use mp4_ledger::Ledger;
use mp4_machine::{Block, HeaderStatus, Stop, at_fault, next_header, truncated};
use mp4_recut::Operation;

/// Takes bytes of the header after the pending moof from the front of the input, and begins its fragment once the
/// header is whole. The moof and its list are given back where that is refused.
///
/// # Errors
///
/// `Stream` where no header begins with the bytes that came, that box may not follow, or the runs of the moof don't lie
/// in it; `Write` where a write failed.
pub(crate) fn take_mdat_header<W: Sink>(
    pending_moof: PendingMoof,
    input: &[u8],
    carried: &mut Carried,
    ledger: &mut Ledger,
    out: &mut Block,
    w: &mut W,
) -> Result<Taken, Stop>
    requires { MayTake input.now carried.old ledger.old (states.MdatHeader pending_moof) }
    ensures { Consumes (borrowed W.contents W.has_failed w.old w.new out.old out.new ledger.old ledger.new)
        carried.old carried.new (states.MdatHeader pending_moof) input.now result }
{
    match next_header(&mut carried.header_bytes, input) {
        HeaderStatus::More { count } => wait_on(pending_moof, count),
        HeaderStatus::BadSize { kind } => {
            let at = pending_moof.moof.offset() + pending_moof.moof.size();
            back(Some(pending_moof), ledger);
            Err(at_fault(Rule::BadSize, kind, at))
        }
        HeaderStatus::Complete {
            header,
            bytes: _,
            count,
        } => {
            let begun = match carried.operation {
                Operation::List(command) => {
                    accept_listed(command, pending_moof, &header, carried, ledger, out, w)
                }
                Operation::Split(cut) => {
                    accept_recut(pending_moof, &header, cut, carried, ledger, out, w)
                }
            };
            match begun {
                Ok(state) => Ok(Taken { count, state }),
                Err(stop) => Err(stop),
            }
        }
    }
}

/// The state where so many bytes of the header were taken, and more must come.
// Its room is no part of the frame of its caller, which takes most headers as a whole.
#[inline(never)]
fn wait_on(pending_moof: PendingMoof, count: usize) -> Result<Taken, Stop>
    ensures { result ≡ Ok (record { count = count; state = states.MdatHeader pending_moof }) }
{
    Ok(Taken {
        count,
        state: State::MdatHeader(pending_moof),
    })
}

/// The stream ended after the pending moof and these bytes of a header.
pub(crate) fn unfollowed(pending_moof: &PendingMoof, header_bytes: &HeaderReader) -> Fault
    requires { (tracks : Option (List Track)) × (length header_bytes.now < need header_bytes.now) ×
        IsPendingMoof tracks pending_moof.now }
    ensures { (meaning : Meaning) (number : ℕ) (tracks : Option (List Track)) → IsPendingMoof tracks pending_moof.now →
        fault_in ((continuation_at meaning (InMdatHeader (context pending_moof.now.moof.at tracks number)
        (known tracks) pending_moof.now.moof.bytes header_bytes.now)).reads []).outcome ≡ Some result }
{
    if header_bytes.is_empty() {
        return Fault {
            rule: Rule::MdatMissing,
            kind: Some(MOOF),
            offset: pending_moof.moof.offset(),
        };
    }
    truncated(
        header_bytes.kind(),
        pending_moof.moof.offset() + pending_moof.moof.size(),
    )
}
