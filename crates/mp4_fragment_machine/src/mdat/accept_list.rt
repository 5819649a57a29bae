//! Begins a fragment that is counted, or whose samples or trafs are listed.

ghost use Rattle.std.specs.Prelude.{ℕ, List};
ghost use Rattle.mp4_fragment_machine.specs.Implementation.Steps.{Advances, MayBeginFragment, borrowed, with_head};
ghost use Rattle.mp4_recut.specs.declared.operation.Operation.TheVariants as operations;
ghost use Rattle.mp4_fragment_machine.specs.declared.state.State.TheVariants as states;

use crate::mdat::check::check_mdat;
use crate::mdat::end::end_fragment;
use crate::mdat::list::emit;
use crate::pending_moof::{PendingMoof, back};
use crate::state::{Carried, State};
use mp4_box::Header;
use mp4_ends::{Failed, Sink};
use mp4_grammar::Command;
use mp4_ledger::Ledger;
use mp4_machine::{AnyBody, Block, Stop, body_of};

/// Counts or lists the fragment of the pending moof, followed by the box with this header. Returns the next state. The
/// moof and its list are given back where it is refused.
///
/// # Errors
///
/// `Stream` where that box may not follow, or the runs of the moof don't lie in it; `Write` where a write failed.
pub(crate) fn accept_listed<W: Sink>(
    command: Command,
    pending_moof: PendingMoof,
    header: &Header,
    carried: &mut Carried,
    ledger: &mut Ledger,
    out: &mut Block,
    w: &mut W,
) -> Result<State, Stop>
    requires { (header_bytes : List ℕ) × MayBeginFragment (operations.List command) carried.old ledger.old
        pending_moof header.now header_bytes }
    ensures { (header_bytes : List ℕ) → MayBeginFragment (operations.List command) carried.old ledger.old
        pending_moof header.now header_bytes →
        Advances (borrowed W.contents W.has_failed w.old w.new out.old out.new ledger.old ledger.new)
        (with_head header_bytes carried.old) carried.new (states.MdatHeader pending_moof) result }
{
    let Some(list) = &mut carried.tracks else {
        unreachable!();
    };
    match check_mdat(&pending_moof, header, list) {
        Ok(()) => {}
        Err(fault) => {
            back(Some(pending_moof), ledger);
            return Err(Stop::Stream(fault));
        }
    }
    let at = pending_moof.moof.offset() + pending_moof.moof.size();
    match emit(
        command,
        &pending_moof,
        header,
        list,
        &mut carried.counter,
        out,
        w,
    ) {
        Ok(needed) => match body_of(at, header, needed) {
            AnyBody::Empty { next } => {
                end_fragment(pending_moof, list, ledger, &mut carried.counter);
                Ok(State::Header { at: next })
            }
            AnyBody::Bytes(body) => Ok(State::Body(body, Some(pending_moof))),
        },
        Err(Failed) => {
            back(Some(pending_moof), ledger);
            Err(Stop::Write)
        }
    }
}
