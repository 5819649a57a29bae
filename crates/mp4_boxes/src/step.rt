//! Takes bytes, by the state of a machine.

ghost use Rattle.std.specs.Prelude.{◌≡◌, ◌<◌, ◌≤◌, [], length};
ghost use Rattle.mp4_ledger.specs.Memory.{given_back};
ghost use Rattle.mp4_machine.specs.Ends.{sent};
ghost use Rattle.mp4_boxes.specs.States.{IsState, change, continuation_at};
ghost use Rattle.mp4_boxes.specs.Steps.{Consumes};

use crate::body::take_body;
use crate::buffered_box::take_held;
use crate::header::take_header;
use crate::state::{State, Taken};
use mp4_box::HeaderReader;
use mp4_ends::Sink;
use mp4_ledger::Ledger;
use mp4_machine::{Block, Stop};

/// Takes bytes from the front of the input. At a stop everything is given back.
///
/// # Errors
///
/// As [`take_header`], [`take_held`] and [`take_body`].
#[inline(always)]
pub(crate) fn take_next<W: Sink>(
    state: State,
    input: &[u8],
    header_bytes: &mut HeaderReader,
    ledger: &mut Ledger,
    out: &mut Block,
    w: &mut W,
) -> Result<Taken, Stop>
    requires some { 0 < length input.now }
    requires state { IsState header_bytes.old state }
    requires claim { (continuation_at header_bytes.old state).claim ≤ ledger.old.live }
    ensures { Consumes (change (sent W.contents W.has_failed w.old w.new)
        out.old out.new ledger.old ledger.new) header_bytes.old header_bytes.new state input.now result }
{
    match state {
        State::Header { at } => take_header(at, input, header_bytes, ledger, out, w),
        State::Buffering(buffered) => take_held(buffered, input, ledger, out, w),
        State::Body(body) => take_body(body, input),
    }
}

/// Gives back what is held.
pub(crate) fn back_state(state: State, ledger: &mut Ledger)
    requires { (continuation_at [] state).claim ≤ ledger.old.live }
    ensures { ledger.new ≡ given_back ledger.old (continuation_at [] state).claim }
{
    match state {
        State::Header { at } => {
            let _ = at;
        }
        State::Buffering(buffered) => buffered.back(ledger),
        State::Body(_) => {}
    }
}
