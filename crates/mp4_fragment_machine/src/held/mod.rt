//! Holds a moov or moof until it is whole, and reads it then.

ghost use Rattle.std.specs.Prelude.{◌≡◌, ◌+◌, ◌≤◌, []};
ghost use Rattle.mp4_machine.specs.Bodies.{longest};
ghost use Rattle.mp4_machine.specs.Buffering.{Begins};
ghost use Rattle.mp4_fragment_machine.specs.Implementation.Steps.{Advances, CanStep, borrowed};
ghost use Rattle.mp4_fragment_machine.specs.declared.state.State.TheVariants as states;

pub(crate) mod moof;
pub(crate) mod moov;

use crate::held::moof::accept_moof;
use crate::held::moov::take_moov;
use crate::state::{Carried, State};
use mp4_ends::Sink;
use mp4_ledger::Ledger;
use mp4_machine::{Block, BufferedBox, Stop};

/// The state after these bytes of a moov or moof: once it is whole, a moov's tracks are read, and a moof is kept
/// for its mdat.
///
/// # Errors
///
/// As [`take_moov`] and [`accept_moof`]: the box is given back then.
pub(crate) fn hold<W: Sink>(
    buffered: BufferedBox,
    carried: &mut Carried,
    ledger: &mut Ledger,
    out: &mut Block,
    w: &mut W,
) -> Result<State, Stop>
    requires begins { Begins buffered.size buffered.bytes }
    requires near { buffered.at + buffered.size ≤ longest }
    requires empty { carried.old.header_bytes ≡ [] }
    requires can { CanStep carried.old ledger.old (states.Buffering buffered) }
    ensures { Advances (borrowed W.contents W.has_failed w.old w.new out.old out.new ledger.old ledger.new)
        carried.old carried.new (states.Buffering buffered) result }
{
    if !buffered.is_whole() {
        return Ok(State::Buffering(buffered));
    }
    match carried.tracks {
        None => take_moov(buffered, carried, ledger, out, w),
        Some(_) => match accept_moof(buffered, None, carried, ledger) {
            Ok(pending_moof) => Ok(State::MdatHeader(pending_moof)),
            Err(stop) => Err(stop),
        },
    }
}
