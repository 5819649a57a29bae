//! A moov of which all bytes came.

ghost use Rattle.std.specs.Prelude.{◌≡◌, ◌+◌, ◌≤◌, ◌^◌, [], length, None, Some};
ghost use Rattle.mp4_box.specs.Headers.{IsWhole};
ghost use Rattle.mp4_init.specs.Moovs.{moov_tracks};
ghost use Rattle.mp4_machine.specs.Ends.{sent};
ghost use Rattle.mp4_machine.specs.Puts.{Puts};
ghost use Rattle.mp4_machine.specs.Bodies.{longest};
ghost use Rattle.mp4_machine.specs.Buffering.{Begins};
ghost use Rattle.mp4_recut.specs.Operations.{operation_meaning};
ghost use Rattle.mp4_fragment_machine.specs.Implementation.Steps.{Advances, CanStep, borrowed};
ghost use Rattle.mp4_fragment_machine.specs.Implementation.Stops.{stop_of};
ghost use Rattle.mp4_fragment_machine.specs.declared.state.State.TheVariants as states;

use crate::mdat::track_lines::put_track_lines;
use crate::state::{Carried, State};
use mp4_box::whole_box;
use mp4_ends::{Failed, Sink};
use mp4_grammar::Command;
use mp4_init::{InitStop, TrackList, tracks};
use mp4_ledger::Ledger;
use mp4_machine::{Block, BufferedBox, Stop};
use mp4_recut::Operation;
use std::mem::replace;

/// Reads the tracks of a moov, puts the moov into the block if it is written, and gives it back. Returns the next
/// state.
///
/// # Errors
///
/// `Stream` where it is at fault; `OverLimit` or `Memory` where the claim of the table is refused; `Write` where a
/// write failed.
// It is a call of its own so that its room is no part of the frame of its caller, which handles every box.
#[inline(never)]
pub(crate) fn take_moov<W: Sink>(
    buffered: BufferedBox,
    carried: &mut Carried,
    ledger: &mut Ledger,
    out: &mut Block,
    w: &mut W,
) -> Result<State, Stop>
    requires none { carried.old.tracks ≡ None }
    requires begins { Begins buffered.size buffered.bytes }
    requires near { buffered.at + buffered.size ≤ longest }
    requires whole { length buffered.bytes ≡ buffered.size }
    requires empty { carried.old.header_bytes ≡ [] }
    requires can { CanStep carried.old ledger.old (states.Buffering buffered) }
    ensures { Advances (borrowed W.contents W.has_failed w.old w.new out.old out.new ledger.old ledger.new)
        carried.old carried.new (states.Buffering buffered) result }
{
    let list = match tracks(ledger, buffered.bytes(), buffered.offset()) {
        Ok(list) => list,
        Err(why) => {
            buffered.back(ledger);
            return Err(stop_of(why));
        }
    };
    let at = buffered.offset() + buffered.size();
    match put_moov(carried.operation, buffered.bytes(), &list, out, w) {
        Ok(()) => {
            buffered.back(ledger);
            put_tracks(&mut carried.tracks, list);
            Ok(State::Header { at })
        }
        Err(Failed) => {
            buffered.back(ledger);
            list.back(ledger);
            Err(Stop::Write)
        }
    }
}

/// Puts the tracks where there are none.
fn put_tracks(tracks: &mut Option<TrackList>, list: TrackList)
    requires { tracks.old ≡ None }
    ensures { tracks.new ≡ Some list }
{
    match replace(tracks, Some(list)) {
        None => {}
        Some(_) => unreachable!(),
    }
}

/// Puts what is written of a moov into the block: the lines of its tracks, or the moov itself.
///
/// # Errors
///
/// `Failed` where a write failed.
fn put_moov<W: Sink>(
    operation: Operation,
    moov: &[u8],
    list: &TrackList,
    out: &mut Block,
    w: &mut W,
) -> Result<(), Failed>
    requires whole { IsWhole moov.now }
    requires room { length moov.now ≤ 2 ^ 62 }
    requires list { list.now ≡ moov_tracks 0 moov.now }
    ensures { Puts (sent W.contents W.has_failed w.old w.new) out.old out.new
        ((operation_meaning operation).of_moov moov.now) result }
{
    match operation {
        Operation::List(Command::Fragments) => {
            put_track_lines(&whole_box(moov, 0), list, out, w)
        }
        Operation::List(Command::Samples)
        | Operation::List(Command::Records)
        | Operation::List(Command::Check) => Ok(()),
        Operation::Split(_) => out.put(w, moov),
    }
}

/// The stop at a moov whose tracks can't be read.
fn stop_of(why: InitStop) -> Stop
    ensures { result ≡ stop_of why }
{
    match why {
        InitStop::Fault(fault) => Stop::Stream(fault),
        InitStop::Refused(refused) => Stop::of_refusal(refused),
    }
}
