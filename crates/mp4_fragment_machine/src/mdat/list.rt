//! Counts a fragment, and lists its samples or its trafs.

ghost use Rattle.std.specs.Prelude.{◌≡◌, ◌+◌, ◌<◌, ◌≤◌, None, Some, IfOk};
ghost use Rattle.mp4_box.specs.Headers.{HasRoom};
ghost use Rattle.mp4_frag.specs.Moofs.{moof_samples};
ghost use Rattle.mp4_grammar.specs.Commands.{accepted, command_meaning};
ghost use Rattle.mp4_grammar.specs.Meanings.{counted_in, fragment_fault, needed_in};
ghost use Rattle.mp4_machine.specs.Ends.{sent};
ghost use Rattle.mp4_machine.specs.Puts.{Puts};
ghost use Rattle.mp4_machine.specs.Bodies.{least_end, longest};
ghost use Rattle.mp4_machine.specs.Readings.{plus};
ghost use Rattle.mp4_fragment_machine.specs.States.{IsCounted, IsPendingMoof, bound_after, listed_by, moof_in, pending_fragment};
ghost use Rattle.mp4_recut.specs.declared.operation.Operation.TheVariants as operations;

use crate::counter::{Counter, accept};
use crate::mdat::check::payload_of;
use crate::mdat::sample_lines::put_runs;
use crate::mdat::totals::add_up_runs;
use crate::mdat::traf_lines::{put_moof_lines, size_of};
use crate::pending_moof::PendingMoof;
use mp4_box::Header;
use mp4_ends::{Failed, Sink};
use mp4_grammar::Command;
use mp4_init::TrackList;
use mp4_machine::Block;

/// Counts the fragment of the pending moof, whose mdat has this header, and puts the lines of its samples or of its
/// trafs if they are asked for. Returns how many bytes of its payload are needed.
///
/// # Errors
///
/// `Failed` where a write failed.
pub(crate) fn emit<W: Sink>(
    command: Command,
    pending_moof: &PendingMoof,
    header: &Header,
    tracks: &TrackList,
    counter: &mut Counter,
    out: &mut Block,
    w: &mut W,
) -> Result<u64, Failed>
    requires pending_moof { IsPendingMoof (Some tracks.now) pending_moof.now }
    requires some { 0 < header.now.header_len }
    requires room { HasRoom header.now.size header.now.header_len }
    requires near { least_end (pending_moof.now.moof.at + pending_moof.now.moof.size)
        header.now header.now.size ≤ longest }
    requires good { fragment_fault (command_meaning command)
        (pending_fragment 1 pending_moof.now tracks.now header.now) ≡ None }
    requires counted { IsCounted (operations.List command) counter.old
        (pending_moof.now.moof.at + pending_moof.now.moof.size)
        (moof_samples (moof_in pending_moof.now)) (moof_samples (moof_in pending_moof.now)) }
    ensures needed { IfOk result (λ n.
        n ≡ needed_in (pending_fragment 1 pending_moof.now tracks.now header.now)) }
    ensures puts { Puts (sent W.contents W.has_failed w.old w.new) out.old out.new
        (accepted command (pending_fragment 1 pending_moof.now tracks.now header.now)).text result }
    ensures tally { counter.new.tally ≡ plus counter.old.tally
        (counted_in (pending_fragment 1 pending_moof.now tracks.now header.now)) }
    ensures rows_read { counter.new.steps.rows ≡
        counter.old.steps.rows + listed_by (operations.List command) (moof_samples (moof_in pending_moof.now)) }
    ensures counted { IsCounted (operations.List command) counter.new (bound_after
        (pending_moof.now.moof.at + pending_moof.now.moof.size) header.now.size)
        0 (moof_samples (moof_in pending_moof.now)) }
{
    let next = pending_moof.moof.offset() + pending_moof.moof.size();
    let totals = add_up_runs(pending_moof, payload_of(next, header), tracks);
    accept(counter, command, totals.samples, totals.bytes);
    match put_pending(command, pending_moof, header, tracks, out, w) {
        Ok(()) => Ok(totals.needed),
        Err(Failed) => Err(Failed),
    }
}

/// Puts the lines of the samples of the pending moof, whose mdat has this header, or of its trafs, or their records, if
/// they are asked for.
///
/// # Errors
///
/// `Failed` where a write failed.
#[inline(always)]
fn put_pending<W: Sink>(
    command: Command,
    pending_moof: &PendingMoof,
    header: &Header,
    tracks: &TrackList,
    out: &mut Block,
    w: &mut W,
) -> Result<(), Failed>
    requires pending_moof { IsPendingMoof (Some tracks.now) pending_moof.now }
    requires near { least_end (pending_moof.now.moof.at + pending_moof.now.moof.size)
        header.now header.now.size ≤ longest }
    ensures { Puts (sent W.contents W.has_failed w.old w.new) out.old out.new
        (accepted command (pending_fragment 1 pending_moof.now tracks.now header.now)).text result }
{
    match command {
        Command::Samples => put_runs(pending_moof, tracks, out, w),
        _ => {
            let size = size_of(pending_moof.moof.size(), header);
            put_moof_lines(command, &pending_moof.moof(), size, tracks, out, w)
        }
    }
}
