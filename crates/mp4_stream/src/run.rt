//! A run over a whole stream.

ghost use Rattle.std.specs.Prelude.{◌≡◌, ◌+◌, ◌<◌, ◌≤◌, [], length, IsErrOf};
ghost use Rattle.mp4_grammar.specs.Kinds.{most_moof};
ghost use Rattle.mp4_machine.specs.Ends.{between, received, sent};
ghost use Rattle.mp4_boxes.specs.HeldBoxes.{ReadsBoxes};

use crate::totals::Totals;
use mp4_boxes::BoxMachine;
use mp4_ends::{Sink, Source};
use mp4_ledger::Ledger;
use mp4_machine::{Stop, read_stream};

/// Lists the boxes of a stream, however its reads cut it: their types, sizes and offsets, a line for each. A moov
/// or a moof is held while it comes, and listed with the boxes below it once it is known to be good. `copy` bytes
/// are claimed to read into.
///
/// # Errors
///
/// `Stream` where the stream breaks a rule (`Truncated`, `BadSize`, `TooLarge`, `Depth` or `StreamTooLong`), with
/// the boxes before listed; `Read` and `Write` where an end has failed, with a prefix of the listing written;
/// `OverLimit` and `Memory` where a claim was refused, with exactly the boxes before that listed.
pub fn boxes<R: Source, W: Sink>(
    r: &mut R,
    w: &mut W,
    ledger: &mut Ledger,
    copy: u32,
    totals: &mut Totals,
) -> Result<(), Stop>
    requires copy { (4096 ≤ copy) × (copy ≤ 1048576) }
    requires idle { ledger.old.live ≡ 0 }

    // Of the bytes that were read: the answer, what was written, the most that was claimed at once, and that by the
    // largest of their boxes.
    ensures runs { ReadsBoxes (between
        (received R.remaining R.has_ended R.has_failed R.last_read r.old r.new)
        (sent W.contents W.has_failed w.old w.new))
        (record { copy = copy; limit = ledger.old.limit; peak = ledger.new.peak }) result }

    // No more was claimed at once than may be, and all was given back.
    ensures within { ledger.new.peak ≤ ledger.old.limit }
    ensures bound { ledger.new.peak ≤ copy + most_moof }
    ensures enough { copy + most_moof ≤ ledger.old.limit → IsErrOf result Stop.OverLimit → ⊥ }
    ensures back { (ledger.new.live ≡ 0) × (ledger.new.limit ≡ ledger.old.limit) }
    ensures totals { totals.new ≡ record
        { fragments = 0; samples = 0; media_bytes = 0; rows_read = 0; peak = ledger.new.peak } }
{
    let mut machine = BoxMachine::new();
    let answer = read_stream(r, w, ledger, copy, &mut machine, &mut 0);
    machine.give_up(ledger);
    *totals = Totals::new();
    totals.peak = ledger.peak();
    answer
}
