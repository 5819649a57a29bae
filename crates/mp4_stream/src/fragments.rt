//! Runs over a whole stream that read its fragments.

ghost use Rattle.std.specs.Prelude.{◌≡◌, ◌≤◌};
ghost use Rattle.mp4_grammar.specs.declared.command.Command.TheVariants.{Check, Fragments, Samples};
ghost use Rattle.mp4_machine.specs.Ends.{between, received, sent};
ghost use Rattle.mp4_recut.specs.declared.operation.Operation.TheVariants as operations;
ghost use Rattle.mp4_stream.specs.Fragments.{RunsOperation, unsent};

use crate::null_sink::NullSink;
use crate::totals::Totals;
use mp4_cut::Cut;
use mp4_ends::{Sink, Source};
use mp4_fragment_machine::FragmentMachine;
use mp4_grammar::Command;
use mp4_ledger::Ledger;
use mp4_machine::{Stop, read_stream};
use mp4_recut::Operation;

/// Lists the samples of a fragmented stream, however its reads cut it: a line for each, fragment by fragment, the runs
/// of a fragment in the order in which their media lie. The lines of a fragment are written once the header of its mdat
/// is accepted. The read buffer of `copy` bytes is claimed.
///
/// # Errors
///
/// `Stream` where the stream breaks a rule, with the samples of the fragments listed that were accepted before; `Read`
/// and `Write` where an end has failed, with a prefix of the listing written; `OverLimit` and `Memory` where a claim
/// was refused, with exactly the samples before that listed.
pub fn samples<R: Source, W: Sink>(
    r: &mut R,
    w: &mut W,
    ledger: &mut Ledger,
    copy: u32,
    totals: &mut Totals,
) -> Result<(), Stop>
    requires copy { (4096 ≤ copy) × (copy ≤ 1048576) }
    requires idle { ledger.old.live ≡ 0 }
    ensures { RunsOperation (operations.List Samples) (between
        (received R.remaining R.has_ended R.has_failed R.last_read r.old r.new)
        (sent W.contents W.has_failed w.old w.new))
        copy ledger.old ledger.new totals.new result }
{
    run_operation(
        Operation::List(Command::Samples),
        r,
        w,
        ledger,
        copy,
        totals,
    )
}

/// Lists the tracks and the fragments of a fragmented stream, however its reads cut it: a line for each track once the
/// moov is whole, and then fragment by fragment a line for each traf, in the order of its moof. The lines of a fragment
/// are written once the header of its mdat is accepted. The read buffer of `copy` bytes is claimed.
///
/// # Errors
///
/// As [`samples`], with the trafs of the fragments listed that were accepted before.
pub fn fragments<R: Source, W: Sink>(
    r: &mut R,
    w: &mut W,
    ledger: &mut Ledger,
    copy: u32,
    totals: &mut Totals,
) -> Result<(), Stop>
    requires copy { (4096 ≤ copy) × (copy ≤ 1048576) }
    requires idle { ledger.old.live ≡ 0 }
    ensures { RunsOperation (operations.List Fragments) (between
        (received R.remaining R.has_ended R.has_failed R.last_read r.old r.new)
        (sent W.contents W.has_failed w.old w.new))
        copy ledger.old ledger.new totals.new result }
{
    run_operation(
        Operation::List(Command::Fragments),
        r,
        w,
        ledger,
        copy,
        totals,
    )
}

/// Checks a fragmented stream, and counts its fragments, samples and bytes of media.
///
/// # Errors
///
/// As [`samples`], but nothing is written.
pub fn check<R: Source>(
    r: &mut R,
    ledger: &mut Ledger,
    copy: u32,
    totals: &mut Totals,
) -> Result<(), Stop>
    requires copy { (4096 ≤ copy) × (copy ≤ 1048576) }
    requires idle { ledger.old.live ≡ 0 }
    ensures { RunsOperation (operations.List Check) (between
        (received R.remaining R.has_ended R.has_failed R.last_read r.old r.new) unsent)
        copy ledger.old ledger.new totals.new result }
{
    run_operation(
        Operation::List(Command::Check),
        r,
        &mut NullSink,
        ledger,
        copy,
        totals,
    )
}

/// Cuts the fragments of a fragmented stream into shorter ones, however its reads cut it: each run into pieces, each of
/// which becomes a moof with an mdat, numbered from 1 on. Its moov and other boxes are written as they are, but for
/// indexes, which are left out. No byte of media is changed, and none is kept back: a fragment is written, once the
/// header of its mdat is accepted, up to the first byte of media that hasn't come. The read buffer of `copy` bytes is
/// claimed.
///
/// # Errors
///
/// As [`samples`], with the output of the stream before written; `IndexRange` and `SequenceEnd` too, where what would
/// have to be written has no room in its fields.
pub fn split<R: Source, W: Sink>(
    r: &mut R,
    w: &mut W,
    ledger: &mut Ledger,
    cut: &Cut,
    copy: u32,
    totals: &mut Totals,
) -> Result<(), Stop>
    requires copy { (4096 ≤ copy) × (copy ≤ 1048576) }
    requires idle { ledger.old.live ≡ 0 }
    ensures { RunsOperation (operations.Split cut.now) (between
        (received R.remaining R.has_ended R.has_failed R.last_read r.old r.new)
        (sent W.contents W.has_failed w.old w.new))
        copy ledger.old ledger.new totals.new result }
{
    run_operation(Operation::Split(*cut), r, w, ledger, copy, totals)
}

/// Reads the fragments of a stream for an operation.
fn run_operation<R: Source, W: Sink>(
    operation: Operation,
    r: &mut R,
    w: &mut W,
    ledger: &mut Ledger,
    copy: u32,
    totals: &mut Totals,
) -> Result<(), Stop>
    requires copy { (4096 ≤ copy) × (copy ≤ 1048576) }
    requires idle { ledger.old.live ≡ 0 }
    ensures { RunsOperation operation (between
        (received R.remaining R.has_ended R.has_failed R.last_read r.old r.new)
        (sent W.contents W.has_failed w.old w.new))
        copy ledger.old ledger.new totals.new result }
{
    let mut machine = FragmentMachine::new(operation);
    let mut whole = 0;
    let answer = read_stream(r, w, ledger, copy, &mut machine, &mut whole);
    *totals = Totals::of(&machine, whole, ledger.peak());
    machine.give_up(ledger);
    answer
}
