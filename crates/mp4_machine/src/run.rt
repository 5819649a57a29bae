//! A run over a whole stream, whatever it is read as.

ghost use Rattle.std.specs.Prelude.{◌≡◌, ◌<◌};
ghost use Rattle.mp4_machine.specs.Ends.{between, received, sent};
ghost use Rattle.mp4_machine.specs.Inputs.{IsBegun};
ghost use Rattle.mp4_machine.specs.StreamRuns.{ReadsStream};

use crate::block::Block;
use crate::machine::{Machine, feed};
use crate::stop::Stop;
use mp4_ends::{Failed, Sink, Source};
use mp4_ledger::Ledger;

/// Reads a stream to its end, whatever its reads give, and feeds it to a machine to which no byte has come. The read
/// buffer of `copy` bytes is claimed. What the machine has claimed at the end must still be given back. `fragments` is
/// how many of the fragments that the machine marked the writer took completely.
///
/// # Errors
///
/// `Stream` where the stream breaks a rule; `Read` and `Write` where an end has failed; `OverLimit` and `Memory` where
/// a claim was refused.
pub fn read_stream<R: Source, W: Sink, M: Machine>(
    r: &mut R,
    w: &mut W,
    ledger: &mut Ledger,
    copy: u32,
    machine: &mut M,
    fragments: &mut u64,
) -> Result<(), Stop>
    requires some { 0 < copy }
    requires idle { ledger.old.live ≡ 0 }
    requires begun { IsBegun (M.continuation machine.old) (M.counted machine.old) }
    ensures runs { (run : ReadsStream (M.continuation machine.old).reads (between
        (received R.remaining R.has_ended R.has_failed R.last_read r.old r.new)
        (sent W.contents W.has_failed w.old w.new))
        (record { copy = copy; limit = ledger.old.limit; peak = ledger.new.peak })
        (M.counted machine.new) result) × (run.fragments ≡ fragments.new) }
    ensures live { ledger.new.live ≡ (M.continuation machine.new).claim }
    ensures limit { ledger.new.limit ≡ ledger.old.limit }
    ensures task { M.task machine.new ≡ M.task machine.old }
{
    *fragments = 0;
    ledger.mark().forget();
    let mut buf = match ledger.buf(u64::from(copy)) {
        Ok(buf) => buf,
        Err(refused) => return Err(Stop::of_refusal(refused)),
    };
    let mut out = Block::new();
    let into = buf.room_mut(copy as usize);
    let mut total: u64 = 0;
    let answer = loop {
        let input = match r.read(into) {
            Ok(n) => &into[..n],
            Err(Failed) => break Err(Stop::Read { at: total }),
        };
        if input.is_empty() {
            break match machine.finish() {
                Ok(()) => Ok(()),
                Err(fault) => Err(Stop::Stream(fault)),
            };
        }
        match feed(machine, ledger, input, &mut out, w) {
            Ok(()) => total += input.len() as u64,
            Err(stop) => break Err(stop),
        }
    };
    *fragments = out.whole();
    ledger.back(buf);
    answer
}
