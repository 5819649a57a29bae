//! Machines that are fed a stream in inputs, whatever they read.

ghost use Rattle.std.specs.Prelude.{◌≡◌, ◌<◌, ◌≤◌, [], length, take, None, Some, IfOk, IfErr, OnOk, OnErr};
ghost use Rattle.mp4_ledger.specs.Memory.{given_back};
ghost use Rattle.mp4_machine.specs.Ends.{sent};
ghost use Rattle.mp4_machine.specs.Inputs.{Continuation, HasNoEffects, Takes, TakesAll, change, farthest};
ghost use Rattle.mp4_machine.specs.Readings.{fault_in};
ghost use Rattle.mp4_machine.specs.declared.tally.Tally.{Tally};

use crate::block::Block;
use crate::stop::Stop;
use mp4_box::Fault;
use mp4_ends::{Failed, Sink};
use mp4_ledger::Ledger;

/// A machine that takes the bytes of a stream as they come. What it has claimed must be given back.
pub trait Machine {
    // What it was made for, which no call changes.
    ghost Task: { Type 0 } = { Unit {0} };

    ghost task: { Self → Self.Task };

    // Where it is in the stream, and how the rest is read.
    ghost continuation: { Self → Continuation };

    // What it has counted.
    ghost counted: { Self → Tally };

    /// Takes some bytes from the front of the input, and puts their output into `out`, which is sent to `w` as it
    /// fills. Returns how many bytes it took.
    ///
    /// # Errors
    ///
    /// `Stream` where the stream breaks a rule, `Write` where a write failed, `OverLimit` and `Memory` where a claim
    /// was refused. All that was claimed is given back then.
    fn take<W: Sink>(
        &mut self,
        ledger: &mut Ledger,
        input: &[u8],
        out: &mut Block,
        w: &mut W,
    ) -> Result<usize, Stop>
        requires some { 0 < length input.now }
        requires claim { (continuation self.old).claim ≤ ledger.old.live }
        ensures takes { Takes (change (sent W.contents W.has_failed w.old w.new) out.old out.new
            ledger.old ledger.new (counted self.old) (counted self.new))
            (continuation self.old) input.now (λ n. take n input.now) (λ _. continuation self.new) result }
        ensures taken { IfOk result (λ n. (0 < n) × (n ≤ length input.now)) }
        ensures claim { (continuation self.new).claim ≤ ledger.new.live }
        ensures quiet { OnOk result (HasNoEffects (continuation self.new)) }
        ensures near { OnOk result ((continuation self.new).reached ≤ farthest) }
        ensures spent { OnErr result ((continuation self.new).claim ≡ 0) }
        ensures task { task self.new ≡ task self.old };

    /// What the end of the stream means here.
    ///
    /// # Errors
    ///
    /// The fault of a stream that ends here.
    fn finish(&self) -> Result<(), Fault>
        ensures ok { OnOk result (fault_in ((continuation self.now).reads []).outcome ≡ None) }
        ensures err { IfErr result (λ f.
            fault_in ((continuation self.now).reads []).outcome ≡ Some f) };

    /// Gives back what is claimed. Its place in the stream is not specified then.
    fn give_back(&mut self, ledger: &mut Ledger)
        requires { (continuation self.old).claim ≤ ledger.old.live }
        ensures back { ledger.new ≡ given_back ledger.old (continuation self.old).claim }
        ensures spent { (continuation self.new).claim ≡ 0 }
        ensures counted { counted self.new ≡ counted self.old }
        ensures task { task self.new ≡ task self.old };
}

/// Feeds a machine the next input of the stream, and writes all output that it determines: nothing stays in the buffer.
///
/// # Errors
///
/// As [`Machine::take`].
pub fn feed<M: Machine, W: Sink>(
    machine: &mut M,
    ledger: &mut Ledger,
    input: &[u8],
    out: &mut Block,
    w: &mut W,
) -> Result<(), Stop>
    requires claim { (M.continuation machine.old).claim ≤ ledger.old.live }
    requires quiet { HasNoEffects (M.continuation machine.old) }
    requires near { (M.continuation machine.old).reached ≤ farthest }
    ensures { TakesAll (change (sent W.contents W.has_failed w.old w.new) out.old out.new
        ledger.old ledger.new (M.counted machine.old) (M.counted machine.new))
        (M.continuation machine.old) input.now (M.continuation machine.new)
        (M.task machine.old) (M.task machine.new) result }
{
    let mut at = 0;
    let mut answer = Ok(());
    while at < input.len() {
        match machine.take(ledger, &input[at..], out, w) {
            Ok(count) => at += count,
            Err(stop) => match stop {
                // After a failed write the buffer can't be sent.
                Stop::Write => return Err(stop),
                _ => {
                    answer = Err(stop);
                    break;
                }
            },
        }
    }
    match out.send(w) {
        Ok(()) => answer,
        Err(Failed) => {
            machine.give_back(ledger);
            Err(Stop::Write)
        }
    }
}
