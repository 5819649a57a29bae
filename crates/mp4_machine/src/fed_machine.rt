//! A machine that is fed a stream in inputs, with what it keeps between them.

ghost use Rattle.std.specs.Prelude.{◌≡◌, ℕ, List, ◌≤◌, [], None, Some, Err, OnOk, max};
ghost use Rattle.mp4_machine.specs.Ends.{sent};
ghost use Rattle.mp4_machine.specs.FedMachines.{FeedsInput, Finishes, IsAfter, shown, unfed};
ghost use Rattle.mp4_machine.specs.Inputs.{IsBegun};
ghost use Rattle.mp4_machine.specs.Readings.{Reading};
ghost use Rattle.mp4_machine.specs.declared.stop.Stop.{Stop};

use crate::block::Block;
use crate::machine::{Machine, feed};
use crate::stop::Stop;
use mp4_ends::Sink;
use mp4_ledger::{EarlierPeak, Ledger};
use std::marker::Model;

/// A machine that is fed a stream in inputs, each with a writer of its own. After a stop it takes no more. It must be
/// spent by [`FedMachine::into_machine`], whose machine has still claimed what it holds.
pub struct FedMachine<M: Machine> {
    machine: M,
    /// Buffer for the writer of a call.
    block: Block,
    /// Why it stopped, if it did.
    stop: Option<Stop>,
    /// How many bytes are claimed.
    held: u64,
    /// The most that were claimed at once.
    peak: u64,
}

// A contract sees its machine, why it stopped, the most that it had claimed, and how many fragments are whole in its
// output.
impl<M: Machine> Model for FedMachine<M> {
    ghost use Rattle.mp4_machine.specs.FedMachines.{Fed, IsFed, shown};

    ghost Value = { Fed M };

    ghost view = { λ f. record
        { machine = f.machine; stop = f.stop; peak = f.peak; fragments = f.block.whole } };

    ghost invariant = { λ f. IsFed (shown M.continuation M.counted (record
        { machine = f.machine; stop = f.stop; peak = f.peak; fragments = f.block.whole }))
        f.held f.block };
}

/// Raises the peak of a ledger to what it was before the mark.
fn lift_back(ledger: &mut Ledger, earlier: EarlierPeak)
    requires { earlier ≤ ledger.old.limit }
    ensures { ledger.new ≡ record ledger.old { peak = max ledger.old.peak earlier } }
{
    ledger.lift(earlier);
}

impl<M: Machine> FedMachine<M> {
    /// A machine to which no byte has come.
    #[inline(always)]
    pub fn new(machine: M) -> FedMachine<M>
        requires { IsBegun (M.continuation machine) (M.counted machine) }
        ensures begun { result ≡ unfed machine }
        ensures after { IsAfter (M.continuation machine).reads
            (shown M.continuation M.counted result) [] }
    {
        FedMachine {
            machine,
            block: Block::new(),
            stop: None,
            held: 0,
            peak: 0,
        }
    }

    /// Its machine.
    #[inline(always)]
    pub fn machine(&self) -> &M
        ensures { result.now ≡ self.now.machine }
    {
        &self.machine
    }

    /// How many bytes it has claimed: nothing after a stop.
    #[inline(always)]
    pub fn held(&self) -> u64
        ensures held { result ≡ (M.continuation self.now.machine).claim }
        ensures most { result ≤ self.now.peak }
        ensures spent { (e : Stop) → self.now.stop ≡ Some e → result ≡ 0 }
    {
        self.held
    }

    /// Why it stopped, if it did.
    #[inline(always)]
    pub fn stop(&self) -> Option<Stop>
        ensures { result ≡ self.now.stop }
    {
        self.stop
    }

    /// The most bytes that it had claimed at once, whatever else its ledger serves.
    #[inline(always)]
    pub fn peak(&self) -> u64
        ensures { result ≡ self.now.peak }
    {
        self.peak
    }

    /// How many fragments are whole in its output.
    #[inline(always)]
    pub fn fragments(&self) -> u64
        ensures { result ≡ self.now.fragments }
    {
        self.block.whole()
    }

    /// Takes the next input of the stream, and writes all output that the bytes so far determine. An input without
    /// bytes changes nothing.
    ///
    /// # Errors
    ///
    /// `Stream` where the bytes so far break a rule, with everything before it written; `Write` where a write failed,
    /// with a prefix written; `OverLimit` and `Memory` where a claim was refused, with exactly the output of the bytes
    /// before that box written. Everything claimed is given back then, and each later call returns the same and writes
    /// nothing.
    #[inline(always)]
    pub fn feed<W: Sink>(
        &mut self,
        ledger: &mut Ledger,
        input: &[u8],
        w: &mut W,
    ) -> Result<(), Stop>
        requires { (M.continuation self.old.machine).claim ≤ ledger.old.live }
        ensures feeds { FeedsInput (shown M.continuation M.counted self.old)
            (shown M.continuation M.counted self.new) (M.task self.old.machine) (M.task self.new.machine)
            (sent W.contents W.has_failed w.old w.new) ledger.old ledger.new input.now result }
        ensures stopped { (e : Stop) → self.old.stop ≡ Some e → (result ≡ Err e) ×
            (self.new ≡ self.old) × (w.new ≡ w.old) × (ledger.new ≡ ledger.old) }
        ensures empty { input.now ≡ [] →
            (self.new ≡ self.old) × (w.new ≡ w.old) × (ledger.new ≡ ledger.old) }
    {
        if let Some(stop) = self.stop {
            return Err(stop);
        }
        if input.is_empty() {
            return Ok(());
        }
        self.advance(ledger, input, w)
    }

    /// Feeds its machine the next input, and counts the most that it claimed at once.
    ///
    /// # Errors
    ///
    /// As [`FedMachine::feed`].
    fn advance<W: Sink>(&mut self, ledger: &mut Ledger, input: &[u8], w: &mut W) -> Result<(), Stop>
        requires runs { self.old.stop ≡ None }
        requires claim { (M.continuation self.old.machine).claim ≤ ledger.old.live }
        ensures { FeedsInput (shown M.continuation M.counted self.old)
            (shown M.continuation M.counted self.new) (M.task self.old.machine) (M.task self.new.machine)
            (sent W.contents W.has_failed w.old w.new) ledger.old ledger.new input.now result }
    {
        let others = ledger.live() - self.held;
        let earlier = ledger.mark();
        let answer = feed(&mut self.machine, ledger, input, &mut self.block, w);
        self.held = ledger.live() - others;
        let most = ledger.peak();
        let own = most - others;
        self.peak = self.peak.max(own);
        lift_back(ledger, earlier);
        match answer {
            Ok(()) => Ok(()),
            Err(stop) => {
                self.stop = Some(stop);
                Err(stop)
            }
        }
    }

    /// What the end of the stream means here.
    ///
    /// # Errors
    ///
    /// `Stream` where a stream that ends here is at fault; and after a stop the same stop.
    #[inline(always)]
    pub fn ending(&self) -> Result<(), Stop>
        ensures finishes { (reads : List ℕ → Reading) (b : List ℕ) →
            IsAfter reads (shown M.continuation M.counted self.now) b → Finishes reads b result }
        ensures runs { OnOk result (self.now.stop ≡ None) }
        ensures stopped { (e : Stop) → self.now.stop ≡ Some e → result ≡ Err e }
    {
        if let Some(stop) = self.stop {
            return Err(stop);
        }
        match self.machine.finish() {
            Ok(()) => Ok(()),
            Err(fault) => Err(Stop::Stream(fault)),
        }
    }

    /// Its machine, which has still claimed what it holds.
    #[inline(always)]
    pub fn into_machine(self) -> M
        ensures { result ≡ self.machine }
    {
        let FedMachine {
            machine,
            block: _,
            stop: _,
            held: _,
            peak: _,
        } = self;
        machine
    }
}
