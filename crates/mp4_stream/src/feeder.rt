//! A stream that is pushed in as inputs.

ghost use Rattle.std.specs.Prelude.{◌≡◌, ℕ, List, ◌+◌, ◌*◌, ◌≤◌, [], None, Some, Err, Ok};
ghost use Rattle.std.specs.Prelude.{IfErr, IfOk, OnOk, OnErr, IsErrOf, true};
ghost use Rattle.mp4_fragment_machine.specs.NextHeaders.{left_in};
ghost use Rattle.mp4_fragment_machine.specs.States.{begun, listed_by, reads_of};
ghost use Rattle.mp4_ledger.specs.Memory.{given_back};
ghost use Rattle.mp4_recut.specs.declared.operation.Operation.TheVariants.{Split};
ghost use Rattle.mp4_machine.specs.Ends.{sent};
ghost use Rattle.mp4_machine.specs.Fed.{borrowed};
ghost use Rattle.mp4_stream.specs.Feeders.{Feeds, Finishes, IsAfter, held_by, totals_of};
ghost use Rattle.mp4_stream.specs.Feeders as feeders;
ghost use Rattle.mp4_machine.specs.declared.stop.Stop.{Stop};

use crate::totals::Totals;
use mp4_cut::Cut;
use mp4_ends::Sink;
use mp4_fragment_machine::FragmentMachine;
use mp4_ledger::Ledger;
use mp4_machine::{FedMachine, Stop};
use mp4_recut::Operation;
use std::marker::Model;

/// Takes a fragmented stream as inputs, and writes the output of an operation as it comes: shorter fragments, the lines
/// of its samples, or nothing. It must be spent by [`Feeder::finish`] or [`Feeder::give_up`].
pub struct Feeder {
    fed: FedMachine<FragmentMachine>,
}

// A contract sees its operation, where it is in the stream, why it stopped, the most that it had claimed, and how many
// fragments are whole in its output.
impl Model for Feeder {
    ghost use Rattle.mp4_stream.specs.Feeders.{Feeding, feeding};

    ghost Value = { Feeding };

    ghost view = { λ f. feeding f.fed.machine.operation f.fed };
}

impl Feeder {
    /// A Feeder that cuts the fragments of a stream into shorter ones, and to which no byte has come.
    pub fn new(cut: Cut) -> Feeder
        ensures begun { result ≡ feeders.begun (Split cut) (begun (Split cut)) }
        ensures after { IsAfter result [] }
        ensures idle { held_by result ≡ 0 }
    {
        Feeder::with_operation(Operation::Split(cut))
    }

    /// A Feeder for any operation, to which no byte has come.
    pub fn with_operation(operation: Operation) -> Feeder
        ensures begun { result ≡ feeders.begun operation (begun operation) }
        ensures after { IsAfter result [] }
        ensures idle { held_by result ≡ 0 }
    {
        Feeder {
            fed: FedMachine::new(FragmentMachine::new(operation)),
        }
    }

    /// How many bytes it has claimed: nothing after a stop.
    pub fn held(&self) -> u64
        ensures held { result ≡ held_by self.now }
        ensures most { result ≤ self.now.peak }
        ensures spent { (e : Stop) → self.now.stop ≡ Some e → result ≡ 0 }
    {
        self.fed.held()
    }

    /// Why it stopped, if it did.
    pub fn stop(&self) -> Option<Stop>
        ensures { result ≡ self.now.stop }
    {
        self.fed.stop()
    }

    /// How many bytes of the body that comes are left, up to the next header: 0 where a header comes, or a box that is
    /// held.
    pub fn left(&self) -> u64
        ensures { result ≡ left_in self.now.machine.state }
    {
        self.fed.machine().left()
    }

    /// What it has counted so far, and the most bytes that it had claimed at once, whatever else its ledger serves.
    pub fn totals(&self) -> Totals
        ensures totals { result ≡ totals_of self.now }
        ensures all { result.samples ≤ self.now.machine.counter.tally.inspected }
        ensures some { self.now.machine.counter.tally.inspected + result.samples +
            listed_by self.now.operation result.samples ≤ result.rows_read }
        ensures few { result.rows_read ≤
            reads_of self.now.operation * self.now.machine.counter.tally.inspected }
    {
        Totals::of(self.fed.machine(), self.fed.fragments(), self.fed.peak())
    }

    /// Takes the next input of the stream, and writes all output that the bytes so far determine. An
    /// input without bytes changes nothing.
    ///
    /// # Errors
    ///
    /// `Stream` where the bytes so far break a rule, with everything before it written; `Write` where a write failed,
    /// with a prefix written; `OverLimit` and `Memory` where a claim was refused, with exactly the output of the bytes
    /// before that box written. Everything claimed is given back then, and each later call returns the same and writes
    /// nothing.
    pub fn feed<W: Sink>(
        &mut self,
        ledger: &mut Ledger,
        input: &[u8],
        w: &mut W,
    ) -> Result<(), Stop>
        requires claim { held_by self.old ≤ ledger.old.live }
        ensures feeds { (b : List ℕ) → IsAfter self.old b → Feeds b input.now self.old self.new
            (borrowed (sent W.contents W.has_failed w.old w.new) self.old.fragments
            self.new.fragments ledger.old ledger.new) result }
        ensures operation { self.new.operation ≡ self.old.operation }
        ensures runs { OnOk result (self.new.stop ≡ None) }
        ensures stops { IfErr result (λ e. self.new.stop ≡ Some e) }
        ensures spent { OnErr result (held_by self.new ≡ 0) }
        ensures stopped { (e : Stop) → self.old.stop ≡ Some e → (result ≡ Err e) ×
            (self.new ≡ self.old) × (w.new ≡ w.old) × (ledger.new ≡ ledger.old) }
        ensures empty { input.now ≡ [] →
            (self.new ≡ self.old) × (w.new ≡ w.old) × (ledger.new ≡ ledger.old) }
        ensures failed { self.old.stop ≡ None → IsErrOf result Stop.Write → W.has_failed w.new ≡ true }
        ensures kept { (IsErrOf result Stop.Write → ⊥) → W.has_failed w.new ≡ W.has_failed w.old }
        ensures live { ledger.new.live + held_by self.old ≡ ledger.old.live + held_by self.new }
        ensures limit { ledger.new.limit ≡ ledger.old.limit }
        ensures claim { held_by self.new ≤ ledger.new.live }
    {
        self.fed.feed(ledger, input, w)
    }

    /// The stream ended: returns what was counted of it. Everything that it has claimed is given back.
    ///
    /// # Errors
    ///
    /// `Stream` where a stream that ends here is at fault; and after a stop the same stop.
    pub fn finish(self, ledger: &mut Ledger) -> Result<Totals, Stop>
        requires claim { held_by self ≤ ledger.old.live }
        ensures finishes { (b : List ℕ) → IsAfter self b → Finishes self b result }
        ensures totals { IfOk result (λ t. t ≡ totals_of self) }
        ensures some { IfOk result (λ t. self.machine.counter.tally.inspected + t.samples +
            listed_by self.operation t.samples ≤ t.rows_read) }
        ensures few { IfOk result (λ t. t.rows_read ≤
            reads_of self.operation * self.machine.counter.tally.inspected) }
        ensures stopped { (e : Stop) → self.stop ≡ Some e → result ≡ Err e }
        ensures back { ledger.new ≡ given_back ledger.old (held_by self) }
    {
        let answer = self.ending();
        self.give_up(ledger);
        answer
    }

    /// What the end of the stream means here.
    ///
    /// # Errors
    ///
    /// As [`Feeder::finish`].
    pub fn ending(&self) -> Result<Totals, Stop>
        ensures finishes { (b : List ℕ) → IsAfter self.now b → Finishes self.now b result }
        ensures totals { IfOk result (λ t. t ≡ totals_of self.now) }
        ensures some { IfOk result (λ t. self.now.machine.counter.tally.inspected + t.samples +
            listed_by self.now.operation t.samples ≤ t.rows_read) }
        ensures few { IfOk result (λ t. t.rows_read ≤
            reads_of self.now.operation * self.now.machine.counter.tally.inspected) }
        ensures stopped { (e : Stop) → self.now.stop ≡ Some e → result ≡ Err e }
    {
        match self.fed.ending() {
            Ok(()) => Ok(self.totals()),
            Err(stop) => Err(stop),
        }
    }

    /// Gives back all that it has claimed.
    pub fn give_up(self, ledger: &mut Ledger)
        requires { held_by self ≤ ledger.old.live }
        ensures { ledger.new ≡ given_back ledger.old (held_by self) }
    {
        let Feeder { fed } = self;
        fed.into_machine().give_up(ledger);
    }
}
