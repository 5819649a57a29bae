//! A Feeder for any task.

ghost use Rattle.std.specs.Prelude.{◌≡◌, ℕ, List, ◌+◌, ◌≤◌, [], None, Some, Err};
ghost use Rattle.std.specs.Prelude.{IfErr, IfOk, OnOk, OnErr, IsErrOf, true};
ghost use Rattle.mp4_ledger.specs.Memory.{given_back};
ghost use Rattle.mp4_machine.specs.Ends.{sent};
ghost use Rattle.mp4_machine.specs.Fed.{borrowed};
ghost use Rattle.mp4_machine.specs.declared.stop.Stop.{Stop};
ghost use Rattle.fmp4_c.specs.Portions.{left_of};
ghost use Rattle.fmp4_c.specs.Tasks.{Feeds, Finishes, IsAfter, begun_of, fragments_in, held_by};
ghost use Rattle.fmp4_c.specs.Tasks.{stop_of, task_of, totals_of};

use crate::task::Task;
use mp4_ends::Sink;
use mp4_stream::{BoxFeeder, Feeder, Ledger, Stop, Totals};

/// Takes a stream as inputs for a task, and writes its output as it comes. It must be spent by [`TaskFeeder::finish`]
/// or [`TaskFeeder::give_up`].
pub(crate) enum TaskFeeder {
    /// For an operation on fragments.
    Fragments(Feeder),
    /// For a listing of boxes.
    Boxes(BoxFeeder),
}

impl TaskFeeder {
    /// One to which no byte has come.
    pub(crate) fn new(task: Task) -> TaskFeeder
        ensures begun { result ≡ begun_of task }
        ensures task { task_of result ≡ task }
        ensures after { IsAfter result [] }
        ensures idle { held_by result ≡ 0 }
    {
        match task {
            Task::Fragments(operation) => {
                TaskFeeder::Fragments(Feeder::with_operation(operation))
            }
            Task::Boxes => TaskFeeder::Boxes(BoxFeeder::new()),
        }
    }

    /// Why it stopped, if it did.
    pub(crate) fn stop(&self) -> Option<Stop>
        ensures { result ≡ stop_of self.now }
    {
        match self {
            TaskFeeder::Fragments(feeder) => feeder.stop(),
            TaskFeeder::Boxes(feeder) => feeder.stop(),
        }
    }

    /// How many bytes of the body that comes are left, up to the next header: 0 where a header comes, or a box that is
    /// held, and in a listing of boxes.
    pub(crate) fn left(&self) -> u64
        ensures { result ≡ left_of self.now }
    {
        match self {
            TaskFeeder::Fragments(feeder) => feeder.left(),
            TaskFeeder::Boxes(_) => 0,
        }
    }

    /// What it has counted so far, and the most bytes that it had claimed at once.
    pub(crate) fn totals(&self) -> Totals
        ensures { result ≡ totals_of self.now }
    {
        match self {
            TaskFeeder::Fragments(feeder) => feeder.totals(),
            TaskFeeder::Boxes(feeder) => feeder.totals(),
        }
    }

    /// Takes the next input of the stream, and writes all output that the bytes so far determine. An input without
    /// bytes changes nothing.
    ///
    /// # Errors
    ///
    /// As [`Feeder::feed`] and [`BoxFeeder::feed`].
    pub(crate) fn feed<W: Sink>(
        &mut self,
        ledger: &mut Ledger,
        input: &[u8],
        w: &mut W,
    ) -> Result<(), Stop>
        requires claim { held_by self.old ≤ ledger.old.live }
        ensures feeds { (b : List ℕ) → IsAfter self.old b → Feeds b input.now self.old self.new
            (borrowed (sent W.contents W.has_failed w.old w.new) (fragments_in self.old)
            (fragments_in self.new) ledger.old ledger.new) result }
        ensures task { task_of self.new ≡ task_of self.old }
        ensures runs { OnOk result (stop_of self.new ≡ None) }
        ensures stops { IfErr result (λ e. stop_of self.new ≡ Some e) }
        ensures spent { OnErr result (held_by self.new ≡ 0) }
        ensures stopped { (e : Stop) → stop_of self.old ≡ Some e → (result ≡ Err e) ×
            (self.new ≡ self.old) × (w.new ≡ w.old) × (ledger.new ≡ ledger.old) }
        ensures empty { input.now ≡ [] →
            (self.new ≡ self.old) × (w.new ≡ w.old) × (ledger.new ≡ ledger.old) }
        ensures failed { stop_of self.old ≡ None → IsErrOf result Stop.Write →
            W.has_failed w.new ≡ true }
        ensures live { ledger.new.live + held_by self.old ≡ ledger.old.live + held_by self.new }
        ensures limit { ledger.new.limit ≡ ledger.old.limit }
        ensures claim { held_by self.new ≤ ledger.new.live }
    {
        match self {
            TaskFeeder::Fragments(feeder) => feeder.feed(ledger, input, w),
            TaskFeeder::Boxes(feeder) => feeder.feed(ledger, input, w),
        }
    }

    /// The stream ended: returns what was counted of it. Everything that it has claimed is given back.
    ///
    /// # Errors
    ///
    /// `Stream` where a stream that ends here is at fault; and after a stop the same stop.
    pub(crate) fn finish(self, ledger: &mut Ledger) -> Result<Totals, Stop>
        requires claim { held_by self ≤ ledger.old.live }
        ensures finishes { (b : List ℕ) → IsAfter self b → Finishes self b result }
        ensures totals { IfOk result (λ t. t ≡ totals_of self) }
        ensures stopped { (e : Stop) → stop_of self ≡ Some e → result ≡ Err e }
        ensures back { ledger.new ≡ given_back ledger.old (held_by self) }
    {
        match self {
            TaskFeeder::Fragments(feeder) => feeder.finish(ledger),
            TaskFeeder::Boxes(feeder) => feeder.finish(ledger),
        }
    }

    /// Gives back all that it has claimed.
    pub(crate) fn give_up(self, ledger: &mut Ledger)
        requires { held_by self ≤ ledger.old.live }
        ensures { ledger.new ≡ given_back ledger.old (held_by self) }
    {
        match self {
            TaskFeeder::Fragments(feeder) => feeder.give_up(ledger),
            TaskFeeder::Boxes(feeder) => feeder.give_up(ledger),
        }
    }
}
