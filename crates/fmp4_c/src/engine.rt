//! A Feeder with its memory and its output.

ghost use Rattle.std.specs.Prelude.{◌≡◌, ℕ, ◌+◌, ◌-◌, ◌*◌, ◌^◌, ◌<◌, ◌≤◌, ◌↔◌, List, [], ◌++◌, length, take, drop, min};
ghost use Rattle.std.specs.Prelude.{None, Some, true, false, IfOk, IsErrOf, IsTrue};
ghost use Rattle.mp4_grammar.specs.TrafRecords.{IsRecord, record_bytes, record_len, record_of};
ghost use Rattle.mp4_machine.specs.declared.stop.Stop as stops;
ghost use Rattle.fmp4_c.specs.Answers.{answer_to, number_of};
ghost use Rattle.fmp4_c.specs.Calls.{IsOpened};
ghost use Rattle.fmp4_c.specs.Engines.{FeedClauses, FeedTakeClauses, Finished, Holds, IsReset, NextFragmentClauses, SkipClauses, TakeClauses};
ghost use Rattle.fmp4_c.specs.Engines.{held_in, limited_to, report_of, step_of};
ghost use Rattle.fmp4_c.specs.Portions.{left_before, portion_of};
ghost use Rattle.fmp4_c.specs.Tasks.{record_listing, stop_of};
ghost use Rattle.fmp4_c.specs.declared.answer.Answer as answers;
ghost use Rattle.fmp4_c.specs.declared.task.Task.{Task};
ghost use Rattle.fmp4_c.specs.declared.task_feeder.TaskFeeder.{TaskFeeder};

use crate::ahead::{Passed, feed_ahead};
use crate::answer::Answer;
use crate::asked::Asked;
use crate::output::Output;
use crate::portion::portion_of;
use crate::report::{Report, fault_in};
use crate::results::{Feed, FeedTake, Front};
use crate::task::Task;
use crate::task_feeder::TaskFeeder;
use mp4_grammar::{RECORD_BYTES, TrafRecord};
use mp4_ledger::Refused;
use mp4_stream::{Command, Ledger, Operation};
use std::alloc::Global;
use std::marker::Model;
use std::mem::replace;

/// A Feeder with the ledger that it claims from, until its stream ends, and its output.
pub struct Engine {
    ledger: Ledger,
    feeder: Option<TaskFeeder>,
    out: Output,
    /// Which share of what is free in the room is taken of the input at once; 0: the input as a whole.
    share: usize,
    /// What was reported at the end.
    reported: Report,
    /// What is done with the stream, and with the next.
    task: Task,
}

// A contract sees the account, the Feeder, what waits to be taken, the share, what was reported at the end, and the
// task.
impl Model for Engine {
    ghost use Rattle.std.specs.Prelude.{◌≡◌};
    ghost use Rattle.fmp4_c.specs.Engines.{Run, held_in};

    ghost Value = { Run };

    ghost view = { λ e. record {
      account = e.ledger;
      feeding = e.feeder;
      waiting = e.out;
      share = e.share;
      reported = e.reported;
      task = e.task;
    } };

    ghost invariant = { λ e. e.ledger.live ≡ held_in e.feeder };
}

impl Engine {
    /// One to which no byte has come. The room for the output is allocated, and the rest of the limit is for the
    /// stream's memory.
    ///
    /// # Errors
    ///
    /// `OverLimit` where the room passes the limit; else `Memory` where the allocator has none for it.
    pub fn new(alloc: Global, asked: Asked) -> Result<Engine, Refused>
        ensures opened { IfOk result (λ e. IsOpened asked (Some e)) }
        ensures over_limit { IsErrOf result Refused.OverLimit ↔ (asked.limit < asked.room) }
    {
        if asked.room as u64 > asked.limit {
            return Err(Refused::OverLimit);
        }
        match Output::new(alloc, asked.room) {
            Ok(out) => Ok(Engine {
                ledger: Ledger::new(alloc, asked.limit - asked.room as u64),
                feeder: Some(TaskFeeder::new(asked.task)),
                out,
                share: asked.share,
                reported: Report::none(),
                task: asked.task,
            }),
            Err(_) => Err(Refused::Memory),
        }
    }

    /// How many bytes of the body that comes are left, up to the next header.
    fn left(&self) -> u64
        ensures { result ≡ left_before self.now.feeding }
    {
        match &self.feeder {
            Some(feeder) => feeder.left(),
            None => 0,
        }
    }

    /// How many bytes of the input are taken, with so many free beside the room: none unless half of the room is free.
    fn portion(&self, input: &[u8], free: usize) -> usize
        ensures filled { self.now.waiting.room < 2 * length self.now.waiting.bytes → result ≡ 0 }
        ensures share { 2 * length self.now.waiting.bytes ≤ self.now.waiting.room →
            result ≡ portion_of input.now (left_before self.now.feeding)
            (step_of self.now.share (self.now.waiting.room - length self.now.waiting.bytes + free)) }
        ensures some { 2 * length self.now.waiting.bytes ≤ self.now.waiting.room → 0 < length input.now →
            0 < result }
        ensures none { result ≡ 0 → 0 < length input.now →
            self.now.waiting.room < 2 * length self.now.waiting.bytes }
        ensures within { result ≤ length input.now }
    {
        if self.out.len() > self.out.free() {
            return 0;
        }
        let most = step_by(self.share, self.out.free().saturating_add(free));
        portion_of(input, self.left(), most)
    }

    /// Feeds the input of the stream, or the front of one. After a stop it returns the same, and takes nothing.
    pub fn feed(&mut self, input: &[u8]) -> Feed
        ensures { FeedClauses self.old input.now result self.new }
    {
        let taken = self.portion(input, 0);
        match &mut self.feeder {
            Some(feeder) => {
                if let Some(stop) = feeder.stop() {
                    return self.fed(0, Answer::of_stop(stop));
                }
                match feeder.feed(&mut self.ledger, &input[..taken], &mut self.out) {
                    Ok(()) => {
                        if taken == 0 && !input.is_empty() {
                            return self.fed(taken, Answer::Full);
                        }
                        self.fed(taken, Answer::Done)
                    }
                    Err(stop) => self.fed(taken, Answer::of_stop(stop)),
                }
            }
            None => self.fed(0, Answer::Ended),
        }
    }

    /// What a feed did. No more waits than the room holds, which is full where a write failed, and no more is claimed
    /// than the limit allows.
    fn fed(&self, taken: usize, answer: Answer) -> Feed
        ensures is { result ≡ record { taken = taken; answer = answer } }
        ensures full { self.now.waiting.failed ≡ true →
            length self.now.waiting.bytes ≡ self.now.waiting.room }
        ensures waits { length self.now.waiting.bytes ≤ self.now.waiting.room }
        ensures claims { self.now.account.live ≤ self.now.account.limit }
    {
        let _ = (self.out.len(), self.out.is_full(), self.ledger.live());
        Feed { taken, answer }
    }

    /// Takes output from the front, then feeds the input, or the front of it, whose output follows in the buffer: what
    /// doesn't fit waits. After a stop it returns the same, and takes no input. A stream of records is not fed so.
    pub fn feed_take(&mut self, input: &[u8], buffer: &mut [u8]) -> FeedTake
        ensures { FeedTakeClauses self.old input.now buffer.old buffer.new result self.new }
    {
        if self.feeder.is_none() {
            return self.passed(0, 0, Answer::Ended);
        }
        if lists_records(self.task) {
            return self.passed(0, 0, Answer::BadListing);
        }
        let free = buffer.len().saturating_sub(self.out.len());
        let first = self.out.take(buffer);
        let portion = self.portion(input, free);
        let Some(feeder) = &mut self.feeder else {
            unreachable!();
        };
        if let Some(stop) = feeder.stop() {
            return self.passed(0, first, Answer::of_stop(stop));
        }
        let ledger = &mut self.ledger;
        let Passed { at, result } = feed_ahead(
            feeder,
            ledger,
            &input[..portion],
            buffer,
            first,
            &mut self.out,
        );
        let given = at + self.out.give(buffer, at);
        match result {
            Ok(()) => {
                if leaves_all(portion, input) {
                    return self.passed(portion, given, Answer::Full);
                }
                self.passed(portion, given, Answer::Done)
            }
            Err(stop) => self.passed(portion, given, Answer::of_stop(stop)),
        }
    }

    /// What a feed did that takes output: no more waits than the room holds, nor is more claimed than the limit allows.
    fn passed(&self, taken: usize, given: usize, answer: Answer) -> FeedTake
        ensures is { result ≡ record { taken = taken; given = given; answer = answer } }
        ensures waits { length self.now.waiting.bytes ≤ self.now.waiting.room }
        ensures claims { self.now.account.live ≤ self.now.account.limit }
    {
        let _ = (self.out.len(), self.ledger.live());
        FeedTake {
            taken,
            given,
            answer,
        }
    }

    /// Copies output from the front, which stays. Records are no bytes to be copied.
    pub fn peek(&self, out: &mut [u8]) -> Front
        ensures done { (self.now.task ≡ record_listing → ⊥) → result ≡ record
            { count = min (length out.old) (length self.now.waiting.bytes); answer = Answer.Done } }
        ensures front { take result.count out.new ≡ take result.count self.now.waiting.bytes }
        ensures rest { drop result.count out.new ≡ drop result.count out.old }
        ensures records { self.now.task ≡ record_listing →
            result ≡ record { count = 0; answer = Answer.BadListing } }
    {
        if lists_records(self.task) {
            return Front::of_records();
        }
        Front::of_bytes(self.out.peek(out))
    }

    /// Drops output from the front. Of records none is dropped.
    pub fn skip(&mut self, count: usize) -> Front
        ensures { SkipClauses self.old count result self.new }
    {
        if lists_records(self.task) {
            return Front::of_records();
        }
        Front::of_bytes(self.out.skip(count))
    }

    /// Takes output from the front. Of records none is taken.
    pub fn take(&mut self, out: &mut [u8]) -> Front
        ensures { TakeClauses self.old out.old out.new result self.new }
    {
        if lists_records(self.task) {
            return Front::of_records();
        }
        Front::of_bytes(self.out.take(out))
    }

    /// Takes a record from the front of the output of a stream that is listed by records. Where none waits, and where
    /// the stream is another, nothing is taken.
    pub fn next_fragment(&mut self, fragment: &mut TrafRecord) -> Answer
        ensures { NextFragmentClauses self.old fragment.old fragment.new result self.new }
    {
        if !lists_records(self.task) {
            return Answer::BadListing;
        }
        if self.out.len() < RECORD_BYTES {
            return Answer::NoRecord;
        }
        let mut bytes = [0; RECORD_BYTES];
        self.out.take(&mut bytes);
        *fragment = TrafRecord::of_bytes(&bytes);
        Answer::Done
    }

    /// How many bytes of output wait.
    pub fn pending(&self) -> usize
        ensures { result ≡ length self.now.waiting.bytes }
    {
        self.out.len()
    }

    /// Says what was counted so far, and for which fault the stream stopped, if it did; at its end, what was reported
    /// there.
    pub fn totals(&mut self, report: &mut Report) -> Answer
        ensures reports { (p : TaskFeeder) → self.old.feeding ≡ Some p →
            (result ≡ Answer.Done) × (report.new ≡ report_of p) }
        ensures ended { self.old.feeding ≡ None →
            (result ≡ Answer.Done) × (report.new ≡ self.old.reported) }
        ensures kept { self.new ≡ self.old }
    {
        match &self.feeder {
            Some(feeder) => {
                *report = Report::of(&feeder.totals(), fault_in(feeder.stop()));
                Answer::Done
            }
            None => {
                *report = self.reported;
                Answer::Done
            }
        }
    }

    /// Ends the stream, and says what was counted, and the fault where it has one. What waits can still be taken.
    pub fn finish(&mut self, report: &mut Report) -> Answer
        ensures finishes { (task : Task) → (b given : List ℕ) → Holds task b given self.old →
            Finished task b result report.new }
        ensures stopped { (p : TaskFeeder) → (e : stops.Stop) → self.old.feeding ≡ Some p →
            stop_of p ≡ Some e → (result ≡ answer_to e) × (report.new ≡ report_of p) }
        ensures ended { self.old.feeding ≡ None →
            (result ≡ Answer.Ended) × (report.new ≡ report.old) }
        ensures reported { (p : TaskFeeder) → self.old.feeding ≡ Some p → self.new.reported ≡ report.new }
        ensures reported_before { self.old.feeding ≡ None → self.new.reported ≡ self.old.reported }
        ensures waits { self.new.waiting ≡ self.old.waiting }
        ensures settings { (self.new.account.limit ≡ self.old.account.limit) ×
            (self.new.share ≡ self.old.share) × (self.new.task ≡ self.old.task) }
        ensures ends { self.new.feeding ≡ None }
        ensures back { self.new.account.live ≡ 0 }
    {
        match replace(&mut self.feeder, None) {
            Some(feeder) => {
                let totals = feeder.totals();
                match feeder.finish(&mut self.ledger) {
                    Ok(_) => {
                        *report = Report::of(&totals, None);
                        self.reported = *report;
                        Answer::Done
                    }
                    Err(stop) => {
                        *report = Report::of(&totals, fault_in(Some(stop)));
                        self.reported = *report;
                        Answer::of_stop(stop)
                    }
                }
            }
            None => Answer::Ended,
        }
    }

    /// Sets the limit of the stream's memory and its room together, but no lower than what it takes of both, and says
    /// how many bytes that is. After a stop and after the end the limit stays.
    pub fn set_limit(&mut self, limit: u64) -> u64
        ensures takes { result ≡
            min (self.old.account.live + self.old.waiting.room) (2 ^ 64 - 1) }
        ensures set { (p : TaskFeeder) → self.old.feeding ≡ Some p → stop_of p ≡ None →
            self.new ≡ limited_to limit self.old }
        ensures stopped { (p : TaskFeeder) → (e : stops.Stop) → self.old.feeding ≡ Some p →
            stop_of p ≡ Some e → self.new ≡ self.old }
        ensures ended { self.old.feeding ≡ None → self.new ≡ self.old }
    {
        let room = self.out.room() as u64;
        let takes = self.ledger.live().saturating_add(room);
        if let Some(feeder) = &self.feeder {
            if feeder.stop().is_none() {
                self.ledger.set_limit(limit.saturating_sub(room));
            }
        }
        takes
    }

    /// Begins another stream with the task, the limit and the room that there are. The one so far is given up, and
    /// what waits of its output is dropped.
    pub fn reset(&mut self)
        ensures { IsReset self.old self.new }
    {
        let next = Some(TaskFeeder::new(self.task));
        give_back(replace(&mut self.feeder, next), &mut self.ledger);
        self.out.clear();
    }
}

impl Drop for Engine {
    fn drop(self) {
        let Engine {
            ledger,
            feeder,
            out: _,
            share: _,
            reported: _,
            task: _,
        } = self;
        let mut ledger = ledger;
        give_back(feeder, &mut ledger);
    }
}

/// How many bytes of the input are taken at once, where so many are free.
fn step_by(share: usize, free: usize) -> usize
    ensures is { (n : ℕ) → free ≡ min n (2 ^ 64 - 1) → result ≡ step_of share n }
    ensures some { 0 < result }
{
    if share == 0 {
        return usize::MAX;
    }
    (free / share).max(1)
}

/// Whether fragments are listed by records.
fn lists_records(task: Task) -> bool
    ensures yes { IsTrue result → task ≡ record_listing }
    ensures no { result ≡ false → task ≡ record_listing → ⊥ }
{
    match task {
        Task::Fragments(Operation::List(Command::Records)) => true,
        _ => false,
    }
}

/// Whether nothing is taken of an input that has bytes.
fn leaves_all(taken: usize, input: &[u8]) -> bool
    ensures all { IsTrue result → (taken ≡ 0) × (0 < length input.now) }
    ensures none { result ≡ false → taken ≡ 0 → input.now ≡ [] }
{
    taken == 0 && !input.is_empty()
}

/// Gives back all that a Feeder has claimed.
fn give_back(feeder: Option<TaskFeeder>, ledger: &mut Ledger)
    requires { ledger.old.live ≡ held_in feeder }
    ensures live { ledger.new.live ≡ 0 }
    ensures limit { ledger.new.limit ≡ ledger.old.limit }
{
    if let Some(feeder) = feeder {
        feeder.give_up(ledger);
    }
}
