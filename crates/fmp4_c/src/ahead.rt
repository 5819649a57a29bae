//! Output that goes to a buffer of the caller's first, and waits where that is full.

ghost use Rattle.std.specs.Prelude.{◌≡◌, ℕ, ◌+◌, ◌<◌, ◌≤◌, List, [], ◌∷◌, ◌++◌, length, take, Some, None, true, false, IsTrue, IfErr, OnErr, OnOk, IsErrOf};
ghost use Rattle.mp4_machine.specs.Fed.{borrowed};
ghost use Rattle.mp4_machine.specs.declared.stop.Stop as stops;
ghost use Rattle.fmp4_c.specs.Tasks.{Feeds, IsAfter, fragments_in, held_by, stop_of, task_of};
ghost use Rattle.fmp4_c.specs.PendingOutput.{ahead, ahead_sent, empty, is_full};

use crate::output::Output;
use crate::task_feeder::TaskFeeder;
use mp4_ends::{Failed, Sink};
use mp4_stream::{Ledger, Stop};

/// A buffer that is filled up to a place, and the room for what doesn't fit it.
#[derive(Drop)]
struct Ahead<'a> {
    buffer: &'a mut [u8],
    /// Up to where the buffer is filled.
    at: usize,
    rest: &'a mut Output,
}

/// What feeding a Feeder did.
pub(crate) struct Passed {
    /// Up to where the buffer is filled.
    pub(crate) at: usize,
    /// The Feeder's answer.
    pub(crate) result: Result<(), Stop>,
}

/// Puts bytes into a buffer, from `at` on: as many as fit.
fn put(buffer: &mut [u8], at: usize, from: &[u8]) -> usize
    requires place { at < length buffer.old }
    requires some { 0 < length from.now }
    ensures bound { (0 < result) × (result ≤ length from.now) }
    ensures within { at + result ≤ length buffer.new }
    ensures bytes { take (at + result) buffer.new ≡ take at buffer.old ++ take result from.now }
{
    let count = from.len().min(buffer.len() - at);
    buffer[at..at + count].copy_from_slice(&from[..count]);
    count
}

/// Moves what waits to a buffer, from `at` on, as far as it goes: then the buffer is full, or nothing waits.
fn move_up(buffer: &mut [u8], at: usize, rest: &mut Output) -> usize
    requires { at ≤ length buffer.old }
    ensures within { result ≤ length buffer.new }
    ensures bytes { take result buffer.new ++ rest.new.bytes ≡ take at buffer.old ++ rest.old.bytes }
    ensures emptied { result < length buffer.new → rest.new ≡ empty rest.old.room }
    ensures room { rest.new.room ≡ rest.old.room }
{
    let end = at + rest.give(buffer, at);
    if end < buffer.len() {
        rest.clear();
    }
    end
}

impl<'a> Ahead<'a> {
    /// Whether the buffer is filled to its end.
    fn is_filled(&self) -> bool
        ensures filled { IsTrue result → length self.now.buffer.now ≤ self.now.at }
        ensures open { result ≡ false → self.now.at < length self.now.buffer.now }
    {
        self.at >= self.buffer.len()
    }
}

impl<'a> Sink for Ahead<'a> {
    // Which buffer and which room these are comes first, so that no write changes it.
    ghost contents = { λ a. Some (ahead a.buffer.ghost_name a.rest.ghost_name a.rest.now.room a.at
        a.buffer.now a.rest.now.bytes) };

    ghost has_failed = { λ a. is_full a.at (length a.buffer.now) a.rest.now.failed };

    fn write(&mut self, from: &[u8]) -> Result<usize, Failed> {
        if !self.is_filled() {
            self.at = move_up(self.buffer, self.at, self.rest);
        }
        if !self.is_filled() {
            let count = put(self.buffer, self.at, from);
            self.at += count;
            return Ok(count);
        }
        self.rest.write(from)
    }

    fn flush(&mut self) -> Result<(), Failed> {
        if !self.is_filled() {
            return Ok(());
        }
        self.rest.flush()
    }

    fn failed(&self) -> bool {
        self.is_filled() && self.rest.is_full()
    }
}

/// Feeds a Feeder, whose output goes to a buffer and then to the room.
///
/// # Errors
///
/// As [`TaskFeeder::feed`].
fn feed_through(
    feeder: &mut TaskFeeder,
    ledger: &mut Ledger,
    input: &[u8],
    w: &mut Ahead<'_>,
) -> Result<(), Stop>
    requires claim { held_by feeder.old ≤ ledger.old.live }
    ensures same_buffer { (b : List ℕ) → IsAfter feeder.old b →
        w.new.buffer.ghost_name ≡ w.old.buffer.ghost_name }
    ensures same_rest { (b : List ℕ) → IsAfter feeder.old b →
        w.new.rest.ghost_name ≡ w.old.rest.ghost_name }
    ensures full { stop_of feeder.old ≡ None → IsErrOf result Stop.Write →
        is_full w.new.at (length w.new.buffer.now) w.new.rest.now.failed ≡ true }
    ensures feeds { (b : List ℕ) → IsAfter feeder.old b → Feeds b input.now feeder.old feeder.new
        (borrowed (ahead_sent w.old.buffer.ghost_name w.old.rest.ghost_name w.old.at w.new.at
        w.old.buffer.now w.new.buffer.now w.old.rest.now w.new.rest.now)
        (fragments_in feeder.old) (fragments_in feeder.new) ledger.old ledger.new) result }
    ensures task { task_of feeder.new ≡ task_of feeder.old }
    ensures runs { OnOk result (stop_of feeder.new ≡ None) }
    ensures stops { IfErr result (λ e. stop_of feeder.new ≡ Some e) }
    ensures spent { OnErr result (held_by feeder.new ≡ 0) }
    ensures empty { input.now ≡ [] → feeder.new ≡ feeder.old }
    ensures live { ledger.new.live + held_by feeder.old ≡ ledger.old.live + held_by feeder.new }
    ensures limit { ledger.new.limit ≡ ledger.old.limit }
    ensures claim { held_by feeder.new ≤ ledger.new.live }
{
    feeder.feed(ledger, input, w)
}

/// Feeds a Feeder. Its output goes to a buffer from `at` on, and waits where that is full.
pub(crate) fn feed_ahead(
    feeder: &mut TaskFeeder,
    ledger: &mut Ledger,
    input: &[u8],
    buffer: &mut [u8],
    at: usize,
    rest: &mut Output,
) -> Passed
    requires claim { held_by feeder.old ≤ ledger.old.live }
    ensures feeds { (b : List ℕ) → IsAfter feeder.old b → (x : ℕ) × (y : ℕ) ×
        Feeds b input.now feeder.old feeder.new
        (borrowed (ahead_sent x y at result.at buffer.old buffer.new rest.old rest.new)
        (fragments_in feeder.old) (fragments_in feeder.new) ledger.old ledger.new) result.result }
    ensures task { task_of feeder.new ≡ task_of feeder.old }
    ensures runs { OnOk result.result (stop_of feeder.new ≡ None) }
    ensures stops { IfErr result.result (λ e. stop_of feeder.new ≡ Some e) }
    ensures spent { OnErr result.result (held_by feeder.new ≡ 0) }
    ensures empty { input.now ≡ [] → feeder.new ≡ feeder.old }
    ensures live { ledger.new.live + held_by feeder.old ≡ ledger.old.live + held_by feeder.new }
    ensures limit { ledger.new.limit ≡ ledger.old.limit }
    ensures claim { held_by feeder.new ≤ ledger.new.live }
    ensures within { result.at ≤ length buffer.new }
    ensures full { (b : List ℕ) → IsAfter feeder.old b → IsErrOf result.result Stop.Write →
        (length buffer.new ≤ result.at) × (length rest.new.bytes ≡ rest.new.room) }
{
    let most = buffer.len();
    let mut ahead = Ahead { buffer, at, rest };
    let result = feed_through(feeder, ledger, input, &mut ahead);
    let _ = ahead.rest.is_full();
    Passed {
        at: ahead.at.min(most),
        result,
    }
}
