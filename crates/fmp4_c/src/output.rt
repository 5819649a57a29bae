//! Output that waits to be taken.

ghost use Rattle.std.specs.Prelude.{◌≡◌, ◌↔◌, ◌-◌, ◌+◌, ◌<◌, ◌≤◌, min, [], ◌∷◌, ◌++◌, length, take, drop};
ghost use Rattle.std.specs.Prelude.{IsTrue, Some, true, false, IfOk, OnOk, OnErr, vec_capacity, vec_len};
ghost use Rattle.std.specs.Io.KnownBytes.{WriteAppends, Keeps};
ghost use Rattle.fmp4_c.specs.PendingOutput.{empty};

use mp4_ends::{Failed, Sink};
use std::alloc::{AllocError, Global};
use std::marker::Model;

/// Bytes that are written one after the other, and taken from the front. Their room is there from the beginning.
#[derive(Drop)]
pub(crate) struct Output {
    bytes: Vec<u8>,
    /// How many of them were taken.
    at: usize,
    /// How many may be there at once.
    room: usize,
    /// Whether a write found no room, and nothing was taken since.
    failed: bool,
}

// A contract sees the bytes that wait, how many may, and whether a write found no room. Then the room is full.
impl Model for Output {
    ghost use Rattle.std.specs.Prelude.{◌≡◌, ◌-◌, ◌≤◌, true, drop, vec_capacity, vec_len};
    ghost use Rattle.fmp4_c.specs.PendingOutput.{PendingOutput};

    ghost Value = { PendingOutput };

    ghost view = { λ o. record { bytes = drop o.at o.bytes.items; room = o.room; failed = o.failed } };

    ghost invariant = { λ o. (o.at ≤ vec_len o.bytes) × (vec_len o.bytes ≤ o.room) ×
        (o.room ≤ vec_capacity o.bytes) × (o.failed ≡ true → vec_len o.bytes - o.at ≡ o.room) };
}

impl Output {
    /// None yet, with room for so many bytes.
    ///
    /// # Errors
    ///
    /// The allocator has no memory for them.
    pub(crate) fn new(alloc: Global, room: usize) -> Result<Output, AllocError>
        ensures { IfOk result (λ o. o ≡ empty room) }
    {
        match Vec::with_capacity(alloc, room) {
            Ok(bytes) => Ok(Output {
                bytes,
                at: 0,
                room,
                failed: false,
            }),
            Err(error) => Err(error),
        }
    }

    /// How many bytes wait.
    pub(crate) fn len(&self) -> usize
        ensures len { result ≡ length self.now.bytes }
        ensures within { length self.now.bytes ≤ self.now.room }
    {
        self.bytes.len() - self.at
    }

    /// How many may wait.
    pub(crate) fn room(&self) -> usize
        ensures { result ≡ self.now.room }
    {
        self.room
    }

    /// Drops all that wait.
    pub(crate) fn clear(&mut self)
        ensures { self.new ≡ empty self.old.room }
    {
        self.bytes.clear();
        self.at = 0;
        self.failed = false;
    }

    /// Whether none wait.
    pub(crate) fn is_empty(&self) -> bool
        ensures { IsTrue result ↔ (self.now.bytes ≡ []) }
    {
        self.len() == 0
    }

    /// Whether a write found no room. It is full then.
    pub(crate) fn is_full(&self) -> bool
        ensures is { result ≡ self.now.failed }
        ensures full { IsTrue result → length self.now.bytes ≡ self.now.room }
    {
        self.failed
    }

    /// For how many more there is room.
    pub(crate) fn free(&self) -> usize
        ensures { result ≡ self.now.room - length self.now.bytes }
    {
        self.room - self.len()
    }

    /// Copies bytes of the front, which stay: as many as wait, or as fit.
    pub(crate) fn peek(&self, out: &mut [u8]) -> usize
        ensures count { result ≡ min (length out.old) (length self.now.bytes) }
        ensures front { take result out.new ≡ take result self.now.bytes }
        ensures rest { drop result out.new ≡ drop result out.old }
        ensures within { result ≤ length self.now.bytes }
    {
        let count = out.len().min(self.bytes.len() - self.at);
        out[..count].copy_from_slice(&self.bytes[self.at..self.at + count]);
        count
    }

    /// Drops bytes of the front: as many as wait, or `count`.
    pub(crate) fn skip(&mut self, count: usize) -> usize
        ensures count { result ≡ min count (length self.old.bytes) }
        ensures left { self.new.bytes ≡ drop result self.old.bytes }
        ensures room { self.new.room ≡ self.old.room }
    {
        let count = count.min(self.len());
        self.forget(count);
        count
    }

    /// Takes bytes from the front: as many as wait, or as fit.
    pub(crate) fn take(&mut self, out: &mut [u8]) -> usize
        ensures count { result ≡ min (length out.old) (length self.old.bytes) }
        ensures front { take result out.new ≡ take result self.old.bytes }
        ensures rest { drop result out.new ≡ drop result out.old }
        ensures left { self.new.bytes ≡ drop result self.old.bytes }
        ensures room { self.new.room ≡ self.old.room }
    {
        let count = self.peek(out);
        self.forget(count);
        count
    }

    /// Takes bytes from the front into a buffer, from `at` on: as many as wait, or as fit.
    pub(crate) fn give(&mut self, buffer: &mut [u8], at: usize) -> usize
        requires { at ≤ length buffer.old }
        ensures count { result ≡ min (length buffer.old - at) (length self.old.bytes) }
        ensures front { take (at + result) buffer.new ≡
            take at buffer.old ++ take result self.old.bytes }
        ensures left { self.new.bytes ≡ drop result self.old.bytes }
        ensures room { self.new.room ≡ self.old.room }
    {
        let count = (buffer.len() - at).min(self.bytes.len() - self.at);
        buffer[at..at + count].copy_from_slice(&self.bytes[self.at..self.at + count]);
        self.forget(count);
        count
    }

    /// Forgets so many bytes of the front, which were taken.
    fn forget(&mut self, count: usize)
        requires { count ≤ length self.old.bytes }
        ensures bytes { self.new.bytes ≡ drop count self.old.bytes }
        ensures room { self.new.room ≡ self.old.room }
    {
        self.at += count;
        if count > 0 {
            self.failed = false;
        }
        if self.at == self.bytes.len() {
            // So the next bytes go to memory that was just used.
            self.bytes.clear();
            self.at = 0;
        }
    }

    /// Appends bytes for which there is room. Where the end has none, what waits is moved to the front first.
    fn append(&mut self, more: &[u8])
        requires { length self.old.bytes + length more.now ≤ self.old.room }
        ensures { self.new ≡ record self.old { bytes = self.old.bytes ++ more.now } }
    {
        if self.room - self.bytes.len() < more.len() {
            close_up(&mut self.bytes, self.at);
            self.at = 0;
        }
        self.bytes.extend_from_slice(more).unwrap();
    }
}

/// Moves the bytes from `at` on to the front, and forgets those before.
fn close_up(bytes: &mut Vec<u8>, at: usize)
    requires { at ≤ vec_len bytes.old }
    ensures items { bytes.new.items ≡ drop at bytes.old.items }
    ensures len { vec_len bytes.new ≡ vec_len bytes.old - at }
    ensures capacity { vec_capacity bytes.new ≡ vec_capacity bytes.old }
{
    let left = bytes.len() - at;
    bytes.copy_within(at.., 0);
    bytes.truncate(left);
}

impl Sink for Output {
    // The room is before the bytes, so that no write changes it.
    ghost contents = { λ o. Some (o.room ∷ o.bytes) };

    ghost has_failed = { λ o. o.failed };

    // It fails only where the room is full, and takes what fits.
    fn write(&mut self, from: &[u8]) -> Result<usize, Failed>
        requires { 0 < length from.now }
        ensures bound { IfOk result (λ n. (0 < n) × (n ≤ length from.now)) }
        ensures bytes { WriteAppends (Some (self.old.room ∷ self.old.bytes))
            (Some (self.new.room ∷ self.new.bytes)) result from.now }
        ensures failed_ok { OnOk result ((self.old.failed ≡ false) × (self.new.failed ≡ false)) }
        ensures failed_err { OnErr result (self.new.failed ≡ true) }
        ensures full { OnErr result (self.old.failed ≡ false →
            length self.old.bytes ≡ self.old.room) }
        ensures fits { IfOk result (λ n.
            n ≡ min (length from.now) (self.old.room - length self.old.bytes)) }
    {
        if self.failed {
            return Err(Failed);
        }
        let count = from.len().min(self.free());
        if count == 0 {
            self.failed = true;
            return Err(Failed);
        }
        self.append(&from[..count]);
        Ok(count)
    }

    fn flush(&mut self) -> Result<(), Failed> {
        if self.failed {
            return Err(Failed);
        }
        Ok(())
    }

    fn failed(&self) -> bool {
        self.failed
    }
}
