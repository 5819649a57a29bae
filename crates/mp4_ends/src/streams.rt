//! The two ends of a stream: what its bytes are read from, and what bytes are written to.

ghost use Rattle.std.specs.Prelude.{◌≡◌, ℕ, ◌<◌, ◌≤◌, List, length, take, Option, None, Bool, true, false, IfOk, IfErr, OnOk, OnErr, eqb};
ghost use Rattle.std.specs.Io.{ReadsAtMost};
ghost use Rattle.std.specs.Io.KnownBytes.{ReadConsumes, WriteAppends, Keeps, Appends};
ghost use Rattle.mp4_ends.specs.Streams.{AppendsPrefix};

/// A source or a sink has failed: it returns this from then on.
#[derive(Clone, Copy, Debug, PartialEq, Eq)]
pub struct Failed;

/// What the bytes of a stream are read from.
pub trait Source {
    // The bytes that reads will give from here on, where they are known.
    ghost remaining: { Self → Option (List ℕ) } = { λ _. None };

    // Some call has answered `Failed`.
    ghost has_failed: { Self → Bool };

    // A read has answered 0.
    ghost has_ended: { Self → Bool };

    // How many bytes the last read gave: 0 where none was made yet, after the end, and after a failure.
    ghost last_read: { Self → ℕ };

    /// Reads some bytes into the front of `into`, at least one: how many. 0 is the end of the stream, and
    /// from then on each read returns 0.
    ///
    /// # Errors
    ///
    /// `Failed`, with no byte read; from then on each read returns this.
    fn read(&mut self, into: &mut [u8]) -> Result<usize, Failed>
        requires { 0 < length into.old }
        ensures bound { ReadsAtMost result into.new }
        ensures bytes { ReadConsumes (remaining self.old) (remaining self.new) result into.new }

        // Failures and the end are reported by the result.
        ensures failed_ok { OnOk result ((has_failed self.old ≡ false) ×
            (has_failed self.new ≡ false)) }
        ensures failed_err { OnErr result (has_failed self.new ≡ true) }
        ensures ended { IfOk result (λ n. (has_ended self.old ≡ true → n ≡ 0) ×
            (has_ended self.new ≡ eqb n 0)) }
        ensures ended_err { OnErr result ((has_ended self.old ≡ false) ×
            (has_ended self.new ≡ false)) }

        // So is how many bytes the last read gave.
        ensures last { IfOk result (λ n. last_read self.new ≡ n) }
        ensures last_err { OnErr result (last_read self.new ≡ 0) };

    /// Whether some call has answered `Failed`.
    fn failed(&self) -> bool
        ensures { result ≡ has_failed self.now };

    /// Whether a read has answered 0.
    fn ended(&self) -> bool
        ensures { result ≡ has_ended self.now };
}

/// What bytes are written to.
pub trait Sink {
    // The bytes that were taken so far, where they are known.
    ghost contents: { Self → Option (List ℕ) } = { λ _. None };

    // Some call has answered `Failed`.
    ghost has_failed: { Self → Bool };

    /// Writes some bytes from the front of `from`, at least one: how many.
    ///
    /// # Errors
    ///
    /// `Failed`, with no byte taken; from then on each call returns this.
    fn write(&mut self, from: &[u8]) -> Result<usize, Failed>
        requires { 0 < length from.now }
        ensures bound { IfOk result (λ n. (0 < n) × (n ≤ length from.now)) }
        ensures bytes { WriteAppends (contents self.old) (contents self.new) result from.now }
        ensures failed_ok { OnOk result ((has_failed self.old ≡ false) ×
            (has_failed self.new ≡ false)) }
        ensures failed_err { OnErr result (has_failed self.new ≡ true) };

    /// Sends on what was taken.
    ///
    /// # Errors
    ///
    /// `Failed`; from then on each call returns this.
    fn flush(&mut self) -> Result<(), Failed>
        ensures bytes { Keeps (contents self.old) (contents self.new) }
        ensures failed_ok { OnOk result ((has_failed self.old ≡ false) ×
            (has_failed self.new ≡ false)) }
        ensures failed_err { OnErr result (has_failed self.new ≡ true) };

    /// Whether some call has answered `Failed`.
    fn failed(&self) -> bool
        ensures { result ≡ has_failed self.now };
}

/// A write has failed before all was taken.
#[derive(Clone, Copy, Debug, PartialEq, Eq)]
pub struct Short {
    /// How many bytes of the front were taken.
    pub taken: usize,
}

/// Writes all of these bytes, in as many writes as it takes.
///
/// # Errors
///
/// `Short` where a write failed, with how many bytes of the front were taken: not all.
pub fn write_front<W: Sink>(w: &mut W, from: &[u8]) -> Result<(), Short>
    ensures ok { OnOk result (Appends (W.contents w.old) (W.contents w.new) from.now) }
    ensures short { IfErr result (λ s. (s.taken < length from.now) ×
        Appends (W.contents w.old) (W.contents w.new) (take s.taken from.now)) }
    ensures failed { OnErr result (W.has_failed w.new ≡ true) }
    ensures kept { OnOk result (W.has_failed w.new ≡ W.has_failed w.old) }
{
    let mut at = 0;
    while at < from.len() {
        match w.write(&from[at..]) {
            Ok(n) => at += n,
            Err(Failed) => return Err(Short { taken: at }),
        }
    }
    Ok(())
}

/// Writes all of these bytes, in as many writes as it takes.
///
/// # Errors
///
/// `Failed`, with a front of the bytes written.
pub fn write_all<W: Sink>(w: &mut W, from: &[u8]) -> Result<(), Failed>
    ensures ok { OnOk result (Appends (W.contents w.old) (W.contents w.new) from.now) }
    ensures front { OnErr result (AppendsPrefix (W.contents w.old) (W.contents w.new) from.now) }
    ensures failed { OnErr result (W.has_failed w.new ≡ true) }
    ensures kept { OnOk result (W.has_failed w.new ≡ W.has_failed w.old) }
{
    match write_front(w, from) {
        Ok(()) => Ok(()),
        Err(_) => Err(Failed),
    }
}
