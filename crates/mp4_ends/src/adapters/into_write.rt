//! A writer of std.

ghost use Rattle.std.specs.Prelude.{◌≡◌, ◌<◌, ◌≤◌, length, true, false, Ok, IfOk, IsErr, OnOk, OnErr};
ghost use Rattle.std.specs.Io.KnownBytes.{Keeps, WriteAppends};
ghost use Rattle.mp4_ends.specs.Ends.{state_failed};
ghost use Rattle.mp4_ends.specs.declared.adapters.State.TheVariants.{Open, Broken};

use super::State;
use crate::streams::{Failed, Sink};
use std::io;
use std::marker::Model;

/// A writer of std as a sink. Each of its errors, an interrupted write too, and a write that takes nothing
/// is a failure.
#[derive(Drop)]
pub struct IntoWrite<W> {
    inner: W,
    state: State,
}

impl<W> Model for IntoWrite<W> {
    ghost use Rattle.mp4_ends.specs.Ends.{AdaptedWriter};

    ghost Value = { AdaptedWriter W };

    ghost view = { λ s. record { inner = s.inner; state = s.state } };
}

impl<W: io::Write> IntoWrite<W> {
    /// A sink that hasn't failed, over this writer.
    pub fn new(inner: W) -> Self
        ensures { result ≡ record { inner = inner; state = Open } }
    {
        IntoWrite {
            inner,
            state: State::Open,
        }
    }
}

impl<W: io::Write> Sink for IntoWrite<W> {
    ghost contents = { λ s. W.contents s.inner };

    ghost has_failed = { λ s. state_failed s.state };

    fn write(&mut self, from: &[u8]) -> Result<usize, Failed>
        requires { 0 < length from.now }

        // Those of every sink.
        ensures bound { IfOk result (λ n. (0 < n) × (n ≤ length from.now)) }
        ensures bytes { WriteAppends (W.contents self.old.inner) (W.contents self.new.inner) result
            from.now }
        ensures failed_ok { OnOk result ((state_failed self.old.state ≡ false) ×
            (state_failed self.new.state ≡ false)) }
        ensures failed_err { OnErr result (state_failed self.new.state ≡ true) }

        // Once it has failed nothing changes, the writer within neither.
        ensures rests { self.old.state ≡ Broken → self.new ≡ self.old }
    {
        if self.failed() {
            return Err(Failed);
        }
        match write_answer(self.inner.write(from)) {
            Ok(n) => Ok(n),
            Err(Failed) => {
                self.state = State::Broken;
                Err(Failed)
            }
        }
    }

    fn flush(&mut self) -> Result<(), Failed>
        // Those of every sink.
        ensures bytes { Keeps (W.contents self.old.inner) (W.contents self.new.inner) }
        ensures failed_ok { OnOk result ((state_failed self.old.state ≡ false) ×
            (state_failed self.new.state ≡ false)) }
        ensures failed_err { OnErr result (state_failed self.new.state ≡ true) }

        // Once it has failed nothing changes, the writer within neither.
        ensures rests { self.old.state ≡ Broken → self.new ≡ self.old }
    {
        if self.failed() {
            return Err(Failed);
        }
        match flush_answer(self.inner.flush()) {
            Ok(()) => Ok(()),
            Err(Failed) => {
                self.state = State::Broken;
                Err(Failed)
            }
        }
    }

    fn failed(&self) -> bool {
        matches!(self.state, State::Broken)
    }
}

/// Result of a write of std's: each of its errors is a failure, and so is a write that takes nothing.
fn write_answer(answer: io::Result<usize>) -> Result<usize, Failed>
    ensures some { IfOk answer (λ n. 0 < n → result ≡ Ok n) }
    ensures none { IfOk answer (λ n. n ≡ 0 → IsErr result) }
    ensures err { OnErr answer (IsErr result) }
{
    match answer {
        Ok(n) if n > 0 => Ok(n),
        _ => Err(Failed),
    }
}

/// Result of a flush of std's: each of its errors is a failure.
fn flush_answer(answer: io::Result<()>) -> Result<(), Failed>
    ensures ok { OnOk answer (result ≡ Ok tt) }
    ensures err { OnErr answer (IsErr result) }
{
    match answer {
        Ok(()) => Ok(()),
        Err(_) => Err(Failed),
    }
}
