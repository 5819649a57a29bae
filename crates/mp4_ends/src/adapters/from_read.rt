//! A reader of std.

ghost use Rattle.std.specs.Prelude.{◌≡◌, ◌≢◌, ◌<◌, length, true, false, eqb, Ok, IfOk, OnOk, IsErr, OnErr};
ghost use Rattle.std.specs.Io.{ReadsAtMost};
ghost use Rattle.std.specs.Io.KnownBytes.{ReadConsumes};
ghost use Rattle.mp4_ends.specs.Ends.{last_in, left_in, state_ended, state_failed};
ghost use Rattle.mp4_ends.specs.declared.adapters.State.TheVariants.{Open};

use super::State;
use crate::streams::{Failed, Source};
use std::io;
use std::marker::Model;

/// A reader of std as a source. Each of its errors, an interrupted read too, is a failure.
#[derive(Drop)]
pub struct FromRead<R> {
    inner: R,
    state: State,
    /// How many bytes the last read gave that gave any.
    last: usize,
}

impl<R> Model for FromRead<R> {
    ghost use Rattle.mp4_ends.specs.Ends.{AdaptedReader};

    ghost Value = { AdaptedReader R };

    ghost view = { λ s. record { inner = s.inner; state = s.state; last = s.last } };
}

impl<R: io::Read> FromRead<R> {
    /// A source that has neither ended nor failed, over this reader.
    pub fn new(inner: R) -> Self
        ensures { result ≡ record { inner = inner; state = Open; last = 0 } }
    {
        FromRead {
            inner,
            state: State::Open,
            last: 0,
        }
    }
}

impl<R: io::Read> Source for FromRead<R> {
    ghost remaining = { λ s. left_in s.state (R.remaining s.inner) };

    ghost has_failed = { λ s. state_failed s.state };

    ghost has_ended = { λ s. state_ended s.state };

    ghost last_read = { λ s. last_in s.state s.last };

    fn read(&mut self, into: &mut [u8]) -> Result<usize, Failed>
        requires { 0 < length into.old }

        // Those of every source.
        ensures bound { ReadsAtMost result into.new }
        ensures bytes { ReadConsumes (left_in self.old.state (R.remaining self.old.inner))
            (left_in self.new.state (R.remaining self.new.inner)) result into.new }
        ensures failed_ok { OnOk result ((state_failed self.old.state ≡ false) ×
            (state_failed self.new.state ≡ false)) }
        ensures failed_err { OnErr result (state_failed self.new.state ≡ true) }
        ensures ended { IfOk result (λ n. (state_ended self.old.state ≡ true → n ≡ 0) ×
            (state_ended self.new.state ≡ eqb n 0)) }
        ensures ended_err { OnErr result ((state_ended self.old.state ≡ false) ×
            (state_ended self.new.state ≡ false)) }
        ensures last { IfOk result (λ n. last_in self.new.state self.new.last ≡ n) }
        ensures last_err { OnErr result (last_in self.new.state self.new.last ≡ 0) }

        // Once it has ended or failed nothing changes, the reader within neither.
        ensures rests { self.old.state ≢ Open → self.new ≡ self.old }
    {
        match self.state {
            State::Broken => Err(Failed),
            State::Ended => Ok(0),
            State::Open => match read_answer(self.inner.read(into)) {
                Ok(0) => {
                    self.state = State::Ended;
                    Ok(0)
                }
                Ok(n) => {
                    self.last = n;
                    Ok(n)
                }
                Err(Failed) => {
                    self.state = State::Broken;
                    Err(Failed)
                }
            },
        }
    }

    fn failed(&self) -> bool {
        matches!(self.state, State::Broken)
    }

    fn ended(&self) -> bool {
        matches!(self.state, State::Ended)
    }
}

/// Result of a read of std's: each of its errors is a failure.
fn read_answer(answer: io::Result<usize>) -> Result<usize, Failed>
    ensures ok { IfOk answer (λ n. result ≡ Ok n) }
    ensures err { OnErr answer (IsErr result) }
{
    match answer {
        Ok(n) => Ok(n),
        Err(_) => Err(Failed),
    }
}
