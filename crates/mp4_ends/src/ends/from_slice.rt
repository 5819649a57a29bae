//! Bytes in memory to read from.

ghost use Rattle.std.specs.Prelude.{◌≡◌, ◌==◌, ◌<◌, ◌≤◌, ◌⊎◌, min, if◌then◌else◌, [], length, drop, Some, true, false, IfOk, OnOk, OnErr, eqb};
ghost use Rattle.std.specs.Io.{ReadsAtMost};
ghost use Rattle.std.specs.Io.KnownBytes.{ReadConsumes};
ghost use Rattle.mp4_ends.specs.Ends.{last_in, left_in, state_ended, state_failed};
ghost use Rattle.mp4_ends.specs.declared.adapters.State.TheVariants.{Open, Ended, Broken};

use crate::adapters::State;
use crate::streams::{Failed, Source};
use std::marker::Model;

/// Bytes in memory as a source.
#[derive(Drop)]
pub struct FromSlice<'a> {
    left: &'a [u8],
    step: usize,
    fails: bool,
    state: State,
    /// How many bytes the last read gave that gave any.
    last: usize,
}

impl<'a> Model for FromSlice<'a> {
    ghost use Rattle.std.specs.Prelude.{◌<◌};
    ghost use Rattle.mp4_ends.specs.Ends.{SliceEnd};

    ghost Value = { SliceEnd };

    ghost view = { λ s. record
        { left = s.left.now; step = s.step; fails = s.fails; state = s.state; last = s.last } };

    ghost invariant = { λ s. 0 < s.step };
}

impl<'a> FromSlice<'a> {
    /// A source that gives these bytes, at most `step` a read, and then the end of the stream, or where it
    /// `fails` a failure.
    pub fn new(bytes: &'a [u8], step: usize, fails: bool) -> Self
        requires { 0 < step }
        ensures { result ≡ record
            { left = bytes.now; step = step; fails = fails; state = Open; last = 0 } }
    {
        FromSlice {
            left: bytes,
            step,
            fails,
            state: State::Open,
            last: 0,
        }
    }
}

impl<'a> Source for FromSlice<'a> {
    ghost remaining = { λ s. left_in s.state (Some s.left) };

    ghost has_failed = { λ s. state_failed s.state };

    ghost has_ended = { λ s. state_ended s.state };

    ghost last_read = { λ s. last_in s.state s.last };

    fn read(&mut self, into: &mut [u8]) -> Result<usize, Failed>
        requires { 0 < length into.old }

        // Those of every source.
        ensures bound { ReadsAtMost result into.new }
        ensures bytes { ReadConsumes (left_in self.old.state (Some self.old.left))
            (left_in self.new.state (Some self.new.left)) result into.new }
        ensures failed_ok { OnOk result ((state_failed self.old.state ≡ false) ×
            (state_failed self.new.state ≡ false)) }
        ensures failed_err { OnErr result (state_failed self.new.state ≡ true) }
        ensures ended { IfOk result (λ n. (state_ended self.old.state ≡ true → n ≡ 0) ×
            (state_ended self.new.state ≡ eqb n 0)) }
        ensures ended_err { OnErr result ((state_ended self.old.state ≡ false) ×
            (state_ended self.new.state ≡ false)) }
        ensures last { IfOk result (λ n. last_in self.new.state self.new.last ≡ n) }
        ensures last_err { OnErr result (last_in self.new.state self.new.last ≡ 0) }

        // How many, when it fails, and its state afterwards.
        ensures count { IfOk result (λ n. self.old.state ≡ Open → n ≡ min
            (min (length self.old.left) self.old.step) (length into.old)) }
        ensures step { IfOk result (λ n. n ≤ self.old.step) }
        ensures fails { OnErr result ((self.old.state ≡ Broken) ⊎
            ((self.old.left ≡ []) × (self.old.fails ≡ true))) }
        ensures ends { IfOk result (λ n. n ≡ 0 → self.old.state ≡ Open → self.old.fails ≡ false) }
        ensures after { IfOk result (λ n. self.new ≡ record self.old {
          left = drop n self.old.left;
          state = if n == 0 then Ended else Open;
          last = if n == 0 then self.old.last else n;
        }) }
        ensures after_err { OnErr result (self.new ≡ record self.old { state = Broken }) }
    {
        match self.state {
            State::Broken => return Err(Failed),
            State::Ended => return Ok(0),
            State::Open => {}
        }
        let n = self.left.len().min(self.step).min(into.len());
        if n == 0 && self.fails {
            self.state = State::Broken;
            return Err(Failed);
        }
        if n == 0 {
            self.state = State::Ended;
            return Ok(0);
        }
        into[..n].copy_from_slice(&self.left[..n]);
        self.left = &self.left[n..];
        self.last = n;
        Ok(n)
    }

    fn failed(&self) -> bool {
        matches!(self.state, State::Broken)
    }

    fn ended(&self) -> bool {
        matches!(self.state, State::Ended)
    }
}
