//! Memory to write to.

ghost use Rattle.std.specs.Prelude.{◌≡◌, ◌-◌, ◌<◌, ◌≤◌, ◌⊎◌, ◌↔◌, min, [], ◌++◌, length, take, Some, true, false, IfOk, IsOk, OnOk, OnErr};
ghost use Rattle.std.specs.Io.KnownBytes.{WriteAppends, Keeps};

use crate::streams::{Failed, Sink};
use std::alloc::{AllocError, Global};
use std::marker::Model;

/// Memory as a sink.
#[derive(Drop)]
pub struct ToVec {
    taken: Vec<u8>,
    room: usize,
    step: usize,
    flushes: bool,
    broken: bool,
}

impl Model for ToVec {
    ghost use Rattle.std.specs.Prelude.{◌<◌, ◌≤◌, vec_len, vec_capacity};
    ghost use Rattle.mp4_ends.specs.Ends.{VecEnd};

    ghost Value = { VecEnd };

    ghost view = { λ s. record {
      taken = s.taken.items;
      room = s.room;
      step = s.step;
      flushes = s.flushes;
      broken = s.broken;
    } };

    ghost invariant = { λ s. (0 < s.step) × (vec_len s.taken ≤ s.room) × (s.room ≤ vec_capacity s.taken) };
}

impl ToVec {
    /// A sink that takes at most `step` bytes a write and `room` in all, and then fails; its flush fails
    /// unless it `flushes`.
    pub fn new(alloc: Global, room: usize, step: usize, flushes: bool) -> Result<ToVec, AllocError>
        requires { 0 < step }
        ensures { IfOk result (λ v. v ≡ record
            { taken = []; room = room; step = step; flushes = flushes; broken = false }) }
    {
        Ok(ToVec {
            taken: Vec::with_capacity(alloc, room)?,
            room,
            step,
            flushes,
            broken: false,
        })
    }

    /// The bytes that it took.
    pub fn bytes(&self) -> &[u8]
        ensures { result.now ≡ self.now.taken }
    {
        &self.taken
    }
}

impl Sink for ToVec {
    ghost contents = { λ s. Some s.taken };

    ghost has_failed = { λ s. s.broken };

    fn write(&mut self, from: &[u8]) -> Result<usize, Failed>
        requires { 0 < length from.now }

        // Those of every sink.
        ensures bound { IfOk result (λ n. (0 < n) × (n ≤ length from.now)) }
        ensures bytes { WriteAppends (Some self.old.taken) (Some self.new.taken) result from.now }
        ensures failed_ok { OnOk result ((self.old.broken ≡ false) × (self.new.broken ≡ false)) }
        ensures failed_err { OnErr result (self.new.broken ≡ true) }

        // How many, when it fails, and its state afterwards.
        ensures count { IfOk result (λ n. n ≡ min (min (length from.now) self.old.step)
            (self.old.room - length self.old.taken)) }
        ensures fails { OnErr result ((self.old.broken ≡ true) ⊎
            (self.old.room ≤ length self.old.taken)) }
        ensures after { IfOk result (λ n. self.new ≡ record self.old
            { taken = self.old.taken ++ take n from.now }) }
        ensures after_err { OnErr result (self.new ≡ record self.old { broken = true }) }
    {
        if self.broken {
            return Err(Failed);
        }
        let n = from.len().min(self.step).min(self.room - self.taken.len());
        if n == 0 {
            self.broken = true;
            return Err(Failed);
        }
        self.taken.extend_from_slice(&from[..n]).unwrap();
        Ok(n)
    }

    fn flush(&mut self) -> Result<(), Failed>
        // Those of every sink.
        ensures bytes { Keeps (Some self.old.taken) (Some self.new.taken) }
        ensures failed_ok { OnOk result ((self.old.broken ≡ false) × (self.new.broken ≡ false)) }
        ensures failed_err { OnErr result (self.new.broken ≡ true) }

        // When it fails, and its state afterwards.
        ensures flushes { IsOk result ↔ ((self.old.broken ≡ false) × (self.old.flushes ≡ true)) }
        ensures after { OnOk result (self.new ≡ self.old) }
        ensures after_err { OnErr result (self.new ≡ record self.old { broken = true }) }
    {
        if self.broken || !self.flushes {
            self.broken = true;
            return Err(Failed);
        }
        Ok(())
    }

    fn failed(&self) -> bool {
        self.broken
    }
}
