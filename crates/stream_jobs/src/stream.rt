//! A stream that is made while it is read: its fragments come again and again, with other numbers and times.

ghost use Rattle.std.specs.Prelude.{◌≡◌, ◌<◌, length, false};

use crate::fragments::{Fragments, Layout, Mark};
use crate::random::Random;
use mp4_ends::{Failed, Source};
use std::alloc::{AllocError, Global};
use std::mem;

/// A stream of so many periods after its moov.
#[derive(Drop)]
pub struct Stream {
    /// What is read.
    bytes: Vec<u8>,
    /// How many of these bytes were read.
    at: usize,
    /// The fragments of a period, until they are read for the first time.
    waiting: Vec<u8>,
    numbers: Vec<Mark>,
    times: Vec<Mark>,
    /// How many fragments a period has, and how long a fragment is, in ticks.
    period: u32,
    ticks: u64,
    /// How many periods were begun, and how many there are.
    begun: u32,
    periods: u32,
    ended: bool,
    last: usize,
}

impl Stream {
    /// The stream of a seed.
    pub fn new(
        alloc: Global,
        layout: &Layout,
        seed: u32,
        periods: u32,
    ) -> Result<Stream, AllocError> {
        let mut front = crate::boxes::Boxes::new(alloc);
        front.front(layout.tracks)?;
        let mut fragments = Fragments::new(alloc);
        fragments.put_all(alloc, layout, &mut Random::new(seed))?;
        let Fragments {
            boxes,
            numbers,
            times,
        } = fragments;
        Ok(Stream {
            bytes: front.bytes,
            at: 0,
            waiting: boxes.bytes,
            numbers,
            times,
            period: layout.period,
            ticks: layout.ticks(),
            begun: 0,
            periods,
            ended: false,
            last: 0,
        })
    }

    /// Makes the fragments of the next period, if there is one.
    pub fn advance(&mut self) -> bool {
        if self.begun == self.periods {
            return false;
        }
        if self.begun == 0 {
            mem::swap(&mut self.bytes, &mut self.waiting);
        }
        let before = u64::from(self.begun).wrapping_mul(u64::from(self.period));
        put_numbers(self.bytes.as_mut_slice(), self.numbers.as_slice(), before);
        put_times(
            self.bytes.as_mut_slice(),
            self.times.as_slice(),
            before,
            self.ticks,
        );
        self.begun = self.begun.wrapping_add(1);
        self.at = 0;
        true
    }

    /// The bytes of the moov before the first period, then those of the period that was begun last.
    pub fn bytes(&self) -> &[u8] {
        self.bytes.as_slice()
    }
}

/// Puts the numbers of fragments, before which so many others came.
fn put_numbers(bytes: &mut [u8], marks: &[Mark], before: u64) {
    for mark in marks {
        let number = before
            .wrapping_add(u64::from(mark.fragment))
            .wrapping_add(1);
        put_at(bytes, mark.at, &((number % (1 << 32)) as u32).to_be_bytes());
    }
}

/// Puts the times of trafs, in fragments of so many ticks, before which so many others came.
fn put_times(bytes: &mut [u8], marks: &[Mark], before: u64, ticks: u64) {
    for mark in marks {
        let fragment = before.wrapping_add(u64::from(mark.fragment));
        put_at(bytes, mark.at, &fragment.wrapping_mul(ticks).to_be_bytes());
    }
}

/// Puts bytes in the place of others, if these are there.
fn put_at(bytes: &mut [u8], at: usize, new: &[u8]) {
    if at <= bytes.len() && new.len() <= bytes.len() - at {
        bytes[at..at + new.len()].copy_from_slice(new);
    }
}

impl Source for Stream {
    ghost has_failed = { λ _. false };

    ghost has_ended = { λ s. s.ended };

    ghost last_read = { λ s. s.last };

    fn read(&mut self, into: &mut [u8]) -> Result<usize, Failed> {
        if !self.ended && self.at >= self.bytes.len() && !self.advance() {
            self.ended = true;
        }
        let mut count = 0;
        if !self.ended && self.at < self.bytes.len() {
            count = into.len().min(self.bytes.len() - self.at);
            into[..count].copy_from_slice(&self.bytes[self.at..self.at + count]);
            self.at += count;
        }
        self.ended = count == 0;
        self.last = count;
        Ok(count)
    }

    fn failed(&self) -> bool {
        false
    }

    fn ended(&self) -> bool {
        self.ended
    }
}
