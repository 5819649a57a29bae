//! Bytes in claimed memory: how they are claimed, used and given back.

ghost use Rattle.std.specs.Prelude.{◌≡◌, ◌+◌, ◌<◌, ◌≤◌, ◌↔◌, [], ◌++◌, length, take, IsTrue, OnOk, OnErr, IfOk, IsErrOf};
ghost use Rattle.std.specs.Borrow.{sem};
ghost use Rattle.mp4_ledger.specs.Lending.{LendsBytes};
ghost use Rattle.mp4_ledger.specs.Memory.{claimed, fitted, given_back};

use crate::ledger::{Ledger, Refused};
use std::marker::Model;

/// A buffer in claimed memory. It must be given back to its ledger, and can't be dropped.
pub struct Buf {
    pub(crate) bytes: Vec<u8>,
    pub(crate) cap: usize,
}

// A contract sees the bytes and the capacity.
impl Model for Buf {
    ghost use Rattle.std.specs.Prelude.{◌≤◌, length, vec_capacity};
    ghost use Rattle.mp4_ledger.specs.Memory.{Bytes};

    ghost Value = { Bytes };

    ghost view = { λ b. record { bytes = b.bytes.items; cap = b.cap } };

    ghost invariant = { λ b. (length b.bytes.items ≤ b.cap) × (b.cap ≤ vec_capacity b.bytes) };
}

impl Buf {
    /// How many bytes it has.
    pub fn len(&self) -> usize
        ensures len { result ≡ length self.now.bytes }
        ensures within { length self.now.bytes ≤ self.now.cap }
    {
        self.bytes.len()
    }

    /// Whether it has none.
    pub fn is_empty(&self) -> bool
        ensures { IsTrue result ↔ (self.now.bytes ≡ []) }
    {
        self.bytes.is_empty()
    }

    /// Its capacity, for which it was claimed.
    pub fn cap(&self) -> usize
        ensures { result ≡ self.now.cap }
    {
        self.cap
    }

    /// Its bytes.
    pub fn bytes(&self) -> &[u8]
        ensures { result.now ≡ self.now.bytes }
    {
        self.bytes.as_slice()
    }

    /// Appends bytes, for which there must be room.
    pub fn push_slice(&mut self, more: &[u8])
        requires { length self.old.bytes + length more.now ≤ self.old.cap }
        ensures { self.new ≡ record self.old { bytes = self.old.bytes ++ more.now } }
    {
        self.bytes.extend_from_slice(more).unwrap();
    }

    /// Cuts it, or fills it with zeros, to the length `n`, and returns its bytes as a borrow.
    pub fn room_mut(&mut self, n: usize) -> &mut [u8]
        requires { n ≤ self.old.cap }
        ensures* writes_back { sem 𝓛 (LendsBytes self.entry result) }
        ensures value { result.now ≡ fitted self.old.bytes n }
        ensures len { length result.now ≡ n }
    {
        self.bytes.resize(n, 0).unwrap();
        self.bytes.as_mut_slice()
    }

    /// Keeps the first `n` bytes, or all if there are fewer.
    pub fn shorten(&mut self, n: usize)
        ensures { self.new ≡ record self.old { bytes = take n self.old.bytes } }
    {
        self.bytes.truncate(n);
    }

    /// Removes its bytes, and keeps its capacity.
    pub fn clear(&mut self)
        ensures { self.new ≡ record self.old { bytes = [] } }
    {
        self.bytes.clear();
    }
}

impl Ledger {
    /// Claims an empty buffer with room for so many bytes.
    ///
    /// # Errors
    ///
    /// `OverLimit` exactly where the claim passes the limit; else `Memory` where the allocator has none.
    /// Nothing is claimed then.
    pub fn buf(&mut self, cap: u64) -> Result<Buf, Refused>
        ensures empty { IfOk result (λ b. b ≡ record { bytes = []; cap = cap }) }
        ensures ok { OnOk result (self.new ≡ claimed self.old cap) }
        ensures over_limit { IsErrOf result Refused.OverLimit ↔
            (self.old.limit < self.old.live + cap) }
        ensures err { OnErr result (self.new ≡ self.old) }
        ensures within { self.new.live ≤ self.new.limit }
    {
        if cap > self.limit - self.live {
            return Err(Refused::OverLimit);
        }
        let Ok(bytes) = Vec::with_capacity(self.alloc, cap as usize) else {
            return Err(Refused::Memory);
        };
        self.count(cap);
        Ok(Buf {
            bytes,
            cap: cap as usize,
        })
    }

    /// Takes a buffer back.
    pub fn back(&mut self, buf: Buf)
        requires { buf.cap ≤ self.old.live }
        ensures { self.new ≡ given_back self.old buf.cap }
    {
        let Buf { bytes: _, cap } = buf;
        self.live -= cap as u64;
    }
}
