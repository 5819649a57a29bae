//! A box that is buffered until all of it has come.

ghost use Rattle.std.specs.Prelude.{◌≡◌, ◌+◌, ◌-◌, ◌^◌, ◌<◌, ◌≤◌, ◌↔◌, ◌++◌, length, take, min, IfOk, OnErr, OnOk, IsErrOf, IsTrue};
ghost use Rattle.mp4_box.specs.Headers.{IsBytes};
ghost use Rattle.mp4_ledger.specs.Memory.{claimed, given_back};

use mp4_box::FourCc;
use mp4_ledger::{Buf, Ledger, Refused};
use std::marker::Model;

/// A box in claimed memory, whose bytes are coming. It must be given back, and can't be dropped.
pub struct BufferedBox {
    buf: Buf,
    at: u64,
    kind: FourCc,
}

// A contract sees the box and its bytes so far.
impl Model for BufferedBox {
    ghost use Rattle.std.specs.Prelude.{◌≡◌, ◌+◌, ◌^◌, ◌≤◌, length};
    ghost use Rattle.mp4_machine.specs.Buffering.{Buffering};

    ghost Value = { Buffering };

    ghost view = { λ h. record { at = h.at; kind = h.kind; size = h.buf.cap; bytes = h.buf.bytes } };

    ghost invariant = { λ h. (h.at + h.buf.cap ≤ 2 ^ 62) × (length h.buf.bytes ≤ h.buf.cap) };
}

impl BufferedBox {
    /// Claims room for a box of `size` bytes at `at`, of which these have come.
    ///
    /// # Errors
    ///
    /// As the ledger refuses the claim; nothing is claimed then.
    pub fn claim(
        ledger: &mut Ledger,
        at: u64,
        kind: FourCc,
        size: u64,
        bytes: &[u8],
    ) -> Result<BufferedBox, Refused>
        requires room { length bytes.now ≤ size }
        requires end { at + size ≤ 2 ^ 62 }
        ensures buffered { IfOk result (λ h. h ≡ record
            { at = at; kind = kind; size = size; bytes = bytes.now }) }
        ensures ok { OnOk result (ledger.new ≡ claimed ledger.old size) }
        ensures over_limit { IsErrOf result Refused.OverLimit ↔
            (ledger.old.limit < ledger.old.live + size) }
        ensures err { OnErr result (ledger.new ≡ ledger.old) }
        ensures within { ledger.new.live ≤ ledger.new.limit }
    {
        match ledger.buf(size) {
            Ok(buf) => {
                let mut buf = buf;
                buf.push_slice(bytes);
                Ok(BufferedBox { at, kind, buf })
            }
            Err(refused) => Err(refused),
        }
    }

    /// Takes the bytes at the front of the input that belong to the box. Returns how many.
    pub fn take(&mut self, input: &[u8]) -> usize
        ensures taken { result ≡ min (self.old.size - length self.old.bytes) (length input.now) }
        ensures buffered { self.new ≡ record self.old
            { bytes = self.old.bytes ++ take result input.now } }
    {
        let left = self.buf.cap() - self.buf.len();
        let taken = left.min(input.len());
        self.buf.push_slice(&input[..taken]);
        taken
    }

    /// Whether all of the box has come.
    pub fn is_whole(&self) -> bool
        ensures { IsTrue result ↔ (length self.now.bytes ≡ self.now.size) }
    {
        self.buf.len() == self.buf.cap()
    }

    /// Its type.
    pub fn kind(&self) -> FourCc
        ensures { result ≡ self.now.kind }
    {
        self.kind
    }

    /// The offset of its first byte. It ends within 2^62 bytes.
    pub fn offset(&self) -> u64
        ensures at { result ≡ self.now.at }
        ensures end { self.now.at + self.now.size ≤ 2 ^ 62 }
    {
        self.at
    }

    /// Its stated size.
    pub fn size(&self) -> u64
        ensures { result ≡ self.now.size }
    {
        self.buf.cap() as u64
    }

    /// Its bytes so far.
    pub fn bytes(&self) -> &[u8]
        ensures bytes { result.now ≡ self.now.bytes }
        ensures valid { IsBytes self.now.bytes }
    {
        valid(self.buf.bytes())
    }

    /// Gives its memory back.
    pub fn back(self, ledger: &mut Ledger)
        requires { self.size ≤ ledger.old.live }
        ensures { ledger.new ≡ given_back ledger.old self.size }
    {
        let BufferedBox {
            at: _,
            kind: _,
            buf,
        } = self;
        ledger.back(buf);
    }
}

/// The same bytes, each of which is one byte.
fn valid(bytes: &[u8]) -> &[u8]
    ensures bytes { result.now ≡ bytes.now }
    ensures valid { IsBytes bytes.now }
{
    bytes
}
