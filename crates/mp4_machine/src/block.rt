//! Bytes that are buffered for a sink.

ghost use Rattle.std.specs.Prelude.{◌≡◌, ℕ, List, ◌+◌, ◌≤◌, [], ◌++◌, length, OnOk};
ghost use Rattle.mp4_machine.specs.Blocks.{IsSent, unused};
ghost use Rattle.mp4_machine.specs.Ends.{sent};
ghost use Rattle.mp4_machine.specs.Puts.{Puts};

use crate::fragment_end::{FragmentEnd, MOST_ENDS};
use arrayvec::ArrayVec;
use mp4_ends::{Failed, Sink, write_front};
use mp4_lines::Text;
use std::marker::Model;

/// A slice of at least so many bytes that doesn't fit in the buffer is sent by itself.
const LARGE: usize = 4096;

/// Capacity of a block in bytes.
pub const BLOCK_BYTES: usize = 16_384;

/// The most bytes of a line.
pub const LINE_BYTES: usize = 384;

/// A line that is built before it is put into a block.
pub trait Line {
    // Its text.
    ghost text: { Self → List ℕ };

    /// Appends its text.
    fn push(&self, block: &mut Text<BLOCK_BYTES>)
        requires { length block.old + LINE_BYTES ≤ BLOCK_BYTES }
        ensures { block.new ≡ block.old ++ text self.now };
}

/// Buffers bytes, so that a sink gets few large writes, and knows how many fragments the sink has taken completely.
#[derive(Drop)]
pub struct Block {
    pub(crate) waiting: Text<BLOCK_BYTES>,
    pub(crate) ends: ArrayVec<FragmentEnd, MOST_ENDS>,
    whole: u64,
}

// A contract sees the buffered bytes, where fragments end in them, and how many are whole in what was sent.
impl Model for Block {
    ghost use Rattle.std.specs.Prelude.{◌≤◌, length};
    ghost use Rattle.std.specs.List.{AllByRecursion};
    ghost use Rattle.mp4_machine.specs.Blocks.{Pending};

    ghost Value = { Pending };

    ghost view = { λ b. record { bytes = b.waiting; ends = b.ends.items; whole = b.whole } };

    ghost invariant = { λ b. AllByRecursion (λ m. m.end ≤ length b.waiting) b.ends.items };
}

impl Block {
    /// An empty block.
    pub fn new() -> Self
        ensures { result ≡ unused }
    {
        Block {
            waiting: Text::new(),
            ends: ArrayVec::new(),
            whole: 0,
        }
    }

    /// How many fragments are whole in what was sent.
    pub fn whole(&self) -> u64
        ensures { result ≡ self.now.whole }
    {
        self.whole
    }

    /// Sends everything that is buffered.
    pub fn send<W: Sink>(&mut self, w: &mut W) -> Result<(), Failed>
        ensures puts { Puts (sent W.contents W.has_failed w.old w.new) self.old self.new [] result }
        ensures sent { OnOk result (IsSent self.new) }
    {
        let answer = write_front(w, self.waiting.bytes());
        let taken = match answer {
            Ok(()) => self.waiting.len(),
            Err(short) => short.taken,
        };
        let mut whole = self.whole;
        for mark in self.ends.iter() {
            if mark.end <= taken {
                whole = mark.count;
            }
        }
        self.whole = whole;
        match answer {
            Ok(()) => {
                self.ends.clear();
                self.waiting.clear();
                Ok(())
            }
            Err(_) => Err(Failed),
        }
    }

    /// Appends these bytes to the buffer, which is sent first where they don't fit.
    pub fn put<W: Sink>(&mut self, w: &mut W, bytes: &[u8]) -> Result<(), Failed>
        ensures puts { Puts (sent W.contents W.has_failed w.old w.new) self.old self.new bytes.now
            result }
        ensures unsent { length self.old.bytes + length bytes.now ≤ BLOCK_BYTES → w.new ≡ w.old }
    {
        if bytes.len() > BLOCK_BYTES - self.waiting.len() {
            return self.send_and_put(w, bytes);
        }
        self.waiting.push_bytes(bytes);
        Ok(())
    }

    /// Appends an array to the buffer, which is sent first where it doesn't fit.
    #[inline(always)]
    pub fn put_array<const N: usize, W: Sink>(
        &mut self,
        w: &mut W,
        bytes: &[u8; N],
    ) -> Result<(), Failed>
        requires { N ≤ LINE_BYTES }
        ensures puts { Puts (sent W.contents W.has_failed w.old w.new) self.old self.new bytes.now
            result }
        ensures unsent { length self.old.bytes + N ≤ BLOCK_BYTES → w.new ≡ w.old }
    {
        if N > BLOCK_BYTES - self.waiting.len() {
            match self.send(w) {
                Ok(()) => {}
                Err(Failed) => return Err(Failed),
            }
        }
        self.waiting.push_bytes(bytes);
        Ok(())
    }

    /// Appends a line to the buffer, which is sent first where there may be no room for it.
    #[inline(always)]
    pub fn put_line<L: Line, W: Sink>(&mut self, w: &mut W, line: &L) -> Result<(), Failed>
        ensures puts { Puts (sent W.contents W.has_failed w.old w.new) self.old self.new
            (L.text line.now) result }
        ensures unsent { length self.old.bytes + LINE_BYTES ≤ BLOCK_BYTES → w.new ≡ w.old }
    {
        if self.waiting.len() > BLOCK_BYTES - LINE_BYTES {
            match self.send(w) {
                Ok(()) => {}
                Err(Failed) => return Err(Failed),
            }
        }
        line.push(&mut self.waiting);
        Ok(())
    }

    fn send_and_put<W: Sink>(&mut self, w: &mut W, bytes: &[u8]) -> Result<(), Failed>
        ensures { Puts (sent W.contents W.has_failed w.old w.new) self.old self.new bytes.now
            result }
    {
        match self.send(w) {
            Ok(()) => {}
            Err(Failed) => return Err(Failed),
        }
        if bytes.len() < LARGE {
            self.waiting.push_bytes(bytes);
            return Ok(());
        }
        match write_front(w, bytes) {
            Ok(()) => Ok(()),
            Err(_) => Err(Failed),
        }
    }
}
