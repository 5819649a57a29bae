//! Groups of bytes on their way through a block.

ghost use Rattle.std.specs.Prelude.{◌≡◌, ℕ, ◌+◌, ◌*◌, ◌≤◌, [], ◌++◌, length, OnOk};
ghost use Rattle.mp4_machine.specs.Blocks.{IsSent};
ghost use Rattle.mp4_machine.specs.Ends.{sent};
ghost use Rattle.mp4_machine.specs.Groups.{waiting_after};
ghost use Rattle.mp4_machine.specs.Puts.{Puts};

use crate::block::{BLOCK_BYTES, Block};
use mp4_ends::{Failed, Sink};

/// So many bytes has a group of those that [`Block::put_groups`] puts.
pub const GROUP_BYTES: usize = 16;

impl Block {
    /// Puts groups of [`GROUP_BYTES`] bytes after those that wait, and what is sent goes out as if each was put by
    /// itself: as many whole groups are put as there is room for, then what waits is sent, and so on.
    #[inline(never)]
    pub fn put_groups<W: Sink>(&mut self, w: &mut W, groups: &[u8]) -> Result<(), Failed>
        ensures puts { Puts (sent W.contents W.has_failed w.old w.new) self.old self.new groups.now
            result }
        ensures waits { (count : ℕ) → length groups.now ≡ GROUP_BYTES * count →
            OnOk result (length self.new.bytes ≡ waiting_after (length self.old.bytes) count) }
    {
        let room = (BLOCK_BYTES - self.waiting.len()) / GROUP_BYTES * GROUP_BYTES;
        if groups.len() <= room {
            self.gather(groups);
            return Ok(());
        }
        let (front, rest) = groups.split_at(room);
        match self.fill(w, front) {
            Ok(()) => {}
            Err(Failed) => return Err(Failed),
        }
        self.put_by_blocks(w, rest)
    }

    /// Puts bytes into a block in which nothing waits, which is sent wherever it is full and more follow.
    fn put_by_blocks<W: Sink>(&mut self, w: &mut W, bytes: &[u8]) -> Result<(), Failed>
        requires { self.old.bytes ≡ [] }
        ensures puts { Puts (sent W.contents W.has_failed w.old w.new) self.old self.new bytes.now
            result }
        ensures waits { (count : ℕ) → length bytes.now ≡ GROUP_BYTES * count →
            OnOk result (length self.new.bytes ≡ waiting_after 0 count) }
    {
        let mut rest = bytes;
        while rest.len() > BLOCK_BYTES {
            let (front, later) = rest.split_at(BLOCK_BYTES);
            match self.fill(w, front) {
                Ok(()) => {}
                Err(Failed) => return Err(Failed),
            }
            rest = later;
        }
        self.gather(rest);
        Ok(())
    }

    /// Puts bytes for which there is room after those that wait.
    #[inline(always)]
    fn gather(&mut self, bytes: &[u8])
        requires { length self.old.bytes + length bytes.now ≤ BLOCK_BYTES }
        ensures { self.new ≡ record self.old { bytes = self.old.bytes ++ bytes.now } }
    {
        self.waiting.push_bytes(bytes);
    }

    /// Puts bytes for which there is room after those that wait, and sends all of them.
    fn fill<W: Sink>(&mut self, w: &mut W, bytes: &[u8]) -> Result<(), Failed>
        requires { length self.old.bytes + length bytes.now ≤ BLOCK_BYTES }
        ensures puts { Puts (sent W.contents W.has_failed w.old w.new) self.old self.new bytes.now
            result }
        ensures sent { OnOk result (IsSent self.new) }
    {
        self.gather(bytes);
        match self.send(w) {
            Ok(()) => Ok(()),
            Err(Failed) => Err(Failed),
        }
    }
}
