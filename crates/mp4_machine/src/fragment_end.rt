//! Where fragments end in a text, and in a block.

ghost use Rattle.std.specs.Prelude.{◌∷◌, []};
ghost use Rattle.mp4_machine.specs.Ends.{sent};
ghost use Rattle.mp4_machine.specs.Puts.{PutsMarked};

use crate::block::Block;
use mp4_ends::{Failed, Sink};

/// Capacity of a block in ends of fragments.
pub(crate) const MOST_ENDS: usize = 160;

/// An end of fragments in a text: after its first `end` bytes, `count` fragments are whole.
#[derive(Clone, Copy, Debug, Default, PartialEq, Eq)]
pub struct FragmentEnd {
    /// How many bytes of the text.
    pub end: usize,
    /// How many fragments.
    pub count: u64,
}

impl Block {
    /// Marks that `count` fragments are whole in everything that was put. The buffer is sent first where its ends are
    /// full.
    pub fn mark<W: Sink>(&mut self, w: &mut W, count: u64) -> Result<(), Failed>
        ensures { PutsMarked (sent W.contents W.has_failed w.old w.new) self.old self.new []
            (record { end = 0; count = count } ∷ []) result }
    {
        if self.ends.len() == MOST_ENDS {
            match self.send(w) {
                Ok(()) => {}
                Err(Failed) => return Err(Failed),
            }
        }
        self.ends.push(FragmentEnd {
            end: self.waiting.len(),
            count,
        });
        Ok(())
    }
}
