//! The children of a held box.

ghost use Rattle.std.specs.Prelude.{◌≡◌, ◌≤◌, [], length};
ghost use Rattle.mp4_box.specs.Trees.{boxes, children, view};
ghost use Rattle.std.specs.Iterator.{YieldsFirstBy, item_count};

use crate::box_ref::BoxRef;
use crate::tree::first_box;
use std::marker::Model;

/// Goes over the boxes that lie in a payload, one after the other.
#[derive(Drop)]
pub struct Walk<'a> {
    rest: &'a [u8],
    offset: u64,
}

// A contract sees the boxes that are left.
impl<'a> Model for Walk<'a> {
    ghost use Rattle.std.specs.Prelude.{List, length, ◌+◌, ◌^◌, ◌<◌};
    ghost use Rattle.mp4_box.specs.Trees.{Box, boxes};

    ghost Value = { List Box };

    ghost view = { λ w. boxes w.offset w.rest.now };

    ghost invariant = { λ w. w.offset + length w.rest.now < 2 ^ 63 };
}

impl<'a> Default for Walk<'a> {
    ghost is_default = { λ w. w ≡ [] };

    /// A walk over no boxes.
    #[tactic(auto, unfolding(crate::specs::Trees::over))]
    fn default() -> Walk<'a> {
        Walk {
            rest: &[],
            offset: 0,
        }
    }
}

impl<'a> Walk<'a> {
    /// The children of this container.
    #[inline]
    pub fn of(this: &BoxRef<'a>) -> Walk<'a>
        ensures children { result ≡ children (view this.now) }
        ensures few { length result ≤ length this.now.payload.now }
    {
        Walk {
            rest: this.payload,
            offset: this.offset + this.header.header_len,
        }
    }
}

impl<'a> Iterator for Walk<'a> {
    type Item = BoxRef<'a>;

    ghost next_gives = { YieldsFirstBy view (λ w. w) };

    ghost remaining = { item_count (λ w. w) };

    #[inline]
    #[tactic(auto, using(crate::proofs::TreeLemmas::boxes_more, crate::proofs::TreeLemmas::boxes_end))]
    fn next(&mut self) -> Option<BoxRef<'a>> {
        let Some(child) = first_box(self.rest, self.offset) else {
            return None;
        };
        let len = child.header.header_len as usize + child.payload.len();
        let (_, others) = self.rest.split_at(len);
        self.rest = others;
        self.offset += len as u64;
        Some(child)
    }
}
