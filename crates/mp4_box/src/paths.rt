//! The boxes on a path of types.

ghost use Rattle.std.specs.Prelude.{◌≡◌, ◌++◌, ◌∷◌, ◌<◌, ◌≤◌, [], length, option_map, IfNone};
ghost use Rattle.std.specs.Iterator.{YieldsFirstBy, item_count};
ghost use Rattle.mp4_box.specs.Paths.{at_path, left_on, of_kind, seen_of};
ghost use Rattle.mp4_box.specs.Trees.{Box, children, first_of, view};

use crate::box_ref::BoxRef;
use crate::headers::FourCc;
use crate::walk::Walk;
use arrayvec::ArrayVec;
use std::marker::Model;
use std::mem;

/// A path may have so many types.
const LEVELS: usize = 8;

/// Goes over the boxes that a path of types leads to from a box, in the order in which they lie.
#[derive(Drop)]
pub struct Along<'p, 'a> {
    path: &'p [FourCc],
    /// The box itself, where the path is empty.
    here: Option<BoxRef<'a>>,
    /// The boxes that are left at each level above the one that it is at.
    above: ArrayVec<Walk<'a>, LEVELS>,
    /// Those that are left there.
    walk: Walk<'a>,
}

// A contract sees the boxes that are left.
impl<'p, 'a> Model for Along<'p, 'a> {
    ghost use Rattle.std.specs.Prelude.{List, [], ◌∷◌, ◌≤◌, ◌-◌, ◌++◌, length};
    ghost use Rattle.mp4_box.specs.Paths.{left_on, seen_of};
    ghost use Rattle.mp4_box.specs.Trees.{Box};

    ghost Value = { List Box };

    ghost view = { λ a. seen_of a.here ++ left_on a.path.now (a.above.items ++ a.walk ∷ []) };

    ghost invariant = { λ a. (length a.above.items ≤ length a.path.now - 1) × (length a.path.now ≤ 8) };
}

impl<'p, 'a> Along<'p, 'a> {
    /// The boxes that the path leads to from this one.
    #[tactic(auto, using(crate::proofs::PathLemmas::left_here, crate::proofs::PathLemmas::left_first))]
    pub fn of(path: &'p [FourCc], this: &BoxRef<'a>) -> Along<'p, 'a>
        requires { length path.now ≤ 8 }
        ensures { result ≡ at_path path.now (view this.now) }
    {
        let above = ArrayVec::new();
        if path.is_empty() {
            return Along {
                path,
                here: Some(*this),
                above,
                walk: Walk::default(),
            };
        }
        Along {
            path,
            here: None,
            above,
            walk: Walk::of(this),
        }
    }
}

/// The next of the boxes that are left.
#[tactic(auto, using(crate::proofs::PathLemmas::left_steps))]
fn next_on<'a>(
    path: &[FourCc],
    above: &mut ArrayVec<Walk<'a>, LEVELS>,
    walk: &mut Walk<'a>,
) -> Option<BoxRef<'a>>
    requires deep { length above.old.items < length path.now }
    requires room { length path.now ≤ 8 }
    ensures first { left_on path.now (above.old.items ++ walk.old ∷ []) ≡
        seen_of result ++ left_on path.now (above.new.items ++ walk.new ∷ []) }
    ensures none { IfNone result (left_on path.now (above.new.items ++ walk.new ∷ []) ≡ []) }
    ensures deep { length above.new.items < length path.now }
{
    loop {
        let (kind, below) = path[above.len()..].split_first().unwrap();
        let Some(child) = walk.next() else {
            let Some(outer) = above.pop() else {
                return None;
            };
            *walk = outer;
            continue;
        };
        if child.header.kind.is(*kind) {
            if below.is_empty() {
                return Some(child);
            }
            above.push(mem::replace(walk, Walk::of(&child)));
        }
    }
}

impl<'p, 'a> Iterator for Along<'p, 'a> {
    type Item = BoxRef<'a>;

    ghost next_gives = { YieldsFirstBy view (λ a. a) };

    ghost remaining = { item_count (λ a. a) };

    #[tactic(auto, using(crate::proofs::PathLemmas::left_nothing))]
    fn next(&mut self) -> Option<BoxRef<'a>> {
        if let Some(this) = self.here.take() {
            return Some(this);
        }
        if self.path.is_empty() {
            return None;
        }
        next_on(self.path, &mut self.above, &mut self.walk)
    }
}

/// The first box that a path of types leads to from this one.
#[tactic(auto, using(crate::proofs::PathLemmas::path_end, crate::proofs::PathLemmas::path_below))]
pub fn first_at<'a>(path: &[FourCc], this: &BoxRef<'a>) -> Option<BoxRef<'a>>
    requires { length path.now ≤ 8 }
    ensures { option_map view result ≡ first_of (at_path path.now (view this.now)) }
{
    let Some((kind, below)) = path.split_first() else {
        return Some(*this);
    };
    for child in Walk::of(this) {
        if child.header.kind.is(*kind) {
            if let Some(found) = first_at(below, &child) {
                return Some(found);
            }
        }
    }
    None
}

/// How many children of this type the box has.
pub fn count_of(kind: FourCc, this: &BoxRef<'_>) -> u64
    ensures { result ≡ length (of_kind kind (children (view this.now))) }
{
    let mut count = 0;
    for child in Walk::of(this) {
        if child.header.kind.is(kind) {
            count += 1;
        }
    }
    count
}
