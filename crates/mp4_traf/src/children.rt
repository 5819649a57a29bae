//! The trafs of a moof and their truns, gone over one after the other.

ghost use Rattle.std.specs.Prelude.{◌≡◌, ◌++◌, ◌∷◌, ◌<◌, [], length, IfNone, IfSome};
ghost use Rattle.std.specs.Iterator.{YieldsFirstBy, item_count};
ghost use Rattle.mp4_box.specs.Paths.{at_path, of_kind, paths_below, seen_of};
ghost use Rattle.mp4_box.specs.Trees.{view};
ghost use Rattle.mp4_traf.specs.Kinds.{to_trun, trun};

use mp4_box::types::{TRAF, TRUN};
use mp4_box::{BoxRef, FourCc, Walk};
use std::marker::Model;

/// The next box of this type among those that are left.
#[inline(always)]
pub fn next_of<'a>(kind: FourCc, walk: &mut Walk<'a>) -> Option<BoxRef<'a>>
    ensures first { of_kind kind walk.old ≡ seen_of result ++ of_kind kind walk.new }
    ensures none { IfNone result (of_kind kind walk.new ≡ []) }
    ensures fewer { IfSome result (λ b. length walk.new < length walk.old) }
{
    loop {
        let Some(child) = walk.next() else {
            return None;
        };
        if child.header.kind.is(kind) {
            return Some(child);
        }
    }
}

/// Goes over the children of a type.
#[derive(Drop)]
pub struct OfKind<'a> {
    kind: FourCc,
    walk: Walk<'a>,
}

// A contract sees the boxes that are left.
impl<'a> Model for OfKind<'a> {
    ghost use Rattle.std.specs.Prelude.{List};
    ghost use Rattle.mp4_box.specs.Paths.{of_kind};
    ghost use Rattle.mp4_box.specs.Trees.{Box};

    ghost Value = { List Box };

    ghost view = { λ c. of_kind c.kind c.walk };
}

/// The children of this type.
#[inline(always)]
#[tactic(auto, using(crate::proofs::ChildLemmas::path_kind))]
pub fn children_of<'a>(kind: FourCc, this: &BoxRef<'a>) -> OfKind<'a>
    ensures { result ≡ at_path (kind ∷ []) (view this.now) }
{
    OfKind {
        kind,
        walk: Walk::of(this),
    }
}

impl<'a> Iterator for OfKind<'a> {
    type Item = BoxRef<'a>;

    ghost next_gives = { YieldsFirstBy view (λ c. c) };

    ghost remaining = { item_count (λ c. c) };

    #[inline(always)]
    fn next(&mut self) -> Option<BoxRef<'a>> {
        next_of(self.kind, &mut self.walk)
    }
}

/// Goes over the truns of a moof.
#[derive(Drop)]
pub struct Truns<'a> {
    /// The trafs that are left.
    trafs: OfKind<'a>,
    /// The truns that are left of the traf before.
    truns: OfKind<'a>,
}

// A contract sees the truns that are left.
impl<'a> Model for Truns<'a> {
    ghost use Rattle.std.specs.Prelude.{List, [], ◌∷◌, ◌++◌};
    ghost use Rattle.mp4_box.specs.Paths.{paths_below};
    ghost use Rattle.mp4_box.specs.Trees.{Box};
    ghost use Rattle.mp4_traf.specs.Kinds.{trun};

    ghost Value = { List Box };

    ghost view = { λ t. t.truns ++ paths_below (trun ∷ []) t.trafs };
}

/// The truns of a moof, in listing order.
#[inline(always)]
#[tactic(auto, using(crate::proofs::ChildLemmas::truns_first))]
pub fn truns_of<'a>(moof: &BoxRef<'a>) -> Truns<'a>
    ensures { result ≡ at_path to_trun (view moof.now) }
{
    Truns {
        trafs: children_of(TRAF, moof),
        truns: OfKind {
            kind: TRUN,
            walk: Walk::default(),
        },
    }
}

impl<'a> Iterator for Truns<'a> {
    type Item = BoxRef<'a>;

    ghost next_gives = { YieldsFirstBy view (λ t. t) };

    ghost remaining = { item_count (λ t. t) };

    #[tactic(auto, using(crate::proofs::ChildLemmas::truns_next))]
    #[inline(always)]
    fn next(&mut self) -> Option<BoxRef<'a>> {
        loop {
            if let Some(trun) = self.truns.next() {
                return Some(trun);
            }
            let traf = self.trafs.next()?;
            self.truns = children_of(TRUN, &traf);
        }
    }
}
