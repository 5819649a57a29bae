//! What a box can be asked for, and asking it of the boxes on a path.

ghost use Rattle.std.specs.Prelude.{◌≡◌, ◌==◌, ◌≤◌, not, length, List};
ghost use Rattle.mp4_box.specs.Checks.{alone, along, at_most_one, broken, laid_out, one};
ghost use Rattle.mp4_box.specs.Order.{least_from};
ghost use Rattle.mp4_box.specs.Paths.{of_kind};
ghost use Rattle.mp4_box.specs.Trees.{Box, children, view};
ghost use Rattle.mp4_box.specs.declared.rules.Fault.{Fault};

use crate::box_ref::BoxRef;
use crate::headers::FourCc;
use crate::order::note;
use crate::rules::{Fault, Rule};
use crate::walk::Walk;

/// A requirement of a box.
pub trait Check {
    // What is at fault with a box.
    ghost faults: { Self → Box → List Fault };

    /// Keeps in `best` the first of the best so far and of what is at fault with the box.
    fn note_at(&self, this: &BoxRef<'_>, best: &mut Option<Fault>)
        ensures { best.new ≡ least_from best.old (faults self.now (view this.now)) };
}

/// Checks each box that the path of types leads to from this one: `best` is the first of the best so far and
/// of what is at fault with these.
#[tactic(auto, using(crate::proofs::PathLemmas::along_steps), unfolding(crate::specs::Order::least_from))]
pub fn note_along<C: Check>(check: &C, path: &[FourCc], this: &BoxRef<'_>, best: &mut Option<Fault>)
    requires { length path.now ≤ 8 }
    ensures { best.new ≡ least_from best.old (along (C.faults check.now) path.now (view this.now)) }
{
    let Some((kind, below)) = path.split_first() else {
        check.note_at(this, best);
        return;
    };
    for child in Walk::of(this) {
        if child.header.kind.is(*kind) {
            note_along(check, below, &child, best);
        }
    }
}

/// The box has just one child of this type.
pub struct One(pub FourCc);

/// The box has one child of this type or none.
pub struct AtMostOne(pub FourCc);

/// How a payload is laid out.
#[derive(Clone, Copy)]
pub enum Layout {
    /// A full box of version 0 or 1, of so many bytes at each.
    Versioned(usize, usize),
    /// So many bytes.
    Exactly(usize),
    /// So many bytes or more.
    AtLeast(usize),
}

/// Notes each child of the type but the first: whether there is one.
#[tactic(auto, unfolding(crate::specs::Order::least_from))]
fn note_further(this: &BoxRef<'_>, kind: FourCc, best: &mut Option<Fault>) -> bool
    ensures best { best.new ≡ least_from best.old (at_most_one kind (view this.now)) }
    ensures seen { result ≡ not (length (of_kind kind (children (view this.now))) == 0) }
{
    let mut seen = false;
    for child in Walk::of(this) {
        if child.header.kind.is(kind) {
            if seen {
                note(best, child.fault(Rule::Twice));
            }
            seen = true;
        }
    }
    seen
}

impl Check for AtMostOne {
    ghost faults = { λ c b. at_most_one c.0 b };

    fn note_at(&self, this: &BoxRef<'_>, best: &mut Option<Fault>) {
        note_further(this, self.0, best);
    }
}

impl Check for One {
    ghost faults = { λ c b. one c.0 b };

    fn note_at(&self, this: &BoxRef<'_>, best: &mut Option<Fault>) {
        if !note_further(this, self.0, best) {
            note(best, this.fault(Rule::Missing));
        }
    }
}

/// The rule that a payload breaks which isn't laid out so.
#[tactic(auto, unfolding(crate::specs::Checks::broken))]
fn broken_rule(layout: Layout, payload: &[u8]) -> Option<Rule>
    ensures { result ≡ broken layout payload.now }
{
    let len = payload.len();
    let good = match layout {
        Layout::Versioned(short, long) => {
            if len < 4 {
                return Some(Rule::FieldLength);
            }
            let version = payload[0];
            if version > 1 {
                return Some(Rule::Version);
            }
            len == if version == 0 { short } else { long }
        }
        Layout::Exactly(n) => len == n,
        Layout::AtLeast(n) => len >= n,
    };
    if good { None } else { Some(Rule::FieldLength) }
}

impl Check for Layout {
    ghost faults = { λ c b. laid_out c b };

    #[tactic(auto, unfolding(crate::specs::Order::least_from))]
    fn note_at(&self, this: &BoxRef<'_>, best: &mut Option<Fault>) {
        if let Some(rule) = broken_rule(*self, this.payload) {
            note(best, this.fault(rule));
        }
    }
}
