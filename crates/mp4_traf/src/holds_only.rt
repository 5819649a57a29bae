//! The rule of a box whose children are of some types.

ghost use Rattle.std.specs.Prelude.{◌≡◌};
ghost use Rattle.mp4_box.specs.Trees.{view};
ghost use Rattle.mp4_box.specs.Order.{least_from};
ghost use Rattle.mp4_box.specs.declared.headers.FourCc.{FourCc};
ghost use Rattle.mp4_traf.specs.Rules.{holds_only, is_among, unsupported};

use mp4_box::{BoxRef, Check, Fault, FourCc, Rule, Walk, note};

/// The children of a box are of these types.
#[derive(Drop)]
pub struct HoldsOnly<'a>(pub &'a [FourCc]);

/// Whether a box is of one of these types.
fn is_one_of(kinds: &[FourCc], this: &BoxRef<'_>) -> bool
    ensures { result ≡ is_among kinds.now (view this.now) }
{
    for kind in kinds {
        if this.header.kind.is(*kind) {
            return true;
        }
    }
    false
}

/// Notes each child that is of none of these types.
#[tactic(auto, unfolding(mp4_box::specs::Order::least_from))]
fn note_others(this: &BoxRef<'_>, kinds: &[FourCc], best: &mut Option<Fault>)
    ensures { best.new ≡ least_from best.old (holds_only kinds.now (view this.now)) }
{
    for child in Walk::of(this) {
        if !is_one_of(kinds, &child) {
            note(best, child.fault(Rule::Unsupported));
        }
    }
}

impl<'a> Check for HoldsOnly<'a> {
    ghost faults = { λ c b. holds_only c.0.now b };

    fn note_at(&self, this: &BoxRef<'_>, best: &mut Option<Fault>) {
        note_others(this, self.0, best);
    }
}
