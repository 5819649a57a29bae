//! The sample tables of a moov: the entries of an stsd, and tables of no samples.

ghost use Rattle.std.specs.Prelude.{◌≡◌, ◌≤◌, length};
ghost use Rattle.mp4_box.specs.Trees.{view};
ghost use Rattle.mp4_box.specs.Order.{least_from};
ghost use Rattle.mp4_init.specs.Fields.{has_entries};
ghost use Rattle.mp4_init.specs.Rules.{entries_faults, no_samples};

use mp4_box::{BoxRef, Check, Fault, Rule, Walk, note, number_at};

/// An stsd has its count, and after it so many sample entries.
pub struct Entries;

/// The count at this place is 0.
pub struct NoSamples(pub u32);

/// Whether an stsd has as many entries as it counts.
#[tactic(auto, unfolding(crate::specs::Fields::begin_with))]
fn holds_entries(this: &BoxRef<'_>) -> bool
    requires { 8 ≤ length this.now.payload.now }
    ensures { result ≡ has_entries (view this.now) }
{
    let mut left = number_at(this.payload, 4);
    let entries = BoxRef {
        header: this.header,
        offset: this.offset + 8,
        payload: &this.payload[8..],
    };
    for entry in Walk::of(&entries) {
        if left == 0 {
            return true;
        }
        if entry.payload.len() < 8 {
            return false;
        }
        left -= 1;
    }
    left == 0
}

impl Check for Entries {
    ghost faults = { λ _ b. entries_faults b };

    #[tactic(auto, unfolding(mp4_box::specs::Order::least_from))]
    fn note_at(&self, this: &BoxRef<'_>, best: &mut Option<Fault>) {
        if this.payload.len() < 8 || !holds_entries(this) {
            note(best, this.fault(Rule::FieldLength));
        }
    }
}

impl Check for NoSamples {
    ghost faults = { λ c b. no_samples c.0 b };

    #[tactic(auto, unfolding(mp4_box::specs::Order::least_from))]
    fn note_at(&self, this: &BoxRef<'_>, best: &mut Option<Fault>) {
        if number_at(this.payload, self.0) != 0 {
            note(best, this.fault(Rule::SamplesInMoov));
        }
    }
}
