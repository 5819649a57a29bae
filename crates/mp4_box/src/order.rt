//! Which of several faults is reported: the one of the lowest rule, and of these the one whose box begins first.

ghost use Rattle.std.specs.Prelude.{◌≡◌};
ghost use Rattle.mp4_box.specs.Order.{comes_first, noted};

use crate::rules::Fault;

/// Whether the first fault is reported rather than the second.
#[tactic(auto, unfolding(crate::specs::Order::comes_first))]
fn is_before(first: &Fault, second: &Fault) -> bool
    ensures { result ≡ comes_first first.now second.now }
{
    let (rule, other) = (first.rule.number(), second.rule.number());
    if rule == other {
        first.offset < second.offset
    } else {
        rule < other
    }
}

/// Keeps the fault in `best` where it comes before the best so far.
#[inline(never)]
pub fn note(best: &mut Option<Fault>, fault: Fault)
    ensures { best.new ≡ noted best.old fault }
{
    match *best {
        None => *best = Some(fault),
        Some(old) => {
            if is_before(&fault, &old) {
                *best = Some(fault);
            }
        }
    }
}
