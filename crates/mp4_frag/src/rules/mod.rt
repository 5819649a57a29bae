//! The rules of a moof: which boxes are checked for what.

ghost use Rattle.std.specs.Prelude.{◌≡◌};
ghost use Rattle.mp4_box.specs.Trees.{view};
ghost use Rattle.mp4_box.specs.Order.{least_from};
ghost use Rattle.mp4_frag.specs.Rules.{child_faults, count_faults, form_faults};

pub(crate) mod counts;
pub(crate) mod late;
pub(crate) mod mfhd;
pub(crate) mod repeats;

use crate::rules::counts::count_samples;
use crate::rules::mfhd::MFHD_LEN;
use mp4_box::types::{FREE, MFHD, SKIP, TFDT, TFHD, TRAF, TRUN};
use mp4_box::{AtMostOne, BoxRef, Fault, Layout, One, note, note_along};
use mp4_traf::internal::{HoldsOnly, LONG_TFDT_LEN, TFDT_LEN, TfhdLength, TrunLength};

/// Boxes that are missing, that occur a second time, or whose version or length is wrong.
#[tactic(auto, using(mp4_box::proofs::OrderLemmas::least_from_append), unfolding(crate::specs::Rules::form_faults))]
pub(crate) fn note_forms(moof: &BoxRef<'_>, best: &mut Option<Fault>)
    ensures { best.new ≡ least_from best.old (form_faults (view moof.now)) }
{
    note_along(&One(MFHD), &[], moof, best);
    note_along(&One(TFHD), &[TRAF], moof, best);
    note_along(&AtMostOne(TFDT), &[TRAF], moof, best);
    note_along(&Layout::Exactly(MFHD_LEN), &[MFHD], moof, best);
    note_along(&TfhdLength, &[TRAF, TFHD], moof, best);
    note_along(
        &Layout::Versioned(TFDT_LEN, LONG_TFDT_LEN),
        &[TRAF, TFDT],
        moof,
        best,
    );
    note_along(&TrunLength, &[TRAF, TRUN], moof, best);
}

/// Children that may not be there.
#[tactic(auto, using(mp4_box::proofs::OrderLemmas::least_from_append), unfolding(crate::specs::Rules::child_faults))]
pub(crate) fn note_children(moof: &BoxRef<'_>, best: &mut Option<Fault>)
    ensures { best.new ≡ least_from best.old (child_faults (view moof.now)) }
{
    let in_moof = HoldsOnly(&[MFHD, TRAF, FREE, SKIP]);
    note_along(&in_moof, &[], moof, best);
    let in_traf = HoldsOnly(&[TFHD, TFDT, TRUN, FREE, SKIP]);
    note_along(&in_traf, &[TRAF], moof, best);
}

/// The run with which there are too many samples.
#[tactic(auto, unfolding(mp4_box::specs::Order::least_from))]
pub(crate) fn note_count(moof: &BoxRef<'_>, best: &mut Option<Fault>)
    ensures { best.new ≡ least_from best.old (count_faults (view moof.now)) }
{
    if let Err(fault) = count_samples(moof) {
        note(best, fault);
    }
}
