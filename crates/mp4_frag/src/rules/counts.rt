//! How many samples and truns a moof has.

ghost use Rattle.std.specs.Prelude.{◌≡◌, ◌∷◌, [], ◌≤◌, ◌^◌, length, IfOk, OnOk, IfErr};
ghost use Rattle.mp4_box.specs.Paths.{at_path};
ghost use Rattle.mp4_box.specs.Trees.{view};
ghost use Rattle.mp4_traf.specs.Kinds.{to_trun};
ghost use Rattle.mp4_frag.specs.Rules.{count_faults, samples_of};
ghost use Rattle.mp4_traf.specs.Rules.{most_in_moof};

use mp4_box::{BoxRef, Fault, Rule};
use mp4_traf::internal::{sample_count, truns_of};

/// So many samples may a moof have.
pub const MOST_IN_MOOF: u32 = 1_000_000;

/// How many samples a moof has, or the first trun with which it has too many.
#[tactic(auto, using(std::proofs::lemmas::List::Sums::sum_by_more), unfolding(crate::specs::Rules::too_many))]
#[inline]
pub(crate) fn count_samples(moof: &BoxRef<'_>) -> Result<u32, Fault>
    ensures count { IfOk result (λ n. n ≡ samples_of (view moof.now)) }
    ensures few { IfOk result (λ n. n ≤ most_in_moof) }
    ensures ok { OnOk result (count_faults (view moof.now) ≡ []) }
    ensures err { IfErr result (λ f. count_faults (view moof.now) ≡ f ∷ []) }
{
    let mut count = 0;
    for trun in truns_of(moof) {
        let more = sample_count(trun.payload);
        if more > MOST_IN_MOOF - count {
            return Err(trun.fault(Rule::TooManySamples));
        }
        count += more;
    }
    Ok(count)
}

/// How many samples a moof has that hasn't too many.
pub(crate) fn samples_in(moof: &BoxRef<'_>) -> u32
    requires { count_faults (view moof.now) ≡ [] }
    ensures samples { result ≡ samples_of (view moof.now) }
    ensures few { result ≤ most_in_moof }
{
    count_samples(moof).unwrap()
}

/// How many truns the trafs of a moof have.
pub(crate) fn truns_in(moof: &BoxRef<'_>) -> u64
    requires { length (at_path to_trun (view moof.now)) ≤ 2 ^ 62 }
    ensures { result ≡ length (at_path to_trun (view moof.now)) }
{
    let mut count: u64 = 0;
    for _ in truns_of(moof) {
        count += 1;
    }
    count
}
