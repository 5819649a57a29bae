//! Decides how a box or a fragment is taken that the input has whole. It is read there, and not copied.

ghost use Rattle.std.specs.Prelude.{◌≡◌, ◌≤◌, ℕ, IsTrue};
ghost use Rattle.mp4_traf.specs.Rules.{most_in_moof};
ghost use Rattle.mp4_frag.specs.declared.single_run.SingleRun.{SingleRun};
ghost use Rattle.mp4_machine.specs.Ends.{sent};
ghost use Rattle.mp4_machine.specs.Inputs.{change};
ghost use Rattle.mp4_fragment_machine.specs.Places.{claim_of};
ghost use Rattle.mp4_fragment_machine.specs.States.{most_fragments, place_in};
ghost use Rattle.mp4_fragment_machine.specs.Implementation.Feeds.{Feeds};
ghost use Rattle.mp4_fragment_machine.specs.Implementation.InPlace.{HasMoof, IsTakenInPlace};

pub(crate) mod attempt;
pub(crate) mod find;
pub(crate) mod fragment;
pub(crate) mod many_runs;
pub(crate) mod moof;
pub(crate) mod one_run;
pub(crate) mod other_box;

use crate::counter::Counter;
use crate::in_place::fragment::{boxes_in, payload_after};
use crate::in_place::many_runs::Untaken;
use crate::machine::FragmentMachine;
use mp4_box::FourCc;
use mp4_ends::Sink;
use mp4_frag::{MOST_IN_MOOF, SingleRun, Steps};
use mp4_ledger::Ledger;
use mp4_machine::{Block, Stop};
use mp4_recut::Operation;
use mp4_recut::room::is_roomy;

/// How many bytes a row of the list of runs takes.
pub(crate) const ROW: u64 = 64;

/// A box that is whole in some bytes.
#[derive(Clone, Copy)]
pub(crate) struct Span {
    pub(crate) kind: FourCc,
    /// How many bytes its header has.
    pub(crate) header_len: u64,
    /// How many bytes it has with its header.
    pub(crate) size: u64,
}

/// The boxes of a fragment that is whole in the input.
#[derive(Clone, Copy)]
pub(crate) struct Boxes<'a> {
    /// The bytes of its moof.
    pub(crate) moof: &'a [u8],
    /// Its mdat.
    pub(crate) mdat: Span,
}

/// What the input has whole at its front.
#[derive(Clone, Copy)]
pub(crate) enum InPlace {
    /// A box that is passed over or copied.
    Other(Span),
    /// A moof after the moov.
    Moof(Span),
    /// Nothing that is taken in place.
    No,
}

impl FragmentMachine {
    /// Takes what begins with a moof that is whole at the front of the input: its fragment, if the input has that whole
    /// and it may be taken so, else the moof. Returns how many bytes.
    ///
    /// # Errors
    ///
    /// `Stream` where the only fault of the fragment is a time or the place of its run, and as the functions that take
    /// it.
    #[inline(always)]
    pub(crate) fn take_from_moof<W: Sink>(
        &mut self,
        at: u64,
        moof: &Span,
        ledger: &mut Ledger,
        input: &[u8],
        out: &mut Block,
        w: &mut W,
    ) -> Result<usize, Stop>
        requires first { HasMoof self.old at input.now moof.now }
        requires claim { claim_of (place_in self.old) ≤ ledger.old.live }
        ensures { Feeds (change (sent W.contents W.has_failed w.old w.new) out.old out.new
            ledger.old ledger.new self.old.counter.tally self.new.counter.tally)
            self.old self.new input.now result }
    {
        if tries_in_place(&self.carried.operation, &self.carried.counter) {
            if let (Some(boxes), Some(list)) = (
                boxes_in(at, moof, input, ledger),
                &self.carried.tracks,
            ) {
                let payload = payload_after(at, &boxes);
                let mut steps = Steps { rows: 0 };
                match SingleRun::read(boxes.moof, at, list, &mut steps) {
                    Ok(Some(run)) => {
                        return match run.places(payload) {
                            Ok(()) => self.take_one_run(at, &boxes, &run, ledger, input, out, w),
                            Err(fault) => {
                                let claimed = boxes.moof.len() as u64 + ROW;
                                let samples = u128::from(run.run.count);
                                Err(self.refuse_fragment(
                                    claimed, samples, steps.rows, fault, ledger,
                                ))
                            }
                        };
                    }
                    Ok(None) => {
                        return match self.list_in_place(at, &boxes, ledger, out, w) {
                            Ok(count) => Ok(count),
                            Err(Untaken::GivenUp(found)) => {
                                self.take_moof(at, moof, found, ledger, input, out, w)
                            }
                            Err(Untaken::WriteFailed) => Err(Stop::Write),
                        };
                    }
                    Err(fault) => {
                        let claimed = boxes.moof.len() as u64;
                        return Err(self.refuse_fragment(
                            claimed, steps.rows, steps.rows, fault, ledger,
                        ));
                    }
                }
            }
        }
        self.take_moof(at, moof, None, ledger, input, out, w)
    }
}

/// Whether a fragment that is whole in the input is processed in place, if its moof has one run: to be recut it must
/// have no index, and a number for each sample that a moof may have.
#[inline(always)]
fn tries_in_place(operation: &Operation, counter: &Counter) -> bool
    requires { (bound : ℕ) × (counter.now.tally.fragments ≤ most_fragments operation.now bound) }
    ensures { (run : SingleRun) → IsTrue result → run.run.count ≤ most_in_moof →
        IsTakenInPlace operation.now counter.now.tally.fragments run }
{
    match operation {
        Operation::List(_) => true,
        Operation::Split(cut) => {
            is_roomy(cut, counter.tally.fragments + 1, u64::from(MOST_IN_MOOF))
        },
    }
}
