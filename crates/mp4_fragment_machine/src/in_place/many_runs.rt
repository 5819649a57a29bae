//! Counts or lists a fragment that is whole in the input, whatever runs it has, in place; one whose samples are listed,
//! or that is recut, only where it has one run.
//!
//! Where its runs follow one another as they are listed, no list of them is needed. Its claim is counted, and no memory
//! is requested.
//!
//! If they don't, as where the runs of two tracks alternate in the mdat, the reads were in vain. Their rows are
//! counted, and the fragment is taken like others, except that its rules aren't checked again. Then some fragments
//! aren't tried in place. Nor are the rules checked again where the moof breaks one.

ghost use Rattle.std.specs.Prelude.{◌≡◌, ◌≤◌, ℕ, List, [], None, Some, Err, Ok, IfErr, IfOk, IfSome};
ghost use Rattle.mp4_traf.specs.Runs.{moof_at};
ghost use Rattle.mp4_machine.specs.Ends.{sent};
ghost use Rattle.mp4_machine.specs.Inputs.{change};
ghost use Rattle.mp4_grammar.specs.declared.command.Command.TheVariants.{Samples};
ghost use Rattle.mp4_fragment_machine.specs.Places.{claim_of};
ghost use Rattle.mp4_fragment_machine.specs.States.{known, place_in};
ghost use Rattle.mp4_fragment_machine.specs.Implementation.Feeds.{Feeds, HasEnded};
ghost use Rattle.mp4_fragment_machine.specs.Implementation.Steps.{CanStep, StopsIn, TakesInPlace, at_state, borrowed};
ghost use Rattle.mp4_fragment_machine.specs.Implementation.InPlace.{AreBoxes, HasBoxes, IfGivenUp, MayBeReadInPlace, WasReadInPlace};
ghost use Rattle.mp4_recut.specs.declared.operation.Operation.TheVariants as operations;
ghost use Rattle.mp4_fragment_machine.specs.declared.state.State.TheVariants as states;

use crate::counter::accept;
use crate::in_place::Boxes;
use crate::in_place::attempt::{InPlaceRead, MoofInOrder, read_in_place};
use crate::machine::FragmentMachine;
use crate::mdat::traf_lines::put_moof_lines;
use crate::state::{Carried, go_to, stop_at};
use mp4_ends::{Failed, Sink};
use mp4_grammar::Command;
use mp4_ledger::Ledger;
use mp4_machine::{Block, Stop};
use mp4_recut::Operation;

/// Why a fragment wasn't taken in place.
pub(crate) enum Untaken {
    /// The attempt was given up: what was found in its moof, if that was read.
    GivenUp(Option<InPlaceRead>),
    /// A write failed.
    WriteFailed,
}

/// After a moof that was read in place in vain, moofs of so many times its bytes aren't tried in place: its cost is
/// shared among them.
const SKIPS: u64 = 31;

/// Takes a fragment that is checked, or whose trafs are listed, if it may be taken so. Returns how many bytes it has.
///
/// # Errors
///
/// `GivenUp` as [`read_in_place`]: nothing is taken; `WriteFailed` where a write failed.
#[inline(always)]
fn list_fragment<W: Sink>(
    command: Command,
    at: u64,
    boxes: &Boxes<'_>,
    carried: &mut Carried,
    ledger: &mut Ledger,
    out: &mut Block,
    w: &mut W,
) -> Result<u64, Untaken>
    requires known { carried.old.tracks ≡ Some (known carried.old.tracks) }
    requires are { (input : List ℕ) × AreBoxes at input boxes.now }
    requires empty { carried.old.header_bytes ≡ [] }
    requires operation { carried.old.operation ≡ operations.List command }
    requires lists { command ≡ Samples → ⊥ }
    requires can { CanStep carried.old ledger.old (states.Header at) }
    ensures taken { (input : List ℕ) → AreBoxes at input boxes.now → IfOk result (λ n. TakesInPlace (borrowed
        W.contents W.has_failed w.old w.new out.old out.new ledger.old ledger.new) carried.old carried.new
        at input (Ok n)) }
    ensures given_up { IfErr result (IfGivenUp (λ found. (carried.new ≡ carried.old) × (ledger.new ≡ ledger.old) ×
        (w.new ≡ w.old) × (out.new ≡ out.old) × IfSome found
        (WasReadInPlace (moof_at boxes.now.moof.now at) (known carried.old.tracks)))) }
    ensures unread { result ≡ Err (Untaken.GivenUp None) → MayBeReadInPlace (moof_at boxes.now.moof.now at) → ⊥ }
    ensures failed { (input : List ℕ) → AreBoxes at input boxes.now → result ≡ Err Untaken.WriteFailed →
        StopsIn (borrowed W.contents W.has_failed w.old w.new out.old out.new ledger.old ledger.new)
        carried.old carried.new (at_state carried.old (states.Header at)) input Stop.Write }
{
    let Some(list) = &mut carried.tracks else {
        unreachable!();
    };
    let counter = &mut carried.counter;
    let MoofInOrder { moof, runs } = match read_in_place(at, boxes, list, counter, ledger) {
        Ok(read) => read,
        Err(found) => return Err(Untaken::GivenUp(found)),
    };
    accept(counter, command, u64::from(moof.samples()), runs.bytes);
    let size = boxes.moof.len() as u64 + boxes.mdat.size;
    match put_moof_lines(command, &moof, Some(size), list, out, w) {
        Ok(()) => {}
        Err(Failed) => return Err(Untaken::WriteFailed),
    }
    moof.settle_by(&runs.ends, list, &mut counter.steps);
    Ok(size)
}

impl FragmentMachine {
    /// Takes a fragment that is checked, or whose trafs are listed, and that is whole at the front of the input, if it
    /// may be taken so. Returns how many bytes.
    ///
    /// # Errors
    ///
    /// `GivenUp` where nothing is taken: what was found in the moof, if that was read; `WriteFailed` where a write
    /// failed.
    #[inline(never)]
    pub(crate) fn list_in_place<W: Sink>(
        &mut self,
        at: u64,
        boxes: &Boxes<'_>,
        ledger: &mut Ledger,
        out: &mut Block,
        w: &mut W,
    ) -> Result<usize, Untaken>
        requires found { (input : List ℕ) × HasBoxes self.old ledger.old at input boxes.now }
        requires claim { claim_of (place_in self.old) ≤ ledger.old.live }
        ensures taken { (input : List ℕ) → HasBoxes self.old ledger.old at input boxes.now → IfOk result (λ n.
            Feeds (change (sent W.contents W.has_failed w.old w.new) out.old out.new
            ledger.old ledger.new self.old.counter.tally self.new.counter.tally)
            self.old self.new input (Ok n)) }
        ensures given_up { IfErr result (IfGivenUp (λ found. (self.new ≡ self.old) × (ledger.new ≡ ledger.old) ×
            (w.new ≡ w.old) × (out.new ≡ out.old) × IfSome found
            (WasReadInPlace (moof_at boxes.now.moof.now at) (known self.old.tracks)))) }
        ensures failed { (input : List ℕ) → HasBoxes self.old ledger.old at input boxes.now →
            result ≡ Err Untaken.WriteFailed → HasEnded (change (sent W.contents W.has_failed
            w.old w.new) out.old out.new ledger.old ledger.new self.old.counter.tally self.new.counter.tally)
            self.old self.new input Stop.Write }
    {
        let command = match self.carried.operation {
            Operation::Split(_) | Operation::List(Command::Samples) => {
                return Err(Untaken::GivenUp(None));
            }
            Operation::List(command) => command,
        };
        if self.skips > 0 {
            self.skips = self.skips.saturating_sub(boxes.moof.len() as u64);
            return Err(Untaken::GivenUp(None));
        }
        match list_fragment(command, at, boxes, &mut self.carried, ledger, out, w) {
            Ok(size) => {
                go_to(&mut self.state, at + size);
                Ok(size as usize)
            }
            Err(Untaken::GivenUp(found)) => {
                self.skips = SKIPS.saturating_mul(boxes.moof.len() as u64);
                Err(Untaken::GivenUp(found))
            }
            Err(Untaken::WriteFailed) => {
                stop_at(&mut self.state, &mut self.carried, ledger);
                Err(Untaken::WriteFailed)
            }
        }
    }
}
