//! Holds a moof that is whole in the input, and begins its fragment if the input reaches so far.

ghost use Rattle.std.specs.Prelude.{◌≡◌, ◌<◌, ◌≤◌, [], take, Some, IfSome, OnOk};
ghost use Rattle.mp4_traf.specs.Runs.{moof_at};
ghost use Rattle.mp4_grammar.specs.Kinds.{most_moof};
ghost use Rattle.mp4_grammar.specs.declared.kinds.Kind.TheVariants.{Moof};
ghost use Rattle.mp4_machine.specs.Ends.{sent};
ghost use Rattle.mp4_machine.specs.Inputs.{change};
ghost use Rattle.mp4_fragment_machine.specs.Places.{Untouched, claim_of};
ghost use Rattle.mp4_fragment_machine.specs.States.{known, place_in};
ghost use Rattle.mp4_fragment_machine.specs.Implementation.Feeds.{Feeds};
ghost use Rattle.mp4_fragment_machine.specs.Implementation.Steps.{AcceptsMoofPast, CanStep, ledger_alone};
ghost use Rattle.mp4_fragment_machine.specs.Implementation.InPlace.{HasMoof, IsFirstBox, WasReadInPlace};
ghost use Rattle.mp4_fragment_machine.specs.declared.state.State.TheVariants as states;

use crate::held::moof::accept_moof;
use crate::in_place::Span;
use crate::in_place::attempt::InPlaceRead;
use crate::machine::FragmentMachine;
use crate::mdat::header::take_mdat_header;
use crate::pending_moof::PendingMoof;
use crate::state::{Carried, State, Taken, leave_header, stop_at};
use mp4_ends::Sink;
use mp4_ledger::Ledger;
use mp4_machine::{Block, BufferedBox, Stop};

/// Holds the moof that is whole at the front of the input, and claims the list of its runs: it is kept for its mdat.
/// `found` as in [`accept_moof`].
///
/// # Errors
///
/// `OverLimit` or `Memory` where a claim is refused, and as [`accept_moof`].
fn buffer_in_place(
    at: u64,
    moof: &Span,
    input: &[u8],
    found: Option<InPlaceRead>,
    carried: &mut Carried,
    ledger: &mut Ledger,
) -> Result<PendingMoof, Stop>
    requires is { IsFirstBox Moof at input.now moof.now }
    requires most { moof.now.size ≤ most_moof }
    requires known { carried.old.tracks ≡ Some (known carried.old.tracks) }
    requires empty { carried.old.header_bytes ≡ [] }
    requires can { CanStep carried.old ledger.old (states.Header at) }
    requires found { IfSome found (WasReadInPlace (moof_at (take moof.now.size input.now) at)
        (known carried.old.tracks)) }
    ensures tracks { OnOk result (carried.new.tracks ≡ carried.old.tracks) }
    ensures waits { (u : Untouched) → AcceptsMoofPast (ledger_alone u ledger.old ledger.new) carried.old carried.new
        (states.Header at) input.now moof.now.size result }
{
    let (bytes, _) = input.split_at(moof.size as usize);
    match BufferedBox::claim(ledger, at, moof.kind, moof.size, bytes) {
        Ok(buffered) => match accept_moof(buffered, found, carried, ledger) {
            Ok(pending_moof) => Ok(pending_moof),
            Err(stop) => Err(stop),
        },
        Err(refused) => {
            InPlaceRead::leave_out(found, &refused);
            Err(Stop::of_refusal(refused))
        }
    }
}

impl FragmentMachine {
    /// Takes the moof that is whole at the front of the input, and the bytes there are of the header after it. Returns
    /// how many bytes. `found` as in [`accept_moof`].
    ///
    /// # Errors
    ///
    /// `OverLimit` or `Memory` where a claim is refused, and as [`accept_moof`] and [`take_mdat_header`].
    pub(crate) fn take_moof<W: Sink>(
        &mut self,
        at: u64,
        moof: &Span,
        found: Option<InPlaceRead>,
        ledger: &mut Ledger,
        input: &[u8],
        out: &mut Block,
        w: &mut W,
    ) -> Result<usize, Stop>
        requires first { HasMoof self.old at input.now moof.now }
        requires claim { claim_of (place_in self.old) ≤ ledger.old.live }
        requires found { IfSome found (WasReadInPlace (moof_at (take moof.now.size input.now) at)
            (known self.old.tracks)) }
        ensures { Feeds (change (sent W.contents W.has_failed w.old w.new) out.old out.new
            ledger.old ledger.new self.old.counter.tally self.new.counter.tally)
            self.old self.new input.now result }
    {
        let pending_moof = match buffer_in_place(
            at,
            moof,
            input,
            found,
            &mut self.carried,
            ledger,
        ) {
            Ok(pending_moof) => pending_moof,
            Err(stop) => {
                stop_at(&mut self.state, &mut self.carried, ledger);
                return Err(stop);
            }
        };
        if moof.size == input.len() as u64 {
            leave_header(&mut self.state, State::MdatHeader(pending_moof));
            return Ok(input.len());
        }
        let (_, rest) = input.split_at(moof.size as usize);
        match take_mdat_header(pending_moof, rest, &mut self.carried, ledger, out, w) {
            Ok(Taken { count, state }) => {
                leave_header(&mut self.state, state);
                Ok(moof.size as usize + count)
            }
            Err(stop) => {
                stop_at(&mut self.state, &mut self.carried, ledger);
                Err(stop)
            }
        }
    }
}
