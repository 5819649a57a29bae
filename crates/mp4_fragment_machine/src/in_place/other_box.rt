//! Takes a box that is whole in the input, and is passed over or copied.

ghost use Rattle.std.specs.Prelude.{◌≡◌, ◌≤◌, ℕ, []};
ghost use Rattle.mp4_ledger.specs.Memory.{Account};
ghost use Rattle.mp4_machine.specs.Ends.{sent};
ghost use Rattle.mp4_machine.specs.Inputs.{change};
ghost use Rattle.mp4_grammar.specs.declared.kinds.Kind.TheVariants.{Other};
ghost use Rattle.mp4_fragment_machine.specs.Places.{claim_of};
ghost use Rattle.mp4_fragment_machine.specs.States.{place_in};
ghost use Rattle.mp4_fragment_machine.specs.Implementation.Feeds.{Feeds};
ghost use Rattle.mp4_fragment_machine.specs.Implementation.InPlace.{HasOther, IsFirstBox};
ghost use Rattle.mp4_fragment_machine.specs.Implementation.Steps.{CanStep, TakesInPlace, borrowed};
ghost use Rattle.mp4_fragment_machine.specs.declared.state.State.TheVariants as states;

use crate::in_place::Span;
use crate::machine::FragmentMachine;
use crate::state::{Carried, go_to, stop_at};
use mp4_ends::{Failed, Sink};
use mp4_ledger::Ledger;
use mp4_machine::{Block, Stop};
use mp4_recut::{Operation, is_dropped};

impl FragmentMachine {
    /// Takes a box that is whole at the front of the input, and is passed over or copied. Returns how many bytes.
    ///
    /// # Errors
    ///
    /// `Write` where a write failed.
    #[inline(always)]
    pub(crate) fn take_other_box<W: Sink>(
        &mut self,
        at: u64,
        span: &Span,
        ledger: &mut Ledger,
        input: &[u8],
        out: &mut Block,
        w: &mut W,
    ) -> Result<usize, Stop>
        requires found { HasOther self.old at input.now span.now }
        requires claim { claim_of (place_in self.old) ≤ ledger.old.live }
        ensures { Feeds (change (sent W.contents W.has_failed w.old w.new) out.old out.new
            ledger.old ledger.new self.old.counter.tally self.new.counter.tally)
            self.old self.new input.now result }
    {
        match take_box_in_place(span, input, &self.carried, out, w) {
            Ok(size) => {
                go_to(&mut self.state, at + size);
                Ok(size as usize)
            }
            Err(stop) => {
                stop_at(&mut self.state, &mut self.carried, ledger);
                Err(stop)
            }
        }
    }
}

/// Takes the box at the front of the input, which is passed over or copied. Returns how many bytes it has.
///
/// # Errors
///
/// `Write` where a write failed.
#[inline(always)]
fn take_box_in_place<W: Sink>(
    span: &Span,
    input: &[u8],
    carried: &Carried,
    out: &mut Block,
    w: &mut W,
) -> Result<u64, Stop>
    requires is { (at : ℕ) × IsFirstBox Other at input.now span.now }
    requires empty { carried.now.header_bytes ≡ [] }
    ensures { (at : ℕ) (account : Account) → IsFirstBox Other at input.now span.now →
        CanStep carried.now account (states.Header at) →
        TakesInPlace (borrowed W.contents W.has_failed w.old w.new out.old out.new account account)
        carried.now carried.now at input.now result }
{
    match carried.operation {
        Operation::List(_) => Ok(span.size),
        Operation::Split(_) => {
            if is_dropped(span.kind) {
                return Ok(span.size);
            }
            match out.put(w, &input[..span.size as usize]) {
                Ok(()) => Ok(span.size),
                Err(Failed) => Err(Stop::Write),
            }
        }
    }
}
