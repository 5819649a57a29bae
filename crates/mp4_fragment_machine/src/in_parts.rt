//! Takes what comes in parts, by the state of the machine.

ghost use Rattle.std.specs.Prelude.{◌≡◌, ◌<◌, ◌≤◌, Option, length};
ghost use Rattle.mp4_machine.specs.Ends.{sent};
ghost use Rattle.mp4_machine.specs.Inputs.{change};
ghost use Rattle.mp4_machine.specs.declared.body.Body.{Body};
ghost use Rattle.mp4_fragment_machine.specs.Places.{claim_of};
ghost use Rattle.mp4_fragment_machine.specs.States.{place_in};
ghost use Rattle.mp4_fragment_machine.specs.Implementation.Feeds.{Feeds};
ghost use Rattle.mp4_fragment_machine.specs.declared.pending_moof.PendingMoof.{PendingMoof};
ghost use Rattle.mp4_fragment_machine.specs.declared.state.Recutting.{Recutting};
ghost use Rattle.mp4_fragment_machine.specs.declared.state.State.TheVariants as states;

use crate::header::take_header;
use crate::held::hold;
use crate::machine::FragmentMachine;
use crate::mdat::header::take_mdat_header;
use crate::other_box::take_copied;
use crate::state::{State, Taken, stopped};
use mp4_ends::Sink;
use mp4_ledger::Ledger;
use mp4_machine::{Block, Machine, Stop};
use std::mem::replace;

impl FragmentMachine {
    /// Takes a few bytes from the front of the input, in any state but a body that is passed over or recut. Returns how
    /// many.
    ///
    /// # Errors
    ///
    /// As [`take_header`], [`hold`], [`take_mdat_header`] and [`take_copied`].
    #[inline(never)]
    pub(crate) fn take_next_input<W: Sink>(
        &mut self,
        ledger: &mut Ledger,
        input: &[u8],
        out: &mut Block,
        w: &mut W,
    ) -> Result<usize, Stop>
        requires some { 0 < length input.now }
        requires claim { claim_of (place_in self.old) ≤ ledger.old.live }
        requires body { (b : Body) (w : Option PendingMoof) → self.old.state ≡ states.Body b w → ⊥ }
        requires media { (r : Recutting) → self.old.state ≡ states.Media r → ⊥ }
        ensures { Feeds (change (sent W.contents W.has_failed w.old w.new) out.old out.new
            ledger.old ledger.new self.old.counter.tally self.new.counter.tally)
            self.old self.new input.now result }
    {
        let carried = &mut self.carried;
        let taken = match replace(&mut self.state, stopped()) {
            State::Header { at } => take_header(at, input, carried, ledger, out, w),
            State::Buffering(buffered) => {
                let mut buffered = buffered;
                let count = buffered.take(input);
                match hold(buffered, carried, ledger, out, w) {
                    Ok(state) => Ok(Taken { count, state }),
                    Err(stop) => Err(stop),
                }
            }
            State::MdatHeader(moof) => take_mdat_header(moof, input, carried, ledger, out, w),
            State::Copied(body) => take_copied(body, input, out, w),
            _ => unreachable!(),
        };
        match taken {
            Ok(Taken { count, state }) => match replace(&mut self.state, state) {
                State::Body(_, pending_moof) => match pending_moof {
                    None => Ok(count),
                    Some(_) => unreachable!(),
                },
                _ => unreachable!(),
            },
            Err(stop) => {
                self.give_back(ledger);
                Err(stop)
            }
        }
    }
}
