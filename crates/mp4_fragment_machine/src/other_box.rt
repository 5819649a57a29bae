//! Bodies that are passed over or copied.

ghost use Rattle.std.specs.Prelude.{◌≡◌, ◌≤◌, ◌<◌, Option, length};
ghost use Rattle.mp4_ledger.specs.Memory.{Account};
ghost use Rattle.mp4_machine.specs.Inputs.{change};
ghost use Rattle.mp4_machine.specs.declared.body.Body.{Body};
ghost use Rattle.mp4_fragment_machine.specs.Places.{Untouched, claim_of, unsent};
ghost use Rattle.mp4_fragment_machine.specs.States.{place_in};
ghost use Rattle.mp4_fragment_machine.specs.Implementation.Feeds.{Feeds};
ghost use Rattle.mp4_fragment_machine.specs.Implementation.Steps.{Consumes, MayTake, borrowed};
ghost use Rattle.mp4_fragment_machine.specs.declared.state.Carried.{Carried};
ghost use Rattle.mp4_fragment_machine.specs.declared.pending_moof.PendingMoof.{PendingMoof};
ghost use Rattle.mp4_fragment_machine.specs.declared.state.State.TheVariants as states;

use crate::machine::FragmentMachine;
use crate::mdat::end::end_fragment;
use crate::state::{Carried, State, Taken, let_go};
use mp4_ends::{Failed, Sink};
use mp4_ledger::Ledger;
use mp4_machine::{Block, Body, Machine, Stop};
use std::mem::replace;

/// Takes bytes of a body that is copied from the front of the input.
///
/// # Errors
///
/// `Stream` where the body goes too far: the bytes before that are copied; `Write` where a write failed.
pub(crate) fn take_copied<W: Sink>(
    body: Body,
    input: &[u8],
    out: &mut Block,
    w: &mut W,
) -> Result<Taken, Stop>
    ensures { (carried : Carried) (account : Account) → MayTake input.now carried account (states.Copied body) →
        Consumes (borrowed W.contents W.has_failed w.old w.new out.old out.new account account)
        carried carried (states.Copied body) input.now result }
{
    let most = body.left.min(input.len() as u64) as usize;
    let (front, _) = input.split_at(most);
    match out.put(w, front) {
        Ok(()) => {}
        Err(Failed) => return Err(Stop::Write),
    }
    let mut body = body;
    let count = match body.take(input) {
        Ok(count) => count,
        Err(stop) => return Err(stop),
    };
    match body.next() {
        Some(next) => Ok(Taken {
            count,
            state: State::Header { at: next },
        }),
        None => Ok(Taken {
            count,
            state: State::Copied(body),
        }),
    }
}

impl FragmentMachine {
    /// Takes bytes of a body that is passed over from the front of the input. Returns how many. At its end a pending
    /// moof is done.
    ///
    /// # Errors
    ///
    /// `Stream` where the body goes too far.
    pub(crate) fn finish_body(&mut self, ledger: &mut Ledger, input: &[u8]) -> Result<usize, Stop>
        requires some { 0 < length input.now }
        requires body { (b : Body) × (w : Option PendingMoof) × (self.old.state ≡ states.Body b w) }
        requires claim { claim_of (place_in self.old) ≤ ledger.old.live }
        ensures { (u : Untouched) → Feeds (change (unsent u) u.waiting u.waiting
            ledger.old ledger.new self.old.counter.tally self.new.counter.tally)
            self.old self.new input.now result }
    {
        let State::Body(body, _) = &mut self.state else {
            unreachable!();
        };
        let count = match body.take(input) {
            Ok(count) => count,
            Err(stop) => {
                let_go(&mut self.state, ledger);
                self.give_back(ledger);
                return Err(stop);
            }
        };
        if let Some(next) = body.next() {
            let pending_moof = match replace(&mut self.state, State::Header { at: next }) {
                State::Body(_, pending_moof) => pending_moof,
                _ => unreachable!(),
            };
            if let Some(pending_moof) = pending_moof {
                let Some(list) = &mut self.carried.tracks else {
                    unreachable!();
                };
                end_fragment(pending_moof, list, ledger, &mut self.carried.counter);
            }
        }
        Ok(count)
    }
}
