//! A machine that reads a fragmented stream as it comes.

ghost use Rattle.std.specs.Prelude.{◌≡◌, ◌+◌, ◌*◌, ◌-◌, ◌<◌, ◌≤◌, Option, length, take, None, Some, Ok};
ghost use Rattle.mp4_ledger.specs.Memory.{given_back};
ghost use Rattle.mp4_machine.specs.Ends.{sent};
ghost use Rattle.mp4_machine.specs.Inputs.{Takes, change};
ghost use Rattle.mp4_machine.specs.declared.body.Body.{Body};
ghost use Rattle.mp4_recut.specs.declared.operation.Operation.{Operation};
ghost use Rattle.mp4_fragment_machine.specs.NextHeaders.{left_in};
ghost use Rattle.mp4_fragment_machine.specs.Places.{claim_of};
ghost use Rattle.mp4_fragment_machine.specs.States.{begun, continuation_in, listed_by, place_in, reads_of, stopped};
ghost use Rattle.mp4_fragment_machine.specs.Implementation.Feeds.{Feeds};
ghost use Rattle.mp4_fragment_machine.specs.Implementation.Steps.{Consumes, MayTake, borrowed};
ghost use Rattle.mp4_fragment_machine.specs.declared.state.Recutting.{Recutting};
ghost use Rattle.mp4_fragment_machine.specs.declared.pending_moof.PendingMoof.{PendingMoof};
ghost use Rattle.mp4_fragment_machine.specs.declared.state.State.TheVariants as states;

use crate::counter::Counter;
use crate::in_place::InPlace;
use crate::in_place::find::find_in_place;
use crate::mdat::header::unfollowed;
use crate::mdat::recut::take_recut;
use crate::state::{Carried, State, back_state, back_tracks, stopped};
use mp4_box::{Fault, HeaderReader};
use mp4_ends::Sink;
use mp4_frag::Steps;
use mp4_ledger::Ledger;
use mp4_machine::{Block, Machine, Stop, Tally, truncated};
use mp4_recut::Operation;
use std::marker::Model;
use std::mem::replace;

/// A machine that lists, checks or splits fragments. What it has claimed must be given back.
pub struct FragmentMachine {
    pub(crate) carried: Carried,
    pub(crate) state: State,
    /// For how many bytes of moofs fragments aren't tried in place, since the last try was in vain. No answer depends
    /// on it.
    pub(crate) skips: u64,
}

// A contract sees where it is and what it has counted.
impl Model for FragmentMachine {
    ghost use Rattle.mp4_fragment_machine.specs.States.{IsMachine, Progress};

    ghost Value = { Progress };

    ghost view = { λ m. record {
      operation = m.carried.operation;
      tracks = m.carried.tracks;
      header_bytes = m.carried.header_bytes;
      state = m.state;
      counter = m.carried.counter;
    } };

    ghost invariant = { λ m. IsMachine m.carried.operation m.carried.tracks m.carried.header_bytes
        m.state m.carried.counter };
}

impl FragmentMachine {
    /// A machine to which no byte has come.
    pub fn new(operation: Operation) -> FragmentMachine
        ensures { result ≡ begun operation }
    {
        let tally = Tally {
            fragments: 0,
            samples: 0,
            media_bytes: 0,
            inspected: 0,
        };
        let steps = Steps { rows: 0 };
        FragmentMachine {
            carried: Carried {
                operation,
                tracks: None,
                header_bytes: HeaderReader::new(),
                counter: Counter { tally, steps },
            },
            state: State::Header { at: 0 },
            skips: 0,
        }
    }

    /// What it does with the stream.
    pub fn operation(&self) -> Operation
        ensures { result ≡ self.now.operation }
    {
        self.carried.operation
    }

    /// What it has counted of the stream.
    pub fn tally(&self) -> Tally
        ensures tally { result ≡ self.now.counter.tally }
        ensures all { result.samples ≤ result.inspected }
    {
        self.carried.counter.tally
    }

    /// How many rows of samples it has read: at least one read for each sample of an inspected moof, one more for each
    /// that is counted, and again where it is listed; at most three reads of each, or four where samples are listed.
    pub fn rows_read(&self) -> u128
        ensures rows { result ≡ self.now.counter.steps.rows }
        ensures some { self.now.counter.tally.inspected + self.now.counter.tally.samples +
            listed_by self.now.operation self.now.counter.tally.samples ≤ result }
        ensures few { result ≤ reads_of self.now.operation * self.now.counter.tally.inspected }
    {
        self.carried.counter.steps.rows
    }

    /// How many bytes of the body that comes are left, up to the next header: 0 where a header comes, or a box that is
    /// held.
    pub fn left(&self) -> u64
        ensures { result ≡ left_in self.now.state }
    {
        match &self.state {
            State::Body(body, _) => body.left,
            State::Copied(body) => body.left,
            State::Media(recutting) => recutting.body.left,
            State::Header { at: _ } | State::Buffering(_) | State::MdatHeader(_) => 0,
        }
    }

    /// Takes bytes of an mdat that is recut from the front of the input. Returns how many.
    ///
    /// # Errors
    ///
    /// `Stream` where the mdat goes too far; `Write` where a write failed.
    #[inline(never)]
    fn take_media<W: Sink>(
        &mut self,
        ledger: &mut Ledger,
        input: &[u8],
        out: &mut Block,
        w: &mut W,
    ) -> Result<usize, Stop>
        requires some { 0 < length input.now }
        requires media { (r : Recutting) × (self.old.state ≡ states.Media r) }
        requires claim { claim_of (place_in self.old) ≤ ledger.old.live }
        ensures { Feeds (change (sent W.contents W.has_failed w.old w.new) out.old out.new
            ledger.old ledger.new self.old.counter.tally self.new.counter.tally)
            self.old self.new input.now result }
    {
        match take_recut(&mut self.state, input, &mut self.carried, ledger, out, w) {
            Ok(taken) => Ok(taken),
            Err(stop) => {
                self.give_back(ledger);
                Err(stop)
            }
        }
    }

    /// Gives back all that is claimed.
    pub fn give_up(self, ledger: &mut Ledger)
        requires { claim_of (place_in self) ≤ ledger.old.live }
        ensures { ledger.new ≡ given_back ledger.old (claim_of (place_in self)) }
    {
        let FragmentMachine {
            carried,
            state,
            skips: _,
        } = self;
        let Carried {
            operation: _,
            tracks,
            header_bytes: _,
            counter: _,
        } = carried;
        back_state(state, ledger);
        if let Some(list) = tracks {
            list.back(ledger);
        }
    }
}

impl Machine for FragmentMachine {
    ghost Task = { Operation };

    ghost task = { λ m. m.operation };

    ghost continuation = { λ m. continuation_in m };

    ghost counted = { λ m. m.counter.tally };

    fn take<W: Sink>(
        &mut self,
        ledger: &mut Ledger,
        input: &[u8],
        out: &mut Block,
        w: &mut W,
    ) -> Result<usize, Stop> {
        if let State::Header { at } = &self.state {
            let at = *at;
            match &find_in_place(at, input, &self.carried) {
                InPlace::Other(span) => return self.take_other_box(at, span, ledger, input, out, w),
                InPlace::Moof(moof) => return self.take_from_moof(at, moof, ledger, input, out, w),
                InPlace::No => {}
            }
        } else if let State::Body(body, _) = &mut self.state {
            let count = input.len();
            if (count as u64) < body.left {
                body.pass(count as u64);
                return Ok(count);
            }
            return self.finish_body(ledger, input);
        } else if let State::Media(_) = &self.state {
            return self.take_media(ledger, input, out, w);
        }
        self.take_next_input(ledger, input, out, w)
    }

    fn finish(&self) -> Result<(), Fault> {
        match &self.state {
            State::Header { at } => {
                if self.carried.header_bytes.is_empty() {
                    return Ok(());
                }
                Err(truncated(self.carried.header_bytes.kind(), *at))
            }
            State::Buffering(buffered) => Err(truncated(Some(buffered.kind()), buffered.offset())),
            State::MdatHeader(pending_moof) => Err(unfollowed(
                pending_moof,
                &self.carried.header_bytes,
            )),
            State::Body(body, _) => body.end(),
            State::Copied(body) => body.end(),
            State::Media(recutting) => recutting.body.end(),
        }
    }

    fn give_back(&mut self, ledger: &mut Ledger) {
        back_state(replace(&mut self.state, stopped()), ledger);
        back_tracks(&mut self.carried, ledger);
    }
}
