//! A machine that lists the boxes of a stream as it comes.

ghost use Rattle.std.specs.Prelude.{◌≡◌, ◌+◌, ◌-◌, ◌<◌, ◌≤◌, ◌↔◌, [], length, take, None, Some, IfOk, IfErr, OnOk, OnErr, IsErrOf, IsTrue};
ghost use Rattle.mp4_ledger.specs.Memory.{given_back};
ghost use Rattle.mp4_machine.specs.Readings.{fault_in, uncounted};
ghost use Rattle.mp4_boxes.specs.States.{begun, continuation_at};
ghost use Rattle.mp4_boxes.specs.declared.state.State.TheVariants as states;

use crate::state::{State, Taken};
use crate::step::{back_state, take_next};
use mp4_box::{Fault, HeaderReader};
use mp4_ends::Sink;
use mp4_ledger::Ledger;
use mp4_machine::{Block, Machine, Stop, truncated};
use std::marker::Model;
use std::mem::replace;

/// A machine that lists boxes. What it has claimed must be given back.
pub struct BoxMachine {
    /// The bytes of a header so far.
    header_bytes: HeaderReader,
    state: State,
}

// A contract sees where it is.
impl Model for BoxMachine {
    ghost use Rattle.mp4_boxes.specs.States.{IsState, Progress};

    ghost Value = { Progress };

    ghost view = { λ m. record { header_bytes = m.header_bytes; state = m.state } };

    ghost invariant = { λ m. IsState m.header_bytes m.state };
}

impl BoxMachine {
    /// A machine to which no byte has come.
    pub fn new() -> Self
        ensures { result ≡ begun }
    {
        BoxMachine {
            header_bytes: HeaderReader::new(),
            state: nothing_held(),
        }
    }

    /// Gives back all that is claimed.
    pub fn give_up(self, ledger: &mut Ledger)
        requires { (continuation_at self.header_bytes self.state).claim ≤ ledger.old.live }
        ensures { ledger.new ≡ given_back ledger.old (continuation_at self.header_bytes self.state).claim }
    {
        let BoxMachine {
            header_bytes: _,
            state,
        } = self;
        back_state(state, ledger);
    }
}

impl Machine for BoxMachine {
    ghost task = { λ _. tt };

    ghost continuation = { λ m. continuation_at m.header_bytes m.state };

    ghost counted = { λ _. uncounted };

    fn take<W: Sink>(
        &mut self,
        ledger: &mut Ledger,
        input: &[u8],
        out: &mut Block,
        w: &mut W,
    ) -> Result<usize, Stop> {
        let state = replace(&mut self.state, nothing_held());
        match take_next(state, input, &mut self.header_bytes, ledger, out, w) {
            Ok(Taken { count, state }) => {
                put_state(&mut self.state, state);
                Ok(count)
            }
            Err(stop) => Err(stop),
        }
    }

    fn finish(&self) -> Result<(), Fault> {
        match &self.state {
            State::Header { at } => {
                if self.header_bytes.is_empty() {
                    return Ok(());
                }
                Err(truncated(self.header_bytes.kind(), *at))
            }
            State::Buffering(buffered) => Err(truncated(Some(buffered.kind()), buffered.offset())),
            State::Body(body) => body.end(),
        }
    }

    fn give_back(&mut self, ledger: &mut Ledger) {
        back_state(replace(&mut self.state, nothing_held()), ledger);
        self.header_bytes = HeaderReader::new();
    }
}

/// The state at the start, and after a stop.
#[inline(always)]
fn nothing_held() -> State
    ensures { result ≡ states.Header 0 }
{
    State::Header { at: 0 }
}

/// Puts a state where nothing was held.
#[inline(always)]
fn put_state(slot: &mut State, state: State)
    requires { slot.old ≡ states.Header 0 }
    ensures { slot.new ≡ state }
{
    match replace(slot, state) {
        State::Header { at } => {
            let _ = at;
        }
        _ => unreachable!(),
    }
}
