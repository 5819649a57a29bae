//! State of the machine, and its changes in place.

ghost use Rattle.std.specs.Prelude.{◌≡◌, ℕ, ◌≤◌, [], None};
ghost use Rattle.mp4_ledger.specs.Memory.{given_back};
ghost use Rattle.mp4_machine.specs.declared.body.Body.{Body};
ghost use Rattle.mp4_grammar.specs.Contexts.{table_of};
ghost use Rattle.mp4_fragment_machine.specs.States.{kept_by, stopped};
ghost use Rattle.mp4_fragment_machine.specs.declared.state.Recutting.{Recutting};
ghost use Rattle.mp4_fragment_machine.specs.declared.state.State.TheVariants as states;

use crate::counter::Counter;
use crate::pending_moof::{PendingMoof, back};
use mp4_box::HeaderReader;
use mp4_box::types::MDAT;
use mp4_ends::Sink;
use mp4_init::TrackList;
use mp4_ledger::Ledger;
use mp4_machine::{Body, BufferedBox, Extent};
use mp4_recut::Operation;
use mp4_recut::media::Media;
use std::mem::replace;

/// The body of an mdat that is recut, at whose end its moof is done.
pub(crate) struct Recutting {
    pub(crate) body: Body,
    pub(crate) media: Media,
    pub(crate) pending_moof: PendingMoof,
}

/// What a machine takes next.
pub(crate) enum State {
    /// A byte of the header of the box at `at`.
    Header { at: u64 },
    /// Bytes of a moov or moof.
    Buffering(BufferedBox),
    /// A byte of the header after a sound moof.
    MdatHeader(PendingMoof),
    /// Bytes of a body that is passed over. If it is an mdat's, its moof is pending.
    Body(Body, Option<PendingMoof>),
    /// Bytes of a body that is copied.
    Copied(Body),
    /// Bytes of an mdat that is recut.
    Media(Recutting),
}

/// What a machine has in every state.
pub(crate) struct Carried {
    pub(crate) operation: Operation,
    /// The tracks, after the moov.
    pub(crate) tracks: Option<TrackList>,
    /// The bytes of a header so far.
    pub(crate) header_bytes: HeaderReader,
    pub(crate) counter: Counter,
}

/// Bytes that were taken from the front of the input: how many, and the next state.
pub(crate) struct Taken {
    pub(crate) count: usize,
    pub(crate) state: State,
}

/// The state after a stop: nothing in it must be given back.
pub(crate) fn stopped() -> State
    ensures { result ≡ stopped }
{
    let body = Body {
        at: 0,
        kind: MDAT,
        left: 0,
        extent: Extent::Open { needed: 0 },
    };
    State::Body(body, None)
}

/// Goes on with the header of the box at `at`, from an mdat that is recut. Returns its moof.
#[inline(always)]
pub(crate) fn leave_media(current: &mut State, at: u64) -> PendingMoof
    requires { (r : Recutting) × (current.old ≡ states.Media r) }
    ensures { (r : Recutting) → current.old ≡ states.Media r →
        (result ≡ r.pending_moof) × (current.new ≡ states.Header at) }
{
    match replace(current, State::Header { at }) {
        State::Media(
            Recutting {
                body: _,
                media: _,
                pending_moof,
            },
        ) => pending_moof,
        _ => unreachable!(),
    }
}

/// Gives back what is held, and then holds nothing.
// Its room is no part of the frames of its callers, which seldom stop.
#[inline(never)]
pub(crate) fn let_go(current: &mut State, ledger: &mut Ledger)
    requires { kept_by current.old ≤ ledger.old.live }
    ensures after { current.new ≡ stopped }
    ensures back { ledger.new ≡ given_back ledger.old (kept_by current.old) }
{
    back_state(replace(current, stopped()), ledger);
}

/// Gives back what is held.
pub(crate) fn back_state(state: State, ledger: &mut Ledger)
    requires { kept_by state ≤ ledger.old.live }
    ensures { ledger.new ≡ given_back ledger.old (kept_by state) }
{
    match state {
        State::Header { at: _ } => {}
        State::Buffering(buffered) => buffered.back(ledger),
        State::MdatHeader(pending_moof) => back(Some(pending_moof), ledger),
        State::Body(_, pending_moof) => back(pending_moof, ledger),
        State::Copied(_) => {}
        State::Media(
            Recutting {
                body: _,
                media: _,
                pending_moof,
            },
        ) => back(Some(pending_moof), ledger),
    }
}

/// Goes on with the header of the box at `at`, from a header.
#[inline(always)]
pub(crate) fn go_to(current: &mut State, at: u64)
    requires { (old : ℕ) × (current.old ≡ states.Header old) }
    ensures { current.new ≡ states.Header at }
{
    match current {
        State::Header { at: next } => *next = at,
        _ => unreachable!(),
    }
}

/// Goes on with a state, from a header.
pub(crate) fn leave_header(current: &mut State, state: State)
    requires { (old : ℕ) × (current.old ≡ states.Header old) }
    ensures { current.new ≡ state }
{
    match replace(current, state) {
        State::Header { at: _ } => {}
        _ => unreachable!(),
    }
}

/// Gives back the tracks, and forgets the bytes of a header.
pub(crate) fn back_tracks(carried: &mut Carried, ledger: &mut Ledger)
    requires { table_of carried.old.tracks ≤ ledger.old.live }
    ensures carried { carried.new ≡ record carried.old { tracks = None; header_bytes = [] } }
    ensures back { ledger.new ≡ given_back ledger.old (table_of carried.old.tracks) }
{
    carried.header_bytes = HeaderReader::new();
    if let Some(list) = carried.tracks.take() {
        list.back(ledger);
    }
}

/// Stops at a header: holds nothing, and gives back the tracks.
// As that of `let_go`.
#[inline(never)]
pub(crate) fn stop_at(current: &mut State, carried: &mut Carried, ledger: &mut Ledger)
    requires header { (old : ℕ) × (current.old ≡ states.Header old) }
    requires claim { table_of carried.old.tracks ≤ ledger.old.live }
    ensures state { current.new ≡ stopped }
    ensures carried { carried.new ≡ record carried.old { tracks = None; header_bytes = [] } }
    ensures back { ledger.new ≡ given_back ledger.old (table_of carried.old.tracks) }
{
    leave_header(current, stopped());
    back_tracks(carried, ledger);
}
