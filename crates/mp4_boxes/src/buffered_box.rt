//! Holds a moov or moof until it is whole.

ghost use Rattle.std.specs.Prelude.{◌≡◌, ◌+◌, ◌<◌, ◌≤◌, [], length, ℕ, Some, IfOk};
ghost use Rattle.mp4_box.specs.Headers.{HasRoom, header_at};
ghost use Rattle.mp4_box.specs.declared.headers.Size.TheVariants.{Exact};
ghost use Rattle.mp4_box.specs.declared.headers.Step.TheVariants as steps;
ghost use Rattle.mp4_machine.specs.Bodies.{least_end, longest};
ghost use Rattle.mp4_machine.specs.Ends.{sent};
ghost use Rattle.mp4_machine.specs.Buffering.{Begins};
ghost use Rattle.mp4_boxes.specs.Buffering.{most_held};
ghost use Rattle.mp4_boxes.specs.States.{IsState, change};
ghost use Rattle.mp4_boxes.specs.Steps.{Advances, Consumes};
ghost use Rattle.mp4_boxes.specs.declared.state.State.TheVariants as states;

use crate::listed_box::{list_held, list_whole};
use crate::state::{State, Taken};
use mp4_box::{FourCc, Header, Rule, Size};
use mp4_ends::Sink;
use mp4_grammar::{MOST_MOOF, MOST_MOOV};
use mp4_ledger::Ledger;
use mp4_machine::{Block, BufferedBox, Stop, at_fault};

/// The most bytes that a box of this type may have to be held; none for a type that isn't.
#[inline(always)]
#[tactic(auto, unfolding(crate::specs::Buffering::most_held))]
pub(crate) fn held_limit(kind: FourCc) -> Option<u64>
    ensures { result ≡ most_held kind.0 }
{
    match &kind.0 {
        b"moov" => Some(MOST_MOOV),
        b"moof" => Some(MOST_MOOF),
        _ => None,
    }
}

/// Takes the moov or moof at `at`, whose header begins the input: lists it if all of it is there, and else holds
/// the bytes there are of it.
///
/// # Errors
///
/// `Stream` where it states no size, or a larger one than it may have; `OverLimit` or `Memory` where the claim is
/// refused; and as [`list_whole`].
#[inline(always)]
pub(crate) fn begin_held<W: Sink>(
    at: u64,
    header: &Header,
    limit: u64,
    input: &[u8],
    ledger: &mut Ledger,
    out: &mut Block,
    w: &mut W,
) -> Result<Taken, Stop>
    requires room { HasRoom header.now.size header.now.header_len }
    requires is { header_at input.now ≡ steps.Whole header.now }
    requires end { least_end at header.now header.now.size ≤ longest }
    requires buffered { most_held header.now.kind.0 ≡ Some limit }
    ensures consumes { Consumes (change (sent W.contents W.has_failed w.old w.new)
        out.old out.new ledger.old ledger.new) [] [] (states.Header at) input.now result }
    ensures all { IfOk result (λ t. header.now.header_len ≤ t.count) }
{
    let Size::Exact(size) = header.size else {
        return Err(at_fault(Rule::TooLarge, Some(header.kind), at));
    };
    if size > limit {
        return Err(at_fault(Rule::TooLarge, Some(header.kind), at));
    }
    if size <= input.len() as u64 {
        return take_whole(at, header, size as usize, input, ledger, out, w);
    }
    match BufferedBox::claim(ledger, at, header.kind, size, input) {
        Ok(buffered) => Ok(Taken {
            count: input.len(),
            state: State::Buffering(buffered),
        }),
        Err(refused) => Err(Stop::of_refusal(refused)),
    }
}

/// Takes the moov or moof at `at`, which is the first `size` bytes of the input. It needs no memory of its own, but
/// is counted as one that is held, so that the claims of a stream don't depend on its reads.
///
/// # Errors
///
/// As the ledger refuses the claim, and as [`list_whole`].
#[inline(always)]
fn take_whole<W: Sink>(
    at: u64,
    header: &Header,
    size: usize,
    input: &[u8],
    ledger: &mut Ledger,
    out: &mut Block,
    w: &mut W,
) -> Result<Taken, Stop>
    requires is { header_at input.now ≡ steps.Whole header.now }
    requires size { header.now.size ≡ Exact size }
    requires room { (header.now.header_len ≤ size) × (size ≤ length input.now) }
    requires buffered { (limit : ℕ) × (most_held header.now.kind.0 ≡ Some limit) × (size ≤ limit) }
    requires end { at + size ≤ longest }
    ensures consumes { Consumes (change (sent W.contents W.has_failed w.old w.new)
        out.old out.new ledger.old ledger.new) [] [] (states.Header at) input.now result }
    ensures all { IfOk result (λ t. t.count ≡ size) }
{
    match ledger.count_claim(size as u64) {
        Ok(()) => {}
        Err(refused) => return Err(Stop::of_refusal(refused)),
    }
    match list_whole(at, header, &input[..size], out, w) {
        Ok(()) => Ok(Taken {
            count: size,
            state: State::Header {
                at: at + size as u64,
            },
        }),
        Err(stop) => Err(stop),
    }
}

/// Takes bytes of a moov or moof from the front of the input.
///
/// # Errors
///
/// As [`hold`].
pub(crate) fn take_held<W: Sink>(
    buffered: BufferedBox,
    input: &[u8],
    ledger: &mut Ledger,
    out: &mut Block,
    w: &mut W,
) -> Result<Taken, Stop>
    requires some { 0 < length input.now }
    requires state { IsState [] (states.Buffering buffered) }
    requires claim { buffered.size ≤ ledger.old.live }
    ensures { Consumes (change (sent W.contents W.has_failed w.old w.new)
        out.old out.new ledger.old ledger.new) [] [] (states.Buffering buffered) input.now result }
{
    let mut buffered = buffered;
    let count = buffered.take(input);
    match hold(buffered, ledger, out, w) {
        Ok(state) => Ok(Taken { count, state }),
        Err(stop) => Err(stop),
    }
}

/// The state after these bytes of a moov or moof: once it is whole, it is listed and given back.
///
/// # Errors
///
/// As [`list_held`]: it is given back then.
fn hold<W: Sink>(
    buffered: BufferedBox,
    ledger: &mut Ledger,
    out: &mut Block,
    w: &mut W,
) -> Result<State, Stop>
    requires begins { Begins buffered.size buffered.bytes }
    requires near { buffered.at + buffered.size ≤ longest }
    requires claim { buffered.size ≤ ledger.old.live }
    ensures { Advances (change (sent W.contents W.has_failed w.old w.new)
        out.old out.new ledger.old ledger.new) [] [] (states.Buffering buffered) result }
{
    if !buffered.is_whole() {
        return Ok(State::Buffering(buffered));
    }
    let at = buffered.offset() + buffered.size();
    let listed = list_held(&buffered, out, w);
    buffered.back(ledger);
    match listed {
        Ok(()) => Ok(State::Header { at }),
        Err(stop) => Err(stop),
    }
}
