//! Begins a box whose header is whole: it is held, copied or passed over.

ghost use Rattle.std.specs.Prelude.{◌≡◌, ℕ, ◌≤◌, ◌++◌, [], List, length};
ghost use Rattle.mp4_box.specs.Headers.{HasRoom, header_at, need};
ghost use Rattle.mp4_box.specs.declared.headers.Step.TheVariants as steps;
ghost use Rattle.mp4_ledger.specs.Memory.{Account};
ghost use Rattle.mp4_machine.specs.Blocks.{Passes};
ghost use Rattle.mp4_machine.specs.Bodies.{least_end, longest};
ghost use Rattle.mp4_machine.specs.Readings.{says, no_effects, then_read};
ghost use Rattle.mp4_machine.specs.Buffering.{Begins};
ghost use Rattle.mp4_grammar.specs.Contexts.{context};
ghost use Rattle.mp4_grammar.specs.Items.{keeping, reads_in};
ghost use Rattle.mp4_grammar.specs.Kinds.{kind_in};
ghost use Rattle.mp4_grammar.specs.declared.kinds.Kind.TheVariants.{Other};
ghost use Rattle.mp4_recut.specs.Operations.{operation_meaning};
ghost use Rattle.mp4_fragment_machine.specs.Places.{Untouched};
ghost use Rattle.mp4_fragment_machine.specs.Implementation.Steps.{Advances, Borrowed, CanPass, CanStep, GoesTo, at_state, borrowed, ledger_alone, with_head};
ghost use Rattle.mp4_fragment_machine.specs.declared.state.Carried.{Carried};
ghost use Rattle.mp4_fragment_machine.specs.declared.state.State.TheVariants as states;

use crate::held::hold;
use crate::state::{Carried, State};
use mp4_box::{Header, Rule, Size};
use mp4_ends::{Failed, Sink};
use mp4_ledger::Ledger;
use mp4_machine::{AnyBody, Block, BufferedBox, Stop, at_fault, body_of};
use mp4_recut::{Operation, is_dropped};

/// Holds the moov or moof at `at` with this header. Returns the next state.
///
/// # Errors
///
/// `Stream` where it states no size, or a larger one than it may have; `OverLimit` or `Memory` where the claim is
/// refused; and as [`hold`].
#[inline(always)]
pub(crate) fn buffer_on<W: Sink>(
    at: u64,
    header: &Header,
    limit: u64,
    header_bytes: &[u8],
    carried: &mut Carried,
    ledger: &mut Ledger,
    out: &mut Block,
    w: &mut W,
) -> Result<State, Stop>
    requires room { HasRoom header.now.size header.now.header_len }
    requires len { length header_bytes.now ≡ need header_bytes.now }
    requires is { header_at header_bytes.now ≡ steps.Whole header.now }
    requires end { least_end at header.now header.now.size ≤ longest }
    requires empty { carried.old.header_bytes ≡ [] }
    requires can { CanStep carried.old ledger.old (states.Header at) }
    requires reads { (number : ℕ) (later : List ℕ) →
        reads_in (operation_meaning carried.old.operation) (context at carried.old.tracks number)
        (header_bytes.now ++ later) ≡
        then_read (reads_in (operation_meaning carried.old.operation))
        (keeping (operation_meaning carried.old.operation) (context at carried.old.tracks number)
        header.now limit (header_bytes.now ++ later) header.now.size) }
    ensures { Advances (borrowed W.contents W.has_failed w.old w.new out.old out.new ledger.old ledger.new)
        (with_head header_bytes.now carried.old) carried.new (states.Header at) result }
{
    let Size::Exact(size) = header.size else {
        return Err(at_fault(Rule::TooLarge, Some(header.kind), at));
    };
    if size > limit {
        return Err(at_fault(Rule::TooLarge, Some(header.kind), at));
    }
    match BufferedBox::claim(ledger, at, header.kind, size, header_bytes) {
        Ok(buffered) => hold(buffered, carried, ledger, out, w),
        Err(refused) => Err(Stop::of_refusal(refused)),
    }
}

/// The state after the header of the box at `at`, which is passed over, or copied with these bytes of its header.
///
/// # Errors
///
/// `Write` where a write failed.
pub(crate) fn pass_over<W: Sink>(
    at: u64,
    header: &Header,
    header_bytes: &[u8],
    carried: &Carried,
    out: &mut Block,
    w: &mut W,
) -> Result<State, Stop>
    requires room { HasRoom header.now.size header.now.header_len }
    requires end { least_end at header.now header.now.size ≤ longest }
    requires other { kind_in header.now.kind.0 ≡ Other }
    ensures { (account : Account) → CanPass carried.now account at header.now header_bytes.now →
        Advances (borrowed W.contents W.has_failed w.old w.new out.old out.new account account)
        (with_head header_bytes.now carried.now) carried.now (states.Header at) result }
{
    match carried.operation {
        Operation::List(_) => Ok(leave_out(at, header)),
        Operation::Split(_) => {
            if is_dropped(header.kind) {
                return Ok(leave_out(at, header));
            }
            match out.put(w, header_bytes) {
                Ok(()) => Ok(copy(at, header)),
                Err(Failed) => Err(Stop::Write),
            }
        }
    }
}

/// The state after the header of the box at `at`, which is copied.
fn copy(at: u64, header: &Header) -> State
    requires room { HasRoom header.now.size header.now.header_len }
    requires end { least_end at header.now header.now.size ≤ longest }
    requires other { kind_in header.now.kind.0 ≡ Other }
    ensures { (l : Borrowed) (k : Carried) (x : List ℕ) → CanPass k l.account at header.now x →
        l.account' ≡ l.account → l.failed' ≡ l.failed →
        ((b : List ℕ) → (operation_meaning k.operation).passed header.now.kind b ≡ says b) →
        Passes l.written l.written' l.waiting l.waiting' x →
        GoesTo l (with_head x k) k (at_state (with_head x k) (states.Header at)) [] result }
{
    match body_of(at, header, 0) {
        AnyBody::Empty { next } => State::Header { at: next },
        AnyBody::Bytes(body) => State::Copied(body),
    }
}

/// The state after the header of the box at `at`, which is passed over without output.
fn leave_out(at: u64, header: &Header) -> State
    requires room { HasRoom header.now.size header.now.header_len }
    requires end { least_end at header.now header.now.size ≤ longest }
    requires other { kind_in header.now.kind.0 ≡ Other }
    ensures { (u : Untouched) (account : Account) (k : Carried) (x : List ℕ) →
        CanPass k account at header.now x →
        ((b : List ℕ) → (operation_meaning k.operation).passed header.now.kind b ≡ no_effects) →
        GoesTo (ledger_alone u account account) (with_head x k) k
        (at_state (with_head x k) (states.Header at)) [] result }
{
    match body_of(at, header, 0) {
        AnyBody::Empty { next } => State::Header { at: next },
        AnyBody::Bytes(body) => State::Body(body, None),
    }
}
