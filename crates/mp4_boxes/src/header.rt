//! Takes the header of a box, and begins the box.

ghost use Rattle.std.specs.Prelude.{◌≡◌, ◌<◌, ◌≤◌, [], length, IfOk};
ghost use Rattle.mp4_box.specs.Headers.{HasRoom, header_at, need};
ghost use Rattle.mp4_box.specs.declared.headers.Step.TheVariants as steps;
ghost use Rattle.mp4_machine.specs.Bodies.{longest};
ghost use Rattle.mp4_machine.specs.Ends.{sent};
ghost use Rattle.mp4_boxes.specs.States.{IsState, change};
ghost use Rattle.mp4_boxes.specs.Steps.{Advances, Consumes};
ghost use Rattle.mp4_boxes.specs.declared.state.State.TheVariants as states;

use crate::body::pass_over;
use crate::buffered_box::{begin_held, held_limit};
use crate::listing::put_box;
use crate::state::{State, Taken};
use mp4_box::{Header, HeaderReader, Rule};
use mp4_ends::{Failed, Sink};
use mp4_ledger::Ledger;
use mp4_machine::{Block, HeaderBytes, HeaderStatus, Stop, at_fault, is_too_long, next_header};

/// Takes the header of the box at `at` from the front of the input, and begins the box once the header is whole; in one
/// go if the input has all of it, and then with the bytes there are of a box that is held.
///
/// # Errors
///
/// `Stream` where no header begins with the bytes that came, and as [`begin_box`].
#[inline(always)]
pub(crate) fn take_header<W: Sink>(
    at: u64,
    input: &[u8],
    header_bytes: &mut HeaderReader,
    ledger: &mut Ledger,
    out: &mut Block,
    w: &mut W,
) -> Result<Taken, Stop>
    requires some { 0 < length input.now }
    requires state { IsState header_bytes.old (states.Header at) }
    ensures { Consumes (change (sent W.contents W.has_failed w.old w.new)
        out.old out.new ledger.old ledger.new)
        header_bytes.old header_bytes.new (states.Header at) input.now result }
{
    match next_header(header_bytes, input) {
        HeaderStatus::More { count } => Ok(Taken {
            count,
            state: State::Header { at },
        }),
        HeaderStatus::BadSize { kind } => Err(at_fault(Rule::BadSize, kind, at)),
        HeaderStatus::Complete {
            header,
            bytes,
            count,
        } => match bytes {
            HeaderBytes::AtOnce(_) => begin_box(at, &header, input, ledger, out, w),
            HeaderBytes::InParts(part) => {
                match begin_box(at, &header, part.bytes(), ledger, out, w) {
                    Ok(Taken { count: _, state }) => Ok(Taken { count, state }),
                    Err(stop) => Err(stop),
                }
            }
        },
    }
}

/// Takes the box at `at`, whose header begins the input: lists it and passes over the header, or holds it.
///
/// # Errors
///
/// `Stream` where the box goes too far, `Write` where a write failed, and as [`begin_held`].
#[inline(always)]
fn begin_box<W: Sink>(
    at: u64,
    header: &Header,
    input: &[u8],
    ledger: &mut Ledger,
    out: &mut Block,
    w: &mut W,
) -> Result<Taken, Stop>
    requires at { at ≤ longest }
    requires room { HasRoom header.now.size header.now.header_len }
    requires is { header_at input.now ≡ steps.Whole header.now }
    ensures consumes { Consumes (change (sent W.contents W.has_failed w.old w.new)
        out.old out.new ledger.old ledger.new) [] [] (states.Header at) input.now result }
    ensures all { IfOk result (λ t. header.now.header_len ≤ t.count) }
{
    if is_too_long(at, header) {
        return Err(at_fault(Rule::StreamTooLong, Some(header.kind), at));
    }
    match held_limit(header.kind) {
        Some(limit) => begin_held(at, header, limit, input, ledger, out, w),
        None => match put_box(at, header, out, w) {
            Ok(()) => Ok(Taken {
                count: header.header_len as usize,
                state: pass_over(at, header),
            }),
            Err(Failed) => Err(Stop::Write),
        },
    }
}
