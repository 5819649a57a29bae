//! Bodies that are passed over.

ghost use Rattle.std.specs.Prelude.{◌≡◌, ◌<◌, ◌≤◌, [], length, Bool};
ghost use Rattle.mp4_box.specs.Headers.{HasRoom};
ghost use Rattle.mp4_machine.specs.Bodies.{least_end, longest};
ghost use Rattle.mp4_machine.specs.Inputs.{Environment, GoesOn};
ghost use Rattle.mp4_machine.specs.Steps.{unmoved};
ghost use Rattle.mp4_boxes.specs.States.{IsState, after_header, continuation_at};
ghost use Rattle.mp4_boxes.specs.Steps.{Consumes};
ghost use Rattle.mp4_boxes.specs.declared.state.State.TheVariants as states;

use crate::state::{State, Taken};
use mp4_box::Header;
use mp4_machine::{AnyBody, Body, Stop, body_of};

/// The state after the header of the box at `at`, which is passed over.
#[inline(always)]
pub(crate) fn pass_over(at: u64, header: &Header) -> State
    requires room { HasRoom header.now.size header.now.header_len }
    requires end { least_end at header.now header.now.size ≤ longest }
    ensures goes { (o : Environment) → GoesOn o o (after_header at header.now) [] (continuation_at [] result) }
    ensures state { IsState [] result }
    ensures claim { (continuation_at [] result).claim ≡ 0 }
{
    match body_of(at, header, 0) {
        AnyBody::Empty { next } => State::Header { at: next },
        AnyBody::Bytes(body) => State::Body(body),
    }
}

/// Takes bytes of a body from the front of the input.
///
/// # Errors
///
/// `Stream` where it goes too far.
pub(crate) fn take_body(body: Body, input: &[u8]) -> Result<Taken, Stop>
    requires some { 0 < length input.now }
    requires state { IsState [] (states.Body body) }
    ensures { (o : Environment) → (failed : Bool) →
        Consumes (unmoved o failed) [] [] (states.Body body) input.now result }
{
    let mut body = body;
    let count = match body.take(input) {
        Ok(count) => count,
        Err(stop) => return Err(stop),
    };
    match body.next() {
        Some(next) => Ok(Taken {
            count,
            state: State::Header { at: next },
        }),
        None => Ok(Taken {
            count,
            state: State::Body(body),
        }),
    }
}
