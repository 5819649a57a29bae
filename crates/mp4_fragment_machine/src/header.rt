//! Takes the header of a box, and decides what begins with it.

ghost use Rattle.mp4_fragment_machine.specs.Implementation.Steps.{Consumes, MayTake, borrowed};
ghost use Rattle.mp4_fragment_machine.specs.declared.state.State.TheVariants as states;

use crate::begin::{buffer_on, pass_over};
use crate::state::{Carried, State, Taken};
use mp4_box::Rule;
use mp4_ends::Sink;
use mp4_grammar::{Kind, MOST_MOOF, MOST_MOOV, kind_of};
use mp4_ledger::Ledger;
use mp4_machine::{Block, HeaderStatus, Stop, at_fault, is_too_long, next_header};

/// Takes bytes of the header of the box at `at` from the front of the input, and begins the box once it is whole.
///
/// # Errors
///
/// `Stream` where no header begins with the bytes that came, or where such a box may not follow here or goes too far;
/// and as [`buffer_on`] and [`pass_over`].
#[inline(always)]
pub(crate) fn take_header<W: Sink>(
    at: u64,
    input: &[u8],
    carried: &mut Carried,
    ledger: &mut Ledger,
    out: &mut Block,
    w: &mut W,
) -> Result<Taken, Stop>
    requires { MayTake input.now carried.old ledger.old (states.Header at) }
    ensures { Consumes (borrowed W.contents W.has_failed w.old w.new out.old out.new ledger.old ledger.new)
        carried.old carried.new (states.Header at) input.now result }
{
    match next_header(&mut carried.header_bytes, input) {
        HeaderStatus::More { count } => Ok(Taken {
            count,
            state: State::Header { at },
        }),
        HeaderStatus::BadSize { kind } => Err(at_fault(Rule::BadSize, kind, at)),
        HeaderStatus::Complete {
            header,
            bytes,
            count,
        } => {
            let (header, head) = (&header, bytes.bytes());
            if is_too_long(at, header) {
                return Err(at_fault(Rule::StreamTooLong, Some(header.kind), at));
            }
            let begun = match (kind_of(header.kind), &carried.tracks) {
                (Kind::Moov, None) => {
                    buffer_on(at, header, MOST_MOOV, head, carried, ledger, out, w)
                }
                (Kind::Moof, Some(_)) => {
                    buffer_on(at, header, MOST_MOOF, head, carried, ledger, out, w)
                }
                (Kind::Other, _) => pass_over(at, header, head, carried, out, w),
                (Kind::Moov, Some(_)) => Err(at_fault(Rule::SecondMoov, Some(header.kind), at)),
                (Kind::Moof, None) => Err(at_fault(Rule::NoMoov, Some(header.kind), at)),
                (Kind::Mdat, _) => Err(at_fault(Rule::StrayMdat, Some(header.kind), at)),
            };
            match begun {
                Ok(state) => Ok(Taken { count, state }),
                Err(stop) => Err(stop),
            }
        }
    }
}
