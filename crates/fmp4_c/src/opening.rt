//! How a stream is opened.

ghost use Rattle.std.specs.Prelude.{◌≡◌, ℕ, None, Some, IfErr, IfOk};
ghost use Rattle.fmp4_c.specs.Answers.{number_of};
ghost use Rattle.fmp4_c.specs.Calls.{CheckOpens, CutOpens, IsOpened, ListOpens, Opens, OpensOr, SplitOpens, all_flags};
ghost use Rattle.fmp4_c.specs.Engines.{Run};
ghost use Rattle.fmp4_c.specs.declared.answer.Answer as answers;

use crate::answer::Answer;
use crate::asked::Asked;
use crate::engine::Engine;
use crate::handle::Handle;
use crate::request::{ALL_FLAGS, CutRequest, PLAIN_FLAGS};
use crate::stream::{Stream, for_any_thread};
use mp4_ledger::Refused;
use std::alloc::Global;
use std::mem::replace;

/// Opens a stream that is cut into fragments of at most so many samples and so many bytes of media (0: any number), by
/// flags 1 for an index and 2 for a cut before each sync sample. It takes at most `limit` bytes, `room` of them for the
/// output that waits. `layout` says which sizes the structs have for the caller.
#[unsafe(no_mangle)]
pub extern "C" fn fmp4_split_open_as(
    alloc: Global,
    stream: &mut Stream,
    layout: u32,
    samples: u32,
    bytes: u64,
    flags: u32,
    limit: u64,
    room: usize,
) -> u32
    ensures opens { stream.old.handle.held ≡ None →
        (answer : answers.Answer) × (result ≡ number_of answer) ×
        SplitOpens layout samples bytes flags limit room answer stream.new.handle.held }
    ensures open { (r : Run) → stream.old.handle.held ≡ Some r →
        (result ≡ number_of Answer.IsOpen) × (stream.new.handle.held ≡ Some r) ×
        (stream.new.closed ≡ stream.old.closed) }
    ensures rests { stream.new.handle.held ≡ None → stream.new.closed ≡ stream.old.closed }
{
    let request = CutRequest::plain(samples, bytes, flags);
    open(
        alloc,
        stream,
        Asked::split(layout, &request, PLAIN_FLAGS, limit, room),
    )
    .number()
}

/// Opens a stream that is cut as the request says, with all its limits. It takes at most `limit` bytes, `room` of them
/// for the output that waits. `layout` says which sizes the structs have for the caller.
#[unsafe(no_mangle)]
pub extern "C" fn fmp4_cut_open_as(
    alloc: Global,
    stream: &mut Stream,
    layout: u32,
    cut: &CutRequest,
    limit: u64,
    room: usize,
) -> u32
    ensures opens { stream.old.handle.held ≡ None →
        (answer : answers.Answer) × (result ≡ number_of answer) ×
        CutOpens layout all_flags cut.now limit room answer stream.new.handle.held }
    ensures open { (r : Run) → stream.old.handle.held ≡ Some r →
        (result ≡ number_of Answer.IsOpen) × (stream.new.handle.held ≡ Some r) ×
        (stream.new.closed ≡ stream.old.closed) }
    ensures rests { stream.new.handle.held ≡ None → stream.new.closed ≡ stream.old.closed }
{
    open(
        alloc,
        stream,
        Asked::split(layout, cut, ALL_FLAGS, limit, room),
    )
    .number()
}

/// Opens a stream that is checked, and that takes at most `limit` bytes. `layout` says which sizes the structs have for
/// the caller.
#[unsafe(no_mangle)]
pub extern "C" fn fmp4_check_open_as(
    alloc: Global,
    stream: &mut Stream,
    layout: u32,
    limit: u64,
) -> u32
    ensures opens { stream.old.handle.held ≡ None →
        (answer : answers.Answer) × (result ≡ number_of answer) ×
        CheckOpens layout limit answer stream.new.handle.held }
    ensures open { (r : Run) → stream.old.handle.held ≡ Some r →
        (result ≡ number_of Answer.IsOpen) × (stream.new.handle.held ≡ Some r) ×
        (stream.new.closed ≡ stream.old.closed) }
    ensures rests { stream.new.handle.held ≡ None → stream.new.closed ≡ stream.old.closed }
{
    open(alloc, stream, Asked::check(layout, limit)).number()
}

/// Opens a stream that is listed: 1 for a line a sample, 2 for a line a track fragment, 3 for records of these, 4 for a
/// line a box. It takes at most `limit` bytes, `room` of them for the output that waits. `layout` says which sizes the
/// structs have for the caller.
#[unsafe(no_mangle)]
pub extern "C" fn fmp4_list_open_as(
    alloc: Global,
    stream: &mut Stream,
    layout: u32,
    listing: u32,
    limit: u64,
    room: usize,
) -> u32
    ensures opens { stream.old.handle.held ≡ None →
        (answer : answers.Answer) × (result ≡ number_of answer) ×
        ListOpens layout listing limit room answer stream.new.handle.held }
    ensures open { (r : Run) → stream.old.handle.held ≡ Some r →
        (result ≡ number_of Answer.IsOpen) × (stream.new.handle.held ≡ Some r) ×
        (stream.new.closed ≡ stream.old.closed) }
    ensures rests { stream.new.handle.held ≡ None → stream.new.closed ≡ stream.old.closed }
{
    open(alloc, stream, Asked::list(layout, listing, limit, room)).number()
}

/// Opens a stream, if none is open and the request is in range.
fn open(alloc: Global, stream: &mut Stream, asked: Result<Asked, Answer>) -> Answer
    ensures opens { stream.old.handle.held ≡ None →
        OpensOr asked result stream.new.handle.held }
    ensures open { (r : Run) → stream.old.handle.held ≡ Some r →
        (result ≡ Answer.IsOpen) × (stream.new.handle.held ≡ Some r) ×
        (stream.new.closed ≡ stream.old.closed) }
    ensures rests { stream.new.handle.held ≡ None → stream.new.closed ≡ stream.old.closed }
{
    match replace(&mut stream.handle, Handle::none()).into_box(alloc) {
        Some(engine) => {
            stream.handle = Handle::of(engine);
            Answer::IsOpen
        }
        None => match asked {
            Ok(asked) => match new_box(alloc, asked) {
                Ok(engine) => {
                    stream.handle = for_any_thread(Handle::of(engine));
                    stream.closed = 0;
                    Answer::Done
                }
                Err(answer) => answer,
            },
            Err(out) => out,
        },
    }
}

/// An engine to which no byte has come.
///
/// # Errors
///
/// `OverLimit` where the room passes the limit; else `NoMemory`.
fn new_box(alloc: Global, asked: Asked) -> Result<Box<Engine>, Answer>
    ensures ok { IfOk result (λ e. IsOpened asked (Some e.value)) }
    ensures err { IfErr result (λ a. Opens asked a None) }
{
    match Engine::new(alloc, asked) {
        Ok(engine) => match Box::new(alloc, engine) {
            Ok(engine) => Ok(engine),
            Err(_) => Err(Answer::NoMemory),
        },
        Err(Refused::OverLimit) => Err(Answer::OverLimit),
        Err(Refused::Memory) => Err(Answer::NoMemory),
    }
}
