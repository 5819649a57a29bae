//! What C sees of the front of the output that waits, and drops of it.

ghost use Rattle.std.specs.Prelude.{◌≡◌, ℕ, List, ◌++◌, length, take, drop, min, None, Some, IfSome, IsSome};
ghost use Rattle.fmp4_c.specs.Answers.{at_rest, number_of};
ghost use Rattle.fmp4_c.specs.Calls.{Returns};
ghost use Rattle.fmp4_c.specs.Engines.{Run, SkipClauses};
ghost use Rattle.fmp4_c.specs.Tasks.{record_listing};
ghost use Rattle.fmp4_c.specs.declared.answer.Answer as answers;
ghost use Rattle.fmp4_c.specs.declared.task.Task.{Task};

use crate::answer::Answer;
use crate::handle::Handle;
use crate::stream::Stream;
use std::alloc::Global;
use std::mem::replace;

/// Copies output from the front, which stays: `count` says how many bytes. Of a stream that is listed by records it
/// copies none.
#[unsafe(no_mangle)]
pub extern "C" fn fmp4_peek(
    alloc: Global,
    stream: &mut Stream,
    out: &mut [u8],
    count: &mut usize,
) -> u32
    ensures done { (r : Run) → stream.old.handle.held ≡ Some r → (r.task ≡ record_listing → ⊥) →
        (result ≡ number_of Answer.Done) ×
        (count.new ≡ min (length out.old) (length r.waiting.bytes)) }
    ensures front { (r : Run) → stream.old.handle.held ≡ Some r →
        take count.new out.new ≡ take count.new r.waiting.bytes }
    ensures rest { drop count.new out.new ≡ drop count.new out.old }
    ensures records { (r : Run) → stream.old.handle.held ≡ Some r → r.task ≡ record_listing →
        (result ≡ number_of Answer.BadListing) × (count.new ≡ 0) }
    ensures kept { stream.new.handle.held ≡ stream.old.handle.held }
    ensures closed { stream.old.handle.held ≡ None →
        (result ≡ number_of (at_rest stream.old.closed)) × (count.new ≡ 0) }
    ensures rests { stream.new.closed ≡ stream.old.closed }
{
    match replace(&mut stream.handle, Handle::none()).into_box(alloc) {
        Some(engine) => {
            let front = engine.peek(out);
            stream.handle = Handle::of(engine);
            *count = front.count;
            front.answer.number()
        }
        None => {
            *count = 0;
            Answer::at_rest(stream.closed).number()
        }
    }
}

/// Drops `most` bytes of output from the front, or all where fewer wait: `count` says how many. Of a stream that is
/// listed by records it drops none.
#[unsafe(no_mangle)]
pub extern "C" fn fmp4_skip(
    alloc: Global,
    stream: &mut Stream,
    most: usize,
    count: &mut usize,
) -> u32
    ensures open { (r : Run) → stream.old.handle.held ≡ Some r → Returns result stream.new.handle.held
        (λ answer r'. SkipClauses r most (record { count = count.new; answer = answer }) r') }
    ensures closed { stream.old.handle.held ≡ None →
        (result ≡ number_of (at_rest stream.old.closed)) × (count.new ≡ 0) ×
        (stream.new.handle.held ≡ None) }
    ensures rests { stream.new.closed ≡ stream.old.closed }
{
    match replace(&mut stream.handle, Handle::none()).into_box(alloc) {
        Some(engine) => {
            let mut engine = engine;
            let gone = engine.skip(most);
            stream.handle = Handle::of(engine);
            *count = gone.count;
            gone.answer.number()
        }
        None => {
            *count = 0;
            Answer::at_rest(stream.closed).number()
        }
    }
}
