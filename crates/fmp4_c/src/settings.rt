//! What C sets of a stream that is open: its limit, and that another stream begins.

ghost use Rattle.std.specs.Prelude.{◌≡◌, ◌+◌, ◌-◌, ◌^◌, min, None, Some, IfSome};
ghost use Rattle.mp4_machine.specs.declared.stop.Stop as stops;
ghost use Rattle.fmp4_c.specs.Answers.{at_rest, number_of};
ghost use Rattle.fmp4_c.specs.Engines.{IsReset, Run, limited_to};
ghost use Rattle.fmp4_c.specs.Tasks.{stop_of};
ghost use Rattle.fmp4_c.specs.declared.task_feeder.TaskFeeder.{TaskFeeder};

use crate::answer::Answer;
use crate::handle::Handle;
use crate::stream::Stream;
use std::alloc::Global;
use std::mem::replace;

/// Sets the limit of a stream, but no lower than what it takes now: `takes` says how many bytes that is.
#[unsafe(no_mangle)]
pub extern "C" fn fmp4_set_limit(
    alloc: Global,
    stream: &mut Stream,
    limit: u64,
    takes: &mut u64,
) -> u32
    ensures takes { (r : Run) → stream.old.handle.held ≡ Some r →
        (result ≡ number_of Answer.Done) ×
        (takes.new ≡ min (r.account.live + r.waiting.room) (2 ^ 64 - 1)) }
    ensures set { (r : Run) → (p : TaskFeeder) → stream.old.handle.held ≡ Some r →
        r.feeding ≡ Some p → stop_of p ≡ None →
        stream.new.handle.held ≡ Some (limited_to limit r) }
    ensures stopped { (r : Run) → (p : TaskFeeder) → (e : stops.Stop) → stream.old.handle.held ≡ Some r →
        r.feeding ≡ Some p → stop_of p ≡ Some e → stream.new.handle.held ≡ Some r }
    ensures ended { (r : Run) → stream.old.handle.held ≡ Some r → r.feeding ≡ None →
        stream.new.handle.held ≡ Some r }
    ensures closed { stream.old.handle.held ≡ None →
        (result ≡ number_of (at_rest stream.old.closed)) × (takes.new ≡ 0) ×
        (stream.new.handle.held ≡ None) }
    ensures rests { stream.new.closed ≡ stream.old.closed }
{
    match replace(&mut stream.handle, Handle::none()).into_box(alloc) {
        Some(engine) => {
            let mut engine = engine;
            *takes = engine.set_limit(limit);
            stream.handle = Handle::of(engine);
            Answer::Done.number()
        }
        None => {
            *takes = 0;
            Answer::at_rest(stream.closed).number()
        }
    }
}

/// Begins another stream as the one before was opened, with the limit that it has now and with its room. Nothing is
/// allocated. Output that waits is dropped.
#[unsafe(no_mangle)]
pub extern "C" fn fmp4_reset(alloc: Global, stream: &mut Stream) -> u32
    ensures open { (r : Run) → stream.old.handle.held ≡ Some r →
        (result ≡ number_of Answer.Done) × IfSome stream.new.handle.held (IsReset r) }
    ensures closed { stream.old.handle.held ≡ None →
        (result ≡ number_of (at_rest stream.old.closed)) × (stream.new.handle.held ≡ None) }
    ensures rests { stream.new.closed ≡ stream.old.closed }
{
    match replace(&mut stream.handle, Handle::none()).into_box(alloc) {
        Some(engine) => {
            let mut engine = engine;
            engine.reset();
            stream.handle = Handle::of(engine);
            Answer::Done.number()
        }
        None => Answer::at_rest(stream.closed).number(),
    }
}
