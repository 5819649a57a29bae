//! What C calls of a stream that is open.

ghost use Rattle.std.specs.Prelude.{◌≡◌, ℕ, ◌<◌, ◌≤◌, List, [], ◌++◌, length, take, drop, min, None, Some, IfSome, IsSome};
ghost use Rattle.mp4_machine.specs.declared.stop.Stop as stops;
ghost use Rattle.fmp4_c.specs.Answers.{answer_to, at_rest, number_of, report_from};
ghost use Rattle.fmp4_c.specs.Calls.{FinishedIn, HoldsIn, Returns};
ghost use Rattle.fmp4_c.specs.Engines.{FeedClauses, FeedTakeClauses, Run, TakeClauses, counted_in, report_of};
ghost use Rattle.fmp4_c.specs.Tasks.{record_listing, stop_of};
ghost use Rattle.fmp4_c.specs.declared.answer.Answer as answers;
ghost use Rattle.fmp4_c.specs.declared.task.Task.{Task};
ghost use Rattle.fmp4_c.specs.declared.task_feeder.TaskFeeder.{TaskFeeder};

use crate::answer::Answer;
use crate::handle::Handle;
use crate::report::Report;
use crate::stream::Stream;
use std::alloc::Global;
use std::mem::replace;

/// Feeds the input of the stream, or the front of one: `taken` says how many bytes.
#[unsafe(no_mangle)]
pub extern "C" fn fmp4_feed(
    alloc: Global,
    stream: &mut Stream,
    input: &[u8],
    taken: &mut usize,
) -> u32
    ensures open { (r : Run) → stream.old.handle.held ≡ Some r → Returns result stream.new.handle.held
        (λ answer r'. FeedClauses r input.now (record { taken = taken.new; answer = answer }) r') }
    ensures closed { stream.old.handle.held ≡ None →
        (result ≡ number_of (at_rest stream.old.closed)) × (taken.new ≡ 0) ×
        (stream.new.handle.held ≡ None) }
    ensures rests { stream.new.closed ≡ stream.old.closed }
{
    match replace(&mut stream.handle, Handle::none()).into_box(alloc) {
        Some(engine) => {
            let mut engine = engine;
            let fed = engine.feed(input);
            stream.handle = Handle::of(engine);
            *taken = fed.taken;
            fed.answer.number()
        }
        None => {
            *taken = 0;
            Answer::at_rest(stream.closed).number()
        }
    }
}

/// Takes output from the front, then feeds the input of the stream, or the front of one, whose output follows in the
/// buffer: what doesn't fit waits. `taken` says how many bytes of the input, `given` how many of the output. A stream
/// that is listed by records is not fed so.
#[unsafe(no_mangle)]
pub extern "C" fn fmp4_feed_take(
    alloc: Global,
    stream: &mut Stream,
    input: &[u8],
    taken: &mut usize,
    out: &mut [u8],
    given: &mut usize,
) -> u32
    ensures open { (r : Run) → stream.old.handle.held ≡ Some r → Returns result stream.new.handle.held
        (λ answer r'. FeedTakeClauses r input.now out.old out.new
        (record { taken = taken.new; given = given.new; answer = answer }) r') }
    ensures closed { stream.old.handle.held ≡ None →
        (result ≡ number_of (at_rest stream.old.closed)) × (taken.new ≡ 0) × (given.new ≡ 0) ×
        (out.new ≡ out.old) × (stream.new.handle.held ≡ None) }
    ensures rests { stream.new.closed ≡ stream.old.closed }
{
    match replace(&mut stream.handle, Handle::none()).into_box(alloc) {
        Some(engine) => {
            let mut engine = engine;
            let passed = engine.feed_take(input, out);
            stream.handle = Handle::of(engine);
            *taken = passed.taken;
            *given = passed.given;
            passed.answer.number()
        }
        None => {
            *taken = 0;
            *given = 0;
            Answer::at_rest(stream.closed).number()
        }
    }
}

/// Takes output from the front: `taken` says how many bytes. Of a stream that is listed by records it takes none.
#[unsafe(no_mangle)]
pub extern "C" fn fmp4_take(
    alloc: Global,
    stream: &mut Stream,
    out: &mut [u8],
    taken: &mut usize,
) -> u32
    ensures open { (r : Run) → stream.old.handle.held ≡ Some r → Returns result stream.new.handle.held
        (λ answer r'. TakeClauses r out.old out.new (record { count = taken.new; answer = answer }) r') }
    ensures closed { stream.old.handle.held ≡ None →
        (result ≡ number_of (at_rest stream.old.closed)) × (taken.new ≡ 0) × (out.new ≡ out.old) ×
        (stream.new.handle.held ≡ None) }
    ensures rests { stream.new.closed ≡ stream.old.closed }
{
    match replace(&mut stream.handle, Handle::none()).into_box(alloc) {
        Some(engine) => {
            let mut engine = engine;
            let front = engine.take(out);
            stream.handle = Handle::of(engine);
            *taken = front.count;
            front.answer.number()
        }
        None => {
            *taken = 0;
            Answer::at_rest(stream.closed).number()
        }
    }
}

/// Says how many bytes of output wait.
#[unsafe(no_mangle)]
pub extern "C" fn fmp4_pending(alloc: Global, stream: &mut Stream, count: &mut usize) -> u32
    ensures open { (r : Run) → stream.old.handle.held ≡ Some r →
        (result ≡ number_of Answer.Done) × (count.new ≡ length r.waiting.bytes) }
    ensures closed { stream.old.handle.held ≡ None →
        (result ≡ number_of (at_rest stream.old.closed)) × (count.new ≡ 0) }
    ensures kept { stream.new.handle.held ≡ stream.old.handle.held }
    ensures rests { stream.new.closed ≡ stream.old.closed }
{
    match replace(&mut stream.handle, Handle::none()).into_box(alloc) {
        Some(engine) => {
            *count = engine.pending();
            stream.handle = Handle::of(engine);
            Answer::Done.number()
        }
        None => {
            *count = 0;
            Answer::at_rest(stream.closed).number()
        }
    }
}

/// Says what was counted so far, and for which fault the stream stopped, if it did; at its end, what was reported
/// there.
#[unsafe(no_mangle)]
pub extern "C" fn fmp4_totals(alloc: Global, stream: &mut Stream, report: &mut Report) -> u32
    ensures reports { (r : Run) → (p : TaskFeeder) → stream.old.handle.held ≡ Some r →
        r.feeding ≡ Some p → (result ≡ number_of Answer.Done) × (report.new ≡ report_of p) }
    ensures counts { (task : Task) → (b given : List ℕ) →
        HoldsIn task b given stream.old.handle.held → report.new ≡ report_from (counted_in task b) None }
    ensures ended { (r : Run) → stream.old.handle.held ≡ Some r → r.feeding ≡ None →
        (result ≡ number_of Answer.Done) × (report.new ≡ r.reported) }
    ensures closed { stream.old.handle.held ≡ None →
        (result ≡ number_of (at_rest stream.old.closed)) × (report.new ≡ report.old) }
    ensures kept { stream.new.handle.held ≡ stream.old.handle.held }
    ensures rests { stream.new.closed ≡ stream.old.closed }
{
    match replace(&mut stream.handle, Handle::none()).into_box(alloc) {
        Some(engine) => {
            let mut engine = engine;
            let answer = engine.totals(report);
            stream.handle = Handle::of(engine);
            answer.number()
        }
        None => Answer::at_rest(stream.closed).number(),
    }
}

/// Ends the stream, and says what was counted, and which rule it breaks, if it does. What waits can still be taken.
#[unsafe(no_mangle)]
pub extern "C" fn fmp4_finish(alloc: Global, stream: &mut Stream, report: &mut Report) -> u32
    ensures finishes { (task : Task) → (b given : List ℕ) →
        HoldsIn task b given stream.old.handle.held → FinishedIn task b result report.new }
    ensures stopped { (r : Run) → (p : TaskFeeder) → (e : stops.Stop) →
        stream.old.handle.held ≡ Some r → r.feeding ≡ Some p → stop_of p ≡ Some e →
        (result ≡ number_of (answer_to e)) × (report.new ≡ report_of p) }
    ensures ended { (r : Run) → stream.old.handle.held ≡ Some r → r.feeding ≡ None →
        (result ≡ number_of Answer.Ended) × (report.new ≡ report.old) }
    ensures reported { (r : Run) → (p : TaskFeeder) → stream.old.handle.held ≡ Some r →
        r.feeding ≡ Some p → IfSome stream.new.handle.held (λ r'. r'.reported ≡ report.new) }
    ensures reported_before { (r : Run) → stream.old.handle.held ≡ Some r → r.feeding ≡ None →
        IfSome stream.new.handle.held (λ r'. r'.reported ≡ r.reported) }
    ensures open { (r : Run) → stream.old.handle.held ≡ Some r → IsSome stream.new.handle.held }
    ensures waits { (r : Run) → stream.old.handle.held ≡ Some r →
        IfSome stream.new.handle.held (λ r'. (r'.waiting ≡ r.waiting) × (r'.feeding ≡ None) ×
        (r'.account.live ≡ 0) × (r'.account.limit ≡ r.account.limit) ×
        (r'.share ≡ r.share) × (r'.task ≡ r.task)) }
    ensures closed { stream.old.handle.held ≡ None →
        (result ≡ number_of (at_rest stream.old.closed)) × (report.new ≡ report.old) ×
        (stream.new.handle.held ≡ None) }
    ensures rests { stream.new.closed ≡ stream.old.closed }
{
    match replace(&mut stream.handle, Handle::none()).into_box(alloc) {
        Some(engine) => {
            let mut engine = engine;
            let answer = engine.finish(report);
            stream.handle = Handle::of(engine);
            answer.number()
        }
        None => Answer::at_rest(stream.closed).number(),
    }
}

/// Frees everything that the stream has claimed. Output that waits is dropped.
#[unsafe(no_mangle)]
pub extern "C" fn fmp4_close(alloc: Global, stream: &mut Stream) -> u32
    ensures none { stream.new.handle.held ≡ None }
    ensures open { (r : Run) → stream.old.handle.held ≡ Some r →
        (result ≡ number_of Answer.Done) × (stream.new.closed ≡ 1) }
    ensures closed { stream.old.handle.held ≡ None →
        (result ≡ number_of (at_rest stream.old.closed)) × (stream.new.closed ≡ stream.old.closed) }
{
    match replace(&mut stream.handle, Handle::none()).into_box(alloc) {
        Some(_) => {
            stream.closed = 1;
            Answer::Done.number()
        }
        None => Answer::at_rest(stream.closed).number(),
    }
}
