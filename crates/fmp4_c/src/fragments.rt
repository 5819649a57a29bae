//! What C takes of a stream that is listed by records.

ghost use Rattle.std.specs.Prelude.{◌≡◌, ℕ, ◌<◌, ◌≤◌, List, ◌++◌, length, take, drop, None, Some, IfSome};
ghost use Rattle.mp4_grammar.specs.TrafRecords.{IsRecord, record_bytes, record_len, record_of};
ghost use Rattle.fmp4_c.specs.Answers.{at_rest, number_of};
ghost use Rattle.fmp4_c.specs.Calls.{Returns};
ghost use Rattle.fmp4_c.specs.Engines.{NextFragmentClauses, Run};
ghost use Rattle.fmp4_c.specs.Tasks.{record_listing};
ghost use Rattle.fmp4_c.specs.declared.answer.Answer as answers;
ghost use Rattle.fmp4_c.specs.declared.task.Task.{Task};

use crate::answer::Answer;
use crate::handle::Handle;
use crate::stream::Stream;
use mp4_grammar::TrafRecord;
use std::alloc::Global;
use std::mem::replace;

/// Takes a record from the front of the output of a stream that is listed by records.
#[unsafe(no_mangle)]
pub extern "C" fn fmp4_next_fragment(
    alloc: Global,
    stream: &mut Stream,
    fragment: &mut TrafRecord,
) -> u32
    ensures open { (r : Run) → stream.old.handle.held ≡ Some r → Returns result stream.new.handle.held
        (λ answer r'. NextFragmentClauses r fragment.old fragment.new answer r') }
    ensures closed { stream.old.handle.held ≡ None →
        (result ≡ number_of (at_rest stream.old.closed)) × (fragment.new ≡ fragment.old) ×
        (stream.new.handle.held ≡ None) }
    ensures rests { stream.new.closed ≡ stream.old.closed }
{
    match replace(&mut stream.handle, Handle::none()).into_box(alloc) {
        Some(engine) => {
            let mut engine = engine;
            let answer = engine.next_fragment(fragment);
            stream.handle = Handle::of(engine);
            answer.number()
        }
        None => Answer::at_rest(stream.closed).number(),
    }
}
