//! What the calls of an engine did.

ghost use Rattle.std.specs.Prelude.{◌≡◌};

use crate::answer::Answer;

/// What a feed did.
#[derive(Clone, Copy)]
pub struct Feed {
    /// How many bytes of the input it took.
    pub taken: usize,
    /// The answer.
    pub answer: Answer,
}

/// What a feed did that takes output at once.
#[derive(Clone, Copy)]
pub struct FeedTake {
    /// How many bytes of the input it took.
    pub taken: usize,
    /// How many bytes of output it gave.
    pub given: usize,
    /// The answer.
    pub answer: Answer,
}

/// What a call did with the front of the output.
#[derive(Clone, Copy)]
pub struct Front {
    /// How many bytes.
    pub count: usize,
    /// The answer.
    pub answer: Answer,
}

impl Front {
    /// So many bytes.
    pub(crate) fn of_bytes(count: usize) -> Front
        ensures { result ≡ record { count = count; answer = Answer.Done } }
    {
        Front {
            count,
            answer: Answer::Done,
        }
    }

    /// None, of a stream that is listed by records.
    pub(crate) fn of_records() -> Front
        ensures { result ≡ record { count = 0; answer = Answer.BadListing } }
    {
        Front {
            count: 0,
            answer: Answer::BadListing,
        }
    }
}
