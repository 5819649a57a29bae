//! The result of a call.

ghost use Rattle.std.specs.Prelude.{◌≡◌, ◌<◌, ◌≤◌, IfSome, IsSome, None};
ghost use Rattle.fmp4_c.specs.Answers.{answer_to, at_rest, name_of, number_of};

use mp4_stream::Stop;

/// The result of a call.
#[derive(Clone, Copy, Debug, PartialEq, Eq)]
pub enum Answer {
    /// It was done.
    Done,
    /// More than half of the room is filled: nothing was taken of the input.
    Full,
    /// The stream breaks a rule.
    Fault,
    /// The output found no room.
    NoRoom,
    /// A claim would pass the limit.
    OverLimit,
    /// The allocator gave no memory.
    NoMemory,
    /// No record waits.
    NoRecord,
    /// No stream was opened yet.
    NotOpen,
    /// The stream is closed.
    Closed,
    /// A stream is open already.
    IsOpen,
    /// The stream has ended.
    Ended,
    /// No number of samples from 1 to 1,000,000.
    BadSamples,
    /// More than 2^62 bytes.
    BadBytes,
    /// A flag that isn't known.
    BadFlags,
    /// A room of no bytes.
    BadRoom,
    /// Structs of other sizes than those of the header.
    BadLayout,
    /// A listing that isn't known, or a record of a stream that isn't listed by records.
    BadListing,
}

impl Answer {
    /// The number of the answer for C.
    pub fn number(self) -> u32
        ensures { result ≡ number_of self }
    {
        match self {
            Answer::Done => 0,
            Answer::Full => 1,
            Answer::Fault => 2,
            Answer::NoRoom => 3,
            Answer::OverLimit => 4,
            Answer::NoMemory => 5,
            Answer::NoRecord => 6,
            Answer::NotOpen => 16,
            Answer::Closed => 17,
            Answer::IsOpen => 18,
            Answer::Ended => 19,
            Answer::BadSamples => 20,
            Answer::BadBytes => 21,
            Answer::BadFlags => 22,
            Answer::BadRoom => 23,
            Answer::BadLayout => 24,
            Answer::BadListing => 25,
        }
    }

    /// The answer with this number.
    pub(crate) fn of_number(number: u32) -> Option<Answer>
        ensures number { IfSome result (λ a. number_of a ≡ number) }
        ensures some { number ≤ 6 → IsSome result }
        ensures misuse { 16 ≤ number → number ≤ 25 → IsSome result }
        ensures none { 6 < number → number < 16 → result ≡ None }
        ensures past { 25 < number → result ≡ None }
    {
        Some(match number {
            0 => Answer::Done,
            1 => Answer::Full,
            2 => Answer::Fault,
            3 => Answer::NoRoom,
            4 => Answer::OverLimit,
            5 => Answer::NoMemory,
            6 => Answer::NoRecord,
            16 => Answer::NotOpen,
            17 => Answer::Closed,
            18 => Answer::IsOpen,
            19 => Answer::Ended,
            20 => Answer::BadSamples,
            21 => Answer::BadBytes,
            22 => Answer::BadFlags,
            23 => Answer::BadRoom,
            24 => Answer::BadLayout,
            25 => Answer::BadListing,
            _ => return None,
        })
    }

    /// The name of the answer in C.
    pub(crate) fn name(self) -> &'static str
        ensures { result.now ≡ name_of self }
    {
        match self {
            Answer::Done => "FMP4_OK",
            Answer::Full => "FMP4_FULL",
            Answer::Fault => "FMP4_FAULT",
            Answer::NoRoom => "FMP4_NO_ROOM",
            Answer::OverLimit => "FMP4_OVER_LIMIT",
            Answer::NoMemory => "FMP4_NO_MEMORY",
            Answer::NoRecord => "FMP4_NO_RECORD",
            Answer::NotOpen => "FMP4_NOT_OPEN",
            Answer::Closed => "FMP4_CLOSED",
            Answer::IsOpen => "FMP4_IS_OPEN",
            Answer::Ended => "FMP4_ENDED",
            Answer::BadSamples => "FMP4_BAD_SAMPLES",
            Answer::BadBytes => "FMP4_BAD_BYTES",
            Answer::BadFlags => "FMP4_BAD_FLAGS",
            Answer::BadRoom => "FMP4_BAD_ROOM",
            Answer::BadLayout => "FMP4_BAD_LAYOUT",
            Answer::BadListing => "FMP4_BAD_LISTING",
        }
    }

    /// The answer where the stream stopped so. No read can fail here.
    pub(crate) fn of_stop(stop: Stop) -> Answer
        ensures { result ≡ answer_to stop }
    {
        match stop {
            Stop::Stream(_) => Answer::Fault,
            Stop::OverLimit => Answer::OverLimit,
            Stop::Memory => Answer::NoMemory,
            Stop::Read { .. } | Stop::Write => Answer::NoRoom,
        }
    }

    /// The answer where no stream is open: `closed` is 0 where none was.
    pub(crate) fn at_rest(closed: u32) -> Answer
        ensures { result ≡ at_rest closed }
    {
        if closed == 0 {
            return Answer::NotOpen;
        }
        Answer::Closed
    }
}
