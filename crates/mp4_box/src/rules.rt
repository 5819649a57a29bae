//! Why a stream is refused.

ghost use Rattle.std.specs.Prelude.{◌≡◌, ◌≤◌, length};
ghost use Rattle.mp4_box.specs.Rules.{number_of, name_of};

use crate::headers::FourCc;

/// A rule that a stream can break. `docs/FORMAT.md` says of each when it is broken and which box is named.
#[derive(Clone, Copy, Debug, PartialEq, Eq)]
pub enum Rule {
    /// The stream ends inside a box.
    Truncated,
    /// A size that has no room for the box's header, or that a child's parent has no room for.
    BadSize,
    /// A moof before the moov.
    NoMoov,
    /// A moov after a moov.
    SecondMoov,
    /// An mdat that doesn't directly follow a moof.
    StrayMdat,
    /// A moof that no mdat follows.
    MdatMissing,
    /// A moov or moof that is larger than what is held, or that states no size.
    TooLarge,
    /// A box that is nested too deep.
    Depth,
    /// A box lacks a child that it must have.
    Missing,
    /// A child occurs a second time.
    Twice,
    /// A version that isn't known.
    Version,
    /// A payload whose length isn't that of its fields.
    FieldLength,
    /// Samples that the moov describes.
    SamplesInMoov,
    /// A child of a fragment that can't be recut.
    Unsupported,
    /// Offsets that aren't relative to the moof.
    BaseNotMoof,
    /// A fragment that only states a duration.
    EmptyDuration,
    /// A run with two values for the flags of its first sample.
    FlagsConflict,
    /// A track that isn't described exactly once.
    UnknownTrack,
    /// A sample description that the track hasn't.
    EntryIndex,
    /// More samples in a moof than are taken.
    TooManySamples,
    /// A time past 64 bits.
    TimeRange,
    /// A run that lies outside its mdat, shares bytes with an earlier one, or begins before an earlier one of its track
    /// ends.
    RunPlace,
    /// An index whose fields have no room for its numbers.
    IndexRange,
    /// A sequence number past 32 bits.
    SequenceEnd,
    /// A box that goes past 2^62 bytes.
    StreamTooLong,
}

impl Rule {
    /// The number of the rule in reports.
    pub fn number(self) -> u8
        ensures { result ≡ number_of self }
    {
        match self {
            Rule::Truncated => 1,
            Rule::BadSize => 2,
            Rule::NoMoov => 3,
            Rule::SecondMoov => 4,
            Rule::StrayMdat => 5,
            Rule::MdatMissing => 6,
            Rule::TooLarge => 7,
            Rule::Depth => 8,
            Rule::Missing => 9,
            Rule::Twice => 10,
            Rule::Version => 11,
            Rule::FieldLength => 12,
            Rule::SamplesInMoov => 13,
            Rule::Unsupported => 14,
            Rule::BaseNotMoof => 15,
            Rule::EmptyDuration => 16,
            Rule::FlagsConflict => 17,
            Rule::UnknownTrack => 18,
            Rule::EntryIndex => 19,
            Rule::TooManySamples => 20,
            Rule::TimeRange => 21,
            Rule::RunPlace => 22,
            Rule::IndexRange => 23,
            Rule::SequenceEnd => 24,
            Rule::StreamTooLong => 25,
        }
    }

    /// The name of the rule in reports.
    pub fn name(self) -> &'static str
        ensures name { result.now ≡ name_of self }
        ensures short { length result.now ≤ 14 }
    {
        match self {
            Rule::Truncated => "Truncated",
            Rule::BadSize => "BadSize",
            Rule::NoMoov => "NoMoov",
            Rule::SecondMoov => "SecondMoov",
            Rule::StrayMdat => "StrayMdat",
            Rule::MdatMissing => "MdatMissing",
            Rule::TooLarge => "TooLarge",
            Rule::Depth => "Depth",
            Rule::Missing => "Missing",
            Rule::Twice => "Twice",
            Rule::Version => "Version",
            Rule::FieldLength => "FieldLength",
            Rule::SamplesInMoov => "SamplesInMoov",
            Rule::Unsupported => "Unsupported",
            Rule::BaseNotMoof => "BaseNotMoof",
            Rule::EmptyDuration => "EmptyDuration",
            Rule::FlagsConflict => "FlagsConflict",
            Rule::UnknownTrack => "UnknownTrack",
            Rule::EntryIndex => "EntryIndex",
            Rule::TooManySamples => "TooManySamples",
            Rule::TimeRange => "TimeRange",
            Rule::RunPlace => "RunPlace",
            Rule::IndexRange => "IndexRange",
            Rule::SequenceEnd => "SequenceEnd",
            Rule::StreamTooLong => "StreamTooLong",
        }
    }
}

/// The fault of a stream that is refused: the first that decides.
#[derive(Clone, Copy, Debug, PartialEq, Eq)]
pub struct Fault {
    /// The rule that is broken.
    pub rule: Rule,
    /// The type of the box that is named, where at least eight bytes of it are there.
    pub kind: Option<FourCc>,
    /// The offset in the stream of the first byte of that box.
    pub offset: u64,
}
