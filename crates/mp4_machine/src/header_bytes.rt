//! Reads a header from bytes as they come.

ghost use Rattle.std.specs.Prelude.{◌≡◌, ◌↔◌, ◌+◌, ◌<◌, ◌≤◌, ◌++◌, length, take, IsTrue};
ghost use Rattle.mp4_box.specs.Headers.{header_at, need};
ghost use Rattle.mp4_box.specs.declared.headers.Step.TheVariants as steps;
ghost use Rattle.mp4_machine.specs.HeaderBytes.{Reads, bytes_of};

use mp4_box::{FourCc, Header, HeaderReader, Step, header_of};
use std::mem::replace;

/// The bytes of a header of which all came.
#[derive(Drop)]
pub enum HeaderBytes<'a> {
    /// They came at once, and are in the input.
    AtOnce(&'a [u8]),
    /// They came in parts.
    InParts(HeaderReader),
}

impl HeaderBytes<'_> {
    /// These bytes.
    pub fn bytes(&self) -> &[u8]
        ensures { result.now ≡ bytes_of self.now }
    {
        match self {
            HeaderBytes::AtOnce(bytes) => bytes,
            HeaderBytes::InParts(header_bytes) => header_bytes.bytes(),
        }
    }
}

/// What is known of a header once bytes of it were taken.
#[derive(Drop)]
pub enum HeaderStatus<'a> {
    /// More bytes are needed than so many, which is all that the input has.
    More {
        count: usize,
    },
    /// No header has these bytes. The type of the box, if they have it.
    BadSize {
        kind: Option<FourCc>,
    },
    /// This is the header. So many bytes of the input belong to it.
    Complete {
        header: Header,
        bytes: HeaderBytes<'a>,
        count: usize,
    },
}

/// Takes bytes of a header from the front of the input, after the part of it that came before: all that belong to it,
/// or else all that there are. What came of it is kept while more is needed.
#[inline(always)]
pub fn next_header<'a>(part: &mut HeaderReader, input: &'a [u8]) -> HeaderStatus<'a>
    requires some { 0 < length input.now }
    requires short { length part.old < need part.old }
    ensures { Reads part.old part.new input.now result }
{
    if part.is_empty() {
        if let Ok(header) = header_of(input) {
            let count = header.header_len as usize;
            let bytes = HeaderBytes::AtOnce(&input[..count]);
            return HeaderStatus::Complete {
                header,
                bytes,
                count,
            };
        }
    }
    next_part(part, input)
}

/// As [`next_header`], byte by byte. It is separate, since most headers come at once.
#[inline(never)]
fn next_part<'a>(part: &mut HeaderReader, input: &'a [u8]) -> HeaderStatus<'a>
    requires some { 0 < length input.now }
    requires short { length part.old < need part.old }
    ensures { Reads part.old part.new input.now result }
{
    let taken = take_head(part, input);
    match taken.step {
        Step::More => HeaderStatus::More { count: taken.count },
        Step::BadSize => {
            let kind = part.kind();
            *part = HeaderReader::new();
            HeaderStatus::BadSize { kind }
        }
        Step::Whole(header) => {
            let header_bytes = replace(part, HeaderReader::new());
            HeaderStatus::Complete {
                header,
                bytes: HeaderBytes::InParts(header_bytes),
                count: taken.count,
            }
        }
    }
}

/// Bytes that were taken of a header, and what the header is with them.
#[derive(Clone, Copy)]
struct HeadTaken {
    count: usize,
    step: Step,
}

/// Takes bytes of a header from the front of the input: the whole header if it is there, else what there is.
fn take_head(header_bytes: &mut HeaderReader, input: &[u8]) -> HeadTaken
    requires some { 0 < length input.now }
    requires short { length header_bytes.old < need header_bytes.old }
    ensures bytes { header_bytes.new ≡ header_bytes.old ++ take result.count input.now }
    ensures count { (0 < result.count) × (result.count ≤ length input.now) }
    ensures step { result.step ≡ header_at header_bytes.new }
    ensures more { result.step ≡ steps.More → length header_bytes.new < need header_bytes.new }
    ensures all { result.step ≡ steps.More → result.count ≡ length input.now }
    ensures len { length header_bytes.new ≤ need header_bytes.new }
{
    let mut count = 0;
    while count < input.len() {
        let step = header_bytes.feed(input[count]);
        count += 1;
        if !is_more(&step) {
            return HeadTaken { count, step };
        }
    }
    HeadTaken {
        count,
        step: Step::More,
    }
}

/// Whether more bytes are needed.
fn is_more(step: &Step) -> bool
    ensures { IsTrue result ↔ (step.now ≡ steps.More) }
{
    matches!(step, Step::More)
}
