//! Bodies of boxes, taken as their bytes come.

ghost use Rattle.std.specs.Prelude.{◌≡◌, ◌+◌, ◌-◌, ◌<◌, ◌≤◌, length, min, Some, IfSome, IfNone, IfOk, IfErr, OnErr, OnOk};
ghost use Rattle.mp4_box.specs.Headers.{HasRoom};
ghost use Rattle.mp4_box.specs.declared.rules.Rule.TheVariants.{StreamTooLong, Truncated};
ghost use Rattle.mp4_machine.specs.Bodies.{HasMore, IsBodyOf, IsOpen, IsShort, after_bytes, fault, latest_end, least_end, longest};
ghost use Rattle.mp4_machine.specs.declared.body.Extent.TheVariants as extents;

use crate::limits::{LONGEST, at_fault};
use crate::stop::Stop;
use mp4_box::{Fault, FourCc, Header, Rule, Size};

/// How far a body goes.
#[derive(Clone, Copy)]
pub enum Extent {
    /// As far as its box states: the next box begins at `next`.
    Sized { next: u64 },
    /// To the end of the stream: at least `needed` bytes must come.
    Open { needed: u64 },
}

/// The body of the box at `at`, of which `left` bytes are to come; if it goes to the end of the stream, at most so
/// many.
#[derive(Clone, Copy)]
pub struct Body {
    pub at: u64,
    pub kind: FourCc,
    pub left: u64,
    pub extent: Extent,
}

/// The body of a box, by its size.
#[derive(Clone, Copy)]
pub enum AnyBody {
    /// No bytes: the next box begins at `next`.
    Empty { next: u64 },
    /// Bytes that are to come.
    Bytes(Body),
}

/// The body after the header of the box at `at`. If it goes to the end of the stream, `needed` bytes of it must come.
#[inline(always)]
pub fn body_of(at: u64, header: &Header, needed: u64) -> AnyBody
    requires room { HasRoom header.now.size header.now.header_len }
    requires end { least_end at header.now header.now.size ≤ longest }
    ensures { IsBodyOf at header.now needed result }
{
    match header.size {
        Size::Exact(size) => {
            let next = at + size;
            if size == header.header_len {
                return AnyBody::Empty { next };
            }
            AnyBody::Bytes(Body {
                at,
                kind: header.kind,
                left: size - header.header_len,
                extent: Extent::Sized { next },
            })
        }
        Size::ToEnd => AnyBody::Bytes(Body {
            at,
            kind: header.kind,
            left: LONGEST - (at + header.header_len),
            extent: Extent::Open { needed },
        }),
    }
}

impl Body {
    /// The stream offset of its next byte.
    #[inline(always)]
    pub fn reached(&self) -> u64
        requires { self.now.left ≤ latest_end self.now.extent }
        ensures { result ≡ latest_end self.now.extent - self.now.left }
    {
        let end = match self.extent {
            Extent::Sized { next } => next,
            Extent::Open { needed: _ } => LONGEST,
        };
        end - self.left
    }

    /// Passes over so many of its bytes.
    #[inline(always)]
    pub fn pass(&mut self, count: u64)
        requires { count ≤ self.old.left }
        ensures { self.new ≡ after_bytes count self.old }
    {
        self.left -= count;
        match &mut self.extent {
            Extent::Sized { next: _ } => {}
            Extent::Open { needed } => *needed = needed.saturating_sub(count),
        }
    }

    /// Takes the bytes at the front of the input that belong to the body. Returns how many.
    ///
    /// # Errors
    ///
    /// `Stream` where the body goes too far.
    #[inline(always)]
    pub fn take(&mut self, input: &[u8]) -> Result<usize, Stop>
        ensures taken { IfOk result (λ n. n ≡ min self.old.left (length input.now)) }
        ensures left { IfOk result (λ n. self.new ≡ after_bytes n self.old) }
        ensures all { OnOk result (IsOpen self.old.extent → length input.now ≤ self.old.left) }
        ensures far { OnErr result (self.old.left < length input.now) }
        ensures open { OnErr result (IsOpen self.old.extent) }
        ensures err { IfErr result (λ e. e ≡
            Stop.Stream (fault StreamTooLong (Some self.old.kind) self.old.at)) }
    {
        let len = input.len() as u64;
        if len > self.left {
            if let Extent::Open { needed: _ } = self.extent {
                return Err(self.too_far());
            }
        }
        let count = self.left.min(len);
        self.pass(count);
        Ok(count as usize)
    }

    /// A refusal of the box, whose body goes too far.
    pub fn too_far(&self) -> Stop
        ensures { result ≡ Stop.Stream (fault StreamTooLong (Some self.now.kind) self.now.at) }
    {
        at_fault(Rule::StreamTooLong, Some(self.kind), self.at)
    }

    /// Where the next box begins, if all bytes of the body came.
    #[inline(always)]
    pub fn next(&self) -> Option<u64>
        ensures some { IfSome result (λ next. (self.now.left ≡ 0) × (self.now.extent ≡ extents.Sized next)) }
        ensures none { IfNone result (HasMore self.now.left self.now.extent) }
    {
        match self.extent {
            Extent::Sized { next } => {
                if self.left > 0 {
                    return None;
                }
                Some(next)
            }
            Extent::Open { needed: _ } => None,
        }
    }

    /// What the end of the stream means within it.
    ///
    /// # Errors
    ///
    /// `Truncated` where more bytes of it are needed.
    pub fn end(&self) -> Result<(), Fault>
        ensures ok { OnOk result (self.now.extent ≡ extents.Open 0) }
        ensures some { OnErr result (IsShort self.now.extent) }
        ensures err { IfErr result (λ f. f ≡ fault Truncated (Some self.now.kind) self.now.at) }
    {
        match self.extent {
            Extent::Sized { next: _ } => Err(truncated(Some(self.kind), self.at)),
            Extent::Open { needed } => {
                if needed == 0 {
                    return Ok(());
                }
                Err(truncated(Some(self.kind), self.at))
            }
        }
    }
}

/// The stream ended in the box at `at`.
pub fn truncated(kind: Option<FourCc>, at: u64) -> Fault
    ensures { result ≡ fault Truncated kind at }
{
    Fault {
        rule: Rule::Truncated,
        kind,
        offset: at,
    }
}
