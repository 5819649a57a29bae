//! Reports on a stream for C.

ghost use Rattle.std.specs.Prelude.{◌≡◌, ◌-◌, ◌^◌, min};
ghost use Rattle.fmp4_c.specs.Answers.{counted_of, fault_of, kind_number, known_number, report_from};

use mp4_stream::{Fault, FourCc, Stop, Totals};

/// What was counted of a stream, and which rule it breaks.
#[repr(C)]
#[derive(Clone, Copy)]
pub struct Report {
    /// How many fragments: of a stream that is cut the new ones whose moof was written, else those that were accepted;
    /// none where boxes are listed.
    pub fragments: u64,
    /// How many samples these have: 2^64 - 1 where there are more.
    pub samples: u64,
    /// How many bytes of media.
    pub media_bytes: u64,
    /// The most bytes that its boxes had claimed at once.
    pub peak: u64,
    /// The offset of the box at fault; 0 where no rule is broken.
    pub offset: u64,
    /// The number of the rule that it breaks, from 1 on; 0 where none is broken.
    pub rule: u32,
    /// The type of that box as a number of four bytes, the first the highest; 0 where it isn't known.
    pub kind: u32,
    /// 1 where it is known, else 0: that is also the number of four zero bytes.
    pub has_kind: u64,
}

impl Report {
    /// None yet.
    pub(crate) fn none() -> Report {
        Report {
            fragments: 0,
            samples: 0,
            media_bytes: 0,
            peak: 0,
            offset: 0,
            rule: 0,
            kind: 0,
            has_kind: 0,
        }
    }

    /// What was counted, and the fault where there is one.
    pub(crate) fn of(totals: &Totals, fault: Option<Fault>) -> Report
        ensures { result ≡ report_from (counted_of totals.now) fault }
    {
        let mut report = Report {
            fragments: totals.fragments,
            samples: clipped(totals.samples),
            media_bytes: totals.media_bytes,
            peak: totals.peak,
            offset: 0,
            rule: 0,
            kind: 0,
            has_kind: 0,
        };
        if let Some(fault) = fault {
            report.offset = fault.offset;
            report.rule = u32::from(fault.rule.number());
            report.kind = number_of_kind(fault.kind);
            report.has_kind = known(fault.kind);
        }
        report
    }
}

/// A number of samples, or 2^64 - 1 where it has more than 64 bits.
fn clipped(samples: u128) -> u64
    ensures { result ≡ min samples (2 ^ 64 - 1) }
{
    if samples > u128::from(u64::MAX) {
        return u64::MAX;
    }
    samples as u64
}

/// A type as a number.
fn number_of_kind(kind: Option<FourCc>) -> u32
    ensures { result ≡ kind_number kind }
{
    match kind {
        Some(kind) => u32::from_be_bytes(kind.0),
        None => 0,
    }
}

/// 1 where a type is known, else 0.
fn known(kind: Option<FourCc>) -> u64
    ensures { result ≡ known_number kind }
{
    match kind {
        Some(_) => 1,
        None => 0,
    }
}

/// The fault for which a stream stopped, if it did for one.
pub(crate) fn fault_in(stop: Option<Stop>) -> Option<Fault>
    ensures { result ≡ fault_of stop }
{
    match stop {
        Some(Stop::Stream(fault)) => Some(fault),
        _ => None,
    }
}
