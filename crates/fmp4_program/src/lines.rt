//! The lines on the fault writer, and that of a stream that was checked.

ghost use Rattle.std.specs.Prelude.{◌≡◌, ◌+◌, ◌≤◌, ◌++◌, codes, length};
ghost use Rattle.std.specs.Fmt.{decimal};
ghost use Rattle.fmp4_program.specs.Lines.{check_text, fault_text, kind_text, line, stop_text};

use mp4_lines::Text;
use mp4_machine::LINE_BYTES;
use mp4_stream::{Fault, FourCc, Stop, Totals};

/// The line of what stopped a run.
pub fn stop_line(stop: &Stop) -> Text<LINE_BYTES>
    ensures { result ≡ line (stop_text stop.now) }
{
    match stop {
        Stop::Stream(fault) => fault_line(fault),
        Stop::Read { at } => read_line(*at),
        Stop::Write => plain_line(b"fmp4: write failed\n"),
        Stop::OverLimit => plain_line(b"fmp4: over the limit\n"),
        Stop::Memory => plain_line(b"fmp4: out of memory\n"),
    }
}

/// A line of this text.
fn plain_line(text: &[u8]) -> Text<LINE_BYTES>
    requires { length text.now ≤ LINE_BYTES }
    ensures { result ≡ text.now }
{
    let mut line = Text::new();
    line.push_bytes(text);
    line
}

/// The line of a fault, as `fmp4: 1 Truncated in mdat at 460`.
fn fault_line(fault: &Fault) -> Text<LINE_BYTES>
    ensures { result ≡ line (fault_text fault.now) }
{
    let mut line = Text::new();
    line.push_bytes(b"fmp4: ");
    line.push_decimal(u64::from(fault.rule.number()));
    line.push_bytes(b" ");
    line.push_bytes(fault.rule.name().as_bytes());
    line.push_bytes(b" in ");
    push_kind(&mut line, fault.kind);
    line.push_bytes(b" at ");
    line.push_decimal(fault.offset);
    line.push_bytes(b"\n");
    line
}

/// The line of a failed read, as `fmp4: read failed at 470`.
fn read_line(at: u64) -> Text<LINE_BYTES>
    ensures { result ≡ line (codes "read failed at " ++ decimal at) }
{
    let mut line = Text::new();
    line.push_bytes(b"fmp4: read failed at ");
    line.push_decimal(at);
    line.push_bytes(b"\n");
    line
}

/// The line of a stream that was checked, as `fragments=1 samples=3 media=15 held=65944`.
pub fn check_line(totals: &Totals) -> Text<LINE_BYTES>
    ensures { result ≡ check_text totals.now }
{
    let mut line = Text::new();
    line.push_bytes(b"fragments=");
    line.push_decimal(totals.fragments);
    line.push_bytes(b" samples=");
    line.push_wide_decimal(totals.samples);
    line.push_bytes(b" media=");
    line.push_decimal(totals.media_bytes);
    line.push_bytes(b" held=");
    line.push_decimal(totals.peak);
    line.push_bytes(b"\n");
    line
}

fn push_kind(line: &mut Text<LINE_BYTES>, kind: Option<FourCc>)
    requires { length line.old + 6 ≤ LINE_BYTES }
    ensures text { line.new ≡ line.old ++ kind_text kind }
    ensures len { length line.new ≤ length line.old + 6 }
{
    match kind {
        Some(kind) => line.push_bytes(&kind.shown()),
        None => line.push_bytes(b"(none)"),
    }
}
