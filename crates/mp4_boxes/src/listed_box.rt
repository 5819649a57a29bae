//! Lists a box of which all bytes came.

ghost use Rattle.std.specs.Prelude.{◌≡◌, ◌+◌, ◌^◌, ◌≤◌, [], length, Some};
ghost use Rattle.mp4_box.specs.declared.headers.Size.TheVariants.{Exact};
ghost use Rattle.mp4_box.specs.declared.headers.Step.TheVariants as steps;
ghost use Rattle.mp4_box.specs.Headers.{header_at};
ghost use Rattle.mp4_box.specs.Trees.{box_at, view};
ghost use Rattle.mp4_ledger.specs.Memory.{Account, given_back};
ghost use Rattle.mp4_machine.specs.Ends.{sent};
ghost use Rattle.mp4_machine.specs.Buffering.{Begins, Buffering};
ghost use Rattle.mp4_machine.specs.Steps.{Leads};
ghost use Rattle.mp4_boxes.specs.States.{HasCome, at_header, box_of, change, in_box};

use crate::listing::{put_box, put_tree};
use mp4_box::{BoxRef, Header, whole_box};
use mp4_ends::{Failed, Sink};
use mp4_machine::{Block, BufferedBox, Stop};

/// Lists a box of which all bytes came. Its claim is given back by the caller.
///
/// # Errors
///
/// As [`list_box`].
pub(crate) fn list_held<W: Sink>(
    buffered: &BufferedBox,
    out: &mut Block,
    w: &mut W,
) -> Result<(), Stop>
    requires begins { Begins buffered.now.size buffered.now.bytes }
    requires whole { length buffered.now.bytes ≡ buffered.now.size }
    ensures { (a : Account) → buffered.now.size ≤ a.live →
        Leads (change (sent W.contents W.has_failed w.old w.new)
        out.old out.new a (given_back a buffered.now.size))
        (in_box buffered.now) (at_header (buffered.now.at + buffered.now.size)) result }
{
    list_box(&whole_held(buffered.bytes(), buffered.offset()), out, w)
}

/// The box that the bytes are.
fn whole_held<'a>(bytes: &'a [u8], at: u64) -> BoxRef<'a>
    requires begins { Begins (length bytes.now) bytes.now }
    requires room { at + length bytes.now ≤ 2 ^ 62 }
    ensures { box_at at bytes.now ≡ Some (view result) }
{
    whole_box(bytes, at)
}

/// Lists the box at `at` with this header: `bytes` are all of it. Its claim is given back by the caller.
///
/// # Errors
///
/// As [`list_box`].
#[inline(always)]
pub(crate) fn list_whole<W: Sink>(
    at: u64,
    header: &Header,
    bytes: &[u8],
    out: &mut Block,
    w: &mut W,
) -> Result<(), Stop>
    requires is { header_at bytes.now ≡ steps.Whole header.now }
    requires size { header.now.size ≡ Exact (length bytes.now) }
    requires room { at + length bytes.now ≤ 2 ^ 62 }
    ensures { (h : Buffering) → (a : Account) → HasCome h a (box_of at header.now bytes.now) →
        Leads (change (sent W.contents W.has_failed w.old w.new)
        out.old out.new a (given_back a h.size)) (in_box h) (at_header (h.at + h.size)) result }
{
    if header.header_len == bytes.len() as u64 {
        return list_empty(at, header, out, w);
    }
    list_box(&whole_held(bytes, at), out, w)
}

/// Lists the box at `at` with this header, which has no payload. Its claim is given back by the caller.
///
/// # Errors
///
/// `Write` where the writer has failed.
#[inline]
fn list_empty<W: Sink>(at: u64, header: &Header, out: &mut Block, w: &mut W) -> Result<(), Stop>
    ensures { (h : Buffering) → (a : Account) →
        HasCome h a (record { header = header.now; offset = at; payload = [] }) →
        Leads (change (sent W.contents W.has_failed w.old w.new)
        out.old out.new a (given_back a h.size)) (in_box h) (at_header (h.at + h.size)) result }
{
    match put_box(at, header, out, w) {
        Ok(()) => Ok(()),
        Err(Failed) => Err(Stop::Write),
    }
}

/// Checks the tree of a box and puts its line and those of the boxes below it. Its claim is given back by the caller.
///
/// # Errors
///
/// `Stream` where the tree is at fault; nothing is put then. `Write` where the writer has failed.
fn list_box<W: Sink>(this: &BoxRef<'_>, out: &mut Block, w: &mut W) -> Result<(), Stop>
    ensures { (h : Buffering) → (a : Account) → HasCome h a (view this.now) →
        Leads (change (sent W.contents W.has_failed w.old w.new)
        out.old out.new a (given_back a h.size)) (in_box h) (at_header (h.at + h.size)) result }
{
    match this.check() {
        Ok(()) => {}
        Err(fault) => return Err(Stop::Stream(fault)),
    }
    match put_tree(this, 7, 0, out, w) {
        Ok(()) => Ok(()),
        Err(Failed) => Err(Stop::Write),
    }
}
