//! The lines of boxes.

ghost use Rattle.std.specs.Prelude.{◌≡◌, ◌+◌, ◌≤◌, ◌++◌, length};
ghost use Rattle.mp4_box.specs.Trees.{view};
ghost use Rattle.mp4_machine.specs.Ends.{sent};
ghost use Rattle.mp4_machine.specs.Puts.{Puts};
ghost use Rattle.mp4_boxes.specs.Listing.{box_line, has_lines_below, indent, line_below, lines_below, size_text, tree_lines, user_text};

use mp4_box::{BoxRef, Header, Size, Walk, holds_boxes};
use mp4_ends::{Failed, Sink};
use mp4_lines::{DECIMAL_DIGITS, Text};
use mp4_machine::{BLOCK_BYTES, Block, LINE_BYTES, Line};
use std::marker::Model;

/// Spaces for the lowest level.
const INDENT: [u8; 14] = *b"              ";

/// The line of the box with a header.
#[derive(Drop)]
struct BoxLine<'a> {
    header: &'a Header,
    /// The offset of its first byte.
    at: u64,
    /// Its level below the top.
    level: u8,
}

impl<'a> Model for BoxLine<'a> {
    ghost use Rattle.std.specs.Prelude.{◌≤◌, ◌++◌, List, ℕ};
    ghost use Rattle.mp4_boxes.specs.Listing.{box_line, indent};

    ghost Value = { List ℕ };

    ghost view = { λ l. indent l.level ++ box_line l.at l.header.now };

    ghost invariant = { λ l. l.level ≤ 7 };
}

impl<'a> Line for BoxLine<'a> {
    ghost text = { λ l. l };

    #[inline(always)]
    fn push(&self, block: &mut Text<BLOCK_BYTES>) {
        // All of the indent is one copy of a length that is known.
        let end = block.len() + 2 * self.level as usize;
        block.push_bytes(&INDENT);
        block.truncate(end);
        push_box(block, self.at, self.header);
    }
}

/// Appends the line of the box with this header that begins at `at`, after its indent.
#[inline(always)]
#[tactic(auto, unfolding(crate::specs::Listing::box_line))]
fn push_box(block: &mut Text<BLOCK_BYTES>, at: u64, header: &Header)
    requires { length block.old + LINE_BYTES ≤ BLOCK_BYTES + 14 }
    ensures { block.new ≡ block.old ++ box_line at header.now }
{
    block.push_bytes(&header.kind.shown());
    block.push_bytes(b" ");
    push_size(block, header.size);
    block.push_bytes(b" @");
    block.push_decimal(at);
    push_user(block, header.user);
    block.push_bytes(b"\n");
}

/// Puts the line of the box at the top with this header that begins at `at`.
pub(crate) fn put_box<W: Sink>(
    at: u64,
    header: &Header,
    out: &mut Block,
    w: &mut W,
) -> Result<(), Failed>
    ensures { Puts (sent W.contents W.has_failed w.old w.new) out.old out.new
        (box_line at header.now) result }
{
    let line = BoxLine {
        header,
        at,
        level: 0,
    };
    out.put_line(w, &line)
}

/// Whether lines of boxes below this one follow its own, where so many levels below it are listed.
#[inline(always)]
fn has_lines_below(this: &BoxRef<'_>, levels: u8) -> bool
    ensures { result ≡ has_lines_below levels (view this.now) }
{
    if levels == 0 {
        return false;
    }
    holds_boxes(this.header.kind)
}

/// Puts the lines of a box so many levels below the top, and of the boxes below it: as far as `levels` go.
#[inline(always)]
pub(crate) fn put_tree<W: Sink>(
    this: &BoxRef<'_>,
    levels: u8,
    level: u8,
    out: &mut Block,
    w: &mut W,
) -> Result<(), Failed>
    requires { levels + level ≤ 7 }
    ensures { Puts (sent W.contents W.has_failed w.old w.new) out.old out.new
        (tree_lines levels level (view this.now)) result }
{
    match put_line(this, level, out, w) {
        Ok(()) => {}
        Err(Failed) => return Err(Failed),
    }
    if !has_lines_below(this, levels) {
        return Ok(());
    }
    put_below(this, levels - 1, level + 1, out, w)
}

/// Puts the lines of the boxes below a box: its children are so many levels below the top.
fn put_below<W: Sink>(
    this: &BoxRef<'_>,
    levels: u8,
    level: u8,
    out: &mut Block,
    w: &mut W,
) -> Result<(), Failed>
    requires { levels + level ≤ 7 }
    ensures { Puts (sent W.contents W.has_failed w.old w.new) out.old out.new
        (lines_below levels level (view this.now)) result }
{
    for child in Walk::of(this) {
        match put_line(&child, level, out, w) {
            Ok(()) => {}
            Err(Failed) => return Err(Failed),
        }
        if has_lines_below(&child, levels) {
            match put_below(&child, levels - 1, level + 1, out, w) {
                Ok(()) => {}
                Err(Failed) => return Err(Failed),
            }
        }
    }
    Ok(())
}

/// Puts the line of a box so many levels below the top.
#[inline(always)]
fn put_line<W: Sink>(this: &BoxRef<'_>, level: u8, out: &mut Block, w: &mut W) -> Result<(), Failed>
    requires { level ≤ 7 }
    ensures { Puts (sent W.contents W.has_failed w.old w.new) out.old out.new
        (line_below level (view this.now)) result }
{
    let line = BoxLine {
        header: &this.header,
        at: this.offset,
        level,
    };
    out.put_line(w, &line)
}

fn push_size(block: &mut Text<BLOCK_BYTES>, size: Size)
    requires { length block.old + DECIMAL_DIGITS ≤ BLOCK_BYTES }
    ensures text { block.new ≡ block.old ++ size_text size }
    ensures len { length block.new ≤ length block.old + DECIMAL_DIGITS }
{
    match size {
        Size::Exact(size) => block.push_decimal(size),
        Size::ToEnd => block.push_bytes(b"end"),
    }
}

/// A user type is written after a space.
fn push_user(block: &mut Text<BLOCK_BYTES>, user: Option<[u8; 16]>)
    requires { length block.old + 33 ≤ BLOCK_BYTES }
    ensures text { block.new ≡ block.old ++ user_text user }
    ensures len { length block.new ≤ length block.old + 33 }
{
    if let Some(user) = user {
        block.push_bytes(b" ");
        block.push_hex(&user);
    }
}
