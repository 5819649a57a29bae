//! The tree of a held box (ISO/IEC 14496-12, 4.2).

ghost use Rattle.std.specs.Prelude.{◌≡◌, ◌+◌, ◌-◌, ◌^◌, ◌<◌, ◌≤◌, [], length, Some, IfErr, IsOk, IsTrue, ◌↔◌, OnOk, IfSome, option_map};
ghost use Rattle.std.specs.Option.{option_or};
ghost use Rattle.mp4_box.specs.Headers.{IsWhole, header_at, plain_header, size_field};
ghost use Rattle.mp4_box.specs.declared.headers.Step.TheVariants.{Whole};
ghost use Rattle.mp4_box.specs.Trees.{bad_below, bad_size, box_at, box_faults, box_len, deep_below, fault_at, first_of, is_container, tree_faults, verdict, view};
ghost use Rattle.mp4_box.specs.Grammar.{IsTree};
ghost use Rattle.mp4_box.specs.Order.{IsLeast};

use crate::box_ref::BoxRef;
use crate::fields::{array_at, u32_at};
use crate::headers::{FourCc, Header, Size, Step, read_header};
use crate::rules::{Fault, Rule};
use crate::types::{DINF, EDTS, MDIA, MINF, MOOF, MOOV, MVEX, STBL, TRAF, TRAK, UUID};

/// A box at the top may have so many levels, its own among them.
const LEVELS: u8 = 8;

/// Whether the bytes begin with a header of eight bytes that states a size.
#[inline]
#[tactic(auto, using(crate::proofs::BoxLemmas::plain_is))]
fn is_plain(bytes: &[u8]) -> bool
    requires { 8 ≤ length bytes.now }
    ensures room { IsTrue result → 8 ≤ size_field bytes.now }
    ensures header { IsTrue result → header_at bytes.now ≡ Whole (plain_header bytes.now) }
{
    u32_at(bytes, 0) >= 8 && !FourCc(array_at::<4>(bytes, 4)).is(UUID)
}

/// The box of stated size at the front of the bytes, which begin at `offset`; none where they haven't all of
/// one.
#[inline]
#[tactic(auto, using(crate::proofs::BoxLemmas::first_steps))]
pub(crate) fn first_box<'a>(bytes: &'a [u8], offset: u64) -> Option<BoxRef<'a>>
    requires { offset + length bytes.now < 2 ^ 63 }
    ensures exact { option_map view result ≡ box_at offset bytes.now }
    ensures within { IfSome result (λ b. (8 ≤ box_len (view b)) ×
        (box_len (view b) ≤ length bytes.now)) }
    ensures offset { IfSome result (λ b. b.offset ≡ offset) }
{
    if bytes.len() < 8 {
        return None;
    }
    if !is_plain(bytes) {
        return any_box(bytes, offset);
    }
    let size = u32_at(bytes, 0) as usize;
    if size > bytes.len() {
        return None;
    }
    Some(BoxRef {
        header: Header {
            kind: FourCc(array_at::<4>(bytes, 4)),
            user: None,
            size: Size::Exact(size as u64),
            header_len: 8,
        },
        offset,
        payload: &bytes[8..size],
    })
}

/// The same where the header may have any form.
#[tactic(auto, unfolding(crate::specs::Trees::box_at))]
fn any_box<'a>(bytes: &'a [u8], offset: u64) -> Option<BoxRef<'a>>
    requires { offset + length bytes.now < 2 ^ 63 }
    ensures exact { option_map view result ≡ box_at offset bytes.now }
    ensures within { IfSome result (λ b. (8 ≤ box_len (view b)) ×
        (box_len (view b) ≤ length bytes.now)) }
    ensures offset { IfSome result (λ b. b.offset ≡ offset) }
{
    let Step::Whole(header) = read_header(bytes) else {
        return None;
    };
    let Size::Exact(size) = header.size else {
        return None;
    };
    if size > bytes.len() as u64 {
        return None;
    }
    let payload = &bytes[header.header_len as usize..size as usize];
    Some(BoxRef {
        header,
        offset,
        payload,
    })
}

/// Whether boxes of this type hold boxes.
#[inline]
#[tactic(auto, unfolding(crate::specs::Trees::is_container))]
pub fn holds_boxes(kind: FourCc) -> bool
    ensures { result ≡ is_container kind.0 }
{
    kind.is(MOOV)
        || kind.is(TRAK)
        || kind.is(EDTS)
        || kind.is(MDIA)
        || kind.is(MINF)
        || kind.is(DINF)
        || kind.is(STBL)
        || kind.is(MVEX)
        || kind.is(MOOF)
        || kind.is(TRAF)
}

fn bad_box(bytes: &[u8], offset: u64) -> Fault
    ensures { result ≡ bad_size offset bytes.now }
{
    let kind = if bytes.len() < 8 {
        None
    } else {
        Some(FourCc(array_at::<4>(bytes, 4)))
    };
    Fault {
        rule: Rule::BadSize,
        kind,
        offset,
    }
}

impl<'a> BoxRef<'a> {
    /// The fault of this box where it breaks the rule.
    #[inline(always)]
    pub fn fault(&self, rule: Rule) -> Fault
        ensures { result ≡ fault_at rule (view self.now) }
    {
        Fault {
            rule,
            kind: Some(self.header.kind),
            offset: self.offset,
        }
    }

    /// Checks the tree of this box, which is at the top.
    ///
    /// # Errors
    ///
    /// As [`check_tree`].
    #[inline]
    pub fn check(&self) -> Result<(), Fault>
        ensures { result ≡ verdict (box_faults (view self.now)) }
    {
        let mut deep = None;
        if let Err(fault) = check_below(self, LEVELS, &mut deep) {
            return Err(fault);
        }
        match deep {
            Some(fault) => Err(fault),
            None => Ok(()),
        }
    }
}

/// Whether nothing can be at fault below this box, `levels` levels down: it holds no boxes.
#[inline(always)]
fn is_leaf(this: &BoxRef, levels: u8) -> bool
    ensures bad { IsTrue result → bad_below levels (view this.now) ≡ [] }
    ensures deep { IsTrue result → deep_below levels (view this.now) ≡ [] }
{
    if levels == 0 {
        return false;
    }
    !holds_boxes(this.header.kind)
}

/// The fault below a box, `levels` levels down: the first rest without a box. A box that
/// is too deep is kept in `deep`.
fn check_below(this: &BoxRef, levels: u8, deep: &mut Option<Fault>) -> Result<(), Fault>
    ensures exact { result ≡ verdict (bad_below levels (view this.now)) }
    ensures deep { OnOk result (deep.new ≡ option_or deep.old
        (first_of (deep_below levels (view this.now)))) }
{
    if levels == 0 {
        if deep.is_none() {
            *deep = Some(this.fault(Rule::Depth));
        }
        return Ok(());
    }
    if !holds_boxes(this.header.kind) {
        return Ok(());
    }
    let mut rest = this.payload;
    let mut offset = this.offset + this.header.header_len;
    while !rest.is_empty() {
        let Some(child) = first_box(rest, offset) else {
            return Err(bad_box(rest, offset));
        };
        if !is_leaf(&child, levels - 1) {
            // A copy, so that the others need not be in memory.
            let container = child;
            if let Err(fault) = check_below(&container, levels - 1, deep) {
                return Err(fault);
            }
        }
        let len = child.header.header_len as usize + child.payload.len();
        let (_, others) = rest.split_at(len);
        rest = others;
        offset += len as u64;
    }
    Ok(())
}

/// Whether the bytes are one whole box of stated size.
pub fn is_box(bytes: &[u8]) -> bool
    requires { length bytes.now < 2 ^ 63 }
    ensures { IsTrue result ↔ IsWhole bytes.now }
{
    match first_box(bytes, 0) {
        Some(this) => this.header.header_len as usize + this.payload.len() == bytes.len(),
        None => false,
    }
}

/// The box that the bytes are, which begin at `offset`.
pub fn whole_box<'a>(bytes: &'a [u8], offset: u64) -> BoxRef<'a>
    requires whole { IsWhole bytes.now }
    requires room { offset + length bytes.now ≤ 2 ^ 62 }
    ensures { box_at offset bytes.now ≡ Some (view result) }
{
    first_box(bytes, offset).unwrap()
}

/// Checks the tree of a whole box of stated size, which begins at `offset`.
///
/// # Errors
///
/// `BadSize` for the first rest of a container that begins with no whole box: it names the type that is
/// there, where that has come. Else `Depth` for the first box nine levels down.
pub fn check_tree(bytes: &[u8], offset: u64) -> Result<(), Fault>
    requires whole { IsWhole bytes.now }
    requires room { offset + length bytes.now ≤ 2 ^ 62 }
    ensures good { IsOk result ↔ IsTree 8 bytes.now }
    ensures fault { result ≡ verdict (tree_faults offset bytes.now) }
    ensures least { IfErr result (λ f. IsLeast f (tree_faults offset bytes.now)) }
{
    find_fault(bytes, offset)
}

/// The first fault of the tree of the box that the bytes are.
fn find_fault(bytes: &[u8], offset: u64) -> Result<(), Fault>
    requires whole { IsWhole bytes.now }
    requires room { offset + length bytes.now ≤ 2 ^ 62 }
    ensures { result ≡ verdict (tree_faults offset bytes.now) }
{
    whole_box(bytes, offset).check()
}
