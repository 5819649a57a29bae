//! Worked bytes: their numbers, their headers, and the faults of their trees.

ghost use Rattle.std.specs.Prelude.{◌≡◌, count_by};
ghost use Rattle.std.specs.Str.{bytes_eq};
ghost use Rattle.mp4_box.specs.Trees.{children, view};

use mp4_box::vectors::{V1, V1_MOOF, V1_MOOV};
use mp4_box::{
    BoxRef, Fault, FourCc, Header, Rule, Size, Walk, check_tree, full, header_of, i32_at, is_box,
    u32_at, u64_at, whole_box,
};
use std::process::Abort;
use std::test::Fail;

#[test]
fn fields(rt: HostRuntime) {
    let bytes = b"\x01\x00\x0f\x01\xff\xff\xfe\x00\x7f\xff\xff\xff".as_slice();
    let heads = (full(bytes), full(&bytes[..4]), full(&bytes[..3]));
    assert_eq!(rt; heads, (Some((1, 0x000f01)), Some((1, 0x000f01)), None));
    assert_eq!(rt;
        (u32_at(bytes, 4), u64_at(bytes, 4)),
        (0xfffffe00, 0xfffffe007fffffff)
    );
    assert_eq!(rt; (i32_at(bytes, 4), i32_at(bytes, 8)), (-512, 2147483647));
}

#[test]
fn headers(rt: HostRuntime) {
    let header = Header {
        kind: FourCc(*b"mdat"),
        user: None,
        size: Size::Exact(0x100000008),
        header_len: 16,
    };
    let long = b"\0\0\0\x01mdat\0\0\0\x01\0\0\0\x08\x05\x06".as_slice();
    let short = header_of(b"\0\0\0\x07free");
    assert_eq!(rt;
        (header_of(long), header_of(&long[..15])),
        (Ok(header), Err(Rule::Truncated))
    );
    assert_eq!(rt; short, Err(Rule::BadSize));
    assert_eq!(rt; FourCc(*b"f\x7fe\x1f").shown(), *b"f?e?");
    assert_eq!(rt; FourCc(*b" ~\xa9\0").shown(), *b" ~??");
    assert_eq!(rt;
        (Rule::RunPlace.number(), Rule::RunPlace.name()),
        (22, "RunPlace")
    );
}

/// Checks the tree of bytes that are one whole box, which the tests' are.
fn tree_of(bytes: &[u8], offset: u64) -> Option<Result<(), Fault>> {
    if bytes.len() > 1000 || offset > 1000 || !is_box(bytes) {
        return None;
    }
    Some(check_tree(bytes, offset))
}

/// Checks trees, each by its bytes and where they begin.
fn check(rt: &impl Abort, rows: &[(&[u8], u64, Option<Result<(), Fault>>)]) -> Result<(), Fail> {
    for (bytes, offset, expected) in rows {
        assert_eq!(rt; tree_of(bytes, *offset), *expected, "{bytes:?}");
    }
    Ok(())
}

fn fault(rule: Rule, kind: &[u8; 4], offset: u64) -> Option<Result<(), Fault>> {
    let kind = Some(FourCc(*kind));
    Some(Err(Fault { rule, kind, offset }))
}

/// The fault of a header at this offset that has no type.
fn no_header(offset: u64) -> Option<Result<(), Fault>> {
    Some(Err(Fault {
        rule: Rule::BadSize,
        kind: None,
        offset,
    }))
}

#[test]
fn nested_boxes(rt: HostRuntime) -> Result<(), Fail> {
    const NINE: &[u8] = b"\0\0\0\x48moov\0\0\0\x40trak\0\0\0\x38trak\0\0\0\x30trak\0\0\0\x28trak\
        \0\0\0\x20trak\0\0\0\x18trak\0\0\0\x10trak\0\0\0\x08trak";
    const EIGHT: &[u8] = b"\0\0\0\x40moov\0\0\0\x38trak\0\0\0\x30trak\0\0\0\x28trak\
        \0\0\0\x20trak\0\0\0\x18trak\0\0\0\x10trak\0\0\0\x08trak";
    const BOTH: &[u8] = b"\0\0\0\x50moov\0\0\0\x40trak\0\0\0\x38trak\0\0\0\x30trak\0\0\0\x28trak\
        \0\0\0\x20trak\0\0\0\x18trak\0\0\0\x10trak\0\0\0\x08trak\0\0\0\x07free";
    const CUT: &[u8] = b"\0\0\0\x43moov\0\0\0\x3btrak\0\0\0\x33trak\0\0\0\x2btrak\0\0\0\x23trak\
        \0\0\0\x1btrak\0\0\0\x13trak\0\0\0\x0btrak\0\0\0";
    check(
        &rt,
        &[
            (NINE, 0, fault(Rule::Depth, b"trak", 64)),
            (EIGHT, 0, Some(Ok(()))),
            // A bad size comes before a box that is too deep, even if that is earlier.
            (BOTH, 0, fault(Rule::BadSize, b"free", 72)),
            // At depth 9 the header must still be good.
            (CUT, 0, no_header(64)),
        ],
    )
}

#[test]
fn bad_children(rt: HostRuntime) -> Result<(), Fail> {
    // A child that passes its parent's end, a size 0, a size without room, a header that is cut.
    const PAST: &[u8] = b"\0\0\0\x10moof\0\0\0\x09mfhd";
    const ZERO: &[u8] = b"\0\0\0\x10moof\0\0\0\0mfhd";
    const SEVEN: &[u8] = b"\0\0\0\x10moof\0\0\0\x07mfhd";
    const USER: &[u8] = b"\0\0\0\x10moof\0\0\0\x18uuid";
    const CUT: &[u8] = b"\0\0\0\x17moof\0\0\0\x08free\0\0\0\x08fre";
    check(
        &rt,
        &[
            (PAST, 364, fault(Rule::BadSize, b"mfhd", 372)),
            (ZERO, 364, fault(Rule::BadSize, b"mfhd", 372)),
            (SEVEN, 364, fault(Rule::BadSize, b"mfhd", 372)),
            (USER, 364, fault(Rule::BadSize, b"uuid", 372)),
            (CUT, 364, no_header(380)),
        ],
    )
}

#[test]
fn good_children(rt: HostRuntime) -> Result<(), Fail> {
    const LONG: &[u8] = b"\0\0\0\x18moof\0\0\0\x01free\0\0\0\0\0\0\0\x10";
    const LEAF: &[u8] = b"\0\0\0\x18moov\0\0\0\x10udta\0\0\0\x07trak";
    const TRAF: &[u8] = b"\0\0\0\x18moov\0\0\0\x10traf\0\0\0\x07free";
    check(
        &rt,
        &[
            // A child with a 64-bit size.
            (LONG, 0, Some(Ok(()))),
            // A leaf's payload is no tree, whatever it looks like.
            (LEAF, 0, Some(Ok(()))),
            // A container is read where it may not be, too.
            (TRAF, 0, fault(Rule::BadSize, b"free", 16)),
        ],
    )
}

#[test]
fn containers(rt: HostRuntime) -> Result<(), Fail> {
    let mut bytes = *b"\0\0\0\x18moov\0\0\0\x10free\0\0\0\x07free";
    // These types hold boxes, and others none.
    for kind in [
        b"moov", b"trak", b"edts", b"mdia", b"minf", b"dinf", b"stbl", b"mvex", b"moof", b"traf",
    ] {
        bytes[12..16].copy_from_slice(kind);
        check(&rt, &[(&bytes, 0, fault(Rule::BadSize, b"free", 16))])?;
    }
    for kind in [
        b"udta", b"meta", b"dref", b"stsd", b"mfra", b"mdat", b"free", b"trax",
    ] {
        bytes[12..16].copy_from_slice(kind);
        check(&rt, &[(&bytes, 0, Some(Ok(())))])?;
    }
    Ok(())
}

#[test]
fn a_whole_moov(rt: HostRuntime) -> Result<(), Fail> {
    // The trex at 332 with a size of 33 in place of 32.
    let mut bytes = *V1;
    bytes[335] = 33;
    check(
        &rt,
        &[
            (&V1.as_slice()[V1_MOOV..V1_MOOF], 20, Some(Ok(()))),
            (&bytes[20..364], 20, fault(Rule::BadSize, b"trex", 332)),
        ],
    )
}

/// How many children of this type the box has: what a loop over a box's children promises with an invariant
/// on the boxes that are left.
fn count_of(this: &BoxRef<'_>, kind: FourCc) -> u64
    ensures { result ≡ count_by (λ b. bytes_eq b.header.kind.0 kind.0) (children (view this.now)) }
{
    let mut count = 0;
    for child in Walk::of(this) {
        if child.header.kind.0.as_slice() == kind.0.as_slice() {
            count += 1;
        }
    }
    count
}

#[test]
fn children_by_type(rt: HostRuntime) {
    let v1 = V1.as_slice();
    let moov = &v1[V1_MOOV..V1_MOOF];
    assert_eq!(rt; is_box(moov), true);
    assert_eq!(rt; is_box(&v1[V1_MOOV..363]), false);
    assert_eq!(rt; is_box(&v1[V1_MOOV..365]), false);
    if is_box(moov) {
        let this = whole_box(moov, 20);
        assert_eq!(rt; count_of(&this, FourCc(*b"trak")), 1);
        assert_eq!(rt; count_of(&this, FourCc(*b"trex")), 0);
        let mut offsets = [0; 3];
        for (place, child) in Walk::of(&this).enumerate() {
            if place < 3 {
                offsets[place] = child.offset;
            }
        }
        assert_eq!(rt; offsets, [28, 136, 324]);
    }
}
