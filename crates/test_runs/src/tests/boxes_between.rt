//! Boxes between fragments: which of them a stream keeps that is recut, and which it loses.

use super::joined;
use super::splits::{BY_TWO, by_two, check_good};
use super::wanted::{SYNC, piece_at, push_fragment};
use mp4_stream::vectors::{V1, V1_MEDIA, V1_MOOF, V1_THIRD_SAMPLE};
use std::alloc::Global;
use std::process::Abort;
use std::test::Fail;

/// The first vector, a box after it, and its fragment again: what is left of the box.
fn check_between(rt: &impl Abort, alloc: Global, between: &[u8], left: &[u8]) -> Result<(), Fail> {
    let v1 = V1.as_slice();
    let mut all = by_two(alloc)?;
    all.extend_from_slice(left)?;
    let (first, second) = (
        piece_at(
            3,
            0,
            &[[5, SYNC], [7, SYNC]],
            &v1[V1_MEDIA..V1_THIRD_SAMPLE],
        ),
        piece_at(4, 2048, &[[3, SYNC]], &v1[V1_THIRD_SAMPLE..]),
    );
    push_fragment(&mut all, &first)?;
    push_fragment(&mut all, &second)?;
    let stream = joined(alloc, &[V1.as_slice(), between, &V1.as_slice()[V1_MOOF..]])?;
    check_good(rt, alloc, &BY_TWO, &[&stream], &all)
}

/// Indexes go, since their offsets would be wrong. The contents of the boxes aren't read.
#[test]
fn boxes_that_are_dropped(rt: HostRuntime) -> Result<(), Fail> {
    for between in [
        b"\0\0\0\x10sidxabcdefgh",
        b"\0\0\0\x10ssixabcdefgh",
        b"\0\0\0\x10mfraabcdefgh",
    ] {
        check_between(&rt, rt.alloc(), between, b"")?;
    }
    Ok(())
}

#[test]
fn boxes_that_are_kept(rt: HostRuntime) -> Result<(), Fail> {
    for between in [
        b"\0\0\0\x10stypabcdefgh".as_slice(),
        b"\0\0\0\x10prftabcdefgh",
        b"\0\0\0\x10emsgabcdefgh",
        b"\0\0\0\x10freeabcdefgh",
        b"\0\0\0\x10skipabcdefgh",
        b"\0\0\0\x20uuid0123456789abcdefabcdefgh",
        b"\0\0\0\x10whatabcdefgh",
    ] {
        check_between(&rt, rt.alloc(), between, between)?;
    }
    Ok(())
}
