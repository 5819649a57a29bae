//! What is listed, and the faults of streams.

use super::{FTYP, MDAT, MOOF, MOOV, check_rows};
use mp4_stream::vectors::{V1, V1_MDAT, V1_MEDIA, V1_MFHD, V1_MOOF};
use std::test::Fail;

#[test]
fn short_headers(rt: HostRuntime) -> Result<(), Fail> {
    let v1 = V1.as_slice();
    let all = [FTYP, MOOV, MOOF, MDAT];
    check_rows(&rt, rt.alloc(), &[v1], 0, &all, "")?;
    check_rows(
        &rt,
        rt.alloc(),
        &[&v1[..482]],
        2,
        &all,
        "fmp4: 1 Truncated in mdat at 460\n",
    )?;
    check_rows(
        &rt,
        rt.alloc(),
        &[v1, b"\0\0\0".as_slice()],
        2,
        &all,
        "fmp4: 1 Truncated in (none) at 483\n",
    )?;
    check_rows(
        &rt,
        rt.alloc(),
        &[b"\0\0\0\x07free".as_slice()],
        2,
        &[],
        "fmp4: 2 BadSize in free at 0\n",
    )?;
    check_rows(
        &rt,
        rt.alloc(),
        &[b"\0\0\0\x08f\0re".as_slice()],
        0,
        &["f?re 8 @0\n"],
        "",
    )?;
    check_rows(&rt, rt.alloc(), &[], 0, &[], "")
}

#[test]
fn other_headers(rt: HostRuntime) -> Result<(), Fail> {
    let v1 = V1.as_slice();
    let start = &v1[..V1_MDAT];
    let media = &v1[V1_MEDIA..];
    let to_end = b"\0\0\0\0mdat".as_slice();
    let lines = [FTYP, MOOV, MOOF, "mdat end @460\n"];
    check_rows(&rt, rt.alloc(), &[start, to_end, media], 0, &lines, "")?;
    let long = b"\0\0\0\x01mdat\0\0\0\0\0\0\0\x1f".as_slice();
    let lines = [FTYP, MOOV, MOOF, "mdat 31 @460\n"];
    check_rows(&rt, rt.alloc(), &[start, long, media], 0, &lines, "")?;
    // A box that is held has a stated size.
    check_rows(
        &rt,
        rt.alloc(),
        &[&v1[..V1_MOOF], b"\0\0\0\0moof".as_slice(), &v1[V1_MFHD..]],
        2,
        &[FTYP, MOOV],
        "fmp4: 7 TooLarge in moof at 364\n",
    )?;
    check_rows(
        &rt,
        rt.alloc(),
        &[b"\0\0\0\0moov".as_slice()],
        2,
        &[],
        "fmp4: 7 TooLarge in moov at 0\n",
    )
}

#[test]
fn held_boxes(rt: HostRuntime) -> Result<(), Fail> {
    let v1 = V1.as_slice();
    let alloc = rt.alloc();
    // One that ends early is listed not even in part.
    check_rows(
        &rt,
        alloc,
        &[&v1[..459]],
        2,
        &[FTYP, MOOV],
        "fmp4: 1 Truncated in moof at 364\n",
    )?;
    let trex = [&v1[..335], b"\x21".as_slice(), &v1[336..]];
    check_rows(
        &rt,
        alloc,
        &trex,
        2,
        &[FTYP],
        "fmp4: 2 BadSize in trex at 332\n",
    )?;
    // The most that a moof may have, and a byte more; the same for a moov.
    for (header, fault) in [
        (b"\x04\0\0\0moof", "fmp4: 1 Truncated in moof at 364\n"),
        (b"\x04\0\0\x01moof", "fmp4: 7 TooLarge in moof at 364\n"),
        (b"\x01\0\0\0moov", "fmp4: 1 Truncated in moov at 364\n"),
        (b"\x01\0\0\x01moov", "fmp4: 7 TooLarge in moov at 364\n"),
    ] {
        let stream = [&v1[..V1_MOOF], header.as_slice(), &v1[V1_MFHD..]];
        check_rows(&rt, alloc, &stream, 2, &[FTYP, MOOV], fault)?;
    }
    // A box that is its header alone.
    check_rows(
        &rt,
        alloc,
        &[b"\0\0\0\x08moov\0\0\0\x08moof".as_slice()],
        0,
        &["moov 8 @0\nmoof 8 @8\n"],
        "",
    )
}

/// Seven boxes, each in the one before.
const SEVEN: &str = "  traf 56 @372
    traf 48 @380
      traf 40 @388
        traf 32 @396
          traf 24 @404
            traf 16 @412
              traf 8 @420
";

#[test]
fn nested_boxes(rt: HostRuntime) -> Result<(), Fail> {
    let start = &V1.as_slice()[..V1_MOOF];
    let seven =
        b"\0\0\0\x38traf\0\0\0\x30traf\0\0\0\x28traf\0\0\0\x20traf\0\0\0\x18traf\0\0\0\x10traf\0\0\0\x08traf";
    check_rows(
        &rt,
        rt.alloc(),
        &[start, b"\0\0\0\x40moof".as_slice(), seven.as_slice()],
        0,
        &[FTYP, MOOV, "moof 64 @364\n", SEVEN],
        "",
    )?;
    let eight = b"\0\0\0\x40traf\0\0\0\x38traf\0\0\0\x30traf\0\0\0\x28traf\
          \0\0\0\x20traf\0\0\0\x18traf\0\0\0\x10traf\0\0\0\x08traf";
    check_rows(
        &rt,
        rt.alloc(),
        &[start, b"\0\0\0\x48moof".as_slice(), eight.as_slice()],
        2,
        &[FTYP, MOOV],
        "fmp4: 8 Depth in traf at 428\n",
    )
}

/// A moov of seven boxes, each in the one before.
const SEVEN_TRAKS: &str = "moov 64 @0
  trak 56 @8
    trak 48 @16
      trak 40 @24
        trak 32 @32
          trak 24 @40
            trak 16 @48
              trak 8 @56
";

#[test]
fn nested_traks(rt: HostRuntime) -> Result<(), Fail> {
    let seven =
        b"\0\0\0\x38trak\0\0\0\x30trak\0\0\0\x28trak\0\0\0\x20trak\0\0\0\x18trak\0\0\0\x10trak\0\0\0\x08trak";
    let stream = [b"\0\0\0\x40moov".as_slice(), seven.as_slice()];
    check_rows(&rt, rt.alloc(), &stream, 0, &[SEVEN_TRAKS], "")?;
    let eight = [b"\0\0\0\x48moov\0\0\0\x40trak".as_slice(), seven.as_slice()];
    let fault = "fmp4: 8 Depth in trak at 64\n";
    check_rows(&rt, rt.alloc(), &eight, 2, &[], fault)
}

/// A user type of the bytes 0x10 to 0x1f.
const USER: &[u8; 16] = b"\x10\x11\x12\x13\x14\x15\x16\x17\x18\x19\x1a\x1b\x1c\x1d\x1e\x1f";

#[test]
fn user_types(rt: HostRuntime) -> Result<(), Fail> {
    check_rows(
        &rt,
        rt.alloc(),
        &[
            b"\0\0\0\x1cuuid".as_slice(),
            USER.as_slice(),
            b"\0\0\0\0".as_slice(),
        ],
        0,
        &["uuid 28 @0 101112131415161718191a1b1c1d1e1f\n"],
        "",
    )?;
    check_rows(
        &rt,
        rt.alloc(),
        &[b"\0\0\0\x17uuid".as_slice(), USER.as_slice()],
        2,
        &[],
        "fmp4: 2 BadSize in uuid at 0\n",
    )?;
    check_rows(
        &rt,
        rt.alloc(),
        &[b"\0\0\0\x17uuid".as_slice()],
        2,
        &[],
        "fmp4: 1 Truncated in uuid at 0\n",
    )
}

#[test]
fn long_sizes(rt: HostRuntime) -> Result<(), Fail> {
    check_rows(
        &rt,
        rt.alloc(),
        &[b"\0\0\0\x01free\0\0\0\0\0\0\0\x0f".as_slice()],
        2,
        &[],
        "fmp4: 2 BadSize in free at 0\n",
    )?;
    check_rows(
        &rt,
        rt.alloc(),
        &[b"\0\0\0\x01free\x40\0\0\0\0\0\0\x01".as_slice()],
        2,
        &[],
        "fmp4: 25 StreamTooLong in free at 0\n",
    )?;
    check_rows(
        &rt,
        rt.alloc(),
        &[b"\0\0\0\x01free\x40\0\0\0\0\0\0\0".as_slice()],
        2,
        &["free 4611686018427387904 @0\n"],
        "fmp4: 1 Truncated in free at 0\n",
    )
}
