//! Work that no clause bounds: a body that goes over a box too often would give the same answers, after minutes.

use super::joined;
use super::layouts::MFHD;
use mp4_stream::ends::FromSlice;
use mp4_stream::vectors::{V1, V1_MOOF};
use mp4_stream::{Fault, FourCc, Ledger, Rule, Stop, Totals, check};
use std::alloc::{AllocError, Global};
use std::test::Fail;

/// The moov of the first vector, and a moof of 699,000 trafs without tfdt, each of another track: 16,776,024 bytes.
fn with_untimed_trafs(alloc: Global) -> Result<Vec<u8>, AllocError> {
    let moov = &V1.as_slice()[..V1_MOOF];
    let mut stream = joined(alloc, &[moov, b"\0\xff\xfb\x58moof", MFHD])?;
    for i in 1..699_001u32 {
        let id = i.wrapping_mul(2_654_435_761);
        stream.extend_from_slice(b"\0\0\0\x18traf\0\0\0\x10tfhd\0\x02\0\0")?;
        stream.extend_from_slice(&id.to_be_bytes())?;
    }
    Ok(stream)
}

#[test]
fn many_trafs_without_tfdt(rt: HostRuntime) -> Result<(), Fail> {
    let alloc = rt.alloc();
    let stream = with_untimed_trafs(alloc)?;
    let mut r = FromSlice::new(&stream, 65536, false);
    let mut ledger = Ledger::new(alloc, 1 << 29);
    let mut totals = Totals::new();
    let answer = check(&mut r, &mut ledger, 65536, &mut totals);
    // No track is another's, so that the first fault is that the moov has no track of the first.
    let fault = Fault {
        rule: Rule::UnknownTrack,
        kind: Some(FourCc(*b"tfhd")),
        offset: 396,
    };
    assert_eq!(&rt; answer, Err(Stop::Stream(fault)));
    assert_eq!(&rt; ledger.live(), 0);
    Ok(())
}
