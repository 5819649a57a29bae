//! Words and statuses.

use super::{FTYP, Given, MDAT, MOOF, MOOV, check_run, listing_of};
use mp4_stream::vectors::V1;
use std::test::Fail;

#[test]
fn words_that_are_understood(rt: HostRuntime) -> Result<(), Fail> {
    let alloc = rt.alloc();
    let all = listing_of(alloc, &[FTYP, MOOV, MOOF, MDAT])?;
    let given = Given::ample(V1.as_slice(), 483);
    for words in [
        ["fmp4", "boxes"].as_slice(),
        &["fmp4", "boxes", "--copy", "4096"],
        &["fmp4", "boxes", "--copy=1048576"],
        &["fmp4", "boxes", "--copy", "+65536"],
        &["fmp4", "boxes", "--max-held", "65880"],
        &["fmp4", "boxes", "--max-held=4611686018427387904"],
    ] {
        check_run(&rt, alloc, words, given, 0, &all, b"")?;
    }
    Ok(())
}

#[test]
fn bad_words(rt: HostRuntime) -> Result<(), Fail> {
    let given = Given::ample(V1.as_slice(), 483);
    for words in [
        ["fmp4", "boxes", "--copy", "4095"].as_slice(),
        &["fmp4", "boxes", "--copy", "1048577"],
        &["fmp4", "boxes", "--copy"],
        &["fmp4", "boxes", "--copy", "x"],
        &["fmp4", "boxes", "more"],
        &["fmp4", "boxes", "--max-held", "0"],
        &["fmp4", "boxes", "--max-held", "4611686018427387905"],
        &["fmp4", "samples", "--sync"],
        &["fmp4", "fragments", "--samples", "5"],
        &["fmp4", "split"],
        &["fmp4", "split", "--samples", "0"],
        &["fmp4", "--help"],
        &["fmp4", "help"],
        &["fmp4", "--version"],
        &["fmp4"],
    ] {
        check_run(
            &rt,
            rt.alloc(),
            words,
            given,
            1,
            b"",
            b"fmp4: bad command line\n",
        )?;
    }
    Ok(())
}
