//! Counts, sizes and offsets at the ends of their types, by every command and by the Feeder.

use super::feeders::Pushed;
use super::fragments::check_fault;
use super::layouts::MFHD;
use super::splits::{BY_TWO, by_two, check_split};
use super::{FTYP, MDAT, MOOF, MOOV, check_rows, joined};
use mp4_stream::vectors::{V1, V1_MDAT, V1_MEDIA, V1_MOOF, V1_SIZES, V1_TFHD, V1_TRUN};
use mp4_stream::{Fault, FourCc, Rule, Stop};
use std::alloc::Global;
use std::process::Abort;
use std::test::Fail;

/// A fault, and its line.
#[derive(Clone, Copy)]
struct FaultLine {
    fault: Fault,
    line: &'static str,
}

fn fault_at(rule: Rule, kind: &[u8; 4], offset: u64, line: &'static str) -> FaultLine {
    FaultLine {
        fault: Fault {
            rule,
            kind: Some(FourCc(*kind)),
            offset,
        },
        line,
    }
}

/// A stream with this fault, before which nothing is listed and so many bytes of the first vector are written.
fn check_hostile(
    rt: &impl Abort,
    alloc: Global,
    parts: &[&[u8]],
    due: FaultLine,
    written: usize,
) -> Result<(), Fail> {
    check_fault(rt, alloc, parts, &[], due.line)?;
    let written = &V1.as_slice()[..written.min(483)];
    check_split(rt, alloc, &BY_TWO, parts, 2, written, due.line)?;
    let stream = joined(alloc, parts)?;
    let mut whole = Pushed::new(rt, alloc, 1000)?;
    // It may be the end that is at fault.
    let _ = whole.push(&stream);
    check_stop(rt, whole, due, written)?;
    let mut single = Pushed::new(rt, alloc, 1000)?;
    let _ = single.push_each(&stream);
    check_stop(rt, single, due, written)
}

/// This was written, the fault is the answer, and nothing is claimed.
fn check_stop(rt: &impl Abort, pushed: Pushed, due: FaultLine, written: &[u8]) -> Result<(), Fail> {
    assert_eq!(rt; pushed.w.bytes(), written, "{}", due.line);
    let stop = Stop::Stream(due.fault);
    assert_eq!(rt; pushed.finish(), (Err(stop), 0), "{}", due.line);
    Ok(())
}

#[test]
fn fields_of_runs(rt: HostRuntime) -> Result<(), Fail> {
    let (alloc, v1) = (rt.alloc(), V1.as_slice());
    let all = [FTYP, MOOV, MOOF, MDAT];
    let line = "fmp4: 12 FieldLength in trun at 428\n";
    let many = [&v1[..440], b"\xff\xff\xff\xff".as_slice(), &v1[444..]];
    let due = fault_at(Rule::FieldLength, b"trun", 428, line);
    check_hostile(&rt, alloc, &many, due, 364)?;
    check_rows(&rt, alloc, &many, 0, &all, "")?;
    // The same without sizes.
    let none = [
        &v1[..V1_MOOF],
        b"\0\0\0\x54moof".as_slice(),
        MFHD,
        b"\0\0\0\x3ctraf",
        &v1[V1_TFHD..V1_TRUN],
        b"\0\0\0\x14trun\0\0\0\x01\xff\xff\xff\xff\0\0\0\x5c",
        &v1[V1_MDAT..],
    ];
    let line = "fmp4: 20 TooManySamples in trun at 428\n";
    let due = fault_at(Rule::TooManySamples, b"trun", 428, line);
    check_hostile(&rt, alloc, &none, due, 364)?;
    let line = "fmp4: 22 RunPlace in trun at 428\n";
    let due = fault_at(Rule::RunPlace, b"trun", 428, line);
    for offset in [b"\x7f\xff\xff\xff", b"\x80\0\0\0"] {
        let far = [&v1[..444], offset.as_slice(), &v1[V1_SIZES..]];
        check_hostile(&rt, alloc, &far, due, 364)?;
        check_rows(&rt, alloc, &far, 0, &all, "")?;
    }
    Ok(())
}

#[test]
fn sizes_of_boxes(rt: HostRuntime) -> Result<(), Fail> {
    let (alloc, v1) = (rt.alloc(), V1.as_slice());
    let line = "fmp4: 25 StreamTooLong in mdat at 460\n";
    let longest = [
        &v1[..V1_MDAT],
        b"\0\0\0\x01mdat\xff\xff\xff\xff\xff\xff\xff\xff".as_slice(),
        &v1[V1_MEDIA..],
    ];
    let due = fault_at(Rule::StreamTooLong, b"mdat", 460, line);
    check_hostile(&rt, alloc, &longest, due, 364)?;
    check_rows(&rt, alloc, &longest, 2, &[FTYP, MOOV, MOOF], line)?;
    // The longest moof that ends with the longest stream, and one that goes a byte further.
    let line = "fmp4: 7 TooLarge in moof at 364\n";
    let large = [
        &v1[..V1_MOOF],
        b"\0\0\0\x01moof\x3f\xff\xff\xff\xff\xff\xfe\x94".as_slice(),
        &v1[V1_MDAT..],
    ];
    let due = fault_at(Rule::TooLarge, b"moof", 364, line);
    check_hostile(&rt, alloc, &large, due, 364)?;
    check_rows(&rt, alloc, &large, 2, &[FTYP, MOOV], line)?;
    let line = "fmp4: 25 StreamTooLong in moof at 364\n";
    let further = [
        &v1[..V1_MOOF],
        b"\0\0\0\x01moof\x3f\xff\xff\xff\xff\xff\xfe\x95".as_slice(),
        &v1[V1_MDAT..],
    ];
    let due = fault_at(Rule::StreamTooLong, b"moof", 364, line);
    check_hostile(&rt, alloc, &further, due, 364)?;
    check_rows(&rt, alloc, &further, 2, &[FTYP, MOOV], line)
}

#[test]
fn trees_of_moofs(rt: HostRuntime) -> Result<(), Fail> {
    let (alloc, v1) = (rt.alloc(), V1.as_slice());
    // Eight trafs, each in the one before, and seven.
    let line = "fmp4: 8 Depth in traf at 428\n";
    let deep = [
        &v1[..V1_MOOF],
        b"\0\0\0\x48moof\0\0\0\x40traf\0\0\0\x38traf\0\0\0\x30traf\0\0\0\x28traf".as_slice(),
        b"\0\0\0\x20traf\0\0\0\x18traf\0\0\0\x10traf\0\0\0\x08traf",
        &v1[V1_MDAT..],
    ];
    let due = fault_at(Rule::Depth, b"traf", 428, line);
    check_hostile(&rt, alloc, &deep, due, 364)?;
    check_rows(&rt, alloc, &deep, 2, &[FTYP, MOOV], line)?;
    let line = "fmp4: 9 Missing in moof at 364\n";
    let seven = [
        &v1[..V1_MOOF],
        b"\0\0\0\x40moof\0\0\0\x38traf\0\0\0\x30traf\0\0\0\x28traf\0\0\0\x20traf".as_slice(),
        b"\0\0\0\x18traf\0\0\0\x10traf\0\0\0\x08traf",
        &v1[V1_MDAT..],
    ];
    let due = fault_at(Rule::Missing, b"moof", 364, line);
    check_hostile(&rt, alloc, &seven, due, 364)
}

#[test]
fn fields_of_other_boxes(rt: HostRuntime) -> Result<(), Fail> {
    let (alloc, v1) = (rt.alloc(), V1.as_slice());
    let all = [FTYP, MOOV, MOOF, MDAT];
    let line = "fmp4: 12 FieldLength in stsd at 292\n";
    let empty = [&v1[..308], b"\0\0\0\0".as_slice(), &v1[312..]];
    let due = fault_at(Rule::FieldLength, b"stsd", 292, line);
    check_hostile(&rt, alloc, &empty, due, 20)?;
    check_rows(&rt, alloc, &empty, 0, &all, "")?;
    let line = "fmp4: 11 Version in tfdt at 412\n";
    let version = [&v1[..420], b"\x02".as_slice(), &v1[421..]];
    let due = fault_at(Rule::Version, b"tfdt", 412, line);
    check_hostile(&rt, alloc, &version, due, 364)?;
    check_rows(&rt, alloc, &version, 0, &all, "")?;
    let line = "fmp4: 10 Twice in tfhd at 412\n";
    let twice = [&v1[..416], b"tfhd".as_slice(), &v1[420..]];
    let due = fault_at(Rule::Twice, b"tfhd", 412, line);
    check_hostile(&rt, alloc, &twice, due, 364)
}

#[test]
fn numbers_and_names_of_rules(rt: HostRuntime) {
    for (rule, number, name) in [
        (Rule::Truncated, 1, "Truncated"),
        (Rule::BadSize, 2, "BadSize"),
        (Rule::NoMoov, 3, "NoMoov"),
        (Rule::SecondMoov, 4, "SecondMoov"),
        (Rule::StrayMdat, 5, "StrayMdat"),
        (Rule::MdatMissing, 6, "MdatMissing"),
        (Rule::TooLarge, 7, "TooLarge"),
        (Rule::Depth, 8, "Depth"),
        (Rule::Missing, 9, "Missing"),
        (Rule::Twice, 10, "Twice"),
        (Rule::Version, 11, "Version"),
        (Rule::FieldLength, 12, "FieldLength"),
        (Rule::SamplesInMoov, 13, "SamplesInMoov"),
        (Rule::Unsupported, 14, "Unsupported"),
        (Rule::BaseNotMoof, 15, "BaseNotMoof"),
        (Rule::EmptyDuration, 16, "EmptyDuration"),
        (Rule::FlagsConflict, 17, "FlagsConflict"),
        (Rule::UnknownTrack, 18, "UnknownTrack"),
        (Rule::EntryIndex, 19, "EntryIndex"),
        (Rule::TooManySamples, 20, "TooManySamples"),
        (Rule::TimeRange, 21, "TimeRange"),
        (Rule::RunPlace, 22, "RunPlace"),
        (Rule::IndexRange, 23, "IndexRange"),
        (Rule::SequenceEnd, 24, "SequenceEnd"),
        (Rule::StreamTooLong, 25, "StreamTooLong"),
    ] {
        assert_eq!(&rt; (rule.number(), rule.name()), (number, name));
    }
}
