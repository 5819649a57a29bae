//! What is at fault with a moov.

use super::{Outcome, fault, grown, outcome};
use mp4_box::Rule;
use mp4_box::vectors::{
    V1, V1_MDHD, V1_MDIA, V1_MINF, V1_MOOF, V1_MOOV, V1_MVEX, V1_STSD, V1_TKHD, V1_TREX, V2,
};
use std::alloc::Global;
use std::process::Abort;
use std::test::Fail;

/// A moov that begins at 20, with other bytes at these offsets.
fn changed(alloc: Global, moov: &[u8], changes: &[(usize, u8)]) -> Result<Vec<u8>, Fail> {
    let mut bytes = moov.to_vec(alloc)?;
    for (at, byte) in changes {
        let at = *at;
        if at < 20 || at - 20 >= bytes.len() {
            return Err("no such byte".into());
        }
        bytes.as_mut_slice()[at - 20] = *byte;
    }
    Ok(bytes)
}

/// Result of reading a moov with each of these changes.
fn check_changed(
    rt: &impl Abort,
    alloc: Global,
    moov: &[u8],
    rows: &[(&[(usize, u8)], Outcome)],
) -> Result<(), Fail> {
    for (changes, expected) in rows {
        let bytes = changed(alloc, moov, changes)?;
        assert_eq!(rt; outcome(alloc, bytes.as_slice()), *expected, "{changes:?}");
    }
    Ok(())
}

/// Result of reading V1's moov with more bytes at an offset, in boxes that grow by them.
fn check_more(
    rt: &impl Abort,
    alloc: Global,
    rows: &[(usize, &[u8], &[usize], Outcome)],
) -> Result<(), Fail> {
    for (at, more, parents, expected) in rows {
        let moov = grown(alloc, &V1.as_slice()[V1_MOOV..V1_MOOF], *at, more, parents)?;
        assert_eq!(rt;
            outcome(alloc, moov.as_slice()),
            *expected,
            "{more:?} at {at}"
        );
    }
    Ok(())
}

/// The boxes round an stbl.
const TABLES: &[usize] = &[20, 136, 236, 276, 284];

#[test]
fn boxes_are_missing(rt: HostRuntime) -> Result<(), Fail> {
    // Each is missing in its parent, with one letter of its type changed. Without a trex the track is not known.
    // A version that isn't known comes after what is missing, wherever that is.
    check_changed(
        &rt,
        rt.alloc(),
        &V1.as_slice()[V1_MOOV..V1_MOOF],
        &[
            (&[(328, 0)], fault(Rule::Missing, b"moov", 20)),
            (&[(328, 0), (152, 2)], fault(Rule::Missing, b"moov", 20)),
            (&[(148, 0)], fault(Rule::Missing, b"trak", 136)),
            (&[(240, 0)], fault(Rule::Missing, b"trak", 136)),
            (&[(248, 0)], fault(Rule::Missing, b"mdia", 236)),
            (&[(280, 0)], fault(Rule::Missing, b"mdia", 236)),
            (&[(288, 0)], fault(Rule::Missing, b"minf", 276)),
            (&[(296, 0)], fault(Rule::Missing, b"stbl", 284)),
            (&[(336, 0)], fault(Rule::UnknownTrack, b"tkhd", 144)),
        ],
    )
}

#[test]
fn boxes_occur_twice(rt: HostRuntime) -> Result<(), Fail> {
    let v1 = V1.as_slice();
    // A tkhd in another place is checked by no rule but those of the tree.
    check_more(
        &rt,
        rt.alloc(),
        &[
            (
                364,
                &v1[V1_MVEX..V1_MOOF],
                &[20],
                fault(Rule::Twice, b"mvex", 364),
            ),
            (
                236,
                &v1[V1_TKHD..V1_MDIA],
                &[20, 136],
                fault(Rule::Twice, b"tkhd", 236),
            ),
            (
                276,
                &v1[V1_MDHD..V1_MINF],
                &[20, 136, 236],
                fault(Rule::Twice, b"mdhd", 276),
            ),
            (
                324,
                &v1[V1_MINF..V1_MVEX],
                &[20, 136, 236],
                fault(Rule::Twice, b"minf", 324),
            ),
            (
                324,
                &v1[V1_STSD..V1_MVEX],
                TABLES,
                fault(Rule::Twice, b"stsd", 324),
            ),
            (324, b"\0\0\0\x08tkhd", TABLES, Some(Ok(1))),
        ],
    )
}

#[test]
fn versions(rt: HostRuntime) -> Result<(), Fail> {
    // Version 1 is longer. The versions of an stsd and of a trex aren't read.
    check_changed(
        &rt,
        rt.alloc(),
        &V1.as_slice()[V1_MOOV..V1_MOOF],
        &[
            (&[(152, 2)], fault(Rule::Version, b"tkhd", 144)),
            (&[(252, 255)], fault(Rule::Version, b"mdhd", 244)),
            (&[(152, 1)], fault(Rule::FieldLength, b"tkhd", 144)),
            (&[(300, 2)], Some(Ok(1))),
            (&[(340, 2)], Some(Ok(1))),
        ],
    )?;
    // Of two boxes that break one rule the one that begins first is named; a bad size comes before both.
    check_changed(
        &rt,
        rt.alloc(),
        &V2.as_slice()[20..584],
        &[
            (&[(252, 2), (340, 2)], fault(Rule::Version, b"mdhd", 244)),
            (
                &[(252, 2), (340, 2), (555, 33)],
                fault(Rule::BadSize, b"trex", 552),
            ),
        ],
    )
}

/// A table of samples, with so many bytes of payload, of which this one is 1 and the others are 0.
fn table(alloc: Global, kind: &[u8; 4], len: u8, one: Option<u8>) -> Result<Vec<u8>, Fail> {
    let mut bytes = Vec::new(alloc);
    bytes.extend_from_slice(&[0, 0, 0, len.saturating_add(8)])?;
    bytes.extend_from_slice(kind)?;
    for i in 0..len {
        bytes.push(if one == Some(i) { 1 } else { 0 })?;
    }
    Ok(bytes)
}

/// The tables of samples, and how long their payloads are at least. Their counts are at the end of that.
const SAMPLE_TABLES: [(&[u8; 4], u8); 6] = [
    (b"stts", 8),
    (b"stsc", 8),
    (b"stco", 8),
    (b"co64", 8),
    (b"stsz", 12),
    (b"stz2", 12),
];

#[test]
fn lengths(rt: HostRuntime) -> Result<(), Fail> {
    let alloc = rt.alloc();
    check_more(
        &rt,
        alloc,
        &[(
            364,
            b"\0",
            &[20, 324, 332],
            fault(Rule::FieldLength, b"trex", 332),
        )],
    )?;
    for (kind, len) in SAMPLE_TABLES {
        let short = table(alloc, kind, len.saturating_sub(1), None)?;
        let fault = fault(Rule::FieldLength, kind, 324);
        check_more(&rt, alloc, &[(324, short.as_slice(), TABLES, fault)])?;
    }
    Ok(())
}

#[test]
fn sample_entries(rt: HostRuntime) -> Result<(), Fail> {
    let all = &[(304, 255), (305, 255), (306, 255), (307, 255)];
    // More are counted than there are, or fewer. Then the entry has no room for its header, runs to the end, passes
    // the end, or has a payload of seven bytes.
    check_changed(
        &rt,
        rt.alloc(),
        &V1.as_slice()[V1_MOOV..V1_MOOF],
        &[
            (&[(307, 2)], fault(Rule::FieldLength, b"stsd", 292)),
            (all, fault(Rule::FieldLength, b"stsd", 292)),
            (&[(307, 0)], Some(Ok(1))),
            (&[(311, 7)], fault(Rule::FieldLength, b"stsd", 292)),
            (&[(311, 0)], fault(Rule::FieldLength, b"stsd", 292)),
            (&[(311, 17)], fault(Rule::FieldLength, b"stsd", 292)),
            (&[(311, 15)], fault(Rule::FieldLength, b"stsd", 292)),
        ],
    )
}

#[test]
fn tables_of_samples(rt: HostRuntime) -> Result<(), Fail> {
    let alloc = rt.alloc();
    for (kind, len) in SAMPLE_TABLES {
        let none = table(alloc, kind, len, None)?;
        let one = table(alloc, kind, len, len.checked_sub(1))?;
        let fault = fault(Rule::SamplesInMoov, kind, 324);
        check_more(
            &rt,
            alloc,
            &[
                (324, none.as_slice(), TABLES, Some(Ok(1))),
                (324, one.as_slice(), TABLES, fault),
            ],
        )?;
    }
    // The size of all samples, or of a field, is no count.
    for kind in [b"stsz", b"stz2"] {
        let sized = table(alloc, kind, 12, Some(7))?;
        check_more(&rt, alloc, &[(324, sized.as_slice(), TABLES, Some(Ok(1)))])?;
    }
    Ok(())
}

#[test]
fn track_ids(rt: HostRuntime) -> Result<(), Fail> {
    let v1 = V1.as_slice();
    // Values are checked after the boxes.
    check_changed(
        &rt,
        rt.alloc(),
        &v1[V1_MOOV..V1_MOOF],
        &[
            (&[(347, 2)], fault(Rule::UnknownTrack, b"tkhd", 144)),
            (
                &[(347, 2), (307, 2)],
                fault(Rule::FieldLength, b"stsd", 292),
            ),
        ],
    )?;
    check_changed(
        &rt,
        rt.alloc(),
        &V2.as_slice()[20..584],
        &[(&[(355, 1)], fault(Rule::UnknownTrack, b"tkhd", 332))],
    )?;
    let other = b"\0\0\0\x20trex\0\0\0\0\0\0\0\x09\0\0\0\x01\0\0\0\0\0\0\0\0\0\0\0\0";
    check_more(
        &rt,
        rt.alloc(),
        &[
            (
                364,
                &v1[V1_TREX..V1_MOOF],
                &[20, 324],
                fault(Rule::UnknownTrack, b"tkhd", 144),
            ),
            (364, other, &[20, 324], Some(Ok(1))),
        ],
    )
}
