//! The samples of a moof, and where its tracks end.

ghost use Rattle.std.specs.Prelude.{◌≡◌, length};

use super::{TFDT, TFHD, TRUN, moof_of, one_traf, push_box};
use mp4_box::is_box;
use mp4_box::vectors::{V1, V1_MDAT, V1_MOOF, V1_MOOV, V2, V3};
use mp4_frag::{Moof, Run, Steps};
use mp4_init::{TrackList, tracks};
use mp4_ledger::Ledger;
use std::alloc::Global;
use std::process::Abort;
use std::test::Fail;

/// A sample as its moof has it.
#[derive(Clone, Copy, Debug, PartialEq, Eq)]
struct Sample {
    track: u32,
    time: u64,
    offset: i64,
    duration: u32,
    size: u32,
    flags: u32,
    entry: u32,
    place: i128,
}

/// A sample of V1's track, with its default duration, flags and entry.
fn of_1(time: u64, size: u32, place: i128) -> Sample {
    Sample {
        track: 1,
        time,
        offset: 0,
        duration: 1024,
        size,
        flags: 0x0200_0000,
        entry: 1,
        place,
    }
}

fn of_2(time: u64, size: u32, place: i128) -> Sample {
    Sample {
        track: 2,
        ..of_1(time, size, place)
    }
}

/// A sample of V1's track without bytes.
fn empty(time: u64, duration: u32, flags: u32) -> Sample {
    Sample {
        duration,
        flags,
        ..of_1(time, 0, 468)
    }
}

/// The first sample of V1's track, without bytes, with this offset of its composition time.
fn offset_by(offset: i64) -> Sample {
    Sample {
        offset,
        ..of_1(0, 0, 468)
    }
}

fn push_run(run: &Run, moof: &[u8], samples: &mut Vec<Sample>) -> Result<(), Fail> {
    let mut time = run.time;
    let mut place = run.place;
    for row in run.rows(moof) {
        samples.push(Sample {
            track: run.track,
            time,
            offset: row.offset,
            duration: row.duration,
            size: row.size,
            flags: row.flags,
            entry: run.entry,
            place,
        })?;
        time = time.saturating_add(u64::from(row.duration));
        place = place.saturating_add(i128::from(row.size));
    }
    if time != run.end || place != run.place.saturating_add(i128::from(run.bytes)) {
        return Err("a run has other sums".into());
    }
    Ok(())
}

/// The samples of a moof that begins at this offset, in listing order; and then the end of each track.
fn read(
    alloc: Global,
    list: &mut TrackList,
    moof: &[u8],
    at: u32,
) -> Result<(Vec<Sample>, Vec<u64>), Fail>
    ensures { length list.new ≡ length list.old }
{
    if moof.len() > 67_108_864 || !is_box(moof) {
        return Err("no box".into());
    }
    let mut steps = Steps { rows: 0 };
    let Ok(read) = Moof::read(moof, u64::from(at), list, &mut steps) else {
        return Err("a fault".into());
    };
    let mut samples = Vec::new(alloc);
    for traf in read.trafs(list) {
        for run in traf.runs() {
            push_run(&run, moof, &mut samples)?;
        }
    }
    // What was read is counted, and no more.
    if steps.rows != u128::from(read.samples()) || samples.len() as u128 != steps.rows {
        return Err("other rows are counted".into());
    }
    read.settle(list, &mut steps);
    let mut ends = Vec::new(alloc);
    for i in 0..list.len() {
        ends.push(list.at(i).next)?;
    }
    Ok((samples, ends))
}

/// A moof with the moov before it, which begins at 20, and what it comes to.
#[derive(Clone, Copy)]
struct Worked<'a> {
    moov: &'a [u8],
    moof: &'a [u8],
    at: u32,
    samples: &'a [Sample],
    ends: &'a [u64],
}

/// The samples and ends of the moof, with the tracks of its moov.
fn outcome(alloc: Global, worked: &Worked<'_>) -> Result<(Vec<Sample>, Vec<u64>), Fail> {
    if worked.moov.len() > 16_777_216 || !is_box(worked.moov) {
        return Err("no box".into());
    }
    let mut ledger = Ledger::new(alloc, 1 << 30);
    match tracks(&mut ledger, worked.moov, 20) {
        Ok(list) => {
            let mut list = list;
            let outcome = read(alloc, &mut list, worked.moof, worked.at);
            list.back(&mut ledger);
            outcome
        }
        Err(_) => Err("no tracks".into()),
    }
}

fn check(rt: &impl Abort, alloc: Global, worked: &Worked<'_>) -> Result<(), Fail> {
    let (samples, ends) = outcome(alloc, worked)?;
    assert_eq!(rt;
        (samples.as_slice(), ends.as_slice()),
        (worked.samples, worked.ends),
        "{:?}",
        worked.moof
    );
    Ok(())
}

/// Checks a moof at 364, of which these are the boxes of its only traf, with V1's track.
fn check_traf(
    rt: &impl Abort,
    alloc: Global,
    boxes: &[&[u8]],
    samples: &[Sample],
    end: u64,
) -> Result<(), Fail> {
    let moof = one_traf(alloc, boxes)?;
    let worked = Worked {
        moov: &V1.as_slice()[V1_MOOV..V1_MOOF],
        moof: moof.as_slice(),
        at: 364,
        samples,
        ends: &[end],
    };
    check(rt, alloc, &worked)
}

#[test]
fn vectors_have_these_samples(rt: HostRuntime) -> Result<(), Fail> {
    let (v1, v2, v3) = (V1.as_slice(), V2.as_slice(), V3.as_slice());
    for worked in [
        Worked {
            moov: &v1[V1_MOOV..V1_MOOF],
            moof: &v1[V1_MOOF..V1_MDAT],
            at: 364,
            samples: &[of_1(0, 5, 468), of_1(1024, 7, 473), of_1(2048, 3, 480)],
            ends: &[3072],
        },
        Worked {
            moov: &v2[20..584],
            moof: &v2[584..748],
            at: 584,
            samples: &[
                of_1(0, 5, 756),
                of_1(1024, 7, 761),
                of_1(2048, 3, 768),
                of_2(0, 4, 771),
                of_2(1024, 4, 775),
            ],
            ends: &[3072, 2048],
        },
        Worked {
            moov: &v3[20..584],
            moof: &v3[584..784],
            at: 584,
            samples: &[
                of_1(0, 5, 792),
                of_1(1024, 7, 801),
                of_2(0, 4, 797),
                of_2(1024, 4, 808),
            ],
            ends: &[2048, 2048],
        },
    ] {
        check(&rt, rt.alloc(), &worked)?;
    }
    Ok(())
}

#[test]
fn defaults_serve(rt: HostRuntime) -> Result<(), Fail> {
    const TICKS_512: &[u8] = b"\0\0\0\x14tfhd\0\x02\0\x08\0\0\0\x01\0\0\x02\0";
    const SIZE_9: &[u8] = b"\0\0\0\x14tfhd\0\x02\0\x10\0\0\0\x01\0\0\0\x09";
    const NO_SYNC: &[u8] = b"\0\0\0\x14tfhd\0\x02\0\x20\0\0\0\x01\x01\x01\0\0";
    const NO_SIZES: &[u8] = b"\0\0\0\x14trun\0\0\0\x01\0\0\0\x02\0\0\0\x68";
    const FIRST_FLAGS: &[u8] = b"\0\0\0\x18trun\0\0\0\x05\0\0\0\x02\0\0\0\x68\x02\0\0\0";
    check_traf(
        &rt,
        rt.alloc(),
        &[TFHD, TFDT, NO_SIZES],
        &[of_1(0, 0, 468), of_1(1024, 0, 468)],
        2048,
    )?;
    check_traf(
        &rt,
        rt.alloc(),
        &[TICKS_512, TFDT, NO_SIZES],
        &[empty(0, 512, 0x0200_0000), empty(512, 512, 0x0200_0000)],
        1024,
    )?;
    check_traf(
        &rt,
        rt.alloc(),
        &[SIZE_9, TFDT, NO_SIZES],
        &[of_1(0, 9, 468), of_1(1024, 9, 477)],
        2048,
    )?;
    check_traf(
        &rt,
        rt.alloc(),
        &[NO_SYNC, TFDT, NO_SIZES],
        &[empty(0, 1024, 0x0101_0000), empty(1024, 1024, 0x0101_0000)],
        2048,
    )?;
    // first_sample_flags are those of the first sample alone.
    check_traf(
        &rt,
        rt.alloc(),
        &[NO_SYNC, TFDT, FIRST_FLAGS],
        &[of_1(0, 0, 468), empty(1024, 1024, 0x0101_0000)],
        2048,
    )?;
    Ok(())
}

#[test]
fn composition_times_have_offsets(rt: HostRuntime) -> Result<(), Fail> {
    const UNSIGNED: &[u8] = b"\0\0\0\x18trun\0\0\x08\x01\0\0\0\x01\0\0\0\x68\xff\xff\xff\xff";
    const SIGNED: &[u8] = b"\0\0\0\x18trun\x01\0\x08\x01\0\0\0\x01\0\0\0\x68\xff\xff\xff\xff";
    const LEAST: &[u8] = b"\0\0\0\x18trun\x01\0\x08\x01\0\0\0\x01\0\0\0\x68\x80\0\0\0";
    check_traf(
        &rt,
        rt.alloc(),
        &[TFHD, TFDT, UNSIGNED],
        &[offset_by(4_294_967_295)],
        1024,
    )?;
    check_traf(
        &rt,
        rt.alloc(),
        &[TFHD, TFDT, SIGNED],
        &[offset_by(-1)],
        1024,
    )?;
    check_traf(
        &rt,
        rt.alloc(),
        &[TFHD, TFDT, LEAST],
        &[offset_by(-2_147_483_648)],
        1024,
    )?;
    Ok(())
}

#[test]
fn runs_begin_where_they_say_or_follow(rt: HostRuntime) -> Result<(), Fail> {
    // Samples of 2 bytes each: a run without data_offset, one that has it, and one that has no samples.
    const SIZE_2: &[u8] = b"\0\0\0\x14tfhd\0\x02\0\x10\0\0\0\x01\0\0\0\x02";
    const FOLLOWS: &[u8] = b"\0\0\0\x10trun\0\0\0\0\0\0\0\x01";
    const AT_200: &[u8] = b"\0\0\0\x14trun\0\0\0\x01\0\0\0\x01\0\0\0\xc8";
    const NONE_AT_100: &[u8] = b"\0\0\0\x14trun\0\0\0\x01\0\0\0\0\0\0\0\x64";
    const LEAST: &[u8] = b"\0\0\0\x14trun\0\0\0\x01\0\0\0\x01\x80\0\0\0";
    const MOST: &[u8] = b"\0\0\0\x14trun\0\0\0\x01\0\0\0\x01\x7f\xff\xff\xff";
    check_traf(
        &rt,
        rt.alloc(),
        &[SIZE_2, FOLLOWS],
        &[of_1(0, 2, 364)],
        1024,
    )?;
    check_traf(
        &rt,
        rt.alloc(),
        &[SIZE_2, FOLLOWS, FOLLOWS],
        &[of_1(0, 2, 364), of_1(1024, 2, 366)],
        2048,
    )?;
    check_traf(
        &rt,
        rt.alloc(),
        &[SIZE_2, AT_200, FOLLOWS],
        &[of_1(0, 2, 564), of_1(1024, 2, 566)],
        2048,
    )?;
    check_traf(
        &rt,
        rt.alloc(),
        &[SIZE_2, NONE_AT_100, FOLLOWS],
        &[of_1(0, 2, 464)],
        1024,
    )?;
    check_traf(
        &rt,
        rt.alloc(),
        &[SIZE_2, AT_200, NONE_AT_100, FOLLOWS],
        &[of_1(0, 2, 564), of_1(1024, 2, 464)],
        2048,
    )?;
    check_traf(
        &rt,
        rt.alloc(),
        &[SIZE_2, AT_200, NONE_AT_100],
        &[of_1(0, 2, 564)],
        1024,
    )?;
    check_traf(
        &rt,
        rt.alloc(),
        &[SIZE_2, LEAST],
        &[of_1(0, 2, 364 - 2_147_483_648)],
        1024,
    )?;
    check_traf(
        &rt,
        rt.alloc(),
        &[SIZE_2, MOST],
        &[of_1(0, 2, 364 + 2_147_483_647)],
        1024,
    )?;
    Ok(())
}

#[test]
fn times_begin_with_the_tfdt_or_follow(rt: HostRuntime) -> Result<(), Fail> {
    const AT_9000: &[u8] = b"\0\0\0\x10tfdt\0\0\0\0\0\0\x23\x28";
    const LAST: &[u8] = b"\0\0\0\x14tfdt\x01\0\0\0\xff\xff\xff\xff\xff\xff\xf3\xff";
    const ONE: &[u8] = b"\0\0\0\x14trun\0\0\0\x01\0\0\0\x01\0\0\0\x68";
    const THREE: &[u8] = b"\0\0\0\x14trun\0\0\0\x01\0\0\0\x03\0\0\0\x68";
    let late = 18_446_744_073_709_548_543;
    check_traf(&rt, rt.alloc(), &[TFHD, ONE], &[of_1(0, 0, 468)], 1024)?;
    check_traf(
        &rt,
        rt.alloc(),
        &[TFHD, AT_9000, ONE],
        &[of_1(9000, 0, 468)],
        10_024,
    )?;
    // The last decode time is that of V1 with the latest base time that there may be.
    check_traf(
        &rt,
        rt.alloc(),
        &[TFHD, LAST, THREE],
        &[
            of_1(late, 0, 468),
            of_1(late + 1024, 0, 468),
            of_1(18_446_744_073_709_550_591, 0, 468),
        ],
        18_446_744_073_709_551_615,
    )?;
    // Two trafs of one track, with a tfdt each.
    let mut trafs = Vec::new(rt.alloc());
    push_box(&mut trafs, b"traf", &[TFHD, AT_9000, ONE])?;
    push_box(&mut trafs, b"traf", &[TFHD, TFDT, TRUN])?;
    let moof = moof_of(rt.alloc(), &[trafs.as_slice()])?;
    let worked = Worked {
        moov: &V1.as_slice()[V1_MOOV..V1_MOOF],
        moof: moof.as_slice(),
        at: 364,
        samples: &[
            of_1(9000, 0, 468),
            of_1(0, 5, 468),
            of_1(1024, 7, 473),
            of_1(2048, 3, 480),
        ],
        ends: &[3072],
    };
    check(&rt, rt.alloc(), &worked)
}

#[test]
fn a_fragment_follows(rt: HostRuntime) -> Result<(), Fail> {
    // V1's moof without its tfdt, after another that ended at 3,072.
    let moof = one_traf(rt.alloc(), &[TFHD, TRUN])?;
    let mut ledger = Ledger::new(rt.alloc(), 1 << 30);
    let moov = &V1.as_slice()[V1_MOOV..V1_MOOF];
    if !is_box(moov) {
        return Err("no box".into());
    }
    let Ok(list) = tracks(&mut ledger, moov, 20) else {
        return Err("no tracks".into());
    };
    let mut list = list;
    if !list.is_empty() {
        list.set_next(0, 3072);
    }
    let outcome = read(rt.alloc(), &mut list, moof.as_slice(), 483);
    list.back(&mut ledger);
    let (samples, ends) = outcome?;
    let first = [of_1(3072, 5, 587), of_1(4096, 7, 592), of_1(5120, 3, 599)];
    assert_eq!(rt; samples.as_slice(), &first[..]);
    assert_eq!(rt; ends.as_slice(), &[6144][..]);
    Ok(())
}
