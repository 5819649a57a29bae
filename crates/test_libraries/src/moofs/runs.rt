//! The first and the last run of a moof, the run after the first, and a run that has no other.

ghost use Rattle.std.specs.Prelude.{◌≡◌, ◌<◌, ◌+◌, ◌*◌, ◌^◌, ◌≤◌, length};
ghost use Rattle.mp4_frag.specs.Moofs.{IsRead};

use mp4_box::is_box;
use mp4_box::vectors::{V1, V2, V3};
use mp4_frag::{Moof, Payload, Run, RunOfMoof, SingleRun, Steps};
use mp4_init::{TrackList, tracks};
use mp4_ledger::Ledger;
use std::alloc::Global;
use std::test::Fail;

/// A run as far as it is compared.
#[derive(Clone, Copy, Debug, PartialEq, Eq)]
struct Outcome {
    track: u32,
    time: u64,
    end: u64,
    place: i128,
    bytes: u64,
    offset: u64,
    /// Its count, and the count of the next run; 0 where there is none.
    counts: (u32, u32),
    /// The flags of its first row and of its last, and their sizes.
    flags: (u32, u32),
    sizes: (u32, u32),
}

const NONE: Outcome = Outcome {
    track: 0,
    time: 0,
    end: 0,
    place: 0,
    bytes: 0,
    offset: 0,
    counts: (0, 0),
    flags: (0, 0),
    sizes: (0, 0),
};

/// A run, and how many samples the next has.
fn outcome_of_run(held: &[u8], run: &Run, next: Option<Run>) -> Outcome {
    let mut outcome = NONE;
    outcome.track = run.track;
    outcome.time = run.time;
    outcome.end = run.end;
    outcome.place = run.place;
    outcome.bytes = run.bytes;
    outcome.offset = run.offset;
    outcome.counts = (run.count, next.map_or(0, |next| next.count));
    let mut rows = run.rows(held);
    if let Some(first) = rows.next() {
        outcome.flags = (first.flags, first.flags);
        outcome.sizes = (first.size, first.size);
    }
    for row in rows {
        outcome.flags.1 = row.flags;
        outcome.sizes.1 = row.size;
    }
    outcome
}

/// The first run of a moof whose first traf has one, and the last run of its last traf.
fn outcome_of_runs<'a>(moof: &Moof<'a>, held: &[u8], list: &'a TrackList) -> (Outcome, Outcome)
    requires { IsRead moof.now list.now }
{
    let mut first = NONE;
    let mut trafs = moof.trafs(list);
    if let Some(traf) = trafs.next() {
        let mut runs = traf.runs();
        if let Some(run) = runs.next() {
            first = outcome_of_run(held, &run, run.after(moof, list));
        }
    }
    let mut last = first;
    for traf in moof.trafs(list) {
        for run in traf.runs() {
            last = outcome_of_run(held, &run, None);
        }
    }
    (first, last)
}

/// The first run and the last of the moof of a stream, which is its bytes from one offset to another. Its moov is
/// before it.
fn first_and_last(
    alloc: Global,
    stream: &[u8],
    moof: (usize, usize),
) -> Option<(Outcome, Outcome)> {
    let (begin, end) = moof;
    if stream.len() > 1000 || begin < 20 || begin > end || end > stream.len() {
        return None;
    }
    let (moov, held) = (&stream[20..begin], &stream[begin..end]);
    if !is_box(moov) || !is_box(held) {
        return None;
    }
    let mut ledger = Ledger::new(alloc, 1000);
    let list = tracks(&mut ledger, moov, 20).ok()?;
    let mut steps = Steps { rows: 0 };
    let outcome = match Moof::read(held, begin as u64, &list, &mut steps) {
        Ok(moof) => Some(outcome_of_runs(&moof, held, &list)),
        Err(_) => None,
    };
    list.back(&mut ledger);
    outcome
}

/// A run that has no other.
#[derive(Clone, Copy, Debug, PartialEq, Eq)]
struct Single {
    run: Outcome,
    /// Whether it may lie where it does in the payload of its mdat.
    is_placed: bool,
    /// Where its track ends after it.
    next: u64,
    /// How many rows were counted.
    rows: u128,
}

/// The run of the moof of a stream, where it has no other. The payload of its mdat begins 8 bytes after it, and ends at
/// an offset.
fn single_of(
    alloc: Global,
    stream: &[u8],
    (begin, end): (usize, usize),
    payload_end: u64,
) -> Option<Single> {
    if stream.len() > 1000 || begin < 20 || begin > end || end > stream.len() {
        return None;
    }
    let (moov, held) = (&stream[20..begin], &stream[begin..end]);
    if !is_box(moov) || !is_box(held) {
        return None;
    }
    let mut ledger = Ledger::new(alloc, 1000);
    let mut list = tracks(&mut ledger, moov, 20).ok()?;
    let mut steps = Steps { rows: 0 };
    let mut single = None;
    if let Ok(Some(found)) = SingleRun::read(held, begin as u64, &list, &mut steps) {
        let payload = Payload {
            start: end as u64 + 8,
            end: Some(payload_end),
        };
        if found.track < list.len() {
            found.settle(&mut list);
            single = Some(Single {
                run: outcome_of_run(held, &found.run, None),
                is_placed: found.places(payload).is_ok(),
                next: list.at(found.track).next,
                rows: steps.rows,
            });
        }
    }
    list.back(&mut ledger);
    single
}

/// A run of V1's common flags: its track, time and end; its place, bytes and trun; its count, and that of the next run;
/// the sizes of its first sample and of its last.
fn common_run(
    track: u32,
    (time, end): (u64, u64),
    (place, bytes, offset): (i128, u64, u64),
    counts: (u32, u32),
    sizes: (u32, u32),
) -> Outcome {
    Outcome {
        track,
        time,
        end,
        place,
        bytes,
        offset,
        counts,
        flags: (0x02000000, 0x02000000),
        sizes,
    }
}

#[test]
fn one_run(rt: HostRuntime) {
    let run = common_run(1, (0, 3072), (468, 15, 428), (3, 0), (5, 3));
    assert_eq!(rt;
        first_and_last(rt.alloc(), V1.as_slice(), (364, 460)),
        Some((run, run))
    );
}

#[test]
fn two_trafs(rt: HostRuntime) {
    let first = common_run(1, (0, 3072), (756, 15, 648), (3, 2), (5, 3));
    let last = common_run(2, (0, 2048), (771, 8, 720), (2, 0), (4, 4));
    assert_eq!(rt;
        first_and_last(rt.alloc(), V2.as_slice(), (584, 748)),
        Some((first, last))
    );
}

#[test]
fn two_runs_in_a_traf(rt: HostRuntime) {
    let first = common_run(1, (0, 1024), (792, 5, 648), (1, 1), (5, 5));
    let last = common_run(2, (1024, 2048), (808, 4, 760), (1, 0), (4, 4));
    assert_eq!(rt;
        first_and_last(rt.alloc(), V3.as_slice(), (584, 784)),
        Some((first, last))
    );
}

#[test]
fn a_run_that_has_no_other(rt: HostRuntime) {
    let stream = V1.as_slice();
    let mut single = Single {
        run: common_run(1, (0, 3072), (468, 15, 428), (3, 0), (5, 3)),
        is_placed: true,
        next: 3072,
        rows: 6,
    };
    assert_eq!(rt;
        single_of(rt.alloc(), stream, (364, 460), 483),
        Some(single)
    );
    single.is_placed = false;
    assert_eq!(rt;
        single_of(rt.alloc(), stream, (364, 460), 482),
        Some(single)
    );
}

#[test]
fn runs_that_have_others(rt: HostRuntime) {
    assert_eq!(rt; single_of(rt.alloc(), V2.as_slice(), (584, 748), 779), None);
    assert_eq!(rt; single_of(rt.alloc(), V3.as_slice(), (584, 784), 812), None);
}
