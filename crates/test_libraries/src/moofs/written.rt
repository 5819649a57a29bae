//! What is written for the pieces of the first run of a moof.

ghost use Rattle.std.specs.Prelude.{◌≡◌, ◌+◌, ◌^◌, ◌≤◌, true, length, Some, IfSome};
ghost use Rattle.mp4_box.specs.Headers.{IsWhole};
ghost use Rattle.mp4_box.specs.Trees.{first_of};
ghost use Rattle.mp4_frag.specs.Moofs.{IsRead};
ghost use Rattle.mp4_traf.specs.Runs.{runs_of};
ghost use Rattle.mp4_pieces.specs.Fits.{FitsIndex};
ghost use Rattle.mp4_pieces.specs.Pieces.{pieces_of};
ghost use Rattle.mp4_traf.specs.Ranges.{AreRunsOf, IsRunOf};

use super::{TFDT, TFHD, TRUN, one_traf, push_box};
use mp4_box::is_box;
use mp4_box::vectors::{V1, V1_MOOF, V1_MOOV};
use mp4_cut::{
    Cut, Pieces, WriteFault, group_len, put_moof, room, write_index, write_mdat_header, write_moof,
};
use mp4_ends::ends::ToVec;
use mp4_ends::{Failed, Sink};
use mp4_frag::{Moof, Run, Steps, Traf};
use mp4_init::{TrackList, tracks};
use mp4_ledger::Ledger;
use mp4_machine::{BLOCK_BYTES, Block};
use std::alloc::Global;
use std::process::Abort;
use std::test::Fail;

/// The timescale of V1's track.
const TIMESCALE: u32 = 48_000;

/// The first run of a traf, if it has one.
fn first_of(traf: &Traf<'_>, held: &[u8]) -> Option<Run>
    requires { AreRunsOf held.now (runs_of traf.now) }
    ensures run { IfSome result (λ run. IsRunOf held.now run) }
    ensures first { IfSome result (λ run. first_of (runs_of traf.now) ≡ Some run) }
{
    traf.runs().next()
}

/// The first run of the first traf, if it has one and all pieces have room for their numbers.
fn first_run<'a>(moof: &Moof<'a>, held: &[u8], list: &'a TrackList, cut: &Cut) -> Option<Run>
    requires held { held.now ≡ moof.now.bytes }
    requires whole { IsWhole held.now }
    requires near { moof.now.offset + length held.now ≤ 2 ^ 62 }
    requires read { IsRead moof.now list.now }
    ensures run { IfSome result (λ run. IsRunOf held.now run) }
    ensures index { IfSome result (λ run. cut.now.index ≡ true →
        FitsIndex (pieces_of cut.now held.now run)) }
{
    let mut steps = Steps { rows: 0 };
    let Ok(_) = room(moof, list, cut, 1, &mut steps) else {
        return None;
    };
    let traf = moof.trafs(list).next()?;
    first_of(&traf, held)
}

/// Writes the index of the first group.
fn write_first_index<W: Sink>(
    run: &Run,
    held: &[u8],
    cut: &Cut,
    w: &mut W,
) -> Result<(), WriteFault>
    requires run { IsRunOf held.now run.now }
    requires index { FitsIndex (pieces_of cut.now held.now run.now) }
{
    let Some(first) = Pieces::of(run, held, cut).next() else {
        return Ok(());
    };
    let count = group_len(Pieces::of(run, held, cut));
    write_index(run, held, &first, count, TIMESCALE, cut, w)
}

/// Writes the index, where it is asked for, and for each piece its moof and the header of its mdat,
/// with the numbers from 1 on.
fn write_all<W: Sink>(run: &Run, held: &[u8], cut: &Cut, w: &mut W) -> Result<(), WriteFault>
    requires run { IsRunOf held.now run.now }
    requires index { cut.now.index ≡ true → FitsIndex (pieces_of cut.now held.now run.now) }
{
    if cut.has_index() {
        write_first_index(run, held, cut, w)?;
    }
    let mut number: u32 = 0;
    for piece in Pieces::of(run, held, cut) {
        number = number.saturating_add(1);
        write_moof(&piece, run, held, number, w)?;
        write_mdat_header(piece.plain.bytes.min(1 << 62), w)?;
    }
    Ok(())
}

/// What is written into so much room for the first run of a moof, and whether the writer failed.
fn written_by(
    alloc: Global,
    list: &TrackList,
    moof: &[u8],
    cut: &Cut,
    room: usize,
) -> Result<(Vec<u8>, bool), Fail> {
    if moof.len() > 67_108_864 || !is_box(moof) {
        return Err("no box".into());
    }
    let mut steps = Steps { rows: 0 };
    let Ok(read) = Moof::read(moof, 364, list, &mut steps) else {
        return Err("a fault".into());
    };
    let Some(run) = first_run(&read, moof, list, cut) else {
        return Err("no run".into());
    };
    let mut w = ToVec::new(alloc, room, 1 << 20, true)?;
    let failed = write_all(&run, moof, cut, &mut w).is_err();
    Ok((w.bytes().to_vec(alloc)?, failed))
}

/// The same, with the tracks of V1 and pieces of so many samples.
fn written(
    alloc: Global,
    moof: &[u8],
    samples: u32,
    index: bool,
    room: usize,
) -> Result<(Vec<u8>, bool), Fail> {
    let moov = &V1.as_slice()[V1_MOOV..V1_MOOF];
    if !is_box(moov) {
        return Err("no box".into());
    }
    let Some(cut) = Cut::new(samples, None, index) else {
        return Err("no such cut".into());
    };
    let mut ledger = Ledger::new(alloc, 1000);
    match tracks(&mut ledger, moov, 20) {
        Ok(list) => {
            let outcome = written_by(alloc, &list, moof, &cut, room);
            list.back(&mut ledger);
            outcome
        }
        Err(_) => Err("no tracks".into()),
    }
}

/// The index of V1 cut by two samples.
const V1_INDEX: &[u8] = b"\0\0\0\x40sidx\x01\0\0\0\0\0\0\x01\0\0\xbb\x80\
    \0\0\0\0\0\0\0\0\0\0\0\0\0\0\0\0\0\0\0\x02\
    \0\0\0\x90\0\0\x08\0\0\0\0\0\
    \0\0\0\x77\0\0\x04\0\0\0\0\0";

/// The moofs of V1 cut by two samples, and the headers of their mdats.
const V1_BY_TWO: &[u8] = b"\0\0\0\x7cmoof\
    \0\0\0\x10mfhd\0\0\0\0\0\0\0\x01\
    \0\0\0\x64traf\
    \0\0\0\x14tfhd\0\x02\0\x02\0\0\0\x01\0\0\0\x01\
    \0\0\0\x14tfdt\x01\0\0\0\0\0\0\0\0\0\0\0\
    \0\0\0\x34trun\0\0\x0f\x01\0\0\0\x02\0\0\0\x84\
    \0\0\x04\0\0\0\0\x05\x02\0\0\0\0\0\0\0\
    \0\0\x04\0\0\0\0\x07\x02\0\0\0\0\0\0\0\
    \0\0\0\x14mdat\
    \0\0\0\x6cmoof\
    \0\0\0\x10mfhd\0\0\0\0\0\0\0\x02\
    \0\0\0\x54traf\
    \0\0\0\x14tfhd\0\x02\0\x02\0\0\0\x01\0\0\0\x01\
    \0\0\0\x14tfdt\x01\0\0\0\0\0\0\0\0\0\x08\0\
    \0\0\0\x24trun\0\0\x0f\x01\0\0\0\x01\0\0\0\x74\
    \0\0\x04\0\0\0\0\x03\x02\0\0\0\0\0\0\0\
    \0\0\0\x0bmdat";

#[test]
fn v1_is_written(rt: HostRuntime) -> Result<(), Fail> {
    let alloc = rt.alloc();
    let moof = one_traf(alloc, &[TFHD, TFDT, TRUN])?;
    let mut all = V1_INDEX.to_vec(alloc)?;
    all.extend_from_slice(V1_BY_TWO)?;
    for (index, expected) in [(false, V1_BY_TWO), (true, all.as_slice())] {
        let (bytes, failed) = written(alloc, moof.as_slice(), 2, index, 4096)?;
        assert_eq!(rt; bytes.as_slice(), expected);
        assert_eq!(rt; failed, false);
    }
    // A writer that fails has taken the first bytes.
    for room in 0..all.len() {
        let (bytes, failed) = written(alloc, moof.as_slice(), 2, true, room)?;
        if bytes.as_slice() != &all.as_slice()[..room] || !failed {
            return Err("other bytes before a failure".into());
        }
    }
    Ok(())
}

/// Checks four bytes of the first moof, and of as many as follow one another so many bytes apart.
fn check_fields(
    rt: &impl Abort,
    alloc: Global,
    boxes: &[&[u8]],
    samples: u32,
    fields: &[(usize, &[u8; 4])],
) -> Result<(), Fail> {
    let moof = one_traf(alloc, boxes)?;
    let (bytes, _) = written(alloc, moof.as_slice(), samples, false, 4096)?;
    for (at, expected) in fields {
        let (_, rest) = bytes.as_slice().split_at((*at).min(bytes.len()));
        let (found, _) = rest.split_at(rest.len().min(4));
        assert_eq!(rt; found, expected.as_slice(), "{at}");
    }
    Ok(())
}

#[test]
fn data_follows_its_header(rt: HostRuntime) -> Result<(), Fail> {
    const LONG: &[u8] =
        b"\0\0\0\x20trun\0\0\x02\x01\0\0\0\x03\0\0\0\x68\x80\0\0\0\x7f\xff\xff\xf8\0\0\0\0";
    const SHORT: &[u8] =
        b"\0\0\0\x20trun\0\0\x02\x01\0\0\0\x03\0\0\0\x68\x80\0\0\0\x7f\xff\xff\xf7\0\0\0\0";
    check_fields(
        &rt,
        rt.alloc(),
        &[TFHD, TFDT, LONG],
        3,
        &[
            (88, b"\0\0\0\x9c"),
            (140, b"\0\0\0\x01"),
            (144, b"mdat"),
            (148, b"\0\0\0\x01"),
            (152, b"\0\0\0\x08"),
        ],
    )?;
    check_fields(
        &rt,
        rt.alloc(),
        &[TFHD, TFDT, SHORT],
        3,
        &[
            (88, b"\0\0\0\x94"),
            (140, b"\xff\xff\xff\xff"),
            (144, b"mdat"),
        ],
    )
}

#[test]
fn fields_of_samples_are_their_own(rt: HostRuntime) -> Result<(), Fail> {
    const NO_SYNC: &[u8] = b"\0\0\0\x14tfhd\0\x02\0\x20\0\0\0\x01\x01\x01\0\0";
    // first_sample_flags, and the sizes.
    const FIRST: &[u8] = b"\0\0\0\x24trun\0\0\x02\x05\0\0\0\x03\0\0\0\x68\x02\0\0\0\
        \0\0\0\x05\0\0\0\x07\0\0\0\x03";
    // Version 1: the sizes, and offsets of -512, 0 and 512.
    const SIGNED: &[u8] = b"\0\0\0\x2ctrun\x01\0\x0a\x01\0\0\0\x03\0\0\0\x68\
        \0\0\0\x05\xff\xff\xfe\0\0\0\0\x07\0\0\0\0\0\0\0\x03\0\0\x02\0";
    // Version 0: an offset with the highest bit.
    const LARGE: &[u8] = b"\0\0\0\x18trun\0\0\x08\x01\0\0\0\x01\0\0\0\x68\xff\xff\xfe\0";
    check_fields(
        &rt,
        rt.alloc(),
        &[NO_SYNC, TFDT, FIRST],
        1,
        &[
            (100, b"\x02\0\0\0"),
            (216, b"\x01\x01\0\0"),
            (332, b"\x01\x01\0\0"),
        ],
    )?;
    check_fields(
        &rt,
        rt.alloc(),
        &[TFHD, TFDT, SIGNED],
        3,
        &[
            (80, b"\x01\0\x0f\x01"),
            (104, b"\xff\xff\xfe\0"),
            (120, b"\0\0\0\0"),
            (136, b"\0\0\x02\0"),
        ],
    )?;
    check_fields(
        &rt,
        rt.alloc(),
        &[TFHD, TFDT, LARGE],
        1,
        &[(80, b"\0\0\x0f\x01"), (104, b"\xff\xff\xfe\0")],
    )
}

#[test]
fn large_pieces_are_written(rt: HostRuntime) -> Result<(), Fail> {
    let alloc = rt.alloc();
    // 3,000 samples of no bytes.
    let trun = b"\0\0\0\x14trun\0\0\0\x01\0\0\x0b\xb8\0\0\0\x68";
    let moof = one_traf(alloc, &[TFHD, TFDT, trun])?;
    let (bytes, failed) = written(alloc, moof.as_slice(), 3000, false, 100_000)?;
    let mut expected = Vec::new(alloc);
    for _ in 0..3000 {
        expected.extend_from_slice(b"\0\0\x04\0\0\0\0\0\x02\0\0\0\0\0\0\0")?;
    }
    push_box(&mut expected, b"mdat", &[])?;
    let (front, rest) = bytes.as_slice().split_at(bytes.len().min(92));
    let (size, _) = front.split_at(front.len().min(4));
    assert_eq!(rt; size, b"\0\0\xbb\xdc".as_slice());
    assert_eq!(rt; rest, expected.as_slice());
    assert_eq!(rt; failed, false);
    Ok(())
}

#[test]
fn an_mdat_has_a_header(rt: HostRuntime) -> Result<(), Fail> {
    for (media, expected) in [
        (0, b"\0\0\0\x08mdat".as_slice()),
        (4_294_967_287, b"\xff\xff\xff\xffmdat".as_slice()),
        (
            4_294_967_288,
            b"\0\0\0\x01mdat\0\0\0\x01\0\0\0\x08".as_slice(),
        ),
        (1 << 62, b"\0\0\0\x01mdat\x40\0\0\0\0\0\0\x10".as_slice()),
    ] {
        let mut w = ToVec::new(rt.alloc(), 100, 3, true)?;
        assert_eq!(rt; write_mdat_header(media, &mut w), Ok(()));
        assert_eq!(rt; w.bytes(), expected);
    }
    Ok(())
}

/// Puts the moof of the first piece after what waits.
fn put_first<W: Sink>(
    run: &Run,
    held: &[u8],
    cut: &Cut,
    block: &mut Block,
    w: &mut W,
) -> Result<(), Failed>
    requires { IsRunOf held.now run.now }
{
    let Some(first) = Pieces::of(run, held, cut).next() else {
        return Ok(());
    };
    put_moof(&first, run, held, 1, block, w)
}

/// What became of a moof that was put after bytes that wait.
#[derive(Clone, Copy, Debug, PartialEq, Eq)]
struct Gone {
    /// Whether the sink failed meanwhile.
    failed: bool,
    /// How many bytes had gone out when it was put.
    out: usize,
    /// How many bytes waited then.
    waits: usize,
}

/// Puts the moof of the first piece of a moof after so many bytes that wait, on its way to a sink with so much room.
fn gone_by(
    alloc: Global,
    list: &TrackList,
    moof: &[u8],
    cut: &Cut,
    waiting: usize,
    room: usize,
) -> Result<Gone, Fail> {
    if moof.len() > 67_108_864 || !is_box(moof) {
        return Err("no box".into());
    }
    let mut steps = Steps { rows: 0 };
    let Ok(read) = Moof::read(moof, 364, list, &mut steps) else {
        return Err("a fault".into());
    };
    let Some(run) = first_run(&read, moof, list, cut) else {
        return Err("no run".into());
    };
    let mut w = ToVec::new(alloc, room, 1 << 20, true)?;
    let mut block = Block::new();
    let filler = [b'-'; BLOCK_BYTES];
    let (filler, _) = filler.as_slice().split_at(waiting.min(BLOCK_BYTES));
    let _ = block.put(&mut w, filler);
    let failed = put_first(&run, moof, cut, &mut block, &mut w).is_err();
    let out = w.bytes().len();
    let _ = block.send(&mut w);
    let waits = w.bytes().len().saturating_sub(out);
    Ok(Gone { failed, out, waits })
}

/// The same of a piece of so many samples, which have all fields.
fn gone_of(alloc: Global, samples: u32, waiting: usize, room: usize) -> Result<Gone, Fail> {
    let mut fields = Vec::new(alloc);
    fields.extend_from_slice(b"\0\0\x0f\x01")?;
    fields.extend_from_slice(&samples.to_be_bytes())?;
    fields.extend_from_slice(b"\0\0\0\x68")?;
    for _ in 0..samples {
        fields.extend_from_slice(b"\0\0\x04\0\0\0\0\x05\x02\0\0\0\0\0\0\0")?;
    }
    let mut trun = Vec::new(alloc);
    push_box(&mut trun, b"trun", &[fields.as_slice()])?;
    let moof = one_traf(alloc, &[TFHD, TFDT, trun.as_slice()])?;
    let moov = &V1.as_slice()[V1_MOOV..V1_MOOF];
    if !is_box(moov) {
        return Err("no box".into());
    }
    let Some(cut) = Cut::new(samples, None, false) else {
        return Err("no such cut".into());
    };
    let mut ledger = Ledger::new(alloc, 1000);
    match tracks(&mut ledger, moov, 20) {
        Ok(list) => {
            let outcome = gone_by(alloc, &list, moof.as_slice(), &cut, waiting, room);
            list.back(&mut ledger);
            outcome
        }
        Err(_) => Err("no tracks".into()),
    }
}

// As where the fields of each sample are put by themselves.
#[test]
fn a_moof_goes_out_sample_by_sample(rt: HostRuntime) -> Result<(), Fail> {
    let alloc = rt.alloc();
    for (samples, waiting, room, failed, out, waits) in [
        // 200 bytes of room: the front and six samples fill it.
        (10, 16_184, 100_000, false, 16_372, 64),
        (255, 12_216, 100_000, false, 16_372, 16),
        (50, 16_000, 16_092, true, 16_092, 0),
        (50, 16_000, 16_379, true, 16_379, 0),
        (50, 16_000, 16_380, false, 16_380, 0),
        // All fill the block, and wait.
        (10, 16_132, 100_000, false, 0, 16_384),
        (11, 16_132, 100_000, false, 16_384, 16),
        // The front leaves two bytes of room.
        (10, 16_290, 100_000, false, 16_382, 160),
        (2_100, 0, 100_000, false, 32_764, 928),
        (2_100, 0, 32_763, true, 32_763, 0),
    ] {
        let outcome = gone_of(alloc, samples, waiting, room)?;
        assert_eq!(rt;
            outcome,
            Gone { failed, out, waits },
            "{samples} after {waiting} into {room}"
        );
    }
    Ok(())
}
