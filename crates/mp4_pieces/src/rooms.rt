//! Whether there is room for the numbers of the pieces of a moof.

ghost use Rattle.std.specs.Prelude.{◌≡◌, ◌+◌, ◌*◌, ◌^◌, ◌<◌, ◌≤◌, ◌↔◌, length, Some, None, Err, IfErr, IfOk, OnOk};
ghost use Rattle.std.specs.List.{flat_map};
ghost use Rattle.mp4_box.specs.declared.rules.Fault.{Fault};
ghost use Rattle.mp4_box.specs.Headers.{IsWhole};
ghost use Rattle.mp4_box.specs.Order.{IsLeast, least_from};
ghost use Rattle.mp4_frag.specs.Moofs.{IsRead, moof_runs, moof_samples};
ghost use Rattle.mp4_traf.specs.Rules.{most_in_moof};
ghost use Rattle.mp4_traf.specs.Runs.{runs_of};
ghost use Rattle.mp4_pieces.specs.Fits.{HasRoomFor};
ghost use Rattle.mp4_pieces.specs.Pieces.{piece_count, pieces_of};
ghost use Rattle.mp4_traf.specs.Ranges.{AreRunsOf, IsRunOf};
ghost use Rattle.mp4_pieces.specs.Rooms.{index_faults, index_faults_of, numbers, room_fault, room_faults, sequence_faults};

use crate::cut::Cut;
use crate::index::outcome_of;
use crate::pieces::Pieces;
use mp4_box::types::{MOOF, TRUN};
use mp4_box::{Fault, Rule, note};
use mp4_frag::{Moof, Run, Runs, Steps, Trafs};
use mp4_init::TrackList;

/// The greatest sequence_number of a moof, which has 32 bits (ISO/IEC 14496-12, 8.8.5).
const LAST_NUMBER: u64 = (1 << 32) - 1;

/// Notes a run whose index has no room, if one is asked for. Returns how many pieces it
/// has.
#[tactic(auto, using(crate::proofs::RoomLemmas::few_pieces), unfolding(mp4_box::specs::Order::least_from))]
fn note_run(run: &Run, moof_bytes: &[u8], cut: &Cut, best: &mut Option<Fault>) -> u32
    requires { IsRunOf moof_bytes.now run.now }
    ensures count { result ≡ length (pieces_of cut.now moof_bytes.now run.now) }
    ensures best { best.new ≡ least_from best.old (index_faults_of cut.now moof_bytes.now run.now) }
{
    let outcome = outcome_of(Pieces::of(run, moof_bytes, cut));
    if cut.index && outcome.passes {
        let fault = Fault {
            rule: Rule::IndexRange,
            kind: Some(TRUN),
            offset: run.offset,
        };
        note(best, fault);
    }
    outcome.count
}

/// The same for the runs of a traf.
#[tactic(auto, using(mp4_box::proofs::OrderLemmas::least_from_append))]
fn note_runs(runs: Runs<'_>, moof_bytes: &[u8], cut: &Cut, best: &mut Option<Fault>) -> u32
    requires runs { AreRunsOf moof_bytes.now runs }
    requires few { piece_count cut.now moof_bytes.now runs ≤ most_in_moof }
    ensures count { result ≡ piece_count cut.now moof_bytes.now runs.entry }
    ensures best { best.new ≡ least_from best.old (index_faults cut.now moof_bytes.now runs.entry) }
{
    let mut count = 0;
    for run in runs {
        count += note_run(&run, moof_bytes, cut, best);
    }
    count
}

/// The same for the runs of all trafs.
#[tactic(auto, using(mp4_box::proofs::OrderLemmas::least_from_append))]
fn note_trafs(trafs: Trafs<'_>, moof_bytes: &[u8], cut: &Cut, best: &mut Option<Fault>) -> u32
    requires runs { AreRunsOf moof_bytes.now (flat_map runs_of trafs) }
    requires few { piece_count cut.now moof_bytes.now (flat_map runs_of trafs) ≤ most_in_moof }
    ensures count { result ≡ piece_count cut.now moof_bytes.now (flat_map runs_of trafs.entry) }
    ensures best { best.new ≡ least_from best.old
        (index_faults cut.now moof_bytes.now (flat_map runs_of trafs.entry)) }
{
    let mut count = 0;
    for traf in trafs {
        count += note_runs(traf.runs(), moof_bytes, cut, best);
    }
    count
}

/// Notes a moof that begins at this offset, where the number after its pieces is past the last but
/// one.
#[tactic(auto, using(crate::proofs::RoomLemmas::past_last), unfolding(mp4_box::specs::Order::least_from))]
fn note_moof(offset: u64, seq: u64, count: u32, best: &mut Option<Fault>)
    requires { seq ≤ 2 ^ 32 }
    ensures { best.new ≡ least_from best.old (sequence_faults offset (numbers seq count)) }
{
    if seq + u64::from(count) > LAST_NUMBER + 1 {
        let fault = Fault {
            rule: Rule::SequenceEnd,
            kind: Some(MOOF),
            offset,
        };
        note(best, fault);
    }
}

/// The number after the pieces of a moof of which these are the bytes, or its fault.
#[tactic(auto, using(mp4_box::proofs::OrderLemmas::least_from_append), unfolding(crate::specs::Rooms::room_faults))]
fn room_in<'a>(
    moof: &Moof<'a>,
    moof_bytes: &[u8],
    tracks: &'a TrackList,
    cut: &Cut,
    seq: u64,
) -> Result<u64, Fault>
    requires moof_bytes { moof_bytes.now ≡ moof.now.bytes }
    requires whole { IsWhole moof.now.bytes }
    requires near { moof.now.offset + length moof.now.bytes ≤ 2 ^ 62 }
    requires read { IsRead moof.now tracks.now }
    requires number { seq ≤ 2 ^ 32 }
    ensures next { IfOk result (λ next. next ≡ seq + piece_count cut.now moof.now.bytes
        (moof_runs moof.now tracks.now)) }
    ensures fault { (f : Fault) → (result ≡ Err f) ↔
        (room_fault cut.now moof.now (moof_runs moof.now tracks.now) seq ≡ Some f) }
    ensures room { OnOk result
        (HasRoomFor cut.now moof.now (moof_runs moof.now tracks.now) seq) }
    ensures least { IfErr result (λ f. IsLeast f
        (room_faults cut.now moof.now (moof_runs moof.now tracks.now) seq)) }
{
    let mut best = None;
    let count = note_trafs(moof.trafs(tracks), moof_bytes, cut, &mut best);
    note_moof(moof.offset(), seq, count, &mut best);
    match best {
        None => Ok(seq + u64::from(count)),
        Some(fault) => Err(fault),
    }
}

/// Whether there is room for the numbers of the pieces of a moof, whose first piece has the sequence
/// number `seq`: the number after its last. `tracks` are those that it was read with. Its samples
/// are counted twice in `steps`, as rows that were read: once for the sums of its runs, and once
/// for its pieces.
///
/// # Errors
///
/// IndexRange, where the cut asks for an index, at the first trun in the listing for which an index
/// (sidx, ISO/IEC 14496-12, 8.16.3) has no room: a group of pieces has its earliest time below 0 or
/// past 64 bits, or a piece has more bytes than 31 bits can hold, with its moof and the header of its
/// mdat, or a duration past 32 bits. Else SequenceEnd at the moof, where the number of a piece
/// passes 32 bits (mfhd, 8.8.5).
pub fn room<'a>(
    moof: &Moof<'a>,
    tracks: &'a TrackList,
    cut: &Cut,
    seq: u64,
    steps: &mut Steps,
) -> Result<u64, Fault>
    requires read { IsRead moof.now tracks.now }
    requires number { seq ≤ 2 ^ 32 }
    requires steps { steps.old.rows < 2 ^ 127 }
    ensures next { IfOk result (λ next. next ≡ seq + piece_count cut.now moof.now.bytes
        (moof_runs moof.now tracks.now)) }
    ensures fault { (f : Fault) → (result ≡ Err f) ↔
        (room_fault cut.now moof.now (moof_runs moof.now tracks.now) seq ≡ Some f) }
    ensures room { OnOk result
        (HasRoomFor cut.now moof.now (moof_runs moof.now tracks.now) seq) }
    ensures least { IfErr result (λ f. IsLeast f
        (room_faults cut.now moof.now (moof_runs moof.now tracks.now) seq)) }
    ensures rows_read { steps.new.rows ≡ steps.old.rows + 2 * moof_samples moof.now }
{
    steps.rows += 2 * u128::from(moof.samples());
    room_in(moof, moof.bytes(), tracks, cut, seq)
}
