//! From the bytes of a moof to its runs.

ghost use Rattle.std.specs.Prelude.{◌≡◌, ◌+◌, ◌^◌, ◌<◌, ◌≤◌, ◌↔◌, List, [], length, true, false, Some, None, Err, IfErr, IfOk, IfSome, OnOk, IsSome};
ghost use Rattle.std.specs.List.{AllByRecursion};
ghost use Rattle.std.specs.Option.{is_none, option_or};
ghost use Rattle.mp4_box.specs.declared.rules.Fault.{Fault};
ghost use Rattle.mp4_box.specs.Headers.{IsWhole};
ghost use Rattle.mp4_box.specs.Order.{IsLeast, least, least_from};
ghost use Rattle.mp4_box.specs.Trees.{view};
ghost use Rattle.mp4_init.specs.declared.table.Track.{Track};
ghost use Rattle.mp4_frag.specs.Implementation.AtOnce.{HasEarlyEnd, IsCount, fault_of, most_64};
ghost use Rattle.mp4_frag.specs.Moofs.{IsRead, fault_before_times, moof_fault, moof_faults, moof_of, moof_samples, moof_trafs, moof_truns, sequence_of, time_faults, value_faults};
ghost use Rattle.mp4_frag.specs.Repeats.{repeat_faults, trafs_of, untimed_ids};
ghost use Rattle.mp4_frag.specs.Rules.{count_faults, form_faults};
ghost use Rattle.mp4_traf.specs.Rules.{most_in_moof};
ghost use Rattle.mp4_traf.specs.Runs.{MoofBytes, moof_at};

use crate::at_once::{MoofCounts, ended_early, read_at_once};
use crate::rules::counts::{samples_in, truns_in};
use crate::rules::late::late_fault;
use crate::rules::mfhd::sequence_in;
use crate::rules::repeats::{note_among, note_repeats};
use crate::rules::{note_children, note_count, note_forms};
use mp4_box::types::{TFHD, TRAF, TRUN};
use mp4_box::{BoxRef, Fault, check_tree, note_along, whole_box};
use mp4_init::TrackList;
use mp4_traf::internal::{FlagsOnce, OfTrack};
use mp4_traf::{Steps, Trafs};
use std::marker::Model;

/// A moof without a fault (ISO/IEC 14496-12, 8.8.4). It borrows its bytes, and nothing else.
#[derive(Drop)]
pub struct Moof<'a> {
    pub(crate) moof_bytes: &'a [u8],
    pub(crate) offset: u64,
    /// Findings from reading it, if they are known.
    findings: Option<MoofCounts>,
}

// A contract sees its bytes, and the offset of the first of them.
impl<'a> Model for Moof<'a> {
    ghost use Rattle.std.specs.Prelude.{◌≡◌, ◌+◌, ◌^◌, ◌≤◌, [], length, IfSome};
    ghost use Rattle.mp4_box.specs.Headers.{IsBytes, IsWhole};
    ghost use Rattle.mp4_frag.specs.Moofs.{moof_of, moof_samples, moof_truns};
    ghost use Rattle.mp4_frag.specs.Rules.{count_faults};
    ghost use Rattle.mp4_traf.specs.Rules.{most_in_moof};
    ghost use Rattle.mp4_traf.specs.Runs.{MoofBytes, moof_at};

    ghost Value = { MoofBytes };

    ghost view = { λ m. moof_at m.moof_bytes.now m.offset };

    ghost invariant = { λ m. IsWhole m.moof_bytes.now × (m.offset + length m.moof_bytes.now ≤ 2 ^ 62) ×
        (count_faults (moof_of (moof_at m.moof_bytes.now m.offset)) ≡ []) ×
        IfSome m.findings (λ s. (s.samples ≡ moof_samples (moof_at m.moof_bytes.now m.offset)) ×
        (s.samples ≤ most_in_moof) × (s.truns ≡ moof_truns (moof_at m.moof_bytes.now m.offset))) ×
        IsBytes m.moof_bytes.now };
}

/// What is at fault with the values, times aside.
#[tactic(auto, using(mp4_box::proofs::OrderLemmas::least_from_append), unfolding(crate::specs::Moofs::value_faults))]
fn note_values(tracks: &TrackList, moof: &BoxRef<'_>, best: &mut Option<Fault>)
    ensures { best.new ≡ least_from best.old (value_faults tracks.now (view moof.now)) }
{
    note_children(moof, best);
    note_repeats(moof, best);
    note_along(&OfTrack(tracks), &[TRAF, TFHD], moof, best);
    note_along(&FlagsOnce, &[TRAF, TRUN], moof, best);
    note_count(moof, best);
}

/// The fault of a moof whose tree is good, times aside: rule by rule.
fn content_fault(tracks: &TrackList, moof: &BoxRef<'_>) -> Option<Fault>
    ensures { result ≡ option_or (least (form_faults (view moof.now)))
        (least (value_faults tracks.now (view moof.now))) }
{
    let mut best = None;
    note_forms(moof, &mut best);
    if best.is_none() {
        note_values(tracks, moof, &mut best);
    }
    best
}

/// How many truns the moof has that the bytes are, which begins at this offset.
#[tactic(auto, using(crate::proofs::MoofLemmas::moof_is))]
fn truns_at(moof_bytes: &[u8], offset: u64) -> u64
    requires whole { IsWhole moof_bytes.now }
    requires room { offset + length moof_bytes.now ≤ 2 ^ 62 }
    ensures { result ≡ moof_truns (moof_at moof_bytes.now offset) }
{
    truns_in(&whole_box(moof_bytes, offset))
}

/// Findings on the moof that the bytes are, which begins at this offset, or its fault, times aside: rule by rule.
#[inline(never)]
#[tactic(auto, using(crate::proofs::MoofLemmas::moof_is), unfolding(crate::specs::Moofs::fault_before_times))]
fn early_by_rules(moof_bytes: &[u8], offset: u64, tracks: &TrackList) -> Result<MoofCounts, Fault>
    requires whole { IsWhole moof_bytes.now }
    requires room { offset + length moof_bytes.now ≤ 2 ^ 62 }
    ensures fault { fault_of result ≡ fault_before_times (moof_at moof_bytes.now offset) tracks.now }
    ensures least { IfErr result (λ f. IsLeast f
        (moof_faults (moof_at moof_bytes.now offset) tracks.now)) }
    ensures samples { IfOk result (λ s. s.samples ≡ moof_samples (moof_at moof_bytes.now offset)) }
    ensures few { IfOk result (λ s. s.samples ≤ most_in_moof) }
    ensures truns { IfOk result (λ s. s.truns ≡ moof_truns (moof_at moof_bytes.now offset)) }
    ensures late { IfOk result (λ s. s.is_early ≡ false) }
{
    if let Err(fault) = check_tree(moof_bytes, offset) {
        return Err(fault);
    }
    let moof = whole_box(moof_bytes, offset);
    match content_fault(tracks, &moof) {
        Some(fault) => Err(fault),
        None => Ok(MoofCounts {
            samples: samples_in(&moof),
            truns: truns_at(moof_bytes, offset),
            is_early: false,
        }),
    }
}

/// Findings on a moof in which so many trafs have no tfdt, from findings that ignore where these begin.
// A function of its own, with the moof as its bytes, since in nearly every moof each traf has a tfdt.
#[inline(never)]
#[tactic(auto, using(crate::proofs::MoofLemmas::moof_is))]
fn untimed_findings(
    moof_bytes: &[u8],
    offset: u64,
    tracks: &TrackList,
    untimed: u64,
    sound: MoofCounts,
) -> Result<MoofCounts, Fault>
    requires whole { IsWhole moof_bytes.now }
    requires room { offset + length moof_bytes.now ≤ 2 ^ 62 }
    requires count { IsCount most_64 0
        (length (untimed_ids (trafs_of (moof_of (moof_at moof_bytes.now offset))))) untimed }
    ensures fault { fault_of result ≡
        least (repeat_faults (moof_of (moof_at moof_bytes.now offset))) }
    ensures samples { IfOk result (λ s. s.samples ≡ sound.samples) }
    ensures truns { IfOk result (λ s. s.truns ≡ sound.truns) }
    ensures early { IfOk result (λ s. s.is_early ≡ true → sound.is_early ≡ true) }
    ensures ends { IfOk result (λ s. s.is_early ≡ true → AllByRecursion
        (HasEarlyEnd tracks.now) (trafs_of (moof_of (moof_at moof_bytes.now offset)))) }
{
    let moof = whole_box(moof_bytes, offset);
    let mut best = None;
    note_among(untimed, &moof, &mut best);
    match best {
        Some(fault) => Err(fault),
        None => Ok(MoofCounts {
            samples: sound.samples,
            truns: sound.truns,
            is_early: sound.is_early && ended_early(tracks, &moof),
        }),
    }
}

/// Findings on the moof that the bytes are, which begins at this offset, or its fault, times aside.
fn early(moof_bytes: &[u8], offset: u64, tracks: &TrackList) -> Result<MoofCounts, Fault>
    requires whole { IsWhole moof_bytes.now }
    requires room { offset + length moof_bytes.now ≤ 2 ^ 62 }
    ensures fault { fault_of result ≡ fault_before_times (moof_at moof_bytes.now offset) tracks.now }
    ensures least { IfErr result (λ f. IsLeast f
        (moof_faults (moof_at moof_bytes.now offset) tracks.now)) }
    ensures samples { IfOk result (λ s. s.samples ≡ moof_samples (moof_at moof_bytes.now offset)) }
    ensures few { IfOk result (λ s. s.samples ≤ most_in_moof) }
    ensures truns { IfOk result (λ s. s.truns ≡ moof_truns (moof_at moof_bytes.now offset)) }
    ensures early { IfOk result (λ s. s.is_early ≡ true →
        time_faults (moof_trafs (moof_at moof_bytes.now offset) tracks.now) ≡ []) }
{
    let mut untimed = 0;
    if let Some(sound) = read_at_once(tracks, &whole_box(moof_bytes, offset), &mut untimed) {
        if untimed == 0 {
            return Ok(sound);
        }
        return match untimed_findings(moof_bytes, offset, tracks, untimed, sound) {
            Ok(sound) => Ok(sound),
            Err(fault) => Err(fault),
        };
    }
    match early_by_rules(moof_bytes, offset, tracks) {
        Ok(sound) => Ok(sound),
        Err(fault) => Err(fault),
    }
}

/// What is at fault with a moof.
#[derive(Clone, Copy, Drop)]
pub(crate) struct MoofFault {
    /// The fault that is reported.
    pub(crate) fault: Fault,
    /// It is that of times: all other rules hold, and rows were read.
    pub(crate) is_time_fault: bool,
}

/// The moof that the bytes are, one whole box of stated size that begins at this offset. Its samples are counted in
/// `steps` as rows that were read, once all rules but that of times hold.
///
/// # Errors
///
/// The fault of the lowest rule that it breaks, at the box that begins first.
#[inline(always)]
pub(crate) fn read_by_rules<'a>(
    moof_bytes: &'a [u8],
    offset: u64,
    tracks: &TrackList,
    steps: &mut Steps,
) -> Result<Moof<'a>, MoofFault>
    requires whole { IsWhole moof_bytes.now }
    requires room { offset + length moof_bytes.now ≤ 2 ^ 62 }
    requires steps { steps.old.rows < 2 ^ 127 }
    ensures moof { IfOk result (λ m. m ≡ moof_at moof_bytes.now offset) }
    ensures good { OnOk result (IsRead (moof_at moof_bytes.now offset) tracks.now) }
    ensures fault { IfErr result (λ f. moof_fault (moof_at moof_bytes.now offset) tracks.now ≡
        Some f.fault) }
    ensures least { IfErr result (λ f. IsLeast f.fault
        (moof_faults (moof_at moof_bytes.now offset) tracks.now)) }
    ensures late { IfErr result (λ f. f.is_time_fault ≡
        is_none (fault_before_times (moof_at moof_bytes.now offset) tracks.now)) }
    ensures rows_read { fault_before_times (moof_at moof_bytes.now offset) tracks.now ≡ None →
        steps.new.rows ≡ steps.old.rows + moof_samples (moof_at moof_bytes.now offset) }
    ensures ok { OnOk result (steps.new.rows ≡ steps.old.rows +
        moof_samples (moof_at moof_bytes.now offset)) }
    ensures few { steps.new.rows ≤ steps.old.rows + most_in_moof }
    ensures unread { IsSome (fault_before_times (moof_at moof_bytes.now offset) tracks.now) →
        steps.new ≡ steps.old }
{
    let sound = match early(moof_bytes, offset, tracks) {
        Ok(sound) => sound,
        Err(fault) => {
            return Err(MoofFault {
                fault,
                is_time_fault: false,
            });
        }
    };
    steps.rows += u128::from(sound.samples);
    // In nearly all moofs all times are known to be early, and no run is gone over.
    if !sound.is_early {
        if let Some(fault) = late_fault(moof_bytes, offset, tracks) {
            return Err(MoofFault {
                fault,
                is_time_fault: true,
            });
        }
    }
    Ok(Moof::of(moof_bytes, offset, Some(sound)))
}

/// The trafs of the moof that the bytes are, which begins at this offset.
#[tactic(auto, using(crate::proofs::MoofLemmas::moof_is))]
fn trafs_in<'a>(moof_bytes: &'a [u8], offset: u64, tracks: &'a TrackList) -> Trafs<'a>
    requires whole { IsWhole moof_bytes.now }
    requires room { offset + length moof_bytes.now ≤ 2 ^ 62 }
    requires read { IsRead (moof_at moof_bytes.now offset) tracks.now }
    ensures { result ≡ moof_trafs (moof_at moof_bytes.now offset) tracks.now }
{
    Trafs::of(moof_bytes, offset, tracks, &whole_box(moof_bytes, offset))
}

impl<'a> Moof<'a> {
    /// The moof that the bytes are, with these findings, or none.
    #[inline]
    fn of(moof_bytes: &'a [u8], offset: u64, findings: Option<MoofCounts>) -> Moof<'a>
        requires whole { IsWhole moof_bytes.now }
        requires room { offset + length moof_bytes.now ≤ 2 ^ 62 }
        requires count { count_faults (moof_of (moof_at moof_bytes.now offset)) ≡ [] }
        requires findings { IfSome findings (λ s. (s.samples ≡ moof_samples (moof_at moof_bytes.now offset)) ×
            (s.samples ≤ most_in_moof) × (s.truns ≡ moof_truns (moof_at moof_bytes.now offset))) }
        ensures { result ≡ moof_at moof_bytes.now offset }
    {
        Moof {
            moof_bytes,
            offset,
            findings,
        }
    }

    /// The moof that the bytes are, one whole box of stated size that begins at `offset` in the stream. `tracks` are
    /// those of its moov. Its samples are counted in `steps` as rows that were read, once all rules but that of times
    /// hold.
    ///
    /// # Errors
    ///
    /// The fault of the lowest rule that it breaks, at the box that begins first of those that break it. The rules of
    /// its tree come first, then those of its boxes; their values are checked only if the boxes are as they must
    /// be, and the times of its runs only where the values are too.
    pub fn read(
        moof_bytes: &'a [u8],
        offset: u64,
        tracks: &TrackList,
        steps: &mut Steps,
    ) -> Result<Moof<'a>, Fault>
        requires whole { IsWhole moof_bytes.now }
        requires room { offset + length moof_bytes.now ≤ 2 ^ 62 }
        requires steps { steps.old.rows < 2 ^ 127 }
        ensures moof { IfOk result (λ m. m ≡ moof_at moof_bytes.now offset) }
        ensures good { OnOk result (IsRead (moof_at moof_bytes.now offset) tracks.now) }
        ensures fault { (f : Fault) → (result ≡ Err f) ↔
            (moof_fault (moof_at moof_bytes.now offset) tracks.now ≡ Some f) }
        ensures least { IfErr result (λ f. IsLeast f
            (moof_faults (moof_at moof_bytes.now offset) tracks.now)) }
        ensures rows_read { fault_before_times (moof_at moof_bytes.now offset) tracks.now ≡ None →
            steps.new.rows ≡ steps.old.rows + moof_samples (moof_at moof_bytes.now offset) }
        ensures ok { OnOk result (steps.new.rows ≡ steps.old.rows +
            moof_samples (moof_at moof_bytes.now offset)) }
        ensures few { steps.new.rows ≤ steps.old.rows + most_in_moof }
        ensures unread { IsSome (fault_before_times (moof_at moof_bytes.now offset) tracks.now) →
            steps.new ≡ steps.old }
    {
        match read_by_rules(moof_bytes, offset, tracks, steps) {
            Ok(moof) => Ok(moof),
            Err(found) => Err(found.fault),
        }
    }

    /// The moof again that was read from these bytes, with whatever tracks. It reads no row.
    pub fn again(moof_bytes: &'a [u8], offset: u64) -> Moof<'a>
        requires whole { IsWhole moof_bytes.now }
        requires room { offset + length moof_bytes.now ≤ 2 ^ 62 }
        requires read { (tracks : List Track) × IsRead (moof_at moof_bytes.now offset) tracks }
        ensures { result ≡ moof_at moof_bytes.now offset }
    {
        Moof::of(moof_bytes, offset, None)
    }

    /// Its bytes: one whole box, which ends at or before byte 2^62 of the stream.
    pub fn bytes(&self) -> &'a [u8]
        ensures bytes { result.now ≡ self.now.bytes }
        ensures whole { IsWhole self.now.bytes }
        ensures room { self.now.offset + length self.now.bytes ≤ 2 ^ 62 }
    {
        self.moof_bytes
    }

    /// The offset in the stream of its first byte.
    pub fn offset(&self) -> u64
        ensures { result ≡ self.now.offset }
    {
        self.offset
    }

    /// The sequence_number of its mfhd (ISO/IEC 14496-12, 8.8.5).
    pub fn sequence_number(&self) -> u32
        ensures { result ≡ sequence_of self.now }
    {
        sequence_in(self.moof_bytes, self.offset)
    }

    /// How many samples it has.
    pub fn samples(&self) -> u32
        ensures samples { result ≡ moof_samples self.now }
        ensures few { result ≤ most_in_moof }
    {
        match self.findings {
            Some(findings) => findings.samples,
            None => samples_in(&whole_box(self.moof_bytes, self.offset)),
        }
    }

    /// How many truns it has: so many runs. It reads no row.
    pub fn truns_len(&self) -> u64
        ensures { result ≡ moof_truns self.now }
    {
        match self.findings {
            Some(findings) => findings.truns,
            None => truns_at(self.moof_bytes, self.offset),
        }
    }

    /// Its trafs, in order (ISO/IEC 14496-12, 8.8.6). `tracks` are those that it was read with. They borrow its bytes
    /// and not the Moof.
    pub fn trafs(&self, tracks: &'a TrackList) -> Trafs<'a>
        requires { IsRead self.now tracks.now }
        ensures { result ≡ moof_trafs self.now tracks.now }
    {
        trafs_in(self.moof_bytes, self.offset, tracks)
    }
}
