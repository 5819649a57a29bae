//! Reads a moof in place that has several runs, or none.

ghost use Rattle.std.specs.Prelude.{◌≡◌, ℕ, ◌+◌, ◌*◌, ◌<◌, ◌≤◌, ◌^◌, ◌↔◌, List, length, true, None, Some, Err, IfErr, IfOk, IfSome, IsSome, OnErr, OnOk};
ghost use Rattle.std.specs.List.{sum_by};
ghost use Rattle.mp4_frag.specs.Moofs.{IsRead, moof_runs, moof_samples};
ghost use Rattle.mp4_frag.specs.Places.{place_fault};
ghost use Rattle.mp4_frag.specs.RunLists.{taken_runs};
ghost use Rattle.mp4_frag.specs.TrafEnds.{AreEndsOf};
ghost use Rattle.mp4_traf.specs.Rules.{most_in_moof};
ghost use Rattle.mp4_traf.specs.Runs.{moof_at};
ghost use Rattle.mp4_traf.specs.declared.run.Run.{Run};
ghost use Rattle.mp4_ledger.specs.Memory.{claimed, given_back};
ghost use Rattle.mp4_machine.specs.Readings.{plus};
ghost use Rattle.mp4_grammar.specs.Items.{inspected};
ghost use Rattle.mp4_fragment_machine.specs.Implementation.InPlace.{AreBoxes, MayBeListed, MayBeReadInPlace, WasReadInPlace, payload_in};

use crate::counter::{Counter, inspect};
use crate::in_place::fragment::payload_after;
use crate::in_place::{Boxes, ROW};
use mp4_box::Fault;
use mp4_frag::{Following, Moof, Steps};
use mp4_init::TrackList;
use mp4_ledger::{Ledger, Refused};

/// No moof that is held has so many runs.
const MOST_RUNS: u64 = 1 << 32;

/// An attempt to take a moof in place that was given up. It can't be dropped, so that its rows are counted.
pub(crate) struct InPlaceRead {
    /// How many rows were read.
    rows: u32,
    /// What is at fault with the moof.
    fault: Option<Fault>,
}

impl InPlaceRead {
    /// An attempt that read so many rows, and found this fault.
    #[inline(always)]
    pub(crate) fn of(rows: u32, fault: Option<Fault>) -> InPlaceRead
        ensures rows { result.rows ≡ rows }
        ensures fault { result.fault ≡ fault }
    {
        InPlaceRead { rows, fault }
    }

    /// Counts its rows as read, and as many samples as inspected.
    ///
    /// # Errors
    ///
    /// The fault that it found.
    #[inline(always)]
    pub(crate) fn count(self, counter: &mut Counter) -> Result<(), Fault>
        requires steps { counter.old.steps.rows < 2 ^ 127 }
        requires inspected { counter.old.tally.inspected < 2 ^ 127 }
        ensures good { OnOk result (self.fault ≡ None) }
        ensures fault { IfErr result (λ f. self.fault ≡ Some f) }
        ensures counted { counter.new ≡ record counter.old {
          tally = record counter.old.tally { inspected = counter.old.tally.inspected + self.rows };
          steps = record { rows = counter.old.steps.rows + self.rows };
        } }
    {
        let InPlaceRead { rows, fault } = self;
        inspect(counter, u128::from(rows), u128::from(rows));
        match fault {
            None => Ok(()),
            Some(fault) => Err(fault),
        }
    }

    /// Leaves the rows of an attempt, if there was one, out of the counts, where a claim for its moof is refused: a run
    /// ends there, before it reads the moof.
    pub(crate) fn leave_out(found: Option<InPlaceRead>, _refused: &Refused) {
        if let Some(InPlaceRead { rows: _, fault: _ }) = found {}
    }
}

/// A moof that was read, whose runs follow one another in the mdat after it.
#[derive(Drop)]
pub(crate) struct MoofInOrder<'a> {
    pub(crate) moof: Moof<'a>,
    pub(crate) runs: Following,
}

/// Whether a moof and the list of its runs may be claimed.
#[inline(always)]
fn may_be_listed(moof: &Moof<'_>, ledger: &Ledger) -> bool
    ensures { (result ≡ true) ↔ MayBeListed moof.now ledger.now }
{
    let room = ledger.limit() - ledger.live();
    let moof_len = moof.bytes().len() as u64;
    moof_len <= room && moof.truns_len() <= (room - moof_len) / ROW
}

/// Sums over the runs of a moof, and where its trafs end, if they follow one another in the mdat after it; it reads
/// each row once. Their list might be claimed, so no row is read of one that is refused.
#[inline(always)]
fn runs_in_order(
    at: u64,
    boxes: &Boxes<'_>,
    moof: &Moof<'_>,
    tracks: &TrackList,
    ledger: &Ledger,
    read_rows: &mut Steps,
) -> Option<Following>
    requires are { (input : List ℕ) × AreBoxes at input boxes.now }
    requires read { IsRead moof.now tracks.now }
    requires may { MayBeReadInPlace moof.now }
    requires listed { MayBeListed moof.now ledger.now }
    requires steps { read_rows.old.rows < 2 ^ 127 }
    ensures placed { (input : List ℕ) (are : AreBoxes at input boxes.now) → IsSome result → place_fault
        (payload_in (at + are.span.size) boxes.now.mdat) (moof_runs moof.now tracks.now) ≡ None }
    ensures runs { IfSome result (λ f. f.runs ≡ length (moof_runs moof.now tracks.now)) }
    ensures bytes { IfSome result (λ f. f.bytes ≡ sum_by (λ (run : Run). run.bytes)
        (taken_runs moof.now tracks.now)) }
    ensures media { (input : List ℕ) (are : AreBoxes at input boxes.now) → IfSome result (λ f.
        at + are.span.size + f.bytes + 8 ≤ at + are.span.size + boxes.now.mdat.size) }
    ensures ends { IfSome result (λ f. AreEndsOf f.ends moof.now tracks.now) }
    ensures rows_read { read_rows.new.rows ≡ read_rows.old.rows + moof_samples moof.now }
{
    moof.following(payload_after(at, boxes), tracks, read_rows)
}

/// Reads the moof of a fragment, and counts its claim, its samples as inspected and its rows, if its trafs have early
/// times of their own, nothing is at fault with it, its runs follow one another, and the moof and their list might be
/// claimed.
///
/// # Errors
///
/// Where it isn't counted: what was found in its moof, if that was read.
// A call of its own, so that what it calls is in line in it, whatever the sinks of its callers.
#[inline(never)]
pub(crate) fn read_in_place<'a>(
    at: u64,
    boxes: &Boxes<'a>,
    tracks: &TrackList,
    counter: &mut Counter,
    ledger: &mut Ledger,
) -> Result<MoofInOrder<'a>, Option<InPlaceRead>>
    requires are { (input : List ℕ) × AreBoxes at input boxes.now }
    requires steps { counter.old.steps.rows < 2 ^ 126 }
    requires inspected { counter.old.tally.inspected < 2 ^ 126 }
    ensures moof { IfOk result (λ m. m.moof ≡ moof_at boxes.now.moof.now at) }
    ensures read { OnOk result (IsRead (moof_at boxes.now.moof.now at) tracks.now) }
    ensures bytes { IfOk result (λ m. m.runs.bytes ≡ sum_by (λ (run : Run). run.bytes)
        (taken_runs (moof_at boxes.now.moof.now at) tracks.now)) }
    ensures ends { IfOk result (λ m. AreEndsOf m.runs.ends (moof_at boxes.now.moof.now at) tracks.now) }
    ensures placed { (input : List ℕ) (are : AreBoxes at input boxes.now) → OnOk result (place_fault
        (payload_in (at + are.span.size) boxes.now.mdat)
        (moof_runs (moof_at boxes.now.moof.now at) tracks.now) ≡ None) }
    ensures media { (input : List ℕ) (are : AreBoxes at input boxes.now) → IfOk result (λ m.
        at + are.span.size + m.runs.bytes + 8 ≤ at + are.span.size + boxes.now.mdat.size) }
    ensures claim { OnOk result (ledger.new ≡ given_back (claimed ledger.old
        (length boxes.now.moof.now + 64 * length (moof_runs (moof_at boxes.now.moof.now at) tracks.now)))
        (length boxes.now.moof.now + 64 * length (moof_runs (moof_at boxes.now.moof.now at) tracks.now))) }
    ensures tally { OnOk result (counter.new.tally ≡
        plus counter.old.tally (inspected (moof_at boxes.now.moof.now at))) }
    ensures rows_read { OnOk result (counter.new.steps.rows ≡
        counter.old.steps.rows + 2 * moof_samples (moof_at boxes.now.moof.now at)) }
    ensures few { OnOk result (moof_samples (moof_at boxes.now.moof.now at) ≤ most_in_moof) }
    ensures none { OnErr result ((ledger.new ≡ ledger.old) × (counter.new ≡ counter.old)) }
    ensures found { IfErr result (λ l. IfSome l
        (WasReadInPlace (moof_at boxes.now.moof.now at) tracks.now)) }
    ensures unread { result ≡ Err None → MayBeReadInPlace (moof_at boxes.now.moof.now at) → ⊥ }
{
    // So that rows are read only for the runs, and none for the rules.
    if !Moof::begins_early(boxes.moof, at) {
        return Err(None);
    }
    let mut steps = Steps { rows: 0 };
    let moof = match Moof::read(boxes.moof, at, tracks, &mut steps) {
        Ok(moof) => moof,
        Err(fault) => {
            let rows = steps.rows;
            return Err(Some(InPlaceRead::of(rows as u32, Some(fault))));
        }
    };
    if !may_be_listed(&moof, ledger) {
        let rows = steps.rows;
        return Err(Some(InPlaceRead::of(rows as u32, None)));
    }
    let mut read_rows = Steps { rows: 0 };
    let Some(runs) = runs_in_order(at, boxes, &moof, tracks, ledger, &mut read_rows) else {
        return Err(Some(InPlaceRead::of(read_rows.rows as u32, None)));
    };
    if runs.runs > MOST_RUNS {
        return Err(Some(InPlaceRead::of(read_rows.rows as u32, None)));
    }
    match ledger.count_claim(boxes.moof.len() as u64 + runs.runs * ROW) {
        Ok(()) => {}
        Err(_) => return Err(Some(InPlaceRead::of(read_rows.rows as u32, None))),
    }
    inspect(
        counter,
        u128::from(moof.samples()),
        steps.rows + read_rows.rows,
    );
    Ok(MoofInOrder { moof, runs })
}
