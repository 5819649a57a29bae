//! How many bytes and samples the runs of a moof have, and how far they reach into the payload of its mdat.

ghost use Rattle.std.specs.Prelude.{◌≡◌, ◌+◌, ◌≤◌, ◌<◌, ◌^◌, ℕ, max, None, Some};
ghost use Rattle.std.specs.List.{sum_by};
ghost use Rattle.mp4_frag.specs.Moofs.{moof_runs, moof_samples};
ghost use Rattle.mp4_traf.specs.Rules.{most_in_moof};
ghost use Rattle.mp4_frag.specs.Places.{place_fault};
ghost use Rattle.mp4_frag.specs.RunLists.{taken_runs};
ghost use Rattle.mp4_traf.specs.declared.run.Run.{Run};
ghost use Rattle.mp4_grammar.specs.Meanings.{reach};
ghost use Rattle.mp4_machine.specs.Bodies.{longest};
ghost use Rattle.mp4_fragment_machine.specs.States.{IsPendingMoof, moof_in};

use crate::pending_moof::PendingMoof;
use mp4_frag::Payload;
use mp4_init::TrackList;

/// How many bytes and samples some runs of a moof have, and how far they reach into the payload of its mdat.
#[derive(Clone, Copy)]
pub(crate) struct MoofTotals {
    /// How many bytes their samples have.
    pub(crate) bytes: u64,
    /// How many samples they have.
    pub(crate) samples: u64,
    /// How many bytes the payload must have at the least, so that each run with samples lies in it.
    pub(crate) needed: u64,
}

/// How many bytes and samples the runs of the pending moof have, and how far they reach into a payload where they may
/// lie. No row is read.
pub(crate) fn add_up_runs(
    pending_moof: &PendingMoof,
    payload: Payload,
    tracks: &TrackList,
) -> MoofTotals
    requires pending_moof { IsPendingMoof (Some tracks.now) pending_moof.now }
    requires good { place_fault payload
        (moof_runs (moof_in pending_moof.now) tracks.now) ≡ None }
    requires start { payload.start ≤ longest }
    requires end { (e : ℕ) → payload.end ≡ Some e → payload.start ≤ e }
    ensures bytes { result.bytes ≡ sum_by (λ (run : Run). run.bytes)
        (taken_runs (moof_in pending_moof.now) tracks.now) }
    ensures samples { result.samples ≡ moof_samples (moof_in pending_moof.now) }
    ensures few { result.samples ≤ most_in_moof }
    ensures needed { result.needed ≡
        reach payload.start (taken_runs (moof_in pending_moof.now) tracks.now) }
    ensures within { (e : ℕ) → payload.end ≡ Some e → payload.start + result.bytes ≤ e }
    ensures reach { (e : ℕ) → payload.end ≡ Some e → payload.start + result.needed ≤ e }
    ensures open { result.bytes ≤ 2 ^ 63 }
{
    // The bytes of a moof are bytes, and no track has a default size past 32 bits: so its runs are sound.
    let _ = pending_moof.moof.bytes();
    let _ = tracks.len();
    let mut so_far = MoofTotals {
        bytes: 0,
        samples: 0,
        needed: 0,
    };
    let mut i = 0;
    while i < pending_moof.runs.len() {
        let run = pending_moof.runs.listed(i);
        so_far = MoofTotals {
            bytes: so_far.bytes + run.bytes,
            samples: so_far.samples + u64::from(run.count),
            needed: so_far.needed.max(payload.needed_by(run)),
        };
        i += 1;
    }
    so_far
}
