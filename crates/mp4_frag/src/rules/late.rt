//! Which runs of a moof end past 64 bits.

ghost use Rattle.std.specs.Prelude.{◌≡◌, ◌+◌, ◌^◌, ◌≤◌, length};
ghost use Rattle.mp4_box.specs.Headers.{IsWhole};
ghost use Rattle.mp4_box.specs.Order.{least};
ghost use Rattle.mp4_frag.specs.Moofs.{moof_trafs, time_faults};
ghost use Rattle.mp4_traf.specs.Runs.{moof_at};

use mp4_box::types::TRAF;
use mp4_box::{Fault, note_along, whole_box};
use mp4_init::TrackList;
use mp4_traf::internal::InTime;

/// The fault of the first run that ends past 64 bits. All runs are gone over.
pub(crate) fn late_fault(moof_bytes: &[u8], offset: u64, tracks: &TrackList) -> Option<Fault>
    requires whole { IsWhole moof_bytes.now }
    requires room { offset + length moof_bytes.now ≤ 2 ^ 62 }
    ensures { result ≡ least (time_faults (moof_trafs (moof_at moof_bytes.now offset) tracks.now)) }
{
    let moof = whole_box(moof_bytes, offset);
    let check = InTime {
        moof_bytes,
        moof: offset,
        tracks,
    };
    let mut best = None;
    note_along(&check, &[TRAF], &moof, &mut best);
    best
}
