//! From the bytes of a moov to its tracks.

ghost use Rattle.std.specs.Prelude.{◌≡◌, ◌+◌, ◌*◌, ◌^◌, ◌<◌, ◌≤◌, ◌↔◌, length, Some, None, Err, IfOk, OnOk, OnErr};
ghost use Rattle.mp4_ledger.specs.Memory.{claimed};
ghost use Rattle.mp4_box.specs.declared.rules.Fault.{Fault};
ghost use Rattle.mp4_box.specs.Headers.{IsWhole};
ghost use Rattle.mp4_box.specs.Order.{IsLeast};
ghost use Rattle.mp4_init.specs.Moovs.{moov_fault, moov_faults, moov_tracks};

use crate::build::list_of;
use crate::rules::content_fault_of;
use crate::table::TrackList;
use mp4_box::{Fault, check_tree, whole_box};
use mp4_ledger::{Ledger, Refused};
use thiserror::Error;

/// Why there are no tracks.
#[derive(Clone, Copy, Debug, PartialEq, Eq, Error)]
pub enum InitStop {
    /// The moov breaks a rule.
    #[error("the moov breaks a rule")]
    Fault(Fault),
    /// The table of tracks was not claimed.
    #[error("the table of tracks was refused")]
    Refused(Refused),
}

/// The tracks of the moov that the bytes are, one whole box of stated size that begins at `offset` in the stream:
/// one for each trak directly in it, in order, each `next` 0 (ISO/IEC 14496-12, 8.2.1 to 8.8.3). The
/// table takes 64 bytes for each.
///
/// # Errors
///
/// `Fault` where the moov breaks a rule: of the lowest that it breaks, at the box that begins first of those that
/// break it. The rules of its tree come first, then those of its boxes; their values are checked only if the
/// boxes are as they must be. Else `Refused` where the table is refused. Nothing is claimed then.
pub fn tracks(ledger: &mut Ledger, moov: &[u8], offset: u64) -> Result<TrackList, InitStop>
    requires whole { IsWhole moov.now }
    requires room { offset + length moov.now ≤ 2 ^ 62 }
    ensures list { IfOk result (λ l. l ≡ moov_tracks offset moov.now) }
    ensures good { OnOk result (moov_fault offset moov.now ≡ None) }
    ensures ok { IfOk result (λ l. ledger.new ≡ claimed ledger.old (64 * length l)) }
    ensures fault { (f : Fault) → (result ≡ Err (InitStop.Fault f)) ↔
        (moov_fault offset moov.now ≡ Some f) }
    ensures least { (f : Fault) → result ≡ Err (InitStop.Fault f) →
        IsLeast f (moov_faults offset moov.now) }
    ensures refused { (r : Refused) → result ≡ Err (InitStop.Refused r) →
        moov_fault offset moov.now ≡ None }
    ensures over_limit { (result ≡ Err (InitStop.Refused Refused.OverLimit)) ↔
        ((moov_fault offset moov.now ≡ None) × (ledger.old.limit < ledger.old.live +
        64 * length (moov_tracks offset moov.now))) }
    ensures err { OnErr result (ledger.new ≡ ledger.old) }
{
    if let Err(fault) = check_tree(moov, offset) {
        return Err(InitStop::Fault(fault));
    }
    let this = whole_box(moov, offset);
    if let Some(fault) = content_fault_of(&this) {
        return Err(InitStop::Fault(fault));
    }
    match list_of(ledger, &this) {
        Ok(list) => Ok(list),
        Err(refused) => Err(InitStop::Refused(refused)),
    }
}
