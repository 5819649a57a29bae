//! How much memory is claimed, and how much may be.

ghost use Rattle.std.specs.Prelude.{◌≡◌, ◌+◌, ◌-◌, ◌*◌, ◌<◌, ◌≤◌, ◌↔◌, [], max, OnOk, OnErr, IfErr, IfOk, IsErrOf};
ghost use Rattle.mp4_ledger.specs.Memory.{claimed, given_back, limited};

use std::alloc::Global;
use std::marker::Model;

/// Why a claim was refused.
#[derive(Clone, Copy, Debug, PartialEq, Eq)]
pub enum Refused {
    /// The claim would pass the limit.
    OverLimit,
    /// The allocator gave no memory.
    Memory,
}

/// Counts the bytes that are claimed.
#[derive(Drop)]
pub struct Ledger {
    pub(crate) alloc: Global,
    pub(crate) limit: u64,
    pub(crate) live: u64,
    peak: u64,
}

// A contract sees the account.
impl Model for Ledger {
    ghost use Rattle.std.specs.Prelude.{◌≤◌};
    ghost use Rattle.mp4_ledger.specs.Memory.{Account};

    ghost Value = { Account };

    ghost view = { λ l. record { limit = l.limit; live = l.live; peak = l.peak } };

    ghost invariant = { λ l. (l.live ≤ l.limit) × (l.live ≤ l.peak) × (l.peak ≤ l.limit) };
}

/// The peak of a ledger before it was marked. Only a mark makes one, and it must be spent: lifted back, or forgotten.
pub struct EarlierPeak {
    peak: u64,
}

// A contract sees the number.
impl Model for EarlierPeak {
    ghost use Rattle.std.specs.Prelude.{ℕ};

    ghost Value = { ℕ };

    ghost view = { λ e. e.peak };
}

impl EarlierPeak {
    /// Forgets it: the ledger counts from its mark on.
    pub fn forget(self) {
        let EarlierPeak { peak: _ } = self;
    }
}

impl Ledger {
    /// A ledger without claims, and with this limit in bytes.
    pub fn new(alloc: Global, limit: u64) -> Ledger
        ensures { result ≡ record { limit = limit; live = 0; peak = 0 } }
    {
        Ledger {
            alloc,
            limit,
            live: 0,
            peak: 0,
        }
    }

    /// How many bytes are claimed.
    pub fn live(&self) -> u64
        ensures live { result ≡ self.now.live }
        ensures within { self.now.live ≤ self.now.limit }
    {
        self.live
    }

    /// The most bytes that were claimed at once since the ledger was made, or last marked.
    pub fn peak(&self) -> u64
        ensures peak { result ≡ self.now.peak }
        ensures most { self.now.live ≤ self.now.peak }
        ensures within { self.now.peak ≤ self.now.limit }
    {
        self.peak
    }

    /// The limit in bytes.
    pub fn limit(&self) -> u64
        ensures limit { result ≡ self.now.limit }
        ensures within { self.now.live ≤ self.now.limit }
    {
        self.limit
    }

    /// Begins a new peak, which counts from what is claimed now. Returns the old one, to be lifted back or forgotten.
    pub fn mark(&mut self) -> EarlierPeak
        ensures marked { self.new ≡ record self.old { peak = self.old.live } }
        ensures earlier { result ≡ self.old.peak }
        ensures most { self.old.live ≤ self.old.peak }
        ensures within { self.old.peak ≤ self.old.limit }
    {
        let earlier = EarlierPeak { peak: self.peak };
        self.peak = self.live;
        earlier
    }

    /// Counts a peak that was reached before a mark: the peak is at least so much then. The token doesn't say of which
    /// ledger it is: that of another one is counted too, where it is within the limit.
    pub fn lift(&mut self, earlier: EarlierPeak)
        requires { earlier ≤ self.old.limit }
        ensures { self.new ≡ record self.old { peak = max self.old.peak earlier } }
    {
        let EarlierPeak { peak } = earlier;
        self.peak = self.peak.max(peak);
    }

    /// Sets the limit in bytes, but no lower than what is claimed, and begins a new peak, which counts from what is
    /// claimed now.
    pub fn set_limit(&mut self, limit: u64)
        ensures { self.new ≡ limited self.old limit }
    {
        let live = self.live;
        self.limit = limit.max(live);
        self.peak = live;
    }

    /// Counts a claim of so many bytes, for which there is room elsewhere, and gives it back at once: the peak is that
    /// of a claim that was made.
    ///
    /// # Errors
    ///
    /// `OverLimit` where the claim passes the limit; never `Memory`.
    pub fn count_claim(&mut self, claim: u64) -> Result<(), Refused>
        ensures ok { OnOk result (self.new ≡ given_back (claimed self.old claim) claim) }
        ensures over_limit { IsErrOf result Refused.OverLimit ↔
            (self.old.limit < self.old.live + claim) }
        ensures err { OnErr result (self.new ≡ self.old) }
        ensures memory { IfErr result (λ r. r ≡ Refused.OverLimit) }
    {
        if claim > self.limit - self.live {
            return Err(Refused::OverLimit);
        }
        self.count(claim);
        self.live -= claim;
        Ok(())
    }

    /// Counts bytes that are claimed, for which there is room.
    pub(crate) fn count(&mut self, claim: u64)
        requires { self.old.live + claim ≤ self.old.limit }
        ensures { self.new ≡ claimed self.old claim }
    {
        self.live += claim;
        self.peak = self.peak.max(self.live);
    }
}
