//! Why a run stops.

ghost use Rattle.std.specs.Prelude.{◌≡◌};
ghost use Rattle.mp4_machine.specs.Inputs.{refusal_of};

use mp4_box::Fault;
use mp4_ledger::Refused;

/// Why a run stopped.
#[derive(Clone, Copy, Debug, PartialEq, Eq)]
pub enum Stop {
    /// The stream has this fault.
    Stream(Fault),
    /// A read failed, after so many bytes.
    Read {
        /// How many bytes were read.
        at: u64,
    },
    /// A write failed.
    Write,
    /// A claim would pass the ledger's limit.
    OverLimit,
    /// The allocator gave no memory.
    Memory,
}

impl Stop {
    /// The stop of a run whose claim was refused so.
    pub fn of_refusal(refused: Refused) -> Stop
        ensures { result ≡ refusal_of refused }
    {
        match refused {
            Refused::OverLimit => Stop::OverLimit,
            Refused::Memory => Stop::Memory,
        }
    }
}
