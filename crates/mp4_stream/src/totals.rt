//! What is counted of a stream.

ghost use Rattle.std.specs.Prelude.{◌≡◌, ◌+◌, ◌*◌, ◌≤◌};
ghost use Rattle.mp4_fragment_machine.specs.States.{listed_by, reads_of};
ghost use Rattle.mp4_stream.specs.Feeders.{totals_by};

use mp4_fragment_machine::FragmentMachine;
use mp4_recut::Operation;

/// What was counted of a stream so far. A listing of boxes counts no samples: all but its peak are 0.
#[derive(Clone, Copy, Debug, PartialEq, Eq)]
pub struct Totals {
    /// How many fragments, moofs with their mdats. Where the stream is cut: of how many new ones the writer took the
    /// whole moof. Else: how many were accepted.
    pub fragments: u64,
    /// How many samples the accepted fragments have.
    pub samples: u128,
    /// How many bytes of media: those of these samples.
    pub media_bytes: u64,
    /// How many rows of samples were read, each time that one was.
    pub rows_read: u128,
    /// The most bytes that were claimed at once.
    pub peak: u64,
}

impl Totals {
    /// Those of a stream of which nothing was counted yet.
    pub fn new() -> Totals
        ensures { result ≡ record
            { fragments = 0; samples = 0; media_bytes = 0; rows_read = 0; peak = 0 } }
    {
        Totals {
            fragments: 0,
            samples: 0,
            media_bytes: 0,
            rows_read: 0,
            peak: 0,
        }
    }

    /// What a machine has counted, where so many fragments are whole in its output, and this was the most that was
    /// claimed.
    pub(crate) fn of(machine: &FragmentMachine, whole: u64, peak: u64) -> Totals
        ensures is { result ≡ totals_by machine.now.operation machine.now whole peak }
        ensures all { result.samples ≤ machine.now.counter.tally.inspected }
        ensures some { machine.now.counter.tally.inspected + result.samples +
            listed_by machine.now.operation result.samples ≤ result.rows_read }
        ensures few { result.rows_read ≤
            reads_of machine.now.operation * machine.now.counter.tally.inspected }
    {
        let tally = machine.tally();
        // Where a stream is cut, those count that are whole in the output.
        let fragments = match machine.operation() {
            Operation::List(_) => tally.fragments,
            Operation::Split(_) => whole,
        };
        Totals {
            fragments,
            samples: tally.samples,
            media_bytes: tally.media_bytes,
            rows_read: machine.rows_read(),
            peak,
        }
    }
}
