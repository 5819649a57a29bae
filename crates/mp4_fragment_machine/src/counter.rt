//! What a machine has counted.

ghost use Rattle.std.specs.Prelude.{◌≡◌, ◌+◌, ◌<◌, ◌^◌};
ghost use Rattle.mp4_machine.specs.Readings.{accepts, plus};
ghost use Rattle.mp4_recut.specs.declared.operation.Operation.TheVariants as operations;
ghost use Rattle.mp4_fragment_machine.specs.States.{listed_by};

use mp4_frag::Steps;
use mp4_grammar::Command;
use mp4_machine::Tally;

/// What a machine has counted of the stream, and how many rows it has read.
#[derive(Clone, Copy)]
pub(crate) struct Counter {
    pub(crate) tally: Tally,
    pub(crate) steps: Steps,
}

/// Counts so many samples of a moof as inspected, and so many rows as read.
#[inline(always)]
pub(crate) fn inspect(counter: &mut Counter, samples: u128, rows: u128)
    requires inspected { counter.old.tally.inspected + samples < 2 ^ 128 }
    requires steps { counter.old.steps.rows + rows < 2 ^ 128 }
    ensures { counter.new ≡ record {
      tally = record counter.old.tally { inspected = counter.old.tally.inspected + samples };
      steps = record { rows = counter.old.steps.rows + rows };
    } }
{
    counter.tally.inspected += samples;
    counter.steps.rows += rows;
}

/// Counts the samples of a fragment that is accepted and recut, with so many bytes of media.
#[inline(always)]
pub(crate) fn count_samples(tally: &mut Tally, samples: u64, bytes: u64)
    requires samples { tally.old.samples + samples < 2 ^ 128 }
    requires media { tally.old.media_bytes + bytes < 2 ^ 64 }
    ensures { tally.new ≡ record tally.old {
      samples = tally.old.samples + samples;
      media_bytes = tally.old.media_bytes + bytes;
    } }
{
    tally.samples += u128::from(samples);
    tally.media_bytes += bytes;
}

/// Counts a fragment that is accepted and listed, with so many samples and bytes of media, and the rows that are read
/// for its lines.
#[inline(always)]
pub(crate) fn accept(counter: &mut Counter, command: Command, samples: u64, bytes: u64)
    requires fragments { counter.old.tally.fragments + 1 < 2 ^ 64 }
    requires samples { counter.old.tally.samples + samples < 2 ^ 128 }
    requires media { counter.old.tally.media_bytes + bytes < 2 ^ 64 }
    requires steps { counter.old.steps.rows < 2 ^ 127 }
    ensures tally { counter.new.tally ≡ plus counter.old.tally (accepts samples bytes) }
    ensures rows_read { counter.new.steps.rows ≡
        counter.old.steps.rows + listed_by (operations.List command) samples }
{
    counter.tally.fragments += 1;
    counter.tally.samples += u128::from(samples);
    counter.tally.media_bytes += bytes;
    match command {
        Command::Check => {}
        Command::Samples => counter.steps.rows += u128::from(samples),
        Command::Fragments | Command::Records => counter.steps.rows += 2 * u128::from(samples),
    }
}
