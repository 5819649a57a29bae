//! A stream that is pushed into a Feeder, input by input.

ghost use Rattle.std.specs.List.{flat_map};
ghost use Rattle.std.specs.Prelude.{◌≡◌};
ghost use Rattle.mp4_machine.specs.Ends.{sent};
ghost use Rattle.mp4_recut.specs.declared.operation.Operation.TheVariants.{Split};
ghost use Rattle.mp4_stream.specs.Pushes.{Pushes};

use crate::feeder::Feeder;
use crate::totals::Totals;
use mp4_cut::Cut;
use mp4_ends::Sink;
use mp4_ledger::Ledger;
use mp4_machine::Stop;

/// Pushes inputs in as they come, and ends the stream after them. The output doesn't depend on how the stream was cut
/// into inputs: it is that of their join.
///
/// # Errors
///
/// As [`Feeder::feed`] and [`Feeder::finish`].
pub fn split_pieces<W: Sink>(
    pieces: &[&[u8]],
    w: &mut W,
    ledger: &mut Ledger,
    cut: Cut,
) -> Result<Totals, Stop>
    ensures pushes { Pushes (Split cut) (flat_map (λ input. input.now) pieces.now)
        (sent W.contents W.has_failed w.old w.new) ledger.old.live ledger.old.limit result }
    ensures back { ledger.new.live ≡ ledger.old.live }
    ensures limit { ledger.new.limit ≡ ledger.old.limit }
{
    let mut feeder = Feeder::new(cut);
    for input in pieces {
        // After a stop it writes nothing, and `finish` returns the same.
        let _ = feeder.feed(ledger, input, w);
    }
    feeder.finish(ledger)
}
