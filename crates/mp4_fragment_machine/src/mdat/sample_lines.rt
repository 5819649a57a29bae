//! The lines of a fragment's samples.

ghost use Rattle.std.specs.Prelude.{◌≡◌, Some};
ghost use Rattle.mp4_traf.specs.Cursors.{HasRoom};
ghost use Rattle.mp4_traf.specs.Ranges.{IsRunOf};
ghost use Rattle.mp4_machine.specs.Ends.{sent};
ghost use Rattle.mp4_machine.specs.Puts.{Puts};
ghost use Rattle.mp4_grammar.specs.Samples.{sample_lines, sample_of, samples_from, samples_of_run};
ghost use Rattle.mp4_fragment_machine.specs.States.{IsPendingMoof, lines_of};

use crate::pending_moof::PendingMoof;
use mp4_ends::{Failed, Sink};
use mp4_frag::{Cursor, Row, Rows, Run};
use mp4_grammar::{CachedLine, Sample};
use mp4_init::TrackList;
use mp4_machine::Block;

/// From so many rows on it is faster to keep the fields that rarely change from line to line.
const MANY: u32 = 16;

/// The sample of a row of a run at this cursor.
fn sample_at(run: &Run, row: &Row, at: Cursor) -> Sample
    ensures { result ≡ sample_of run.now row.now at.time at.place }
{
    Sample::of(run, row, at.time, at.place)
}

/// Puts the lines of the samples of these rows of a run, the first of which is at this cursor.
#[tactic(auto, using(mp4_traf::proofs::CursorLemmas::fits))]
fn put_rows<W: Sink>(
    run: &Run,
    rows: &mut Rows<'_>,
    from: Cursor,
    out: &mut Block,
    w: &mut W,
) -> Result<(), Failed>
    requires { HasRoom from rows.old }
    ensures { Puts (sent W.contents W.has_failed w.old w.new) out.old out.new
        (sample_lines (samples_from run.now rows.old from.time from.place)) result }
{
    let mut at = from;
    loop {
        let Some(row) = rows.next() else {
            return Ok(());
        };
        match out.put_line(w, &sample_at(run, &row, at)) {
            Ok(()) => {}
            Err(Failed) => return Err(Failed),
        }
        at = at.past(&row);
    }
}

/// The line of a sample that has only the defaults of its run.
fn common_line(run: &Run, at: Cursor) -> CachedLine {
    let row = Row {
        duration: run.duration,
        size: run.size,
        flags: run.flags,
        offset: 0,
    };
    CachedLine::of(&sample_at(run, &row, at))
}

/// Puts the same lines as `put_rows`, and keeps the text that rarely changes from line to line.
#[tactic(auto, using(mp4_traf::proofs::CursorLemmas::fits))]
fn put_many_rows<W: Sink>(
    run: &Run,
    rows: &mut Rows<'_>,
    from: Cursor,
    out: &mut Block,
    w: &mut W,
) -> Result<(), Failed>
    requires { HasRoom from rows.old }
    ensures { Puts (sent W.contents W.has_failed w.old w.new) out.old out.new
        (sample_lines (samples_from run.now rows.old from.time from.place)) result }
{
    let mut line = common_line(run, from);
    let mut cursor = from;
    loop {
        let Some(row) = rows.next() else {
            return Ok(());
        };
        line.set(&sample_at(run, &row, cursor));
        match out.put_line(w, &line) {
            Ok(()) => {}
            Err(Failed) => return Err(Failed),
        }
        cursor = cursor.past(&row);
    }
}

/// Puts the lines of the samples of a long run. It is a call, so that a short run needn't clear the space for the kept
/// text.
#[inline(never)]
fn put_many<W: Sink>(run: &Run, moof_bytes: &[u8], out: &mut Block, w: &mut W) -> Result<(), Failed>
    requires { IsRunOf moof_bytes.now run.now }
    ensures { Puts (sent W.contents W.has_failed w.old w.new) out.old out.new
        (sample_lines (samples_of_run moof_bytes.now run.now)) result }
{
    put_many_rows(run, &mut run.rows(moof_bytes), run.first_cursor(), out, w)
}

/// Puts the lines of the samples of a run. `moof_bytes` are the bytes of its moof.
pub(crate) fn put_run<W: Sink>(
    run: &Run,
    moof_bytes: &[u8],
    out: &mut Block,
    w: &mut W,
) -> Result<(), Failed>
    requires { IsRunOf moof_bytes.now run.now }
    ensures { Puts (sent W.contents W.has_failed w.old w.new) out.old out.new
        (sample_lines (samples_of_run moof_bytes.now run.now)) result }
{
    if MANY <= run.count {
        return put_many(run, moof_bytes, out, w);
    }
    put_rows(run, &mut run.rows(moof_bytes), run.first_cursor(), out, w)
}

/// Puts the lines of the samples of the pending moof, its runs in the order in which they are taken.
pub(crate) fn put_runs<W: Sink>(
    pending_moof: &PendingMoof,
    tracks: &TrackList,
    out: &mut Block,
    w: &mut W,
) -> Result<(), Failed>
    requires { IsPendingMoof (Some tracks.now) pending_moof.now }
    ensures { Puts (sent W.contents W.has_failed w.old w.new) out.old out.new
        (lines_of pending_moof.now tracks.now) result }
{
    let moof = pending_moof.moof();
    let mut i = 0;
    while i < pending_moof.runs.len() {
        let run = pending_moof.runs.at(i, &moof, tracks);
        match put_run(&run, pending_moof.moof.bytes(), out, w) {
            Ok(()) => {}
            Err(Failed) => return Err(Failed),
        }
        i += 1;
    }
    Ok(())
}
