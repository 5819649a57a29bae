//! The lines of a fragment's trafs, or their records.

ghost use Rattle.std.specs.Prelude.{ℕ, ◌≡◌, ◌+◌, ◌≤◌, ◌^◌, ◌∷◌, [], IfSome, Some, length};
ghost use Rattle.std.specs.List.{AllByRecursion, flat_map};
ghost use Rattle.mp4_box.specs.Headers.{IsWhole};
ghost use Rattle.mp4_frag.specs.Moofs.{IsRead};
ghost use Rattle.mp4_frag.specs.SingleRuns.{IsSingle};
ghost use Rattle.mp4_traf.specs.Ranges.{IsRunOf, IsSound};
ghost use Rattle.mp4_traf.specs.Runs.{TrackFragment, moof_at, runs_of};
ghost use Rattle.mp4_grammar.specs.FragmentLines.{traf_with};
ghost use Rattle.mp4_grammar.specs.Presented.{presented_of};
ghost use Rattle.mp4_traf.specs.TrafTotals.{totals_of};
ghost use Rattle.mp4_machine.specs.Bodies.{least_end, longest};
ghost use Rattle.mp4_machine.specs.Ends.{sent};
ghost use Rattle.mp4_machine.specs.Puts.{Puts};
ghost use Rattle.mp4_fragment_machine.specs.Implementation.TrafLines.{moof_lines, put_of, put_with, size_with};

use mp4_box::{Header, Size};
use mp4_ends::{Failed, Sink};
use mp4_frag::{Moof, Run, SingleRun, Traf, TrafTotals, Trafs};
use mp4_grammar::{Command, ListedTraf, Presented, TrafRecord};
use mp4_init::TrackList;
use mp4_machine::Block;
use mp4_traf::internal::known_track;

/// Puts the line of a traf, or its record.
#[inline(always)]
fn put_traf<W: Sink>(
    command: Command,
    traf: &ListedTraf,
    tracks: &TrackList,
    out: &mut Block,
    w: &mut W,
) -> Result<(), Failed>
    ensures { Puts (sent W.contents W.has_failed w.old w.new) out.old out.new
        (put_of command tracks.now traf.now) result }
{
    match command {
        Command::Fragments => out.put_line(w, traf),
        Command::Records => {
            out.put_line(w, &TrafRecord::of(traf, &known_track(tracks, traf.track)))
        }
        _ => Ok(()),
    }
}

/// The only run of a traf.
#[inline(always)]
fn only_run_of(traf: &Traf<'_>) -> Option<Run>
    ensures { IfSome result (λ run. runs_of traf.now ≡ run ∷ []) }
{
    let mut runs = traf.runs();
    let Some(first) = runs.next() else {
        return None;
    };
    match runs.next() {
        None => Some(first),
        Some(_) => None,
    }
}

/// A traf of a fragment with this sequence_number that begins at `at` and has `size` bytes. `moof_bytes` are the bytes
/// of its moof. Each of its rows is read at most twice.
fn listed<'a>(
    moof_bytes: &'a [u8],
    tracks: &TrackList,
    sequence: u32,
    at: u64,
    size: Option<u64>,
    traf: &Traf<'a>,
) -> ListedTraf
    requires sound { IsSound traf.now }
    requires bytes { traf.now.shared.moof.bytes ≡ moof_bytes.now }
    ensures { result ≡ traf_with sequence at size tracks.now (totals_of traf.now) (presented_of traf.now) }
{
    if let Some(run) = only_run_of(traf) {
        let totals = TrafTotals::of_only_run(&run, moof_bytes);
        let presented = Presented::of_only_run(&run, moof_bytes);
        return ListedTraf::of(sequence, at, size, tracks, &totals, presented);
    }
    let presented = Presented::of(traf, moof_bytes);
    ListedTraf::of(sequence, at, size, tracks, &traf.totals(), presented)
}

/// Puts the lines of these trafs, or their records, of a fragment with this sequence_number that begins at `at` and has
/// `size` bytes. `moof_bytes` are the bytes of its moof.
fn put_trafs<W: Sink>(
    command: Command,
    moof_bytes: &[u8],
    tracks: &TrackList,
    sequence: u32,
    at: u64,
    size: Option<u64>,
    trafs: &mut Trafs<'_>,
    out: &mut Block,
    w: &mut W,
) -> Result<(), Failed>
    requires sound { AllByRecursion IsSound trafs.old }
    requires bytes { AllByRecursion (λ (t : TrackFragment). t.shared.moof.bytes ≡ moof_bytes.now) trafs.old }
    ensures { Puts (sent W.contents W.has_failed w.old w.new) out.old out.new
        (flat_map (put_with command tracks.now sequence at size) trafs.old) result }
{
    loop {
        let Some(traf) = trafs.next() else {
            return Ok(());
        };
        let listed_traf = listed(moof_bytes, tracks, sequence, at, size, &traf);
        match put_traf(command, &listed_traf, tracks, out, w) {
            Ok(()) => {}
            Err(Failed) => return Err(Failed),
        }
    }
}

/// Puts the lines of the trafs of a moof at `at`, or their records, whose fragment has `size` bytes; none where its mdat
/// goes to the end of the stream. `moof_bytes` are its bytes.
// A call of its own, so that other commands don't clear its locals for each fragment.
#[inline(never)]
fn list_trafs<W: Sink>(
    command: Command,
    moof_bytes: &[u8],
    at: u64,
    size: Option<u64>,
    tracks: &TrackList,
    out: &mut Block,
    w: &mut W,
) -> Result<(), Failed>
    requires whole { IsWhole moof_bytes.now }
    requires room { at + length moof_bytes.now ≤ 2 ^ 62 }
    requires read { IsRead (moof_at moof_bytes.now at) tracks.now }
    ensures { Puts (sent W.contents W.has_failed w.old w.new) out.old out.new
        (moof_lines command (moof_at moof_bytes.now at) tracks.now size) result }
{
    let moof = Moof::again(moof_bytes, at);
    let mut trafs = moof.trafs(tracks);
    put_trafs(
        command,
        moof_bytes,
        tracks,
        moof.sequence_number(),
        at,
        size,
        &mut trafs,
        out,
        w,
    )
}

/// Puts what is asked for of the trafs of a moof, as [`list_trafs`]: nothing where neither lines nor records are.
#[inline(always)]
pub(crate) fn put_moof_lines<W: Sink>(
    command: Command,
    moof: &Moof<'_>,
    size: Option<u64>,
    tracks: &TrackList,
    out: &mut Block,
    w: &mut W,
) -> Result<(), Failed>
    requires { IsRead moof.now tracks.now }
    ensures { Puts (sent W.contents W.has_failed w.old w.new) out.old out.new
        (moof_lines command moof.now tracks.now size) result }
{
    match command {
        Command::Check | Command::Samples => Ok(()),
        Command::Fragments | Command::Records => {
            list_trafs(command, moof.bytes(), moof.offset(), size, tracks, out, w)
        }
    }
}

/// The only traf of a moof at `at`, whose only run was read, and whose fragment has `size` bytes. `moof_bytes` are its
/// bytes. Each row of the run is read once, and the first once more.
#[inline(always)]
fn single_traf(
    moof_bytes: &[u8],
    at: u64,
    single_run: &SingleRun,
    size: u64,
    tracks: &TrackList,
) -> ListedTraf
    requires { IsRunOf moof_bytes.now single_run.now.run }
    ensures { (command : Command) →
        IsSingle (moof_at moof_bytes.now at) tracks.now single_run.now → put_of command tracks.now result ≡
        moof_lines command (moof_at moof_bytes.now at) tracks.now (Some size) }
{
    let run = &single_run.run;
    let totals = TrafTotals::of_only_run(run, moof_bytes);
    let presented = Presented::of_only_run(run, moof_bytes);
    ListedTraf::of(
        single_run.sequence,
        at,
        Some(size),
        tracks,
        &totals,
        presented,
    )
}

/// Puts the line of the only traf of a moof at `at`, or its record, as [`single_traf`] reads it.
// A call of its own, so that other commands don't clear its locals for each fragment.
#[inline(never)]
pub(crate) fn put_single_traf<W: Sink>(
    command: Command,
    moof_bytes: &[u8],
    at: u64,
    single_run: &SingleRun,
    size: u64,
    tracks: &TrackList,
    out: &mut Block,
    w: &mut W,
) -> Result<(), Failed>
    requires run { IsRunOf moof_bytes.now single_run.now.run }
    requires single_run { IsSingle (moof_at moof_bytes.now at) tracks.now single_run.now }
    ensures { Puts (sent W.contents W.has_failed w.old w.new) out.old out.new
        (moof_lines command (moof_at moof_bytes.now at) tracks.now (Some size)) result }
{
    let traf = single_traf(moof_bytes, at, single_run, size, tracks);
    put_traf(command, &traf, tracks, out, w)
}

/// How many bytes a fragment has, whose moof has so many, and whose mdat has this header; none where the mdat goes to
/// the end of the stream.
pub(crate) fn size_of(moof_len: u64, header: &Header) -> Option<u64>
    requires { least_end moof_len header.now header.now.size ≤ longest }
    ensures { (at : ℕ) → result ≡ size_with at moof_len header.now.size }
{
    match header.size {
        Size::Exact(size) => Some(moof_len + size),
        Size::ToEnd => None,
    }
}
