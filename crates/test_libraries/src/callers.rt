//! Callers of the libraries, which their pages `CALLING.md` quote.

ghost use Rattle.std.specs.Prelude.{◌≡◌, ◌+◌, ◌*◌, ◌^◌, ◌<◌, ◌≤◌, ◌↔◌, ◌==◌, ◌∷◌, [], length, codes, nat_le, not, option_map, option_to_list, ◌++◌, IfNone, IfOk, IfErr, OnErr, Err, None, Some, List, true, ℕ};
ghost use Rattle.std.specs.List.{All, list_all, position};
ghost use Rattle.std.specs.Option.{is_some};
ghost use Rattle.mp4_box.specs.declared.rules.Fault.{Fault};
ghost use Rattle.mp4_ledger.specs.declared.ledger.Refused.TheVariants as refusals;
ghost use Rattle.mp4_box.specs.Fields.{number_in};
ghost use Rattle.mp4_box.specs.Headers.{IsWhole};
ghost use Rattle.mp4_box.specs.Order.{IsLeast};
ghost use Rattle.mp4_box.specs.Paths.{at_path, of_kind};
ghost use Rattle.mp4_box.specs.Trees.{Box, box_at, children, tree_faults, view};
ghost use Rattle.mp4_frag.specs.Moofs.{moof_faults, moof_runs};
ghost use Rattle.mp4_frag.specs.RunLists.{taken_runs};
ghost use Rattle.mp4_frag.specs.ListsOfRuns.{IsListOf};
ghost use Rattle.mp4_traf.specs.Rows.{IsCursor, rows_of};
ghost use Rattle.mp4_traf.specs.Runs.{runs_of};
ghost use Rattle.mp4_init.specs.Moovs.{moov_fault, moov_tracks};
ghost use Rattle.mp4_cut.specs.Mdat.{mdat_header};
ghost use Rattle.mp4_cut.specs.Moof.{written_moof};
ghost use Rattle.mp4_pieces.specs.Pieces.{IsPieceOf, pieces_from};
ghost use Rattle.mp4_traf.specs.Ranges.{IsRunOf};
ghost use Rattle.mp4_machine.specs.Ends.{sent};
ghost use Rattle.mp4_machine.specs.Puts.{Writes};
ghost use Rattle.mp4_machine.specs.Readings.{Effects, both};
ghost use Rattle.mp4_recut.specs.Cursors.{AreCut};
ghost use Rattle.mp4_recut.specs.Media.{Emits, output_from, media_position};
ghost use Rattle.mp4_recut.specs.OutputFragments.{output_of};
ghost use Rattle.mp4_recut.specs.Splitting.{runs_fragments};
ghost use Rattle.mp4_run_order.specs.Orders.{FitsKeys, taken};
ghost use Rattle.mp4_run_order.specs.Places.{first_offender};
ghost use Rattle.mp4_run_order.specs.Runs.{IsListing};
ghost use Rattle.mp4_run_order.specs.Implementation.Searches.{found_by_place, found_by_track};
ghost use Rattle.test_libraries.specs.Kinds.{to_trun, traf};

use mp4_box::{Along, BoxRef, Fault, FourCc, check_tree, count_of, number_at, whole_box};
use mp4_cut::{WriteFault, write_mdat_header, write_moof};
use mp4_ends::{Failed, Sink};
use mp4_frag::{Cursor, Moof, Run, RunList, Steps, Traf};
use mp4_init::{InitStop, TrackList, tracks};
use mp4_ledger::Ledger;
use mp4_machine::Block;
use mp4_pieces::{Cut, Piece, Pieces};
use mp4_recut::media::{CutMoof, Media, begin, write_ready_heads};
use mp4_run_order::{ListedRun, Payload, PlaceSearch, TrackSearch};

const TRAF: FourCc = FourCc(*b"traf");

const TRUN: FourCc = FourCc(*b"trun");

/// How many track fragments a moof has, which is one whole box that begins at `offset`; or the fault of its tree.
pub fn track_fragments(moof: &[u8], offset: u64) -> Result<u64, Fault>
    requires whole { IsWhole moof.now }
    requires room { offset + length moof.now ≤ 2 ^ 62 }
    ensures ok { IfOk result (λ n. (b : Box) → box_at offset moof.now ≡ Some b →
        n ≡ length (of_kind traf (children b))) }
    ensures err { IfErr result (λ f. IsLeast f (tree_faults offset moof.now)) }
{
    if let Err(fault) = check_tree(moof, offset) {
        return Err(fault);
    }
    Ok(count_of(TRAF, &whole_box(moof, offset)))
}

/// Whether each run of a moof has samples: its sample_count (ISO/IEC 14496-12, 8.8.8) isn't 0.
pub fn runs_have_samples(moof: &BoxRef<'_>) -> bool
    ensures { result ≡ list_all (λ trun. not (number_in trun.payload 4 == 0))
        (at_path to_trun (view moof.now)) }
{
    for trun in Along::of(&[TRAF, TRUN], moof) {
        if number_at(trun.payload, 4) == 0 {
            return false;
        }
    }
    true
}

/// Whether a moov has a track of this track_ID. What is claimed for its tracks is given back.
pub fn has_track(ledger: &mut Ledger, moov: &[u8], offset: u64, id: u32) -> Result<bool, InitStop>
    requires whole { IsWhole moov.now }
    requires room { offset + length moov.now ≤ 2 ^ 62 }
    ensures ok { IfOk result (λ has. has ≡
        is_some (position (λ t. t.id == id) (moov_tracks offset moov.now))) }
    ensures fault { (f : Fault) → (result ≡ Err (InitStop.Fault f)) ↔
        (moov_fault offset moov.now ≡ Some f) }
    ensures over_limit { (result ≡ Err (InitStop.Refused refusals.OverLimit)) ↔
        ((moov_fault offset moov.now ≡ None) × (ledger.old.limit < ledger.old.live +
        64 * length (moov_tracks offset moov.now))) }
    ensures live { ledger.new.live ≡ ledger.old.live }
{
    let list = match tracks(ledger, moov, offset) {
        Ok(list) => list,
        Err(stop) => return Err(stop),
    };
    let has = list.find(id).is_some();
    list.back(ledger);
    Ok(has)
}

/// What a pass over runs finds that are sorted by track.
fn find_by_track(runs: &[ListedRun]) -> Option<u64>
    ensures { result ≡ found_by_track runs.now }
{
    let mut search = TrackSearch::new();
    for run in runs {
        search = search.past(*run);
    }
    search.offender
}

/// What a pass over runs in taking order finds, with what was found by track.
fn find_by_place(payload: Payload, offender: Option<u64>, runs: &[ListedRun]) -> Option<u64>
    ensures { result ≡ found_by_place payload offender runs.now }
{
    let mut search = PlaceSearch::new(payload, offender);
    for run in runs {
        search = search.past(*run);
    }
    search.offender
}

/// The number of the first run in the listing that is at fault. The runs are then in taking order.
pub fn first_at_fault(payload: Payload, runs: &mut [ListedRun]) -> Option<u64>
    requires listing { IsListing runs.old }
    requires keys { All FitsKeys runs.old }
    ensures found { result ≡ option_map (λ run. run.number) (first_offender payload runs.old) }
    ensures taken { runs.new ≡ taken runs.old }
{
    runs.sort_unstable_by_key(|run| run.track_key());
    let offender = find_by_track(runs);
    runs.sort_unstable_by_key(|run| run.place_key());
    find_by_place(payload, offender, runs)
}

/// Whether each sample of a run has at most so many bytes. `held` are the bytes of its moof.
fn run_fits(run: &Run, held: &[u8], most: u32) -> bool
    ensures { result ≡ list_all (λ row. nat_le row.size most) (rows_of run.now held.now) }
{
    for row in run.rows(held) {
        if row.size > most {
            return false;
        }
    }
    true
}

/// Whether each sample of a traf has at most so many bytes. `held` are the bytes of its moof.
pub fn samples_fit(traf: &Traf<'_>, held: &[u8], most: u32) -> bool
    ensures { result ≡ list_all (λ run. list_all (λ row. nat_le row.size most)
        (rows_of run held.now)) (runs_of traf.now) }
{
    for run in traf.runs() {
        if !run_fits(&run, held, most) {
            return false;
        }
    }
    true
}

/// Whether each run of a traf ends by a time, in ticks.
fn traf_ends_by(traf: &Traf<'_>, time: u64) -> bool
    ensures { result ≡ list_all (λ run. nat_le run.end time) (runs_of traf.now) }
{
    for run in traf.runs() {
        if run.end > time {
            return false;
        }
    }
    true
}

/// Whether each run of a moof ends by a time, in ticks, or the fault of the moof, which begins at this offset.
pub fn ends_by<'a>(
    held: &'a [u8],
    offset: u64,
    tracks: &'a TrackList,
    time: u64,
) -> Result<bool, Fault>
    requires whole { IsWhole held.now }
    requires room { offset + length held.now ≤ 2 ^ 62 }
    ensures ok { IfOk result (λ yes. yes ≡ list_all (λ run. nat_le run.end time)
        (moof_runs (record { bytes = held.now; offset = offset }) tracks.now)) }
    ensures err { IfErr result (λ f. IsLeast f
        (moof_faults (record { bytes = held.now; offset = offset }) tracks.now)) }
{
    let mut steps = Steps { rows: 0 };
    let moof = match Moof::read(held, offset, tracks, &mut steps) {
        Ok(moof) => moof,
        Err(fault) => return Err(fault),
    };
    for traf in moof.trafs(tracks) {
        if !traf_ends_by(&traf, time) {
            return Ok(false);
        }
    }
    Ok(true)
}

/// The next piece of a run from a cursor on. The cursor is after it then, so that no list of pieces is kept.
pub fn next_piece(run: &Run, held: &[u8], cut: &Cut, at: &mut Cursor) -> Option<Piece>
    requires run { IsRunOf held.now run.now }
    requires cursor { IsCursor run.now held.now at.old }
    ensures pieces { pieces_from cut.now held.now run.now at.old ≡
        option_to_list result ++ pieces_from cut.now held.now run.now at.new }
    ensures none { IfNone result (pieces_from cut.now held.now run.now at.new ≡ []) }
    ensures cursor { IsCursor run.now held.now at.new }
{
    let piece = Pieces::at(run, held, cut, *at).next()?;
    *at = piece.plain.cursor_after();
    Some(piece)
}

/// Writes everything that comes before the media of a piece: its moof, and the header of its mdat.
pub fn write_front<W: Sink>(
    piece: &Piece,
    run: &Run,
    held: &[u8],
    sequence_number: u32,
    w: &mut W,
) -> Result<(), WriteFault>
    requires run { IsRunOf held.now run.now }
    requires piece { IsPieceOf held.now run.now piece.now }
    requires media { piece.now.plain.bytes ≤ 2 ^ 62 }
    ensures { Writes (sent W.contents W.has_failed w.old w.new)
        (written_moof piece.now run.now held.now sequence_number ++ mdat_header piece.now.plain.bytes)
        result }
{
    match write_moof(piece, run, held, sequence_number, w) {
        Ok(()) => {}
        Err(WriteFault) => return Err(WriteFault),
    }
    match write_mdat_header(piece.plain.bytes, w) {
        Ok(()) => Ok(()),
        Err(WriteFault) => Err(WriteFault),
    }
}

/// Puts all that is written of a moof before its first media byte: the head of its first piece, and of
/// those after it as long as no media byte is needed. Gives where the media begin then.
pub fn put_first_heads<W: Sink>(
    moof: &Moof<'_>,
    runs: &RunList,
    tracks: &TrackList,
    cut: &Cut,
    fragments: &mut u64,
    block: &mut Block,
    w: &mut W,
) -> Result<Media, Failed>
    requires list { IsListOf moof.now tracks.now runs.now }
    requires cut { AreCut cut.now moof.now tracks.now }
    requires numbers { fragments.old + 1 + length (runs_fragments cut.now moof.now.bytes tracks.now
        (fragments.old + 1) (taken_runs moof.now tracks.now)) ≤ 2 ^ 32 }
    ensures emitted { IfOk result (λ media. (at : ℕ) → (emitted : Effects) ×
        Emits (W.contents w.old) (W.contents w.new) block.old block.new fragments.old
        fragments.new emitted × ((bytes : List ℕ) →
        output_of at (runs_fragments cut.now moof.now.bytes tracks.now (fragments.old + 1)
        (taken_runs moof.now tracks.now)) bytes ≡ both emitted (output_from (media_position cut.now moof.now
        tracks.now at (fragments.new + 1) media) bytes))) }
    ensures failed { OnErr result (W.has_failed w.new ≡ true) }
{
    let cut_moof = CutMoof {
        moof,
        runs,
        tracks,
        cut,
    };
    let media = begin(&cut_moof);
    match write_ready_heads(media, &cut_moof, fragments, block, w) {
        Ok(media) => Ok(media),
        Err(Failed) => Err(Failed),
    }
}
