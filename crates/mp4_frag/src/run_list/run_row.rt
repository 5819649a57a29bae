//! What a row of a list keeps of a run.

ghost use Rattle.std.specs.Prelude.{◌≡◌, ◌+◌, ◌<◌, ◌∷◌, ◌++◌, [], length};
ghost use Rattle.std.specs.List.{All};
ghost use Rattle.mp4_run_order.specs.Orders.{FitsKeys};
ghost use Rattle.mp4_traf.specs.Ranges.{InRange};
ghost use Rattle.mp4_frag.specs.Implementation.RunRows.{listed_words, row_of_run, row_of_words, rows_of_words};

use mp4_ledger::Rows64;
use mp4_traf::Run;

/// How many numbers of 32 bits there are.
const HALF: u64 = 1 << 32;

/// What a row of a list keeps of a run, so that no row of the run is read again. The rest of it is read in its trun
/// and in the tfhd of its traf.
#[derive(Clone, Copy, Debug)]
pub struct RunRow {
    /// The offset in the stream of the first byte of its samples.
    pub place: i64,
    /// The offset in the stream of its trun.
    pub trun: u64,
    /// The decode time of its first sample.
    pub time: u64,
    /// Where it ends in time.
    pub end: u64,
    /// How many bytes its samples have.
    pub bytes: u64,
    /// Where in the moof its traf ends.
    pub traf_ends_at: u64,
    /// The offset in the stream of the tfhd of its traf.
    pub tfhd: u64,
    /// The track_ID of its track.
    pub track: u32,
    /// How many samples it has.
    pub count: u32,
}

/// The eight numbers of a row.
#[tactic(auto, unfolding(crate::specs::Implementation::RunRows::row_of_words))]
pub(crate) fn words_of(row: RunRow) -> [u64; 8]
    ensures { row_of_words result ≡ row }
{
    let place = i128::from(row.place) - i128::from(i64::MIN);
    [
        place as u64,
        row.trun,
        row.time,
        row.end,
        row.bytes,
        row.traf_ends_at,
        row.tfhd,
        u64::from(row.track) * HALF + u64::from(row.count),
    ]
}

/// The row that eight numbers are.
#[tactic(auto, unfolding(crate::specs::Implementation::RunRows::row_of_words))]
pub(crate) fn row_of_words(words: [u64; 8]) -> RunRow
    ensures { result ≡ row_of_words words }
{
    let place = i128::from(words[0]) + i128::from(i64::MIN);
    RunRow {
        place: place as i64,
        trun: words[1],
        time: words[2],
        end: words[3],
        bytes: words[4],
        traf_ends_at: words[5],
        tfhd: words[6],
        track: (words[7] / HALF) as u32,
        count: (words[7] % HALF) as u32,
    }
}

/// The row of a run, whose traf has its tfhd at this offset.
pub(crate) fn row_of_run(tfhd: u64, run: &Run) -> RunRow
    requires { InRange run.now }
    ensures { result ≡ row_of_run tfhd run.now }
{
    RunRow {
        place: run.place as i64,
        trun: run.offset,
        time: run.time,
        end: run.end,
        bytes: run.bytes,
        traf_ends_at: run.traf_ends_at,
        tfhd,
        track: run.track,
        count: run.count,
    }
}

/// Appends the row of a run.
pub(crate) fn push_run(rows: &mut Rows64, tfhd: u64, run: &Run)
    requires room { length rows.old.rows < rows.old.cap }
    requires range { InRange run.now }
    requires fits { All FitsKeys (listed_words rows.old.rows) }
    ensures rows { rows_of_words rows.new.rows ≡ rows_of_words rows.old.rows ++
        row_of_run tfhd run.now ∷ [] }
    ensures fits { All FitsKeys (listed_words rows.new.rows) }
    ensures len { length rows.new.rows ≡ length rows.old.rows + 1 }
    ensures cap { rows.new.cap ≡ rows.old.cap }
{
    rows.push(words_of(row_of_run(tfhd, run)));
}
