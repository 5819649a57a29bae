//! The trafs of a fragment as records.

ghost use Rattle.std.specs.Prelude.{◌≡◌, ◌++◌, ◌+◌, ◌≤◌, List, ℕ, length};
ghost use Rattle.mp4_grammar.specs.TrafRecords.{IsRecord, handler_bytes, in_4, in_8, place_bytes, record_bytes, record_len, record_of, record_with, sample_bytes, shown_bytes, size_or_all, sum_bytes, track_bytes};

use crate::listed_traf::ListedTraf;
use crate::presented::once_if;
use mp4_box::{u32_at, u64_at};
use mp4_init::Track;
use mp4_lines::Text;
use mp4_machine::{BLOCK_BYTES, LINE_BYTES, Line};

/// How many bytes a record has.
pub const RECORD_BYTES: usize = 88;

/// A traf of a fragment, by numbers alone. Times are ticks of its track's timescale, and offsets are of the stream.
#[repr(C)]
#[derive(Clone, Copy, Debug, PartialEq, Eq)]
pub struct TrafRecord {
    /// The offset of its moof.
    pub at: u64,
    /// How many bytes the moof and its mdat have; 2^64 - 1 where the mdat goes to the end of the stream.
    pub size: u64,
    /// Its base time.
    pub time: u64,
    /// The durations of its samples, added up.
    pub duration: u64,
    /// The bytes of its samples, added up.
    pub media: u64,
    /// The sequence_number of its moof (ISO/IEC 14496-12, 8.8.5).
    pub sequence: u32,
    /// The track_ID of its track.
    pub track: u32,
    /// How many ticks a second of this track has (8.4.2).
    pub timescale: u32,
    /// How many samples it has.
    pub samples: u32,
    /// 1 where its first sample is a sync sample (8.8.3), else 0.
    pub sync: u32,
    /// How many of its samples are sync samples.
    pub syncs: u32,
    /// When its track ended before, 0 before the first of its fragments.
    pub ended: u64,
    /// The least composition time of its samples, less its base time; 0 where it has none.
    pub earliest: i64,
    /// The handler_type of this track (8.4.3) as a number, whose highest byte is the first; 0 where it has none.
    pub handler: u32,
    /// How many sample entries this track has (8.5.2).
    pub entries: u32,
}

impl TrafRecord {
    /// The record of a traf of this track.
    #[inline(always)]
    pub fn of(traf: &ListedTraf, track: &Track) -> TrafRecord
        ensures { result ≡ record_with track.now traf.now }
    {
        TrafRecord {
            at: traf.at,
            size: size_or_all(traf.size),
            time: traf.time,
            duration: traf.duration,
            media: traf.media,
            sequence: traf.sequence,
            track: traf.track,
            timescale: track.timescale,
            samples: traf.samples,
            sync: once_if(traf.sync),
            syncs: traf.presented.syncs,
            ended: traf.ended,
            earliest: traf.presented.earliest,
            handler: track.handler,
            entries: track.entries,
        }
    }

    /// The record that these bytes begin with: the one whose bytes they are.
    pub fn of_bytes(bytes: &[u8]) -> TrafRecord
        requires { record_len ≤ length bytes.now }
        ensures record { result ≡ record_of bytes.now }
        ensures again { (r : TrafRecord) (rest : List ℕ) → IsRecord r →
            bytes.now ≡ record_bytes r ++ rest → result ≡ r }
    {
        TrafRecord {
            at: u64_at(bytes, 0),
            size: u64_at(bytes, 8),
            time: u64_at(bytes, 16),
            duration: u64_at(bytes, 24),
            media: u64_at(bytes, 32),
            sequence: u32_at(bytes, 40),
            track: u32_at(bytes, 44),
            timescale: u32_at(bytes, 48),
            samples: u32_at(bytes, 52),
            sync: u32_at(bytes, 56),
            syncs: u32_at(bytes, 60),
            ended: u64_at(bytes, 64),
            earliest: u64_at(bytes, 72).cast_signed(),
            handler: u32_at(bytes, 80),
            entries: u32_at(bytes, 84),
        }
    }
}

/// A size, or the largest number where none is stated.
fn size_or_all(size: Option<u64>) -> u64
    ensures { result ≡ size_or_all size }
{
    match size {
        Some(size) => size,
        None => u64::MAX,
    }
}

/// Appends a number in eight bytes.
#[tactic(auto, unfolding(crate::specs::TrafRecords::in_8))]
fn push_8(block: &mut Text<BLOCK_BYTES>, number: u64)
    requires { length block.old + 8 ≤ BLOCK_BYTES }
    ensures text { block.new ≡ block.old ++ in_8 number }
    ensures len { length block.new ≡ length block.old + 8 }
{
    block.push_array(&number.to_be_bytes());
}

/// Appends a number in four bytes.
#[tactic(auto, unfolding(crate::specs::TrafRecords::in_4))]
fn push_4(block: &mut Text<BLOCK_BYTES>, number: u32)
    requires { length block.old + 4 ≤ BLOCK_BYTES }
    ensures text { block.new ≡ block.old ++ in_4 number }
    ensures len { length block.new ≡ length block.old + 4 }
{
    block.push_array(&number.to_be_bytes());
}

impl TrafRecord {
    /// Appends the offset of its moof, and how many bytes moof and mdat have.
    fn push_place(&self, block: &mut Text<BLOCK_BYTES>)
        requires { length block.old + 16 ≤ BLOCK_BYTES }
        ensures text { block.new ≡ block.old ++ place_bytes self.now }
        ensures len { length block.new ≡ length block.old + 16 }
    {
        push_8(block, self.at);
        push_8(block, self.size);
    }

    /// Appends its times and its media.
    fn push_sums(&self, block: &mut Text<BLOCK_BYTES>)
        requires { length block.old + 24 ≤ BLOCK_BYTES }
        ensures text { block.new ≡ block.old ++ sum_bytes self.now }
        ensures len { length block.new ≡ length block.old + 24 }
    {
        push_8(block, self.time);
        push_8(block, self.duration);
        push_8(block, self.media);
    }

    /// Appends its sequence_number, its track and the timescale of that.
    fn push_track(&self, block: &mut Text<BLOCK_BYTES>)
        requires { length block.old + 12 ≤ BLOCK_BYTES }
        ensures text { block.new ≡ block.old ++ track_bytes self.now }
        ensures len { length block.new ≡ length block.old + 12 }
    {
        push_4(block, self.sequence);
        push_4(block, self.track);
        push_4(block, self.timescale);
    }

    /// Appends how many samples it has, whether the first is a sync sample, and how many are.
    fn push_samples(&self, block: &mut Text<BLOCK_BYTES>)
        requires { length block.old + 12 ≤ BLOCK_BYTES }
        ensures text { block.new ≡ block.old ++ sample_bytes self.now }
        ensures len { length block.new ≡ length block.old + 12 }
    {
        push_4(block, self.samples);
        push_4(block, self.sync);
        push_4(block, self.syncs);
    }

    /// Appends when its track ended before, and when the first of its samples is presented.
    fn push_shown(&self, block: &mut Text<BLOCK_BYTES>)
        requires { length block.old + 16 ≤ BLOCK_BYTES }
        ensures text { block.new ≡ block.old ++ shown_bytes self.now }
        ensures len { length block.new ≡ length block.old + 16 }
    {
        push_8(block, self.ended);
        push_8(block, self.earliest.cast_unsigned());
    }

    /// Appends the handler of its track, and how many sample entries that has.
    fn push_handler(&self, block: &mut Text<BLOCK_BYTES>)
        requires { length block.old + 8 ≤ BLOCK_BYTES }
        ensures { block.new ≡ block.old ++ handler_bytes self.now }
    {
        push_4(block, self.handler);
        push_4(block, self.entries);
    }
}

impl Line for TrafRecord {
    ghost text = { λ r. record_bytes r };

    #[tactic(auto, unfolding(crate::specs::TrafRecords::record_bytes))]
    fn push(&self, block: &mut Text<BLOCK_BYTES>) {
        self.push_place(block);
        self.push_sums(block);
        self.push_track(block);
        self.push_samples(block);
        self.push_shown(block);
        self.push_handler(block);
    }
}
