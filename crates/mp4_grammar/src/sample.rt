//! The samples of a fragment, and their lines.

ghost use Rattle.std.specs.Prelude.{◌≡◌, ◌++◌, ◌^◌, ◌<◌, ◌≤◌, ◌+◌, [], length};
ghost use Rattle.mp4_traf.specs.declared.rows.Row.{Row};
ghost use Rattle.std.specs.Fmt.{decimal, signed_decimal};
ghost use Rattle.mp4_grammar.specs.Samples.{fields_text, place_text, sample_line, sample_of, sync_text, times_text};

use mp4_frag::{Row, Run};
use mp4_lines::{DECIMAL_DIGITS, SIGNED_DECIMAL_BYTES, Text};
use mp4_machine::{BLOCK_BYTES, LINE_BYTES, Line};
use mp4_traf::is_sync;

/// A sample of a fragment. Times are ticks of its track's timescale.
#[derive(Clone, Copy, Debug, PartialEq, Eq)]
pub struct Sample {
    /// The track_ID of its track.
    pub track: u32,
    /// Its decode time.
    pub time: u64,
    /// Its composition time.
    pub composition: i128,
    /// Its duration.
    pub duration: u32,
    /// Its size in bytes.
    pub size: u32,
    /// Its flags (ISO/IEC 14496-12, 8.8.3).
    pub flags: u32,
    /// The index of its sample entry, from 1 on.
    pub entry: u32,
    /// The offset in the stream of its first byte.
    pub place: i128,
}

impl Sample {
    /// The sample of a row of a run that is decoded at a time, and whose bytes lie at a place.
    pub fn of(run: &Run, row: &Row, time: u64, place: i128) -> Sample
        ensures { result ≡ sample_of run.now row.now time place }
    {
        Sample {
            track: run.track,
            time,
            composition: i128::from(time) + i128::from(row.offset),
            duration: row.duration,
            size: row.size,
            flags: row.flags,
            entry: run.entry,
            place,
        }
    }
}

impl Sample {
    /// Appends its track and its times.
    #[inline(always)]
    fn push_times(&self, block: &mut Text<BLOCK_BYTES>)
        requires { length block.old + LINE_BYTES ≤ BLOCK_BYTES }
        ensures text { block.new ≡ block.old ++ times_text self.now }
        ensures len { length block.new ≤ length block.old + 96 }
    {
        push_number(block, b"track=", u64::from(self.track));
        block.push_array(b" dts=");
        let from = block.len();
        block.push_decimal(self.time);
        let digits = block.len() - from;
        block.push_array(b" cts=");
        // Mostly it is the decode time, whose digits are there already.
        if self.composition == i128::from(self.time) {
            block.push_again(from, digits);
        } else {
            block.push_signed_decimal(self.composition);
        }
    }

    /// Appends its duration, size and flags.
    #[inline(always)]
    fn push_fields(&self, block: &mut Text<BLOCK_BYTES>)
        requires { length block.old + 71 ≤ BLOCK_BYTES }
        ensures text { block.new ≡ block.old ++ fields_text self.now }
        ensures len { length block.new ≤ length block.old + 71 }
    {
        push_number(block, b" dur=", u64::from(self.duration));
        push_number(block, b" size=", u64::from(self.size));
        block.push_array(b" flags=");
        block.push_hex(&self.flags.to_be_bytes());
        block.push_array(b" ");
        push_sync(block, self.flags);
    }

    /// Appends its sample entry and place, and ends its line.
    #[inline(always)]
    fn push_place(&self, block: &mut Text<BLOCK_BYTES>)
        requires { length block.old + 71 ≤ BLOCK_BYTES }
        ensures { block.new ≡ block.old ++ place_text self.now }
    {
        push_number(block, b" desc=", u64::from(self.entry));
        push_signed(block, b" at=", self.place);
        block.push_array(b"\n");
    }
}

impl Line for Sample {
    ghost text = { λ s. sample_line s };

    #[inline(always)]
    #[tactic(auto, unfolding(crate::specs::Samples::sample_line))]
    fn push(&self, block: &mut Text<BLOCK_BYTES>) {
        self.push_times(block);
        self.push_fields(block);
        self.push_place(block);
    }
}

/// Appends a number after its name.
#[inline(always)]
pub(crate) fn push_number<const N: usize, const CAP: usize>(
    text: &mut Text<CAP>,
    name: &[u8; N],
    number: u64,
)
    requires { length text.old + N + DECIMAL_DIGITS ≤ CAP }
    ensures text { text.new ≡ text.old ++ name.now ++ decimal number }
    ensures len { length text.new ≤ length text.old + N + DECIMAL_DIGITS }
{
    text.push_array(name);
    text.push_decimal(number);
}

/// Appends a number after its name, sooner where it has four to nine digits.
#[inline(always)]
pub(crate) fn push_large_number<const N: usize, const CAP: usize>(
    text: &mut Text<CAP>,
    name: &[u8; N],
    number: u64,
)
    requires { length text.old + N + DECIMAL_DIGITS ≤ CAP }
    ensures text { text.new ≡ text.old ++ name.now ++ decimal number }
    ensures len { length text.new ≤ length text.old + N + DECIMAL_DIGITS }
{
    text.push_array(name);
    text.push_large_decimal(number);
}

/// Appends a number with a sign after its name.
#[inline(always)]
pub(crate) fn push_signed<const N: usize>(
    block: &mut Text<BLOCK_BYTES>,
    name: &[u8; N],
    number: i128,
)
    requires { length block.old + N + SIGNED_DECIMAL_BYTES ≤ BLOCK_BYTES }
    ensures text { block.new ≡ block.old ++ name.now ++ signed_decimal number }
    ensures len { length block.new ≤ length block.old + N + SIGNED_DECIMAL_BYTES }
{
    block.push_array(name);
    block.push_signed_decimal(number);
}

/// Appends whether it is a sync sample.
#[inline]
pub(crate) fn push_sync<const CAP: usize>(text: &mut Text<CAP>, flags: u32)
    requires { length text.old + 4 ≤ CAP }
    ensures text { text.new ≡ text.old ++ sync_text flags }
    ensures len { length text.new ≤ length text.old + 4 }
{
    if is_sync(flags) {
        text.push_array(b"sync");
    } else {
        text.push_array(b"-");
    }
}
