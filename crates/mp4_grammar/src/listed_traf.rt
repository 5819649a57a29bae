//! The trafs of a fragment, and their lines.

ghost use Rattle.std.specs.Prelude.{◌≡◌, ◌++◌, ◌+◌, ◌≤◌, codes, drop, length, take};
ghost use Rattle.std.specs.Fmt.{decimal, signed_decimal};
ghost use Rattle.mp4_grammar.specs.Implementation.Digits.{AreAt};
ghost use Rattle.mp4_grammar.specs.FragmentLines.{fragment_text, gap_of, presented_at, rest_text, samples_text, size_text, times_text, traf_line, traf_with, yes_or_no};

use crate::presented::Presented;
use crate::sample::{push_large_number, push_number, push_signed};
use mp4_frag::TrafTotals;
use mp4_init::TrackList;
use mp4_lines::{DECIMAL_DIGITS, SIGNED_DECIMAL_BYTES, Text};
use mp4_machine::{BLOCK_BYTES, LINE_BYTES, Line};
use mp4_traf::internal::known_track;

/// A traf of a fragment. Times are ticks of its track's timescale, and offsets are of the stream.
#[derive(Clone, Copy, Debug, PartialEq, Eq)]
pub struct ListedTraf {
    /// The sequence_number of its moof (ISO/IEC 14496-12, 8.8.5).
    pub sequence: u32,
    /// The offset of its moof.
    pub at: u64,
    /// How many bytes the moof and its mdat have; none where the mdat goes to the end of the stream.
    pub size: Option<u64>,
    /// The track_ID of its track.
    pub track: u32,
    /// Its base time.
    pub time: u64,
    /// The durations of its samples, added up.
    pub duration: u64,
    /// How many samples it has.
    pub samples: u32,
    /// Whether its first sample is a sync sample (8.8.3); false where it has none.
    pub sync: bool,
    /// The bytes of its samples, added up.
    pub media: u64,
    /// When the first of its samples is presented, and how many are sync samples.
    pub presented: Presented,
    /// When its track ended before, 0 before the first of its fragments.
    pub ended: u64,
}

impl ListedTraf {
    /// The traf with these totals, of a fragment with this sequence_number that begins at `at` and has `size` bytes;
    /// none where its mdat goes to the end of the stream. `tracks` are those before it.
    #[inline(always)]
    pub fn of(
        sequence: u32,
        at: u64,
        size: Option<u64>,
        tracks: &TrackList,
        totals: &TrafTotals,
        presented: Presented,
    ) -> ListedTraf
        ensures { result ≡ traf_with sequence at size tracks.now totals.now presented }
    {
        ListedTraf {
            sequence,
            at,
            size,
            track: totals.track,
            time: totals.time,
            duration: totals.duration,
            samples: totals.samples,
            sync: totals.sync,
            media: totals.bytes,
            presented,
            ended: known_track(tracks, totals.track).next,
        }
    }
}

impl ListedTraf {
    /// Appends its fragment.
    #[inline(always)]
    fn push_fragment(&self, block: &mut Text<BLOCK_BYTES>)
        requires { length block.old + LINE_BYTES ≤ BLOCK_BYTES }
        ensures text { block.new ≡ block.old ++ fragment_text self.now }
        ensures len { length block.new ≤ length block.old + 79 }
    {
        push_large_number(block, b"fragment=", u64::from(self.sequence));
        push_large_number(block, b" at=", self.at);
        block.push_array(b" size=");
        push_size(block, self.size);
    }

    /// Appends its track and its times, and says where the digits of its base time are.
    #[inline(always)]
    fn push_times(&self, block: &mut Text<BLOCK_BYTES>) -> Digits
        requires { length block.old + 77 ≤ BLOCK_BYTES }
        ensures text { block.new ≡ block.old ++ times_text self.now }
        ensures len { length block.new ≤ length block.old + 77 }
        ensures digits { AreAt block.new (decimal self.now.time) result.from result.count }
    {
        push_number(block, b" track=", u64::from(self.track));
        let digits = push_digits(block, b" dts=", self.time);
        push_number(block, b" dur=", self.duration);
        digits
    }

    /// Appends how many samples it has, whether it begins with a sync sample, and its media.
    #[inline(always)]
    fn push_samples(&self, block: &mut Text<BLOCK_BYTES>)
        requires { length block.old + 65 ≤ BLOCK_BYTES }
        ensures text { block.new ≡ block.old ++ samples_text self.now }
        ensures len { length block.new ≤ length block.old + 65 }
    {
        push_number(block, b" samples=", u64::from(self.samples));
        push_is_sync(block, self.sync);
        block.push_decimal(self.media);
    }

    /// When the first of its samples is presented; its base time where it has none.
    #[inline(always)]
    pub fn presented_at(&self) -> i128
        ensures { result ≡ presented_at self.now }
    {
        i128::from(self.time) + i128::from(self.presented.earliest)
    }

    /// How many ticks after the end of its track it begins, negative where it begins before.
    #[inline(always)]
    pub fn gap(&self) -> i128
        ensures { result ≡ gap_of self.now }
    {
        i128::from(self.time) - i128::from(self.ended)
    }

    /// Appends when the first of its samples is presented: mostly at its base time, whose digits are there.
    #[inline(always)]
    fn push_presented_at(&self, block: &mut Text<BLOCK_BYTES>, digits: &Digits)
        requires room { length block.old + 45 ≤ BLOCK_BYTES }
        requires digits { AreAt block.old (decimal self.now.time) digits.now.from digits.now.count }
        ensures text { block.new ≡ block.old ++ codes " pts=" ++ signed_decimal (presented_at self.now) }
        ensures len { length block.new ≤ length block.old + 45 }
    {
        if self.presented.earliest == 0 {
            push_again(block, b" pts=", digits);
        } else {
            push_seldom(block, b" pts=", self.presented_at());
        }
    }

    /// Appends how long after the end of its track it begins, mostly at the end, and ends its line.
    #[inline(always)]
    fn push_gap(&self, block: &mut Text<BLOCK_BYTES>)
        requires { length block.old + 46 ≤ BLOCK_BYTES }
        ensures { block.new ≡ block.old ++ codes " gap=" ++ signed_decimal (gap_of self.now) ++ codes "\n" }
    {
        if self.time == self.ended {
            block.push_array(b" gap=0\n");
        } else {
            push_seldom(block, b" gap=", self.gap());
            block.push_array(b"\n");
        }
    }

    /// Appends what its samples are to who plays them, and how long after the end of its track it begins; and ends its
    /// line.
    #[inline(always)]
    fn push_rest(&self, block: &mut Text<BLOCK_BYTES>, digits: &Digits)
        requires room { length block.old + 118 ≤ BLOCK_BYTES }
        requires digits { AreAt block.old (decimal self.now.time) digits.now.from digits.now.count }
        ensures { block.new ≡ block.old ++ rest_text self.now }
    {
        self.push_presented_at(block, digits);
        push_number(block, b" syncs=", u64::from(self.presented.syncs));
        self.push_gap(block);
    }
}

impl Line for ListedTraf {
    ghost text = { λ t. traf_line t };

    #[inline(always)]
    #[tactic(auto, unfolding(crate::specs::FragmentLines::traf_line))]
    fn push(&self, block: &mut Text<BLOCK_BYTES>) {
        self.push_fragment(block);
        let digits = self.push_times(block);
        self.push_samples(block);
        self.push_rest(block, &digits);
    }
}

/// Where in a block the digits of a number are.
#[derive(Clone, Copy)]
struct Digits {
    from: usize,
    count: usize,
}

/// Appends a number after its name, and says where its digits are.
#[inline(always)]
fn push_digits(block: &mut Text<BLOCK_BYTES>, name: &[u8; 5], number: u64) -> Digits
    requires { length block.old + 5 + DECIMAL_DIGITS ≤ BLOCK_BYTES }
    ensures text { block.new ≡ block.old ++ name.now ++ decimal number }
    ensures len { length block.new ≤ length block.old + 5 + DECIMAL_DIGITS }
    ensures digits { AreAt block.new (decimal number) result.from result.count }
{
    block.push_array(name);
    let from = block.len();
    block.push_large_decimal(number);
    Digits {
        from,
        count: block.len() - from,
    }
}

/// Appends digits that are there once more, after a name.
#[inline(always)]
fn push_again(block: &mut Text<BLOCK_BYTES>, name: &[u8; 5], digits: &Digits)
    requires room { length block.old + 37 ≤ BLOCK_BYTES }
    requires there { digits.now.from + digits.now.count ≤ length block.old }
    requires few { digits.now.count ≤ 20 }
    ensures text { block.new ≡ block.old ++ name.now ++
        take digits.now.count (drop digits.now.from block.old) }
    ensures len { length block.new ≤ length block.old + 25 }
{
    block.push_array(name);
    block.push_again(digits.from, digits.count);
}

/// Appends a number that few trafs have, after its name: by a call, so that what most have is in line.
#[inline(never)]
fn push_seldom(block: &mut Text<BLOCK_BYTES>, name: &[u8; 5], number: i128)
    requires { length block.old + 5 + SIGNED_DECIMAL_BYTES ≤ BLOCK_BYTES }
    ensures text { block.new ≡ block.old ++ name.now ++ signed_decimal number }
    ensures len { length block.new ≤ length block.old + 5 + SIGNED_DECIMAL_BYTES }
{
    push_signed(block, name, number);
}

/// Appends a size, if it is stated.
#[inline(always)]
fn push_size(block: &mut Text<BLOCK_BYTES>, size: Option<u64>)
    requires { length block.old + DECIMAL_DIGITS ≤ BLOCK_BYTES }
    ensures text { block.new ≡ block.old ++ size_text size }
    ensures len { length block.new ≤ length block.old + DECIMAL_DIGITS }
{
    match size {
        Some(size) => block.push_decimal(size),
        None => block.push_array(b"end"),
    }
}

/// Appends whether the first sample is a sync sample, and the name of what follows.
#[inline(always)]
fn push_is_sync(block: &mut Text<BLOCK_BYTES>, sync: bool)
    requires { length block.old + 16 ≤ BLOCK_BYTES }
    ensures text { block.new ≡ block.old ++ codes " sync=" ++ yes_or_no sync ++ codes " media=" }
    ensures len { length block.new ≤ length block.old + 16 }
{
    if sync {
        block.push_array(b" sync=yes media=");
    } else {
        block.push_array(b" sync=no media=");
    }
}
