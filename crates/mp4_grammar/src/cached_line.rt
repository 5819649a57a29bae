//! The lines of samples that follow one another.

ghost use Rattle.std.specs.Prelude.{◌≡◌, ◌++◌, ◌+◌, ◌≤◌, length};
ghost use Rattle.std.specs.Fmt.{signed_decimal};
ghost use Rattle.mp4_grammar.specs.Samples.{fields_text, place_text, sample_line, times_text};
ghost use Rattle.mp4_grammar.specs.Implementation.SampleWords.{before_place, before_size, before_time};

use crate::sample::{Sample, push_number, push_sync};
use mp4_lines::{CachedNumber, SIGNED_DECIMAL_BYTES, Text};
use mp4_machine::{BLOCK_BYTES, LINE_BYTES, Line};
use std::marker::Model;

/// The line of a sample, which keeps what stays the same from sample to sample: most of its words, and the first digits
/// of numbers that grow. A contract sees the sample.
#[derive(Drop)]
pub struct CachedLine {
    sample: Sample,
    /// The words before its decode time.
    time_words: Text<32>,
    /// The words before its size.
    size_words: Text<32>,
    /// The words before its place.
    place_words: Text<64>,
    time: CachedNumber,
    /// The place of its first byte, if 64 bits hold it.
    place: CachedNumber,
}

impl Model for CachedLine {
    ghost use Rattle.std.specs.Prelude.{◌≡◌};
    ghost use Rattle.mp4_grammar.specs.declared.sample.Sample.{Sample};
    ghost use Rattle.mp4_grammar.specs.Implementation.SampleWords.{before_place, before_size, before_time};

    ghost Value = { Sample };

    ghost view = { λ l. l.sample };

    ghost invariant = { λ l. (l.time_words ≡ before_time l.sample.track)
        × (l.size_words ≡ before_size l.sample.duration)
        × (l.place_words ≡ before_place l.sample.flags l.sample.entry)
        × (l.time ≡ l.sample.time) };
}

impl CachedLine {
    /// The line of a sample.
    pub fn of(sample: &Sample) -> Self
        ensures { result ≡ sample.now }
    {
        let mut time_words = Text::new();
        let mut size_words = Text::new();
        let mut place_words = Text::new();
        let mut time = CachedNumber::new();
        write_before_time(&mut time_words, sample.track);
        write_before_size(&mut size_words, sample.duration);
        write_before_place(&mut place_words, sample.flags, sample.entry);
        time.set(sample.time);
        CachedLine {
            sample: *sample,
            time_words,
            size_words,
            place_words,
            time,
            place: CachedNumber::new(),
        }
    }

    /// Becomes the line of another sample.
    #[inline(always)]
    pub fn set(&mut self, sample: &Sample)
        ensures { self.new ≡ sample.now }
    {
        let kept = &mut self.sample;
        keep_before_time(&mut self.time_words, &mut kept.track, sample.track);
        keep_before_size(&mut self.size_words, &mut kept.duration, sample.duration);
        keep_before_place(
            &mut self.place_words,
            &mut kept.flags,
            &mut kept.entry,
            sample,
        );
        self.time.set(sample.time);
        keep_place(&mut self.place, sample);
        kept.time = sample.time;
        kept.composition = sample.composition;
        kept.size = sample.size;
        kept.place = sample.place;
    }

    /// Appends its track and its times.
    #[inline(always)]
    #[tactic(auto, unfolding(crate::specs::Implementation::SampleWords::before_time))]
    fn push_times(&self, block: &mut Text<BLOCK_BYTES>)
        requires { length block.old + LINE_BYTES ≤ BLOCK_BYTES }
        ensures text { block.new ≡ block.old ++ times_text self.now }
        ensures len { length block.new ≤ length block.old + 97 }
    {
        block.push_text(&self.time_words);
        self.time.push_to(block);
        block.push_array(b" cts=");
        // Mostly it is the decode time. The compiler then has its digits at hand.
        if self.sample.composition == i128::from(self.sample.time) {
            self.time.push_to(block);
        } else {
            block.push_signed_decimal(self.sample.composition);
        }
    }

    /// Appends what follows its times.
    #[inline(always)]
    fn push_rest(&self, block: &mut Text<BLOCK_BYTES>)
        requires { length block.old + 157 ≤ BLOCK_BYTES }
        ensures { block.new ≡ block.old ++ (fields_text self.now ++ place_text self.now) }
    {
        block.push_text(&self.size_words);
        block.push_decimal(u64::from(self.sample.size));
        block.push_text(&self.place_words);
        push_place(block, &self.sample, &self.place);
        block.push_array(b"\n");
    }
}

impl Line for CachedLine {
    ghost text = { λ s. sample_line s };

    #[inline(always)]
    #[tactic(auto, unfolding(crate::specs::Samples::sample_line))]
    fn push(&self, block: &mut Text<BLOCK_BYTES>) {
        self.push_times(block);
        self.push_rest(block);
    }
}

/// Makes the words before the decode time those of a track.
#[inline(never)]
#[tactic(auto, unfolding(crate::specs::Implementation::SampleWords::before_time))]
fn write_before_time(words: &mut Text<32>, track: u32)
    ensures { words.new ≡ before_time track }
{
    words.clear();
    push_number(words, b"track=", u64::from(track));
    words.push_array(b" dts=");
}

/// Makes the words before the size those of a duration.
#[inline(never)]
#[tactic(auto, unfolding(crate::specs::Implementation::SampleWords::before_size))]
fn write_before_size(words: &mut Text<32>, duration: u32)
    ensures { words.new ≡ before_size duration }
{
    words.clear();
    push_number(words, b" dur=", u64::from(duration));
    words.push_array(b" size=");
}

/// Makes the words before the place those of flags and a sample entry.
#[inline(never)]
#[tactic(auto, unfolding(crate::specs::Implementation::SampleWords::before_place))]
fn write_before_place(words: &mut Text<64>, flags: u32, entry: u32)
    ensures { words.new ≡ before_place flags entry }
{
    words.clear();
    words.push_array(b" flags=");
    words.push_hex(&flags.to_be_bytes());
    words.push_array(b" ");
    push_sync(words, flags);
    push_number(words, b" desc=", u64::from(entry));
    words.push_array(b" at=");
}

/// Makes a track another one, and the words before the decode time those of that.
#[inline(always)]
fn keep_before_time(words: &mut Text<32>, track: &mut u32, to: u32)
    requires { words.old ≡ before_time track.old }
    ensures words { words.new ≡ before_time to }
    ensures track { track.new ≡ to }
{
    if *track != to {
        write_before_time(words, to);
        *track = to;
    }
}

/// Makes a duration another one, and the words before the size those of that.
#[inline(always)]
fn keep_before_size(words: &mut Text<32>, duration: &mut u32, to: u32)
    requires { words.old ≡ before_size duration.old }
    ensures words { words.new ≡ before_size to }
    ensures duration { duration.new ≡ to }
{
    if *duration != to {
        write_before_size(words, to);
        *duration = to;
    }
}

/// Makes flags and a sample entry those of a sample, and the words before the place too.
#[inline(always)]
fn keep_before_place(words: &mut Text<64>, flags: &mut u32, entry: &mut u32, sample: &Sample)
    requires { words.old ≡ before_place flags.old entry.old }
    ensures words { words.new ≡ before_place sample.now.flags sample.now.entry }
    ensures flags { flags.new ≡ sample.now.flags }
    ensures entry { entry.new ≡ sample.now.entry }
{
    if *flags != sample.flags || *entry != sample.entry {
        write_before_place(words, sample.flags, sample.entry);
        *flags = sample.flags;
        *entry = sample.entry;
    }
}

/// Keeps the place of a sample, if 64 bits hold it.
#[inline(always)]
fn keep_place(kept: &mut CachedNumber, sample: &Sample) {
    if 0 <= sample.place && sample.place <= u64::MAX as i128 {
        kept.set(sample.place as u64);
    }
}

/// Appends the place of a sample: by the digits that are kept, if they are its own.
#[inline(always)]
fn push_place(block: &mut Text<BLOCK_BYTES>, sample: &Sample, kept: &CachedNumber)
    requires { length block.old + SIGNED_DECIMAL_BYTES ≤ BLOCK_BYTES }
    ensures text { block.new ≡ block.old ++ signed_decimal sample.now.place }
    ensures len { length block.new ≤ length block.old + SIGNED_DECIMAL_BYTES }
{
    if sample.place == i128::from(kept.number()) {
        kept.push_to(block);
    } else {
        block.push_signed_decimal(sample.place);
    }
}
