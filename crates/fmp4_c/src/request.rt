//! Cuts as C requests them.

ghost use Rattle.std.specs.Prelude.{◌≡◌, ℕ, ◌≤◌, ◌<◌, ◌/◌, ◌↔◌, eqb, IfErr, IfOk, Some, true, false};
ghost use Rattle.fmp4_c.specs.Calls.{IsCutBy, IsInRange, IsOutOfRange, header_layout, most_samples, no_words, plain_request};

use crate::answer::Answer;
use mp4_pieces::MOST_IN_PIECE;
use mp4_stream::Cut;

/// The flag for an index.
const INDEX: u32 = 1;

/// The flag for a cut before each sync sample.
const SYNC: u32 = 2;

/// The flag for a cut before each sync sample whose predecessor isn't one.
const KEYFRAMES: u32 = 4;

/// The largest sum of flags of a plain request.
pub(crate) const PLAIN_FLAGS: u32 = INDEX | SYNC;

/// The largest sum of flags of any: 6 and 7 would have both `SYNC` and `KEYFRAMES`.
pub(crate) const ALL_FLAGS: u32 = INDEX | KEYFRAMES;

/// A cut as C requests it: 0 is what isn't asked for.
#[repr(C)]
#[derive(Clone, Copy)]
pub struct CutRequest {
    /// The most samples of a fragment.
    pub samples: u32,
    /// The most milliseconds of a fragment with more than one sample.
    pub duration_ms: u32,
    /// The most bytes of media of a fragment with more than one sample.
    pub bytes: u64,
    /// A sum of the flags.
    pub flags: u32,
    /// For what later libraries can be asked for.
    pub reserved: [u32; 5],
}

impl CutRequest {
    /// A request of `fmp4_split_open`.
    pub(crate) fn plain(samples: u32, bytes: u64, flags: u32) -> CutRequest
        ensures { result ≡ plain_request samples bytes flags }
    {
        CutRequest {
            samples,
            duration_ms: 0,
            bytes,
            flags,
            reserved: [0; 5],
        }
    }

    /// The cut of this request, by a call that knows the flags up to `known`.
    ///
    /// # Errors
    ///
    /// Which of the numbers is out of range.
    pub(crate) fn cut(&self, known: u32) -> Result<Cut, Answer>
        ensures ok { IfOk result (IsCutBy self.now) }
        ensures err { IfErr result (λ a. (layout room : ℕ) → IsOutOfRange layout known self.now room a) }
        ensures in_range { IfOk result (λ cut. (layout room : ℕ) → layout ≡ header_layout → 1 ≤ room →
            IsInRange layout known self.now room) }
    {
        if self.flags > known || !self.is_only_known() {
            return Err(Answer::BadFlags);
        }
        let samples = self.most_samples();
        if samples == 0 || samples > MOST_IN_PIECE {
            return Err(Answer::BadSamples);
        }
        let most = if self.bytes == 0 {
            None
        } else {
            Some(self.bytes)
        };
        match Cut::new(samples, most, self.flags % 2 == 1) {
            Some(cut) => Ok(in_time(by_flags(cut, self.flags), self.duration_ms)),
            None => Err(Answer::BadBytes),
        }
    }

    /// Whether nothing is asked for that only a later library knows.
    fn is_only_known(&self) -> bool
        ensures { (result ≡ true) ↔ (self.now.reserved ≡ no_words) }
    {
        self.reserved == [0; 5]
    }

    /// The most samples of a fragment.
    fn most_samples(&self) -> u32
        ensures { result ≡ most_samples self.now }
    {
        if self.duration_ms != 0 && self.samples == 0 {
            return MOST_IN_PIECE;
        }
        self.samples
    }
}

/// The same cut, where fragments also end before samples as the flags say.
fn by_flags(cut: Cut, flags: u32) -> Cut
    requires none { (cut.sync ≡ false) × (cut.keyframes ≡ false) }
    ensures sync { result.sync ≡ eqb (flags / 2) 1 }
    ensures keyframes { result.keyframes ≡ eqb (flags / 4) 1 }
    ensures samples { result.samples ≡ cut.samples }
    ensures bytes { result.bytes ≡ cut.bytes }
    ensures duration { result.duration ≡ cut.duration }
    ensures index { result.index ≡ cut.index }
{
    if flags / 2 == 1 {
        return cut.with_sync();
    }
    if flags / 4 == 1 {
        cut.with_keyframes()
    } else {
        cut
    }
}

/// The same cut, with a limit in milliseconds: 0 for none.
fn in_time(cut: Cut, millis: u32) -> Cut
    ensures none { millis ≡ 0 → result.duration ≡ cut.duration }
    ensures some { 0 < millis → result.duration ≡ Some millis }
    ensures samples { result.samples ≡ cut.samples }
    ensures bytes { result.bytes ≡ cut.bytes }
    ensures index { result.index ≡ cut.index }
    ensures sync { result.sync ≡ cut.sync }
    ensures keyframes { result.keyframes ≡ cut.keyframes }
{
    match cut.with_duration(millis) {
        Some(cut) => cut,
        None => cut,
    }
}
