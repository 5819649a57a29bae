//! How a run is cut.

ghost use Rattle.std.specs.Prelude.{◌≡◌, ◌≤◌, ◌<◌, ◌↔◌, false, true, None, Some, IsSome, IfSome};
ghost use Rattle.mp4_pieces.specs.Allowed.{IsAllowed};

/// The most samples that a piece may be allowed.
pub const MOST_IN_PIECE: u32 = 1_000_000;

/// The most bytes that a piece may be allowed.
const MOST_BYTES: u64 = 1 << 62;

/// How a run is cut: the limits of a piece, and further options.
#[derive(Clone, Copy, Debug)]
pub struct Cut {
    /// The most samples of a piece.
    pub(crate) samples: u32,
    /// The most bytes of a piece with more than one sample, if there is a limit.
    pub(crate) bytes: Option<u64>,
    /// The most milliseconds of a piece with more than one sample, if there is a limit.
    pub(crate) duration: Option<u32>,
    /// The same in ticks of the timescale that the cut is for.
    pub(crate) ticks: Option<u64>,
    /// Whether each group of pieces has an index before it.
    pub(crate) index: bool,
    /// Whether a piece ends before each sync sample.
    pub(crate) sync: bool,
    /// Whether a piece ends before each sync sample after one that isn't.
    pub(crate) keyframes: bool,
    /// Whether the number of samples is the only limit.
    pub(crate) is_counted: bool,
    ghost some: { 0 < samples },
    ghost counted: { is_counted ≡ true →
        (bytes ≡ None) × (duration ≡ None) × (sync ≡ false) × (keyframes ≡ false) },
}

impl Cut {
    /// A cut into pieces of at most so many samples, and of at most so many bytes where that is
    /// asked for: a sample that has more is a piece by itself. With `index` there is an index before
    /// each group of pieces. None where `samples` isn't in 1 to 1,000,000, or `bytes` isn't in 1 to
    /// 2^62.
    pub fn new(samples: u32, bytes: Option<u64>, index: bool) -> Option<Cut>
        ensures allowed { IsSome result ↔ IsAllowed samples bytes }
        ensures samples { IfSome result (λ cut. cut.samples ≡ samples) }
        ensures bytes { IfSome result (λ cut. cut.bytes ≡ bytes) }
        ensures index { IfSome result (λ cut. cut.index ≡ index) }
        ensures sync { IfSome result (λ cut. cut.sync ≡ false) }
        ensures duration { IfSome result (λ cut. cut.duration ≡ None) }
        ensures keyframes { IfSome result (λ cut. cut.keyframes ≡ false) }
    {
        let is_allowed = match bytes {
            None => true,
            Some(bytes) => 1 <= bytes && bytes <= MOST_BYTES,
        };
        if samples == 0 || samples > MOST_IN_PIECE || !is_allowed {
            return None;
        }
        Some(Cut {
            samples,
            bytes,
            duration: None,
            ticks: None,
            index,
            sync: false,
            keyframes: false,
            is_counted: bytes.is_none(),
        })
    }

    /// The same cut, where a piece also ends before each sync sample (ISO/IEC 14496-12, 8.8.3).
    pub fn with_sync(self) -> Cut
        ensures samples { result.samples ≡ self.samples }
        ensures bytes { result.bytes ≡ self.bytes }
        ensures index { result.index ≡ self.index }
        ensures sync { result.sync ≡ true }
        ensures duration { result.duration ≡ self.duration }
        ensures keyframes { result.keyframes ≡ self.keyframes }
    {
        let mut cut = self;
        cut.is_counted = false;
        cut.sync = true;
        cut
    }

    /// The same cut, where a piece also ends before each sync sample whose predecessor in the run isn't one.
    pub fn with_keyframes(self) -> Cut
        ensures samples { result.samples ≡ self.samples }
        ensures bytes { result.bytes ≡ self.bytes }
        ensures index { result.index ≡ self.index }
        ensures sync { result.sync ≡ self.sync }
        ensures duration { result.duration ≡ self.duration }
        ensures keyframes { result.keyframes ≡ true }
    {
        let mut cut = self;
        cut.is_counted = false;
        cut.keyframes = true;
        cut
    }

    /// The same cut, into pieces that last at most so many milliseconds, in the timescale of their track: a sample that
    /// lasts longer is a piece by itself. None where `millis` is 0.
    pub fn with_duration(self, millis: u32) -> Option<Cut>
        ensures allowed { IsSome result ↔ 1 ≤ millis }
        ensures samples { IfSome result (λ cut. cut.samples ≡ self.samples) }
        ensures bytes { IfSome result (λ cut. cut.bytes ≡ self.bytes) }
        ensures index { IfSome result (λ cut. cut.index ≡ self.index) }
        ensures sync { IfSome result (λ cut. cut.sync ≡ self.sync) }
        ensures duration { IfSome result (λ cut. cut.duration ≡ Some millis) }
        ensures keyframes { IfSome result (λ cut. cut.keyframes ≡ self.keyframes) }
    {
        if millis == 0 {
            return None;
        }
        let mut cut = self;
        cut.is_counted = false;
        cut.duration = Some(millis);
        Some(cut)
    }

    /// Whether each group of pieces has an index before it.
    pub fn has_index(self) -> bool
        ensures { result ≡ self.index }
    {
        self.index
    }
}
