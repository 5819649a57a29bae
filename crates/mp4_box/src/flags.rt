//! The flag words of tfhd and trun (ISO/IEC 14496-12, 8.8.7 and 8.8.8): which of the optional
//! fields are there. `of_word` takes the flags from a word, and `Flags::contains` tests one.

ghost use Rattle.std.specs.Prelude.{◌≡◌, ⊤};
ghost use Rattle.std.specs.Int.RustNames.{bit_and};
ghost use Rattle.mp4_box.specs.Flags.{KeepsFlags, tfhd_bits, tfhd_table, trun_bits, trun_table};

pub use bitflags::Flags;
use bitflags::{Flag, bitflag_items};

/// The flags of a tfhd: which defaults it gives to the samples of its track fragment.
#[derive(Clone, Copy, PartialEq, Eq, Debug)]
pub struct TfhdFlags(u32);

bitflag_items! {
    impl TfhdFlags: u32 {
        /// There is a base data offset, from which the data offsets of the runs count.
        const BASE_DATA_OFFSET = 0x000001;
        /// There is an index of a sample description.
        const SAMPLE_DESCRIPTION_INDEX = 0x000002;
        /// There is a default for the duration of a sample.
        const DEFAULT_SAMPLE_DURATION = 0x000008;
        /// There is a default for the size of a sample.
        const DEFAULT_SAMPLE_SIZE = 0x000010;
        /// There is a default for the flags of a sample.
        const DEFAULT_SAMPLE_FLAGS = 0x000020;
        /// There are no samples for the time of the fragment.
        const DURATION_IS_EMPTY = 0x010000;
        /// With no base data offset, the data offsets of the runs count from the moof's first byte.
        const DEFAULT_BASE_IS_MOOF = 0x020000;
    }
}

impl Flags for TfhdFlags {
    type Bits = u32;

    ghost exact = { ⊤ };

    ghost table = { tfhd_table };

    ghost set_of = { tfhd_bits };

    fn flags<'a>() -> &'a [Flag<TfhdFlags>] {
        TfhdFlags::FLAGS
    }

    fn bits(&self) -> u32 {
        self.0
    }

    fn from_bits_retain(bits: u32) -> TfhdFlags {
        TfhdFlags(bits)
    }
}

impl TfhdFlags {
    /// The flags of a tfhd that a word has. Its other bits are dropped.
    #[tactic(auto, unfolding(bitflags::specs::Sets::known_from))]
    pub fn of_word(word: u32) -> TfhdFlags
        ensures { tfhd_bits result ≡ bit_and word 0x03003b }
    {
        TfhdFlags::from_bits_truncate(word)
    }
}

/// The flags of a trun: which fields it has itself, and which it has for each sample.
#[derive(Clone, Copy, PartialEq, Eq, Debug)]
pub struct TrunFlags(u32);

bitflag_items! {
    impl TrunFlags: u32 {
        /// There is a data offset.
        const DATA_OFFSET = 0x000001;
        /// There are flags for the first sample alone, in place of the default.
        const FIRST_SAMPLE_FLAGS = 0x000004;
        /// Each sample has its duration.
        const SAMPLE_DURATION = 0x000100;
        /// Each sample has its size.
        const SAMPLE_SIZE = 0x000200;
        /// Each sample has its flags.
        const SAMPLE_FLAGS = 0x000400;
        /// Each sample has the offset of its composition time.
        const SAMPLE_COMPOSITION_TIME_OFFSET = 0x000800;
    }
}

impl Flags for TrunFlags {
    type Bits = u32;

    ghost exact = { ⊤ };

    ghost table = { trun_table };

    ghost set_of = { trun_bits };

    fn flags<'a>() -> &'a [Flag<TrunFlags>] {
        TrunFlags::FLAGS
    }

    fn bits(&self) -> u32 {
        self.0
    }

    fn from_bits_retain(bits: u32) -> TrunFlags {
        TrunFlags(bits)
    }
}

impl TrunFlags {
    /// The flags of a trun that a word has. Its other bits are dropped.
    #[tactic(auto, unfolding(bitflags::specs::Sets::known_from))]
    pub fn of_word(word: u32) -> TrunFlags
        ensures { trun_bits result ≡ bit_and word 0x000f05 }
    {
        TrunFlags::from_bits_truncate(word)
    }
}

/// A law: `of_word` loses no flag. Each is in its result exactly where the word has it.
pub fn of_word_keeps_flags()
    ensures tfhd { KeepsFlags 0x03003b tfhd_table }
    ensures trun { KeepsFlags 0x000f05 trun_table }
{}
