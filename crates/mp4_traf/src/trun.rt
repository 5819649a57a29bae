//! A run of samples, trun (ISO/IEC 14496-12, 8.8.8): its fields and its rules.
//!
//! | Field | Offset in the payload | Bits | Flag |
//! |---|---|---|---|
//! | version and flags | 0 | 32 | |
//! | sample_count | 4 | 32 | |
//! | data_offset, signed | 8 | 32 | 0x000001 |
//! | first_sample_flags | then | 32 | 0x000004 |
//! | and then for each sample: | | | |
//! | sample_duration | 0 in its group | 32 | 0x000100 |
//! | sample_size | then | 32 | 0x000200 |
//! | sample_flags | then | 32 | 0x000400 |
//! | sample_composition_time_offset, signed at version 1 | then | 32 | 0x000800 |

ghost use Rattle.std.specs.Prelude.{◌≡◌, ◌≤◌};
ghost use Rattle.mp4_box.specs.Order.{least_from};
ghost use Rattle.mp4_traf.specs.Rules.{trun_faults, trun_length};
ghost use Rattle.mp4_traf.specs.Trun.{data_offset, first_sample_flags, flags_conflict, sample_count, sample_fields, trun_broken, trun_fields};

use crate::fields::{flags_of, place_if, signed_at, width_if};
use mp4_box::{BoxRef, Check, Fault, Flags, Rule, TrunFlags, note, number_at};

/// Place of sample_count.
const SAMPLE_COUNT: u32 = 4;

/// Place of data_offset, if there is one.
const DATA_OFFSET: u32 = 8;

/// Places of the optional fields of a trun in its payload, and of those of its samples.
#[derive(Clone, Copy)]
pub struct TrunFields {
    pub data_offset: Option<u32>,
    pub first_sample_flags: Option<u32>,
    pub samples: u32,
}

/// Places of the fields of a sample in its group, and the length of a group.
#[derive(Clone, Copy, Debug)]
pub struct SampleFields {
    pub sample_duration: Option<u32>,
    pub sample_size: Option<u32>,
    pub sample_flags: Option<u32>,
    pub sample_composition_time_offset: Option<u32>,
    pub len: u32,
}

/// The optional fields of a trun with these flags.
#[tactic(auto, using(mp4_box::proofs::FlagLemmas::mask_keeps_flag), unfolding(crate::specs::Trun::trun_fields))]
pub(crate) fn trun_fields(word: u32) -> TrunFields
    ensures value { result ≡ trun_fields word }
    ensures small { result.samples ≤ 16 }
{
    let flags = TrunFlags::of_word(word);
    let has_offset = flags.contains(TrunFlags::DATA_OFFSET);
    let has_first = flags.contains(TrunFlags::FIRST_SAMPLE_FLAGS);
    let first_at = DATA_OFFSET + width_if(has_offset);
    TrunFields {
        data_offset: place_if(has_offset, DATA_OFFSET),
        first_sample_flags: place_if(has_first, first_at),
        samples: first_at + width_if(has_first),
    }
}

/// The fields of a sample of a trun with these flags.
#[tactic(auto, using(mp4_box::proofs::FlagLemmas::mask_keeps_flag), unfolding(crate::specs::Trun::sample_fields))]
pub(crate) fn sample_fields(word: u32) -> SampleFields
    ensures value { result ≡ sample_fields word }
    ensures small { result.len ≤ 16 }
{
    let flags = TrunFlags::of_word(word);
    let has_duration = flags.contains(TrunFlags::SAMPLE_DURATION);
    let has_size = flags.contains(TrunFlags::SAMPLE_SIZE);
    let has_flags = flags.contains(TrunFlags::SAMPLE_FLAGS);
    let has_offset = flags.contains(TrunFlags::SAMPLE_COMPOSITION_TIME_OFFSET);
    let size_at = width_if(has_duration);
    let flags_at = size_at + width_if(has_size);
    let offset_at = flags_at + width_if(has_flags);
    SampleFields {
        sample_duration: place_if(has_duration, 0),
        sample_size: place_if(has_size, size_at),
        sample_flags: place_if(has_flags, flags_at),
        sample_composition_time_offset: place_if(has_offset, offset_at),
        len: offset_at + width_if(has_offset),
    }
}

/// How many samples the trun with this payload has.
#[inline]
pub fn sample_count(payload: &[u8]) -> u32
    ensures { result ≡ sample_count payload.now }
{
    number_at(payload, SAMPLE_COUNT)
}

/// The data_offset of a trun, in bytes from the first one of its moof; none where it has none.
pub(crate) fn data_offset(payload: &[u8]) -> Option<i32>
    ensures { result ≡ data_offset payload.now }
{
    match trun_fields(flags_of(payload)).data_offset {
        Some(at) => Some(signed_at(payload, at)),
        None => None,
    }
}

/// The first_sample_flags of a trun; none where it has none.
pub(crate) fn first_sample_flags(payload: &[u8]) -> Option<u32>
    ensures { result ≡ first_sample_flags payload.now }
{
    match trun_fields(flags_of(payload)).first_sample_flags {
        Some(at) => Some(number_at(payload, at)),
        None => None,
    }
}

/// Whether a trun with these flags gives sample 0 its flags in two places.
#[tactic(auto, using(mp4_box::proofs::FlagLemmas::mask_keeps_flag))]
pub(crate) fn has_flags_conflict(word: u32) -> bool
    ensures { result ≡ flags_conflict word }
{
    let flags = TrunFlags::of_word(word);
    flags.contains(TrunFlags::FIRST_SAMPLE_FLAGS) && flags.contains(TrunFlags::SAMPLE_FLAGS)
}

/// The rule that a payload breaks whose version or length isn't as it must be.
#[tactic(auto, unfolding(crate::specs::Trun::trun_broken))]
pub(crate) fn trun_broken(payload: &[u8]) -> Option<Rule>
    ensures { result ≡ trun_broken payload.now }
{
    let len = payload.len();
    if len < 4 {
        return Some(Rule::FieldLength);
    }
    if payload[0] > 1 {
        return Some(Rule::Version);
    }
    let flags = flags_of(payload);
    let groups = u64::from(sample_fields(flags).len) * u64::from(sample_count(payload));
    if len as u64 == u64::from(trun_fields(flags).samples) + groups {
        None
    } else {
        Some(Rule::FieldLength)
    }
}

/// The payload of a trun has a known version, and is as long as its flags and its count say.
pub struct TrunLength;

impl Check for TrunLength {
    ghost faults = { λ _ b. trun_length b };

    #[tactic(auto, unfolding(mp4_box::specs::Order::least_from))]
    fn note_at(&self, this: &BoxRef<'_>, best: &mut Option<Fault>) {
        if let Some(rule) = trun_broken(this.payload) {
            note(best, this.fault(rule));
        }
    }
}

/// A trun gives sample 0 its flags in one place.
pub struct FlagsOnce;

impl Check for FlagsOnce {
    ghost faults = { λ _ b. trun_faults b };

    #[tactic(auto, unfolding(mp4_box::specs::Order::least_from))]
    fn note_at(&self, this: &BoxRef<'_>, best: &mut Option<Fault>) {
        if has_flags_conflict(flags_of(this.payload)) {
            note(best, this.fault(Rule::FlagsConflict));
        }
    }
}
