//! The header of a track fragment, tfhd (ISO/IEC 14496-12, 8.8.7): its fields and its rules.
//!
//! | Field | Offset in the payload | Bits | Flag |
//! |---|---|---|---|
//! | version and flags | 0 | 32 | |
//! | track_ID | 4 | 32 | |
//! | base_data_offset, which no stream may have | 8 | 64 | 0x000001 |
//! | sample_description_index | then | 32 | 0x000002 |
//! | default_sample_duration | then | 32 | 0x000008 |
//! | default_sample_size | then | 32 | 0x000010 |
//! | default_sample_flags | then | 32 | 0x000020 |

ghost use Rattle.std.specs.Prelude.{◌≡◌, ◌<◌, ◌==◌, IfSome, length};
ghost use Rattle.std.specs.List.{position};
ghost use Rattle.mp4_box.specs.Trees.{view};
ghost use Rattle.mp4_box.specs.Order.{least_from};
ghost use Rattle.mp4_traf.specs.Implementation.Heads.{HasTicks};
ghost use Rattle.mp4_traf.specs.Rules.{entry_of, tfhd_faults, tfhd_length};
ghost use Rattle.mp4_traf.specs.Tfhd.{counts_from_moof, duration_is_empty, tfhd_fields, track_id};

use crate::fields::{flags_of, number_or, place_if, width_if};
use mp4_box::{BoxRef, Check, Fault, Flags, Rule, TfhdFlags, note, number_at};
use mp4_init::{Track, TrackList};

/// Place of track_ID.
const TRACK_ID: u32 = 4;

/// Places of the optional fields of a tfhd in its payload, and its length.
#[derive(Clone, Copy)]
pub struct TfhdFields {
    pub sample_description_index: Option<u32>,
    pub default_sample_duration: Option<u32>,
    pub default_sample_size: Option<u32>,
    pub default_sample_flags: Option<u32>,
    pub len: u32,
}

/// The fields of a tfhd with these flags.
#[tactic(auto, using(mp4_box::proofs::FlagLemmas::mask_keeps_flag), unfolding(crate::specs::Tfhd::tfhd_fields))]
pub(crate) fn tfhd_fields(word: u32) -> TfhdFields
    ensures { result ≡ tfhd_fields word }
{
    let flags = TfhdFlags::of_word(word);
    let has_index = flags.contains(TfhdFlags::SAMPLE_DESCRIPTION_INDEX);
    let has_duration = flags.contains(TfhdFlags::DEFAULT_SAMPLE_DURATION);
    let has_size = flags.contains(TfhdFlags::DEFAULT_SAMPLE_SIZE);
    let has_flags = flags.contains(TfhdFlags::DEFAULT_SAMPLE_FLAGS);
    let index_at = if flags.contains(TfhdFlags::BASE_DATA_OFFSET) {
        16
    } else {
        8
    };
    let duration_at = index_at + width_if(has_index);
    let size_at = duration_at + width_if(has_duration);
    let flags_at = size_at + width_if(has_size);
    TfhdFields {
        sample_description_index: place_if(has_index, index_at),
        default_sample_duration: place_if(has_duration, duration_at),
        default_sample_size: place_if(has_size, size_at),
        default_sample_flags: place_if(has_flags, flags_at),
        len: flags_at + width_if(has_flags),
    }
}

/// The track_ID of the tfhd with this payload.
pub fn track_id(payload: &[u8]) -> u32
    ensures { result ≡ track_id payload.now }
{
    number_at(payload, TRACK_ID)
}

/// Whether the data offsets count from the first byte of the moof.
#[tactic(auto, using(mp4_box::proofs::FlagLemmas::mask_keeps_flag))]
pub(crate) fn counts_from_moof(word: u32) -> bool
    ensures { result ≡ counts_from_moof word }
{
    let flags = TfhdFlags::of_word(word);
    !flags.contains(TfhdFlags::BASE_DATA_OFFSET) && flags.contains(TfhdFlags::DEFAULT_BASE_IS_MOOF)
}

/// Whether there are no samples for the time of the fragment.
#[tactic(auto, using(mp4_box::proofs::FlagLemmas::mask_keeps_flag))]
pub(crate) fn duration_is_empty(word: u32) -> bool
    ensures { result ≡ duration_is_empty word }
{
    TfhdFlags::of_word(word).contains(TfhdFlags::DURATION_IS_EMPTY)
}

/// The payload of a tfhd is as long as its flags say.
pub struct TfhdLength;

impl Check for TfhdLength {
    ghost faults = { λ _ b. tfhd_length b };

    #[tactic(auto, unfolding(mp4_box::specs::Order::least_from))]
    fn note_at(&self, this: &BoxRef<'_>, best: &mut Option<Fault>) {
        if this.payload.len() != tfhd_fields(flags_of(this.payload)).len as usize {
            note(best, this.fault(Rule::FieldLength));
        }
    }
}

/// The index of the sample entry that a tfhd names, or else its track.
pub(crate) fn entry_of(track: Track, tfhd: &[u8]) -> u32
    ensures { result ≡ entry_of track tfhd.now }
{
    let fields = tfhd_fields(flags_of(tfhd));
    number_or(tfhd, fields.sample_description_index, track.desc)
}

/// Notes what is at fault with the values of a tfhd. The index of its track, where there is one.
#[inline(always)]
pub fn note_tfhd(tracks: &TrackList, tfhd: &BoxRef<'_>, best: &mut Option<Fault>) -> Option<usize>
    ensures found { result ≡
        position (λ t. t.id == track_id tfhd.now.payload.now) tracks.now }
    ensures within { IfSome result (λ i. i < length tracks.now) }
    ensures best { best.new ≡ least_from best.old (tfhd_faults tracks.now (view tfhd.now)) }
    ensures ticks { HasTicks tracks.now (view tfhd.now) }
{
    let flags = flags_of(tfhd.payload);
    if !counts_from_moof(flags) {
        note(best, tfhd.fault(Rule::BaseNotMoof));
    }
    if duration_is_empty(flags) {
        note(best, tfhd.fault(Rule::EmptyDuration));
    }
    let found = tracks.find(track_id(tfhd.payload));
    match found {
        None => note(best, tfhd.fault(Rule::UnknownTrack)),
        Some(i) => {
            let track = tracks.at(i);
            let index = entry_of(track, tfhd.payload);
            if index == 0 || index > track.entries {
                note(best, tfhd.fault(Rule::EntryIndex));
            }
        }
    }
    found
}

/// A tfhd counts from its moof, has samples, and is of a track and of one of its sample entries.
#[derive(Drop)]
pub struct OfTrack<'a>(pub &'a TrackList);

impl<'a> Check for OfTrack<'a> {
    ghost faults = { λ c b. tfhd_faults c.0.now b };

    fn note_at(&self, this: &BoxRef<'_>, best: &mut Option<Fault>) {
        note_tfhd(self.0, this, best);
    }
}
