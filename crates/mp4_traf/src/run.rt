//! A run of samples.

use crate::trun::SampleFields;

/// A run of samples, as a trun has it (ISO/IEC 14496-12, 8.8.8). Times are ticks of the track's timescale. Its rows
/// are read from the bytes of its moof.
#[derive(Clone, Copy, Debug)]
pub struct Run {
    /// The track_ID of its track.
    pub track: u32,
    /// The index of the sample entry of its samples, from 1 on.
    pub entry: u32,
    /// The version of its trun: composition time offsets are unsigned at 0, and signed at 1.
    pub version: u8,
    /// How many samples it has.
    pub count: u32,
    /// The decode time of its first sample.
    pub time: u64,
    /// Where it ends in time: its time plus the durations of its samples.
    pub end: u64,
    /// The offset in the stream of the first byte of its samples.
    pub place: i128,
    /// How many bytes its samples have.
    pub bytes: u64,
    /// The offset in the stream of its trun.
    pub offset: u64,
    /// The duration of a sample that has none of its own.
    pub duration: u32,
    /// The size in bytes of a sample that has none of its own.
    pub size: u32,
    /// The flags of a sample that has none of its own.
    pub flags: u32,
    /// The flags of sample 0 where it has none of its own: the first_sample_flags of its trun, or else the default.
    pub(crate) default_first_flags: u32,
    /// The timescale of its track: how many ticks a second has.
    pub timescale: u32,
    /// Places of the fields of a sample in its group.
    pub fields: SampleFields,
    /// Where in the moof the first group begins.
    pub(crate) samples_at: u64,
    /// Where in the moof the trun ends.
    pub ends_at: u64,
    /// Where in the moof the traf ends.
    pub traf_ends_at: u64,
}
