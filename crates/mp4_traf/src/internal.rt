//! What `mp4_frag` and the crates over it read moofs with: the boxes of a traf, the fields of these and its rules. No
//! other caller needs them.

pub use crate::children::{OfKind, Truns, children_of, next_of, truns_of};
pub use crate::end::end_traf;
pub use crate::fields::payload_at;
pub use crate::holds_only::HoldsOnly;
pub use crate::runs::{RunStart, run_at, run_end, run_of};
pub use crate::start::{Heads, RunsOf, before_runs, heads_of, runs_of};
pub use crate::tfdt::{LONG_TFDT_LEN, TFDT_LEN, base_media_decode_time};
pub use crate::tfhd::{OfTrack, TfhdLength, note_tfhd, track_id};
pub use crate::times::InTime;
pub use crate::traf::{
    TrafContext, TrafHeader, base_of, end_in, header_by, known_track, track_at, track_of,
};
pub use crate::trun::{FlagsOnce, SampleFields, TrunLength, sample_count};
