//! Sources and sinks in memory, for tests: they give and take few bytes at a time, and fail on demand.

mod from_slice;
mod to_vec;

pub use from_slice::FromSlice;
pub use to_vec::ToVec;
