//! The mdat of a fragment: accepted, listed or recut, and ended.

pub(crate) mod accept_list;
pub(crate) mod accept_recut;
pub(crate) mod check;
pub(crate) mod end;
pub(crate) mod header;
pub(crate) mod list;
pub(crate) mod recut;
pub(crate) mod sample_lines;
pub(crate) mod totals;
pub(crate) mod track_lines;
pub(crate) mod traf_lines;
