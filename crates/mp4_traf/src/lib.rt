//! What a track fragment (ISO/IEC 14496-12, 8.8.6) says of its samples, with the defaults of its track, and the rules
//! that it must keep by itself. `CALLING.md` shows a caller.
//!
//! - [`Traf::runs`] and [`Run::rows`]: the [`Run`]s of a [`Traf`] and the [`Row`] of each sample. [`Run::rows_from`]
//!   goes on from a [`Cursor`], [`Run::whole_groups`] gives the bytes of rows with all four fields, and
//!   [`Run::sums_between`] adds some of them up ([`Sums`]), and [`Run::count_within`] counts how
//!   many last no longer than so many ticks;
//! - [`Trafs`]: the trafs of a moof, one after the other;
//! - [`Traf::totals`]: a traf by its samples, added up ([`TrafTotals`]); [`is_sync`]: whether one is a sync sample;
//! - [`internal`]: what moofs are read with. [`runs_of`](internal::runs_of) and [`heads_of`](internal::heads_of) read
//!   what a traf has before its runs; [`TfhdLength`](internal::TfhdLength), [`TrunLength`](internal::TrunLength),
//!   [`HoldsOnly`](internal::HoldsOnly), [`OfTrack`](internal::OfTrack), [`FlagsOnce`](internal::FlagsOnce) and
//!   [`InTime`](internal::InTime) are its rules, each as a [`Check`](mp4_box::Check);
//!   [`end_traf`](internal::end_traf) says where its track ends after it.
//!
//! In the order of a fragment: `children.rt` goes over the boxes of a moof by their types, `fields.rt` over fields that
//! a flag announces; `tfhd.rt`, `tfdt.rt` and `trun.rt` have the fields of a box by the standard's names and where they
//! lie, with its rules; `holds_only.rt` says which boxes may be there, and `times.rt` which times runs may have.
//! `start.rt` reads what precedes the runs of a traf, `traf.rt` makes the traf, `runs.rt` its runs ([`Run`] in
//! `run.rt`); `groups.rt` finds the fields of their samples and adds them up, `rows.rt` makes rows of them, `sync.rt`
//! says which are sync samples, and `traf_totals.rt` adds up a traf. `end.rt` says where a traf ends.
//!
//! In `specs/` a file has the definitions of the box or the words of its name: `specs/Rules.antt` and
//! `specs/TimeFaults.antt` say what is at fault, `specs/Rows.antt` what a row is, `specs/Cursors.antt` what a cursor
//! is, `specs/Runs.antt` when and where runs begin and end, `specs/Ranges.antt` bounds of them,
//! `specs/SyncSamples.antt` which samples are sync samples, `specs/CompositionTimes.antt` when samples are presented,
//! `specs/TrafTotals.antt` the sums over the samples of a traf, and `specs/Settling.antt` where the tracks end after
//! trafs. How all this is computed is said in `specs/Implementation/`.
#![tactic(auto)]

mod children;
mod end;
mod fields;
mod groups;
mod holds_only;
pub mod internal;
mod rows;
mod run;
mod runs;
mod start;
mod sync;
mod tfdt;
mod tfhd;
mod times;
mod traf;
mod traf_totals;
mod trun;

pub use groups::Sums;
pub use rows::{Cursor, Row, Rows, Steps};
pub use run::Run;
pub use runs::Runs;
pub use sync::is_sync;
pub use traf::{Traf, Trafs};
pub use traf_totals::TrafTotals;
