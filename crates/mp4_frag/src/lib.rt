//! The samples of a movie fragment: what a moof (ISO/IEC 14496-12, 8.8.4) says of each, and the rules that it must
//! keep. `CALLING.md` shows a caller. What a traf says of its samples is read by `mp4_traf`.
//!
//! - [`Moof::read`]: from the bytes of a moof to a [`Moof`], or the [`Fault`](mp4_box::Fault) that it has;
//!   [`Moof::settle`]: where its tracks end after it;
//! - [`Moof::trafs`]: its trafs, with their [`Run`]s and the [`Row`] of each sample; [`RunOfMoof::after`]: the run
//!   after one;
//! - [`Moof::list`]: a [`RunList`], its runs in the order in which they are taken, in claimed memory;
//!   [`RunList::at`] gives one of them, [`RunList::listed`] where it lies, and
//!   [`Moof::places`]: whether they may lie where they do in the [`Payload`] of its mdat;
//! - [`Moof::following`]: sums over runs that follow one another as they are listed ([`Following`]), without a list,
//!   and [`Moof::settle_by`]: where the tracks end after them;
//! - [`Moof::only_run`]: a [`SingleRun`], the run of a moof that has no other, without a list; [`SingleRun::read`]: the
//!   same from the bytes of the moof;
//! - [`laws`]: what the definitions of `specs/` imply.
//!
//! In the order of a fragment: `rules/` has the rules, with `repeats.rt` and `counts.rt`, `mfhd.rt` for the fields of
//! the mfhd, and `late.rt`, which finds the run that ends past 64 bits; `at_once/` checks all boxes in one pass, by
//! `child_at_once.rt`, and `moof.rt` makes the moof. `run_list/` makes the list of its runs and sorts its rows, by
//! track first, to find the run that is at fault by track: `fill.rt` puts a row for each (`run_row.rt`), `listed.rt`
//! goes over the rows, and `reread.rt` makes a row the run again. `after.rt` finds the next run, by `part.rt`.
//! `single_run/` reads the only run of a moof: `common_layout.rt` where the moof has the form that most have,
//! `only_run.rt` of any form; `following.rt` goes over runs that follow one another. `places.rt` finds the run that
//! may not lie where it does, and `settle.rt` and `traf_ends.rt` say where the tracks end.
//!
//! `specs/Rules.antt` and `specs/Repeats.antt` say what is at fault, `specs/Moofs.antt` the result of reading a moof,
//! `specs/RunLists.antt` in which order its runs are taken, `specs/SingleRuns.antt` what a run is that has no other,
//! `specs/Places.antt` which run is at fault by its place, `specs/After.antt` what follows a run, and
//! `specs/TrafEnds.antt` what is kept of where trafs end. How all this is computed is said in `specs/Implementation/`.
#![tactic(auto)]

mod after;
mod at_once;
mod following;
pub mod laws;
mod moof;
mod part;
mod places;
mod rules;
mod run_list;
mod settle;
mod single_run;
mod traf_ends;

pub use after::RunOfMoof;
pub use following::Following;
pub use moof::Moof;
pub use mp4_run_order::{ListedRun, Payload};
pub use mp4_traf::{Cursor, Row, Rows, Run, Runs, Steps, Sums, Traf, TrafTotals, Trafs};
pub use rules::counts::MOST_IN_MOOF;
pub use run_list::RunList;
pub use single_run::SingleRun;
pub use traf_ends::TrafEnds;
