//! Tests of the libraries, in a crate above them, so that each library is proved once: worked numbers, and what no
//! clause can say.
//!
//! - [`claims`]: that claims succeed where memory is ample;
//! - [`ends`]: how an adapter maps std's errors;
//! - [`blocks`]: when groups of bytes go out that are put into a block;
//! - [`boxes`]: worked headers, fields and trees, and [`flags`]: worked flag words;
//! - [`moovs`]: worked moovs: `faults.rt`: what is at fault, `lists.rt`: their tracks;
//! - [`moofs`]: worked moofs: `faults.rt`: what is at fault, `runs.rt` and `samples.rt`: their runs and samples,
//!   `order.rt`: in which order the runs are taken, and where they may lie, `pieces.rt` and `times.rt`: their pieces,
//!   `room.rt`: the room for the numbers of these, `written.rt`: what is written for them;
//! - [`callers`]: callers of the libraries, for their pages.
#![tactic(auto)]

#[cfg(test)]
mod blocks;
#[cfg(test)]
mod boxes;
pub mod callers;
#[cfg(test)]
mod claims;
#[cfg(test)]
mod ends;
#[cfg(test)]
mod flags;
#[cfg(test)]
mod moofs;
#[cfg(test)]
mod moovs;
