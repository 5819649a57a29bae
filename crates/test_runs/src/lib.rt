//! Tests of the program's runs, over readers and writers in memory, in a crate above it, so that who builds the program
//! proves no test. What is expected is counted by hand.
//!
//! In `tests/`:
//!
//! - `words.rt`: words and statuses; `calls.rt`: how the two ends are called; `ends.rt`: streams that end, and readers
//!   and writers that fail, after each byte;
//! - `listings.rt`: boxes that are listed, and faults of streams; `fragments.rt`: samples that are listed, and streams
//!   that are checked; `trafs.rt`: the lines and records of trafs; `layouts.rt`: the layouts that a fragment may have;
//!   `field_lengths.rt`: payloads of a wrong length; `hostile.rt`: numbers at the ends of their types;
//! - `splits.rt`: fragments that are cut, `times.rt`: by time and before keyframes, and `wanted.rt`: what must be
//!   written for them; `boxes_between.rt`: the boxes between them; `recuts.rt`: new fragments that are read again;
//!   `rows.rt`: rows that are read meanwhile; `split_stops.rt`: limits and failed writes;
//! - `feeders.rt` and `box_feeders.rt`: streams that are pushed in as inputs;
//! - `memory.rt`: what is claimed; `work.rt`: work that no clause bounds.
#![tactic(auto)]

#[cfg(test)]
mod tests;
