//! The program over any reader and writers.
//!
//! - [`runs`]: [`run`], which does what the words of the command line ask, and [`system`]: [`start`], which runs it on
//!   the system's words and ends;
//! - [`asked`]: what they can ask for, and [`command`]: how they are read;
//! - [`lines`]: the lines on the fault writer, and that of `check`;
//! - [`laws`]: what some command lines ask for.
//!
//! The definitions: `specs/Words.antt` (the command line), `specs/Lines.antt` (the lines of faults), `specs/Runs.antt`
//! (what a run does).
#![tactic(auto)]

mod asked;
mod command;
pub mod laws;
mod lines;
mod runs;
mod system;

pub use runs::run;
pub use system::start;
