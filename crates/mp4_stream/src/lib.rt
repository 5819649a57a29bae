//! Streams: runs over a whole stream (its boxes, its samples, its fragments, whether it breaks a rule, and its
//! fragments cut into shorter ones), and Feeders, into which a stream is pushed as it comes.
//!
//! - [`totals`]: [`Totals`], what is counted of a stream;
//! - [`run`]: [`boxes`], which lists the boxes of a stream by the machine of `mp4_boxes`;
//! - [`fragments`]: [`samples`], [`fragments::fragments`], [`check`] and [`split`], which read its fragments by the
//!   machine of `mp4_fragment_machine`, with [`null_sink`]: a writer for one that writes no text;
//! - [`feeder`]: [`Feeder`], which takes the inputs of a fragmented stream for any of these, and [`box_feeder`]:
//!   [`BoxFeeder`], which lists the boxes of a stream that it is fed;
//! - [`pushed`]: [`split_pieces`], a loop over a [`Feeder`], whose inputs are those of a list;
//! - [`laws`]: what the definitions of `specs/` imply.
//!
//! The definitions: `specs/Feeders.antt` (what a Feeder is after the bytes that it was fed, and what its calls do) with
//! `specs/Pushes.antt` (inputs that are pushed in, one after the other), `specs/BoxFeeders.antt` (the same of a
//! BoxFeeder), and `specs/Fragments.antt` (a run that reads fragments). How boxes are read is defined in `mp4_boxes`,
//! what a run returns, writes and claims in `mp4_machine`, in `specs/StreamRuns.antt`, and there too what any machine
//! does that is fed inputs, in `specs/FedMachines.antt`.
#![tactic(auto)]

pub mod box_feeder;
pub mod feeder;
pub mod fragments;
pub mod laws;
mod null_sink;
pub mod pushed;
pub mod run;
pub mod totals;

pub use box_feeder::BoxFeeder;
pub use feeder::Feeder;
pub use fragments::{check, samples, split};
pub use mp4_box::{Fault, FourCc, Rule};
pub use mp4_cut::Cut;
pub use mp4_ends::{Failed, FromRead, IntoWrite, Sink, Source, ends, write_all};
pub use mp4_grammar::Command;
pub use mp4_ledger::Ledger;
pub use mp4_machine::Stop;
pub use mp4_recut::Operation;
pub use mp4_vectors as vectors;
pub use pushed::split_pieces;
pub use run::boxes;
pub use totals::Totals;
