//! Reads a stream item by item as it comes, whatever its items are: the theory on which each command rests.
//!
//! - [`stop`]: [`Stop`], why a run stops, and [`tally`]: [`Tally`], what is counted of a stream;
//! - [`limits`]: how far a stream is followed, and what is refused;
//! - [`block`]: [`Block`], which gathers bytes and lines on their way to a sink ([`Line`]), many at once by [`groups`],
//!   with the ends of fragments among them ([`fragment_end`]: [`FragmentEnd`]);
//! - [`buffered_box`]: [`BufferedBox`], a box in claimed memory while it comes;
//! - [`header_bytes`]: [`next_header`], which reads a header as its bytes come (`specs/HeaderBytes.antt`), and
//!   [`body`]: the bodies after headers ([`Body`]);
//! - [`machine`]: [`Machine`], which takes the bytes of a stream as they come, and [`feed`], which feeds it the next
//!   input;
//! - [`fed_machine`]: [`FedMachine`], which keeps one between two inputs, and [`run`]: [`read_stream`], which feeds one
//!   a whole stream.
//!
//! The definitions: `specs/Readings.antt` (how some bytes are read, item by item), `specs/Bodies.antt` (a body with
//! effects as it comes), `specs/Buffering.antt` (a box that is buffered until it is whole), `specs/Inputs.antt` (a
//! machine that is fed the stream in inputs), with `specs/Accounts.antt` (how it changes a ledger) and
//! `specs/Blocks.antt` (text that goes through a block) and `specs/Fed.antt` (the same for the bytes so far),
//! `specs/FedMachines.antt` (what is kept between two inputs, and what a call does that feeds the next),
//! `specs/StreamRuns.antt` (a run over a whole stream) with `specs/Ends.antt` (its source and sink), and
//! `specs/Puts.antt` (calls that put text into a block). Within a machine `specs/Steps.antt` describes one step, and
//! `specs/Continuations.antt` what all machines have in common. They name no command: a command says what is at the
//! front of some bytes, and its machine meets the clauses of [`Machine`].
#![tactic(auto)]

pub mod block;
pub mod body;
pub mod buffered_box;
pub mod fed_machine;
pub mod fragment_end;
pub mod groups;
pub mod header_bytes;
pub mod limits;
pub mod machine;
pub mod run;
pub mod stop;
pub mod tally;

pub use block::{BLOCK_BYTES, Block, LINE_BYTES, Line};
pub use body::{AnyBody, Body, Extent, body_of, truncated};
pub use buffered_box::BufferedBox;
pub use fed_machine::FedMachine;
pub use fragment_end::FragmentEnd;
pub use groups::GROUP_BYTES;
pub use header_bytes::{HeaderBytes, HeaderStatus, next_header};
pub use limits::{LONGEST, at_fault, is_too_long};
pub use machine::{Machine, feed};
pub use run::read_stream;
pub use stop::Stop;
pub use tally::Tally;
