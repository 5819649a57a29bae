//! The C library of fmp4: a fragmented stream is fed as it comes, and recut, checked or listed; its output is taken
//! from the front.
//!
//! - [`exports`]: what C calls, [`opening`]: how a stream is opened, by what is [`asked`] for, of a cut by its
//!   [`request`], and [`settings`]: its limit, and another stream; [`front`]: the front of the output, which may stay;
//!   [`fragments`]: records of what is listed; [`names`]: those of the rules;
//! - [`answer`]: the result of a call, as a number, and [`report`]: what was counted, and which rule is broken;
//! - [`stream`]: what C keeps, with [`handle`]: the pointer in it, and [`engine`]: what that points to, whose calls
//!   say what they did by [`results`];
//! - [`task`]: what is done with a stream, and [`task_feeder`]: what takes it for that;
//! - [`output`]: what waits to be taken, and [`ahead`]: output that doesn't; [`portion`]: how much of an input is taken;
//! - [`laws`]: what the definitions say of some numbers.
//!
//! The definitions: `specs/Engines.antt` (what an engine is after the bytes that it was fed, and what its calls do),
//! `specs/Tasks.antt` (the same of what takes the bytes, for each task), `specs/Calls.antt` (the same of what C keeps,
//! and what C asks for), `specs/Answers.antt` (numbers and reports), `specs/PendingOutput.antt` (what waits),
//! `specs/Portions.antt` (how much of an input is taken) and `specs/Handles.antt` (what a handle owns).
#![tactic(auto)]

mod ahead;
mod answer;
mod asked;
mod engine;
mod exports;
mod fragments;
mod front;
mod handle;
pub mod laws;
mod names;
mod opening;
mod output;
mod portion;
mod report;
mod request;
mod results;
mod settings;
mod stream;
mod task;
mod task_feeder;

pub use exports::{
    fmp4_close, fmp4_feed, fmp4_feed_take, fmp4_finish, fmp4_pending, fmp4_take, fmp4_totals,
};
pub use fragments::fmp4_next_fragment;
pub use front::{fmp4_peek, fmp4_skip};
pub use names::{fmp4_answer_name, fmp4_rule_name, fmp4_version};
pub use opening::{fmp4_check_open_as, fmp4_cut_open_as, fmp4_list_open_as, fmp4_split_open_as};
pub use report::Report;
pub use request::CutRequest;
pub use settings::{fmp4_reset, fmp4_set_limit};
pub use stream::Stream;
pub use task::Task;
