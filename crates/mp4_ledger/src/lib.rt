//! Counted memory: buffers and tables that are claimed from a ledger, which has a limit, and are given back to it.
//!
//! - [`Ledger`] counts what is claimed, refuses what would pass its limit, and keeps the most that was claimed, an
//!   [`EarlierPeak`] too;
//! - [`Buf`] is a buffer of bytes, and [`Rows64`] a table of rows of eight numbers.
//!
//! A claim can't be dropped: its owner must give it back, on every way out.
#![tactic(auto)]

mod buf;
mod ledger;
mod rows;

pub use buf::Buf;
pub use ledger::{EarlierPeak, Ledger, Refused};
pub use rows::Rows64;
