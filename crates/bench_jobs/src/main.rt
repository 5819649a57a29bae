//! Jobs of the benchmarks, by the words of the command line, each on the whole of standard input:
//!
//! - [`runs`]: reads the first moof, and counts its runs;
//! - [`pieces`]: cuts the first run of the first moof, and counts what is written;
//! - [`push`]: cuts a stream that is pushed in as inputs.
//!
//! [`input`] says what standard input has. What the program must print for the first test vector is in the file stdout.
#![tactic(auto)]

mod input;
mod pieces;
mod push;
mod runs;

use crate::input::Input;
use std::io::Read;
use std::process::ExitCode;
use std::{env, io};

/// Does the job of this name, and prints what it counted.
fn do_job(rt: &HostRuntime, name: &str, input: &Input<'_>) -> io::Result<()> {
    match name {
        "runs" => runs::print_counts(rt, input),
        "pieces" => pieces::print_counts(rt, input),
        "push" => push::print_counts(rt, input),
        _ => println!(rt; "there is no job {name}"),
    }
}

/// Does the jobs that the command line names, one after the other.
fn do_jobs(rt: &HostRuntime) -> io::Result<()> {
    let mut read = Vec::new(rt.alloc());
    rt.stdin().read_to_end(&mut read)?;
    let input = Input::of(read.as_slice());
    let mut names = env::args(rt)?;
    let _ = names.next();
    for name in names {
        do_job(rt, name.as_str(), &input)?;
    }
    Ok(())
}

fn main(rt: HostRuntime) -> ExitCode {
    match do_jobs(&rt) {
        Ok(()) => ExitCode::from(0),
        Err(_) => ExitCode::from(1),
    }
}
