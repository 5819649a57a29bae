//! Does jobs to streams of a seed, and prints what came of each: the workloads of bench/workloads.txt. Its words are
//! the name of a job, a number below 2^32 as the seed, and how many periods the stream has; with the name `all` it does
//! every job.
#![tactic(auto)]

mod boxes;
mod digest;
mod fragments;
mod jobs;
mod random;
mod stream;

use jobs::{Job, Outcome, run_job};
use std::process::ExitCode;
use std::{env, io};

/// The names of the jobs.
const NAMES: [&str; 6] = [
    "cut_live",
    "cut_rows",
    "check_muxed",
    "list_sound",
    "feed_muxed",
    "check_shuffled",
];

/// What the words of the command line ask for.
#[derive(Drop)]
struct Words {
    name: String,
    seed: u32,
    periods: u32,
}

/// Reads the words of the command line.
fn read_words(rt: &HostRuntime) -> Option<Words> {
    let mut all = env::args(rt).ok()?;
    let _ = all.next()?;
    let name = all.next()?;
    let seed = all.next()?.parse::<u32>().ok()?;
    let periods = all.next()?.parse::<u32>().ok()?;
    Some(Words {
        name,
        seed,
        periods,
    })
}

/// Does the job of this name, and prints what came of it.
fn print_job(rt: &HostRuntime, name: &str, words: &Words) -> io::Result<()> {
    let Some(job) = Job::named(name) else {
        return println!(rt; "there is no job {name}");
    };
    let Some(Outcome { answer, written }) = run_job(rt.alloc(), job, words.seed, words.periods)
    else {
        return println!(rt; "{name}: no memory for the stream");
    };
    let (bytes, hash) = written.answer();
    match answer {
        Ok(totals) => println!(rt;
            "{name}: {} fragments, {} samples, {} bytes of media, {} rows read, {} claimed; {bytes} bytes, {hash:016x}",
            totals.fragments, totals.samples, totals.media_bytes, totals.rows_read, totals.peak
        ),
        Err(stop) => println!(rt; "{name}: {stop:?}; {bytes} bytes, {hash:016x}"),
    }
}

/// Does what the words ask for.
fn print_jobs(rt: &HostRuntime) -> io::Result<()> {
    let Some(words) = read_words(rt) else {
        return println!(rt; "stream_jobs NAME SEED PERIODS");
    };
    if words.name.as_str() != "all" {
        return print_job(rt, words.name.as_str(), &words);
    }
    for name in NAMES {
        print_job(rt, name, &words)?;
    }
    Ok(())
}

fn main(rt: HostRuntime) -> ExitCode {
    match print_jobs(&rt) {
        Ok(()) => ExitCode::from(0),
        Err(_) => ExitCode::from(1),
    }
}
