//! The program on the words and the ends that the system gives it.

use crate::runs::run;
use mp4_stream::{FromRead, IntoWrite};
use std::env;
use std::process::ExitCode;

/// Runs the command that the words of the command line name, on standard input, standard output and standard error. The
/// exit status is that of [`run`], or 4 where the words can't be had.
pub fn start(rt: HostRuntime) -> ExitCode {
    let Ok(all) = env::args(&rt) else {
        return ExitCode::from(4);
    };
    let Ok(words) = all.collect::<Vec<String>>(rt.alloc()) else {
        return ExitCode::from(4);
    };
    let mut r = FromRead::new(rt.stdin());
    let mut w = IntoWrite::new(rt.stdout());
    let mut fault_w = IntoWrite::new(rt.stderr());
    ExitCode::from(run(rt.alloc(), words, &mut r, &mut w, &mut fault_w))
}
