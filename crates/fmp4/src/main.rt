//! Lists the boxes or samples of an MP4 stream (ISO/IEC 14496-12), which is read from standard input, checks it, or
//! cuts its fragments into shorter ones.
#![tactic(auto)]

use fmp4_program::start;
use std::process::ExitCode;

fn main(rt: HostRuntime) -> ExitCode {
    start(rt)
}
