//! `ipconvert` copies Arrow IPC streams and files, and appends streams to files.
#![tactic(auto)]

use ipc_programs::convert::start;
use ipc_programs::process::words_of;
use std::process::ExitCode;

fn main(rt: HostRuntime) -> ExitCode {
    let words = words_of(&rt);
    let status = start(&rt, words);
    ExitCode::from(status)
}
