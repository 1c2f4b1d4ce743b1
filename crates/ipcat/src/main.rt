//! `ipcat` writes an example as an Arrow IPC stream, and prints streams and files.
#![tactic(auto)]

use ipc_programs::cat::start;
use ipc_programs::process::words_of;
use std::process::ExitCode;

fn main(rt: HostRuntime) -> ExitCode {
    let words = words_of(&rt);
    let status = start(&rt, words);
    ExitCode::from(status)
}
