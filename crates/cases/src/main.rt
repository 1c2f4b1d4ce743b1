//! Runs test cases: each names a public call with its arguments, and states what the call must
//! give.
//!
//! `cases FILE ..` runs the cases of these files, one in each paragraph, and prints of each whether
//! it agrees, with both values where it doesn't. Lines that begin with `#` are comments. The status
//! is 0 where all cases agree, else 1. `case` has the form of a case; the modules that decode its
//! parts, in the libraries `cases_*`, begin with their notation.
#![tactic(auto)]

mod calls;
mod case;
mod conversions;
mod programs;
mod tally;

use std::process::ExitCode;
use std::{env, fs, io};
use tally::Tally;

fn main(rt: HostRuntime) -> io::Result<ExitCode> {
    let mut tally = Tally::new();
    let mut words = env::args(&rt)?;
    let _program = words.next();
    for path in words {
        let text = fs::read_to_string(&rt, path.as_str())?;
        tally.run_cases(&rt, rt.alloc(), path.as_str(), text.as_str())?;
    }
    tally.report(&rt)
}
