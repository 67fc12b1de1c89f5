//! The transmit port as a program: reads a script, and answers line by line.
//!
//! It calls `program::run`, and has no contract of its own: what is promised stands on the calls of `program` and
//! of the jobs.
#![tactic(auto)]

use std::process::ExitCode;

fn main(rt: HostRuntime) -> ExitCode {
    program::run(&rt)
}
