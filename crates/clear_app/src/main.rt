//! The clearing office between building firms and their holiday fund, as a program.
//!
//! The words of its command line say what it does; without words it serves the requests on standard
//! input over a new office with the sample rates, the sample callers and the day 2024-04-30. All that
//! stands in `clear_program`: a program costs its check more than a library does.
#![tactic(auto)]

use clear_program::run::run;
use std::process::ExitCode;

fn main(rt: HostRuntime) -> ExitCode {
    ExitCode::from(run(&rt))
}
