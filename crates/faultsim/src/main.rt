//! `faultsim` reports the first test of a list that detects each fault of a bench circuit, and the
//! fault coverage.
#![tactic(auto)]

use command_line::run_arguments;
use report::Plain;
use std::process::ExitCode;

/// Runs the command line, and ends with its status.
fn main(rt: HostRuntime) -> ExitCode {
    let mut err = Plain::new(rt.stderr());
    ExitCode::from(run_arguments(&rt, rt.stdin(), rt.stdout(), &mut err))
}
