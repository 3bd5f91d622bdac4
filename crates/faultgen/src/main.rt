//! `faultgen` makes tests for a bench circuit: random tests, of which those are kept that detect
//! something new. It is an example of the library.
#![tactic(auto)]

use generator::run_arguments;
use report::Plain;
use std::process::ExitCode;

/// Runs the command line, and ends with its status.
fn main(rt: HostRuntime) -> ExitCode {
    let mut out = Plain::new(rt.stdout());
    let mut err = Plain::new(rt.stderr());
    ExitCode::from(run_arguments(&rt, rt.stdin(), &mut out, &mut err))
}
