//! The command line of `faultgen`: options and their help.

use clap::{Arg, ArgAction, Command, value_parser};
use command_basics::{MODELS, VERSION};
use patterns::MAX_TESTS;
use report::MAX_WORKERS;
use std::alloc::{AllocError, Global};

/// The end of the long help.
const ABOUT: &str = "\
Example, a circuit:

    a.bench
    INPUT(a)
    INPUT(b)
    OUTPUT(z)
    z = AND(a, b)

    faultgen --bench a.bench > a.tests

writes tests to a.tests, one a line after a comment that names the columns, and prints their
coverage on standard error:

    6 of 6 (100.00%)

It tries random tests, block by block of 64, and keeps the tests that detect new faults. It ends if
no fault is left, if 20 blocks in a row detect nothing new, or at the greatest number of tests. Of
the best tests it writes those that are needed to detect the same faults.

Use --hold NAME=0 or --hold NAME=1 for an input with the same bit in each test, as a scan enable, a
test mode or an inactive reset. Faults that only the other bit detects stay undetected.

The exit status is 0 for success, 1 for an error in the circuit, 2 for an error in the command
line, and 3 if a file, the output, memory or a thread fails.";

/// Returns the option `--bench FILE`.
fn bench_option<'a>(alloc: Global) -> Arg<'a> {
    Arg::new(alloc, "bench")
        .long("bench")
        .short('b')
        .value_name("FILE")
        .required(true)
        .help("The circuit, a bench file; - is the standard input")
}

/// Returns the option `--model MODEL`.
fn model_option<'a>(alloc: Global) -> Arg<'a> {
    Arg::new(alloc, "model")
        .long("model")
        .short('m')
        .value_name("MODEL")
        .value_parser(MODELS.as_slice())
        .default_value("stuck")
        .help("Which faults")
}

/// Returns the option `--seed N`.
fn seed_option<'a>(alloc: Global) -> Arg<'a> {
    Arg::new(alloc, "seed")
        .long("seed")
        .value_name("N")
        .value_parser(value_parser!(u64))
        .default_value("1")
        .help("The seed of the random tests: the same seed gives the same tests")
}

/// Returns the option `--most N`.
fn most_option<'a>(alloc: Global) -> Arg<'a> {
    Arg::new(alloc, "most")
        .long("most")
        .value_name("N")
        .value_parser(value_parser!(u32).range(1..=i64::from(MAX_TESTS)))
        .default_value("65536")
        .help("The greatest number of tests, 1 to 65536")
}

/// Returns the option `--hold NAME=0|1`.
fn hold_option<'a>(alloc: Global) -> Arg<'a> {
    Arg::new(alloc, "hold")
        .long("hold")
        .value_name("NAME=0|1")
        .action(ArgAction::Append)
        .help("Give an input this bit in each test; you can hold several inputs")
}

/// Returns the option `--workers N`.
fn workers_option<'a>(alloc: Global) -> Arg<'a> {
    Arg::new(alloc, "workers")
        .long("workers")
        .short('w')
        .value_name("N")
        .value_parser(value_parser!(u32).range(1..=i64::from(MAX_WORKERS)))
        .default_value("4")
        .help("The number of workers that share the simulation, 1 to 64")
}

/// Returns the command line of the program.
pub(crate) fn command_line<'a>(alloc: Global) -> Result<Command<'a>, AllocError> {
    Command::new(alloc, "faultgen")
        .version(VERSION)
        .about("Makes random tests for a bench circuit, and keeps those that detect more")
        .after_long_help(ABOUT)
        .arg(bench_option(alloc))?
        .arg(model_option(alloc))?
        .arg(seed_option(alloc))?
        .arg(most_option(alloc))?
        .arg(hold_option(alloc))?
        .arg(workers_option(alloc))
}
