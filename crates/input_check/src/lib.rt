//! Checks of files before a run: all errors of a file, with their places and suggestions, and the
//! sizes of a circuit and its tests.
//!
//! [`check_texts`] does all of it, and [`answer_object`] gives its result as JSON. `bench_net` and
//! `patterns` decide whether a file is accepted, and which of its errors is the first. The search
//! for all errors of a file and for warnings decides nothing, and only promises that it is safe. Of
//! an error, contracts say the line that it names and its words.
#![tactic(auto)]

mod answer;
mod bench;
mod cycle;
mod errors;
mod finding;
mod foreign;
mod gates;
mod json_text;
mod note;
mod object;
mod place;
mod sizes;
mod suggest;
mod summary;
mod tests;
mod warning;

pub use answer::{Answer, check_texts};
pub use bench::{BenchCheck, check_bench};
pub use errors::{ErrorRow, errors_object};
pub use finding::{Finding, Findings, InputError, Located};
pub use foreign::Foreign;
pub use note::Note;
pub use object::answer_object;
pub use place::Place;
pub use sizes::Sizes;
pub use summary::{Counts, Excess, TestCounts, count_circuit, count_tests};
pub use tests::{TestCheck, check_tests};
