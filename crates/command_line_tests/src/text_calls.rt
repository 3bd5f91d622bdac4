//! The words and statuses of the errors of text calls.

use crate::checks::check;
use bench_net::BenchFault;
use block_sim::JobFault;
use command_line::status_of;
use patterns::{OrderFault, TestFault};
use report::{ReportFault, RunFault, SimFault};
use std::alloc::{AllocError, Global};

/// Each error of a text call, its words and its status.
static FAULTS: [(SimFault, &str, u8); 17] = [
    (SimFault::Bench(BenchFault::Memory), "out of memory", 3),
    (SimFault::Tests(TestFault::Memory), "out of memory", 3),
    (SimFault::Job(JobFault::Memory), "out of memory", 3),
    (SimFault::Order(OrderFault::Memory), "out of memory", 3),
    (SimFault::Run(RunFault::Memory), "out of memory", 3),
    (SimFault::Memory, "out of memory", 3),
    (SimFault::Run(RunFault::Threads), "thread refused", 3),
    (SimFault::Report(ReportFault::Write), "cannot write", 3),
    (SimFault::Bench(BenchFault::Empty), "bench: no signal", 1),
    (
        SimFault::Tests(TestFault::TooMany),
        "tests: more than 65536 rows",
        1,
    ),
    (
        SimFault::Job(JobFault::TooManyPieces),
        "more than 16777216 pieces",
        1,
    ),
    (
        SimFault::Order(OrderFault::TooMany),
        "order: more than 1000000 moves",
        1,
    ),
    (SimFault::Run(RunFault::NoWorkers), "no workers", 2),
    (
        SimFault::Run(RunFault::TooManyPieces),
        "more than 16777216 pieces",
        1,
    ),
    (
        SimFault::Run(RunFault::TooManyWorkers),
        "more than 64 workers",
        2,
    ),
    (
        SimFault::Run(RunFault::NoSuchMove(3)),
        "move 3: no such worker",
        1,
    ),
    (
        SimFault::Run(RunFault::Unfinished { class: 2, block: 1 }),
        "unfinished at class 2 block 1",
        3,
    ),
];

/// Returns whether an error is written in these words.
fn is_said(alloc: Global, fault: &SimFault, words: &str) -> Result<bool, AllocError> {
    let said = format!(in alloc; "{fault}")?;
    Ok(said.as_str() == words)
}

#[test]
fn faults_have_their_words_and_statuses(rt: HostRuntime) {
    for (fault, words, status) in &FAULTS {
        let is_right = is_said(rt.alloc(), fault, words) == Ok(true);
        check(&rt, is_right && status_of(fault) == *status, words);
    }
}
