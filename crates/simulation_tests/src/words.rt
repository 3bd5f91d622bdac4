//! The words of errors that the command line never writes, and of all errors of runs.

use crate::checks::{check_ok, is_said};
use fault_ledger::LedgerFault;
use patterns::{PushFault, WordsFault};
use workers::RunFault;

/// The errors of words of tests, each with its text.
static OF_WORDS: [(WordsFault, &str); 3] = [
    (
        WordsFault::IdleBits(4),
        "source 4: a bit past the last of the tests",
    ),
    (WordsFault::BadCount, "wrong number of words"),
    (WordsFault::TooMany, "more than 65536 tests"),
];

/// Each kind of error of a ledger, and its words.
static OF_LEDGERS: [(LedgerFault, &str); 4] = [
    (LedgerFault::NoWorkers, "no workers"),
    (LedgerFault::TooManyWorkers, "more than 64 workers"),
    (LedgerFault::TooManyPieces, "more than 16777216 pieces"),
    (LedgerFault::Memory, "out of memory"),
];

/// Each kind of error of a run, and its words.
static OF_RUNS: [(RunFault, &str); 7] = [
    (RunFault::NoWorkers, "no workers"),
    (RunFault::TooManyWorkers, "more than 64 workers"),
    (RunFault::NoSuchMove(1), "move 1: no such worker"),
    (RunFault::TooManyPieces, "more than 16777216 pieces"),
    (RunFault::Memory, "out of memory"),
    (RunFault::Threads, "thread refused"),
    (
        RunFault::Unfinished { class: 1, block: 2 },
        "unfinished at class 1 block 2",
    ),
];

#[test]
fn words_of_faults(rt: HostRuntime) {
    for (fault, words) in &OF_WORDS {
        check_ok(&rt, is_said(rt.alloc(), fault, words), words);
    }
    for (fault, words) in &OF_LEDGERS {
        check_ok(&rt, is_said(rt.alloc(), fault, words), words);
    }
    for (fault, words) in &OF_RUNS {
        check_ok(&rt, is_said(rt.alloc(), fault, words), words);
    }
    let width = is_said(rt.alloc(), &PushFault::BadWidth, "wrong width");
    check_ok(&rt, width, "wrong width");
}
