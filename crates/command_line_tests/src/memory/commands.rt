//! Command lines that run out of memory: they report it, and write nothing else.

use crate::memory::sweep::{Outcome, Trial, Way, answered, refused, try_call};
use crate::memory::texts::Screen;
use crate::memory::written::LISTING;
use command_line::{Source, SourceFault, run_words};
use std::alloc::Global;
use std::process::Abort;
use std::sync::Wait;
use std::thread::Threads;
use worked_circuits::C17;

/// A test file for C17, with one test.
const TEST: &[u8] = b"11111\n";

/// The part files of two faults.
const FIRST: &[u8] = b"\
    part 1 of 2 model stuck rule region bench b tests t\n\
    stem a sa0 7\n\
    stem a sa1 -\n\
    part 1 of 2: 1 of 1\n\
    ";

const SECOND: &[u8] = b"\
    part 2 of 2 model stuck rule region bench b tests t\n\
    stem a sa0 -\n\
    stem a sa1 none\n\
    part 2 of 2: 0 of 1\n\
    ";

/// The report of both.
const REPORT: &[u8] = b"stem a sa0 7\nstem a sa1 none\n1 of 2 (50.00%)\n";

/// The files `bench`, which is C17, `tests`, which has one test, and the part files `first` and
/// `second`, each read into new memory.
#[derive(Clone, Copy)]
pub(crate) struct Files;

impl Source for Files {
    fn read(&mut self, alloc: Global, path: &str) -> Result<Vec<u8>, SourceFault> {
        let text = match path {
            "bench" => C17,
            "tests" => TEST,
            "first" => FIRST,
            "second" => SECOND,
            _ => return Err(SourceFault::Unreadable),
        };
        Vec::from_slice(alloc, text).map_err(|_| SourceFault::Memory)
    }
}

/// The output of a command line, and its error without memory.
#[derive(Drop)]
struct Commanded<'a, R> {
    rt: &'a R,
    words: &'a [&'a str],
    text: &'a [u8],
    refusal: &'a str,
}

impl<R: Threads + Wait> Trial for Commanded<'_, R> {
    fn name(&self) -> &str {
        "run_words"
    }

    fn attempt(&self, alloc: Global) -> Outcome {
        let (mut out, mut err) = (Screen::new(), Screen::new());
        let status = run_words(self.rt, alloc, self.words, &mut Files, &mut out, &mut err);
        if status == 0 {
            return answered(out.text() == self.text && err.text().is_empty());
        }
        let is_told = err.text() == self.refusal.as_bytes();
        refused(status == 3 && is_told && out.text().is_empty())
    }
}

/// Tries the listing of C17 and a merge of two part files with no memory and then with more.
fn sweep_commands<R: Threads + Wait + Abort>(rt: &R, alloc: Global) {
    let listed = Commanded {
        rt,
        words: &["faultsim", "faults", "--bench", "bench"],
        text: LISTING,
        refusal: "faultsim: out of memory\n",
    };
    try_call(rt, alloc, &listed, Way::Sweep);
    let merged = Commanded {
        rt,
        words: &["faultsim", "merge", "--list", "first", "second"],
        text: REPORT,
        refusal: "faultsim: out of memory\n",
    };
    try_call(rt, alloc, &merged, Way::Sweep);
}

#[test]
fn command_lines_say_that_memory_is_out(rt: HostRuntime) {
    sweep_commands(&rt, rt.alloc());
}
