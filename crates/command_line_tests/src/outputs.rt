//! Outputs that fail, or take few bytes a call.

use crate::checks::check;
use crate::memory::commands::Files;
use crate::screen::Screen;
use command_line::run_words;
use std::alloc::AllocError;
use std::sync::Wait;
use std::thread::Threads;

/// The output of a run of C17.
const COVERAGE: &str = "14 of 34 (41.17%)\n";

/// Command lines, each with its output.
static WRITTEN: [(&str, &str); 2] = [
    ("faultsim run --bench bench --tests tests", COVERAGE),
    (
        "faultsim merge first second --list",
        "stem a sa0 7\nstem a sa1 none\n1 of 2 (50.00%)\n",
    ),
];

const CANNOT_WRITE: &str = "faultsim: cannot write\n";

/// Returns the number of bytes, of `count`, that an output takes with this limit and this many a
/// call.
fn taken_of(count: usize, limit: usize, step: usize) -> usize {
    if step == 0 { 0 } else { limit.min(count) }
}

/// Returns the standard error of a command line, and its status, if all is written or not.
fn said_of(is_all: bool) -> (&'static str, u8) {
    if is_all { ("", 0) } else { (CANNOT_WRITE, 3) }
}

/// Returns whether words write this to an output with a limit of bytes, and of bytes a call. If
/// that was not all, they report it on standard error.
fn write_so<R: AllocGlobal + Threads + Wait>(
    rt: &R,
    words: &[&str],
    written: &str,
    limit: usize,
    step: usize,
) -> bool {
    let mut out = Screen::cut(rt.alloc(), limit, step);
    let mut err = Screen::new(rt.alloc());
    let status = run_words(rt, rt.alloc(), words, &mut Files, &mut out, &mut err);
    let taken = taken_of(written.len(), limit, step);
    let (said, wanted) = said_of(taken == written.len());
    let is_beginning = Some(out.text()) == written.as_bytes().get(..taken);
    is_beginning && err.text() == said.as_bytes() && status == wanted
}

/// Returns whether a command line writes this so.
fn writes<R: AllocGlobal + Threads + Wait>(
    rt: &R,
    line: &str,
    written: &str,
    limit: usize,
    step: usize,
) -> Result<bool, AllocError> {
    let words: Vec<&str> = line.split(' ').collect(rt.alloc())?;
    Ok(write_so(rt, &words, written, limit, step))
}

/// Returns whether a command line writes a beginning of this to each output that takes fewer bytes.
fn writes_beginnings<R: AllocGlobal + Threads + Wait>(
    rt: &R,
    line: &str,
    written: &str,
) -> Result<bool, AllocError> {
    for limit in 0..=written.len() {
        if !writes(rt, line, written, limit, 4096)? {
            return Ok(false);
        }
    }
    Ok(true)
}

/// Returns whether a command line writes this to outputs that take no byte, one and seven a call.
fn writes_slowly<R: AllocGlobal + Threads + Wait>(
    rt: &R,
    line: &str,
    written: &str,
) -> Result<bool, AllocError> {
    Ok(
        writes(rt, line, written, 4096, 0)?
            && writes(rt, line, written, 4096, 1)?
            && writes(rt, line, written, 4096, 7)?,
    )
}

#[test]
fn outputs_take_a_beginning_or_all(rt: HostRuntime) {
    for (line, written) in &WRITTEN {
        check(&rt, writes_beginnings(&rt, line, written) == Ok(true), line);
        check(&rt, writes_slowly(&rt, line, written) == Ok(true), line);
    }
}
