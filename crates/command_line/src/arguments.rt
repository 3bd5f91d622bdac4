//! The arguments of the process, on the files of the system.

ghost use Rattle.std.specs.Prelude.{◌≤◌};

use crate::command::run_words;
use crate::status::{CommandError, MISSED, NO_MEMORY, UNWRITTEN, answer_fault};
use command_basics::{DONE, Files, REFUSED, keep_freed_memory};
use report::{Out, Plain};
use std::alloc::{AllocError, Global};
use std::env;
use std::fs::File;
use std::io::{BufWriter, ErrorKind, Stdin, Write};
use std::rt::{Clock, Env, Files as HasFiles};
use std::sync::Wait;
use std::thread::Threads;

/// Runs the arguments of the process, as [`run_words`] does, on the files of the system and on its
/// standard input, and returns the status. The output has a buffer, which is flushed at the end.
pub fn run_arguments<
    R: Env + HasFiles<File = File> + Clock + AllocGlobal + Threads + Wait,
    W: Write + Drop,
    E: Out + Send,
>(rt: &R, input: Stdin, out: W, err: &mut E) -> u8
    ensures { result ≤ 4 }
{
    keep_freed_memory(rt.alloc());
    match read_arguments(rt) {
        Ok(arguments) => run_on_files(rt, &arguments, input, out, err),
        Err(fault) => answer_fault(&fault, None, err),
    }
}

/// Returns the arguments of the process.
fn read_arguments<R: Env + AllocGlobal>(rt: &R) -> Result<Vec<String>, CommandError> {
    let arguments = match env::args(rt) {
        Ok(arguments) => arguments,
        Err(error) if error.kind() == ErrorKind::OutOfMemory => return Err(NO_MEMORY),
        Err(_) => return Err(CommandError::NoText),
    };
    Ok(arguments.collect(rt.alloc())?)
}

/// Returns the words of arguments.
fn words_of(alloc: Global, arguments: &[String]) -> Result<Vec<&str>, AllocError> {
    arguments.iter().map(|word| word.as_str()).collect(alloc)
}

/// Runs arguments on the files of the system, with a buffer before the output.
fn run_on_files<
    R: HasFiles<File = File> + Clock + AllocGlobal + Threads + Wait,
    W: Write + Drop,
    E: Out + Send,
>(rt: &R, arguments: &[String], input: Stdin, out: W, err: &mut E) -> u8
    ensures { result ≤ 4 }
{
    let Ok(words) = words_of(rt.alloc(), arguments) else {
        return answer_fault(&NO_MEMORY, None, err);
    };
    let Ok(buffered) = BufWriter::new(rt.alloc(), out) else {
        return answer_fault(&NO_MEMORY, None, err);
    };
    let mut out = Plain::new(buffered);
    let mut files = Files::new(rt, input);
    let status = run_words(rt, rt.alloc(), &words, &mut files, &mut out, err);
    let flushed = out.into_writer().flush();
    if matches!(status, DONE | MISSED | REFUSED) && flushed.is_err() {
        return answer_fault(&UNWRITTEN, None, err);
    }
    status
}
