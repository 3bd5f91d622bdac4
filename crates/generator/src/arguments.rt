//! The arguments of the process, on the files of the system.

ghost use Rattle.std.specs.Prelude.{◌≤◌};

use crate::command::{CommandError, NO_MEMORY, answer, run_words};
use command_basics::Files;
use report::Out;
use std::alloc::{AllocError, Global};
use std::env;
use std::fs::File;
use std::io::{ErrorKind, Stdin};
use std::rt::{Clock, Env, Files as HasFiles};
use std::sync::Wait;
use std::thread::Threads;

/// Runs the arguments of the process, as [`run_words`] does, on the files of the system and on its
/// standard input, and returns the status.
pub fn run_arguments<
    R: Env + HasFiles<File = File> + Clock + AllocGlobal + Threads + Wait,
    W: Out,
    E: Out,
>(rt: &R, input: Stdin, out: &mut W, err: &mut E) -> u8
    ensures { result ≤ 3 }
{
    match read_arguments(rt) {
        Ok(arguments) => run_on_files(rt, &arguments, input, out, err),
        Err(fault) => answer(fault, None, err),
    }
}

/// Returns the arguments of the process.
fn read_arguments<R: Env + AllocGlobal>(rt: &R) -> Result<Vec<String>, CommandError> {
    let arguments = match env::args(rt) {
        Ok(arguments) => arguments,
        Err(error) if error.kind() == ErrorKind::OutOfMemory => return Err(NO_MEMORY),
        Err(_) => return Err(CommandError::NoText),
    };
    match arguments.collect(rt.alloc()) {
        Ok(arguments) => Ok(arguments),
        Err(AllocError) => Err(NO_MEMORY),
    }
}

/// Runs arguments on the files of the system.
fn run_on_files<R: HasFiles<File = File> + Clock + AllocGlobal + Threads + Wait, W: Out, E: Out>(
    rt: &R,
    arguments: &[String],
    input: Stdin,
    out: &mut W,
    err: &mut E,
) -> u8
    ensures { result ≤ 3 }
{
    match words_of(rt.alloc(), arguments) {
        Ok(words) => run_words(rt, rt.alloc(), &words, &mut Files::new(rt, input), out, err),
        Err(AllocError) => answer(NO_MEMORY, None, err),
    }
}

/// Returns the words of arguments.
fn words_of<'a>(alloc: Global, arguments: &'a [String]) -> Result<Vec<&'a str>, AllocError> {
    arguments.iter().map(|word| word.as_str()).collect(alloc)
}
