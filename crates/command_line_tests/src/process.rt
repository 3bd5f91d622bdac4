//! Runs on the arguments of a process: files that can't be read, and an output that fails to flush.

use crate::checks::check;
use crate::screen::Screen;
use command_line::run_arguments;
use std::alloc::{Allocator, Global};
use std::env::FillError;
use std::fs::{File, Metadata, OpenOptions};
use std::io::{self, ErrorKind, Stdin, Write};
use std::rt::{Clock, Env, Files};
use std::sync::Wait;
use std::thread::Threads;
use std::time::Duration;

/// A process with the words of a line as its arguments, in which each call on files fails.
#[derive(Drop)]
struct Process<'a, R> {
    rt: &'a R,
    line: &'a str,
    refusal: ErrorKind,
}

impl<R: Threads> Threads for Process<'_, R> {}

impl<R: Wait> Wait for Process<'_, R> {}

impl<R: AllocGlobal> Alloc for Process<'_, R> {
    type A = Global;

    fn alloc(&self) -> Global {
        self.rt.alloc()
    }
}

impl<R> Env for Process<'_, R> {
    fn arg(&self, i: usize, buf: &mut [u8]) -> Result<usize, FillError> {
        let Some(word) = self.line.split(' ').nth(i) else {
            return Err(FillError::NotPresent);
        };
        let Some(room) = buf.get_mut(..word.len()) else {
            return Err(FillError::TooLong);
        };
        room.copy_from_slice(word.as_bytes());
        Ok(word.len())
    }

    fn var(&self, _name: &str, _buf: &mut [u8]) -> Result<usize, FillError> {
        Err(FillError::NotPresent)
    }

    fn var_at(&self, _i: usize, _buf: &mut [u8]) -> Result<usize, FillError> {
        Err(FillError::NotPresent)
    }
}

impl<R: Files<File = File>> Files for Process<'_, R> {
    type File = File;

    type Dir = R::Dir;

    fn open_file(&self, _how: &OpenOptions, _path: &str) -> io::Result<File> {
        Err(self.refusal.into())
    }

    fn open_dir(&self, _path: &str) -> io::Result<R::Dir> {
        Err(self.refusal.into())
    }

    fn metadata(&self, _path: &str) -> io::Result<Metadata> {
        Err(self.refusal.into())
    }

    fn symlink_metadata(&self, _path: &str) -> io::Result<Metadata> {
        Err(self.refusal.into())
    }

    fn copy(&self, _from: &str, _to: &str) -> io::Result<u64> {
        Err(self.refusal.into())
    }

    fn rename(&self, _from: &str, _to: &str) -> io::Result<()> {
        Err(self.refusal.into())
    }

    fn remove_file(&self, _path: &str) -> io::Result<()> {
        Err(self.refusal.into())
    }

    fn create_dir(&self, _path: &str) -> io::Result<()> {
        Err(self.refusal.into())
    }

    fn remove_dir(&self, _path: &str) -> io::Result<()> {
        Err(self.refusal.into())
    }

    fn remove_dir_all<B: Allocator>(&self, _alloc: B, _path: &str) -> io::Result<()> {
        Err(self.refusal.into())
    }
}

impl<R> Clock for Process<'_, R> {
    fn monotonic(&self) -> io::Result<Duration> {
        Err(self.refusal.into())
    }

    fn since_1970(&self) -> io::Result<Duration> {
        Err(self.refusal.into())
    }
}

/// A writer that takes all bytes, and that flushes or fails to.
#[derive(Clone, Copy)]
struct Tube {
    flushes: bool,
}

impl Write for Tube {
    fn write(&mut self, buf: &[u8]) -> io::Result<usize> {
        Ok(buf.len())
    }

    fn flush(&mut self) -> io::Result<()> {
        if self.flushes {
            Ok(())
        } else {
            Err(ErrorKind::WriteZero.into())
        }
    }
}

/// The arguments of a process, its output, the error of its files, and its standard error. The
/// status is 3.
#[derive(Clone, Copy)]
struct Case {
    line: &'static str,
    out: Tube,
    files: ErrorKind,
    stderr: &'static str,
}

static CASES: [Case; 3] = [
    Case {
        line: "faultsim --version",
        out: Tube { flushes: false },
        files: ErrorKind::NotFound,
        stderr: "faultsim: cannot write\n",
    },
    Case {
        line: "faultsim faults --bench bench",
        out: Tube { flushes: false },
        files: ErrorKind::NotFound,
        stderr: "faultsim: cannot read bench\n",
    },
    Case {
        line: "faultsim faults --bench bench",
        out: Tube { flushes: true },
        files: ErrorKind::OutOfMemory,
        stderr: "faultsim: out of memory\n",
    },
];

/// Returns whether a process ends as a case wants.
fn ends_right<R: AllocGlobal + Files<File = File> + Threads + Wait>(
    rt: &R,
    input: Stdin,
    case: &Case,
) -> bool {
    let process = Process {
        rt,
        line: case.line,
        refusal: case.files,
    };
    let mut err = Screen::new(rt.alloc());
    let status = run_arguments(&process, input, case.out, &mut err);
    err.text() == case.stderr.as_bytes() && status == 3
}

#[test]
fn refused_files_and_flushes_are_told(rt: HostRuntime) {
    for case in &CASES {
        check(&rt, ends_right(&rt, rt.stdin(), case), case.stderr);
    }
}
