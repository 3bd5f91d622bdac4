//! The files that the programs read and write.

use std::alloc::Global;
use std::fmt::{self, Display, Formatter};
use std::fs::File;
use std::io::{self, ErrorKind, Read, Seek, SeekFrom, Stdin};
use std::os::unix::fs::{FileTypeExt, MetadataExt};
use std::{fs, rt};

/// The reason why a file is not read.
#[derive(Clone, Copy, Debug, PartialEq, Eq)]
pub enum SourceFault {
    /// It cannot be read, for any cause but memory.
    Unreadable,
    /// It cannot be read, and the system names the cause by this number.
    System(i32),
    /// There is no memory for it.
    Memory,
}

impl Display for SourceFault {
    /// Writes the system's words for the cause after a colon, and nothing for a cause without any.
    fn fmt<W: fmt::Write>(&self, f: &mut Formatter<W>) -> fmt::Result {
        match self {
            SourceFault::System(number) => {
                let error = io::Error::from_raw_os_error(*number);
                write!(f, ": {error}")
            }
            SourceFault::Unreadable | SourceFault::Memory => Ok(()),
        }
    }
}

/// A file could not be written.
#[derive(Clone, Copy, Debug, PartialEq, Eq)]
pub struct WriteFault;

/// The identity of a file: its device, and its number there.
#[derive(Clone, Copy, Debug, PartialEq, Eq)]
pub struct FileId {
    pub device: u64,
    pub number: u64,
}

/// The system as the programs see it: the bytes at a path, files that they write, and a clock.
pub trait Source {
    /// Returns the bytes at a path.
    fn read(&mut self, alloc: Global, path: &str) -> Result<Vec<u8>, SourceFault>;

    /// Returns the bytes at a path, or only the first ones, more than `most`, if they are more.
    fn read_up_to(
        &mut self,
        alloc: Global,
        path: &str,
        _most: u64,
    ) -> Result<Vec<u8>, SourceFault> {
        self.read(alloc, path)
    }

    /// Opens a file, and returns it with the number of bytes that are left to read. Returns `None`
    /// if there is no such file, or it can be read only once, as a pipe.
    fn open(&self, _path: &str) -> Option<(File, u64)> {
        None
    }

    /// Returns the identity of the file at a path, if there is one: the same for all its paths.
    fn identity(&self, _path: &str) -> Option<FileId> {
        None
    }

    /// Returns the identity of the file at a path, if it can be read only once, as a pipe.
    fn stream(&self, _path: &str) -> Option<FileId> {
        None
    }

    /// Returns the identity of the file that the standard output goes to, if it goes to one and
    /// not to a device or a pipe.
    fn output(&self) -> Option<FileId> {
        None
    }

    /// Writes a file at a path, in place of what is there.
    fn write(&mut self, _path: &str, _text: &[u8]) -> Result<(), WriteFault> {
        Err(WriteFault)
    }

    /// Returns the milliseconds since a fixed moment, if there is a clock.
    fn milliseconds(&self) -> Option<u64> {
        None
    }
}

/// Returns whether a path names the standard input: `-`, or a name that the system has for it.
pub fn is_standard_input(path: &str) -> bool {
    matches!(path, "-" | "/dev/stdin" | "/dev/fd/0" | "/proc/self/fd/0")
}

/// The names that the system has for the standard input and output, and for what it knows of the
/// input.
const STANDARD_INPUT: &str = "/dev/stdin";

const STANDARD_OUTPUT: &str = "/dev/stdout";

const INPUT_STATE: &str = "/proc/self/fdinfo/0";

/// Returns the path of the system for a path of the command line.
fn system_path(path: &str) -> &str {
    if path == "-" { STANDARD_INPUT } else { path }
}

/// The files of the system, with the standard input as `-`.
#[derive(Drop)]
pub struct Files<'a, R> {
    rt: &'a R,
    input: Stdin,
}

impl<'a, R: rt::Files<File = File> + rt::Clock + AllocGlobal> Files<'a, R> {
    /// Returns the files that a runtime reaches.
    pub fn new(rt: &'a R, input: Stdin) -> Self {
        Files { rt, input }
    }

    /// Returns the place at which the standard input stands, from its first byte, if the system
    /// says so.
    fn input_place(&self) -> Option<u64> {
        let state = fs::read_to_string(self.rt, INPUT_STATE).ok()?;
        let place = state.lines().find_map(|line| line.strip_prefix("pos:"))?;
        place.trim().parse().ok()
    }

    /// Opens the file that the standard input is once more, at the place at which that stands, and
    /// returns it with the number of bytes behind that.
    fn reopen_input(&self) -> Option<(File, u64)> {
        let place = self.input_place()?;
        let len = self.len_of(STANDARD_INPUT)?;
        let mut file = File::open(self.rt, STANDARD_INPUT).ok()?;
        file.seek(SeekFrom::Start(place)).ok()?;
        Some((file, len.saturating_sub(place)))
    }

    /// Returns the number of bytes of the file at a path, if it is one and not a device or a pipe.
    fn len_of(&self, path: &str) -> Option<u64> {
        let found = fs::metadata(self.rt, path).ok()?;
        found.is_file().then_some(found.len())
    }

    /// Returns the first bytes at a path, at most `most` of them. The standard input is read from
    /// where it stands.
    fn front(&self, path: &str, most: u64) -> io::Result<Vec<u8>> {
        let mut bytes = Vec::new(self.rt.alloc());
        if is_standard_input(path) {
            self.input.take(most).read_to_end(&mut bytes)?;
        } else {
            let file = File::open(self.rt, path)?;
            file.take(most).read_to_end(&mut bytes)?;
        }
        Ok(bytes)
    }
}

/// Returns the reason for an error of the system.
fn source_fault(error: io::Error) -> SourceFault {
    match (error.kind(), error.raw_os_error()) {
        (ErrorKind::OutOfMemory, _) => SourceFault::Memory,
        (_, Some(number)) => SourceFault::System(number),
        (_, None) => SourceFault::Unreadable,
    }
}

impl<R: rt::Files<File = File> + rt::Clock + AllocGlobal> Source for Files<'_, R> {
    fn read(&mut self, _alloc: Global, path: &str) -> Result<Vec<u8>, SourceFault> {
        self.front(path, u64::MAX).map_err(source_fault)
    }

    /// Reads one byte past `most` at most.
    fn read_up_to(
        &mut self,
        _alloc: Global,
        path: &str,
        most: u64,
    ) -> Result<Vec<u8>, SourceFault> {
        self.front(path, most.saturating_add(1))
            .map_err(source_fault)
    }

    fn open(&self, path: &str) -> Option<(File, u64)> {
        if is_standard_input(path) {
            return self.reopen_input();
        }
        let len = self.len_of(path)?;
        let file = File::open(self.rt, path).ok()?;
        Some((file, len))
    }

    /// Returns the device and the inode of a file.
    fn identity(&self, path: &str) -> Option<FileId> {
        let found = fs::metadata(self.rt, system_path(path)).ok()?;
        Some(FileId {
            device: found.dev(),
            number: found.ino(),
        })
    }

    /// Returns those of a pipe. A path doesn't open a socket at all.
    fn stream(&self, path: &str) -> Option<FileId> {
        let found = fs::metadata(self.rt, system_path(path)).ok()?;
        if found.file_type().is_fifo() {
            self.identity(path)
        } else {
            None
        }
    }

    fn output(&self) -> Option<FileId> {
        self.len_of(STANDARD_OUTPUT)?;
        self.identity(STANDARD_OUTPUT)
    }

    fn write(&mut self, path: &str, text: &[u8]) -> Result<(), WriteFault> {
        fs::write(self.rt, path, text).map_err(|_| WriteFault)
    }

    fn milliseconds(&self) -> Option<u64> {
        let time = self.rt.monotonic().ok()?;
        let whole = time.as_secs().saturating_mul(1000);
        Some(whole.saturating_add(u64::from(time.subsec_millis())))
    }
}
