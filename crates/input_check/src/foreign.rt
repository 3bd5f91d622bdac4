//! Files of other kinds, known by their first bytes.

use std::fmt::{self, Display, Formatter};
use text_lines::FileLines;

/// A kind of file that is neither a bench file nor a test file.
#[derive(Clone, Copy)]
pub enum Foreign {
    /// A file that a program, or one of its name, has compressed.
    Compressed(&'static str),
    /// A text with a byte order mark before it.
    Marked,
    /// A netlist in Verilog.
    Verilog,
}

impl Display for Foreign {
    fn fmt<W: fmt::Write>(&self, f: &mut Formatter<W>) -> fmt::Result {
        match self {
            Foreign::Compressed(program) => {
                write!(f, "a file compressed by {program}; decompress it first")
            }
            Foreign::Marked => f.write_str("a byte order mark; save the file as ASCII text"),
            Foreign::Verilog => {
                f.write_str("a Verilog netlist; contrib/verilog2bench makes a bench file of it")
            }
        }
    }
}

/// Returns the kind of a file by its first bytes, if it is neither a bench file nor a test file.
pub fn foreign_kind(text: &[u8]) -> Option<Foreign> {
    match text {
        [0x1f, 0x8b, ..] => Some(Foreign::Compressed("gzip")),
        [b'B', b'Z', b'h', b'1'..=b'9', ..] => Some(Foreign::Compressed("bzip2")),
        [0xfd, b'7', b'z', b'X', b'Z', 0, ..] => Some(Foreign::Compressed("xz")),
        [0x28, 0xb5, 0x2f, 0xfd, ..] => Some(Foreign::Compressed("zstd")),
        [b'P', b'K', 3, 4, ..] => Some(Foreign::Compressed("zip")),
        [0xef, 0xbb, 0xbf, ..] | [0xff, 0xfe, ..] | [0xfe, 0xff, ..] => Some(Foreign::Marked),
        _ if is_verilog(text) => Some(Foreign::Verilog),
        _ => None,
    }
}

/// Returns whether a text begins with a module of Verilog, after comments and directives.
fn is_verilog(text: &[u8]) -> bool {
    for line in FileLines::new(text) {
        match line.trim_ascii_start() {
            [] | [b'/', b'/' | b'*', ..] | [b'*', ..] | [b'(', b'*', ..] | [b'`', ..] => continue,
            first => return first.starts_with(b"module "),
        }
    }
    false
}
