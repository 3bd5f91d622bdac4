//! The part of a bench file that a thread reads.

use bench_net::line::NumberedLine;
use bench_net::number::StatedLine;
use bench_net::read::Counts;

/// The statements of consecutive lines.
#[derive(Drop)]
pub(crate) struct Stretch<'a> {
    /// The place in the file at which the first of the lines begins, counted from 0 in bytes.
    pub(crate) start: usize,
    /// The place after the last of the lines.
    pub(crate) end: usize,
    /// The statements of the lines.
    pub(crate) stated: Vec<StatedLine<'a>>,
    /// The numbers of names that the statements define and read.
    pub(crate) counts: Counts,
}

/// The statements of a stretch over numbers.
#[derive(Drop)]
pub(crate) struct Numbered {
    /// The statements.
    pub(crate) lines: Vec<NumberedLine>,
    /// The numbers of the lines that define a name.
    pub(crate) at: Vec<u64>,
}
