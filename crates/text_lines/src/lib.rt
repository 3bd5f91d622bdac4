//! Lines of a file: how bytes are cut into lines, and the contents of a line.
//!
//! A line ends at a line feed or at the end of the file, and one carriage return directly before
//! that end belongs to it. Lines are numbered from 1. Blanks are spaces and tabs. `#` begins a
//! comment that runs to the end of its line. Bench, test and order files are cut like this.
//!
//! Some files have a row in each line: the line without its comment and without the blanks at its
//! ends. An empty line is skipped. For example, ` 01 # last` has the row `01`.
#![tactic(auto)]

mod lines;
mod rows;

pub use lines::{FileLines, is_blank, without_carriage_return};
pub use rows::{Row, Rows, are_bits, count_line_feeds, line_start_from};
