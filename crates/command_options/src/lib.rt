//! The words of the command line of `faultsim`: its subcommands, their options with helps and
//! values, and what of a command line cannot be used.
#![tactic(auto)]

mod help;
mod misuse;
mod options;
mod subcommands;
mod values;

pub use misuse::Misuse;
pub use options::{AUTO, MAX_PARTS, OptionRow, PART_FILES, STEEPEST, Takes};
pub use subcommands::{Subcommand, Task, command_line};
pub use values::{
    Split, read_contents, read_crew, read_format, read_lines, read_model, read_separator,
    read_split, read_workers,
};
