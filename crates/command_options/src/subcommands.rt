//! The subcommands of the program, as rows of a table.

use crate::help::{
    ABOUT_CHECK, ABOUT_COMPACT, ABOUT_CURVE, ABOUT_FAULTS, ABOUT_MERGE, ABOUT_RESPONSES, ABOUT_RUN,
    ABOUT_SCHEDULE, ABOUT_TEXTS, FILES,
};
use crate::options::{
    CHECK_OPTIONS, COMPACT_OPTIONS, CURVE_OPTIONS, FAULTS_OPTIONS, MERGE_OPTIONS, OptionRow,
    RESPONSES_OPTIONS, RUN_OPTIONS, SCHEDULE_OPTIONS,
};
use clap::{Arg, Command};
use command_basics::VERSION;
use std::alloc::{AllocError, Global};

/// A task of the program.
#[derive(Clone, Copy)]
pub enum Task {
    Check,
    Run,
    Curve,
    Compact,
    Responses,
    Faults,
    Merge,
    Schedule,
}

/// A subcommand.
#[derive(Clone, Copy)]
pub struct Subcommand {
    /// What it does.
    pub task: Task,
    name: &'static str,
    about: &'static str,
    /// The end of its long help.
    example: &'static str,
}

/// The description of `schedule`.
const ABOUT_THE_ORDER: &str =
    "Simulates as run does, in a given order of moves, for tests of the simulator itself";

/// All subcommands, in the order of the help, which is the order of use.
static SUBCOMMANDS: [Subcommand; 8] = [
    Subcommand {
        task: Task::Check,
        name: "check",
        about: "Checks a circuit and its tests: sizes, limits and warnings, or the errors",
        example: ABOUT_CHECK,
    },
    Subcommand {
        task: Task::Run,
        name: "run",
        about: "Simulates all faults of a model and prints the fault coverage",
        example: ABOUT_RUN,
    },
    Subcommand {
        task: Task::Curve,
        name: "curve",
        about: "Prints the coverage after each test that detects new faults",
        example: ABOUT_CURVE,
    },
    Subcommand {
        task: Task::Compact,
        name: "compact",
        about: "Writes fewer tests, which detect the same faults",
        example: ABOUT_COMPACT,
    },
    Subcommand {
        task: Task::Responses,
        name: "responses",
        about: "Writes the fault-free response to each test",
        example: ABOUT_RESPONSES,
    },
    Subcommand {
        task: Task::Faults,
        name: "faults",
        about: "Lists all faults of a model with their classes",
        example: ABOUT_FAULTS,
    },
    Subcommand {
        task: Task::Merge,
        name: "merge",
        about: "Makes the report of a run from its part files",
        example: ABOUT_MERGE,
    },
    Subcommand {
        task: Task::Schedule,
        name: "schedule",
        about: ABOUT_THE_ORDER,
        example: ABOUT_SCHEDULE,
    },
];

impl Subcommand {
    /// Returns the subcommand of a name.
    pub fn named(name: &str) -> Option<Subcommand> {
        SUBCOMMANDS.iter().copied().find(|row| row.name == name)
    }

    /// Returns its options, in the order of its help.
    pub fn options(&self) -> &'static [OptionRow] {
        match self.task {
            Task::Check => &CHECK_OPTIONS,
            Task::Run => &RUN_OPTIONS,
            Task::Curve => &CURVE_OPTIONS,
            Task::Compact => &COMPACT_OPTIONS,
            Task::Responses => &RESPONSES_OPTIONS,
            Task::Faults => &FAULTS_OPTIONS,
            Task::Merge => &MERGE_OPTIONS,
            Task::Schedule => &SCHEDULE_OPTIONS,
        }
    }

    /// Returns the options of the parser.
    fn args<'a>(&self, alloc: Global, has_word: bool) -> Result<Vec<Arg<'a>>, AllocError> {
        let mut args = Vec::new(alloc);
        for option in self.options() {
            args.push(option.arg(alloc, has_word)?)?;
        }
        Ok(args)
    }

    /// Returns the subcommand of the parser.
    fn command<'a>(&self, alloc: Global, has_word: bool) -> Result<Command<'a>, AllocError> {
        let args = self.args(alloc, has_word)?;
        Command::new(alloc, self.name)
            .about(self.about)
            .after_help(FILES)
            .after_long_help(self.example)
            .args(args)
    }
}

/// Returns the subcommands of the parser.
fn commands<'a>(alloc: Global, has_word: bool) -> Result<Vec<Command<'a>>, AllocError> {
    let mut commands = Vec::new(alloc);
    for row in &SUBCOMMANDS {
        commands.push(row.command(alloc, has_word)?)?;
    }
    Ok(commands)
}

/// Returns the parser of the command line, for these words: if they have a word as the number of
/// parts, it takes words there.
pub fn command_line<'a>(alloc: Global, words: &[&str]) -> Result<Command<'a>, AllocError> {
    let commands = commands(alloc, has_word(words))?;
    Command::new(alloc, "faultsim")
        .version(VERSION)
        .about("Parallel fault simulation of bench circuits")
        .after_long_help(ABOUT_TEXTS)
        .subcommand_required(true)
        .subcommands(commands)
}

/// Returns whether the words have a word as the number of parts.
fn has_word(words: &[&str]) -> bool {
    let mut is_value = false;
    for word in words {
        let value = if is_value {
            *word
        } else {
            word.strip_prefix("--parts=").unwrap_or("")
        };
        if matches!(value.as_bytes(), [b'A'..=b'Z' | b'a'..=b'z', ..]) {
            return true;
        }
        is_value = *word == "--parts";
    }
    false
}
