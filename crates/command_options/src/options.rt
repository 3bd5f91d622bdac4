//! The options of the subcommands, as rows of tables.

use crate::help::ABOUT_MODELS;
use clap::builder::ValueParser;
use clap::{Arg, ArgAction};
use command_basics::MODELS;
use report::MAX_WORKERS;
use std::alloc::{AllocError, Global};

/// The greatest number of parts of a run, which the helps of `--parts` and `--part` name.
pub const MAX_PARTS: u32 = 65_536;

/// The greatest number up to which the detections of a fault are counted, which its help names.
const MAX_DETECTIONS: u32 = 65_536;

// The help of `--workers` names this number.
const _: () = prove!(MAX_WORKERS == 64);

/// The word for as many stretches as suit the workers.
pub const AUTO: &str = "auto";

/// The choices of `--parts` if its value is a word.
static PARTS_CHOICES: [&str; 2] = ["1..=65536", AUTO];

/// The value of `--order` for tests that detect the most first.
pub const STEEPEST: &str = "steepest";

/// The name of the files `FILE..` of `merge`.
pub const PART_FILES: &str = "part texts";

/// What an option takes.
#[derive(Clone, Copy)]
pub enum Takes {
    /// Nothing: it is a flag.
    Nothing,
    /// Any text.
    Text,
    /// The path of a file to read.
    File,
    /// The paths of one file or more to read, without the name of the option.
    Files,
    /// A number from 1 to this one.
    Number(u32),
    /// A number of parts, or a word in place of it.
    Parts,
    /// One of these words.
    Word(&'static [&'static str]),
    /// The name of a fault model.
    Model,
}

/// An option of a subcommand.
#[derive(Clone, Copy)]
pub struct OptionRow {
    /// Its name, after `--`.
    pub name: &'static str,
    short: Option<char>,
    pub takes: Takes,
    /// The name of its value in the help, if it takes one.
    value: &'static [&'static str],
    /// Its value if it isn't used, if it then has one.
    default: &'static [&'static str],
    is_required: bool,
    help: &'static str,
    /// The options that can't stand beside it.
    conflicts: &'static [&'static str],
    /// The options that have to stand beside it.
    needs: &'static [&'static str],
}

/// A flag, of which each row has what differs.
const FLAG: OptionRow = OptionRow {
    name: "",
    short: None,
    takes: Takes::Nothing,
    value: &[],
    default: &[],
    is_required: false,
    help: "",
    conflicts: &[],
    needs: &[],
};

const BENCH: OptionRow = OptionRow {
    name: "bench",
    short: Some('b'),
    takes: Takes::File,
    value: &["FILE"],
    is_required: true,
    help: "The circuit, a bench file",
    ..FLAG
};

const TESTS: OptionRow = OptionRow {
    name: "tests",
    short: Some('t'),
    help: "The tests, one a line: a bit for each input, then for each flip-flop",
    ..BENCH
};

const MODEL: OptionRow = OptionRow {
    name: "model",
    short: Some('m'),
    takes: Takes::Model,
    value: &["MODEL"],
    default: &["stuck"],
    help: "Which faults: stuck-at, or slow to rise and slow to fall",
    ..FLAG
};

const WORKERS: OptionRow = OptionRow {
    name: "workers",
    short: Some('w'),
    takes: Takes::Number(MAX_WORKERS),
    value: &["N"],
    default: &["4"],
    help: "The number of workers that share the run, 1 to 64",
    ..FLAG
};

const PARTS: OptionRow = OptionRow {
    name: "parts",
    takes: Takes::Parts,
    value: &["N"],
    help: "Run in N stretches of the fault classes, or auto, without a limit on pieces",
    ..FLAG
};

const LIST: OptionRow = OptionRow {
    name: "list",
    short: Some('l'),
    help: "Print the first test of each fault, too, or none if no test detects it",
    ..FLAG
};

const UNDETECTED: OptionRow = OptionRow {
    name: "undetected",
    help: "Print the undetected faults, too",
    conflicts: &["list"],
    ..FLAG
};

const CLASSES: OptionRow = OptionRow {
    name: "classes",
    help: "Print the coverage of the fault classes, too",
    ..FLAG
};

const BLOCKS: OptionRow = OptionRow {
    name: "blocks",
    takes: Takes::Text,
    value: &["S"],
    help: "Print the coverage of each block, too; S ends a block in a name, such as .",
    conflicts: &["list", "undetected", "classes"],
    ..FLAG
};

const BLOCKING: OptionRow = OptionRow {
    name: "blocking",
    help: "Print the pins that block the effects of undetected faults, too",
    conflicts: &[
        "list",
        "undetected",
        "why",
        "classes",
        "blocks",
        "part",
        "detections",
        "histogram",
    ],
    ..FLAG
};

const FORMAT: OptionRow = OptionRow {
    name: "format",
    takes: Takes::Word(&["text", "csv", "json"]),
    value: &["FORMAT"],
    default: &["text"],
    help: "The format of the list of faults",
    ..FLAG
};

/// The help of `--format` of `run` and `merge`.
const RUN_FORMAT_HELP: &str =
    "The format of the list; csv and json list all faults, or only undetected ones";

/// The help of `--classes` of `run`.
const RUN_CLASSES_HELP: &str =
    "Print the coverage of the fault classes, too, or with --format the class of each fault";

const FAIL_UNDER: OptionRow = OptionRow {
    name: "fail-under",
    takes: Takes::Text,
    value: &["P"],
    help: "End with status 4 if the coverage of the faults is below P percent",
    ..FLAG
};

const PROGRESS: OptionRow = OptionRow {
    name: "progress",
    help: "Draw the progress of the run on standard error",
    ..FLAG
};

/// The options of `check`, in the order of the help, as in each of these tables.
pub(crate) static CHECK_OPTIONS: [OptionRow; 4] = [
    BENCH,
    OptionRow {
        is_required: false,
        ..TESTS
    },
    MODEL,
    OptionRow {
        takes: Takes::Word(&["text", "json"]),
        help: "The format of the result; json also has the errors",
        ..FORMAT
    },
];

pub(crate) static RUN_OPTIONS: [OptionRow; 18] = [
    BENCH,
    TESTS,
    MODEL,
    WORKERS,
    PARTS,
    OptionRow {
        name: "part",
        takes: Takes::Text,
        value: &["I/N"],
        help: "Run only part I of N, from 1, and write its part file",
        ..FLAG
    },
    OptionRow {
        name: "detections",
        takes: Takes::Number(MAX_DETECTIONS),
        value: &["N"],
        help: "Count up to N tests that detect each fault, 1 to 65536",
        conflicts: &["part"],
        ..FLAG
    },
    OptionRow {
        name: "histogram",
        help: "With --detections, also write how many faults have each count",
        conflicts: &["undetected", "classes", "blocks", "part"],
        needs: &["detections"],
        ..FLAG
    },
    LIST,
    UNDETECTED,
    OptionRow {
        name: "why",
        help: "With --undetected or --format, print the reason for each undetected fault",
        conflicts: &["list", "part", "histogram"],
        ..FLAG
    },
    OptionRow {
        help: RUN_CLASSES_HELP,
        ..CLASSES
    },
    OptionRow {
        conflicts: &["list", "undetected", "classes", "why", "part", "detections"],
        ..BLOCKS
    },
    BLOCKING,
    OptionRow {
        help: RUN_FORMAT_HELP,
        conflicts: &["part"],
        ..FORMAT
    },
    OptionRow {
        conflicts: &["part", "histogram"],
        ..FAIL_UNDER
    },
    OptionRow {
        name: "summary",
        takes: Takes::Text,
        value: &["FILE"],
        help: "Write a summary of the run to FILE, as JSON",
        conflicts: &["part", "histogram"],
        ..FLAG
    },
    PROGRESS,
];

pub(crate) static CURVE_OPTIONS: [OptionRow; 7] = [
    BENCH,
    TESTS,
    MODEL,
    WORKERS,
    PARTS,
    OptionRow {
        help: "The format of the curve",
        ..FORMAT
    },
    PROGRESS,
];

pub(crate) static COMPACT_OPTIONS: [OptionRow; 8] = [
    BENCH,
    TESTS,
    MODEL,
    WORKERS,
    PARTS,
    OptionRow {
        name: "numbers",
        help: "Write the numbers of the kept tests instead of the tests",
        ..FLAG
    },
    OptionRow {
        name: "order",
        takes: Takes::Word(&["list", STEEPEST]),
        value: &["ORDER"],
        default: &["list"],
        help: "The order of the kept tests",
        ..FLAG
    },
    PROGRESS,
];

pub(crate) static RESPONSES_OPTIONS: [OptionRow; 3] = [
    BENCH,
    TESTS,
    OptionRow {
        name: "pairs",
        help: "Write each test and its capture test: launch-on-capture pairs",
        ..FLAG
    },
];

pub(crate) static SCHEDULE_OPTIONS: [OptionRow; 8] = [
    BENCH,
    TESTS,
    OptionRow {
        name: "order",
        short: Some('o'),
        help: "The moves: on each line the number of a worker, from 0",
        ..BENCH
    },
    MODEL,
    WORKERS,
    LIST,
    UNDETECTED,
    CLASSES,
];

pub(crate) static FAULTS_OPTIONS: [OptionRow; 3] = [BENCH, MODEL, FORMAT];

pub(crate) static MERGE_OPTIONS: [OptionRow; 8] = [
    LIST,
    UNDETECTED,
    OptionRow {
        needs: &["bench"],
        ..CLASSES
    },
    OptionRow {
        needs: &["bench"],
        ..BLOCKS
    },
    OptionRow {
        help: RUN_FORMAT_HELP,
        conflicts: &["classes"],
        ..FORMAT
    },
    OptionRow {
        is_required: false,
        help: "The circuit of the run, for --classes, --blocks and --format",
        ..BENCH
    },
    FAIL_UNDER,
    OptionRow {
        name: PART_FILES,
        takes: Takes::Files,
        value: &["FILE"],
        is_required: true,
        help: "The part files of one run, in any order",
        ..FLAG
    },
];

impl Takes {
    /// Returns what the parser does with an option.
    fn action(self) -> ArgAction {
        match self {
            Takes::Nothing => ArgAction::SetTrue,
            Takes::Files => ArgAction::Append,
            _ => ArgAction::Set,
        }
    }

    /// Returns the parser of a value. If `has_word` is set, the number of parts may be a word: the
    /// parser of a number takes none.
    fn parser(self, has_word: bool) -> ValueParser<'static> {
        match self {
            Takes::Nothing => ValueParser::Bool,
            Takes::Text | Takes::File | Takes::Files => ValueParser::String,
            Takes::Parts if has_word => ValueParser::Names(&PARTS_CHOICES),
            Takes::Parts => ValueParser::Signed(1, i64::from(MAX_PARTS)),
            Takes::Number(most) => ValueParser::Signed(1, i64::from(most)),
            Takes::Word(words) => ValueParser::Names(words),
            Takes::Model => ValueParser::Names(&MODELS),
        }
    }
}

impl OptionRow {
    /// Returns the option of the parser.
    pub(crate) fn arg<'a>(&self, alloc: Global, has_word: bool) -> Result<Arg<'a>, AllocError> {
        let arg = Arg::new(alloc, self.name)
            .required(self.is_required)
            .help(self.help)
            .value_names(self.value)
            .default_values(self.default)
            .hide_possible_values(matches!(self.takes, Takes::Parts))
            .action(self.takes.action())
            .value_parser(self.takes.parser(has_word))
            .requires_all(self.needs)?
            .conflicts_with_all(self.conflicts)?;
        Ok(self.named(arg))
    }

    /// Returns an option with its names, the files of `merge` without any.
    fn named<'a>(&self, arg: Arg<'a>) -> Arg<'a> {
        match (self.takes, self.short) {
            (Takes::Files, _) => arg.num_args(1..),
            (Takes::Model, _) => arg.long(self.name).short('m').long_help(ABOUT_MODELS),
            (_, Some(letter)) => arg.long(self.name).short(letter),
            (_, None) => arg.long(self.name),
        }
    }
}
