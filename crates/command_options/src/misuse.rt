//! Command lines that cannot be used.

/// What of a command line cannot be used.
#[derive(Clone, Copy)]
pub enum Misuse {
    /// An option lacks the value that its parser requires.
    Unset,
    TwoInputs,
    OneStream,
    Parts,
    BesidePart,
    Part,
    Detections,
    BesideTable,
    Why,
    Blocks,
    FailUnder,
    Summary,
    Order,
    NoCircuit,
    NoUse,
}

impl Misuse {
    /// Returns what cannot be used, and on a line of its own the reason.
    pub fn words(self) -> &'static str {
        match self {
            Misuse::Unset => "the command line",
            Misuse::TwoInputs => "the standard input for two files",
            Misuse::OneStream => "one stream for two files",
            Misuse::Parts => "--parts",
            Misuse::BesidePart => "--parts\n    give --part or --parts, not both",
            Misuse::Part => {
                "--part\n    give I/N: part I, from 1 to N, of N parts, at most 65536"
            }
            Misuse::Detections => {
                "--detections\n    for --undetected, --why, --classes, --fail-under or --summary \
                 give --format csv or json, too"
            }
            Misuse::BesideTable => "--list\n    give --list or --format, not both",
            Misuse::Why => "--why\n    give --undetected or --format csv or json, too",
            Misuse::Blocks => {
                "--blocks\n    give one character that a name can have, such as . or /"
            }
            Misuse::FailUnder => {
                "--fail-under\n    give a percentage from 0 to 100, with at most 6 decimals"
            }
            Misuse::Summary => "--summary\n    give a file that is no input and not the output",
            Misuse::Order => {
                "--order\n    with --model transition a test makes a pair with the one before it"
            }
            Misuse::NoCircuit => "--format\n    give --bench FILE, too: the circuit of the run",
            Misuse::NoUse => {
                "--bench\n    give it with --classes, --blocks, --format csv or --format json"
            }
        }
    }
}
