//! The contents of a report.

ghost use Rattle.std.specs.Prelude.{◌≡◌, false};
ghost use Rattle.report.specs.Report.{contents_of, has_line};

/// The faults with a line of their own in a report, before the coverage line.
#[derive(Clone, Copy, Debug, PartialEq, Eq)]
pub enum Lines {
    /// No faults.
    Omitted,
    /// All faults of the list.
    All,
    /// The faults that no test detects.
    Undetected,
}

impl Lines {
    /// Returns whether a fault has a line, given its first test. The crates above call it to write
    /// reports of faults of their own.
    pub fn has(self, first: Option<u32>) -> bool
        ensures { result ≡ has_line self first }
    {
        match self {
            Lines::Omitted => false,
            Lines::All => true,
            Lines::Undetected => first.is_none(),
        }
    }
}

/// The contents of a report beside the coverage of the faults.
#[derive(Clone, Copy, Debug, PartialEq, Eq)]
pub struct Contents {
    /// The faults that have a line.
    pub lines: Lines,
    /// Whether the last line gives the coverage of the classes.
    pub classes: bool,
}

impl Contents {
    /// Returns these lines, with only the coverage of the faults.
    pub fn of(lines: Lines) -> Contents
        ensures lines { result.lines ≡ lines }
        ensures classes { result.classes ≡ false }
    {
        Contents {
            lines,
            classes: false,
        }
    }

    /// Returns the contents of a report with a line for each fault, if `list` is set, or else with
    /// only the coverage of the faults.
    pub fn of_list(list: bool) -> Contents
        ensures { result ≡ contents_of list }
    {
        let lines = if list { Lines::All } else { Lines::Omitted };
        Contents::of(lines)
    }
}
