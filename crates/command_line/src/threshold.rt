//! The option `--fail-under P`: the least coverage of a successful run.

ghost use Rattle.std.specs.Prelude.{◌*◌, ◌<◌, ◌≤◌, ◌↔◌, IsTrue};

use crate::status::CommandError;
use clap::ArgMatches;
use command_options::Misuse;

/// The greatest number of decimals of a percentage.
const DECIMALS: usize = 6;

/// A hundred percent, in millionths of a percent.
const HUNDRED: u64 = 100_000_000;

/// The least coverage of a successful run, in millionths of a percent.
#[derive(Clone, Copy)]
pub(crate) struct Threshold {
    pub(crate) millionths: u64,
    ghost few: { millionths ≤ 100000000 },
}

impl Threshold {
    /// Returns whether `detected` of `faults` are too few.
    pub(crate) fn is_missed(self, detected: u32, faults: u32) -> bool
        ensures { IsTrue result ↔ (100000000 * detected < self.millionths * faults) }
    {
        HUNDRED * u64::from(detected) < self.millionths * u64::from(faults)
    }
}

/// Returns the threshold that the command line names, if it names one.
pub(crate) fn read_threshold(matches: &ArgMatches<'_>) -> Result<Option<Threshold>, Misuse> {
    let Some(text) = matches.get_str("fail-under") else {
        return Ok(None);
    };
    match millionths_of(text) {
        Some(millionths) if millionths <= HUNDRED => Ok(Some(Threshold { millionths })),
        _ => Err(Misuse::FailUnder),
    }
}

/// Fails if `detected` of `faults` faults miss the threshold.
pub(crate) fn check_threshold(
    threshold: Option<Threshold>,
    detected: u32,
    faults: u32,
) -> Result<(), CommandError> {
    match threshold {
        Some(least) if least.is_missed(detected, faults) => Err(CommandError::Missed),
        _ => Ok(()),
    }
}

/// Returns the millionths of a percent in a text of digits, with or without a point and decimals.
fn millionths_of(text: &str) -> Option<u64> {
    let (whole, decimals) = match text.split_once('.') {
        Some((whole, decimals)) => (whole, decimals),
        None => (text, "0"),
    };
    if decimals.len() > DECIMALS {
        return None;
    }
    let mut millionths = number_of(decimals)?;
    for _place in decimals.len()..DECIMALS {
        millionths = millionths.saturating_mul(10);
    }
    Some(
        number_of(whole)?
            .saturating_mul(1_000_000)
            .saturating_add(millionths),
    )
}

/// Returns the number in a text that has only digits, and at least one.
fn number_of(text: &str) -> Option<u64> {
    if text.bytes().all(|byte| byte.is_ascii_digit()) {
        text.parse::<u64>().ok()
    } else {
        None
    }
}
