//! Warnings: oddities of a circuit or its tests that are no errors.

ghost use Rattle.std.specs.Prelude.{◌<◌};

use crate::place::Short;
use bench_net::{Circuit, Sink};
use fault_model::Model;
use patterns::Tests;
use std::alloc::{AllocError, Global};
use std::fmt::Write;

/// The number of names of a list that are printed.
const MAX_NAMES: u64 = 5;

/// A warning that ends in a list of names, of many only the first ones.
#[derive(Drop)]
struct NameList {
    words: String,
    count: u64,
}

impl NameList {
    /// Makes a list without names, after these words.
    fn after(alloc: Global, front: &str) -> Result<Self, AllocError> {
        let words = String::from_str(alloc, front)?;
        Ok(NameList { words, count: 0 })
    }

    /// Adds a name.
    fn push(&mut self, name: &str) -> Result<(), AllocError> {
        if self.count < MAX_NAMES {
            let mark = if self.count == 0 { " " } else { ", " };
            write!(self.words, "{mark}{}", Short(name))?;
        }
        self.count = self.count.saturating_add(1);
        Ok(())
    }

    /// Adds the list to warnings, if it has a name.
    fn add_to(self, warnings: &mut Vec<String>) -> Result<(), AllocError> {
        let NameList { mut words, count } = self;
        if count > MAX_NAMES {
            write!(words, " and {} more", count - MAX_NAMES)?;
        }
        if count > 0 {
            warnings.push(words)?;
        }
        Ok(())
    }
}

/// Returns the warnings of a circuit, and of tests for it if there are any. Only memory can make it
/// fail.
pub(crate) fn warnings_of(
    alloc: Global,
    model: Model,
    circuit: &Circuit,
    tests: Option<&Tests>,
) -> Result<Vec<String>, AllocError> {
    let mut warnings = Vec::new(alloc);
    add_circuit_warnings(&mut warnings, circuit)?;
    if let Some(tests) = tests {
        let unit = match model {
            Model::StuckAt | Model::Transition => Unit::Test,
            Model::TransitionPairs => Unit::Pair,
        };
        add_test_warnings(&mut warnings, circuit, tests, unit)?;
    }
    Ok(warnings)
}

/// Adds the warnings of a circuit.
fn add_circuit_warnings(warnings: &mut Vec<String>, circuit: &Circuit) -> Result<(), AllocError> {
    let alloc = *warnings.allocator();
    if circuit.outputs().is_empty() && circuit.scan_cells().is_empty() {
        let words = format!(in alloc; "no output and no flip-flop: no test detects any fault")?;
        warnings.push(words)?;
    }
    let mut unread = NameList::after(alloc, "nothing reads")?;
    let mut observed = NameList::after(alloc, "more than one OUTPUT line has")?;
    for signal in 0..circuit.signals() {
        let sinks = circuit.sinks_of(signal);
        if sinks.is_empty() {
            unread.push(circuit.name_of(signal))?;
        }
        let is_output = |sink: &&Sink| matches!(**sink, Sink::Out { .. });
        if sinks.iter().filter(is_output).count() > 1 {
            observed.push(circuit.name_of(signal))?;
        }
    }
    unread.add_to(warnings)?;
    observed.add_to(warnings)
}

/// Adds the warnings of tests for a circuit, which go unit by unit.
fn add_test_warnings(
    warnings: &mut Vec<String>,
    circuit: &Circuit,
    tests: &Tests,
    unit: Unit,
) -> Result<(), AllocError> {
    let alloc = *warnings.allocator();
    let count = tests.count();
    if count == 0 {
        warnings.push(format!(in alloc; "no test")?)?;
        return Ok(());
    }
    if matches!(unit, Unit::Pair) && count % 2 == 1 {
        let last = count - 1;
        let words = "has no second and detects nothing";
        warnings.push(format!(in alloc; "an odd number of tests: test {last} {words}")?)?;
    }
    add_same(warnings, tests, unit)?;
    if count < 2 {
        return Ok(());
    }
    constant_sources(alloc, circuit, tests)?.add_to(warnings)
}

/// Adds the warning of units that equal an earlier one.
fn add_same(warnings: &mut Vec<String>, tests: &Tests, unit: Unit) -> Result<(), AllocError> {
    let alloc = *warnings.allocator();
    let same = same_as_before(alloc, tests, unit)?;
    let Some((number, before)) = same.iter().copied().min() else {
        return Ok(());
    };
    let mut words = unit.same_words(alloc, number, before)?;
    if same.len() > 1 {
        let more = same.len() - 1;
        write!(words, ", and {more} more are as one before them")?;
    }
    warnings.push(words)?;
    Ok(())
}

/// Returns the warning of sources that have the same bit in all tests.
fn constant_sources(
    alloc: Global,
    circuit: &Circuit,
    tests: &Tests,
) -> Result<NameList, AllocError> {
    let mut constant = NameList::after(alloc, "no test turns")?;
    for source in 0..tests.width() {
        let ones = ones_of(tests, source);
        if (ones == 0 || ones >= u64::from(tests.count()))
            && let Some(name) = source_name(circuit, source as usize)
        {
            constant.push(name)?;
        }
    }
    Ok(constant)
}

/// Returns the number of tests with a 1 at a source.
fn ones_of(tests: &Tests, source: u32) -> u64
    requires { source < tests.now.width }
{
    let mut ones: u64 = 0;
    for block in 0..tests.blocks() {
        ones = ones.saturating_add(u64::from(tests.word(block, source).count_ones()));
    }
    ones
}

/// Returns the name of a source, by its place in a test.
fn source_name(circuit: &Circuit, source: usize) -> Option<&str> {
    let inputs = circuit.inputs();
    let cells = circuit.scan_cells();
    let signal = match inputs.get(source) {
        Some(signal) => *signal,
        None => cells.get(source.saturating_sub(inputs.len()))?.q,
    };
    if signal < circuit.signals() {
        Some(circuit.name_of(signal))
    } else {
        None
    }
}

/// Returns a number for a test, which is the same for equal tests.
fn sum_of(row: &[u8]) -> u64 {
    let mut sum: u64 = 0xcbf2_9ce4_8422_2325;
    for byte in row {
        sum = (sum ^ u64::from(*byte)).wrapping_mul(0x0100_0000_01b3);
    }
    sum
}

/// The unit of a list of tests.
#[derive(Clone, Copy)]
enum Unit {
    /// Each test.
    Test,
    /// Each pair of tests: 0 and 1, 2 and 3, and so on.
    Pair,
}

impl Unit {
    /// Returns the number of units of a list.
    fn count(self, tests: &Tests) -> u32 {
        match self {
            Unit::Test => tests.count(),
            Unit::Pair => tests.count() / 2,
        }
    }

    /// Returns the words on a unit that equals an earlier one, both by their numbers.
    fn same_words(self, alloc: Global, number: u32, before: u32) -> Result<String, AllocError> {
        match self {
            Unit::Test => format!(in alloc; "test {number} is the same as test {before}"),
            Unit::Pair => {
                let test = 2 * u64::from(number);
                let as_test = 2 * u64::from(before);
                format!(in alloc;
                    "tests {test} and {} are the same pair as tests {as_test} and {}",
                    test + 1,
                    as_test + 1
                )
            }
        }
    }

    /// Returns the bits of the unit of this number.
    fn row(self, alloc: Global, tests: &Tests, number: u32) -> Result<Vec<u8>, AllocError> {
        let mut row = Vec::new(alloc);
        match self {
            Unit::Test => push_test(tests, number, &mut row)?,
            Unit::Pair => {
                let first = number.saturating_mul(2);
                push_test(tests, first, &mut row)?;
                push_test(tests, first.saturating_add(1), &mut row)?;
            }
        }
        Ok(row)
    }
}

/// Adds the bits of a test to a row, if the list has it.
fn push_test(tests: &Tests, test: u32, row: &mut Vec<u8>) -> Result<(), AllocError> {
    if test < tests.count() {
        tests.push_row(test, row)?;
    }
    Ok(())
}

/// Returns each unit that equals an earlier one, with the earlier one.
fn same_as_before(alloc: Global, tests: &Tests, unit: Unit) -> Result<Vec<(u32, u32)>, AllocError> {
    let mut same = Vec::new(alloc);
    for pair in sums_of(alloc, tests, unit)?.windows(2) {
        if let [(sum, first), (other, second)] = pair
            && sum == other
            && unit.row(alloc, tests, *first)?.as_slice()
                == unit.row(alloc, tests, *second)?.as_slice()
        {
            same.push((*second, *first))?;
        }
    }
    Ok(same)
}

/// Returns the numbers of all units, sorted by a sum that equal units share, and then by number.
fn sums_of(alloc: Global, tests: &Tests, unit: Unit) -> Result<Vec<(u64, u32)>, AllocError> {
    let mut sums = Vec::new(alloc);
    for number in 0..unit.count(tests) {
        let row = unit.row(alloc, tests, number)?;
        sums.push((sum_of(&row), number))?;
    }
    sums.sort_unstable();
    Ok(sums)
}
