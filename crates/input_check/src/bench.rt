//! The check of a bench file: its circuit, or all its errors line by line.

ghost use Rattle.std.specs.Prelude.{◌≡◌, IfOk};
ghost use Rattle.input_check.specs.Checks.{IsBenchCheckOf};

use crate::cycle::{Cycle, cycles};
use crate::finding::{Findings, InputError, Search};
use crate::foreign::foreign_kind;
use crate::note::{Note, line_note, meant_by};
use crate::place::{NO_PLACE, Short};
use crate::suggest::nearest_name;
use bench_net::number::{StatedLine, defined};
use bench_net::read::{Counts, counts_of};
use bench_net::{BenchFault, Circuit, Limit, LineError, Stated, read_bench, read_statement};
use indexmap::IndexSet;
use std::alloc::{AllocError, Global};
use std::fmt::Write;
use text_lines::FileLines;

/// The result of checking a bench file.
#[derive(Drop)]
pub enum BenchCheck<'a> {
    /// It is accepted, with this circuit.
    Accepted(Circuit),
    /// It has errors.
    Refused(Findings<'a>),
}

/// Reads a bench file, and lists all its errors if there is one. The first of them is the error of
/// `bench_net::read_bench`.
pub fn check_bench<'a>(alloc: Global, text: &'a [u8]) -> Result<BenchCheck<'a>, AllocError>
    ensures { IfOk result (IsBenchCheckOf text.now) }
{
    match read_bench(alloc, text) {
        Ok(circuit) => Ok(BenchCheck::Accepted(circuit)),
        Err(BenchFault::Memory) => Err(AllocError),
        Err(fault) => Ok(BenchCheck::Refused(bench_findings(alloc, text, fault)?)),
    }
}

/// Lists the errors of a bench file, whose first error, by `bench_net::read_bench`, is this one.
/// They come in the order of the search: lines, names defined again, names that no line defines,
/// and cycles. Only memory can make it fail.
fn bench_findings<'a>(
    alloc: Global,
    text: &'a [u8],
    fault: BenchFault,
) -> Result<Findings<'a>, AllocError>
    ensures { IfOk result (λ findings. findings.first.fault ≡ InputError.Bench fault) }
{
    let error = InputError::Bench(fault);
    if let Some(kind) = foreign_kind(text) {
        return Ok(Findings::of_file(alloc, error, Note::Foreign(kind)));
    }
    let mut search = Search::new(alloc, text, error);
    if !matches!(fault, BenchFault::TooLarge(Limit::Bytes)) {
        search_bench(fault, &mut search)?;
    }
    Ok(search.findings(error))
}

/// Searches all lines of a bench file.
fn search_bench(fault: BenchFault, search: &mut Search<'_>) -> Result<(), AllocError> {
    let netlist = read_netlist(search)?;
    netlist.report_whole(fault, search)?;
    netlist.report_redefined(search)?;
    netlist.report_undefined(search)?;
    netlist.report_cycles(search)
}

/// Returns the statements of a file, and reports each line that is none.
fn read_netlist<'a>(search: &mut Search<'a>) -> Result<Netlist<'a>, AllocError> {
    let text = search.text;
    let mut netlist = Netlist::new(search.alloc);
    let mut number: u64 = 0;
    for line in FileLines::new(text) {
        number = number.saturating_add(1);
        netlist.read(number, line, search)?;
    }
    Ok(netlist)
}

/// The number of names of a cycle that are printed.
const MAX_NAMES: usize = 12;

/// The statements of a file, also one with errors, and its names.
#[derive(Drop)]
pub(crate) struct Netlist<'a> {
    /// The lines that are statements, in the order of the file.
    lines: Vec<StatedLine<'a>>,
    /// The defined names, in the order of their first lines.
    pub(crate) names: IndexSet<&'a str>,
    /// For each name the place of its first definition among the lines.
    firsts: Vec<usize>,
    /// The names that lines with an error seem to define.
    meant: IndexSet<&'a str>,
}

impl<'a> Netlist<'a> {
    /// Makes a netlist without lines.
    fn new(alloc: Global) -> Self {
        Netlist {
            lines: Vec::new(alloc),
            names: IndexSet::new(alloc),
            firsts: Vec::new(alloc),
            meant: IndexSet::new(alloc),
        }
    }

    /// Adds the statement of a line.
    fn add(&mut self, line: StatedLine<'a>) -> Result<(), AllocError> {
        if let Some(name) = defined(&line.statement) {
            let (_, is_new) = self.names.insert_full(name)?;
            if is_new {
                self.firsts.push(self.lines.len())?;
            }
        }
        self.lines.push(line)?;
        Ok(())
    }

    /// Returns the first line that defines the name of a number.
    fn first(&self, number: usize) -> Option<&StatedLine<'a>> {
        self.lines.get(*self.firsts.get(number)?)
    }

    /// Returns the name that a pin of a gate reads, by the number of the gate's own name, if a gate
    /// has that name and this pin.
    pub(crate) fn pin(&self, number: usize, pin: usize) -> Option<&'a str> {
        match &self.first(number)?.statement {
            Stated::Gate(_, _, pins) => pins.as_slice().get(pin).copied(),
            _ => None,
        }
    }

    /// Returns the name of a number.
    fn name(&self, number: usize) -> &'a str {
        self.names.get_index(number).copied().unwrap_or("")
    }

    /// Returns a near name that is defined, or that a line with an error seems to define.
    fn near(&self, alloc: Global, name: &str) -> Result<Option<&'a str>, AllocError> {
        match nearest_name(alloc, name, self.names.as_slice())? {
            Some(near) => Ok(Some(near)),
            None => nearest_name(alloc, name, self.meant.as_slice()),
        }
    }

    /// Adds the statement of a line of this number, or reports the line if it is none.
    fn read(
        &mut self,
        number: u64,
        line: &'a [u8],
        search: &mut Search<'a>,
    ) -> Result<(), AllocError> {
        match read_statement(search.alloc, line) {
            Ok(None) => {}
            Ok(Some(statement)) => self.add(StatedLine { number, statement })?,
            Err(LineError::Memory) => return Err(AllocError),
            Err(LineError::Wrong(wrong)) => {
                if let Some(name) = meant_by(line) {
                    self.meant.insert(name)?;
                }
                if search.has_room() {
                    let (place, words) = line_note(search.alloc, line, wrong)?;
                    search.add(InputError::Bench(BenchFault::Syntax(number)), place, words)?;
                }
            }
        }
        Ok(())
    }

    /// Reports an error of the whole file, if it is one.
    fn report_whole(&self, fault: BenchFault, search: &mut Search<'a>) -> Result<(), AllocError> {
        let alloc = search.alloc;
        let Counts { signals, sinks } = counts_of(&self.lines);
        let words = match fault {
            BenchFault::TooLarge(Limit::Signals) => format!(in alloc; "found {signals} signals")?,
            BenchFault::TooLarge(_) => format!(in alloc; "found {sinks} sinks")?,
            BenchFault::Empty => format!(in alloc; "no line has a statement")?,
            _ => return Ok(()),
        };
        search.add(InputError::Bench(fault), NO_PLACE, words)
    }

    /// Reports the lines that define a name again.
    fn report_redefined(&self, search: &mut Search<'a>) -> Result<(), AllocError> {
        let alloc = search.alloc;
        for line in &self.lines {
            let Some(name) = defined(&line.statement) else {
                continue;
            };
            let number = self.names.get_index_of(name);
            let first = number.and_then(|number| self.first(number));
            let first = first.map_or(line.number, |first| first.number);
            if first != line.number && search.has_room() {
                let words = format!(in alloc; "{} is defined at line {first} too", Short(name))?;
                let word = usize::from(matches!(line.statement, Stated::Input(_)));
                search.add_at_word(BenchFault::Redefined(line.number), word, words)?;
            }
        }
        Ok(())
    }

    /// Reports the reads of names that no line defines.
    fn report_undefined(&self, search: &mut Search<'a>) -> Result<(), AllocError> {
        for line in &self.lines {
            let number = line.number;
            match &line.statement {
                Stated::Input(_) => {}
                Stated::Output(name) => self.report_reads(number, 1, &[*name], search)?,
                Stated::Dff(_, name) => self.report_reads(number, 2, &[*name], search)?,
                Stated::Gate(_, _, pins) => self.report_reads(number, 2, pins.as_slice(), search)?,
            }
        }
        Ok(())
    }

    /// Reports the names that a line reads and no line defines. `word` is the number of the first,
    /// from 0, among the words of the line.
    fn report_reads(
        &self,
        line: u64,
        word: usize,
        reads: &[&'a str],
        search: &mut Search<'a>,
    ) -> Result<(), AllocError> {
        let alloc = search.alloc;
        for (place, name) in reads.iter().enumerate() {
            let is_known = self.names.contains(*name) || self.meant.contains(*name);
            if is_known || !search.has_room() {
                continue;
            }
            let mut words = format!(in alloc; "{} is not defined", Short(*name))?;
            if let Some(near) = self.near(alloc, *name)? {
                write!(words, "; is {} meant?", Short(near))?;
            }
            let word = word.saturating_add(place);
            search.add_at_word(BenchFault::Undefined(line), word, words)?;
        }
        Ok(())
    }

    /// Reports the cycles of gates.
    fn report_cycles(&self, search: &mut Search<'a>) -> Result<(), AllocError> {
        let found = cycles(search.alloc, self)?;
        for cycle in &found {
            if let Some(line) = self.first(cycle.at)
                && search.has_room()
            {
                let words = self.cycle_words(search.alloc, cycle)?;
                search.add_at_word(BenchFault::Cycle(line.number), 0, words)?;
            }
        }
        Ok(())
    }

    /// Returns the words on a cycle: the names of its gates, of a long one only the first ones.
    fn cycle_words(&self, alloc: Global, cycle: &Cycle) -> Result<String, AllocError> {
        let mut words = String::new(alloc);
        if !cycle.gates.contains(&cycle.at) {
            let name = Short(self.name(cycle.at));
            write!(words, "{name} is fed by the cycle ")?;
        }
        for (place, gate) in cycle.gates.iter().take(MAX_NAMES).enumerate() {
            let mark = if place == 0 { "" } else { " -> " };
            write!(words, "{mark}{}", Short(self.name(*gate)))?;
        }
        if cycle.gates.len() > MAX_NAMES {
            write!(words, " -> .. ({} gates)", cycle.gates.len() - 1)?;
        }
        Ok(words)
    }
}
