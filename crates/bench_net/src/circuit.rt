//! A circuit: the statement list of a bench file, with its tables.

ghost use Rattle.std.specs.Prelude.{◌≡◌, ◌≢◌, ◌<◌, ◌≤◌, ℕ, List, length, map, option_map};
ghost use Rattle.std.specs.Prelude.{slice_get, IfOk, IfErr, IfSome, IfNone, ◌⊎◌};
ghost use Rattle.bench_net.specs.declared.Kind.{Kind};
ghost use Rattle.bench_net.specs.Scan.{names, signal, name_of, gate_of, inputs, outputs, cells};
ghost use Rattle.bench_net.specs.Scan.{sources, sinks};
ghost use Rattle.bench_net.specs.Circuit.{IsCircuit};
ghost use Rattle.bench_net.specs.Level.{HasLevel, HasDepth, IsLevelOrder};
ghost use Rattle.bench_net.specs.Stored.{statements_of, AreStatements, AreRefused};
ghost use Rattle.bench_net.specs.Inside.{IsInside};

use crate::line::{NumberedLine, line_of};
use crate::name_table::NameTable;
use crate::read::Lines;
use crate::tables::{Tables, tables_of};
use crate::{BenchFault, GateLine, ScanCell, Sink};
use std::alloc::Global;
use std::marker::Model;

/// A circuit, seen by contracts as its statement list.
#[derive(Drop)]
pub struct Circuit {
    names: NameTable,
    lines: Vec<NumberedLine>,
    tables: Tables,
}

impl Model for Circuit {
    ghost use Rattle.std.specs.Prelude.{List};
    ghost use Rattle.bench_net.specs.Statement.{Statement};

    ghost Value = { List Statement };

    ghost use Rattle.bench_net.specs.Stored.{statements_of};
    ghost use Rattle.bench_net.specs.Inside.{IsInside};

    ghost view = { λ c. statements_of c.names c.lines.items };

    ghost invariant = { λ c.
        IsInside (statements_of c.names c.lines.items)
        c.names c.lines.items c.tables };
}

impl Circuit {
    /// Returns the circuit of names and lines, given its tables.
    pub fn with_tables(names: NameTable, lines: Vec<NumberedLine>, tables: Tables) -> Circuit
        requires { IsInside (statements_of names lines.items) names lines.items tables }
        ensures { result ≡ statements_of names lines.items }
    {
        Circuit {
            names,
            lines,
            tables,
        }
    }

    /// Returns the number of signals. Signals are numbered from 0 in the order of the lines that
    /// define them.
    pub fn signals(&self) -> u32
        ensures count { result ≡ length (names self.now) }
        ensures circuit { IsCircuit self.now }
    {
        self.names.len() as u32
    }

    /// Returns the width of a test: one bit for each input, then one for each cell. It is at least
    /// 1, because a circuit without cycles has a source.
    pub fn sources(&self) -> u32
        ensures count { result ≡ length (sources self.now) }
        ensures some { 1 ≤ result }
    {
        self.tables.of_signals.sources.len() as u32
    }

    /// Returns the signals of the INPUT lines, in order.
    pub fn inputs(&self) -> &[u32]
        ensures { result.now ≡ map (signal self.now) (inputs self.now) }
    {
        self.tables.of_signals.inputs.as_slice()
    }

    /// Returns the flip-flop cells in order, under full scan: `q` is a source and `d` is observed.
    pub fn scan_cells(&self) -> &[ScanCell]
        ensures { map {B = ℕ × ℕ} (λ cell. (cell.q, cell.d)) result.now
            ≡ map (λ cell. (signal self.now cell.0, signal self.now cell.1)) (cells self.now) }
    {
        self.tables.of_signals.cells.as_slice()
    }

    /// Returns the signal of each OUTPUT line, in order.
    pub fn outputs(&self) -> &[u32]
        ensures { result.now ≡ map (signal self.now) (outputs self.now) }
    {
        self.tables.of_sinks.outputs.as_slice()
    }

    /// Returns the place of a signal in a test, from 0; `None` for the signal of a gate.
    pub fn source_of(&self, signal: u32) -> Option<u32>
        requires { signal < length (names self.now) }
        ensures place { IfSome result (λ i.
            slice_get (sources self.now) i ≡ name_of self.now signal) }
        ensures none { IfNone result ((i : ℕ) →
            slice_get (sources self.now) i ≢ name_of self.now signal) }
    {
        self.tables.of_signals.source_places[signal as usize]
    }

    /// Returns the name of a signal, as the bench file spells it.
    pub fn name_of(&self, signal: u32) -> &str
        requires { signal < length (names self.now) }
        ensures { Some result.now ≡ name_of self.now signal }
    {
        self.names.get(signal as usize)
    }

    /// Returns the gate that drives a signal; `None` for a source.
    pub fn gate_of(&self, signal: u32) -> Option<&GateLine>
        requires { signal < length (names self.now) }
        ensures { option_map {U = Kind × List ℕ} (λ g. (g.now.kind, g.now.pins.items)) result
            ≡ gate_of self.now signal }
    {
        match line_of(&self.lines, &self.tables.of_signals.definitions, signal) {
            NumberedLine::Gate(_, gate) => Some(gate),
            NumberedLine::Input(_) | NumberedLine::Output(_) | NumberedLine::Dff(_, _) => None,
        }
    }

    /// Returns the sinks of a signal: gate pins and data pins by the line of the reader and then by
    /// pin, and after these the OUTPUT lines.
    pub fn sinks_of(&self, signal: u32) -> &[Sink]
        requires { signal < length (names self.now) }
        ensures { (n : List ℕ) → name_of self.now signal ≡ Some n → result.now ≡ sinks self.now n }
    {
        self.tables.of_sinks.sinks.row(signal)
    }

    /// Returns the level of a signal: 0 for a source, and for a gate one more than the greatest
    /// level of its inputs (Bushnell and Agrawal, Essentials of Electronic Testing).
    pub fn level_of(&self, signal: u32) -> u32
        requires { signal < length (names self.now) }
        ensures { HasLevel self.now signal result }
    {
        self.tables.levels.levels[signal as usize]
    }

    /// Returns all signals by level, and within a level by number.
    pub fn in_level_order(&self) -> &[u32]
        ensures { IsLevelOrder self.now result.now }
    {
        self.tables.levels.order.as_slice()
    }

    /// Returns the greatest level of a signal, or 0 if no signal belongs to a gate.
    pub fn depth(&self) -> u32
        ensures { HasDepth self.now result }
    {
        self.tables.levels.depth
    }
}

/// Makes the circuit of numbered statements. It fails if there are no lines, or if a gate is on a
/// cycle of gates or fed by one: with the number of the lowest such line.
pub(crate) fn circuit_of(alloc: Global, lines: Lines) -> Result<Circuit, BenchFault>
    requires { AreStatements lines.names lines.lines.items lines.at.items }
    ensures accepted { IfOk result (λ c.
        (c ≡ statements_of lines.names lines.lines.items) × IsCircuit c) }
    ensures refused { IfErr result (λ fault. (fault ≡ BenchFault.Memory)
        ⊎ AreRefused lines.names lines.lines.items lines.at.items fault) }
{
    let Lines { names, lines, at } = lines;
    if lines.is_empty() {
        return Err(BenchFault::Empty);
    }
    let tables = tables_of(alloc, &lines, &at)?;
    Ok(Circuit {
        names,
        lines,
        tables,
    })
}
