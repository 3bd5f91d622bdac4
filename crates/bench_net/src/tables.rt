//! Tables made of a circuit's lines: inputs, outputs, cells, places in a test, definitions.

ghost use Rattle.std.specs.Prelude.{◌≡◌, ◌^◌, ◌++◌, ◌<◌, map, length, All, IfOk, IfErr};
ghost use Rattle.std.specs.List.{filter_map};
ghost use Rattle.bench_net.specs.Tables.{input_number, output_number, cell_numbers};
ghost use Rattle.bench_net.specs.Tables.{definition_places, signals_in, gate_pins, ArePlaces};
ghost use Rattle.bench_net.specs.Marks.{IsLevelFault};
ghost use Rattle.bench_net.specs.Inside.{AreTableLines, AreTables};
ghost use Rattle.bench_net.specs.Inside.{AreSignalTables, AreSinkTables};
ghost use Rattle.bench_net.specs.declared.line.NumberedLine.{NumberedLine};

use crate::levels::{Levels, levels_of};
use crate::line::{NumberedLine, defines};
use crate::sinks::{SinkRows, readers_of, sink_rows};
use crate::{BenchFault, ScanCell};
use std::alloc::{AllocError, Global};

/// The tables of a circuit.
#[derive(Drop)]
pub struct Tables {
    /// The tables of the signals that its lines define.
    pub of_signals: SignalTables,
    /// The tables of what reads these signals.
    pub of_sinks: SinkTables,
    /// For each signal its level.
    pub levels: Levels,
}

/// The tables of the signals that lines define.
#[derive(Drop)]
pub struct SignalTables {
    /// The signals of the INPUT lines.
    pub inputs: Vec<u32>,
    /// The flip-flop cells.
    pub cells: Vec<ScanCell>,
    /// The signals that take a bit of a test, in the order of the bits.
    pub sources: Vec<u32>,
    /// For each signal its place in a test.
    pub source_places: Vec<Option<u32>>,
    /// For each signal the place of the line that defines it.
    pub definitions: Vec<usize>,
}

/// The tables of what reads the signals of lines.
#[derive(Drop)]
pub struct SinkTables {
    /// The signals of the OUTPUT lines.
    pub outputs: Vec<u32>,
    /// For each signal its sinks.
    pub sinks: SinkRows,
}

/// Returns the signals of the INPUT lines, in order.
pub(crate) fn input_signals(alloc: Global, lines: &[NumberedLine]) -> Result<Vec<u32>, AllocError>
    ensures { IfOk result (λ v. v.items ≡ filter_map input_number lines.now) }
{
    lines
        .iter()
        .filter_map(|line| match line {
            NumberedLine::Input(signal) => Some(*signal),
            _ => None,
        })
        .collect(alloc)
}

/// Returns the signals of the OUTPUT lines, in order.
pub(crate) fn output_signals(alloc: Global, lines: &[NumberedLine]) -> Result<Vec<u32>, AllocError>
    ensures { IfOk result (λ v. v.items ≡ filter_map output_number lines.now) }
{
    lines
        .iter()
        .filter_map(|line| match line {
            NumberedLine::Output(signal) => Some(*signal),
            _ => None,
        })
        .collect(alloc)
}

/// Returns the flip-flop cells, in order.
pub(crate) fn cells(alloc: Global, lines: &[NumberedLine]) -> Result<Vec<ScanCell>, AllocError>
    ensures { IfOk result (λ v. v.items ≡ filter_map cell_numbers lines.now) }
{
    lines
        .iter()
        .filter_map(|line| match line {
            NumberedLine::Dff(q, d) => Some(ScanCell { q: *q, d: *d }),
            _ => None,
        })
        .collect(alloc)
}

/// Returns for each signal the place, among all lines, of the line that defines it.
pub(crate) fn definitions(alloc: Global, lines: &[NumberedLine]) -> Result<Vec<usize>, AllocError>
    ensures { IfOk result (λ places. places.items ≡ definition_places lines.now) }
{
    lines
        .iter()
        .enumerate()
        .filter_map(|(place, line)| defines(line).then_some(place))
        .collect(alloc)
}

/// Returns the signals that take a bit of a test, in the order of the bits: inputs, then the cells'
/// q.
pub(crate) fn sources(
    alloc: Global,
    inputs: &[u32],
    cells: &[ScanCell],
) -> Result<Vec<u32>, AllocError>
    ensures { IfOk result (λ sources.
        sources.items ≡ inputs.now ++ map (λ cell. cell.q) cells.now) }
{
    inputs
        .iter()
        .copied()
        .chain(cells.iter().map(|cell| cell.q))
        .collect(alloc)
}

/// Returns for each signal its place in a test, if it is a source.
pub(crate) fn source_places(
    alloc: Global,
    sources: &[u32],
    signals: usize,
) -> Result<Vec<Option<u32>>, AllocError>
    requires few { length sources.now < 2 ^ 32 }
    requires below { All (λ source. source < signals) sources.now }
    ensures { IfOk result (λ places.
        ArePlaces sources.now signals (length sources.now) places.items) }
{
    let mut places = vec![in alloc; None; signals]?;
    for (place, source) in sources.iter().enumerate() {
        places[*source as usize] = Some(place as u32);
    }
    Ok(places)
}

/// Returns the tables of the signals that lines define.
pub fn signal_tables(alloc: Global, lines: &[NumberedLine]) -> Result<SignalTables, AllocError>
    requires { AreTableLines lines.now }
    ensures { IfOk result (AreSignalTables lines.now) }
{
    let inputs = input_signals(alloc, lines)?;
    let cells = cells(alloc, lines)?;
    let sources = sources(alloc, &inputs, &cells)?;
    let definitions = definitions(alloc, lines)?;
    let source_places = source_places(alloc, &sources, definitions.len())?;
    Ok(SignalTables {
        inputs,
        cells,
        sources,
        source_places,
        definitions,
    })
}

/// Returns the tables of what reads the signals of lines, given the number of these signals.
pub fn sink_tables(
    alloc: Global,
    lines: &[NumberedLine],
    signals: usize,
) -> Result<SinkTables, AllocError>
    requires lines { AreTableLines lines.now }
    requires signals { signals ≡ signals_in lines.now }
    ensures { IfOk result (AreSinkTables lines.now) }
{
    let outputs = output_signals(alloc, lines)?;
    let readers = readers_of(alloc, lines, &outputs)?;
    let sinks = sink_rows(alloc, &readers, signals)?;
    Ok(SinkTables { outputs, sinks })
}

/// Returns the tables of lines, given the number of each signal's line. It fails if a signal is on
/// a cycle of gates or fed by one, with the lowest such line by its number.
pub(crate) fn tables_of(
    alloc: Global,
    lines: &[NumberedLine],
    at: &[u64],
) -> Result<Tables, BenchFault>
    requires lines { AreTableLines lines.now }
    requires at { length at.now ≡ signals_in lines.now }
    ensures tables { IfOk result (AreTables lines.now) }
    ensures fault { IfErr result
        (IsLevelFault (gate_pins lines.now) (signals_in lines.now) at.now) }
{
    let of_signals = signal_tables(alloc, lines)?;
    let of_sinks = sink_tables(alloc, lines, of_signals.definitions.len())?;
    let levels = levels_of(alloc, lines, at)?;
    Ok(Tables {
        of_signals,
        of_sinks,
        levels,
    })
}
