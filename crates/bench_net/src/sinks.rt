//! The sinks of each signal.

ghost use Rattle.std.specs.Prelude.{◌≡◌, ◌++◌, ◌^◌, ◌<◌, ◌+◌, map, length, All};
ghost use Rattle.std.specs.Prelude.{Contains, OnOk, IfOk};
ghost use Rattle.bench_net.specs.Tables.{pin_readers, output_readers, line_readers, all_readers};
ghost use Rattle.bench_net.specs.Tables.{signal_read, reader_at, row_of, HasRow, AreSinkRows};
ghost use Rattle.bench_net.specs.Tables.{PinsFit};
ghost use Rattle.bench_net.specs.Rows.{AreStarts, rows_before};
ghost use Rattle.bench_net.specs.declared.line.NumberedLine.{NumberedLine};

use crate::Sink;
use crate::line::NumberedLine;
use crate::rows::starts_of;
use std::alloc::{AllocError, Global};

/// A sink, and the signal that it reads.
#[derive(Clone, Copy)]
pub struct Reader {
    signal: u32,
    sink: Sink,
}

/// The number of readers for each line that get room at first. Most circuits have fewer, and more
/// readers get room as they come.
const READERS_OF_A_LINE: usize = 3;

/// The sinks of all signals. Signal `s` has `sinks[starts[s]..starts[s + 1]]`.
#[derive(Drop)]
pub struct SinkRows {
    pub starts: Vec<u32>,
    pub sinks: Vec<Sink>,
}

impl SinkRows {
    /// Returns the sinks of a signal.
    pub fn row(&self, signal: u32) -> &[Sink]
        requires { HasRow self.now.starts.items self.now.sinks.items signal }
        ensures { result.now ≡ row_of self.now.starts.items self.now.sinks.items signal }
    {
        let start = self.starts[signal as usize] as usize;
        let end = self.starts[signal as usize + 1] as usize;
        &self.sinks[start..end]
    }
}

/// Adds the pins of a gate, in order.
fn add_pins(readers: &mut Vec<Reader>, gate: u32, pins: &[u32]) -> Result<(), AllocError>
    requires { length pins.now < 2 ^ 32 }
    ensures { OnOk result (readers.new.items ≡ readers.old.items ++ pin_readers gate pins.now) }
{
    for (pin, signal) in pins.iter().enumerate() {
        let sink = Sink::Pin {
            gate,
            pin: pin as u32,
        };
        readers.push(Reader {
            signal: *signal,
            sink,
        })?;
    }
    Ok(())
}

/// Adds the outputs, in order.
fn add_outputs(readers: &mut Vec<Reader>, outputs: &[u32]) -> Result<(), AllocError>
    requires { length outputs.now < 2 ^ 32 }
    ensures { OnOk result (readers.new.items ≡ readers.old.items ++ output_readers outputs.now) }
{
    for (output, signal) in outputs.iter().enumerate() {
        let sink = Sink::Out {
            output: output as u32,
        };
        readers.push(Reader {
            signal: *signal,
            sink,
        })?;
    }
    Ok(())
}

/// Adds the gate pins and data pins of the lines, in order.
fn add_lines(readers: &mut Vec<Reader>, lines: &[NumberedLine]) -> Result<(), AllocError>
    requires few { length lines.now < 2 ^ 32 }
    requires pins { (l : NumberedLine) → Contains lines.now l → PinsFit l }
    ensures { OnOk result (readers.new.items ≡ readers.old.items ++ line_readers 0 lines.now) }
{
    let mut cell = 0;
    for line in lines {
        match line {
            NumberedLine::Gate(gate, driver) => add_pins(readers, *gate, driver.pins.as_slice())?,
            NumberedLine::Dff(_, d) => {
                let sink = Sink::Data { cell };
                readers.push(Reader { signal: *d, sink })?;
                cell += 1;
            }
            NumberedLine::Input(_) | NumberedLine::Output(_) => {}
        }
    }
    Ok(())
}

/// Writes the sink of each reader after the earlier sinks of its signal. `next` has the next free
/// index of each signal.
fn placed_sinks(
    alloc: Global,
    readers: &[Reader],
    mut next: Vec<u32>,
) -> Result<Vec<Sink>, AllocError>
    requires few { length readers.now < 2 ^ 32 }
    requires below { All (λ s. s < length next.items) (map signal_read readers.now) }
    requires starts { AreStarts (map signal_read readers.now) next.items }
    ensures { IfOk result (λ sinks. sinks.items ≡ map (λ place. (reader_at readers.now place).sink)
        (rows_before (map signal_read readers.now) (length next.items))) }
{
    let mut sinks = vec![in alloc; Sink::Out { output: 0 }; readers.len()]?;
    for reader in readers {
        let spot = next[reader.signal as usize];
        sinks[spot as usize] = reader.sink;
        next[reader.signal as usize] = spot + 1;
    }
    Ok(sinks)
}

/// Returns the readers of all signals: gate pins and data pins by their lines, then the outputs.
pub fn readers_of(
    alloc: Global,
    lines: &[NumberedLine],
    outputs: &[u32],
) -> Result<Vec<Reader>, AllocError>
    requires few_lines { length lines.now < 2 ^ 32 }
    requires few_outputs { length outputs.now < 2 ^ 32 }
    requires pins { (l : NumberedLine) → Contains lines.now l → PinsFit l }
    ensures { IfOk result (λ readers. readers.items ≡ all_readers lines.now outputs.now) }
{
    let room = lines.len().saturating_mul(READERS_OF_A_LINE);
    let mut readers = Vec::with_capacity(alloc, room)?;
    add_lines(&mut readers, lines)?;
    add_outputs(&mut readers, outputs)?;
    Ok(readers)
}

/// Returns the signal that each reader reads.
fn signals_of(alloc: Global, readers: &[Reader]) -> Result<Vec<u32>, AllocError>
    ensures { IfOk result (λ signals. signals.items ≡ map (λ reader. reader.signal) readers.now) }
{
    readers.iter().map(|reader| reader.signal).collect(alloc)
}

/// Returns the sinks of each signal below `signals`, in the order of the readers.
pub fn sink_rows(alloc: Global, readers: &[Reader], signals: usize) -> Result<SinkRows, AllocError>
    requires few { length readers.now < 2 ^ 32 }
    requires few_signals { signals + 1 < 2 ^ 32 }
    requires below { All (λ s. s < signals) (map signal_read readers.now) }
    ensures { IfOk result (λ rows.
        AreSinkRows readers.now signals rows.starts.items rows.sinks.items) }
{
    let keys = signals_of(alloc, readers)?;
    let starts = starts_of(alloc, &keys, signals + 1)?;
    let sinks = placed_sinks(alloc, readers, Vec::from_slice(alloc, &starts)?)?;
    Ok(SinkRows { starts, sinks })
}
