//! The levels of signals, or a gate that has none: on a cycle of gates or fed by one.
//!
//! The search goes along a path of open gates, without recursion, because a circuit may be as deep
//! as it has gates.

ghost use Rattle.std.specs.Prelude.{◌≡◌, ◌+◌, ◌<◌, ℕ, List, length, map, reverse};
ghost use Rattle.std.specs.Prelude.{[], ◌∷◌, ◌^◌, Some, IfOk, IfErr, OnOk};
ghost use Rattle.bench_net.specs.Level.{greatest};
ghost use Rattle.bench_net.specs.Rows.{AreRows};
ghost use Rattle.bench_net.specs.Tables.{line_gate, all_pins, signals_in, HasRow};
ghost use Rattle.bench_net.specs.Marks.{pins_in, gate_pins, IsGraph, AreLevelsOf, IsLevelFault};
ghost use Rattle.bench_net.specs.Marks.{pins_by, ArePinRows, IsPinGraph, HaveLevelsBelow};
ghost use Rattle.bench_net.specs.Marks.{IsSearch, steps, level_in};

use crate::BenchFault;
use crate::line::{NumberedLine, defines};
use crate::rows::rows_of;
use std::alloc::{AllocError, Global};

/// The level of each signal, the signals in the order of their levels, and the greatest level.
#[derive(Drop)]
pub struct Levels {
    pub levels: Vec<u32>,
    pub order: Vec<u32>,
    pub depth: u32,
}

/// The pins of all gates, close together. The gate of signal `s` reads the signals
/// `pins[starts[s]..starts[s + 1]]`, which are none if `s` is a source.
#[derive(Drop)]
struct PinRows {
    starts: Vec<u32>,
    pins: Vec<u32>,
}

impl PinRows {
    /// Returns the signals that the gate of a signal reads.
    fn row(&self, signal: u32) -> &[u32]
        requires { HasRow self.now.starts.items self.now.pins.items signal }
        ensures { result.now ≡ pins_by self.now signal }
    {
        let start = self.starts[signal as usize] as usize;
        let end = self.starts[signal as usize + 1] as usize;
        &self.pins[start..end]
    }
}

/// The state of a signal: unknown, an open gate, or a level.
#[derive(Clone, Copy)]
enum Mark {
    Unknown,
    Open,
    Level(u32),
}

/// A gate whose level isn't known yet: the signals of its pins before `pin` have levels, and
/// `level` is one more than the greatest of them.
#[derive(Clone, Copy)]
struct OpenGate {
    signal: u32,
    pin: u32,
    level: u32,
}

/// Returns the signals that the pins of a line's gate read; none for a line without a gate.
fn pins(line: &NumberedLine) -> &[u32]
    ensures { result.now ≡ pins_in (line_gate (Some line.now)) }
{
    match line {
        NumberedLine::Gate(_, driver) => driver.pins.as_slice(),
        NumberedLine::Dff(_, _) => &[],
        NumberedLine::Input(_) | NumberedLine::Output(_) => &[],
    }
}

/// Returns the pins of the lines' gates.
fn pin_rows(alloc: Global, lines: &[NumberedLine]) -> Result<PinRows, AllocError>
    requires { length (all_pins lines.now) < 2 ^ 32 }
    ensures { IfOk result (ArePinRows (gate_pins lines.now) (signals_in lines.now)) }
{
    let mut starts = Vec::new(alloc);
    let mut all = Vec::new(alloc);
    for line in lines {
        if defines(line) {
            starts.push(all.len() as u32)?;
            all.extend_from_slice(pins(line))?;
        }
    }
    starts.push(all.len() as u32)?;
    Ok(PinRows { starts, pins: all })
}

/// Advances the open gate at the end of the path past pins whose signals have levels, to an unknown
/// signal, or out of the gate with a level. A pin that reads an open signal closes a cycle.
fn visit(
    rows: &PinRows,
    at: &[u64],
    start: u32,
    mut gate: OpenGate,
    marks: &mut Vec<Mark>,
    path: &mut Vec<OpenGate>,
) -> Result<(), BenchFault>
    requires graph { IsPinGraph rows.now (length at.now) }
    requires lower { HaveLevelsBelow (pins_by rows.now) start }
    requires search { IsSearch (pins_by rows.now) (length at.now) (start + 1) marks.old.items
        (gate ∷ reverse path.old.items) }
    ensures search { OnOk result (IsSearch (pins_by rows.now) (length at.now) (start + 1)
        marks.new.items (reverse path.new.items)
        × (steps (pins_by rows.now) marks.new.items (reverse path.new.items)
        < steps (pins_by rows.now) marks.old.items (gate ∷ reverse path.old.items))) }
    ensures fault { IfErr result (IsLevelFault (pins_by rows.now) (length at.now) at.now) }
{
    let pins = rows.row(gate.signal);
    while let Some(pin) = pins.get(gate.pin as usize) {
        let signal = *pin;
        match marks[signal as usize] {
            Mark::Level(lower) => {
                gate.pin += 1;
                gate.level = gate.level.max(lower + 1);
            }
            Mark::Unknown => {
                marks[signal as usize] = Mark::Open;
                path.push(gate)?;
                path.push(OpenGate {
                    signal,
                    pin: 0,
                    level: 0,
                })?;
                return Ok(());
            }
            Mark::Open => return Err(BenchFault::Cycle(at[start as usize])),
        }
    }
    marks[gate.signal as usize] = Mark::Level(gate.level);
    Ok(())
}

/// Marks a signal with its level, and also the lower signals that need one. Each lower signal has a
/// level.
fn settle(
    rows: &PinRows,
    at: &[u64],
    start: u32,
    marks: &mut Vec<Mark>,
    path: &mut Vec<OpenGate>,
) -> Result<(), BenchFault>
    requires graph { IsPinGraph rows.now (length at.now) }
    requires start { start < length at.now }
    requires search { IsSearch (pins_by rows.now) (length at.now) start marks.old.items [] }
    requires path { path.old.items ≡ [] }
    ensures search { OnOk result (IsSearch (pins_by rows.now) (length at.now) (start + 1)
        marks.new.items []) }
    ensures path { OnOk result (path.new.items ≡ []) }
    ensures fault { IfErr result (IsLevelFault (pins_by rows.now) (length at.now) at.now) }
{
    if let Mark::Unknown = marks[start as usize] {
        marks[start as usize] = Mark::Open;
        path.push(OpenGate {
            signal: start,
            pin: 0,
            level: 0,
        })?;
    }
    while let Some(gate) = path.pop() {
        visit(rows, at, start, gate, marks, path)?;
    }
    Ok(())
}

/// Returns the level in a mark, or 0 for a mark without one.
fn level_in(mark: &Mark) -> u32
    ensures { result ≡ level_in mark.now }
{
    match mark {
        Mark::Level(level) => *level,
        _ => 0,
    }
}

/// Returns the level of each signal: 0 for a source, and for a gate one more than the greatest
/// level of its inputs. The signals get their levels in order, each after the signals that it
/// needs. A gate goes past each of its pins once, so the time is linear in the number of pins. A
/// path that meets itself is on a cycle, which feeds the first signal of the path.
fn signal_levels(alloc: Global, rows: &PinRows, at: &[u64]) -> Result<Vec<u32>, BenchFault>
    requires { IsPinGraph rows.now (length at.now) }
    ensures levels { IfOk result (λ levels. AreLevelsOf (pins_by rows.now) (length at.now)
        levels.items) }
    ensures fault { IfErr result (IsLevelFault (pins_by rows.now) (length at.now) at.now) }
{
    let mut marks = vec![in alloc; Mark::Unknown; at.len()]?;
    let mut path = Vec::new(alloc);
    for start in 0..at.len() as u32 {
        settle(rows, at, start, &mut marks, &mut path)?;
    }
    Ok(marks.iter().map(|mark| level_in(mark)).collect(alloc)?)
}

/// Returns the levels of the signals of lines, given the number of each signal's line. It fails if
/// a signal is on a cycle of gates or fed by one, with the lowest such line by its number.
pub fn levels_of(alloc: Global, lines: &[NumberedLine], at: &[u64]) -> Result<Levels, BenchFault>
    requires graph { IsGraph lines.now }
    requires at { length at.now ≡ signals_in lines.now }
    ensures levels { IfOk result (λ l. AreLevelsOf (gate_pins lines.now) (signals_in lines.now)
        l.levels.items) }
    ensures order { IfOk result (λ l. (starts : List ℕ)
        × AreRows l.levels.items (l.depth + 1) starts l.order.items) }
    ensures depth { IfOk result (λ l. l.depth ≡ greatest l.levels.items) }
    ensures fault { IfErr result
        (IsLevelFault (gate_pins lines.now) (signals_in lines.now) at.now) }
{
    let rows = pin_rows(alloc, lines)?;
    let levels = signal_levels(alloc, &rows, at)?;
    let depth = levels.iter().fold(0, |depth, level| depth.max(*level));
    let order = rows_of(alloc, &levels, depth as usize + 1)?.places;
    Ok(Levels {
        levels,
        order,
        depth,
    })
}
