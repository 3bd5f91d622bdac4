//! A circuit of numbered statements, with its tables made in three threads.

ghost use Rattle.std.specs.Prelude.{◌≡◌, ◌⊎◌, ◌+◌, ℕ, List, length, IfOk, IfErr};
ghost use Rattle.bench_net.specs.Circuit.{IsCircuit};
ghost use Rattle.bench_net.specs.Inside.{AreSignalTables, AreTableLines, AreTables};
ghost use Rattle.bench_net.specs.Level.{greatest};
ghost use Rattle.bench_net.specs.Marks.{AreLevelsOf, IsGraph, IsLevelFault};
ghost use Rattle.bench_net.specs.Rows.{AreRows};
ghost use Rattle.bench_net.specs.Stored.{statements_of, AreStatements, AreRefused};
ghost use Rattle.bench_net.specs.Tables.{gate_pins, signals_in};

use bench_net::levels::{Levels, levels_of};
use bench_net::line::NumberedLine;
use bench_net::read::Lines;
use bench_net::tables::{SignalTables, Tables, signal_tables, sink_tables};
use bench_net::{BenchFault, Circuit};
use std::alloc::{AllocError, Global};
use std::sync::Wait;
use std::thread;
use std::thread::Threads;

/// Returns the levels of the signals of lines as [`levels_of`] does, and then lets go of what is no
/// longer needed.
fn levels_and_free<S: Drop>(
    alloc: Global,
    lines: &[NumberedLine],
    at: &[u64],
    _spent: S,
) -> Result<Levels, BenchFault>
    requires graph { IsGraph lines.now }
    requires at { length at.now ≡ signals_in lines.now }
    ensures levels { IfOk result (λ l. AreLevelsOf (gate_pins lines.now) (signals_in lines.now)
        l.levels.items) }
    ensures order { IfOk result (λ l. (starts : List ℕ)
        × AreRows l.levels.items (l.depth + 1) starts l.order.items) }
    ensures depth { IfOk result (λ l. l.depth ≡ greatest l.levels.items) }
    ensures fault { IfErr result
        (IsLevelFault (gate_pins lines.now) (signals_in lines.now) at.now) }
{
    levels_of(alloc, lines, at)
}

/// Returns the tables of the signals that lines define, which another thread makes, and the levels
/// of these signals. Then it lets go of what is no longer needed.
fn signals_and_levels<R: Threads + Wait, S: Drop>(
    rt: &R,
    alloc: Global,
    lines: &[NumberedLine],
    at: &[u64],
    spent: S,
) -> (Result<SignalTables, AllocError>, Result<Levels, BenchFault>)
    requires lines { AreTableLines lines.now }
    requires at { length at.now ≡ signals_in lines.now }
    ensures signals { IfOk result.0 (AreSignalTables lines.now) }
    ensures levels { IfOk result.1 (λ l. AreLevelsOf (gate_pins lines.now) (signals_in lines.now)
        l.levels.items) }
    ensures order { IfOk result.1 (λ l. (starts : List ℕ)
        × AreRows l.levels.items (l.depth + 1) starts l.order.items) }
    ensures depth { IfOk result.1 (λ l. l.depth ≡ greatest l.levels.items) }
    ensures fault { IfErr result.1
        (IsLevelFault (gate_pins lines.now) (signals_in lines.now) at.now) }
{
    thread::join(
        rt,
        move || signal_tables(alloc, lines),
        move || levels_and_free(alloc, lines, at, spent),
    )
}

/// Returns the tables of lines, given the number of each signal's line. One thread finds the levels
/// and frees what is no longer needed, while another one finds the sinks, and a third one makes the
/// other tables. It fails if a signal is on a cycle of gates or fed by one, with the lowest such
/// line by its number.
fn tables_of_in_threads<R: Threads + Wait, S: Drop>(
    rt: &R,
    alloc: Global,
    lines: &[NumberedLine],
    at: &[u64],
    spent: S,
) -> Result<Tables, BenchFault>
    requires lines { AreTableLines lines.now }
    requires at { length at.now ≡ signals_in lines.now }
    ensures tables { IfOk result (AreTables lines.now) }
    ensures fault { IfErr result
        (IsLevelFault (gate_pins lines.now) (signals_in lines.now) at.now) }
{
    let signals = at.len();
    let (sinks, (signals, levels)) = thread::join(
        rt,
        move || sink_tables(alloc, lines, signals),
        move || signals_and_levels(rt, alloc, lines, at, spent),
    );
    let of_signals = signals?;
    let of_sinks = sinks?;
    let levels = levels?;
    Ok(Tables {
        of_signals,
        of_sinks,
        levels,
    })
}

/// Makes the circuit of numbered statements as [`bench_net::read_bench`] does, with the same
/// errors, in three threads, one of which frees what reading no longer needs.
pub(crate) fn circuit_of_in_threads<R: Threads + Wait, S: Drop>(
    rt: &R,
    alloc: Global,
    lines: Lines,
    spent: S,
) -> Result<Circuit, BenchFault>
    requires { AreStatements lines.names lines.lines.items lines.at.items }
    ensures accepted { IfOk result (λ c.
        (c ≡ statements_of lines.names lines.lines.items) × IsCircuit c) }
    ensures refused { IfErr result (λ fault. (fault ≡ BenchFault.Memory)
        ⊎ AreRefused lines.names lines.lines.items lines.at.items fault) }
{
    let Lines { names, lines, at } = lines;
    if lines.is_empty() {
        return Err(BenchFault::Empty);
    }
    let tables = tables_of_in_threads(rt, alloc, &lines, &at, spent)?;
    Ok(Circuit::with_tables(names, lines, tables))
}
