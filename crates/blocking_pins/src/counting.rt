//! The count of what the pins block, fault by fault.

ghost use Rattle.std.specs.Prelude.{◌≡◌, ◌+◌, ◌*◌, ◌<◌, ◌≤◌, ◌^◌, All, Contains, IfOk, List, None};
ghost use Rattle.std.specs.Prelude.{OnOk, ℕ, Some, length, map, slice_get, slice_index_or, true};
ghost use Rattle.std.specs.Bool.{Decides};
ghost use Rattle.bench_net.specs.declared.Kind.{Kind};
ghost use Rattle.bench_net.specs.Circuit.{IsCircuit};
ghost use Rattle.bench_net.specs.Scan.{gate_of, names};
ghost use Rattle.fault_model.specs.Detection.{DetectsAt, LooksBack};
ghost use Rattle.fault_model.specs.Fault.{Fault, faults};
ghost use Rattle.fault_model.specs.Reordered.{moved_fault, place};
ghost use Rattle.fault_model.specs.Solution.{Test};
ghost use Rattle.flat_circuit.specs.Arranged.{IsArranged};
ghost use Rattle.flat_circuit.specs.BlockSpans.{groups};
ghost use Rattle.flat_circuit.specs.GroupRows.{AreFaultFree};
ghost use Rattle.flat_circuit.specs.Origins.{IsStuckOf};
ghost use Rattle.flat_circuit.specs.Stuck.{stuck_fault};
ghost use Rattle.flat_circuit.specs.Words.{AreWords, HasWords, lane};
ghost use Rattle.block_sim.specs.Parts.{BelongTogether};
ghost use Rattle.blocking_pins.specs.Blocking.{AreDetected, BlocksAt};
ghost use Rattle.blocking_pins.specs.Counting.{AreAdded, AreAllAdded, BlocksAtPlace, BlocksInLane};
ghost use Rattle.blocking_pins.specs.Counting.{IsTallyBelow, StopsReached};
ghost use Rattle.blocking_pins.specs.Effects.{AreGatePins, HaveReaders, IsFresh, Stops};

use crate::blocked::{FaultyGate, controlling_value, entered, steady};
use crate::effect::{Effect, spread};
use crate::gate_pins::GatePins;
use crate::readers::readers_of;
use crate::tally::{PinCount, Tally, note};
use block_sim::Job;
use block_sim::launch_condition::launch_lanes;
use flat_circuit::block_lanes::lanes_below;
use flat_circuit::block_view::{BlockView, GroupWords};
use flat_circuit::flat::FlatCircuit;
use flat_circuit::words::Stuck;
use std::alloc::{AllocError, Global};

/// The circuit, its words, and the lists that a count reads.
#[derive(Clone, Copy)]
pub(crate) struct Tables<'a> {
    /// The circuit with the fault-free words.
    pub(crate) words: GroupWords<'a>,
    /// The gates that read each signal.
    pub(crate) readers: &'a [Vec<u32>],
    /// The pins of all gates.
    pub(crate) pins: &'a GatePins,
}

/// Counts what each pin blocks, for all undetected faults of a job. `detected` has a flag for each
/// fault of the list: whether a test detects it.
pub(crate) fn tally_of(
    alloc: Global,
    job: &Job,
    words: GroupWords<'_>,
    detected: &[bool],
    pins: &GatePins,
) -> Result<Tally, AllocError>
    requires detected { AreDetected job.now detected.now }
    requires circuit { words.circuit.now.statements ≡ job.now.circuit }
    requires arranged { IsArranged job.now.circuit words.circuit.now.arranged }
    requires count { length words.rows.now ≡ groups (length job.now.tests.tests) }
    requires fault_free { AreFaultFree words.circuit.now.arranged job.now.tests.tests
        (map (λ row. row.items) words.rows.now) }
    requires pins { AreGatePins job.now.circuit words.circuit.now.arranged
        (length (names job.now.circuit)) pins.now.pins.items pins.now.starts.items }
    ensures { IfOk result (λ tally. IsTallyBelow job.now pins.now.pins.items
        (length job.now.list.list) tally.counts.items (map (λ row. row.items) tally.rows.items)) }
{
    let readers = readers_of(alloc, words.circuit)?;
    let tables = Tables {
        words,
        readers: readers.as_slice(),
        pins,
    };
    let mut effect = Effect::new(alloc, words.circuit.signals())?;
    let mut tally = Tally::new(alloc, pins.pins.len(), job.tests().blocks().div_ceil(2))?;
    for fault in 0..job.faults().count() {
        if !detected[fault as usize] {
            add_fault(
                job,
                tables,
                fault,
                &mut effect,
                &mut tally.counts,
                &mut tally.rows,
            )?;
        }
    }
    Ok(tally)
}

/// Returns a fault of a job by its number.
fn stuck_of(job: &Job, fault: u32) -> Stuck
    requires fault { fault < length job.now.list.list }
    ensures { (f : Fault) → slice_get job.now.list.list fault ≡ Some f
        → IsStuckOf job.now.circuit f result }
{
    let list = job.faults();
    Stuck {
        model: list.model(),
        line: list.line_of(fault),
        at_one: list.stuck_of(fault),
    }
}

/// Counts what each pin blocks of a fault.
fn add_fault(
    job: &Job,
    tables: Tables<'_>,
    fault: u32,
    effect: &mut Effect,
    counts: &mut [PinCount],
    rows: &mut [Vec<u128>],
) -> Result<(), AllocError>
    requires fault { fault < length job.now.list.list }
    requires few { fault + 1 < 2 ^ 32 }
    requires circuit { tables.words.circuit.now.statements ≡ job.now.circuit }
    requires arranged { IsArranged job.now.circuit tables.words.circuit.now.arranged }
    requires groups { length tables.words.rows.now ≡ groups (length job.now.tests.tests) }
    requires fault_free { AreFaultFree tables.words.circuit.now.arranged job.now.tests.tests
        (map (λ row. row.items) tables.words.rows.now) }
    requires readers { HaveReaders tables.words.circuit.now.arranged
        (map (λ row. row.items) tables.readers.now) }
    requires pins { AreGatePins job.now.circuit tables.words.circuit.now.arranged
        (length (names job.now.circuit)) tables.pins.now.pins.items
        tables.pins.now.starts.items }
    requires effect { IsFresh tables.words.circuit.now.arranged effect.old }
    requires count { length counts.old ≡ length tables.pins.now.pins.items }
    requires room { length rows.old ≡ groups (length job.now.tests.tests) }
    requires rows { All (λ row. length row ≡ length tables.pins.now.pins.items)
        (map (λ row. row.items) rows.old) }
    ensures added { (f : Fault) → slice_get job.now.list.list fault ≡ Some f
        → OnOk result (AreAllAdded (fault + 1) (λ group i k. BlocksAtPlace job.now.circuit
        job.now.tests.tests f tables.entry.pins.now.pins.items i (128 * group + k))
        (groups (length job.now.tests.tests)) counts.old counts.new
        (map (λ row. row.items) rows.old) (map (λ row. row.items) rows.new)) }
    ensures effect { OnOk result (IsFresh tables.entry.words.circuit.now.arranged effect.new) }
{
    let _circuit = job.circuit();
    let stuck = stuck_of(job, fault);
    let moved = stuck.moved(tables.words.circuit);
    for group in 0..job.tests().blocks().div_ceil(2) {
        let view = BlockView {
            circuit: tables.words.circuit,
            good: tables.words.of(group),
            lanes: lanes_of(job, stuck, group),
        };
        let row = rows[group as usize].as_mut_slice();
        add_group(view, tables, moved, fault + 1, effect, counts, row)?;
    }
    Ok(())
}

/// Returns the lanes of the tests of a group whose test before lets the fault have an effect.
fn lanes_of(job: &Job, stuck: Stuck, group: u32) -> u128
    requires group { group < groups (length job.now.tests.tests) }
    requires stuck { (f : Fault) × IsStuckOf job.now.circuit f stuck }
    ensures { (f : Fault) (k : ℕ) → IsStuckOf job.now.circuit f stuck → k < 128
        → Decides (lane result k) ((128 * group + k < length job.now.tests.tests)
        × LooksBack job.now.circuit job.now.tests.tests f.model f.line f.stuck
        (128 * group + k)) }
{
    let size = (job.tests().count() - 128 * group).min(128);
    lanes_below(size) & launch_lanes(job, group, stuck)
}

/// Counts what each pin blocks of a fault in some lanes of a group.
fn add_group(
    view: BlockView<'_>,
    tables: Tables<'_>,
    fault: Stuck,
    number: u32,
    effect: &mut Effect,
    counts: &mut [PinCount],
    row: &mut [u128],
) -> Result<(), AllocError>
    requires arranged { IsArranged tables.words.circuit.now.statements
        view.circuit.now.arranged }
    requires view { HasWords view.circuit.now.arranged view.good.now }
    requires readers { HaveReaders view.circuit.now.arranged
        (map (λ row. row.items) tables.readers.now) }
    requires pins { AreGatePins tables.words.circuit.now.statements view.circuit.now.arranged
        (length (names tables.words.circuit.now.statements)) tables.pins.now.pins.items
        tables.pins.now.starts.items }
    requires listed { Contains (faults fault.model view.circuit.now.arranged) (stuck_fault fault) }
    requires effect { IsFresh view.circuit.now.arranged effect.old }
    requires count { length counts.old ≡ length tables.pins.now.pins.items }
    requires room { length row.old ≡ length counts.old }
    ensures added { (tests : List Test) (group : ℕ) (f : Fault)
        → AreWords view.entry.circuit.now.arranged tests group None view.entry.good.now
        → stuck_fault fault ≡ moved_fault tables.entry.words.circuit.now.statements
        view.entry.circuit.now.arranged f
        → OnOk result (AreAdded number (BlocksInLane tables.entry.words.circuit.now.statements
        tests group view.entry.lanes f tables.entry.pins.now.pins.items)
        counts.old counts.new row.old row.new) }
    ensures effect { OnOk result (IsFresh view.entry.circuit.now.arranged effect.new) }
{
    let _signals = tables.words.circuit.signals();
    spread(view, tables.readers, fault, effect)?;
    let pins = tables.pins;
    add_reached(
        view,
        pins,
        fault,
        number,
        effect.overlay.words(),
        &effect.reached,
        counts,
        row,
    );
    effect.clear();
    Ok(())
}

/// Counts what the pins of gates block of a fault in some lanes of a group.
fn add_reached(
    view: BlockView<'_>,
    pins: &GatePins,
    fault: Stuck,
    number: u32,
    delta: &[u128],
    reached: &[u32],
    counts: &mut [PinCount],
    row: &mut [u128],
)
    requires view { HasWords view.circuit.now.arranged view.good.now }
    requires delta { length (names view.circuit.now.arranged) ≤ length delta.now }
    requires starts { length pins.now.starts.items ≡ length (names view.circuit.now.arranged) }
    requires within { All (λ s. s < length (names view.circuit.now.arranged)) reached.now }
    requires places { (place : ℕ) (kind : Kind) (reads : List ℕ)
        → gate_of view.circuit.now.arranged place ≡ Some (kind, reads)
        → slice_index_or pins.now.starts.items place 0 + length reads ≤ length counts.old }
    requires room { length row.old ≡ length counts.old }
    ensures { AreAdded number (StopsReached view.entry.circuit.now.arranged (stuck_fault fault)
        view.entry.good.now delta.now view.entry.lanes pins.now.starts.items reached.now)
        counts.old counts.new row.old row.new }
{
    for place in reached {
        let gate = FaultyGate {
            good: view.good,
            delta,
            fault,
            place: *place,
        };
        let start = pins.starts[*place as usize];
        add_gate(view.circuit, gate, view.lanes, start, number, counts, row);
    }
}

/// Counts what the pins of a gate block of a fault in some lanes of a group. They begin at a place
/// of the list of pins.
fn add_gate(
    circuit: &FlatCircuit,
    gate: FaultyGate<'_>,
    lanes: u128,
    start: u32,
    number: u32,
    counts: &mut [PinCount],
    row: &mut [u128],
)
    requires words { HasWords circuit.now.arranged gate.good.now }
    requires delta { length (names circuit.now.arranged) ≤ length gate.delta.now }
    requires place { gate.place < length (names circuit.now.arranged) }
    requires pins { (kind : Kind) (reads : List ℕ)
        → gate_of circuit.now.arranged gate.place ≡ Some (kind, reads)
        → start + length reads ≤ length counts.old }
    requires room { length row.old ≡ length counts.old }
    ensures { AreAdded number (λ i k. (pin : ℕ) × (i ≡ start + pin) × (lane lanes k ≡ true)
        × Stops circuit.now.arranged (stuck_fault gate.entry.fault) gate.entry.good.now
        gate.entry.delta.now gate.entry.place pin k) counts.old counts.new row.old row.new }
{
    let Some(driver) = circuit.gate_of(gate.place) else {
        return;
    };
    let Some(value) = controlling_value(driver.kind) else {
        return;
    };
    let same = lanes ^ (lanes & gate.delta[gate.place as usize]);
    let stopped = same & entered(gate, driver.pins);
    for (pin, read) in driver.pins.iter().enumerate() {
        let blocked = steady(gate, pin, *read, value, stopped);
        note(counts, row, start as usize + pin, number, blocked);
    }
}
