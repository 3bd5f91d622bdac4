//! The fault-free responses of a circuit to tests.

ghost use Rattle.std.specs.Prelude.{◌≡◌, ◌+◌, ◌<◌, ◌≤◌, ◌^◌, ◌++◌, [], All, IfOk, OnOk, length};
ghost use Rattle.std.specs.Prelude.{map};
ghost use Rattle.bench_net.specs.Circuit.{IsCircuit};
ghost use Rattle.bench_net.specs.Scan.{names, observers, signal, sources};
ghost use Rattle.patterns.specs.Least.{below};
ghost use Rattle.patterns.specs.Making.{with_test};
ghost use Rattle.patterns.specs.Tests.{IsTestList, max_tests};
ghost use Rattle.block_sim.specs.Responses.{AreResponses, lane_row};

use bench_net::Circuit;
use flat_circuit::flat::FlatCircuit;
use flat_circuit::words::evaluate;
use patterns::{PushFault, Tests};
use std::alloc::{AllocError, Global};

/// Returns the fault-free responses of a circuit: for each test one row of bits. A row begins with
/// the bits of the OUTPUT lines, in order. The bits that the flip-flops capture at their data pins
/// follow, in the order of the DFF lines. The rows are a list of tests. With the same inputs before
/// them, the captured bits are the capture tests of launch-on-capture pairs. (Bushnell and Agrawal,
/// Essentials of Electronic Testing, chapter 12, on delay test.)
///
/// Each gate is evaluated once for 128 tests. It takes a bit for each observer and test, and some
/// memory for each signal and pin.
pub fn responses(alloc: Global, circuit: Circuit, tests: &Tests) -> Result<Tests, AllocError>
    requires { tests.now.width ≡ length (sources circuit) }
    ensures responses { IfOk result (λ rows. AreResponses circuit tests.now.tests rows) }
    ensures list { IfOk result (λ rows. IsTestList rows) }
{
    let flat = FlatCircuit::new(alloc, circuit)?;
    response_rows(alloc, &flat, tests)
}

/// Returns the responses of a circuit in flat rows.
fn response_rows(alloc: Global, circuit: &FlatCircuit, tests: &Tests) -> Result<Tests, AllocError>
    requires { tests.now.width ≡ length (sources circuit.now.statements) }
    ensures responses { IfOk result (λ rows. AreResponses circuit.now.statements tests.now.tests
        rows) }
    ensures list { IfOk result (λ rows. IsTestList rows) }
{
    let signals = circuit.signals() as usize;
    let shown = observed_signals(alloc, circuit.circuit())?;
    let observed = circuit.placed(alloc, &shown)?;
    let mut words = vec![in alloc; 0u128; signals]?;
    let mut row = vec![in alloc; false; observed.len()]?;
    let mut rows = Tests::new(alloc, observed.len() as u32);
    add_groups(
        alloc, circuit, tests, &observed, &mut words, &mut row, &mut rows,
    )?;
    let _width = rows.width();
    Ok(rows)
}

/// Returns the signals of the observers, in order.
fn observed_signals(alloc: Global, circuit: &Circuit) -> Result<Vec<u32>, AllocError>
    ensures signals { IfOk result (λ observed. observed.items
        ≡ map (λ o. signal circuit.now o.1) (observers circuit.now)) }
    ensures within { IfOk result (λ observed.
        All (λ s. s < length (names circuit.now)) observed.items) }
    ensures few { IfOk result (λ observed. length observed.items < 2 ^ 32) }
{
    let mut observed = Vec::new(alloc);
    observed.extend_from_slice(circuit.outputs())?;
    for cell in circuit.scan_cells() {
        observed.push(cell.d)?;
    }
    let _signals = circuit.signals();
    Ok(observed)
}

/// Adds the responses to the tests of all groups to empty rows.
fn add_groups(
    alloc: Global,
    circuit: &FlatCircuit,
    tests: &Tests,
    observed: &[u32],
    words: &mut [u128],
    row: &mut [bool],
    rows: &mut Tests,
) -> Result<(), AllocError>
    requires circuit { IsCircuit circuit.now.arranged }
    requires tests { tests.now.width ≡ length (sources circuit.now.arranged) }
    requires observed { observed.now
        ≡ map (λ o. signal circuit.now.arranged o.1) (observers circuit.now.arranged) }
    requires within { All (λ s. s < length (names circuit.now.arranged)) observed.now }
    requires words { length words.old ≡ length (names circuit.now.arranged) }
    requires row { length row.old ≡ length observed.now }
    requires width { rows.old.width ≡ length observed.now }
    requires empty { rows.old.tests ≡ [] }
    ensures { OnOk result (AreResponses circuit.now.arranged tests.now.tests rows.new) }
{
    let _width = tests.width();
    for group in 0..tests.blocks().div_ceil(2) {
        evaluate(circuit, tests, group, words);
        let size = (tests.count() - 128 * group).min(128);
        add_lanes(alloc, observed, words, size, row, rows)?;
    }
    Ok(())
}

/// Adds the rows of the first lanes of a group's words.
fn add_lanes(
    alloc: Global,
    observed: &[u32],
    words: &[u128],
    size: u32,
    row: &mut [bool],
    rows: &mut Tests,
) -> Result<(), AllocError>
    requires size { size ≤ 128 }
    requires within { All (λ s. s < length words.now) observed.now }
    requires row { length row.old ≡ length observed.now }
    requires width { rows.old.width ≡ length observed.now }
    requires room { length rows.old.tests + size ≤ max_tests }
    ensures rows { OnOk result (rows.new.tests
        ≡ rows.old.tests ++ map (lane_row observed.now words.now) (below size)) }
    ensures width { rows.new.width ≡ rows.old.width }
{
    for lane in 0..size {
        read_lane(observed, words, lane, row);
        add_row(alloc, row, rows)?;
    }
    Ok(())
}

/// Reads the bit of one lane of each observed signal.
fn read_lane(observed: &[u32], words: &[u128], lane: u32, row: &mut [bool])
    requires lane { lane < 128 }
    requires within { All (λ s. s < length words.now) observed.now }
    requires row { length row.old ≡ length observed.now }
    ensures { row.new ≡ lane_row observed.now words.now lane }
{
    for (place, signal) in observed.iter().enumerate() {
        row[place] = (words[*signal as usize] >> lane) & 1 == 1;
    }
}

/// Adds a row of the right width to rows with room for one.
fn add_row(alloc: Global, row: &[bool], rows: &mut Tests) -> Result<(), AllocError>
    requires room { length rows.old.tests < max_tests }
    requires width { length row.now ≡ rows.old.width }
    ensures added { OnOk result (rows.new ≡ with_test rows.old row.now) }
    ensures width { rows.new.width ≡ rows.old.width }
{
    match rows.push(alloc, row) {
        Ok(()) => Ok(()),
        Err(PushFault::Memory) => Err(AllocError),
        Err(PushFault::TooMany | PushFault::BadWidth) => unreachable!(),
    }
}
