//! Calls about the circuit: the kinds and levels of its signals, the signals that its gates read,
//! the pins that read a signal, the sites of its faults, and signals by their names.

ghost use Rattle.std.specs.Prelude.{◌≡◌, ◌≢◌, ◌⊎◌, ◌+◌, ◌<◌, ◌≤◌, IsSome, None, Some, length, take};
ghost use Rattle.std.specs.Prelude.{◌++◌, IsTrue, ◌↔◌, false, slice_get, true, ℕ};
ghost use Rattle.bench_net.specs.Scan.{gate_of, name_of, names};
ghost use Rattle.fault_model.specs.Fault.{Fault};
ghost use Rattle.block_sim.specs.Parts.{Parts};
ghost use Rattle.faultsim_c.specs.Calls.{job_of};
ghost use Rattle.faultsim_c.specs.Circuits.{AreKindsOf, AreLevelsOf, AreRows, AreSitesOf, all_pins};
ghost use Rattle.faultsim_c.specs.Circuits.{fan_in, fan_out, gate_number, kind_number};
ghost use Rattle.faultsim_c.specs.Circuits.{site_of, site_on};

use crate::handle::{FsJob, put, take};
use crate::status::{DONE, NO_JOB, RANGE};
use bench_net::{Circuit, Kind, Sink};
use block_sim::Job;
use fault_model::Line;
use std::alloc::Global;

/// The site of a fault: a line of the circuit, and the bit at which it is stuck. All numbers count
/// from 0.
#[repr(C)]
#[derive(Clone, Copy, PartialEq)]
pub struct FsSite {
    /// 0 for the stem of a signal, 1 for a pin of a gate, 2 for the data pin of a flip-flop, and 3
    /// for an OUTPUT line.
    pub kind: u32,
    /// The signal, the signal that the gate drives, the flip-flop or the OUTPUT line.
    pub at: u32,
    /// The pin of the gate, or 0.
    pub pin: u32,
    /// 0 or 1. A transition fault is slow to leave the bit.
    pub stuck: u32,
}

/// A pin of a gate. Both numbers count from 0.
#[repr(C)]
#[derive(Clone, Copy)]
pub struct FsPin {
    /// The signal that the gate drives.
    pub gate: u32,
    /// The pin of the gate.
    pub pin: u32,
}

/// The kind of a signal that no gate drives.
const SOURCE: u32 = 0;

/// Writes the kind of each signal: 0 for a source, and the number of its gate's kind. The length is
/// the number of signals.
#[unsafe(no_mangle)]
pub extern "C" fn fs_kinds_of(alloc: Global, job: &mut FsJob, kinds: &mut [u32]) -> u32
    ensures done { (parts : Parts) → job_of job.old.held.holding ≡ Some parts
        → length kinds.old ≡ length (names parts.circuit)
        → (result ≡ 0) × AreKindsOf parts.circuit kinds.new }
    ensures range { (parts : Parts) → job_of job.old.held.holding ≡ Some parts
        → length kinds.old ≢ length (names parts.circuit) → result ≡ 4 }
    ensures no_job { job.old.held.holding ≡ None → result ≡ 1 }
    ensures untouched { result ≢ 0 → kinds.new ≡ kinds.old }
    ensures kept { job.new.held.holding ≡ job.old.held.holding }
{
    let Some(holding) = take(alloc, job) else {
        return NO_JOB;
    };
    let status = kinds_in(holding.session.job(), kinds);
    put(alloc, job, holding);
    status
}

/// Writes the kind of each signal of a job.
fn kinds_in(job: &Job, kinds: &mut [u32]) -> u32
    ensures done { length kinds.old ≡ length (names job.now.circuit)
        → (result ≡ 0) × AreKindsOf job.now.circuit kinds.new }
    ensures range { length kinds.old ≢ length (names job.now.circuit) → result ≡ 4 }
    ensures untouched { result ≢ 0 → kinds.new ≡ kinds.old }
{
    let circuit = job.circuit();
    if kinds.len() != circuit.signals() as usize {
        return RANGE;
    }
    fill_kinds(circuit, kinds);
    DONE
}

/// Fills an array with the kinds of the signals.
fn fill_kinds(circuit: &Circuit, kinds: &mut [u32])
    requires { length kinds.old ≡ length (names circuit.now) }
    ensures { AreKindsOf circuit.now kinds.new }
{
    for signal in 0..circuit.signals() {
        kinds[signal as usize] = kind_of(circuit, signal);
    }
}

/// Returns the number of the kind of the gate that drives a signal, or of a source.
fn kind_of(circuit: &Circuit, signal: u32) -> u32
    requires { signal < length (names circuit.now) }
    ensures { result ≡ kind_number (gate_of circuit.now signal) }
{
    match circuit.gate_of(signal) {
        Some(gate) => gate_number(gate.kind),
        None => SOURCE,
    }
}

/// Returns the number of a kind of gate.
fn gate_number(kind: Kind) -> u32
    ensures { result ≡ gate_number kind }
{
    match kind {
        Kind::And => 1,
        Kind::Nand => 2,
        Kind::Or => 3,
        Kind::Nor => 4,
        Kind::Xor => 5,
        Kind::Xnor => 6,
        Kind::Not => 7,
        Kind::Buff => 8,
    }
}

/// Writes the level of each signal: 0 for a source, and for a gate one more than the greatest level
/// of the signals that it reads. The length is the number of signals.
#[unsafe(no_mangle)]
pub extern "C" fn fs_levels_of(alloc: Global, job: &mut FsJob, levels: &mut [u32]) -> u32
    ensures done { (parts : Parts) → job_of job.old.held.holding ≡ Some parts
        → length levels.old ≡ length (names parts.circuit)
        → (result ≡ 0) × AreLevelsOf parts.circuit levels.new }
    ensures range { (parts : Parts) → job_of job.old.held.holding ≡ Some parts
        → length levels.old ≢ length (names parts.circuit) → result ≡ 4 }
    ensures no_job { job.old.held.holding ≡ None → result ≡ 1 }
    ensures untouched { result ≢ 0 → levels.new ≡ levels.old }
    ensures kept { job.new.held.holding ≡ job.old.held.holding }
{
    let Some(holding) = take(alloc, job) else {
        return NO_JOB;
    };
    let status = levels_in(holding.session.job(), levels);
    put(alloc, job, holding);
    status
}

/// Writes the level of each signal of a job.
fn levels_in(job: &Job, levels: &mut [u32]) -> u32
    ensures done { length levels.old ≡ length (names job.now.circuit)
        → (result ≡ 0) × AreLevelsOf job.now.circuit levels.new }
    ensures range { length levels.old ≢ length (names job.now.circuit) → result ≡ 4 }
    ensures untouched { result ≢ 0 → levels.new ≡ levels.old }
{
    let circuit = job.circuit();
    if levels.len() != circuit.signals() as usize {
        return RANGE;
    }
    fill_levels(circuit, levels);
    DONE
}

/// Fills an array with the levels of the signals.
fn fill_levels(circuit: &Circuit, levels: &mut [u32])
    requires { length levels.old ≡ length (names circuit.now) }
    ensures { AreLevelsOf circuit.now levels.new }
{
    for signal in 0..circuit.signals() {
        levels[signal as usize] = circuit.level_of(signal);
    }
}

/// Writes the fan-in of each signal: the signals that the pins of its gate read, in order. Those of
/// signal `s` are `pins[starts[s]]` to before `pins[starts[s + 1]]`, and `wanted` is the number of
/// all. The lengths are the number of signals and one more, and `wanted`.
#[unsafe(no_mangle)]
pub extern "C" fn fs_fan_ins_of(
    alloc: Global,
    job: &mut FsJob,
    starts: &mut [u32],
    pins: &mut [u32],
    wanted: &mut usize,
) -> u32
    ensures done { (parts : Parts) → job_of job.old.held.holding ≡ Some parts
        → length starts.old ≡ length (names parts.circuit) + 1
        → length pins.old ≡ length (all_pins parts.circuit) → (result ≡ 0)
        × AreRows (fan_in parts.circuit) (length (names parts.circuit)) starts.new pins.new }
    ensures range { (parts : Parts) → job_of job.old.held.holding ≡ Some parts
        → (length starts.old ≢ length (names parts.circuit) + 1)
        ⊎ (length pins.old ≢ length (all_pins parts.circuit)) → result ≡ 4 }
    ensures wanted { (parts : Parts) → job_of job.old.held.holding ≡ Some parts
        → wanted.new ≡ length (all_pins parts.circuit) }
    ensures no_job { job.old.held.holding ≡ None → (result ≡ 1) × (wanted.new ≡ wanted.old) }
    ensures untouched { result ≢ 0 → (starts.new ≡ starts.old) × (pins.new ≡ pins.old) }
    ensures kept { job.new.held.holding ≡ job.old.held.holding }
{
    let Some(holding) = take(alloc, job) else {
        return NO_JOB;
    };
    let status = fan_ins_in(holding.session.job(), starts, pins, wanted);
    put(alloc, job, holding);
    status
}

/// Writes the fan-in of each signal of a job.
fn fan_ins_in(job: &Job, starts: &mut [u32], pins: &mut [u32], wanted: &mut usize) -> u32
    ensures done { length starts.old ≡ length (names job.now.circuit) + 1
        → length pins.old ≡ length (all_pins job.now.circuit) → (result ≡ 0)
        × AreRows (fan_in job.now.circuit) (length (names job.now.circuit)) starts.new pins.new }
    ensures range { (length starts.old ≢ length (names job.now.circuit) + 1)
        ⊎ (length pins.old ≢ length (all_pins job.now.circuit)) → result ≡ 4 }
    ensures wanted { wanted.new ≡ length (all_pins job.now.circuit) }
    ensures untouched { result ≢ 0 → (starts.new ≡ starts.old) × (pins.new ≡ pins.old) }
{
    let circuit = job.circuit();
    *wanted = pin_count(circuit);
    if starts.len() != circuit.signals() as usize + 1 || pins.len() != *wanted {
        return RANGE;
    }
    fill_fan_ins(circuit, starts, pins);
    DONE
}

/// Returns the number of pins of all gates.
fn pin_count(circuit: &Circuit) -> usize
    ensures { result ≡ length (all_pins circuit.now) }
{
    let mut count = 0;
    for signal in 0..circuit.signals() {
        count += fan_in(circuit, signal).len();
    }
    count
}

/// Fills arrays with the fan-ins of all signals and their starts.
fn fill_fan_ins(circuit: &Circuit, starts: &mut [u32], pins: &mut [u32])
    requires starts { length starts.old ≡ length (names circuit.now) + 1 }
    requires pins { length pins.old ≡ length (all_pins circuit.now) }
    ensures { AreRows (fan_in circuit.now) (length (names circuit.now)) starts.new pins.new }
{
    let mut place = 0;
    for signal in 0..circuit.signals() {
        starts[signal as usize] = place as u32;
        place = put_row(fan_in(circuit, signal), place, pins);
    }
    starts[circuit.signals() as usize] = place as u32;
}

/// Returns the signals that the pins of a signal's gate read.
fn fan_in(circuit: &Circuit, signal: u32) -> &[u32]
    requires { signal < length (names circuit.now) }
    ensures { result.now ≡ fan_in circuit.now signal }
{
    match circuit.gate_of(signal) {
        Some(gate) => gate.pins.as_slice(),
        None => &[],
    }
}

/// Copies a row into an array at a place, and returns the place after it.
fn put_row(row: &[u32], place: usize, items: &mut [u32]) -> usize
    requires { place + length row.now ≤ length items.old }
    ensures after { result ≡ place + length row.now }
    ensures long { length items.new ≡ length items.old }
    ensures rows { take (place + length row.now) items.new ≡ take place items.old ++ row.now }
{
    let (_, back) = items.split_at_mut(place);
    let (front, _) = back.split_at_mut(row.len());
    front.copy_from_slice(row);
    place + row.len()
}

/// Writes the fan-out of each signal: the pins of gates that read it, by the signal of the gate and
/// then by pin. Those of signal `s` are `pins[starts[s]]` to before `pins[starts[s + 1]]`, and
/// `wanted` is the number of all. The lengths are the number of signals and one more, and `wanted`.
#[unsafe(no_mangle)]
pub extern "C" fn fs_fan_outs_of(
    alloc: Global,
    job: &mut FsJob,
    starts: &mut [u32],
    pins: &mut [FsPin],
    wanted: &mut usize,
) -> u32
    ensures done { (parts : Parts) → job_of job.old.held.holding ≡ Some parts
        → length starts.old ≡ length (names parts.circuit) + 1
        → length pins.old ≡ length (all_pins parts.circuit) → (result ≡ 0)
        × AreRows (fan_out parts.circuit) (length (names parts.circuit)) starts.new pins.new }
    ensures range { (parts : Parts) → job_of job.old.held.holding ≡ Some parts
        → (length starts.old ≢ length (names parts.circuit) + 1)
        ⊎ (length pins.old ≢ length (all_pins parts.circuit)) → result ≡ 4 }
    ensures wanted { (parts : Parts) → job_of job.old.held.holding ≡ Some parts
        → wanted.new ≡ length (all_pins parts.circuit) }
    ensures no_job { job.old.held.holding ≡ None → (result ≡ 1) × (wanted.new ≡ wanted.old) }
    ensures untouched { result ≢ 0 → (starts.new ≡ starts.old) × (pins.new ≡ pins.old) }
    ensures kept { job.new.held.holding ≡ job.old.held.holding }
{
    let Some(holding) = take(alloc, job) else {
        return NO_JOB;
    };
    let status = fan_outs_in(holding.session.job(), starts, pins, wanted);
    put(alloc, job, holding);
    status
}

/// Writes the fan-out of each signal of a job.
fn fan_outs_in(job: &Job, starts: &mut [u32], pins: &mut [FsPin], wanted: &mut usize) -> u32
    ensures done { length starts.old ≡ length (names job.now.circuit) + 1
        → length pins.old ≡ length (all_pins job.now.circuit) → (result ≡ 0)
        × AreRows (fan_out job.now.circuit) (length (names job.now.circuit)) starts.new pins.new }
    ensures range { (length starts.old ≢ length (names job.now.circuit) + 1)
        ⊎ (length pins.old ≢ length (all_pins job.now.circuit)) → result ≡ 4 }
    ensures wanted { wanted.new ≡ length (all_pins job.now.circuit) }
    ensures untouched { result ≢ 0 → (starts.new ≡ starts.old) × (pins.new ≡ pins.old) }
{
    let circuit = job.circuit();
    *wanted = pin_count(circuit);
    if starts.len() != circuit.signals() as usize + 1 || pins.len() != *wanted {
        return RANGE;
    }
    fill_fan_outs(circuit, starts, pins);
    DONE
}

/// Fills arrays with the fan-outs of all signals and their starts.
fn fill_fan_outs(circuit: &Circuit, starts: &mut [u32], pins: &mut [FsPin])
    requires starts { length starts.old ≡ length (names circuit.now) + 1 }
    requires pins { length pins.old ≡ length (all_pins circuit.now) }
    ensures { AreRows (fan_out circuit.now) (length (names circuit.now)) starts.new pins.new }
{
    let mut place = 0;
    for signal in 0..circuit.signals() {
        starts[signal as usize] = place as u32;
        place = put_fan_out(circuit, signal, place, pins);
    }
    let end = circuit.signals() as usize;
    starts[end] = place as u32;
}

/// Writes the fan-out of a signal into an array at a place, and returns the place after it.
fn put_fan_out(circuit: &Circuit, signal: u32, place: usize, pins: &mut [FsPin]) -> usize
    requires signal { signal < length (names circuit.now) }
    requires room { place + length (fan_out circuit.now signal) ≤ length pins.old }
    ensures after { result ≡ place + length (fan_out circuit.now signal) }
    ensures long { length pins.new ≡ length pins.old }
    ensures rows { take (place + length (fan_out circuit.now signal)) pins.new
        ≡ take place pins.old ++ fan_out circuit.now signal }
{
    let _signals = circuit.signals();
    let _name = circuit.name_of(signal);
    let sinks = circuit.sinks_of(signal);
    let mut next = place;
    for sink in sinks {
        if let Sink::Pin { gate, pin } = *sink {
            pins[next] = FsPin { gate, pin };
            next += 1;
        }
    }
    next
}

/// Writes the number of the signal of a name. The status is 4 if no signal has the name.
#[unsafe(no_mangle)]
pub extern "C" fn fs_signal_named(
    alloc: Global,
    job: &mut FsJob,
    name: &[u8],
    signal: &mut u32,
) -> u32
    ensures done { result ≡ 0 → (parts : Parts) × (job_of job.old.held.holding ≡ Some parts)
        × (name_of parts.circuit signal.new ≡ Some name.now) }
    ensures range { result ≡ 4 → (parts : Parts) × (job_of job.old.held.holding ≡ Some parts)
        × ((s : ℕ) → name_of parts.circuit s ≢ Some name.now) }
    ensures statuses { IsSome job.old.held.holding → (result ≡ 0) ⊎ (result ≡ 4) }
    ensures no_job { job.old.held.holding ≡ None → result ≡ 1 }
    ensures untouched { result ≢ 0 → signal.new ≡ signal.old }
    ensures kept { job.new.held.holding ≡ job.old.held.holding }
{
    let Some(holding) = take(alloc, job) else {
        return NO_JOB;
    };
    let status = named_in(holding.session.job(), name, signal);
    put(alloc, job, holding);
    status
}

/// Writes the number of the signal of a name, in a job.
fn named_in(job: &Job, name: &[u8], signal: &mut u32) -> u32
    ensures done { result ≡ 0 → name_of job.now.circuit signal.new ≡ Some name.now }
    ensures range { result ≡ 4 → (s : ℕ) → name_of job.now.circuit s ≢ Some name.now }
    ensures statuses { (result ≡ 0) ⊎ (result ≡ 4) }
    ensures untouched { result ≢ 0 → signal.new ≡ signal.old }
{
    let circuit = job.circuit();
    for number in 0..circuit.signals() {
        if has_name(circuit, number, name) {
            *signal = number;
            return DONE;
        }
    }
    RANGE
}

/// Returns whether a signal has a name.
fn has_name(circuit: &Circuit, signal: u32, name: &[u8]) -> bool
    requires { signal < length (names circuit.now) }
    ensures { IsTrue result ↔ (name_of circuit.now signal ≡ Some name.now) }
{
    circuit.name_of(signal).as_bytes() == name
}

/// Writes the site of each fault. The length is the number of faults.
#[unsafe(no_mangle)]
pub extern "C" fn fs_sites_of(alloc: Global, job: &mut FsJob, sites: &mut [FsSite]) -> u32
    ensures done { (parts : Parts) → job_of job.old.held.holding ≡ Some parts
        → length sites.old ≡ length parts.list.list
        → (result ≡ 0) × AreSitesOf parts sites.new }
    ensures range { (parts : Parts) → job_of job.old.held.holding ≡ Some parts
        → length sites.old ≢ length parts.list.list → result ≡ 4 }
    ensures no_job { job.old.held.holding ≡ None → result ≡ 1 }
    ensures untouched { result ≢ 0 → sites.new ≡ sites.old }
    ensures kept { job.new.held.holding ≡ job.old.held.holding }
{
    let Some(holding) = take(alloc, job) else {
        return NO_JOB;
    };
    let status = sites_in(holding.session.job(), sites);
    put(alloc, job, holding);
    status
}

/// Writes the site of each fault of a job.
fn sites_in(job: &Job, sites: &mut [FsSite]) -> u32
    ensures done { length sites.old ≡ length job.now.list.list
        → (result ≡ 0) × AreSitesOf job.now sites.new }
    ensures range { length sites.old ≢ length job.now.list.list → result ≡ 4 }
    ensures untouched { result ≢ 0 → sites.new ≡ sites.old }
{
    if sites.len() != job.faults().count() as usize {
        return RANGE;
    }
    fill_sites(job, sites);
    DONE
}

/// Fills an array with the sites of the faults.
fn fill_sites(job: &Job, sites: &mut [FsSite])
    requires { length sites.old ≡ length job.now.list.list }
    ensures { AreSitesOf job.now sites.new }
{
    for fault in 0..job.faults().count() {
        sites[fault as usize] = site_of(job, fault);
    }
}

/// Returns the site of a fault.
fn site_of(job: &Job, fault: u32) -> FsSite
    requires { fault < length job.now.list.list }
    ensures { (f : Fault) → slice_get job.now.list.list fault ≡ Some f → result ≡ site_of f }
{
    let faults = job.faults();
    site_on(faults.line_of(fault), u32::from(faults.stuck_of(fault)))
}

/// Returns the site of a line with a bit.
fn site_on(line: Line, stuck: u32) -> FsSite
    ensures { result ≡ site_on line stuck }
{
    let (kind, at, pin) = match line {
        Line::Stem(signal) => (0, signal, 0),
        Line::Pin { gate, pin } => (1, gate, pin),
        Line::Data { cell } => (2, cell, 0),
        Line::Out { output } => (3, output, 0),
    };
    FsSite {
        kind,
        at,
        pin,
        stuck,
    }
}

/// Writes the number of the fault of a site. The status is 4 if the circuit has no such fault.
#[unsafe(no_mangle)]
pub extern "C" fn fs_fault_at(alloc: Global, job: &mut FsJob, site: &FsSite, fault: &mut u32) -> u32
    ensures done { result ≡ 0 → (parts : Parts) × (job_of job.old.held.holding ≡ Some parts)
        × ((f : Fault) × (slice_get parts.list.list fault.new ≡ Some f)
        × (site_of f ≡ site.now)) }
    ensures range { result ≡ 4 → (parts : Parts) × (job_of job.old.held.holding ≡ Some parts)
        × ((i : ℕ) (f : Fault) → slice_get parts.list.list i ≡ Some f → site_of f ≢ site.now) }
    ensures statuses { IsSome job.old.held.holding → (result ≡ 0) ⊎ (result ≡ 4) }
    ensures no_job { job.old.held.holding ≡ None → result ≡ 1 }
    ensures untouched { result ≢ 0 → fault.new ≡ fault.old }
    ensures kept { job.new.held.holding ≡ job.old.held.holding }
{
    let Some(holding) = take(alloc, job) else {
        return NO_JOB;
    };
    let status = fault_in(holding.session.job(), *site, fault);
    put(alloc, job, holding);
    status
}

/// Writes the number of the fault of a site, in a job.
fn fault_in(job: &Job, site: FsSite, fault: &mut u32) -> u32
    ensures done { result ≡ 0 → (f : Fault)
        × (slice_get job.now.list.list fault.new ≡ Some f) × (site_of f ≡ site) }
    ensures range { result ≡ 4
        → (i : ℕ) (f : Fault) → slice_get job.now.list.list i ≡ Some f → site_of f ≢ site }
    ensures statuses { (result ≡ 0) ⊎ (result ≡ 4) }
    ensures untouched { result ≢ 0 → fault.new ≡ fault.old }
{
    for number in 0..job.faults().count() {
        if is_same(site_of(job, number), site) {
            *fault = number;
            return DONE;
        }
    }
    RANGE
}

/// Returns whether two sites are the same.
fn is_same(site: FsSite, other: FsSite) -> bool
    ensures same { result ≡ true → site ≡ other }
    ensures apart { result ≡ false → site ≢ other }
{
    site == other
}
