//! The circuit in flat arrays, as the simulation reads it: a row for each signal, at the
//! signal's place.

ghost use Rattle.std.specs.Prelude.{◌≡◌, ◌≢◌, ◌↔◌, ◌<◌, ◌≤◌, ◌++◌, ℕ, All, List, IfOk, IfSome};
ghost use Rattle.std.specs.Prelude.{IfNone, IsTrue, OnOk, Some, length, map, slice_get};
ghost use Rattle.std.specs.Prelude.{slice_index_or};
ghost use Rattle.std.specs.Option.{option_map};
ghost use Rattle.bench_net.specs.declared.Kind.{Kind};
ghost use Rattle.bench_net.specs.Statement.{Name, Statement};
ghost use Rattle.bench_net.specs.Scan.{names, name_of, gate_of, sources};
ghost use Rattle.bench_net.specs.Circuit.{IsCircuit};
ghost use Rattle.bench_net.specs.Level.{HasLevel};
ghost use Rattle.fault_model.specs.Detection.{name_on};
ghost use Rattle.fault_model.specs.Reordered.{in_order, moved_line, place};
ghost use Rattle.flat_circuit.specs.Readers.{IsLive, IsObserved, IsRising};
ghost use Rattle.flat_circuit.specs.Flat.{AreListsOf, ArePlaced, AreReaders, HasMore, IsDriver};
ghost use Rattle.flat_circuit.specs.Flat.{AreLive, AreMoved, HasEnds, IsMoved, IsRow, IsStanding};
ghost use Rattle.flat_circuit.specs.Flat.{AreFlatRows};
ghost use Rattle.flat_circuit.specs.GateForms.{IsFormOf};
ghost use Rattle.flat_circuit.specs.Arranged.{ArePlaces, IsArranged, IsFlowOrder};
ghost use Rattle.flat_circuit.specs.Regions.{lone_reader};

use crate::gate_form::GateForm;
use crate::live::live_signals;
use crate::signal_order::flow_order;
use crate::signal_places::places_of;
use bench_net::{Circuit, Kind, Sink};
use fault_model::{Line, only_gate};
use std::alloc::{AllocError, Global};
use std::marker::Model;
use std::sync::Wait;
use std::thread;
use std::thread::Threads;

/// A gate that drives a signal: its kind and its form, and the signal that each of its pins reads,
/// in order. The first and the last of these are fields of their own.
#[derive(Clone, Copy)]
pub struct FlatGate<'a> {
    pub kind: Kind,
    pub form: GateForm,
    pub first: u32,
    pub last: u32,
    pub pins: &'a [u32],
}

/// The kind of the gate that drives a signal, and its form.
#[derive(Clone, Copy)]
struct Driver {
    kind: Kind,
    form: GateForm,
}

/// The row of a signal: the data that the simulation reads each time it comes to the signal. The
/// pins of its gate and its readers are ranges of common lists. A row has 32 bytes, so two rows are
/// on a cache line. A row that also held the rarely read fields, and places of 8 bytes, had 56
/// bytes. With it a simulation spent most of its time waiting for rows.
///
/// ```text
/// rows     .. | driver observed first last pins_start pins_end readers_start readers_end | ..
/// bytes       |      4        1     4    4          4        4             4           4 |
/// pins     .. | the signals that the gate's pins read    | ..   from pins_start to pins_end
/// readers  .. | the live gates that read it              | ..   from readers_start to readers_end
/// ```
///
/// The fields take 29 bytes; 3 are empty, because the next row begins at a multiple of 4.
#[derive(Clone, Copy)]
struct SignalRow {
    /// `None` for a source.
    driver: Option<Driver>,
    observed: bool,
    /// The signals that the gate's first pin and its last read; most gates have only these. 0 for a
    /// source.
    first: u32,
    last: u32,
    pins_start: u32,
    pins_end: u32,
    readers_start: u32,
    readers_end: u32,
}

impl SignalRow {
    /// Returns the row with its pins and readers after this number of others. It fails for no
    /// circuit, because none has that many pins.
    fn after(&self, pins: u32, readers: u32) -> Result<SignalRow, AllocError>
        ensures { IfOk result (IsMoved pins readers self.now) }
    {
        let moved = |place: u32, by: u32| place.checked_add(by).ok_or(AllocError);
        Ok(SignalRow {
            pins_start: moved(self.pins_start, pins)?,
            pins_end: moved(self.pins_end, pins)?,
            readers_start: moved(self.readers_start, readers)?,
            readers_end: moved(self.readers_end, readers)?,
            ..*self
        })
    }
}

/// The position of a signal in the circuit, which is read once for each class.
#[derive(Clone, Copy)]
struct Standing {
    /// The gate of the pin that is the only sink of the signal; `None` for a stem.
    lone_reader: Option<u32>,
    live: bool,
}

/// The rows of all signals, with their pins and readers, and their positions.
#[derive(Drop)]
struct Lists {
    rows: Vec<SignalRow>,
    standings: Vec<Standing>,
    pins: Vec<u32>,
    readers: Vec<u32>,
}

/// A circuit with the data of its signals that a simulation reads, in flat arrays.
///
/// The simulation goes from gates to the gates that read them. So gates that are near in the
/// circuit are near in its lists. Each gate comes after the signals that it reads. A signal's
/// number in the lists is its place: its number in the circuit with the statements in this order.
#[derive(Drop)]
pub struct FlatCircuit {
    circuit: Circuit,
    /// The signal at each place.
    order: Vec<u32>,
    /// The place of each signal.
    places: Vec<u32>,
    lists: Lists,
}

impl Model for FlatCircuit {
    ghost use Rattle.fault_model.specs.Reordered.{in_order};
    ghost use Rattle.flat_circuit.specs.Flat.{IsArrangedFlat};
    ghost use Rattle.flat_circuit.specs.Arranged.{Arranged};

    ghost Value = { Arranged };

    ghost view = { λ flat. record {
      statements = flat.circuit;
      arranged = in_order flat.circuit flat.order.items;
    } };

    ghost invariant = { λ flat. IsArrangedFlat flat.circuit flat.order.items flat.places.items
        flat.lists.pins.items flat.lists.readers.items flat.lists.rows.items
        flat.lists.standings.items };
}

/// The flat arrays of a circuit, apart from the circuit: the order of its signals, the place of
/// each, and the lists.
#[derive(Drop)]
pub struct FlatRows {
    order: Vec<u32>,
    places: Vec<u32>,
    lists: Lists,
}

/// Makes the rows of a circuit. It takes a row and two numbers for each signal, and a few numbers
/// for each pin.
pub fn flat_rows(alloc: Global, circuit: &Circuit) -> Result<FlatRows, AllocError>
    ensures { IfOk result (λ rows. AreFlatRows circuit.now rows) }
{
    let _signals = circuit.signals();
    let order = flow_order(alloc, circuit)?;
    let live = live_signals(alloc, circuit)?;
    let places = places_of(alloc, circuit, order.as_slice())?;
    let lists = lists_between(alloc, circuit, &order, &places, &live, 0, order.len())?;
    Ok(FlatRows {
        order,
        places,
        lists,
    })
}

/// Makes the rows of a circuit as [`flat_rows`] does, in threads if there are two workers or more.
/// One finds out which signals are live at the same time as the order of the signals, and then each
/// of up to three makes the lists of adjacent places.
pub fn flat_rows_in_threads<R: Threads + Wait>(
    rt: &R,
    alloc: Global,
    circuit: &Circuit,
    workers: u32,
) -> Result<FlatRows, AllocError>
    ensures { IfOk result (λ rows. AreFlatRows circuit.now rows) }
{
    if workers < 2 {
        return flat_rows(alloc, circuit);
    }
    let _signals = circuit.signals();
    let (order, live) = thread::join(
        rt,
        move || flow_order(alloc, circuit),
        move || live_signals(alloc, circuit),
    );
    rows_in_threads(rt, alloc, circuit, order?, live?, workers)
}

/// Makes the rows of a circuit in an order of its signals, in two threads or three.
fn rows_in_threads<R: Threads + Wait>(
    rt: &R,
    alloc: Global,
    circuit: &Circuit,
    order: Vec<u32>,
    live: Vec<bool>,
    workers: u32,
) -> Result<FlatRows, AllocError>
    requires order { IsFlowOrder circuit.now order.items }
    requires room { length live.items ≡ length (names circuit.now) }
    requires live { AreLive circuit.now live.items }
    ensures { IfOk result (λ rows. AreFlatRows circuit.now rows) }
{
    let _signals = circuit.signals();
    let places = places_of(alloc, circuit, order.as_slice())?;
    let lists = lists_in_threads(rt, alloc, circuit, &order, &places, &live, workers)?;
    Ok(FlatRows {
        order,
        places,
        lists,
    })
}

impl FlatCircuit {
    /// Makes a circuit in flat arrays, with the rows of [`flat_rows`].
    pub fn new(alloc: Global, circuit: Circuit) -> Result<FlatCircuit, AllocError>
        ensures { IfOk result (λ flat. flat.statements ≡ circuit) }
    {
        let rows = flat_rows(alloc, &circuit)?;
        Ok(FlatCircuit::with_rows(circuit, rows))
    }

    /// Joins a circuit with its rows.
    pub fn with_rows(circuit: Circuit, rows: FlatRows) -> FlatCircuit
        requires { AreFlatRows circuit rows }
        ensures { result.statements ≡ circuit }
    {
        let FlatRows {
            order,
            places,
            lists,
        } = rows;
        FlatCircuit {
            circuit,
            order,
            places,
            lists,
        }
    }

    /// Returns the circuit as it was given.
    #[inline(always)]
    pub fn circuit(&self) -> &Circuit
        ensures { result.now ≡ self.now.statements }
    {
        &self.circuit
    }

    /// Returns the number of signals.
    pub fn signals(&self) -> u32
        ensures count { result ≡ length (names self.now.arranged) }
        ensures given_count { result ≡ length (names self.now.statements) }
        ensures circuit { IsCircuit self.now.arranged }
        ensures given { IsCircuit self.now.statements }
        ensures arranged { IsArranged self.now.statements self.now.arranged }
        ensures rising { IsRising self.now.arranged }
    {
        self.circuit.signals()
    }

    /// Returns the depth of the circuit: no signal has a greater level.
    #[inline(always)]
    pub fn depth(&self) -> u32
        ensures { (signal : ℕ) → signal < length (names self.now.arranged)
            → (level : ℕ) × HasLevel self.now.arranged signal level × (level ≤ result) }
    {
        let _signals = self.circuit.signals();
        self.circuit.depth()
    }

    /// Returns the place of a signal.
    #[inline(always)]
    pub fn place_of(&self, signal: u32) -> u32
        requires { signal < length (names self.now.statements) }
        ensures place { result ≡ place self.now.statements self.now.arranged signal }
        ensures within { result < length (names self.now.arranged) }
    {
        let _signals = self.circuit.signals();
        self.places[signal as usize]
    }

    /// Returns for each signal its place, by the signal's number.
    pub fn places(&self) -> &[u32]
        ensures count { length result.now ≡ length (names self.now.statements) }
        ensures arranged { IsArranged self.now.statements self.now.arranged }
        ensures places { ArePlaces self.now.statements self.now.arranged result.now }
    {
        let _signals = self.circuit.signals();
        self.places.as_slice()
    }

    /// Returns the places of signals, in their order.
    pub fn placed(&self, alloc: Global, signals: &[u32]) -> Result<Vec<u32>, AllocError>
        requires { All (λ signal. signal < length (names self.now.statements)) signals.now }
        ensures { IfOk result (λ placed. placed.items
            ≡ map (place self.now.statements self.now.arranged) signals.now) }
    {
        let _signals = self.circuit.signals();
        let mut placed = Vec::new(alloc);
        push_places(self.places.as_slice(), signals, &mut placed)?;
        Ok(placed)
    }

    /// Returns the line of the circuit in the numbers of the lists.
    pub fn moved_line(&self, line: Line) -> Line
        requires { (n : Name) × (name_on self.now.statements line ≡ Some n) }
        ensures { result ≡ moved_line self.now.statements self.now.arranged line }
    {
        match line {
            Line::Stem(signal) => Line::Stem(self.place_of(signal)),
            Line::Pin { gate, pin } => Line::Pin {
                gate: self.place_of(gate),
                pin,
            },
            Line::Data { .. } | Line::Out { .. } => line,
        }
    }

    /// Returns the place of a signal in a test, from 0; `None` for the signal of a gate.
    pub fn source_of(&self, signal: u32) -> Option<u32>
        requires { signal < length (names self.now.arranged) }
        ensures place { IfSome result (λ i.
            slice_get (sources self.now.arranged) i ≡ name_of self.now.arranged signal) }
        ensures none { IfNone result ((i : ℕ) →
            slice_get (sources self.now.arranged) i ≢ name_of self.now.arranged signal) }
    {
        let _signals = self.circuit.signals();
        self.circuit.source_of(self.order[signal as usize])
    }

    /// Returns the gate that drives a signal; `None` for a source.
    #[inline(always)]
    pub fn gate_of(&self, signal: u32) -> Option<FlatGate<'_>>
        requires { signal < length (names self.now.arranged) }
        ensures gate { option_map {U = Kind × List ℕ} (λ g. (g.kind, g.pins.now)) result
            ≡ gate_of self.now.arranged signal }
        ensures form { IfSome result (λ g. IsFormOf g.kind g.form) }
        ensures ends { IfSome result (λ g. HasEnds g.pins.now g.first g.last) }
    {
        let row = &self.lists.rows[signal as usize];
        match row.driver {
            Some(driver) => Some(FlatGate {
                kind: driver.kind,
                form: driver.form,
                first: row.first,
                last: row.last,
                pins: &self.lists.pins[row.pins_start as usize..row.pins_end as usize],
            }),
            None => None,
        }
    }

    /// Returns the live gates that read a signal: the gates that reach an observer. A gate that
    /// reads it twice may be listed twice.
    #[inline(always)]
    pub fn readers_of(&self, signal: u32) -> &[u32]
        requires { signal < length (names self.now.arranged) }
        ensures { AreReaders self.now.arranged signal result.now }
    {
        let row = &self.lists.rows[signal as usize];
        &self.lists.readers[row.readers_start as usize..row.readers_end as usize]
    }

    /// Returns the gate of the pin that is the whole fanout of a signal. `None` for a stem: no pin
    /// or several pins read it, or an observer does.
    #[inline(always)]
    pub fn lone_reader(&self, signal: u32) -> Option<u32>
        requires { signal < length (names self.now.arranged) }
        ensures { result ≡ lone_reader self.now.arranged signal }
    {
        self.lists.standings[signal as usize].lone_reader
    }

    /// Returns whether an observer observes a signal.
    #[inline(always)]
    pub fn is_observed(&self, signal: u32) -> bool
        requires { signal < length (names self.now.arranged) }
        ensures { IsTrue result ↔ IsObserved self.now.arranged signal }
    {
        self.lists.rows[signal as usize].observed
    }

    /// Returns whether a signal is live, that is whether it reaches an observer.
    #[inline(always)]
    pub fn is_live(&self, signal: u32) -> bool
        requires { signal < length (names self.now.arranged) }
        ensures { IsTrue result ↔ IsLive self.now.arranged signal }
    {
        self.lists.standings[signal as usize].live
    }
}

/// A circuit with the signals in the order of their places, the place of each, and whether it is
/// live.
#[derive(Clone, Copy)]
struct Placed<'a> {
    circuit: &'a Circuit,
    order: &'a [u32],
    places: &'a [u32],
    live: &'a [bool],
}

/// Returns the lists of a circuit in the order of its signals, made by two threads, or by three if
/// there are as many workers. Each of the others' lists is copied once.
fn lists_in_threads<R: Threads + Wait>(
    rt: &R,
    alloc: Global,
    circuit: &Circuit,
    order: &[u32],
    places: &[u32],
    live: &[bool],
    workers: u32,
) -> Result<Lists, AllocError>
    requires { ArePlaced circuit.now order.now places.now live.now }
    ensures { IfOk result (AreListsOf (in_order circuit.entry.now order.entry.now)
        0 (length order.entry.now)) }
{
    let end = order.len();
    if workers < 3 {
        return lists_in_halves(rt, alloc, circuit, order, places, live, end);
    }
    let last = end - end / 3;
    let (rest, first) = thread::join(
        rt,
        move || lists_between(alloc, circuit, order, places, live, last, end),
        move || lists_in_halves(rt, alloc, circuit, order, places, live, last),
    );
    join_lists(first?, rest?)
}

/// Returns the lists of the signals at the places up to one, which is not included, made by two
/// threads.
fn lists_in_halves<R: Threads + Wait>(
    rt: &R,
    alloc: Global,
    circuit: &Circuit,
    order: &[u32],
    places: &[u32],
    live: &[bool],
    end: usize,
) -> Result<Lists, AllocError>
    requires placed { ArePlaced circuit.now order.now places.now live.now }
    requires end { end ≤ length order.now }
    ensures { IfOk result (AreListsOf (in_order circuit.entry.now order.entry.now) 0 end) }
{
    let middle = end / 2;
    let (rest, first) = thread::join(
        rt,
        move || lists_between(alloc, circuit, order, places, live, middle, end),
        move || lists_between(alloc, circuit, order, places, live, 0, middle),
    );
    join_lists(first?, rest?)
}

/// The number of pins for each signal that lists get room for at first. Most circuits have fewer.
pub(crate) const PINS_OF_A_SIGNAL: usize = 3;

/// Returns the lists of the signals at the places from one up to another, which is not included. A
/// circuit has an order of its signals, the place of each, and whether it is live. The lists have
/// room for those of all later places, too.
fn lists_between(
    alloc: Global,
    circuit: &Circuit,
    order: &[u32],
    places: &[u32],
    live: &[bool],
    from: usize,
    end: usize,
) -> Result<Lists, AllocError>
    requires placed { ArePlaced circuit.now order.now places.now live.now }
    requires order { from ≤ end }
    requires end { end ≤ length order.now }
    ensures { IfOk result (AreListsOf (in_order circuit.entry.now order.entry.now) from end) }
{
    let _signals = circuit.signals();
    let placed = Placed {
        circuit,
        order,
        places,
        live,
    };
    let room = order.len() - from;
    let pin_room = room.saturating_mul(PINS_OF_A_SIGNAL);
    let mut rows = Vec::with_capacity(alloc, room)?;
    let mut standings = Vec::with_capacity(alloc, room)?;
    let mut pins = Vec::with_capacity(alloc, pin_room)?;
    let mut readers = Vec::with_capacity(alloc, pin_room)?;
    for place in from..end {
        let signal = order[place];
        let row = add_row(placed, signal, &mut pins, &mut readers)?;
        rows.push(row)?;
        standings.push(standing_of(placed, signal))?;
    }
    Ok(Lists {
        rows,
        standings,
        pins,
        readers,
    })
}

/// Joins the lists of some signals with those of the signals at the next places.
fn join_lists(first: Lists, rest: Lists) -> Result<Lists, AllocError>
    ensures { (c : List Statement) (from middle end : ℕ) → AreListsOf c from middle first
        → AreListsOf c middle end rest → IfOk result (AreListsOf c from end) }
{
    let Lists {
        mut rows,
        mut standings,
        mut pins,
        mut readers,
    } = first;
    let Lists {
        rows: next_rows,
        standings: mut next_standings,
        pins: mut next_pins,
        readers: mut next_readers,
    } = rest;
    push_moved(&mut rows, next_rows.as_slice(), pins.len(), readers.len())?;
    standings.append(&mut next_standings)?;
    pins.append(&mut next_pins)?;
    readers.append(&mut next_readers)?;
    Ok(Lists {
        rows,
        standings,
        pins,
        readers,
    })
}

/// Adds rows whose pins and readers stand after this number of others at the end of a list.
fn push_moved(
    rows: &mut Vec<SignalRow>,
    next: &[SignalRow],
    pins: usize,
    readers: usize,
) -> Result<(), AllocError>
    ensures { OnOk result ((moved : List SignalRow) × AreMoved pins readers next.now moved
        × (rows.new.items ≡ rows.old.items ++ moved)) }
{
    let pins = place_of(pins)?;
    let readers = place_of(readers)?;
    rows.reserve(next.len())?;
    for row in next {
        rows.push(row.after(pins, readers)?)?;
    }
    Ok(())
}

/// Returns the position of a signal.
fn standing_of(placed: Placed<'_>, signal: u32) -> Standing
    requires placed { ArePlaced placed.circuit.now placed.order.now placed.places.now
        placed.live.now }
    requires signal { signal < length (names placed.circuit.now) }
    ensures { IsStanding (in_order placed.entry.circuit.now placed.entry.order.now)
        (place placed.entry.circuit.now
        (in_order placed.entry.circuit.now placed.entry.order.now) signal) result }
{
    Standing {
        lone_reader: lone_place(placed, signal),
        live: placed.live[signal as usize],
    }
}

/// Returns the place of the gate whose pin is the only sink of a signal.
fn lone_place(placed: Placed<'_>, signal: u32) -> Option<u32>
    requires placed { ArePlaced placed.circuit.now placed.order.now placed.places.now
        placed.live.now }
    requires signal { signal < length (names placed.circuit.now) }
    ensures { result ≡ lone_reader
        (in_order placed.entry.circuit.now placed.entry.order.now)
        (place placed.entry.circuit.now
        (in_order placed.entry.circuit.now placed.entry.order.now) signal) }
{
    match lone_reader_of(placed.circuit, signal) {
        Some(gate) => Some(placed.places[gate as usize]),
        None => None,
    }
}

/// Returns the element at a place of a list, 0 after its end.
fn at(list: &[u32], place: usize) -> u32
    ensures { result ≡ slice_index_or list.now place 0 }
{
    match list.get(place) {
        Some(number) => *number,
        None => 0,
    }
}

/// Returns a place in a list in the type of a row. It fails for no circuit, because none has that
/// many pins.
fn place_of(length: usize) -> Result<u32, AllocError>
    ensures { IfOk result (λ place. place ≡ length) }
{
    if length <= u32::MAX as usize {
        Ok(length as u32)
    } else {
        Err(AllocError)
    }
}

/// Returns the row of a signal, and adds its pins and readers at the end of the lists.
fn add_row(
    placed: Placed<'_>,
    signal: u32,
    pins: &mut Vec<u32>,
    readers: &mut Vec<u32>,
) -> Result<SignalRow, AllocError>
    requires placed { ArePlaced placed.circuit.now placed.order.now placed.places.now
        placed.live.now }
    requires signal { signal < length (names placed.circuit.now) }
    ensures row { IfOk result (IsRow (in_order placed.entry.circuit.now placed.entry.order.now)
        pins.new.items readers.new.items
        (place placed.entry.circuit.now
        (in_order placed.entry.circuit.now placed.entry.order.now) signal)) }
    ensures pins { IfOk result (λ _. HasMore pins.old.items pins.new.items) }
    ensures readers { IfOk result (λ _. HasMore readers.old.items readers.new.items) }
{
    let pins_start = place_of(pins.len())?;
    let driver = add_pins(placed, signal, pins)?;
    let pins_end = place_of(pins.len())?;
    let first = at(pins.as_slice(), pins_start as usize);
    let last_place = pins_end.saturating_sub(1).max(pins_start);
    let last = at(pins.as_slice(), last_place as usize);
    let readers_start = place_of(readers.len())?;
    let observed = add_readers(placed, signal, readers)?;
    Ok(SignalRow {
        driver,
        observed,
        first,
        last,
        pins_start,
        pins_end,
        readers_start,
        readers_end: place_of(readers.len())?,
    })
}

/// Returns the kind and the form of the gate that drives a signal. Adds the places of the signals
/// that its pins read at the end of the list.
fn add_pins(
    placed: Placed<'_>,
    signal: u32,
    pins: &mut Vec<u32>,
) -> Result<Option<Driver>, AllocError>
    requires placed { ArePlaced placed.circuit.now placed.order.now placed.places.now
        placed.live.now }
    requires signal { signal < length (names placed.circuit.now) }
    ensures { IfOk result (IsDriver (in_order placed.entry.circuit.now placed.entry.order.now)
        (place placed.entry.circuit.now
        (in_order placed.entry.circuit.now placed.entry.order.now) signal)
        pins.old.items pins.new.items) }
{
    match placed.circuit.gate_of(signal) {
        Some(gate) => {
            push_places(placed.places, gate.pins.as_slice(), pins)?;
            let kind = gate.kind;
            let form = GateForm::of(kind);
            Ok(Some(Driver { kind, form }))
        }
        None => Ok(None),
    }
}

/// Adds the places of signals at the end of a list.
fn push_places(places: &[u32], signals: &[u32], pins: &mut Vec<u32>) -> Result<(), AllocError>
    requires { All (λ signal. signal < length places.now) signals.now }
    ensures { OnOk result (pins.new.items
        ≡ pins.old.items ++ map (λ signal. slice_index_or places.now signal 0) signals.now) }
{
    for signal in signals {
        pins.push(places[*signal as usize])?;
    }
    Ok(())
}

/// Returns the gate of the pin that is the only sink of a signal of a circuit.
pub fn lone_reader_of(circuit: &Circuit, signal: u32) -> Option<u32>
    requires { signal < length (names circuit.now) }
    ensures { result ≡ lone_reader circuit.now signal }
{
    only_gate(circuit.sinks_of(signal))
}

/// Returns whether an observer observes a signal. Adds the places of the live gates that read it at
/// the end of the list.
fn add_readers(placed: Placed<'_>, signal: u32, readers: &mut Vec<u32>) -> Result<bool, AllocError>
    requires placed { ArePlaced placed.circuit.now placed.order.now placed.places.now
        placed.live.now }
    requires signal { signal < length (names placed.circuit.now) }
    ensures readers { IfOk result (λ _. (more : List ℕ)
        × (readers.new.items ≡ readers.old.items ++ more)
        × AreReaders (in_order placed.entry.circuit.now placed.entry.order.now)
        (place placed.entry.circuit.now
        (in_order placed.entry.circuit.now placed.entry.order.now) signal) more) }
    ensures observed { IfOk result (λ observed. IsTrue observed
        ↔ IsObserved (in_order placed.entry.circuit.now placed.entry.order.now)
        (place placed.entry.circuit.now
        (in_order placed.entry.circuit.now placed.entry.order.now) signal)) }
{
    let mut observed = false;
    for sink in placed.circuit.sinks_of(signal) {
        match *sink {
            Sink::Pin { gate, pin: _ } => {
                if !placed.live[gate as usize] {
                    continue;
                }
                readers.push(placed.places[gate as usize])?;
            }
            Sink::Data { .. } => observed = true,
            Sink::Out { .. } => observed = true,
        }
    }
    Ok(observed)
}
