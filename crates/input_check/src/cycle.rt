//! Cycles of gates, by the numbers of their names.

use crate::bench::Netlist;
use std::alloc::{AllocError, Global};

/// A cycle of gates.
#[derive(Drop)]
pub(crate) struct Cycle {
    /// The gate at which the error is reported: it is on the cycle or fed by it.
    pub(crate) at: usize,
    /// The gates on the cycle: each feeds the next one, and the last is the first again.
    pub(crate) gates: Vec<usize>,
}

/// The state of a gate in the search.
#[derive(Clone, Copy)]
enum State {
    /// Unknown so far.
    New,
    /// On the path from the first gate of the search.
    Open,
    /// Done: the gates that feed it are known.
    Done,
}

/// A search for cycles, from gates to the gates that feed them.
#[derive(Drop)]
struct Walk {
    alloc: Global,
    /// The state of each gate.
    states: Vec<State>,
    /// Whether a cycle with the gate was found.
    is_reported: Vec<bool>,
    /// The gates on the path, each with its pin that comes next.
    path: Vec<(usize, usize)>,
    found: Vec<Cycle>,
}

/// Returns cycles of gates, at least one of several cycles with a gate in common. The first is
/// reported at the first gate of the file that is on a cycle or fed by one.
pub(crate) fn cycles(alloc: Global, netlist: &Netlist<'_>) -> Result<Vec<Cycle>, AllocError> {
    let count = netlist.names.len();
    let mut walk = Walk {
        alloc,
        states: vec![in alloc; State::New; count]?,
        is_reported: vec![in alloc; false; count]?,
        path: Vec::new(alloc),
        found: Vec::new(alloc),
    };
    for gate in 0..count {
        walk.start(gate, netlist)?;
    }
    Ok(walk.found)
}

impl Walk {
    /// Searches from a gate, if it is unknown.
    fn start(&mut self, gate: usize, netlist: &Netlist<'_>) -> Result<(), AllocError> {
        self.enter(gate)?;
        // Each pin is visited once, and each gate is left once.
        for _ in 0..u64::MAX {
            let Some((visited, pin)) = self.path.pop() else {
                break;
            };
            self.step(gate, visited, pin, netlist)?;
        }
        Ok(())
    }

    /// Puts a gate on the path, if it is unknown.
    fn enter(&mut self, gate: usize) -> Result<(), AllocError> {
        if let Some(state) = self.states.get_mut(gate)
            && matches!(*state, State::New)
        {
            *state = State::Open;
            self.path.push((gate, 0))?;
        }
        Ok(())
    }

    /// Visits a pin of a gate, which was at the end of the path, or leaves the gate.
    fn step(
        &mut self,
        root: usize,
        gate: usize,
        pin: usize,
        netlist: &Netlist<'_>,
    ) -> Result<(), AllocError> {
        let Some(name) = netlist.pin(gate, pin) else {
            if let Some(state) = self.states.get_mut(gate) {
                *state = State::Done;
            }
            return Ok(());
        };
        self.path.push((gate, pin.saturating_add(1)))?;
        let Some(feeding) = netlist.names.get_index_of(name) else {
            return Ok(());
        };
        match self.states.get(feeding) {
            Some(State::Open) => self.close(root, feeding),
            _ => self.enter(feeding),
        }
    }

    /// Adds the cycle that the end of the path closes by reading a gate of the path, if none of its
    /// gates was reported.
    fn close(&mut self, root: usize, gate: usize) -> Result<(), AllocError> {
        let mut gates = vec![in self.alloc; gate]?;
        for (on_path, _) in self.path.iter().rev() {
            gates.push(*on_path)?;
            if *on_path == gate {
                break;
            }
        }
        let is_reported = |gate: &usize| self.is_reported.get(*gate).copied().unwrap_or(false);
        if gates.iter().any(is_reported) {
            return Ok(());
        }
        let at = if self.found.is_empty() {
            root
        } else {
            gates.iter().copied().min().unwrap_or(gate)
        };
        self.report(Cycle { at, gates })
    }

    /// Adds a cycle.
    fn report(&mut self, cycle: Cycle) -> Result<(), AllocError> {
        for gate in &cycle.gates {
            if let Some(is_reported) = self.is_reported.get_mut(*gate) {
                *is_reported = true;
            }
        }
        self.found.push(cycle)?;
        Ok(())
    }
}
