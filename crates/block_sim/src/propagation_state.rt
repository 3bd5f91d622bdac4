//! The changes of a fault on a block: the signals that differ, and the gates that wait.

ghost use Rattle.std.specs.Prelude.{◌≡◌, ◌+◌, ◌<◌, ◌^◌, IfOk, length};
ghost use Rattle.block_sim.specs.PropagationState.{IsAtRest};

use event_queue::{Overlay, Places};
use std::alloc::{AllocError, Global};

/// The words that differ, the gates that wait, and the number of evaluations of gates.
#[derive(Drop)]
pub struct PropagationState {
    pub overlay: Overlay,
    pub waiting: Places,
    pub evaluations: u64,
}

impl PropagationState {
    /// Makes room for this many signals: none differs, and no gate waits.
    pub fn new(alloc: Global, signals: u32) -> Result<PropagationState, AllocError>
        requires { signals + 1 < 2 ^ 32 }
        ensures rest { IfOk result IsAtRest }
        ensures room { IfOk result (λ changes. length changes.overlay ≡ signals) }
        ensures fresh { IfOk result (λ changes. changes.evaluations ≡ 0) }
    {
        let overlay = Overlay::new(alloc, signals)?;
        let waiting = Places::new(alloc, signals)?;
        Ok(PropagationState {
            overlay,
            waiting,
            evaluations: 0,
        })
    }
}
