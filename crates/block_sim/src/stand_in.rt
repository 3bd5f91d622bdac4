//! A runtime for a thread that can't borrow that of the thread that started it.

use std::marker::PhantomData;
use std::sync::Wait;
use std::thread::Threads;

/// Stands in for a runtime in a thread that can't borrow it, as a thread that `thread::join`
/// starts: the thread makes one of its own.
#[derive(Drop)]
pub struct StandIn<R> {
    of: PhantomData<R>,
}

impl<R> StandIn<R> {
    /// Makes a runtime of the same kind.
    pub fn new() -> StandIn<R> {
        StandIn { of: PhantomData }
    }
}

impl<R: Threads> Threads for StandIn<R> {}

impl<R: Wait> Wait for StandIn<R> {}
